//! The effect of each row of LockFreeList's step table (its numbered atomic steps), as a lemma: the contract of a
//! function that does nothing.

ghost use Rattle.lset_lock_free.specs.LockFree.{lock_free};
ghost use Rattle.lset_lock_free.specs.Rows.{LockFreeRows};

/// Lemma: the row of the step table at which each call starts and, for each row, the thread's access to a word, its
/// private state after the step, and the change of the set. (Herlihy and Shavit's lock-free list.)
pub fn rows()
    ensures { LockFreeRows lock_free }
{}
