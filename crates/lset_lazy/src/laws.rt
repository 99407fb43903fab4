//! The effect of each row of LazyList's step table (its numbered atomic steps), as a lemma: the contract of a function
//! that does nothing.

ghost use Rattle.lset_lazy.specs.Lazy.{lazy};
ghost use Rattle.lset_lazy.specs.Rows.{LazyRows};

/// Lemma: the row of the step table at which each call starts and, for each row, the thread's access to a word, its
/// private state after the step, and the change of the set. (Herlihy and Shavit's lazy list.)
pub fn rows()
    ensures { LazyRows lazy }
{}
