//! Progress of the five lists, as laws about the runs of their step tables. Each law is the contract of an empty
//! function. The laws hold for every schedule, except that freedom from deadlock assumes a fair schedule.
//!
//! In the bounds, N is the number of nodes: the head, the tail, one node for each successful add that each thread may
//! make, and one node for each opening key.
#![tactic(auto)]

ghost use Rattle.std.specs.Prelude.{Bool};
ghost use Rattle.lset_coarse.specs.Coarse.{coarse};
ghost use Rattle.lset_fine.specs.Fine.{fine};
ghost use Rattle.lset_optimistic.specs.Optimistic.{optimistic};
ghost use Rattle.lset_lazy.specs.Lazy.{lazy};
ghost use Rattle.lset_lock_free.specs.LockFree.{lock_free};
ghost use Rattle.lset_progress.specs.Progress.{
  CallsEndAlone,
  CallsEndUnhindered,
  IsLockFree,
  SomeCeilingNeverEnds,
  SomeThreadGetsOn,
  coarse_steps,
  counted,
  fine_steps,
  lazy_steps,
  lock_free_steps,
  lock_free_window,
  optimistic_steps,
};
ghost use Rattle.lset_progress.specs.DeadlockFreedom.{IsDeadlockFree, IsLivelockFree, each_call, lock_window};
ghost use Rattle.lset_progress.specs.Wrong.{
  NoCallsEndAlone,
  NoCallsEndUnhindered,
  NotLivelockFree,
  NotLockFree,
  claiming,
  crossed,
  keeping,
  spinning,
  yielding,
};

/// Theorem: if no other thread holds the lock of a CoarseList with N nodes, a call that runs alone ends within `2N + 3`
/// steps. (Solo termination, of Herlihy and Shavit's coarse-grained list.)
#[tactic(auto, using(crate::proofs::CoarseProgress::coarse_calls_end))]
pub fn coarse_calls_end_alone()
    ensures { CallsEndAlone coarse coarse_steps }
{}

/// Theorem: if no other thread holds a lock of a FineList with N nodes, a call that runs alone ends within `4N + 3`
/// steps. (Solo termination, of Herlihy and Shavit's fine-grained list.)
#[tactic(auto, using(crate::proofs::FineProgress::fine_calls_end))]
pub fn fine_calls_end_alone()
    ensures { CallsEndAlone fine fine_steps }
{}

/// Theorem: if no other thread holds a lock of an OptimisticList with N nodes, a call that runs alone ends within
/// `8N + 9` steps. The call starts again at most once, because validation fails only if another thread has changed
/// nodes that the call read. (Solo termination, of Herlihy and Shavit's optimistic list.)
#[tactic(auto, using(crate::proofs::OptimisticProgress::optimistic_calls_end))]
pub fn optimistic_calls_end_alone()
    ensures { CallsEndAlone optimistic optimistic_steps }
{}

/// Theorem: if no other thread holds a lock of a LazyList with N nodes, a call that runs alone ends within `4N + 15`
/// steps. The theorem includes `ceiling`, although a `ceiling` starts again at a marked node: a thread that has marked
/// a node holds the node's lock until it has unlinked the node, so no node of the chain is marked. (Solo termination,
/// of Heller and others' lazy list.)
#[tactic(auto, using(crate::proofs::LazyProgress::lazy_calls_end))]
pub fn lazy_calls_end_alone()
    ensures { CallsEndAlone lazy lazy_steps }
{}

/// Theorem: a call of a LockFreeList with N nodes that runs alone ends within `4N + 5` steps, whatever state the other
/// threads are in. For a `ceiling`, which starts again at a marked node and unlinks no node, the theorem requires that
/// no node of the chain is marked. (Obstruction freedom, by Herlihy, Luchangco and Moir; the list is Harris's and
/// Michael's.)
#[tactic(auto, using(crate::proofs::LockFreeProgress::lock_free_calls_end))]
pub fn lock_free_calls_end_alone()
    ensures { CallsEndUnhindered lock_free lock_free_steps }
{}

/// Theorem: among any `n(2N + 2)(N + n) + n(4N + 5)` successive steps of `add` and `remove` by the n threads of a
/// LockFreeList with N nodes, at least one ends its call, whichever threads take the steps and whatever else happens
/// between the steps. The theorem also holds for the steps of `add`, `remove`, and `contains`. (Lock freedom of
/// Harris's and Michael's list, as Herlihy and Shavit define it.)
#[tactic(auto, using(crate::proofs::LockFreedom::lock_free_is_lock_free))]
pub fn lock_free_list_is_lock_free()
    ensures { IsLockFree lock_free lock_free_window }
{}

/// Theorem: a `ceiling` of LockFreeList can run forever, even if every other thread is idle, because a completed
/// `remove` can leave its marked node in the chain. Only `add`, `remove`, and `contains` of LockFreeList are
/// obstruction-free.
#[tactic(auto, using(crate::proofs::CeilingWaits::ceiling_waits))]
pub fn a_lock_free_ceiling_may_never_end()
    ensures { SomeCeilingNeverEnds lock_free }
{}

/// Theorem: if a call of a CoarseList is pending, some thread can take a step that is not a failed attempt to take the
/// lock.
#[tactic(auto, using(crate::proofs::CoarseProgress::coarse_gets_on))]
pub fn some_coarse_call_gets_on()
    ensures { SomeThreadGetsOn coarse }
{}

/// Theorem: among any `n(2N + 3)(5n + 1)` successive steps by the n threads of a CoarseList with N nodes, at least one
/// ends its call. Failed attempts to take the lock do not count as steps. (Freedom from livelock.)
#[tactic(auto, using(crate::proofs::CoarseProgress::coarse_livelock_free))]
pub fn coarse_list_is_livelock_free()
    ensures { IsLivelockFree each_call coarse (lock_window coarse_steps) }
{}

/// Theorem: in a fair run of a CoarseList (one in which every thread with a pending call takes another step later),
/// whenever a call is pending, some call ends later. (Freedom from deadlock, as Herlihy and Shavit define it.)
#[tactic(auto, using(crate::proofs::CoarseProgress::coarse_deadlock_free))]
pub fn coarse_list_is_deadlock_free()
    ensures { IsDeadlockFree each_call coarse }
{}

/// Theorem: if a call of a FineList is pending, some thread can take a step that is not a failed attempt to take a
/// lock, because all threads lock nodes in the order of the list. (The order is Herlihy and Shavit's.)
#[tactic(auto, using(crate::proofs::FineProgress::fine_gets_on))]
pub fn some_fine_call_gets_on()
    ensures { SomeThreadGetsOn fine }
{}

/// Theorem: among any `n(4N + 3)(5n + 1)` successive steps by the n threads of a FineList with N nodes, at least one
/// ends its call. Failed attempts to take a lock do not count as steps. (Freedom from livelock.)
#[tactic(auto, using(crate::proofs::FineProgress::fine_livelock_free))]
pub fn fine_list_is_livelock_free()
    ensures { IsLivelockFree each_call fine (lock_window fine_steps) }
{}

/// Theorem: in a fair run of a FineList (one in which every thread with a pending call takes another step later),
/// whenever a call is pending, some call ends later. (Freedom from deadlock, as Herlihy and Shavit define it.)
#[tactic(auto, using(crate::proofs::FineProgress::fine_deadlock_free))]
pub fn fine_list_is_deadlock_free()
    ensures { IsDeadlockFree each_call fine }
{}

/// Theorem: if a call of an OptimisticList is pending, some thread can take a step that is not a failed attempt to take
/// a lock, because all threads lock nodes in the order of the list. (The order is Herlihy and Shavit's.)
#[tactic(auto, using(crate::proofs::OptimisticProgress::optimistic_gets_on))]
pub fn some_optimistic_call_gets_on()
    ensures { SomeThreadGetsOn optimistic }
{}

/// Theorem: among any `n(8N + 9)(5n + 1)` successive steps by the n threads of an OptimisticList with N nodes, at least
/// one ends its call. Failed attempts to take a lock do not count as steps. (Freedom from livelock.)
#[tactic(auto, using(crate::proofs::OptimisticProgress::optimistic_livelock_free))]
pub fn optimistic_list_is_livelock_free()
    ensures { IsLivelockFree each_call optimistic (lock_window optimistic_steps) }
{}

/// Theorem: in a fair run of an OptimisticList (one in which every thread with a pending call takes another step
/// later), whenever a call is pending, some call ends later. (Freedom from deadlock, as Herlihy and Shavit define it.)
#[tactic(auto, using(crate::proofs::OptimisticProgress::optimistic_deadlock_free))]
pub fn optimistic_list_is_deadlock_free()
    ensures { IsDeadlockFree each_call optimistic }
{}

/// Theorem: if a call of a LazyList is pending, some thread can take a step that is not a failed attempt to take a
/// lock, because all threads lock nodes in the order of the list. (The order is Herlihy and Shavit's.)
#[tactic(auto, using(crate::proofs::LazyProgress::lazy_gets_on))]
pub fn some_lazy_call_gets_on()
    ensures { SomeThreadGetsOn lazy }
{}

/// Theorem: among any `n(4N + 15)(5n + 1)` successive steps of `add` and `remove` by the n threads of a LazyList with N
/// nodes, at least one ends its call, whatever other events happen between the steps. Failed attempts to take a lock do
/// not count as steps. The theorem also holds for the steps of `add`, `remove`, and `contains`. (Freedom from
/// livelock.)
pub fn lazy_list_is_livelock_free()
    ensures { (reads : Bool) → IsLivelockFree (counted reads) lazy (lock_window lazy_steps) }
{}

/// Theorem: in a fair run of a LazyList (one in which every thread with a pending call takes another step later),
/// whenever a call is pending, some call ends later. If an `add` or a `remove` is pending, an `add` or a `remove` ends.
/// If an `add`, `remove`, or `contains` is pending, an `add`, `remove`, or `contains` ends. (Freedom from deadlock, as
/// Herlihy and Shavit define it.)
#[tactic(auto, using(crate::proofs::CeilingEnds::all_deadlock_free, crate::proofs::LazyProgress::lazy_deadlock_free))]
pub fn lazy_list_is_deadlock_free()
    ensures all { IsDeadlockFree each_call lazy }
    ensures counted { (reads : Bool) → IsDeadlockFree (counted reads) lazy }
{}

/// Lemma: the theorem `lock_free_calls_end_alone` does not hold for a broken LockFreeList whose walk, after a failed
/// attempt to unlink a marked node, repeats the attempt instead of starting again from the head.
#[tactic(auto, using(crate::proofs::WrongMachines::spinning_is_refused))]
pub fn a_spinning_walk_is_refused()
    ensures { NoCallsEndUnhindered spinning }
{}

/// Lemma: the theorem `lock_free_list_is_lock_free` does not hold for a broken LockFreeList whose walk, after a failed
/// attempt to unlink a marked node, repeats the attempt. The theorem is false whether or not the steps of `contains`
/// are counted.
#[tactic(auto, using(crate::proofs::WrongMachines::spinning_is_not_lock_free))]
pub fn a_spinning_walk_is_not_lock_free()
    ensures { NotLockFree spinning }
{}

/// Lemma: the theorem `lock_free_list_is_lock_free` does not hold for a broken LockFreeList in which two calls of `add`
/// can hinder each other forever. Before an `add` links its node, it writes its thread's number into the lock word of
/// the previous node, and then reads the lock word. The `add` continues only if it reads its own number.
#[tactic(auto, using(crate::proofs::Livelock::claiming_is_not_lock_free))]
pub fn two_that_claim_a_place_are_not_lock_free()
    ensures { NotLockFree claiming }
{}

/// Lemma: the theorem `optimistic_calls_end_alone` does not hold for a broken OptimisticList that keeps a lock after a
/// failed validation.
#[tactic(auto, using(crate::proofs::WrongMachines::keeping_is_refused))]
pub fn a_kept_lock_is_refused()
    ensures { NoCallsEndAlone keeping }
{}

/// Lemma: the theorem `some_lazy_call_gets_on` does not hold for a broken LazyList whose `add` and `remove` lock the
/// two nodes in opposite orders.
#[tactic(auto, using(crate::proofs::WrongMachines::crossed_is_refused))]
pub fn crossed_locks_are_refused()
    ensures { SomeThreadGetsOn crossed → ⊥ }
{}

/// Lemma: a broken LazyList is free neither from livelock nor from deadlock if its `add` and its `remove` lock the two
/// nodes in opposite orders, and a thread that cannot lock its second node releases the first and starts again. In a
/// fair run, two threads can repeat their failed attempts forever.
pub fn two_that_yield_are_not_deadlock_free()
    ensures bounded { (reads : Bool) → NotLivelockFree (counted reads) yielding }
    ensures fair { (reads : Bool) → IsDeadlockFree (counted reads) yielding → ⊥ }
{}
