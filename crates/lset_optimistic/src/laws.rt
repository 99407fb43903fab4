//! Laws of every run of an OptimisticList, in addition to the laws of all machines. Each law is the contract of an
//! empty function.

ghost use Rattle.lset_optimistic.specs.Promises.{ValidatedWalk, OptimisticRepliesFit};

/// Lemma: once the second walk of a call has reached the first of the two locked nodes, that node is in the chain (the
/// nodes reachable from the head) until its lock is released, even if the walk has passed nodes that were being
/// unlinked. A call gets its reply or changes the list only after its second walk has reached the first locked node.
/// (Herlihy and Shavit's validation. The proof uses the hindsight of O'Hearn and others: each node of the walk was in
/// the chain at some moment since the lock was taken.)
pub fn validated_walk()
    ensures { ValidatedWalk }
{}

/// Lemma: if a call ends without having changed the set, its reply was correct at the moment of one of the call's own
/// loads: the load after the second walk that found the link of the first locked node pointing to the second locked
/// node. (Herlihy and Shavit's linearization points of calls that change nothing.)
pub fn optimistic_replies_fit()
    ensures { OptimisticRepliesFit }
{}
