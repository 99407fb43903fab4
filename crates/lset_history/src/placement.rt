ghost use Rattle.lset_history.specs.Laws.{PlacementLinearizes, EveryCallHasAPlace, LogsTellHistories, FitsAreReplies, PlacementIsOneOrder};

/// The placement theorem: if a run has an account, the order of the run's calls by their linearization points
/// linearizes the run's history (as defined by Herlihy and Wing), and leaves the final keys of the run. A run has an
/// account if each event changes the keys as its call allows, and each reply is correct at some moment of its call.
pub fn placement_linearizes()
    ensures { PlacementLinearizes }
{}

/// Lemma: if a run has an account, there is an order of the run's calls by their linearization points. The order
/// contains each call that changed the set or completed. A run has an account if each event changes the keys as its
/// call allows, and each reply is correct at some moment of its call.
pub fn every_call_has_a_place()
    ensures { EveryCallHasAPlace }
{}

/// Lemma: after each event of a run, the calls that have begun form a history, if the run has an account. A run has an
/// account if each event changes the keys as its call allows, and each reply is correct at some moment of its call.
pub fn logs_tell_histories()
    ensures { LogsTellHistories }
{}

/// Lemma: the predicate `Fits` agrees with the sequential set. A reply fits the keys in the set and the thread's number
/// of successful adds if and only if the set returns the reply and the call does not change the set.
pub fn fits_are_replies()
    ensures { FitsAreReplies }
{}

/// Lemma: a run has at most one placement (order of its calls by their linearization points).
pub fn placement_is_one_order()
    ensures { PlacementIsOneOrder }
{}
