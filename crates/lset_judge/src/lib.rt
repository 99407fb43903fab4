//! The judge: decides from the starts and ends of recorded calls whether some order explains the calls.
//!
//! A key has only two states, present and absent. The judge therefore examines the calls on each key separately, in one
//! pass over their moments (the numbers of the starts and ends). A change (an `add` or `remove` that returned true or
//! is pending) takes effect only when the end of a call requires it; of several pending changes, the one that ends
//! first takes effect. If the end of a call or a key's final state is impossible even then, no order explains the
//! calls. If all of them are possible, some order explains the calls, in every history without `ceiling` (a call that
//! returns the smallest key not less than its argument) and without the reply `full`. The judge does not search, and
//! does not need to know when calls take effect. (Linearizability is due to Herlihy and Wing; the judge's test is this
//! project's own.)
#![tactic(auto)]

ghost use Rattle.lset_judge.specs.Locality.{KeysAreApart, QuotasDoNotMatter};

mod busy; // the end of each thread's last call
mod clash; // two calls that rule out every order
mod count; // calls that are too many for any order
mod ends; // a heap of the ends of calls
mod event; // the starts and ends of a key's calls
mod facts; // the stored facts that show a clash
mod judged; // which histories the judge can decide
mod judged_history; // `judge`, the verdict on a complete history
mod key_changes; // the started changes of a key
mod keys; // search in a list of increasing keys
mod many; // many pending calls, in a hash table
mod overlaps; // counts the calls that overlap a change
mod pending; // the pending calls, few or many
mod rule; // the judge's rule and a key's state
mod set_judge; // `Judge`, the verdict on recorded calls
mod stream; // judges the calls one after another
mod stretch; // searches for periods with too many calls

pub use clash::{Clash, clashes_exclude_orders, find_clash};
pub use count::{Count, counts_exclude_orders, find_count};
pub use judged::{is_judged, is_plain};
pub use judged_history::{Judged, judge};
pub use set_judge::{Judge, Verdict};
pub use stream::{LAST_MOMENT, Refusal, StreamCall, StreamFault};

/// Lemma (locality): the keys of a recording can be judged in parts. A part consists of some keys, the calls on these
/// keys, and the opening and final states of these keys. If each key belongs to exactly one part, some order explains
/// the recording if and only if some order explains each part. Therefore, if `judge` finds every part linearizable, the
/// recording is linearizable. If `judge` finds one part not linearizable, the recording is not linearizable.
///
/// The lemma holds for the histories that the judge decides (see `is_judged`). It does not hold with a `ceiling`, a
/// call that reads many keys: it returns the smallest key not less than its argument. It does not hold either with a
/// quota that is too small for all `add`s, since a thread's quota counts the thread's `add`s of all keys. (Locality is
/// due to Herlihy and Wing: each key is an object in their sense.)
pub fn keys_are_apart()
    ensures { KeysAreApart }
{}

/// Lemma: the quota (the number of successful `add`s that one thread can make) does not matter in a history that the
/// judge decides. If some order explains the history with another quota, some order explains it with the quota of the
/// history. The judge's verdict is therefore correct for the set without a quota.
pub fn quotas_do_not_matter()
    ensures { QuotasDoNotMatter }
{}
