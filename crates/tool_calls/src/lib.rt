//! Facts about the calls of a concurrent set that a recording contains, key by key: which calls contradict each other
//! (no order explains both), and which replies would be right. Decides no verdict: the crate `lset_judge` decides
//! whether a recording is linearizable.
#![tactic(auto)]

mod contradictions;
mod crossings;
mod fullness;
mod key_calls;
mod key_order;
mod made_calls;
mod merged;
mod neighbours;
mod pairs;
mod recorded;
mod repairs;
mod runs;
mod splits;
mod stretches;
mod symptoms;

pub use contradictions::{Clash, clash_of};
pub use crossings::Crossings;
pub use fullness::Fullness;
pub use key_calls::KeyCalls;
pub use key_order::{KeyState, Pending, failing_moment, has_order};
pub use made_calls::{Made, NEVER, Operation, other, put_call, state_word};
pub use merged::merged_keys;
pub use neighbours::{Neighbours, Sought};
pub use pairs::{Bound, BoundKeys, bound_of};
pub use recorded::Recorded;
pub use repairs::is_expected;
pub use runs::{Refused, Runs, first_of};
pub use splits::{Split, Votes, longest_split};
pub use stretches::{Stretch, stretches_of};
pub use symptoms::{Place, Symptom, place_of, places_of, symptom_of_reply};
