//! Running sets: lists in memory that threads share. Each thread calls from its own seat (per-thread handle).
#![tactic(auto)]

mod bounded; // calls with a bounded number of rounds
mod closed; // a closed set and its final keys
mod gathering; // merges several seats into one
mod live_set_calls; // implements `SetCalls` for running sets
mod open_fault; // the errors of `open` and `open_with`
mod opening; // opens sets
mod receipt; // receipts: seen events, sent between threads
mod running_machine; // lists with calls that can block
mod seat; // seats of running sets
mod set; // a running set and its calls
mod typed_calls; // calls with their own result types

pub use bounded::Bounded;
pub use closed::Closed;
pub use lset_rule::{Countless, Pause, Rounds, Spin};
pub use lset_words::SetCalls;
pub use open_fault::OpenFault;
pub use opening::{open, open_with};
pub use receipt::{Receipt, receipts_keep_order};
pub use running_machine::{OpenContains, Running, RunningReads};
pub use seat::Seat;
pub use set::{LiveSet, SeatsOut};
pub use typed_calls::Added;
