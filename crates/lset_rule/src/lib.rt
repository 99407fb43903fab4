//! The invariant of a list on shared words (the code calls it the rule). For every list (`lset_steps::Machine`) and
//! between any two steps, some list of events (starts and steps of calls) is a run that ends with the words in memory.
//! Each seat (one thread's access to the set) has seen a prefix of the events of the run.
//!
//! Read the definitions in specs/ in this order: `Pasts`, `Runs`, `Views`, `Rule`, `Calls`, `Seats`.
#![tactic(auto)]

mod interpreter; // executes whole calls, row by row
mod pause; // the code between two steps
mod rounds; // bounds on the rounds of loops
mod row_steps; // the steps of an interpreted call
mod rule; // the invariant
mod slots; // the state that a thread keeps between calls
mod view; // the knowledge of a seat
mod word_steps; // single steps on shared words

pub use interpreter::{interpret_read, interpret_within};
pub use pause::{Pause, Spin};
pub use rounds::{Countless, Rounds, or_wait_forever};
pub use rule::{
    Asking, FirstStep, Follows, GiveReceipt, JoinSeats, Learn, SplitSeat, Step, TakeReceipt,
};
pub use slots::OwnSlots;
pub use view::{Opened, OwnCall, Past, PendingCall, SpareThread, View};
pub use word_steps::{TableSeat, Words, start_on, step_on};
