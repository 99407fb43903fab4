//! The calls of the five lists on shared words, as loops that resemble those of Herlihy and Shavit. Only the `ceiling`
//! of LazyList and LockFreeList is missing: the interpreter (`lset_rule::interpret_within`) executes it.
//!
//! A loop executes its steps through a `Caller`, the pending call of a thread. After its walk, the loop calls `decide`.
//! Each function that executes a step requires that the step is next according to the list's step table, and ensures
//! that the call is at the following row afterwards. A comment `// row` names the row. At run time, no loop reads the
//! table. A loop makes at most `N::MOST` rounds, except a `contains` that only reads, which always ends. The loops have
//! the same contracts as the interpreter.
#![tactic(auto)]

mod caller; // the pending call of a thread
mod coarse; // the calls of CoarseList
mod decision; // the decision of a call after its walk
mod fine; // the calls of FineList
mod lazy; // `add` and `remove` of LazyList
mod lock_free; // `add` and `remove` of LockFreeList
mod node; // a node, identified by its number
mod optimistic; // the calls of OptimisticList
mod parts; // the words of a node
mod reads; // a `contains` that only reads
mod steps; // the single steps of a call

pub use coarse::coarse_within;
pub use fine::fine_within;
pub use lazy::lazy_change_within;
pub use lock_free::lock_free_change_within;
pub use optimistic::optimistic_within;
pub use reads::{ReadsByRows, contains_now_on, contains_on};
