//! The broken lists. A broken list is one of the five lists with one check removed.
//!
//! `BrokenList` names a broken list, and the module `flaws` defines the list's steps. A broken list violates laws that
//! the trait `Machine` requires. Therefore the state of a broken list is a `BrokenWorld`, not a `World`.
//! `broken_world_of` creates the state for a schedule. In some runs of a broken list, no order explains the calls.
#![tactic(auto)]

mod broken_fine; // the steps of broken FineLists
mod broken_lock_free; // the steps of broken LockFreeLists
mod broken_optimistic; // the steps of broken OptimisticLists
mod broken_reports; // reports of schedules on broken lists
mod broken_runs; // creates a broken list for a schedule
mod broken_world; // a broken list during a run
mod chain_walk; // the nodes of a broken list, from head to tail
mod flaws; // the steps of all broken lists
mod lists; // the names of the broken lists

pub use broken_reports::{read_broken_schedule, report_broken};
pub use broken_runs::broken_world_of;
pub use broken_world::BrokenWorld;
pub use lists::{ALL, BrokenList, named};
