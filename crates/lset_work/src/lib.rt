//! Runs programs (lists of calls) on a set at the same time, with one program and one thread for each seat. A seat is
//! one thread's handle to the set.
#![tactic(auto)]

mod gate;
mod program_threads;
mod room;
mod work_fault;
mod working;

pub use gate::{Always, Gate};
pub use work_fault::{WorkCause, WorkFault};
pub use working::{Outcome, work};
