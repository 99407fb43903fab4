//! Reads and writes reports of runs. A report contains the opening keys (the keys at the start), a history of calls, an
//! order of the calls, and the final keys. This crate does not run a list.
#![tactic(auto)]

mod order;
mod reading;
mod report;
mod title;
mod writing;

pub use lset_text::LineFault as ReportFault;
pub use order::{Pointed, order_of, points_of, sort_by_points};
pub use reading::{read_report, reports_read_back};
pub use report::{MOST_CALLS, MOST_KEYS, MOST_KEYS_OPENED, MOST_PLACES, Report};
pub use writing::write_report;
