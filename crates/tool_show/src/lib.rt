//! The command `show`, which draws pictures of schedules and reports.
#![tactic(auto)]

mod asking;
mod schedules;
mod show_command;

pub use asking::{Form, read_show};
pub use show_command::Show;
