//! The commands `run` and `serve`. `run` makes random calls on one set in several threads. `serve` runs a server for a
//! set on the loopback interface.
#![tactic(auto)]

mod key_lines;
mod run_command;
mod serve_command;
mod troubles;

pub use key_lines::read_keys;
pub use run_command::{run_lives, tool_run};
pub use serve_command::{serve_set, serve_set_of};
