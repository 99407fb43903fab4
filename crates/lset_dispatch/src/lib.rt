//! Runs the whole program: parses the command line, runs the command on its input, and reports wrong arguments. The
//! caller provides the arguments, the system's streams and the access to files.
#![tactic(auto)]

mod below_refusal;
mod dispatching;
mod job;
mod judge_only;
mod running_jobs;

pub use dispatching::{run_words, tool_words};
