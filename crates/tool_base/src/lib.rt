//! The code that all commands of the program share. A command computes an answer from its input or its arguments. The
//! functions of this crate read the input, write the answer to an output or a one-line error message to stderr, and
//! return the exit status. The functions work with any reader and writer.
#![tactic(auto)]

mod answer; // the result of a command, and error lines
mod arguments; // arguments and limits of `gen`, `run` and `serve`
mod faults; // the text of `faults`: all error messages
mod input; // reads an input up to a maximum size
mod tool; // commands that read an input to its end
mod trouble; // the errors that end the program

pub use answer::{Answer, deliver, line_of};
pub use arguments::{
    LivesRequest, MOST_CALLS_ASKED, MOST_LIVES, MOST_PORT, MOST_SESSIONS_ASKED, RandomRequest,
    ServeRequest, read_lives_request, read_random_request, read_serve_request,
};
pub use faults::{FAULTS, FaultName, explain_fault, list_faults, read_fault_name};
pub use input::{Input, LONGEST, READ_SIZE, put, read_all};
pub use tool::{Tool, answer_text, run_tool};
pub use trouble::{SystemCause, Trouble, ValueName};
