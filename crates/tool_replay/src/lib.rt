//! The commands `replay`, `check`, `gen`, `draft`, `example` and `trace`, which read and write schedules and reports.
//!
//! A draft is a schedule with one addition: a line can state where a thread stops (at the end of its call, or at a row
//! of the step table) in place of a number of steps. An example is a well-known interleaving on one of the five lists.
#![tactic(auto)]

mod check_command; // the command check
mod draft; // the content of a draft
mod draft_command; // the command draft
mod draft_text; // reads a draft
mod example_command; // the command example
mod example_texts; // the texts of the examples
mod examples; // the examples, with names and summaries
mod expanding; // expands a draft into a schedule
mod gen_command; // the command gen
mod replay_command; // the command replay
mod stepping; // steps of one thread
mod trace_command; // the command trace
mod version; // the lowest version for a schedule

pub use check_command::{Check, tool_check};
pub use draft::{Draft, DraftLine, MOST_ROW};
pub use draft_command::Expand;
pub use draft_text::read_draft;
pub use example_command::{ExampleRequest, print_example, read_example_request};
pub use expanding::schedule_of;
pub use gen_command::{generate_for, generate_text, tool_gen};
pub use replay_command::{Replay, ReplayBroken, tool_replay};
pub use trace_command::{Trace, trace_events};
