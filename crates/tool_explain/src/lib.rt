//! The command `explain`: prints the kind of a text and the first line with an error, explains the error, and states
//! how to correct the line.
#![tactic(auto)]

mod drafts;
mod event_errors;
mod files;
mod text_explained;

pub use files::{explain_input, explain_unopened};
pub use text_explained::explain_text;
