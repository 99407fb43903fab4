//! Diagnosis of a recording that no order explains: a message with the facts of `tool_facts`, the picture of
//! `tool_picture`, and the likely cause of `tool_guess`. The diagnosis does not decide the verdict. The cause, after `likely:`, is a guess.
#![tactic(auto)]

mod as_record;
mod diagnosing;
mod explaining;
mod sentences;

pub use as_record::diagnosis_record;
pub use diagnosing::diagnose;
pub use explaining::{Explained, diagnosis_text, explain};
pub use tool_picture::Diagnosis;
