//! Guesses why the calls of a recorded set are not linearizable, from the facts that the crate `tool_facts` counts.
//! Writes the likely cause and the fact that supports it. Makes no guess if the facts fit no cause.
#![tactic(auto)]

mod because;
mod cause_texts;
mod likely;
mod likely_odd;
mod likely_races;
mod met;
mod patterns;
mod rates;
mod shares;

pub use because::because_text;
pub use cause_texts::cause_text;
pub use likely::likely_cause;
pub use met::Met;
pub use rates::{is_no_chance, put_ran, put_rate};
