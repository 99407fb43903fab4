//! The commands `judge` and `stats`. `judge` reads the recorded calls of a set and prints whether some order explains
//! the calls. `stats` counts the calls. The crate also extends the command `show`: if a report's order is refused, the
//! lines below the picture state whether another order explains the calls.
#![tactic(auto)]

mod clashes;
mod counts;
mod extra_lines;
mod judge_answers;
mod showing;
mod stats;
mod texts;

pub use clashes::put_call;
pub use counts::{put_count, with_count};
pub use extra_lines::with_lines;
pub use judge_answers::{answers_are_right, judge_briefly, judge_bytes, judge_input};
pub use showing::{Claim, ShowJudged, claim_on};
pub use stats::stats_input;
