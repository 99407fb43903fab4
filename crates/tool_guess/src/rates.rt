//! Writes how often other calls ran during the wrong answers of the operation that alone is wrong. An answer is a call
//! that changed nothing. A wrong answer is one that no order explains together with the other operations' calls.

use crate::shares::{ENOUGH, share_of_all};
use std::alloc::AllocError;
use tool_facts::Odd;

/// Returns whether a number of wrong answers with a property is no accident of a small sample: there are at least
/// `ENOUGH` wrong answers, or all have the property although less than one in ten such samples would by chance. `usual`
/// is the percentage of other answers that have the property.
pub fn is_no_chance(odd: &Odd, count: u64, usual: u64) -> bool {
    odd.wrong >= ENOUGH || (count == odd.wrong && share_of_all(usual, count) < 100_000)
}

/// Writes during what percentage of other answers the same calls ran. They ran during `count` wrong answers. Writes
/// nothing if there are no other answers.
pub fn put_rate(out: &mut String, odd: &Odd, count: u64, usual: u64) -> Result<(), AllocError> {
    let share = count
        .saturating_mul(100)
        .checked_div(odd.wrong)
        .unwrap_or(0);
    let others = if odd.has_more_answers {
        "sampled other answers"
    } else {
        "other answers"
    };
    if odd.wrong >= odd.of {
        Ok(())
    } else if share.max(usual).saturating_sub(share.min(usual)) <= 10 {
        write!(out, ", about as often as during {others} ({usual}%)")
    } else {
        write!(out, " (during {others}: {usual}%)")
    }
}

/// Writes that calls of the kind `what` ran during `count` wrong answers, and how often they ran during other answers.
pub fn put_ran(
    out: &mut String,
    odd: &Odd,
    what: &str,
    count: u64,
    usual: u64,
) -> Result<(), AllocError> {
    let wrong = odd.wrong;
    write!(
        out,
        "{what} ran during {count} of the {wrong} wrong answers"
    )?;
    put_rate(out, odd, count, usual)
}
