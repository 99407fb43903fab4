//! Bounds on the rounds of a call's loops: a given number, or a number that no call reaches in practice.
ghost use Rattle.std.specs.Prelude.{◌≡◌, Some};

use crate::slots::OwnSlots;
use lset_words::Reply;
use std::sync::Wait;

/// A bound on the number of rounds of each loop of a call. A loop that has not ended after `MOST` rounds stops, and the
/// call has no reply.
pub trait Rounds {
    /// The maximum number of rounds of a loop.
    const MOST: u64;
}

/// A bound that no call reaches in practice: 2^64 - 1 rounds.
pub struct Countless;

impl Rounds for Countless {
    const MOST: u64 = u64::MAX;
}

/// Returns the value in `answer`, the result of a call with at most [`Countless`] rounds (2^64 - 1). Waits forever if
/// `answer` is `None`.
#[inline(always)]
pub fn or_wait_forever<R: Wait>(rt: &R, answer: Option<(OwnSlots, Reply)>) -> (OwnSlots, Reply)
    ensures { answer ≡ Some result }
{
    if let Some(answer) = answer {
        return answer;
    }
    for _ in rt.forever() {}
    unreachable!()
}
