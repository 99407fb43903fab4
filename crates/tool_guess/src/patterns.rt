//! Decides whether wrong answers have a pattern that few bugs leave, and writes the line about it. An answer is a call that
//! changed nothing. A wrong answer is the only wrong reply of a contradiction (a few calls on one key that no order
//! explains).

use crate::shares::{is_least, share_of_all};
use std::alloc::AllocError;
use tool_facts::{Cause, Patterns, Share};

/// A pattern of wrong answers.
#[derive(Clone, Copy)]
pub(crate) enum Pattern {
    /// Another thread made the last change of the key before the answer.
    Foreign,
    /// A call of another thread that overlaps the answer returned the same reply.
    Borrowed,
}

/// The minimum number of wrong answers for a pattern. In fewer answers, a pattern can be a coincidence.
const LEAST: u64 = 3;

/// Returns whether at least half of the cases of a share have its property, and this is no coincidence. The probability by
/// chance must be less than one in a thousand if all cases have the property, otherwise less than one in a hundred
/// (Hoeffding's bound).
pub(crate) fn is_clear(share: Share) -> bool {
    let percent = share
        .count
        .saturating_mul(100)
        .checked_div(share.of)
        .unwrap_or(0);
    let more = percent.saturating_sub(share.usual);
    let is_each = share.count == share.of && share_of_all(share.usual, share.of) < 1_000;
    let is_rare = share.of.saturating_mul(more).saturating_mul(more) >= 23_000;
    share.of >= LEAST && percent >= 50 && (is_each || is_rare)
}

impl Pattern {
    /// Returns the pattern that supports a likely cause.
    pub(crate) fn of(cause: Cause) -> Option<Pattern> {
        match cause {
            Cause::ThreadCopy => Some(Pattern::Foreign),
            Cause::Borrowed => Some(Pattern::Borrowed),
            _ => None,
        }
    }

    fn share(self, patterns: &Patterns) -> Share {
        match self {
            Pattern::Foreign => patterns.foreign,
            Pattern::Borrowed => patterns.borrowed,
        }
    }

    /// Returns whether the pattern is clearly more frequent than by chance.
    pub(crate) fn is_clear(self, patterns: &Patterns) -> bool {
        is_clear(self.share(patterns))
    }

    /// Writes the line of the pattern.
    pub(crate) fn put(self, out: &mut String, patterns: &Patterns) -> Result<(), AllocError> {
        let Share { count, of, usual } = self.share(patterns);
        let refreshed = patterns.refreshed;
        match self {
            Pattern::Foreign => writeln!(
                out,
                "the last change of the key was by another thread before {count} of {of} checked wrong answers (before sampled answers: {usual}%); before {refreshed} of these, the thread of the answer had changed a key since"
            ),
            Pattern::Borrowed => writeln!(
                out,
                "during at least {count} of {of} checked wrong answers a call of another thread returned the same reply (during sampled answers, the opposite reply: {usual}%)"
            ),
        }
    }
}

/// Returns whether wrong answers seem to be replies of other threads' calls. Nearly all must equal the reply of a call of
/// another thread that overlaps them, more often than by chance, and at least three must be `true`, and three `false`.
pub(crate) fn is_borrowed(patterns: &Patterns) -> bool {
    let some = patterns.borrowed_true;
    let others = patterns.borrowed.of.saturating_sub(some);
    let are_most = is_least(patterns.borrowed.count, patterns.borrowed.of, 90);
    are_most && some.min(others) >= 3 && Pattern::Borrowed.is_clear(patterns)
}
