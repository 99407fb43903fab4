//! Counts patterns of wrong answers that only few kinds of bugs leave. An answer is a call that changed nothing. A wrong
//! answer is the only wrong reply of a contradiction (a few calls on one key that no order explains). A `Share` has the
//! number of wrong answers with a property, and the percentage of comparable right answers with the property.

use crate::further::Share;
use crate::odd_facts::more;
use std::alloc::{AllocError, Global};
use tool_calls::{Made, Operation, Place, Runs};

/// Counts of wrong answers with certain properties.
#[derive(Clone, Copy, Default)]
pub struct Patterns {
    /// How often another thread made the last change of the key that had ended before the wrong answer began. A change
    /// is an add or remove that returned true. Comparable are sampled `contains` calls.
    pub foreign: Share,
    /// How many wrong answers in `foreign.of` came after a change of any key that their own thread made later than that
    /// last change.
    pub refreshed: u64,
    /// How often a call of another thread, of any key, overlapped the wrong answer and returned the same reply.
    /// Comparable are sampled `contains` calls that overlapped a call of another thread with the opposite reply.
    pub borrowed: Share,
    /// The number of wrong answers that returned true.
    pub borrowed_true: u64,
}

/// The maximum number of wrong answers that are counted. About as many `contains` calls are sampled.
const MOST: usize = 400;

/// The maximum number of earlier calls that are checked for an overlap with an answer.
const MOST_EARLIER: usize = 64;

/// The maximum number of calls on a key that are searched for its last change.
const MOST_OWN: usize = 1_000;

/// Returns the change of the key that began last among those that had ended before a call. `calls` must be ordered by
/// begin.
fn last_change(calls: &[Made], call: Made) -> Option<Made> {
    let end = calls.partition_point(|one| one.begun < call.begun);
    let earlier = calls.get(..end).unwrap_or(&[]).iter().rev();
    for one in earlier.take(MOST_OWN) {
        if one.changes() && one.ended < call.begun {
            return Some(*one);
        }
    }
    None
}

/// Returns whether a thread made a change of any key after a moment, and before another moment.
fn has_changed(calls: &[Made], thread: u32, since: u64, until: u64) -> bool {
    let first = calls.partition_point(|one| one.begun < since);
    for one in calls.get(first..).unwrap_or(&[]) {
        if one.begun >= until {
            return false;
        }
        if one.thread == thread && one.changes() && one.ended < until {
            return true;
        }
    }
    false
}

/// Returns whether a call of another thread overlaps a call and returned `reply`. Considers only `MOST_EARLIER` calls.
fn has_reply_beside(calls: &[Made], call: Made, reply: bool) -> bool {
    let end = calls.partition_point(|one| one.begun < call.ended);
    for one in calls
        .get(..end)
        .unwrap_or(&[])
        .iter()
        .rev()
        .take(MOST_EARLIER)
    {
        if one.thread != call.thread && one.ended > call.begun && one.reply == Some(reply) {
            return true;
        }
    }
    false
}

/// Returns at most `MOST` wrong answers of contradictions, ordered by begin.
fn wrong_answers(alloc: Global, places: &[Place]) -> Result<Vec<Made>, AllocError> {
    let mut answers = Vec::new(alloc);
    for wrong in places.iter().filter_map(|place| place.wrong) {
        if wrong.reads() && answers.len() < MOST {
            answers.push(wrong)?;
        }
    }
    answers.sort_unstable_by_key(|call| call.begun);
    Ok(answers)
}

/// Returns a sample of completed calls of `contains`: about `MOST` calls, and less than twice as many.
fn sampled(alloc: Global, calls: &[Made]) -> Result<Vec<Made>, AllocError> {
    let step = calls.len().checked_div(MOST).unwrap_or(0);
    let (mut found, mut next) = (Vec::new(alloc), 0usize);
    for (index, call) in calls.iter().enumerate() {
        let is_contains = call.operation == Operation::Contains;
        if index >= next && is_contains && call.reply.is_some() {
            next = index.saturating_add(step);
            found.push(*call)?;
        }
    }
    Ok(found)
}

/// Counts the properties of answers. `answers` are wrong answers or, if `are_wrong` is false, sampled calls; for these
/// `borrowed` counts the opposite reply.
fn shares_of(runs: &Runs<'_>, answers: &[Made], are_wrong: bool) -> Patterns {
    let calls = &runs.recorded.calls;
    let mut shares = Patterns::default();
    for call in answers {
        let reply = call.reply == Some(true);
        if let Some(change) = last_change(runs.made_of(call.key), *call) {
            shares.foreign.add(change.thread != call.thread);
            let is_later = has_changed(calls, call.thread, change.ended, call.begun);
            shares.refreshed = shares.refreshed.saturating_add(u64::from(is_later));
        }
        let is_so = has_reply_beside(calls, *call, reply == are_wrong);
        shares.borrowed.add(is_so);
    }
    shares
}

/// Returns the counts for the wrong answers of the contradictions `places`. Allocates.
pub(crate) fn patterns_of(
    alloc: Global,
    runs: &Runs<'_>,
    places: &[Place],
) -> Result<Patterns, AllocError> {
    let answers = wrong_answers(alloc, places)?;
    let others = sampled(alloc, &runs.recorded.calls)?;
    let wrong = shares_of(runs, &answers, true);
    let usual = shares_of(runs, &others, false);
    let mut patterns = Patterns {
        foreign: wrong.foreign.against(usual.foreign),
        borrowed: wrong.borrowed.against(usual.borrowed),
        ..wrong
    };
    for call in &answers {
        patterns.borrowed_true = patterns
            .borrowed_true
            .saturating_add(u64::from(call.reply == Some(true)));
    }
    Ok(patterns)
}
