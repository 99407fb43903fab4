//! Finds stretches: groups of overlapping changes of one key. A change is an add or remove that returned true or is
//! pending. The numbers of adds and removes in a stretch show the state in which the key is after all of them, even if
//! their order is unknown.

use crate::key_calls::KeyCalls;
use crate::key_order::has_order;
use crate::made_calls::{Made, NEVER, other};
use lset_words::Presence;
use std::alloc::{AllocError, Global};

/// A stretch: a change of a key and all changes that overlap it, directly or through other changes. No further change
/// of the key runs between the first begin and the last end.
#[derive(Clone, Copy)]
pub struct Stretch {
    /// The moment (a time in the recording) at which the first change began.
    pub begun: u64,
    /// The moment at which the last change ended.
    pub ended: u64,
    /// The state of the key after these changes, if some order explains them: present if there is one more add than
    /// removes, absent if one more remove, and the state before if their numbers are equal. `None` if the state is
    /// unknown, for example because no order explains these changes.
    pub leaves: Option<Presence>,
    /// A call that ended before the stretch and shows the state of the key before the stretch. `None` if `leaves` does
    /// not depend on such a call.
    pub read: Option<Made>,
}

/// The numbers of adds and removes in a stretch (a group of overlapping changes) so far, its begin, and its last end.
#[derive(Clone, Copy)]
struct Sum {
    begun: u64,
    ended: u64,
    adds: u64,
    removes: u64,
}

impl Sum {
    /// Creates the counts of a stretch with one change.
    fn of(call: Made) -> Sum {
        let none = Sum {
            begun: call.begun,
            ended: 0,
            adds: 0,
            removes: 0,
        };
        none.with(call)
    }

    /// Returns the counts with one more change.
    fn with(self, call: Made) -> Sum {
        let ended = self.ended.max(call.ended);
        if call.makes() == Some(Presence::Present) {
            let adds = self.adds.saturating_add(1);
            Sum {
                ended,
                adds,
                ..self
            }
        } else {
            let removes = self.removes.saturating_add(1);
            Sum {
                ended,
                removes,
                ..self
            }
        }
    }

    /// Returns the state in which the key is just before these changes, as their numbers show: absent if there is one
    /// more add than removes, present if one more remove, and `before` if their numbers are equal. `None` if the numbers
    /// differ by more, or if the numbers show another state than `before`.
    fn opening(self, before: Option<Presence>) -> Option<Presence> {
        if self.adds == self.removes {
            return before;
        }
        let shown = if self.adds == self.removes.saturating_add(1) {
            Presence::Absent
        } else if self.removes == self.adds.saturating_add(1) {
            Presence::Present
        } else {
            return None;
        };
        let is_alone = self.adds.saturating_add(self.removes) == 1;
        (is_alone || before.is_none_or(|before| before == shown)).then_some(shown)
    }

    /// Returns the stretch with these counts. `changes` are its changes, ordered by begin. `before` is the state of the
    /// key before the stretch, if known. `read` is the call that shows this state. Allocates.
    fn stretch(
        self,
        alloc: Global,
        changes: &[Made],
        before: Option<Presence>,
        read: Option<Made>,
    ) -> Result<Stretch, AllocError> {
        let (mut leaves, is_even) = (None, self.adds == self.removes);
        if let Some(opening) = self.opening(before) {
            if has_order(alloc, changes, opening, None)? {
                leaves = Some(if is_even { opening } else { other(opening) });
            }
        }
        Ok(Stretch {
            begun: self.begun,
            ended: self.ended,
            leaves,
            read: if is_even { read } else { None },
        })
    }
}

/// Returns the last call that changed nothing, began at `since` or later, and ended before `until`. Checks only the
/// last 32 calls that began by `until`.
fn read_between(key: &KeyCalls, since: u64, until: u64) -> Option<Made> {
    let end = key.begun_by(until);
    let earlier = key.calls.get(..end).unwrap_or(&[]);
    for call in earlier.iter().rev().take(32) {
        if call.begun < since {
            return None;
        }
        if call.reads() && call.ended < until {
            return Some(*call);
        }
    }
    None
}

/// Returns the stretch (a group of overlapping changes) of `changes`, whose counts are `sum`. `last` is the stretch
/// before it. The state of the key in between comes from a call that changed nothing, otherwise from `last` or the
/// opening state. Allocates.
fn stretch_of(
    alloc: Global,
    key: &KeyCalls,
    changes: &[Made],
    sum: Sum,
    last: Option<Stretch>,
) -> Result<Stretch, AllocError> {
    let since = last.map_or(0, |last| last.ended);
    let read = read_between(key, since, sum.begun);
    let before = match (read, last) {
        (Some(read), _) => read.needs(),
        (None, None) => Some(key.opening),
        (None, Some(last)) if last.read.is_none() => last.leaves,
        (None, Some(_)) => None,
    };
    sum.stretch(alloc, changes, before, read)
}

/// Returns the stretches (groups of overlapping changes) of a key, ordered by time. A stretch with a pending change has
/// no end and is left out. Allocates.
pub fn stretches_of(alloc: Global, key: &KeyCalls) -> Result<Vec<Stretch>, AllocError> {
    let mut found: Vec<Stretch> = Vec::new(alloc);
    let mut changes: Vec<Made> = Vec::new(alloc);
    let mut sum: Option<Sum> = None;
    for call in &key.calls {
        if !call.changes() {
            continue;
        }
        sum = match sum {
            None => Some(Sum::of(*call)),
            Some(before) if call.begun < before.ended => Some(before.with(*call)),
            Some(before) => {
                let last = found.last().copied();
                found.push(stretch_of(alloc, key, &changes, before, last)?)?;
                changes.clear();
                Some(Sum::of(*call))
            }
        };
        changes.push(*call)?;
    }
    if let Some(before) = sum {
        if before.ended < NEVER {
            let last = found.last().copied();
            found.push(stretch_of(alloc, key, &changes, before, last)?)?;
        }
    }
    Ok(found)
}

/// Returns the last stretch (a group of overlapping changes) that ended before `moment`. `stretches` must be ordered by
/// time. `None` if no stretch ended before.
pub fn stretch_before(stretches: &[Stretch], moment: u64) -> Option<Stretch> {
    let at = stretches.partition_point(|stretch| stretch.ended < moment);
    stretches.get(at.wrapping_sub(1)).copied()
}

/// Returns the last stretch (a group of overlapping changes) that ended before `moment` and leaves the key in a known
/// state. `stretches` must be ordered by time. `None` if there is no such stretch.
pub fn sure_before(stretches: &[Stretch], moment: u64) -> Option<Stretch> {
    let at = stretches.partition_point(|stretch| stretch.ended < moment);
    let earlier = stretches.get(..at).unwrap_or(&[]);
    let found = earlier
        .iter()
        .rev()
        .find(|stretch| stretch.leaves.is_some());
    found.copied()
}
