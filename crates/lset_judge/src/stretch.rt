//! Searches for a stretch: a period of time with so many calls on a key that no order can contain all of them. The key
//! would have to change back between the calls more often than other calls can change it. The calls of a stretch are
//! checked in another file after the search, so no contract mentions stretches.

use crate::clash::{has_ended, other};
use crate::stream::StreamCall;
use lset_words::{Effect, Presence};
use std::alloc::{AllocError, Global};

/// A stretch: a period of time with so many calls on a key that no order can contain all of them.
#[derive(Clone, Copy)]
pub(crate) struct Stretch {
    /// The key's state (present or absent) after each change in the stretch.
    pub(crate) was: Presence,
    /// The earliest moment at which a change in the stretch can start.
    from: u64,
    /// The latest moment at which a change in the stretch can end.
    upto: u64,
    /// A call before the changes of the stretch that saw the key in the state `was`, if there is one. Because of this
    /// call, the key must change back once more.
    pub(crate) first: Option<StreamCall>,
    /// A call after the changes of the stretch that saw the key in the state opposite to `was`, if there is one. Because
    /// of this call, the key must change back once more.
    pub(crate) last: Option<StreamCall>,
    /// The start of the stretch. `None` if the set opened with the key in the state `was`: the opening state then
    /// counts as a call.
    pub(crate) since: Option<u64>,
    /// The end of the stretch. `None` if the key's final state is not `was`: the final state then counts as a call.
    pub(crate) until: Option<u64>,
}

/// The smallest stretch found so far, if any. A stretch is a period with so many calls that no order can contain all of
/// them. `size` is the number of calls in the stretch plus the number of calls that can change the key back.
#[derive(Clone, Copy)]
struct Best {
    found: Option<Stretch>,
    size: usize,
}

/// The start or the end of a call, as used in the search for stretches. A stretch is a period with so many calls on a
/// key that no order can contain all of them. `was` is the key's state after each change in the stretch.
#[derive(Clone, Copy)]
enum Step {
    /// The start of a call that can change the key back. The field is the moment when the call ends.
    Back(u64),
    /// The end of a change to the state `was`. The field is the moment when the change started.
    Change(u64),
    /// The start of a call that saw the key in the state opposite to `was`. The field is the call's index in `looks`.
    Begins(usize),
    /// The end of a call that saw the key in the state opposite to `was`. The field is the call's index in `looks`.
    Ends(usize),
}

#[derive(Clone, Copy)]
struct Timed {
    moment: u64,
    step: Step,
}

/// A call that saw the key in the state opposite to `was`. (Each change in a stretch, a period with too many calls,
/// leaves the key in the state `was`.) `changes` is the number of changes in the stretch that had ended when the call
/// started. Each pass over the starts and ends of calls sets it again.
#[derive(Clone, Copy)]
struct Look {
    call: StreamCall,
    changes: usize,
}

/// The starts and ends of the calls on one key, ordered by moment, and the calls that saw the key in the state opposite
/// to `was`.
#[derive(Drop)]
struct Steps {
    steps: Vec<Timed>,
    looks: Vec<Look>,
}

impl Stretch {
    /// Returns a stretch that starts at the moment `from`, the start of its first change. The stretch has no end yet.
    fn from_change(was: Presence, from: u64) -> Stretch {
        Stretch {
            was,
            from,
            upto: u64::MAX,
            first: None,
            last: None,
            since: Some(from),
            until: None,
        }
    }

    /// Returns whether `call` is a change in the stretch.
    pub(crate) fn has(&self, call: StreamCall) -> bool {
        is_change_to(call, self.was) && self.from <= call.begun && has_ended(call, self.upto)
    }

    fn is_overlapped_to(&self, end: u64) -> bool {
        match self.since {
            None => true,
            Some(since) => since < end,
        }
    }

    /// Returns the number of calls in a stretch with `changes` changes. `first` and `last` count as calls. If `since`
    /// or `until` is `None`, the key's opening or final state counts as a call.
    fn places(&self, changes: usize) -> usize {
        let before = self.first.is_some() || self.since.is_none();
        let after = self.last.is_some() || self.until.is_none();
        changes
            .saturating_add(usize::from(before))
            .saturating_add(usize::from(after))
    }
}

fn is_change_to(call: StreamCall, was: Presence) -> bool {
    match call.effect() {
        Effect::Changes(to) => to == was && call.ended.is_some(),
        Effect::Sees(_) | Effect::Other => false,
    }
}

/// Returns the call with the largest index in `calls` that saw the state `was` and had ended by `moment`.
fn last_look(calls: &[StreamCall], was: Presence, moment: u64) -> Option<StreamCall> {
    let mut last = None;
    for call in calls {
        if let Effect::Sees(seen) = call.effect() {
            if seen == was && has_ended(*call, moment) {
                last = Some(*call);
            }
        }
    }
    last
}

impl Best {
    /// Returns `stretch` if it has more calls than any order can contain and is smaller than the best stretch so far.
    /// Otherwise returns the best stretch so far. No order can contain the calls if the key must change back between
    /// them more than `backs` times.
    fn or(self, stretch: Stretch, changes: usize, backs: usize) -> Best {
        let places = stretch.places(changes);
        let size = places.saturating_add(backs);
        if changes > 0 && backs < places.saturating_sub(1) && size < self.size {
            Best {
                found: Some(stretch),
                size,
            }
        } else {
            self
        }
    }
}

impl Steps {
    /// Returns the starts and ends in `calls` that matter for stretches (periods with so many calls that no order can
    /// contain all of them). `was` is the key's state after each change in a stretch.
    fn of(alloc: Global, calls: &[StreamCall], was: Presence) -> Result<Steps, AllocError> {
        let mut all = Steps {
            steps: Vec::new(alloc),
            looks: Vec::new(alloc),
        };
        for call in calls {
            all.add(*call, was)?;
        }
        all.steps.sort_unstable_by_key(|step| step.moment);
        Ok(all)
    }

    fn add(&mut self, call: StreamCall, was: Presence) -> Result<(), AllocError> {
        let (begun, end) = match call.ended {
            Some((end, _)) => (call.begun, end),
            None => (call.begun, u64::MAX),
        };
        match call.effect() {
            Effect::Changes(to) => {
                if to != was {
                    self.push(begun, Step::Back(end))?;
                } else if call.ended.is_some() {
                    self.push(end, Step::Change(begun))?;
                }
            }
            Effect::Sees(seen) => {
                if seen != was {
                    let number = self.looks.len();
                    self.looks.push(Look { call, changes: 0 })?;
                    self.push(begun, Step::Begins(number))?;
                    self.push(end, Step::Ends(number))?;
                }
            }
            Effect::Other => {}
        }
        Ok(())
    }

    fn push(&mut self, moment: u64, step: Step) -> Result<(), AllocError> {
        self.steps.push(Timed { moment, step })?;
        Ok(())
    }

    /// Returns the smallest stretch with the same start as `start`, or `best` if none is smaller. A stretch is a period
    /// with so many calls that no order can contain all of them.
    fn pass(&mut self, start: Stretch, left: Option<Presence>, best: Best) -> Best {
        let mut pass = Pass {
            start,
            changes: 0,
            backs: 0,
            best,
        };
        let Steps { steps, looks } = self;
        for timed in steps.iter() {
            pass.meet(looks, *timed);
        }
        if left == Some(other(start.was)) {
            let changes = pass.changes;
            pass.try_to(start, changes);
        }
        pass.best
    }
}

/// The state of a pass over the starts and ends of calls, which examines all stretches with the same start as `start`.
/// `changes` counts the changes in the stretch that have ended. `backs` counts the calls that have started, overlap the
/// stretch and can change the key back.
#[derive(Clone, Copy)]
struct Pass {
    start: Stretch,
    changes: usize,
    backs: usize,
    best: Best,
}

impl Pass {
    fn try_to(&mut self, stretch: Stretch, changes: usize) {
        self.best = self.best.or(stretch, changes, self.backs);
    }

    fn meet(&mut self, looks: &mut [Look], timed: Timed) {
        let mut stretch = self.start;
        stretch.until = Some(timed.moment);
        match timed.step {
            Step::Back(end) => {
                if stretch.is_overlapped_to(end) {
                    self.backs = self.backs.saturating_add(1);
                }
            }
            Step::Change(begun) => {
                if stretch.from <= begun {
                    let changes = self.changes.saturating_add(1);
                    self.changes = changes;
                    stretch.upto = timed.moment;
                    self.try_to(stretch, changes);
                }
            }
            Step::Begins(number) => {
                if let Some(look) = looks.get_mut(number) {
                    look.changes = self.changes;
                }
            }
            Step::Ends(number) => {
                if let Some(look) = looks.get(number).copied() {
                    stretch.upto = look.call.begun;
                    stretch.last = Some(look.call);
                    self.try_to(stretch, look.changes);
                }
            }
        }
    }
}

/// Returns the smallest stretch whose changes are to the state `was`, or `best` if none is smaller. A stretch is a
/// period with so many calls that no order can contain all of them.
fn smaller_stretch(
    alloc: Global,
    calls: &[StreamCall],
    there: Presence,
    left: Option<Presence>,
    was: Presence,
    best: Best,
) -> Result<Best, AllocError> {
    let mut steps = Steps::of(alloc, calls, was)?;
    let mut best = best;
    for call in calls {
        if is_change_to(*call, was) {
            let mut start = Stretch::from_change(was, call.begun);
            best = steps.pass(start, left, best);
            if let Some(look) = last_look(calls, was, call.begun) {
                start.first = Some(look);
                start.since = Some(look.begun);
                best = steps.pass(start, left, best);
            } else if there == was {
                start.since = None;
                best = steps.pass(start, left, best);
            }
        }
    }
    Ok(best)
}

/// Returns the smallest stretch found, or `None` if no stretch is found. A stretch is a period with so many calls on a
/// key that no order can contain all of them: the key would have to change back more often than it can.
pub(crate) fn smallest_stretch(
    alloc: Global,
    calls: &[StreamCall],
    there: Presence,
    left: Option<Presence>,
) -> Result<Option<Stretch>, AllocError> {
    let none = Best {
        found: None,
        size: usize::MAX,
    };
    let best = smaller_stretch(alloc, calls, there, left, Presence::Present, none)?;
    let best = smaller_stretch(alloc, calls, there, left, Presence::Absent, best)?;
    Ok(best.found)
}
