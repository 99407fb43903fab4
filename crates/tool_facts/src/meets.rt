//! Counts which calls ran at the same time as the changes that contradictions undo or report twice. A contradiction is
//! a few calls on one key that no order explains. A change is an add or remove that returned true.

use crate::further::Share;
use crate::odd_facts::runs_beside;
use std::alloc::{AllocError, Global};
use tool_calls::{KeyCalls, Made, NEVER, Neighbours, Operation, Place, Runs, Symptom};

/// Facts about the changes that contradictions undo or report twice. If a key was lost or came back, its last change
/// before that was undone. If two overlapping calls on a key both returned true, the later call is the change that was
/// reported twice. Each `Share` counts these changes; its percentage `usual` is of sampled changes of all keys.
#[derive(Clone, Copy, Default)]
pub struct Meets {
    /// How often another add or remove of the same key, successful or not, overlapped the change.
    pub own: Share,
    /// How often a change of another key overlapped the change.
    pub others: Share,
    /// How often the contradiction began while the first calls on its key ran.
    pub first: Share,
    /// Whether the recording has contradictions that are not counted, because only `MOST` are.
    pub has_more_contradictions: bool,
    /// Whether the percentages leave out some changes, because at most about `MOST` changes are sampled.
    pub has_more_changes: bool,
}

/// The maximum number of contradictions that are counted. About as many changes are sampled.
const MOST: usize = 400;

/// The maximum number of first calls on a key that are searched.
const MOST_FIRST: usize = 1_000;

/// Returns when the first calls on a key had ended. These are the calls that began before any add or remove of the key
/// had ended. `calls` are all calls on the key, ordered by begin.
fn first_ended(calls: &[Made]) -> u64 {
    let mut first = NEVER;
    for call in calls.iter().take(MOST_FIRST) {
        if call.operation != Operation::Contains {
            first = first.min(call.ended);
        }
    }
    let mut last = 0;
    for call in calls.iter().take(MOST_FIRST) {
        if call.begun <= first && call.ended < NEVER {
            last = call.ended.max(last);
        }
    }
    last
}

/// Returns the change that a contradiction of `key` undoes or reports twice. `None` if the contradiction is of another
/// kind, or if it is not known which change it undoes.
fn undone_by(key: &KeyCalls, place: &Place) -> Option<Made> {
    match place.symptom {
        Symptom::BothTrue(_) => place.clash.second,
        _ if place.is_gone() => {
            let shown = place
                .clash
                .second
                .map_or(NEVER, |second| second.begun.saturating_sub(1));
            key.change_before(place.clash.was, shown)
        }
        _ => None,
    }
}

impl Meets {
    /// Counts a change. `since` is when its contradiction began or, for a sampled change, when the change began.
    fn add(&mut self, runs: &Runs<'_>, neighbours: &Neighbours, change: Made, since: u64) {
        let calls = runs.made_of(change.key);
        self.own.add(runs_beside(calls, change));
        let is_met = neighbours.overlap(change.key, change.begun, change.ended, None);
        self.others.add(is_met);
        self.first.add(since <= first_ended(calls));
    }

    /// Counts sampled completed changes of all keys.
    fn add_sampled(&mut self, runs: &Runs<'_>, neighbours: &Neighbours) {
        let calls = &runs.recorded.calls;
        let (step, mut next) = (calls.len().checked_div(MOST).unwrap_or(0), 0usize);
        for (index, call) in calls.iter().enumerate() {
            if !call.changes() || call.reply.is_none() {
                continue;
            }
            if index < next {
                self.has_more_changes = true;
                continue;
            }
            next = index.saturating_add(step);
            self.add(runs, neighbours, *call, call.begun);
        }
    }
}

/// Returns the facts about the changes that the contradictions `places` undo or report twice. Counts the first `MOST`
/// contradictions. Allocates.
pub(crate) fn meets_of(
    runs: &Runs<'_>,
    places: &[Place],
    neighbours: &Neighbours,
) -> Result<Meets, AllocError> {
    let (mut meets, mut usual) = (Meets::default(), Meets::default());
    let mut known: Option<KeyCalls> = None;
    for place in places.iter().take(MOST) {
        if known.as_ref().is_none_or(|key| key.key != place.key) {
            known = Some(runs.calls_of(place.key)?);
        }
        let undone = known.as_ref().and_then(|key| undone_by(key, place));
        if let Some(change) = undone {
            meets.add(runs, neighbours, change, place.clash.begun());
        }
    }
    usual.add_sampled(runs, neighbours);
    Ok(Meets {
        own: meets.own.against(usual.own),
        others: meets.others.against(usual.others),
        first: meets.first.against(usual.first),
        has_more_contradictions: places.len() > MOST,
        has_more_changes: usual.has_more_changes,
    })
}
