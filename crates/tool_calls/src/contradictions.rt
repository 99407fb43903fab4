//! Finds contradictions: pairs of calls on one key that no order explains. The first call leaves the key in one state
//! (present or absent), and the second call needs the opposite state. No add or remove that can have changed the key to
//! this opposite state was running between the begin of the first call and the end of the second. The opening state or
//! a stretch (a group of overlapping changes) can replace the first call, and the final state can replace the second.
//! Two overlapping calls contradict each other if no order of the two is possible.

use crate::key_calls::KeyCalls;
use crate::made_calls::{Made, NEVER, drop_ended, other};
use crate::stretches::{Stretch, stretch_before};
use lset_words::Presence;
use std::alloc::{AllocError, Global};

/// A contradiction on one key: the first call (or `stretch`, or the opening state) leaves the key in the state `was`,
/// the second call (or the final state) needs the opposite state, and no call can have made this change in between.
#[derive(Clone, Copy)]
pub struct Clash {
    /// The call that leaves the key in the state `was`. `None` if `stretch` leaves this state, or if the key opens in
    /// this state.
    pub first: Option<Made>,
    /// The call that needs the state opposite to `was`. `None` if the final state is this opposite state.
    pub second: Option<Made>,
    /// A group of overlapping adds and removes after which the key is in the state `was`, in whichever order they took
    /// effect.
    pub stretch: Option<Stretch>,
    /// The state (present or absent) in which the contradiction begins.
    pub was: Presence,
    /// The moment (a time in the recording) at which the contradiction begins; 0 if the opening state replaces the
    /// first call.
    pub since: u64,
    /// The moment at which the last of the contradicting calls ended; `NEVER` if the final state replaces the second
    /// call.
    pub until: u64,
}

impl Clash {
    /// Returns `true` if the contradiction is between two calls that overlap each other in time.
    pub fn overlaps(&self) -> bool {
        match (self.first, self.second) {
            (Some(first), Some(second)) => second.begun < first.ended,
            _ => false,
        }
    }

    /// Returns the moment at which the contradiction begins: the begin of `first`, of `stretch.read` or, without this
    /// call, of `stretch`. If the opening state replaces these calls, returns the begin of `second`; without `second`,
    /// returns 0.
    pub fn begun(&self) -> u64 {
        match (self.stretch, self.first, self.second) {
            (Some(stretch), _, _) => stretch.read.map_or(stretch.begun, |read| read.begun),
            (None, Some(first), _) => first.begun,
            (None, None, Some(second)) => second.begun,
            (None, None, None) => 0,
        }
    }
}

/// A need for a state of the key: a call, or the end of the recording, needs the key present or absent.
#[derive(Clone, Copy)]
struct Need {
    /// The call; `None` for the final state.
    second: Option<Made>,
    /// The state that is needed.
    state: Presence,
    /// When the call began; `NEVER` for the final state.
    begun: u64,
    /// When the call ended; `NEVER` for the final state.
    ended: u64,
}

/// Returns a contradiction between `need` and the opening state, a call that ended before `need.begun`, or a stretch (a
/// group of overlapping changes) that ended before. `stretches` are all stretches of the key. `None` if no
/// contradiction is found.
fn clash_before(key: &KeyCalls, stretches: &[Stretch], need: Need) -> Option<Clash> {
    let was = other(need.state);
    let first = key.proof_before(was, need.begun);
    let since = first.map_or(0, |first| first.begun);
    let is_known = first.is_some() || key.opening == was;
    if is_known && !key.may_become(need.state, since, need.ended) {
        return Some(Clash {
            first,
            second: need.second,
            stretch: None,
            was,
            since,
            until: need.ended,
        });
    }
    let stretch = stretch_before(stretches, need.begun)?;
    let since = stretch.ended.saturating_add(1);
    if stretch.leaves == Some(was) && !key.may_become(need.state, since, need.ended) {
        return Some(Clash {
            first: None,
            second: need.second,
            stretch: Some(stretch),
            was,
            since: stretch.read.map_or(stretch.begun, |read| read.begun),
            until: need.ended,
        });
    }
    None
}

/// Returns a contradiction between `call` and what happened before: a call that had ended before `call` began, a
/// stretch (a group of overlapping changes), or the opening state. `stretches` are all stretches of the key. `None` if
/// no contradiction is found, or if `call` is pending.
pub fn clash_of(key: &KeyCalls, stretches: &[Stretch], call: Made) -> Option<Clash> {
    let need = Need {
        second: Some(call),
        state: call.needs()?,
        begun: call.begun,
        ended: call.ended,
    };
    clash_before(key, stretches, need)
}

/// Returns a contradiction between the final state of the key and an earlier call, a stretch or the opening state.
/// `None` if no contradiction is found, or if the final state is unknown.
fn clash_at_end(key: &KeyCalls, stretches: &[Stretch]) -> Option<Clash> {
    let need = Need {
        second: None,
        state: key.left?,
        begun: NEVER,
        ended: NEVER,
    };
    clash_before(key, stretches, need)
}

/// Returns `true` if `two` cannot take effect after `one` in the time from `since` to `until`: `one` leaves the key in
/// the state opposite to the one that `two` needs, and no call that can have changed the key to the needed state was
/// running in this time.
fn excludes(key: &KeyCalls, one: Made, two: Made, until: u64, since: u64) -> bool {
    match two.needs() {
        Some(needs) => one.leaves() == Some(other(needs)) && !key.may_become(needs, since, until),
        None => false,
    }
}

/// Returns a contradiction between two overlapping calls if neither can take effect after the other. `first` began
/// before `second`.
fn clash_at_once(key: &KeyCalls, first: Made, second: Made) -> Option<Clash> {
    let (since, until) = (first.begun, first.ended.max(second.ended));
    let was = first.leaves()?;
    if excludes(key, first, second, until, since) && excludes(key, second, first, until, since) {
        return Some(Clash {
            first: Some(first),
            second: Some(second),
            stretch: None,
            was,
            since,
            until,
        });
    }
    None
}

/// At most this many contradictions of a key are kept. The limit bounds memory, and the time to examine them.
const MOST_PLACES: usize = 20_000;

/// Contradictions of one key that do not overlap each other in time, ordered by time.
#[derive(Drop)]
struct Apart {
    found: Vec<Clash>,
}

impl Apart {
    /// Adds `clash` if it begins after the last contradiction in the list has ended, and the list has room. If `clash`
    /// overlaps only the last contradiction and ends earlier, replaces the last one. Otherwise drops `clash`.
    fn keep(&mut self, clash: Clash) -> Result<(), AllocError> {
        let Some(last) = self.found.last().copied() else {
            self.found.push(clash)?;
            return Ok(());
        };
        if clash.since > last.until {
            if self.found.len() < MOST_PLACES {
                self.found.push(clash)?;
            }
            return Ok(());
        }
        let before = self.found.get(self.found.len().wrapping_sub(2)).copied();
        let is_free = before.is_none_or(|before| before.until < clash.since);
        if clash.until < last.until && is_free {
            let _longer = self.found.pop();
            self.found.push(clash)?;
        }
        Ok(())
    }
}

/// Returns at most `MOST_PLACES` contradictions of a key, ordered by time. If two of them overlap each other in time,
/// returns only one of the two. `stretches` are all stretches (groups of overlapping changes) of the key. Allocates.
pub fn clashes_of(
    alloc: Global,
    key: &KeyCalls,
    stretches: &[Stretch],
) -> Result<Vec<Clash>, AllocError> {
    let mut apart = Apart {
        found: Vec::new(alloc),
    };
    let mut running: Vec<Made> = Vec::new(alloc);
    for call in &key.calls {
        let call = *call;
        if call.reply.is_none() {
            continue;
        }
        drop_ended(&mut running, call.begun);
        for earlier in &running {
            if let Some(clash) = clash_at_once(key, *earlier, call) {
                apart.keep(clash)?;
            }
        }
        if let Some(clash) = clash_of(key, stretches, call) {
            apart.keep(clash)?;
        }
        running.push(call)?;
    }
    if let Some(clash) = clash_at_end(key, stretches) {
        apart.keep(clash)?;
    }
    Ok(apart.found)
}
