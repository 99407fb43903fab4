//! The calls on one key of a recording, indexed for two searches: which earlier call shows the state of the key, and
//! whether a change of the key overlaps a period. A change is an add or remove that returned true or is pending (it can
//! have taken effect).

use crate::made_calls::{Made, Operation};
use lset_words::Presence;
use std::alloc::{AllocError, Global};

/// The changes of a key to one state, ordered by begin: the adds, or the removes, that returned true or are pending.
#[derive(Drop)]
struct Makers {
    /// The moments at which the changes began, in increasing order.
    begins: Vec<u64>,
    /// `latest[i]` is the latest end of the first i + 1 changes.
    latest: Vec<u64>,
}

impl Makers {
    /// Collects the changes to `state` among `calls`, the key's calls ordered by begin.
    fn of(alloc: Global, calls: &[Made], state: Presence) -> Result<Makers, AllocError> {
        let mut begins = Vec::new(alloc);
        let mut latest = Vec::new(alloc);
        let mut last = 0;
        for call in calls {
            if call.makes() == Some(state) {
                last = call.ended.max(last);
                begins.push(call.begun)?;
                latest.push(last)?;
            }
        }
        Ok(Makers { begins, latest })
    }

    /// Returns `true` if all changes that began before `moment` had ended before `moment`.
    fn have_ended(&self, moment: u64) -> bool {
        let at = self.begins.partition_point(|begun| *begun < moment);
        match self.latest.get(at.wrapping_sub(1)) {
            Some(last) => *last < moment,
            None => true,
        }
    }

    /// Returns `true` if a change was running at a moment from `since` to `until`, both included.
    fn overlap(&self, since: u64, until: u64) -> bool {
        let at = self.begins.partition_point(|begun| *begun <= until);
        match self.latest.get(at.wrapping_sub(1)) {
            Some(last) => *last >= since,
            None => false,
        }
    }
}

/// The completed calls that left a key in one state, ordered by end. Each call is a proof that the key was in this
/// state at a moment while the call was running.
#[derive(Drop)]
struct Proofs {
    /// The moments at which the calls ended, in increasing order.
    ends: Vec<u64>,
    /// `last[i]` is the call that began last among the first i + 1 calls.
    last: Vec<Made>,
}

impl Proofs {
    /// Collects the completed calls among `calls` that left the key in `state`.
    fn of(alloc: Global, calls: &[Made], state: Presence) -> Result<Proofs, AllocError> {
        let mut found: Vec<Made> = Vec::new(alloc);
        for call in calls {
            if call.leaves() == Some(state) {
                found.push(*call)?;
            }
        }
        found.sort_unstable_by_key(|call| call.ended);
        let mut ends = Vec::new(alloc);
        let mut last = Vec::new(alloc);
        let mut best: Option<Made> = None;
        for call in &found {
            let began_last = match best {
                Some(other) if other.begun > call.begun => other,
                _ => *call,
            };
            best = Some(began_last);
            ends.push(call.ended)?;
            last.push(began_last)?;
        }
        Ok(Proofs { ends, last })
    }

    /// Returns the call that began last among those that ended before `moment`. `None` if no call ended before.
    fn before(&self, moment: u64) -> Option<Made> {
        let at = self.ends.partition_point(|end| *end < moment);
        self.last.get(at.wrapping_sub(1)).copied()
    }
}

/// The calls on one key of a recording, indexed for searches.
#[derive(Drop)]
pub struct KeyCalls {
    pub key: u32,
    /// The calls on the key, ordered by begin.
    pub calls: Vec<Made>,
    /// The state of the key (present or absent) before the first call.
    pub opening: Presence,
    /// The state of the key after all calls; `None` if it is unknown.
    pub left: Option<Presence>,
    /// The adds that changed the key, or can have changed it.
    puts: Makers,
    /// The removes that changed the key, or can have changed it.
    takes: Makers,
    /// The completed calls that left the key present.
    present: Proofs,
    /// The completed calls that left the key absent.
    absent: Proofs,
}

impl KeyCalls {
    /// Indexes `calls`, the calls on `key` ordered by begin, for searches. `opening` is the key's state before these
    /// calls. `left` is the state after them, if known. Allocates.
    pub fn new(
        alloc: Global,
        key: u32,
        calls: Vec<Made>,
        opening: Presence,
        left: Option<Presence>,
    ) -> Result<KeyCalls, AllocError> {
        let puts = Makers::of(alloc, &calls, Presence::Present)?;
        let takes = Makers::of(alloc, &calls, Presence::Absent)?;
        let present = Proofs::of(alloc, &calls, Presence::Present)?;
        let absent = Proofs::of(alloc, &calls, Presence::Absent)?;
        Ok(KeyCalls {
            key,
            calls,
            opening,
            left,
            puts,
            takes,
            present,
            absent,
        })
    }

    /// Returns `true` if the key can have been changed to `state` between the moments `since` and `until`, both
    /// included: an add (for present) or a remove (for absent) that returned true or is pending was running at that
    /// time.
    pub fn may_become(&self, state: Presence, since: u64, until: u64) -> bool {
        match state {
            Presence::Present => self.puts.overlap(since, until),
            Presence::Absent => self.takes.overlap(since, until),
        }
    }

    /// Returns `true` if no call that changed the key to `state` was running at `moment`: every add (for present) or
    /// remove (for absent) that returned true or is pending, and began before `moment`, had ended before `moment`.
    pub fn no_change_runs(&self, state: Presence, moment: u64) -> bool {
        match state {
            Presence::Present => self.puts.have_ended(moment),
            Presence::Absent => self.takes.have_ended(moment),
        }
    }

    /// Returns a completed call that ended before `moment` and left the key in `state`. If several calls did, returns
    /// the one that began last; `None` if no call did.
    pub fn proof_before(&self, state: Presence, moment: u64) -> Option<Made> {
        match state {
            Presence::Present => self.present.before(moment),
            Presence::Absent => self.absent.before(moment),
        }
    }

    /// Returns how many of the key's calls began at `moment` or earlier.
    pub fn begun_by(&self, moment: u64) -> usize {
        self.calls.partition_point(|call| call.begun <= moment)
    }

    /// Returns the key's calls that began later than `moment`, ordered by begin.
    pub fn after(&self, moment: u64) -> &[Made] {
        self.calls.get(self.begun_by(moment)..).unwrap_or(&[])
    }

    /// Returns the calls of `operation` that returned false and were running at a moment from `since` to `until`. Of
    /// the calls that began by `since`, checks only the last `MOST_OLDER`. Allocates.
    pub fn refusals(
        &self,
        alloc: Global,
        operation: Operation,
        since: u64,
        until: u64,
    ) -> Result<Vec<Made>, AllocError> {
        let mut found = Vec::new(alloc);
        let end = self.begun_by(until);
        let first = self.begun_by(since).saturating_sub(MOST_OLDER);
        for call in self.calls.get(first..end).unwrap_or(&[]) {
            let is_refusal = call.operation == operation && call.reply == Some(false);
            if is_refusal && call.overlaps(since, until) {
                found.push(*call)?;
            }
        }
        Ok(found)
    }

    /// Returns `true` if another add or remove of the key that returned true overlaps the call `change` in time. Of the
    /// calls that began by the end of `change`, checks only the last `MOST_OLDER`.
    pub fn has_change_beside(&self, change: Made) -> bool {
        let end = self.begun_by(change.ended);
        let earlier = self.calls.get(..end).unwrap_or(&[]);
        for call in earlier.iter().rev().take(MOST_OLDER) {
            let is_other = call.begun != change.begun && call.ended > change.begun;
            if is_other && call.changes() && call.reply.is_some() {
                return true;
            }
        }
        false
    }

    /// Returns the last call that began by `moment` and changed the key to `state`: an add (for present) or a remove
    /// (for absent) that returned true. Checks only the last `MOST_CHANGED` calls that began by `moment`; `None` if no
    /// such call is among them.
    pub fn change_before(&self, state: Presence, moment: u64) -> Option<Made> {
        let end = self.begun_by(moment);
        let earlier = self.calls.get(..end).unwrap_or(&[]);
        for call in earlier.iter().rev().take(MOST_CHANGED) {
            if call.makes() == Some(state) && call.reply.is_some() {
                return Some(*call);
            }
        }
        None
    }
}

/// How many calls, counted back from a moment, are searched for the last change of a key. Bounds the time of a search;
/// an earlier change is not found.
const MOST_CHANGED: usize = 1_000;

/// How many calls, counted back from a moment, are checked for an overlap with a later time. The limit bounds the time
/// of a search; a call that began earlier is missed, even if the call still runs.
const MOST_OLDER: usize = 400;
