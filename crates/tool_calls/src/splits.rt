//! Finds splits: periods in which no call changed a key, although some calls found the key present and others found it
//! absent, in turn. A split is a sign that the operations look for the key in two different places.

use crate::key_calls::KeyCalls;
use crate::made_calls::{Made, NEVER, Operation, drop_ended};
use lset_words::Presence;
use std::alloc::{AllocError, Global};

/// A split (a period in which calls disagree about an unchanged key) has at least this many calls that found the key
/// present, and at least this many that found it absent. Fewer calls can disagree for other reasons.
const LEAST: u64 = 3;

/// A split (a period in which calls disagree about an unchanged key) with at least this many calls is long: the
/// disagreement is no accident.
const LONG: u64 = 200;

/// How many calls found a key present, and how many found the key absent.
#[derive(Clone, Copy)]
pub struct Votes {
    pub present: u64,
    pub absent: u64,
}

/// A split: a period in which no call changed a key, although calls alternately found the key present and absent.
/// Counts the calls that changed nothing and ran within the period.
#[derive(Clone, Copy)]
pub struct Split {
    pub key: u32,
    /// The moment (time in the recording) at which the period begins: the end of the last change; 0 before any change.
    pub since: u64,
    /// The moment at which the period ends: the begin of the next change; `NEVER` if no change follows.
    pub until: u64,
    /// How many adds returned false: they found the key present.
    pub adds: u64,
    /// How many removes returned false: they found the key absent.
    pub removes: u64,
    /// How many contains found the key present, and how many absent.
    pub contains: Votes,
    /// How often a counted call disagreed with the call that was counted before it.
    turns: u64,
    /// What the last counted call found.
    last: Option<Presence>,
}

impl Split {
    /// Creates a split without calls that begins at the moment `since`.
    fn since(key: u32, since: u64) -> Split {
        Split {
            key,
            since,
            until: NEVER,
            adds: 0,
            removes: 0,
            contains: Votes {
                present: 0,
                absent: 0,
            },
            turns: 0,
            last: None,
        }
    }

    /// Counts a call that changed nothing: whether the call found the key present or absent.
    fn count(&mut self, call: Made) {
        let Some(found) = call.needs() else {
            return;
        };
        let votes = match (call.operation, found) {
            (Operation::Add, _) => &mut self.adds,
            (Operation::Remove, _) => &mut self.removes,
            (Operation::Contains, Presence::Present) => &mut self.contains.present,
            (Operation::Contains, Presence::Absent) => &mut self.contains.absent,
        };
        *votes = votes.saturating_add(1);
        if self.last.is_some() && self.last != Some(found) {
            self.turns = self.turns.saturating_add(1);
        }
        self.last = Some(found);
    }

    /// Returns `true` if the split (calls disagree about an unchanged key) has so many calls that the disagreement is
    /// no accident: at least `LONG`.
    pub fn is_long(&self) -> bool {
        self.size() >= LONG
    }

    /// Returns how many calls of all operations found the key present, and how many found the key absent.
    pub fn votes(&self) -> Votes {
        Votes {
            present: self.adds.saturating_add(self.contains.present),
            absent: self.removes.saturating_add(self.contains.absent),
        }
    }

    /// Returns `true` if the period is a split: at least `LEAST` calls found the key present, at least `LEAST` absent,
    /// at least three calls disagreed with the call counted before, and all calls of `contains` agree.
    fn is_split(&self) -> bool {
        let votes = self.votes();
        let is_mixed = self.contains.present > 0 && self.contains.absent > 0;
        votes.present >= LEAST && votes.absent >= LEAST && self.turns >= 3 && !is_mixed
    }

    /// Returns the number of counted calls.
    pub fn size(&self) -> u64 {
        let votes = self.votes();
        votes.present.saturating_add(votes.absent)
    }
}

/// Returns the split with the most calls: a period in which no call changed the key, although calls alternately found
/// the key present and absent. `None` if there is no split. Allocates.
pub fn longest_split(alloc: Global, key: &KeyCalls) -> Result<Option<Split>, AllocError> {
    let mut best: Option<Split> = None;
    let mut split = Split::since(key.key, 0);
    let mut quiet = 0;
    let mut running: Vec<Made> = Vec::new(alloc);
    for call in &key.calls {
        let call = *call;
        for earlier in &running {
            if earlier.ended < call.begun {
                split.count(*earlier);
            }
        }
        drop_ended(&mut running, call.begun);
        if call.changes() {
            split.until = call.begun;
            best = larger(best, split);
            quiet = call.ended.max(quiet);
            split = Split::since(key.key, quiet);
            running.clear();
        } else if call.reply.is_some() && call.begun > quiet {
            running.push(call)?;
        }
    }
    for earlier in &running {
        split.count(*earlier);
    }
    Ok(larger(best, split))
}

/// Returns the split with more calls. Ignores `next` if `is_split` rejects it.
fn larger(best: Option<Split>, next: Split) -> Option<Split> {
    if !next.is_split() {
        return best;
    }
    match best {
        Some(best) if best.size() >= next.size() => Some(best),
        _ => Some(next),
    }
}
