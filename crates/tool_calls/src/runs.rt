//! Groups the calls of a recording by key, and finds the refused keys: those with calls that are not linearizable.

use crate::key_calls::KeyCalls;
use crate::key_order::failing_moment;
use crate::made_calls::Made;
use crate::recorded::Recorded;
use std::alloc::{AllocError, Global};

/// The calls of a recording, grouped by key.
#[derive(Drop)]
pub struct Runs<'a> {
    alloc: Global,
    /// The recording that contains the calls.
    pub recorded: &'a Recorded,
    /// The keys that have calls, in increasing order.
    keys: Vec<u32>,
    /// `ends[i]` is the index in `calls` after the last call on the key `keys[i]`.
    ends: Vec<usize>,
    /// The calls in the order of their keys. The calls on one key are ordered by begin.
    calls: Vec<Made>,
}

/// A refused key: no order explains the key's calls, its opening state and its final state (present or absent).
#[derive(Clone, Copy)]
pub struct Refused {
    pub key: u32,
    /// The first moment (time in the recording) such that the key's calls up to this moment are not linearizable.
    /// `NEVER` if the calls are linearizable, but no order leaves the final state.
    pub moment: u64,
}

/// The keys that have calls, and the index of each key among them.
#[derive(Drop)]
struct KeyTable {
    /// The keys that have calls, in increasing order.
    keys: Vec<u32>,
    /// `ranks[key]` is the index of `key` in `keys`. Empty if the largest key is too large for such a table.
    ranks: Vec<u32>,
}

/// Returns the index of `key` in `keys`, which must be increasing. If the key is missing, returns the index of the next
/// larger key.
fn place_of(keys: &[u32], key: u32) -> usize {
    keys.partition_point(|other| *other < key)
}

impl KeyTable {
    /// Collects the keys of the calls, without the table `ranks`.
    fn sorted(alloc: Global, calls: &[Made]) -> Result<KeyTable, AllocError> {
        let mut keys = Vec::new(alloc);
        for call in calls {
            keys.push(call.key)?;
        }
        keys.sort_unstable();
        keys.dedup();
        Ok(KeyTable {
            keys,
            ranks: Vec::new(alloc),
        })
    }

    /// Collects the keys of the calls. Fills the table `ranks` unless the largest key is above 65,536 plus four times
    /// the number of calls.
    fn of(alloc: Global, calls: &[Made]) -> Result<KeyTable, AllocError> {
        let mut most = 0;
        for call in calls {
            most = call.key.max(most);
        }
        let size = usize::try_from(most)
            .unwrap_or(usize::MAX)
            .saturating_add(1);
        if size > calls.len().saturating_mul(4).saturating_add(65_536) {
            return KeyTable::sorted(alloc, calls);
        }
        let mut seen = Vec::from_elem(alloc, false, size)?;
        for call in calls {
            let at = usize::try_from(call.key).unwrap_or(usize::MAX);
            if let Some(is_seen) = seen.get_mut(at) {
                *is_seen = true;
            }
        }
        let mut table = KeyTable {
            keys: Vec::new(alloc),
            ranks: Vec::new(alloc),
        };
        let mut rank = 0u32;
        for (key, is_seen) in seen.iter().enumerate() {
            table.ranks.push(rank)?;
            if *is_seen {
                table.keys.push(u32::try_from(key).unwrap_or(u32::MAX))?;
                rank = rank.saturating_add(1);
            }
        }
        Ok(table)
    }

    /// Returns the index in `keys` of a key that has a call.
    fn rank(&self, key: u32) -> usize {
        let at = usize::try_from(key).unwrap_or(usize::MAX);
        match self.ranks.get(at) {
            Some(rank) => usize::try_from(*rank).unwrap_or(usize::MAX),
            None => place_of(&self.keys, key),
        }
    }
}

impl<'a> Runs<'a> {
    /// Groups the calls of a recording by key. The calls must be ordered by begin. Allocates.
    pub fn of(alloc: Global, recorded: &'a Recorded) -> Result<Runs<'a>, AllocError> {
        let table = KeyTable::of(alloc, &recorded.calls)?;
        let mut counts = Vec::from_elem(alloc, 0usize, table.keys.len())?;
        for call in &recorded.calls {
            if let Some(count) = counts.get_mut(table.rank(call.key)) {
                *count = count.saturating_add(1);
            }
        }
        let mut ends = Vec::new(alloc);
        let mut start = 0usize;
        for count in &counts {
            ends.push(start)?;
            start = start.saturating_add(*count);
        }
        let mut calls = Vec::from_slice(alloc, &recorded.calls)?;
        for call in &recorded.calls {
            if let Some(end) = ends.get_mut(table.rank(call.key)) {
                if let Some(slot) = calls.get_mut(*end) {
                    *slot = *call;
                }
                *end = end.saturating_add(1);
            }
        }
        Ok(Runs {
            alloc,
            recorded,
            keys: table.keys,
            ends,
            calls,
        })
    }

    /// Returns the keys that have calls, in increasing order.
    pub fn used(&self) -> &[u32] {
        &self.keys
    }

    /// Returns the number of keys that have calls.
    pub fn places(&self) -> usize {
        self.keys.len()
    }

    /// Returns the index of `key` in `used()`, the increasing keys that have calls; `usize::MAX` if the key has no
    /// call.
    pub fn place(&self, key: u32) -> usize {
        let place = place_of(&self.keys, key);
        if self.keys.get(place) == Some(&key) {
            place
        } else {
            usize::MAX
        }
    }

    /// Returns the calls on `key`, ordered by begin. Empty if the key has no call.
    pub fn made_of(&self, key: u32) -> &[Made] {
        let place = self.place(key);
        if place == usize::MAX {
            return &[];
        }
        let start = self.ends.get(place.wrapping_sub(1)).copied().unwrap_or(0);
        let end = self.ends.get(place).copied().unwrap_or(0);
        self.calls.get(start..end).unwrap_or(&[])
    }

    /// Returns the calls on `key`, indexed for searches, with the key's opening and final state. Allocates.
    pub fn calls_of(&self, key: u32) -> Result<KeyCalls, AllocError> {
        let calls = Vec::from_slice(self.alloc, self.made_of(key))?;
        let (opening, left) = (self.recorded.opens(key), self.recorded.leaves(key));
        KeyCalls::new(self.alloc, key, calls, opening, left)
    }

    /// Returns all keys of the recording in increasing order: the keys of calls, the opening keys and the final keys.
    /// Allocates.
    pub fn keys(&self) -> Result<Vec<u32>, AllocError> {
        let mut keys = Vec::from_slice(self.alloc, &self.keys)?;
        keys.extend_from_slice(&self.recorded.opening)?;
        keys.extend_from_slice(&self.recorded.left)?;
        keys.sort_unstable();
        keys.dedup();
        Ok(keys)
    }

    /// Returns those of `keys` with calls that are not linearizable, in the order of `keys`. A key without calls is
    /// also returned if its opening and final state differ. Allocates.
    pub fn refused(&self, keys: &[u32]) -> Result<Vec<Refused>, AllocError> {
        let mut refused = Vec::new(self.alloc);
        for key in keys {
            let (opening, left) = (self.recorded.opens(*key), self.recorded.leaves(*key));
            let calls = self.made_of(*key);
            if let Some(moment) = failing_moment(self.alloc, calls, opening, left)? {
                refused.push(Refused { key: *key, moment })?;
            }
        }
        Ok(refused)
    }
}

/// Returns the refused key (a key with calls that are not linearizable) with the smallest `moment`; of several such
/// keys, the first in the list. `None` if the list is empty.
pub fn first_of(refused: &[Refused]) -> Option<Refused> {
    let mut first: Option<Refused> = None;
    for one in refused {
        match first {
            Some(other) if other.moment <= one.moment => {}
            _ => first = Some(*one),
        }
    }
    first
}
