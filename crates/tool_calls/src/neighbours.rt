//! Finds the changes of other keys that ran at the same time as a call. A completed change is an add or remove that
//! returned true.

use crate::made_calls::{Made, Operation};
use std::alloc::{AllocError, Global};

/// A search checks at most this many changes, counted back from the end of the period. The limit bounds the time; an
/// earlier change that still runs is missed.
const MOST_BACK: usize = 100_000;

/// The completed changes (adds and removes that returned true) of all keys, indexed for searches by time.
#[derive(Drop)]
pub struct Neighbours {
    /// The changes, ordered by begin.
    changes: Vec<Made>,
    /// `latest[i]` is the latest end of the first i + 1 changes.
    latest: Vec<u64>,
}

impl Neighbours {
    /// Indexes the adds and removes in `calls` that returned true. `calls` must be ordered by begin. Allocates.
    pub fn of(alloc: Global, calls: &[Made]) -> Result<Neighbours, AllocError> {
        let mut changes = Vec::new(alloc);
        let mut latest = Vec::new(alloc);
        let mut last = 0;
        for call in calls {
            if call.changes() && call.reply.is_some() {
                last = call.ended.max(last);
                changes.push(*call)?;
                latest.push(last)?;
            }
        }
        Ok(Neighbours { changes, latest })
    }

    /// Returns at most `most` adds and removes of other keys than `key` that returned true and were running at a moment
    /// from `since` to `until`. The one that began last comes first. Allocates.
    pub fn around(
        &self,
        alloc: Global,
        key: u32,
        since: u64,
        until: u64,
        most: usize,
    ) -> Result<Vec<Made>, AllocError> {
        let mut found = Vec::new(alloc);
        let end = self.changes.partition_point(|call| call.begun <= until);
        let changes = self.changes.get(..end).unwrap_or(&[]);
        let latest = self.latest.get(..end).unwrap_or(&[]);
        for (call, last) in changes.iter().zip(latest).rev().take(MOST_BACK) {
            if *last < since || found.len() >= most {
                break;
            }
            if call.key != key && call.ended >= since {
                found.push(*call)?;
            }
        }
        Ok(found)
    }

    /// Returns `true` if an add or remove of another key than `key` returned true and was running at a moment from
    /// `since` to `until`. If `operation` is not `None`, considers only this operation.
    pub fn overlap(&self, key: u32, since: u64, until: u64, operation: Option<Operation>) -> bool {
        let sought = match operation {
            None => Sought::OfOtherKey,
            Some(operation) => Sought::OfOtherKeyBy(operation),
        };
        self.has(key, since, until, sought)
    }

    /// Returns `true` if a remove of a smaller key than `key` returned true and was running at a moment from `since` to
    /// `until`. Such a remove can unlink the node before the node of `key` in a sorted list.
    pub fn unlink_below(&self, key: u32, since: u64, until: u64) -> bool {
        self.has(key, since, until, Sought::RemoveOfSmallerKey)
    }

    /// Returns `true` if an add or remove of the kind `sought` returned true and was running at a moment from `since`
    /// to `until`. `key` is the key that `sought` compares with.
    pub fn has(&self, key: u32, since: u64, until: u64, sought: Sought) -> bool {
        let end = self.changes.partition_point(|call| call.begun <= until);
        let changes = self.changes.get(..end).unwrap_or(&[]);
        let latest = self.latest.get(..end).unwrap_or(&[]);
        for (call, last) in changes.iter().zip(latest).rev().take(MOST_BACK) {
            if *last < since {
                return false;
            }
            if call.ended >= since && sought.includes(call, key) {
                return true;
            }
        }
        false
    }
}

/// The kind of change (an add or remove that returned true) that a search looks for, compared with a given key.
#[derive(Clone, Copy)]
pub enum Sought {
    /// A change of another key.
    OfOtherKey,
    /// A change of another key by this operation.
    OfOtherKeyBy(Operation),
    /// A change of another key that began at this moment or later.
    OfOtherKeySince(u64),
    /// A remove of a smaller key.
    RemoveOfSmallerKey,
}

impl Sought {
    /// Returns `true` if the change `call` is of this kind, compared with `key`.
    fn includes(self, call: &Made, key: u32) -> bool {
        match self {
            Sought::OfOtherKey => call.key != key,
            Sought::OfOtherKeyBy(operation) => call.key != key && call.operation == operation,
            Sought::OfOtherKeySince(since) => call.key != key && call.begun >= since,
            Sought::RemoveOfSmallerKey => call.key < key && call.operation == Operation::Remove,
        }
    }
}
