//! Finds two keys that the set treats as one key: no order explains the calls on either key, but the calls on both keys
//! are linearizable if they are taken as calls on one key. A key is refused if its calls are not linearizable.

use crate::key_order::has_order;
use crate::made_calls::Made;
use crate::runs::{Refused, Runs, first_of};
use std::alloc::{AllocError, Global};

/// If at most this many keys are refused (their calls are not linearizable), all pairs of them are tried. The limit
/// bounds the time.
const MOST_PAIRED: usize = 8;

/// If more than `MOST_PAIRED` keys are refused (their calls are not linearizable), only this many of them are paired
/// with the key that is refused first. The limit bounds the time.
const MOST_TRIED: usize = 64;

/// Two keys that have more calls than this together are not tried. The limit bounds the time.
const MOST_CALLS: usize = 1_000_000;

/// Each key of a pair must have at least this many adds and removes that returned true. Fewer calls can fit those of
/// another key by chance.
const LEAST_CHANGES: usize = 4;

/// Returns how many of the calls are adds and removes that returned true.
fn count_changes(calls: &[Made]) -> usize {
    calls
        .iter()
        .filter(|call| call.changes() && call.reply.is_some())
        .count()
}

/// Returns `true` if the calls on the keys `one` and `two` are linearizable when taken as calls on one key, whose final
/// state is unknown. Returns `false` without trying if the keys open in different states, have too few changes
/// (`LEAST_CHANGES`) or too many calls (`MOST_CALLS`).
fn are_one(alloc: Global, runs: &Runs<'_>, one: u32, two: u32) -> Result<bool, AllocError> {
    let opening = runs.recorded.opens(one);
    if opening != runs.recorded.opens(two) {
        return Ok(false);
    }
    let (first, second) = (runs.made_of(one), runs.made_of(two));
    let is_enough = count_changes(first).min(count_changes(second)) >= LEAST_CHANGES;
    if !is_enough || first.len().saturating_add(second.len()) > MOST_CALLS {
        return Ok(false);
    }
    let mut calls = Vec::from_slice(alloc, first)?;
    calls.extend_from_slice(second)?;
    calls.sort_unstable_by_key(|call| call.begun);
    has_order(alloc, &calls, opening, None)
}

/// Returns the first key in `others` that can be the same key as `one`: the calls on both keys are linearizable when
/// taken as calls on one key. `None` if no key can be.
fn partner_of(
    alloc: Global,
    runs: &Runs<'_>,
    one: u32,
    others: &[Refused],
) -> Result<Option<u32>, AllocError> {
    for two in others {
        if two.key != one && are_one(alloc, runs, one, two.key)? {
            return Ok(Some(two.key));
        }
    }
    Ok(None)
}

/// Returns two of the keys in `refused` (keys with calls that are not linearizable) that the set seems to treat as one:
/// their calls are linearizable when taken as calls on one key. `None` if no such pair is found. If `refused` has more
/// than `MOST_PAIRED` keys, tries only pairs with the key that is refused first. Allocates.
pub fn merged_keys(
    alloc: Global,
    runs: &Runs<'_>,
    refused: &[Refused],
) -> Result<Option<(u32, u32)>, AllocError> {
    if refused.len() <= MOST_PAIRED {
        for (index, one) in refused.iter().enumerate() {
            let others = refused.get(index..).unwrap_or(&[]);
            if let Some(two) = partner_of(alloc, runs, one.key, others)? {
                return Ok(Some((one.key, two)));
            }
        }
        return Ok(None);
    }
    let Some(first) = first_of(refused) else {
        return Ok(None);
    };
    let others = refused.get(..MOST_TRIED).unwrap_or(refused);
    let two = partner_of(alloc, runs, first.key, others)?;
    Ok(two.map(|two| (first.key.min(two), first.key.max(two))))
}
