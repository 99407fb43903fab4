//! Collects the facts about a recording that is not linearizable. The sentences of a diagnosis and the likely cause are
//! derived from these facts.
//!
//! A contradiction (type `Place`): a call leaves its key in one state (present or absent), a later call on the key
//! needs the other state, and no change of the key can have come between. A loss of a key is a contradiction in which a
//! present key became absent without a `remove` that returned true. A return is one in which an absent key became
//! present without an `add` that returned true. A moment is a time in the recording.

use crate::meets::{Meets, meets_of};
use crate::odd_facts::{Odd, find_odd, places_of_odd};
use crate::patterns::{Patterns, patterns_of};
use crate::tally::Tally;
use std::alloc::{AllocError, Global};
use tool_calls::{
    Bound, BoundKeys, Fullness, KeyCalls, Made, NEVER, Neighbours, Place, Refused, Runs, Split,
    Symptom, bound_of, longest_split, merged_keys, places_of,
};

/// The facts about a recording that is not linearizable, as far as most likely causes need them.
#[derive(Clone, Copy)]
pub struct Evidence {
    /// Two keys that the set seems to treat as one: the calls on each key are not linearizable, but the calls on both,
    /// taken as calls on one key, are. `None` if no such keys were found.
    pub merged: Option<(u32, u32)>,
    /// The facts about the operation that alone is wrong: without its completed calls that changed nothing, all calls
    /// are linearizable. `None` if there is no such operation.
    pub odd: Option<Odd>,
    /// Counts of the contradictions of all keys. All counts are 0 if one operation alone is wrong.
    pub tally: Tally,
    /// How wrong answers depend on the calling thread, and on replies to other threads. A wrong answer is the wrong
    /// reply of a call that changed nothing.
    pub patterns: Patterns,
    /// Which other calls ran during the changes that contradictions undo. All counts are 0 if one operation alone is
    /// wrong.
    pub meets: Meets,
    /// A split is a period without a change of a key, in which calls alternately found the key present and absent. This
    /// is the split with the most calls. `None` if no key has a split, or if one operation alone is wrong.
    pub split: Option<Split>,
    /// Two keys that undo each other's changes: nearly all undone changes of the first key overlapped a change of the
    /// second. `None` if no such keys were found, or if one operation alone is wrong.
    pub bound: Option<Bound>,
    /// The number of keys of the recording, including opening and final keys without calls.
    pub keys: u64,
    /// The number of calls of the recording.
    pub calls: u64,
    /// Whether the recording has only the first calls of a longer recording.
    pub is_part: bool,
    /// Whether the calls on the smallest key are linearizable, and the calls on at least two other keys are not. False
    /// if the smallest key has less than half as many calls as the smallest of those keys.
    pub is_first_spared: bool,
    /// The largest key of the recording minus the smallest key.
    pub span: u32,
}

/// The results of the search for contradictions in a recording that is not linearizable.
#[derive(Drop)]
pub struct Found {
    /// If one operation alone is wrong, contradictions between its wrong answers and the other calls, at most 400.
    /// Otherwise the contradictions of all keys that were searched.
    pub places: Vec<Place>,
    /// The wrong answer that ended first on the smallest key with wrong answers, if one operation alone is wrong.
    /// Otherwise `None`.
    pub wrong: Option<Made>,
    /// The facts about the operation that alone is wrong: without its completed calls that changed nothing, all calls
    /// are linearizable. `None` if there is no such operation.
    pub odd: Option<Odd>,
    /// Counts of the contradictions. All counts are 0 if one operation alone is wrong.
    pub tally: Tally,
    /// A split is a period without a change of a key, in which calls alternately found the key present and absent. This
    /// is the split with the most calls. `None` if no key has a split, or if one operation alone is wrong.
    pub split: Option<Split>,
    /// How many keys have a partner (another key with changes that overlap nearly all undone changes of the key), and
    /// the best pair. Empty if one operation alone is wrong.
    pub bound: BoundKeys,
}

/// Some counts consider only losses of keys that last at most this many moments (times in the recording). During a
/// longer loss, any other call can run by chance.
const MOST_MOMENTS: u64 = 200;

/// Losses of keys are compared with the number of keys present at that time only if there are at least this many
/// losses, and no returns of keys. Fewer losses can agree by chance.
const LEAST_LOST: u64 = 10;

/// Returns the losses and returns of keys among contradictions, ordered by begin. Leaves out those that only the final
/// keys show, not a later call.
fn gone_of(alloc: Global, places: &[Place]) -> Result<Vec<Place>, AllocError> {
    let mut gone = Vec::new(alloc);
    for place in places {
        if place.is_gone() && place.clash.second.is_some() {
            gone.push(*place)?;
        }
    }
    gone.sort_unstable_by_key(|place| place.clash.begun());
    Ok(gone)
}

/// Returns the contradictions of one kind (symptom), for example losses, in the given order.
fn of_symptom(alloc: Global, places: &[Place], symptom: Symptom) -> Result<Vec<Place>, AllocError> {
    let mut found = Vec::new(alloc);
    for place in places {
        if place.symptom == symptom {
            found.push(*place)?;
        }
    }
    Ok(found)
}

/// Returns the contradictions that would not exist if one call had returned the opposite reply, ordered by begin.
/// Leaves out those that only the final keys show.
fn replies_of(alloc: Global, places: &[Place]) -> Result<Vec<Place>, AllocError> {
    let mut found = Vec::new(alloc);
    for place in places {
        let is_reply = place.wrong.is_some() || (place.is_gone() && place.is_turned);
        if is_reply && place.clash.second.is_some() {
            found.push(*place)?;
        }
    }
    found.sort_unstable_by_key(|place| place.clash.begun());
    Ok(found)
}

/// Returns the last moment of a recording: the last begin or end of a call in `calls`. Returns 0 if there are no calls.
fn last_moment(calls: &[Made]) -> u64 {
    let mut last = 0;
    for call in calls {
        let end = if call.ended < NEVER {
            call.ended
        } else {
            call.begun
        };
        last = end.max(last);
    }
    last
}

/// Returns the losses of keys in `gone` that last at most `MOST_MOMENTS`, in the given order.
fn losses_of(alloc: Global, gone: &[Place]) -> Result<Vec<Place>, AllocError> {
    let mut losses = Vec::new(alloc);
    for place in gone {
        let is_short = place.clash.until.saturating_sub(place.clash.begun()) <= MOST_MOMENTS;
        if place.symptom == Symptom::Lost && is_short {
            losses.push(*place)?;
        }
    }
    Ok(losses)
}

/// Returns whether the first contradiction of a key begins at or before the moment in `refused`: the first moment such
/// that the key's calls up to this moment are not linearizable. `places` are the contradictions of the key, ordered by
/// time. Returns false if there are none.
fn has_first(places: &[Place], refused: Refused) -> bool {
    match places.first() {
        Some(place) => place.clash.begun() <= refused.moment,
        None => false,
    }
}

/// Adds the contradictions and counts of a key with calls that are not linearizable to `found`. `key` has the calls on
/// the key, and `neighbours` the completed changes of all keys.
fn add_key(
    alloc: Global,
    found: &mut Found,
    key: &KeyCalls,
    refused: Refused,
    neighbours: &Neighbours,
) -> Result<(), AllocError> {
    let places = places_of(alloc, key)?;
    for place in &places {
        found.tally.add(place);
        found.tally.add_change(key, place, neighbours);
        found.places.push(*place)?;
    }
    found.tally.add_followed(key);
    found.tally.add_doubled(key, &places);
    let bound = bound_of(alloc, key, &places, neighbours)?;
    found.bound.add(bound, places.len());
    if !has_first(&places, refused) {
        found.tally.unplaced = found.tally.unplaced.saturating_add(1);
    }
    found.split = larger_split(found.split, longest_split(alloc, key)?);
    Ok(())
}

/// Adds the counts that depend on the contradictions of all keys. All keys must have been added by `add_key`.
fn add_all(
    alloc: Global,
    found: &mut Found,
    runs: &Runs<'_>,
    neighbours: &Neighbours,
) -> Result<(), AllocError> {
    let calls = &runs.recorded.calls;
    let gone = gone_of(alloc, &found.places)?;
    let last = last_moment(calls);
    found.tally.add_together(&gone, neighbours, last);
    let replies = replies_of(alloc, &found.places)?;
    found.tally.add_replies(&replies, last);
    let returns = of_symptom(alloc, &gone, Symptom::CameBack)?;
    let lost = of_symptom(alloc, &gone, Symptom::Lost)?;
    found.tally.add_swapped_adds(&lost, &returns);
    let losses = losses_of(alloc, &gone)?;
    found
        .tally
        .add_times(alloc, &found.places, calls, neighbours, &losses)?;
    if found.tally.lost >= LEAST_LOST && found.tally.came_back == 0 {
        let full = Fullness::of(alloc, runs)?;
        found.tally.add_fullness(calls, &losses, &full);
    }
    Ok(())
}

/// Returns the contradictions of all keys, with their counts. `refused` are the keys with calls that are not
/// linearizable.
fn places_of_all(
    alloc: Global,
    runs: &Runs<'_>,
    refused: &[Refused],
    neighbours: &Neighbours,
) -> Result<Found, AllocError> {
    let mut found = Found {
        places: Vec::new(alloc),
        wrong: None,
        odd: None,
        tally: Tally::default(),
        split: None,
        bound: BoundKeys::new(),
    };
    found.tally.keys = u64::try_from(refused.len()).unwrap_or(u64::MAX);
    for one in refused {
        if !found.tally.has_all_keys() {
            break;
        }
        let key = runs.calls_of(one.key)?;
        add_key(alloc, &mut found, &key, *one, neighbours)?;
    }
    add_all(alloc, &mut found, runs, neighbours)?;
    Ok(found)
}

/// Returns the split (a period without a change of a key, in which calls disagree about the key) with the larger number
/// of calls, or `one` if both have the same number.
fn larger_split(one: Option<Split>, two: Option<Split>) -> Option<Split> {
    let (Some(first), Some(second)) = (one, two) else {
        return one.or(two);
    };
    if first.size() >= second.size() {
        one
    } else {
        two
    }
}

/// Searches a recording for contradictions. If one operation alone is wrong, returns only contradictions between its
/// wrong answers and the other calls. Otherwise returns the contradictions of all keys, but leaves out keys after
/// 20,000 contradictions (`MOST_PLACES`). `refused` are the keys with calls that are not linearizable, in increasing
/// order; `neighbours` has the completed changes of all keys. Fails only if an allocation fails. Allocates.
pub fn find_all(
    alloc: Global,
    runs: &Runs<'_>,
    refused: &[Refused],
    neighbours: &Neighbours,
) -> Result<Found, AllocError> {
    let Some(odd) = find_odd(alloc, runs, refused)? else {
        return places_of_all(alloc, runs, refused, neighbours);
    };
    let mut places = Vec::new(alloc);
    let wrong = odd.answers.wrong.first().copied();
    let odd = places_of_odd(alloc, runs, &odd, &mut places, neighbours)?;
    Ok(Found {
        places,
        wrong,
        odd: Some(odd),
        tally: Tally::default(),
        split: None,
        bound: BoundKeys::new(),
    })
}

/// Returns the facts from which the likely cause is chosen. `keys` are all keys of the recording, and `refused` are
/// those with calls that are not linearizable, both in increasing order. `found` is the result of `find_all`;
/// `neighbours` has the completed changes of all keys. Fails only if an allocation fails. Allocates.
pub fn evidence_of(
    alloc: Global,
    runs: &Runs<'_>,
    keys: &[u32],
    refused: &[Refused],
    found: &Found,
    neighbours: &Neighbours,
) -> Result<Evidence, AllocError> {
    Ok(Evidence {
        merged: merged_keys(alloc, runs, refused)?,
        odd: found.odd,
        tally: found.tally,
        patterns: patterns_of(alloc, runs, &found.places)?,
        meets: match found.odd {
            Some(_) => Meets::default(),
            None => meets_of(runs, &found.places, neighbours)?,
        },
        split: found.split,
        bound: found.bound.pair(found.tally.keys),
        keys: u64::try_from(keys.len()).unwrap_or(u64::MAX),
        calls: u64::try_from(runs.recorded.calls.len()).unwrap_or(u64::MAX),
        is_part: runs.recorded.is_part,
        is_first_spared: is_first_spared(runs, keys, refused),
        span: span_of(keys),
    })
}

/// Returns the largest key minus the smallest key; 0 if there are no keys. `keys` must be in increasing order.
fn span_of(keys: &[u32]) -> u32 {
    match (keys.first(), keys.last()) {
        (Some(first), Some(last)) => last.saturating_sub(*first),
        _ => 0,
    }
}

/// Returns whether the calls on the smallest key are linearizable, and the calls on at least two other keys are not.
/// Returns false if the smallest key has less than half as many calls as the first key in `refused`: few calls can be
/// linearizable by chance.
fn is_first_spared(runs: &Runs<'_>, keys: &[u32], refused: &[Refused]) -> bool {
    let (Some(first), Some(hit)) = (keys.first(), refused.first()) else {
        return false;
    };
    let calls = runs.made_of(*first).len().saturating_mul(2);
    refused.len() >= 2 && hit.key != *first && calls >= runs.made_of(hit.key).len()
}
