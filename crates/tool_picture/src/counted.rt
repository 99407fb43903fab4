//! Explains a key whose calls are not linearizable although no two of them contradict each other. The reason is then a
//! contradiction by counting: the replies of several calls require more changes of the key than the other calls can
//! have made.

use crate::diagnosis::Diagnosis;
use lset_judge::{Count, StreamCall, find_count};
use lset_words::{Key, Presence};
use std::alloc::{AllocError, Global};
use tool_calls::{KeyCalls, Made, NEVER, Recorded, stretches_of};
use tool_facts::stream_call;

/// The search for a contradiction by counting (more changes required than made) covers at most this many calls, since
/// the search takes quadratic time.
const MOST_COUNTED: usize = 4_000;

/// The calls on a key that are searched for a contradiction by counting (more changes required than made).
#[derive(Drop)]
struct Counted {
    calls: Vec<StreamCall>,
    /// The state of the key (present or absent) before these calls.
    before: Presence,
    /// `true` if these are all calls on the key since the set opened.
    is_from_opening: bool,
}

/// Returns the calls on `key` that had begun by `moment`, as they were known at that moment: a call that ended later is
/// pending or, if the call changed nothing, left out.
fn calls_by(
    alloc: Global,
    recorded: &Recorded,
    key: u32,
    moment: u64,
) -> Result<Vec<Made>, AllocError> {
    let mut calls = Vec::new(alloc);
    for call in &recorded.calls {
        if call.begun > moment {
            break;
        }
        if call.key == key {
            if let Some(cut) = call.cut_at(moment) {
                calls.push(cut)?;
            }
        }
    }
    Ok(calls)
}

/// Returns the calls on a key for the search. If the key has more than `MOST_COUNTED` calls, returns only its last
/// calls, from a moment on at which the state of the key is known. `None` if the last `MOST_COUNTED` calls show no such
/// moment.
fn calls_to_count(alloc: Global, key: &KeyCalls) -> Result<Option<Counted>, AllocError> {
    let skipped = key.calls.len().saturating_sub(MOST_COUNTED);
    let (from, before) = match key.calls.get(skipped) {
        Some(call) if skipped > 0 => {
            let stretches = stretches_of(alloc, key)?;
            let last = stretches.partition_point(|stretch| stretch.ended < call.begun);
            match stretches
                .get(last..)
                .unwrap_or(&[])
                .iter()
                .find(|stretch| stretch.leaves.is_some())
            {
                Some(stretch) => (stretch.ended, stretch.leaves.unwrap_or(key.opening)),
                None => return Ok(None),
            }
        }
        _ => (0, key.opening),
    };
    let mut calls = Vec::new(alloc);
    for call in key.after(from) {
        calls.push(stream_call(*call))?;
    }
    Ok(Some(Counted {
        calls,
        before,
        is_from_opening: skipped == 0,
    }))
}

/// Returns the calls in `backs`, which can have changed the key, with the ends and replies that they have in the whole
/// recording. A call that is pending in `backs` can have ended later: if it returned false, it changed nothing and is
/// left out.
fn backs_in(
    alloc: Global,
    recorded: &Recorded,
    backs: &[StreamCall],
) -> Result<Vec<StreamCall>, AllocError> {
    let mut found = Vec::new(alloc);
    for back in backs {
        let at = recorded
            .calls
            .partition_point(|call| call.begun < back.begun);
        if let Some(call) = recorded.calls.get(at) {
            if call.changes() {
                found.push(stream_call(*call))?;
            }
        }
    }
    Ok(found)
}

/// Returns a contradiction by counting (several replies require more changes of a key than the other calls can have
/// made) for the key `diagnosis.first_key`. Searches the key's calls up to the moment `diagnosis.first_moment`, or
/// about the last `MOST_COUNTED` of them. `None` if none is found. Allocates.
pub fn count_in(
    alloc: Global,
    recorded: &Recorded,
    diagnosis: &Diagnosis,
) -> Result<Option<Count>, AllocError> {
    let (key, moment) = (diagnosis.first_key, diagnosis.first_moment);
    let calls = calls_by(alloc, recorded, key, moment)?;
    let left = if moment == NEVER {
        recorded.leaves(key)
    } else {
        None
    };
    let calls = KeyCalls::new(alloc, key, calls, recorded.opens(key), left)?;
    let Some(counted) = calls_to_count(alloc, &calls)? else {
        return Ok(None);
    };
    let Some(count) = find_count(alloc, &counted.calls, Key(key), counted.before, left)? else {
        return Ok(None);
    };
    if count.since.is_none() && !counted.is_from_opening {
        return Ok(None);
    }
    let backs = backs_in(alloc, recorded, &count.backs)?;
    Ok(Some(Count { backs, ..count }))
}
