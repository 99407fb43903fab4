//! Writes a recording of one key, taken from a larger recording: all calls on the key or, if these are not
//! linearizable, a few of them that are not linearizable either.

use lset_words::Presence;
use std::alloc::{AllocError, Global};
use tool_calls::{Made, NEVER, Recorded, failing_moment, has_order, put_call};

/// A part (consecutive calls on a key) with at most this many calls is short enough to read. Short parts are tried
/// first.
const ENOUGH: usize = 16;

/// The maximum number of calls that are tried as the first call of a part: each attempt judges all earlier calls on the
/// key again. Applies separately to the last `ENOUGH` calls and to the earlier calls.
const MOST_TRIED: usize = 64;

/// A part of a key's calls: consecutive calls, in the order of their begins.
#[derive(Clone, Copy)]
struct Part<'a> {
    calls: &'a [Made],
    /// The key's state (present or absent) before the first of these calls.
    opening: Presence,
    /// The key's state after the last of these calls; `None` if unknown.
    left: Option<Presence>,
}

/// Returns the indices of the calls that begin while no other call on the key is pending. Only such a call can be the
/// first call of a part. `calls` are the calls on one key, ordered by begin.
fn quiet_starts(alloc: Global, calls: &[Made]) -> Result<Vec<usize>, AllocError> {
    let mut starts = Vec::new(alloc);
    let mut latest = 0;
    for (index, call) in calls.iter().enumerate() {
        if latest < call.begun {
            starts.push(index)?;
        }
        latest = call.ended.max(latest);
    }
    Ok(starts)
}

/// Returns the key's state after some calls on the key, if the state is certain: all linearizations of the calls agree.
/// Returns `None` if the key can be present or absent, or if the calls are not linearizable. `opening` is the key's
/// state before the calls.
fn only_state(
    alloc: Global,
    calls: &[Made],
    opening: Presence,
) -> Result<Option<Presence>, AllocError> {
    let present = has_order(alloc, calls, opening, Some(Presence::Present))?;
    let absent = has_order(alloc, calls, opening, Some(Presence::Absent))?;
    Ok(match (present, absent) {
        (true, false) => Some(Presence::Present),
        (false, true) => Some(Presence::Absent),
        _ => None,
    })
}

/// Returns the calls of `whole` from index `first` on as a part. Returns `None` if the key's state before call `first`
/// is not certain.
fn part_from<'a>(
    alloc: Global,
    whole: Part<'a>,
    first: usize,
) -> Result<Option<Part<'a>>, AllocError> {
    if first == 0 {
        return Ok(Some(whole));
    }
    let before = whole.calls.get(..first).unwrap_or(&[]);
    let calls = whole.calls.get(first..).unwrap_or(&[]);
    let state = only_state(alloc, before, whole.opening)?;
    Ok(state.map(|opening| Part {
        calls,
        opening,
        ..whole
    }))
}

/// Returns the last calls of `whole`, from a call before which the key's state is certain. `whole` must not be
/// linearizable; the returned part then is not linearizable either. The calls among the last `ENOUGH` are tried first,
/// then earlier calls, the latest first. Returns `whole` if no call fits.
fn small_part<'a>(alloc: Global, whole: Part<'a>) -> Result<Part<'a>, AllocError> {
    let starts = quiet_starts(alloc, whole.calls)?;
    let few = whole.calls.len().saturating_sub(ENOUGH);
    let middle = starts.partition_point(|first| *first < few);
    for first in starts.get(middle..).unwrap_or(&[]).iter().take(MOST_TRIED) {
        if let Some(part) = part_from(alloc, whole, *first)? {
            return Ok(part);
        }
    }
    for first in starts
        .get(..middle)
        .unwrap_or(&[])
        .iter()
        .rev()
        .take(MOST_TRIED)
    {
        if let Some(part) = part_from(alloc, whole, *first)? {
            return Ok(part);
        }
    }
    Ok(whole)
}

/// Returns a part of a key's calls as the text of a recording. The last line is `cut` if the final state of the key is
/// unknown, otherwise `end`.
fn text_of(alloc: Global, key: u32, part: Part<'_>) -> Result<String, AllocError> {
    let mut out = String::from_str(alloc, "listset-calls 1\n")?;
    if part.opening == Presence::Present {
        writeln!(out, "opening {key}")?;
    }
    for call in part.calls {
        out.push_str("call ")?;
        put_call(&mut out, *call)?;
        out.push_str("\n")?;
    }
    if part.left == Some(Presence::Present) {
        writeln!(out, "key {key}")?;
    }
    out.push_str(if part.left.is_some() {
        "end\n"
    } else {
        "cut\n"
    })?;
    Ok(out)
}

/// Returns the text of a recording that has only calls on `key`, taken from `recorded`. If the calls on the key are not
/// linearizable, the text has only some of them, which are not linearizable either. Returns `None` if the key has no
/// calls, and its final state is its opening state or unknown. Fails only if an allocation fails. Allocates.
pub fn recording_of_key(
    alloc: Global,
    recorded: &Recorded,
    key: u32,
) -> Result<Option<String>, AllocError> {
    let mut calls = Vec::new(alloc);
    for call in &recorded.calls {
        if call.key == key {
            calls.push(*call)?;
        }
    }
    let (opening, left) = (recorded.opens(key), recorded.leaves(key));
    if calls.is_empty() && left.unwrap_or(opening) == opening {
        return Ok(None);
    }
    let whole = Part {
        calls: &calls,
        opening,
        left,
    };
    let part = match failing_moment(alloc, whole.calls, whole.opening, whole.left)? {
        None => whole,
        Some(NEVER) => small_part(alloc, whole)?,
        Some(moment) => {
            let behind = calls.partition_point(|call| call.begun <= moment);
            let calls = calls.get(..behind).unwrap_or(&[]);
            small_part(
                alloc,
                Part {
                    calls,
                    left: None,
                    ..whole
                },
            )?
        }
    };
    Ok(Some(text_of(alloc, key, part)?))
}
