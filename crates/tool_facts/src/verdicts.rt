//! The contradiction that the judge names in its verdict. The judge (crate `lset_judge`) decides whether a recording is
//! linearizable. A contradiction is two calls on a key: the first leaves the key in one state (present or absent), the
//! second needs the other state, and no change of the key can have come between.

use crate::stream_calls::{made_of, stream_call};
use lset_judge::{Judge, StreamFault, Verdict};
use lset_words::increases;
use std::alloc::{AllocError, Global};
use tool_calls::{Clash, Made, NEVER, Recorded};

/// Recordings with more calls than this are not judged again, to limit the time of a diagnosis.
const MOST_JUDGED: usize = 500_000;

/// Converts a contradiction from the judge's type. The result lasts from the begin of its first call (0 if the opening
/// state takes the place of this call) to the later end of its two calls (`NEVER` if the final state takes the place of
/// the second call).
fn converted(clash: lset_judge::Clash) -> Clash {
    let first = clash.first.map(made_of);
    let second = clash.second.map(made_of);
    let ended = second.map_or(NEVER, |second| second.ended);
    Clash {
        first,
        second,
        stretch: None,
        was: clash.was,
        since: first.map_or(0, |first| first.begun),
        until: first.map_or(ended, |first| first.ended.max(ended)),
    }
}

/// Judges a recording. Returns `None` if the judge cannot read the recording: its opening or final keys do not
/// increase, or a call cannot follow the calls before it.
fn judged(alloc: Global, recorded: &Recorded) -> Result<Option<Verdict>, AllocError> {
    if !increases(&recorded.opening) || !increases(&recorded.left) {
        return Ok(None);
    }
    let mut judge = Judge::new(alloc, &recorded.opening)?;
    for call in &recorded.calls {
        match judge.add(stream_call(*call)) {
            Ok(()) => {}
            Err(StreamFault::Memory) => return Err(AllocError),
            Err(_) => return Ok(None),
        }
    }
    let verdict = if recorded.is_cut {
        judge.close_cut_off()?
    } else {
        judge.close(&recorded.left)?
    };
    Ok(Some(verdict))
}

/// Returns the contradiction that the judge names as the reason why `recorded` is not linearizable. Returns `None` if
/// the recording is linearizable, if the judge names no contradiction or cannot read the recording, or if the recording
/// has more than 500,000 calls (`MOST_JUDGED`). Fails only if an allocation fails. Allocates.
pub fn verdict_clash(alloc: Global, recorded: &Recorded) -> Result<Option<Clash>, AllocError> {
    if recorded.calls.len() > MOST_JUDGED {
        return Ok(None);
    }
    match judged(alloc, recorded)? {
        Some(Verdict::NotLinearizable(_, Some(clash))) => Ok(Some(converted(clash))),
        _ => Ok(None),
    }
}
