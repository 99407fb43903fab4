//! Finds the moments (positions in the history) when a call starts, takes effect or ends.

use crate::MOST_COLUMNS;
use crate::picture::{Picture, Window, points_of};
use std::alloc::{AllocError, Global};

/// Returns whether everything in the picture (each start and end of a call, and each linearization point) is before the
/// moment `from`, a position in the history, counted from 1. A picture that starts at `from` would then be empty.
/// Returns `false` for a picture without calls.
pub fn is_past_the_last(picture: &Picture, from: u32) -> bool {
    let is_empty = picture.history.calls().is_empty() && points_of(picture).is_empty();
    !is_empty && next_moment(picture, u64::from(from)).is_none()
}

/// Returns the earlier of the two moments `best` and `moment`. Ignores `moment` if it is before `from`.
fn sooner(best: Option<u32>, from: u64, moment: u32) -> Option<u32> {
    match best {
        _ if u64::from(moment) < from => best,
        Some(other) if other < moment => best,
        _ => Some(moment),
    }
}

/// Returns the first moment (a position in the history), not before `from`, when a call starts, takes effect or ends.
pub(crate) fn next_moment(picture: &Picture, from: u64) -> Option<u32> {
    let mut best = None;
    for made in picture.history.calls() {
        best = sooner(best, from, made.begun);
        if let Some((end, _)) = made.ended {
            best = sooner(best, from, end);
        }
    }
    for point in points_of(picture) {
        best = sooner(best, from, point.moment);
    }
    best
}

/// Returns the first `MOST_COLUMNS` moments in `window` (positions in the history) when a call starts, takes effect or
/// ends.
pub(crate) fn moments_shown(
    alloc: Global,
    picture: &Picture,
    window: Window,
) -> Result<Vec<u32>, AllocError> {
    let mut moments = Vec::new(alloc);
    let mut from = u64::from(window.from);
    for _shown in 0..MOST_COLUMNS {
        match next_moment(picture, from) {
            Some(moment) if moment <= window.to => {
                moments.push(moment)?;
                from = u64::from(moment) + 1;
            }
            _ => return Ok(moments),
        }
    }
    Ok(moments)
}
