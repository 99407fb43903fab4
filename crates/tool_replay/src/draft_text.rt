ghost use Rattle.std.specs.Prelude.{◌≡◌, ◌∷◌, [], MatchOption};
ghost use Rattle.lset_text.specs.Parts.{cut_at};
ghost use Rattle.tool_replay.specs.Drafts.{drafts, IsPlain, Stops};

use crate::draft::{Draft, DraftLine, MOST_ROW};
use lset_schedule::{EventLine, Line, Version, read_text};
use lset_text::{Cause, LineFault, cut, number};
use std::alloc::Global;

const TITLE: &str = "listset-draft 2";

fn out(word: &[u8], thread: &[u8], place: &[u8]) -> Option<Result<DraftLine, Cause>>
    ensures { MatchOption result (IsPlain (word.now ∷ thread.now ∷ place.now ∷ []))
        (Stops (word.now ∷ thread.now ∷ place.now ∷ [])) }
{
    if word != b"go".as_slice() {
        return None;
    }
    if place != b"out".as_slice() {
        return None;
    }
    match number(thread, 0, u32::MAX) {
        Some(thread) => Some(Ok(DraftLine::Out(thread))),
        None => Some(Err(Cause::Number)),
    }
}

fn to(word: &[u8], thread: &[u8], place: &[u8], row: &[u8]) -> Option<Result<DraftLine, Cause>>
    ensures { MatchOption result (IsPlain (word.now ∷ thread.now ∷ place.now ∷ row.now ∷ []))
        (Stops (word.now ∷ thread.now ∷ place.now ∷ row.now ∷ [])) }
{
    if word != b"go".as_slice() {
        return None;
    }
    if place != b"to".as_slice() {
        return None;
    }
    match (number(thread, 0, u32::MAX), number(row, 1, MOST_ROW)) {
        (Some(thread), Some(row)) => Some(Ok(DraftLine::To(thread, row))),
        _ => Some(Err(Cause::Number)),
    }
}

/// Parses a line `go T out` or `go T to ROW`. Returns `None` for any other line, and the error `Number` if T or ROW is
/// not a number in range.
fn stop(line: &[u8]) -> Option<Result<DraftLine, Cause>>
    ensures { MatchOption result (IsPlain (cut_at 32 line.now)) (Stops (cut_at 32 line.now)) }
{
    let (first, rest) = cut(line, b' ')?;
    let (second, rest) = cut(rest, b' ')?;
    let Some((third, fourth)) = cut(rest, b' ') else {
        return out(first, second, rest);
    };
    if let Some((_, _more)) = cut(fourth, b' ') {
        return None;
    }
    to(first, second, third, fourth)
}

impl EventLine for DraftLine {
    ghost lines = { drafts };

    fn read(version: Version, line: &[u8]) -> Result<DraftLine, Cause> {
        match stop(line) {
            Some(stop) => stop,
            None => Ok(DraftLine::Plain(Line::read(version, line)?)),
        }
    }

    fn count(self) -> u32 {
        match self {
            DraftLine::Plain(line) => line.event_count(),
            DraftLine::Out(_) | DraftLine::To(_, _) => 1,
        }
    }
}

/// Reads a draft (a schedule that can state where a thread stops). Allocates.
///
/// # Errors
///
/// Returns the first wrong line, and the first check that the line fails. The checks, and their order, are those of
/// `read_schedule` for version 2. The cause is `Number` if a thread is not a number or a row of the step table is not a
/// number from 1 to 255. A line without a count is counted as one event.
pub fn read_draft(alloc: Global, bytes: &[u8]) -> Result<Draft, LineFault> {
    read_text(alloc, Version::Two, TITLE.as_bytes(), bytes)
}
