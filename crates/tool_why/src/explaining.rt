//! Writes the message of a diagnosis: a headline, a picture of the calls, facts, and a likely cause. Also reads a recording
//! and diagnoses it.

use crate::diagnosing::diagnose;
use crate::sentences::{put_first, put_headline, put_known};
use lset_judge::Count;
use std::alloc::{AllocError, Global};
use std::io::Read;
use tool_calls::Recorded;
use tool_facts::RunReader;
use tool_guess::{because_text, cause_text};
use tool_picture::{Diagnosis, count_in, put_picture};

/// The maximum number of lines of the verdict and the explanation, without blank lines. The line that a test adds is
/// not counted.
const MOST_LINES: usize = 15;

/// Writes the likely cause, if the diagnosis has one, and the fact that supports the cause.
fn put_guess(alloc: Global, out: &mut String, diagnosis: &Diagnosis) -> Result<(), AllocError> {
    if let Some(cause) = diagnosis.cause {
        let text = cause_text(cause);
        writeln!(out, "likely: {text}")?;
        let because = because_text(
            alloc,
            &diagnosis.evidence,
            &diagnosis.further,
            diagnosis.guilty,
            cause,
        )?;
        writeln!(out, "  because {because}")?;
    }
    Ok(())
}

/// Returns the number of lines that are not blank.
fn lines_of(text: &str) -> usize {
    text.lines().filter(|line| !line.is_empty()).count()
}

/// Writes the lines of facts in `known`, but leaves out `extra` lines. Keeps the first line, and the second if enough other
/// lines can be left out.
fn put_some(out: &mut String, known: &str, extra: usize) -> Result<(), AllocError> {
    let from = lines_of(known).saturating_sub(extra).max(1).min(2);
    let end = from.saturating_add(extra);
    for (i, line) in known.lines().enumerate() {
        if i < from || i >= end {
            out.push_str(line)?;
            out.push_str("\n")?;
        }
    }
    Ok(())
}

/// Returns the maximum number of lines for the picture. `room` lines are free, and `known` lines of facts follow the
/// picture. If the picture has changes of other keys, it can use lines of facts for one of them or, if there is a likely
/// cause, for up to three. It leaves the first line of facts or, if an operation alone is wrong, the first two.
fn room_of_picture(diagnosis: &Diagnosis, room: usize, known: usize) -> usize {
    let beside = diagnosis.beside.len();
    let beside = if diagnosis.cause.is_some() {
        beside.min(3)
    } else {
        1
    };
    let wanted = diagnosis.shown.len().saturating_add(1);
    let kept = if diagnosis.evidence.odd.is_some() {
        2
    } else {
        1
    };
    let most = room.saturating_add(known.saturating_sub(kept));
    if diagnosis.beside.is_empty() || wanted >= most {
        room
    } else {
        room.max(wanted.saturating_add(beside).min(most))
    }
}

/// Returns the message of a diagnosis, without the verdict. The message and the `used` lines above it have at most 15
/// lines that are not blank, unless the calls on the key alone need more lines. To fit, some known facts are left out.
/// Allocates.
pub fn diagnosis_text(
    alloc: Global,
    diagnosis: &Diagnosis,
    used: usize,
) -> Result<String, AllocError> {
    let mut known = String::new(alloc);
    put_known(&mut known, diagnosis)?;
    let mut guess = String::new(alloc);
    put_guess(alloc, &mut guess, diagnosis)?;
    let facts = lines_of(&known).saturating_add(lines_of(&guess));
    let headline = if diagnosis.is_example() { 2 } else { 1 };
    let taken = facts.saturating_add(used).saturating_add(headline);
    let mut picture = String::new(alloc);
    if !diagnosis.shown.is_empty() {
        let room = MOST_LINES.saturating_sub(taken);
        let room = room_of_picture(diagnosis, room, lines_of(&known));
        picture.push_str("\n")?;
        put_picture(alloc, &mut picture, diagnosis, room)?;
    }
    let lines = taken.saturating_add(lines_of(&picture));
    let mut out = String::from_str(alloc, "\n")?;
    put_headline(&mut out, diagnosis)?;
    put_first(&mut out, diagnosis)?;
    out.push_str(picture.as_str())?;
    if facts > 0 {
        out.push_str("\n")?;
    }
    put_some(&mut out, known.as_str(), lines.saturating_sub(MOST_LINES))?;
    out.push_str(guess.as_str())?;
    Ok(out)
}

/// The number of lines in a message for a contradiction by counting: replies that need more changes than there are.
const COUNT_LINES: usize = 3;

/// A verdict with at most this many lines names no two contradicting calls.
const LEAST_USED: usize = 2;

/// The explanation of a refused recording.
#[derive(Drop)]
pub struct Explained {
    /// The contradiction by counting of the refused key, if the verdict names no two contradicting calls and such a
    /// contradiction was found.
    pub count: Option<Count>,
    /// The message of the diagnosis.
    pub text: String,
}

/// If the first calls of a longer recording already have no order, only this many of them are explained.
const MOST_EXPLAINED: usize = 1_000_000;

/// Converts a diagnosis to an explanation. `used` is the number of lines above the explanation. A call that is pending in
/// the diagnosis can have ended in `recorded`.
fn described(
    alloc: Global,
    recorded: &Recorded,
    diagnosis: &Diagnosis,
    used: usize,
) -> Result<Explained, AllocError> {
    let count = if used <= LEAST_USED {
        count_in(alloc, recorded, diagnosis)?
    } else {
        None
    };
    let lines = if count.is_some() { COUNT_LINES } else { 0 };
    let text = diagnosis_text(alloc, diagnosis, used.saturating_add(lines))?;
    Ok(Explained { count, text })
}

/// Explains why the first `MOST_EXPLAINED` calls of a recording are not linearizable. Returns `None` if they are, or if
/// the recording has at most `MOST_EXPLAINED` calls.
fn explain_first(
    alloc: Global,
    reader: &RunReader,
    used: usize,
) -> Result<Option<Explained>, AllocError> {
    let Some(part) = reader.first_calls(MOST_EXPLAINED)? else {
        return Ok(None);
    };
    let Some(mut diagnosis) = diagnose(alloc, &part)? else {
        return Ok(None);
    };
    diagnosis.complete(&reader.recorded().calls);
    Ok(Some(described(alloc, reader.recorded(), &diagnosis, used)?))
}

/// Reads a recording, and explains why no order explains it. `used` is the number of lines of the verdict above the
/// explanation: two if the verdict names no two contradicting calls. If the first `MOST_EXPLAINED` calls already have
/// no order, only these calls are explained, and the other lines are not read. Returns `None` if a read fails, if a
/// line has the wrong form, or if some order explains the recording. Does not check otherwise that the text is a
/// recording: judge it first. Allocates. Blocks while reading.
pub fn explain<R: Read>(
    alloc: Global,
    input: &mut R,
    used: usize,
) -> Result<Option<Explained>, AllocError> {
    let mut reader = RunReader::new(alloc);
    match reader.read_calls(input, MOST_EXPLAINED)? {
        None => return Ok(None),
        Some(true) => {}
        Some(false) => {
            let first = explain_first(alloc, &reader, used)?;
            if first.is_some() || reader.read_calls(input, usize::MAX)?.is_none() {
                return Ok(first);
            }
        }
    }
    let Some(recorded) = reader.finish() else {
        return Ok(None);
    };
    match diagnose(alloc, &recorded)? {
        None => Ok(None),
        Some(diagnosis) => Ok(Some(described(alloc, &recorded, &diagnosis, used)?)),
    }
}
