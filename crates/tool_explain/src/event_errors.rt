//! Explains errors in the events of a schedule, or of a draft (a schedule that can state where a thread stops).

use crate::drafts::{put_lock, put_waiting, steps_out};
use lset_text::Cause;
use std::alloc::{AllocError, Global};
use text_errors::{
    Lines, Place, TextKind, count_fields, field, field_or_empty, number_at, put_no_call,
    put_number, put_quoted,
};

const CALLS: &str = "add, remove, contains and, in version 2, ceiling";

/// Explains the error in the line of an event.
pub(crate) fn put_event(
    alloc: Global,
    out: &mut String,
    lines: &Lines<'_>,
    place: Place<'_>,
    cause: Cause,
) -> Result<(), AllocError> {
    match cause {
        Cause::Event => put_form(out, lines, place),
        Cause::Number => put_event_number(out, place),
        Cause::NoThread => put_no_thread(out, lines, place),
        Cause::Busy | Cause::Idle => put_call(alloc, out, lines, place, cause),
        Cause::Waits => put_lock(alloc, out, lines, place),
        _ => put_too_many(out, place),
    }
}

/// Explains that a schedule has too many events or too many opening keys.
fn put_too_many(out: &mut String, place: Place<'_>) -> Result<(), AllocError> {
    let (file, last) = (place.file, place.number.saturating_sub(1));
    writeln!(
        out,
        "Up to this line there are more than 1000000 events, or more than 1048576 opening keys. To keep the lines above: head -n {last} {file} > {file}.new"
    )
}

/// Explains that a line does not have the form of an event.
fn put_form(out: &mut String, lines: &Lines<'_>, place: Place<'_>) -> Result<(), AllocError> {
    let line = place.line;
    let is_first = lines.line(1) == b"listset-schedule 1".as_slice();
    match (field_or_empty(line, 0), count_fields(line)) {
        (b"begin", 4) if field_or_empty(line, 2) == b"ceiling".as_slice() => out.push_str(
            "The call ceiling needs version 2: make line 1 'listset-schedule 2'.\n",
        ),
        (b"begin", 4) => {
            if !put_no_call(out, place, 2, CALLS)? {
                out.push_str("Expected 'begin THREAD CALL KEY'.\n")?;
            }
            Ok(())
        }
        (b"begin", _) => out.push_str(
            "A begin has four fields: begin THREAD CALL KEY, as in 'begin 0 add 5'.\n",
        ),
        (b"go", _) if place.kind == TextKind::Draft => out.push_str(
            "A go is 'go THREAD STEPS', 'go THREAD out' or 'go THREAD to ROW', as in 'go 0 7'.\n",
        ),
        (b"go", _) => out.push_str("A go has three fields: go THREAD STEPS, as in 'go 0 7'.\n"),
        (b"opening", 2) if is_first => {
            out.push_str("Opening keys need version 2: make line 1 'listset-schedule 2'.\n")
        }
        (b"opening", 2) => out.push_str(
            "Opening keys come before the first event: move the line up, below line 4.\n",
        ),
        (b"key", 2) => out.push_str(
            "A key that the set has at the start is 'opening K', above the first event, and line 1 is 'listset-schedule 2'.\n",
        ),
        _ => {
            put_quoted(out, field_or_empty(line, 0))?;
            out.push_str(
                " begins no event. An event is 'begin THREAD CALL KEY' or 'go THREAD STEPS'.\n",
            )
        }
    }
}

/// Explains that an event contains a wrong number, that a line `go THREAD to` names no row, or that a schedule contains
/// a line that only a draft (a schedule that can state where a thread stops) can have.
fn put_event_number(out: &mut String, place: Place<'_>) -> Result<(), AllocError> {
    let (line, file) = (place.line, place.file);
    let is_stop = matches!(field_or_empty(line, 2), b"out" | b"to");
    let is_to = field_or_empty(line, 2) == b"to".as_slice();
    match field_or_empty(line, 0) {
        b"go" if is_to && place.kind == TextKind::Draft && count_fields(line) == 3 => out.push_str(
            "The row is missing after 'to': write 'go THREAD to ROW', as in 'go 0 to 4'.\n",
        ),
        b"go" if is_stop && place.kind == TextKind::Schedule => writeln!(
            out,
            "This is a line of a draft. Make line 1 'listset-draft 2', then: listset draft {file} | listset replay"
        ),
        _ => put_number(out, place),
    }
}

/// Explains that an event names a thread that the schedule does not have.
fn put_no_thread(out: &mut String, lines: &Lines<'_>, place: Place<'_>) -> Result<(), AllocError> {
    let count = number_at(lines.line(3), 1).unwrap_or(1);
    let last = count.saturating_sub(1);
    out.push_str("There is no thread ")?;
    out.push_str(thread_text(place.line))?;
    writeln!(
        out,
        ": line 3 has 'threads {count}', and threads are numbered from 0 to {last}. Raise the number in line 3, or name another thread."
    )
}

/// Returns the number of the last line before `place` that begins a call of the thread that the line at `place` names.
/// Returns `None` if the thread has begun no call.
fn begun_before(lines: &Lines<'_>, place: Place<'_>) -> Option<usize> {
    let thread = number_at(place.line, 1)?;
    lines.last_before(place.number, |line| {
        field(line, 0) == Some(b"begin".as_slice()) && number_at(line, 1) == Some(thread)
    })
}

/// Returns the thread of an event as it is written in the event's line, or `?` if it is not UTF-8.
pub(crate) fn thread_text(line: &[u8]) -> &str {
    match str::from_utf8(field_or_empty(line, 1)) {
        Ok(text) => text,
        Err(_) => "?",
    }
}

/// Explains why a thread cannot begin a call (`Busy`: the thread already has a pending call), or cannot take a step
/// (`Idle`: the thread has no pending call).
fn put_call(
    alloc: Global,
    out: &mut String,
    lines: &Lines<'_>,
    place: Place<'_>,
    cause: Cause,
) -> Result<(), AllocError> {
    let thread = thread_text(place.line);
    match (begun_before(lines, place), cause) {
        (Some(since), Cause::Busy) => {
            write!(
                out,
                "Thread {thread} has had a pending call since line {since}. "
            )?;
            put_ending(alloc, out, lines, place)
        }
        (Some(since), _) => put_idle(alloc, out, lines, place, since),
        (None, Cause::Busy) => writeln!(out, "Thread {thread} has a pending call."),
        (None, _) => writeln!(
            out,
            "Thread {thread} has begun no call, so there is no step to make. Add a line such as 'begin {thread} add 5' above this one."
        ),
    }
}

/// Prints how to end the thread's pending call before the wrong line, so that the thread can begin another call.
fn put_ending(
    alloc: Global,
    out: &mut String,
    lines: &Lines<'_>,
    place: Place<'_>,
) -> Result<(), AllocError> {
    let thread = thread_text(place.line);
    match steps_out(alloc, lines, place)? {
        Some(_) if place.kind == TextKind::Draft => writeln!(
            out,
            "To end that call first, add the line 'go {thread} out' above this one; or begin this call in another thread."
        ),
        Some(steps) => writeln!(
            out,
            "To end that call first, add the line 'go {thread} {steps}' above this one; or begin this call in another thread."
        ),
        None if put_waiting(alloc, out, lines, place)? => Ok(()),
        None => writeln!(
            out,
            "Let that call end first, by a line 'go {thread} STEPS' above this one; or begin this call in another thread."
        ),
    }
}

/// Explains why a thread cannot take all steps of the wrong line: the call that the thread began in line `since` has
/// already ended, or it ends before the last of these steps.
fn put_idle(
    alloc: Global,
    out: &mut String,
    lines: &Lines<'_>,
    place: Place<'_>,
    since: usize,
) -> Result<(), AllocError> {
    let thread = thread_text(place.line);
    match steps_out(alloc, lines, place)? {
        Some(steps) => writeln!(
            out,
            "Thread {thread}'s call of line {since} ends after {steps} steps of this line. Write 'go {thread} {steps}'."
        ),
        None => writeln!(
            out,
            "Thread {thread} has no pending call: its call of line {since} has ended. Remove this line, or begin a call above it."
        ),
    }
}
