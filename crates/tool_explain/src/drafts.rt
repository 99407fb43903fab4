//! Determines how far a thread can run after the lines before an error. To do so, expands these lines as a draft: a
//! schedule in which a line can state where a thread stops instead of a number of steps.

use crate::event_errors::thread_text;
use std::alloc::{AllocError, Global};
use text_errors::{Lines, Place, TextKind, field_or_empty, number_at};
use tool_base::{Tool, answer_text};
use tool_replay::{Expand, Trace};

/// Returns a draft (a schedule that can state where a thread stops). The draft consists of a title, the lines from line
/// 2 to the line before the error (`place`), and `ending`.
fn draft_up_to(
    alloc: Global,
    lines: &Lines<'_>,
    place: Place<'_>,
    ending: &str,
) -> Result<Vec<u8>, AllocError> {
    let mut text = Vec::from_slice(alloc, b"listset-draft 2\n")?;
    for number in 2..place.number {
        text.extend_from_slice(lines.line(number))?;
        text.extend_from_slice(b"\n")?;
    }
    text.extend_from_slice(ending.as_bytes())?;
    Ok(text)
}

/// Runs a command on a text and returns the command's output. Returns `None` if the command fails.
fn answer_on<T: Tool>(alloc: Global, tool: &T, text: &[u8]) -> Option<Vec<u8>> {
    match answer_text(alloc, tool, text) {
        Ok(answer) => Some(answer.text),
        Err(_) => None,
    }
}

/// Expands the lines before the error, followed by `ending`, to a schedule. Returns `None` if a line cannot be
/// expanded, for example because its thread waits for a lock or has no pending call.
fn schedule_up_to(
    alloc: Global,
    lines: &Lines<'_>,
    place: Place<'_>,
    ending: &str,
) -> Result<Option<Vec<u8>>, AllocError> {
    let draft = draft_up_to(alloc, lines, place, ending)?;
    Ok(answer_on(alloc, &Expand {}, &draft))
}

/// Runs the lines before the error, and returns how many further steps end the pending call of the thread that the
/// wrong line names. Returns `None` if the thread has no pending call, or if the call does not end within 10,000 steps
/// of the thread alone.
pub(crate) fn steps_out(
    alloc: Global,
    lines: &Lines<'_>,
    place: Place<'_>,
) -> Result<Option<u32>, AllocError> {
    let thread = thread_text(place.line);
    let ending = format!(in alloc; "go {thread} out\n")?;
    let Some(schedule) = schedule_up_to(alloc, lines, place, &ending)? else {
        return Ok(None);
    };
    let made = Lines::of(alloc, &schedule)?;
    Ok(number_at(made.line(made.count()), 2))
}

/// Returns the trace of the lines before the error, followed by up to 10,000 steps of the thread that the wrong line
/// names; the trace ends early if the thread's call ends. Returns `None` if the lines cannot be expanded.
fn trace_up_to(
    alloc: Global,
    lines: &Lines<'_>,
    place: Place<'_>,
) -> Result<Option<Vec<u8>>, AllocError> {
    let thread = thread_text(place.line);
    let Some(mut schedule) = schedule_up_to(alloc, lines, place, "")? else {
        return Ok(None);
    };
    let line = format!(in alloc; "go {thread} 10000\n")?;
    schedule.extend_from_slice(line.as_bytes())?;
    let trace = Trace {
        chains: false,
        lacks: None,
    };
    Ok(answer_on(alloc, &trace, &schedule))
}

/// If a trace ends with an attempt to take a lock that another thread holds, returns the lock and the number of the
/// thread that holds the lock. Otherwise returns `None`.
fn held_lock<'a>(trace: &Lines<'a>) -> Option<(&'a str, &'a str)> {
    let step = trace.line(trace.count().saturating_sub(1));
    let lock = str::from_utf8(field_or_empty(step, 7)).unwrap_or("a lock");
    let seen = str::from_utf8(field_or_empty(step, 13)).unwrap_or("");
    match seen.strip_prefix('t') {
        Some(holder) if field_or_empty(step, 6) == b"exchange".as_slice() => Some((lock, holder)),
        _ => None,
    }
}

/// Explains why a thread does not reach the stop that a line of a draft names, in `go THREAD to ROW` or `go THREAD
/// out`: the thread waits for a lock, the thread's call ends first, or the call needs more than 10,000 steps.
pub(crate) fn put_lock(
    alloc: Global,
    out: &mut String,
    lines: &Lines<'_>,
    place: Place<'_>,
) -> Result<(), AllocError> {
    let thread = thread_text(place.line);
    let row = str::from_utf8(field_or_empty(place.line, 3)).unwrap_or("?");
    let Some(trace) = trace_up_to(alloc, lines, place)? else {
        return writeln!(
            out,
            "Thread {thread} does not get there within 10000 steps. Another thread can hold a lock that it waits for."
        );
    };
    match held_lock(&Lines::of(alloc, &trace)?) {
        Some((lock, holder)) => writeln!(
            out,
            "Thread {thread} waits for {lock}, which thread {holder} holds. Let thread {holder} release it first, by a line such as 'go {holder} out' above this one."
        ),
        None => writeln!(
            out,
            "Thread {thread}'s call ends, or continues for 10000 steps, and does not come to row {row}. Take a row of the list's table (docs/TABLES.md), or let the call end: 'go {thread} out'."
        ),
    }
}

/// If the pending call of the thread that the wrong line names waits for a lock, explains how the lock's holder can
/// release the lock. Otherwise writes nothing and returns `false`.
pub(crate) fn put_waiting(
    alloc: Global,
    out: &mut String,
    lines: &Lines<'_>,
    place: Place<'_>,
) -> Result<bool, AllocError> {
    let Some(trace) = trace_up_to(alloc, lines, place)? else {
        return Ok(false);
    };
    let trace = Lines::of(alloc, &trace)?;
    let Some((lock, holder)) = held_lock(&trace) else {
        return Ok(false);
    };
    write!(
        out,
        "That call waits for {lock}, which thread {holder} holds. "
    )?;
    put_release(alloc, out, lines, place, holder)?;
    Ok(true)
}

/// Explains how the thread `holder` can release a lock, so that the pending call that waits for the lock can end.
fn put_release(
    alloc: Global,
    out: &mut String,
    lines: &Lines<'_>,
    place: Place<'_>,
    holder: &str,
) -> Result<(), AllocError> {
    let thread = thread_text(place.line);
    let ending = format!(in alloc; "go {holder} out\ngo {thread} out\n")?;
    let Some(schedule) = schedule_up_to(alloc, lines, place, &ending)? else {
        return writeln!(
            out,
            "Let thread {holder} release it first, by a line 'go {holder} STEPS' above this one (thread {holder} can wait for a lock too); or begin this call in another thread."
        );
    };
    let made = Lines::of(alloc, &schedule)?;
    let last = made.count();
    let of_holder = number_at(made.line(last.saturating_sub(1)), 2).unwrap_or(0);
    let of_thread = number_at(made.line(last), 2).unwrap_or(0);
    if place.kind == TextKind::Draft {
        return writeln!(
            out,
            "To end both calls first, add the lines 'go {holder} out' and 'go {thread} out' above this one; or begin this call in another thread."
        );
    }
    writeln!(
        out,
        "To end both calls first, add the lines 'go {holder} {of_holder}' and 'go {thread} {of_thread}' above this one; or begin this call in another thread."
    )
}
