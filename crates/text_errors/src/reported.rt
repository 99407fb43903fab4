//! Explains errors in reports (the output of `replay`), and conflicts between the calls of a report or a recording (a
//! file of recorded calls for `judge`). The moments of a call are its start and its end.

use crate::kinds::{Place, TextKind};
use crate::lined::{Lines, field, moment_at, number_at};
use std::alloc::AllocError;

/// The indices (from 0) of three fields in a call's line: the call's thread, start and end.
#[derive(Clone, Copy)]
pub(crate) struct CallFields {
    pub(crate) thread: usize,
    pub(crate) begin: usize,
    pub(crate) end: usize,
}

const OF_REPORT: CallFields = CallFields {
    thread: 2,
    begin: 5,
    end: 6,
};

/// Explains what is wrong with a call in a report: its number, its thread, or its moments (its start and its end).
pub(crate) fn put_report_history(
    out: &mut String,
    lines: &Lines<'_>,
    place: Place<'_>,
) -> Result<(), AllocError> {
    let above = lines.last_before(place.number, is_call);
    let due = match above {
        Some(number) => number_at(lines.line(number), 1)
            .unwrap_or(0)
            .saturating_add(1),
        None => 0,
    };
    if number_at(place.line, 1) != Some(due) {
        return writeln!(
            out,
            "The number of this call must be {due}: calls are numbered from 0, in order."
        );
    }
    let threads = number_at(lines.line(3), 1).unwrap_or(0);
    if number_at(place.line, 2).unwrap_or(0) >= threads {
        return writeln!(
            out,
            "Line 3 has 'threads {threads}', and the number of the call's thread is not below {threads}."
        );
    }
    put_moments(out, lines, place, OF_REPORT)
}

pub(crate) fn is_call(line: &[u8]) -> bool {
    field(line, 0) == Some(b"call".as_slice())
}

/// Explains what is wrong with the moments of a call (its start and its end): the end is not after the start, or they
/// conflict with the moments of an earlier call.
pub(crate) fn put_moments(
    out: &mut String,
    lines: &Lines<'_>,
    place: Place<'_>,
    fields: CallFields,
) -> Result<(), AllocError> {
    let line = place.line;
    let begin = moment_at(line, fields.begin).unwrap_or(0);
    if let Some(end) = moment_at(line, fields.end)
        && end <= begin
    {
        let advice = if place.kind == TextKind::Recording {
            "Take the begin before the call's first step, and the end after its last, from one counter."
        } else {
            "Make the report again, by listset replay."
        };
        return writeln!(
            out,
            "The call ends at moment {end}, which is not after moment {begin}, at which the call begins. {advice}"
        );
    }
    for moment in [Some(begin), moment_at(line, fields.end)] {
        let is_taken = |above: &[u8]| {
            is_call(above)
                && moment.is_some()
                && (moment_at(above, fields.begin) == moment
                    || moment_at(above, fields.end) == moment)
        };
        if let (Some(taken), Some(moment)) = (lines.last_before(place.number, is_taken), moment) {
            return writeln!(
                out,
                "Moment {moment} is in line {taken} too. Each begin and each end needs a moment of its own: take all of them from one counter, each by one atomic addition."
            );
        }
    }
    put_order(out, lines, place, fields, begin)
}

/// Explains how a call conflicts with the calls in earlier lines: calls must be listed in order of start, and a thread
/// has at most one pending call at a time.
fn put_order(
    out: &mut String,
    lines: &Lines<'_>,
    place: Place<'_>,
    fields: CallFields,
    begin: u64,
) -> Result<(), AllocError> {
    if let Some(above) = lines.last_before(place.number, is_call) {
        let before = moment_at(lines.line(above), fields.begin).unwrap_or(0);
        if begin < before {
            writeln!(
                out,
                "The call begins at moment {begin}, before the call of line {above}, which begins at {before}. Calls must be in the order of their begins."
            )?;
            return put_sorting(out, place);
        }
    }
    let thread = field(place.line, fields.thread);
    let pending = lines.last_before(place.number, |above| {
        is_call(above)
            && field(above, fields.thread) == thread
            && moment_at(above, fields.end).is_none_or(|end| end > begin)
    });
    match pending {
        Some(above) => writeln!(
            out,
            "The thread's call of line {above} has not ended at moment {begin}. A thread has one call at a time: use another number for each thread."
        ),
        None => out.push_str("The call conflicts with a call above.\n"),
    }
}

/// Appends to the last line of `out` a shell command that sorts the calls of a recording by their starts. Appends
/// nothing for a report.
fn put_sorting(out: &mut String, place: Place<'_>) -> Result<(), AllocError> {
    if place.kind != TextKind::Recording {
        return Ok(());
    }
    let file = place.file;
    // `out` ends with a newline. The newline is removed, so that the command is on the last line.
    let _newline = out.pop();
    writeln!(
        out,
        " To sort them: (grep -E '^(listset|opening)' {file}; grep '^call' {file} | sort -n -k 5,5; grep -E '^(key|end|cut)' {file}) | listset judge"
    )
}
