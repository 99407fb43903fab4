use crate::event_errors::put_event;
use lset_text::{Cause, cut};
use std::alloc::{AllocError, Global};
use text_errors::{
    Lines, Place, TextKind, put_encoding, put_header, put_no_title, put_not_ended, put_opening,
    put_spoiled, put_visible, put_wrong_line, quoted_name, wrong_key,
};
use tool_base::{Answer, LONGEST, Trouble, answer_text};
use tool_judge::judge_bytes;
use tool_replay::{Check, Expand, Replay};

/// Explains a text. Prints the kind of the text and the first line with an error. The last printed line explains the
/// error and how to correct it or, if the text has no error, names the commands that read the text. `file` is the
/// file's name, which is printed as it must be typed in a shell. The exit status is 0. Returns `Trouble::Memory` if an
/// allocation fails.
pub fn explain_text(alloc: Global, file: &str, text: &[u8]) -> Result<Answer, Trouble> {
    let mut out = String::new(alloc);
    let name = quoted_name(alloc, file)?;
    let file = name.as_str();
    if text.len() > LONGEST {
        put_too_long(&mut out, file, text)?;
    } else if !put_encoding(&mut out, file, text)? {
        put_text(alloc, &mut out, file, text)?;
    }
    let text = out.into_bytes();
    Ok(Answer { text, status: 0 })
}

/// Explains that a text is longer than `LONGEST` bytes, which most commands do not read. Recordings can be longer,
/// because `judge` and `stats` read them piece by piece.
fn put_too_long(out: &mut String, file: &str, text: &[u8]) -> Result<(), AllocError> {
    let first = match cut(text, b'\n') {
        Some((first, _)) => first,
        None => b"",
    };
    let kind = TextKind::of(first);
    if kind == TextKind::Recording {
        return writeln!(
            out,
            "{file} has recorded calls, more than {LONGEST} bytes of them.\nThis is more than explain reads. To find the first line with an error: listset judge {file}; what its cause means: listset faults"
        );
    }
    write!(
        out,
        "{file} has more than {LONGEST} bytes.\nOnly recorded calls can have more. "
    )?;
    put_shortening(out, file, kind)
}

/// Explains how to shorten a text of the kind `kind`. If no command reads a text of this kind, says that, or how to see
/// the beginning of the text.
fn put_shortening(out: &mut String, file: &str, kind: TextKind) -> Result<(), AllocError> {
    match kind {
        TextKind::Schedule | TextKind::Draft => writeln!(
            out,
            "A schedule has at most 1000000 events. To keep the lines up to this number: awk '{{ n += $1 == \"go\" ? $3 : $1 == \"begin\"; if (n > 1000000) exit; print }}' {file} > {file}.new"
        ),
        TextKind::Report => writeln!(
            out,
            "A part of a report is no report. For a report of fewer calls, shorten its schedule, then: listset replay SCHEDULE > {file}.new"
        ),
        TextKind::Keys => writeln!(
            out,
            "A set opens with at most 1048576 keys. To keep the first ones: grep -m 1048576 '^key' {file} > {file}.new"
        ),
        TextKind::Trace => out.push_str("No command reads a trace.\n"),
        _ => writeln!(
            out,
            "Line 1 is none of listset-schedule 1 (or 2), listset-draft 2, listset-report 1 (or 2), listset-calls 1. To see how the text begins: head -c 1000 {file}"
        ),
    }
}

/// Explains a text of at most `LONGEST` bytes.
fn put_text(alloc: Global, out: &mut String, file: &str, text: &[u8]) -> Result<(), Trouble> {
    let lines = Lines::of(alloc, text)?;
    let kind = TextKind::of(lines.line(1));
    let said = match kind {
        TextKind::Schedule => answer_text(alloc, &Replay {}, text),
        TextKind::Draft => answer_text(alloc, &Expand {}, text),
        TextKind::Report => answer_text(alloc, &Check {}, text),
        TextKind::Recording => judge_bytes(alloc, text),
        TextKind::Keys => said_of_keys(alloc, &lines),
        TextKind::Trace | TextKind::Course => no_answer(alloc),
        TextKind::Unknown => Err(Trouble::Line(1, Cause::Header)),
    };
    match said {
        Ok(answer) => put_right(out, &lines, file, kind, &answer)?,
        Err(Trouble::Line(number, cause)) => {
            let number = usize::try_from(number).unwrap_or(usize::MAX);
            let place = Place {
                file,
                kind,
                number,
                line: lines.line(number),
            };
            put_place(out, place, cause)?;
            put_sentence(alloc, out, &lines, place, cause)?;
        }
        Err(trouble) => return Err(trouble),
    }
    Ok(())
}

fn no_answer(alloc: Global) -> Result<Answer, Trouble> {
    let text = Vec::new(alloc);
    Ok(Answer { text, status: 0 })
}

/// Checks the opening keys for `serve` (the keys that the served set has at the start). Returns the first error in the
/// keys, or an empty answer if the keys have no error.
fn said_of_keys(alloc: Global, lines: &Lines<'_>) -> Result<Answer, Trouble> {
    match wrong_key(lines) {
        Some((number, cause)) => Err(Trouble::Line(number as u64, cause)),
        None => no_answer(alloc),
    }
}

/// Prints that no line of a text has an error, and which commands can read the text. Between the two, prints line 1 of
/// `answer`, such as `not linearizable`, if the status of `answer` is not 0.
fn put_right(
    out: &mut String,
    lines: &Lines<'_>,
    file: &str,
    kind: TextKind,
    answer: &Answer,
) -> Result<(), AllocError> {
    let what = kind.predicate();
    writeln!(out, "{file} {what}, and no line has an error.")?;
    if answer.status != 0 {
        let first = match cut(&answer.text, b'\n') {
            Some((first, _)) => first,
            None => b"",
        };
        put_visible(out, first)?;
        out.push_str("\n")?;
    }
    if answer.status != 0 && kind == TextKind::Recording {
        put_refused_recording(out, lines, file)
    } else {
        put_use(out, file, kind, answer.status != 0)
    }
}

/// Prints advice on a recording that is not linearizable.
fn put_refused_recording(
    out: &mut String,
    lines: &Lines<'_>,
    file: &str,
) -> Result<(), AllocError> {
    if lines.line(lines.count()) == b"cut".as_slice() {
        return writeln!(
            out,
            "No order explains the calls. What is wrong: listset judge {file}"
        );
    }
    writeln!(
        out,
        "No order explains the calls and leaves the keys of the 'key K' lines. What is wrong: listset judge {file}; if the final keys are not known, write 'cut' instead of the 'key' lines and 'end'"
    )
}

/// Prints what can be done with a text in which no line has an error. `is_refused` is true if the text is a report and
/// `check` refuses its order.
fn put_use(
    out: &mut String,
    file: &str,
    kind: TextKind,
    is_refused: bool,
) -> Result<(), AllocError> {
    match kind {
        TextKind::Schedule => writeln!(
            out,
            "For its report: listset replay {file}; for its picture: listset show {file}"
        ),
        TextKind::Draft => writeln!(out, "For its schedule: listset draft {file}"),
        TextKind::Report if is_refused => writeln!(
            out,
            "The order of the report is refused. Which call shows it: listset show {file}; what the fault means: listset faults refused"
        ),
        TextKind::Report => writeln!(
            out,
            "Its order is right. For its picture: listset show {file}"
        ),
        TextKind::Recording => writeln!(
            out,
            "Some order explains these calls. How many they are: listset judge {file}"
        ),
        TextKind::Trace => out.push_str(
            "No command reads a trace. To make one of a schedule: listset trace\n",
        ),
        TextKind::Course => {
            out.push_str("Paste it into page/index.html, under Solve. No command reads it.\n")
        }
        TextKind::Keys | TextKind::Unknown => writeln!(
            out,
            "A server opens with these keys: listset serve KIND SEATS QUOTA PORT SESSIONS {file}"
        ),
    }
}

/// Prints the first line with an error: its number, the cause, and the text of the line.
fn put_place(out: &mut String, place: Place<'_>, cause: Cause) -> Result<(), AllocError> {
    let Place {
        file,
        kind,
        number,
        ..
    } = place;
    let (what, cause) = (kind.predicate(), cause.name());
    writeln!(
        out,
        "{file} {what}, and line {number} has an error, {cause}:"
    )?;
    out.push_str("    ")?;
    put_visible(out, place.line)?;
    out.push_str("\n")
}

/// Prints one line that explains the error and how to correct it.
fn put_sentence(
    alloc: Global,
    out: &mut String,
    lines: &Lines<'_>,
    place: Place<'_>,
    cause: Cause,
) -> Result<(), AllocError> {
    let is_line = place.number <= lines.count();
    if cause == Cause::NotEnded {
        return put_not_ended(out, lines, place, is_line);
    }
    if cause == Cause::Header {
        return put_no_title(out, lines, place);
    }
    if !is_line {
        return put_header(out, place.number);
    }
    if put_spoiled(out, place)? {
        return Ok(());
    }
    match (cause, place.kind) {
        (Cause::Kind | Cause::Threads | Cause::Quota, _) => put_header(out, place.number),
        (Cause::Opening, _) => {
            put_opening(out, place, lines.line(place.number.saturating_sub(1)))
        }
        (_, TextKind::Report | TextKind::Recording | TextKind::Keys) => {
            put_wrong_line(out, lines, place, cause)
        }
        _ => put_event(alloc, out, lines, place, cause),
    }
}
