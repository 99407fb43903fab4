//! Explains wrong header lines, misspelled calls, wrong numbers, and keys that do not increase.

use crate::kinds::{Place, TextKind};
use crate::lined::{field, field_or_empty, put_quoted};
use lset_text::long_number;
use std::alloc::AllocError;

/// The largest moment (start or end of a call) in a recording.
const MOST_MOMENT: u64 = 9_223_372_036_854_775_807;

/// The largest moment (start or end of a call) in a report.
const MOST_MOMENT_OF_REPORT: u64 = 4_294_967_295;

/// The maximum number of steps in one line of a schedule.
const MOST_STEPS: u64 = 10_000;

/// The largest row of a list's step table that a line `go THREAD to ROW` of a draft (a schedule that can state where a
/// thread stops) can name.
const MOST_ROW: u64 = 255;

/// A field that must be a number: its name in messages, its index in the line (counted from 0), and its range.
#[derive(Clone, Copy)]
struct NumberField {
    name: &'static str,
    index: usize,
    low: u64,
    high: u64,
}

/// Returns the description of a field that must be a number from 0 to 4,294,967,295: a thread, a key or a call number.
fn plain(name: &'static str, index: usize) -> NumberField {
    in_range(name, index, 0, 4_294_967_295)
}

fn in_range(name: &'static str, index: usize, low: u64, high: u64) -> NumberField {
    NumberField {
        name,
        index,
        low,
        high,
    }
}

/// Explains which field of a line is not a number in its range. If several are wrong, explains the first.
pub fn put_number(out: &mut String, place: Place<'_>) -> Result<(), AllocError> {
    let is_stop = matches!(field_or_empty(place.line, 2), b"out" | b"to");
    let thread = plain("THREAD", 1);
    match (place.kind, field_or_empty(place.line, 0)) {
        (TextKind::Report, b"call") => {
            let begin = in_range("BEGIN", 5, 1, MOST_MOMENT_OF_REPORT);
            let end = in_range("END", 6, 1, MOST_MOMENT_OF_REPORT);
            let (id, thread, key) = (plain("ID", 1), plain("THREAD", 2), plain("KEY", 4));
            put_first_wrong(out, place, &[id, thread, key, begin, end])
        }
        (TextKind::Recording, b"call") => {
            let begin = in_range("BEGIN", 4, 1, MOST_MOMENT);
            let end = in_range("END", 5, 1, MOST_MOMENT);
            put_first_wrong(out, place, &[thread, plain("KEY", 3), begin, end])
        }
        (_, b"begin") => put_first_wrong(out, place, &[thread, plain("KEY", 3)]),
        (_, b"go") if is_stop => {
            put_first_wrong(out, place, &[thread, in_range("ROW", 3, 1, MOST_ROW)])
        }
        (_, b"go") => put_first_wrong(out, place, &[thread, in_range("STEPS", 2, 1, MOST_STEPS)]),
        (_, b"place") => put_first_wrong(out, place, &[plain("ID", 1)]),
        _ => put_first_wrong(out, place, &[plain("KEY", 1)]),
    }
}

/// Explains the first of `fields` that is present and is not a number in its range; `-` and `open`, which mark the end
/// of a pending call, are skipped. If no field is wrong, appends a general sentence.
fn put_first_wrong(
    out: &mut String,
    place: Place<'_>,
    fields: &[NumberField],
) -> Result<(), AllocError> {
    for wanted in fields {
        let NumberField {
            name,
            index,
            low,
            high,
        } = *wanted;
        let Some(word) = field(place.line, index) else {
            continue;
        };
        let is_pending = word == b"-".as_slice() || word == b"open".as_slice();
        if !is_pending && long_number(word, low, high).is_none() {
            out.push_str(name)?;
            out.push_str(" ")?;
            put_quoted(out, word)?;
            let advice = if place.kind == TextKind::Recording {
                advice_on(name)
            } else {
                ""
            };
            return writeln!(
                out,
                " must be a number from {low} to {high}, without sign, point or leading zero.{advice}"
            );
        }
    }
    out.push_str("A number of the line is out of its range, or has a sign or a leading zero.\n")
}

/// Returns advice on how a program that records calls should choose the number in the field `name`. The advice begins
/// with a space.
fn advice_on(name: &str) -> &'static str {
    match name {
        "BEGIN" | "END" => " Take all moments from one counter that starts at 1.",
        "THREAD" => " Number the threads, from 0.",
        _ => " Write a number of its own for each key.",
    }
}

/// Explains that field `index` (from 0) of a line is not `add`, `remove` or `contains`; `calls` lists the possible
/// calls for the message. If the field is one of these three words, writes nothing and returns `false`.
pub fn put_no_call(
    out: &mut String,
    place: Place<'_>,
    index: usize,
    calls: &str,
) -> Result<bool, AllocError> {
    let word = field_or_empty(place.line, index);
    if matches!(word, b"add" | b"remove" | b"contains") {
        return Ok(false);
    }
    put_quoted(out, word)?;
    let advice = if place.kind == TextKind::Recording {
        " Leave out lines of other calls."
    } else {
        ""
    };
    writeln!(
        out,
        " is no call. The calls are {calls}, in lower case.{advice}"
    )?;
    Ok(true)
}

/// States what line `number` (1 to 4) of a header must be.
pub fn put_header(out: &mut String, number: usize) -> Result<(), AllocError> {
    let text = match number {
        1 => {
            "Line 1 must be a title: listset-schedule 1 (or 2), listset-draft 2, listset-report 1 (or 2), listset-calls 1.\n"
        }
        2 => {
            "Line 2 must be 'list KIND'. KIND is coarse, fine, optimistic, lazy or lock-free, in lower case.\n"
        }
        3 => "Line 3 must be 'threads N'. N is a number from 1 to 64.\n",
        _ => "Line 4 must be 'quota Q'. Q is a number from 0 to 16384.\n",
    };
    out.push_str(text)
}

/// Explains that the key in a line `opening K` or `key K` is not greater than the key in `above`, the line before.
pub fn put_opening(out: &mut String, place: Place<'_>, above: &[u8]) -> Result<(), AllocError> {
    let file = place.file;
    put_quoted(out, place.line)?;
    out.push_str(" comes after ")?;
    put_quoted(out, above)?;
    out.push_str(". Keys must increase. To sort them: ")?;
    match place.kind {
        TextKind::Keys => writeln!(out, "grep '^key' {file} | sort -u -n -k 2,2 > {file}.new"),
        TextKind::Recording => writeln!(
            out,
            "(grep '^listset' {file}; grep '^opening' {file} | sort -u -n -k 2,2; grep '^call' {file}; grep '^key' {file} | sort -u -n -k 2,2; grep -E '^(end|cut)' {file}) > {file}.new"
        ),
        _ => writeln!(
            out,
            "(head -n 4 {file}; grep '^opening' {file} | sort -u -n -k 2,2; tail -n +5 {file} | grep -v '^opening') > {file}.new"
        ),
    }
}
