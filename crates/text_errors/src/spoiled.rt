//! Explains errors that can occur in every kind of text: wrong encoding, line ends, spaces, comments, or a missing
//! title.

use crate::kinds::{Place, TextKind};
use crate::lined::{Lines, count_fields, field_or_empty, put_quoted};
use std::alloc::AllocError;

/// The maximum number of bytes in a line of a recording.
const MOST_OF_LINE: usize = 128;

/// Explains that a text is empty, is encoded in UTF-16, begins with a byte order mark, or is compressed. For any other
/// text, writes nothing and returns `false`.
pub fn put_encoding(out: &mut String, file: &str, text: &[u8]) -> Result<bool, AllocError> {
    match text {
        [] => writeln!(
            out,
            "{file} has no bytes.\nThe file is empty, or the command before a pipe printed nothing: look there for an error."
        )?,
        [0xff, 0xfe, ..] | [0xfe, 0xff, ..] => writeln!(
            out,
            "{file} is in UTF-16.\nThe text is in UTF-16. To turn it into ASCII: iconv -f UTF-16 -t UTF-8 {file} > {file}.new"
        )?,
        [0xef, 0xbb, 0xbf, ..] => writeln!(
            out,
            "{file} begins with the bytes \\xef\\xbb\\xbf.\nA byte order mark is before line 1. To remove it: sed -i '1s/^\\xef\\xbb\\xbf//' {file}"
        )?,
        _ => {
            let Some((format, unpack)) = packing(text) else {
                return Ok(false);
            };
            writeln!(
                out,
                "{file} is packed by {format}.\nThe text is packed. To unpack it: {unpack} {file} > {file}.new"
            )?;
        }
    }
    Ok(true)
}

/// Returns the program that compressed a text, and the command that decompresses the text to standard output. Returns
/// `None` if the first bytes are not those of gzip, bzip2, xz, zstd or zip.
fn packing(text: &[u8]) -> Option<(&'static str, &'static str)> {
    match text {
        [0x1f, 0x8b, ..] => Some(("gzip", "gzip -dc")),
        [b'B', b'Z', b'h', _, 0x31, 0x41, 0x59, ..] => Some(("bzip2", "bzip2 -dc")),
        [0xfd, b'7', b'z', b'X', b'Z', ..] => Some(("xz", "xz -dc")),
        [0x28, 0xb5, 0x2f, 0xfd, ..] => Some(("zstd", "zstd -dc")),
        [b'P', b'K', 0x03, 0x04, ..] => Some(("zip", "unzip -p")),
        _ => None,
    }
}

/// Explains that a line ends with CR LF.
fn put_cr(out: &mut String, file: &str) -> Result<(), AllocError> {
    writeln!(
        out,
        "The line ends with CR LF, and must end with LF. To change all lines: sed -i 's/\\r$//' {file}"
    )
}

/// Returns a line without its leading spaces and tabs.
fn without_indent(line: &[u8]) -> &[u8] {
    for (at, byte) in line.iter().enumerate() {
        if !matches!(*byte, b' ' | b'\t') {
            return line.get(at..).unwrap_or(b"");
        }
    }
    b""
}

/// Returns `true` if line 1 or line 2 begins with `listset-`. Spaces and tabs before `listset-` are skipped in line 1
/// only.
fn has_spoiled_title(lines: &Lines<'_>) -> bool {
    let (first, second) = (without_indent(lines.line(1)), lines.line(2));
    first.starts_with(b"listset-") || second.starts_with(b"listset-")
}

/// Returns `true` if a word starts with `listset-`, with any mix of upper and lower case.
fn starts_with_name(word: &[u8]) -> bool {
    match word.get(..8) {
        Some(start) => start.eq_ignore_ascii_case(b"listset-"),
        None => false,
    }
}

/// Explains that line 1 is not a title. If line 1 looks like another line of a listset format, such as a call or a
/// header line, also suggests how to correct the file.
pub fn put_no_title(
    out: &mut String,
    lines: &Lines<'_>,
    place: Place<'_>,
) -> Result<(), AllocError> {
    if has_spoiled_title(lines) && put_spoiled(out, place)? {
        return Ok(());
    }
    let file = place.file;
    let first = field_or_empty(place.line, 0);
    if starts_with_name(first) {
        put_quoted(out, place.line)?;
        return out.push_str(
            " is no title that this version reads. Line 1 must be one of these, in lower case: listset-schedule 1 (or 2), listset-draft 2, listset-report 1 (or 2), listset-calls 1.\n",
        );
    }
    match (first, count_fields(place.line)) {
        (b"call", 7) | (b"opening", 2) => writeln!(
            out,
            "Recorded calls need the first line 'listset-calls 1'. To add it: sed -i '1i listset-calls 1' {file}"
        ),
        (b"list", 2) => writeln!(
            out,
            "A schedule needs the first line 'listset-schedule 1'. To add it: sed -i '1i listset-schedule 1' {file}"
        ),
        (b"begin", 4) | (b"go", 3) => writeln!(
            out,
            "A schedule begins with four lines before its events: listset-schedule 1, list KIND, threads N, quota Q."
        ),
        (_, 1) if !first.is_empty() && first.iter().all(|byte| byte.is_ascii_digit()) => writeln!(
            out,
            "If these are keys for serve, each line must be 'key K'. To make them so: sed -i 's/^/key /' {file}"
        ),
        _ => writeln!(
            out,
            "Line 1 must be one of: listset-schedule 1 (or 2), listset-draft 2, listset-report 1 (or 2), listset-calls 1."
        ),
    }
}

/// Explains an error that a line of any text can have: a CR, a comment, a wrong separator, capital letters, or no
/// characters at all. If the line has no such error, writes nothing and returns `false`.
pub fn put_spoiled(out: &mut String, place: Place<'_>) -> Result<bool, AllocError> {
    let (file, number) = (place.file, place.number);
    match place.line {
        line if has_inner_cr(line) => writeln!(
            out,
            "The line has a CR before its end. If every line of the file ends with CR alone, to end each with LF: tr '\\r' '\\n' < {file} > {file}.new"
        )?,
        [.., b'\r'] => put_cr(out, file)?,
        [] => writeln!(
            out,
            "The line is empty. A text has no empty lines. To remove all of them: sed -i '/^$/d' {file}"
        )?,
        [b'#', ..] | [b'/', b'/', ..] | [b';', ..] => writeln!(
            out,
            "A text has no comments. To remove the line: sed -i '{number}d' {file}"
        )?,
        [.., b' '] => writeln!(
            out,
            "The line ends with a space. To remove the spaces at the end of all lines: sed -i 's/ *$//' {file}"
        )?,
        [b' ' | b'\t', ..] => writeln!(
            out,
            "The line begins with a space or a tab. To remove these in all lines: sed -i 's/^[ \\t]*//' {file}"
        )?,
        line if line.contains(&b'\t') => writeln!(
            out,
            "The line has a tab. Fields are separated by one space. To change all lines: sed -i 's/\\t/ /g' {file}"
        )?,
        line if has_two_spaces(line) => writeln!(
            out,
            "The line has two spaces in a row. Fields are separated by one. To change all lines: sed -i 's/  */ /g' {file}"
        )?,
        line if line.contains(&b',') && !line.contains(&b' ') => writeln!(
            out,
            "The line has commas. Fields are separated by one space: sed -i 's/,/ /g' {file}"
        )?,
        line if has_capitals(line) => writeln!(
            out,
            "The words of a line are in lower case. To change all lines: sed -i 's/.*/\\L&/' {file}"
        )?,
        _ => return Ok(false),
    }
    Ok(true)
}

/// Returns `true` if a line contains a CR that is followed by a byte other than CR.
fn has_inner_cr(line: &[u8]) -> bool {
    let mut before = b'.';
    for byte in line {
        if before == b'\r' && *byte != b'\r' {
            return true;
        }
        before = *byte;
    }
    false
}

/// Returns `true` if the first field of a line is a listset keyword with at least one capital letter, such as `Call`.
fn has_capitals(line: &[u8]) -> bool {
    let first = field_or_empty(line, 0);
    let words = [
        b"list".as_slice(),
        b"threads",
        b"quota",
        b"opening",
        b"begin",
        b"go",
        b"call",
        b"place",
        b"key",
        b"end",
        b"cut",
    ];
    for word in words {
        if first.eq_ignore_ascii_case(word) && first != word {
            return true;
        }
    }
    false
}

/// Returns `true` if a line contains two consecutive spaces.
fn has_two_spaces(line: &[u8]) -> bool {
    let mut before = b'.';
    for byte in line {
        if before == b' ' && *byte == b' ' {
            return true;
        }
        before = *byte;
    }
    false
}

/// Explains why a text ends too early. If `is_line` is true, the last line has no newline; otherwise the final lines,
/// such as `end`, are missing.
pub fn put_not_ended(
    out: &mut String,
    lines: &Lines<'_>,
    place: Place<'_>,
    is_line: bool,
) -> Result<(), AllocError> {
    let (file, last) = (place.file, place.number.saturating_sub(1));
    if is_line && place.kind == TextKind::Recording && place.line.len() > MOST_OF_LINE {
        return writeln!(
            out,
            "The last line has no newline, and more than the {MOST_OF_LINE} bytes that a line can have. Write each call in a line of its own, which ends with LF."
        );
    }
    if is_line {
        return writeln!(
            out,
            "The last line has no newline. To add one: echo >> {file}; if the line is not whole, to remove it: sed -i '$d' {file}"
        );
    }
    let is_key = field_or_empty(lines.line(last), 0) == b"key".as_slice();
    match place.kind {
        TextKind::Recording if is_key => writeln!(
            out,
            "The text stops after line {last}, a final key. If no final key is missing, add the last line: echo end >> {file}; else leave out the keys: (grep -v '^key' {file}; echo cut) > {file}.new"
        ),
        TextKind::Recording => writeln!(
            out,
            "The text stops after line {last}, without final keys. If they are not known, add the last line: echo cut >> {file}; if the set is empty at the end: echo end >> {file}"
        ),
        _ => writeln!(
            out,
            "The text stops after line {last}: its last line must be 'end'. Make the report again, by listset replay."
        ),
    }
}
