use lset_text::{cut, long_number, number};
use std::alloc::{AllocError, Global};

/// The maximum number of bytes of a line that are printed.
const MOST_PRINTED: usize = 100;

/// A text split into lines, which are counted from 1.
#[derive(Drop)]
pub struct Lines<'a> {
    lines: Vec<&'a [u8]>,
    /// Whether the last line ends with a newline.
    pub is_ended: bool,
}

impl<'a> Lines<'a> {
    /// Splits a text into its lines.
    pub fn of(alloc: Global, text: &'a [u8]) -> Result<Lines<'a>, AllocError> {
        let mut lines = Vec::new(alloc);
        let mut rest = text;
        for _ in 0..text.len() {
            if rest.is_empty() {
                break;
            }
            let Some((line, after)) = cut(rest, b'\n') else {
                lines.push(rest)?;
                let is_ended = false;
                return Ok(Lines { lines, is_ended });
            };
            lines.push(line)?;
            rest = after;
        }
        let is_ended = true;
        Ok(Lines { lines, is_ended })
    }

    /// Returns the number of lines.
    pub fn count(&self) -> usize {
        self.lines.len()
    }

    /// Returns line `number`, counted from 1, without its newline. Returns an empty slice if the text has fewer lines.
    pub fn line(&self, number: usize) -> &'a [u8] {
        match self.lines.get(number.saturating_sub(1)) {
            Some(line) => *line,
            None => b"",
        }
    }

    /// Returns the number of the last line before line `number` that satisfies `is_meant`, or `None` if no line does.
    pub fn last_before<F: Fn(&[u8]) -> bool + Drop>(
        &self,
        number: usize,
        is_meant: F,
    ) -> Option<usize>
        requires { F.IsAlwaysCallable is_meant }
    {
        let mut found = None;
        for (index, line) in self.lines.iter().enumerate() {
            let at = index.saturating_add(1);
            if at < number && is_meant(line) {
                found = Some(at);
            }
        }
        found
    }
}

/// Returns field `index` (from 0) of a line, or `None` if the line has fewer fields. Fields are separated by single
/// spaces.
pub fn field(line: &[u8], index: usize) -> Option<&[u8]> {
    let mut rest = line;
    for _ in 0..index {
        let (_, after) = cut(rest, b' ')?;
        rest = after;
    }
    match cut(rest, b' ') {
        Some((first, _)) => Some(first),
        None => Some(rest),
    }
}

/// Returns field `index` (from 0) of a line. Returns an empty slice if the line has fewer fields.
pub fn field_or_empty(line: &[u8], index: usize) -> &[u8] {
    field(line, index).unwrap_or(b"")
}

/// Returns the number of fields in a line.
pub fn count_fields(line: &[u8]) -> usize {
    line.iter()
        .filter(|byte| **byte == b' ')
        .count()
        .saturating_add(1)
}

/// Parses field `index` (counted from 0) of a line as a thread, a key or a call number. Returns `None` if the field is
/// not a number from 0 to 4,294,967,295.
pub fn number_at(line: &[u8], index: usize) -> Option<u32> {
    number(field(line, index)?, 0, u32::MAX)
}

/// Parses field `index` (counted from 0) of a line as a moment (start or end of a call). Returns `None` if the field is
/// not a number from 1 to the largest `u64`.
pub fn moment_at(line: &[u8], index: usize) -> Option<u64> {
    long_number(field(line, index)?, 1, u64::MAX)
}

/// Appends the first 100 bytes of a text as printable ASCII: a tab as `\t`, a CR as `\r`, and any other byte that is
/// not printable as `\xHH`. Appends `..` if the text is longer.
pub fn put_visible(out: &mut String, bytes: &[u8]) -> Result<(), AllocError> {
    for byte in bytes.iter().take(MOST_PRINTED) {
        match *byte {
            b'\t' => out.push_str("\\t")?,
            b'\r' => out.push_str("\\r")?,
            b' '..=b'~' => out.push(char::from(*byte))?,
            other => write!(out, "\\x{other:02x}")?,
        }
    }
    if bytes.len() > MOST_PRINTED {
        out.push_str("..")?;
    }
    Ok(())
}

/// Appends a text between single quotes, as `put_visible` prints it.
pub fn put_quoted(out: &mut String, bytes: &[u8]) -> Result<(), AllocError> {
    out.push_str("'")?;
    put_visible(out, bytes)?;
    out.push_str("'")
}

/// Returns `true` if a shell takes `byte` literally in a file name.
fn is_plain(byte: u8) -> bool {
    let is_sign = matches!(
        byte,
        b'_' | b'-' | b'.' | b'/' | b'+' | b':' | b'=' | b'@' | b'%' | b','
    );
    byte.is_ascii_alphanumeric() || !byte.is_ascii() || is_sign
}

/// Returns a file name as it should be typed on a command line. The name is quoted if it is empty or contains a byte
/// that a shell does not take literally, and it gets the prefix `./` if it begins with a hyphen.
pub fn quoted_name(alloc: Global, file: &str) -> Result<String, AllocError> {
    let mut name = String::new(alloc);
    let is_quoted = file.is_empty() || !file.as_bytes().iter().all(|byte| is_plain(*byte));
    if is_quoted {
        name.push_str("'")?;
    }
    if file.starts_with('-') {
        name.push_str("./")?;
    }
    for part in file.chars() {
        match part {
            '\'' => name.push_str("'\\''")?,
            other => name.push(other)?,
        }
    }
    if is_quoted {
        name.push_str("'")?;
    }
    Ok(name)
}
