//! Reads and writes the keys of a set as lines `key K`.

use lset_text::{Cause, LineFault, cut, is_above, number};
use lset_words::MOST_OPENING;
use std::alloc::{AllocError, Global};

/// Appends a line `key K` for each key.
pub(crate) fn put_keys(out: &mut String, keys: &[u32]) -> Result<(), AllocError> {
    for key in keys {
        writeln!(out, "key {key}")?;
    }
    Ok(())
}

/// The lines of an input that have not been read yet, and the line number of the first unread line.
#[derive(Clone, Copy)]
struct Remaining<'a> {
    line: u64,
    text: &'a [u8],
}

/// Returns the second field of a line if the line has exactly two fields and the first is `word`.
fn piece_after<'a>(line: &'a [u8], word: &[u8]) -> Option<&'a [u8]> {
    let (first, piece) = cut(line, b' ')?;
    if first != word {
        return None;
    }
    match cut(piece, b' ') {
        Some((_, _more)) => None,
        None => Some(piece),
    }
}

impl<'a> Remaining<'a> {
    /// Skips the first line if it consists of `word` and one more field. Otherwise skips nothing.
    fn without(self, word: &[u8]) -> Remaining<'a> {
        match cut(self.text, b'\n') {
            Some((first, rest)) if piece_after(first, word).is_some() => Remaining {
                line: self.line.saturating_add(1),
                text: rest,
            },
            _ => self,
        }
    }
}

/// Skips the lines `listening A`, `sessions N` and `calls N`, which a server prints before its keys. Each of these
/// lines is optional.
fn after_head(text: &[u8]) -> Remaining<'_> {
    let whole = Remaining { line: 1, text };
    whole
        .without(b"listening")
        .without(b"sessions")
        .without(b"calls")
}

/// Returns the key K of a line `key K`. The error is `Line` if the line has another form, and `Number` if K is not a
/// number from 0 to 4,294,967,295.
fn key_of_line(line: &[u8]) -> Result<u32, Cause> {
    let piece = piece_after(line, b"key").ok_or(Cause::Line)?;
    number(piece, 0, u32::MAX).ok_or(Cause::Number)
}

/// Appends the key of a line `key K` to `keys`. Returns an error if the line is wrong, if `keys` already has
/// `MOST_OPENING` keys, or if the new key is not greater than the last of them.
fn add_key(keys: &mut Vec<u32>, line: &[u8]) -> Result<(), Cause> {
    let key = key_of_line(line)?;
    if keys.len() >= MOST_OPENING as usize {
        return Err(Cause::TooMany);
    }
    if !is_above(keys, key) {
        return Err(Cause::Opening);
    }
    keys.push(key)?;
    Ok(())
}

/// Returns the keys of the remaining lines, which must all be `key K`. The error names the first wrong line.
fn keys_of_lines(alloc: Global, left: Remaining<'_>) -> Result<Vec<u32>, LineFault> {
    let mut keys = Vec::new(alloc);
    let mut line = left.line;
    let mut rest = left.text;
    while !rest.is_empty() {
        let (first, after) = cut(rest, b'\n').ok_or(LineFault::unended(line))?;
        if let Err(cause) = add_key(&mut keys, first) {
            return Err(LineFault::at(line, cause));
        }
        line = line.saturating_add(1);
        rest = after;
    }
    Ok(keys)
}

/// Reads the opening keys of a set (the keys at the start) from lines `key K`, in strictly increasing order. Allocates.
///
/// Skips the lines that a server prints before its keys: first `listening A`, then `sessions N`, then `calls N`, each
/// optional, with any A and N. Therefore the output of one server can be the input of the next.
///
/// # Errors
///
/// Returns the first wrong line, with the first of the following checks that fails:
/// - the line ends with a newline;
/// - `Line`: the line has two fields, and the first is `key`;
/// - `Number`: the key is a decimal from 0 to 4,294,967,295 without leading zeros;
/// - `TooMany`: at most `MOST_OPENING` keys precede the line;
/// - `Opening`: the key is greater than the previous key.
///
/// Returns `Memory` if an allocation fails.
pub fn read_keys(alloc: Global, text: &[u8]) -> Result<Vec<u32>, LineFault> {
    keys_of_lines(alloc, after_head(text))
}
