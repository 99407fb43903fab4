//! Finds errors in opening keys for `serve` (the keys that the served set has at the start).

use crate::lined::{Lines, count_fields, field_or_empty, number_at};
use lset_text::Cause;

/// The maximum number of keys with which a set can open.
const MOST_KEYS: usize = 1_048_576;

/// Returns `true` if a line has exactly two fields and the first is `word`.
fn is_pair(line: &[u8], word: &[u8]) -> bool {
    field_or_empty(line, 0) == word && count_fields(line) == 2
}

/// Returns the number of the first line that should be a key. The input can be the output of another server, which has
/// three lines before its keys: `listening A`, `sessions N` and `calls N`, each optional here.
fn first_key_line(lines: &Lines<'_>) -> usize {
    let mut number = 1usize;
    for word in [b"listening".as_slice(), b"sessions", b"calls"] {
        if is_pair(lines.line(number), word) {
            number = number.saturating_add(1);
        }
    }
    number
}

/// Returns the number of the first line that `serve` refuses, and the cause of the error, as `serve` would report them.
/// Returns `None` if all lines are right.
pub fn wrong_key(lines: &Lines<'_>) -> Option<(usize, Cause)> {
    let mut before: Option<u32> = None;
    let last = lines.count();
    let first = first_key_line(lines);
    for number in first..last.saturating_add(1) {
        let line = lines.line(number);
        if number == last && !lines.is_ended {
            return Some((number, Cause::NotEnded));
        }
        if !is_pair(line, b"key") {
            return Some((number, Cause::Line));
        }
        let Some(key) = number_at(line, 1) else {
            return Some((number, Cause::Number));
        };
        if number.saturating_sub(first) >= MOST_KEYS {
            return Some((number, Cause::TooMany));
        }
        if before.is_some_and(|before| before >= key) {
            return Some((number, Cause::Opening));
        }
        before = Some(key);
    }
    if first > last && !lines.is_ended {
        return Some((last, Cause::NotEnded));
    }
    None
}
