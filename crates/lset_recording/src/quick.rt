//! A fast path for the lines of completed calls (most lines of a long recording). Each function reads in one pass, and
//! returns `None` if the line, valid or not, is not the line of a completed call. The caller then reads the line
//! without the fast path.

ghost use Rattle.std.specs.Prelude.{◌≡◌, ◌≤◌, ◌++◌, ◌∷◌, IfSome, List, ℕ, Ok, true, codes};
ghost use Rattle.std.specs.Fmt.{decimal};
ghost use Rattle.lset_text.specs.declared.words.Version.TheVariants.{One};
ghost use Rattle.lset_text.specs.Numbers.{max_number};
ghost use Rattle.lset_text.specs.Spellings.{call_word_text, reply_text, HasWord};
ghost use Rattle.lset_judge.specs.Verdict.{is_truth};
ghost use Rattle.lset_recording.specs.declared.recording_lines.Section.{Section};
ghost use Rattle.lset_recording.specs.declared.recording_lines.Line.TheVariants.{Call};
ghost use Rattle.lset_recording.specs.Reading.{line_told, takes_calls};

use lset_judge::{LAST_MOMENT, StreamCall};
use lset_text::{CallWord, Cause};
use lset_words::{Key, Reply};

/// The maximum number of digits of a number that `digits_before` reads. Each number of 19 digits is below 2^64.
const MOST_DIGITS: usize = 19;

/// Returns the number at the start of `text`, and the bytes after the next space. Returns `None` if `text` does not
/// start with a number of at most 19 digits and a space.
#[inline(always)]
fn digits_before(text: &[u8]) -> Option<(u64, &[u8])>
    ensures { IfSome result (λ p. text.now ≡ decimal p.0 ++ 32 ∷ p.1.now) }
{
    let most = text.len().min(MOST_DIGITS);
    let mut value: u64 = 0;
    let mut i = 0;
    while i < most && text[i].is_ascii_digit() {
        value = value * 10 + u64::from(text[i] - b'0');
        i += 1;
    }
    if i == text.len() || text[i] != b' ' {
        return None;
    }
    // The digits before the space are not a valid number if there are no digits, or if a number other than 0 begins
    // with 0. (The code of a space is less than the code of the digit 0.)
    if text[0] <= b'0' && i != 1 {
        return None;
    }
    Some((value, &text[i + 1..]))
}

/// Returns the thread or key at the start of `text`, and the bytes after the next space. Returns `None` if `text` does
/// not start with a number below 2^32 and a space.
#[inline(always)]
fn number_before(text: &[u8]) -> Option<(u32, &[u8])>
    ensures { IfSome result (λ p. (text.now ≡ decimal p.0 ++ 32 ∷ p.1.now) × (p.0 ≤ max_number)) }
{
    let (value, rest) = digits_before(text)?;
    if value > u64::from(u32::MAX) {
        return None;
    }
    Some((value as u32, rest))
}

/// Returns the moment (the number that dates a start or an end of a call) at the start of `text`, and the bytes after
/// the next space. Returns `None` if `text` does not start with a moment and a space.
#[inline(always)]
fn moment_before(text: &[u8]) -> Option<(u64, &[u8])>
    ensures { IfSome result (λ p. (text.now ≡ decimal p.0 ++ 32 ∷ p.1.now) × (1 ≤ p.0) × (p.0 ≤ LAST_MOMENT)) }
{
    let (value, rest) = digits_before(text)?;
    if value == 0 || value > LAST_MOMENT {
        return None;
    }
    Some((value, rest))
}

/// Returns the name of a call at the start of `text`, and the bytes after the next space. Returns `None` if `text` does
/// not start with the name of a call and a space.
#[inline(always)]
fn word_before(text: &[u8]) -> Option<(CallWord, &[u8])>
    ensures { IfSome result (λ p. (text.now ≡ call_word_text p.0 ++ 32 ∷ p.1.now) × HasWord One p.0) }
{
    match text {
        [b'a', b'd', b'd', b' ', rest @ ..] => Some((CallWord::Add, rest)),
        [b'r', b'e', b'm', b'o', b'v', b'e', b' ', rest @ ..] => Some((CallWord::Remove, rest)),
        [
            b'c',
            b'o',
            b'n',
            b't',
            b'a',
            b'i',
            b'n',
            b's',
            b' ',
            rest @ ..,
        ] => { Some((CallWord::Contains, rest)) }
        _ => None,
    }
}

/// Returns the reply `true` or `false` at the start of `text`, and the bytes after the reply. Returns `None` if `text`
/// starts with neither.
fn reply_before(text: &[u8]) -> Option<(Reply, &[u8])>
    ensures { IfSome result (λ p. (text.now ≡ reply_text p.0 ++ p.1.now) × (is_truth p.0 ≡ true)) }
{
    match text {
        [b't', b'r', b'u', b'e', rest @ ..] => Some((Reply::True, rest)),
        [b'f', b'a', b'l', b's', b'e', rest @ ..] => Some((Reply::False, rest)),
        _ => None,
    }
}

/// Returns the bytes after `call ` if `line` starts with `call `, and `None` otherwise.
fn behind_call(line: &[u8]) -> Option<&[u8]>
    ensures { IfSome result (λ rest. line.now ≡ codes "call " ++ rest.now) }
{
    match line {
        [b'c', b'a', b'l', b'l', b' ', rest @ ..] => Some(rest),
        _ => None,
    }
}

/// Reads a completed call from the start of `text`. Returns the call and the bytes after its reply. Returns `None` if
/// `text` does not start with a completed call; `text` can still be valid, and must then be read without the fast path.
/// The reader must be in a section of the recording that allows calls.
#[inline(always)]
pub(crate) fn quick_call(text: &[u8]) -> Option<(StreamCall, &[u8])>
    ensures { IfSome result (λ p. (line : List ℕ) × (text.now ≡ line ++ p.1.now)
        × ((section : Section) → takes_calls section ≡ true → line_told section line ≡ Ok (Call p.0))) }
{
    let rest = behind_call(text)?;
    let (thread, rest) = number_before(rest)?;
    let (word, rest) = word_before(rest)?;
    let (key, rest) = number_before(rest)?;
    let (begun, rest) = moment_before(rest)?;
    let (end, rest) = moment_before(rest)?;
    let (reply, rest) = reply_before(rest)?;
    let call = StreamCall {
        thread,
        call: word.with_key(Key(key)),
        begun,
        ended: Some((end, reply)),
    };
    Some((call, rest))
}

/// Reads the line of a completed call from the start of `text`. Returns the call and the bytes after the newline.
/// Returns `None` if `text` does not start with the line of a completed call; `text` can still be valid, and must then
/// be read without the fast path. The reader must be in a section of the recording that allows calls.
pub(crate) fn quick_line(text: &[u8]) -> Option<(StreamCall, &[u8])>
    ensures { IfSome result (λ p. (line : List ℕ) × (text.now ≡ line ++ 10 ∷ p.1.now)
        × ((section : Section) → takes_calls section ≡ true → line_told section line ≡ Ok (Call p.0))) }
{
    let (call, rest) = quick_call(text)?;
    match rest {
        [b'\n', more @ ..] => Some((call, more)),
        _ => None,
    }
}
