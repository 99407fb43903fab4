ghost use Rattle.std.specs.Prelude.{◌≡◌, ◌∷◌, []};
ghost use Rattle.lset_text.specs.Parts.{cut_at};
ghost use Rattle.lset_text.specs.Kinds.{first_of, line_in};
ghost use Rattle.lset_report.specs.ReportReading.{
  open_kind,
  ended_kind,
  from_order,
  from_keys,
  kinds,
  section_after,
};

use lset_text::{Cause, Version, cut, is_reply, number, read_call, read_reply};
use lset_words::{CallRecord, Key, Placed};

/// The section that a report reader has reached.
#[derive(Clone, Copy)]
pub enum Section {
    Opening,
    Calls,
    Order,
    Keys,
    Done,
}

/// A line of a report after its header: an opening key (a key at the start), a numbered call, an entry of the order, a
/// final key, or the line `end`.
#[derive(Clone, Copy)]
pub enum Line {
    Opening(u32),
    Call(u32, CallRecord),
    Place(Placed),
    Key(u32),
    End,
}

impl Line {
    /// Returns the section of the report that contains the line.
    pub fn section(self) -> Section
        ensures { result ≡ section_after self }
    {
        match self {
            Line::Opening(_) => Section::Opening,
            Line::Call(_, _) => Section::Calls,
            Line::Place(_) => Section::Order,
            Line::Key(_) => Section::Keys,
            Line::End => Section::Done,
        }
    }
}

/// The first fields of a call's line, up to the moment when the call starts.
#[derive(Clone, Copy)]
struct Begun<'a> {
    word: &'a [u8],
    id: &'a [u8],
    thread: &'a [u8],
    call: &'a [u8],
    key: &'a [u8],
    begun: &'a [u8],
}

fn open_call(version: Version, pieces: Begun<'_>, end: &[u8]) -> Result<Line, Cause>
    ensures { result ≡ first_of version Cause.Line (open_kind ∷ []) (pieces.entry.word.now ∷ pieces.entry.id.now ∷ pieces.entry.thread.now
        ∷ pieces.entry.call.now ∷ pieces.entry.key.now ∷ pieces.entry.begun.now ∷ end.now ∷ []) }
{
    if pieces.word != b"call".as_slice() || end != b"open".as_slice() {
        return Err(Cause::Line);
    }
    let word = read_call(version, pieces.call).ok_or(Cause::Line)?;
    let id = number(pieces.id, 0, u32::MAX).ok_or(Cause::Number)?;
    let thread = number(pieces.thread, 0, u32::MAX).ok_or(Cause::Number)?;
    let key = number(pieces.key, 0, u32::MAX).ok_or(Cause::Number)?;
    let begun = number(pieces.begun, 1, u32::MAX).ok_or(Cause::Number)?;
    let made = CallRecord {
        thread,
        call: word.with_key(Key(key)),
        begun,
        ended: None,
    };
    Ok(Line::Call(id, made))
}

fn ended_call(version: Version, pieces: Begun<'_>, end: &[u8], reply: &[u8]) -> Result<Line, Cause>
    ensures { result ≡ first_of version Cause.Line (ended_kind ∷ []) (pieces.entry.word.now ∷ pieces.entry.id.now ∷ pieces.entry.thread.now
        ∷ pieces.entry.call.now ∷ pieces.entry.key.now ∷ pieces.entry.begun.now ∷ end.now ∷ reply.now ∷ []) }
{
    if pieces.word != b"call".as_slice() || !is_reply(version, reply) {
        return Err(Cause::Line);
    }
    let word = read_call(version, pieces.call).ok_or(Cause::Line)?;
    let id = number(pieces.id, 0, u32::MAX).ok_or(Cause::Number)?;
    let thread = number(pieces.thread, 0, u32::MAX).ok_or(Cause::Number)?;
    let key = number(pieces.key, 0, u32::MAX).ok_or(Cause::Number)?;
    let begun = number(pieces.begun, 1, u32::MAX).ok_or(Cause::Number)?;
    let end = number(end, 1, u32::MAX).ok_or(Cause::Number)?;
    let reply = read_reply(version, reply).ok_or(Cause::Number)?;
    let made = CallRecord {
        thread,
        call: word.with_key(Key(key)),
        begun,
        ended: Some((end, reply)),
    };
    Ok(Line::Call(id, made))
}

/// Parses a call from its line. `word`, `id` and `thread` are the first three fields; `rest` is the remainder of the
/// line.
fn call(version: Version, word: &[u8], id: &[u8], thread: &[u8], rest: &[u8]) -> Result<Line, Cause>
    ensures { result ≡ first_of version Cause.Line (open_kind ∷ ended_kind ∷ []) (word.now ∷ id.now ∷ thread.now
        ∷ cut_at 32 rest.now) }
{
    let Some((call, rest)) = cut(rest, b' ') else {
        return Err(Cause::Line);
    };
    let Some((key, rest)) = cut(rest, b' ') else {
        return Err(Cause::Line);
    };
    let Some((begun, rest)) = cut(rest, b' ') else {
        return Err(Cause::Line);
    };
    let pieces = Begun {
        word,
        id,
        thread,
        call,
        key,
        begun,
    };
    let Some((end, reply)) = cut(rest, b' ') else {
        return open_call(version, pieces, rest);
    };
    if let Some((_, _more)) = cut(reply, b' ') {
        return Err(Cause::Line);
    }
    ended_call(version, pieces, end, reply)
}

fn place(version: Version, word: &[u8], id: &[u8], reply: &[u8]) -> Result<Line, Cause>
    ensures { result ≡ first_of version Cause.Line from_order (word.now ∷ id.now ∷ reply.now ∷ []) }
{
    if word != b"place".as_slice() || !is_reply(version, reply) {
        return Err(Cause::Line);
    }
    let call = number(id, 0, u32::MAX).ok_or(Cause::Number)?;
    let reply = read_reply(version, reply).ok_or(Cause::Number)?;
    Ok(Line::Place(Placed { call, reply }))
}

fn key(word: &[u8], key: &[u8]) -> Result<Line, Cause>
    ensures { result ≡ first_of Version.Two Cause.Line from_keys (word.now ∷ key.now ∷ []) }
{
    if word != b"key".as_slice() {
        return Err(Cause::Line);
    }
    let key = number(key, 0, u32::MAX).ok_or(Cause::Number)?;
    Ok(Line::Key(key))
}

fn opening_or_key(word: &[u8], digits: &[u8]) -> Result<Line, Cause>
    ensures { result ≡ first_of Version.Two Cause.Line (kinds Version.Two Section.Opening) (word.now ∷ digits.now ∷ []) }
{
    if word != b"opening".as_slice() {
        return key(word, digits);
    }
    let key = number(digits, 0, u32::MAX).ok_or(Cause::Number)?;
    Ok(Line::Opening(key))
}

fn end(word: &[u8]) -> Result<Line, Cause>
    ensures { result ≡ first_of Version.Two Cause.Line from_keys (word.now ∷ []) }
{
    if word != b"end".as_slice() {
        return Err(Cause::Line);
    }
    Ok(Line::End)
}

/// Parses a line of a report's text. `section` is the section that the reader has reached.
pub(crate) fn line_of_report(version: Version, section: Section, line: &[u8]) -> Result<Line, Cause>
    ensures { result ≡ line_in version Cause.Line (kinds version section) line.now }
{
    let Some((word, rest)) = cut(line, b' ') else {
        return match section {
            Section::Done => Err(Cause::Line),
            _ => end(line),
        };
    };
    let Some((second, rest)) = cut(rest, b' ') else {
        return match (version, section) {
            (Version::Two, Section::Opening) => opening_or_key(word, rest),
            (_, Section::Done) => Err(Cause::Line),
            _ => key(word, rest),
        };
    };
    let Some((third, rest)) = cut(rest, b' ') else {
        return match section {
            Section::Keys | Section::Done => Err(Cause::Line),
            _ => place(version, word, second, rest),
        };
    };
    match section {
        Section::Opening | Section::Calls => call(version, word, second, third, rest),
        _ => Err(Cause::Line),
    }
}
