ghost use Rattle.std.specs.Prelude.{◌≡◌, ◌∷◌, [], codes};
ghost use Rattle.std.specs.Str.{bytes_eq};
ghost use Rattle.lset_text.specs.declared.words.Version.TheVariants.{One};
ghost use Rattle.lset_text.specs.Parts.{cut_at};
ghost use Rattle.lset_text.specs.Kinds.{first_of, line_in};
ghost use Rattle.lset_recording.specs.Reading.{
  open_kind,
  true_kind,
  false_kind,
  call_kinds,
  kinds,
  line_told,
  title_told,
  section_after,
  takes_opening,
  takes_calls,
  takes_keys,
  is_title,
};

use crate::quick::quick_call;
use lset_judge::{LAST_MOMENT, StreamCall};
use lset_text::{Cause, Version, cut, long_number, number, read_call};
use lset_words::{Key, Reply};

/// The maximum length of a line after the title, in bytes without the newline.
pub const LONGEST_LINE: usize = 128;

/// The title of every recording: its first line, without the newline.
const TITLE: &[u8] = b"listset-calls 1";

/// A section of a recording, named after its lines: for example, the lines of `Calls` are calls. A reader is in section
/// `Opening` after the title, and in `Done` after the last line.
#[derive(Clone, Copy)]
pub enum Section {
    Title,
    Opening,
    Calls,
    Keys,
    Done,
}

/// The content of a line of a recording: the title, an opening key, a call, a final key, or the last line (`end`, or
/// `cut` if the recording was cut off).
#[derive(Clone, Copy)]
pub enum Line {
    Title,
    Opening(u32),
    Call(StreamCall),
    Key(u32),
    End,
    Cut,
}

impl Line {
    /// Returns the section of the recording that the reader is in after a line.
    pub fn section(self) -> Section
        ensures { result ≡ section_after self }
    {
        match self {
            Line::Title | Line::Opening(_) => Section::Opening,
            Line::Call(_) => Section::Calls,
            Line::Key(_) => Section::Keys,
            Line::End | Line::Cut => Section::Done,
        }
    }
}

impl Section {
    pub(crate) fn is_title(self) -> bool
        ensures { result ≡ is_title self }
    {
        matches!(self, Section::Title)
    }

    fn takes_opening(self) -> bool
        ensures { result ≡ takes_opening self }
    {
        matches!(self, Section::Opening)
    }

    pub(crate) fn takes_calls(self) -> bool
        ensures { result ≡ takes_calls self }
    {
        matches!(self, Section::Opening | Section::Calls)
    }

    fn takes_keys(self) -> bool
        ensures { result ≡ takes_keys self }
    {
        !matches!(self, Section::Title | Section::Done)
    }
}

/// The fields of a call's line, from the thread of the call to its start.
#[derive(Clone, Copy)]
struct CallPieces<'a> {
    thread: &'a [u8],
    call: &'a [u8],
    key: &'a [u8],
    begun: &'a [u8],
}

fn is_call(piece: &[u8]) -> bool
    ensures { result ≡ bytes_eq piece.now (codes "call") }
{
    matches!(piece, b"call")
}

fn open_call(pieces: CallPieces<'_>) -> Result<Line, Cause>
    ensures { result ≡ first_of One Cause.Line (open_kind ∷ []) (codes "call" ∷ pieces.entry.thread.now
        ∷ pieces.entry.call.now ∷ pieces.entry.key.now ∷ pieces.entry.begun.now ∷ codes "-" ∷ codes "-" ∷ []) }
{
    let word = read_call(Version::One, pieces.call).ok_or(Cause::Line)?;
    let thread = number(pieces.thread, 0, u32::MAX).ok_or(Cause::Number)?;
    let key = number(pieces.key, 0, u32::MAX).ok_or(Cause::Number)?;
    let begun = long_number(pieces.begun, 1, LAST_MOMENT).ok_or(Cause::Number)?;
    Ok(Line::Call(StreamCall {
        thread,
        call: word.with_key(Key(key)),
        begun,
        ended: None,
    }))
}

fn true_call(pieces: CallPieces<'_>, end: &[u8]) -> Result<Line, Cause>
    ensures { result ≡ first_of One Cause.Line (true_kind ∷ []) (codes "call" ∷ pieces.entry.thread.now
        ∷ pieces.entry.call.now ∷ pieces.entry.key.now ∷ pieces.entry.begun.now ∷ end.now ∷ codes "true" ∷ []) }
{
    let word = read_call(Version::One, pieces.call).ok_or(Cause::Line)?;
    let thread = number(pieces.thread, 0, u32::MAX).ok_or(Cause::Number)?;
    let key = number(pieces.key, 0, u32::MAX).ok_or(Cause::Number)?;
    let begun = long_number(pieces.begun, 1, LAST_MOMENT).ok_or(Cause::Number)?;
    let end = long_number(end, 1, LAST_MOMENT).ok_or(Cause::Number)?;
    Ok(Line::Call(StreamCall {
        thread,
        call: word.with_key(Key(key)),
        begun,
        ended: Some((end, Reply::True)),
    }))
}

fn false_call(pieces: CallPieces<'_>, end: &[u8]) -> Result<Line, Cause>
    ensures { result ≡ first_of One Cause.Line (false_kind ∷ []) (codes "call" ∷ pieces.entry.thread.now
        ∷ pieces.entry.call.now ∷ pieces.entry.key.now ∷ pieces.entry.begun.now ∷ end.now ∷ codes "false" ∷ []) }
{
    let word = read_call(Version::One, pieces.call).ok_or(Cause::Line)?;
    let thread = number(pieces.thread, 0, u32::MAX).ok_or(Cause::Number)?;
    let key = number(pieces.key, 0, u32::MAX).ok_or(Cause::Number)?;
    let begun = long_number(pieces.begun, 1, LAST_MOMENT).ok_or(Cause::Number)?;
    let end = long_number(end, 1, LAST_MOMENT).ok_or(Cause::Number)?;
    Ok(Line::Call(StreamCall {
        thread,
        call: word.with_key(Key(key)),
        begun,
        ended: Some((end, Reply::False)),
    }))
}

fn ended_call(pieces: CallPieces<'_>, end: &[u8], reply: &[u8]) -> Result<Line, Cause>
    ensures { result ≡ first_of One Cause.Line call_kinds (codes "call" ∷ pieces.entry.thread.now
        ∷ pieces.entry.call.now ∷ pieces.entry.key.now ∷ pieces.entry.begun.now ∷ end.now ∷ reply.now ∷ []) }
{
    if reply == b"-".as_slice() && end == b"-".as_slice() {
        open_call(pieces)
    } else if reply == b"true".as_slice() {
        true_call(pieces, end)
    } else if reply == b"false".as_slice() {
        false_call(pieces, end)
    } else {
        Err(Cause::Line)
    }
}

/// Reads a call from its line. `thread` is the field with the call's thread, and `rest` has the bytes after the field
/// `thread`.
fn call(thread: &[u8], rest: &[u8]) -> Result<Line, Cause>
    ensures { result ≡ first_of One Cause.Line call_kinds (codes "call" ∷ thread.now ∷ cut_at 32 rest.now) }
{
    let Some((call, rest)) = cut(rest, b' ') else {
        return Err(Cause::Line);
    };
    let Some((key, rest)) = cut(rest, b' ') else {
        return Err(Cause::Line);
    };
    let Some((begun, rest)) = cut(rest, b' ') else {
        return Err(Cause::Line);
    };
    let Some((end, reply)) = cut(rest, b' ') else {
        return Err(Cause::Line);
    };
    if let Some((_, _more)) = cut(reply, b' ') {
        return Err(Cause::Line);
    }
    let pieces = CallPieces {
        thread,
        call,
        key,
        begun,
    };
    ended_call(pieces, end, reply)
}

fn opening_or_key(section: Section, word: &[u8], key: &[u8]) -> Result<Line, Cause>
    ensures { result ≡ first_of One Cause.Line (kinds section) (word.now ∷ key.now ∷ []) }
{
    if section.takes_opening() && word == b"opening".as_slice() {
        let key = number(key, 0, u32::MAX).ok_or(Cause::Number)?;
        return Ok(Line::Opening(key));
    }
    if !section.takes_keys() || word != b"key".as_slice() {
        return Err(Cause::Line);
    }
    let key = number(key, 0, u32::MAX).ok_or(Cause::Number)?;
    Ok(Line::Key(key))
}

fn end(section: Section, word: &[u8]) -> Result<Line, Cause>
    ensures { result ≡ first_of One Cause.Line (kinds section) (word.now ∷ []) }
{
    if section.takes_calls() && word == b"cut".as_slice() {
        return Ok(Line::Cut);
    }
    if !section.takes_keys() || word != b"end".as_slice() {
        return Err(Cause::Line);
    }
    Ok(Line::End)
}

fn line_in(section: Section, line: &[u8]) -> Result<Line, Cause>
    ensures { result ≡ line_in One Cause.Line (kinds section) line.now }
{
    let Some((word, rest)) = cut(line, b' ') else {
        return end(section, line);
    };
    let Some((second, rest)) = cut(rest, b' ') else {
        return opening_or_key(section, word, rest);
    };
    if !section.takes_calls() || !is_call(word) {
        return Err(Cause::Line);
    }
    call(second, rest)
}

/// Reads the first line of a recording, which must be the title. Returns `Header` for any line that is not the title.
fn title_told(line: &[u8]) -> Result<Line, Cause>
    ensures { result ≡ title_told line.now }
{
    if line == TITLE {
        Ok(Line::Title)
    } else {
        Err(Cause::Header)
    }
}

/// Reads a line, without its newline, in the section `section` of the recording. Does not allocate.
///
/// # Errors
///
/// Returns `Header` if the first line is not the title. For a later line, returns `Line` if the line has more than
/// `LONGEST_LINE` bytes or its kind is not allowed in the section. Returns `Number` if a field that must be a number is
/// not a number or is out of range.
pub fn line_told(section: Section, line: &[u8]) -> Result<Line, Cause>
    ensures { result ≡ line_told section line.now }
{
    if section.is_title() {
        return title_told(line);
    }
    if section.takes_calls() {
        if let Some((call, rest)) = quick_call(line) {
            if rest.is_empty() {
                return Ok(Line::Call(call));
            }
        }
    }
    if line.len() > LONGEST_LINE {
        return Err(Cause::Line);
    }
    line_in(section, line)
}
