ghost use Rattle.std.specs.Prelude.{◌≡◌, ◌∷◌, [], ◌<◌, codes, false, IfErr, MatchOption, OnOk};
ghost use Rattle.lset_text.specs.Parts.{cut_at};
ghost use Rattle.lset_text.specs.Forms.{have_form};
ghost use Rattle.lset_text.specs.Headers.{IsHeader};
ghost use Rattle.lset_text.specs.Lines.{lines_from, IsGoodLine};
ghost use Rattle.lset_text.specs.Kinds.{line_in, made};
ghost use Rattle.lset_text.specs.Openings.{opening_form};
ghost use Rattle.lset_text.specs.Numbers.{number_in, max_number};
ghost use Rattle.lset_text.specs.Results.{or_fail};
ghost use Rattle.lset_text.specs.Texts.{first_line, text_from};
ghost use Rattle.lset_schedule.specs.ScheduleReading.{
  EventLines,
  opens,
  event,
  kinds_after,
  with_item,
  with_line,
  grammar,
  no_lines,
  told,
  texts,
  Counts,
  Takes,
  Gives,
  IsGoodAfterHeader,
};

use crate::content::Body;
use crate::{FIRST_LINE, MOST_EVENTS};
use lset_text::{Cause, Header, LineFault, Version, cut, is_above, number, read_header};
use lset_words::MOST_OPENING;
use std::alloc::Global;

/// An event line of a schedule or a draft. A schedule or a draft consists of a header, opening keys (the keys at the
/// start) and event lines. Schedules and drafts have different types of event lines.
pub trait EventLine: Copy {
    /// The patterns of event lines, and the number of events that each line counts as.
    ghost lines: { EventLines Self };

    /// Reads an event line, passed without its newline, from a text of format `version`. Returns `Event` if the line
    /// matches no pattern, and `Number` if a number in the line is malformed or out of range.
    fn read(version: Version, line: &[u8]) -> Result<Self, Cause>
        ensures { result ≡ line_in version Cause.Event lines.kinds line.now };

    /// Returns the number of events that the line counts as.
    fn count(self) -> u32
        ensures { result ≡ lines.count self };
}

/// Returns the second field `K` if the line is `opening K`, otherwise `None`.
fn opening_piece(line: &[u8]) -> Option<&[u8]>
    ensures { MatchOption result (have_form Version.Two opening_form (cut_at 32 line.now) ≡ false)
        (λ key. cut_at 32 line.now ≡ codes "opening" ∷ key.now ∷ []) }
{
    let (word, key) = cut(line, b' ')?;
    if word != b"opening".as_slice() {
        return None;
    }
    if let Some((_, _more)) = cut(key, b' ') {
        return None;
    }
    Some(key)
}

impl<L: EventLine> Body<L> {
    fn new(alloc: Global, header: Header) -> Body<L>
        requires { IsHeader header }
        ensures told { told result ≡ no_lines header }
        ensures counts { Counts L.lines result }
    {
        Body {
            header,
            opening: Vec::new(alloc),
            lines: Vec::new(alloc),
            total: 0,
        }
    }

    /// Returns the second field `K` if the line is `opening K` and if opening keys (keys at the start) are still
    /// allowed, otherwise `None`. Opening keys are allowed only in version 2, and only before all event lines.
    fn key_due<'a>(&self, version: Version, line: &'a [u8]) -> Option<&'a [u8]>
        ensures { MatchOption result
            (line_in version Cause.Event (kinds_after L.lines version self.now.lines.items) line.now
            ≡ made event (line_in version Cause.Event L.lines.kinds line.now))
            (λ key. line_in version Cause.Event (kinds_after L.lines version self.now.lines.items) line.now
            ≡ made opens (or_fail Cause.Number (number_in 0 max_number key.now))) }
    {
        match version {
            Version::Two if self.lines.is_empty() => opening_piece(line),
            _ => None,
        }
    }

    #[tactic(auto, using(lset_text::proofs::OpeningLaws::increases_more))]
    fn add_key(&mut self, key: u32) -> Result<(), Cause>
        requires counts { Counts L.lines self.old }
        ensures takes { Takes (with_item L.lines (told self.old) (opens key)) (told self.new) result }
        ensures counts { OnOk result (Counts L.lines self.new) }
    {
        if self.opening.len() >= MOST_OPENING as usize {
            return Err(Cause::TooMany);
        }
        if !is_above(&self.opening, key) {
            return Err(Cause::Opening);
        }
        if self.opening.push(key).is_err() {
            return Err(Cause::Memory);
        }
        Ok(())
    }

    fn add_event(&mut self, line: L) -> Result<(), Cause>
        requires counts { Counts L.lines self.old }
        ensures takes { Takes (with_item L.lines (told self.old) (event line)) (told self.new) result }
        ensures counts { OnOk result (Counts L.lines self.new) }
    {
        let count = line.count();
        if count > MOST_EVENTS - self.total {
            return Err(Cause::TooMany);
        }
        if self.lines.push(line).is_err() {
            return Err(Cause::Memory);
        }
        self.total += count;
        Ok(())
    }

    fn read_line(&mut self, version: Version, line: &[u8]) -> Result<(), Cause>
        requires counts { Counts L.lines self.old }
        ensures takes { Takes (with_line L.lines version (told self.old) line.now) (told self.new) result }
        ensures counts { OnOk result (Counts L.lines self.new) }
    {
        match self.key_due(version, line) {
            Some(key) => {
                let key = number(key, 0, u32::MAX).ok_or(Cause::Number)?;
                self.add_key(key)
            }
            None => self.add_event(L::read(version, line)?),
        }
    }
}

/// Reads the lines after the header of a text. `version` is the version of the text's format. Returns the content of
/// the text, or the first error.
fn read_body<L: EventLine>(
    alloc: Global,
    version: Version,
    header: Header,
    text: &[u8],
) -> Result<Body<L>, LineFault>
    requires { IsHeader header }
    ensures exact { Gives told result (lines_from (grammar L.lines version) first_line (no_lines header) (cut_at 10 text.now)) }
    ensures memory { IfErr result (λ e. e.cause ≡ Cause.Memory → IsGoodLine first_line (cut_at 10 text.now)
        (lines_from (grammar L.lines version) first_line (no_lines header) (cut_at 10 text.now)) e.line) }
{
    let mut body = Body::new(alloc, header);
    let mut number = FIRST_LINE;
    let mut rest = text;
    while !rest.is_empty() {
        let Some((line, after)) = cut(rest, b'\n') else {
            return Err(LineFault::unended(number));
        };
        if let Err(cause) = body.read_line(version, line) {
            return Err(LineFault::at(number, cause));
        }
        number += 1;
        rest = after;
    }
    Ok(body)
}

/// Reads a text of format `version`, which begins with the line `title`. Returns the content of the text, or the first
/// error. Allocates.
#[tactic(auto, unfolding(lset_text::specs::Texts::text_from))]
pub fn read_text<L: EventLine>(
    alloc: Global,
    version: Version,
    title: &[u8],
    text: &[u8],
) -> Result<Body<L>, LineFault>
    ensures exact { Gives told result (text_from (texts L.lines version title.now) (cut_at 10 text.now)) }
    ensures memory { IfErr result (λ e. e.cause ≡ Cause.Memory
        → IsGoodAfterHeader text.now (text_from (texts L.lines version title.now) (cut_at 10 text.now)) e.line) }
{
    let (header, rest) = read_header(title, text)?;
    read_body(alloc, version, header, rest)
}
