ghost use Rattle.std.specs.Prelude.{◌≡◌, ◌≢◌, ◌≤◌, length, IfOk, OnOk, OnErr, MatchResult, Ok};
ghost use Rattle.std.specs.List.Sorted.{IsStrictlyIncreasing};
ghost use Rattle.lset_words.specs.declared.TheConstants.{MOST_OPENING};
ghost use Rattle.lset_text.specs.Parts.{cut_at};
ghost use Rattle.lset_text.specs.Headers.{IsHeader};
ghost use Rattle.lset_text.specs.Lines.{lines_from};
ghost use Rattle.lset_text.specs.Texts.{first_line};
ghost use Rattle.lset_report.specs.Report.{ReportValue, view};
ghost use Rattle.lset_report.specs.Texts.{report_text, HasWordsOfVersion};
ghost use Rattle.lset_report.specs.ReportReading.{
  IsReport,
  Gives,
  most_keys,
  is_next,
  version_told,
  section_after,
  judged,
  line_after,
  with_line,
  no_lines,
  grammar,
  ReportsReadBack,
};

mod calls_so_far;
mod report_lines;

use crate::title::title;
use crate::{MOST_CALLS, MOST_KEYS, MOST_KEYS_OPENED, MOST_PLACES, Report, ReportFault};
use calls_so_far::CallsSoFar;
use lset_text::{Cause, Header, LineFault, Version, cut, is_above, read_header, version_of};
use lset_words::{CallRecord, MOST_OPENING, Placed};
use report_lines::{Line, Section, line_of_report};
use std::alloc::{AllocError, Global};

/// The number of lines in a report's header.
const LAST_OF_HEADER: u64 = 4;

/// The number of the first line after the header, counted from 1.
const FIRST_LINE: u64 = LAST_OF_HEADER + 1;

/// The part of a report that has been read so far.
#[derive(Drop)]
pub(crate) struct Reader {
    pub version: Version,
    pub header: Header,
    pub section: Section,
    pub opening: Vec<u32>,
    pub calls: CallsSoFar,
    pub order: Vec<Placed>,
    pub keys: Vec<u32>,
    ghost increasing: { IsStrictlyIncreasing opening.items },
    ghost few: { length opening.items ≤ MOST_OPENING },
}

/// Returns the maximum number of final keys in a report of the given version.
fn most_keys(version: Version) -> usize
    ensures { result ≡ most_keys version }
{
    match version {
        Version::One => MOST_KEYS,
        Version::Two => MOST_KEYS_OPENED,
    }
}

impl Reader {
    ghost use Rattle.lset_report.specs.ReportReader.{GoesOn, ReadsLine, so_far, state};

    fn new(alloc: Global, version: Version, header: Header) -> Result<Reader, AllocError>
        requires { IsHeader header }
        ensures section { IfOk result (λ s. s.section ≡ Section.Opening) }
        ensures nothing { IfOk result (λ s. so_far s ≡ no_lines version header) }
    {
        Ok(Reader {
            version,
            header,
            section: Section::Opening,
            opening: Vec::new(alloc),
            calls: CallsSoFar::new(alloc, header.threads, header.quota)?,
            order: Vec::new(alloc),
            keys: Vec::new(alloc),
        })
    }

    /// Returns whether `number` is the next call number and the call `made` can follow the calls read so far.
    fn is_next(&self, number: u32, made: CallRecord) -> bool
        ensures { result ≡ is_next (so_far self.now) number made }
    {
        number as usize == self.calls.history.calls().len() && self.calls.may_follow(made)
    }

    /// Returns the line if it can follow the lines read so far. Otherwise returns the cause: `TooMany` if the line's
    /// section is full, `Opening` if an opening key (a key at the start) is not greater than the previous one, or
    /// `History` if a call cannot follow the previous calls.
    fn judged(&self, line: Line) -> Result<Line, Cause>
        ensures { result ≡ judged (so_far self.now) line }
    {
        let (count, most) = match line {
            Line::Opening(_) => (self.opening.len(), MOST_OPENING as usize),
            Line::Call(_, _) => (self.calls.history.calls().len(), MOST_CALLS),
            Line::Place(_) => (self.order.len(), MOST_PLACES),
            Line::Key(_) => (self.keys.len(), most_keys(self.version)),
            Line::End => return Ok(line),
        };
        if count >= most {
            return Err(Cause::TooMany);
        }
        match line {
            Line::Opening(key) if !is_above(&self.opening, key) => Err(Cause::Opening),
            Line::Call(number, made) if !self.is_next(number, made) => Err(Cause::History),
            _ => Ok(line),
        }
    }

    fn line_after(&self, line: &[u8]) -> Result<Line, Cause>
        ensures { result ≡ line_after self.now.section (so_far self.now) line.now }
    {
        self.judged(line_of_report(self.version, self.section, line)?)
    }

    fn put(&mut self, line: Line) -> Result<(), AllocError>
        requires { judged (so_far self.old) line ≡ Ok line }
        ensures section { OnOk result (self.new.section ≡ section_after line) }
        ensures told { OnOk result (so_far self.new ≡ with_line (so_far self.old) line) }
        ensures asked { OnErr result (line ≢ Line.End) }
    {
        match line {
            Line::Opening(key) => self.opening.push(key)?,
            Line::Call(_, made) => self.calls.push(made)?,
            Line::Place(placed) => self.order.push(placed)?,
            Line::Key(key) => self.keys.push(key)?,
            Line::End => {}
        }
        self.section = line.section();
        Ok(())
    }

    fn read_line(&mut self, number: u64, text: &[u8]) -> Result<(), LineFault>
        ensures { ReadsLine self.old self.new number text.now result }
    {
        let line = match self.line_after(text) {
            Ok(line) => line,
            Err(cause) => return Err(LineFault::at(number, cause)),
        };
        if self.put(line).is_err() {
            return Err(LineFault::at(number, Cause::Memory));
        }
        Ok(())
    }

    /// Reads all lines after the header into the reader. Stops at the first line with an error.
    fn read_lines(&mut self, text: &[u8]) -> Result<(), LineFault>
        ensures { GoesOn (state self.new) result (cut_at 10 text.now)
            (lines_from grammar first_line (state self.old) (cut_at 10 text.now)) }
    {
        let mut number = FIRST_LINE;
        let mut rest = text;
        while !rest.is_empty() {
            let Some((first, after)) = cut(rest, b'\n') else {
                return Err(LineFault::unended(number));
            };
            self.read_line(number, first)?;
            number += 1;
            rest = after;
        }
        match self.section {
            Section::Done => Ok(()),
            _ => Err(LineFault::unended(number)),
        }
    }

    fn into_report(self) -> Report
        ensures { view result ≡ so_far self }
    {
        let calls = self.calls;
        let mut history = calls.history;
        history.reopen(self.opening);
        Report {
            version: self.version,
            kind: self.header.kind,
            history,
            order: self.order,
            keys: self.keys,
        }
    }
}

/// Returns the version of the format that the first line of a report names.
fn version_told(bytes: &[u8]) -> Version
    ensures { result ≡ version_told (cut_at 10 bytes.now) }
{
    version_of(bytes, title(Version::Two).as_bytes())
}

fn report(alloc: Global, bytes: &[u8]) -> Result<Report, ReportFault>
    ensures { Gives view result bytes.now }
{
    let version = version_told(bytes);
    let (header, rest) = read_header(title(version).as_bytes(), bytes)?;
    let Ok(mut reader) = Reader::new(alloc, version, header) else {
        return Err(LineFault::at(LAST_OF_HEADER, Cause::Memory));
    };
    reader.read_lines(rest)?;
    Ok(reader.into_report())
}

/// Reads a report of either version from its bytes. Allocates.
///
/// The first line states the version. In version 2, lines with opening keys can precede the calls, in strictly
/// increasing order. In version 1, a line with `opening`, `ceiling`, `nothing` or a reply such as `at-5` has the error
/// `Line`. The function does not check that the order explains the history and leaves the final keys: `check_order`
/// does. The number of steps grows linearly with the number of bytes, whatever numbers the text contains.
///
/// # Errors
///
/// Returns the first wrong line, with the first check that fails. `NotEnded` takes precedence over all other errors;
/// the others are checked in the order of `Cause`. If the bytes end before a header line, the error is the same as for
/// a wrong line in its place. If an allocation fails, returns `Memory` with the last line read. That line is not `end`,
/// and neither that line nor any earlier line has another error.
#[tactic(auto, using(crate::proofs::ReportTexts::found_in, crate::proofs::ReportTexts::only_in))]
pub fn read_report(alloc: Global, bytes: &[u8]) -> Result<Report, ReportFault>
    // If a report is returned, its calls are a history, and `bytes` is the text of the report.
    ensures found { IfOk result (λ r. IsReport (view r) × (bytes.now ≡ report_text (view r))) }
    // `write_report` can write every report that is returned: the report's version of the format allows everything in
    // the report.
    ensures words { IfOk result (λ r. HasWordsOfVersion (view r)) }
    // If `bytes` is the text of a report, that report is returned, unless an allocation fails.
    ensures only { (r : ReportValue) → IsReport r → bytes.now ≡ report_text r
        → MatchResult result (λ s. view s ≡ r) (λ e. e.cause ≡ Cause.Memory) }
    // The error is the first error in the text, or `Memory` at a line without another error.
    ensures exact { Gives view result bytes.now }
{
    report(alloc, bytes)
}

/// Lemma: `read_report` accepts exactly the texts of reports. Accepted bytes are the text of the report that is
/// returned.
pub fn reports_read_back()
    ensures { ReportsReadBack }
{}
