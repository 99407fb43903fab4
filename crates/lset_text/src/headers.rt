ghost use Rattle.std.specs.Prelude.{◌≡◌, ◌≢◌, ◌<◌, ◌++◌, length, string_bytes, IfOk, IfErr, OnOk, Ok, Err, MatchResult};
ghost use Rattle.lset_text.specs.Parts.{cut_at, text_of};
ghost use Rattle.lset_text.specs.Headers.{
  kind_in,
  number_after,
  line_due,
  header_of,
  version_in,
  header_lines,
  IsHeader,
  HeadersReadBack,
};

use crate::causes::{Cause, LineFault};
use crate::numbers::number;
use crate::text_parts::cut;
use crate::words::{Version, kind_word, read_kind};
use lset_words::{Kind, MOST_QUOTA, MOST_THREADS};
use std::alloc::AllocError;

/// The header of a file: the kind of list, the number of threads (1 to 64), and the quota (the number of successful
/// adds that each thread can make, 0 to 16,384).
#[derive(Clone, Copy, Debug, PartialEq, Eq)]
pub struct Header {
    pub kind: Kind,
    pub threads: u32,
    pub quota: u32,
}

fn kind_of_line(line: &[u8]) -> Option<Kind>
    ensures { result ≡ kind_in line.now }
{
    let (word, kind) = cut(line, b' ')?;
    if word != b"list".as_slice() {
        return None;
    }
    if let Some((_, _more)) = cut(kind, b' ') {
        return None;
    }
    read_kind(kind)
}

/// Returns the number if the line consists of `word`, a space, and a number from `low` to `high`. Otherwise returns
/// `None`.
pub fn number_of_line(line: &[u8], word: &[u8], low: u32, high: u32) -> Option<u32>
    ensures { result ≡ number_after word.now low high line.now }
{
    let (first, count) = cut(line, b' ')?;
    if first != word {
        return None;
    }
    if let Some((_, _more)) = cut(count, b' ') {
        return None;
    }
    number(count, low, high)
}

/// Splits off the next header line, which has the number `line`. Returns the line and the text after it. If the text is
/// empty, returns an error with the cause `cause`. If the text has bytes but no newline, returns an error with the
/// cause `NotEnded`.
fn due(text: &[u8], line: u64, cause: Cause) -> Result<(&[u8], &[u8]), LineFault>
    ensures value { MatchResult result
        (λ p. line_due line cause (cut_at 10 text.now) ≡ Ok (p.0.now, cut_at 10 p.1.now))
        (λ e. line_due line cause (cut_at 10 text.now) ≡ Err e) }
    ensures shorter { IfOk result (λ p. length p.1.now < length text.now) }
{
    if let Some((first, rest)) = cut(text, b'\n') {
        return Ok((first, rest));
    }
    if text.is_empty() {
        return Err(LineFault::at(line, cause));
    }
    Err(LineFault::unended(line))
}

/// Returns the version of a file: 2 if the first line is `title` (the title of version 2), else 1.
pub fn version_of(text: &[u8], title: &[u8]) -> Version
    ensures { result ≡ version_in title.now (cut_at 10 text.now) }
{
    let first = match cut(text, b'\n') {
        Some((first, _)) => first,
        None => text,
    };
    if first == title {
        Version::Two
    } else {
        Version::One
    }
}

/// Reads the header of a file, lines 1 to 4. Line 1 must be `title`. Returns the header and the text after the header.
/// Does not allocate.
///
/// # Errors
///
/// Returns the first error, at a line from 1 to 4. If a header line is missing, the cause is `Header`, `Kind`,
/// `Threads` or `Quota`, depending on the line. If a line has bytes but no newline, the cause is `NotEnded`, even if
/// the line has other errors.
pub fn read_header<'a>(title: &[u8], text: &'a [u8]) -> Result<(Header, &'a [u8]), LineFault>
    // The text begins with the returned header.
    ensures found { IfOk result (λ p. IsHeader p.0 × (text.now ≡ text_of (header_lines title.now p.0) ++ p.1.now)) }
    // Specifies the value and the error exactly: `header_of` is the definition of reading a header.
    ensures exact { MatchResult result
        (λ p. header_of title.now (cut_at 10 text.now) ≡ Ok (p.0, cut_at 10 p.1.now))
        (λ e. header_of title.now (cut_at 10 text.now) ≡ Err e) }
    // The error is never `Memory`, because the function does not allocate.
    ensures asks { IfErr result (λ e. e.cause ≢ Cause.Memory) }
    ensures shorter { IfOk result (λ p. length p.1.now < length text.now) }
{
    header_due(title, text)
}

/// Lemma: reading the text of a header yields the header, whatever text follows.
#[tactic(auto, using(crate::proofs::HeaderLaws::header_from_text))]
pub fn headers_read_back()
    ensures { HeadersReadBack }
{}

#[tactic(auto, unfolding(crate::specs::Headers::header_of, crate::specs::Headers::told_by_line))]
fn header_due<'a>(title: &[u8], text: &'a [u8]) -> Result<(Header, &'a [u8]), LineFault>
    ensures value { MatchResult result
        (λ p. header_of title.now (cut_at 10 text.now) ≡ Ok (p.0, cut_at 10 p.1.now))
        (λ e. header_of title.now (cut_at 10 text.now) ≡ Err e) }
    ensures shorter { IfOk result (λ p. length p.1.now < length text.now) }
{
    let (first, rest) = due(text, 1, Cause::Header)?;
    if first != title {
        return Err(LineFault::at(1, Cause::Header));
    }
    let (line, rest) = due(rest, 2, Cause::Kind)?;
    let kind = kind_of_line(line).ok_or(LineFault::at(2, Cause::Kind))?;
    let (line, rest) = due(rest, 3, Cause::Threads)?;
    let threads = number_of_line(line, b"threads", 1, MOST_THREADS).ok_or(LineFault::at(
        3,
        Cause::Threads,
    ))?;
    let (line, rest) = due(rest, 4, Cause::Quota)?;
    let quota = number_of_line(line, b"quota", 0, MOST_QUOTA).ok_or(LineFault::at(
        4,
        Cause::Quota,
    ))?;
    let header = Header {
        kind,
        threads,
        quota,
    };
    Ok((header, rest))
}

/// Appends the four lines of a header to `out`. Returns `AllocError` if an allocation fails; `out` can then end with
/// some of the lines.
pub fn put_header(out: &mut String, title: &str, header: Header) -> Result<(), AllocError>
    ensures { OnOk result (string_bytes out.new ≡ string_bytes out.old ++ text_of (header_lines title.now header)) }
{
    let kind = kind_word(header.kind);
    let threads = header.threads;
    let quota = header.quota;
    write!(
        out,
        "{title}\nlist {kind}\nthreads {threads}\nquota {quota}\n"
    )?;
    Ok(())
}
