ghost use Rattle.std.specs.Prelude.{◌≡◌, IfOk};
ghost use Rattle.tool_judge.specs.Judging.{Begins, calls_of_key, clash_text, extent, ok_line, refused_lines, refused_text};

use crate::clashes::clash_lines;
use crate::judge_answers::Detail;
use lset_judge::{Clash, Refusal};
use std::alloc::{AllocError, Global};

const AS_LEFT: &[u8] = b" and leaves it as it was left\n";

const HINT: &str =
    "few calls overlap, and a race shows only if they do: use fewer keys, more threads, or pauses in the set\n";

const CUT_OFF: &str =
    "the recording was cut off: some keys left fit, and those that were left are not known\n";

/// Returns the first line of the answer if some order explains the recording.
fn ok_line(alloc: Global, calls: u64) -> Result<Vec<u8>, AllocError>
    ensures { IfOk result (λ text. text.items ≡ ok_line calls) }
{
    let text = format!(in alloc; "ok {calls} calls\n")?;
    Ok(text.into_bytes())
}

/// Returns `true` if fewer than 5 of 100 calls overlap a change of their key.
fn is_few(overlapped: u64, calls: u64) -> bool {
    overlapped.saturating_mul(20) < calls
}

/// Returns the lines after `ok N calls`: the number of calls that overlap a change of their key, advice if there are
/// few such calls and `detail` is `Whole`, and a remark if the recording was cut off.
fn notes(
    alloc: Global,
    calls: u64,
    overlapped: u64,
    cut_off: bool,
    detail: Detail,
) -> Result<Vec<u8>, AllocError> {
    let mut text = format!(in alloc; "{overlapped} of them overlap a change of their key\n")?;
    if detail == Detail::Whole && is_few(overlapped, calls) {
        text.push_str(HINT)?;
    }
    if cut_off {
        text.push_str(CUT_OFF)?;
    }
    Ok(text.into_bytes())
}

/// Returns the whole answer if some order explains the recording.
pub(crate) fn ok_text(
    alloc: Global,
    calls: u64,
    overlapped: u64,
    cut_off: bool,
    detail: Detail,
) -> Result<Vec<u8>, AllocError>
    ensures { IfOk result (λ text. Begins (ok_line calls) text.items) }
{
    let mut text = ok_line(alloc, calls)?;
    let notes = notes(alloc, calls, overlapped, cut_off, detail)?;
    text.extend_from_slice(&notes)?;
    Ok(text)
}

/// Returns line 1 of the answer `not linearizable`, and line 2 up to the key.
fn calls_of_key(alloc: Global, key: u32) -> Result<Vec<u8>, AllocError>
    ensures { IfOk result (λ text. text.items ≡ calls_of_key key) }
{
    let text = format!(in alloc; "not linearizable\nno order explains the calls of key {key}")?;
    Ok(text.into_bytes())
}

/// Returns the end of line 2 of the answer `not linearizable`. If `moment` (a time in the recording) is given, the line
/// states that no order explains the key's calls up to `moment`, otherwise that no order ends with the key's final
/// state.
fn extent(alloc: Global, moment: Option<u64>) -> Result<Vec<u8>, AllocError>
    ensures { IfOk result (λ text. text.items ≡ extent moment) }
{
    match moment {
        Some(moment) => {
            let text = format!(in alloc; " up to moment {moment}\n")?;
            Ok(text.into_bytes())
        }
        None => Vec::from_slice(alloc, AS_LEFT),
    }
}

/// Returns the first two lines of the answer if no order explains the recording.
fn refused_lines(alloc: Global, refusal: Refusal) -> Result<Vec<u8>, AllocError>
    ensures { IfOk result (λ text. text.items ≡ refused_lines refusal) }
{
    let mut text = calls_of_key(alloc, refusal.key.0)?;
    text.extend_from_slice(&extent(alloc, refusal.moment)?)?;
    Ok(text)
}

/// Returns the lines of a contradiction about a key, or an empty text if `clash` is `None`.
fn clash_text(alloc: Global, key: u32, clash: Option<Clash>) -> Result<Vec<u8>, AllocError>
    ensures { IfOk result (λ text. text.items ≡ clash_text key clash) }
{
    match clash {
        Some(clash) => clash_lines(alloc, key, clash),
        None => Ok(Vec::new(alloc)),
    }
}

/// Returns the whole answer if no order explains the calls: `not linearizable`, the key and the moment (a time in the
/// recording), and the three lines of the contradiction if one was found. Allocates.
fn refused_text(
    alloc: Global,
    refusal: Refusal,
    clash: Option<Clash>,
) -> Result<Vec<u8>, AllocError>
    ensures { IfOk result (λ text. text.items ≡ refused_text refusal clash) }
{
    let mut text = refused_lines(alloc, refusal)?;
    text.extend_from_slice(&clash_text(alloc, refusal.key.0, clash)?)?;
    Ok(text)
}

/// Returns the moment (a time in the recording) at which the second call of a contradiction ended. Returns `None` if
/// the second call is pending, if the contradiction is with the final state, or if there is no contradiction.
fn end_of(clash: Option<Clash>) -> Option<u64> {
    let (end, _) = clash?.second?.ended?;
    Some(end)
}

/// Returns a note for a contradiction whose second call ended after the moment (a time in the recording) up to which
/// the calls have no order. Otherwise returns an empty string.
fn later_note(alloc: Global, refusal: Refusal, clash: Option<Clash>) -> Result<String, AllocError> {
    match (refusal.moment, end_of(clash)) {
        (Some(moment), Some(end)) if moment < end => format!(in alloc;
            "  (the calls up to moment {moment} alone already have no order; this contradiction ends later, and is the first that the judge found)\n"
        ),
        _ => Ok(String::new(alloc)),
    }
}

/// Returns the lines of `refused_text`, followed by the note of `later_note`. Allocates.
pub(crate) fn refusal_text(
    alloc: Global,
    refusal: Refusal,
    clash: Option<Clash>,
) -> Result<Vec<u8>, AllocError>
    ensures { IfOk result (λ text. Begins (refused_text refusal clash) text.items) }
{
    let mut text = refused_text(alloc, refusal, clash)?;
    let note = later_note(alloc, refusal, clash)?.into_bytes();
    text.extend_from_slice(&note)?;
    Ok(text)
}
