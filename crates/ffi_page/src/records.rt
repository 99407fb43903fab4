//! Writes verdicts as records for a program to read. Each line of a record consists of a name and values.

use lset_judge::{Clash, Refusal, StreamCall, Verdict};
use lset_picture::{Refusal as OrderRefusal, picture_of_report};
use lset_recording::{RecordingAnswer, RecordingReader};
use lset_report::read_report;
use lset_text::reply_word;
use lset_words::Presence;
use std::alloc::{AllocError, Global};
use tool_base::{Answer, Input, Trouble};
use tool_judge::{Claim, claim_on, put_call};

/// Writes the line of one of the two calls that contradict each other; `side` is `first` or `second`. Writes nothing if
/// `made` is `None`: the key's state at the start or at the end then takes the place of the call.
fn put_side(out: &mut String, side: &str, made: Option<StreamCall>) -> Result<(), AllocError> {
    let Some(call) = made else {
        return Ok(());
    };
    write!(out, "{side} ")?;
    put_call(out, call)
}

/// Writes the lines of a contradiction between two calls: whether the first call (or, without one, the key's state at
/// the start) leaves the key present, and the two calls.
fn put_clash(out: &mut String, clash: Clash) -> Result<(), AllocError> {
    let was = clash.was == Presence::Present;
    writeln!(out, "clash {was}")?;
    put_side(out, "first", clash.first)?;
    put_side(out, "second", clash.second)
}

/// Writes the lines of the verdict that no order explains the calls: the key; the moment by which the calls on the key
/// already have no order, if `refusal` has one; and the contradiction, if one was found.
fn put_none(out: &mut String, refusal: Refusal, clash: Option<Clash>) -> Result<(), AllocError> {
    let key = refusal.key.0;
    writeln!(out, "verdict none\nkey {key}")?;
    if let Some(moment) = refusal.moment {
        writeln!(out, "moment {moment}")?;
    }
    match clash {
        Some(clash) => put_clash(out, clash),
        None => Ok(()),
    }
}

/// Writes the line `set K ..` with the keys of a set.
fn put_set(out: &mut String, keys: &[u32]) -> Result<(), AllocError> {
    out.push_str("set")?;
    for key in keys {
        write!(out, " {key}")?;
    }
    out.push_str("\n")
}

/// Writes the first error of a report's order. For `SetReply` and `WrongSet`, also writes the keys of the set at that
/// point of the order.
fn put_order(out: &mut String, refusal: &OrderRefusal) -> Result<(), AllocError> {
    match refusal {
        OrderRefusal::Unknown { call, .. } => writeln!(out, "order Unknown {call}"),
        OrderRefusal::Twice { call, .. } => writeln!(out, "order Twice {call}"),
        OrderRefusal::Missing { call, .. } => writeln!(out, "order Missing {call}"),
        OrderRefusal::HistoryReply { call, says, .. } => {
            let says = reply_word(*says);
            writeln!(out, "order HistoryReply {call} {says}")
        }
        OrderRefusal::SetReply {
            call,
            place,
            says,
            keys,
            answer,
        } => {
            let (says, answer) = (reply_word(*says), reply_word(*answer));
            writeln!(out, "order SetReply {call} {says} {place} {answer}")?;
            put_set(out, keys)
        }
        OrderRefusal::TooEarly {
            call,
            begun,
            other,
            ended,
        } => writeln!(out, "order TooEarly {call} {begun} {other} {ended}"),
        OrderRefusal::WrongSet { left } => {
            out.push_str("order WrongSet\n")?;
            put_set(out, left)
        }
    }
}

/// Writes whether some order other than the one in the report explains the report's calls.
fn put_claim(out: &mut String, claim: Claim) -> Result<(), AllocError> {
    match claim {
        Claim::NotIncreasing => out.push_str("verdict none\n"),
        Claim::NoSuchReply(number, _, _) => writeln!(out, "verdict none\nreply {number}"),
        Claim::NotLinearizable(refusal, clash) => put_none(out, refusal, clash),
        Claim::Explained => out.push_str("verdict another\n"),
        Claim::Unknown => out.push_str("verdict unknown\n"),
    }
}

/// Judges a recording and returns the verdict as a record. Returns the errors of `judge_bytes`.
pub fn judge_recording(alloc: Global, text: &[u8]) -> Result<Answer, Trouble> {
    let mut reader = RecordingReader::new(alloc);
    reader.feed(text)?;
    let RecordingAnswer {
        verdict,
        calls,
        overlapped,
        cut_off,
    } = reader.finish()?;
    let mut out = String::new(alloc);
    let status = match verdict {
        Verdict::Linearizable => {
            writeln!(
                out,
                "verdict ok\ncalls {calls}\noverlapped {overlapped}\ncut {cut_off}"
            )?;
            0
        }
        Verdict::NotLinearizable(refusal, clash) => {
            put_none(&mut out, refusal, clash)?;
            1
        }
    };
    Ok(Answer {
        text: out.into_bytes(),
        status,
    })
}

/// Checks a report and returns a record. If the report's order explains the calls, the record is `verdict own`.
/// Otherwise the record contains the order's first error, and states whether another order explains the calls. Returns
/// the errors of the command `check`.
pub fn judge_report(alloc: Global, text: &[u8]) -> Result<Answer, Trouble> {
    let input = Input::new(text)?;
    let report = read_report(alloc, input.bytes())?;
    let picture = picture_of_report(alloc, report)?;
    let mut out = String::new(alloc);
    let status = match &picture.refusal {
        None => {
            out.push_str("verdict own\n")?;
            0
        }
        Some(refusal) => {
            put_order(&mut out, refusal)?;
            put_claim(&mut out, claim_on(alloc, &picture)?)?;
            1
        }
    };
    Ok(Answer {
        text: out.into_bytes(),
        status,
    })
}
