use crate::texts::refusal_text;
use lset_history::History;
use lset_judge::{Clash, Judged, Refusal, StreamCall, is_judged, judge};
use lset_picture::Picture;
use lset_text::{call_word, reply_word};
use lset_words::{Call, CallRecord, Reply, increases};
use std::alloc::{AllocError, Global};
use tool_base::{Answer, Input, Tool, Trouble};
use tool_show::{Form, Show};

const EXPLAINED: &[u8] = b"another order explains this report\n";

const UNKNOWN: &[u8] = b"it is not known whether another order explains this report\n";

const NOT_INCREASING: &[u8] =
    b"not linearizable\nno order leaves these keys, which do not increase\n";

/// A statement about all orders of a report's calls, not only about the order in that report.
#[derive(Drop)]
pub enum Claim {
    /// No order ends with the report's final keys, because the final keys are not in increasing order.
    NotIncreasing,
    /// No order explains a call, because no set can return the reply that the call has. Contains the call's number, the
    /// call and the reply.
    NoSuchReply(u32, Call, Reply),
    /// No order explains the calls and ends with the final keys. Contains the reason and, if found, two contradicting
    /// calls.
    NotLinearizable(Refusal, Option<Clash>),
    /// Some order explains the calls and ends with the final keys.
    Explained,
    /// It is unknown whether some order explains the calls: the judge does not decide calls of `ceiling` and does not
    /// check quotas.
    Unknown,
}

/// Returns `true` if a set can return `reply` to `call`.
fn is_reply_to(call: Call, reply: Reply) -> bool {
    match call {
        Call::Add(_) => matches!(reply, Reply::True | Reply::False | Reply::Full),
        Call::Remove(_) | Call::Contains(_) => matches!(reply, Reply::True | Reply::False),
        Call::Ceiling(key) => match reply {
            Reply::At(found) => key.0 <= found.0,
            Reply::Nothing => true,
            _ => false,
        },
    }
}

/// Finds the first completed call with a reply that no set can return.
fn no_such_reply(calls: &[CallRecord]) -> Option<Claim> {
    for (number, made) in calls.iter().enumerate() {
        if let Some((_, reply)) = made.ended
            && !is_reply_to(made.call, reply)
        {
            let number = u32::try_from(number).unwrap_or(u32::MAX);
            return Some(Claim::NoSuchReply(number, made.call, reply));
        }
    }
    None
}

/// Returns the call of the history that corresponds to `read`, a call in the form in which the judge read it. (The
/// judge reads a `ceiling`, or an `add` that returned full, as a `contains`.)
fn recorded_call(history: &History, read: StreamCall) -> StreamCall {
    let calls = history.calls();
    let place = calls.partition_point(|made| u64::from(made.begun) < read.begun);
    match calls.get(place) {
        None => read,
        Some(made) => StreamCall {
            thread: made.thread,
            call: made.call,
            begun: u64::from(made.begun),
            ended: made.ended.map(|(end, reply)| (u64::from(end), reply)),
        },
    }
}

/// Replaces the calls in a contradiction with the corresponding calls of the history.
fn as_made(history: &History, clash: Clash) -> Clash {
    Clash {
        was: clash.was,
        first: clash.first.map(|call| recorded_call(history, call)),
        second: clash.second.map(|call| recorded_call(history, call)),
    }
}

/// Decides whether some order of a picture's calls explains them and ends with the final keys. Allocates.
pub fn claim_on(alloc: Global, picture: &Picture) -> Result<Claim, AllocError> {
    if !increases(&picture.keys) {
        return Ok(Claim::NotIncreasing);
    }
    let history = &picture.history;
    if let Some(claim) = no_such_reply(history.calls()) {
        return Ok(claim);
    }
    match judge(alloc, history, &picture.keys)? {
        Judged::NotLinearizable(refusal, clash) => {
            let made = clash.map(|clash| as_made(history, clash));
            Ok(Claim::NotLinearizable(refusal, made))
        }
        Judged::Linearizable if is_judged(history) => Ok(Claim::Explained),
        Judged::Linearizable | Judged::Undecided => Ok(Claim::Unknown),
    }
}

/// Returns the lines about a call with a reply that no set can return.
fn no_such_reply_text(
    alloc: Global,
    number: u32,
    call: Call,
    reply: Reply,
) -> Result<Vec<u8>, AllocError> {
    let (word, key, reply) = (call_word(call), call.key().0, reply_word(reply));
    let text = format!(in alloc;
        "not linearizable\nno order explains call {number}: {word} {key} never returns {reply}\n"
    )?;
    Ok(text.into_bytes())
}

/// Returns the lines below a picture, which state whether some order explains the picture's calls.
fn claim_text(alloc: Global, picture: &Picture) -> Result<Vec<u8>, AllocError> {
    match claim_on(alloc, picture)? {
        Claim::NotIncreasing => Vec::from_slice(alloc, NOT_INCREASING),
        Claim::NoSuchReply(number, call, reply) => {
            no_such_reply_text(alloc, number, call, reply)
        }
        Claim::NotLinearizable(refusal, clash) => refusal_text(alloc, refusal, clash),
        Claim::Explained => Vec::from_slice(alloc, EXPLAINED),
        Claim::Unknown => Vec::from_slice(alloc, UNKNOWN),
    }
}

/// The command `show`. The answer is the picture of a schedule or a report, limited to a range of moments. The exit
/// status is 1 if the report's order is refused or an event of the schedule is not enabled, otherwise 0. A schedule is
/// drawn up to the first event that is not enabled.
///
/// If the order is refused and the picture is text, an empty line and a statement follow the picture: whether some
/// other order explains the report and ends with its final keys. If no order does, the lines of `judge` follow. For a
/// report with `ceiling` or `full`, it can be unknown whether another order explains the calls.
///
/// The command fails as `Show::picture` does, with `Bad(From)` if the range of moments begins after everything in the
/// picture, and with `Memory` if an allocation fails.
#[derive(Clone, Copy)]
pub struct ShowJudged {
    pub show: Show,
}

impl Tool for ShowJudged {
    fn answer(&self, alloc: Global, input: Input<'_>) -> Result<Answer, Trouble> {
        let picture = self.show.picture(alloc, input.bytes())?;
        let mut answer = self.show.draw(alloc, &picture)?;
        if picture.refusal.is_some() && matches!(self.show.form, Form::Text(_)) {
            answer.text.extend_from_slice(b"\n")?;
            answer
                .text
                .extend_from_slice(&claim_text(alloc, &picture)?)?;
        }
        Ok(answer)
    }
}
