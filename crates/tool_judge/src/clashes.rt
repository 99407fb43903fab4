//! Writes the lines that describe a contradiction between two calls on a key, or between a call and the key's first or
//! final state. A moment is a time in the recording.

ghost use Rattle.std.specs.Prelude.{◌≡◌, IfOk};
ghost use Rattle.tool_judge.specs.Clashes as lines;

use lset_judge::{Clash, StreamCall};
use lset_text::{call_word, reply_word};
use lset_words::{Call, Presence, Reply};
use std::alloc::{AllocError, Global};

/// Writes a call as a line of a recording. Allocates.
pub fn put_call(out: &mut String, made: StreamCall) -> Result<(), AllocError> {
    let StreamCall {
        thread,
        call,
        begun,
        ended,
    } = made;
    let word = call_word(call);
    let key = call.key().0;
    match ended {
        Some((end, reply)) => {
            let reply = reply_word(reply);
            writeln!(out, "call {thread} {word} {key} {begun} {end} {reply}")?;
        }
        None => writeln!(out, "call {thread} {word} {key} {begun} - -")?,
    }
    Ok(())
}

fn other(there: Presence) -> Presence
    ensures { result ≡ lines.other there }
{
    match there {
        Presence::Present => Presence::Absent,
        Presence::Absent => Presence::Present,
    }
}

/// Returns `true` if a completed call changed its key.
fn is_change(made: StreamCall) -> bool
    ensures { result ≡ lines.is_change made.call made.ended }
{
    matches!(
        (made.call, made.ended),
        (Call::Add(_) | Call::Remove(_), Some((_, Reply::True)))
    )
}

/// Returns the state (present or absent) that a call needs its key to have. `leaves` is the state after the call. A
/// call that changes the key needs the opposite of `leaves`; any other call needs `leaves` itself.
fn need_of(changes: bool, leaves: Presence) -> Presence
    ensures { result ≡ lines.need_of changes leaves }
{
    if changes { other(leaves) } else { leaves }
}

/// Returns the moment at which a call ended or, if the call is pending, the moment at which it began.
fn end_of(made: StreamCall) -> u64
    ensures { result ≡ lines.end_of made.begun made.ended }
{
    match made.ended {
        Some((end, _)) => end,
        None => made.begun,
    }
}

/// Returns `true` if the second call starts at or before the end of the first, or if the first call is pending.
fn overlap(first: StreamCall, second: StreamCall) -> bool
    ensures { result ≡ lines.overlap first.ended second.begun }
{
    match first.ended {
        Some((end, _)) => second.begun <= end,
        None => true,
    }
}

fn thread_text(alloc: Global, thread: u32) -> Result<Vec<u8>, AllocError>
    ensures { IfOk result (λ text. text.items ≡ lines.thread_text thread) }
{
    let text = format!(in alloc; "thread {thread} ")?;
    Ok(text.into_bytes())
}

fn key_text(alloc: Global, key: u32) -> Result<Vec<u8>, AllocError>
    ensures { IfOk result (λ text. text.items ≡ lines.key_text key) }
{
    let text = format!(in alloc; " {key}")?;
    Ok(text.into_bytes())
}

fn reply_text(alloc: Global, reply: Reply) -> Result<Vec<u8>, AllocError>
    ensures { IfOk result (λ text. text.items ≡ lines.reply_text reply) }
{
    let reply = reply_word(reply);
    let text = format!(in alloc; "{reply}")?;
    Ok(text.into_bytes())
}

fn between(alloc: Global, from: u64, to: u64) -> Result<Vec<u8>, AllocError>
    ensures { IfOk result (λ text. text.items ≡ lines.between from to) }
{
    let text = format!(in alloc; "{from} to {to}")?;
    Ok(text.into_bytes())
}

/// Returns a call's reply, start and end as text.
fn end_text(alloc: Global, begun: u64, ended: Option<(u64, Reply)>) -> Result<Vec<u8>, AllocError>
    ensures { IfOk result (λ text. text.items ≡ lines.end_text begun ended) }
{
    match ended {
        None => {
            let text = format!(in alloc; ", pending since {begun}, ")?;
            Ok(text.into_bytes())
        }
        Some((end, reply)) => {
            let mut text = Vec::from_slice(alloc, b" ")?;
            text.extend_from_slice(&reply_text(alloc, reply)?)?;
            text.extend_from_slice(b", ")?;
            text.extend_from_slice(&between(alloc, begun, end)?)?;
            text.extend_from_slice(b", ")?;
            Ok(text)
        }
    }
}

/// Returns a call as text: its thread, operation, key, reply, start and end.
#[tactic(auto, unfolding(crate::specs::Clashes::made_text))]
fn call_text(alloc: Global, made: StreamCall) -> Result<Vec<u8>, AllocError>
    ensures { IfOk result (λ text. text.items ≡ lines.made_text made) }
{
    let mut text = thread_text(alloc, made.thread)?;
    text.extend_from_slice(call_word(made.call).as_bytes())?;
    text.extend_from_slice(&key_text(alloc, made.call.key().0)?)?;
    text.extend_from_slice(&end_text(alloc, made.begun, made.ended)?)?;
    Ok(text)
}

/// Returns the end of line 1 of a contradiction: the state (present or absent) in which the first call leaves the key.
fn leaves_text(alloc: Global, key: u32, was: Presence) -> Result<Vec<u8>, AllocError>
    ensures { IfOk result (λ text. text.items ≡ lines.leaves_text key was) }
{
    match was {
        Presence::Present => {
            let text = format!(in alloc; "leaves key {key} present,\n")?;
            Ok(text.into_bytes())
        }
        Presence::Absent => {
            let text = format!(in alloc; "leaves key {key} absent,\n")?;
            Ok(text.into_bytes())
        }
    }
}

/// Returns the end of line 2 of a contradiction: the state (present or absent) that the second call needs the key to
/// have.
fn needs_text(alloc: Global, key: u32, need: Presence) -> Result<Vec<u8>, AllocError>
    ensures { IfOk result (λ text. text.items ≡ lines.needs_text key need) }
{
    match need {
        Presence::Present => {
            let text = format!(in alloc; "needs key {key} present,\n")?;
            Ok(text.into_bytes())
        }
        Presence::Absent => {
            let text = format!(in alloc; "needs key {key} absent,\n")?;
            Ok(text.into_bytes())
        }
    }
}

/// Returns line 1 of a contradiction with the opening state: the key's state before the first call.
fn opening_text(alloc: Global, key: u32, was: Presence) -> Result<Vec<u8>, AllocError>
    ensures { IfOk result (λ text. text.items ≡ lines.opening_text key was) }
{
    match was {
        Presence::Present => {
            let text = format!(in alloc; "contradiction: key {key} is present at first,\n")?;
            Ok(text.into_bytes())
        }
        Presence::Absent => {
            let text = format!(in alloc; "contradiction: key {key} is absent at first,\n")?;
            Ok(text.into_bytes())
        }
    }
}

/// Returns line 2 of a contradiction with the final state: the key's state after the last call.
fn final_text(alloc: Global, key: u32, need: Presence) -> Result<Vec<u8>, AllocError>
    ensures { IfOk result (λ text. text.items ≡ lines.final_text key need) }
{
    match need {
        Presence::Present => {
            let text = format!(in alloc; "  key {key} is present at the end,\n")?;
            Ok(text.into_bytes())
        }
        Presence::Absent => {
            let text = format!(in alloc; "  key {key} is absent at the end,\n")?;
            Ok(text.into_bytes())
        }
    }
}

/// Returns line 1 of a contradiction: the first call, and the state in which it leaves the key. If `first` is `None`,
/// the line states the key's opening state instead.
fn first_line(
    alloc: Global,
    key: u32,
    was: Presence,
    first: Option<StreamCall>,
) -> Result<Vec<u8>, AllocError>
    ensures { IfOk result (λ text. text.items ≡ lines.first_line key was first) }
{
    match first {
        None => opening_text(alloc, key, was),
        Some(call) => {
            let mut text = Vec::from_slice(alloc, b"contradiction: ")?;
            text.extend_from_slice(&call_text(alloc, call)?)?;
            text.extend_from_slice(&leaves_text(alloc, key, was)?)?;
            Ok(text)
        }
    }
}

/// Returns line 2 of a contradiction: the second call, and the state that it needs the key to have. If `second` is
/// `None`, the line states the key's final state instead.
fn second_line(
    alloc: Global,
    key: u32,
    need: Presence,
    second: Option<StreamCall>,
) -> Result<Vec<u8>, AllocError>
    ensures { IfOk result (λ text. text.items ≡ lines.second_line key need second) }
{
    match second {
        None => final_text(alloc, key, need),
        Some(call) => {
            let mut text = Vec::from_slice(alloc, b"  ")?;
            text.extend_from_slice(&call_text(alloc, call)?)?;
            text.extend_from_slice(&needs_text(alloc, key, need)?)?;
            Ok(text)
        }
    }
}

/// Returns the start of line 3 of a contradiction: `and no add K` if a call would have to make the key present, or `and
/// no remove K` if a call would have to make it absent.
fn no_change(alloc: Global, key: u32, need: Presence) -> Result<Vec<u8>, AllocError>
    ensures { IfOk result (λ text. text.items ≡ lines.no_change key need) }
{
    match need {
        Presence::Present => {
            let text = format!(in alloc; "  and no add {key} ")?;
            Ok(text.into_bytes())
        }
        Presence::Absent => {
            let text = format!(in alloc; "  and no remove {key} ")?;
            Ok(text.into_bytes())
        }
    }
}

fn overlaps_text(alloc: Global, from: u64, to: u64) -> Result<Vec<u8>, AllocError>
    ensures { IfOk result (λ text. text.items ≡ lines.overlaps_text from to) }
{
    let mut text = Vec::from_slice(alloc, b"that returned true or is pending overlaps ")?;
    text.extend_from_slice(&between(alloc, from, to)?)?;
    text.extend_from_slice(b"\n")?;
    Ok(text)
}

fn begins_text(alloc: Global, to: u64) -> Result<Vec<u8>, AllocError>
    ensures { IfOk result (λ text. text.items ≡ lines.begins_text to) }
{
    let text = format!(in alloc; "that returned true or is pending begins before {to}\n")?;
    Ok(text.into_bytes())
}

fn ends_text(alloc: Global, from: u64) -> Result<Vec<u8>, AllocError>
    ensures { IfOk result (λ text. text.items ≡ lines.ends_text from) }
{
    let text = format!(in alloc; "that returned true ends after {from}, and none is pending\n")?;
    Ok(text.into_bytes())
}

/// Returns the end of line 3 of a contradiction: in which period no call changes the key. Without a first call, the
/// period starts with the recording; without a second call, it lasts until the recording ends.
fn time_text(
    alloc: Global,
    first: Option<StreamCall>,
    second: Option<StreamCall>,
) -> Result<Vec<u8>, AllocError>
    ensures { IfOk result (λ text. text.items ≡ lines.time_text first second) }
{
    match (first, second) {
        (Some(first), Some(second)) => overlaps_text(alloc, first.begun, end_of(second)),
        (None, Some(second)) => begins_text(alloc, end_of(second)),
        (Some(first), None) => ends_text(alloc, first.begun),
        (None, None) => Vec::from_slice(alloc, b"returned true or is pending\n"),
    }
}

/// Returns line 3 of a contradiction: no call brings the key into the state `need` between the two calls.
fn third_line(
    alloc: Global,
    key: u32,
    need: Presence,
    first: Option<StreamCall>,
    second: Option<StreamCall>,
) -> Result<Vec<u8>, AllocError>
    ensures { IfOk result (λ text. text.items ≡ lines.third_line key need first second) }
{
    let mut text = no_change(alloc, key, need)?;
    text.extend_from_slice(&time_text(alloc, first, second)?)?;
    Ok(text)
}

/// Returns the three lines of a contradiction between two calls that do not overlap, or between a call and the key's
/// first or final state.
fn lines_in_order(
    alloc: Global,
    key: u32,
    was: Presence,
    first: Option<StreamCall>,
    second: Option<StreamCall>,
) -> Result<Vec<u8>, AllocError>
    ensures { IfOk result (λ text. text.items ≡ lines.lines_in_order key was first second) }
{
    let need = other(was);
    let mut text = first_line(alloc, key, was, first)?;
    text.extend_from_slice(&second_line(alloc, key, need, second)?)?;
    text.extend_from_slice(&third_line(alloc, key, need, first, second)?)?;
    Ok(text)
}

fn state_text(alloc: Global, there: Presence) -> Result<Vec<u8>, AllocError>
    ensures { IfOk result (λ text. text.items ≡ lines.state_word there) }
{
    match there {
        Presence::Present => Vec::from_slice(alloc, b"present"),
        Presence::Absent => Vec::from_slice(alloc, b"absent"),
    }
}

fn needs_key(alloc: Global, key: u32) -> Result<Vec<u8>, AllocError>
    ensures { IfOk result (λ text. text.items ≡ lines.needs_key key) }
{
    let text = format!(in alloc; "needs key {key} ")?;
    Ok(text.into_bytes())
}

/// Returns the words for the state of the key that a call needs, and for the state in which the call leaves the key.
#[tactic(auto, unfolding(crate::specs::Clashes::needs_and_leaves))]
fn needs_and_leaves(
    alloc: Global,
    key: u32,
    need: Presence,
    leaves: Presence,
) -> Result<Vec<u8>, AllocError>
    ensures { IfOk result (λ text. text.items ≡ lines.needs_and_leaves key need leaves) }
{
    let mut text = needs_key(alloc, key)?;
    text.extend_from_slice(&state_text(alloc, need)?)?;
    text.extend_from_slice(b" and leaves it ")?;
    text.extend_from_slice(&state_text(alloc, leaves)?)?;
    text.extend_from_slice(b",\n")?;
    Ok(text)
}

/// Returns `, and no such add overlaps ` if a call would have to make the key present, otherwise `, and no such remove
/// overlaps `.
fn nor_text(alloc: Global, need: Presence) -> Result<Vec<u8>, AllocError>
    ensures { IfOk result (λ text. text.items ≡ lines.nor_text need) }
{
    match need {
        Presence::Present => Vec::from_slice(alloc, b", and no such add overlaps "),
        Presence::Absent => Vec::from_slice(alloc, b", and no such remove overlaps "),
    }
}

/// Returns a part of line 3 of a contradiction: `and no add K that returned true or is pending overlaps FROM to TO`,
/// with `remove` if `need` is absent. It is for the case that the first of two overlapping calls takes effect first.
#[tactic(auto, unfolding(crate::specs::Clashes::turned_there))]
fn turned_there(
    alloc: Global,
    key: u32,
    need: Presence,
    from: u64,
    to: u64,
) -> Result<Vec<u8>, AllocError>
    ensures { IfOk result (λ text. text.items ≡ lines.turned_there key need from to) }
{
    let mut text = no_change(alloc, key, need)?;
    text.extend_from_slice(b"that returned true or is pending overlaps ")?;
    text.extend_from_slice(&between(alloc, from, to)?)?;
    Ok(text)
}

/// Returns a part of line 3 of a contradiction: `, and no such add overlaps FROM to TO`, with `remove` if `back` is
/// absent. It is for the case that the second of two overlapping calls takes effect first.
#[tactic(auto, unfolding(crate::specs::Clashes::turned_back))]
fn turned_back(alloc: Global, back: Presence, from: u64, to: u64) -> Result<Vec<u8>, AllocError>
    ensures { IfOk result (λ text. text.items ≡ lines.turned_back back from to) }
{
    let mut text = nor_text(alloc, back)?;
    text.extend_from_slice(&between(alloc, from, to)?)?;
    text.extend_from_slice(b"\n")?;
    Ok(text)
}

#[tactic(auto, unfolding(crate::specs::Clashes::turned_first))]
fn turned_first(
    alloc: Global,
    key: u32,
    need: Presence,
    was: Presence,
    call: StreamCall,
) -> Result<Vec<u8>, AllocError>
    ensures { IfOk result (λ text. text.items ≡ lines.turned_first key need was call) }
{
    let mut text = Vec::from_slice(alloc, b"contradiction in both orders: ")?;
    text.extend_from_slice(&call_text(alloc, call)?)?;
    text.extend_from_slice(&needs_and_leaves(alloc, key, need, was)?)?;
    Ok(text)
}

#[tactic(auto, unfolding(crate::specs::Clashes::turned_second))]
fn turned_second(
    alloc: Global,
    key: u32,
    need: Presence,
    left: Presence,
    call: StreamCall,
) -> Result<Vec<u8>, AllocError>
    ensures { IfOk result (λ text. text.items ≡ lines.turned_second key need left call) }
{
    let mut text = Vec::from_slice(alloc, b"  ")?;
    text.extend_from_slice(&call_text(alloc, call)?)?;
    text.extend_from_slice(&needs_and_leaves(alloc, key, need, left)?)?;
    Ok(text)
}

/// Returns the three lines of a contradiction between two overlapping calls. Whichever call takes effect first leaves
/// the key in a state that the other does not accept, and no call can change the state in between.
fn lines_turned(
    alloc: Global,
    key: u32,
    was: Presence,
    first: StreamCall,
    second: StreamCall,
) -> Result<Vec<u8>, AllocError>
    ensures { IfOk result (λ text. text.items ≡ lines.lines_turned key was first second) }
{
    let back = need_of(is_change(first), was);
    let need = other(was);
    let left = need_of(is_change(second), need);
    let mut text = turned_first(alloc, key, back, was, first)?;
    text.extend_from_slice(&turned_second(alloc, key, need, left, second)?)?;
    let there = turned_there(alloc, key, need, first.begun, end_of(second))?;
    text.extend_from_slice(&there)?;
    text.extend_from_slice(&turned_back(alloc, back, second.begun, end_of(first))?)?;
    Ok(text)
}

/// Returns the three lines that describe a contradiction about a key.
pub(crate) fn clash_lines(alloc: Global, key: u32, clash: Clash) -> Result<Vec<u8>, AllocError>
    ensures { IfOk result (λ text. text.items ≡ lines.clash_lines key clash) }
{
    match (clash.first, clash.second) {
        (Some(first), Some(second)) if overlap(first, second) => {
            lines_turned(alloc, key, clash.was, first, second)
        }
        (first, second) => lines_in_order(alloc, key, clash.was, first, second),
    }
}
