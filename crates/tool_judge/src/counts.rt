use lset_judge::{Count, StreamCall};
use lset_text::{call_word, reply_word};
use lset_words::{Call, Presence};
use std::alloc::{AllocError, Global};

/// The maximum number of calls that are all printed. From a longer list of calls, some are left out.
const NAMED: usize = 4;

/// If the first line of a contradiction has more than `NAMED` calls, how many of them are printed from the start, and
/// how many from the end.
const NAMED_OF_MANY: usize = 2;

/// Writes a call's thread, start and end.
fn put_when(out: &mut String, made: StreamCall) -> Result<(), AllocError> {
    let (thread, begun) = (made.thread, made.begun);
    match made.ended {
        Some((end, _)) => write!(out, "thread {thread}, {begun} to {end}")?,
        None => write!(out, "thread {thread}, from {begun} on")?,
    }
    Ok(())
}

/// Writes a call with its reply, thread, start and end.
fn put_made(out: &mut String, made: StreamCall) -> Result<(), AllocError> {
    let (word, key) = (call_word(made.call), made.call.key().0);
    write!(out, "{word} {key}")?;
    if let Some((_, reply)) = made.ended {
        let reply = reply_word(reply);
        write!(out, " {reply}")?;
    }
    write!(out, " (")?;
    put_when(out, made)?;
    write!(out, ")")?;
    Ok(())
}

/// Writes a comma, except before the first item of a list.
fn put_comma(out: &mut String, is_first: bool) -> Result<(), AllocError> {
    if !is_first {
        write!(out, ", ")?;
    }
    Ok(())
}

fn other(state: Presence) -> Presence {
    match state {
        Presence::Present => Presence::Absent,
        Presence::Absent => Presence::Present,
    }
}

fn state_word(state: Presence) -> &'static str {
    match state {
        Presence::Present => "present",
        Presence::Absent => "absent",
    }
}

/// Returns the operation that brings a key into the state `state`: `add` for present, `remove` for absent.
fn maker(count: &Count, state: Presence) -> Call {
    match state {
        Presence::Present => Call::Add(count.key),
        Presence::Absent => Call::Remove(count.key),
    }
}

/// Writes the calls of a contradiction by counting: the listed calls together need more changes of a key than other
/// calls can make. If the key's first or final state is part of the contradiction, writes that state too. If there are
/// more than `NAMED` calls, writes only the first and last ones, with the number of calls between them.
fn put_calls(out: &mut String, count: &Count) -> Result<(), AllocError> {
    let (key, all) = (count.key.0, count.calls.len());
    let mut is_first = true;
    if count.since.is_none() {
        let state = state_word(count.was);
        write!(out, "key {key} {state} at first")?;
        is_first = false;
    }
    let hidden = if all > NAMED {
        all.saturating_sub(2 * NAMED_OF_MANY)
    } else {
        0
    };
    let behind = NAMED_OF_MANY.saturating_add(hidden);
    let mut place = 0usize;
    for call in &count.calls {
        if hidden > 0 && place == NAMED_OF_MANY {
            let word = call_word(maker(count, count.was));
            write!(out, ", {hidden} more {word} {key} true")?;
        }
        if hidden == 0 || place < NAMED_OF_MANY || place >= behind {
            put_comma(out, is_first)?;
            put_made(out, *call)?;
            is_first = false;
        }
        place = place.saturating_add(1);
    }
    if count.until.is_none() {
        let state = state_word(other(count.was));
        put_comma(out, is_first)?;
        write!(out, "key {key} {state} at the end")?;
    }
    Ok(())
}

/// Writes the line about the changes that the listed calls need, such as `need key 5 to become absent 2 times between
/// 10 and 40,`. The numbers 10 and 40 are moments (times in the recording).
fn put_need(out: &mut String, count: &Count) -> Result<(), AllocError> {
    let (key, state) = (count.key.0, state_word(other(count.was)));
    write!(out, "  need key {key} to become {state}")?;
    match count.turns() {
        0 | 1 => {}
        turns => write!(out, " {turns} times")?,
    }
    match (count.since, count.until) {
        (Some(since), Some(until)) => writeln!(out, " between {since} and {until},")?,
        (None, Some(until)) => writeln!(out, " before {until},")?,
        (Some(since), None) => writeln!(out, " after {since},")?,
        (None, None) => writeln!(out, ",")?,
    }
    Ok(())
}

/// Writes the period in which other calls could change the key back, such as ` overlap 10 to 40`. Writes nothing if the
/// period is the whole recording.
fn put_stretch(out: &mut String, count: &Count, is_one: bool) -> Result<(), AllocError> {
    let s = if is_one { "s" } else { "" };
    match (count.since, count.until) {
        (Some(since), Some(until)) => write!(out, " overlap{s} {since} to {until}")?,
        (None, Some(until)) => write!(out, " begin{s} before {until}")?,
        (Some(since), None) => write!(out, " run{s} after {since}")?,
        (None, None) => {}
    }
    Ok(())
}

/// Writes the line about the calls that could change the key back, such as `and only 1 remove 5 that returned true or
/// is pending overlaps 10 to 40: thread 1, 12 to 20`.
fn put_backs(out: &mut String, count: &Count) -> Result<(), AllocError> {
    let (word, key) = (call_word(maker(count, other(count.was))), count.key.0);
    let all = count.backs.len();
    let is_one = all <= 1;
    let is_bounded = count.since.is_some() || count.until.is_some();
    let that = if is_bounded { "that " } else { "" };
    let is = if is_one { "is" } else { "are" };
    match all {
        0 => write!(out, "  and no {word} {key}")?,
        all => write!(out, "  and only {all} {word} {key}")?,
    }
    write!(out, " {that}returned true or {is} pending")?;
    put_stretch(out, count, is_one)?;
    let mut place = 0usize;
    for call in &count.backs {
        if place < NAMED {
            out.push_str(if place == 0 { ": " } else { "; " })?;
            put_when(out, *call)?;
        }
        place = place.saturating_add(1);
    }
    if all > NAMED {
        let more = all.saturating_sub(NAMED);
        write!(out, "; and {more} more")?;
    }
    writeln!(out)?;
    Ok(())
}

/// Writes the three lines of a contradiction by counting. Line 1 lists the calls that need the key in one state. Line 2
/// states how many times the key must change back between the calls of line 1. Line 3 lists the calls that could have
/// changed the key back. There are too few of these calls. Shortens long lists of calls. Allocates.
pub fn put_count(out: &mut String, count: &Count) -> Result<(), AllocError> {
    write!(out, "contradiction: ")?;
    put_calls(out, count)?;
    writeln!(out)?;
    put_need(out, count)?;
    put_backs(out, count)
}

/// Returns `text`, preceded by the lines of the contradiction `count` if `count` is not `None`. Allocates.
pub fn with_count(alloc: Global, count: &Option<Count>, text: &str) -> Result<String, AllocError> {
    let mut out = String::new(alloc);
    if let Some(count) = count {
        put_count(&mut out, count)?;
    }
    out.push_str(text)?;
    Ok(out)
}
