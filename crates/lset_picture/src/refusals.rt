//! Writes the reason why an order is rejected.
use crate::drawn_sets::put_set;
use crate::picture::Picture;
use crate::refusal::Refusal;
use lset_text::reply_word;
use lset_words::Reply;
use std::alloc::AllocError;

/// Writes which entries of the order precede entry `place`, such as `after places 1 and 2`. Entries are counted from 1.
fn put_places_before(out: &mut String, place: u64) -> Result<(), AllocError> {
    match place {
        0 | 1 => out.push_str("at first"),
        2 => out.push_str("after place 1"),
        3 => out.push_str("after places 1 and 2"),
        _ => {
            let last = place - 1;
            write!(out, "after places 1 to {last}")
        }
    }
}

fn put_unknown(out: &mut String, call: u32, calls: u32) -> Result<(), AllocError> {
    write!(out, "Unknown {call}: the history has ")?;
    match calls.checked_sub(1) {
        None => out.push_str("no calls"),
        Some(last) => write!(out, "calls 0 to {last}"),
    }
}

/// Writes the start of the reason for a wrong reply, such as `WrongReply 2: place 3 says true, and `.
fn put_says(out: &mut String, call: u32, place: u64, says: Reply) -> Result<(), AllocError> {
    let word = reply_word(says);
    write!(out, "WrongReply {call}: place {place} says {word}, and ")
}

fn put_set_answers(
    out: &mut String,
    place: u64,
    keys: &[u32],
    answer: Reply,
) -> Result<(), AllocError> {
    put_places_before(out, place)?;
    out.push_str(" the set is ")?;
    put_set(out, keys)?;
    let word = reply_word(answer);
    write!(out, " and answers {word}")
}

fn put_sets(out: &mut String, left: &[u32], keys: &[u32]) -> Result<(), AllocError> {
    out.push_str("WrongSet: the order leaves ")?;
    put_set(out, left)?;
    out.push_str(", and the keys are ")?;
    put_set(out, keys)
}

fn put_reason(out: &mut String, refusal: &Refusal, told: &[u32]) -> Result<(), AllocError> {
    match refusal {
        Refusal::Unknown { call, calls } => put_unknown(out, *call, *calls),
        Refusal::Twice {
            call,
            first,
            second,
        } => { write!(out, "Twice {call}: it is at places {first} and {second}") }
        Refusal::Missing {
            call,
            moment,
            reply,
        } => {
            let word = reply_word(*reply);
            write!(
                out,
                "Missing {call}: it ended at {moment} with {word} and has no place"
            )
        }
        Refusal::HistoryReply {
            call,
            place,
            says,
            ended,
        } => {
            put_says(out, *call, *place, *says)?;
            let word = reply_word(*ended);
            write!(out, "the history says {word}")
        }
        Refusal::SetReply {
            call,
            place,
            says,
            keys,
            answer,
        } => {
            put_says(out, *call, *place, *says)?;
            put_set_answers(out, *place, keys, *answer)
        }
        Refusal::TooEarly {
            call,
            begun,
            other,
            ended,
        } => write!(
            out,
            "TooEarly {call}: it begins at {begun} and is ordered before call {other}, which ended at {ended}"
        ),
        Refusal::WrongSet { left } => put_sets(out, left, told),
    }
}

/// If the order of a picture is rejected, appends a line with the reason.
pub(crate) fn put_refusal(out: &mut String, picture: &Picture) -> Result<(), AllocError> {
    if let Some(refusal) = &picture.refusal {
        out.push_str("refused ")?;
        put_reason(out, refusal, &picture.keys)?;
        out.push_str("\n")?;
    }
    Ok(())
}
