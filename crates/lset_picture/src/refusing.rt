//! Finds the facts that prove an error that `check_order` returned.

ghost use Rattle.std.specs.Prelude.{◌≡◌, ◌<◌, length, IfOk, IfSome};

use crate::refusal::Refusal;
use lset_history::{CallRecord, History, Oracle, OrderFault, Placed, check_order};
use std::alloc::{AllocError, Global};

/// Returns the index of the first entry of `call` in the order, at or after the index `from`.
fn place_from(order: &[Placed], from: usize, call: u32) -> Option<usize>
    ensures { IfSome result (λ place. place < length order.now) }
{
    for index in from..order.len() {
        if order[index].call == call {
            return Some(index);
        }
    }
    None
}

fn record_of(history: &History, call: u32) -> Option<CallRecord> {
    history.calls().get(call as usize).copied()
}

/// Returns the sequential set after the calls in `places` were made one after another, from the opening keys on. Skips
/// a call that is not in the history or whose thread does not exist.
fn set_after(alloc: Global, history: &History, places: &[Placed]) -> Result<Oracle, AllocError>
    ensures { IfOk result (λ o. o.threads ≡ history.now.opening.threads) }
{
    let threads = history.threads();
    let mut oracle = Oracle::opened(alloc, threads, history.quota(), history.opening())?;
    for place in places {
        if let Some(record) = record_of(history, place.call)
            && record.thread < threads
        {
            oracle.apply(record.thread, record.call)?;
        }
    }
    Ok(oracle)
}

fn twice(order: &[Placed], call: u32) -> Option<Refusal> {
    let first = place_from(order, 0, call)?;
    let second = place_from(order, first + 1, call)?;
    Some(Refusal::Twice {
        call,
        first: first as u64 + 1,
        second: second as u64 + 1,
    })
}

fn missing(history: &History, call: u32) -> Option<Refusal> {
    let (moment, reply) = record_of(history, call)?.ended?;
    Some(Refusal::Missing {
        call,
        moment,
        reply,
    })
}

/// Finds the first call after `call` in the order that had ended before `call` started, which is a reason to reject the
/// order. Returns `None` if there is no such call.
fn too_early(history: &History, order: &[Placed], call: u32) -> Option<Refusal> {
    let begun = record_of(history, call)?.begun;
    let place = place_from(order, 0, call)?;
    for index in place + 1..order.len() {
        let other = order[index].call;
        if let Some((ended, _)) = record_of(history, other)?.ended
            && ended < begun
        {
            return Some(Refusal::TooEarly {
                call,
                begun,
                other,
                ended,
            });
        }
    }
    None
}

/// Finds the reply that contradicts the reply of `call` in the order: the reply in the history or, if that is the same,
/// the reply of the sequential set. Returns `None` if the order or the history does not contain `call`, or if the
/// thread of `call` does not exist.
fn wrong_reply(
    alloc: Global,
    history: &History,
    order: &[Placed],
    call: u32,
) -> Result<Option<Refusal>, AllocError> {
    let (Some(index), Some(record)) = (place_from(order, 0, call), record_of(history, call)) else {
        return Ok(None);
    };
    let place = index as u64 + 1;
    let says = order[index].reply;
    if let Some((_, ended)) = record.ended
        && ended != says
    {
        return Ok(Some(Refusal::HistoryReply {
            call,
            place,
            says,
            ended,
        }));
    }
    if record.thread >= history.threads() {
        return Ok(None);
    }
    let mut oracle = set_after(alloc, history, &order[..index])?;
    Ok(Some(Refusal::SetReply {
        call,
        place,
        says,
        keys: oracle.keys()?,
        answer: oracle.apply(record.thread, record.call)?,
    }))
}

/// Returns the reason why the order does not explain the history or does not leave the given final keys. Returns `None`
/// if the order explains the history and leaves the keys. Takes about as long as `check_order`. Returns `AllocError` if
/// an allocation fails.
pub(crate) fn why_refused(
    alloc: Global,
    history: &History,
    order: &[Placed],
    keys: &[u32],
) -> Result<Option<Refusal>, AllocError> {
    let Err(fault) = check_order(alloc, history, order, keys) else {
        return Ok(None);
    };
    let (call, told) = match fault {
        OrderFault::Unknown(call) => (call, None),
        OrderFault::Twice(call) => (call, twice(order, call)),
        OrderFault::Missing(call) => (call, missing(history, call)),
        OrderFault::WrongReply(call) => (call, wrong_reply(alloc, history, order, call)?),
        OrderFault::TooEarly(call) => (call, too_early(history, order, call)),
        OrderFault::WrongSet => {
            let left = set_after(alloc, history, order)?.keys()?;
            return Ok(Some(Refusal::WrongSet { left }));
        }
        OrderFault::Memory => return Err(AllocError),
    };
    let calls = history.calls().len() as u32;
    Ok(Some(told.unwrap_or(Refusal::Unknown { call, calls })))
}
