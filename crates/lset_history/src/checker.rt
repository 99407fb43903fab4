ghost use Rattle.std.specs.Prelude.{◌≡◌, ◌≢◌, ◌<◌, ◌^◌, Bool, false, IfOk, OnOk, IfErr, OnErr, MatchOption, MatchBool, IsSomeAnd, IsTrue, ◌↔◌, length, All};
ghost use Rattle.lset_words.specs.declared.history.CallRecord.{CallRecord};
ghost use Rattle.lset_words.specs.declared.history.Placed.{Placed};
ghost use Rattle.lset_history.specs.Faults.{Explains, IsFault, Passes, RefusesFirst, IsUnknown, IsTwice, HasWrongReply, IsTooEarly};
ghost use Rattle.lset_history.specs.Checks.{HasKnownCalls, MarksCalls, LeavesNoneOut, LeavesOutFirst, HasReply, HasOtherReply, after_reply, HasReplies, PutsInSome, after_order, smallest_with};
ghost use Rattle.lset_history.specs.Oracle.{PutsIn};
ghost use Rattle.lset_history.specs.declared.fault.OrderFault.TheVariants.{Memory};

use crate::{History, Oracle, OrderFault};
use lset_words::{CallRecord, Placed, Reply};
use std::alloc::{AllocError, Global};

/// Returns the number of the first call in the order that is not in the history, or `None` if all are.
fn first_unknown(calls: &[CallRecord], order: &[Placed]) -> Option<u32>
    ensures { MatchOption result
        (HasKnownCalls calls.now order.now)
        (RefusesFirst (IsUnknown calls.now order.now) order.now) }
{
    for place in order {
        if place.call as usize >= calls.len() {
            return Some(place.call);
        }
    }
    None
}

/// Returns the number of the first call that occurs a second time in the order, or `None`. `placed` must have one mark
/// for each call of the history, all false. If the result is `None`, exactly the marks of the calls in the order are
/// then true.
fn first_twice(order: &[Placed], placed: &mut [bool]) -> Option<u32>
    requires known { All (λ (p : Placed). p.call < length placed.old) order.now }
    requires none_set { All (λ (mark : Bool). mark ≡ false) placed.old }
    ensures once { MatchOption result
        (Passes (IsTwice order.now) order.now)
        (RefusesFirst (IsTwice order.now) order.now) }
    ensures marks { MatchOption result (MarksCalls placed.new order.now) (λ _. Unit {0}) }
    ensures length { length placed.new ≡ length placed.old }
{
    for place in order {
        if placed[place.call as usize] {
            return Some(place.call);
        }
        placed[place.call as usize] = true;
    }
    None
}

/// Returns the smallest number of a completed call that is not in the order, or `None`. `placed` has one mark for each
/// call of the history: true if the call is in the order.
fn first_missing(calls: &[CallRecord], placed: &[bool]) -> Option<u32>
    requires few { length calls.now < 2 ^ 32 }
    requires each { length placed.now ≡ length calls.now }
    ensures { MatchOption result
        (LeavesNoneOut calls.now placed.now)
        (LeavesOutFirst calls.now placed.now) }
{
    for (index, record) in calls.iter().enumerate() {
        if record.ended.is_some() && !placed[index] {
            return Some(index as u32);
        }
    }
    None
}

/// Returns whether `reply` is correct: the history does not record a different reply for the call, and `oracle` (the
/// sequential set) returns `reply`. If the result is `true`, `oracle` is the set after the call.
fn has_reply(oracle: &mut Oracle, call_record: CallRecord, reply: Reply) -> Result<bool, AllocError>
    requires { call_record.thread < oracle.old.threads }
    ensures answers { IfOk result (λ right. MatchBool right
        (HasReply oracle.old call_record reply × (oracle.new ≡ after_reply oracle.old call_record reply))
        (HasOtherReply oracle.old call_record reply)) }
    ensures growth { OnErr result (PutsIn oracle.old call_record.thread call_record.call) }
{
    if let Some((_, recorded)) = call_record.ended
        && recorded != reply
    {
        return Ok(false);
    }
    Ok(oracle.apply(call_record.thread, call_record.call)? == reply)
}

/// Applies the calls to `oracle` (the sequential set) in the given order. Returns the number of the first call with a
/// wrong reply, or `None`. A reply is wrong if it differs from the reply in the history, or from the reply of `oracle`
/// after the preceding calls.
pub(crate) fn first_wrong_reply(
    oracle: &mut Oracle,
    calls: &[CallRecord],
    order: &[Placed],
) -> Result<Option<u32>, AllocError>
    requires known { HasKnownCalls calls.now order.now }
    requires threads { All (λ (x : CallRecord). x.thread < oracle.old.threads) calls.now }
    ensures answers { IfOk result (λ wrong. MatchOption wrong
        (HasReplies oracle.old calls.now order.now × (oracle.new ≡ after_order oracle.old calls.now order.now))
        (RefusesFirst (HasWrongReply oracle.old.quota oracle.old.state calls.now order.now) order.now)) }
    ensures growth { OnErr result (PutsInSome oracle.old calls.now order.now) }
{
    for place in order {
        if !has_reply(oracle, calls[place.call as usize], place.reply)? {
            return Ok(Some(place.call));
        }
    }
    Ok(None)
}

fn is_below(end: Option<u32>, moment: u32) -> bool
    ensures { IsTrue result ↔ IsSomeAnd end (λ e. e < moment) }
{
    end.is_some_and(|end| end < moment)
}

/// Returns the earlier of `smallest` and the moment when a call ends, which is in `ended`. Either can be absent
/// (`None`).
fn lesser(smallest: Option<u32>, ended: Option<(u32, Reply)>) -> Option<u32>
    ensures { result ≡ smallest_with smallest ended }
{
    match (smallest, ended) {
        (Some(smallest), Some((end, _))) => Some(smallest.min(end)),
        (None, Some((end, _))) => Some(end),
        (_, None) => smallest,
    }
}

/// Returns the number of the first call that is too early in the order, or `None`. A call is too early if it began
/// after the end of a call that follows it in the order.
fn first_too_early(calls: &[CallRecord], order: &[Placed]) -> Option<u32>
    requires { HasKnownCalls calls.now order.now }
    ensures { MatchOption result
        (Passes (IsTooEarly calls.now order.now) order.now)
        (RefusesFirst (IsTooEarly calls.now order.now) order.now) }
{
    let mut early = None;
    let mut smallest_end: Option<u32> = None;
    for i in (0..order.len()).rev() {
        let number = order[i].call;
        let record = calls[number as usize];
        if is_below(smallest_end, record.begun) {
            early = Some(number);
        }
        smallest_end = lesser(smallest_end, record.ended);
    }
    early
}

/// Checks whether `order` explains the calls of `history` and leaves `keys` as the final keys.
///
/// `Ok` means that the order linearizes the history (as defined by Herlihy and Wing, with completion of pending calls)
/// for the sequential set with the history's threads, quota and opening keys, and that `keys` are the keys of the
/// sequential set after all calls, in strictly increasing order. The command `check` calls `check_order` (in
/// `src/check_command.rt` of `tool_replay`).
///
/// # Errors
///
/// Returns the first error that applies. The whole order is searched for one kind of error before the next kind:
/// - `Unknown`: the history has no call with the number in the order;
/// - `Twice`: the call is in the order twice;
/// - `Missing`: the call is completed but not in the order; if several calls are missing, the smallest number;
/// - `WrongReply`: the reply in the order differs from the reply in the history, or from the sequential set's reply
/// after the preceding calls;
/// - `TooEarly`: a later call of the order had ended before the call began;
/// - `WrongSet`: `keys` are not the keys of the sequential set after all calls, in strictly increasing order.
///
/// Returns `Memory`, in place of any other result, if an allocation fails. With n calls in the order, c calls in the
/// history and at most k keys in the set, the check takes about `c + n log k` steps. Does not block.
pub fn check_order(
    alloc: Global,
    history: &History,
    order: &[Placed],
    keys: &[u32],
) -> Result<(), OrderFault>
    ensures explained { OnOk result (Explains history.now order.now keys.now) }
    ensures first_fault { IfErr result (IsFault history.now order.now keys.now) }
    ensures not_explained { IfErr result (λ fault. fault ≢ Memory → Explains history.now order.now keys.now → ⊥) }
{
    let calls = history.calls();
    if let Some(number) = first_unknown(calls, order) {
        return Err(OrderFault::Unknown(number));
    }
    let mut marks = vec![in alloc; false; calls.len()]?;
    let placed = marks.as_mut_slice();
    if let Some(number) = first_twice(order, placed) {
        return Err(OrderFault::Twice(number));
    }
    if let Some(number) = first_missing(calls, placed) {
        return Err(OrderFault::Missing(number));
    }
    let mut oracle = Oracle::before(alloc, history)?;
    if let Some(number) = first_wrong_reply(&mut oracle, calls, order)? {
        return Err(OrderFault::WrongReply(number));
    }
    if let Some(number) = first_too_early(calls, order) {
        return Err(OrderFault::TooEarly(number));
    }
    if oracle.keys()?.as_slice() != keys {
        return Err(OrderFault::WrongSet);
    }
    Ok(())
}
