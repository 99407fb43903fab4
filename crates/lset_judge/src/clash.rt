//! Finds clashes. A clash is a pair of calls on a key that contradict each other, so that no order can contain both.

ghost use Rattle.std.specs.Prelude.{◌≡◌, ℕ, All, Contains, IfSome, IsTrue, true};
ghost use Rattle.lset_words.specs.History.{IsHistory};
ghost use Rattle.lset_judge.specs.Clash.{records, HaveNone, other, leaves_if, needs_if, since_of, is_before, record_if, is_apart, IsOf, WasSo, HasToBe, NothingTurns, Clashes, InOrder, IsClash, ClashesExcludeOrders};
ghost use Rattle.lset_judge.specs.Stream.{record_of};
ghost use Rattle.lset_judge.specs.Events.{kind_if};
ghost use Rattle.lset_judge.specs.Rest.{has_ended, turns_to};

use crate::stream::StreamCall;
use lset_words::{Effect, Key, Presence};

/// Two calls on a key that contradict each other, so that no order can contain both. The first call leaves the key in
/// one state, and the second call needs the key in the opposite state. Between the start of the first call and the end
/// of the second, no call can change the key to the opposite state. The second call starts after the first has ended,
/// or the two calls also contradict each other in the opposite order.
#[derive(Clone, Copy, Debug, PartialEq, Eq)]
pub struct Clash {
    /// The key's state (present or absent) after the first call.
    pub was: Presence,
    /// The first of the two calls. `None` if the set opened with the key in the state `was`: the opening state takes
    /// the place of the first call.
    pub first: Option<StreamCall>,
    /// The second of the two calls. `None` if the key's final state is not `was`: the final state takes the place of
    /// the second call.
    pub second: Option<StreamCall>,
}

/// The arguments of a search for two calls that contradict each other. `there` is the key's opening state; `left` is
/// the key's final state, if known.
#[derive(Clone, Copy)]
struct Asked {
    key: Key,
    there: Presence,
    left: Option<Presence>,
}

/// Lemma: if two calls in a history contradict each other, no order explains the history and leaves the final keys.
pub fn clashes_exclude_orders()
    ensures { ClashesExcludeOrders }
{}

pub(crate) fn other(there: Presence) -> Presence
    ensures { result ≡ other there }
{
    match there {
        Presence::Present => Presence::Absent,
        Presence::Absent => Presence::Present,
    }
}

pub(crate) fn leaves(call: StreamCall) -> Option<Presence>
    ensures { result ≡ leaves_if call.call call.ended }
{
    match call.ended {
        None => None,
        Some((_, reply)) => match call.call.effect(reply) {
            Effect::Changes(there) | Effect::Sees(there) => Some(there),
            Effect::Other => None,
        },
    }
}

pub(crate) fn needs(call: StreamCall) -> Option<Presence>
    ensures { result ≡ needs_if call.call call.ended }
{
    match call.ended {
        None => None,
        Some((_, reply)) => match call.call.effect(reply) {
            Effect::Changes(there) => Some(other(there)),
            Effect::Sees(there) => Some(there),
            Effect::Other => None,
        },
    }
}

/// Returns whether `call` changed its key to the state `there`, or is pending and can still do so.
pub(crate) fn turns_to(call: StreamCall, there: Presence) -> bool
    ensures { result ≡ turns_to there (kind_if call.call call.ended) }
{
    match call.effect() {
        Effect::Changes(to) => to == there,
        Effect::Sees(_) | Effect::Other => false,
    }
}

pub(crate) fn has_ended(call: StreamCall, moment: u64) -> bool
    ensures { result ≡ has_ended moment call.ended }
{
    match call.ended {
        None => false,
        Some((end, _)) => end <= moment,
    }
}

fn is_same(call: StreamCall, other: StreamCall) -> bool
    ensures { IsTrue result → call ≡ other }
{
    call.thread == other.thread
        && call.begun == other.begun
        && call.call == other.call
        && call.ended == other.ended
}

fn has(calls: &[StreamCall], call: StreamCall) -> bool
    ensures { IsTrue result → Contains calls.now call }
{
    calls.iter().any(|other| is_same(*other, call))
}

pub(crate) fn is_of(calls: &[StreamCall], key: Key, call: StreamCall) -> bool
    ensures { IsTrue result → IsOf (records calls.now) key.0 (record_of call) }
{
    call.is_of(key.0) && has(calls, call)
}

fn was_so(calls: &[StreamCall], asked: Asked, was: Presence, first: Option<StreamCall>) -> bool
    ensures { IsTrue result → WasSo (records calls.now) asked.key.0 asked.there was (record_if first) }
{
    match first {
        None => asked.there == was,
        Some(call) => is_of(calls, asked.key, call) && leaves(call) == Some(was),
    }
}

fn has_to_be(calls: &[StreamCall], asked: Asked, need: Presence, second: Option<StreamCall>) -> bool
    ensures { IsTrue result → HasToBe (records calls.now) asked.key.0 asked.left need (record_if second) }
{
    match second {
        None => asked.left == Some(need),
        Some(call) => is_of(calls, asked.key, call) && needs(call) == Some(need),
    }
}

fn since_of(first: Option<StreamCall>) -> u64
    ensures { result ≡ since_of (record_if first) }
{
    match first {
        None => 0,
        Some(call) => call.begun,
    }
}

fn is_before(begun: u64, second: Option<StreamCall>) -> bool
    ensures { result ≡ is_before begun (record_if second) }
{
    match second {
        None => true,
        Some(call) => match call.ended {
            None => true,
            Some((end, _)) => begun < end,
        },
    }
}

/// Returns whether `call` cannot change its key to the state `there` between the moment `since` and the end of the call
/// `second`.
fn is_apart(call: StreamCall, there: Presence, since: u64, second: Option<StreamCall>) -> bool
    ensures { result ≡ is_apart there since (record_if second) (record_of call) }
{
    !turns_to(call, there) || (!is_before(call.begun, second) || has_ended(call, since))
}

fn are_apart(calls: &[StreamCall], there: Presence, since: u64, second: Option<StreamCall>) -> bool
    ensures { result ≡ true → All (λ x. is_apart there since (record_if second) (record_of x) ≡ true) calls.now }
{
    calls
        .iter()
        .all(|call| is_apart(*call, there, since, second))
}

fn nothing_turns(
    calls: &[StreamCall],
    key: Key,
    there: Presence,
    since: u64,
    second: Option<StreamCall>,
) -> bool
    ensures { IsTrue result → NothingTurns (records calls.now) key.0 there since (record_if second) }
{
    are_apart(calls, there, since, second)
}

fn clashes(calls: &[StreamCall], asked: Asked, clash: Clash) -> bool
    ensures { IsTrue result → Clashes (records calls.now) asked.key.0 asked.there asked.left clash.was (record_if clash.first) (record_if clash.second) }
{
    let need = other(clash.was);
    let since = since_of(clash.first);
    was_so(calls, asked, clash.was, clash.first)
        && has_to_be(calls, asked, need, clash.second)
        && nothing_turns(calls, asked.key, need, since, clash.second)
}

fn in_order(calls: &[StreamCall], asked: Asked, clash: Clash) -> bool
    ensures { IsTrue result → InOrder (records calls.now) asked.key.0 asked.there asked.left (record_if clash.first) (record_if clash.second) }
{
    let (Some(first), Some(second)) = (clash.first, clash.second) else {
        return true;
    };
    if let Some((end, _)) = first.ended {
        if end < second.begun {
            return true;
        }
    }
    let Some(was) = leaves(second) else {
        return false;
    };
    let turned = Clash {
        was,
        first: Some(second),
        second: Some(first),
    };
    first.begun != second.begun && clashes(calls, asked, turned)
}

/// Returns whether both calls of `clash` are in `calls` and contradict each other.
fn is_clash(calls: &[StreamCall], asked: Asked, clash: Clash) -> bool
    ensures { IsTrue result → IsClash (records calls.now) asked.key.0 asked.there asked.left clash.was (record_if clash.first) (record_if clash.second) }
{
    clashes(calls, asked, clash) && in_order(calls, asked, clash)
}

/// Returns the call with the largest index in `calls` that had ended by `moment` and left its key in the state `was`.
fn last_before(calls: &[StreamCall], was: Presence, moment: u64) -> Option<StreamCall> {
    let mut last = None;
    for call in calls {
        if has_ended(*call, moment) && leaves(*call) == Some(was) {
            last = Some(*call);
        }
    }
    last
}

/// Searches for a call that started before `second` and contradicts it, so that no order can contain both. The result
/// has no `first` if the key's opening state contradicts `second`. Returns `None` if no such call is found.
fn clash_with(calls: &[StreamCall], asked: Asked, second: StreamCall) -> Option<Clash>
    ensures { IfSome result (λ c. IsClash (records calls.now) asked.key.0 asked.there asked.left c.was (record_if c.first) (record_if c.second)) }
{
    let was = other(needs(second)?);
    let earlier = Clash {
        was,
        first: last_before(calls, was, second.begun),
        second: Some(second),
    };
    if is_clash(calls, asked, earlier) {
        return Some(earlier);
    }
    for call in calls {
        let beside = Clash {
            was,
            first: Some(*call),
            second: Some(second),
        };
        let overlaps = call.begun < second.begun && !has_ended(*call, second.begun);
        if overlaps && is_clash(calls, asked, beside) {
            return Some(beside);
        }
    }
    None
}

/// Searches `calls` for two calls that contradict each other, and tries the calls with larger indices first as the
/// second call. If the search finds no pair, tries the key's final state in place of the second call.
fn last_clash(calls: &[StreamCall], asked: Asked) -> Option<Clash>
    ensures { IfSome result (λ c. IsClash (records calls.now) asked.key.0 asked.there asked.left c.was (record_if c.first) (record_if c.second)) }
{
    for call in calls.iter().rev() {
        if let Some(clash) = clash_with(calls, asked, *call) {
            return Some(clash);
        }
    }
    let was = other(asked.left?);
    let last = Clash {
        was,
        first: last_before(calls, was, u64::MAX),
        second: None,
    };
    if is_clash(calls, asked, last) {
        return Some(last);
    }
    None
}

/// Searches `calls` for two calls on `key` that contradict each other. `there` is the key's opening state; `left` is
/// the key's final state, if known. If the function returns a clash, no order explains `calls` and leads from the state
/// `there` to the state `left`. Returns `None` if it finds no clash; this does not show that such an order exists.
pub fn find_clash(
    calls: &[StreamCall],
    key: Key,
    there: Presence,
    left: Option<Presence>,
) -> Option<Clash>
    ensures is { IfSome result (λ c. IsClash (records calls.now) key.0 there left c.was (record_if c.first) (record_if c.second)) }
    ensures none { IfSome result (λ _. (threads : ℕ) → IsHistory threads (records calls.now)
        → HaveNone threads key.0 there left (records calls.now)) }
{
    last_clash(calls, Asked { key, there, left })
}
