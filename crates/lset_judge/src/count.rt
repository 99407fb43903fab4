//! Finds counts. A count is a set of so many calls on a key that no order can contain all of them. The key would have
//! to change back between the calls more often than other calls can change it.

ghost use Rattle.std.specs.Prelude.{◌≡◌, ℕ, ◌<◌, All, AllPairs, IfOk, IfSome, IsTrue, length, filter, true};
ghost use Rattle.lset_words.specs.History.{IsHistory, Precedes};
ghost use Rattle.lset_judge.specs.Clash.{other, records, HaveNone, IsOf};
ghost use Rattle.lset_judge.specs.Count.{also, begins_by, ends_from, turns_in, turns_of, BeginsIn, EndsIn, OpensSo, LeftOtherwise, NeedTurn, IsCount, IsCountOf, CountsExcludeOrders};
ghost use Rattle.lset_judge.specs.Stream.{record_of};

use crate::clash::{has_ended, is_of, leaves, needs, other, turns_to};
use crate::stream::StreamCall;
use crate::stretch::{Stretch, smallest_stretch};
use lset_words::{Key, Presence};
use std::alloc::{AllocError, Global};

/// So many calls on a key that no order can contain all of them. Of any two calls in `calls`, the one that takes effect
/// first leaves the key in the state `was`, and the other needs the opposite state. Between any two calls in `calls`,
/// another call must therefore change the key back. But `backs`, the calls that can do so, are too few.
#[derive(Debug, Drop)]
pub struct Count {
    /// The key of all calls in the count.
    pub key: Key,
    /// The key's state (present or absent) after each call except the last. Each call except the first needs the
    /// opposite state.
    pub was: Presence,
    /// The calls of the count, ordered by start.
    pub calls: Vec<StreamCall>,
    /// All calls that can change the key back between the calls in `calls`. Each call in `backs` returned true or is
    /// pending, and overlaps the time from `since` to `until`.
    pub backs: Vec<StreamCall>,
    /// A moment before which no call in `calls` starts. `None` if the set opened with the key in the state `was`: the
    /// opening state then counts as the first call.
    pub since: Option<u64>,
    /// A moment by which all calls in `calls` have ended. `None` if the key's final state is not `was`: the final state
    /// then counts as the last call.
    pub until: Option<u64>,
}

impl Count {
    /// Returns how often the key must change from the state `was` to the opposite state between the calls of the count.
    /// An opening or final state that counts as a call is included. The result is greater than `backs.len()`.
    pub fn turns(&self) -> usize
        ensures { result ≡ turns_of (length self.now.calls.items) self.now.since self.now.until }
    {
        (self.calls.len() + also(self.since) + also(self.until)).saturating_sub(1)
    }
}

/// Lemma: if a history contains a count (so many calls on a key that no order can contain all of them), no order
/// explains the history and leaves the final keys.
pub fn counts_exclude_orders()
    ensures { CountsExcludeOrders }
{}

/// Returns 1 if `bound` is `None`, which means that the key's opening or final state counts as a call. Otherwise
/// returns 0.
fn also(bound: Option<u64>) -> usize
    ensures { result ≡ also bound }
{
    match bound {
        None => 1,
        Some(_) => 0,
    }
}

// ---- Tests for a count (so many calls on a key that no order can contain all of them)

fn begins_in(call: StreamCall, was: Presence, since: Option<u64>) -> bool
    ensures { IsTrue result → BeginsIn was since (record_of call) }
{
    match since {
        None => needs(call) == Some(other(was)),
        Some(moment) => moment <= call.begun,
    }
}

fn ends_in(call: StreamCall, was: Presence, until: Option<u64>) -> bool
    ensures { IsTrue result → EndsIn was until (record_of call) }
{
    match until {
        None => leaves(call) == Some(was),
        Some(moment) => has_ended(call, moment),
    }
}

fn opens_so(there: Presence, was: Presence, since: Option<u64>) -> bool
    ensures { IsTrue result → OpensSo there was since }
{
    match since {
        None => there == was,
        Some(_) => true,
    }
}

fn left_otherwise(left: Option<Presence>, was: Presence, until: Option<u64>) -> bool
    ensures { IsTrue result → LeftOtherwise left was until }
{
    match until {
        None => left == Some(other(was)),
        Some(_) => true,
    }
}

fn has_ended_before(first: StreamCall, second: StreamCall) -> bool
    ensures { IsTrue result → Precedes (record_of first) (record_of second) }
{
    match first.ended {
        None => false,
        Some((end, _)) => end < second.begun,
    }
}

/// Returns whether the key must change back between `first` and `second`: whichever call takes effect first leaves the
/// key in the state `was`, and the other needs the opposite state.
fn need_turn(first: StreamCall, second: StreamCall, was: Presence) -> bool
    ensures { IsTrue result → NeedTurn was (record_of first) (record_of second) }
{
    let otherwise = Some(other(was));
    first.begun < second.begun
        && leaves(first) == Some(was)
        && needs(second) == otherwise
        && (has_ended_before(first, second)
            || (leaves(second) == Some(was) && needs(first) == otherwise))
}

fn turn_after(first: StreamCall, rest: &[StreamCall], was: Presence) -> bool
    ensures { IsTrue result → All (λ y. NeedTurn was (record_of first) (record_of y)) rest.now }
{
    for second in rest {
        if !need_turn(first, *second, was) {
            return false;
        }
    }
    true
}

fn need_turns(calls: &[StreamCall], was: Presence) -> bool
    ensures { IsTrue result → AllPairs (λ x y. NeedTurn was (record_of x) (record_of y)) calls.now }
{
    let [first, rest @ ..] = calls else {
        return true;
    };
    turn_after(*first, rest, was) && need_turns(rest, was)
}

fn all_known(calls: &[StreamCall], key: Key, counted: &[StreamCall]) -> bool
    ensures { IsTrue result → All (λ x. IsOf (records calls.now) key.0 (record_of x)) counted.now }
{
    for call in counted {
        if !is_of(calls, key, *call) {
            return false;
        }
    }
    true
}

fn all_begin(counted: &[StreamCall], was: Presence, since: Option<u64>) -> bool
    ensures { IsTrue result → All (λ x. BeginsIn was since (record_of x)) counted.now }
{
    counted.iter().all(|call| begins_in(*call, was, since))
}

fn all_end(counted: &[StreamCall], was: Presence, until: Option<u64>) -> bool
    ensures { IsTrue result → All (λ x. EndsIn was until (record_of x)) counted.now }
{
    counted.iter().all(|call| ends_in(*call, was, until))
}

/// Returns whether a call can change the key to the state `there` and overlaps the time from `since` to `until`.
fn turns_in(
    call: StreamCall,
    key: Key,
    there: Presence,
    since: Option<u64>,
    until: Option<u64>,
) -> bool
    ensures { result ≡ turns_in key.0 there since until (record_of call) }
{
    call.is_of(key.0)
        && (turns_to(call, there) && (begins_by(call, until) && ends_from(call, since)))
}

fn begins_by(call: StreamCall, until: Option<u64>) -> bool
    ensures { result ≡ begins_by call.begun until }
{
    match until {
        None => true,
        Some(moment) => call.begun < moment,
    }
}

fn ends_from(call: StreamCall, since: Option<u64>) -> bool
    ensures { result ≡ ends_from since call.ended }
{
    match since {
        None => true,
        Some(moment) => !has_ended(call, moment),
    }
}

/// Returns all calls that can change the key to the state `there` and overlap the time from `since` to `until`.
fn turning_in(
    alloc: Global,
    calls: &[StreamCall],
    key: Key,
    there: Presence,
    since: Option<u64>,
    until: Option<u64>,
) -> Result<Vec<StreamCall>, AllocError>
    ensures { IfOk result (λ found. found.items ≡ filter (λ x. turns_in key.0 there since until (record_of x)) calls.now) }
{
    calls
        .iter()
        .copied()
        .filter(|call| turns_in(*call, key, there, since, until))
        .collect(alloc)
}

/// Returns whether `count` is a count: its calls are among `calls`, and no order can contain all of them. `count.backs`
/// must contain all calls that can change the key back. `there` is the key's opening state; `left` is the key's final
/// state, if known.
fn is_count(calls: &[StreamCall], there: Presence, left: Option<Presence>, count: &Count) -> bool
    requires { count.now.backs.items ≡ filter (λ x. turns_in count.now.key.0 (other count.now.was) count.now.since count.now.until (record_of x)) calls.now }
    ensures { IsTrue result → IsCount (records calls.now) there left count.now }
{
    let (was, since, until) = (count.was, count.since, count.until);
    let counted: &[StreamCall] = &count.calls;
    if !all_known(calls, count.key, counted) {
        return false;
    }
    if !all_begin(counted, was, since) {
        return false;
    }
    if !all_end(counted, was, until) {
        return false;
    }
    if !opens_so(there, was, since) {
        return false;
    }
    if !left_otherwise(left, was, until) {
        return false;
    }
    need_turns(counted, was) && count.backs.len() < count.turns()
}

/// Returns the calls in `stretch`, ordered by start. A stretch is a period with so many calls that no order can contain
/// all of them.
fn counted_in(
    alloc: Global,
    calls: &[StreamCall],
    stretch: Stretch,
) -> Result<Vec<StreamCall>, AllocError> {
    let mut counted = Vec::new(alloc);
    if let Some(look) = stretch.first {
        counted.push(look)?;
    }
    for call in calls {
        if stretch.has(*call) {
            counted.push(*call)?;
        }
    }
    if let Some(look) = stretch.last {
        counted.push(look)?;
    }
    Ok(counted)
}

/// Returns the start of the first call in `counted`. Returns `None` if `since` is `None`, because the key's opening
/// state then counts as the first call.
fn since_first(counted: &[StreamCall], since: Option<u64>) -> Option<u64> {
    match (since, counted.first()) {
        (Some(_), Some(first)) => Some(first.begun),
        (since, _) => since,
    }
}

/// Searches for a count: so many calls on `key` that no order can contain all of them. Returns the smallest count
/// found, or `None` if none is found. `calls` must be ordered by start. `there` is the key's opening state; `left` is
/// the key's final state, if known.
///
/// If the function returns a count, no order explains `calls` and leads from the state `there` to the state `left`. The
/// search takes time quadratic in the number of calls. It fails only if an allocation fails.
pub fn find_count(
    alloc: Global,
    calls: &[StreamCall],
    key: Key,
    there: Presence,
    left: Option<Presence>,
) -> Result<Option<Count>, AllocError>
    ensures is { IfOk result (λ found. IfSome found (λ c. (c.key ≡ key) × IsCount (records calls.now) there left c)) }
    ensures none { IfOk result (λ found. IfSome found (λ _. (threads : ℕ) → IsHistory threads (records calls.now)
        → HaveNone threads key.0 there left (records calls.now))) }
{
    let Some(stretch) = smallest_stretch(alloc, calls, there, left)? else {
        return Ok(None);
    };
    let (was, until) = (stretch.was, stretch.until);
    let counted = counted_in(alloc, calls, stretch)?;
    let since = since_first(&counted, stretch.since);
    let count = Count {
        key,
        was,
        calls: counted,
        backs: turning_in(alloc, calls, key, other(was), since, until)?,
        since,
        until,
    };
    if is_count(calls, there, left, &count) {
        Ok(Some(count))
    } else {
        Ok(None)
    }
}
