//! Guesses the likely cause of a refusal from counted facts. Makes no guess if the facts fit no cause.
//!
//! A *contradiction* is a few calls on one key that no order explains. A *change* is an add or remove that returned true.
//! `Tally` counts contradictions by kind. A key was *lost*: it became absent although no remove returned true. A key *came
//! back*: it became present although no add returned true. *Both* of two overlapping adds, or removes, of a key returned
//! true. One call that changed nothing has a *wrong reply*. The kind of all *others* is unclear.
//!
//! The fields of `Tally` that the tests below compare:
//!
//! - `gone()`: losses and returns of keys. `timed()`: those that a call shows, not only the final keys.
//! - `turned`: those that one opposite reply would explain. `silent`: those that one more add or remove that returned true,
//!   instead of false, would explain.
//! - `beside`: those that overlap a change of another key; `usual` is the percentage of other periods of the same length
//!   that do. `below`: those that overlap a remove of a smaller key. `together`: those that overlap a loss or return of
//!   another key; `usually_together` is the percentage by chance.
//! - `made`: those that undo a known change. `own`: how many of these changes overlapped another change of the same key.
//!   `fits`: how many can be due to a change of another key that read the set before and wrote it afterwards.
//! - `crossed`: losses right after overlapping changes of the key, among them a remove. `placed`: losses that undo a known
//!   add; `with_add` and `with_remove` count the adds that overlapped an add, or a remove, of another key.
//! - `apart`: contradictions during which no two calls overlapped.

use crate::likely_odd::cause_of_odd;
use crate::likely_races::{
    FEW_KEYS, LEAST_BOTH, MANY_CALLS, cause_of_races, has_crossed_replies, has_other_replies,
    is_first_use, is_of_other_key, is_old_copy_at_once, is_with, is_with_change,
};
use crate::patterns::{is_borrowed, is_clear};
use crate::shares::{ENOUGH, is_least, is_share, share_of_all};
use tool_facts::{Cause, Evidence, Further, Share, Tally};

/// The minimum number of keys for the guess that several of many keys change at the same time. The judges in tests use
/// fewer keys in their first runs, so bugs that need no more keys are found there.
const MANY_KEYS: u64 = 32;

/// The minimum number of losses and returns of keys for the guess that several keys change at the same time.
const LEAST_AT_ONCE: u64 = 20;

/// Returns whether the recording has many keys, and keys are often lost or come back at the same time as other keys:
/// more often than by chance, and not only during the first calls on each key.
fn is_at_once_of_many(evidence: &Evidence) -> bool {
    let tally = &evidence.tally;
    let least = tally.usually_together.saturating_add(35).max(40);
    evidence.keys >= MANY_KEYS
        && tally.both().saturating_mul(3) <= tally.places
        && tally.together >= 2
        && is_least(tally.together, tally.timed(), least)
        && !is_first_use(evidence)
}

/// Returns whether several keys are lost or return at the same time, more often than by chance.
fn is_at_once(tally: &Tally) -> bool {
    let least = tally.usually_together.saturating_add(40);
    let is_clear = tally.others.saturating_mul(2) <= tally.places && !has_other_replies(tally);
    is_clear
        && tally.both().saturating_mul(20) <= tally.places
        && tally.timed() >= LEAST_AT_ONCE
        && is_least(tally.came_back, tally.gone(), 25)
        && is_least(tally.together, tally.timed(), least.max(65))
}

/// Returns whether at least three quarters of a few losses and returns of keys share time with one of another key, which is rare
/// by chance, and most contradictions are such losses and returns.
fn is_at_once_of_few(evidence: &Evidence) -> bool {
    let tally = &evidence.tally;
    tally.timed() >= LEAST_FEW_AT_ONCE
        && tally.usually_together <= 10
        && is_least(tally.together, tally.timed(), 75)
        && is_least(tally.gone(), tally.places, 60)
        && tally.keys >= 2
        && !is_first_use(evidence)
}

/// Returns whether changes seem to be undone by a later write of an older state: keys are lost and come back, and other
/// adds and removes overlapped at most one in five of the undone changes. (If two changes that overlap undo each other,
/// nearly all undone changes overlap another change.)
pub(crate) fn is_undone_later(evidence: &Evidence) -> bool {
    let (tally, meets) = (&evidence.tally, &evidence.meets);
    let met = meets.own.count.saturating_add(meets.others.count);
    meets.own.of >= 4 * ENOUGH
        && !is_least(met, meets.own.of, 20)
        && is_least(tally.gone(), tally.places, 60)
        && is_least(tally.lost.min(tally.came_back), tally.gone(), 25)
        && !is_least(tally.both(), tally.places, 5)
        && !is_least(tally.apart, tally.places, 30)
}

/// The minimum number of losses and returns of keys for the guess that a copy replaces newer changes of several keys.
const LEAST_FEW_AT_ONCE: u64 = 3;

/// Returns the likely cause if changes do not take effect during their calls: they take effect later, cancel each
/// other, or take effect although the call returned false.
fn cause_of_effects(evidence: &Evidence) -> Option<Cause> {
    let tally = &evidence.tally;
    let (gone, lost) = (tally.gone(), tally.lost);
    // (if a key has few calls, a single unseen change is already a large share)
    let calls = evidence.calls.checked_div(evidence.keys).unwrap_or(0);
    // (a change that no call sees never takes effect)
    let is_never = tally.unseen_adds == tally.followed_adds && tally.unseen_removes == 0;
    let is_late = !is_never
        && (is_share(tally.unseen_adds, tally.followed_adds, 25)
            || is_share(tally.unseen_removes, tally.followed_removes, 25));
    let many_unseen = tally.unseen_adds.max(tally.unseen_removes) >= 8 * ENOUGH;
    let is_pair = is_least(tally.swapped, tally.undone, 75)
        && is_share(tally.swapped_adds, tally.unadded, 55);
    let is_beside = is_with(tally.with_remove, tally.placed, tally.usually_with_remove);
    let is_only_back = lost == 0 && tally.both().saturating_mul(20) <= tally.places;
    let usually_soon = tally.adds_soon.saturating_mul(100);
    let usually_soon = usually_soon.checked_div(tally.adds).unwrap_or(0);
    let is_clear = tally.placed >= 20 * ENOUGH;
    let least = usually_soon.saturating_add(if is_clear { 12 } else { 20 });
    let is_after = is_share(tally.soon, tally.placed, least);
    let is_only_lost = tally.came_back == 0
        && tally.both().saturating_mul(20) <= tally.places
        && !is_share(tally.crossed, lost, 60);
    if is_late && many_unseen && calls >= MANY_CALLS {
        Some(Cause::EffectLate)
    } else if tally.swapped >= ENOUGH && is_pair && is_beside {
        Some(Cause::Cancelled)
    } else if is_only_back && gone >= 4 * ENOUGH && is_least(tally.turned, gone, 97) {
        Some(Cause::AddUndone)
    } else if is_only_lost && lost >= 4 * ENOUGH && is_after {
        Some(Cause::RemovedLater)
    } else {
        None
    }
}

/// Returns `true` if keys are lost and return mostly while a smaller key is removed, and the calls on the smallest key
/// have an order.
fn is_unlinked(evidence: &Evidence) -> bool {
    let (tally, timed) = (&evidence.tally, evidence.tally.timed());
    let is_both_ways = tally.lost > 0 && tally.came_back.saturating_mul(4) >= tally.lost;
    is_both_ways
        && evidence.keys <= FEW_KEYS
        && evidence.is_first_spared
        && timed >= 2 * ENOUGH
        && is_share(tally.below, timed, 75)
}

/// Returns `true` if calls that returned false can have made most of the losses and returns of keys.
fn is_made_again(tally: &Tally) -> bool {
    let gone = tally.gone();
    let replies = tally.missed.saturating_add(tally.found);
    gone >= 2 * ENOUGH
        && tally.both() == 0
        && is_share(tally.silent, gone, 70)
        && !has_crossed_replies(tally)
        && !is_least(replies, tally.places, 10)
}

/// Returns `true` if contradictions occur even without overlapping calls.
fn needs_no_race(tally: &Tally) -> bool {
    tally.gone() >= 2 * ENOUGH && tally.apart >= ENOUGH && is_share(tally.apart, tally.places, 10)
}

/// Returns `true` if many contradictions occur without overlapping calls, and most are losses, returns or pairs of
/// calls that both returned true.
fn is_mostly_apart(tally: &Tally) -> bool {
    needs_no_race(tally)
        && is_least(tally.apart, tally.places, 30)
        && !is_least(tally.others, tally.places, 65)
}

/// Returns whether lost keys do not look like the result of a race: keys are lost even without overlapping calls, or a
/// change of another key that wrote back an older state can explain less than 60 percent of the losses, and pairs of
/// calls that both returned true are rare.
fn is_displaced(tally: &Tally) -> bool {
    let is_alone = !is_least(tally.fits, tally.made, 60);
    let is_crossed = is_least(tally.crossed, tally.lost, 60);
    let is_single = tally.both().saturating_mul(50) <= tally.places;
    needs_no_race(tally) || (is_single && is_alone && !is_crossed)
}

/// Returns the likely cause if keys are lost while other keys change, and no key returns.
fn cause_of_losses(tally: &Tally) -> Option<Cause> {
    let (sharp, adds, removes) = (tally.sharp, tally.displaced, tally.unlinked);
    let is_only_lost = tally.came_back == 0 && tally.lost >= 2 * ENOUGH;
    if !is_only_lost {
        None
    } else if is_displaced(tally) && is_share(adds, sharp, 95) && !is_least(removes, sharp, 90) {
        Some(Cause::Displaced)
    } else if needs_no_race(tally) && is_share(removes, sharp, 95) && !is_least(adds, sharp, 90) {
        Some(Cause::Batch)
    } else if needs_no_race(tally) && is_only_full(tally) {
        Some(Cause::Evicted)
    } else {
        None
    }
}

/// Returns whether at least `LEAST_FULL` keys were present at each loss of a key, and this is no coincidence.
fn is_only_full(tally: &Tally) -> bool {
    tally.least_full >= LEAST_FULL && share_of_all(tally.usually_full, tally.short) < 10_000
}

/// A set is full only if it has at least this many keys.
const LEAST_FULL: u64 = 4;

/// Returns whether the set seems to contain a key twice, and a remove deletes one of the two: nearly all returned keys return after a successful remove, pairs
/// of calls that both returned true are rare, and less than 60 percent of the losses and returns can be due to a change
/// of another key that wrote back an older state.
fn is_kept(tally: &Tally) -> bool {
    tally.came_back >= 4 * ENOUGH
        && tally.others.saturating_mul(2) <= tally.places
        && is_least(tally.undone, tally.came_back, 90)
        && tally.both().saturating_mul(20) <= tally.places
        && !is_least(tally.fits, tally.made, 60)
}

/// Returns the likely cause if the set fails even without overlapping calls.
fn cause_in_one_thread(evidence: &Evidence) -> Option<Cause> {
    let tally = &evidence.tally;
    let (lost, back) = (tally.lost, tally.came_back);
    let is_undone = lost == 0 && back >= 4 && is_least(tally.undone, back, 80);
    let is_readded = needs_no_race(tally) && back > 0 && lost > 0 && tally.readded == lost;
    if is_undone || is_readded || is_kept(tally) {
        return Some(Cause::KeptTwice);
    }
    match cause_of_losses(tally) {
        Some(cause) => Some(cause),
        None if is_at_once(tally) || is_at_once_of_many(evidence) => Some(Cause::ReplacedAtOnce),
        None if is_mostly_apart(tally) => {
            Some(if evidence.span >= WIDE {
                Cause::Overflow
            } else {
                Cause::OneThread
            })
        }
        None => None,
    }
}

/// If two keys differ by at least this much, their difference overflows a signed 32-bit number.
const WIDE: u32 = 0x8000_0000;

/// Returns whether a check and the later write seem not to be atomic, so that two calls on a key both return true. Such
/// pairs must be many among the contradictions. Fewer are enough if they are only calls of `add` and no key returns, or
/// if they are calls of both operations and one opposite reply repairs nearly all losses and returns of keys.
fn is_check_then_act(tally: &Tally) -> bool {
    let (adds, removes, both) = (tally.both_adds, tally.both_removes, tally.both());
    let is_all = tally.places >= 2 && both == tally.places;
    let is_not_lost = tally.lost <= both;
    let is_only_adds = tally.came_back == 0
        && removes == 0
        && is_not_lost
        && is_share(both, tally.places, 30);
    let is_balanced = is_least(adds.min(removes), both, 20) && is_share(both, tally.places, 25);
    let is_repaired = is_least(tally.turned, tally.gone(), 95);
    let is_often = both >= LEAST_BOTH && is_share(both, tally.places, 40);
    is_all || is_only_adds || (is_balanced && is_repaired) || is_often
}

/// Returns the cause that names the operations with a check and a later write that are not atomic.
fn check_then_act(tally: &Tally) -> Cause {
    let (adds, removes) = (tally.both_adds, tally.both_removes);
    if adds >= LEAST_BOTH && adds >= removes.saturating_mul(10) {
        Cause::AddChecks
    } else if removes >= LEAST_BOTH && removes >= adds.saturating_mul(10) {
        Cause::RemoveChecks
    } else if tally.both_adds > 0 && tally.both_removes > 0 {
        Cause::BothCheck
    } else {
        Cause::CheckThenAct
    }
}

/// The minimum number of calls in a recording for a guess.
const LEAST_CALLS: u64 = 50;

/// The minimum number of answers of an operation for a guess about the operation.
const LEAST_ANSWERS: u64 = 10;

/// Returns `true` if the recording has enough calls for a guess.
fn is_enough(evidence: &Evidence) -> bool {
    let answers = evidence.odd.map_or(LEAST_ANSWERS, |odd| odd.of);
    evidence.calls >= LEAST_CALLS && answers >= LEAST_ANSWERS
}

/// Returns whether calls of several operations return false for present keys, nearly all while a change of another key
/// runs, more often than by chance, and other contradictions are rare. (Several such calls one after another can look
/// like a loss.)
fn is_missed_beside(tally: &Tally) -> bool {
    let (missed, usual) = (tally.missed, tally.usually_refused_beside);
    missed >= 8
        && is_least(tally.missed_beside, missed, 95)
        && share_of_all(usual, tally.missed_beside) < 100_000
        && tally.found.saturating_mul(10) <= missed
        && tally.both().saturating_mul(10) <= missed
        && tally.came_back.saturating_mul(10) <= missed
        && tally.lost.saturating_mul(4) <= missed
}

/// The guess that calls give up (return false without trying again) requires at least this many adds and removes that
/// wrongly returned false.
const LEAST_REFUSED: u64 = 8;

/// Before this moment, a set has not grown yet.
const GROWN: u64 = 200;

/// Returns whether at most one in ten of many added keys is in use when the first contradiction ends, as in sets that
/// grow one after another, few keys are affected, keys are lost or return at the same time as others, more often than by
/// chance, and most of at least three contradictions are losses or returns of keys, or pairs of calls that both returned
/// true.
fn is_outgrown(evidence: &Evidence, further: &Further) -> bool {
    let Some(growth) = further.growth else {
        return false;
    };
    let tally = &evidence.tally;
    let plain = tally.gone().saturating_add(tally.both());
    // (a table that is replaced loses changes of several keys at once)
    let at_once = tally.usually_together.saturating_add(25);
    growth.moment >= GROWN
        && is_least(tally.together, tally.timed(), at_once)
        && growth.active.saturating_mul(10) <= evidence.keys
        && tally.places >= 3
        && tally.gone() > 0
        && is_least(plain, tally.places, 60)
        && tally.keys.saturating_mul(5) <= evidence.keys
}

/// Returns whether the set breaks at one moment: until then the calls had an order, afterwards most contradictions are
/// unclear, and nearly all keys are affected.
fn is_broken_for_good(evidence: &Evidence, moment: u64) -> bool {
    let tally = &evidence.tally;
    moment >= GROWN
        && tally.keys >= 2
        && is_least(tally.keys, evidence.keys, 75)
        && tally.others.saturating_mul(2) > tally.places
        && tally.places >= MANY_PLACES
}

/// The minimum number of contradictions for the guess that the set is broken for good.
const MANY_PLACES: u64 = 20;

/// Returns whether no call finds a key that was added, unless the add itself is still running.
fn is_never_found(tally: &Tally) -> bool {
    let lost = tally.unseen_adds;
    lost >= 2 * ENOUGH && lost == tally.followed_adds && tally.unseen_removes == 0
}

/// Returns whether a share of undone changes is no coincidence: all have the property, which happens by chance in less
/// than `most` of a million such samples; or three quarters have it, which happens by chance in less than one of twenty
/// samples (Hoeffding's bound).
fn is_usual(share: Share, most: u64) -> bool {
    let percent = share.count.saturating_mul(100).checked_div(share.of);
    let more = percent.unwrap_or(0).saturating_sub(share.usual);
    let is_each = share.of > 0 && share.count == share.of;
    (is_each && share_of_all(share.usual, share.of) < most)
        || (is_share(share.count, share.of, 75)
            && share.of.saturating_mul(more).saturating_mul(more) >= 15_000)
}

/// The percentage of undone changes that calls on the same key must overlap for the guess that only these calls undo each
/// other.
const NEARLY_ALL: u64 = 85;

/// Returns whether calls on the same key overlapped nearly all changes that were undone or reported twice, clearly more
/// often than other changes, and changes of other keys hardly more often than by chance.
fn is_of_same_key(evidence: &Evidence) -> bool {
    let (own, others) = (evidence.meets.own, evidence.meets.others);
    is_clear(own)
        && is_least(own.count, own.of, NEARLY_ALL)
        && !is_least(others.count, others.of, others.usual.saturating_add(15))
        && !is_clear(others)
}

/// Infers the likely cause from what ran at the same time as changes that were undone or reported twice (`Meets`): calls
/// on the same key, or changes of other keys.
fn cause_of_meets(evidence: &Evidence) -> Option<Cause> {
    let (tally, meets) = (&evidence.tally, &evidence.meets);
    let (own, others, first) = (meets.own, meets.others, meets.first);
    let both = tally.both();
    let is_of_one_key = own.of == tally.places && own.count == own.of;
    let is_enough = own.of.saturating_mul(2) >= tally.places;
    if is_of_one_key && own.of >= 2 && first.count == own.of && tally.came_back == 0 {
        Some(Cause::FirstCalls)
    } else if is_of_one_key && own.of >= 3 && both > 0 && both >= tally.gone() {
        Some(Cause::SameKey)
    } else if is_enough
        && is_usual(own, 80_000)
        && is_least(own.count, own.of, NEARLY_ALL)
        && others.count < own.count.max(1)
    {
        Some(Cause::SameKey)
    } else if is_enough
        && (is_usual(others, 50_000)
            || (!is_least(tally.turned, tally.gone(), 90) && is_with_change(tally)))
    {
        Some(Cause::OtherKeys)
    } else {
        None
    }
}

/// Returns the likely cause if most contradictions are due to a single add or remove that returned false although the
/// key permitted the change, and other wrong replies are rare.
fn cause_of_refusals(tally: &Tally) -> Option<Cause> {
    let refused = tally.refused();
    let replies = tally.missed.saturating_add(tally.found);
    let other = tally.gone().saturating_add(tally.both());
    let both = tally.refused_adds.min(tally.refused_removes);
    if refused < LEAST_REFUSED
        || !is_least(refused, replies, 90)
        || !is_least(refused, tally.places, 60)
        || other.saturating_mul(10) > tally.places
    {
        None
    } else if !is_least(both, refused, 10) {
        Some(if tally.refused_adds > tally.refused_removes {
            Cause::AddGivesUp
        } else {
            Cause::RemoveGivesUp
        })
    } else {
        Some(gives_up(tally))
    }
}

/// Returns the cause that adds and removes give up, and whether they do so while other keys change.
fn gives_up(tally: &Tally) -> Cause {
    let usual = tally.usually_refused_beside.saturating_add(25);
    if is_least(tally.refused_beside, tally.refused(), usual) {
        Cause::GivesUpBeside
    } else {
        Cause::GivesUp
    }
}

/// Returns whether adds and removes often return false although the key permits the change, and all other kinds of
/// contradictions are rare. (Contradictions of an unclear kind can be several such calls one after another.)
fn is_mostly_refused(tally: &Tally) -> bool {
    let refused = tally.refused();
    let replies = tally.missed.saturating_add(tally.found);
    let other = tally.gone().saturating_add(tally.both());
    refused >= 2 * LEAST_REFUSED
        && is_least(refused, replies, 90)
        && is_least(tally.refused_adds.min(tally.refused_removes), refused, 10)
        && other.saturating_mul(4) <= refused
}

/// Returns whether pairs of adds that both returned true seem to insert their key twice: after at least half of these
/// pairs, the next remove leaves the key present. Other returns of keys and pairs of removes must be at most as many.
pub(crate) fn is_inserted_twice(tally: &Tally) -> bool {
    let left = tally.came_back.saturating_add(tally.both_removes);
    tally.doubled > 0
        && is_least(tally.doubled, tally.both_adds, 50)
        && is_least(tally.doubled, left, 50)
}

/// Returns whether pairs of adds that both return true seem to leave their key in the set twice: the next calls see all
/// adds, but not all removes, and losses and pairs of removes are rare.
fn is_left_twice(tally: &Tally) -> bool {
    let (adds, unseen) = (tally.both_adds, tally.unseen_removes);
    adds >= 2
        && unseen >= 1
        && is_least(unseen, adds, 25)
        && tally.unseen_adds.saturating_mul(10) <= unseen
        && tally.lost.saturating_mul(20) <= adds
        && tally.both_removes.saturating_mul(4) <= adds
        && tally.came_back <= adds
}

/// Returns the likely cause if the facts are so clear that no other cause needs to be considered. One operation alone must
/// not be wrong.
fn clear_cause(evidence: &Evidence, further: &Further) -> Option<Cause> {
    let tally = &evidence.tally;
    if is_never_found(tally) {
        Some(Cause::NeverFound)
    } else if is_left_twice(tally) {
        Some(Cause::InsertedTwice)
    } else if is_mostly_refused(tally) {
        Some(gives_up(tally))
    } else if is_broken_for_good(evidence, further.moment) {
        Some(Cause::Reused)
    } else if evidence.split.is_some_and(|split| split.is_long()) {
        Some(Cause::TwoPlaces)
    } else if is_first_use(evidence) {
        Some(Cause::FirstUse)
    } else {
        None
    }
}

/// Returns whether one opposite reply would explain nearly all of at least ten losses and returns of keys, and such
/// contradictions of different keys share time more often than by chance. (If an older state is written back, no reply
/// explains about one in three.)
fn are_mixed_up(tally: &Tally) -> bool {
    let least = tally.usually_crossed.saturating_add(20);
    tally.gone() >= 2 * ENOUGH
        && is_least(tally.turned, tally.gone(), 85)
        && is_least(tally.crossed_replies, tally.replies, least)
}

/// Returns `cause`, or another cause that fits better: calls on the same key if changes of other keys are not to blame, or
/// mixed up calls if one opposite reply explains what looks like an older state that was written back.
fn or_better(evidence: &Evidence, cause: Cause) -> Cause {
    let is_state = matches!(cause, Cause::OldCopy | Cause::OldLink | Cause::WrittenBack);
    let is_copy = matches!(
        cause,
        Cause::OldCopy | Cause::OldCopyAtOnce | Cause::ReplacedAtOnce
    );
    if is_state && is_of_same_key(evidence) {
        Cause::SameKey
    } else if is_copy && are_mixed_up(&evidence.tally) {
        Cause::MixedCalls
    } else {
        cause
    }
}

/// Returns the likely cause. Returns `None` if the facts fit no cause, or if the recording is too small.
pub fn likely_cause(evidence: &Evidence, further: &Further) -> Option<Cause> {
    match first_guess(evidence, further) {
        Some(cause) => Some(or_better(evidence, cause)),
        None => None,
    }
}

/// Returns the likely cause before it is compared with similar causes. Returns `None` if the facts fit no cause, or if the
/// recording is too small.
fn first_guess(evidence: &Evidence, further: &Further) -> Option<Cause> {
    if !is_enough(evidence) {
        return None;
    }
    if evidence.merged.is_some() {
        return Some(Cause::TwoKeys);
    }
    if let Some(odd) = &evidence.odd {
        return cause_of_odd(odd, further, evidence);
    }
    if let Some(cause) = clear_cause(evidence, further) {
        return Some(cause);
    }
    let cause = match cause_of_replies(evidence) {
        Some(cause) => Some(cause),
        None => cause_of_changes(evidence, further),
    };
    match cause {
        None if further.swap.is_some() => Some(Cause::OtherReply),
        None if is_old_copy_at_once(evidence) => Some(Cause::OldCopyAtOnce),
        None if is_at_once_of_few(evidence) || is_undone_later(evidence) => Some(
            Cause::ReplacedAtOnce,
        ),
        None => cause_of_meets(evidence),
        cause => cause,
    }
}

/// Returns the likely cause if replies are those of other calls, if calls act as if each ran alone, or if changes take
/// effect at other times than during their calls.
fn cause_of_replies(evidence: &Evidence) -> Option<Cause> {
    let tally = &evidence.tally;
    let effect = cause_of_effects(evidence);
    if is_borrowed(&evidence.patterns) {
        Some(Cause::Borrowed)
    } else if effect.is_some() {
        effect
    } else if evidence.bound.is_some() && is_least(tally.gone(), tally.places, 30) {
        Some(Cause::SharedWord)
    } else if is_inserted_twice(tally) {
        Some(Cause::InsertedTwice)
    } else if is_check_then_act(tally) {
        Some(check_then_act(tally))
    } else if is_missed_beside(tally) {
        Some(Cause::MovedForAll)
    } else {
        match cause_of_refusals(tally) {
            None if is_read_in_parts(tally) => Some(Cause::ReadsParts),
            cause => cause,
        }
    }
}

/// Returns whether calls of several operations seem to read the set at different moments: nearly half of the
/// contradictions are single wrong replies, of both kinds, and one opposite reply repairs most losses and returns of keys.
fn is_read_in_parts(tally: &Tally) -> bool {
    let replies = tally.missed.saturating_add(tally.found);
    tally.missed.min(tally.found) >= 3
        && is_least(replies, tally.places, 45)
        && is_least(tally.turned, tally.gone(), 75)
        && !is_least(tally.others, tally.places, 25)
}

/// Returns the likely cause if changes undo each other, or if a single thread is enough for a contradiction.
fn cause_of_changes(evidence: &Evidence, further: &Further) -> Option<Cause> {
    if is_unlinked(evidence) {
        return Some(if is_of_other_key(&evidence.tally) {
            Cause::OtherKey
        } else {
            Cause::Unlinked
        });
    }
    if is_made_again(&evidence.tally) {
        return Some(Cause::MadeAgain);
    }
    let cause = match cause_in_one_thread(evidence) {
        Some(cause) => Some(cause),
        None => cause_of_races(evidence),
    };
    or_outgrown(evidence, further, cause)
}

/// Returns the cause `Outgrown` if many keys are added and few of them have contradictions, and `cause` is `None` or a
/// cause that `Outgrown` makes more precise. Otherwise returns `cause`.
fn or_outgrown(evidence: &Evidence, further: &Further, cause: Option<Cause>) -> Option<Cause> {
    let is_open = matches!(
        cause,
        None | Some(
            Cause::Replaced | Cause::ReplacedAtOnce | Cause::SharedPlace | Cause::BehindUnlinked
        )
    );
    if is_open && is_outgrown(evidence, further) {
        Some(Cause::Outgrown)
    } else {
        cause
    }
}
