//! Guesses the likely cause if one operation alone is wrong.
//!
//! An *answer* is a call that changed nothing. An operation *alone is wrong* if some order explains all calls except its
//! answers. A *wrong answer* is an answer of this operation that no order explains together with the other operations'
//! calls. `Odd` counts the wrong answers: `found` an absent key, or `missed` a present key. Its other fields count how many
//! overlap other calls:
//!
//! - `running`: a change of the key to the state that the answer did not see. `starting`: a change to the state it saw.
//! - `same`: another add or remove of the key. `beside`: a change of another key (`adding`, `removing`: by an add, by a
//!   remove). `active`: one of these. `writing`: an add or remove of any key. A field `usual..` is the percentage of the
//!   operation's right answers that overlap such a call.
//! - `apart`: no two calls overlapped during the answer and since the call that it contradicts (of `placed` that were
//!   checked).
//! - `then_right`, `then_wrong`: the next answer for the key, with no change in between, was right or wrong.
//! - `by_same`, `by_others`: a change that had ended was not seen; the thread of the answer, or another thread, made it.
//! - `own`: the last call on the key by the same thread had left the key in the state that the answer saw.
//! - `lonely`, `largest`: no other key, or no larger key, was known to be present (of `compared` that were checked).

use crate::patterns::{Pattern, is_borrowed};
use crate::shares::{ENOUGH, is_least, share_of_all};
use tool_calls::Operation;
use tool_facts::{Cause, Evidence, Further, Odd, Patterns};

/// Returns whether the wrong answers that missed a key overlap changes of other keys not only by chance: for that many
/// right answers, the probability would be less than one in four.
fn is_no_chance(odd: &Odd) -> bool {
    share_of_all(odd.usual, odd.missed) < 250_000
}

/// The minimum number of wrong answers for a guess from the calls that they overlap.
const LEAST_BESIDE: u64 = 8;

/// Returns whether nearly all wrong answers overlapped another add or remove of their key or a change of another key,
/// more often than by chance.
fn is_beside_others(odd: &Odd) -> bool {
    odd.wrong >= LEAST_BESIDE
        && is_least(odd.active, odd.wrong, 90)
        && share_of_all(odd.usually_active, odd.wrong) < 100_000
}

/// Returns whether all of at least five wrong answers overlapped another add or remove of their key or a change of
/// another key, and the chance of that is less than one in a thousand.
fn is_beside_each(odd: &Odd) -> bool {
    odd.wrong >= ENOUGH
        && odd.active == odd.wrong
        && share_of_all(odd.usually_active, odd.wrong) < 1_000
}

/// Returns `true` if `some` is at least three quarters of the wrong answers that missed a present key.
fn are_most(some: u64, odd: &Odd) -> bool {
    some.saturating_mul(4) >= odd.missed.saturating_mul(3)
}

/// Returns whether at least one in ten wrong answers, and at least two, needed no overlapping calls.
fn needs_no_overlap(odd: &Odd) -> bool {
    odd.apart >= 2 && is_least(odd.apart, odd.placed, 10)
}

/// Returns whether the key that `contains` misses is nearly always the largest present key.
fn is_last(odd: &Odd) -> bool {
    let is_each = odd.compared >= 10 && is_least(odd.largest, odd.compared, 95);
    is_each && odd.keys >= 2 && odd.usually_largest <= 75
}

/// Returns the likely cause if only `contains` is wrong, and all its wrong answers miss present keys.
fn cause_of_misses(odd: &Odd) -> Option<Cause> {
    if is_size(odd) {
        Some(Cause::SizeFirst)
    } else if odd.running == odd.missed {
        Some(Cause::NotSeenYet)
    } else if is_last(odd) && !is_passing(odd) {
        Some(Cause::LastKey)
    } else if needs_no_overlap(odd) {
        Some(Cause::EndsEarly)
    } else if is_half_done(odd) {
        Some(Cause::HalfDone)
    } else if odd.beside < odd.wrong && is_passing_often(odd) {
        Some(Cause::ContainsGivesUp)
    } else if odd.beside < odd.wrong && is_often_beside(odd) && !is_lasting(odd) {
        (odd.wrong >= LEAST_MISSED).then_some(Cause::MovedOrShortcut)
    } else if odd.beside < odd.wrong {
        (odd.wrong >= LEAST_MISSED).then_some(Cause::Shortcut)
    } else if share_of_all(odd.usual, odd.wrong) < 100_000 {
        // (a key is missed while it is moved only if the change that moves it is running)
        Some(Cause::MovedKeys)
    } else if odd.wrong < LEAST_MISSED && odd.starting > 0 {
        // (the key can be absent, and the call that found it present wrong)
        None
    } else {
        Some(if is_lasting(odd) {
            Cause::Shortcut
        } else {
            Cause::MovedOrShortcut
        })
    }
}

/// Returns whether changes of other keys ran during most wrong answers, and other adds and removes, successful or not,
/// during all of them. (A call that returns false can move keys, too.)
fn is_often_beside(odd: &Odd) -> bool {
    odd.writing == odd.wrong && is_least(odd.beside, odd.wrong, 65)
}

/// The minimum number of wrong answers for the guess that `contains` does not look at the whole set.
const LEAST_MISSED: u64 = 3;

/// Returns whether other adds and removes of the key ran during most of many wrong answers, and clearly more often than
/// during other answers.
fn is_half_done(odd: &Odd) -> bool {
    let least = odd.usually_same.saturating_add(25).max(75);
    odd.wrong >= LEAST_BESIDE && is_least(odd.same, odd.wrong, least)
}

/// The minimum number of wrong answers for a guess, unless a fact applies to all or nearly all wrong answers.
const LEAST_WRONG: u64 = 20;

/// Returns whether the error lasts: with no change of the key in between, at least one in five next answers is wrong, too.
fn is_lasting(odd: &Odd) -> bool {
    let next = odd.then_right.saturating_add(odd.then_wrong);
    odd.is_exact && odd.then_wrong >= 3 && is_least(odd.then_wrong, next, 20)
}

/// Returns whether the error passes: with no change of the key in between, nearly all next answers are right.
fn is_passing(odd: &Odd) -> bool {
    let next = odd.then_right.saturating_add(odd.then_wrong);
    odd.is_exact && odd.then_right >= 3 && is_least(odd.then_right, next, 90)
}

/// Returns whether `contains` misses a key mostly while no other key is present, as if the set seemed to be empty, and more
/// often than by chance.
fn is_size(odd: &Odd) -> bool {
    let more_often = odd.usually_lonely.saturating_add(35);
    odd.compared >= 3
        && is_least(odd.lonely, odd.compared, more_often)
        && share_of_all(odd.usually_lonely, odd.lonely) < 50_000
}

/// Returns whether each of at least eight wrong answers repeats what the last call on the key by its own thread left.
fn is_own(odd: &Odd) -> bool {
    odd.wrong >= 8 && odd.own == odd.wrong
}

/// Returns the likely cause if only `contains` is wrong, and all its wrong answers find absent keys.
fn cause_of_finds(odd: &Odd) -> Option<Cause> {
    let is_once_present = odd.by_same.saturating_add(odd.by_others) > 0;
    if odd.running.saturating_mul(2) >= odd.found {
        let is_clear = odd.running == odd.found || odd.found >= LEAST_WRONG;
        is_clear.then_some(Cause::MarkNotRead)
    } else if odd.found >= 3 && is_least(odd.starting, odd.found, 90) {
        Some(Cause::SeenEarly)
    } else if odd.found >= 3 && odd.starting.saturating_mul(2) < odd.found && is_once_present {
        let unseen = odd.by_same.saturating_add(odd.by_others);
        let is_soon = odd.running > 0 && odd.found < 50 && is_least(odd.soon, unseen, 90);
        Some(if is_soon {
            Cause::MarkOrCopy
        } else {
            Cause::TakenLater
        })
    } else {
        None
    }
}

/// Returns the likely cause if only `contains` is wrong, and its wrong answers have a pattern that few causes leave.
fn cause_of_pattern(odd: &Odd, patterns: &Patterns) -> Option<Cause> {
    let is_both_ways = odd.missed > 0 && odd.found > 0;
    let is_foreign = is_least(patterns.foreign.count, patterns.foreign.of, 95);
    if is_both_ways && is_foreign && !is_own(odd) && Pattern::Foreign.is_clear(patterns) {
        Some(Cause::ThreadCopy)
    } else if is_both_ways && is_borrowed(patterns) {
        Some(Cause::Borrowed)
    } else {
        None
    }
}

/// Returns the likely cause if only `contains` is wrong.
fn cause_of_contains(odd: &Odd) -> Option<Cause> {
    if is_own(odd) && odd.found > 0 && odd.running.saturating_mul(2) < odd.wrong {
        Some(Cause::ThreadCache)
    } else if odd.missed > 0 && odd.found > 0 {
        let is_moved = odd.wrong >= 8 && is_least(odd.active, odd.wrong, 95);
        if is_moved && is_beside_others(odd) {
            Some(if is_half_done(odd) {
                Cause::HalfDone
            } else {
                Cause::ReadsParts
            })
        } else if is_passing(odd) && odd.active == odd.wrong {
            // (a copy that is updated late is wrong also while no change runs)
            None
        } else {
            Some(Cause::LateCopy)
        }
    } else if odd.found > 0 {
        cause_of_finds(odd)
    } else {
        cause_of_misses(odd)
    }
}

/// Returns the likely cause if only `remove` is wrong.
fn cause_of_remove(odd: &Odd) -> Option<Cause> {
    let is_beside = odd.beside == odd.missed && are_most(odd.adding, odd);
    let is_only_beside_adds = !is_least(odd.removing, odd.missed, 60);
    if odd.missed >= 3 && is_beside && is_only_beside_adds && is_no_chance(odd) {
        Some(Cause::RemoveShortcut)
    } else if needs_no_overlap(odd) {
        Some(Cause::EndsEarly)
    } else if odd.missed >= LEAST_WRONG
        || is_beside_each(odd)
        || (odd.missed >= 5 && is_passing(odd))
    {
        Some(Cause::RemoveGivesUp)
    } else {
        None
    }
}

/// Returns whether `add` seems to find a removed key present from then on: nearly all wrong answers are followed by
/// another one, and most removes that they did not see overlapped a remove of another key.
fn is_for_good(odd: &Odd, further: &Further) -> bool {
    let next = odd.then_right.saturating_add(odd.then_wrong);
    odd.is_exact
        && odd.then_wrong >= LEAST_WRONG
        && is_least(odd.then_wrong, next, 95)
        && further.unseen.of > 0
        && is_least(further.unseen.count, further.unseen.of, 60)
}

/// Returns whether there are many wrong answers, and most next answers for their keys are right.
fn is_passing_often(odd: &Odd) -> bool {
    let next = odd.then_right.saturating_add(odd.then_wrong);
    odd.wrong >= LEAST_WRONG && odd.is_exact && is_least(odd.then_right, next, 75)
}

/// Returns whether, for each of at least five wrong answers, another call began earlier and ended later, and the
/// probability of that by chance is less than one in a thousand.
pub(crate) fn is_outlasted_each(odd: &Odd, further: &Further) -> bool {
    odd.wrong >= ENOUGH
        && further.outlasted.count == odd.wrong
        && further.outlasted.usual <= 25
        && share_of_all(further.outlasted.usual, odd.wrong) < 1_000
}

/// Returns the likely cause if only `add` is wrong.
fn cause_of_add(odd: &Odd, further: &Further) -> Option<Cause> {
    if odd
        .running
        .saturating_add(odd.by_same)
        .saturating_add(odd.by_others)
        == 0
    {
        return None;
    }
    if is_for_good(odd, further) {
        Some(Cause::UnlinkLost)
    } else if is_outlasted_each(odd, further) {
        Some(Cause::AddGivesUp)
    } else if needs_no_overlap(odd) || odd.running.saturating_mul(2) >= odd.wrong {
        Some(Cause::AddSeesRemoved)
    } else if is_beside_others(odd) || is_beside_each(odd) {
        Some(Cause::AddGivesUp)
    } else if is_lasting(odd) {
        Some(Cause::AddSeesRemoved)
    } else {
        is_passing_often(odd).then_some(Cause::AddGivesUp)
    }
}

/// Returns the likely cause if one operation alone is wrong.
pub(crate) fn cause_of_odd(odd: &Odd, further: &Further, evidence: &Evidence) -> Option<Cause> {
    let keys = evidence.keys;
    let is_often = odd.wrong >= odd.keys.saturating_mul(2);
    let is_some = !is_least(odd.keys, keys, 75) && odd.wrong >= keys.saturating_mul(5);
    match odd.operation {
        Operation::Add => cause_of_add(odd, further),
        _ if odd.never_finds && is_often => Some(Cause::OneKey),
        _ if is_some && odd.is_exact && odd.missed > 0 && odd.found > 0 => Some(Cause::SomeKeys),
        Operation::Remove => cause_of_remove(odd),
        Operation::Contains => match cause_of_pattern(odd, &evidence.patterns) {
            None => cause_of_contains(odd),
            cause => cause,
        },
    }
}
