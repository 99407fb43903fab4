//! Writes the fact that supports a likely cause. In the message the fact follows the word `because`.
//!
//! A *contradiction* is a few calls on one key that no order explains. A *change* is an add or remove that returned true.
//! `Tally` counts contradictions, and `Odd` the wrong answers of an operation that alone is wrong: some order explains all
//! calls except its answers (its calls that changed nothing). Their fields are explained in `tool_facts`; `likely_odd` and
//! `likely_races` list those that matter here.

use crate::likely::{is_inserted_twice, is_undone_later};
use crate::likely_odd::is_outlasted_each;
use crate::likely_races::{is_rarely_together, is_with, is_with_change};
use crate::met::{Met, put_neither};
use crate::patterns::Pattern;
use crate::rates::{is_no_chance, put_ran};
use crate::shares::is_least;
use std::alloc::{AllocError, Global};
use tool_calls::{Made, NEVER};
use tool_facts::{Cause, Evidence, Further, Growth, Odd, Tally};

/// Writes the fact that supports `cause`, if only `contains` is wrong, and finds absent keys.
fn put_because_of_found(out: &mut String, odd: &Odd, cause: Cause) -> Result<(), AllocError> {
    let (running, found, own, wrong) = (odd.running, odd.found, odd.own, odd.wrong);
    let only = if odd.is_exact { "only " } else { "" };
    match cause {
        Cause::MarkNotRead if found == 1 => writeln!(
            out,
            "a successful or pending remove of the key was still running at the wrong answer"
        ),
        Cause::MarkNotRead => writeln!(
            out,
            "at {running} of the {found} wrong answers a successful or pending remove of the key was still running"
        ),
        Cause::SeenEarly => {
            let starting = odd.starting;
            writeln!(
                out,
                "at {starting} of the {found} wrong answers a successful or pending add of the key was still running"
            )
        }
        Cause::TakenLater => {
            let (latest, never) = (
                odd.latest,
                if odd.is_exact {
                    ", and never misses a present one"
                } else {
                    ""
                },
            );
            writeln!(
                out,
                "it finds keys up to {latest} moments after their remove has returned{never}"
            )
        }
        Cause::MarkOrCopy => writeln!(
            out,
            "it {only}finds absent keys, and at {running} of {found} of these answers a successful or pending remove of the key was still running"
        ),
        Cause::ThreadCache => writeln!(
            out,
            "before {own} of the {wrong} wrong answers, the last call of the key by the same thread had left the key in the state that contains returned"
        ),
        _ => writeln!(
            out,
            "it is wrong both ways, and without it all other calls have an order"
        ),
    }
}

/// Returns `checked ` if only some of the wrong answers were checked. The word precedes `wrong answers` in a sentence.
fn checked_word(some: u64, all: u64) -> &'static str {
    if some < all { "checked " } else { "" }
}

/// Writes the fact that supports `cause`, if only `contains` is wrong, and misses present keys.
fn put_because_of_missed(out: &mut String, odd: &Odd, cause: Cause) -> Result<(), AllocError> {
    let missed = odd.missed;
    let (compared, lonely) = (odd.compared, odd.lonely);
    let checked = checked_word(compared, odd.wrong);
    match cause {
        Cause::NotSeenYet if missed == 1 => writeln!(
            out,
            "a successful or pending add of the key was still running at the wrong answer"
        ),
        Cause::NotSeenYet => writeln!(
            out,
            "at all {missed} wrong answers a successful or pending add of the key was still running"
        ),
        Cause::SizeFirst => writeln!(
            out,
            "at {lonely} of {compared} {checked}wrong answers the last call of every other key had left that key absent"
        ),
        Cause::LastKey => {
            let largest = odd.largest;
            writeln!(
                out,
                "at {largest} of {compared} {checked}wrong answers the last call of every larger key had left that key absent"
            )
        }
        Cause::Shortcut if odd.beside < odd.wrong => {
            let (alone, wrong) = (odd.wrong.saturating_sub(odd.beside), odd.wrong);
            writeln!(
                out,
                "no change of another key ran during {alone} of the {wrong} wrong answers"
            )
        }
        _ if odd.is_exact => writeln!(out, "it misses present keys and never finds an absent one"),
        _ => writeln!(out, "it misses present keys"),
    }
}

/// Writes during how many wrong answers a change of another key ran. If this can be a coincidence, writes instead which
/// errors `contains` makes.
fn put_moved(out: &mut String, odd: &Odd, cause: Cause) -> Result<(), AllocError> {
    let is_often = is_least(odd.beside, odd.wrong, odd.usual.saturating_add(11));
    if !is_often || !is_no_chance(odd, odd.beside, odd.usual) {
        return put_because_of_missed(out, odd, cause);
    }
    put_ran(out, odd, "a change of another key", odd.beside, odd.usual)
}

/// Writes during how many wrong answers another add or remove of the key, or a change of another key, ran. If such calls
/// ran about as often during other answers, writes instead that all other calls have an order.
fn put_active(out: &mut String, odd: &Odd) -> Result<(), AllocError> {
    if !is_least(odd.active, odd.wrong, odd.usually_active.saturating_add(11)) {
        return out.push_str("without these answers all other calls have an order\n");
    }
    let what = "another add or remove of the key, or a change of another key,";
    put_ran(out, odd, what, odd.active, odd.usually_active)
}

/// Writes the fact that supports the cause `RemoveGivesUp`: during each wrong answer another call wrote or, if this is not
/// so, that all other calls have an order.
fn put_given_up(out: &mut String, odd: &Odd) -> Result<(), AllocError> {
    if odd.active == odd.wrong {
        put_active(out, odd)
    } else {
        out.push_str("without these answers all other calls have an order\n")
    }
}

/// Writes the fact that supports `cause`, if one operation alone is wrong.
fn put_because_of_odd(out: &mut String, odd: &Odd, cause: Cause) -> Result<(), AllocError> {
    let (missed, wrong, adding) = (odd.missed, odd.wrong, odd.adding);
    let (apart, placed) = (odd.apart, odd.placed);
    let checked = checked_word(placed, wrong);
    let (count, keys) = (odd.keys, if odd.keys == 1 { "key" } else { "keys" });
    match cause {
        Cause::MarkNotRead
        | Cause::SeenEarly
        | Cause::TakenLater
        | Cause::MarkOrCopy
        | Cause::ThreadCache
        | Cause::LateCopy => put_because_of_found(out, odd, cause),
        Cause::NotSeenYet | Cause::LastKey | Cause::SizeFirst | Cause::Shortcut =>
            put_because_of_missed(out, odd, cause),
        Cause::OneKey => writeln!(
            out,
            "it never found the {keys} of its {wrong} wrong answers, and found others"
        ),
        Cause::SomeKeys => writeln!(
            out,
            "its wrong answers are of {count} {keys}, and it is right about all others"
        ),
        Cause::RemoveShortcut => writeln!(
            out,
            "a successful add of another key ran during {adding} of the {missed} wrong answers"
        ),
        Cause::MovedKeys | Cause::MovedOrShortcut => put_moved(out, odd, cause),
        Cause::HalfDone => {
            let what = "another add or remove of the key";
            put_ran(out, odd, what, odd.same, odd.usually_same)
        }
        Cause::AddGivesUp | Cause::ContainsGivesUp | Cause::ReadsParts => put_active(out, odd),
        Cause::RemoveGivesUp => put_given_up(out, odd),
        Cause::EndsEarly => writeln!(
            out,
            "no two calls overlapped during {apart} of {placed} {checked}wrong answers, nor since the calls that these contradict"
        ),
        _ => writeln!(out, "without these answers all other calls have an order"),
    }
}

/// Writes the fact that supports the cause `InsertedTwice`: pairs of adds that both returned true, and removes after which
/// the key is still present.
fn put_because_of_twice(out: &mut String, tally: &Tally) -> Result<(), AllocError> {
    let (adds, doubled) = (tally.both_adds, tally.doubled);
    let (unseen, of) = (tally.unseen_removes, tally.followed_removes);
    if is_inserted_twice(tally) {
        return writeln!(
            out,
            "after {doubled} of {adds} pairs of adds that both returned true, two removes returned true, too, or the key was found after the next remove"
        );
    }
    writeln!(
        out,
        "{adds} contradictions are two adds that both returned true, and the next call of the key did not see {unseen} of {of} removes, although no opposite change ran in between"
    )
}

/// Writes the fact that supports `cause`, if keys are lost or come back, or two overlapping calls both returned true.
fn put_because_of_calls(out: &mut String, tally: &Tally, cause: Cause) -> Result<(), AllocError> {
    let (gone, both, places) = (tally.gone(), tally.both(), tally.places);
    let (silent, turned) = (tally.silent, tally.turned);
    let (crossed, lost) = (tally.crossed, tally.lost);
    let (adds, removes) = (tally.both_adds, tally.both_removes);
    match cause {
        Cause::GoesOn => writeln!(
            out,
            "before {crossed} of the {lost} times that a key was lost, a remove was among the overlapping changes of the key"
        ),
        Cause::EarlierLook | Cause::AddUndone => writeln!(
            out,
            "{turned} of the {gone} times that a key was lost or came back, an order would exist if one call had returned the opposite reply"
        ),
        Cause::MadeAgain => writeln!(
            out,
            "{silent} of the {gone} times that a key was lost or came back, a call that returned false can have made this change"
        ),
        Cause::CheckThenAct | Cause::BothCheck => writeln!(
            out,
            "{both} of {places} contradictions are two overlapping calls that both returned true"
        ),
        Cause::AddChecks | Cause::OldCopyByAdd => writeln!(
            out,
            "{adds} of {places} contradictions are two adds that both returned true, {removes} are two removes"
        ),
        Cause::RemoveChecks | Cause::OldCopyByRemove => writeln!(
            out,
            "{removes} of {places} contradictions are two removes that both returned true, {adds} are two adds"
        ),
        Cause::InsertedTwice => put_because_of_twice(out, tally),
        Cause::NeverFound => {
            let (lost, adds) = (tally.unseen_adds, tally.followed_adds);
            writeln!(
                out,
                "after {lost} of {adds} successful adds the next call found the key absent"
            )
        }
        _ => writeln!(out, "they disagree as long as nothing changes the key"),
    }
}

/// Writes the fact that supports the cause `UnlinkLost`: other removes ran during the removes that `add` did not see.
fn put_because_of_unlinks(
    out: &mut String,
    odd: &Odd,
    further: &Further,
) -> Result<(), AllocError> {
    let (removes, beside) = (further.unseen.of, further.unseen.count);
    let checked = checked_word(odd.placed, odd.wrong);
    if removes == 1 && beside == 1 {
        return out.push_str(
            "a successful remove of another key ran during the remove that add did not see, and nearly all later adds failed, too\n",
        );
    }
    writeln!(
        out,
        "a successful remove of another key ran during {beside} of {removes} {checked}removes that add did not see, and nearly all later adds failed, too"
    )
}

/// Writes the fact that supports the cause `Outgrown`: many keys are added, and few keys are affected.
fn put_because_of_growth(
    out: &mut String,
    evidence: &Evidence,
    growth: Growth,
) -> Result<(), AllocError> {
    let (keys, all) = (evidence.tally.keys, evidence.keys);
    let (from, to) = (growth.from, growth.to);
    let (active, moment) = (growth.active, growth.moment);
    writeln!(
        out,
        "many keys are added ({from} present at first, {to} at the end), {active} were in use at moment {moment}, and only {keys} of {all} keys are affected"
    )
}

/// Writes the fact that supports `cause`, if keys are lost and never return.
fn put_because_of_lost(out: &mut String, tally: &Tally, cause: Cause) -> Result<(), AllocError> {
    let (lost, sharp, short) = (tally.lost, tally.sharp, tally.short);
    let (added, removed, least) = (tally.displaced, tally.unlinked, tally.least_full);
    let never = match tally.found {
        0 => " and never come back",
        _ => "",
    };
    write!(out, "keys are lost ({lost}){never}, and at ")?;
    match cause {
        Cause::Displaced => writeln!(
            out,
            "{added} of {sharp} losses during one to six changes of other keys one of these is an add"
        ),
        Cause::Batch => writeln!(
            out,
            "{removed} of {sharp} losses during one to six changes of other keys one of these is a remove"
        ),
        _ => writeln!(
            out,
            "{short} losses that a call shows within 200 moments at least {least} keys were shown present"
        ),
    }
}

/// Returns `sampled ` if the percentages of all adds, or of all adds and removes, are of samples that leave some out.
fn sampled_word(tally: &Tally) -> &'static str {
    if tally.has_more_calls { "sampled " } else { "" }
}

/// Returns the cause for the changes of other keys that overlap the adds of lost keys more often than other adds:
/// `BehindUnlinked` for removes, otherwise `SharedPlace` for adds.
fn beside_adds(tally: &Tally) -> Cause {
    if is_with(tally.with_remove, tally.placed, tally.usually_with_remove) {
        Cause::BehindUnlinked
    } else {
        Cause::SharedPlace
    }
}

/// Writes the fact that supports `cause`, if the adds of lost keys overlapped changes of other keys, or were added twice.
fn put_because_of_adds(out: &mut String, tally: &Tally, cause: Cause) -> Result<(), AllocError> {
    let (lost, placed, both) = (tally.lost, tally.placed, tally.both_adds);
    let (count, usual, word) = match cause {
        Cause::SharedPlace => (tally.with_add, tally.usually_with_add, "add"),
        _ => (tally.with_remove, tally.usually_with_remove, "remove"),
    };
    let sampled = sampled_word(tally);
    match cause {
        Cause::AddLost => writeln!(
            out,
            "keys are lost ({lost}) and added twice ({both}), none comes back, and none is removed twice"
        ),
        _ => writeln!(
            out,
            "a successful {word} of another key ran during the add of {count} of the {placed} lost keys, but only during {usual}% of {sampled}successful adds"
        ),
    }
}

/// Writes the fact that supports `cause`, if changes take effect late, or the changes of different calls are mixed up.
fn put_because_of_mixed(out: &mut String, tally: &Tally, cause: Cause) -> Result<(), AllocError> {
    let (replies, crossed) = (tally.replies, tally.crossed_replies);
    let some = tally.swapped.saturating_add(tally.swapped_adds);
    let all = tally.undone.saturating_add(tally.unadded);
    match cause {
        Cause::EffectLate => {
            let (unseen, adds) = (tally.unseen_adds, tally.followed_adds);
            let (missed, removes) = (tally.unseen_removes, tally.followed_removes);
            writeln!(
                out,
                "the next call of the key did not see {unseen} of {adds} adds and {missed} of {removes} removes, although no opposite change ran in between"
            )
        }
        Cause::RemovedLater => {
            let (soon, placed, usual) = (tally.soon, tally.placed, tally.adds_soon);
            let all = tally.adds;
            writeln!(
                out,
                "{soon} of {placed} lost adds began before or at most 20 moments after the end of the last successful remove of their key (of all adds of these keys: {usual} of {all})"
            )
        }
        Cause::MovedForAll => {
            let (beside, missed) = (tally.missed_beside, tally.missed);
            writeln!(
                out,
                "{beside} of {missed} wrong answers, of more than one operation, overlapped a change of another key"
            )
        }
        Cause::ReadsParts => {
            let (missed, found, places) = (tally.missed, tally.found, tally.places);
            writeln!(
                out,
                "{missed} of {places} contradictions are a single reply that missed a present key, {found} are one that found an absent key"
            )
        }
        Cause::OtherReply | Cause::MixedCalls => writeln!(
            out,
            "at least {crossed} of {replies} contradictions that one other reply repairs share time with one of another key"
        ),
        _ => writeln!(
            out,
            "during at least {some} of {all} changes that were undone another key came back or was lost"
        ),
    }
}

/// Writes the fact that supports `cause`, if adds and removes give up.
fn put_because_of_refusals(
    out: &mut String,
    tally: &Tally,
    cause: Cause,
) -> Result<(), AllocError> {
    let (adds, removes) = (tally.refused_adds, tally.refused_removes);
    let (beside, usual) = (tally.refused_beside, tally.usually_refused_beside);
    let sampled = sampled_word(tally);
    write!(
        out,
        "{adds} adds of an absent key and {removes} removes of a present key returned false and changed nothing"
    )?;
    match cause {
        Cause::GivesUpBeside => writeln!(
            out,
            "; a change of another key ran during {beside} of them, but only during {usual}% of {sampled}adds and removes"
        ),
        _ => out.push_str("\n"),
    }
}

/// Writes the fact that supports the cause `SharedWord`: the undone changes of one key mostly overlap changes of one other
/// key.
fn put_because_of_pairs(out: &mut String, evidence: &Evidence) -> Result<(), AllocError> {
    let Some(bound) = evidence.bound else {
        return Ok(());
    };
    let (one, two, hits, of) = (bound.one, bound.two, bound.hits, bound.of);
    writeln!(
        out,
        "{hits} of {of} undone changes of key {one} overlapped changes of key {two}, and fewer overlapped those of any third key"
    )
}

/// Writes the fact that supports `cause`, if the set fails even without overlapping calls.
fn put_because_of_one(
    out: &mut String,
    evidence: &Evidence,
    cause: Cause,
) -> Result<(), AllocError> {
    let (tally, span) = (&evidence.tally, evidence.span);
    let (lost, back, undone) = (tally.lost, tally.came_back, tally.undone);
    let (apart, places) = (tally.apart, tally.places);
    let (only, never) = match tally.missed {
        0 => ("only ", ", and are never lost"),
        _ => ("", ""),
    };
    match cause {
        Cause::KeptTwice if lost == 0 => writeln!(
            out,
            "keys come back ({back}), {undone} times after a remove that returned true{never}"
        ),
        Cause::KeptTwice if tally.readded != lost => writeln!(
            out,
            "keys come back ({back}), {undone} times after a remove that returned true"
        ),
        Cause::KeptTwice => writeln!(
            out,
            "keys come back ({back}), {only}an add misses one ({lost}), and during {apart} of {places} contradictions no two calls overlapped"
        ),
        Cause::Overflow => writeln!(
            out,
            "during {apart} of {places} contradictions no two calls overlapped, and keys differ by up to {span}"
        ),
        _ => writeln!(
            out,
            "during {apart} of {places} contradictions no two calls overlapped"
        ),
    }
}

/// Writes the fact that supports `cause`, if keys are lost and come back.
fn put_because_of_gone(
    out: &mut String,
    evidence: &Evidence,
    cause: Cause,
) -> Result<(), AllocError> {
    let tally = &evidence.tally;
    let (lost, back, timed) = (tally.lost, tally.came_back, tally.timed());
    let (fits, made) = (tally.fits, tally.made);
    let (beside, alone, below, keys) = (tally.beside, tally.alone, tally.below, tally.keys);
    let (swapped, undone) = (tally.swapped, tally.undone);
    let (silent, gone) = (tally.silent, tally.gone());
    let (removed, together) = (tally.removed, tally.together);
    let (usually, usual) = (tally.usually_together, tally.usual);
    let quiet = 100u64.saturating_sub(usual);
    match cause {
        Cause::ReplacedAtOnce | Cause::OldCopyAtOnce => writeln!(
            out,
            "at least {together} of the {timed} times that a key was lost or came back, this happened to another key, too, meanwhile (expected by chance: {usually}%)"
        ),
        Cause::CarriedOutTwice => writeln!(
            out,
            "keys are lost ({lost}) and come back ({back}), and {silent} of {gone} times a call that returned false can have made this change"
        ),
        Cause::NoLock => writeln!(
            out,
            "no change of another key ran during {alone} of the {timed} times that a key was lost or came back (in other periods of this length: {quiet}%)"
        ),
        Cause::OldCopy => writeln!(
            out,
            "{fits} of {made} undone changes overlapped a change of another key that can have written an older state back"
        ),
        Cause::OldLink => writeln!(
            out,
            "keys are lost ({lost}) more than they come back ({back}), and a change of another key ran during {beside} of {timed} such contradictions (in other periods of this length: {usual}%)"
        ),
        Cause::Unlinked if evidence.is_first_spared => writeln!(
            out,
            "a smaller key was removed during {below} of the {timed} times that a key was lost or came back, and the smallest key is never affected"
        ),
        Cause::Unlinked | Cause::WrittenBack => writeln!(
            out,
            "a smaller key was removed during {below} of the {timed} times that a key was lost or came back, any other key during {removed}"
        ),
        Cause::OtherKey => writeln!(
            out,
            "another key was lost at {swapped} or more of the {undone} removes after which their key came back"
        ),
        _ => writeln!(out, "{keys} keys are affected, each once"),
    }
}

/// Returns the fact that supports the likely cause, followed by the call that is probably guilty, if there is one.
/// Allocates.
pub fn because_text(
    alloc: Global,
    evidence: &Evidence,
    further: &Further,
    guilty: Option<Made>,
    cause: Cause,
) -> Result<String, AllocError> {
    let mut fact = String::new(alloc);
    put_because(&mut fact, evidence, further, cause)?;
    let mut out = String::from_str(alloc, fact.as_str().trim_end())?;
    if let Some(call) = guilty {
        let (word, key, thread) = (call.operation.word(), call.key, call.thread);
        let begun = call.begun;
        write!(
            out,
            "; suspected: {word} {key} of thread {thread}, {begun} to "
        )?;
        match call.ended {
            NEVER => out.push_str("..")?,
            ended => write!(out, "{ended}")?,
        }
    }
    Ok(out)
}

/// Writes the fact that supports the cause `OtherReply`: two overlapping calls received each other's replies.
fn put_because_of_swap(out: &mut String, one: Made, two: Made) -> Result<(), AllocError> {
    let (first, second) = (one.operation.word(), two.operation.word());
    let (key, other) = (one.key, two.key);
    let (thread, beside) = (one.thread, two.thread);
    writeln!(
        out,
        "{first}({key}) of thread {thread} and {second}({other}) of thread {beside} ran at the same time, and the reply of each was expected of the other"
    )
}

/// Writes the fact that supports the cause `AddGivesUp`, if another call outlasts each wrong answer.
fn put_because_of_outlasted(
    out: &mut String,
    odd: &Odd,
    further: &Further,
) -> Result<(), AllocError> {
    let (some, wrong, usual) = (further.outlasted.count, odd.wrong, further.outlasted.usual);
    writeln!(
        out,
        "another call began before and ended after {some} of the {wrong} wrong answers, but only {usual}% of other answers"
    )
}

/// Writes the fact that supports the likely cause.
fn put_because(
    out: &mut String,
    evidence: &Evidence,
    further: &Further,
    cause: Cause,
) -> Result<(), AllocError> {
    if let Some((one, two)) = evidence.merged {
        return writeln!(
            out,
            "as calls of one key the calls of keys {one} and {two} have an order"
        );
    }
    if let Some(pattern) = Pattern::of(cause) {
        return pattern.put(out, &evidence.patterns);
    }
    if let Some(odd) = &evidence.odd {
        if matches!(cause, Cause::UnlinkLost) {
            return put_because_of_unlinks(out, odd, further);
        }
        if matches!(cause, Cause::AddGivesUp) && is_outlasted_each(odd, further) {
            return put_because_of_outlasted(out, odd, further);
        }
        return put_because_of_odd(out, odd, cause);
    }
    if let (Cause::OtherReply, Some((one, two))) = (cause, further.swap) {
        return put_because_of_swap(out, one, two);
    }
    match cause {
        Cause::FirstUse | Cause::FirstCalls => Met::FirstCalls.put(out, &evidence.meets),
        Cause::SameKey => Met::OwnKey.put(out, &evidence.meets),
        Cause::OtherKeys => Met::OtherKeys.put(out, &evidence.meets),
        Cause::GoesOn
        | Cause::AddUndone
        | Cause::EarlierLook
        | Cause::MadeAgain
        | Cause::CheckThenAct
        | Cause::BothCheck
        | Cause::AddChecks
        | Cause::RemoveChecks
        | Cause::OldCopyByAdd
        | Cause::OldCopyByRemove
        | Cause::InsertedTwice
        | Cause::NeverFound
        | Cause::TwoPlaces => put_because_of_calls(out, &evidence.tally, cause),
        Cause::Displaced | Cause::Batch | Cause::Evicted => {
            put_because_of_lost(out, &evidence.tally, cause)
        }
        Cause::ReplacedAtOnce if is_undone_later(evidence) => put_neither(out, &evidence.meets),
        Cause::OldCopyAtOnce if !is_rarely_together(&evidence.tally) => {
            put_because_of_adds(out, &evidence.tally, Cause::SharedPlace)
        }
        Cause::AddLost | Cause::SharedPlace | Cause::BehindUnlinked => {
            put_because_of_adds(out, &evidence.tally, cause)
        }
        Cause::OldLink if is_with_change(&evidence.tally) => {
            put_because_of_adds(out, &evidence.tally, beside_adds(&evidence.tally))
        }
        Cause::NoLock if Met::OwnKey.is_clear(&evidence.meets) => {
            Met::OwnKey.put(out, &evidence.meets)
        }
        Cause::ReadsParts
        | Cause::OtherReply
        | Cause::OtherCall
        | Cause::MixedCalls
        | Cause::Cancelled
        | Cause::EffectLate
        | Cause::RemovedLater
        | Cause::MovedForAll => { put_because_of_mixed(out, &evidence.tally, cause) }
        Cause::SharedWord => put_because_of_pairs(out, evidence),
        Cause::Reused => {
            let (moment, keys, all) = (further.moment, evidence.tally.keys, evidence.keys);
            writeln!(
                out,
                "the calls had an order until moment {moment}, and then {keys} of {all} keys are affected"
            )
        }
        Cause::Outgrown => match further.growth {
            Some(growth) => put_because_of_growth(out, evidence, growth),
            None => Ok(()),
        },
        Cause::GivesUp | Cause::GivesUpBeside | Cause::AddGivesUp | Cause::RemoveGivesUp => {
            put_because_of_refusals(out, &evidence.tally, cause)
        }
        Cause::KeptTwice | Cause::Overflow | Cause::OneThread => {
            put_because_of_one(out, evidence, cause)
        }
        _ => put_because_of_gone(out, evidence, cause),
    }
}
