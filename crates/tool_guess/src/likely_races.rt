//! Guesses the likely cause if several operations have wrong replies, and calls that overlap are to blame (a race).
//!
//! A *contradiction* is a few calls on one key that no order explains. A *change* is an add or remove that returned true.
//! `Tally` counts contradictions by kind. A key was *lost*: it became absent although no remove returned true. A key *came
//! back*: it became present although no add returned true. *Both* of two overlapping adds, or removes, of a key returned
//! true. One call that changed nothing has a *wrong reply*. The kind of all *others* is unclear.
//!
//! The fields of `Tally` that the tests below compare:
//!
//! - `gone()`: losses and returns of keys. `timed()`: those that a call shows, not only the final keys.
//! - `turned`: those that one opposite reply would explain. `silent`: those that one more add or remove that returned true,
//!   instead of false, would explain.
//! - `beside`: those that overlap a change of another key; `usual` is the percentage of other periods of the same length
//!   that do. `below`: those that overlap a remove of a smaller key. `together`: those that overlap a loss or return of
//!   another key; `usually_together` is the percentage by chance.
//! - `made`: those that undo a known change. `own`: how many of these changes overlapped another change of the same key.
//!   `fits`: how many can be due to a change of another key that read the set before and wrote it afterwards.
//! - `crossed`: losses right after overlapping changes of the key, among them a remove. `placed`: losses that undo a known
//!   add; `with_add` and `with_remove` count the adds that overlapped an add, or a remove, of another key.
//! - `apart`: contradictions during which no two calls overlapped.

use crate::shares::{ENOUGH, is_least, is_share, share_of_all};
use tool_facts::{Cause, Evidence, Tally};

/// Returns whether the first calls on keys seem to be the cause: at least two contradictions, and nearly all, began while
/// the first calls on their keys ran, and no key came back. If other adds and removes of the same key overlapped at least
/// half of the undone changes, the probability by chance must be less than one in ten, otherwise less than one in a
/// thousand.
pub(crate) fn is_first_use(evidence: &Evidence) -> bool {
    let (first, own) = (evidence.meets.first, evidence.meets.own);
    let chance = share_of_all(first.usual, first.of);
    first.of >= 2
        && evidence.tally.came_back == 0
        && first.count == first.of
        && is_least(first.of, evidence.tally.places, 90)
        && chance
            < if is_least(own.count, own.of, 50) {
                100_000
            } else {
                1_000
            }
}

/// Returns `true` if losses and returns of keys overlap changes of other keys hardly more often than other periods do.
fn is_beside_by_chance(tally: &Tally) -> bool {
    let share = tally.beside.saturating_mul(100).checked_div(tally.timed());
    share.unwrap_or(0) <= tally.usual.saturating_add(15)
}

/// The minimum number of lost and returned keys for a guess, not counting keys that only the final state shows.
const LEAST_TIMED: u64 = 8;

/// Returns whether a change seems to be carried out twice: keys are often lost and often return, calls that returned
/// false can have made at least half of these changes, and at most 65 percent can be due to a change of another key
/// that wrote back an older state.
fn is_carried_out_twice(tally: &Tally) -> bool {
    let (lost, back) = (tally.lost, tally.came_back);
    let is_even = lost < back.saturating_mul(2) && back <= lost.saturating_mul(4);
    let is_alone = tally.fits.saturating_mul(100) <= tally.made.saturating_mul(65);
    let is_single = tally.both().saturating_mul(20) <= tally.places;
    let replies = tally.missed.saturating_add(tally.found);
    is_even
        && is_single
        && !is_least(replies, tally.places, 10)
        && tally.gone() >= MANY_GONE
        && is_alone
        && is_least(tally.silent, tally.gone(), 50)
}

/// The minimum number of losses and returns of keys for the guess that a change is carried out twice.
const MANY_GONE: u64 = 15;

/// Returns whether many contradictions are single wrong replies of calls that change nothing, and one opposite reply
/// would repair nearly all losses and returns of keys.
pub(crate) fn has_other_replies(tally: &Tally) -> bool {
    let replies = tally.missed.saturating_add(tally.found);
    is_share(replies, tally.places, 15) && is_least(tally.turned, tally.gone(), 85)
}

/// Returns the likely cause if changes of other keys write an older state back, so that keys are lost or return.
fn cause_of_old_state(evidence: &Evidence) -> Option<Cause> {
    let tally = &evidence.tally;
    let (lost, back) = (tally.lost, tally.came_back);
    let replies = tally.missed.saturating_add(tally.found);
    let is_twice = is_least(tally.both(), tally.places, 5);
    let is_often_twice = is_least(tally.both(), tally.places, 15);
    let is_even = lost.saturating_mul(3) < back.saturating_mul(4);
    let is_mostly_lost = lost.saturating_mul(10) >= back.saturating_mul(18);
    let is_below = evidence.keys <= FEW_KEYS && is_least(tally.below, tally.timed(), 85);
    let is_of_others = !is_least(tally.own, tally.made, 35);
    let least = if is_twice && is_even && is_of_others {
        70
    } else {
        75
    };
    if back == 0 && tally.both() == 0 && !is_with_change(tally) {
        None
    } else if lost >= back.saturating_mul(8) {
        cause_of_lost_adds(evidence)
    } else if is_often_twice && is_mostly_lost && !is_all_by_chance(tally) {
        Some(old_copy(tally, Cause::OldLink))
    } else if is_least(replies, tally.places, 10) {
        None
    } else if is_below && is_least(tally.removed, tally.timed(), 97) {
        Some(Cause::Unlinked)
    } else if tally.made >= 4 * ENOUGH && is_least(tally.fits, tally.made, least) {
        Some(old_copy(tally, Cause::OldCopy))
    } else if is_below {
        Some(Cause::WrittenBack)
    } else {
        None
    }
}

/// Returns whether `count` of `of` adds, with at least ten adds, is a percentage at least 20 larger than `usual`, the
/// percentage of all adds.
pub(crate) fn is_with(count: u64, of: u64, usual: u64) -> bool {
    of >= 2 * ENOUGH && is_least(count, of, usual.saturating_add(20).min(100))
}

/// Returns whether the adds of lost keys overlap adds or removes of other keys clearly more often than other adds do.
pub(crate) fn is_with_change(tally: &Tally) -> bool {
    is_with(tally.with_add, tally.placed, tally.usually_with_add)
        || is_with(tally.with_remove, tally.placed, tally.usually_with_remove)
}

/// Returns whether neither lost and returned keys nor the adds of lost keys overlap changes of other keys more often than
/// by chance.
fn is_all_by_chance(tally: &Tally) -> bool {
    is_beside_by_chance(tally) && !is_with_change(tally)
}

/// Returns whether adds seem to be lost: no key comes back, no key is removed twice, and at least one in ten
/// contradictions is a pair of adds that both returned true.
fn is_add_lost(tally: &Tally) -> bool {
    tally.came_back == 0
        && tally.both_removes == 0
        && tally.both_adds >= LEAST_BOTH
        && is_share(tally.both_adds, tally.places, 10)
}

/// Returns the likely cause if keys are lost and hardly ever return. Returns `None` if few keys were lost, or if the
/// keys have few calls: such keys can also be lost because a table or a bucket is created twice.
fn cause_of_lost_adds(evidence: &Evidence) -> Option<Cause> {
    let tally = &evidence.tally;
    let calls = evidence.calls.checked_div(evidence.keys).unwrap_or(0);
    let is_add = is_with(tally.with_add, tally.placed, tally.usually_with_add);
    let is_remove = is_with(tally.with_remove, tally.placed, tally.usually_with_remove);
    if tally.placed < 4 * ENOUGH || calls < MANY_CALLS {
        None
    } else if is_add_lost(tally) {
        Some(Cause::AddLost)
    } else if is_add && !is_remove {
        Some(Cause::SharedPlace)
    } else if is_remove && !is_add {
        Some(Cause::BehindUnlinked)
    } else if is_beside_by_chance(tally) && !is_add {
        None
    } else {
        Some(Cause::OldLink)
    }
}

/// Returns the cause that one operation writes an older copy back, if pairs of overlapping calls that both returned
/// true are nearly all of this operation. Otherwise returns `other`.
fn old_copy(tally: &Tally, other: Cause) -> Cause {
    let (adds, removes) = (tally.both_adds, tally.both_removes);
    if adds >= 2 * ENOUGH && adds >= removes.saturating_mul(10) {
        Cause::OldCopyByAdd
    } else if removes >= ENOUGH && removes >= adds.saturating_mul(10) {
        Cause::OldCopyByRemove
    } else {
        other
    }
}

/// Returns whether nearly all of a few adds overlapped a kind of change that overlaps at most one in four of all adds.
/// Of at least eight adds, three quarters are enough. Of at least five, all but one are enough if the probability by
/// chance is less than one in a thousand. `usual` is the percentage of all adds that overlapped such a change.
fn is_each_with(count: u64, of: u64, usual: u64) -> bool {
    let ways = if count == of { 1 } else { of };
    let is_rare = share_of_all(usual, count).saturating_mul(ways) < 1_000;
    let is_nearly_each = of >= ENOUGH && count.saturating_add(1) >= of;
    let is_most = of >= LEAST_TIMED && is_least(count, of, 75);
    usual <= 25 && (is_most || (is_nearly_each && is_rare))
}

/// Returns the likely cause if few keys were lost, none came back, and the adds of all these keys overlapped adds, or
/// removes, of other keys.
fn cause_of_few_lost(tally: &Tally) -> Option<Cause> {
    let is_add = is_each_with(tally.with_add, tally.placed, tally.usually_with_add);
    let is_remove = is_each_with(tally.with_remove, tally.placed, tally.usually_with_remove);
    if tally.came_back > 0 || tally.both_removes > 0 || is_add == is_remove {
        None
    } else if is_add {
        Some(Cause::SharedPlace)
    } else {
        Some(Cause::BehindUnlinked)
    }
}

/// Returns whether wrong replies of different keys often share time, more often than by chance.
pub(crate) fn has_crossed_replies(tally: &Tally) -> bool {
    let least = tally.usually_crossed.saturating_add(25).max(50);
    tally.replies >= 4 * ENOUGH && is_least(tally.crossed_replies, tally.replies, least)
}

/// Returns whether keys are often lost and often come back, many contradictions have a single wrong reply, and wrong
/// replies of different keys share time more often than by chance.
fn is_mixed(tally: &Tally) -> bool {
    let replies = tally.missed.saturating_add(tally.found);
    let is_both_ways = tally.lost.min(tally.came_back) >= 2 * ENOUGH;
    is_both_ways
        && is_share(replies, tally.places, 18)
        && is_least(
            tally.crossed_replies,
            tally.replies,
            tally.usually_crossed.saturating_add(10),
        )
}

/// Returns whether calls seem to be carried out with the keys of other calls: while a key is lost during its add,
/// another key returns, and while a key returns after its remove, another key was lost during the remove.
fn is_of_other_calls(tally: &Tally) -> bool {
    let some = tally.swapped.saturating_add(tally.swapped_adds);
    let all = tally.undone.saturating_add(tally.unadded);
    tally.swapped >= 4 && tally.swapped_adds >= 4 && is_least(some, all, 60)
}

/// Returns whether removes seem to remove another key instead of their own: while a remove runs after which its key comes
/// back, another key is lost. Wrong replies must be rare.
pub(crate) fn is_of_other_key(tally: &Tally) -> bool {
    let replies = tally.missed.saturating_add(tally.found);
    let is_beside = is_with(tally.with_remove, tally.placed, tally.usually_with_remove);
    let is_written_over = is_least(tally.fits, tally.made, 60);
    let least = if is_beside && is_least(tally.both_removes, tally.places, 10) {
        50
    } else {
        60
    };
    let is_clear = !is_written_over || least == 50;
    tally.swapped >= 4
        && is_least(tally.swapped, tally.undone, least)
        && is_clear
        && !is_least(replies, tally.places, 10)
}

/// Returns the likely cause if keys were lost and returned.
fn cause_of_gone(evidence: &Evidence) -> Option<Cause> {
    let tally = &evidence.tally;
    let is_written_over = is_least(tally.fits, tally.made, 60);
    if is_of_other_calls(tally) && !is_written_over {
        return Some(Cause::OtherCall);
    }
    if is_of_other_key(tally) {
        return Some(Cause::OtherKey);
    }
    let few = cause_of_few_lost(tally);
    if few.is_some() || tally.timed() < LEAST_TIMED {
        return few;
    }
    if has_other_replies(tally) {
        return Some(if has_crossed_replies(tally) {
            Cause::OtherReply
        } else {
            Cause::EarlierLook
        });
    }
    if is_mixed(tally) {
        return Some(Cause::MixedCalls);
    }
    if is_carried_out_twice(tally) {
        return Some(Cause::CarriedOutTwice);
    }
    if !is_share(tally.beside, tally.timed(), 90) {
        let is_own = is_least(tally.own, tally.made, 60);
        return if evidence.keys > 1 && is_own && is_beside_by_chance(tally) {
            Some(Cause::NoLock)
        } else {
            None
        };
    }
    cause_of_old_state(evidence)
}

/// Returns whether keys are lost or return at the same time as another key, and this is rare at other times.
pub(crate) fn is_rarely_together(tally: &Tally) -> bool {
    tally.together >= 2
        && tally.usually_together <= RARE
        && is_least(tally.together, tally.timed(), 35)
}

/// Returns whether the adds of all lost keys overlap an add and a remove of other keys, and this is rare among all
/// adds.
fn is_rarely_beside(tally: &Tally) -> bool {
    let is_each = tally.with_add == tally.placed && tally.with_remove == tally.placed;
    is_each
        && tally.placed >= 2
        && tally.usually_with_add <= RARE
        && tally.usually_with_remove <= RARE
}

/// An event is rare if it happens at most this often, in percent.
const RARE: u64 = 5;

/// Returns whether a copy of a small set seems to overwrite newer changes of several keys: keys come back, several keys
/// are undone at once, although this is rare by chance, and wrong replies are few.
pub(crate) fn is_old_copy_at_once(evidence: &Evidence) -> bool {
    let tally = &evidence.tally;
    let replies = tally.missed.saturating_add(tally.found);
    tally.timed() >= 4
        && tally.came_back > 0
        && evidence.keys <= FEW_KEYS
        && tally.beside.saturating_mul(10) >= tally.timed().saturating_mul(9)
        && tally.others.saturating_mul(2) <= tally.places
        && replies.saturating_mul(10) <= tally.places
        && !is_first_use(evidence)
        && (is_rarely_together(tally) || is_rarely_beside(tally))
}

/// Returns `true` if replies seem to be determined by an earlier read, not by the changes themselves.
pub(crate) fn is_earlier_look(tally: &Tally) -> bool {
    let (both, gone) = (tally.both(), tally.gone());
    let is_enough = gone >= 2 * ENOUGH && both >= 3 && is_share(both, tally.places, 5);
    let is_each = gone >= 4 * ENOUGH && is_share(tally.turned, gone, 97);
    let is_all = gone >= 2 * ENOUGH && both >= 2 && tally.turned == gone;
    is_each || is_all || (is_enough && is_share(tally.turned, gone, 95))
}

/// If keys have on average at least this many calls, it is no coincidence that each key has only one contradiction.
pub(crate) const MANY_CALLS: u64 = 30;

/// Returns the likely cause if several operations are wrong while calls overlap.
pub(crate) fn cause_of_races(evidence: &Evidence) -> Option<Cause> {
    let tally = &evidence.tally;
    if is_add_lost(tally) && is_least(tally.lost, tally.places, 60) {
        return Some(Cause::AddLost);
    }
    let is_mostly_lost = tally.came_back.saturating_mul(4) <= tally.lost;
    let has_few_twice = tally.both().saturating_mul(5) <= tally.places;
    if has_few_twice && is_mostly_lost && is_share(tally.crossed, tally.lost, 60) {
        return Some(Cause::GoesOn);
    }
    if is_earlier_look(tally) {
        let usual = tally.usually_together.saturating_add(6);
        let is_of_pairs = tally.both_adds > 0
            && tally.both_removes > 0
            && is_least(tally.both(), tally.places, 10);
        let is_apart = is_of_pairs && !is_least(tally.together, tally.timed(), usual);
        return Some(if has_crossed_replies(tally) && !is_least(tally.both(), tally.places, 10) {
            Cause::OtherReply
        } else if is_apart {
            Cause::BothCheck
        } else {
            Cause::EarlierLook
        });
    }
    let calls = evidence.calls.checked_div(evidence.keys).unwrap_or(0);
    if tally.unplaced == 0 && tally.places == tally.keys && tally.keys >= 8 && calls >= MANY_CALLS {
        return Some(Cause::Replaced);
    }
    if tally.others.saturating_mul(2) > tally.places {
        return None;
    }
    cause_of_gone(evidence)
}

/// In recordings with more keys, a contradiction lasts so long that a smaller key is often removed meanwhile by chance.
pub(crate) const FEW_KEYS: u64 = 16;

/// The minimum number of pairs of calls that both returned true for the guess that a check and the later write are not
/// atomic.
pub(crate) const LEAST_BOTH: u64 = 3;
