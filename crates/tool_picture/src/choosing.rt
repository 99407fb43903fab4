//! Chooses the contradiction that the picture of a diagnosis shows. A contradiction is a pair of calls on one key that
//! no order explains: the first leaves the key in one state, the second needs the opposite state, and no call can have
//! changed the key in between. The verdict (the judge's answer whether the recording is linearizable) can name a
//! contradiction, but another one can show the bug better.

use lset_words::Presence;
use std::alloc::{AllocError, Global};
use tool_calls::{
    Clash, Made, Neighbours, Operation, Place, Refused, Runs, Split, Symptom, place_of,
    stretches_of,
};
use tool_facts::{Cause, Found, Odd, is_answer, verdict_clash};

/// The contradiction that the verdict names (two calls that no order explains) is preferred to a shorter one if it
/// lasts at most this many moments (times in the recording). A longer picture is harder to read.
const SHORT: u64 = 300;

/// What the verdict names: the key that is refused first (its calls are not linearizable), and the contradicting calls,
/// if the judge found two.
#[derive(Clone, Copy)]
pub(crate) struct Named {
    /// The key, and the first moment such that its calls up to this moment are not linearizable.
    first: Refused,
    /// The two calls that the verdict names; `None` if it names none.
    pub(crate) clash: Option<Clash>,
    /// The contradiction between these calls with its symptom, the effect that a user sees.
    place: Option<Place>,
}

impl Named {
    /// Returns `true` if the contradiction `place` is between the two calls that the verdict names, or if its wrong
    /// reply is that of one of these calls.
    pub(crate) fn has_calls_of(&self, place: &Place) -> bool {
        match self.clash {
            Some(clash) => {
                let is_of = place.wrong == clash.first || place.wrong == clash.second;
                let (first, second) = (place.clash.first, place.clash.second);
                let are_same = first == clash.first && second == clash.second;
                are_same || (place.wrong.is_some() && is_of)
            }
            None => false,
        }
    }

    /// Returns `true` if the verdict names the contradiction `place`: its two calls, or its key and the moment at which
    /// the contradiction ends. If the verdict names no two calls, its key and a moment during the contradiction are
    /// enough.
    pub(crate) fn is(&self, place: &Place) -> bool {
        let moment = self.first.moment;
        let is_during = place.clash.begun() <= moment && moment <= place.clash.until;
        let is_named = place.clash.until == moment || (self.clash.is_none() && is_during);
        (place.key == self.first.key && is_named) || self.has_calls_of(place)
    }
}

/// Returns `true` if `call` ended, changed nothing, and is of the operation `odd`, the only one with wrong replies.
/// Returns `false` if `call` is `None`.
fn is_odd(call: Option<Made>, odd: &Odd) -> bool {
    match call {
        Some(call) => is_answer(call, odd.operation),
        None => false,
    }
}

/// Returns the symptom (the effect that a user sees) if `wrong` has the only wrong reply: `Found` if the reply says
/// that the key was present, otherwise `Missed`.
pub(crate) fn symptom_of(wrong: Made) -> Symptom {
    match wrong.needs() {
        Some(Presence::Present) => Symptom::Found(wrong.operation),
        _ => Symptom::Missed(wrong.operation),
    }
}

/// Returns the contradiction `clash`, which the verdict names, with its symptom, if exactly one of its two calls can
/// have a wrong reply: the call changed nothing, and is of the operation `odd`, the only one with wrong replies.
/// Otherwise returns `None`.
fn place_of_odd(runs: &Runs<'_>, odd: &Odd, clash: Clash) -> Option<Place> {
    let wrong = match (is_odd(clash.first, odd), is_odd(clash.second, odd)) {
        (true, false) => clash.first?,
        (false, true) => clash.second?,
        _ => return None,
    };
    let calls = runs.made_of(wrong.key);
    Some(Place {
        key: wrong.key,
        clash,
        symptom: symptom_of(wrong),
        wrong: Some(wrong),
        silent: None,
        is_turned: true,
        begun: calls.partition_point(|call| call.begun <= clash.until),
    })
}

/// Returns the contradiction `clash`, which the verdict names, with its symptom (the effect that a user sees). `None`
/// if `clash` has no call, or if one operation alone has wrong replies and the wrong reply is unclear.
fn place_named(
    alloc: Global,
    runs: &Runs<'_>,
    found: &Found,
    clash: Clash,
) -> Result<Option<Place>, AllocError> {
    if let Some(odd) = &found.odd {
        return Ok(place_of_odd(runs, odd, clash));
    }
    let Some(call) = clash.second.or(clash.first) else {
        return Ok(None);
    };
    let key = runs.calls_of(call.key)?;
    let stretches = stretches_of(alloc, &key)?;
    Ok(Some(place_of(alloc, &key, &stretches, clash)?))
}

/// Returns how badly a contradiction (two calls that no order explains) shows the bug; the one with the smallest
/// number is drawn. `shows` is whether the contradiction is an example of the likely cause. The contradiction that the
/// verdict names has 0 if it is an example and short. The others are ordered by duration: first those of the verdict's
/// key, then those of other keys, last those that are no example.
fn rank(place: &Place, named: &Named, shows: bool) -> u64 {
    let length = place.length();
    if shows && length <= SHORT && named.is(place) {
        return 0;
    }
    let other_key = if place.key == named.first.key {
        0
    } else {
        OTHER_KEY
    };
    let other_kind = if shows { 0 } else { OTHER_KIND };
    length
        .saturating_add(1)
        .saturating_add(other_key)
        .saturating_add(other_kind)
}

/// Added to the duration (in moments) of a contradiction on another key than the verdict's, larger than any usual
/// duration. Also the weight of a change of another key that the likely cause names (see `weight` in showing.rt).
pub(crate) const OTHER_KEY: u64 = 1_000_000_000_000;

/// Added to the duration (in moments) of a contradiction that is no example of the likely cause: larger than
/// `OTHER_KEY`, and the result is ranked last.
const OTHER_KIND: u64 = 1_000_000_000_000_000;

/// Returns `true` if an add or remove of another key that returned true overlaps the contradiction `place` in time. If
/// `operation` is not `None`, considers only this operation.
fn is_beside(place: &Place, neighbours: &Neighbours, operation: Option<Operation>) -> bool {
    neighbours.overlap(place.key, place.clash.begun(), place.clash.until, operation)
}

/// Returns `true` if the two calls of the contradiction `place` do not overlap each other, and no add or remove of
/// another key that returned true overlaps either of them.
fn is_apart(place: &Place, neighbours: &Neighbours) -> bool {
    for call in [place.clash.first, place.clash.second]
        .into_iter()
        .flatten()
    {
        if neighbours.overlap(place.key, call.begun, call.ended, None) {
            return false;
        }
    }
    !place.clash.overlaps()
}

/// Returns `true` if the contradiction `place` (two calls that no order explains) is an example of the likely cause.
/// `is_odd` is whether only one operation has wrong replies.
fn shows(place: &Place, cause: Option<Cause>, is_odd: bool, neighbours: &Neighbours) -> bool {
    let (since, until) = (place.clash.begun(), place.clash.until);
    match cause {
        Some(Cause::AddChecks) => place.symptom == Symptom::BothTrue(Operation::Add),
        Some(Cause::RemoveChecks) => place.symptom == Symptom::BothTrue(Operation::Remove),
        Some(Cause::BothCheck | Cause::CheckThenAct) => {
            matches!(place.symptom, Symptom::BothTrue(_))
        }
        Some(Cause::EarlierLook) => {
            matches!(place.symptom, Symptom::BothTrue(_))
                || (place.is_gone() && place.silent.is_some())
        }
        Some(Cause::MadeAgain | Cause::CarriedOutTwice) => {
            place.is_gone() && place.silent.is_some()
        }
        Some(Cause::KeptTwice | Cause::OneThread | Cause::Overflow) => is_apart(place, neighbours),
        Some(Cause::GoesOn) => place.symptom == Symptom::Lost && place.clash.stretch.is_some(),
        Some(Cause::Unlinked | Cause::WrittenBack) => {
            place.is_gone() && neighbours.unlink_below(place.key, since, until)
        }
        Some(Cause::Displaced) => {
            place.is_gone() && is_beside(place, neighbours, Some(Operation::Add))
        }
        Some(Cause::Batch) => {
            place.is_gone() && is_beside(place, neighbours, Some(Operation::Remove))
        }
        Some(
            Cause::OldLink
            | Cause::OtherKeys
            | Cause::OldCopy
            | Cause::OldCopyAtOnce
            | Cause::OtherKey
            | Cause::SharedWord
            | Cause::SharedPlace
            | Cause::BehindUnlinked,
        ) => { place.is_gone() && is_beside(place, neighbours, None) }
        Some(Cause::GivesUp) => place.wrong.is_some(),
        Some(Cause::UnlinkLost) => match place.clash.first {
            Some(first) => {
                let remove = Some(Operation::Remove);
                neighbours.overlap(place.key, first.begun, first.ended, remove)
            }
            None => false,
        },
        Some(
            Cause::MovedKeys
            | Cause::ReadsParts
            | Cause::MovedForAll
            | Cause::AddGivesUp
            | Cause::RemoveShortcut
            | Cause::GivesUpBeside,
        ) => match place.wrong {
            Some(wrong) => neighbours.overlap(wrong.key, wrong.begun, wrong.ended, None),
            None => true,
        },
        _ => is_odd || place.symptom != Symptom::Unclear,
    }
}

/// Returns `true` if the contradiction `place` is on the key of a split (a period in which calls disagree about an
/// unchanged key) and ends after the split has begun.
fn is_in(place: &Place, split: &Split) -> bool {
    place.key == split.key && place.clash.until > split.since
}

/// Returns the contradiction to draw for a long split (a period in which many calls disagree about an unchanged key):
/// the one that the verdict names, if it is in the split, otherwise the first in the split. `None` if there is no long
/// split.
fn place_in_split(found: &Found, named: &Named) -> Option<Place> {
    let split = found.split.filter(|split| split.is_long())?;
    if let Some(place) = named.place {
        if is_in(&place, &split) {
            return Some(place);
        }
    }
    for place in &found.places {
        if is_in(place, &split) {
            return Some(*place);
        }
    }
    None
}

/// Returns the contradiction to draw (two calls that no order explains): one in a long split (a period in which many
/// calls disagree about an unchanged key) or, without such a split, the one with the smallest `rank`. `None` if no
/// contradiction was found.
pub(crate) fn place_shown(
    found: &Found,
    named: &Named,
    cause: Option<Cause>,
    neighbours: &Neighbours,
) -> Option<Place> {
    let in_split = place_in_split(found, named);
    if in_split.is_some() {
        return in_split;
    }
    let is_odd = found.odd.is_some();
    let mut best = named.place;
    let mut least = match &named.place {
        Some(place) => rank(place, named, shows(place, cause, is_odd, neighbours)),
        None => u64::MAX,
    };
    for place in &found.places {
        let rank = rank(place, named, shows(place, cause, is_odd, neighbours));
        if best.is_none() || rank < least {
            best = Some(*place);
            least = rank;
        }
    }
    best
}

/// Returns what the verdict names: the refused key `first` (its calls are not linearizable), and the contradicting
/// calls, if the judge names two.
pub(crate) fn named_by_verdict(
    alloc: Global,
    runs: &Runs<'_>,
    found: &Found,
    first: Refused,
) -> Result<Named, AllocError> {
    let mut named = Named {
        first,
        clash: verdict_clash(alloc, runs.recorded)?,
        place: None,
    };
    if let Some(clash) = named.clash {
        named.place = place_named(alloc, runs, found, clash)?;
    }
    Ok(named)
}
