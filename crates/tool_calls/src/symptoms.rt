//! Finds the contradictions of a key (two calls that no order explains), and the symptom of each: the effect of the bug
//! that a user sees, for example a lost key.

use crate::contradictions::{Clash, clashes_of};
use crate::key_calls::KeyCalls;
use crate::made_calls::{Made, Operation};
use crate::repairs::{Repairs, repairs_of};
use crate::stretches::{Stretch, stretches_of};
use lset_words::Presence;
use std::alloc::{AllocError, Global};

/// The symptom of a contradiction (two calls on a key that no order explains): the effect of the bug that a user
/// sees.
#[derive(Clone, Copy, PartialEq, Eq)]
pub enum Symptom {
    /// Only one reply is wrong, and its call changed nothing: a contains or remove returned false although the key was
    /// present.
    Missed(Operation),
    /// Only one reply is wrong, and its call changed nothing: a contains returned true, or an add false, although the
    /// key was absent.
    Found(Operation),
    /// Two overlapping adds or two overlapping removes both returned true, although only one of the two can have
    /// changed the key.
    BothTrue(Operation),
    /// A present key became absent without a remove that returned true.
    Lost,
    /// An absent key became present without an add that returned true.
    CameBack,
    /// None of the other symptoms. For example, several replies can be the wrong one, or no alteration of a single call
    /// explains the contradiction.
    Unclear,
}

/// A contradiction (two calls on a key that no order explains), with its symptom.
#[derive(Clone, Copy)]
pub struct Place {
    pub key: u32,
    /// The contradicting calls.
    pub clash: Clash,
    /// The effect of the bug that a user sees.
    pub symptom: Symptom,
    /// The call with the wrong reply, if only one reply is wrong. Always a call that changed nothing.
    pub wrong: Option<Made>,
    /// The only add or remove that returned false and would explain the contradiction if it had returned true. `None`
    /// if `wrong` is a call.
    pub silent: Option<Made>,
    /// `true` if the opposite reply of some call makes the surrounding calls linearizable. Always `true` for
    /// `BothTrue`.
    pub is_turned: bool,
    /// The number of calls on the key that began by the end of the contradiction.
    pub begun: usize,
}

/// Returns the only element of `calls`; `None` if there are none or several.
fn only(calls: &[Made]) -> Option<Made> {
    match calls {
        [call] => Some(*call),
        _ => None,
    }
}

/// Returns the only call that changed nothing and explains the contradiction if it has the opposite reply. If
/// `contains` is true, considers only contains, otherwise only add and remove. `None` if there are none or several.
fn only_turned(
    alloc: Global,
    repairs: &Repairs,
    contains: bool,
) -> Result<Option<Made>, AllocError> {
    let mut found = Vec::new(alloc);
    for call in &repairs.turned {
        if call.reads() && (call.operation == Operation::Contains) == contains {
            found.push(*call)?;
        }
    }
    Ok(only(&found))
}

/// Returns the symptom if `call`, which changed nothing, has the only wrong reply: `Found` if the reply says that the
/// key was present, otherwise `Missed`.
pub fn symptom_of_reply(call: Made) -> Symptom {
    match call.needs() {
        Some(Presence::Present) => Symptom::Found(call.operation),
        _ => Symptom::Missed(call.operation),
    }
}

/// Returns the symptom if the key changed although no call changed it: `Lost` if the key `was` present, `CameBack` if
/// it was absent.
fn gone(was: Presence) -> Symptom {
    match was {
        Presence::Present => Symptom::Lost,
        Presence::Absent => Symptom::CameBack,
    }
}

/// Returns the operation of the two calls if the contradiction is between two overlapping adds, or two overlapping
/// removes, that both returned true. Otherwise returns `None`.
fn both_true(clash: &Clash) -> Option<Operation> {
    let (first, second) = (clash.first?, clash.second?);
    if clash.overlaps() && first.changes() && second.changes() {
        Some(first.operation)
    } else {
        None
    }
}

/// Returns the contradiction `clash` (two calls on a key that no order explains) with its symptom. `stretches` are all
/// groups of overlapping changes of the key. Allocates.
pub fn place_of(
    alloc: Global,
    key: &KeyCalls,
    stretches: &[Stretch],
    clash: Clash,
) -> Result<Place, AllocError> {
    let mut place = Place {
        key: key.key,
        clash,
        symptom: Symptom::Unclear,
        wrong: None,
        silent: None,
        is_turned: true,
        begun: key.begun_by(clash.until),
    };
    if let Some(operation) = both_true(&clash) {
        place.symptom = Symptom::BothTrue(operation);
        return Ok(place);
    }
    let repairs = repairs_of(alloc, key, stretches, &clash)?;
    place.is_turned = !repairs.turned.is_empty();
    if let Some(call) = only_turned(alloc, &repairs, true)? {
        place.symptom = symptom_of_reply(call);
        place.wrong = Some(call);
        return Ok(place);
    }
    if let Some(call) = only(&repairs.dropped) {
        place.symptom = symptom_of_reply(call);
        place.wrong = Some(call);
        return Ok(place);
    }
    place.silent = only_turned(alloc, &repairs, false)?;
    if repairs.change {
        place.symptom = gone(clash.was);
    }
    Ok(place)
}

/// Returns the contradictions of a key (two calls that no order explains) with their symptoms, ordered by time. If two
/// contradictions overlap each other in time, returns only one of the two. Allocates.
pub fn places_of(alloc: Global, key: &KeyCalls) -> Result<Vec<Place>, AllocError> {
    let stretches = stretches_of(alloc, key)?;
    let clashes = clashes_of(alloc, key, &stretches)?;
    let mut places = Vec::new(alloc);
    for clash in &clashes {
        places.push(place_of(alloc, key, &stretches, *clash)?)?;
    }
    Ok(places)
}

impl Place {
    /// Returns `true` if the symptom is that the key was lost or came back without a call that changed it.
    pub fn is_gone(&self) -> bool {
        matches!(self.symptom, Symptom::Lost | Symptom::CameBack)
    }

    /// Returns the duration of the contradiction in moments. Adds 1,000,000,000 if the contradiction needs a group of
    /// overlapping changes or the final state: other contradictions are easier to read and preferred.
    pub fn length(&self) -> u64 {
        let length = self.clash.until.saturating_sub(self.clash.begun());
        let is_long = self.clash.stretch.is_some() || self.clash.second.is_none();
        length.saturating_add(if is_long { 1_000_000_000 } else { 0 })
    }
}
