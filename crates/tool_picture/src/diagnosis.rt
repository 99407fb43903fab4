//! The diagnosis of a recording that is not linearizable, with the calls of its picture. The picture shows a
//! contradiction: two calls on one key that no order explains.

use crate::choosing::{named_by_verdict, place_shown};
use crate::showing::with_one_answer;
use lset_words::Presence;
use std::alloc::{AllocError, Global};
use tool_calls::{Made, Neighbours, Place, Refused, Runs, Symptom};
use tool_facts::{Cause, Evidence, Found, Further};

/// What the picture says about a call, to the right of its bar.
#[derive(Clone, Copy)]
pub enum Mark {
    /// The call has no note.
    Nothing,
    /// The call should have returned this. With this reply, the key's calls that had begun by the end of the call are
    /// linearizable; with the recorded reply, they are not.
    Expected(bool),
    /// The call leaves the key in this state, and no other call can have changed the key before the contradicting call.
    Leaves(Presence),
    /// The call finds the key in this state. The call is a contradicting call with no reply known to be wrong, or a
    /// later call that confirms the state.
    Finds(Presence),
    /// One of the two calls with this mark must return false.
    Either,
    /// The call probably caused the contradiction.
    Suspected,
}

/// A call on the key in the picture, with what the picture says about the call.
#[derive(Clone, Copy)]
pub struct Shown {
    pub call: Made,
    pub mark: Mark,
}

/// The diagnosis of a recording that is not linearizable.
#[derive(Drop)]
pub struct Diagnosis {
    /// The effect of the bug that a user sees, for example a lost key.
    pub symptom: Symptom,
    /// The key of the calls in the picture.
    pub key: u32,
    /// The state of the key (present or absent) in which the contradiction begins.
    pub was: Presence,
    /// The call that contradicts the state `was`, or the call with the wrong reply if the contradiction begins with
    /// this call. `None` if the final state contradicts `was`, or if no two contradicting calls were found.
    pub second: Option<Made>,
    /// The call that should have returned the opposite reply; `None` if no single reply is known to be wrong.
    pub wrong: Option<Made>,
    /// The calls on the key in the picture, ordered by begin.
    pub shown: Vec<Shown>,
    /// The adds and removes of other keys in the picture, which returned true and ran at the same time. The one that
    /// probably caused the contradiction comes first. The others are chosen by `weight` in showing.rt.
    pub beside: Vec<Made>,
    /// How many changes of other keys ran at the same time and could be drawn, at most 1,000. `beside` has some of
    /// them.
    pub beside_count: usize,
    /// All contradictions (two calls that no order explains), ordered by time, if there are at most `MOST_LISTED`.
    /// Otherwise empty, and also empty if only one operation has wrong replies.
    pub few: Vec<Place>,
    /// A later call that confirms the contradiction: the call finds the key as the contradicting call does or, if only
    /// one reply is wrong, as the right calls do.
    pub later: Option<Made>,
    /// The facts about the recording.
    pub evidence: Evidence,
    /// More facts about the recording.
    pub further: Further,
    /// The likely cause of the bug, if the facts suggest one.
    pub cause: Option<Cause>,
    /// The call in `shown` or `beside` that probably caused the contradiction, if the likely cause names a kind of
    /// call.
    pub guilty: Option<Made>,
    /// The key that is refused first: its calls are not linearizable.
    pub first_key: u32,
    /// The first moment (time in the recording) such that the calls on `first_key` up to this moment are not
    /// linearizable. `NEVER` if only the final state is wrong.
    pub first_moment: u64,
    /// The moment at which the contradiction in the picture ends; `NEVER` if the final state contradicts. Equal to
    /// `first_moment` if no contradiction is drawn.
    pub until: u64,
    /// `true` if the picture shows the contradiction that the verdict (the judge's answer whether the recording is
    /// linearizable) names.
    pub is_first: bool,
}

/// If there are at most this many contradictions (two calls that no order explains), the message lists each of them.
const MOST_LISTED: usize = 6;

/// Returns all contradictions in `found` (two calls that no order explains), ordered by time, if there are at most
/// `MOST_LISTED`. Otherwise returns an empty list, and also if only one operation has wrong replies. Allocates.
pub fn few_of(alloc: Global, found: &Found) -> Result<Vec<Place>, AllocError> {
    let mut few = Vec::new(alloc);
    if found.odd.is_none() && found.places.len() <= MOST_LISTED {
        few.extend_from_slice(&found.places)?;
        few.sort_unstable_by_key(|place| place.clash.begun());
    }
    Ok(few)
}

/// Creates a diagnosis without a picture. `first` is the key that is refused first (its calls are not linearizable).
/// `was` is the state (present or absent) to report for this key before the contradiction. Does not allocate.
pub fn undrawn(
    alloc: Global,
    first: Refused,
    was: Presence,
    evidence: Evidence,
    further: Further,
    cause: Option<Cause>,
) -> Diagnosis {
    Diagnosis {
        symptom: Symptom::Unclear,
        key: first.key,
        was,
        second: None,
        wrong: None,
        shown: Vec::new(alloc),
        beside: Vec::new(alloc),
        beside_count: 0,
        few: Vec::new(alloc),
        later: None,
        evidence,
        further,
        cause,
        guilty: None,
        first_key: first.key,
        first_moment: first.moment,
        until: first.moment,
        is_first: true,
    }
}

impl Diagnosis {
    /// Fills the picture: chooses a contradiction in `found` (two calls on one key that no order explains), and adds
    /// its calls with their marks. `first` is the key that is refused first, `neighbours` are the changes of all keys.
    /// Allocates.
    pub fn draw(
        &mut self,
        alloc: Global,
        runs: &Runs<'_>,
        found: &Found,
        first: Refused,
        neighbours: &Neighbours,
    ) -> Result<(), AllocError> {
        let named = named_by_verdict(alloc, runs, found, first)?;
        let Some(place) = place_shown(found, &named, self.cause, neighbours) else {
            return self.show_wrong(alloc, runs, found, &named, neighbours);
        };
        let key = runs.calls_of(place.key)?;
        let key = match (found.odd, place.wrong) {
            (Some(odd), Some(wrong)) => with_one_answer(alloc, key, odd, wrong)?,
            _ => key,
        };
        self.is_first = named.is(&place);
        if named.has_calls_of(&place) {
            self.show_named(&named)?;
        }
        self.show(alloc, &key, place, neighbours)
    }
}
