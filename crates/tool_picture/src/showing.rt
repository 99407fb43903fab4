//! Fills the picture of a diagnosis with calls and their marks. The picture shows a contradiction: the first call
//! leaves its key in one state, the second call needs the opposite state, and no call can have changed the key in
//! between. A change is an add or remove that returned true or is pending.

use crate::choosing::{Named, OTHER_KEY, symptom_of};
use crate::diagnosis::{Diagnosis, Mark, Shown};
use std::alloc::{AllocError, Global};
use tool_calls::{
    Clash, KeyCalls, Made, NEVER, Neighbours, Operation, Place, Runs, Symptom, is_expected, other,
    stretches_of,
};
use tool_facts::{Cause, Found, Odd, is_answer};

/// Returns the contradiction between the call `wrong`, which changed nothing, and a later call: the later call needs
/// the state opposite to the one that `wrong` found, and no call can have changed the key in between. `None` if no such
/// call is among the next `MOST_EARLIER` calls. `key` must not contain other wrong replies.
fn place_after(key: &KeyCalls, wrong: Made) -> Option<Place> {
    let was = wrong.needs()?;
    for call in key.after(wrong.ended).iter().take(MOST_EARLIER) {
        let is_needed = call.needs() == Some(other(was));
        if is_needed && !key.may_become(other(was), wrong.begun, call.ended) {
            let clash = Clash {
                first: Some(wrong),
                second: Some(*call),
                stretch: None,
                was,
                since: wrong.begun,
                until: call.ended,
            };
            return Some(Place {
                key: key.key,
                clash,
                symptom: symptom_of(wrong),
                wrong: Some(wrong),
                silent: None,
                is_turned: true,
                begun: key.begun_by(call.ended),
            });
        }
    }
    None
}

/// Returns the calls on a key without those that can have a wrong reply, except for `wrong`: leaves out the calls of
/// the operation `odd`, the only one with wrong replies, that changed nothing. Allocates.
pub(crate) fn with_one_answer(
    alloc: Global,
    key: KeyCalls,
    odd: Odd,
    wrong: Made,
) -> Result<KeyCalls, AllocError> {
    let mut calls = Vec::new(alloc);
    for call in &key.calls {
        if *call == wrong || !is_answer(*call, odd.operation) {
            calls.push(*call)?;
        }
    }
    let left = if odd.puts_left_aside { None } else { key.left };
    KeyCalls::new(alloc, key.key, calls, key.opening, left)
}

/// After this many calls on the key, less important calls are not added to the picture, since its lines are limited.
const MOST_SHOWN: usize = 3;

/// How many calls on the key are searched, counted back or forward from a moment, for those to draw. The limit bounds
/// the time.
const MOST_EARLIER: usize = 64;

/// The maximum number of calls in a picture for a key without two contradicting calls. With more calls, the picture
/// would not fit into a message.
const MOST_LAST: usize = 7;

/// The maximum number of changes of other keys (adds and removes that returned true) in the picture. With more calls,
/// the picture would not fit into a message.
const MOST_BESIDE: usize = 5;

/// At most this many changes of other keys (adds and removes that returned true) are counted, which bounds the time. If
/// the limit is reached, the picture says `many`.
pub(crate) const MOST_AROUND: usize = 1_000;

/// An earlier change of the key is not drawn if it began more than this many moments (times in the recording) before
/// the first contradicting call, which found the state that the change left.
const LONG_AGO: u64 = 200;

/// Returns the begin and end of the period for the changes of other keys in the picture: the time of the wrong reply
/// or, if no single reply is wrong, of the contradiction `place`. The first contradicting call is the period instead if
/// a removed node seems to stay linked (`UnlinkLost`), or if this call changed the key and no change of another key
/// overlaps the wrong reply.
fn time_of(place: &Place, neighbours: &Neighbours, cause: Option<Cause>) -> (u64, u64) {
    if let (Some(Cause::UnlinkLost), Some(first)) = (cause, place.clash.first) {
        return (first.begun, first.ended);
    }
    let Some(wrong) = place.wrong else {
        return (place.clash.begun(), place.clash.until);
    };
    match place.clash.first {
        Some(first)
            if first.changes() && !neighbours.overlap(place.key, wrong.begun, wrong.ended, None) =>
            { (first.begun, first.ended) }
        _ => (wrong.begun, wrong.ended),
    }
}

/// Returns `true` if `call` overlaps `change` in time. Returns `false` if `call` is `None`.
fn is_at(call: Option<Made>, change: &Made) -> bool {
    match call {
        Some(call) => change.overlaps(call.begun, call.ended),
        None => false,
    }
}

/// Returns those of `changes` (of other keys) that overlap one of the two contradicting calls of `clash`. Returns all
/// `changes` if none does, or if the contradiction does not begin with a call.
fn at_calls(alloc: Global, changes: Vec<Made>, clash: &Clash) -> Result<Vec<Made>, AllocError> {
    let mut found = Vec::new(alloc);
    for change in &changes {
        if is_at(clash.first, change) || is_at(clash.second, change) {
            found.push(*change)?;
        }
    }
    Ok(if clash.first.is_none() || found.is_empty() {
        changes
    } else {
        found
    })
}

/// Returns how much a change of another key explains the contradiction `clash` on `key`; the changes with the largest
/// weights are drawn. The order is: changes that the likely cause names, those that overlap the first contradicting
/// call, those that end after this call and by the end of the contradiction, the longest.
fn weight(change: &Made, key: u32, cause: Option<Cause>, clash: &Clash) -> u64 {
    let is_named = match cause {
        Some(Cause::Unlinked | Cause::WrittenBack) => {
            change.operation == Operation::Remove && change.key < key
        }
        Some(Cause::Displaced) => change.operation == Operation::Add,
        Some(Cause::Batch | Cause::BehindUnlinked | Cause::UnlinkLost) => {
            change.operation == Operation::Remove
        }
        Some(Cause::SharedPlace) => change.operation == Operation::Add,
        _ => false,
    };
    let length = change.ended.saturating_sub(change.begun);
    let beside = if is_at(clash.first, change) {
        AT_FIRST
    } else {
        0
    };
    let since = clash.first.map_or(0, |first| first.ended);
    let is_in = since < change.ended && change.ended <= clash.until;
    let ends = if is_in { ENDS_IN } else { 0 };
    let named = if is_named { OTHER_KEY } else { 0 };
    length
        .saturating_add(beside)
        .saturating_add(ends)
        .saturating_add(named)
}

/// The weight of a change of another key that overlaps the first of two contradicting calls, larger than any usual
/// duration in moments.
const AT_FIRST: u64 = 1_000_000_000;

/// The weight of a change of another key that ends after the first of two contradicting calls and by the end of the
/// second: smaller than `AT_FIRST`, but larger than usual durations in moments.
const ENDS_IN: u64 = 100_000_000;

/// Adds a call to the picture, without a mark, unless the picture already contains the call.
fn add(shown: &mut Vec<Shown>, call: Made) -> Result<(), AllocError> {
    if shown.iter().all(|one| one.call != call) {
        shown.push(Shown {
            call,
            mark: Mark::Nothing,
        })?;
    }
    Ok(())
}

/// Returns the call in `calls` that began at the same moment as `call`. Returns `call` if no call in `calls` did.
/// `calls` must be ordered by begin.
fn recorded_call(calls: &[Made], call: Made) -> Made {
    let at = calls.partition_point(|one| one.begun < call.begun);
    match calls.get(at) {
        Some(one) if one.begun == call.begun => *one,
        _ => call,
    }
}

impl Diagnosis {
    /// Returns `true` if the picture shows a contradiction that the verdict (the judge's answer) does not name, as an
    /// example of the bug.
    pub fn is_example(&self) -> bool {
        !self.is_first && !self.shown.is_empty()
    }

    /// Replaces the calls in the picture by those in `calls`, the calls of the whole recording ordered by begin. A call
    /// that is pending in a part of the recording can have ended later. Does not allocate.
    pub fn complete(&mut self, calls: &[Made]) {
        for one in &mut self.shown {
            one.call = recorded_call(calls, one.call);
        }
        for call in &mut self.beside {
            *call = recorded_call(calls, *call);
        }
        self.guilty = self.guilty.map(|call| recorded_call(calls, call));
    }

    /// Fills the picture if no contradiction was chosen: with the first wrong reply and a later call that contradicts
    /// it, if only one operation has wrong replies. If there is no wrong reply, fills the picture with the last calls
    /// on the first refused key (its calls are not linearizable).
    pub(crate) fn show_wrong(
        &mut self,
        alloc: Global,
        runs: &Runs<'_>,
        found: &Found,
        named: &Named,
        neighbours: &Neighbours,
    ) -> Result<(), AllocError> {
        self.second = found.wrong;
        if let (Some(odd), Some(wrong)) = (found.odd, found.wrong) {
            let key = with_one_answer(alloc, runs.calls_of(wrong.key)?, odd, wrong)?;
            if let Some(place) = place_after(&key, wrong) {
                self.is_first = named.is(&place);
                self.show(alloc, &key, place, neighbours)?;
            }
        }
        if self.shown.is_empty() && self.second.is_none() {
            self.show_last(&runs.calls_of(self.first_key)?)?;
        }
        Ok(())
    }

    /// Fills the picture for a key without two contradicting calls: with the call that began last by the moment
    /// `first_moment`, at which the key's calls are no longer linearizable, and with earlier changes of the key that
    /// overlap the calls in the picture. Draws at most `MOST_LAST` calls.
    fn show_last(&mut self, key: &KeyCalls) -> Result<(), AllocError> {
        let end = key.begun_by(self.first_moment);
        let earlier = key.calls.get(..end).unwrap_or(&[]);
        let mut since = NEVER;
        for call in earlier.iter().rev().take(MOST_EARLIER) {
            let is_first = self.shown.is_empty();
            let is_met = call.changes() && call.ended >= since;
            if (is_first || is_met) && self.shown.len() < MOST_LAST {
                add(&mut self.shown, *call)?;
                since = since.min(call.begun);
            }
        }
        self.shown.sort_unstable_by_key(|one| one.call.begun);
        Ok(())
    }

    /// Adds the two contradicting calls that the verdict (the judge's answer) names to the picture. Adds nothing if the
    /// verdict names none.
    pub(crate) fn show_named(&mut self, named: &Named) -> Result<(), AllocError> {
        match named.clash {
            Some(clash) => {
                self.add_if(clash.first)?;
                self.add_if(clash.second)
            }
            None => Ok(()),
        }
    }

    /// Returns `true` if a change of another key in the picture overlaps `call`. Returns `false` if `call` is `None`.
    fn runs_beside(&self, call: Option<Made>) -> bool {
        self.beside.iter().any(|change| is_at(call, change))
    }

    /// Adds a call to the picture, unless `call` is `None` or already in the picture.
    fn add_if(&mut self, call: Option<Made>) -> Result<(), AllocError> {
        match call {
            Some(call) => add(&mut self.shown, call),
            None => Ok(()),
        }
    }

    /// Sets the mark of a call in the picture. Does nothing if the picture does not contain the call.
    fn mark(&mut self, call: Made, mark: Mark) {
        for one in &mut self.shown {
            if one.call == call {
                one.mark = mark;
            }
        }
    }

    /// Fills the picture with the contradiction `place` on `key`: its calls, their marks, changes of other keys at the
    /// same time, and a later call. `neighbours` are the changes of all keys. Drops the likely cause if the picture
    /// does not show the call that must have caused a single wrong reply.
    pub(crate) fn show(
        &mut self,
        alloc: Global,
        key: &KeyCalls,
        place: Place,
        neighbours: &Neighbours,
    ) -> Result<(), AllocError> {
        self.symptom = place.symptom;
        self.key = place.key;
        self.was = place.clash.was;
        let is_before = place.wrong.is_some() && place.wrong == place.clash.first;
        self.second = if is_before {
            place.wrong
        } else {
            place.clash.second
        };
        self.until = place.clash.until;
        self.show_calls(alloc, key, &place)?;
        self.show_marks(alloc, key, &place)?;
        if place.clash.until < NEVER {
            self.show_beside(alloc, &place, neighbours)?;
        }
        let has_room = self.beside.is_empty() || self.shown.len() < MOST_SHOWN;
        if let Some(second) = place.clash.second.filter(|_| is_before) {
            self.mark(second, Mark::Finds(other(place.clash.was)));
        } else if self.evidence.odd.is_some() && self.runs_beside(place.wrong) {
            // No later call is added: the facts below the picture say what the next calls on the key found.
        } else if !place.is_gone() || has_room {
            self.later = self.call_after(key, &place);
            self.show_later()?;
        }
        self.shown.sort_unstable_by_key(|one| one.call.begun);
        self.guilty = self.guilty.or(self.guilty_of(&place));
        self.mark_guilty();
        if self.lacks_guilty() {
            self.cause = None;
        }
        Ok(())
    }

    /// Adds at most `MOST_BESIDE` changes of other keys that ran at the same time as the contradiction `place`, and
    /// chooses the guilty one: it probably caused the contradiction, and comes first. `neighbours` are the changes of
    /// all keys.
    fn show_beside(
        &mut self,
        alloc: Global,
        place: &Place,
        neighbours: &Neighbours,
    ) -> Result<(), AllocError> {
        let (since, until) = time_of(place, neighbours, self.cause);
        let (key, cause, clash) = (place.key, self.cause, place.clash);
        let changes = neighbours.around(alloc, key, since, until, MOST_AROUND)?;
        let has_all = changes.len() < MOST_AROUND;
        self.beside = match cause {
            Some(Cause::Displaced | Cause::Batch | Cause::Evicted) => changes,
            _ => at_calls(alloc, changes, &place.clash)?,
        };
        self.beside_count = if has_all {
            self.beside.len()
        } else {
            MOST_AROUND
        };
        let guilty = self.guilty_beside(place);
        self.guilty = guilty;
        self.beside.sort_unstable_by_key(|call| {
            if guilty == Some(*call) {
                0
            } else {
                !weight(call, key, cause, &clash)
            }
        });
        self.beside.truncate(MOST_BESIDE);
        Ok(())
    }

    /// Adds the calls of the contradiction `place`: the contradicting calls, the wrong reply, the changes that led to
    /// the state in which the contradiction begins, and calls on the key that returned false but can have changed the
    /// key.
    fn show_calls(
        &mut self,
        alloc: Global,
        key: &KeyCalls,
        place: &Place,
    ) -> Result<(), AllocError> {
        let clash = &place.clash;
        self.add_if(clash.first)?;
        self.add_if(clash.second)?;
        self.add_if(place.wrong)?;
        self.add_if(place.silent)?;
        if place.wrong != clash.first {
            self.show_change(key, clash)?;
        }
        self.show_stretch(key, clash)?;
        if self.evidence.odd.is_some() {
            self.show_around(key, place.wrong)?;
        }
        if place.is_gone() && place.clash.until < NEVER {
            let operation = Operation::that_makes(other(clash.was));
            let refusals = key.refusals(alloc, operation, clash.begun(), clash.until)?;
            for call in refusals.iter().take(2) {
                add(&mut self.shown, *call)?;
            }
        }
        if let Some(call) = place.wrong.or(clash.second).filter(|call| call.reads()) {
            let change = key.change_before(clash.was, call.ended);
            self.add_if(change.filter(|change| change.overlaps(call.begun, call.ended)))?;
        }
        Ok(())
    }

    /// Adds the group of overlapping changes of the key that leaves the state in which the contradiction `clash`
    /// begins, if there is such a group. Adds no more changes to a picture with 5 calls.
    fn show_stretch(&mut self, key: &KeyCalls, clash: &Clash) -> Result<(), AllocError> {
        let Some(stretch) = clash.stretch else {
            return Ok(());
        };
        self.add_if(stretch.read)?;
        for call in key.after(stretch.begun.saturating_sub(1)) {
            if call.begun > stretch.ended || self.shown.len() >= 5 {
                break;
            }
            if call.changes() {
                add(&mut self.shown, *call)?;
            }
        }
        Ok(())
    }

    /// Adds the change that brought the key into the state in which the contradiction `clash` begins, if the first
    /// contradicting call only found this state. Adds nothing if the change began more than `LONG_AGO` moments before
    /// this call.
    fn show_change(&mut self, key: &KeyCalls, clash: &Clash) -> Result<(), AllocError> {
        let Some(first) = clash.first.filter(|first| first.reads()) else {
            return Ok(());
        };
        match key.change_before(clash.was, first.begun) {
            Some(change) if change.begun.saturating_add(LONG_AGO) >= first.begun => {
                add(&mut self.shown, change)?;
                self.show_changes_during(key, change)
            }
            _ => Ok(()),
        }
    }

    /// Adds the changes of the key that overlap `change`, until the picture has 5 calls. Does nothing unless the likely
    /// cause is that the set is broken from one moment on (`Reused`), for example since a removed node was reused.
    fn show_changes_during(&mut self, key: &KeyCalls, change: Made) -> Result<(), AllocError> {
        if !matches!(self.cause, Some(Cause::Reused)) {
            return Ok(());
        }
        let end = key.begun_by(change.ended);
        let earlier = key.calls.get(..end).unwrap_or(&[]);
        for call in earlier.iter().rev().take(MOST_EARLIER) {
            let is_met = call.changes() && call.overlaps(change.begun, change.ended);
            if is_met && self.shown.len() < 5 {
                add(&mut self.shown, *call)?;
            }
        }
        Ok(())
    }

    /// Adds other adds and removes of the key that overlap the call `wrong`, successful or not, until the picture has
    /// `MOST_SHOWN` calls. Does nothing if `wrong` is `None`.
    fn show_around(&mut self, key: &KeyCalls, wrong: Option<Made>) -> Result<(), AllocError> {
        let Some(wrong) = wrong else {
            return Ok(());
        };
        let end = key.begun_by(wrong.ended);
        let earlier = key.calls.get(..end).unwrap_or(&[]);
        for call in earlier.iter().rev().take(MOST_EARLIER) {
            if self.shown.len() >= MOST_SHOWN {
                return Ok(());
            }
            let is_beside = call.operation != Operation::Contains && call.ended > wrong.begun;
            if is_beside && call.begun != wrong.begun {
                add(&mut self.shown, *call)?;
            }
        }
        Ok(())
    }

    /// Adds the call `later`, which confirms the contradiction, and marks it with the state of the key that it finds. A
    /// call that is already in the picture keeps its mark.
    fn show_later(&mut self) -> Result<(), AllocError> {
        let Some(later) = self.later else {
            return Ok(());
        };
        let is_shown = self.shown.iter().any(|one| one.call == later);
        self.add_if(self.later)?;
        if let Some(state) = later.needs().filter(|_| !is_shown) {
            self.mark(later, Mark::Finds(state));
        }
        Ok(())
    }

    /// Marks the calls of the contradiction `place`: the reply that was expected or, if no single reply is wrong, the
    /// state that each call leaves or finds.
    fn show_marks(
        &mut self,
        alloc: Global,
        key: &KeyCalls,
        place: &Place,
    ) -> Result<(), AllocError> {
        let clash = &place.clash;
        if matches!(place.symptom, Symptom::BothTrue(_)) {
            if let (Some(first), Some(second)) = (clash.first, clash.second) {
                self.mark(first, Mark::Either);
                self.mark(second, Mark::Either);
            }
            return Ok(());
        }
        if !clash.overlaps() {
            if let Some(first) = clash.first {
                self.mark(first, Mark::Leaves(clash.was));
            }
        }
        let stretches = stretches_of(alloc, key)?;
        // If overlapping calls on the key undid each other, the second call only shows the wrong state. Its reply is
        // right.
        let is_right = matches!(self.cause, Some(Cause::SameKey));
        let second = clash.second.filter(|_| place.wrong.is_none() && !is_right);
        for call in [place.wrong, place.silent, second].into_iter().flatten() {
            if is_expected(alloc, key, &stretches, clash, call)? {
                self.wrong = Some(call);
                self.mark(call, Mark::Expected(call.reply == Some(false)));
                return Ok(());
            }
        }
        self.mark_found(clash);
        Ok(())
    }

    /// Marks the second contradicting call with the state of the key that the call finds. If the two calls overlap,
    /// marks the first one, too.
    fn mark_found(&mut self, clash: &Clash) {
        let Some(second) = clash.second else {
            return;
        };
        if let Some(state) = second.needs() {
            self.mark(second, Mark::Finds(state));
        }
        if let Some(first) = clash.first.filter(|_| clash.overlaps()) {
            if let Some(state) = first.needs() {
                self.mark(first, Mark::Finds(state));
            }
        }
    }

    /// Returns the first call after the contradiction `place` that confirms it: a lost key is still absent, a returned
    /// key is still present, or the call disagrees with the wrong reply. `None` if a call can have changed the key
    /// before, or if none of the next 40 calls confirms the contradiction.
    fn call_after(&self, key: &KeyCalls, place: &Place) -> Option<Made> {
        let (state, since) = match place.symptom {
            Symptom::Missed(_) | Symptom::Found(_) => {
                let wrong = place.wrong?;
                (other(wrong.needs()?), wrong.begun)
            }
            Symptom::Lost | Symptom::CameBack => (other(place.clash.was), place.clash.begun()),
            _ => return None,
        };
        let until = place.clash.until;
        for call in key.after(until).iter().take(40) {
            let is_quiet = !key.may_become(state, since, call.ended);
            let before = call.begun.saturating_sub(1);
            if !is_quiet || key.may_become(other(state), until, before) {
                return None;
            }
            if call.needs() == Some(state) {
                return Some(*call);
            }
        }
        None
    }
}
