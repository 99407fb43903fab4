//! Counts the contradictions in a recording that is not linearizable, by kind and by the calls that ran at the same
//! time.
//!
//! A contradiction (type `Place`): a call leaves its key in one state (present or absent), a later call on the key
//! needs the other state, and no change of the key can have come between. The contradiction lasts from the begin of the
//! first of these calls to the end of the second. Only the final keys show a contradiction if the final state of the
//! key takes the place of the second call.
//!
//! A loss of a key is a contradiction in which a present key became absent without a `remove` that returned true. A
//! return is one in which an absent key became present without an `add` that returned true. A change is an `add` or
//! `remove` that returned true. A moment is a time in the recording.

use crate::odd_facts::{more, percent};
use lset_words::Presence;
use std::alloc::{AllocError, Global};
use tool_calls::{
    Crossings, Fullness, KeyCalls, Made, Neighbours, Operation, Place, Sought, Symptom, other,
};

/// Counts of the contradictions in a recording that is not linearizable. Two contradictions of one key do not overlap
/// in time. Each `usual..` percentage estimates how often a fact would be true by chance. All counts are 0 if one
/// operation alone is wrong.
#[derive(Clone, Copy, Default)]
pub struct Tally {
    /// All contradictions that were found.
    pub places: u64,
    /// Losses of keys: contradictions in which a present key became absent, although no `remove` of the key returned
    /// true.
    pub lost: u64,
    /// Returns of keys: contradictions in which an absent key became present, although no `add` of the key returned
    /// true.
    pub came_back: u64,
    /// Contradictions between two overlapping adds of a key that both returned true.
    pub both_adds: u64,
    /// Contradictions between two overlapping removes of a key that both returned true.
    pub both_removes: u64,
    /// Contradictions that one wrong reply explains: a `contains` or `remove` returned false although its key was
    /// present.
    pub missed: u64,
    /// Contradictions that one wrong reply explains: a `contains` returned true, or an `add` returned false, although
    /// its key was absent.
    pub found: u64,
    /// How many contradictions in `found` are explained by the wrong reply of an `add`.
    pub refused_adds: u64,
    /// How many contradictions in `missed` are explained by the wrong reply of a `remove`.
    pub refused_removes: u64,
    /// How many adds and removes that are counted in `refused_adds` and `refused_removes` overlap an `add` or `remove`
    /// of another key that returned true.
    pub refused_beside: u64,
    /// The percentage of sampled completed adds and removes, whatever their replies, that overlap an `add` or `remove`
    /// of another key that returned true. For comparison with `refused_beside`. 0 if there are no completed adds and
    /// removes.
    pub usually_refused_beside: u64,
    /// Contradictions in `both_adds` after which the set seems to contain the key twice: the next change of the key is
    /// part of the next contradiction of the key, which is a return or in `both_removes`.
    pub doubled: u64,
    /// Contradictions of no simple kind. They are in `places`, but not in `lost`, `came_back`, `both_adds`,
    /// `both_removes`, `missed` or `found`.
    pub others: u64,
    /// Losses and returns of keys that would be explained if one `add` or `remove` had returned true instead of false,
    /// if there is exactly one such call.
    pub silent: u64,
    /// Losses and returns of keys that would be explained if one call had returned the opposite reply.
    pub turned: u64,
    /// Losses and returns of keys that overlap an `add` or `remove` of another key that returned true. Leaves out those
    /// that only the final keys show.
    pub beside: u64,
    /// How many losses and returns in `beside` overlap an `add` of another key that returned true.
    pub added: u64,
    /// How many losses and returns in `beside` overlap a `remove` of another key that returned true.
    pub removed: u64,
    /// Losses and returns of keys that do not overlap an `add` or `remove` of another key that returned true. Leaves
    /// out those that only the final keys show.
    pub alone: u64,
    /// Losses of keys that overlapping changes of the same key had left present: only the numbers of adds and removes
    /// among these changes show that the key was present.
    pub crossed: u64,
    /// Losses of keys that overlap at least one and at most 6 (`MOST_BESIDE`) changes of other keys: adds and removes
    /// that returned true.
    pub sharp: u64,
    /// How many losses in `sharp` overlap an `add` of another key that returned true.
    pub displaced: u64,
    /// How many losses in `sharp` overlap a `remove` of another key that returned true.
    pub unlinked: u64,
    /// Losses of keys that a later `add` of the key shows: the `add` returned true.
    pub readded: u64,
    /// Returns of keys that undo a known `remove`: the contradiction begins with a `remove` of the key that returned
    /// true.
    pub undone: u64,
    /// For how many returns in `undone` the `remove` overlaps a loss of another key. Only losses that a later call
    /// shows within 200 moments count.
    pub swapped: u64,
    /// Losses and returns of keys that overlap a `remove` of a smaller key that returned true. Leaves out those that
    /// only the final keys show.
    pub below: u64,
    /// Losses of keys that a later call shows within 200 moments. 0 if there are fewer than 10 losses of any length, or
    /// if a key returned.
    pub short: u64,
    /// The smallest number of keys that were known to be present just before the end of a loss in `short`. A key is
    /// known to be present if the last completed call on the key left it present. 0 if `short` is 0.
    pub least_full: u64,
    /// The percentage of sampled calls that began while at least `least_full` keys were known to be present. 0 if
    /// `short` is 0.
    pub usually_full: u64,
    /// The percentage of comparison periods that overlap an `add` or `remove` of another key that returned true, for
    /// comparison with `beside`. A comparison period is as long as a loss or return of a key, and begins at another
    /// time. Considers only the first 400 losses and returns that a later call shows. 0 if there are none.
    pub usual: u64,
    /// Losses and returns of keys that overlap a loss or return of another key. Leaves out those that only the final
    /// keys show.
    pub together: u64,
    /// The percentage of comparison periods that overlap a loss or return of another key, for comparison with
    /// `together`. A comparison period is as long as a loss or return of a key, and begins at another time. 0 if a
    /// later call shows no loss or return.
    pub usually_together: u64,
    /// Losses and returns of keys that undo a known change: an `add` of the key that is lost, or a `remove` of the key
    /// that returns, began before the later call and returned true. Leaves out those that only the final keys show.
    pub made: u64,
    /// How many of the undone changes in `made` an older copy of the set can have overwritten: a change of another key
    /// overlapped the undone change, and began after the last opposite change of the undone key had begun. The call on
    /// the other key can have read the set before the undone change, and written the set afterwards.
    pub fits: u64,
    /// How many of the undone changes in `made` overlapped another `add` or `remove` of the same key that returned
    /// true.
    pub own: u64,
    /// Losses of keys that undo a known `add`: an `add` of the key began before the later call and returned true.
    /// Leaves out losses that only the final keys show.
    pub placed: u64,
    /// How many of the undone adds in `placed` overlapped an `add` of another key that returned true.
    pub with_add: u64,
    /// How many of the undone adds in `placed` overlapped a `remove` of another key that returned true.
    pub with_remove: u64,
    /// Among sampled adds that returned true, the percentage that overlap an `add` of another key that returned true.
    /// For comparison with `with_add`. 0 if no `add` returned true.
    pub usually_with_add: u64,
    /// Among sampled adds that returned true, the percentage that overlap a `remove` of another key that returned true.
    /// For comparison with `with_remove`. 0 if no `add` returned true.
    pub usually_with_remove: u64,
    /// Contradictions that are explained if one call has a wrong reply: those in `missed`, `found` and `turned`. Leaves
    /// out those that only the final keys show.
    pub replies: u64,
    /// How many contradictions in `replies` overlap a contradiction of another key that is in `replies`, too.
    pub crossed_replies: u64,
    /// The percentage of comparison periods that overlap a contradiction of another key in `replies`, for comparison
    /// with `crossed_replies`. A comparison period is as long as a contradiction in `replies`, and begins at
    /// another time. 0 if `replies` is 0.
    pub usually_crossed: u64,
    /// Losses of keys with a contradiction that begins with an `add` of the key that returned true. Leaves out losses
    /// that only the final keys show.
    pub unadded: u64,
    /// For how many losses in `unadded` the `add` overlaps a return of another key. Leaves out returns that only the
    /// final keys show.
    pub swapped_adds: u64,
    /// How many of the undone adds in `placed` began at most 20 moments (`SOON`) after the end of the last `remove` of
    /// the key, or before this end.
    pub soon: u64,
    /// How many of the adds in `adds` began at most 20 moments (`SOON`) after the end of the last `remove` of the key,
    /// or before this end.
    pub adds_soon: u64,
    /// Adds that returned true, on keys with calls that are not linearizable.
    pub adds: u64,
    /// How many of the adds in `adds` are followed by a completed call on the key before a `remove` can have changed
    /// the key.
    pub followed_adds: u64,
    /// How many of the adds in `followed_adds` the next call on the key did not see: this call found the key absent.
    pub unseen_adds: u64,
    /// Removes that returned true, on keys with calls that are not linearizable, if they are followed by a completed
    /// call on the key before an `add` can have changed the key.
    pub followed_removes: u64,
    /// How many of the removes in `followed_removes` the next call on the key did not see: this call found the key
    /// present.
    pub unseen_removes: u64,
    /// How many contradictions in `missed` have a wrong reply of a call that overlaps an `add` or `remove` of another
    /// key that returned true.
    pub missed_beside: u64,
    /// Whether the samples of calls, for the percentages, leave out some calls.
    pub has_more_calls: bool,
    /// Contradictions among calls that do not overlap: no call, on any key, that began during the contradiction began
    /// while another call was running.
    pub apart: u64,
    /// The number of keys with calls that are not linearizable.
    pub keys: u64,
    /// Keys with calls that are not linearizable, and without a contradiction that shows where the calls first fail:
    /// none begins at or before the first moment such that the key's calls up to this moment are not linearizable.
    pub unplaced: u64,
}

/// The maximum number of earlier contradictions that are checked for an overlap with a period, to limit the time of the
/// search.
const MOST_LOSSES: usize = 64;

/// A loss of a key that overlaps more changes of other keys than this is not counted in `sharp`: with so many changes,
/// an overlap says little.
const MOST_BESIDE: usize = 6;

/// The maximum number of moments (times in the recording) from the end of a `remove` to the begin of an `add` of the
/// same key that counts as soon.
const SOON: u64 = 20;

/// Returns whether `change` began at most `SOON` moments after the end of the earlier change `before`. Returns false if
/// `before` is `None`.
fn is_soon(change: Made, before: Option<Made>) -> bool {
    before.is_some_and(|before| change.begun <= before.ended.saturating_add(SOON))
}

/// If at least this many contradictions were found, the keys that were not searched yet are left out. The limit keeps
/// the memory for contradictions small.
pub(crate) const MOST_PLACES: u64 = 20_000;

impl Tally {
    /// Returns the number of losses and returns of keys, including those that only the final keys show. Does not
    /// allocate.
    pub fn gone(&self) -> u64 {
        self.lost.saturating_add(self.came_back)
    }

    /// Returns whether the contradictions of all keys were counted. Does not allocate.
    pub fn has_all_keys(&self) -> bool {
        self.places < MOST_PLACES
    }

    /// Returns the number of losses and returns of keys that a later call shows. Leaves out those that only the final
    /// keys show. Does not allocate.
    pub fn timed(&self) -> u64 {
        self.beside.saturating_add(self.alone)
    }

    /// Returns the number of contradictions between two overlapping adds, or two overlapping removes, that both
    /// returned true. Does not allocate.
    pub fn both(&self) -> u64 {
        self.both_adds.saturating_add(self.both_removes)
    }

    /// Returns the number of contradictions that are explained if one `add` or `remove` that returned false has a wrong
    /// reply. Does not allocate.
    pub fn refused(&self) -> u64 {
        self.refused_adds.saturating_add(self.refused_removes)
    }

    /// Counts a contradiction in the field for its kind.
    fn add_kind(&mut self, place: &Place) {
        match place.symptom {
            Symptom::Missed(Operation::Remove) => more(&mut self.refused_removes),
            Symptom::Found(Operation::Add) => more(&mut self.refused_adds),
            _ => {}
        }
        match place.symptom {
            Symptom::Lost => more(&mut self.lost),
            Symptom::CameBack => more(&mut self.came_back),
            Symptom::BothTrue(Operation::Add) => more(&mut self.both_adds),
            Symptom::BothTrue(_) => more(&mut self.both_removes),
            Symptom::Missed(_) => more(&mut self.missed),
            Symptom::Found(_) => more(&mut self.found),
            Symptom::Unclear => more(&mut self.others),
        }
    }

    /// Counts a contradiction by its kind, and by the replies that would explain a loss or return. Does not allocate.
    pub fn add(&mut self, place: &Place) {
        more(&mut self.places);
        self.add_kind(place);
        if !place.is_gone() {
            return;
        }
        if place.silent.is_some() {
            more(&mut self.silent);
        }
        if place.is_turned {
            more(&mut self.turned);
        }
        let by_changes = place.clash.stretch.is_some();
        if by_changes && place.clash.was == Presence::Present {
            more(&mut self.crossed);
        }
    }

    /// If a contradiction is a loss or return of a key, counts the change that was undone: the last `add` of the key
    /// that returned true before a loss, or the last `remove` that returned true before a return. Counts nothing if
    /// only the final keys show the contradiction. `key` has all calls on the key, and `neighbours` the completed
    /// changes of all keys. Does not allocate.
    pub fn add_change(&mut self, key: &KeyCalls, place: &Place, neighbours: &Neighbours) {
        let Some(second) = place.clash.second else {
            return;
        };
        let was = place.clash.was;
        let change = key.change_before(was, second.begun);
        let Some(change) = change.filter(|_| place.is_gone()) else {
            return;
        };
        let before = key.change_before(other(was), change.begun);
        let since = before.map_or(0, |before| before.begun);
        more(&mut self.made);
        let (begun, ended) = (change.begun, change.ended);
        if neighbours.has(change.key, begun, ended, Sought::OfOtherKeySince(since)) {
            more(&mut self.fits);
        }
        if place.symptom == Symptom::Lost {
            self.add_placed(change, neighbours);
            self.soon = self.soon.saturating_add(u64::from(is_soon(change, before)));
        }
        if key.has_change_beside(change) {
            more(&mut self.own);
        }
    }

    /// Counts the pairs of adds that both returned true, after which the set seems to contain the key twice (see
    /// `doubled`). `places` are the contradictions of the key, ordered by time. Does not allocate.
    pub fn add_doubled(&mut self, key: &KeyCalls, places: &[Place]) {
        for (one, next) in places.iter().zip(places.get(1..).unwrap_or(&[])) {
            if is_doubled(key, one, next) {
                more(&mut self.doubled);
            }
        }
    }

    /// Counts the completed changes of a key, and how many of them the next call on the key did not see. `key` has all
    /// calls on the key. Does not allocate.
    pub fn add_followed(&mut self, key: &KeyCalls) {
        for change in &key.calls {
            let Some(state) = change.makes().filter(|_| change.reply.is_some()) else {
                continue;
            };
            if state == Presence::Present {
                let before = key.change_before(Presence::Absent, change.begun);
                more(&mut self.adds);
                self.adds_soon = self
                    .adds_soon
                    .saturating_add(u64::from(is_soon(*change, before)));
            }
            let Some(next) = key.after(change.ended).first() else {
                continue;
            };
            let until = if next.makes() == Some(other(state)) {
                next.begun.saturating_sub(1)
            } else {
                next.ended
            };
            if next.reply.is_none() || key.may_become(other(state), change.begun, until) {
                continue;
            }
            let unseen = u64::from(next.needs() == Some(other(state)));
            if state == Presence::Present {
                more(&mut self.followed_adds);
                self.unseen_adds = self.unseen_adds.saturating_add(unseen);
            } else {
                more(&mut self.followed_removes);
                self.unseen_removes = self.unseen_removes.saturating_add(unseen);
            }
        }
    }

    /// Counts an undone `add` (the key was lost later), and whether the `add` overlapped changes of other keys.
    fn add_placed(&mut self, change: Made, neighbours: &Neighbours) {
        let (key, since, until) = (change.key, change.begun, change.ended);
        more(&mut self.placed);
        if neighbours.overlap(key, since, until, Some(Operation::Add)) {
            more(&mut self.with_add);
        }
        if neighbours.overlap(key, since, until, Some(Operation::Remove)) {
            more(&mut self.with_remove);
        }
    }

    /// Computes how often an `add` that returned true overlaps changes of other keys, for comparison with undone adds.
    /// `calls` are all calls of the recording.
    fn add_usual(&mut self, calls: &[Made], neighbours: &Neighbours) {
        let step = calls.len().checked_div(MOST_COMPARED).unwrap_or(0);
        let (mut adds, mut removes, mut tried, mut next) = (0u64, 0u64, 0u64, 0usize);
        for (index, call) in calls.iter().enumerate() {
            let is_add = call.operation == Operation::Add && call.reply == Some(true);
            if index < next || !is_add {
                continue;
            }
            next = index.saturating_add(step);
            more(&mut tried);
            let (key, since, until) = (call.key, call.begun, call.ended);
            if neighbours.overlap(key, since, until, Some(Operation::Add)) {
                more(&mut adds);
            }
            if neighbours.overlap(key, since, until, Some(Operation::Remove)) {
                more(&mut removes);
            }
        }
        self.usually_with_add = percent(adds, tried);
        self.usually_with_remove = percent(removes, tried);
    }

    /// Counts the contradictions that are explained if one call has a wrong reply, and how many of them overlap each
    /// other on different keys. `replies` are these contradictions, ordered by begin. `last` is the last moment of the
    /// recording. Does not allocate.
    pub fn add_replies(&mut self, replies: &[Place], last: u64) {
        self.replies = u64::try_from(replies.len()).unwrap_or(u64::MAX);
        let (together, usually) = count_together(replies, last);
        self.crossed_replies = together;
        self.usually_crossed = usually;
    }

    /// Counts the losses of keys that begin with an `add` of the key, and how often this `add` overlaps a return of
    /// another key. `returns` must be ordered by begin. Does not allocate.
    pub fn add_swapped_adds(&mut self, losses: &[Place], returns: &[Place]) {
        for place in losses {
            if let Some(first) = place.clash.first.filter(|first| first.changes()) {
                more(&mut self.unadded);
                if has_beside(first.key, first.begun, first.ended, returns) {
                    more(&mut self.swapped_adds);
                }
            }
        }
    }

    /// Counts a loss of a key by the changes of other keys that overlap the loss. `changes` has these changes, or
    /// `MOST_BESIDE` + 1 of them if there are more.
    fn add_beside(&mut self, changes: &[Made]) {
        if changes.is_empty() || changes.len() > MOST_BESIDE {
            return;
        }
        more(&mut self.sharp);
        if changes.iter().any(|call| call.operation == Operation::Add) {
            more(&mut self.displaced);
        }
        if changes
            .iter()
            .any(|call| call.operation == Operation::Remove)
        {
            more(&mut self.unlinked);
        }
    }

    /// Counts a loss or return of a key by the changes of other keys that overlap the loss or return, and in `readded`
    /// and `undone`. Ignores other contradictions.
    fn add_time(
        &mut self,
        alloc: Global,
        place: &Place,
        neighbours: &Neighbours,
    ) -> Result<(), AllocError> {
        let clash = &place.clash;
        let (key, since, until) = (place.key, clash.begun(), clash.until);
        if place.symptom == Symptom::Lost {
            let changes = neighbours.around(
                alloc,
                key,
                since,
                until,
                MOST_BESIDE.saturating_add(1),
            )?;
            self.add_beside(&changes);
            if clash.second.is_some_and(|second| second.changes()) {
                more(&mut self.readded);
            }
        }
        if place.symptom == Symptom::CameBack && clash.first.is_some_and(|first| first.changes()) {
            more(&mut self.undone);
        }
        if place.is_gone() && clash.second.is_some() {
            if neighbours.unlink_below(key, since, until) {
                more(&mut self.below);
            }
            let is_added = neighbours.overlap(key, since, until, Some(Operation::Add));
            let is_removed = neighbours.overlap(key, since, until, Some(Operation::Remove));
            self.added = self.added.saturating_add(u64::from(is_added));
            self.removed = self.removed.saturating_add(u64::from(is_removed));
            if is_added || is_removed {
                more(&mut self.beside);
            } else {
                more(&mut self.alone);
            }
        }
        Ok(())
    }

    /// Counts a contradiction in `refused_beside` if the only wrong reply is from an `add` or `remove`, and this call
    /// overlaps a change of another key.
    fn add_refused(&mut self, place: &Place, neighbours: &Neighbours) {
        let Some(wrong) = place.wrong else {
            return;
        };
        if wrong.operation != Operation::Contains
            && neighbours.overlap(wrong.key, wrong.begun, wrong.ended, None)
        {
            more(&mut self.refused_beside);
        }
    }

    /// Counts the returns of keys that undo a known `remove`, if this `remove` overlaps a loss of another key. `losses`
    /// must be ordered by begin.
    fn add_swapped(&mut self, places: &[Place], losses: &[Place]) {
        for place in places {
            if let (Symptom::CameBack, Some(first)) = (place.symptom, place.clash.first) {
                if first.changes() && has_beside(first.key, first.begun, first.ended, losses) {
                    more(&mut self.swapped);
                }
            }
        }
    }

    /// Counts the losses and returns of keys that overlap a loss or return of another key. Estimates how many would do
    /// so by chance, and how many would overlap a change of another key by chance. `gone` are all losses and returns
    /// that a later call shows, ordered by begin. `neighbours` has the completed changes of all keys. `last` is the last
    /// moment of the recording. Does not allocate.
    pub fn add_together(&mut self, gone: &[Place], neighbours: &Neighbours, last: u64) {
        let (together, usually) = count_together(gone, last);
        self.together = together;
        self.usually_together = usually;
        self.usual = usual_share(gone, neighbours, last);
    }

    /// Computes the counts that depend on other calls at the same time. `places` are all contradictions, and `calls`
    /// all calls of the recording, ordered by begin. `neighbours` has the completed changes of all keys. `losses` are
    /// the losses of keys that a later call shows within 200 moments, ordered by begin. Fails only if an allocation
    /// fails. Allocates.
    pub fn add_times(
        &mut self,
        alloc: Global,
        places: &[Place],
        calls: &[Made],
        neighbours: &Neighbours,
        losses: &[Place],
    ) -> Result<(), AllocError> {
        let crossings = Crossings::of(alloc, calls)?;
        self.add_swapped(places, losses);
        self.has_more_calls = calls.len() >= 2 * MOST_COMPARED;
        self.add_usual(calls, neighbours);
        self.usually_refused_beside = usual_of_writers(calls, neighbours);
        for place in places {
            self.add_time(alloc, place, neighbours)?;
            if let (Symptom::Missed(_), Some(wrong)) = (place.symptom, place.wrong) {
                let is_beside = neighbours.overlap(wrong.key, wrong.begun, wrong.ended, None);
                self.missed_beside = self.missed_beside.saturating_add(u64::from(is_beside));
            }
            self.add_refused(place, neighbours);
            if crossings.has_none(calls, place.clash.since, place.clash.until) {
                more(&mut self.apart);
            }
        }
        Ok(())
    }
}

impl Tally {
    /// Compares the number of keys present at losses of keys with the number at other moments. `calls` are all calls of
    /// the recording. `losses` are the losses that a later call shows within 200 moments. `full` has the number of keys
    /// known to be present at each moment. Does not allocate.
    pub fn add_fullness(&mut self, calls: &[Made], losses: &[Place], full: &Fullness) {
        let mut least = u64::MAX;
        for loss in losses {
            more(&mut self.short);
            least = least.min(full.before(loss.clash.until));
        }
        if losses.is_empty() {
            return;
        }
        self.least_full = least;
        self.usually_full = full.share_between(calls, least, u64::MAX);
    }
}

/// Returns whether two adds that both returned true (the contradiction `one`) seem to have inserted their key twice:
/// the next change of the key is part of the next contradiction `next`, which is a return of the key or a pair of
/// removes that both returned true. `key` has all calls on the key.
fn is_doubled(key: &KeyCalls, one: &Place, next: &Place) -> bool {
    let is_left = matches!(
        next.symptom,
        Symptom::CameBack | Symptom::BothTrue(Operation::Remove)
    );
    if one.symptom != Symptom::BothTrue(Operation::Add) || !is_left {
        return false;
    }
    let later = key.after(one.clash.until);
    match later.iter().find(|call| call.changes()) {
        Some(change) => next.clash.begun() <= change.begun && change.begun <= next.clash.until,
        None => false,
    }
}

/// Returns the percentage of sampled completed adds and removes, whatever their replies, that overlap an `add` or
/// `remove` of another key that returned true. Returns 0 if there are no completed adds and removes.
fn usual_of_writers(calls: &[Made], neighbours: &Neighbours) -> u64 {
    let step = calls.len().checked_div(MOST_COMPARED).unwrap_or(0);
    let (mut beside, mut tried, mut next) = (0u64, 0u64, 0usize);
    for (index, call) in calls.iter().enumerate() {
        let is_sampled = index >= next && call.operation != Operation::Contains;
        if is_sampled && call.reply.is_some() {
            next = index.saturating_add(step);
            more(&mut tried);
            if neighbours.overlap(call.key, call.begun, call.ended, None) {
                more(&mut beside);
            }
        }
    }
    percent(beside, tried)
}

/// Returns the number of contradictions in `places` that overlap one of another key in `places`, and the percentage of
/// comparison periods (see `compared_period`) that do. `places` must be ordered by begin. `last` is the last moment of
/// the recording.
fn count_together(places: &[Place], last: u64) -> (u64, u64) {
    let (mut together, mut beside, mut tried) = (0u64, 0u64, 0u64);
    for place in places {
        let (since, until) = (place.clash.begun(), place.clash.until);
        if has_beside(place.key, since, until, places) {
            more(&mut together);
        }
        for later in LATER {
            let (since, until) = compared_period(since, until, later, last);
            more(&mut tried);
            if has_beside(place.key, since, until, places) {
                more(&mut beside);
            }
        }
    }
    (together, percent(beside, tried))
}

/// Returns `true` if a contradiction in `places` of a key other than `key` overlaps the time from the moment `since` to
/// the moment `until`. `places` must be ordered by begin. Considers only the `MOST_LOSSES` that began last.
fn has_beside(key: u32, since: u64, until: u64, places: &[Place]) -> bool {
    let end = places.partition_point(|place| place.clash.begun() <= until);
    let earlier = places.get(..end).unwrap_or(&[]);
    for place in earlier.iter().rev().take(MOST_LOSSES) {
        if place.key != key && place.clash.until >= since {
            return true;
        }
    }
    false
}

/// The moments from the begin of a contradiction to the begins of its two comparison periods.
const LATER: [u64; 2] = [1_501, 3_001];

/// Returns a comparison period of a contradiction that lasts from the moment `since` to the moment `until`. The
/// comparison period shows how often the same overlap happens by chance. The comparison period is as long as the
/// contradiction, and begins `later` moments later. If it would end after `last`, the last moment of the recording, it
/// begins `later` moments earlier or, in a short recording, at some moment from 0 on.
fn compared_period(since: u64, until: u64, later: u64, last: u64) -> (u64, u64) {
    if until.saturating_add(later) <= last {
        return (since.saturating_add(later), until.saturating_add(later));
    }
    if since >= later {
        return (since.saturating_sub(later), until.saturating_sub(later));
    }
    let length = until.saturating_sub(since);
    let begins = last.saturating_sub(length).saturating_add(1);
    let begin = since.saturating_add(later).checked_rem(begins).unwrap_or(0);
    (begin, begin.saturating_add(length))
}

/// The maximum number of contradictions that `usual_share` considers, and the approximate size of a sample of calls.
/// Limits the time of a diagnosis.
const MOST_COMPARED: usize = 400;

/// Returns the percentage of comparison periods (see `compared_period`) that overlap a change of another key. Considers
/// only the first `MOST_COMPARED` contradictions of `gone`, the losses and returns of keys that a later call shows.
/// `last` is the last moment of the recording.
fn usual_share(gone: &[Place], neighbours: &Neighbours, last: u64) -> u64 {
    let (mut beside, mut tried) = (0u64, 0u64);
    for place in gone.iter().take(MOST_COMPARED) {
        for later in LATER {
            let (since, until) = compared_period(
                place.clash.begun(),
                place.clash.until,
                later,
                last,
            );
            more(&mut tried);
            if neighbours.overlap(place.key, since, until, None) {
                more(&mut beside);
            }
        }
    }
    percent(beside, tried)
}
