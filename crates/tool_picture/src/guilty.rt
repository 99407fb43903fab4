//! Finds the guilty call of a picture: the call that probably caused the contradiction in the picture (two calls on one
//! key that no order explains). A guilty call is found only if the likely cause of the bug (`Cause`) names a kind of
//! call. A change is an add or remove that returned true or is pending.

use crate::diagnosis::{Diagnosis, Mark};
use tool_calls::{Made, Operation, Place};
use tool_facts::{Cause, is_refusal_during};

/// A change of another key that overlaps a wrong reply is the better suspect if it ends at most this many moments
/// (times in the recording) after the wrong reply. A longer change can overlap by chance.
const SOON: u64 = 200;

/// The kind of change of another key (an add or remove that returned true) that is suspected of disturbing a call: of
/// making its reply wrong, or of undoing its effect. Also the period in which such a change probably ends.
#[derive(Clone, Copy)]
struct Sought {
    /// The operation of the change; `None` if any change is suspected.
    operation: Option<Operation>,
    /// `true` if only changes of smaller keys than that of the disturbed call are suspected.
    is_below: bool,
    /// The period begins after this moment.
    since: u64,
    /// The last moment of the period.
    until: u64,
}

impl Sought {
    /// Returns the kind restricted to changes by `operation`.
    fn by(self, operation: Operation) -> Sought {
        Sought {
            operation: Some(operation),
            ..self
        }
    }

    /// Returns the kind restricted to changes of smaller keys.
    fn below(self) -> Sought {
        Sought {
            is_below: true,
            ..self
        }
    }

    /// Returns the kind with another period: from the begin of the call `wrong` to `SOON` moments after its end.
    fn during(self, wrong: Made) -> Sought {
        Sought {
            since: wrong.begun,
            until: wrong.ended.saturating_add(SOON),
            ..self
        }
    }

    /// Returns how well `change` fits as the suspect for disturbing `call` (making its reply wrong, or undoing its
    /// effect): 0 if `change` is of another kind or does not overlap `call`, 2 if `change` fits and ends in the period,
    /// otherwise 1.
    fn fit(&self, change: &Made, call: Made) -> u64 {
        let is_kind = self.operation.unwrap_or(change.operation) == change.operation;
        let is_there = !self.is_below || change.key < call.key;
        let is_in = self.since < change.ended && change.ended <= self.until;
        if is_kind && is_there && change.overlaps(call.begun, call.ended) {
            1u64.saturating_add(u64::from(is_in))
        } else {
            0
        }
    }
}

impl Diagnosis {
    /// Returns `true` if `call` is the guilty call of the picture: it probably caused the contradiction.
    pub fn is_guilty(&self, call: Made) -> bool {
        self.guilty == Some(call)
    }

    /// Marks the guilty call (it probably caused the contradiction) as suspected, if it is a call on the key and has no
    /// other mark.
    pub(crate) fn mark_guilty(&mut self) {
        let Some(call) = self.guilty else {
            return;
        };
        for one in &mut self.shown {
            if one.call == call && matches!(one.mark, Mark::Nothing) {
                one.mark = Mark::Suspected;
            }
        }
    }

    /// Returns `true` if the picture has another add or remove of the key, successful or not, that overlaps the
    /// contradicting call `second`. Returns `false` if there is no such call `second`.
    pub fn draws_writer(&self) -> bool {
        let Some(second) = self.second else {
            return false;
        };
        self.shown.iter().any(|one| {
            let is_writer = one.call.operation != Operation::Contains;
            is_writer && one.call != second && one.call.overlaps(second.begun, second.ended)
        })
    }

    /// Returns `true` if the likely cause is a change of the key that ran during the only wrong reply, but the picture
    /// does not show this change. The change then began long before the wrong reply.
    pub(crate) fn lacks_guilty(&self) -> bool {
        let is_one = self.evidence.odd.is_some_and(|odd| odd.wrong == 1);
        is_one
            && self.guilty.is_none()
            && matches!(self.cause, Some(Cause::MarkNotRead | Cause::NotSeenYet))
    }

    /// Returns the first add or remove in the picture that returned true or is pending, is on the same key as `call`,
    /// and overlaps `call`. If `operation` is not `None`, considers only this operation.
    fn change_during(&self, call: Made, operation: Option<Operation>) -> Option<Made> {
        for one in &self.shown {
            let is_sought = operation.unwrap_or(one.call.operation) == one.call.operation;
            let is_other = one.call != call && one.call.changes();
            if is_sought && is_other && one.call.overlaps(call.begun, call.ended) {
                return Some(one.call);
            }
        }
        None
    }

    /// Returns the change of another key that fits best as the suspect for disturbing `call` (making its reply wrong,
    /// or undoing its effect). `None` if no change fits, or if several fit equally well.
    fn beside_during(&self, call: Made, sought: Sought) -> Option<Made> {
        let mut found = None;
        let mut best = 0u64;
        let mut count = 0u64;
        for change in &self.beside {
            let fit = sought.fit(change, call);
            if fit > best {
                best = fit;
                count = 1;
                found = Some(*change);
            } else if fit > 0 && fit == best {
                count = count.saturating_add(1);
            }
        }
        found.filter(|_| count == 1)
    }

    /// Returns the first add or remove of the key in the picture that overlaps `change` and returned false since it
    /// found the state before the change.
    fn refusal_during(&self, change: Made) -> Option<Made> {
        for one in &self.shown {
            if is_refusal_during(one.call, change) {
                return Some(one.call);
            }
        }
        None
    }

    /// Returns the first add of the key in the picture that overlaps a remove of the key in the picture. Both calls
    /// returned true or are pending.
    fn add_during_remove(&self) -> Option<Made> {
        for one in &self.shown {
            let is_add = one.call.operation == Operation::Add && one.call.changes();
            if is_add
                && self
                    .change_during(one.call, Some(Operation::Remove))
                    .is_some()
            {
                return Some(one.call);
            }
        }
        None
    }

    /// Returns the guilty change of another key: the one that probably caused the contradiction `place`, as the likely
    /// cause says. If a change was undone (its effect was lost), the guilty change probably ends after this change and
    /// by the end of the contradiction. `None` if the likely cause names no such change, or if several fit equally
    /// well.
    pub(crate) fn guilty_beside(&self, place: &Place) -> Option<Made> {
        let (wrong, first) = (place.wrong, place.clash.first);
        let sought = Sought {
            operation: None,
            is_below: false,
            since: first.map_or(0, |first| first.ended),
            until: place.clash.until,
        };
        match self.cause? {
            Cause::MovedKeys | Cause::ReadsParts | Cause::MovedForAll | Cause::GivesUpBeside => {
                self.beside_during(wrong?, sought.during(wrong?))
            }
            Cause::RemoveShortcut => {
                self.beside_during(wrong?, sought.during(wrong?).by(Operation::Add))
            }
            Cause::Unlinked | Cause::WrittenBack => {
                self.beside_during(first?, sought.by(Operation::Remove).below())
            }
            Cause::UnlinkLost | Cause::BehindUnlinked => {
                self.beside_during(first?, sought.by(Operation::Remove))
            }
            Cause::SharedPlace => self.beside_during(first?, sought.by(Operation::Add)),
            Cause::OldLink | Cause::OldCopy | Cause::OldCopyAtOnce | Cause::SharedWord => {
                self.beside_during(first?, sought)
            }
            _ => None,
        }
    }

    /// Returns the guilty call on the key itself: the call in the picture that probably caused the contradiction
    /// `place`, as the likely cause says. `None` if the likely cause names no such call, or if the picture does not
    /// show one.
    pub(crate) fn guilty_of(&self, place: &Place) -> Option<Made> {
        let (wrong, first) = (place.wrong, place.clash.first);
        match self.cause? {
            Cause::MarkNotRead => self.change_during(wrong?, Some(Operation::Remove)),
            Cause::NotSeenYet | Cause::SeenEarly => {
                self.change_during(wrong?, Some(Operation::Add))
            }
            Cause::HalfDone => self.change_during(wrong?, None),
            Cause::SameKey => self.refusal_during(first?),
            Cause::Reused => self.add_during_remove(),
            _ => None,
        }
    }
}
