//! Decides whether the calls on one key are linearizable, by the rule of the judge (the crate `lset_judge`). The begins
//! and ends of the calls are processed in the order of time. A running add or remove that returned true or is pending
//! takes effect only when the reply of a call that ends requires the change. If several changes can take effect, the
//! one that ends first does.

use crate::made_calls::{Made, NEVER, other};
use lset_words::Presence;
use std::alloc::{AllocError, Global};

/// The running calls: those that have begun and not yet ended at the moment up to which the calls were processed.
#[derive(Drop)]
pub struct Pending {
    calls: Vec<Made>,
}

impl Pending {
    /// Returns an empty list. Does not allocate.
    pub fn new(alloc: Global) -> Pending {
        Pending {
            calls: Vec::new(alloc),
        }
    }

    /// Returns a copy of the list. Allocates.
    pub fn copied(&self, alloc: Global) -> Result<Pending, AllocError> {
        Ok(Pending {
            calls: Vec::from_slice(alloc, &self.calls)?,
        })
    }

    /// Adds a call that has begun. Ignores a call without an end and a reply in the recording, since no reply has to be
    /// checked. Allocates.
    pub fn push(&mut self, call: Made) -> Result<(), AllocError> {
        if call.reply.is_some() {
            self.calls.push(call)?;
        }
        Ok(())
    }

    /// Returns the number of running calls.
    pub fn len(&self) -> usize {
        self.calls.len()
    }

    /// Removes the call that ends first from the list and returns it, if it ends before the moment `at`. Otherwise
    /// returns `None`.
    pub fn next_before(&mut self, at: u64) -> Option<Made> {
        let mut least: Option<usize> = None;
        let mut end = at;
        for (i, call) in self.calls.iter().enumerate() {
            if call.ended < end {
                least = Some(i);
                end = call.ended;
            }
        }
        let i = least?;
        if i < self.calls.len() {
            Some(self.calls.swap_remove(i))
        } else {
            None
        }
    }
}

/// What is known about one key at the moment up to which its calls were processed: the state of the key, and the
/// running changes (adds and removes that returned true or are pending) that have not taken effect yet.
#[derive(Drop)]
pub struct KeyState {
    /// Whether the key is present or absent.
    state: Presence,
    /// The moment at which a change last took effect; 0 if none did.
    turned: u64,
    /// When the running adds end that have not taken effect.
    adds: Vec<u64>,
    /// When the running removes end that have not taken effect.
    removes: Vec<u64>,
}

/// Removes the smallest number from `ends`. Returns `false` if `ends` is empty.
fn take_least(ends: &mut Vec<u64>) -> bool {
    let mut least: Option<(usize, u64)> = None;
    for (i, end) in ends.iter().enumerate() {
        if least.is_none_or(|(_, other)| *end < other) {
            least = Some((i, *end));
        }
    }
    match least {
        Some((i, _)) if i < ends.len() => {
            let _taken = ends.swap_remove(i);
            true
        }
        _ => false,
    }
}

/// Returns `true` if the lists have the same numbers, in any order. A list can repeat only the number `NEVER`, the end
/// of all pending calls.
fn are_alike(some: &[u64], others: &[u64]) -> bool {
    some.len() == others.len()
        && some.iter().all(|end| others.contains(end))
        && others.iter().all(|end| some.contains(end))
}

impl KeyState {
    /// Creates a state without running changes: the key is in `state`.
    pub fn new(alloc: Global, state: Presence) -> KeyState {
        KeyState {
            state,
            turned: 0,
            adds: Vec::new(alloc),
            removes: Vec::new(alloc),
        }
    }

    /// Returns a copy of the state. Allocates.
    pub fn copied(&self, alloc: Global) -> Result<KeyState, AllocError> {
        Ok(KeyState {
            state: self.state,
            turned: self.turned,
            adds: Vec::from_slice(alloc, &self.adds)?,
            removes: Vec::from_slice(alloc, &self.removes)?,
        })
    }

    /// Returns `true` if both states have the same presence of the key and running changes with the same ends, and the
    /// last change of this state is no earlier. This state then accepts all replies that `than` accepts from now on.
    pub fn is_like(&self, than: &KeyState) -> bool {
        self.state == than.state
            && self.turned >= than.turned
            && are_alike(&self.adds, &than.adds)
            && are_alike(&self.removes, &than.removes)
    }

    /// Removes the change that ends first among the running changes that can change the state: an add if the key is
    /// absent, a remove if it is present. Returns `false` if there is no such change.
    fn take_next(&mut self) -> bool {
        match self.state {
            Presence::Present => take_least(&mut self.removes),
            Presence::Absent => take_least(&mut self.adds),
        }
    }

    /// Lets the running change that ends first, among those that can change the state, take effect at the moment `at`.
    /// Returns `false` if there is no such change.
    pub fn flip(&mut self, at: u64) -> bool {
        if !self.take_next() {
            return false;
        }
        self.state = other(self.state);
        self.turned = at;
        true
    }

    /// Returns `true` if the reply of `call`, which ends now, agrees with the state. The reply of an add or remove that
    /// changed the key agrees if the change has taken effect. Any other reply agrees if the key is in the state that
    /// the call found, or was before a change took effect while the call was running.
    pub fn satisfies(&self, call: Made) -> bool {
        match call.makes() {
            Some(Presence::Present) => !self.adds.contains(&call.ended),
            Some(Presence::Absent) => !self.removes.contains(&call.ended),
            None => match call.needs() {
                Some(needs) => self.state == needs || self.turned > call.begun,
                None => true,
            },
        }
    }

    /// Lets running changes take effect until the reply of `call`, which ends now, agrees with the state. Returns
    /// `false` if no further change can take effect and the reply still disagrees: the calls so far are not
    /// linearizable.
    pub fn settle(&mut self, call: Made) -> bool {
        let most = self.adds.len().saturating_add(self.removes.len());
        for _ in 0..most {
            if self.satisfies(call) {
                return true;
            }
            if !self.flip(call.ended) {
                return false;
            }
        }
        self.satisfies(call)
    }

    /// Records that `call` begins: an add or remove that returned true or is pending can take effect from now on.
    /// Allocates.
    pub fn begin(&mut self, call: Made) -> Result<(), AllocError> {
        match call.makes() {
            Some(Presence::Present) => self.adds.push(call.ended)?,
            Some(Presence::Absent) => self.removes.push(call.ended)?,
            None => {}
        }
        Ok(())
    }

    /// Ends the calls in `pending` that end before the moment `at`, in the order of their ends. Returns the first end
    /// at which the reply agrees with no order of the calls so far; `None` if all replies agree.
    pub fn end_before(&mut self, pending: &mut Pending, at: u64) -> Option<u64> {
        for _ in 0..pending.len() {
            let call = pending.next_before(at)?;
            if !self.settle(call) {
                return Some(call.ended);
            }
        }
        None
    }

    /// Returns `true` if `left` can be the final state after all ends: the key is in this state, or a pending call can
    /// still change it. Always `true` if `left` is `None` (unknown).
    pub fn may_be_left(&self, left: Option<Presence>) -> bool {
        let turns = match self.state {
            Presence::Present => !self.removes.is_empty(),
            Presence::Absent => !self.adds.is_empty(),
        };
        turns || left.is_none_or(|left| left == self.state)
    }
}

/// Returns the first moment such that the key's calls up to this moment are not linearizable. Returns `NEVER` if the
/// calls are linearizable, but no order leaves the final state `left`, and `None` if an order does. `calls` must be
/// ordered by begin; `opening` is the key's first state. Allocates.
pub fn failing_moment(
    alloc: Global,
    calls: &[Made],
    opening: Presence,
    left: Option<Presence>,
) -> Result<Option<u64>, AllocError> {
    let mut key = KeyState::new(alloc, opening);
    let mut pending = Pending::new(alloc);
    for call in calls {
        if let Some(moment) = key.end_before(&mut pending, call.begun) {
            return Ok(Some(moment));
        }
        key.begin(*call)?;
        pending.push(*call)?;
    }
    if let Some(moment) = key.end_before(&mut pending, NEVER) {
        return Ok(Some(moment));
    }
    Ok(if key.may_be_left(left) {
        None
    } else {
        Some(NEVER)
    })
}

/// Returns `true` if the calls on a key are linearizable: an order explains all replies, starts from the state
/// `opening`, and ends with the state `left`, if known. `calls` must be ordered by begin. Allocates.
pub fn has_order(
    alloc: Global,
    calls: &[Made],
    opening: Presence,
    left: Option<Presence>,
) -> Result<bool, AllocError> {
    Ok(failing_moment(alloc, calls, opening, left)?.is_none())
}
