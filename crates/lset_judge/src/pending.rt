//! The pending calls of a recording that is judged call by call.

ghost use Rattle.std.specs.Prelude.{◌≡◌, ◌≢◌, ◌<◌, ◌≤◌, ◌∷◌, ◌++◌, [], ◌^◌, ◌-◌, All, IfSome, MatchOption, OnOk, length, slice_index_or};
ghost use Rattle.std.specs.List.Sorted.{IsPermutation};
ghost use Rattle.lset_judge.specs.Pending.{IsFirst, IsNext};

use crate::many::{ManyCalls, end_or_begin};
use crate::rule::KeyState;
use crate::stream::{Pending, StreamCall, StreamFault};
use lset_words::Effect;
use std::alloc::{AllocError, Global};
use std::collections::HashMap;
use std::marker::Model;

/// The maximum number of pending calls in the vector `few`, which is searched item by item.
const FEW: usize = 32;

/// The pending calls of a recording. Up to `FEW` calls are in a vector, which is searched item by item (the fastest way
/// for a small number of calls). All other calls are in a hash table, in which inserting or removing a call takes
/// logarithmic time.
#[derive(Drop)]
pub(crate) struct PendingCalls {
    few: Vec<Pending>,
    /// The index in `few` of the call that ends first.
    next: usize,
    /// The calls that are not in `few`.
    many: ManyCalls,
}

impl Model for PendingCalls {
    ghost use Rattle.std.specs.Prelude.{List, ◌++◌};
    ghost use Rattle.lset_judge.specs.declared.stream.Pending.{Pending};
    ghost use Rattle.lset_judge.specs.Pending.{IsFirst};

    ghost Value = { List Pending };

    ghost view = { λ c. c.few.items ++ c.many };

    ghost invariant = { λ c. IsFirst c.next c.few.items };
}

/// Returns the reason why `call` cannot start while the calls in `few` are pending, or `None` if it can. There are two
/// possible reasons: a call in `few` ends when `call` starts or ends, or the thread of `call` already has a pending
/// call in `few`.
fn clash(few: &[Pending], call: StreamCall) -> Option<StreamFault>
    ensures { MatchOption result
        (All (λ p. (p.end ≢ call.begun) × IfSome call.ended (λ end. p.end ≢ end.0)) few.now
        × All (λ p. p.call.thread ≡ call.thread → p.end ≤ call.begun) few.now)
        (λ fault. All (λ p. (p.end ≢ call.begun) × IfSome call.ended (λ end. p.end ≢ end.0)) few.now
        → All (λ p. p.call.thread ≡ call.thread → p.end ≤ call.begun) few.now → ⊥) }
{
    let end = end_or_begin(call);
    let mut is_busy = false;
    for it in few {
        if it.end == call.begun || it.end == end {
            return Some(StreamFault::Taken);
        }
        if it.call.thread == call.thread && call.begun < it.end {
            is_busy = true;
        }
    }
    if is_busy {
        Some(StreamFault::Busy)
    } else {
        None
    }
}

/// Returns the index of the call in `few` that ends first, or 0 if `few` is empty.
fn nearest_place(few: &[Pending]) -> usize
    ensures { IsFirst result few.now }
{
    if few.is_empty() {
        return 0;
    }
    let mut place = 0;
    let mut end = few[0].end;
    for i in 1..few.len() {
        if few[i].end < end {
            place = i;
            end = few[i].end;
        }
    }
    place
}

/// Returns the index of the call that ends first, once `pending` has been appended to `few`.
fn next_with(few: &[Pending], next: usize, pending: Pending) -> usize
    requires { IsFirst next few.now }
    ensures { IsFirst result (few.now ++ pending ∷ []) }
{
    if next < few.len() && few[next].end <= pending.end {
        next
    } else {
        few.len()
    }
}

/// Returns the earliest moment when a call in `few` ends, or `u64::MAX` if `few` is empty.
fn end_of_few(few: &[Pending], next: usize) -> u64
    requires { IsFirst next few.now }
    ensures smallest { All (λ p. result ≤ p.end) few.now }
    ensures first { result < 2 ^ 64 - 1 → (next < length few.now) × ((d : Pending) → (slice_index_or few.now next d).end ≡ result) }
{
    if next < few.len() {
        few[next].end
    } else {
        u64::MAX
    }
}

/// Returns whether `call`, which is pending after `moment`, overlaps a change of its key.
fn overlaps(states: &HashMap<u32, KeyState>, moment: u64, call: StreamCall) -> bool {
    match states.get(&call.call.key().0) {
        Some(state) => {
            let is_change = call.ended.is_some() && matches!(call.effect(), Effect::Changes(_));
            state.changes.counts(moment).overlap(is_change, call.begun)
        }
        None => false,
    }
}

impl PendingCalls {
    /// Returns an empty collection of calls. Does not allocate.
    pub(crate) fn new(alloc: Global) -> PendingCalls
        ensures { result ≡ [] }
    {
        PendingCalls {
            few: Vec::new(alloc),
            next: 0,
            many: ManyCalls::new(alloc),
        }
    }

    /// Returns the reason why `call` cannot start while the calls in `self` are pending, or `None` if it can. There are
    /// two possible reasons: a call in `self` ends when `call` starts or ends, or the thread of `call` already has a
    /// pending call in `self`.
    pub(crate) fn clash(&self, call: StreamCall) -> Option<StreamFault>
        ensures { MatchOption result
            (All (λ p. (p.end ≢ call.begun) × IfSome call.ended (λ end. p.end ≢ end.0)) self.now
            × All (λ p. p.call.thread ≡ call.thread → p.end ≤ call.begun) self.now)
            (λ fault. All (λ p. (p.end ≢ call.begun) × IfSome call.ended (λ end. p.end ≢ end.0)) self.now
            → All (λ p. p.call.thread ≡ call.thread → p.end ≤ call.begun) self.now → ⊥) }
    {
        let fault = clash(&self.few, call);
        if self.many.len() == 0 || matches!(fault, Some(StreamFault::Taken)) {
            return fault;
        }
        if !self.many.are_apart(call) {
            Some(StreamFault::Taken)
        } else if fault.is_some() {
            fault
        } else if self.many.are_free(call) {
            None
        } else {
            Some(StreamFault::Busy)
        }
    }

    /// Removes and returns the call that ends first, if this call ends before `moment`. Otherwise returns `None`.
    pub(crate) fn next_before(&mut self, moment: u64) -> Option<Pending>
        ensures { MatchOption result ((self.new ≡ self.old) × All (λ p. moment ≤ p.end) self.old)
            (λ next. IsNext moment self.old next self.new) }
    {
        let end = end_of_few(&self.few, self.next);
        if let Some(next) = self.many.next_before(end.min(moment)) {
            return Some(next);
        }
        if end < moment {
            let next = self.few.swap_remove(self.next);
            self.next = nearest_place(&self.few);
            return Some(next);
        }
        None
    }

    /// Inserts a call. The collection must not contain a call by the same thread, or a call that ends at the same
    /// moment.
    pub(crate) fn insert(&mut self, pending: Pending) -> Result<(), AllocError>
        requires { All (λ p. p.call.thread ≢ pending.call.thread) self.old }
        ensures { OnOk result (All (λ p. p.end ≢ pending.end) self.old → IsPermutation (pending ∷ self.old) self.new) }
    {
        if self.few.len() < FEW && self.many.len() == 0 {
            let next = next_with(&self.few, self.next, pending);
            self.few.push(pending)?;
            self.next = next;
            return Ok(());
        }
        self.many.insert(pending)
    }

    /// Returns how many calls that are pending after `moment` overlap a change of their key.
    pub(crate) fn overlapping(&self, states: &HashMap<u32, KeyState>, moment: u64) -> u64 {
        let mut count: u64 = 0;
        for pending in &self.few {
            count = count.saturating_add(u64::from(overlaps(states, moment, pending.call)));
        }
        for call in self.many.calls().values() {
            count = count.saturating_add(u64::from(overlaps(states, moment, *call)));
        }
        count
    }
}
