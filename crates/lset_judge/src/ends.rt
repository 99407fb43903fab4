//! A heap of the moments when calls end. Reading the earliest moment takes constant time. Inserting or removing a
//! moment takes logarithmic time.

ghost use Rattle.std.specs.Prelude.{◌≡◌, ◌==◌, ◌<◌, ◌≤◌, ◌∷◌, [], suc, length, slice_get, All, IsTrue, MatchOption, Some, OnOk, OnErr};
ghost use Rattle.lset_judge.specs.Rule.{nearest, not_before, put_in};

use std::alloc::{AllocError, Global};
use std::cmp::Reverse;
use std::collections::BinaryHeap;
use std::marker::Model;

/// A heap of the moments when calls end. In contracts, the heap is the list of its moments in increasing order.
#[derive(Drop)]
pub(crate) struct Ends {
    heap: BinaryHeap<Reverse<u64>>,
}

impl Model for Ends {
    ghost use Rattle.std.specs.Prelude.{ℕ, List};
    ghost use Rattle.std.specs.BinaryHeap.{IsHeap, heap_items};
    ghost use Rattle.lset_judge.specs.Heaped.{increasing_of, later_first};

    ghost Value = { List ℕ };

    ghost view = { λ e. increasing_of (heap_items e.heap) };

    ghost invariant = { λ e. IsHeap later_first (heap_items e.heap) };
}

impl Ends {
    /// Returns an empty heap. Does not allocate.
    pub(crate) fn new(alloc: Global) -> Ends
        ensures { result ≡ [] }
    {
        Ends {
            heap: BinaryHeap::new(alloc),
        }
    }

    pub(crate) fn is_empty(&self) -> bool
        ensures { result ≡ (length self.now == 0) }
    {
        self.heap.is_empty()
    }

    /// Returns whether all moments in the heap are later than `before` + 1.
    pub(crate) fn none_due(&self, before: u64) -> bool
        ensures { result ≡ (not_before (suc (suc before)) self.now == length self.now) }
    {
        match self.heap.peek() {
            Some(end) => before < end.0.saturating_sub(1),
            None => true,
        }
    }

    /// Returns the earliest moment, or `None` if the heap is empty.
    fn first(&self) -> Option<u64>
        ensures { MatchOption result (self.now ≡ []) (λ end. (slice_get self.now 0 ≡ Some end) × All (λ other. end ≤ other) self.now) }
    {
        match self.heap.peek() {
            Some(end) => Some(end.0),
            None => None,
        }
    }

    /// Returns whether all moments in the heap are later than `moment`.
    pub(crate) fn are_after(&self, moment: u64) -> bool
        ensures { IsTrue result → All (λ end. moment < end) self.now }
    {
        match self.first() {
            Some(end) => moment < end,
            None => true,
        }
    }

    /// Inserts `end`, the moment when a call ends. If an allocation fails, the heap is unchanged.
    pub(crate) fn push(&mut self, end: u64) -> Result<(), AllocError>
        ensures more { OnOk result (self.new ≡ put_in end self.old) }
        ensures same { OnErr result (self.new ≡ self.old) }
    {
        self.heap.push(Reverse(end))?;
        Ok(())
    }

    /// Removes and returns the earliest moment. Returns `None` if the heap is empty.
    pub(crate) fn pop(&mut self) -> Option<u64>
        ensures { MatchOption result (self.old ≡ []) (λ end. (self.old ≡ end ∷ self.new) × (nearest end self.new ≡ end)) }
    {
        let Some(end) = self.heap.pop() else {
            return None;
        };
        Some(end.0)
    }

    /// Removes and returns the earliest moment if it is before `moment`. Otherwise returns `None`.
    pub(crate) fn pop_before(&mut self, moment: u64) -> Option<u64>
        ensures { MatchOption result ((self.new ≡ self.old) × All (λ end. moment ≤ end) self.old)
            (λ end. (self.old ≡ end ∷ self.new) × (end < moment) × All (λ other. end ≤ other) self.old) }
    {
        match self.first() {
            Some(end) if end < moment => self.pop(),
            Some(_) | None => None,
        }
    }
}
