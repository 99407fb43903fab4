//! Many pending calls, in a hash table whose keys are the moments when the calls end. Inserting or removing a call
//! takes a few look-ups, and time logarithmic in the number of calls.

ghost use Rattle.std.specs.Prelude.{◌≡◌, ◌≢◌, ◌↔◌, ◌<◌, ◌≤◌, ◌∷◌, [], IsTrue, All, Contains, IfSome, MatchOption, OnOk, length};
ghost use Rattle.std.specs.List.Sorted.{IsPermutation};
ghost use Rattle.lset_judge.specs.Pending.{end_or, IsNext};

use crate::busy::Busy;
use crate::ends::Ends;
use crate::stream::{Pending, StreamCall};
use std::alloc::{AllocError, Global};
use std::collections::HashMap;
use std::marker::Model;

/// A hash table of pending calls.
#[derive(Drop)]
pub(crate) struct ManyCalls {
    /// Maps the moment when a call ends to the call.
    calls: HashMap<u64, StreamCall>,
    /// The moments when the calls in `calls` end.
    ends: Ends,
    /// The moment when each thread's last call in the table ends. Calls that were never in the table do not count.
    busy: Busy,
}

impl Model for ManyCalls {
    ghost use Rattle.std.specs.Prelude.{List, map};
    ghost use Rattle.lset_judge.specs.declared.stream.Pending.{Pending};
    ghost use Rattle.lset_judge.specs.Pending.{pending_at, AreHeld};

    ghost Value = { List Pending };

    ghost view = { λ c. map pending_at c.calls.entries };

    ghost invariant = { λ c. AreHeld c.calls.entries c.ends c.busy };
}

/// Returns the moment when a call ends. If the call never ends, returns the moment when it starts.
pub(crate) fn end_or_begin(call: StreamCall) -> u64
    ensures { result ≡ end_or call.begun call.ended }
{
    match call.ended {
        Some((end, _)) => end,
        None => call.begun,
    }
}

/// Removes and returns the call that ends first, if this call ends before `moment`. Otherwise returns `None`.
fn pop_before(calls: &mut HashMap<u64, StreamCall>, ends: &mut Ends, moment: u64) -> Option<Pending>
    requires { All (λ e. Contains ends.old e.0) calls.old.entries }
    ensures held { All (λ e. Contains ends.new e.0) calls.new.entries }
    ensures next { MatchOption result ((calls.new.entries ≡ calls.old.entries) × All (λ e. moment ≤ e.0) calls.old.entries)
        (λ p. (p.end < moment) × IsPermutation calls.old.entries ((p.end, p.call) ∷ calls.new.entries)
        × All (λ e. p.end ≤ e.0) calls.old.entries) }
{
    // After a failed allocation, the heap can contain a moment at which no call in the table ends.
    while let Some(end) = ends.pop_before(moment) {
        if let Some(call) = calls.remove(&end) {
            return Some(Pending { end, call });
        }
    }
    None
}

impl ManyCalls {
    /// Returns an empty table. Does not allocate.
    pub(crate) fn new(alloc: Global) -> ManyCalls
        ensures { result ≡ [] }
    {
        ManyCalls {
            calls: HashMap::new(alloc),
            ends: Ends::new(alloc),
            busy: Busy::new(alloc),
        }
    }

    /// Returns the number of calls in the table.
    pub(crate) fn len(&self) -> usize
        ensures { result ≡ length self.now }
    {
        self.calls.len()
    }

    /// Returns the hash table, which maps the moment when a call ends to the call.
    pub(crate) fn calls(&self) -> &HashMap<u64, StreamCall> {
        &self.calls
    }

    /// Returns whether no call in the table ends at `moment`.
    fn none_ends_at(&self, moment: u64) -> bool
        ensures { IsTrue result ↔ All (λ p. p.end ≢ moment) self.now }
    {
        if self.ends.are_after(moment) {
            return true;
        }
        !self.calls.contains_key(&moment)
    }

    /// Returns whether no call in the table ends when `call` starts or ends.
    pub(crate) fn are_apart(&self, call: StreamCall) -> bool
        ensures { IsTrue result
            ↔ All (λ p. (p.end ≢ call.begun) × IfSome call.ended (λ end. p.end ≢ end.0)) self.now }
    {
        self.none_ends_at(call.begun) && self.none_ends_at(end_or_begin(call))
    }

    /// Returns whether the thread of `call` has no pending call in the table when `call` starts.
    pub(crate) fn are_free(&self, call: StreamCall) -> bool
        ensures { IsTrue result ↔ All (λ p. p.call.thread ≡ call.thread → p.end ≤ call.begun) self.now }
    {
        if self.calls.len() == 0 {
            return true;
        }
        let end = self.busy.last_end(call.thread);
        if end <= call.begun {
            return true;
        }
        match self.calls.get(&end) {
            Some(other) => other.thread != call.thread,
            None => true,
        }
    }

    /// Removes and returns the call that ends first, if this call ends before `moment`. Otherwise returns `None`.
    pub(crate) fn next_before(&mut self, moment: u64) -> Option<Pending>
        ensures { MatchOption result ((self.new ≡ self.old) × All (λ p. moment ≤ p.end) self.old)
            (λ next. IsNext moment self.old next self.new) }
    {
        pop_before(&mut self.calls, &mut self.ends, moment)
    }

    /// Inserts a call. The table must not contain a call by the same thread, or a call that ends at the same moment.
    pub(crate) fn insert(&mut self, pending: Pending) -> Result<(), AllocError>
        requires { All (λ p. p.call.thread ≢ pending.call.thread) self.old }
        ensures { OnOk result (All (λ p. p.end ≢ pending.end) self.old → IsPermutation (pending ∷ self.old) self.new) }
    {
        self.busy.store(pending.call.thread, pending.end)?;
        self.ends.push(pending.end)?;
        self.calls.insert(pending.end, pending.call)?;
        Ok(())
    }
}
