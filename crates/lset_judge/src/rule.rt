//! The judge's test of the calls on one key: which pending change takes effect, and when.

ghost use Rattle.std.specs.Prelude.{◌≡◌, suc, true, false, IfOk, IfSome, OnOk, Some, None};
ghost use Rattle.std.specs.Prelude.{if◌then◌else◌};
ghost use Rattle.lset_judge.specs.Rule.{options, turned_if, fits, found, entered, opened};
ghost use Rattle.lset_judge.specs.Leaving.{may_be_left};
ghost use Rattle.lset_judge.specs.Code.{state_of, event_as};
ghost use Rattle.lset_words.specs.Effects.{is_there};
ghost use Rattle.lset_words.specs.declared.effect.Presence.{Presence};
ghost use Rattle.lset_words.specs.declared.effect.Presence.TheVariants.{Present, Absent};
ghost use Rattle.lset_judge.specs.Facts.{facts_of, facts_opened, begun_by, IsClashing, IsEnded, IsFound};

use crate::clash::Clash;
use crate::event::Event;
use crate::key_changes::KeyChanges;
use crate::stream::StreamCall;
use lset_words::Presence;
use std::alloc::{AllocError, Global};

/// The kind of the completed call that the judge stores for a key. The stored call left the key in the state `was`.
#[derive(Clone, Copy)]
pub(crate) enum Kept {
    /// No call is stored: the key was in the state `was` when the set opened.
    Opening,
    /// An `add` or a `remove` that returned true.
    Change,
    /// An `add` or a `remove` that returned false.
    Refused,
    /// A `contains`.
    Look,
}

/// The state of a key: whether it is present and since when, its changes, and one completed call on the key. The judge
/// compares later calls with the stored call to find two calls that contradict each other. The struct has a size of 64
/// bytes.
#[derive(Drop)]
pub(crate) struct KeyState {
    pub(crate) changes: KeyChanges,
    turned: u64,
    /// The moment when the stored completed call started.
    pub(crate) begun: u64,
    /// The moment when the stored completed call ended.
    pub(crate) ended: u64,
    /// The thread of the stored completed call.
    pub(crate) thread: u32,
    pub(crate) kept: Kept,
    /// The state in which the stored completed call left the key. If no call is stored, the key's opening state.
    pub(crate) was: Presence,
    there: Presence,
}

impl KeyState {
    /// Returns the state of a key without calls. `there` is the key's state when the set opens. Does not allocate.
    pub(crate) fn opened(there: Presence) -> KeyState
        ensures state { state_of result ≡ opened (is_there there) }
        ensures facts { facts_of result ≡ facts_opened there }
    {
        KeyState {
            changes: KeyChanges::none(),
            turned: 0,
            begun: 0,
            ended: 0,
            thread: 0,
            kept: Kept::Opening,
            was: there,
            there,
        }
    }

    /// Returns whether `there` can be the key's final state: the key is in the state `there` now, or a pending change
    /// can change the key to the state `there`.
    pub(crate) fn may_be_left(&self, there: Presence) -> bool
        ensures { result ≡ may_be_left (is_there there) (state_of self.now) }
    {
        let turns = match self.there {
            Presence::Present => !self.changes.has_no_take(),
            Presence::Absent => !self.changes.has_no_put(),
        };
        self.there == there || turns
    }

    fn put(&mut self, before: u64) -> bool
        requires { self.old.there ≡ Absent }
        ensures turned { turned_if before (state_of self.old) (options (state_of self.old)) ≡ (if result then Some (state_of self.new) else None) }
        ensures facts { facts_of self.new ≡ facts_of self.old }
    {
        match self.changes.pop_put() {
            Some(_) => {
                self.there = Presence::Present;
                self.turned = before;
                true
            }
            None => false,
        }
    }

    fn take(&mut self, before: u64) -> bool
        requires { self.old.there ≡ Present }
        ensures turned { turned_if before (state_of self.old) (options (state_of self.old)) ≡ (if result then Some (state_of self.new) else None) }
        ensures facts { facts_of self.new ≡ facts_of self.old }
    {
        match self.changes.pop_take() {
            Some(_) => {
                self.there = Presence::Absent;
                self.turned = before;
                true
            }
            None => false,
        }
    }

    fn flip(&mut self, before: u64) -> bool
        ensures turned { turned_if before (state_of self.old) (options (state_of self.old)) ≡ (if result then Some (state_of self.new) else None) }
        ensures facts { facts_of self.new ≡ facts_of self.old }
    {
        match self.there {
            Presence::Present => self.take(before),
            Presence::Absent => self.put(before),
        }
    }

    fn fits(&self, before: u64, event: Event) -> bool
        ensures { result ≡ fits (suc before) (event_as event) (state_of self.now) }
    {
        match event {
            Event::Ends(Presence::Present) => self.changes.no_put_is_due(before),
            Event::Ends(Presence::Absent) => self.changes.no_take_is_due(before),
            Event::Looks(seen, since) => self.there == seen || self.turned >= since,
            Event::Begins(_, _) | Event::Idle => true,
        }
    }

    /// Lets pending changes take effect just after the moment `before`, one by one, until the key's state allows
    /// `event`, which happens at moment `before` + 1. Returns `false` if no state that the key reaches allows `event`.
    pub(crate) fn settle(&mut self, before: u64, event: Event) -> bool
        ensures found { found before (event_as event) (state_of self.old) ≡ (if result then Some (state_of self.new) else None) }
        ensures facts { facts_of self.new ≡ facts_of self.old }
    {
        while !self.fits(before, event) {
            if !self.flip(before) {
                return false;
            }
        }
        true
    }

    /// Processes `event` of the key, which happens at moment `before` + 1. Returns `false` if `event` shows that no
    /// order explains the calls on the key.
    pub(crate) fn meet(
        &mut self,
        alloc: Global,
        before: u64,
        event: Event,
    ) -> Result<bool, AllocError>
        ensures met { IfOk result (λ goes_on. entered (event_as event) (found before (event_as event) (state_of self.old))
            ≡ (if goes_on then Some (state_of self.new) else None)) }
        ensures facts { OnOk result (facts_of self.new ≡ begun_by (event_as event) (facts_of self.old)) }
    {
        if !self.settle(before, event) {
            return Ok(false);
        }
        match event {
            Event::Begins(Presence::Present, end) => self.changes.begin_put(alloc, before, end)?,
            Event::Begins(Presence::Absent, end) => self.changes.begin_take(alloc, before, end)?,
            Event::Ends(_) | Event::Looks(_, _) | Event::Idle => {}
        }
        Ok(true)
    }

    /// Processes the end of `call` on the key, at moment `before` + 1. If the end of `call` shows that no order
    /// explains the calls on the key, returns `false` and searches for an earlier call that contradicts `call`.
    pub(crate) fn meet_end(
        &mut self,
        alloc: Global,
        before: u64,
        event: Event,
        call: StreamCall,
        clash: &mut Option<Clash>,
    ) -> Result<bool, AllocError>
        requires { clash.old ≡ None }
        ensures met { IfOk result (λ goes_on. entered (event_as event) (found before (event_as event) (state_of self.old))
            ≡ (if goes_on then Some (state_of self.new) else None)) }
        ensures ended { OnOk result (IsEnded call (begun_by (event_as event) (facts_of self.old)) (facts_of self.new)) }
        ensures found { OnOk result (IfSome clash.new (IsFound (begun_by (event_as event) (facts_of self.old)) call)) }
        ensures missed { IfOk result (λ goes_on. goes_on ≡ false → clash.new ≡ None → IsClashing (begun_by (event_as event) (facts_of self.old)) call → ⊥) }
    {
        let goes_on = self.meet(alloc, before, event)?;
        if matches!(event, Event::Ends(_)) {
            self.changes.end(before.saturating_add(1));
        }
        if !goes_on {
            self.store_clash(call, clash);
        }
        self.keep(call);
        Ok(goes_on)
    }
}
