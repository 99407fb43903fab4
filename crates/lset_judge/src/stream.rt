//! Judges the calls of a recording one after another, as a stream. The stream stores the state of each key, and the
//! pending calls.

ghost use Rattle.std.specs.Prelude.{◌≡◌, ◌≢◌, ◌↔◌, ◌<◌, ◌≤◌, ◌+◌, ◌++◌, ◌∷◌, [], ℕ, IsTrue, All, List, length, false, true, None, Some, IfOk, OnOk, IfErr, IfSome, MatchOption, if◌then◌else◌, ◌⊎◌};
ghost use Rattle.std.specs.Prelude.{Contains, IsSome, slice_index_or, ◌==◌, ◌&&◌};
ghost use Rattle.std.specs.List.Sorted.{IsStrictlyIncreasing};
ghost use Rattle.std.specs.Bool.{nat_eq};
ghost use Rattle.std.specs.HashMap.{get};
ghost use Rattle.lset_words.specs.declared.history.CallRecord.{CallRecord as RecordedCall};
ghost use Rattle.lset_words.specs.SequentialSet.{has_key};
ghost use Rattle.lset_words.specs.Words.{key_of};
ghost use Rattle.lset_judge.specs.Rule.{entered, found, opened};
ghost use Rattle.lset_words.specs.Effects.{presence};
ghost use Rattle.lset_judge.specs.Clash.{other};
ghost use Rattle.lset_judge.specs.Code.{event_as};
ghost use Rattle.lset_judge.specs.Events.{kind_as, kind_if, until_if, begin_event, end_event};
ghost use Rattle.lset_judge.specs.Leaving.{may_be_left};
ghost use Rattle.lset_judge.specs.Facts.{begun_by, clash_met, facts_for, facts_opened, BeginIsKnown, EndIsKept, EndIsKnown, IsClashing, IsEnded, IsFound, IsFoundLeft, IsStanding, IsStreamKept};
ghost use Rattle.lset_judge.specs.Stream.{record_of, stream_history, behind_all, state_for, pending_of, key_in, event_of, IsBefore, IsMet, IsStreamOf, MayCome, failed_verdict, verdict_of_key, moment_of, pending_in, IsStreamVerdict, IsStreamVerdictCutOff, IsMetBy, IsToldBy};
ghost use Rattle.lset_judge.specs.Verdict.{is_plain};
ghost use Rattle.lset_judge.specs.declared.stream.StreamFault.TheVariants.{Memory};

use crate::clash::Clash;
use crate::event::{Event, begin_event, end_event, open_effect};
use crate::judged::is_answer;
use crate::keys::presence_in;
use crate::pending::PendingCalls;
use crate::rule::KeyState;
use lset_words::{Call, Effect, Key, Presence, Reply};
use std::alloc::{AllocError, Global};
use std::collections::HashMap;
use thiserror::Error;

/// A call of a recording. `thread` can be any number. `begun` is the moment when the call starts, from 1 to
/// `LAST_MOMENT`. `ended` contains the moment when the call ends, which is after `begun` and at most `LAST_MOMENT`, and
/// the call's reply. If `ended` is `None`, the call is still pending when the recording ends.
#[derive(Clone, Copy, Debug, PartialEq, Eq)]
pub struct StreamCall {
    pub thread: u32,
    pub call: Call,
    pub begun: u64,
    pub ended: Option<(u64, Reply)>,
}

/// The last possible moment of a recording, 2^63 - 1.
pub const LAST_MOMENT: u64 = (1 << 63) - 1;

/// The smallest number that is greater than every moment.
pub(crate) const BEHIND_ALL: u64 = 1 << 63;

/// The reason why a call cannot be the next call of a recording. If several reasons apply, the first in the order of
/// the variants is returned.
#[derive(Clone, Copy, Debug, PartialEq, Eq, Error)]
pub enum StreamFault {
    /// The call starts at moment 0, does not start after all earlier calls of the recording, or starts or ends after
    /// `LAST_MOMENT`.
    #[error("the call begins at moment 0 or no later than an earlier call, or a moment is too large")]
    Early,
    /// The call ends no later than it starts.
    #[error("the call does not end after its begin")]
    Ends,
    /// The call is a completed `ceiling` (a call that returns the smallest key not less than its argument), or its
    /// reply is neither true nor false.
    #[error("the call is a completed ceiling, or its reply is neither true nor false")]
    NotPlain,
    /// An earlier call ends at the same moment at which the call starts or ends.
    #[error("an earlier call ends at one of this call's moments")]
    Taken,
    /// The thread of the call already has a pending call when the call starts.
    #[error("its thread already has a pending call")]
    Busy,
    /// An allocation failed.
    #[error("out of memory")]
    Memory,
}

impl From<AllocError> for StreamFault {
    ghost from_gives = { λ _ fault. fault ≡ Memory };

    fn from(_refused: AllocError) -> StreamFault {
        StreamFault::Memory
    }
}

/// The verdict on the calls of a recording.
#[derive(Clone, Copy, Debug, PartialEq, Eq)]
pub(crate) enum StreamVerdict {
    /// Some order explains the calls: made in this order on a set with the opening keys, the calls return the recorded
    /// replies and leave the final keys.
    Linearizable,
    /// No order explains the calls and leaves the final keys.
    NotLinearizable(Refusal),
}

/// The reason why no order explains the calls and leaves the final keys: a key whose calls alone rule out every order,
/// and the moment at which the judge found this.
#[derive(Clone, Copy, Debug, PartialEq, Eq)]
pub struct Refusal {
    /// The key. No order explains the calls on the key and leaves the key in its final state.
    pub key: Key,
    /// A moment such that no order explains the calls on `key` that start at the moment or earlier, with all their
    /// replies, whatever the final keys are. It is the first moment at which the judge's test fails for any key. `None`
    /// if the test fails for no key, but no order explains all calls on `key` and leaves `key` in its final state.
    pub moment: Option<u64>,
}

/// The first key with calls that no order explains, and the moment when the judge found the key.
#[derive(Clone, Copy)]
pub(crate) struct Failed {
    pub(crate) key: Key,
    pub(crate) moment: u64,
}

/// A pending call. It can take effect only before the moment `end`.
#[derive(Clone, Copy)]
pub(crate) struct Pending {
    pub(crate) end: u64,
    pub(crate) call: StreamCall,
}

impl StreamCall {
    pub(crate) fn is_of(self, key: u32) -> bool
        ensures { result ≡ ((key_of self.call).0 == key) }
    {
        self.call.key().0 == key
    }

    /// Returns the effect of the call on its key. For a pending call, returns the effect that the call can still have.
    pub(crate) fn effect(self) -> Effect
        ensures { kind_as result ≡ kind_if self.call self.ended }
    {
        match self.ended {
            None => open_effect(self.call),
            Some((_, reply)) => self.call.effect(reply),
        }
    }

    fn until(self) -> u64
        requires { self.begun < behind_all }
        ensures { result ≡ until_if behind_all self.begun self.ended }
    {
        match self.ended {
            None => BEHIND_ALL + self.begun,
            Some((end, _)) => end,
        }
    }

    fn pending(self) -> Pending
        requires { self.begun < behind_all }
        ensures { result ≡ pending_of (record_of self) }
    {
        Pending {
            end: self.until(),
            call: self,
        }
    }

    fn is_plain(self) -> bool
        ensures { IsTrue result ↔ IfSome self.ended (λ end. is_plain self.call end.1 ≡ true) }
    {
        match self.ended {
            Some((_, reply)) => is_answer(self.call, reply),
            None => true,
        }
    }

    fn ends_later(self) -> bool
        ensures { IsTrue result ↔ IfSome self.ended (λ end. self.begun < end.0) }
    {
        match self.ended {
            Some((end, _)) => self.begun < end,
            None => true,
        }
    }

    fn is_before(self) -> bool
        ensures { IsTrue result ↔ IsBefore (record_of self) }
    {
        match self.ended {
            Some((end, _)) => self.begun <= LAST_MOMENT && end <= LAST_MOMENT,
            None => self.begun <= LAST_MOMENT,
        }
    }
}

impl Pending {
    pub(crate) fn key(self) -> u32
        ensures { result ≡ key_in self }
    {
        self.call.call.key().0
    }

    /// Returns the event for the end of the pending call.
    pub(crate) fn event(self) -> Event
        ensures { event_as result ≡ event_of self }
    {
        end_event(self.call.effect(), self.call.begun)
    }
}

/// Processes `event` of a key at moment `before` + 1. The key must have no stored state yet. Returns `false` if `event`
/// shows that no order explains the calls on the key. A separate function, so that other events need no stack space for
/// a new state.
fn meet_new_key(
    states: &mut HashMap<u32, KeyState>,
    alloc: Global,
    key: u32,
    before: u64,
    event: Event,
) -> Result<bool, AllocError>
    requires { get nat_eq states.old key ≡ None }
    ensures met { IfOk result (λ goes_on. entered (event_as event) (found before (event_as event) (state_for states.old key))
        ≡ (if goes_on then Some (state_for states.new key) else None)) }
    ensures others { IfOk result (λ goes_on. (k : ℕ) → k ≢ key → state_for states.new k ≡ state_for states.old k) }
    ensures facts { OnOk result (facts_for states.new key ≡ begun_by (event_as event) (facts_for states.old key)) }
    ensures other_facts { OnOk result ((k : ℕ) → k ≢ key → facts_for states.new k ≡ facts_for states.old k) }
{
    let mut state = KeyState::opened(Presence::Absent);
    let goes_on = state.meet(alloc, before, event)?;
    states.insert(key, state)?;
    Ok(goes_on)
}

/// Processes `event` of a key at moment `before` + 1. Returns `false` if `event` shows that no order explains the calls
/// on the key.
fn meet_key(
    states: &mut HashMap<u32, KeyState>,
    alloc: Global,
    key: u32,
    before: u64,
    event: Event,
) -> Result<bool, AllocError>
    ensures met { IfOk result (λ goes_on. entered (event_as event) (found before (event_as event) (state_for states.old key))
        ≡ (if goes_on then Some (state_for states.new key) else None)) }
    ensures others { IfOk result (λ goes_on. (k : ℕ) → k ≢ key → state_for states.new k ≡ state_for states.old k) }
    ensures facts { OnOk result (facts_for states.new key ≡ begun_by (event_as event) (facts_for states.old key)) }
    ensures other_facts { OnOk result ((k : ℕ) → k ≢ key → facts_for states.new k ≡ facts_for states.old k) }
{
    if let Some(state) = states.get_mut(&key) {
        let goes_on = state.meet(alloc, before, event)?;
        return Ok(goes_on);
    }
    let goes_on = meet_new_key(states, alloc, key, before, event)?;
    Ok(goes_on)
}

/// Records the start of a call on a key, after the judge has found that no order explains the calls on the key.
fn note_begin(
    states: &mut HashMap<u32, KeyState>,
    alloc: Global,
    key: u32,
    event: Event,
) -> Result<(), AllocError>
    ensures { OnOk result (facts_for states.new key ≡ begun_by (event_as event) (facts_for states.old key)) }
{
    if let Some(state) = states.get_mut(&key) {
        state.note_begin(event);
        return Ok(());
    }
    let mut state = KeyState::opened(Presence::Absent);
    state.note_begin(event);
    states.insert(key, state)?;
    Ok(())
}

/// Records the end of `call` on a key, after the judge has found that no order explains the calls on the key. Returns a
/// clash (two calls that contradict each other) of `call` and an earlier call, if the stored facts show one.
fn note_end(
    states: &mut HashMap<u32, KeyState>,
    alloc: Global,
    call: StreamCall,
) -> Result<Option<Clash>, AllocError>
    ensures kept { IfOk result (λ clash. EndIsKept states.old call states.new clash) }
    ensures missed { IfOk result (λ clash. clash ≡ None → IsClashing (facts_for states.old (key_of call.call).0) call → ⊥) }
{
    let key = call.call.key().0;
    if let Some(state) = states.get_mut(&key) {
        let clash = state.clash_of(call);
        state.keep(call);
        return Ok(clash);
    }
    let mut state = KeyState::opened(Presence::Absent);
    let clash = state.clash_of(call);
    state.keep(call);
    states.insert(key, state)?;
    Ok(clash)
}

/// The result of processing the end of a call.
#[derive(Clone, Copy)]
struct EndMet {
    /// `false` if the end of the call shows that no order explains the calls on the key.
    goes_on: bool,
    /// Whether the call overlaps another call that changes the same key.
    overlaps: bool,
}

/// Processes the end of `call` at moment `before` + 1. The key of `call` must have no stored state yet. If the end of
/// `call` shows that no order explains the calls on the key, searches for an earlier call that contradicts `call`.
fn meet_new_key_end(
    states: &mut HashMap<u32, KeyState>,
    alloc: Global,
    before: u64,
    event: Event,
    call: StreamCall,
    clash: &mut Option<Clash>,
) -> Result<EndMet, AllocError>
    requires new { get nat_eq states.old (key_of call.call).0 ≡ None }
    requires none { clash.old ≡ None }
    ensures met { IfOk result (λ m. entered (event_as event) (found before (event_as event) (state_for states.old (key_of call.call).0))
        ≡ (if m.goes_on then Some (state_for states.new (key_of call.call).0) else None)) }
    ensures others { OnOk result ((k : ℕ) → k ≢ (key_of call.call).0 → state_for states.new k ≡ state_for states.old k) }
    ensures ended { OnOk result (IsEnded call (begun_by (event_as event) (facts_for states.old (key_of call.call).0)) (facts_for states.new (key_of call.call).0)) }
    ensures found { OnOk result (IfSome clash.new (IsFound (begun_by (event_as event) (facts_for states.old (key_of call.call).0)) call)) }
    ensures missed { IfOk result (λ m. m.goes_on ≡ false → clash.new ≡ None
        → IsClashing (begun_by (event_as event) (facts_for states.old (key_of call.call).0)) call → ⊥) }
    ensures other_facts { OnOk result ((k : ℕ) → k ≢ (key_of call.call).0 → facts_for states.new k ≡ facts_for states.old k) }
{
    let key = call.call.key().0;
    let mut state = KeyState::opened(Presence::Absent);
    let goes_on = state.meet_end(alloc, before, event, call, clash)?;
    states.insert(key, state)?;
    Ok(EndMet {
        goes_on,
        overlaps: false,
    })
}

/// Processes the end of `call` at moment `before` + 1. If the end of `call` shows that no order explains the calls on
/// the key, searches for an earlier call that contradicts `call`.
fn meet_key_end(
    states: &mut HashMap<u32, KeyState>,
    alloc: Global,
    before: u64,
    event: Event,
    call: StreamCall,
    clash: &mut Option<Clash>,
) -> Result<EndMet, AllocError>
    requires { clash.old ≡ None }
    ensures met { IfOk result (λ m. entered (event_as event) (found before (event_as event) (state_for states.old (key_of call.call).0))
        ≡ (if m.goes_on then Some (state_for states.new (key_of call.call).0) else None)) }
    ensures others { OnOk result ((k : ℕ) → k ≢ (key_of call.call).0 → state_for states.new k ≡ state_for states.old k) }
    ensures ended { OnOk result (IsEnded call (begun_by (event_as event) (facts_for states.old (key_of call.call).0)) (facts_for states.new (key_of call.call).0)) }
    ensures found { OnOk result (IfSome clash.new (IsFound (begun_by (event_as event) (facts_for states.old (key_of call.call).0)) call)) }
    ensures missed { IfOk result (λ m. m.goes_on ≡ false → clash.new ≡ None
        → IsClashing (begun_by (event_as event) (facts_for states.old (key_of call.call).0)) call → ⊥) }
    ensures other_facts { OnOk result ((k : ℕ) → k ≢ (key_of call.call).0 → facts_for states.new k ≡ facts_for states.old k) }
{
    let key = call.call.key().0;
    if let Some(state) = states.get_mut(&key) {
        let is_change = matches!(event, Event::Ends(_));
        let overlaps = state.changes.counts(before).overlap(is_change, call.begun);
        let goes_on = state.meet_end(alloc, before, event, call, clash)?;
        return Ok(EndMet { goes_on, overlaps });
    }
    let met = meet_new_key_end(states, alloc, before, event, call, clash)?;
    Ok(met)
}

/// Returns the state of each key in `opening` in a set that opens with the keys `opening`.
fn opening_states(alloc: Global, opening: &[u32]) -> Result<HashMap<u32, KeyState>, AllocError>
    ensures states { IfOk result (λ states. (k : ℕ) → state_for states k ≡ opened (has_key k opening.now)) }
    ensures facts { IfOk result (λ states. (k : ℕ) → facts_for states k ≡ facts_opened (presence (has_key k opening.now))) }
{
    let mut states = HashMap::new(alloc);
    for key in opening {
        states.insert(*key, KeyState::opened(Presence::Present))?;
    }
    Ok(states)
}

impl Failed {
    fn verdict(self) -> StreamVerdict
        ensures { result ≡ failed_verdict self }
    {
        StreamVerdict::NotLinearizable(Refusal {
            key: self.key,
            moment: Some(self.moment),
        })
    }
}

/// Returns the smaller of the keys `key` and `other`, or `key` if `other` is `None`.
fn smallest(key: u32, other: Option<u32>) -> u32
    ensures { (result ≡ key) ⊎ (other ≡ Some result) }
{
    match other {
        Some(other) if other < key => other,
        Some(_) | None => key,
    }
}

/// Returns the verdict `NotLinearizable` for `key`, a key with a final state that no order explains. If `key` is
/// `None`, there is no such key, and the verdict is `Linearizable`.
fn verdict_of_key(key: Option<u32>) -> StreamVerdict
    ensures { result ≡ verdict_of_key key }
{
    match key {
        Some(key) => StreamVerdict::NotLinearizable(Refusal {
            key: Key(key),
            moment: None,
        }),
        None => StreamVerdict::Linearizable,
    }
}

/// A stream judges the calls of a recording one after another, ordered by start. It stores the state of each key, the
/// pending calls, and at most one moment per thread. The memory use grows with the number of keys, threads and pending
/// calls, but not with the number of calls.
///
/// `verdict` and `verdict_cut_off` return whether some order explains all calls. The judge processes the moments once
/// and in order, so it stores no past moments.
#[derive(Drop)]
pub(crate) struct Stream {
    alloc: Global,
    states: HashMap<u32, KeyState>,
    pending: PendingCalls,
    moment: u64,
    failed: Option<Failed>,
    /// Two calls on the key in `failed` that contradict each other, if the judge found such calls.
    clash: Option<Clash>,
    /// How many calls that have ended so far overlap another call that changes the same key.
    overlapped: u64,
}

impl Stream {
    /// Returns a stream (a judge of calls in sequence) that has judged no calls. The set opens with the keys `opening`,
    /// which must be in increasing order.
    pub fn new(alloc: Global, opening: &[u32]) -> Result<Stream, AllocError>
        requires { IsStrictlyIncreasing opening.now }
        ensures opened { IfOk result (λ s. (threads : ℕ) → IsStreamKept threads opening.now [] s) }
        ensures moment { IfOk result (λ s. moment_of s ≡ 0) }
    {
        Ok(Stream {
            alloc,
            states: opening_states(alloc, opening)?,
            pending: PendingCalls::new(alloc),
            moment: 0,
            failed: None,
            clash: None,
            overlapped: 0,
        })
    }

    /// Returns the reason why `call` cannot be the next call of the recording, or `None` if it can.
    fn find_fault(&self, call: StreamCall) -> Option<StreamFault>
        ensures { MatchOption result (MayCome self.now.pending self.now.moment (record_of call))
            (λ fault. MayCome self.now.pending self.now.moment (record_of call) → ⊥) }
    {
        if call.begun <= self.moment || !call.is_before() {
            Some(StreamFault::Early)
        } else if !call.ends_later() {
            Some(StreamFault::Ends)
        } else if !call.is_plain() {
            Some(StreamFault::NotPlain)
        } else {
            self.pending.clash(call)
        }
    }

    /// Processes `event` of `key` at `moment`, which then is the current moment of the stream.
    fn meet(&mut self, key: u32, moment: u64, event: Event) -> Result<(), AllocError>
        ensures met { OnOk result (IsMet self.old key moment (event_as event) self.new) }
        ensures known { OnOk result (BeginIsKnown self.old.states key (event_as event) self.new.states self.old.failed self.old.clash) }
        ensures clash { OnOk result (self.new.clash ≡ self.old.clash) }
    {
        if matches!(event, Event::Idle) {
            self.moment = moment;
            return Ok(());
        }
        if let Some(failed) = self.failed {
            if failed.key.0 == key && self.clash.is_none() {
                note_begin(&mut self.states, self.alloc, key, event)?;
            }
        } else {
            let goes_on = meet_key(
                &mut self.states,
                self.alloc,
                key,
                moment.saturating_sub(1),
                event,
            )?;
            if !goes_on {
                self.failed = Some(Failed {
                    key: Key(key),
                    moment,
                });
            }
        }
        self.moment = moment;
        Ok(())
    }

    /// Sets `clash` to `None`. A separate function, so that processing the end of a call needs no stack space for a
    /// `Clash`.
    fn forget_clash(&mut self)
        ensures { self.new ≡ record self.old { clash = None } }
    {
        self.clash = None;
    }

    /// Processes the end of the pending call `next`, while the judge has found no key with calls that no order
    /// explains.
    fn meet_end_going(&mut self, next: Pending) -> Result<(), AllocError>
        requires { self.old.failed ≡ None }
        ensures pending { OnOk result (self.new.pending ≡ self.old.pending) }
        ensures by { OnOk result (IsMetBy self.old.states (key_in next) next.end (event_of next) self.new.states None self.new.failed) }
        ensures known { OnOk result (EndIsKept self.old.states next.call self.new.states self.new.clash
            × ((k : ℕ) → k ≢ (key_of next.call.call).0 → facts_for self.new.states k ≡ facts_for self.old.states k)) }
        ensures missed { OnOk result (self.new.failed ≢ None → self.new.clash ≡ None → IsClashing (facts_for self.old.states (key_in next)) next.call → ⊥) }
    {
        if self.clash.is_some() {
            self.forget_clash();
        }
        let met = meet_key_end(
            &mut self.states,
            self.alloc,
            next.end.saturating_sub(1),
            next.event(),
            next.call,
            &mut self.clash,
        )?;
        self.overlapped = self.overlapped.saturating_add(u64::from(met.overlaps));
        if !met.goes_on {
            self.failed = Some(Failed {
                key: Key(next.key()),
                moment: next.end,
            });
        }
        Ok(())
    }

    /// Processes the end of the pending call `next`, after the judge has found a key with calls that no order explains.
    fn end_after_failure(&mut self, next: Pending, failed: Failed) -> Result<(), AllocError>
        requires { self.old.failed ≡ Some failed }
        ensures met { OnOk result (IsMet self.old (key_in next) next.end (event_of next) self.new) }
        ensures known { OnOk result (EndIsKnown self.old.states next.call self.new.states self.old.failed self.old.clash self.new.clash) }
        ensures missed { OnOk result (failed.key.0 ≡ key_in next → self.new.clash ≡ None → IsClashing (facts_for self.old.states (key_in next)) next.call → ⊥) }
    {
        if failed.key.0 == next.key() && self.clash.is_none() {
            self.clash = note_end(&mut self.states, self.alloc, next.call)?;
        }
        self.moment = next.end;
        Ok(())
    }

    /// Processes the end of the pending call `next`. The moment when `next` ends is then the current moment of the
    /// stream.
    fn end(&mut self, next: Pending) -> Result<(), AllocError>
        ensures met { OnOk result (IsMet self.old (key_in next) next.end (event_of next) self.new) }
        ensures known { OnOk result (EndIsKnown self.old.states next.call self.new.states self.old.failed self.old.clash self.new.clash) }
        // If no order explains the calls on the key of `next`, and the judge has found no clash (two calls that
        // contradict each other), the stored facts show no clash of `next` and an earlier call.
        ensures missed { OnOk result (IfSome self.new.failed (λ f. f.key.0 ≡ key_in next → self.new.clash ≡ None
            → IsClashing (facts_for self.old.states (key_in next)) next.call → ⊥)) }
    {
        if let Some(failed) = self.failed {
            self.end_after_failure(next, failed)?;
            return Ok(());
        }
        self.meet_end_going(next)?;
        self.moment = next.end;
        Ok(())
    }

    /// Processes the ends of all pending calls that end before `moment`, in increasing order.
    fn meet_before(&mut self, moment: u64) -> Result<(), AllocError>
        requires { moment ≤ behind_all }
        ensures kept { OnOk result ((threads : ℕ) (opening : List ℕ) (calls : List RecordedCall) → IsStreamKept threads opening calls self.old
            → IsStreamKept threads opening calls self.new) }
        ensures before { OnOk result (self.old.moment < moment → self.new.moment < moment) }
        ensures met { OnOk result (All (λ p. moment ≤ p.end) self.new.pending) }
        ensures some { OnOk result (All (Contains self.old.pending) self.new.pending) }
    {
        while let Some(next) = self.pending.next_before(moment) {
            self.end(next)?;
        }
        Ok(())
    }

    /// Processes the start of `call`. All ends of calls before the start of `call` must have been processed.
    fn begin(&mut self, call: StreamCall) -> Result<(), AllocError>
        requires may { MayCome self.old.pending self.old.moment (record_of call) }
        requires met { All (λ p. call.begun ≤ p.end) self.old.pending }
        ensures moment { OnOk result (self.new.moment ≡ call.begun) }
        ensures begun { OnOk result ((threads : ℕ) (opening : List ℕ) (calls : List RecordedCall) → call.thread < threads
            → IsStreamKept threads opening calls self.old → IsStreamKept threads opening (calls ++ record_of call ∷ []) self.new) }
    {
        let pending = call.pending();
        self.pending.insert(pending)?;
        self.meet(
            pending.key(),
            call.begun,
            begin_event(call.effect(), pending.end),
        )?;
        Ok(())
    }

    fn take(&mut self, call: StreamCall) -> Result<(), AllocError>
        requires { MayCome self.old.pending self.old.moment (record_of call) }
        ensures moment { OnOk result (self.new.moment ≡ call.begun) }
        ensures taken { OnOk result ((threads : ℕ) (opening : List ℕ) (calls : List RecordedCall) → call.thread < threads
            → IsStreamKept threads opening calls self.old → IsStreamKept threads opening (calls ++ record_of call ∷ []) self.new) }
    {
        self.meet_before(call.begun)?;
        self.begin(call)?;
        Ok(())
    }

    /// Adds `call`, which must start after all calls that were added before.
    ///
    /// An error other than `Memory` is the reason why `call` cannot be the next call, and leaves the stream (the
    /// judge's state) unchanged. After the error `Memory`, the stream can no longer be used.
    pub fn add(&mut self, call: StreamCall) -> Result<(), StreamFault>
        ensures added { OnOk result ((threads : ℕ) (opening : List ℕ) (calls : List RecordedCall) → call.thread < threads
            → IsStreamKept threads opening calls self.old → IsStreamKept threads opening (calls ++ record_of call ∷ []) self.new) }
        // The moment when `call` starts is now the current moment of the stream.
        ensures moment { OnOk result (moment_of self.new ≡ call.begun) }
        ensures refused { IfErr result (λ fault. fault ≢ StreamFault.Memory
            → (MayCome (pending_in self.old) (moment_of self.old) (record_of call) → ⊥) × (self.new ≡ self.old)) }
    {
        if let Some(fault) = self.find_fault(call) {
            return Err(fault);
        }
        self.take(call)?;
        Ok(())
    }

    /// Returns the smallest key with a stored state whose final state, according to `keys` (the final keys), is
    /// impossible. Returns `None` if there is no such key.
    fn wrongly_left(&self, keys: &[u32]) -> Option<u32>
        requires { IsStrictlyIncreasing keys.now }
        ensures { MatchOption result
            ((k : ℕ) → IsSome (get nat_eq self.now.states k) → may_be_left (has_key k keys.now) (state_for self.now.states k) ≡ true)
            (λ k. may_be_left (has_key k keys.now) (state_for self.now.states k) ≡ false) }
    {
        let mut wrong: Option<u32> = None;
        for (key, state) in &self.states {
            if !state.may_be_left(presence_in(keys, *key)) {
                wrong = Some(smallest(*key, wrong));
            }
        }
        wrong
    }

    /// Returns a key in `keys` (the final keys) that has no stored state, or `None` if every final key has one.
    fn unknown_left(&self, keys: &[u32]) -> Option<u32>
        ensures { MatchOption result
            ((k : ℕ) → has_key k keys.now ≡ true → get nat_eq self.now.states k ≢ None)
            (λ k. (has_key k keys.now ≡ true) × (get nat_eq self.now.states k ≡ None)) }
    {
        for key in keys {
            if !self.states.contains_key(key) {
                return Some(*key);
            }
        }
        None
    }

    fn first_left(&self, keys: &[u32]) -> Option<u32>
        requires { IsStrictlyIncreasing keys.now }
        ensures { MatchOption result ((k : ℕ) → may_be_left (has_key k keys.now) (state_for self.now.states k) ≡ true)
            (λ k. may_be_left (has_key k keys.now) (state_for self.now.states k) ≡ false) }
    {
        match self.wrongly_left(keys) {
            Some(key) => Some(key),
            None => self.unknown_left(keys),
        }
    }

    /// Returns how many calls overlap another call that changed the same key (an `add` or a `remove` that returned
    /// true). The number can be wrong if no order explains the calls.
    pub(crate) fn overlapped(&self) -> u64 {
        self.overlapped
            .saturating_add(self.pending.overlapping(&self.states, self.moment))
    }

    /// Processes the ends of all pending calls, except the calls that never end, which remain pending.
    pub(crate) fn come_to_end(&mut self) -> Result<(), AllocError>
        ensures kept { OnOk result ((threads : ℕ) (opening : List ℕ) (calls : List RecordedCall) → IsStreamKept threads opening calls self.old
            → IsStreamKept threads opening calls self.new) }
        ensures met { OnOk result (All (λ p. behind_all ≤ p.end) (pending_in self.new)) }
    {
        self.meet_before(BEHIND_ALL)
    }

    /// Decides whether some order linearizes all calls and leaves the final keys `keys`. The set opens with the opening
    /// keys and has no quota. The ends of all calls must have been processed.
    pub(crate) fn verdict(&self, keys: &[u32]) -> StreamVerdict
        requires increase { IsStrictlyIncreasing keys.now }
        requires met { All (λ p. behind_all ≤ p.end) (pending_in self.now) }
        ensures said { (threads : ℕ) (opening : List ℕ) (calls : List RecordedCall) → IsStreamOf threads opening calls self.now
            → IsStreamVerdict (stream_history threads opening calls) keys.now result }
        ensures told { IsToldBy self.now.failed result }
    {
        match self.failed {
            Some(failed) => failed.verdict(),
            None => verdict_of_key(self.first_left(keys)),
        }
    }

    /// Decides whether some order linearizes all calls, whatever the final keys are. The function is for a recording
    /// that was cut off and therefore does not contain the final keys. The ends of all calls must have been processed.
    pub(crate) fn verdict_cut_off(&self) -> StreamVerdict
        requires { All (λ p. behind_all ≤ p.end) (pending_in self.now) }
        ensures said { (threads : ℕ) (opening : List ℕ) (calls : List RecordedCall) → IsStreamOf threads opening calls self.now
            → IsStreamVerdictCutOff (stream_history threads opening calls) result }
        ensures told { IsToldBy self.now.failed result }
    {
        match self.failed {
            Some(failed) => failed.verdict(),
            None => StreamVerdict::Linearizable,
        }
    }

    /// Returns two calls that contradict each other, if the judge found such calls. Both calls are on the first key
    /// with calls that no order explains.
    pub(crate) fn clash_met(&self) -> Option<Clash>
        ensures { result ≡ clash_met self.now.failed self.now.clash }
    {
        match self.failed {
            Some(_) => self.clash,
            None => None,
        }
    }

    /// Returns the clash between a call on `key` and the key's final state `left`: no order can contain the call and
    /// leave the key in the state `left`. Returns `None` if the stored facts show no such clash, or if the judge has
    /// already found a key with calls that no order explains.
    pub(crate) fn clash_left(&self, key: u32, left: Presence) -> Option<Clash>
        ensures found { IfSome result (λ c. (self.now.failed ≡ None) × IsFoundLeft key (facts_for self.now.states key) left c) }
        ensures missed { result ≡ None → self.now.failed ≡ None → left ≡ other (facts_for self.now.states key).was
            → IsStanding key (facts_for self.now.states key) → ⊥ }
    {
        if self.failed.is_some() {
            return None;
        }
        match self.states.get(&key) {
            Some(state) => state.clash_left(Key(key), left),
            None => KeyState::opened(Presence::Absent).clash_left(Key(key), left),
        }
    }
}
