ghost use Rattle.std.specs.Prelude.{◌≡◌, ◌<◌, ◌≤◌, ◌+◌, ℕ, [], ◌∷◌, ◌++◌, length, not, All, IfOk, IfErr, OnOk, Some, None, slice_set, IsSomeAnd};
ghost use Rattle.lset_words.specs.Words.{Opens};
ghost use Rattle.lset_text.specs.declared.causes.Cause.TheVariants.{Memory};
ghost use Rattle.lset_schedule.specs.Plan.{opening_in, view};
ghost use Rattle.lset_history.specs.History.{MayBegin, with_begun, with_ended};
ghost use Rattle.lset_history.specs.Changes.{moments_of, IsLaterThanAll, is_present, is_present_now, with_change};
ghost use Rattle.lset_replay.specs.Trace.{
  open_call_at,
  place_at,
  changed_at,
  settled,
  fit,
  fit_of,
  number_at,
  begun_call,
  no_trace,
  trace_of,
  trace_after,
  entry_told,
  MayStep,
  MayRecord,
};

use crate::fits::fit;
use crate::places::{Linearized, OpenCall};
use crate::recorder::Recorder;
use lset_history::{Changes, History, HistoryFault};
use lset_schedule::Schedule;
use lset_steps::{Event, Told};
use lset_text::Cause;
use lset_words::{Call, Key, Reply};
use std::alloc::{AllocError, Global};

fn is_there(changes: &Changes, key: u32, moment: u32) -> bool
    ensures { result ≡ is_present (moments_of changes.now) key moment }
{
    changes.first(key, true, moment, moment).0.is_some()
}

/// Records that the event with the number `moment` added a key (if `present` is true) or removed a key. Records nothing
/// if the event did not change whether the key is present, which happens only on broken lists (lists with one check
/// removed).
fn note_key(changes: &mut Changes, key: u32, present: bool, moment: u32) -> Result<(), AllocError>
    requires { IsLaterThanAll (moments_of changes.old) moment }
    ensures upto { (k : ℕ) → All (λ m. m ≤ moment) (moments_of changes.new k) }
    ensures noted { OnOk result (present ≡ not (is_present_now (moments_of changes.old) key)
        → (k : ℕ) → moments_of changes.new k ≡ with_change (moments_of changes.old) key moment k) }
{
    if is_there(changes, key, moment) != present {
        changes.note(key, present, moment)?;
    }
    Ok(())
}

impl Recorder {
    /// Creates a recorder for the run of a schedule, before the first event. Returns `AllocError` if an allocation
    /// fails.
    pub fn new(alloc: Global, schedule: &Schedule) -> Result<Recorder, AllocError>
        requires { Opens (opening_in (view schedule.now)) }
        ensures trace { IfOk result (λ r. trace_of r ≡ no_trace r.history.opening) }
        ensures opening { IfOk result (λ r. r.history.opening ≡ opening_in (view schedule.now)) }
        ensures counted { IfOk result (λ r. r.last ≡ 0) }
    {
        let opening = schedule.opening.as_slice().to_vec(alloc)?;
        let changes = Changes::opened(alloc, &opening)?;
        Ok(Recorder {
            history: History::opened(alloc, schedule.threads, schedule.quota, opening),
            under_way: vec![in alloc; None; schedule.threads as usize]?,
            places: Vec::new(alloc),
            changes,
            last: 0,
        })
    }

    /// Returns the number of the thread's pending call, or `None` if the thread has no pending call.
    pub fn open_number(&self, thread: u32) -> Option<u32> {
        let open = (*self.under_way.get(thread as usize)?)?;
        Some(open.number)
    }

    /// Returns the moment (event number) of a call's linearization point, or `None` if the linearization point is not
    /// known yet.
    pub fn moment_of(&self, call: u32) -> Option<u32> {
        let place = (*self.places.get(call as usize)?)?;
        Some(place.moment)
    }

    /// Returns the pending call of a thread. Returns the error `Lost` if the thread does not exist or has no pending
    /// call.
    fn open_call(&self, thread: u32) -> Result<OpenCall, Cause>
        ensures is { IfOk result (λ o. (thread < length self.now.under_way.items)
            × (open_call_at self.now.under_way.items thread ≡ Some o) × (o.number < length self.now.places.items)) }
        ensures memory { IsSomeAnd (open_call_at self.now.under_way.items thread) (λ o. o.number < length self.now.places.items)
            → IfErr result (λ cause. cause ≡ Memory) }
    {
        if thread as usize >= self.under_way.len() {
            return Err(Cause::Lost);
        }
        match self.under_way[thread as usize] {
            Some(open) if (open.number as usize) < self.places.len() => Ok(open),
            Some(_) | None => Err(Cause::Lost),
        }
    }

    // Not inlined, to keep the loop over the events small: few events start or end a call or change the set.
    #[inline(never)]
    fn begin(&mut self, thread: u32, call: Call) -> Result<(), Cause>
        requires { length self.old.places.items < self.old.last }
        ensures history { OnOk result (self.new.history ≡ with_begun self.old.history (begun_call thread call self.old.last)) }
        ensures under_way { OnOk result (self.new.under_way.items ≡ slice_set self.old.under_way.items thread
            (Some (record { number = length self.old.history.calls; call = call; begun = self.old.last }))) }
        ensures places { OnOk result (self.new.places.items ≡ self.old.places.items ++ None ∷ []) }
        ensures changes { OnOk result (self.new.changes ≡ self.old.changes) }
        ensures counted { OnOk result (self.new.last ≡ self.old.last) }
        ensures memory { MayBegin self.old.history thread self.old.last → thread < length self.old.under_way.items
            → IfErr result (λ cause. cause ≡ Memory) }
    {
        if thread as usize >= self.under_way.len() {
            return Err(Cause::Lost);
        }
        let number = match self.history.begin(thread, call, self.last) {
            Ok(number) => number,
            Err(HistoryFault::Memory) => return Err(Cause::Memory),
            Err(_) => return Err(Cause::Lost),
        };
        self.places.push(None)?;
        self.under_way[thread as usize] = Some(OpenCall {
            number,
            call,
            begun: self.last,
        });
        Ok(())
    }

    #[inline(never)]
    fn change(&mut self, thread: u32, key: Key, present: bool) -> Result<(), Cause>
        requires { IsLaterThanAll (moments_of self.old.changes) self.old.last }
        ensures history { OnOk result (self.new.history ≡ self.old.history) }
        ensures under_way { OnOk result (self.new.under_way.items ≡ self.old.under_way.items) }
        ensures places { OnOk result (self.new.places.items
            ≡ slice_set self.old.places.items (number_at self.old.under_way.items thread) (Some (changed_at self.old.last))) }
        ensures changes { OnOk result (present ≡ not (is_present_now (moments_of self.old.changes) key.0)
            → (k : ℕ) → moments_of self.new.changes k ≡ with_change (moments_of self.old.changes) key.0 self.old.last k) }
        ensures counted { OnOk result (self.new.last ≡ self.old.last) }
        ensures memory { IsSomeAnd (open_call_at self.old.under_way.items thread) (λ o. o.number < length self.old.places.items)
            → IfErr result (λ cause. cause ≡ Memory) }
    {
        let open = self.open_call(thread)?;
        note_key(&mut self.changes, key.0, present, self.last)?;
        self.places[open.number as usize] = Some(Linearized::changed(self.last));
        Ok(())
    }

    /// Returns the linearization point of the call `made`, which ends with the last event and returns `reply`: its
    /// change or, if the call changed nothing, the first moment when `reply` is correct.
    fn place_at_end(&self, made: OpenCall, reply: Reply) -> Linearized
        requires known { made.number < length self.now.places.items }
        requires begun { made.begun ≤ self.now.last }
        ensures { Some result ≡ settled (place_at self.now.places.items made.number)
            (fit (moments_of self.now.changes) made reply self.now.last) self.now.last reply }
    {
        match self.places[made.number as usize] {
            Some(changed) => changed,
            None => {
                let moment = fit(&self.changes, made, reply, self.last);
                Linearized::read(moment, self.last, reply)
            }
        }
    }

    #[inline(never)]
    fn end(&mut self, thread: u32, reply: Reply) -> Result<(), Cause>
        ensures history { OnOk result (self.new.history
            ≡ with_ended self.old.history (number_at self.old.under_way.items thread) (self.old.last, reply)) }
        ensures under_way { OnOk result (self.new.under_way.items ≡ slice_set self.old.under_way.items thread None) }
        ensures places { OnOk result (let number = number_at self.old.under_way.items thread in
            let fits = fit_of (moments_of self.old.changes) (open_call_at self.old.under_way.items thread) reply self.old.last in
            self.new.places.items ≡ slice_set self.old.places.items number
            (settled (place_at self.old.places.items number) fits self.old.last reply)) }
        ensures changes { OnOk result (self.new.changes ≡ self.old.changes) }
        ensures counted { OnOk result (self.new.last ≡ self.old.last) }
        ensures memory { MayStep self.old.history self.old.under_way.items self.old.places.items thread self.old.last
            → IfErr result (λ cause. cause ≡ Memory) }
    {
        let open = self.open_call(thread)?;
        if open.begun > self.last {
            return Err(Cause::Lost);
        }
        let Ok(()) = self.history.end(open.number, reply, self.last) else {
            return Err(Cause::Lost);
        };
        let place = self.place_at_end(open, reply);
        self.places[open.number as usize] = Some(place);
        self.under_way[thread as usize] = None;
        Ok(())
    }

    /// Records the next event and its effect. Can allocate. Returns the error `Memory` if an allocation fails, or if
    /// the run already has 4,294,967,295 events. On a broken list (a list with one check removed), returns the error
    /// `Lost` if the effect is impossible after the events recorded so far.
    #[inline(always)]
    pub fn follow(&mut self, event: Event, told: Told) -> Result<(), Cause>
        ensures trace { OnOk result (MayRecord self.old (self.old.last + 1) event told
            → trace_of self.new ≡ trace_after (self.old.last + 1) (entry_told event told) (trace_of self.old)) }
        ensures opening { OnOk result (self.new.history.opening ≡ self.old.history.opening) }
        ensures counted { OnOk result (self.new.last ≡ self.old.last + 1) }
        ensures memory { MayRecord self.old (self.old.last + 1) event told → IfErr result (λ cause. cause ≡ Memory) }
    {
        if self.last == u32::MAX {
            return Err(Cause::Memory);
        }
        self.last += 1;
        match event {
            Event::Begin(thread, call) => self.begin(thread, call),
            Event::Go(thread) => {
                if let Some((key, present)) = told.change {
                    self.change(thread, key, present)?;
                }
                if let Some(reply) = told.answer {
                    self.end(thread, reply)?;
                }
                Ok(())
            }
        }
    }
}
