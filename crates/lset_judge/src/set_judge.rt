//! The judge of a recording whose calls are added one by one. If no order explains the calls, the judge returns the
//! reason.

ghost use Rattle.std.specs.Prelude.{◌≡◌, ◌<◌, ◌++◌, ◌∷◌, ◌≢◌, [], ℕ, IfErr, IfOk, IfSome, IsSome, List, None, OnOk};
ghost use Rattle.std.specs.List.Sorted.{IsStrictlyIncreasing};
ghost use Rattle.lset_words.specs.declared.history.CallRecord.{CallRecord as RecordedCall};
ghost use Rattle.lset_judge.specs.Stream.{record_of, moment_of, pending_in, IsToldBy, MayCome};
ghost use Rattle.lset_judge.specs.Facts.{ClashesStream, HasNone};
ghost use Rattle.lset_judge.specs.Judge.{left_by, IsJudgeOf, IsVerdict, IsVerdictCutOff};
ghost use Rattle.lset_judge.specs.declared.stream.StreamVerdict.TheVariants.{NotLinearizable};

use crate::clash::Clash;
use crate::keys::presence_in;
use crate::stream::{Refusal, Stream, StreamCall, StreamFault, StreamVerdict};
use lset_words::Presence;
use std::alloc::{AllocError, Global};

/// The verdict of a `Judge`.
#[derive(Debug, Drop)]
pub enum Verdict {
    /// Some order explains the calls: made in this order on a set with the opening keys, the calls return the recorded
    /// replies and leave the final keys.
    Linearizable,
    /// No order explains the calls and leaves the final keys. Contains the reason, and two calls that contradict each
    /// other on the key that the reason names. The pair is `None` only if no call on this key contradicts a call that
    /// starts after it has ended.
    NotLinearizable(Refusal, Option<Clash>),
}

/// A judge of the calls on a set. Add the calls in the order of their starts. `close` and `close_cut_off` return
/// whether some order explains all calls.
///
/// A judge stores the pending calls, at most one moment per thread, the state of each key, and at most one completed
/// call per key. The memory use grows with the number of keys, threads and pending calls, but not with the number of
/// calls.
#[derive(Drop)]
pub struct Judge {
    stream: Stream,
}

/// Returns the final state of the key that `refusal` (the reason of the verdict) names, or `None` if the reason is not
/// about the final keys.
fn left_as(keys: &[u32], refusal: Refusal) -> Option<Presence>
    requires { IsStrictlyIncreasing keys.now }
    ensures { result ≡ left_by keys.now refusal.key.0 refusal.moment }
{
    match refusal.moment {
        Some(_) => None,
        None => Some(presence_in(keys, refusal.key.0)),
    }
}

/// Returns two calls that contradict each other on the key that `refusal` (the reason of the verdict) names. Returns
/// `None` only if no call on this key contradicts a call that starts after it has ended.
fn clash_for(stream: &Stream, refusal: Refusal, left: Option<Presence>) -> Option<Clash>
    requires told { IsToldBy stream.now.failed (NotLinearizable refusal) }
    requires left { IsSome left → refusal.moment ≡ None }
    ensures found { IfSome result (λ c. (opening : List ℕ) → ClashesStream opening refusal left stream.now c) }
    ensures missed { result ≡ None → (opening : List ℕ) → HasNone opening refusal left stream.now }
{
    match left {
        None => stream.clash_met(),
        Some(there) => stream.clash_left(refusal.key.0, there),
    }
}

impl Judge {
    /// Returns a judge that has no calls yet, for a set with the opening keys `opening`. `opening` must be in
    /// increasing order.
    pub fn new(alloc: Global, opening: &[u32]) -> Result<Judge, AllocError>
        requires { IsStrictlyIncreasing opening.now }
        ensures opened { IfOk result (λ j. (threads : ℕ) → IsJudgeOf threads opening.now [] j) }
        ensures moment { IfOk result (λ j. moment_of j.stream ≡ 0) }
    {
        let stream = Stream::new(alloc, opening)?;
        Ok(Judge { stream })
    }

    /// Adds `call`, which must start after all calls that were added before.
    ///
    /// An error other than `Memory` is the reason why `call` cannot be the next call, and leaves the judge unchanged.
    /// After the error `Memory`, the judge can no longer be used.
    pub fn add(&mut self, call: StreamCall) -> Result<(), StreamFault>
        ensures added { OnOk result ((threads : ℕ) (opening : List ℕ) (calls : List RecordedCall) → call.thread < threads
            → IsJudgeOf threads opening calls self.old → IsJudgeOf threads opening (calls ++ record_of call ∷ []) self.new) }
        // The judge has advanced to the moment when `call` starts.
        ensures moment { OnOk result (moment_of self.new.stream ≡ call.begun) }
        ensures refused { IfErr result (λ fault. fault ≢ StreamFault.Memory
            → (MayCome (pending_in self.old.stream) (moment_of self.old.stream) (record_of call) → ⊥) × (self.new ≡ self.old)) }
    {
        self.stream.add(call)
    }

    /// Returns how many calls overlap another call that changed the same key (an `add` or a `remove` that returned
    /// true). The number can be wrong if no order explains the calls.
    pub fn overlapped(&self) -> u64 {
        self.stream.overlapped()
    }

    /// Decides whether some order linearizes all calls and leaves the final keys `keys`. The set opens with the opening
    /// keys and has no quota. `keys` must be in increasing order. The function fails only if an allocation fails.
    pub fn close(self, keys: &[u32]) -> Result<Verdict, AllocError>
        requires { IsStrictlyIncreasing keys.now }
        ensures { IfOk result (λ verdict. (threads : ℕ) (opening : List ℕ) (calls : List RecordedCall) → IsJudgeOf threads opening calls self
            → IsVerdict threads opening calls keys.now verdict) }
    {
        let Judge { mut stream } = self;
        stream.come_to_end()?;
        match stream.verdict(keys) {
            StreamVerdict::Linearizable => Ok(Verdict::Linearizable),
            StreamVerdict::NotLinearizable(refusal) => {
                let left = left_as(keys, refusal);
                let clash = clash_for(&stream, refusal, left);
                Ok(Verdict::NotLinearizable(refusal, clash))
            }
        }
    }

    /// Decides whether some order linearizes all calls, whatever the final keys are. For a recording that was cut off
    /// and therefore does not contain the final keys. The function fails only if an allocation fails.
    pub fn close_cut_off(self) -> Result<Verdict, AllocError>
        ensures { IfOk result (λ verdict. (threads : ℕ) (opening : List ℕ) (calls : List RecordedCall) → IsJudgeOf threads opening calls self
            → IsVerdictCutOff threads opening calls verdict) }
    {
        let Judge { mut stream } = self;
        stream.come_to_end()?;
        match stream.verdict_cut_off() {
            StreamVerdict::Linearizable => Ok(Verdict::Linearizable),
            StreamVerdict::NotLinearizable(refusal) => {
                let clash = clash_for(&stream, refusal, None);
                Ok(Verdict::NotLinearizable(refusal, clash))
            }
        }
    }
}
