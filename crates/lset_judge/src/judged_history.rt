//! Judges a complete history, call by call.

ghost use Rattle.std.specs.Prelude.{◌≡◌, ◌<◌, ◌++◌, ◌∷◌, [], ℕ, IfOk, List, OnOk};
ghost use Rattle.std.specs.List.Sorted.{IsStrictlyIncreasing};
ghost use Rattle.lset_judge.specs.Stream.{record_of, moment_of, pending_in, IsBefore, MayCome};
ghost use Rattle.lset_words.specs.declared.history.CallRecord.{CallRecord as RecordedCall};
ghost use Rattle.lset_judge.specs.Judge.{IsJudgeOf};
ghost use Rattle.lset_judge.specs.Reading.{IsJudged, read_as, call_as, reply_as};

use crate::clash::Clash;
use crate::judged::is_plain;
use crate::set_judge::{Judge, Verdict};
use crate::stream::{Refusal, StreamCall, StreamFault};
use lset_history::History;
use lset_words::{Call, CallRecord, Reply};
use std::alloc::{AllocError, Global};

/// The result of `judge`: the verdict on a history.
#[derive(Debug, Drop)]
pub enum Judged {
    /// Some order explains the calls: made in this order on a set with the opening keys, the calls return the recorded
    /// replies and leave the final keys.
    Linearizable,
    /// No order explains the calls and leaves the final keys. Contains the reason and, if the judge found them, two
    /// calls that contradict each other.
    NotLinearizable(Refusal, Option<Clash>),
    /// Not decided: a completed call is a `ceiling` (a call that returns the smallest key not less than its argument),
    /// or returned neither true nor false. The judge replaced every such call by a call that it can decide, and some
    /// order explains the resulting history.
    Undecided,
}

fn call_as(call: Call, reply: Reply) -> Call
    ensures { result ≡ call_as call reply }
{
    match (call, reply) {
        (Call::Add(key), Reply::Full) => Call::Contains(key),
        (Call::Ceiling(_), Reply::At(key)) => Call::Contains(key),
        (Call::Ceiling(key), _) => Call::Contains(key),
        (call, _) => call,
    }
}

fn reply_as(call: Call, reply: Reply) -> Reply
    ensures { result ≡ reply_as call reply }
{
    match (call, reply) {
        (_, Reply::True) | (Call::Ceiling(_), Reply::At(_)) => Reply::True,
        _ => Reply::False,
    }
}

/// Returns the call that the judge uses in place of `call`. A pending call is unchanged. A completed `ceiling`, or an
/// `add` that returned `Full`, becomes a `contains`. The reply `At` of a `ceiling` becomes true, and any other reply
/// except true becomes false.
fn read_as(call: &CallRecord) -> StreamCall
    ensures is { record_of result ≡ read_as call.now }
    ensures before { IsBefore (record_of result) }
{
    match call.ended {
        None => StreamCall {
            thread: call.thread,
            call: call.call,
            begun: u64::from(call.begun),
            ended: None,
        },
        Some((end, reply)) => StreamCall {
            thread: call.thread,
            call: call_as(call.call, reply),
            begun: u64::from(call.begun),
            ended: Some((u64::from(end), reply_as(call.call, reply))),
        },
    }
}

/// Adds `call`, the next call of the history, to the judge. The judge must be able to accept it as the next call. Fails
/// only if an allocation fails.
fn add_next(judge: &mut Judge, call: StreamCall) -> Result<(), AllocError>
    requires { MayCome (pending_in judge.old.stream) (moment_of judge.old.stream) (record_of call) }
    ensures added { OnOk result ((threads : ℕ) (opening : List ℕ) (calls : List RecordedCall) → call.thread < threads
        → IsJudgeOf threads opening calls judge.old → IsJudgeOf threads opening (calls ++ record_of call ∷ []) judge.new) }
    ensures moment { OnOk result (moment_of judge.new.stream ≡ call.begun) }
{
    match judge.add(call) {
        Ok(()) => Ok(()),
        Err(StreamFault::Memory) => Err(AllocError),
        Err(
            StreamFault::Early
            | StreamFault::Ends
            | StreamFault::NotPlain
            | StreamFault::Taken
            | StreamFault::Busy,
        ) => {
            prove!(false);
            Err(AllocError)
        }
    }
}

/// Decides whether some order linearizes the calls of a history and leaves the final keys `keys`. The set opens with
/// the history's opening keys and has no quota. `keys` must be in increasing order.
///
/// The verdict is exact if each completed call is an `add`, a `remove` or a `contains` that returned true or false. For
/// any other history, the verdict is `NotLinearizable` only if no order explains the calls, and `Undecided` otherwise.
/// The function fails only if an allocation fails.
pub fn judge(alloc: Global, history: &History, keys: &[u32]) -> Result<Judged, AllocError>
    requires { IsStrictlyIncreasing keys.now }
    ensures { IfOk result (IsJudged history.now keys.now) }
{
    let opening = history.opening();
    let mut judge = Judge::new(alloc, opening)?;
    let calls = history.calls();
    for call in calls {
        add_next(&mut judge, read_as(call))?;
    }
    let plain = is_plain(history);
    match judge.close(keys)? {
        Verdict::NotLinearizable(refusal, clash) => Ok(Judged::NotLinearizable(refusal, clash)),
        Verdict::Linearizable if plain => Ok(Judged::Linearizable),
        Verdict::Linearizable => Ok(Judged::Undecided),
    }
}
