//! The histories for which the judge decides exactly whether some order explains the calls.

ghost use Rattle.std.specs.Prelude.{◌≡◌, ◌≤◌, ℕ, IsTrue, ◌↔◌, All, IfSome, true};
ghost use Rattle.lset_judge.specs.Verdict.{is_plain, may_add, adds_of, IsPlain, IsJudged};

use crate::event::open_effect;
use lset_history::History;
use lset_words::{Call, CallRecord, Effect, MOST_THREADS, Presence, Reply};

pub(crate) fn is_answer(call: Call, reply: Reply) -> bool
    ensures { result ≡ is_plain call reply }
{
    match call {
        Call::Ceiling(_) => false,
        _ => matches!(reply, Reply::True | Reply::False),
    }
}

fn ends_plain(call_record: &CallRecord) -> bool
    ensures { IsTrue result ↔ IfSome call_record.now.ended (λ e. is_plain call_record.now.call e.1 ≡ true) }
{
    match call_record.ended {
        Some((_, reply)) => is_answer(call_record.call, reply),
        None => true,
    }
}

fn may_add(call_record: &CallRecord) -> bool
    ensures { result ≡ may_add call_record.now.call call_record.now.ended }
{
    let effect = match call_record.ended {
        None => open_effect(call_record.call),
        Some((_, reply)) => call_record.call.effect(reply),
    };
    matches!(effect, Effect::Changes(Presence::Present))
}

fn all_plain(calls: &[CallRecord]) -> bool
    ensures { IsTrue result ↔ All (λ x. IfSome x.ended (λ e. is_plain x.call e.1 ≡ true)) calls.now }
{
    calls.iter().all(|call_record| ends_plain(call_record))
}

/// Returns how many `add`s of the thread either returned true or are still pending.
fn adds_of(calls: &[CallRecord], thread: u32) -> usize
    ensures { result ≡ adds_of thread calls.now }
{
    calls
        .iter()
        .filter(|call_record| may_add(call_record) && call_record.thread == thread)
        .count()
}

/// Returns whether the quota (the number of successful `add`s that one thread can make) covers all `add`s of each
/// thread that returned true or are pending.
fn has_room(history: &History) -> bool
    ensures { IsTrue result ↔ ((thread : ℕ) → adds_of thread history.now.calls ≤ history.now.opening.quota) }
{
    let quota = history.quota() as usize;
    let calls = history.calls();
    for thread in 0..MOST_THREADS {
        if adds_of(calls, thread) > quota {
            return false;
        }
    }
    true
}

/// Returns whether each completed call of the history is an `add`, a `remove` or a `contains` that returned true or
/// false. Does not allocate.
///
/// The judge decides the history if, in addition, the quota (the number of successful `add`s that one thread can make)
/// covers all `add`s of each thread that returned true or are pending.
pub fn is_plain(history: &History) -> bool
    ensures { IsTrue result ↔ IsPlain history.now.calls }
{
    all_plain(history.calls())
}

/// Returns whether `judge` returns a verdict other than `Undecided` for the history. Does not allocate.
///
/// Each completed call must be an `add`, a `remove` or a `contains` that returned true or false. The quota (the number
/// of successful `add`s that one thread can make) must cover all `add`s of each thread that returned true or are
/// pending.
pub fn is_judged(history: &History) -> bool
    ensures { IsTrue result ↔ IsJudged history.now }
{
    is_plain(history) && has_room(history)
}
