//! Rows 20 to 25 of a step table: `contains` and `ceiling` on lists with reads that take no locks (`OpenReads`).

ghost use Rattle.std.specs.Prelude.{◌≡◌};
ghost use Rattle.lset_steps.specs.Rows.{IsSmall};
ghost use Rattle.lset_steps.specs.ReadRows.{begun_reading, continued, leaves_with, ceiling_key, ceiling_mark, read_action, read_fed};

use crate::rows::{TAIL_WORD, begun, ceiling_at, key_index, link_index};
use crate::{Action, Fed, Local};
use lset_words::{Call, Reply};

/// Returns the private state of a thread that begins a call, at the first row of the step table for the call's kind.
/// The rows for `contains` and `ceiling` take no lock and write nothing (Herlihy and Shavit's wait-free `contains`).
#[inline(always)]
pub fn begun_reading(call: Call, local: &Local) -> Local
    ensures { result ≡ begun_reading call local.now }
{
    let pc = match call {
        Call::Add(_) | Call::Remove(_) => 1,
        Call::Contains(_) => 20,
        Call::Ceiling(_) => 23,
    };
    begun(pc, call, local)
}

/// Returns the outcome of a step if the call continues in the private state `local`.
#[inline(always)]
pub fn continued(local: Local) -> Fed
    ensures { result ≡ continued local }
{
    Fed {
        local,
        answer: None,
    }
}

/// Returns the outcome of a step that ends the call with `reply`.
#[inline(always)]
pub fn leaves_with(reply: Reply, local: Local) -> Fed
    ensures { result ≡ leaves_with reply local }
{
    Fed {
        local: Local { pc: 0, ..local },
        answer: Some(reply),
    }
}

/// Returns the next access of a `contains` or a `ceiling` that takes no lock.
#[inline(always)]
pub fn read_action(local: &Local) -> Action
    requires { IsSmall local.now }
    ensures { result ≡ read_action local.now }
{
    if local.pc == 21 || local.pc == 24 {
        Action::Load(key_index(local.curr))
    } else {
        Action::Load(link_index(local.curr))
    }
}

/// Returns the outcome of a step of a `ceiling` that read the key word `seen`. If the key is smaller than the call's
/// key, the call continues with the next node. At the tail, the call replies `Nothing`. Otherwise, the call reads the
/// node's mark.
#[inline(always)]
fn ceiling_key(local: &Local, seen: u64) -> Fed
    ensures { result ≡ ceiling_key local.now seen }
{
    let local = Local {
        ckey: seen,
        ..*local
    };
    if seen < local.call.key().word() {
        continued(Local { pc: 23, ..local })
    } else if seen == TAIL_WORD {
        leaves_with(Reply::Nothing, local)
    } else {
        continued(Local { pc: 25, ..local })
    }
}

/// Returns the outcome of a step of a `ceiling` that read the mark of the node where the call stopped. The call
/// replies with the node's key or, if the node is marked, starts again from the head.
#[inline(always)]
fn ceiling_mark(local: &Local, seen: u64) -> Fed
    ensures { result ≡ ceiling_mark local.now seen }
{
    if seen % 2 == 0 {
        leaves_with(ceiling_at(local.ckey), *local)
    } else {
        continued(Local {
            pc: 23,
            curr: 0,
            ..*local
        })
    }
}

/// Returns the outcome of the next step of a `contains` or a `ceiling` that takes no lock; `seen` is the word that the
/// step loaded. A `contains` walks to the first key that is not smaller than its own key, and replies `True` if the two
/// keys are equal and the node is not marked.
#[inline(always)]
pub fn read_fed(local: &Local, seen: u64) -> Fed
    ensures { result ≡ read_fed local.now seen }
{
    let key = local.call.key().word();
    match local.pc {
        20 => continued(Local {
            pc: 21,
            curr: seen / 2,
            ..*local
        }),
        21 if seen < key => continued(Local { pc: 20, ..*local }),
        21 if seen == key => continued(Local { pc: 22, ..*local }),
        21 => leaves_with(Reply::False, *local),
        23 => continued(Local {
            pc: 24,
            curr: seen / 2,
            ..*local
        }),
        24 => ceiling_key(local, seen),
        25 => ceiling_mark(local, seen),
        _ if seen % 2 == 0 => leaves_with(Reply::True, *local),
        _ => leaves_with(Reply::False, *local),
    }
}
