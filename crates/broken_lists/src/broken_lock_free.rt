//! Implements the steps of two broken LockFreeLists (lists without one of their checks). In the first list, `add`
//! replaces the link of a node even if the link is marked. In the second list, `remove` unlinks a node without marking
//! it.
ghost use Rattle.lset_steps.specs.Rows.{IsSmall};

use lset_lock_free::{effect_of, fed_by, next_action};
use lset_steps::reads::{continued, leaves_with};
use lset_steps::rows::{link_index, own_slot};
use lset_steps::{Action, Fed, Local};
use lset_words::{Key, Reply};

/// Returns a link word that points to `node`. The mark of the link word is the mark that the thread read earlier and
/// stored in `pkey`.
fn marked_as_seen(node: u64, local: &Local) -> u64 {
    node.wrapping_mul(2).wrapping_add(local.pkey)
}

/// Returns the access to a word that a thread makes next, on a LockFreeList whose `add` replaces the link of `pred`
/// even if the link is marked.
pub(crate) fn next_whatever_mark(local: &Local) -> Action
    requires { IsSmall local.now }
{
    match local.pc {
        7 => Action::Load(link_index(local.pred)),
        11 => Action::Exchange(
            link_index(local.pred),
            marked_as_seen(local.curr, local),
            marked_as_seen(own_slot(local), local),
        ),
        _ => next_action(local),
    }
}

pub(crate) fn fed_whatever_mark(local: &Local, seen: u64) -> Fed
    requires { IsSmall local.now }
{
    match local.pc {
        7 if seen / 2 == local.curr => continued(Local {
            pc: 11,
            pkey: seen % 2,
            ..*local
        }),
        7 => continued(Local { pc: 1, ..*local }),
        11 if seen == marked_as_seen(local.curr, local) => leaves_with(
            Reply::True,
            Local {
                used: local.used + 1,
                ..*local
            },
        ),
        11 => continued(Local { pc: 7, ..*local }),
        _ => fed_by(local, seen),
    }
}

pub(crate) fn effect_whatever_mark(local: &Local, seen: u64) -> Option<(Key, bool)>
    requires { IsSmall local.now }
{
    match local.pc {
        7 => None,
        11 if seen == marked_as_seen(local.curr, local) => Some((local.call.key(), true)),
        11 => None,
        _ => effect_of(local, seen),
    }
}

/// Returns a thread's state after a step of a LockFreeList whose `remove` unlinks a node without first marking the
/// node.
pub(crate) fn fed_without_mark(local: &Local, seen: u64) -> Fed
    requires { IsSmall local.now }
{
    match local.pc {
        8 => continued(Local {
            pc: 10,
            succ: seen / 2,
            ..*local
        }),
        10 if seen == 2 * local.curr => leaves_with(Reply::True, *local),
        10 => continued(Local { pc: 1, ..*local }),
        _ => fed_by(local, seen),
    }
}

pub(crate) fn effect_without_mark(local: &Local, seen: u64) -> Option<(Key, bool)>
    requires { IsSmall local.now }
{
    match local.pc {
        10 if seen == 2 * local.curr => Some((local.call.key(), false)),
        10 => None,
        _ => effect_of(local, seen),
    }
}
