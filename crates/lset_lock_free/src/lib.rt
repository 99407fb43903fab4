//! LockFreeList: a list-based set without locks. Compare-and-exchange operations mark nodes and unlink them one at a
//! time (Herlihy and Shavit's lock-free list, after Harris and Michael).
#![tactic(auto)]

ghost use Rattle.std.specs.Prelude.{◌≡◌, ◌+◌};
ghost use Rattle.lset_words.specs.declared.Kind.TheVariants.{LockFree};
ghost use Rattle.lset_words.specs.declared.Reply.TheVariants.{True};
ghost use Rattle.lset_steps.specs.Rows.{IsSmall};
ghost use Rattle.lset_steps.specs.ReadRows.{continued, leaves_with};
ghost use Rattle.lset_lock_free.specs.LockFree.{lock_free, next_action, at_key, at_link, again, decision_of, fed_by, effect_of};
ghost use Rattle.lset_lock_free.specs.Lawful.{lock_free_lawful, lock_free_reads, lock_free_walks};

pub mod laws;

use lset_steps::reads::{begun_reading, continued, leaves_with, read_action, read_fed};
use lset_steps::rows::{Targets, decide, key_index, link_index, own_slot};
use lset_steps::{Action, Fed, Local, Machine, OpenReads};
use lset_words::{Call, HEAD, Key, Kind, Reply};

/// The list-based set without locks. A `remove` first marks a node by a compare-and-exchange of the node's link, and
/// then unlinks the node by a compare-and-exchange of the previous node's link. Any `add` or `remove` that reaches a
/// marked node can unlink the node.
#[derive(Clone, Copy)]
pub struct LockFreeList;

/// The rows of the step table at which a call continues after its walk along the list: to add its key (`adds`) or to
/// remove its key (`removes`). A call that changes nothing ends at once (`leaves`, row 0).
const TARGETS: Targets = Targets {
    adds: 5,
    removes: 8,
    leaves: 0,
};

/// Returns the access to a shared word (memory cell) that a pending call makes in its next step. `local.pc` is the
/// number of the call's row in the step table (the list's numbered atomic steps). The numbers in `local` must be small
/// (`IsSmall`), as they are in every run.
#[inline(always)]
pub fn next_action(local: &Local) -> Action
    requires { IsSmall local.now }
    ensures { result ≡ next_action local.now }
{
    match local.pc {
        1 => Action::Load(link_index(HEAD)),
        2 | 8 => Action::Load(link_index(local.curr)),
        3 | 10 => Action::Exchange(link_index(local.pred), 2 * local.curr, 2 * local.succ),
        4 => Action::Load(key_index(local.curr)),
        5 => Action::Store(key_index(own_slot(local)), local.call.key().word()),
        6 => Action::Store(link_index(own_slot(local)), 2 * local.curr),
        7 => Action::Exchange(link_index(local.pred), 2 * local.curr, 2 * own_slot(local)),
        9 => Action::Exchange(link_index(local.curr), 2 * local.succ, 2 * local.succ + 1),
        _ => read_action(local),
    }
}

/// Returns the outcome of a step that moves the walk to `curr`, the node after `pred`. The walk next loads the link of
/// `curr`.
#[inline(always)]
fn at_node(pred: u64, curr: u64, local: &Local) -> Fed
    ensures { result ≡ continued (record local.now { pc = 2; pred = pred; curr = curr }) }
{
    continued(Local {
        pc: 2,
        pred,
        curr,
        ..*local
    })
}

/// Returns the outcome of the step that has loaded the link of `curr`. If the link has a mark, the call next attempts
/// to unlink `curr`. Otherwise the call next loads the key of `curr`.
#[inline(always)]
fn at_link(local: &Local, seen: u64) -> Fed
    ensures { result ≡ at_link seen local.now }
{
    let pc = if seen % 2 == 0 { 4 } else { 3 };
    continued(Local {
        pc,
        succ: seen / 2,
        ..*local
    })
}

/// Returns the outcome of the final step of a walk along the list. The call ends with its reply, or continues at the
/// row of the step table that adds or removes its key.
#[inline(always)]
fn decision_of(local: Local) -> Fed
    ensures { result ≡ decision_of local }
{
    let answer = if local.pc == 0 { local.reply } else { None };
    Fed { local, answer }
}

/// Returns the outcome of the step that has loaded `seen`, the key of `curr`. If `seen` is smaller than the call's key,
/// the walk continues. Otherwise the call ends with a reply, or will change the set.
#[inline(always)]
fn at_key(local: &Local, seen: u64) -> Fed
    ensures { result ≡ at_key seen local.now }
{
    if seen < local.call.key().word() {
        at_node(local.curr, local.succ, local)
    } else {
        decision_of(decide(TARGETS, seen, *local))
    }
}

/// Returns the outcome of the step that has linked the thread's new node into the list. The thread's number of used
/// slots (nodes for adds) increases by one, and the call ends with the reply `True`.
#[inline(always)]
fn puts_in(local: &Local) -> Fed
    requires { IsSmall local.now }
    ensures { result ≡ leaves_with True (record local.now { used = local.now.used + 1 }) }
{
    let local = Local {
        used: local.used + 1,
        ..*local
    };
    leaves_with(Reply::True, local)
}

/// Returns the outcome of a failed compare-and-exchange: the call starts its walk again from the head.
#[inline(always)]
fn again(local: &Local) -> Fed
    ensures { result ≡ again local.now }
{
    continued(Local { pc: 1, ..*local })
}

/// Returns the thread's private state after its next step, and the call's reply if the step ends the call. `seen` is
/// the value that the step read or wrote.
#[inline(always)]
pub fn fed_by(local: &Local, seen: u64) -> Fed
    requires { IsSmall local.now }
    ensures { result ≡ fed_by local.now seen }
{
    match local.pc {
        1 => at_node(HEAD, seen / 2, local),
        2 => at_link(local, seen),
        3 if seen == 2 * local.curr => at_node(local.pred, local.succ, local),
        4 => at_key(local, seen),
        5 => continued(Local { pc: 6, ..*local }),
        6 => continued(Local { pc: 7, ..*local }),
        7 if seen == 2 * local.curr => puts_in(local),
        8 => continued(Local {
            pc: 9,
            succ: seen / 2,
            ..*local
        }),
        9 if seen == 2 * local.succ => continued(Local { pc: 10, ..*local }),
        3 | 7 | 9 => again(local),
        10 => leaves_with(Reply::True, *local),
        _ => read_fed(local, seen),
    }
}

/// Returns the key that the next step adds to the set (with `true`) or removes from the set (with `false`), or `None`
/// if the step changes nothing. Only a successful compare-and-exchange changes the set.
#[inline(always)]
pub fn effect_of(local: &Local, seen: u64) -> Option<(Key, bool)>
    requires { IsSmall local.now }
    ensures { result ≡ effect_of local.now seen }
{
    match local.pc {
        7 if seen == 2 * local.curr => Some((local.call.key(), true)),
        9 if seen == 2 * local.succ => Some((local.call.key(), false)),
        _ => None,
    }
}

impl Machine for LockFreeList {
    const KIND: Kind = Kind::LockFree;

    ghost KIND = { LockFree };

    ghost table = { lock_free };

    #[inline(always)]
    fn begin(call: Call, local: &Local) -> Local {
        begun_reading(call, local)
    }

    #[inline(always)]
    fn next(local: &Local) -> Action {
        next_action(local)
    }

    #[inline(always)]
    fn feed(local: &Local, seen: u64) -> Fed {
        fed_by(local, seen)
    }

    #[inline(always)]
    fn effect(local: &Local, seen: u64) -> Option<(Key, bool)> {
        effect_of(local, seen)
    }

    ghost lawful = { lock_free_lawful };
}

impl OpenReads for LockFreeList {
    ghost reads = { lock_free_reads };

    ghost walks = { lock_free_walks };
}
