//! LazyList: a list-based set that marks nodes before it unlinks them. Its `contains` needs no lock (Herlihy and
//! Shavit's lazy list, after Heller and others).
#![tactic(auto)]

ghost use Rattle.std.specs.Prelude.{◌≡◌, ◌/◌, Some};
ghost use Rattle.lset_words.specs.declared.Kind.TheVariants.{Lazy};
ghost use Rattle.lset_words.specs.declared.Reply.TheVariants.{True};
ghost use Rattle.lset_steps.specs.Rows.{IsSmall};
ghost use Rattle.lset_lazy.specs.Lazy.{lazy, next_action, at_key, gives_up, at_pred, at_curr, released, fed_by, effect_of};
ghost use Rattle.lset_lazy.specs.Lawful.{lazy_lawful, lazy_reads, lazy_walks};

pub mod laws;

use lset_steps::reads::{begun_reading, continued, leaves_with, read_action, read_fed};
use lset_steps::rows::{Targets, decide, key_index, link_index, lock_index, own_slot, try_lock};
use lset_steps::{Action, Fed, Local, Machine, OpenReads};
use lset_words::{Call, HEAD, Key, Kind, Reply};

/// The list-based set that marks nodes before it unlinks them, and walks without locks. After its walk, an `add` or a
/// `remove` locks the two nodes that it found, and walks again if they are no longer unmarked neighbours.
#[derive(Clone, Copy)]
pub struct LazyList;

/// The rows of the step table at which a call continues after its walk along the list: to add its key (`adds`), to
/// remove its key (`removes`), or to end with its reply (`leaves`).
const TARGETS: Targets = Targets {
    adds: 8,
    removes: 11,
    leaves: 13,
};

/// Returns the access to a shared word (memory cell) that a pending call makes in its next step. `local.pc` is the
/// number of the call's row in the step table (the list's numbered atomic steps). The numbers in `local` must be small
/// (`IsSmall`), as they are in every run.
#[inline(always)]
pub fn next_action(local: &Local) -> Action
    requires { IsSmall local.now }
    ensures { result ≡ next_action local.now }
{
    match local.pc {
        1 => Action::Load(link_index(HEAD)),
        2 => Action::Load(key_index(local.curr)),
        3 | 7 => Action::Load(link_index(local.curr)),
        4 => try_lock(local.pred, local),
        5 => try_lock(local.curr, local),
        6 => Action::Load(link_index(local.pred)),
        8 => Action::Store(key_index(own_slot(local)), local.call.key().word()),
        9 => Action::Store(link_index(own_slot(local)), 2 * local.curr),
        10 => Action::Store(link_index(local.pred), 2 * own_slot(local)),
        11 => Action::Store(link_index(local.curr), 2 * local.succ + 1),
        12 => Action::Store(link_index(local.pred), 2 * local.succ),
        13 => Action::Store(lock_index(local.curr), 0),
        14 => Action::Store(lock_index(local.pred), 0),
        _ => read_action(local),
    }
}

/// Returns the thread's private state after the walk has loaded `seen`, the link of `pred`, and moved to the node that
/// the link leads to. Next, the walk loads that node's key.
#[inline(always)]
fn walked_from(pred: u64, local: &Local, seen: u64) -> Local
    ensures { result ≡ record local.now { pc = 2; pred = pred; curr = seen / 2 } }
{
    Local {
        pc: 2,
        pred,
        curr: seen / 2,
        ..*local
    }
}

/// Returns the thread's private state after the thread has loaded `seen`, the key of `curr`. If `seen` is smaller than
/// the call's key, the walk continues. Otherwise the call takes the locks.
#[inline(always)]
fn at_key(local: &Local, seen: u64) -> Local
    ensures { result ≡ at_key seen local.now }
{
    let pc = if seen < local.call.key().word() { 3 } else { 4 };
    Local {
        pc,
        ckey: seen,
        ..*local
    }
}

/// Returns the thread's private state after a failed validation: no reply yet, and its next steps release both locks.
#[inline(always)]
fn gives_up(local: &Local) -> Local
    ensures { result ≡ gives_up local.now }
{
    Local {
        pc: 13,
        reply: None,
        ..*local
    }
}

/// Returns the thread's private state after it has read the link of `pred`. Validation fails unless the link leads to
/// `curr` and has no mark.
#[inline(always)]
fn at_pred(local: &Local, seen: u64) -> Local
    requires { IsSmall local.now }
    ensures { result ≡ at_pred seen local.now }
{
    if seen == 2 * local.curr {
        Local { pc: 7, ..*local }
    } else {
        gives_up(local)
    }
}

/// Returns the thread's private state after the thread has loaded the link of `curr`. If `curr` is not marked, the call
/// has a reply or will change the set. Otherwise validation fails.
#[inline(always)]
fn at_curr(local: &Local, seen: u64) -> Local
    ensures { result ≡ at_curr seen local.now }
{
    if seen % 2 == 0 {
        let local = Local {
            succ: seen / 2,
            ..*local
        };
        decide(TARGETS, local.ckey, local)
    } else {
        gives_up(local)
    }
}

/// Returns the thread's private state after the call has changed the set. The call has the reply `True`, and next
/// releases the locks.
#[inline(always)]
fn succeeds(local: Local) -> Local
    ensures { result ≡ record local { pc = 13; reply = Some True } }
{
    Local {
        pc: 13,
        reply: Some(Reply::True),
        ..local
    }
}

/// Returns the outcome of the step that releases the second lock: the call ends with its reply or, without a reply,
/// starts again.
#[inline(always)]
fn released(local: &Local) -> Fed
    ensures { result ≡ released local.now.reply local.now }
{
    match local.reply {
        None => continued(Local { pc: 1, ..*local }),
        Some(reply) => leaves_with(reply, *local),
    }
}

/// Returns the thread's private state after its next step, which saw `seen`, and the reply if the step ends the call.
#[inline(always)]
pub fn fed_by(local: &Local, seen: u64) -> Fed
    requires { IsSmall local.now }
    ensures { result ≡ fed_by local.now seen }
{
    let next = match local.pc {
        1 => walked_from(HEAD, local, seen),
        2 => at_key(local, seen),
        3 => walked_from(local.curr, local, seen),
        4 if seen == 0 => Local { pc: 5, ..*local },
        4 => Local { pc: 4, ..*local },
        5 if seen == 0 => Local { pc: 6, ..*local },
        5 => Local { pc: 5, ..*local },
        6 => at_pred(local, seen),
        7 => at_curr(local, seen),
        8 => Local { pc: 9, ..*local },
        9 => Local { pc: 10, ..*local },
        10 => succeeds(Local {
            used: local.used + 1,
            ..*local
        }),
        11 => Local { pc: 12, ..*local },
        12 => succeeds(*local),
        13 => Local { pc: 14, ..*local },
        14 => return released(local),
        _ => return read_fed(local, seen),
    };
    continued(next)
}

/// Returns the key that the next step adds to the set (with `true`) or removes from the set (with `false`), or `None`
/// if the step changes nothing.
#[inline(always)]
pub fn effect_of(local: &Local, _seen: u64) -> Option<(Key, bool)>
    ensures { result ≡ effect_of local.now _seen }
{
    match local.pc {
        10 => Some((local.call.key(), true)),
        11 => Some((local.call.key(), false)),
        _ => None,
    }
}

impl Machine for LazyList {
    const KIND: Kind = Kind::Lazy;

    ghost KIND = { Lazy };

    ghost table = { lazy };

    #[inline(always)]
    fn begin(call: Call, local: &Local) -> Local {
        begun_reading(call, local)
    }

    #[inline(always)]
    fn next(local: &Local) -> Action {
        next_action(local)
    }

    #[inline(always)]
    fn feed(local: &Local, seen: u64) -> Fed {
        fed_by(local, seen)
    }

    #[inline(always)]
    fn effect(local: &Local, seen: u64) -> Option<(Key, bool)> {
        effect_of(local, seen)
    }

    ghost lawful = { lazy_lawful };
}

impl OpenReads for LazyList {
    ghost reads = { lazy_reads };

    ghost walks = { lazy_walks };
}
