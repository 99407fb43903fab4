//! FineList: a list-based set with a lock for each node. Walks take the locks hand over hand (Herlihy and Shavit's
//! fine-grained list).
#![tactic(auto)]

ghost use Rattle.std.specs.Prelude.{◌≡◌};
ghost use Rattle.lset_words.specs.declared.Kind.TheVariants.{Fine};
ghost use Rattle.lset_steps.specs.Rows.{IsSmall};
ghost use Rattle.lset_fine.specs.Fine.{fine, next_action, at_key, local_after, fed_by, effect_of};
ghost use Rattle.lset_fine.specs.Lawful.{fine_lawful};

use lset_steps::rows::{
    Targets, begun, decide, key_index, link_index, lock_index, own_slot, try_lock,
};
use lset_steps::{Action, Fed, Local, Machine};
use lset_words::{Call, HEAD, Key, Kind, Reply};

/// The list-based set with one lock for each node. A walk locks the next node before it unlocks the previous node.
#[derive(Clone, Copy)]
pub struct FineList;

/// The rows of the step table at which a call continues after its walk along the list: to add its key (`adds`), to
/// remove its key (`removes`), or to end with its reply (`leaves`).
const TARGETS: Targets = Targets {
    adds: 7,
    removes: 10,
    leaves: 12,
};

/// Returns the access to a shared word (memory cell) that a pending call makes in its next step. `local.pc` is the
/// number of the call's row in the step table (the list's numbered atomic steps). The numbers in `local` must be small
/// (`IsSmall`), as they are in every run.
#[inline(always)]
pub fn next_action(local: &Local) -> Action
    requires { IsSmall local.now }
    ensures { result ≡ next_action local.now }
{
    match local.pc {
        1 => try_lock(HEAD, local),
        2 => Action::Load(link_index(HEAD)),
        3 => try_lock(local.curr, local),
        4 => Action::Load(key_index(local.curr)),
        6 | 10 => Action::Load(link_index(local.curr)),
        7 => Action::Store(key_index(own_slot(local)), local.call.key().word()),
        8 => Action::Store(link_index(own_slot(local)), 2 * local.curr),
        9 => Action::Store(link_index(local.pred), 2 * own_slot(local)),
        11 => Action::Store(link_index(local.pred), 2 * local.succ),
        12 => Action::Store(lock_index(local.curr), 0),
        _ => Action::Store(lock_index(local.pred), 0),
    }
}

/// Returns the thread's private state after the thread has loaded `seen`, the key of `curr`. If `seen` is smaller than
/// the call's key, the walk continues. Otherwise the call has a reply or will change the set.
#[inline(always)]
fn at_key(local: &Local, seen: u64) -> Local
    ensures { result ≡ at_key seen local.now }
{
    let local = Local {
        ckey: seen,
        ..*local
    };
    if seen < local.call.key().word() {
        Local { pc: 5, ..local }
    } else {
        decide(TARGETS, seen, local)
    }
}

#[inline(always)]
fn local_after(local: &Local, seen: u64) -> Local
    requires { IsSmall local.now }
    ensures { result ≡ local_after local.now seen }
{
    match local.pc {
        1 if seen == 0 => Local {
            pc: 2,
            pred: HEAD,
            ..*local
        },
        1 => Local { pc: 1, ..*local },
        2 => Local {
            pc: 3,
            curr: seen / 2,
            ..*local
        },
        3 if seen == 0 => Local { pc: 4, ..*local },
        3 => Local { pc: 3, ..*local },
        4 => at_key(local, seen),
        5 => Local { pc: 6, ..*local },
        6 => Local {
            pc: 3,
            pred: local.curr,
            curr: seen / 2,
            ..*local
        },
        7 => Local { pc: 8, ..*local },
        8 => Local { pc: 9, ..*local },
        9 => Local {
            pc: 12,
            reply: Some(Reply::True),
            used: local.used + 1,
            ..*local
        },
        10 => Local {
            pc: 11,
            succ: seen / 2,
            ..*local
        },
        11 => Local {
            pc: 12,
            reply: Some(Reply::True),
            ..*local
        },
        12 => Local { pc: 13, ..*local },
        _ => Local { pc: 0, ..*local },
    }
}

/// Returns the thread's private state after its next step, and the call's reply if the step ends the call. `seen` is
/// the value that the step read or wrote.
#[inline(always)]
pub fn fed_by(local: &Local, seen: u64) -> Fed
    requires { IsSmall local.now }
    ensures { result ≡ fed_by local.now seen }
{
    let answer = if local.pc == 13 { local.reply } else { None };
    Fed {
        local: local_after(local, seen),
        answer,
    }
}

/// Returns the key that the next step adds to the set (with `true`) or removes from the set (with `false`), or `None`
/// if the step changes nothing.
#[inline(always)]
pub fn effect_of(local: &Local, _seen: u64) -> Option<(Key, bool)>
    ensures { result ≡ effect_of local.now _seen }
{
    match local.pc {
        9 => Some((local.call.key(), true)),
        11 => Some((local.call.key(), false)),
        _ => None,
    }
}

impl Machine for FineList {
    const KIND: Kind = Kind::Fine;

    ghost KIND = { Fine };

    ghost table = { fine };

    #[inline(always)]
    fn begin(call: Call, local: &Local) -> Local {
        begun(1, call, local)
    }

    #[inline(always)]
    fn next(local: &Local) -> Action {
        next_action(local)
    }

    #[inline(always)]
    fn feed(local: &Local, seen: u64) -> Fed {
        fed_by(local, seen)
    }

    #[inline(always)]
    fn effect(local: &Local, seen: u64) -> Option<(Key, bool)> {
        effect_of(local, seen)
    }

    ghost lawful = { fine_lawful };
}
