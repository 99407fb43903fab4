//! CoarseList: a list-based set with a single lock for the whole list (Herlihy and Shavit's coarse-grained list).
#![tactic(auto)]

ghost use Rattle.std.specs.Prelude.{◌≡◌};
ghost use Rattle.lset_words.specs.declared.Kind.TheVariants.{Coarse};
ghost use Rattle.lset_steps.specs.Rows.{IsSmall};
ghost use Rattle.lset_coarse.specs.Coarse.{coarse, next_action, at_key, local_after, fed_by, effect_of};
ghost use Rattle.lset_coarse.specs.Lawful.{coarse_lawful};

use lset_steps::rows::{Targets, begun, decide, key_index, link_index, own_slot};
use lset_steps::{Action, Fed, Local, Machine};
use lset_words::{Call, HEAD, Key, Kind, LOCK, Reply};

/// The list-based set with a single lock for all its nodes.
#[derive(Clone, Copy)]
pub struct CoarseList;

/// The rows of the step table at which a call continues after its walk along the list: to add its key (`adds`), to
/// remove its key (`removes`), or to end with its reply (`leaves`).
const TARGETS: Targets = Targets {
    adds: 5,
    removes: 8,
    leaves: 10,
};

/// Returns the access to a shared word (memory cell) that a pending call makes in its next step. `local.pc` is the
/// number of the call's row in the step table (the list's numbered atomic steps). The numbers in `local` must be small
/// (`IsSmall`), as they are in every run.
#[inline(always)]
pub fn next_action(local: &Local) -> Action
    requires { IsSmall local.now }
    ensures { result ≡ next_action local.now }
{
    match local.pc {
        1 => Action::Exchange(LOCK, 0, u64::from(local.thread) + 1),
        2 => Action::Load(link_index(HEAD)),
        3 => Action::Load(key_index(local.curr)),
        4 | 8 => Action::Load(link_index(local.curr)),
        5 => Action::Store(key_index(own_slot(local)), local.call.key().word()),
        6 => Action::Store(link_index(own_slot(local)), 2 * local.curr),
        7 => Action::Store(link_index(local.pred), 2 * own_slot(local)),
        9 => Action::Store(link_index(local.pred), 2 * local.succ),
        _ => Action::Store(LOCK, 0),
    }
}

/// Returns the thread's private state after the thread has loaded `seen`, the key of `curr`. If `seen` is smaller than
/// the call's key, the walk continues. Otherwise the call has a reply or will change the set.
#[inline(always)]
fn at_key(local: &Local, seen: u64) -> Local
    ensures { result ≡ at_key seen local.now }
{
    if seen < local.call.key().word() {
        Local {
            pc: 4,
            ckey: seen,
            ..*local
        }
    } else {
        decide(
            TARGETS,
            seen,
            Local {
                ckey: seen,
                ..*local
            },
        )
    }
}

#[inline(always)]
fn local_after(local: &Local, seen: u64) -> Local
    requires { IsSmall local.now }
    ensures { result ≡ local_after local.now seen }
{
    match local.pc {
        1 if seen == 0 => Local { pc: 2, ..*local },
        1 => Local { pc: 1, ..*local },
        2 => Local {
            pc: 3,
            pred: HEAD,
            curr: seen / 2,
            ..*local
        },
        3 => at_key(local, seen),
        4 => Local {
            pc: 3,
            pred: local.curr,
            curr: seen / 2,
            ..*local
        },
        5 => Local { pc: 6, ..*local },
        6 => Local { pc: 7, ..*local },
        7 => Local {
            pc: 10,
            reply: Some(Reply::True),
            used: local.used + 1,
            ..*local
        },
        8 => Local {
            pc: 9,
            succ: seen / 2,
            ..*local
        },
        9 => Local {
            pc: 10,
            reply: Some(Reply::True),
            ..*local
        },
        _ => Local { pc: 0, ..*local },
    }
}

/// Returns the thread's private state after its next step, and the call's reply if the step ends the call. `seen` is
/// the value that the step read or wrote.
#[inline(always)]
pub fn fed_by(local: &Local, seen: u64) -> Fed
    requires { IsSmall local.now }
    ensures { result ≡ fed_by local.now seen }
{
    let answer = if local.pc == 10 { local.reply } else { None };
    Fed {
        local: local_after(local, seen),
        answer,
    }
}

/// Returns the key that the next step adds to the set (with `true`) or removes from the set (with `false`), or `None`
/// if the step changes nothing.
#[inline(always)]
pub fn effect_of(local: &Local, _seen: u64) -> Option<(Key, bool)>
    ensures { result ≡ effect_of local.now _seen }
{
    match local.pc {
        7 => Some((local.call.key(), true)),
        9 => Some((local.call.key(), false)),
        _ => None,
    }
}

impl Machine for CoarseList {
    const KIND: Kind = Kind::Coarse;

    ghost KIND = { Coarse };

    ghost table = { coarse };

    #[inline(always)]
    fn begin(call: Call, local: &Local) -> Local {
        begun(1, call, local)
    }

    #[inline(always)]
    fn next(local: &Local) -> Action {
        next_action(local)
    }

    #[inline(always)]
    fn feed(local: &Local, seen: u64) -> Fed {
        fed_by(local, seen)
    }

    #[inline(always)]
    fn effect(local: &Local, seen: u64) -> Option<(Key, bool)> {
        effect_of(local, seen)
    }

    ghost lawful = { coarse_lawful };
}
