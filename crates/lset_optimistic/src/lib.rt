//! OptimisticList: a list-based set that walks without locks. A call locks the two nodes that its walk found, and
//! validates them by a second walk (Herlihy and Shavit's optimistic list).
#![tactic(auto)]

ghost use Rattle.std.specs.Prelude.{◌≡◌, ◌/◌};
ghost use Rattle.lset_words.specs.declared.Kind.TheVariants.{Optimistic};
ghost use Rattle.lset_steps.specs.Rows.{IsSmall};
ghost use Rattle.lset_optimistic.specs.Optimistic.{
  optimistic,
  next_action,
  at_key,
  at_locks,
  gives_up,
  at_node,
  at_link,
  at_end,
  local_after,
  fed_by,
  effect_of,
};
ghost use Rattle.lset_optimistic.specs.Lawful.{optimistic_lawful};

pub mod laws;

use lset_steps::rows::{
    Targets, begun, decide, key_index, link_index, lock_index, own_slot, try_lock,
};
use lset_steps::{Action, Fed, Local, Machine};
use lset_words::{Call, HEAD, Key, Kind, Reply};

/// The list-based set that walks without locks, and then locks the two nodes at which the walk ended. A second walk
/// from the head checks that the first locked node is still reachable, and that its link points to the second locked
/// node.
#[derive(Clone, Copy)]
pub struct OptimisticList;

/// The rows of the step table at which a call continues after its walks along the list: to add its key (`adds`), to
/// remove its key (`removes`), or to end with its reply (`leaves`).
const TARGETS: Targets = Targets {
    adds: 9,
    removes: 12,
    leaves: 14,
};

/// Returns the access to a shared word (memory cell) that a pending call makes in its next step. `local.pc` is the
/// number of the call's row in the step table (the list's numbered atomic steps). The numbers in `local` must be small
/// (`IsSmall`), as they are in every run.
#[inline(always)]
pub fn next_action(local: &Local) -> Action
    requires { IsSmall local.now }
    ensures { result ≡ next_action local.now }
{
    match local.pc {
        1 => Action::Load(link_index(HEAD)),
        2 => Action::Load(key_index(local.curr)),
        3 | 12 => Action::Load(link_index(local.curr)),
        4 => try_lock(local.pred, local),
        5 => try_lock(local.curr, local),
        6 => Action::Load(link_index(local.node)),
        7 => Action::Load(key_index(local.node)),
        8 => Action::Load(link_index(local.pred)),
        9 => Action::Store(key_index(own_slot(local)), local.call.key().word()),
        10 => Action::Store(link_index(own_slot(local)), 2 * local.curr),
        11 => Action::Store(link_index(local.pred), 2 * own_slot(local)),
        13 => Action::Store(link_index(local.pred), 2 * local.succ),
        14 => Action::Store(lock_index(local.pred), 0),
        _ => Action::Store(lock_index(local.curr), 0),
    }
}

/// Returns the thread's private state after the thread's walk has moved to `pred`. `pkey` is the key of `pred`, and
/// `link` is the link of `pred`, which points to the node that the walk visits next.
#[inline(always)]
fn walks_on(local: &Local, pred: u64, pkey: u64, link: u64) -> Local
    ensures { result ≡ record local.now { pc = 2; pred = pred; pkey = pkey; curr = link / 2 } }
{
    Local {
        pc: 2,
        pred,
        pkey,
        curr: link / 2,
        ..*local
    }
}

/// Returns the thread's private state after the thread has loaded `seen`, the key of `curr`. If `seen` is smaller than
/// the call's key, the walk continues. Otherwise the call takes the locks.
#[inline(always)]
fn at_key(local: &Local, seen: u64) -> Local
    ensures { result ≡ at_key seen local.now }
{
    let pc = if seen < local.call.key().word() { 3 } else { 4 };
    Local {
        pc,
        ckey: seen,
        ..*local
    }
}

/// Returns the thread's private state at the start of the second walk, which begins at the head. If pred is the head,
/// the second walk has already arrived.
#[inline(always)]
fn at_locks(local: &Local) -> Local
    ensures { result ≡ at_locks local.now }
{
    let pc = if local.pred == HEAD { 8 } else { 6 };
    Local {
        pc,
        node: HEAD,
        ..*local
    }
}

/// Returns the thread's private state after a failed validation: no reply yet, and its next steps release both locks.
#[inline(always)]
fn gives_up(local: &Local) -> Local
    ensures { result ≡ gives_up local.now }
{
    Local {
        pc: 14,
        reply: None,
        ..*local
    }
}

/// Returns the thread's private state after the second walk has loaded the key `seen`. Validation fails if the second
/// walk has passed pred, the node that the first walk found. If the second walk is at pred, the walk has arrived.
#[inline(always)]
fn at_node(local: &Local, seen: u64) -> Local
    ensures { result ≡ at_node seen local.now }
{
    if seen > local.pkey {
        gives_up(local)
    } else if local.node == local.pred {
        Local { pc: 8, ..*local }
    } else {
        Local { pc: 6, ..*local }
    }
}

/// Returns the thread's private state after the thread has loaded the link of pred. If the link still points to curr,
/// the call has a reply or will change the set. Otherwise validation fails.
#[inline(always)]
fn at_link(local: &Local, seen: u64) -> Local
    ensures { result ≡ at_link seen local.now }
{
    if seen / 2 == local.curr {
        decide(TARGETS, local.ckey, *local)
    } else {
        gives_up(local)
    }
}

/// Returns the thread's private state after the thread has released the second lock. A call without a reply starts
/// again.
#[inline(always)]
fn at_end(local: &Local) -> Local
    ensures { result ≡ at_end local.now.reply local.now }
{
    match local.reply {
        None => Local { pc: 1, ..*local },
        Some(_) => Local { pc: 0, ..*local },
    }
}

#[inline(always)]
fn local_after(local: &Local, seen: u64) -> Local
    requires { IsSmall local.now }
    ensures { result ≡ local_after local.now seen }
{
    match local.pc {
        1 => walks_on(local, HEAD, 0, seen),
        2 => at_key(local, seen),
        3 => walks_on(local, local.curr, local.ckey, seen),
        4 if seen == 0 => Local { pc: 5, ..*local },
        4 => Local { pc: 4, ..*local },
        5 if seen == 0 => at_locks(local),
        5 => Local { pc: 5, ..*local },
        6 => Local {
            pc: 7,
            node: seen / 2,
            ..*local
        },
        7 => at_node(local, seen),
        8 => at_link(local, seen),
        9 => Local { pc: 10, ..*local },
        10 => Local { pc: 11, ..*local },
        11 => Local {
            pc: 14,
            reply: Some(Reply::True),
            used: local.used + 1,
            ..*local
        },
        12 => Local {
            pc: 13,
            succ: seen / 2,
            ..*local
        },
        13 => Local {
            pc: 14,
            reply: Some(Reply::True),
            ..*local
        },
        14 => Local { pc: 15, ..*local },
        _ => at_end(local),
    }
}

/// Returns the thread's private state after its next step, which saw `seen`, and the reply if the step ends the call.
#[inline(always)]
pub fn fed_by(local: &Local, seen: u64) -> Fed
    requires { IsSmall local.now }
    ensures { result ≡ fed_by local.now seen }
{
    let answer = if local.pc == 15 { local.reply } else { None };
    Fed {
        local: local_after(local, seen),
        answer,
    }
}

/// Returns the key that the next step adds to the set (with `true`) or removes from the set (with `false`), or `None`
/// if the step changes nothing.
#[inline(always)]
pub fn effect_of(local: &Local, _seen: u64) -> Option<(Key, bool)>
    ensures { result ≡ effect_of local.now _seen }
{
    match local.pc {
        11 => Some((local.call.key(), true)),
        13 => Some((local.call.key(), false)),
        _ => None,
    }
}

impl Machine for OptimisticList {
    const KIND: Kind = Kind::Optimistic;

    ghost KIND = { Optimistic };

    ghost table = { optimistic };

    #[inline(always)]
    fn begin(call: Call, local: &Local) -> Local {
        begun(1, call, local)
    }

    #[inline(always)]
    fn next(local: &Local) -> Action {
        next_action(local)
    }

    #[inline(always)]
    fn feed(local: &Local, seen: u64) -> Fed {
        fed_by(local, seen)
    }

    #[inline(always)]
    fn effect(local: &Local, seen: u64) -> Option<(Key, bool)> {
        effect_of(local, seen)
    }

    ghost lawful = { optimistic_lawful };
}
