//! Implements the steps of the broken lists (lists without one of their checks). In each `match`, an arm without a flaw
//! passes the arguments unchanged to the function of the intact list.
//!
//! Steps are defined for every thread state with small numbers (`IsSmall`), even for a state that no run reaches.
//! `seen` is the value that a load read, a store wrote, or a compare-and-exchange found.
ghost use Rattle.lset_steps.specs.Rows.{IsSmall};

use crate::lists::BrokenList;
use crate::lists::BrokenList::{
    HandOverHand, Lock, Mark, MarkAtKey, MarkInAdd, MarkInCeiling, MarkInContains, MarkInRemove,
    MarksInValidation, NewSlot, SameNode, SecondLock, SecondWalk,
};
use crate::{broken_fine, broken_lock_free, broken_optimistic};
use lset_steps::reads::{begun_reading, continued};
use lset_steps::rows::{begun as begun_at, lock_index};
use lset_steps::{Action, Fed, Local};
use lset_words::{Call, Key};

/// Returns the value that a thread uses if it overlooks the mark at row `row` of its step table: `seen` without its
/// lowest bit, the mark. At any other row, returns `seen` unchanged.
fn without_mark(row: u8, local: &Local, seen: u64) -> u64 {
    if local.pc == row {
        2 * (seen / 2)
    } else {
        seen
    }
}

/// Returns a thread's state after the start of `call`. A broken list (a list without one of its checks) starts a call
/// as the intact list does.
pub fn begun(broken: BrokenList, call: Call, local: &Local) -> Local {
    match broken {
        Lock | SecondLock | HandOverHand | SecondWalk | SameNode => begun_at(1, call, local),
        MarksInValidation
        | MarkInContains
        | MarkInCeiling
        | Mark
        | MarkInAdd
        | MarkInRemove
        | MarkAtKey
        | NewSlot => begun_reading(call, local),
    }
}

pub(crate) fn next_action(broken: BrokenList, local: &Local) -> Action
    requires { IsSmall local.now }
{
    match broken {
        Lock => lset_coarse::next_action(local),
        HandOverHand if local.pc == 14 => Action::Store(lock_index(local.pred), 0),
        SecondLock | HandOverHand => lset_fine::next_action(local),
        SecondWalk | SameNode => lset_optimistic::next_action(local),
        MarksInValidation | MarkInContains | MarkInCeiling => lset_lazy::next_action(local),
        MarkInAdd => broken_lock_free::next_whatever_mark(local),
        NewSlot => lset_lock_free::next_action(&Local { used: 0, ..*local }),
        Mark | MarkInRemove | MarkAtKey => lset_lock_free::next_action(local),
    }
}

pub(crate) fn fed_by(broken: BrokenList, local: &Local, seen: u64) -> Fed
    requires { IsSmall local.now }
{
    match broken {
        Lock if local.pc == 1 => lset_coarse::fed_by(local, 0),
        Lock => lset_coarse::fed_by(local, seen),
        SecondLock => broken_fine::fed_with_one_lock(local, seen),
        HandOverHand => broken_fine::fed_pred_first(local, seen),
        SecondWalk => broken_optimistic::fed_without_walk(local, seen),
        SameNode if local.pc == 7 => continued(broken_optimistic::arrived_by_key(seen, local)),
        SameNode => lset_optimistic::fed_by(local, seen),
        MarksInValidation => {
            lset_lazy::fed_by(local, without_mark(6, local, without_mark(7, local, seen)))
        }
        MarkInContains => lset_lazy::fed_by(local, without_mark(22, local, seen)),
        MarkInCeiling => lset_lazy::fed_by(local, without_mark(25, local, seen)),
        Mark => broken_lock_free::fed_without_mark(local, seen),
        MarkInAdd => broken_lock_free::fed_whatever_mark(local, seen),
        MarkInRemove => lset_lock_free::fed_by(local, without_mark(9, local, seen)),
        MarkAtKey => lset_lock_free::fed_by(local, without_mark(22, local, seen)),
        NewSlot => lset_lock_free::fed_by(local, seen),
    }
}

pub(crate) fn effect_of(broken: BrokenList, local: &Local, seen: u64) -> Option<(Key, bool)>
    requires { IsSmall local.now }
{
    match broken {
        Lock => lset_coarse::effect_of(local, seen),
        SecondLock | HandOverHand => lset_fine::effect_of(local, seen),
        SecondWalk | SameNode => lset_optimistic::effect_of(local, seen),
        MarksInValidation | MarkInContains | MarkInCeiling => lset_lazy::effect_of(local, seen),
        Mark => broken_lock_free::effect_without_mark(local, seen),
        MarkInAdd => broken_lock_free::effect_whatever_mark(local, seen),
        MarkInRemove => lset_lock_free::effect_of(local, without_mark(9, local, seen)),
        MarkAtKey => lset_lock_free::effect_of(local, without_mark(22, local, seen)),
        NewSlot => lset_lock_free::effect_of(local, seen),
    }
}
