//! The interpreter: executes a whole call on the shared words, one row of the list's step table at a time.
ghost use Rattle.std.specs.Prelude.{IfSome};
ghost use Rattle.lset_words.specs.declared.Call.TheVariants.{Contains};
ghost use Rattle.lset_rule.specs.Seats.{HasCalled, MayCall};

use crate::pause::Pause;
use crate::rounds::Rounds;
use crate::row_steps::{Stepped, has_failed, one_step};
use crate::slots::OwnSlots;
use crate::word_steps::{TableSeat, Words, start_on};
use lset_steps::{Machine, OpenReads};
use lset_words::{Call, Key, Reply};
use std::marker::Brand;

/// Expands to the code between two steps of a call: returns the reply if the call has ended, and pauses otherwise.
///
/// The code is a macro because a pause can block. If the interpreter called a function that can block, the compiled
/// code would not jump straight to the code of the next row.
macro_rules! ends_or_pauses {
    ($last:expr, $pause:expr) => {
        if let Some(reply) = $last.fed.answer {
            return Some((OwnSlots::of(&$last.fed.local), reply));
        }
        if $last.failed {
            $pause.failed($last.fed.local.thread);
        } else {
            $pause.moved($last.fed.local.thread);
        }
    };
}

/// Executes a whole call step by step, in at most `N::MOST` rounds of four steps each.
///
/// `place` is an idle seat (one thread's access to the set) on the words `table`. `slots` are the thread's slots (nodes
/// reserved for its adds), as the thread's last call returned them. After each step that does not end the call, the
/// interpreter calls `pause.failed` if the step has failed, and `pause.moved` otherwise. The interpreter also calls
/// `pause.moved` when the call gets a lock that it has waited for, and never calls `pause.taken`.
///
/// Returns the thread's slots after the call, and the reply. The call started after all events that the seat had seen,
/// and has been added to the seat's record. Returns `None` if the call has not ended after `N::MOST` rounds. The call
/// is then still pending and keeps its locks, and no other call can start from the seat.
pub fn interpret_within<M: Machine, P: Pause, N: Rounds>(
    table: &Words<M>,
    place: &mut TableSeat,
    slots: OwnSlots,
    call: Call,
    pause: &P,
) -> Option<(OwnSlots, Reply)>
    requires { MayCall M.table table.now.table_id table.now.key slots place.old }
    ensures { IfSome result (λ r. HasCalled M.table call place.old r place.new) }
{
    let begun = M::begin(call, &slots.resting());
    let action = M::next(&begun);
    let seen = start_on::<M, Brand>(table, place, call, action);
    let mut last = Stepped {
        fed: M::feed(&begun, seen),
        failed: has_failed(action, seen),
    };
    // A round has four steps. Within a round, the compiled code of one row of the step table jumps straight to the code
    // of the next row. After a round, the code of the next row is found by its number.
    for round in 0..N::MOST {
        ends_or_pauses!(last, pause);
        let second = one_step::<M, 1>(table, place, &last.fed.local);
        ends_or_pauses!(second, pause);
        let third = one_step::<M, 2>(table, place, &second.fed.local);
        ends_or_pauses!(third, pause);
        let fourth = one_step::<M, 3>(table, place, &third.fed.local);
        ends_or_pauses!(fourth, pause);
        last = one_step::<M, 4>(table, place, &fourth.fed.local);
    }
    let reply = last.fed.answer?;
    Some((OwnSlots::of(&last.fed.local), reply))
}

/// Executes a whole `contains` of `key` step by step, without blocking. `M` is a list that marks nodes before it
/// unlinks them, so a walk reaches each node at most once (`OpenReads`).
///
/// `place` is an idle seat (one thread's access to the set) on the words `table`. `slots` are the thread's slots (nodes
/// reserved for its adds), as the thread's last call returned them. Returns the thread's slots after the call, and the
/// reply.
pub fn interpret_read<M: OpenReads>(
    table: &Words<M>,
    place: &mut TableSeat,
    slots: OwnSlots,
    key: Key,
) -> (OwnSlots, Reply)
    requires { MayCall M.table table.now.table_id table.now.key slots place.old }
    ensures { HasCalled M.table (Contains key) place.old result place.new }
{
    let call = Call::Contains(key);
    let begun = M::begin(call, &slots.resting());
    let seen = start_on::<M, Brand>(table, place, call, M::next(&begun));
    let mut fed = M::feed(&begun, seen);
    loop {
        if let Some(reply) = fed.answer {
            return (OwnSlots::of(&fed.local), reply);
        }
        fed = one_step::<M, 5>(table, place, &fed.local).fed;
    }
}
