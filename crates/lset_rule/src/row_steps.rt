//! Executes the next step of an interpreted call, with code that is compiled for the call's row of the step table.
ghost use Rattle.std.specs.Prelude.{◌≡◌};
ghost use Rattle.lset_rule.specs.RowSteps.{HasStepped, MayStep};

use crate::word_steps::{TableSeat, Words, step_on};
use lset_steps::{Action, Fed, Local, Machine};

/// The outcome of one step: the thread's state after the step, the reply if the step ended the call, and whether the
/// step was a failed exchange.
#[derive(Clone, Copy)]
pub(crate) struct Stepped {
    pub fed: Fed,
    pub failed: bool,
}

/// Returns whether a step with the action `action` that saw the value `seen` was a failed exchange.
#[inline(always)]
pub(crate) fn has_failed(action: Action, seen: u64) -> bool {
    match action {
        Action::Exchange(_, old, _) => seen != old,
        _ => false,
    }
}

/// Executes the next step of a call at row `PC` of the step table. `PC` is a compile-time constant: the compiler
/// removes the code of all other rows from `M::next` and `M::feed`.
fn row_step<M: Machine, const PC: u8>(
    table: &Words<M>,
    place: &mut TableSeat,
    local: &Local,
) -> Stepped
    requires call { MayStep M.table table.now.table_id table.now.key local.now place.old }
    requires row { local.now.pc ≡ PC }
    ensures { HasStepped M.table local.now place.old result.fed place.new }
{
    let here = Local { pc: PC, ..*local };
    let action = M::next(&here);
    let seen = step_on::<M>(table, place, action);
    Stepped {
        fed: M::feed(&here, seen),
        failed: has_failed(action, seen),
    }
}

/// Executes the next step of a call at a row without a match arm in [`one_step`]. Each call site passes its own number
/// `SITE`, only to prevent inlining: the compiler inlines a function that has a single call site. If `other_step` were
/// inlined, the thread's private state would be written to memory at every step.
fn other_step<M: Machine, const SITE: u8>(
    table: &Words<M>,
    place: &mut TableSeat,
    local: &Local,
) -> Stepped
    requires { MayStep M.table table.now.table_id table.now.key local.now place.old }
    ensures { HasStepped M.table local.now place.old result.fed place.new }
{
    let action = M::next(local);
    let seen = step_on::<M>(table, place, action);
    Stepped {
        fed: M::feed(local, seen),
        failed: has_failed(action, seen),
    }
}

/// Executes the next step of a call, with code that is compiled for the call's row of the step table.
///
/// `place` is a seat (one thread's access to the set) on the words `table`, with a pending call. `local` is the private
/// state of the seat's own thread. Each call site passes its own number `SITE`. Each row of the five lists' step tables
/// has a match arm. A row of another step table can be without a match arm, and its step is then slower.
#[inline(always)]
pub(crate) fn one_step<M: Machine, const SITE: u8>(
    table: &Words<M>,
    place: &mut TableSeat,
    local: &Local,
) -> Stepped
    requires { MayStep M.table table.now.table_id table.now.key local.now place.old }
    ensures { HasStepped M.table local.now place.old result.fed place.new }
{
    match local.pc {
        1 => row_step::<M, 1>(table, place, local),
        2 => row_step::<M, 2>(table, place, local),
        3 => row_step::<M, 3>(table, place, local),
        4 => row_step::<M, 4>(table, place, local),
        5 => row_step::<M, 5>(table, place, local),
        6 => row_step::<M, 6>(table, place, local),
        7 => row_step::<M, 7>(table, place, local),
        8 => row_step::<M, 8>(table, place, local),
        9 => row_step::<M, 9>(table, place, local),
        10 => row_step::<M, 10>(table, place, local),
        11 => row_step::<M, 11>(table, place, local),
        12 => row_step::<M, 12>(table, place, local),
        13 => row_step::<M, 13>(table, place, local),
        14 => row_step::<M, 14>(table, place, local),
        15 => row_step::<M, 15>(table, place, local),
        20 => row_step::<M, 20>(table, place, local),
        21 => row_step::<M, 21>(table, place, local),
        22 => row_step::<M, 22>(table, place, local),
        23 => row_step::<M, 23>(table, place, local),
        24 => row_step::<M, 24>(table, place, local),
        25 => row_step::<M, 25>(table, place, local),
        _ => other_step::<M, SITE>(table, place, local),
    }
}
