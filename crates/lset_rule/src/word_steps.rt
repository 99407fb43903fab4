//! Single steps of a call on the shared words. Each function requires that its step is the next step of the call
//! according to the step table.
ghost use Rattle.std.specs.Prelude.{◌≡◌, ◌<◌, ℕ};
ghost use Rattle.lset_words.specs.Words.{target, tail_word};
ghost use Rattle.lset_steps.specs.declared.Action.TheVariants.{Store};
ghost use Rattle.lset_rule.specs.Views.{IsOpen, IsIdle, Stands};
ghost use Rattle.lset_rule.specs.Calls.{Goes, Starts};
ghost use Rattle.lset_rule.specs.Seats.{IsOf, IsSeat};

use crate::rule::{Asking, FirstStep, Follows, Step};
use crate::view::{Opened, View};
use atomic_table::{Seat, Shared};
use lset_steps::{Action, Machine};
use lset_words::Call;

/// A seat on the shared words: one thread's access to the set. A seat is a zero-sized token; its view (what the seat
/// knows about the run) exists only in contracts.
pub type TableSeat = Seat<(), View>;

/// The shared words of a set with the list `M`: the locks, the counts, and the keys and links of the nodes.
pub type Words<M> = Shared<(), View, Opened, Follows<M>>;

/// Executes a step of a pending call, except the first step.
///
/// `place` is a seat (one thread's access to the set) on the words `table`, with a pending call. `action` is the action
/// that the step table has at the call's current row. Returns the value that the step saw: the value that was loaded or
/// stored, or the value that a compare-and-exchange found. (An exchange succeeds if and only if it finds the expected
/// value.) The step table's function `feed` computes the thread's next private state from the returned value. After the
/// step, the seat has seen all events up to and including the step.
#[inline(always)]
pub fn step_on<M: Machine>(table: &Words<M>, place: &mut TableSeat, action: Action) -> u64
    requires place { IsOf table.now.table_id table.now.key place.old }
    requires open { IsOpen place.old.me.0 × Stands M.table place.old.me.0 }
    requires action { action ≡ M.table.next place.old.me.0.local }
    ensures place { IsSeat place.old place.new }
    ensures goes { Goes M.table place.old.me.0 result place.new.me.0 }
    ensures stored { (word value : ℕ) → action ≡ Store word value → result ≡ value }
{
    match action {
        Action::Load(word) => table.load::<Step<M>>(place, word as usize),
        Action::Store(word, value) => {
            table.store::<Step<M>>(place, word as usize, value);
            value
        }
        Action::Exchange(word, old, new) => {
            table.compare_exchange::<Step<M>>(place, word as usize, old, new)
        }
    }
}

/// Starts a call and executes its first step. The call starts after all events that the seat had seen.
///
/// `place` is an idle seat (one thread's access to the set) on the words `table`. The key of `call` must be less than
/// the key of the tail. `action` is the action that the step table has at the call's first row. Returns the value that
/// the step saw: the value that was loaded or stored, or the value that a compare-and-exchange found. The step table's
/// function `feed` computes the thread's next private state from the returned value.
#[inline(always)]
pub fn start_on<M: Machine, J: Asking>(
    table: &Words<M>,
    place: &mut TableSeat,
    call: Call,
    action: Action,
) -> u64
    requires place { IsOf table.now.table_id table.now.key place.old }
    requires idle { IsIdle place.old.me.0 × Stands M.table place.old.me.0 }
    requires call { call ≡ J.call }
    requires low { target J.call < tail_word }
    requires action { action ≡ M.table.next (M.table.begin J.call place.old.me.0.local) }
    ensures place { IsSeat place.old place.new }
    ensures starts { Starts M.table J.call place.old.me.0 result place.new.me.0 }
{
    match action {
        Action::Load(word) => table.load::<FirstStep<M, J>>(place, word as usize),
        Action::Store(word, value) => {
            table.store::<FirstStep<M, J>>(place, word as usize, value);
            value
        }
        Action::Exchange(word, old, new) => {
            table.compare_exchange::<FirstStep<M, J>>(place, word as usize, old, new)
        }
    }
}
