//! Calls for callers that must not block: each loop of a call makes a bounded number of rounds.
ghost use Rattle.std.specs.Prelude.{IfSome};
ghost use Rattle.lset_rule.specs.Seats.{HasCalled, MayCall};

use lset_coarse::CoarseList;
use lset_fine::FineList;
use lset_lazy::LazyList;
use lset_lock_free::LockFreeList;
use lset_optimistic::OptimisticList;
use lset_rule::{OwnSlots, Pause, Rounds, TableSeat, Words, interpret_within};
use lset_steps::Machine;
use lset_words::{Call, Reply};

/// A list that threads call on shared words. Each loop of a call makes a limited number of rounds.
///
/// A list with a step table (`Machine`, the list's atomic steps) can implement this trait without a body: `impl Bounded
/// for MyList {}`. The list then uses the interpreter (`lset_rule::interpret_within`). A list can also provide its own
/// body under the same contract, as the five lists do.
///
/// - Precondition `MayCall`: `place` is a seat (per-thread handle) on the words `table` without a pending call, and
///   `slots` are the slots of the seat's thread (nodes reserved for its adds).
/// - Postcondition `HasCalled`: `place` is still the same seat, the returned slots are the slots of its thread, and
///   exactly the executed call has been added to the seat's record. The call started after all events that the seat had
///   seen, and has ended. If `None` is returned, nothing is ensured.
pub trait Bounded: Machine {
    /// Executes a call of any kind, with at most `N::MOST` rounds in each loop. (A `contains` of LazyList and
    /// LockFreeList makes as many rounds as it needs.) `place` is an idle seat (per-thread handle) on the words
    /// `table`, and `slots` are the slots of the seat's thread (nodes reserved for its adds). Returns the slots after
    /// the call, and the reply.
    ///
    /// Returns `None` if a loop has used up its rounds. The call is then still pending and holds its locks, and no
    /// other call can start from the seat.
    fn make_within<P: Pause, N: Rounds>(
        table: &Words<Self>,
        place: &mut TableSeat,
        slots: OwnSlots,
        call: Call,
        pause: &P,
    ) -> Option<(OwnSlots, Reply)>
        requires { MayCall Self.table table.now.table_id table.now.key slots place.old }
        ensures { IfSome result (λ r. HasCalled Self.table call place.old r place.new) }
    {
        interpret_within::<Self, P, N>(table, place, slots, call, pause)
    }
}

impl Bounded for CoarseList {
    fn make_within<P: Pause, N: Rounds>(
        table: &Words<Self>,
        place: &mut TableSeat,
        slots: OwnSlots,
        call: Call,
        pause: &P,
    ) -> Option<(OwnSlots, Reply)> {
        lset_loops::coarse_within::<P, N>(table, place, slots, call, pause)
    }
}

impl Bounded for FineList {
    fn make_within<P: Pause, N: Rounds>(
        table: &Words<Self>,
        place: &mut TableSeat,
        slots: OwnSlots,
        call: Call,
        pause: &P,
    ) -> Option<(OwnSlots, Reply)> {
        lset_loops::fine_within::<P, N>(table, place, slots, call, pause)
    }
}

impl Bounded for OptimisticList {
    fn make_within<P: Pause, N: Rounds>(
        table: &Words<Self>,
        place: &mut TableSeat,
        slots: OwnSlots,
        call: Call,
        pause: &P,
    ) -> Option<(OwnSlots, Reply)> {
        lset_loops::optimistic_within::<P, N>(table, place, slots, call, pause)
    }
}

impl Bounded for LazyList {
    fn make_within<P: Pause, N: Rounds>(
        table: &Words<Self>,
        place: &mut TableSeat,
        slots: OwnSlots,
        call: Call,
        pause: &P,
    ) -> Option<(OwnSlots, Reply)> {
        match call {
            Call::Add(_) | Call::Remove(_) => {
                lset_loops::lazy_change_within::<P, N>(table, place, slots, call, pause)
            }
            Call::Contains(key) => Some(lset_loops::contains_on::<Self, P>(
                table, place, slots, key, pause,
            )),
            Call::Ceiling(_) => interpret_within::<Self, P, N>(table, place, slots, call, pause),
        }
    }
}

impl Bounded for LockFreeList {
    fn make_within<P: Pause, N: Rounds>(
        table: &Words<Self>,
        place: &mut TableSeat,
        slots: OwnSlots,
        call: Call,
        pause: &P,
    ) -> Option<(OwnSlots, Reply)> {
        match call {
            Call::Add(_) | Call::Remove(_) => {
                lset_loops::lock_free_change_within::<P, N>(table, place, slots, call, pause)
            }
            Call::Contains(key) => Some(lset_loops::contains_on::<Self, P>(
                table, place, slots, key, pause,
            )),
            Call::Ceiling(_) => interpret_within::<Self, P, N>(table, place, slots, call, pause),
        }
    }
}
