//! Lists whose calls threads make on shared words (memory cells): `Running` for calls that can block, and
//! `OpenContains` for a `contains` that never blocks.
ghost use Rattle.lset_words.specs.declared.Call.TheVariants.{Contains};
ghost use Rattle.lset_rule.specs.Seats.{HasCalled, MayCall};

use crate::bounded::Bounded;
use lset_coarse::CoarseList;
use lset_fine::FineList;
use lset_lazy::LazyList;
use lset_lock_free::LockFreeList;
use lset_optimistic::OptimisticList;
use lset_rule::{Countless, OwnSlots, Pause, TableSeat, Words, interpret_read, or_wait_forever};
use lset_steps::OpenReads;
use lset_words::{Call, Key, Reply};
use std::sync::Wait;

/// A list that threads call on shared words (memory cells). Its calls can block while another thread holds a lock.
///
/// A list that is `Bounded` implements this trait without a body: `impl Running for MyList {}`.
pub trait Running: Bounded {
    /// Executes a call of any kind, with as many rounds as it needs. Blocks, using the runtime `rt`, while another
    /// thread holds a lock that the call needs. See `Bounded::make_within` for the remaining arguments, the
    /// precondition and the postcondition.
    fn make_on<R: Wait, P: Pause>(
        rt: &R,
        table: &Words<Self>,
        place: &mut TableSeat,
        slots: OwnSlots,
        call: Call,
        pause: &P,
    ) -> (OwnSlots, Reply)
        requires { MayCall Self.table table.now.table_id table.now.key slots place.old }
        ensures { HasCalled Self.table call place.old result place.new }
    {
        let answer = Self::make_within::<P, Countless>(table, place, slots, call, pause);
        or_wait_forever(rt, answer)
    }
}

impl Running for CoarseList {}

impl Running for FineList {}

impl Running for OptimisticList {}

impl Running for LazyList {}

impl Running for LockFreeList {}

/// A list that threads call on shared words (memory cells), with a `contains` that never blocks.
///
/// A list with bounded reads (`OpenReads`) implements this trait without a body. The list then uses the interpreter
/// (`lset_rule::interpret_read`).
pub trait OpenContains: Bounded + OpenReads {
    /// Executes a `contains` of `key` in at most `OpenReads::bound` steps, and returns the thread's slots and the
    /// reply. Cannot block, because the function has no runtime argument. See `Bounded::make_within` for the arguments.
    fn contains_now_on(
        table: &Words<Self>,
        place: &mut TableSeat,
        slots: OwnSlots,
        key: Key,
    ) -> (OwnSlots, Reply)
        requires { MayCall Self.table table.now.table_id table.now.key slots place.old }
        ensures { HasCalled Self.table (Contains key) place.old result place.new }
    {
        interpret_read::<Self>(table, place, slots, key)
    }
}

impl OpenContains for LazyList {
    fn contains_now_on(
        table: &Words<Self>,
        place: &mut TableSeat,
        slots: OwnSlots,
        key: Key,
    ) -> (OwnSlots, Reply) {
        lset_loops::contains_now_on::<Self>(table, place, slots, key)
    }
}

impl OpenContains for LockFreeList {
    fn contains_now_on(
        table: &Words<Self>,
        place: &mut TableSeat,
        slots: OwnSlots,
        key: Key,
    ) -> (OwnSlots, Reply) {
        lset_loops::contains_now_on::<Self>(table, place, slots, key)
    }
}

/// A list whose `add`, `remove` and `ceiling` can block, and that has a `contains` that never blocks
/// (`OpenContains::contains_now_on`).
pub trait RunningReads: Running + OpenReads + OpenContains {}

impl RunningReads for LazyList {}

impl RunningReads for LockFreeList {}
