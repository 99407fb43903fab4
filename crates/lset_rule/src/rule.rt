//! The invariant of the shared words and all seats, and how each action changes a view. A seat is one thread's access
//! to the set; its view is what it knows about the run. A receipt contains the events that one seat has seen, and is
//! used by another seat.
ghost use Rattle.lset_words.specs.declared.Call.{Call};
ghost use Rattle.lset_words.specs.declared.Call.TheVariants.{Contains};
ghost use Rattle.lset_rule.specs.Rule.{Holds, opener, left_view, right_view, joined, nobody, learned, without_thread, informed};
ghost use Rattle.lset_rule.specs.Calls.{onward, starting};

use crate::view::{Opened, View};
use atomic_table::{Join, Play, Split, TableRule};
use lset_steps::Machine;
use std::marker::{Brand, PhantomData};

/// The invariant of the shared words of a list `M`. The events of all threads so far are a run of `M` that ends with
/// the words in memory, and the view of each seat (what the seat knows about the run) matches the run. When the set is
/// opened, a single seat has all threads.
pub struct Follows<M> {
    machine: PhantomData<M>,
}

impl<M: Machine> TableRule<(), View, Opened> for Follows<M> {
    ghost holds = { Holds M.table };

    ghost first = { opener };
}

/// A type that represents a call in contracts, so that the type parameter of [`FirstStep`] can name the call that
/// starts. Callers of `start_on` pass `Brand`, and prove which call it represents.
pub trait Asking {
    ghost call: { Call };
}

impl Asking for Brand {
    ghost call = { Contains (record { 0 = 0 }) };
}

/// How a step of a call, except the first step, changes the view of its seat (what the seat knows about the run).
pub struct Step<M> {
    machine: PhantomData<M>,
}

impl<M: Machine> Play<(), View> for Step<M> {
    ghost then = { onward M.table };
}

/// How the start of a call and its first step change the view of the call's seat (what the seat knows about the run).
pub struct FirstStep<M, J> {
    machine: PhantomData<M>,
    asking: PhantomData<J>,
}

impl<M: Machine, J: Asking> Play<(), View> for FirstStep<M, J> {
    ghost then = { starting M.table J.call };
}

/// The views of two seats (what each seat knows about the run) after a split, in which a spare thread of the old seat
/// becomes the thread of the new seat.
pub struct SplitSeat;

impl Split<View> for SplitSeat {
    ghost left = { left_view };

    ghost right = { right_view };
}

/// The view of a seat (what the seat knows about the run) after another seat was merged into it. The seat then also has
/// the other seat's threads and record.
pub struct JoinSeats;

impl Join<View> for JoinSeats {
    ghost both = { joined };

    ghost spent = { nobody };
}

/// The views of a seat and a receipt (what each knows about the run) after the seat issues the receipt, or after the
/// receipt is copied. The seat's view does not change. The receipt contains the events that the seat has seen, and has
/// no threads.
pub struct GiveReceipt;

impl Split<View> for GiveReceipt {
    ghost left = { λ v. v };

    ghost right = { without_thread };
}

/// The view of a seat (what the seat knows about the run) after it uses a receipt: the seat has then seen all events
/// that the seat or the receipt had seen.
pub struct TakeReceipt;

impl Join<View> for TakeReceipt {
    ghost both = { informed };

    ghost spent = { nobody };
}

/// How the first load of a seat after a merge, or after the use of a receipt, changes the seat's view (what the seat
/// knows about the run). The load shows that the seat has seen two lists of events: its own, and that of the merged
/// seat or the receipt.
pub struct Learn<M> {
    machine: PhantomData<M>,
}

impl<M: Machine> Play<(), View> for Learn<M> {
    ghost then = { learned M.table };
}
