//! Receipts. A receipt is a token that one thread sends to another, to order its earlier calls before the other
//! thread's later calls. In contracts, a receipt contains the events (starts and steps of calls) that a seat
//! (per-thread handle) had seen when the seat issued the receipt.
ghost use Rattle.std.specs.Prelude.{◌≡◌};
ghost use Rattle.lset_live.specs.Explained.{ReceiptsKeepOrder};
ghost use Rattle.lset_rule.specs.Runs.{StartsWith};

use crate::seat::Seat;
use crate::set::LiveSet;
use lset_rule::{GiveReceipt, Learn, TableSeat, TakeReceipt};
use lset_steps::Machine;
use std::marker::{Model, PhantomData};

/// A receipt from a running set: a token which proves that a seat (per-thread handle) had seen certain events (starts
/// and steps of calls) when the seat issued the receipt. No call can be made from a receipt.
///
/// A thread sends a receipt to another thread by any channel. Once the receiver has passed the receipt to
/// `LiveSet::after`, the receiver's later calls start after all events in the receipt. A receipt is zero-sized, can be
/// sent to any thread, and can be dropped. In contracts, the value of a receipt is its set and its events.
#[derive(Drop)]
pub struct Receipt<M: Machine> {
    pub(crate) place: TableSeat,
    pub(crate) of: PhantomData<M>,
}

impl<M: Machine> Model for Receipt<M> {
    ghost use Rattle.std.specs.Prelude.{◌≡◌, [], true};
    ghost use Rattle.lset_live.specs.Seats.{ReceiptValue, SetValue};

    ghost Value = { ReceiptValue };

    ghost view = { λ r. record {
      set = record { table = r.place.table_id; shape = r.place.me.0.shape };
      events = r.place.me.0.seen;
    } };

    ghost invariant = { λ r. (r.place.me.0.spent ≡ true) × (r.place.me.1 ≡ []) };
}

impl<M: Machine> LiveSet<M> {
    /// Returns a receipt for the events that `seat` (a per-thread handle) has seen, including the events of the seats
    /// merged into `seat` and of the receipts passed to `seat`. `seat` must belong to the set, and does not change.
    /// Does not block or allocate.
    pub fn receipt(&self, seat: &mut Seat<M>) -> Receipt<M>
        requires { seat.old.set ≡ self.now }
        ensures seat { seat.new ≡ seat.old }
        ensures receipt { result ≡ record { set = self.now; events = seat.old.events } }
    {
        let place = self.table.shared.split_seat::<GiveReceipt>(&mut seat.place);
        Receipt {
            place,
            of: PhantomData,
        }
    }

    /// Returns a second receipt with the events of `receipt`, that is, the events that a seat (per-thread handle) had
    /// seen. `receipt` must belong to the set. Does not block or allocate.
    pub fn copied(&self, receipt: &mut Receipt<M>) -> Receipt<M>
        requires { receipt.old.set ≡ self.now }
        ensures same { receipt.new ≡ receipt.old }
        ensures copy { result ≡ receipt.old }
    {
        let place = self
            .table
            .shared
            .split_seat::<GiveReceipt>(&mut receipt.place);
        Receipt {
            place,
            of: PhantomData,
        }
    }

    /// Adds the events in `receipt` to the events that `seat` (a per-thread handle) has seen. `seat` and `receipt` must
    /// belong to the set. The seat's later calls start after all events in the receipt. In each order that linearizes
    /// the run, all calls that had ended in the receipt's events precede the seat's later calls
    /// (`receipts_keep_order`). The seat's record and the seats that it holds do not change. Does not block or
    /// allocate.
    pub fn after(&self, seat: &mut Seat<M>, receipt: Receipt<M>)
        requires seat { seat.old.set ≡ self.now }
        requires receipt { receipt.set ≡ self.now }
        ensures seat { (seat.new.set ≡ self.now) × (seat.new.past ≡ seat.old.past) × (seat.new.held ≡ seat.old.held) }
        ensures events { StartsWith seat.new.events seat.old.events × StartsWith seat.new.events receipt.events }
    {
        let Receipt { place, of: _ } = receipt;
        self.table
            .shared
            .join_seat::<TakeReceipt>(&mut seat.place, place);
        self.table.shared.load::<Learn<M>>(&mut seat.place, 0);
    }
}

/// Lemma: if the end of a call is among the events in a receipt, the call precedes each call that a seat (per-thread
/// handle) starts after it has received the receipt. This is true in each linearization of the events up to the end of
/// the later call, and of these events followed by more.
pub fn receipts_keep_order()
    ensures { ReceiptsKeepOrder }
{}
