//! Functions on a seat of a set (one thread's access to the set), for any list `M`. A receipt contains the events that
//! a seat has seen.
ghost use Rattle.std.specs.Prelude.{◌≡◌, ◌↔◌, ◌+◌, ◌≤◌, [], Some, IfNone, IfSome, IsTrue, length, vec_capacity};
ghost use Rattle.std.specs.Arc.{arc_value};
ghost use Rattle.lset_words.specs.declared.Call.TheVariants.{Contains};
ghost use Rattle.lset_words.specs.Words.{sizes};
ghost use Rattle.lset_live.specs.Closes.{most_keys};
ghost use Rattle.ffi_sets.specs.Calls.{HasCalledOf, HasHeededOf, HasNotedOf, HasReadOf};
ghost use Rattle.ffi_sets.specs.Facts.{AreOf};
ghost use Rattle.ffi_sets.specs.Sets.{IsWhole};

use crate::codes::{NO_MORE, OUT_OF_MEMORY, SEATS_OUT};
use crate::held::{ReceiptOfSet, SeatOfSet};
use crate::yielding::Yielding;
use lset_live::{Bounded, Countless, LiveSet, OpenContains, OpenFault, Seat, open_with};
use lset_words::{Call, Key, Reply};
use std::alloc::Global;
use std::mem::replace;
use std::sync::Arc;

/// Opens a set and returns one of its seats (a seat is one thread's access to the set). All other seats can be split
/// off the returned seat. `number` is the number that the caller gives the set.
pub fn open_of<M: Bounded>(
    alloc: Global,
    seats: u32,
    quota: u32,
    number: u64,
    keys: &[u32],
) -> Result<SeatOfSet<M>, OpenFault> {
    let (set, mut spare) = open_with::<M>(alloc, seats, quota, keys)?;
    let Ok(set) = Arc::new(alloc, set) else {
        return Err(OpenFault::Memory);
    };
    let seat = spare.pop();
    Ok(SeatOfSet {
        set,
        number,
        seat,
        spare,
    })
}

/// Merges all seats in `spare` (one for each thread) into `seat`, and returns `seat`. `seat` and all seats in `spare`
/// must belong to `set`.
fn gathered<M: Bounded>(set: &LiveSet<M>, seat: Seat<M>, spare: Vec<Seat<M>>) -> Seat<M>
    requires seat { seat.set ≡ set.now }
    requires spare { AreOf set.now spare.items }
    ensures set { result.set ≡ set.now }
    ensures held { result.held ≡ seat.held + length spare.items }
{
    let mut into = seat;
    for other in spare {
        set.gather(&mut into, other);
    }
    into
}

/// Closes the set and returns its final keys in `room`. Each seat of the set (one for each thread) must be `seat`, be
/// in `spare`, or have been merged into `seat`.
fn keys_left<M: Bounded>(
    set: LiveSet<M>,
    seat: Seat<M>,
    spare: Vec<Seat<M>>,
    room: Vec<u32>,
) -> Vec<u32>
    requires seat { seat.set ≡ set }
    requires spare { AreOf set spare.items }
    requires all { seat.held + length spare.items ≡ set.shape.threads }
    requires room { (room.items ≡ []) × (most_keys (sizes set.shape) ≤ vec_capacity room) }
{
    let seat = gathered(&set, seat, spare);
    set.keys_left_in(seat, room)
}

impl<M: Bounded> SeatOfSet<M> {
    /// Makes a call from the seat (one thread's access to the set). Returns `None` if the seat was already lost. Also
    /// returns `None` if the call stops after 2^64 - 1 rounds of a loop without a reply; the seat is then lost.
    pub fn call(&mut self, call: Call) -> Option<Reply>
        ensures set { arc_value self.new.set ≡ arc_value self.old.set }
        ensures number { self.new.number ≡ self.old.number }
        ensures spare { self.new.spare.items ≡ self.old.spare.items }
        ensures called { HasCalledOf M.table (arc_value self.old.set) self.old.seat call result self.new.seat }
    {
        let seat = self.seat.take()?;
        let (seat, reply) = self
            .set
            .call_within::<Yielding, Countless>(seat, call, &Yielding::new())?;
        self.seat = Some(seat);
        Some(reply)
    }

    /// Splits a new seat (one thread's access to the set) off `self`. Returns the error `NO_MORE` if no seat can be
    /// split off, or `OUT_OF_MEMORY` if the set's counter of owners is full.
    pub fn split(&mut self, alloc: Global) -> Result<SeatOfSet<M>, u8> {
        if self.spare.is_empty() {
            return Err(NO_MORE);
        }
        let Ok(set) = Arc::try_clone(&self.set) else {
            return Err(OUT_OF_MEMORY);
        };
        let Some(seat) = self.spare.pop() else {
            unreachable!()
        };
        let spare = Vec::new(alloc);
        Ok(SeatOfSet {
            set,
            number: self.number,
            seat: Some(seat),
            spare,
        })
    }

    /// Merges `from`, and all seats (one for each thread) that can be split off `from`, into `self`. Returns `None` on
    /// success. If the numbers of the two sets differ, or one of the two seats was lost, changes nothing and returns
    /// `from`.
    pub fn gather(&mut self, alloc: Global, from: SeatOfSet<M>) -> Option<SeatOfSet<M>>
        requires { self.old.number ≡ from.number → arc_value self.old.set ≡ arc_value from.set }
    {
        if self.number != from.number || self.seat.is_none() || from.seat.is_none() {
            return Some(from);
        }
        let SeatOfSet {
            set: _other,
            number: _,
            seat: taken,
            spare: left,
        } = from;
        let (Some(seat), Some(taken)) = (self.seat.take(), taken) else {
            unreachable!()
        };
        let spare = replace(&mut self.spare, Vec::new(alloc));
        let mut seat = gathered(&self.set, seat, spare);
        self.set.gather(&mut seat, gathered(&self.set, taken, left));
        self.seat = Some(seat);
        None
    }

    /// Returns a receipt, which contains all events that the seat (one thread's access to the set) has seen. Returns
    /// `None` if the seat was lost.
    pub fn receipt(&mut self) -> Option<ReceiptOfSet<M>>
        ensures set { arc_value self.new.set ≡ arc_value self.old.set }
        ensures number { self.new.number ≡ self.old.number }
        ensures spare { self.new.spare.items ≡ self.old.spare.items }
        ensures seat { self.new.seat ≡ self.old.seat }
        ensures given { IfSome result (λ r. (r.number ≡ self.old.number) × HasNotedOf self.old.seat (Some r.receipt)) }
    {
        let mut seat = self.seat.take()?;
        let receipt = self.set.receipt(&mut seat);
        self.seat = Some(seat);
        Some(ReceiptOfSet {
            number: self.number,
            receipt,
        })
    }

    /// Passes a receipt to the seat (one thread's access to the set). The seat has then seen all events of the receipt.
    /// Returns `None` on success. If the numbers of the two sets differ, or the seat was lost, changes nothing and
    /// returns `given`.
    pub fn after(&mut self, given: ReceiptOfSet<M>) -> Option<ReceiptOfSet<M>>
        requires { self.old.number ≡ given.number → arc_value self.old.set ≡ given.receipt.set }
        ensures set { arc_value self.new.set ≡ arc_value self.old.set }
        ensures number { self.new.number ≡ self.old.number }
        ensures spare { self.new.spare.items ≡ self.old.spare.items }
        ensures heeded { IfNone result (HasHeededOf self.old.seat (Some given.receipt) self.new.seat) }
    {
        if self.number != given.number {
            return Some(given);
        }
        let Some(mut seat) = self.seat.take() else {
            return Some(given);
        };
        let ReceiptOfSet { number: _, receipt } = given;
        self.set.after(&mut seat, receipt);
        self.seat = Some(seat);
        None
    }

    /// Returns the number of seats (one for each thread) that `self` contains, and the total number of seats of the
    /// set. A seat contains itself, the seats merged into it, and the seats that can be split off it.
    pub fn counts(&self) -> (u64, u32) {
        let spare = self.spare.len() as u64;
        let held = match &self.seat {
            Some(seat) => u64::from(seat.held()),
            None => 0,
        };
        (spare.saturating_add(held), self.set.seats())
    }

    /// Returns whether all seats of the set (one for each thread) are in `self`: they were never split off `self`, or
    /// were merged into it.
    fn has_all(&self) -> bool
        ensures { IsTrue result ↔ IsWhole (arc_value self.now.set) self.now.seat self.now.spare.items }
    {
        let Some(seat) = &self.seat else {
            return false;
        };
        let Some(others) = self.set.seats().checked_sub(seat.held()) else {
            return false;
        };
        others as usize == self.spare.len()
    }

    /// Closes the set and returns its final keys. On an error, returns `self` and the number of the error: `SEATS_OUT`
    /// if `self` does not contain all seats of the set (one for each thread), `OUT_OF_MEMORY` if no vector for the
    /// set's maximum number of keys can be allocated. (`OUT_OF_MEMORY` would also be returned if another handle shared
    /// the set, which cannot happen when all seats are in `self`.)
    pub fn close(self, alloc: Global) -> Result<Vec<u32>, (SeatOfSet<M>, u8)> {
        if !self.has_all() {
            return Err((self, SEATS_OUT));
        }
        let Ok(room) = Vec::with_capacity(alloc, self.set.most_keys()) else {
            return Err((self, OUT_OF_MEMORY));
        };
        let SeatOfSet {
            set,
            number,
            seat,
            spare,
        } = self;
        let Some(seat) = seat else { unreachable!() };
        match Arc::try_unwrap(set) {
            Ok(set) => Ok(keys_left(set, seat, spare, room)),
            Err(set) => {
                let seat = Some(seat);
                let kept = SeatOfSet {
                    set,
                    number,
                    seat,
                    spare,
                };
                Err((kept, OUT_OF_MEMORY))
            }
        }
    }
}

impl<M: OpenContains> SeatOfSet<M> {
    /// Makes a `contains` of `key` from the seat (one thread's access to the set) without blocking, in at most
    /// `most_reads` steps. Returns `None` if the seat was lost in an earlier call.
    pub fn contains_now(&mut self, key: Key) -> Option<Reply>
        ensures set { arc_value self.new.set ≡ arc_value self.old.set }
        ensures number { self.new.number ≡ self.old.number }
        ensures spare { self.new.spare.items ≡ self.old.spare.items }
        ensures called { HasCalledOf M.table (arc_value self.old.set) self.old.seat (Contains key) result self.new.seat }
        ensures within { IfSome result (λ r. HasReadOf (arc_value self.old.set) self.old.seat self.new.seat) }
    {
        let mut seat = self.seat.take()?;
        let is_present = self.set.contains_within_bound(&mut seat, key);
        self.seat = Some(seat);
        Some(if is_present {
            Reply::True
        } else {
            Reply::False
        })
    }
}
