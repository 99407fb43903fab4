//! The value that a C handle owns: a seat (one thread's access to the set), a receipt (the events that a seat has
//! seen), or the keys of a closed set.
ghost use Rattle.std.specs.Prelude.{◌≡◌, IfSome};
ghost use Rattle.std.specs.Arc.{arc_value};
ghost use Rattle.ffi_sets.specs.Facts.{AreOf, seat_of_prop, spare_of_prop};

use lset_coarse::CoarseList;
use lset_fine::FineList;
use lset_lazy::LazyList;
use lset_live::{Bounded, LiveSet, Receipt, Seat};
use lset_lock_free::LockFreeList;
use lset_optimistic::OptimisticList;
use lset_steps::Machine;
use std::alloc::Global;
use std::sync::Arc;

/// A seat of a set (one thread's access to the set), with the set, the number that the caller gave the set, and the
/// seats that can be split off. `seat` is `None` after a call that stopped without a reply.
#[derive(Drop)]
pub struct SeatOfSet<M: Bounded> {
    pub set: Arc<LiveSet<M>, Global>,
    pub number: u64,
    pub seat: Option<Seat<M>>,
    pub spare: Vec<Seat<M>>,
    ghost seat_of: { IfSome seat (λ s. s.set ≡ arc_value set) } by { seat_of_prop seat (arc_value set) },
    ghost spare_of: { AreOf (arc_value set) spare.items } by { spare_of_prop spare.items (arc_value set) },
}

/// A receipt (the events that a seat, one thread's access to the set, has seen), with the number that the caller gave
/// the set.
#[derive(Drop)]
pub struct ReceiptOfSet<M: Machine> {
    pub number: u64,
    pub receipt: Receipt<M>,
}

/// The value that a non-empty C handle owns: a seat (one thread's access to a set), a receipt (the events that a seat
/// has seen), or the keys of a closed set. A handle has the value `Nothing` only while a function has taken the
/// handle's value out to work with it.
#[derive(Drop)]
pub enum Held {
    Coarse(SeatOfSet<CoarseList>),
    Fine(SeatOfSet<FineList>),
    Optimistic(SeatOfSet<OptimisticList>),
    Lazy(SeatOfSet<LazyList>),
    LockFree(SeatOfSet<LockFreeList>),
    CoarseReceipt(ReceiptOfSet<CoarseList>),
    FineReceipt(ReceiptOfSet<FineList>),
    OptimisticReceipt(ReceiptOfSet<OptimisticList>),
    LazyReceipt(ReceiptOfSet<LazyList>),
    LockFreeReceipt(ReceiptOfSet<LockFreeList>),
    Closed(Vec<u32>),
    Nothing,
}
