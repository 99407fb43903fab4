//! Tests of seats (per-thread handles to a set): seats call one after another or at the same time, are merged
//! (gathered), pass receipts (records of the events that they have seen), and close the set.

use crate::meeting::{Meeting, calls};
use crate::opened::{close_with, make_calls, two_seats, two_seats_on};
use crate::prelude::*;
use lset_live::Receipt;
use lset_rule::TableSeat;
use std::mem::size_of;

/// The calls of one seat (per-thread handle to a set) on key 9, and the replies to the calls.
pub const ADDS: [(Call, Reply); 1] = [(Call::Add(Key(9)), Reply::True)];

pub const FINDS: [(Call, Reply); 1] = [(Call::Contains(Key(9)), Reply::True)];

const FINDS_NOTHING: [(Call, Reply); 1] = [(Call::Contains(Key(9)), Reply::False)];

/// A number of seats (per-thread handles to a set), a quota (successful adds per seat), and the error that `open`
/// returns for the seats and the quota, or `None` if `open` returns a set.
const LIMITS: [(u32, u32, Option<OpenFault>); 5] = [
    (0, 4, Some(OpenFault::Seats)),
    (65, 4, Some(OpenFault::Seats)),
    (1, 16_385, Some(OpenFault::Quota)),
    (65, 16_385, Some(OpenFault::Seats)),
    (64, 16_384, None),
];

#[test]
fn open_refuses_seats_and_then_a_quota_outside_their_limits(rt: HostRuntime) {
    for &(seats, quota, fault) in &LIMITS {
        let found = open::<LazyList>(rt.alloc(), seats, quota).err();
        assert!(rt; found == fault, "{seats} {quota}");
    }
}

/// Merges seat 1 into seat 0 (seats are per-thread handles to the set), finds the key 9, and closes the set. Asserts
/// that 9 is the only final key.
fn gathers_and_closes<M: Running, R: Host>(
    rt: &R,
    set: LiveSet<M>,
    mut zero: Seat<M>,
    one: Seat<M>,
) {
    assert_eq!(rt; (zero.thread(), one.thread(), zero.held()), (0, 1, 1));
    set.gather(&mut zero, one);
    assert_eq!(rt; (zero.thread(), zero.held()), (0, 2));
    make_calls(rt, &set, &mut zero, &FINDS);
    close_with(rt, set, zero, &[9]);
}

fn is_found<M: Running, R: Host>(rt: &R, alloc: Global) {
    let (set, mut zero, mut one) = two_seats::<M, R>(rt, alloc);
    assert_eq!(rt; (set.seats(), set.quota()), (2, 4));
    make_calls(rt, &set, &mut zero, &FINDS_NOTHING);
    make_calls(rt, &set, &mut one, &ADDS);
    make_calls(rt, &set, &mut zero, &FINDS);
    gathers_and_closes(rt, set, zero, one);
}

#[test]
fn a_seat_finds_what_another_added_before_and_after_gathering_it(rt: HostRuntime) {
    at_each_list!(is_found, rt);
}

fn finds_now<M: RunningReads, R: Host>(rt: &R, alloc: Global) {
    let (set, mut zero, mut one) = two_seats::<M, R>(rt, alloc);
    assert!(rt; !set.contains_now(&mut zero, Key(9)));
    make_calls(rt, &set, &mut one, &ADDS);
    assert!(rt; set.contains_now(&mut zero, Key(9)));
    assert!(rt; !set.contains_now(&mut zero, Key(u32::MAX)));
    gathers_and_closes(rt, set, zero, one);
}

#[test]
fn contains_now_finds_what_another_seat_added(rt: HostRuntime) {
    finds_now::<LazyList, HostRuntime>(&rt, rt.alloc());
    finds_now::<LockFreeList, HostRuntime>(&rt, rt.alloc());
}

fn comes_back<M: Running, R: Host>(rt: &R, alloc: Global) {
    let (set, zero, mut one) = two_seats::<M, R>(rt, alloc);
    make_calls(rt, &set, &mut one, &ADDS);
    let Err(out) = set.close(zero) else {
        panic!(rt; "a set is closed by one seat of two")
    };
    assert_eq!(rt; (out.seat.held(), out.seat.thread()), (1, 0));
    gathers_and_closes(rt, out.set, out.seat, one);
}

#[test]
fn close_with_a_missing_seat_returns_set_and_seat(rt: HostRuntime) {
    at_each_list!(comes_back, rt);
}

/// Copies a receipt (the events that a seat has seen) three times. One of the four receipts is dropped, one is passed
/// to the other seat, one is passed to the seat that issued it, and one still exists when the set is closed.
fn are_passed_on<M: Running, R: Host>(rt: &R, alloc: Global) {
    let (set, mut zero, mut one) = two_seats::<M, R>(rt, alloc);
    make_calls(rt, &set, &mut one, &ADDS);
    let mut receipt = set.receipt(&mut one);
    drop(set.copied(&mut receipt));
    let own = set.copied(&mut receipt);
    let left = set.copied(&mut receipt);
    set.after(&mut zero, receipt);
    set.after(&mut one, own);
    make_calls(rt, &set, &mut zero, &FINDS);
    gathers_and_closes(rt, set, zero, one);
    drop(left);
}

#[test]
fn receipts_can_be_copied_dropped_and_taken(rt: HostRuntime) {
    at_each_list!(are_passed_on, rt);
}

/// Asserts that passing an old receipt to a seat (per-thread handle to the set) has no effect. A receipt contains only
/// the events that its seat had seen when the seat issued the receipt.
fn may_be_old<M: Running, R: Host>(rt: &R, alloc: Global) {
    let (set, mut zero, mut one) = two_seats::<M, R>(rt, alloc);
    let early = set.receipt(&mut zero);
    make_calls(rt, &set, &mut one, &ADDS);
    set.after(&mut one, early);
    let late = set.receipt(&mut one);
    set.after(&mut zero, late);
    make_calls(rt, &set, &mut zero, &FINDS);
    gathers_and_closes(rt, set, zero, one);
}

#[test]
fn an_old_receipt_changes_nothing(rt: HostRuntime) {
    at_each_list!(may_be_old, rt);
}

/// A receipt (a record of the events that a seat has seen) adds no bytes to a message.
#[test]
fn a_receipt_has_no_bytes(rt: HostRuntime) {
    assert!(rt; size_of::<Receipt<LazyList>>() == 0);
    assert!(rt; size_of::<TableSeat>() == 0);
}

/// For each operation, two calls that are made at the same time, from seat 0 and from seat 1 (per-thread handles to the
/// set). The set contains the keys 3 and 4.
const OF_EACH_KIND: [(Call, Call); 4] = [
    (Call::Add(Key(1)), Call::Add(Key(2))),
    (Call::Remove(Key(3)), Call::Remove(Key(4))),
    (Call::Contains(Key(3)), Call::Contains(Key(4))),
    (Call::Ceiling(Key(3)), Call::Ceiling(Key(4))),
];

/// Makes a call from each of two seats (per-thread handles to the set), in two threads. Both calls report their steps
/// to `pause`.
fn at_once<M: Running + Send + Sync, R: Host, P: Pause + Sync>(
    rt: &R,
    set: &LiveSet<M>,
    seats: (Seat<M>, Seat<M>),
    both: (Call, Call),
    pause: &P,
) -> (Reply, Reply) {
    let (zero, one) = seats;
    let (start, ended) = (AtomicBool::new(true), AtomicBool::new(false));
    let flags = (&start, &ended);
    join(
        rt,
        move || calls(rt, set, zero, both.0, pause, flags),
        move || calls(rt, set, one, both.1, pause, flags),
    )
}

/// Makes two calls at the same time. After its first step, each call waits for the other call. Returns `true` if one of
/// the two calls had to wait for a lock and then acquired the lock.
fn calls_meet<M: Running + Send + Sync, R: Host>(
    rt: &R,
    alloc: Global,
    both: (Call, Call),
) -> bool {
    let (set, zero, one) = two_seats_on::<M, R>(rt, alloc, &[3, 4]);
    let wanted = match both.0 {
        Call::Ceiling(_) => (Reply::At(Key(3)), Reply::At(Key(4))),
        _ => (Reply::True, Reply::True),
    };
    let meeting = Meeting::new(rt, 2);
    let replies = at_once(rt, &set, (zero, one), both, &meeting);
    assert!(rt; meeting.was_held() && replies == wanted);
    meeting.has_waited()
}

/// If the first step of a call takes a lock, one of the two threads must wait for the lock.
#[test]
fn one_of_two_calls_waits_if_the_first_step_takes_a_lock(rt: HostRuntime) {
    for both in OF_EACH_KIND {
        assert!(rt; calls_meet::<CoarseList, HostRuntime>(&rt, rt.alloc(), both));
        assert!(rt; calls_meet::<FineList, HostRuntime>(&rt, rt.alloc(), both));
        let _optimistic = calls_meet::<OptimisticList, HostRuntime>(&rt, rt.alloc(), both);
        let _lazy = calls_meet::<LazyList, HostRuntime>(&rt, rt.alloc(), both);
        assert!(rt; !calls_meet::<LockFreeList, HostRuntime>(&rt, rt.alloc(), both));
    }
}
