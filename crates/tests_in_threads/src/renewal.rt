//! Tests of sets that open with the final keys of a closed set. The new set has a different number of seats (per-thread
//! handles to the set), a different quota (successful adds per seat) or a different kind of list.

use crate::opened::{close_with, gathered, increasing_keys, keys_left, last_of, make_calls};
use crate::prelude::*;
use crate::program_sizes::{Draws, Sizes, runs_beside_models};

/// Calls on a set that opens with the key 9 and cannot add keys.
const CALLS_ON_A_KEY: [(Call, Reply); 3] = [
    (Call::Contains(Key(9)), Reply::True),
    (Call::Add(Key(4)), Reply::Full),
    (Call::Remove(Key(9)), Reply::True),
];

/// Opens a set that has three seats (per-thread handles to the set), contains the key 9, and cannot add keys. Asserts
/// that a key from the start can be removed like any other key.
fn opens_with_a_key<M: Running, R: Host>(rt: &R, alloc: Global) {
    let (set, mut seats) = open_with::<M>(alloc, 3, 0, &[9]).expect(rt, "not opened");
    let mut last = last_of(rt, &set, &mut seats);
    make_calls(rt, &set, &mut last, &CALLS_ON_A_KEY);
    seats.push(last).expect(rt, "room");
    let seat = gathered(&set, seats).expect(rt, "no seat");
    close_with(rt, set, seat, &[]);
}

#[test]
fn a_set_opens_with_a_key_and_no_slot(rt: HostRuntime) {
    at_each_list!(opens_with_a_key, rt);
}

/// Calls on a set that can add two keys and opens with the keys 0, 7 and the largest key.
const CALLS_ON_KEYS: [(Call, Reply); 7] = [
    (Call::Add(Key(7)), Reply::False),
    (Call::Remove(Key(0)), Reply::True),
    (Call::Add(Key(0)), Reply::True),
    (Call::Ceiling(Key(8)), Reply::At(Key(u32::MAX))),
    (Call::Remove(Key(u32::MAX)), Reply::True),
    (Call::Add(Key(8)), Reply::True),
    (Call::Add(Key(9)), Reply::Full),
];

fn keeps_its_keys<M: Running, R: Host>(rt: &R, alloc: Global) {
    let opened = open_with::<M>(alloc, 1, 2, &[0, 7, u32::MAX]);
    let (set, mut seats) = opened.expect(rt, "not opened");
    let mut seat = last_of(rt, &set, &mut seats);
    make_calls(rt, &set, &mut seat, &CALLS_ON_KEYS);
    close_with(rt, set, seat, &[0, 7, 8]);
}

#[test]
fn the_smallest_and_the_largest_key_can_be_opening_keys(rt: HostRuntime) {
    at_each_list!(keeps_its_keys, rt);
}

/// Arguments of `open_with`, each with the error that `open_with` returns: a number of seats (per-thread handles to a
/// set), a quota (successful adds per seat), and opening keys (keys at the start).
const REFUSED: [(u32, u32, [u32; 2], OpenFault); 4] = [
    (0, 16_385, [5, 5], OpenFault::Seats),
    (1, 16_385, [5, 5], OpenFault::Quota),
    (1, 1, [5, 5], OpenFault::Opening),
    (1, 1, [6, 5], OpenFault::Opening),
];

#[test]
fn open_with_refuses_seats_then_quota_then_keys_that_do_not_increase(rt: HostRuntime) {
    for (seats, quota, keys, fault) in &REFUSED {
        let found = open_with::<LazyList>(rt.alloc(), *seats, *quota, keys).err();
        assert!(rt; found == Some(*fault), "{seats} {quota}");
    }
}

/// Opens a set with the keys `keys`, runs programs on the set in threads, closes the set, and returns the final keys.
fn life<R: Host>(
    rt: &R,
    alloc: Global,
    kind: Kind,
    sizes: Sizes,
    keys: &[u32],
    draws: &mut Draws,
) -> Vec<u32> {
    match kind {
        Kind::Coarse => runs_beside_models::<CoarseList, R>(rt, alloc, sizes, keys, draws),
        Kind::Fine => runs_beside_models::<FineList, R>(rt, alloc, sizes, keys, draws),
        Kind::Optimistic => runs_beside_models::<OptimisticList, R>(rt, alloc, sizes, keys, draws),
        Kind::Lazy => runs_beside_models::<LazyList, R>(rt, alloc, sizes, keys, draws),
        Kind::LockFree => runs_beside_models::<LockFreeList, R>(rt, alloc, sizes, keys, draws),
    }
}

/// Each kind of list, with a number of seats (per-thread handles to the set) and a quota (successful adds per seat).
const LIVES: [(Kind, u32, u32); 5] = [
    (Kind::Coarse, 6, 40),
    (Kind::Fine, 4, 30),
    (Kind::Optimistic, 3, 0),
    (Kind::Lazy, 2, 7),
    (Kind::LockFree, 1, 16),
];

#[test]
fn each_list_opens_with_the_final_keys_of_each_list(rt: HostRuntime) {
    let mut draws = Draws::new(7);
    let mut left = 0usize;
    for (first, _, _) in LIVES {
        let sizes = Sizes::new(6, 40, 0, 300, 60);
        let keys = life(&rt, rt.alloc(), first, sizes, &[], &mut draws);
        assert!(rt; !keys.is_empty());
        for (next, threads, quota) in LIVES {
            let sizes = Sizes::new(threads, quota, 0, 300, 60);
            let last = life(&rt, rt.alloc(), next, sizes, &keys, &mut draws);
            left = left.saturating_add(last.len());
        }
    }
    assert!(rt; left > 0);
}

/// Calls on a set that can add one key and opens with the maximum number of keys. All opening keys (the keys at the
/// start) are even.
const CALLS_ON_A_MILLION: [(Call, Reply); 3] = [
    (Call::Contains(Key(2_097_150)), Reply::True),
    (Call::Add(Key(1)), Reply::True),
    (Call::Ceiling(Key(2_097_151)), Reply::Nothing),
];

#[test]
fn a_set_opens_with_a_million_keys_and_no_more(rt: HostRuntime) {
    let keys = increasing_keys(&rt, rt.alloc(), MOST_OPENING, 2);
    let opened = open_with::<LockFreeList>(rt.alloc(), 1, 1, &keys);
    let (set, mut seats) = opened.expect(&rt, "not opened");
    let mut seat = last_of(&rt, &set, &mut seats);
    make_calls(&rt, &set, &mut seat, &CALLS_ON_A_MILLION);
    let left = keys_left(&rt, set, seat);
    assert!(rt; left.len() == 1_048_577);
    let found = open_with::<LazyList>(rt.alloc(), 1, 1, &left).err();
    assert!(rt; found == Some(OpenFault::Opening));
}
