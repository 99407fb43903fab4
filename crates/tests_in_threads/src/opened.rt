//! Operations on sets, for use in many tests. Each operation fails the test if the set does not behave as expected.

use crate::prelude::*;

pub fn last_of<M: Machine, R: Abort>(
    rt: &R,
    set: &LiveSet<M>,
    seats: &mut Vec<Seat<M>>,
) -> Seat<M> {
    seats.pop().expect(rt, "no seat is left")
}

/// Opens a set that contains `keys` for two threads. Returns the set and the seats 0 and 1 (a seat is a per-thread
/// handle to the set). Each seat can add 4 keys.
pub fn two_seats_on<M: Machine, R: Abort>(
    rt: &R,
    alloc: Global,
    keys: &[u32],
) -> (LiveSet<M>, Seat<M>, Seat<M>) {
    let (set, mut seats) = open_with::<M>(alloc, 2, 4, keys).expect(rt, "not opened");
    let one = last_of(rt, &set, &mut seats);
    let zero = last_of(rt, &set, &mut seats);
    (set, zero, one)
}

/// Opens an empty set for two threads. Returns the set and the seats 0 and 1 (per-thread handles to the set). Each seat
/// can add 4 keys.
pub fn two_seats<M: Machine, R: Abort>(rt: &R, alloc: Global) -> (LiveSet<M>, Seat<M>, Seat<M>) {
    two_seats_on::<M, R>(rt, alloc, &[])
}

/// Makes a call with the set's method for the operation.
fn reply<M: Running, R: Wait>(rt: &R, set: &LiveSet<M>, seat: &mut Seat<M>, call: Call) -> Reply {
    match call {
        Call::Add(key) => set.add(rt, seat, key),
        Call::Remove(key) => set.remove(rt, seat, key),
        Call::Contains(key) => set.contains(rt, seat, key),
        Call::Ceiling(key) => set.ceiling(rt, seat, key),
    }
}

/// Makes calls one after another and asserts their replies.
pub fn make_calls<M: Running, R: Host>(
    rt: &R,
    set: &LiveSet<M>,
    seat: &mut Seat<M>,
    rows: &[(Call, Reply)],
) {
    for (call, wanted) in rows {
        assert_eq!(rt; reply(rt, set, seat, *call), *wanted, "{call:?}");
    }
}

/// Merges all seats (per-thread handles to the set) into one seat. Returns `None` if `seats` is empty.
pub fn gathered<M: Machine>(set: &LiveSet<M>, mut seats: Vec<Seat<M>>) -> Option<Seat<M>> {
    let mut all = None;
    while let Some(seat) = seats.pop() {
        all = Some(set.gather_onto(all, seat));
    }
    all
}

/// Closes the set and returns its final keys.
pub fn keys_left<M: Machine, R: Abort>(rt: &R, set: LiveSet<M>, seat: Seat<M>) -> Vec<u32> {
    let Ok(closed) = set.close(seat) else {
        panic!(rt; "the set is not closed")
    };
    closed.keys().expect(rt, "the keys")
}

/// Closes the set and asserts its final keys.
pub fn close_with<M: Machine, R: Abort>(rt: &R, set: LiveSet<M>, seat: Seat<M>, keys: &[u32]) {
    assert_eq!(rt; keys_left(rt, set, seat).as_slice(), keys);
}

/// Returns the first `count` multiples of `step`, starting at 0.
pub fn increasing_keys<R: Abort>(rt: &R, alloc: Global, count: u32, step: u32) -> Vec<u32> {
    let mut keys = Vec::new(alloc);
    for number in 0..count {
        keys.push(number.saturating_mul(step)).expect(rt, "room");
    }
    keys
}
