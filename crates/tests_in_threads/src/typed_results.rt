//! Tests of calls with typed results: every value that a call with a typed result can return, on each list.

use crate::opened::{close_with, two_seats};
use crate::prelude::*;

/// A call: its operation, its key, and the typed result that it returns.
#[derive(Clone, Copy)]
enum Made {
    Adds(u32, Added),
    Removes(u32, bool),
    Finds(u32, bool),
    Seeks(u32, Option<Key>),
}

use Made::{Adds, Finds, Removes, Seeks};

fn makes<M: Running, R: Host>(rt: &R, set: &LiveSet<M>, seat: &mut Seat<M>, made: Made) {
    match made {
        Adds(key, added) => assert_eq!(rt; seat.add(rt, set, Key(key)), added, "{key}"),
        Removes(key, there) => assert_eq!(rt; seat.remove(rt, set, Key(key)), there, "{key}"),
        Finds(key, there) => assert_eq!(rt; seat.contains(rt, set, Key(key)), there, "{key}"),
        Seeks(key, found) => assert!(rt; seat.ceiling(rt, set, Key(key)) == found, "{key}"),
    }
}

/// Asserts that "quota used up" and "already present" are different results. A seat (per-thread handle to the set) that
/// has added its 4 keys cannot add a new key, but its `add` of a present key still returns "already present". The other
/// seat can still add 4 keys.
fn tells_full_from_already<M: Running, R: Host>(rt: &R, alloc: Global) {
    let (set, mut zero, mut one) = two_seats::<M, R>(rt, alloc);
    makes(rt, &set, &mut zero, Adds(7, Added::New));
    makes(rt, &set, &mut zero, Adds(7, Added::Already));
    makes(rt, &set, &mut one, Adds(7, Added::Already));
    makes(rt, &set, &mut zero, Adds(0, Added::New));
    makes(rt, &set, &mut zero, Adds(9, Added::New));
    makes(rt, &set, &mut zero, Adds(u32::MAX, Added::New));
    makes(rt, &set, &mut zero, Adds(5, Added::Full));
    makes(rt, &set, &mut zero, Adds(9, Added::Already));
    makes(rt, &set, &mut one, Adds(5, Added::New));
    makes(rt, &set, &mut zero, Adds(5, Added::Already));
    set.gather(&mut zero, one);
    close_with(rt, set, zero, &[0, 5, 7, 9, u32::MAX]);
}

#[test]
fn add_returns_new_already_or_full(rt: HostRuntime) {
    at_each_list!(tells_full_from_already, rt);
}

fn tells_whether_it_was_there<M: Running, R: Host>(rt: &R, alloc: Global) {
    let (set, mut zero, mut one) = two_seats::<M, R>(rt, alloc);
    makes(rt, &set, &mut zero, Removes(7, false));
    makes(rt, &set, &mut zero, Finds(7, false));
    makes(rt, &set, &mut one, Adds(7, Added::New));
    makes(rt, &set, &mut zero, Finds(7, true));
    makes(rt, &set, &mut zero, Finds(8, false));
    makes(rt, &set, &mut zero, Removes(8, false));
    makes(rt, &set, &mut zero, Removes(7, true));
    makes(rt, &set, &mut one, Removes(7, false));
    makes(rt, &set, &mut one, Finds(7, false));
    set.gather(&mut zero, one);
    close_with(rt, set, zero, &[]);
}

#[test]
fn remove_and_contains_return_whether_the_key_was_present(rt: HostRuntime) {
    at_each_list!(tells_whether_it_was_there, rt);
}

fn tells_the_smallest_key<M: Running, R: Host>(rt: &R, alloc: Global) {
    let (set, mut zero, mut one) = two_seats::<M, R>(rt, alloc);
    makes(rt, &set, &mut zero, Seeks(0, None));
    makes(rt, &set, &mut zero, Adds(7, Added::New));
    makes(rt, &set, &mut one, Adds(3, Added::New));
    makes(rt, &set, &mut zero, Seeks(0, Some(Key(3))));
    makes(rt, &set, &mut zero, Seeks(3, Some(Key(3))));
    makes(rt, &set, &mut one, Seeks(4, Some(Key(7))));
    makes(rt, &set, &mut one, Seeks(8, None));
    makes(rt, &set, &mut zero, Removes(7, true));
    makes(rt, &set, &mut one, Seeks(4, None));
}

#[test]
fn ceiling_returns_a_key_or_none(rt: HostRuntime) {
    at_each_list!(tells_the_smallest_key, rt);
}

/// Adds the key 9. Returns the seat (per-thread handle to the set), and whether the key was new.
fn claim<M: Running, R: Wait>(rt: &R, set: &LiveSet<M>, mut seat: Seat<M>) -> (Seat<M>, Added) {
    let added = seat.add(rt, set, Key(9));
    (seat, added)
}

/// Adds the key 9 from two seats (per-thread handles to the set) at the same time, each in its own thread.
fn claim_at_once<M: Running + Send + Sync, R: Threads + Wait + Sync>(
    rt: &R,
    set: &LiveSet<M>,
    zero: Seat<M>,
    one: Seat<M>,
) -> ((Seat<M>, Added), (Seat<M>, Added)) {
    join(
        rt,
        move || claim(rt, set, zero),
        move || claim(rt, set, one),
    )
}

fn is_new_to_one_thread<M: Running + Send + Sync, R: Host>(rt: &R, alloc: Global) {
    let (set, zero, one) = two_seats::<M, R>(rt, alloc);
    let ((mut zero, first), (one, second)) = claim_at_once(rt, &set, zero, one);
    assert!(rt; first != second && first != Added::Full && second != Added::Full);
    set.gather(&mut zero, one);
    close_with(rt, set, zero, &[9]);
}

#[test]
fn one_of_two_adds_at_once_is_new(rt: HostRuntime) {
    at_each_list!(is_new_to_one_thread, rt);
}
