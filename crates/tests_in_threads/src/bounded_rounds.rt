//! Tests of calls that may make only a bounded number of rounds in each loop. A call must need the expected number of
//! rounds, and must give up at a lock that is never released.

use crate::opened::two_seats_on;
use crate::pauses::Count;
use crate::prelude::*;
use lset_live::Rounds;

/// A bound of `N` rounds for each loop of a call.
struct UpTo<const N: u64>;

impl<const N: u64> Rounds for UpTo<N> {
    const MOST: u64 = N;
}

/// The keys of a set at the start. In each round of its loop, a call compares one key: each key that is smaller than
/// the call's key, and then the first key that is not smaller.
const KEYS: [u32; 5] = [10, 20, 30, 40, 50];

/// Opens a set and makes a call with at most `N` rounds in each loop. Returns the reply, or `None` if the call needs
/// more rounds.
fn reply_of<M: Bounded, R: Abort, N: Rounds>(rt: &R, alloc: Global, call: Call) -> Option<Reply> {
    let (set, zero, _one) = two_seats_on::<M, R>(rt, alloc, &KEYS);
    let (_zero, reply) = set.call_within::<Spin, N>(zero, call, &Spin::new())?;
    Some(reply)
}

/// Asserts that an `add` of 25 and a `remove` of 30 need three rounds to find their place in the list, and that a
/// `ceiling` of 25 needs more than one.
fn has_rounds<M: Bounded, R: Abort>(rt: &R, alloc: Global) {
    for call in [Call::Add(Key(25)), Call::Remove(Key(30))] {
        assert!(rt; reply_of::<M, R, UpTo<2>>(rt, alloc, call).is_none());
        assert!(rt; reply_of::<M, R, UpTo<3>>(rt, alloc, call) == Some(Reply::True));
        assert!(rt; reply_of::<M, R, Countless>(rt, alloc, call) == Some(Reply::True));
    }
    let sought = Call::Ceiling(Key(25));
    assert!(rt; reply_of::<M, R, UpTo<1>>(rt, alloc, sought).is_none());
    assert!(rt; reply_of::<M, R, UpTo<100>>(rt, alloc, sought) == Some(Reply::At(Key(30))));
}

#[test]
fn a_call_gives_up_after_its_rounds_and_not_before(rt: HostRuntime) {
    at_each_list!(has_rounds, rt);
}

/// Asserts that `contains` searches the whole list even with a bound of one round.
fn walks_on<M: Bounded, R: Abort>(rt: &R, alloc: Global) {
    let (last, none) = (Call::Contains(Key(50)), Call::Contains(Key(55)));
    assert!(rt; reply_of::<M, R, UpTo<1>>(rt, alloc, last) == Some(Reply::True));
    assert!(rt; reply_of::<M, R, UpTo<1>>(rt, alloc, none) == Some(Reply::False));
}

#[test]
fn contains_of_a_marking_list_ignores_the_bound(rt: HostRuntime) {
    walks_on::<LazyList, HostRuntime>(&rt, rt.alloc());
    walks_on::<LockFreeList, HostRuntime>(&rt, rt.alloc());
}

/// Returns a set and one of its two seats (per-thread handles to the set). A call from the other seat ran out of rounds
/// and still holds its locks.
fn stuck<M: Bounded, R: Abort>(rt: &R, alloc: Global) -> (LiveSet<M>, Seat<M>) {
    let (set, zero, one) = two_seats_on::<M, R>(rt, alloc, &KEYS);
    let made = set.call_within::<Spin, UpTo<2>>(one, Call::Add(Key(25)), &Spin::new());
    assert!(rt; made.is_none());
    (set, zero)
}

/// Asserts that a call gives up at a lock that is never released, after 101 failed attempts with a bound of 100 rounds.
fn gives_up_at_a_lock<M: Bounded, R: Abort>(rt: &R, alloc: Global, call: Call) {
    let (set, zero) = stuck::<M, R>(rt, alloc);
    let count = Count::new(0);
    let found = set.call_within::<Count, UpTo<100>>(zero, call, &count);
    assert!(rt; found.is_none());
    assert_eq!(rt; count.so_far().1, 101);
}

#[test]
fn a_call_gives_up_at_a_lock_after_its_rounds(rt: HostRuntime) {
    gives_up_at_a_lock::<CoarseList, HostRuntime>(&rt, rt.alloc(), Call::Contains(Key(10)));
    gives_up_at_a_lock::<FineList, HostRuntime>(&rt, rt.alloc(), Call::Contains(Key(30)));
}
