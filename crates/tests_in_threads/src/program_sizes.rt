//! Runs programs (lists of calls, one for each thread) of many sizes in threads, and compares the replies with a model.
//! The sizes are random up to each limit, and each order of magnitude is equally likely.
//!
//! Thread `t` of `n` uses only the keys with the remainder `t` modulo `n`. The model of a thread is a sequential set of
//! the thread's keys. Therefore the thread's replies, except to `ceiling`, do not depend on the other threads.

use crate::opened::{increasing_keys, keys_left, last_of, make_calls};
use crate::prelude::*;
use crate::programs::worked;
use std::collections::BTreeSet;

/// The sizes of a set and of the programs on the set. `last` is the largest key, and `calls` is the number of calls of
/// all threads together.
#[derive(Clone, Copy, Debug)]
pub struct Sizes {
    threads: u32,
    quota: u32,
    opening: u32,
    calls: u32,
    last: u32,
}

/// A random number generator (Knuth's linear congruential generator).
#[derive(Drop)]
pub struct Draws {
    number: u64,
}

impl Draws {
    pub fn new(seed: u64) -> Draws {
        Draws { number: seed }
    }

    fn up_to(&mut self, most: u32) -> u32 {
        self.number = self
            .number
            .wrapping_mul(6_364_136_223_846_793_005)
            .wrapping_add(1_442_695_040_888_963_407);
        let drawn = (self.number >> 32) % u64::from(most).wrapping_add(1).max(1);
        u32::try_from(drawn).unwrap_or(most)
    }

    /// Returns a random number from 0 to `most`. Each order of magnitude is equally likely, and one number in eight is
    /// `most` itself.
    fn log_uniform(&mut self, most: u32) -> u32 {
        if self.up_to(7) == 0 {
            return most;
        }
        let mut drawn = self.up_to(most);
        for _ in 0..self.up_to(most.checked_ilog2().unwrap_or(0)) {
            drawn /= 2;
        }
        drawn
    }

    fn sizes(&mut self) -> Sizes {
        let threads = self.log_uniform(MOST_THREADS - 1).saturating_add(1);
        let quota = self.log_uniform(MOST_QUOTA);
        let opening = self.log_uniform(MOST_OPENING);
        let calls = self.log_uniform(200_000);
        Sizes::new(threads, quota, opening, calls, self.log_uniform(u32::MAX))
    }

    fn call(&mut self, key: Key, has_ceilings: bool) -> Call {
        match self.up_to(3) {
            0 => Call::Add(key),
            1 => Call::Remove(key),
            2 if has_ceilings => Call::Ceiling(key),
            _ => Call::Contains(key),
        }
    }
}

/// A rough limit on the number of nodes that all calls of a run visit together. The limit keeps runs short.
const MOST_PASSED: u64 = 5_000_000;

impl Sizes {
    pub fn new(threads: u32, quota: u32, opening: u32, calls: u32, last: u32) -> Sizes {
        Sizes {
            threads,
            quota,
            opening,
            calls,
            last,
        }
    }

    /// Returns the number of calls of a thread. If the list can have many nodes, threads make fewer calls.
    fn calls_of(&self, thread: u32) -> u32 {
        let slots = u64::from(self.threads) * u64::from(self.quota);
        let added = slots.min(u64::from(self.last)).min(u64::from(self.calls));
        let passed = u64::from(self.opening).saturating_add(added).max(40);
        let calls = u64::from(self.calls).min(MOST_PASSED / passed.max(1));
        let (threads, calls) = (self.threads.max(1), u32::try_from(calls).unwrap_or(0));
        (calls / threads).saturating_add(u32::from(thread < calls % threads))
    }

    /// Returns a key near `drawn` that only this thread uses.
    fn own_key(&self, drawn: u32, thread: u32) -> Key {
        let others = drawn.checked_rem(self.threads).unwrap_or(0);
        let first = drawn.wrapping_sub(others);
        Key(first.checked_add(thread).unwrap_or(thread))
    }

    fn is_own(&self, key: u32, thread: u32) -> bool {
        key.checked_rem(self.threads) == Some(thread)
    }

    /// Returns one program (list of calls) for each thread.
    ///
    /// If several threads use a LockFreeList, the programs do not call `ceiling`. A `remove` can leave a marked node in
    /// the chain, and a `ceiling` that reaches the marked node restarts until an `add` or `remove` walks past the node.
    /// If only such ceilings were left, none of them would end.
    fn programs<M: Machine, R: Abort>(
        &self,
        rt: &R,
        alloc: Global,
        draws: &mut Draws,
    ) -> Vec<Vec<Call>> {
        let has_ceilings = self.threads == 1 || M::KIND != Kind::LockFree;
        let mut programs = Vec::new(alloc);
        for thread in 0..self.threads {
            let mut program = Vec::new(alloc);
            for _ in 0..self.calls_of(thread) {
                let drawn = draws.log_uniform(self.last);
                let key = self.own_key(drawn, thread);
                program
                    .push(draws.call(key, has_ceilings))
                    .expect(rt, "room");
            }
            programs.push(program).expect(rt, "room");
        }
        programs
    }
}

fn truth(is_true: bool) -> Reply {
    if is_true { Reply::True } else { Reply::False }
}

/// The sequential set with the keys of one thread, and the number of keys that the thread can still add.
#[derive(Drop)]
struct Model {
    sizes: Sizes,
    thread: u32,
    keys: BTreeSet<u32>,
    slots: u32,
}

impl Model {
    fn new<R: Abort>(rt: &R, alloc: Global, sizes: Sizes, thread: u32, opening: &[u32]) -> Model {
        let mut keys = BTreeSet::new(alloc);
        for key in opening {
            if sizes.is_own(*key, thread) {
                keys.insert(*key).expect(rt, "room");
            }
        }
        Model {
            sizes,
            thread,
            keys,
            slots: sizes.quota,
        }
    }

    /// Makes a call on the model. Returns `true` if the reply is correct.
    fn makes<R: Abort>(&mut self, rt: &R, call: Call, reply: Reply) -> bool {
        match call {
            Call::Add(key) => reply == self.add(rt, key.0),
            Call::Remove(key) => reply == truth(self.keys.remove(&key.0)),
            Call::Contains(key) => reply == truth(self.keys.contains(&key.0)),
            Call::Ceiling(key) => self.may_find(key.0, reply),
        }
    }

    fn add<R: Abort>(&mut self, rt: &R, key: u32) -> Reply {
        if self.keys.contains(&key) {
            return Reply::False;
        }
        if self.slots == 0 {
            return Reply::Full;
        }
        self.slots = self.slots.saturating_sub(1);
        self.keys.insert(key).expect(rt, "room");
        Reply::True
    }

    /// Returns `true` if `reply` is possible for a `ceiling` of `key`. The reply can be a key of another thread that is
    /// below the next key of the model's thread.
    fn may_find(&self, key: u32, reply: Reply) -> bool {
        let own = self.keys.range(key..).next();
        match (reply, own) {
            (Reply::At(found), Some(own)) if self.sizes.is_own(found.0, self.thread) => found.0
                == *own,
            (Reply::At(found), Some(own)) => key <= found.0 && found.0 < *own,
            (Reply::At(found), None) => key <= found.0 && !self.sizes.is_own(found.0, self.thread),
            (reply, None) => reply == Reply::Nothing,
            (_, Some(_)) => false,
        }
    }

    /// Returns `true` if all replies to a program are correct, and the thread's keys in `left` are exactly the keys of
    /// the model.
    fn is_as_wanted<R: Abort>(
        &mut self,
        rt: &R,
        program: &[Call],
        replies: &[Reply],
        left: &[u32],
    ) -> bool {
        let mut is_right = program.len() == replies.len();
        for (call, reply) in program.iter().zip(replies) {
            is_right = self.makes(rt, *call, *reply) && is_right;
        }
        let mut found = 0usize;
        for key in left {
            if self.sizes.is_own(*key, self.thread) {
                found = found.saturating_add(1);
                is_right = self.keys.contains(key) && is_right;
            }
        }
        is_right && found == self.keys.len()
    }
}

/// Runs programs in threads on a set that opens with the keys `opening`. Asserts that each thread's model, a sequential
/// set of the thread's keys, returns the same replies as the set and has the same final keys. Returns the final keys.
pub fn runs_beside_models<M: Running + Send + Sync, R: Host>(
    rt: &R,
    alloc: Global,
    sizes: Sizes,
    opening: &[u32],
    draws: &mut Draws,
) -> Vec<u32> {
    let number = draws.number;
    let drawn = sizes.programs::<M, R>(rt, alloc, &mut Draws::new(number));
    let again = sizes.programs::<M, R>(rt, alloc, draws);
    let opened = open_with::<M>(alloc, sizes.threads, sizes.quota, opening);
    let (set, seats) = opened.expect(rt, "not opened");
    let outcome = worked(rt, alloc, set, seats, drawn, &Always);
    assert!(rt; outcome.replies.len() == again.len());
    for (thread, (program, replies)) in (0..).zip(again.iter().zip(&outcome.replies)) {
        let mut model = Model::new(rt, alloc, sizes, thread, opening);
        let is_right = model.is_as_wanted(rt, program, replies, &outcome.keys);
        assert!(rt; is_right, "{sizes:?} thread {thread}");
    }
    outcome.keys
}

/// Sizes that reach the limits. In two of the cases, one with one thread and one with three threads, more than 65,536
/// calls are made.
fn at_the_limits() -> [Sizes; 4] {
    [
        Sizes::new(MOST_THREADS, MOST_QUOTA, MOST_OPENING, 64, u32::MAX),
        Sizes::new(MOST_THREADS, 0, 0, 0, u32::MAX),
        Sizes::new(1, MOST_QUOTA, 0, 90_000, 20),
        Sizes::new(3, MOST_QUOTA, 9, 70_000, 60),
    ]
}

fn runs<M: Running + Send + Sync, R: Host>(rt: &R, alloc: Global, sizes: Sizes, draws: &mut Draws) {
    let step = u32::MAX / sizes.opening.max(1);
    let opening = increasing_keys(
        rt,
        alloc,
        sizes.opening,
        step.min(1 + draws.log_uniform(4_000)),
    );
    let _left = runs_beside_models::<M, R>(rt, alloc, sizes, &opening, draws);
}

/// The number of runs with random sizes on each list.
const RUNS: u32 = 8;

fn calls_succeed<M: Running + Send + Sync, R: Host>(rt: &R, alloc: Global, seed: u64) {
    let mut draws = Draws::new(seed);
    for sizes in at_the_limits() {
        runs::<M, R>(rt, alloc, sizes, &mut draws);
    }
    for _ in 0..RUNS {
        let sizes = draws.sizes();
        runs::<M, R>(rt, alloc, sizes, &mut draws);
    }
}

#[test]
fn coarse_calls_succeed_at_all_sizes(rt: HostRuntime) {
    calls_succeed::<CoarseList, HostRuntime>(&rt, rt.alloc(), 1);
}

#[test]
fn fine_calls_succeed_at_all_sizes(rt: HostRuntime) {
    calls_succeed::<FineList, HostRuntime>(&rt, rt.alloc(), 2);
}

#[test]
fn optimistic_calls_succeed_at_all_sizes(rt: HostRuntime) {
    calls_succeed::<OptimisticList, HostRuntime>(&rt, rt.alloc(), 3);
}

#[test]
fn lazy_calls_succeed_at_all_sizes(rt: HostRuntime) {
    calls_succeed::<LazyList, HostRuntime>(&rt, rt.alloc(), 4);
}

#[test]
fn lock_free_calls_succeed_at_all_sizes(rt: HostRuntime) {
    calls_succeed::<LockFreeList, HostRuntime>(&rt, rt.alloc(), 5);
}

/// Adds `count` keys from `first` on, in decreasing order. Therefore each new node directly follows the head.
fn fill<M: Running, R: Wait>(rt: &R, set: &LiveSet<M>, seat: &mut Seat<M>, first: u32, count: u32) {
    for number in (0..count).rev() {
        let _reply = set.add(rt, seat, Key(first.saturating_add(number)));
    }
}

/// Opens a set of the maximum size and uses up the quota (successful adds) of each seat (per-thread handle to the set).
/// All added keys are smaller than the opening keys (the keys at the start).
fn filled<M: Running, R: Host>(rt: &R, alloc: Global, opening: &[u32]) -> (LiveSet<M>, Seat<M>) {
    let opened = open_with::<M>(alloc, MOST_THREADS, MOST_QUOTA, opening);
    let (set, mut seats) = opened.expect(rt, "not opened");
    let mut all = None;
    for thread in (0..MOST_THREADS).rev() {
        let mut seat = last_of(rt, &set, &mut seats);
        fill(
            rt,
            &set,
            &mut seat,
            thread.wrapping_mul(MOST_QUOTA),
            MOST_QUOTA,
        );
        all = Some(set.gather_onto(all, seat));
    }
    (set, all.expect(rt, "no seat"))
}

const SLOTS: u32 = MOST_THREADS * MOST_QUOTA;

const LAST: Key = Key(SLOTS + MOST_OPENING - 1);

const PAST_ALL: [(Call, Reply); 5] = [
    (Call::Contains(LAST), Reply::True),
    (Call::Add(Key(u32::MAX)), Reply::Full),
    (Call::Ceiling(LAST), Reply::At(LAST)),
    (Call::Remove(LAST), Reply::True),
    (Call::Ceiling(LAST), Reply::Nothing),
];

/// Asserts that calls work on a set of the maximum size, in which every node has a key.
fn is_filled<M: Running, R: Host>(rt: &R, alloc: Global) {
    let mut opening = Vec::new(alloc);
    for number in 0..MOST_OPENING {
        opening
            .push(SLOTS.saturating_add(number))
            .expect(rt, "room");
    }
    let (set, mut seat) = filled::<M, R>(rt, alloc, &opening);
    make_calls(rt, &set, &mut seat, &PAST_ALL);
    let keys = keys_left(rt, set, seat);
    assert!(rt; keys.len() == (SLOTS + MOST_OPENING - 1) as usize);
    assert!(rt; (0..).zip(&keys).all(|(number, key)| number == *key));
}

#[test]
fn each_slot_of_the_largest_set_with_locks_takes_a_key(rt: HostRuntime) {
    is_filled::<CoarseList, HostRuntime>(&rt, rt.alloc());
    is_filled::<FineList, HostRuntime>(&rt, rt.alloc());
    is_filled::<OptimisticList, HostRuntime>(&rt, rt.alloc());
}

#[test]
fn each_slot_of_the_largest_set_with_marks_takes_a_key(rt: HostRuntime) {
    is_filled::<LazyList, HostRuntime>(&rt, rt.alloc());
    is_filled::<LockFreeList, HostRuntime>(&rt, rt.alloc());
}
