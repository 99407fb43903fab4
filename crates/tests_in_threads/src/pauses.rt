//! Tests of the number of steps that each call takes. A call reports every step to its `Pause`, except the step that
//! ends the call.

use crate::opened::two_seats;
use crate::prelude::*;
use std::cell::Cell;

/// Counts the reported steps and, among them, the wrong steps: steps of a thread other than `thread`, failed steps, and
/// locks acquired after a wait.
#[derive(Drop)]
pub struct Count {
    thread: u32,
    steps: Cell<u64>,
    wrong: Cell<u64>,
}

impl Count {
    /// Creates a counter for a thread that should neither fail a compare-and-exchange nor wait for a lock.
    pub fn new(thread: u32) -> Count {
        Count {
            thread,
            steps: Cell::new(0),
            wrong: Cell::new(0),
        }
    }

    fn count(&self, is_wrong: bool) {
        self.steps.set(self.steps.get().wrapping_add(1));
        if is_wrong {
            self.wrong.set(self.wrong.get().wrapping_add(1));
        }
    }

    /// Returns the number of steps reported so far, and the number of wrong steps among them.
    pub fn so_far(&self) -> (u64, u64) {
        (self.steps.get(), self.wrong.get())
    }
}

impl Pause for Count {
    fn moved(&self, thread: u32) {
        self.count(thread != self.thread);
    }

    fn failed(&self, _thread: u32) {
        self.count(true);
    }

    fn taken(&self, _thread: u32) {
        self.count(true);
    }
}

/// Makes calls one after another from seat 1 of an empty set (the handle of thread 1), and asserts the reply and the
/// number of steps of each call.
fn makes_steps<M: Running, R: Host>(rt: &R, alloc: Global, rows: &[(Call, Reply)], steps: &[u64]) {
    let (set, _zero, mut one) = two_seats::<M, R>(rt, alloc);
    assert!(rt; rows.len() == steps.len());
    for (row, steps) in rows.iter().zip(steps) {
        let (call, wanted) = *row;
        let count = Count::new(1);
        let reply = set.call(rt, &mut one, call, &count);
        assert_eq!(rt; reply, wanted, "{call:?}");
        let (made, wrong) = count.so_far();
        assert_eq!(rt; (made.wrapping_add(1), wrong), (*steps, 0), "{call:?}");
    }
}

/// Asserts replies and numbers of steps twice: for the loops of the list, and for the interpreter of the list's step
/// table.
fn both_make_steps<M: Running, R: Host>(
    rt: &R,
    alloc: Global,
    rows: &[(Call, Reply)],
    steps: &[u64],
) {
    makes_steps::<M, R>(rt, alloc, rows, steps);
    makes_steps::<Stepped<M>, R>(rt, alloc, rows, steps);
}

const FIRST: Key = Key(0);

const LAST: Key = Key(u32::MAX);

const AT_THE_ENDS: [(Call, Reply); 6] = [
    (Call::Add(FIRST), Reply::True),
    (Call::Add(LAST), Reply::True),
    (Call::Contains(FIRST), Reply::True),
    (Call::Contains(LAST), Reply::True),
    (Call::Remove(FIRST), Reply::True),
    (Call::Remove(LAST), Reply::True),
];

#[test]
fn the_first_and_the_last_key_are_added_found_and_removed_in_the_steps_of_the_tables(
    rt: HostRuntime,
) {
    let (alloc, rows) = (rt.alloc(), AT_THE_ENDS.as_slice());
    both_make_steps::<CoarseList, HostRuntime>(&rt, alloc, rows, &[7, 9, 4, 6, 6, 6]);
    both_make_steps::<FineList, HostRuntime>(&rt, alloc, rows, &[9, 13, 6, 10, 8, 8]);
    both_make_steps::<OptimisticList, HostRuntime>(&rt, alloc, rows, &[10, 14, 7, 11, 9, 9]);
    both_make_steps::<LazyList, HostRuntime>(&rt, alloc, rows, &[11, 13, 3, 5, 10, 10]);
    both_make_steps::<LockFreeList, HostRuntime>(&rt, alloc, rows, &[6, 8, 3, 5, 6, 6]);
}

#[test]
fn a_ceiling_of_the_empty_set_is_nothing_after_the_steps_of_the_tables(rt: HostRuntime) {
    let rows = [(Call::Ceiling(Key(3)), Reply::Nothing)];
    let (alloc, rows) = (rt.alloc(), rows.as_slice());
    both_make_steps::<CoarseList, HostRuntime>(&rt, alloc, rows, &[4]);
    both_make_steps::<FineList, HostRuntime>(&rt, alloc, rows, &[6]);
    both_make_steps::<OptimisticList, HostRuntime>(&rt, alloc, rows, &[7]);
    both_make_steps::<LazyList, HostRuntime>(&rt, alloc, rows, &[2]);
    both_make_steps::<LockFreeList, HostRuntime>(&rt, alloc, rows, &[2]);
}
