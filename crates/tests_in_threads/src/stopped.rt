//! Tests of two calls at the same time, from two seats (per-thread handles to the set). One call stops between two of
//! its steps until the other call has ended or waits (three of its compare-and-exchanges have failed). Each case runs
//! twice: with the loops of the list, and with the interpreter of the list's step table.

use crate::meeting::{calls, comes};
use crate::opened::two_seats_on;
use crate::prelude::*;

/// A step number that is never reached.
const NEVER: u64 = u64::MAX;

/// A test thread: the step (counted from 0) after which it stops, how many steps its call has reported to the `Pause`,
/// how many of these steps were failed compare-and-exchanges, whether the thread has stopped, and whether its call has
/// ended.
#[derive(Drop)]
struct Told {
    stops_at: u64,
    steps: AtomicU64,
    failed: AtomicU64,
    has_stopped: AtomicBool,
    has_ended: AtomicBool,
}

impl Told {
    fn new(stops_at: u64) -> Told {
        Told {
            stops_at,
            steps: AtomicU64::new(0),
            failed: AtomicU64::new(0),
            has_stopped: AtomicBool::new(false),
            has_ended: AtomicBool::new(false),
        }
    }

    /// Counts a step. Returns `true` if the thread must stop after the counted step.
    fn stops(&self, failed: bool) -> bool {
        if failed {
            self.failed.fetch_add(1, Ordering::SeqCst);
        }
        let stops = self.steps.fetch_add(1, Ordering::SeqCst) == self.stops_at;
        if stops {
            self.has_stopped.store(true, Ordering::SeqCst);
        }
        stops
    }

    fn has_failed_thrice(&self) -> bool {
        self.failed.load(Ordering::SeqCst) >= 3
    }

    /// Returns the number of reported steps, and the number of failed steps among them. The step that ends the call is
    /// not reported.
    fn counts(&self) -> (u64, u64) {
        let steps = self.steps.load(Ordering::SeqCst);
        (steps, self.failed.load(Ordering::SeqCst))
    }
}

/// A `Pause` for tests with two threads. Thread 1 stops until thread 0 has ended its call or has failed three times.
/// Thread 0 stops until thread 1 has stopped.
#[derive(Drop)]
struct Stopping<'a, R> {
    rt: &'a R,
    zero: Told,
    one: Told,
    missed: AtomicBool,
}

impl<'a, R: Clock> Stopping<'a, R> {
    fn new(rt: &'a R, zero_at: u64, one_at: u64) -> Stopping<'a, R> {
        Stopping {
            rt,
            zero: Told::new(zero_at),
            one: Told::new(one_at),
            missed: AtomicBool::new(false),
        }
    }

    fn goes_on(&self, thread: u32) -> bool {
        match thread {
            0 => self.one.has_stopped.load(Ordering::SeqCst),
            _ => self.zero.has_ended.load(Ordering::SeqCst) || self.zero.has_failed_thrice(),
        }
    }

    /// Waits until the thread may continue. Polls every millisecond, at most 10,000 times.
    fn wait(&self, thread: u32) {
        for _ in 0..10_000 {
            if self.goes_on(thread) {
                return;
            }
            thread::sleep(self.rt, Duration::from_millis(1));
        }
        self.missed.store(true, Ordering::SeqCst);
    }

    fn asked(&self, thread: u32, failed: bool) {
        let told = if thread == 0 { &self.zero } else { &self.one };
        if told.stops(failed) {
            self.wait(thread);
        }
    }

    /// Returns `true` if each thread stopped as required and no thread gave up waiting.
    fn was_held(&self) -> bool {
        let zero = self.zero.stops_at == NEVER || self.zero.has_stopped.load(Ordering::SeqCst);
        zero && self.one.has_stopped.load(Ordering::SeqCst) && !self.missed.load(Ordering::SeqCst)
    }
}

impl<'a, R: Clock> Pause for Stopping<'a, R> {
    fn moved(&self, thread: u32) {
        self.asked(thread, false);
    }

    fn failed(&self, thread: u32) {
        self.asked(thread, true);
    }
}

/// Makes a call from each of two seats (per-thread handles to the set), in two threads. The thread that must stop first
/// starts first. The other thread starts when the first thread has stopped.
fn both_call<M: Running + Send + Sync, R: Host>(
    rt: &R,
    set: &LiveSet<M>,
    seats: (Seat<M>, Seat<M>),
    both: (Call, Call),
    stopping: &Stopping<'_, R>,
) -> (Reply, Reply) {
    let now = AtomicBool::new(true);
    let (zero_starts, one_starts) = if stopping.zero.stops_at == NEVER {
        (&stopping.one.has_stopped, &now)
    } else {
        (&now, &stopping.zero.has_stopped)
    };
    let (zero, one) = seats;
    let of_zero = (zero_starts, &stopping.zero.has_ended);
    let of_one = (one_starts, &stopping.one.has_ended);
    join(
        rt,
        move || calls(rt, set, zero, both.0, stopping, of_zero),
        move || calls(rt, set, one, both.1, stopping, of_one),
    )
}

/// A call from one seat (per-thread handle to the set) and its expected results. The fields are the call, the step
/// after which the call stops (counted from 0), its reply, the number of its steps before the last one, and the number
/// of failed steps among them.
type Part = (Call, u64, Reply, u64, u64);

fn is_as_told<M: Running + Send + Sync, R: Host>(
    rt: &R,
    alloc: Global,
    before: &[u32],
    zero: Part,
    one: Part,
) {
    let (set, first, second) = two_seats_on::<M, R>(rt, alloc, before);
    let stopping = Stopping::new(rt, zero.1, one.1);
    let replies = both_call(rt, &set, (first, second), (zero.0, one.0), &stopping);
    assert!(rt; stopping.was_held());
    assert_eq!(rt; replies, (zero.2, one.2));
    assert_eq!(rt; stopping.zero.counts(), (zero.3, zero.4), "seat 0");
    assert_eq!(rt; stopping.one.counts(), (one.3, one.4), "seat 1");
}

/// Asserts the results of a case for the loops of the list and for the interpreter of the list's step table.
fn both_are<M: Running + Send + Sync, R: Host>(
    rt: &R,
    alloc: Global,
    before: &[u32],
    both: [Part; 2],
) {
    let [zero, one] = both;
    is_as_told::<M, R>(rt, alloc, before, zero, one);
    is_as_told::<Stepped<M>, R>(rt, alloc, before, zero, one);
}

const YES: Reply = Reply::True;

const NO: Reply = Reply::False;

fn add(key: u32) -> Call {
    Call::Add(Key(key))
}

fn remove(key: u32) -> Call {
    Call::Remove(Key(key))
}

#[test]
fn attempts_fail_while_the_coarse_lock_is_held(rt: HostRuntime) {
    let both = [(add(5), 0, YES, 6, 0), (add(5), 2, NO, 6, 3)];
    both_are::<CoarseList, HostRuntime>(&rt, rt.alloc(), &[], both);
}

#[test]
fn fine_calls_lock_hand_over_hand(rt: HostRuntime) {
    let both = [(add(5), 3, YES, 8, 0), (remove(9), 1, YES, 13, 2)];
    both_are::<FineList, HostRuntime>(&rt, rt.alloc(), &[9], both);
}

#[test]
fn optimistic_validation_fails_if_pred_is_unlinked_before_it_is_locked(rt: HostRuntime) {
    let both = [(remove(3), NEVER, YES, 8, 0), (add(5), 3, YES, 19, 0)];
    both_are::<OptimisticList, HostRuntime>(&rt, rt.alloc(), &[3], both);
}

#[test]
fn optimistic_validation_fails_if_pred_has_another_link(rt: HostRuntime) {
    let both = [(add(4), NEVER, YES, 9, 0), (add(5), 1, YES, 20, 0)];
    both_are::<OptimisticList, HostRuntime>(&rt, rt.alloc(), &[], both);
}

#[test]
fn one_of_two_lazy_removes_finds_the_key_gone(rt: HostRuntime) {
    let both = [(remove(5), 3, YES, 9, 0), (remove(5), 3, NO, 16, 2)];
    both_are::<LazyList, HostRuntime>(&rt, rt.alloc(), &[5], both);
}

#[test]
fn lazy_validation_fails_if_pred_has_another_link(rt: HostRuntime) {
    let both = [(add(4), NEVER, YES, 12, 0), (add(5), 2, YES, 23, 0)];
    both_are::<LazyList, HostRuntime>(&rt, rt.alloc(), &[3], both);
}

#[test]
fn one_of_two_lock_free_removes_fails_to_mark(rt: HostRuntime) {
    let both = [(remove(5), NEVER, YES, 5, 0), (remove(5), 3, NO, 7, 1)];
    both_are::<LockFreeList, HostRuntime>(&rt, rt.alloc(), &[5], both);
}

#[test]
fn a_lock_free_add_fails_at_a_marked_pred_and_unlinks_it(rt: HostRuntime) {
    let both = [(add(5), 6, YES, 15, 1), (remove(3), 4, YES, 5, 0)];
    both_are::<LockFreeList, HostRuntime>(&rt, rt.alloc(), &[3], both);
}

#[test]
fn a_lock_free_add_fails_if_its_link_has_changed(rt: HostRuntime) {
    let both = [(add(2), NEVER, YES, 5, 0), (add(1), 4, YES, 11, 1)];
    both_are::<LockFreeList, HostRuntime>(&rt, rt.alloc(), &[9], both);
}

#[test]
fn a_ceiling_starts_again_at_a_marked_key(rt: HostRuntime) {
    let both = [
        (remove(5), NEVER, YES, 5, 0),
        (Call::Ceiling(Key(3)), 1, Reply::Nothing, 4, 0),
    ];
    both_are::<LockFreeList, HostRuntime>(&rt, rt.alloc(), &[5], both);
}

#[test]
fn a_ceiling_misses_a_key_added_before_its_position(rt: HostRuntime) {
    let both = [
        (add(5), NEVER, YES, 5, 0),
        (Call::Ceiling(Key(3)), 0, Reply::At(Key(9)), 2, 0),
    ];
    both_are::<LockFreeList, HostRuntime>(&rt, rt.alloc(), &[9], both);
}

/// Asserts that seat 0 attempts at least three times to acquire a lock that seat 1 holds. (A seat is one thread's
/// handle to the set.) Seat 1 acquires the lock of the list, or of the list's head, in step `locks_at` (counted from
/// 0).
fn waits_at_a_lock<M: Running + Send + Sync, R: Host>(rt: &R, alloc: Global, locks_at: u64) {
    let (set, zero, one) = two_seats_on::<M, R>(rt, alloc, &[]);
    let stopping = Stopping::new(rt, NEVER, locks_at);
    let replies = both_call(rt, &set, (zero, one), (add(2), add(1)), &stopping);
    assert_eq!(rt; replies, (YES, YES));
    assert!(rt; stopping.was_held() && stopping.zero.has_failed_thrice());
    assert!(rt; stopping.one.counts().1 == 0);
}

#[test]
fn a_call_waits_for_a_lock_that_another_seat_holds(rt: HostRuntime) {
    waits_at_a_lock::<CoarseList, HostRuntime>(&rt, rt.alloc(), 0);
    waits_at_a_lock::<FineList, HostRuntime>(&rt, rt.alloc(), 0);
    waits_at_a_lock::<OptimisticList, HostRuntime>(&rt, rt.alloc(), 2);
    waits_at_a_lock::<LazyList, HostRuntime>(&rt, rt.alloc(), 2);
}

/// Waits until the call of the other seat (per-thread handle to the set) has stopped. Then looks for the key 10 with
/// `contains_now` and `contains`, and for the smallest key above 10. Returns the replies.
fn reads<M: RunningReads, R: Clock + Wait>(
    rt: &R,
    set: &LiveSet<M>,
    mut seat: Seat<M>,
    flags: (&AtomicBool, &AtomicBool),
) -> (bool, Reply, Reply) {
    let _came = comes(rt, flags.0);
    let looked = set.contains_now(&mut seat, Key(10));
    let asked = set.contains(rt, &mut seat, Key(10));
    let sought = set.ceiling(rt, &mut seat, Key(11));
    flags.1.store(true, Ordering::SeqCst);
    (looked, asked, sought)
}

/// Removes the key 10 with a call from seat 1 (per-thread handle to the set), and stops the call after step `stops_at`
/// until seat 0 has looked for the key 10. The set also contains the key 20. Returns the replies.
fn reads_beside<M: RunningReads + Send + Sync, R: Host>(
    rt: &R,
    alloc: Global,
    stops_at: u64,
) -> (Reply, (bool, Reply, Reply)) {
    let (set, zero, one) = two_seats_on::<M, R>(rt, alloc, &[10, 20]);
    let stopping = Stopping::new(rt, NEVER, stops_at);
    let (set, stopping, now) = (&set, &stopping, &AtomicBool::new(true));
    let of_zero = (&stopping.one.has_stopped, &stopping.zero.has_ended);
    let of_one = (now, &stopping.one.has_ended);
    let found = join(
        rt,
        move || calls(rt, set, one, remove(10), stopping, of_one),
        move || reads(rt, set, zero, of_zero),
    );
    assert!(rt; stopping.was_held());
    found
}

/// Asserts that seat 0 (per-thread handle to the set) finds the key 10 if the `remove` of seat 1 stops after step
/// `before`, when it has not marked the node, and does not find the key if the `remove` stops after step `behind`, when
/// it has marked the node.
fn answers_beside<M: RunningReads + Send + Sync, R: Host>(
    rt: &R,
    alloc: Global,
    before: u64,
    behind: u64,
) {
    let there = (YES, (true, YES, Reply::At(Key(20))));
    assert_eq!(rt; reads_beside::<M, R>(rt, alloc, before), there);
    let gone = (YES, (false, NO, Reply::At(Key(20))));
    assert_eq!(rt; reads_beside::<M, R>(rt, alloc, behind), gone);
}

/// A `remove` on a LazyList holds both locks after its fourth step, and has marked the node after its seventh. A
/// `remove` on a LockFreeList has marked the node after its fifth step.
#[test]
fn contains_now_returns_while_another_thread_holds_locks(rt: HostRuntime) {
    answers_beside::<LazyList, HostRuntime>(&rt, rt.alloc(), 3, 6);
}

#[test]
fn contains_now_returns_while_another_call_is_pending(rt: HostRuntime) {
    answers_beside::<LockFreeList, HostRuntime>(&rt, rt.alloc(), 3, 4);
}
