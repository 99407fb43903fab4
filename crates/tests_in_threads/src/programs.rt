//! Tests of programs (lists of calls) in threads, and of the gates (callbacks) that can stop a program before a call.
//! Each program runs on a seat, a per-thread handle to the set.

use crate::meeting::Meeting;
use crate::opened::{last_of, make_calls, two_seats};
use crate::prelude::*;
use crate::seats::ADDS;
use lset_schedule::programs;
use lset_work::{Outcome, WorkCause, WorkFault, work};
use std::sync::atomic::AtomicU32;

/// Runs programs in threads and returns their replies and the final keys. Fails the test if `work` returns an error.
pub fn worked<M: Running + Send + Sync, R: Host, G: Gate + Sync>(
    rt: &R,
    alloc: Global,
    set: LiveSet<M>,
    seats: Vec<Seat<M>>,
    programs: Vec<Vec<Call>>,
    gate: &G,
) -> Outcome {
    match work(rt, alloc, set, seats, programs, gate) {
        Ok(outcome) => outcome,
        Err(fault) => panic!(rt; "refused: {}", fault.cause),
    }
}

/// Opens an empty set for `seats` threads. Returns the set and a seat (handle to the set) for each thread. Each thread
/// can add 4 keys.
fn in_a_row<M: Running, R: Abort>(rt: &R, alloc: Global, seats: u32) -> (LiveSet<M>, Vec<Seat<M>>) {
    open::<M>(alloc, seats, 4).expect(rt, "not opened")
}

/// Runs the programs `programs` on a set with two seats (per-thread handles to the set) and returns the error of
/// `work`.
fn fault_of<R: Host, G: Gate + Sync>(
    rt: &R,
    alloc: Global,
    programs: Vec<Vec<Call>>,
    gate: &G,
) -> WorkFault<LazyList> {
    let (set, seats) = in_a_row::<LazyList, R>(rt, alloc, 2);
    match work(rt, alloc, set, seats, programs, gate) {
        Ok(_) => panic!(rt; "not refused"),
        Err(fault) => fault,
    }
}

fn pair<R: Abort>(rt: &R, alloc: Global, first: &[Call], second: &[Call]) -> Vec<Vec<Call>> {
    let first = Vec::from_slice(alloc, first).expect(rt, "room");
    let second = Vec::from_slice(alloc, second).expect(rt, "room");
    vec![in alloc; first, second].expect(rt, "room")
}

fn two_programs<R: Abort>(rt: &R, alloc: Global) -> Vec<Vec<Call>> {
    let (key, add_2) = (Key(1), Call::Add(Key(2)));
    let first = [Call::Add(key), Call::Contains(key), Call::Remove(key)];
    pair(rt, alloc, &first, &[add_2, add_2])
}

fn are_answered(outcome: &Outcome, replies: &[&[Reply]]) -> bool {
    outcome.replies.len() == replies.len()
        && outcome
            .replies
            .iter()
            .zip(replies)
            .all(|pair| pair.0.as_slice() == *pair.1)
}

fn are_as_wanted(outcome: &Outcome, replies: &[&[Reply]], keys: &[u32]) -> bool {
    outcome.keys.as_slice() == keys && are_answered(outcome, replies)
}

fn answers<M: Running + Send + Sync, R: Host>(rt: &R, alloc: Global) {
    let (set, seats) = in_a_row::<M, R>(rt, alloc, 2);
    let outcome = worked(rt, alloc, set, seats, two_programs(rt, alloc), &Always);
    let first: &[Reply] = &[Reply::True, Reply::True, Reply::True];
    let second: &[Reply] = &[Reply::True, Reply::False];
    assert!(rt; are_as_wanted(&outcome, &[first, second], &[2]));
}

#[test]
fn two_programs_return_their_replies_and_the_final_key(rt: HostRuntime) {
    at_each_list!(answers, rt);
}

/// Asserts that `work` failed because the number of programs differs from the number of seats (per-thread handles to
/// the set). The error must return the set, which has two seats, and all `seats` seats that `work` received.
fn gave_all_back<R: Abort>(rt: &R, fault: WorkFault<LazyList>, seats: usize) {
    assert!(rt; fault.cause == WorkCause::Programs);
    let (set, back) = fault.back.expect(rt, "nothing came back");
    assert!(rt; set.seats() == 2);
    assert!(rt; back.len() == seats);
}

#[test]
fn one_program_for_two_seats_returns_set_and_seats(rt: HostRuntime) {
    let mut programs = two_programs(&rt, rt.alloc());
    let _ = programs.pop();
    let fault = fault_of::<HostRuntime, Always>(&rt, rt.alloc(), programs, &Always);
    gave_all_back(&rt, fault, 2);
}

fn alone<M: Running, R: Abort>(
    rt: &R,
    alloc: Global,
    seat: Seat<M>,
    program: &[Call],
) -> (Vec<Seat<M>>, Vec<Vec<Call>>) {
    let calls = Vec::from_slice(alloc, program).expect(rt, "room");
    let seats = vec![in alloc; seat].expect(rt, "room");
    (seats, vec![in alloc; calls].expect(rt, "room"))
}

#[test]
fn work_with_a_missing_seat_returns_set_and_seat(rt: HostRuntime) {
    let (set, zero, _one) = two_seats::<LazyList, HostRuntime>(&rt, rt.alloc());
    let (seats, programs) = alone(&rt, rt.alloc(), zero, &[Call::Add(Key(3))]);
    match work(&rt, rt.alloc(), set, seats, programs, &Always) {
        Ok(_) => panic!(rt; "a seat is missing"),
        Err(fault) => gave_all_back(&rt, fault, 1),
    }
}

fn works_when_gathered<M: Running + Send + Sync, R: Host>(rt: &R, alloc: Global) {
    let (set, mut zero, mut one) = two_seats::<M, R>(rt, alloc);
    make_calls(rt, &set, &mut one, &ADDS);
    set.gather(&mut zero, one);
    let program = [Call::Contains(Key(9)), Call::Add(Key(3))];
    let (seats, programs) = alone(rt, alloc, zero, &program);
    let outcome = worked(rt, alloc, set, seats, programs, &Always);
    let both: &[Reply] = &[Reply::True, Reply::True];
    assert!(rt; are_as_wanted(&outcome, &[both], &[3, 9]));
}

#[test]
fn a_gathered_seat_runs_a_program(rt: HostRuntime) {
    at_each_list!(works_when_gathered, rt);
}

#[test]
fn a_program_can_be_empty(rt: HostRuntime) {
    let programs = pair(&rt, rt.alloc(), &[Call::Add(Key(5))], &[]);
    let (set, seats) = in_a_row::<LazyList, HostRuntime>(&rt, rt.alloc(), 2);
    let outcome = worked(&rt, rt.alloc(), set, seats, programs, &Always);
    assert!(rt; are_as_wanted(&outcome, &[&[Reply::True], &[]], &[5]));
}

/// A gate that refuses one call of one seat (per-thread handle to the set). `counts` states how often the gate was
/// asked: it has an entry for each of the first three calls of the seats 0 to 2, and one entry for all other calls.
#[derive(Drop)]
struct Shut {
    seat: u32,
    call: u32,
    counts: [AtomicU32; 10],
}

impl Shut {
    fn new(seat: u32, call: u32) -> Shut {
        Shut {
            seat,
            call,
            counts: [0; 10].map(AtomicU32::new),
        }
    }

    /// Returns `true` if the gate (a callback that permits or refuses each call) was asked as often as `wanted` states.
    fn was_asked(&self, wanted: &[u32]) -> bool {
        self.counts
            .iter()
            .zip(wanted)
            .all(|(count, wanted)| count.load(Ordering::SeqCst) == *wanted)
    }
}

impl Gate for Shut {
    fn pass(&self, seat: u32, call: u32) -> bool {
        let at = if seat < 3 && call < 3 {
            3 * seat + call
        } else {
            9
        };
        self.counts[at as usize].fetch_add(1, Ordering::SeqCst);
        seat != self.seat || call != self.call
    }
}

/// Cases: the seat (per-thread handle to the set) and the number of the call that the gate refuses, and how often the
/// gate must be asked before each call. The refused call ends its program. All other programs run to their end.
const SHUT: [(u32, u32, [u32; 10]); 5] = [
    (0, 1, [1, 1, 0, 1, 1, 0, 0, 0, 0, 0]),
    (0, 0, [1, 0, 0, 1, 1, 0, 0, 0, 0, 0]),
    (0, 2, [1, 1, 1, 1, 1, 0, 0, 0, 0, 0]),
    (1, 0, [1, 1, 1, 1, 0, 0, 0, 0, 0, 0]),
    (1, 1, [1, 1, 1, 1, 1, 0, 0, 0, 0, 0]),
];

#[test]
fn a_gate_that_refuses_a_call_ends_only_its_program(rt: HostRuntime) {
    for (seat, call, wanted) in &SHUT {
        let shut = Shut::new(*seat, *call);
        let programs = two_programs(&rt, rt.alloc());
        let fault = fault_of::<HostRuntime, Shut>(&rt, rt.alloc(), programs, &shut);
        assert!(rt; fault.cause == WorkCause::Gate && fault.back.is_none());
        assert!(rt; shut.was_asked(wanted), "{seat} {call}");
    }
}

/// Opens a set with three seats (per-thread handles to the set), and merges seat 1 into seat 2. Returns the set and the
/// seats, seat 2 before seat 0.
fn two_before_zero<M: Running, R: Abort>(rt: &R, alloc: Global) -> (LiveSet<M>, Vec<Seat<M>>) {
    let (set, mut seats) = in_a_row::<M, R>(rt, alloc, 3);
    let mut two = last_of(rt, &set, &mut seats);
    let one = last_of(rt, &set, &mut seats);
    let zero = last_of(rt, &set, &mut seats);
    set.gather(&mut two, one);
    let seats = vec![in alloc; two, zero].expect(rt, "room");
    (set, seats)
}

/// Tests that the gate (a callback that permits or refuses each call) receives the thread number of each seat (one
/// thread's access to the set), and that the replies are in the order of the seats.
#[test]
fn seats_work_in_any_order(rt: HostRuntime) {
    let (set, seats) = two_before_zero::<LazyList, HostRuntime>(&rt, rt.alloc());
    let programs = pair(
        &rt,
        rt.alloc(),
        &[Call::Add(Key(2))],
        &[Call::Remove(Key(1))],
    );
    let asked = Shut::new(u32::MAX, 0);
    let outcome = worked(&rt, rt.alloc(), set, seats, programs, &asked);
    assert!(rt; asked.was_asked(&[1, 0, 0, 0, 0, 0, 1, 0, 0, 0]));
    assert!(rt; are_as_wanted(&outcome, &[&[Reply::True], &[Reply::False]], &[2]));
}

/// Returns a program of two adds for each seat (per-thread handle to the set). Different programs add different keys.
fn two_adds_each<R: Abort>(rt: &R, alloc: Global, seats: u32) -> Vec<Vec<Call>> {
    let mut programs = Vec::new(alloc);
    for seat in 0..seats {
        let calls = [
            Call::Add(Key(seat)),
            Call::Add(Key(seat.saturating_add(seats))),
        ];
        let program = Vec::from_slice(alloc, &calls).expect(rt, "room");
        programs.push(program).expect(rt, "room");
    }
    programs
}

/// Asserts that all programs run at the same time: each program waits before its second call until all programs have
/// arrived.
fn meet<M: Running + Send + Sync, R: Host>(rt: &R, alloc: Global, seats: u32) {
    let (set, row) = in_a_row::<M, R>(rt, alloc, seats);
    let meeting = Meeting::new(rt, u64::from(seats));
    let programs = two_adds_each(rt, alloc, seats);
    let outcome = worked(rt, alloc, set, row, programs, &meeting);
    assert!(rt; meeting.was_held());
    let both = [Reply::True; 2];
    assert!(rt;
        outcome
            .replies
            .iter()
            .all(|replies| replies.as_slice() == both.as_slice())
    );
    assert!(rt; outcome.keys.len() == 2 * seats as usize);
}

#[test]
fn two_programs_run_at_once(rt: HostRuntime) {
    at_each_list!(meet, rt, 2);
}

#[test]
fn four_programs_run_at_once(rt: HostRuntime) {
    at_each_list!(meet, rt, 4);
}

#[test]
fn programs_of_all_seats_run_at_once(rt: HostRuntime) {
    meet::<LazyList, HostRuntime>(&rt, rt.alloc(), MOST_THREADS);
}

/// Returns, for each of 50 keys, how often the key was added minus how often it was removed.
fn balance_of(programs: &[Vec<Call>], replies: &[Vec<Reply>]) -> [u64; 50] {
    let mut balance = [0u64; 50];
    for (program, replies) in programs.iter().zip(replies) {
        for (call, reply) in program.iter().zip(replies) {
            let at = (call.key().0 % 50) as usize;
            match (call, reply) {
                (Call::Add(_), Reply::True) => balance[at] = balance[at].wrapping_add(1),
                (Call::Remove(_), Reply::True) => balance[at] = balance[at].wrapping_sub(1),
                _ => {}
            }
        }
    }
    balance
}

/// Makes calls on 50 keys from four threads, which all use the same keys. Asserts that a key is present if it was added
/// once more than it was removed, and absent if it was added and removed equally often.
fn add_up<M: Running + Send + Sync, R: Host>(rt: &R, alloc: Global) {
    let (set, seats) = open::<M>(alloc, 4, 2_000).expect(rt, "not opened");
    let drawn = programs(alloc, 4, 2_000, 50, 7).expect(rt, "not drawn");
    let again = programs(alloc, 4, 2_000, 50, 7).expect(rt, "not drawn");
    let outcome = worked(rt, alloc, set, seats, drawn, &Always);
    let are_answered = outcome.replies.iter().all(|replies| replies.len() == 2_000);
    assert!(rt; are_answered && outcome.replies.len() == 4);
    let balance = balance_of(&again, &outcome.replies);
    for (key, left) in (0..).zip(&balance) {
        assert_eq!(rt; *left, u64::from(outcome.keys.contains(&key)), "{key}");
    }
}

#[test]
fn each_final_key_was_added_once_more_than_removed(rt: HostRuntime) {
    at_each_list!(add_up, rt);
}
