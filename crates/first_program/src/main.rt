//! A first program that uses the library.
//!
//! One thread makes calls on its own set. Then two threads share a set, the set is closed, and a set of another kind of
//! list opens with the final keys of the closed set. Next, the program itself starts two threads. One thread sends a
//! receipt (a record of the events that it has seen) to the other; the receipt orders their calls. Finally, the program
//! replays a recorded schedule.
#![tactic(auto)]

ghost use Rattle.std.specs.Prelude.{◌≡◌, [], ◌∷◌, IfOk, map};
ghost use Rattle.lset_schedule.specs.Plan.{Plan, IsSchedule, schedule_text};
ghost use Rattle.lset_replay.specs.Reports.{IsExplained};
ghost use Rattle.lset_report.specs.Report.{view};
ghost use Rattle.lset_live.specs.Explained.{IsOneLegalOrder};
ghost use Rattle.lset_words.specs.Records.{fresh};
ghost use Rattle.lset_work.specs.Programs.{worked};

use anyhow::{Context, Result};
use lset_lazy::LazyList;
use lset_live::{LiveSet, Receipt, Running, Seat, open, open_with};
use lset_lock_free::LockFreeList;
use lset_replay::replay;
use lset_report::Report;
use lset_schedule::read_schedule;
use lset_words::{Call, Key};
use lset_work::{Always, Outcome, work};
use std::alloc::Global;
use std::sync::Wait;
use std::thread::{Threads, join};

/// A schedule for one thread on a CoarseList: the seven steps of an `add`.
const SCHEDULE: &str =
    "listset-schedule 1\nlist coarse\nthreads 1\nquota 1\nbegin 0 add 5\ngo 0 7\n";

/// Makes calls on a LazyList from one thread and prints the replies. The thread can add two keys.
fn one_thread<R: Wait + Print>(rt: &R, alloc: Global) -> Result<()> {
    let (set, mut seats) = open::<LazyList>(alloc, 1, 2)?;
    let mut seat = seats.pop().context("the set has no seat")?;
    let first = seat.add(rt, &set, Key(5));
    let second = seat.add(rt, &set, Key(5));
    println!(rt; "5 is {first:?}, then {second:?}")?;
    if !seat.remove(rt, &set, Key(7)) {
        println!(rt; "7 was not there")?;
    }
    let smallest = seat.ceiling(rt, &set, Key(0));
    println!(rt; "the smallest key is {smallest:?}")?;
    Ok(())
}

/// Runs two programs (each is the list of calls of one thread) in two threads. The set is implemented by the list `M`,
/// and contains `keys` at first. Each thread can add two keys. Returns the replies to the calls of each program, and the final keys.
fn two_threads<M: Running + Send + Sync + Drop, R: Threads + Wait + Sync>(
    rt: &R,
    alloc: Global,
    keys: &[u32],
    first: [Call; 2],
    second: [Call; 2],
) -> Result<Outcome>
    // Some legal order of the calls of both programs agrees with the replies, keeps the order of each thread's calls,
    // and leaves the final keys.
    ensures { IfOk result (λ o. IsOneLegalOrder (record { threads = 2; quota = 2; keys = keys.now })
        (worked (fresh 0 ∷ fresh 1 ∷ []) (first ∷ second ∷ []) (map (λ v. v.items) o.replies.items)) o.keys.items) }
{
    let (set, seats) = open_with::<M>(alloc, 2, 2, keys)?;
    let mut programs = Vec::new(alloc);
    programs.push(first.to_vec(alloc)?)?;
    programs.push(second.to_vec(alloc)?)?;
    Ok(work(rt, alloc, set, seats, programs, &Always)?)
}

/// Runs two programs on an empty LazyList, and then two programs on a LockFreeList that opens with the LazyList's final
/// keys.
fn two_lives<R: Threads + Wait + Sync>(rt: &R, alloc: Global) -> Result<(Outcome, Outcome)> {
    let first = [Call::Add(Key(5)), Call::Add(Key(7))];
    let second = [Call::Add(Key(9)), Call::Remove(Key(9))];
    let left = two_threads::<LazyList, R>(rt, alloc, &[], first, second)?;
    let first = [Call::Remove(Key(5)), Call::Add(Key(6))];
    let second = [Call::Add(Key(9)), Call::Contains(Key(7))];
    let again = two_threads::<LockFreeList, R>(rt, alloc, &left.keys, first, second)?;
    Ok((left, again))
}

/// Adds a key through a seat (a thread's handle to the set). Returns the seat, and a receipt that contains the events
/// that the seat has seen, including the seat's own `add`.
fn add_and_tell<M: Running, R: Wait>(
    rt: &R,
    set: &LiveSet<M>,
    mut seat: Seat<M>,
    key: Key,
) -> (Seat<M>, Receipt<M>)
    requires { seat.set ≡ set.now }
    ensures { (result.0.set ≡ set.now) × (result.1.set ≡ set.now) }
{
    let _ = seat.add(rt, set, key);
    let receipt = set.receipt(&mut seat);
    (seat, receipt)
}

/// Starts two threads on one LazyList. Each thread adds one key, which uses up its quota. Seat one (the second thread's
/// handle to the set) then accepts seat zero's receipt (a record of the events that seat zero has seen) and looks for
/// seat zero's key. In every order that `close` promises, seat zero's `add` precedes seat one's `contains`.
fn started_threads<R: Threads + Wait + Sync + Print>(rt: &R, alloc: Global) -> Result<()> {
    let (set, mut seats) = open::<LazyList>(alloc, 2, 1)?;
    let (Some(one), Some(zero)) = (seats.pop(), seats.pop()) else {
        unreachable!()
    };
    let ((mut zero, told), (mut one, _)) = join(
        rt,
        || -> (Seat<LazyList>, Receipt<LazyList>)
            requires { zero.set ≡ set }
            ensures { (result.0.set ≡ set) × (result.1.set ≡ set) }
        { add_and_tell(rt, &set, zero, Key(5)) },
        || -> (Seat<LazyList>, Receipt<LazyList>)
            requires { one.set ≡ set }
            ensures { (result.0.set ≡ set) × (result.1.set ≡ set) }
        { add_and_tell(rt, &set, one, Key(7)) },
    );
    set.after(&mut one, told);
    let found = one.contains(rt, &set, Key(5));
    set.gather(&mut zero, one);
    let closed = set.close(zero).ok().context("a seat is missing")?;
    let keys = closed.keys()?;
    println!(rt; "seat one was told of 5, and finds it: {found}. The keys are {keys:?}")?;
    Ok(())
}

/// Replays a schedule and returns its report.
fn replay_text(alloc: Global, text: &str) -> Result<Report>
    // The text is a schedule, and the order in the report is a linearization of the report's calls that leaves the
    // final keys.
    ensures { IfOk result (λ r. (p : Plan) × IsSchedule p × (text.now ≡ schedule_text p) × IsExplained (view r)) }
{
    let schedule = read_schedule(alloc, text.as_bytes())?;
    Ok(replay(alloc, &schedule)?)
}

fn main(rt: HostRuntime) -> Result<()> {
    let alloc = rt.alloc();
    one_thread(&rt, alloc)?;
    // `main` passes `&rt` itself: a function that receives the runtime in another way cannot start threads.
    let (left, again) = two_lives(&rt, alloc)?;
    println!(rt;
        "the replies {:?} leave the keys {:?}",
        left.replies, left.keys
    )?;
    println!(rt;
        "opened with these, the replies {:?} leave {:?}",
        again.replies, again.keys
    )?;
    started_threads(&rt, alloc)?;
    let report = replay_text(alloc, SCHEDULE)?;
    println!(rt; "the schedule's run leaves the keys {:?}", report.keys)?;
    Ok(())
}
