//! Runs random schedules on each broken list (a list without one of its checks). For each broken list, `check` must
//! refuse the order of at least one run.

use crate::prelude::*;
use broken_lists::{ALL, BrokenList, BrokenWorld, broken_world_of};
use lset_replay::{Steps, calls_of};
use lset_schedule::read_schedule;
use lset_text::{call_word, kind_word};

/// The maximum number of runs on each broken list. At least one of them must be refused.
const RUNS: u64 = 2_000;

const EVENTS: u32 = 120;

/// The keys of the list at the start of every schedule.
const OPENING: [u32; 1] = [5];

fn drawn_call(rng: &mut Pcg32) -> Call {
    let key = Key(3 + 2 * (rng.next_u32() % 3));
    match rng.next_u32() % 7 {
        0 | 1 => Call::Add(key),
        2 | 3 => Call::Remove(key),
        4 | 5 => Call::Contains(key),
        _ => Call::Ceiling(key),
    }
}

/// Returns a random schedule for two threads on a broken list (a list without one of its checks). Each thread takes a
/// few steps before the other thread continues.
fn drawn_schedule(alloc: Global, broken: BrokenList, seed: u64) -> Result<String, Fail> {
    let mut rng = Pcg32::seed_from_u64(seed);
    let layout = layout_opening(2, 2, 1)?;
    let mut world = BrokenWorld::opened(alloc, broken, &layout, &OPENING)?;
    let list = kind_word(broken.kind());
    let mut text = format!(in alloc;
        "listset-schedule 2\nlist {list}\nthreads 2\nquota 2\nopening 5\n"
    )?;
    let mut thread = 0u32;
    for _event in 0..EVENTS {
        if rng.next_u32() % 4 == 0 {
            thread = 1 - thread % 2;
        }
        let call = drawn_call(&mut rng);
        if world.make(Event::Go(thread)).is_ok() {
            writeln!(&mut text, "go {thread} 1")?;
        } else if world.make(Event::Begin(thread, call)).is_ok() {
            let word = call_word(call);
            let key = call.key().0;
            writeln!(&mut text, "begin {thread} {word} {key}")?;
        }
    }
    Ok(text)
}

/// Runs a random schedule on a broken list (a list without one of its checks). Returns `true` if all events could be
/// executed and `check_order` refuses the order of the run.
fn is_run_refused(alloc: Global, broken: BrokenList, seed: u64) -> Result<bool, Fail> {
    let text = drawn_schedule(alloc, broken, seed)?;
    let schedule = read_schedule(alloc, text.as_bytes())?;
    let world = broken_world_of(alloc, broken, &schedule)?;
    let calls = calls_of(alloc, &schedule, world)?;
    Ok(
        calls.refused.is_none()
            && check_order(alloc, &calls.history, &calls.order, &calls.keys).is_err(),
    )
}

/// Returns `true` if the order of at least one of the random runs is refused.
fn is_refused(alloc: Global, broken: BrokenList) -> Result<bool, Fail> {
    for seed in 0..RUNS {
        if is_run_refused(alloc, broken, seed)? {
            return Ok(true);
        }
    }
    Ok(false)
}

#[test]
fn some_run_of_each_broken_list_is_refused(rt: HostRuntime) -> Result<(), Fail> {
    for broken in &ALL {
        assert!(rt; is_refused(rt.alloc(), *broken)?, "{}", broken.name());
    }
    Ok(())
}
