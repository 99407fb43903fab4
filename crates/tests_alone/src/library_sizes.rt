//! Tests of library functions that allocate, for each size from 0 to 200. Each function must succeed and return the
//! correct result.

use crate::prelude::*;
use crate::test_histories::{in_turn, increasing_keys};
use lset_judge::{Judged, judge};
use lset_recording::RecordingReader;
use lset_report::{read_report, write_report};
use lset_schedule::{programs, read_schedule, write_schedule};

const MOST_SIZE: u32 = 200;

/// Returns a number of threads, from 1 to `MOST_THREADS`, that depends on the size.
fn threads_of(size: u32) -> u32 {
    1 + size % MOST_THREADS
}

/// Creates a list with `size` keys and checks the keys of the list.
fn has_world<M: Machine, R: Abort>(rt: &R, alloc: Global, size: u32) -> Result<(), Fail> {
    let keys = increasing_keys(alloc, size)?;
    let layout = layout_opening(threads_of(size), size, size)?;
    let world = World::<M>::opened(alloc, layout, &keys)?;
    assert!(rt; world.content()? == keys, "{size}");
    assert!(rt; world.chain()?.len() == keys.len(), "{size}");
    Ok(())
}

#[test]
fn lists_open_at_each_size(rt: HostRuntime) -> Result<(), Fail> {
    let alloc = rt.alloc();
    for size in 0..=MOST_SIZE {
        has_world::<CoarseList, _>(&rt, alloc, size)?;
        has_world::<FineList, _>(&rt, alloc, size)?;
        has_world::<OptimisticList, _>(&rt, alloc, size)?;
        has_world::<LazyList, _>(&rt, alloc, size)?;
        has_world::<LockFreeList, _>(&rt, alloc, size)?;
    }
    Ok(())
}

/// Reads a schedule from a text and writes it, replays it, and writes and reads the report. Both texts must stay the
/// same, and the report's order must explain the run. Returns the number of calls.
fn is_replayed<R: Abort>(rt: &R, alloc: Global, text: &[u8]) -> Result<usize, Fail> {
    let schedule = read_schedule(alloc, text)?;
    assert!(rt; write_schedule(alloc, &schedule)?.as_slice() == text);
    let report = replay(alloc, &schedule)?;
    let written = write_report(alloc, &report)?;
    let read = read_report(alloc, &written)?;
    assert!(rt; write_report(alloc, &read)? == written);
    check_order(alloc, &read.history, &read.order, &read.keys)?;
    Ok(read.history.calls().len())
}

/// Generates a schedule with up to `size` calls per thread, and replays the schedule.
fn has_schedule<M: Machine, R: Abort>(rt: &R, alloc: Global, size: u32) -> Result<(), Fail> {
    let (threads, seed) = (threads_of(size), u64::from(size));
    let schedule = generate::<M>(alloc, threads, size, size, 1 + size, seed)?;
    let calls = is_replayed(rt, alloc, &write_schedule(alloc, &schedule)?)?;
    assert!(rt; size == 0 || calls > 0, "{size}");
    Ok(())
}

/// Returns a schedule of one thread that looks for each of `size` opening keys (keys at the start) in turn. On a
/// LazyList, the search for a key needs two more steps than the search for the previous key.
fn looks_for_each(alloc: Global, size: u32) -> Result<String, Fail> {
    let mut text = String::from_str(alloc, "listset-schedule 2\nlist lazy\nthreads 1\nquota 0\n")?;
    for key in 0..size {
        writeln!(&mut text, "opening {key}")?;
    }
    for key in 0..size {
        let steps = 2 * key + 3;
        writeln!(&mut text, "begin 0 contains {key}\ngo 0 {steps}")?;
    }
    Ok(text)
}

#[test]
fn schedules_and_reports_are_right_at_each_size(rt: HostRuntime) -> Result<(), Fail> {
    let alloc = rt.alloc();
    for size in 0..=MOST_SIZE {
        has_schedule::<CoarseList, _>(&rt, alloc, size)?;
        has_schedule::<FineList, _>(&rt, alloc, size)?;
        has_schedule::<OptimisticList, _>(&rt, alloc, size)?;
        has_schedule::<LazyList, _>(&rt, alloc, size)?;
        has_schedule::<LockFreeList, _>(&rt, alloc, size)?;
        let text = looks_for_each(alloc, size)?;
        let calls = is_replayed(&rt, alloc, text.as_bytes())?;
        assert!(rt; calls == size as usize, "{size}");
        let drawn = programs(alloc, threads_of(size), size, 1 + size, 1)?;
        assert!(rt;
            drawn.iter().all(|program| program.len() == size as usize),
            "{size}"
        );
    }
    Ok(())
}

/// Creates a sequential set with `size` keys that can add `size` further keys. The set must accept the further keys,
/// and then be full.
fn has_oracle<R: Abort>(rt: &R, alloc: Global, size: u32) -> Result<(), Fail> {
    let mut oracle = Oracle::opened(alloc, 1, size, &increasing_keys(alloc, size)?)?;
    for key in size..2 * size {
        assert!(rt;
            oracle.apply(0, Call::Add(Key(key)))? == Reply::True,
            "{size}"
        );
    }
    assert!(rt;
        oracle.apply(0, Call::Add(Key(u32::MAX)))? == Reply::Full,
        "{size}"
    );
    assert!(rt;
        oracle.keys()? == increasing_keys(alloc, 2 * size)?,
        "{size}"
    );
    let changes = Changes::opened(alloc, &increasing_keys(alloc, size)?)?;
    let smallest = changes.first_ceiling(0, (size > 0).then_some(0), 0, 9);
    assert!(rt; smallest == Some(0), "{size}");
    Ok(())
}

/// Returns a history of `size` adds that do not overlap, each of a different key.
fn adds(alloc: Global, size: u32) -> Result<History, Fail> {
    let mut calls = Vec::new(alloc);
    for key in 0..size {
        calls.push((key % threads_of(size), Call::Add(Key(key)), Reply::True))?;
    }
    let history = History::new(alloc, threads_of(size), MOST_QUOTA);
    Ok(in_turn(history, &calls)?)
}

/// Judges a history of `size` adds. The history must be linearizable with the added keys as final keys, and not
/// linearizable without final keys.
fn is_judged<R: Abort>(rt: &R, alloc: Global, size: u32) -> Result<(), Fail> {
    let history = adds(alloc, size)?;
    let judged = judge(alloc, &history, &increasing_keys(alloc, size)?)?;
    assert!(rt; matches!(judged, Judged::Linearizable), "{size}");
    let judged = judge(alloc, &history, &[])?;
    let is_lost =
        matches!(&judged, Judged::NotLinearizable(_, Some(clash)) if clash.second.is_none());
    assert!(rt; is_lost == (size > 0), "{size}");
    Ok(())
}

/// Judges a history with a pending add for each thread, in which all adds took effect.
fn is_judged_pending<R: Abort>(rt: &R, alloc: Global, threads: u32) -> Result<(), Fail> {
    let mut history = History::new(alloc, threads, 1);
    for thread in 0..threads {
        history.begin(thread, Call::Add(Key(thread)), thread + 1)?;
    }
    let judged = judge(alloc, &history, &increasing_keys(alloc, threads)?)?;
    assert!(rt; matches!(judged, Judged::Linearizable), "{threads}");
    Ok(())
}

#[test]
fn sequential_sets_and_judged_histories_are_right_at_each_size(
    rt: HostRuntime,
) -> Result<(), Fail> {
    let alloc = rt.alloc();
    for size in 0..=MOST_SIZE {
        has_oracle(&rt, alloc, size)?;
        is_judged(&rt, alloc, size)?;
        is_judged_pending(&rt, alloc, threads_of(size))?;
    }
    Ok(())
}

/// Returns a judge that has received `size` calls of `contains` that find their keys, and `size` pending adds.
fn judge_of(alloc: Global, size: u32) -> Result<Judge, Fail> {
    let mut judge = Judge::new(alloc, &increasing_keys(alloc, size)?)?;
    for number in 0..2 * size {
        let begun = 2 * u64::from(number) + 1;
        let (call, ended) = if number < size {
            (Call::Contains(Key(number)), Some((begun + 1, Reply::True)))
        } else {
            (Call::Add(Key(number)), None)
        };
        let thread = number;
        judge.add(StreamCall {
            thread,
            call,
            begun,
            ended,
        })?;
    }
    Ok(judge)
}

/// Returns a recording of a set with `size` keys, which are the same at the start and at the end. For each key, one
/// call looks for the key.
fn recording_of(alloc: Global, size: u32) -> Result<String, Fail> {
    let mut text = String::from_str(alloc, "listset-calls 1\n")?;
    for key in 0..size {
        writeln!(&mut text, "opening {key}")?;
    }
    for key in 0..size {
        let begun = 2 * key + 1;
        let end = begun + 1;
        writeln!(&mut text, "call 0 contains {key} {begun} {end} true")?;
    }
    for key in 0..size {
        writeln!(&mut text, "key {key}")?;
    }
    writeln!(&mut text, "end")?;
    Ok(text)
}

/// Passes a recording of `size` calls to the reader, in pieces of `size + 1` bytes.
fn is_read<R: Abort>(rt: &R, alloc: Global, size: u32) -> Result<(), Fail> {
    let text = recording_of(alloc, size)?;
    let mut reader = RecordingReader::new(alloc);
    for piece in text.as_bytes().chunks(size as usize + 1) {
        reader.feed(piece)?;
    }
    let answer = reader.finish()?;
    assert!(rt; answer.calls == u64::from(size), "{size}");
    assert!(rt; matches!(answer.verdict, Verdict::Linearizable), "{size}");
    Ok(())
}

#[test]
fn recordings_are_judged_at_each_size(rt: HostRuntime) -> Result<(), Fail> {
    let alloc = rt.alloc();
    for size in 0..=MOST_SIZE {
        let keys = increasing_keys(alloc, 2 * size)?;
        let verdict = judge_of(alloc, size)?.close(&keys)?;
        assert!(rt; matches!(verdict, Verdict::Linearizable), "{size}");
        let verdict = judge_of(alloc, size)?.close_cut_off()?;
        assert!(rt; matches!(verdict, Verdict::Linearizable), "{size}");
        is_read(&rt, alloc, size)?;
    }
    Ok(())
}
