//! Tests of library functions that `tests/transcripts` does not cover. The expected values were worked out by hand.
use crate::prelude::*;
use lset_schedule::{GenFault, Line, Schedule, programs, write_schedule};
use lset_words::{LayoutFault, pack, unpack};

#[test]
fn layouts_number_their_words_and_refuse_sizes_above_the_limits(
    rt: HostRuntime,
) -> Result<(), Fail> {
    let table = layout(2, 4)?;
    assert!(rt; table.nodes() == 10 && table.words() == 33 && table.slot(1, 0) == 6);
    let words = [table.key_word(6), table.link_word(6), table.lock_word(6)];
    assert!(rt; words.as_slice() == [21, 22, 23].as_slice());
    assert!(rt; pack(6, true) == 13 && unpack(13) == (6, true));
    assert!(rt; layout(64, 16_384)?.words() == 3_145_737);
    for (threads, quota, opening, fault) in [
        (0, 4, 0, LayoutFault::Threads),
        (65, 4, 0, LayoutFault::Threads),
        (65, 16_385, 0, LayoutFault::Threads),
        (1, 16_385, 1_048_577, LayoutFault::Quota),
        (1, 1, 1_048_577, LayoutFault::Opening),
    ] {
        assert!(rt; layout_opening(threads, quota, opening).err() == Some(fault));
    }
    Ok(())
}

#[test]
fn an_add_changes_the_set_one_step_before_its_answer(rt: HostRuntime) -> Result<(), Fail> {
    let mut world = World::<CoarseList>::new(rt.alloc(), layout(1, 4)?)?;
    world.step(Event::Begin(0, Call::Add(Key(5))))?;
    for _ in 2..=6 {
        world.step(Event::Go(0))?;
    }
    let told = world.step(Event::Go(0))?;
    assert_eq!(rt; (told.answer, told.change), (None, Some((Key(5), true))));
    assert!(rt; world.content()?.as_slice() == [5u32].as_slice());
    let told = world.step(Event::Go(0))?;
    assert_eq!(rt; (told.answer, told.change), (Some(Reply::True), None));
    Ok(())
}

#[test]
fn an_opening_key_uses_no_slot(rt: HostRuntime) -> Result<(), Fail> {
    let alloc = rt.alloc();
    let mut oracle = Oracle::opened(alloc, 1, 0, &[9])?;
    for (call, reply) in [
        (Call::Add(Key(9)), Reply::False),
        (Call::Add(Key(4)), Reply::Full),
        (Call::Remove(Key(9)), Reply::True),
    ] {
        assert_eq!(rt; oracle.apply(0, call)?, reply, "{call:?}");
    }
    assert!(rt; Changes::opened(alloc, &[9])?.first(9, true, 0, 5).0 == Some(0));
    let world = World::<LazyList>::opened(alloc, layout_opening(1, 1, 1)?, &[9])?;
    assert!(rt; world.content()?.as_slice() == [9u32].as_slice());
    let table = layout_opening(2, 4, 3)?;
    assert!(rt; table.nodes() == 13 && table.words() == 42);
    Ok(())
}

#[test]
fn an_add_uses_up_its_slot_for_good(rt: HostRuntime) -> Result<(), Fail> {
    let mut oracle = Oracle::new(rt.alloc(), 1, 1)?;
    for (call, reply) in [
        (Call::Add(Key(5)), Reply::True),
        (Call::Add(Key(6)), Reply::Full),
        (Call::Add(Key(5)), Reply::False),
        (Call::Remove(Key(5)), Reply::True),
        (Call::Add(Key(6)), Reply::Full),
    ] {
        assert_eq!(rt; oracle.apply(0, call)?, reply, "{call:?}");
    }
    assert!(rt; oracle.keys()?.is_empty());
    Ok(())
}

#[test]
fn a_history_refuses_a_begin_or_end_with_its_cause(rt: HostRuntime) {
    let add = Call::Add(Key(5));
    let mut history = History::new(rt.alloc(), 1, 1);
    assert!(rt; history.begin(0, add, 1) == Ok(0));
    assert!(rt; history.begin(1, add, 2) == Err(HistoryFault::NoThread));
    assert!(rt; history.begin(0, add, 2) == Err(HistoryFault::Busy));
    assert!(rt; history.end(0, Reply::True, 1) == Err(HistoryFault::Time));
    assert!(rt; history.end(0, Reply::True, 3) == Ok(()));
    assert!(rt; history.end(0, Reply::True, 4) == Err(HistoryFault::NotOpen));
    assert!(rt; history.begin(0, add, 3) == Err(HistoryFault::Time));
    assert!(rt; history.calls().len() == 1);
}

/// Returns the number of calls that a schedule begins.
fn begun(schedule: &Schedule) -> usize {
    let lines = schedule.lines.iter();
    lines
        .filter(|line| matches!(line, Line::Begin(_, _)))
        .count()
}

#[test]
fn a_seed_fixes_its_schedule_and_its_programs(rt: HostRuntime) -> Result<(), Fail> {
    let alloc = rt.alloc();
    let empty = generate::<LazyList>(alloc, 2, 4, 0, 8, 1)?;
    let text = b"listset-schedule 1\nlist lazy\nthreads 2\nquota 4\n".as_slice();
    assert!(rt; write_schedule(alloc, &empty)?.as_slice() == text);
    let refused = generate::<LazyList>(alloc, 2, 4, 0, 0, 1).err();
    assert!(rt; refused == Some(GenFault::Keys));
    let drawn = programs(alloc, 2, 0, 8, 1)?;
    assert!(rt; drawn.len() == 2 && drawn.iter().all(|program| program.is_empty()));
    let once = generate::<LazyList>(alloc, 2, 4, 50, 8, 1)?;
    let again = generate::<LazyList>(alloc, 2, 4, 50, 8, 1)?;
    assert!(rt; write_schedule(alloc, &once)? == write_schedule(alloc, &again)?);
    assert!(rt; replay(alloc, &once).is_ok());
    let whole = generate::<LazyList>(alloc, 1, 60, 50, 8, 1)?;
    assert!(rt; begun(&whole) == 50);
    let report = replay(alloc, &whole)?;
    assert!(rt;
        report
            .history
            .calls()
            .iter()
            .all(|call| call.ended.is_some())
    );
    Ok(())
}
