//! Tests of the largest histories and recordings. Each test must end within a minute. A minute is too short for a
//! comparison of all pairs of calls.

use crate::prelude::*;
use crate::test_histories::{FIVE, in_turn, increasing_keys};
use lset_judge::{Judged, judge};
use lset_recording::{RecordingAnswer, RecordingReader};

/// The maximum number of calls in a report.
const MOST_CALLS: u32 = 1_000_000;

fn true_calls<F: Fn(u32) -> Call>(
    alloc: Global,
    count: u32,
    call: F,
) -> Result<Vec<(u32, Call, Reply)>, AllocError> {
    let mut calls = Vec::new(alloc);
    for number in 0..count {
        calls.push((number % MOST_THREADS, call(number), Reply::True))?;
    }
    Ok(calls)
}

/// Judges calls that do not overlap. Each call finds a different key of a set that starts with the maximum number of
/// keys.
#[test]
fn a_million_calls_are_judged(rt: HostRuntime) -> Result<(), Fail> {
    let alloc = rt.alloc();
    let calls = true_calls(alloc, MOST_CALLS, |number| Call::Contains(Key(number)))?;
    let keys = increasing_keys(alloc, MOST_OPENING)?;
    let opened = History::opened(
        alloc,
        MOST_THREADS,
        0,
        increasing_keys(alloc, MOST_OPENING)?,
    );
    let history = in_turn(opened, &calls)?;
    assert!(rt; matches!(judge(alloc, &history, &keys)?, Judged::Linearizable));
    Ok(())
}

/// Returns `true` if the judge refuses the history and names the expected key and the expected moment (a time in the
/// history).
fn is_refused(
    alloc: Global,
    history: &History,
    key: Key,
    moment: Option<u64>,
) -> Result<bool, AllocError> {
    let judged = judge(alloc, history, &[])?;
    Ok(matches!(judged, Judged::NotLinearizable(told, _) if told == Refusal { key, moment }))
}

/// How often key 5 is added and removed again.
const TIMES: u32 = 100_000;

/// Returns a history of calls that do not overlap: key 5 is added and removed `TIMES` times, and a final `contains`
/// returns `last`.
fn in_and_out(alloc: Global, last: Reply) -> Result<History, Fail> {
    let mut calls = true_calls(alloc, 2 * TIMES, |number| {
        if number % 2 == 0 {
            Call::Add(FIVE)
        } else {
            Call::Remove(FIVE)
        }
    })?;
    calls.push((0, Call::Contains(FIVE), last))?;
    Ok(in_turn(History::new(alloc, MOST_THREADS, MOST_QUOTA), &calls)?)
}

#[test]
fn a_wrong_reply_after_many_changes_of_a_key_is_found(rt: HostRuntime) -> Result<(), Fail> {
    let alloc = rt.alloc();
    let right = in_and_out(alloc, Reply::False)?;
    assert!(rt; matches!(judge(alloc, &right, &[])?, Judged::Linearizable));
    let wrong = in_and_out(alloc, Reply::True)?;
    let moment = Some(u64::from(4 * TIMES + 2));
    assert!(rt; is_refused(alloc, &wrong, FIVE, moment)?);
    Ok(())
}

/// Returns an order that contains all calls of the history, one after another. The final reply in the order is `last`.
fn in_their_turn(alloc: Global, last: Reply) -> Result<Vec<Placed>, AllocError> {
    let mut order = Vec::new(alloc);
    for number in 0..2 * TIMES {
        order.push(Placed {
            call: number,
            reply: Reply::True,
        })?;
    }
    order.push(Placed {
        call: 2 * TIMES,
        reply: last,
    })?;
    Ok(order)
}

/// Checks orders of many calls with an error at the end: the final call has a wrong reply, is missing, occurs twice or
/// does not exist, or the final keys are wrong.
#[test]
fn a_fault_at_the_end_of_a_long_order_is_found(rt: HostRuntime) -> Result<(), Fail> {
    let alloc = rt.alloc();
    let last = 2 * TIMES;
    let history = in_and_out(alloc, Reply::False)?;
    let mut order = in_their_turn(alloc, Reply::False)?;
    assert!(rt; check_order(alloc, &history, &order, &[]).is_ok());
    assert!(rt; check_order(alloc, &history, &order, &[5]) == Err(OrderFault::WrongSet));
    assert!(rt; order.pop().is_some());
    assert!(rt; check_order(alloc, &history, &order, &[]) == Err(OrderFault::Missing(last)));
    for (call, fault) in [
        (last, OrderFault::WrongReply(last)),
        (last - 1, OrderFault::Twice(last - 1)),
        (last + 1, OrderFault::Unknown(last + 1)),
    ] {
        let reply = Reply::True;
        order.push(Placed { call, reply })?;
        let judged = check_order(alloc, &history, &order, &[]);
        assert!(rt; judged == Err(fault), "{fault}");
        assert!(rt; order.pop().is_some());
    }
    Ok(())
}

/// The number of keys in the next test. Each of its histories has one call on each key.
const MANY_KEYS: u32 = 500_000;

/// Judges two histories. In the first, all keys are added, but no key is a final key. In the second, all keys are
/// removed from a set that opened empty. In both histories, the judge must name key 0, the first key.
#[test]
fn the_first_of_many_wrong_keys_is_named(rt: HostRuntime) -> Result<(), Fail> {
    let alloc = rt.alloc();
    let adds = true_calls(alloc, MANY_KEYS, |number| Call::Add(Key(number)))?;
    let removes = true_calls(alloc, MANY_KEYS, |number| Call::Remove(Key(number)))?;
    for (calls, moment) in [(adds, None), (removes, Some(2))] {
        let history = in_turn(History::new(alloc, MOST_THREADS, MOST_QUOTA), &calls)?;
        assert!(rt; is_refused(alloc, &history, Key(0), moment)?);
    }
    Ok(())
}

/// The number of threads in the next test. Each thread adds its own key, and no call ends.
const MANY_PENDING: u32 = 100_000;

#[test]
fn many_pending_calls_are_judged(rt: HostRuntime) -> Result<(), Fail> {
    let mut judge = Judge::new(rt.alloc(), &[])?;
    for thread in 0..MANY_PENDING {
        judge.add(StreamCall {
            thread,
            call: Call::Add(Key(thread)),
            begun: LAST_MOMENT - u64::from(MANY_PENDING - thread),
            ended: None,
        })?;
    }
    let verdict = judge.close(&[0, 500, 99_999])?;
    assert!(rt; matches!(verdict, Verdict::Linearizable));
    Ok(())
}

/// A number of keys that is too large for a list to open with.
const MORE_KEYS: u32 = 1_100_000;

/// Judges one `contains` for each key.
#[test]
fn more_keys_than_a_list_can_have_are_judged(rt: HostRuntime) -> Result<(), Fail> {
    let keys = increasing_keys(rt.alloc(), MORE_KEYS)?;
    let mut judge = Judge::new(rt.alloc(), &keys)?;
    for key in &keys {
        let begun = 2 * u64::from(*key) + 1;
        judge.add(StreamCall {
            thread: *key % 8,
            call: Call::Contains(Key(*key)),
            begun,
            ended: Some((begun + 1, Reply::True)),
        })?;
    }
    assert!(rt; matches!(judge.close(&keys)?, Verdict::Linearizable));
    Ok(())
}

/// The number of opening keys (keys at the start) in a recording.
const LONG_KEYS: u32 = 200_000;

const LONG_CALLS: u32 = 100_000;

/// Passes the line of a call to the reader, byte by byte.
fn feed_call(alloc: Global, reader: &mut RecordingReader, number: u32) -> Result<(), Fail> {
    let (thread, key) = (number % 8, number % LONG_KEYS);
    let begun = 2 * u64::from(number) + 1;
    let end = begun + 1;
    let line = format!(in alloc; "call {thread} contains {key} {begun} {end} true\n")?;
    for byte in line.as_bytes() {
        reader.feed(&[*byte])?;
    }
    Ok(())
}

/// Passes a line `word K` to the reader, for each key K.
fn feed_keys(alloc: Global, reader: &mut RecordingReader, word: &str) -> Result<(), Fail> {
    for key in 0..LONG_KEYS {
        let line = format!(in alloc; "{word} {key}\n")?;
        reader.feed(line.as_bytes())?;
    }
    Ok(())
}

#[test]
fn a_large_recording_is_read_byte_by_byte(rt: HostRuntime) -> Result<(), Fail> {
    let alloc = rt.alloc();
    let mut reader = RecordingReader::new(alloc);
    reader.feed(b"listset-calls 1\n")?;
    feed_keys(alloc, &mut reader, "opening")?;
    for number in 0..LONG_CALLS {
        feed_call(alloc, &mut reader, number)?;
    }
    feed_keys(alloc, &mut reader, "key")?;
    reader.feed(b"end\n")?;
    let RecordingAnswer {
        verdict,
        calls,
        overlapped,
        cut_off,
    } = reader.finish()?;
    assert!(rt; matches!(verdict, Verdict::Linearizable) && !cut_off);
    assert!(rt; calls == u64::from(LONG_CALLS) && overlapped == 0);
    Ok(())
}
