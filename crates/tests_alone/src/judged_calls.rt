//! Tests of the judge: which error the judge returns for a call with several errors, and which two calls it names if no
//! order explains the calls.

use crate::prelude::*;
use crate::test_histories::{FIVE, reply_of};

fn add_of_six(thread: u32, begun: u64, ended: Option<(u64, Reply)>) -> StreamCall {
    StreamCall {
        thread,
        call: Call::Add(Key(6)),
        begun,
        ended,
    }
}

/// Calls on key 6, each with a reply that the judge does not accept for the call's operation. (The judge accepts no
/// `ceiling`.)
const NOT_PLAIN: [(Call, Reply); 5] = [
    (Call::Add(Key(6)), Reply::Full),
    (Call::Remove(Key(6)), Reply::Nothing),
    (Call::Contains(Key(6)), Reply::At(Key(6))),
    (Call::Ceiling(Key(6)), Reply::At(Key(6))),
    (Call::Ceiling(Key(6)), Reply::True),
];

/// Returns a call of thread 3 with the operation and the reply in `made`.
fn not_plain(made: (Call, Reply), begun: u64, end: u64) -> StreamCall {
    let (call, reply) = made;
    StreamCall {
        thread: 3,
        call,
        begun,
        ended: Some((end, reply)),
    }
}

/// Returns wrong calls, each with the expected error. Each wrong call is added after a call of thread 3 from moment 2
/// to moment 7. If possible, the wrong call also contains errors that are checked after the expected error.
fn with_faults(made: (Call, Reply)) -> [(StreamCall, StreamFault); 10] {
    let late = LAST_MOMENT + 1;
    [
        (not_plain(made, 2, 2), StreamFault::Early),
        (not_plain(made, 0, 0), StreamFault::Early),
        (not_plain(made, late, 7), StreamFault::Early),
        (not_plain(made, 5, late), StreamFault::Early),
        (not_plain(made, 7, late), StreamFault::Early),
        (not_plain(made, 5, 5), StreamFault::Ends),
        (not_plain(made, 5, 1), StreamFault::Ends),
        (not_plain(made, 7, 7), StreamFault::Ends),
        (not_plain(made, 5, 7), StreamFault::NotPlain),
        (not_plain(made, 7, 9), StreamFault::NotPlain),
    ]
}

#[test]
fn the_first_fault_of_a_call_is_named(rt: HostRuntime) -> Result<(), Fail> {
    let mut judge = Judge::new(rt.alloc(), &[])?;
    judge.add(add_of_six(3, 2, Some((7, Reply::True))))?;
    for made in NOT_PLAIN {
        for (call, fault) in with_faults(made) {
            assert_eq!(rt; judge.add(call), Err(fault), "{call:?}");
        }
    }
    let taken = add_of_six(3, 5, Some((7, Reply::False)));
    assert_eq!(rt; judge.add(taken), Err(StreamFault::Taken));
    // `both` has two errors: another call also ends at moment 8, and an earlier call of thread 3 overlaps `both`.
    judge.add(add_of_six(4, 3, Some((8, Reply::True))))?;
    let both = add_of_six(3, 5, Some((8, Reply::True)));
    assert!(rt; judge.add(both) == Err(StreamFault::Taken));
    // `begins_taken` has two errors: it starts at moment 6, when another call ends, and an earlier call of thread 3
    // overlaps it.
    judge.add(add_of_six(5, 4, Some((6, Reply::True))))?;
    let begins_taken = add_of_six(3, 6, Some((9, Reply::True)));
    assert!(rt; judge.add(begins_taken) == Err(StreamFault::Taken));
    Ok(())
}

/// The number of `contains` calls while a long `add` is pending. Every `contains` returns false, except the
/// next-to-last.
const LOOKS: u64 = 102;

#[test]
fn two_clashing_calls_of_many_are_named(rt: HostRuntime) -> Result<(), Fail> {
    let mut judge = Judge::new(rt.alloc(), &[])?;
    judge.add(StreamCall {
        thread: 0,
        call: Call::Add(FIVE),
        begun: 1,
        ended: Some((1000, Reply::True)),
    })?;
    for number in 1..=LOOKS {
        judge.add(StreamCall {
            thread: 1,
            call: Call::Contains(FIVE),
            begun: 2 * number,
            ended: Some((2 * number + 1, reply_of(number == LOOKS - 1))),
        })?;
    }
    let Verdict::NotLinearizable(refusal, Some(clash)) = judge.close(&[5])? else {
        return Err(Fail::new("the calls are not refused"));
    };
    assert!(rt; refusal.key == FIVE && refusal.moment == Some(205));
    assert!(rt; clash.was == Presence::Present);
    assert!(rt; clash.first.map(|call| call.begun) == Some(202));
    assert!(rt; clash.second.map(|call| call.begun) == Some(204));
    Ok(())
}
