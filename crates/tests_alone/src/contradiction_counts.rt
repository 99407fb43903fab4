//! Tests of contradictions found by counting. The replies to some calls require that a key is added (or removed) more
//! often than there are calls that could have added (or removed) it.

use crate::prelude::*;
use crate::test_histories::{FIVE, reply_of};
use lset_judge::{Count, find_count};
use tool_judge::put_count;

/// Returns a completed call on key 5. The call's reply is true if `is_true`, otherwise false.
fn ended(thread: u32, call: Call, begun: u64, end: u64, is_true: bool) -> StreamCall {
    StreamCall {
        thread,
        call,
        begun,
        ended: Some((end, reply_of(is_true))),
    }
}

/// Returns calls that contradict each other. The key is present before a successful `add` and absent after it.
/// Therefore one `remove` must precede the `add` and another must follow it, but there is only one `remove`.
fn two_looks() -> [StreamCall; 4] {
    [
        ended(3, Call::Contains(FIVE), 3176, 3177, true),
        ended(0, Call::Remove(FIVE), 3183, 3190, true),
        ended(2, Call::Add(FIVE), 3184, 3186, true),
        ended(3, Call::Contains(FIVE), 3199, 3200, false),
    ]
}

fn told(
    alloc: Global,
    calls: &[StreamCall],
    there: Presence,
    left: Option<Presence>,
) -> Result<String, AllocError> {
    let mut text = String::new(alloc);
    if let Some(count) = find_count(alloc, calls, FIVE, there, left)? {
        put_count(&mut text, &count)?;
    }
    Ok(text)
}

#[test]
fn contains_before_and_after_a_change_is_counted(rt: HostRuntime) -> Result<(), Fail> {
    let text = told(rt.alloc(), &two_looks(), Presence::Absent, None)?;
    let want =
        "contradiction: contains 5 true (thread 3, 3176 to 3177), add 5 true (thread 2, 3184 to 3186), contains 5 false (thread 3, 3199 to 3200)\n  need key 5 to become absent 2 times between 3176 and 3200,\n  and only 1 remove 5 that returned true or is pending overlaps 3176 to 3200: thread 0, 3183 to 3190\n";
    assert_eq!(rt; text.as_str(), want);
    Ok(())
}

#[test]
fn opening_and_final_keys_are_counted(rt: HostRuntime) -> Result<(), Fail> {
    let calls = [
        ended(0, Call::Remove(FIVE), 1, 9, true),
        ended(1, Call::Add(FIVE), 2, 8, true),
    ];
    let text = told(
        rt.alloc(),
        &calls,
        Presence::Present,
        Some(Presence::Absent),
    )?;
    let want =
        "contradiction: key 5 present at first, add 5 true (thread 1, 2 to 8), key 5 absent at the end\n  need key 5 to become absent 2 times,\n  and only 1 remove 5 returned true or is pending: thread 0, 1 to 9\n";
    assert_eq!(rt; text.as_str(), want);
    let allowed = told(
        rt.alloc(),
        &calls,
        Presence::Present,
        Some(Presence::Present),
    )?;
    assert_eq!(rt; allowed.as_str(), "");
    Ok(())
}

/// Returns a random call on key 5 that runs between the moments (times) `one` and `other`, with a random reply. Some
/// calls are pending.
fn any_call(random: &mut Pcg32, thread: u32, one: u64, other: u64) -> StreamCall {
    let call = match random.next_u32() % 4 {
        0 | 1 => Call::Add(FIVE),
        2 => Call::Remove(FIVE),
        _ => Call::Contains(FIVE),
    };
    let is_true = random.next_u32() % 3 > 0;
    let is_pending = random.next_u32() % 12 == 0;
    StreamCall {
        thread,
        call,
        begun: one.min(other),
        ended: if is_pending {
            None
        } else {
            Some((one.max(other), reply_of(is_true)))
        },
    }
}

/// Returns two to eight random calls on key 5, ordered by start. The moments (times) of the calls are counted from 1.
fn any_calls(alloc: Global, random: &mut Pcg32) -> Result<Vec<StreamCall>, AllocError> {
    let count = 2 + random.next_u32() % 7;
    let mut moments: Vec<u64> = Vec::new(alloc);
    for moment in 0..2 * count {
        let place = random.next_u32() as usize % (moments.len() + 1);
        moments.insert(place, u64::from(moment) + 1)?;
    }
    let mut calls = Vec::new(alloc);
    for thread in 0..count {
        let (Some(one), Some(other)) = (moments.pop(), moments.pop()) else {
            return Ok(calls);
        };
        calls.push(any_call(random, thread, one, other))?;
    }
    calls.sort_unstable_by_key(|call| call.begun);
    Ok(calls)
}

fn is_explained(
    alloc: Global,
    calls: &[StreamCall],
    there: Presence,
    left: Presence,
) -> Result<bool, Fail> {
    let five: &[u32] = &[5];
    let none: &[u32] = &[];
    let keys_of = |state: Presence| if state == Presence::Present {
        five
    } else {
        none
    };
    let mut judge = Judge::new(alloc, keys_of(there))?;
    for call in calls {
        judge.add(*call)?;
    }
    Ok(matches!(judge.close(keys_of(left))?, Verdict::Linearizable))
}

/// Returns `true` if all calls in `count` are among `calls`, and if `count` proves a contradiction: the key must change
/// back more often than there are calls that can change it back.
fn names_enough(calls: &[StreamCall], count: &Count) -> bool {
    count.calls.iter().all(|call| calls.contains(call))
        && count.backs.iter().all(|call| calls.contains(call))
        && count.backs.len() < count.turns()
}

fn state_of(bit: u32) -> Presence {
    if bit % 2 == 0 {
        Presence::Absent
    } else {
        Presence::Present
    }
}

#[test]
fn most_refusals_and_no_linearizable_calls_have_a_count(rt: HostRuntime) -> Result<(), Fail> {
    let alloc = rt.alloc();
    let mut random = Pcg32::seed_from_u64(1);
    let (mut refused, mut found) = (0u32, 0u32);
    for _ in 0..3000 {
        let calls = any_calls(alloc, &mut random)?;
        let (there, left) = (state_of(random.next_u32()), state_of(random.next_u32()));
        let is_explained = is_explained(alloc, &calls, there, left)?;
        if let Some(count) = find_count(alloc, &calls, FIVE, there, Some(left))? {
            assert!(rt; !is_explained, "{calls:?}");
            assert!(rt; names_enough(&calls, &count), "{calls:?}");
            found += 1;
        }
        if !is_explained {
            refused += 1;
        }
    }
    assert!(rt;
        refused > 1000 && found > refused / 2,
        "{found} of {refused}"
    );
    Ok(())
}
