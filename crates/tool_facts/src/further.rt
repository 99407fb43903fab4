//! Further facts about a recording that is not linearizable, which only some likely causes need.
//!
//! An answer is a completed call that changed nothing: a `contains`, or an `add` or `remove` that returned false. One
//! operation alone is wrong if all calls except its answers are linearizable. An answer is wrong if it contradicts
//! these calls. A moment is a time in the recording.

use crate::evidence::Found;
use crate::odd::is_answer;
use crate::odd_facts::{Odd, more};
use lset_words::Presence;
use std::alloc::{AllocError, Global};
use tool_calls::{
    Fullness, KeyCalls, Made, NEVER, Neighbours, Operation, Place, Runs, is_expected, other,
    stretches_of,
};

/// How many cases have a property, and how often comparable cases have the property. `count` and `of` are 0 if no case
/// was counted.
#[derive(Clone, Copy, Default)]
pub struct Share {
    /// The number of cases with the property.
    pub count: u64,
    /// The number of all cases, with and without the property.
    pub of: u64,
    /// The percentage of comparable cases with the property: 100 if there are none, 0 before `against` sets it.
    pub usual: u64,
}

impl Share {
    /// Counts a case; `is_so` says whether the case has the property. Does not allocate.
    pub fn add(&mut self, is_so: bool) {
        more(&mut self.of);
        self.count = self.count.saturating_add(u64::from(is_so));
    }

    /// Returns this share with the percentage of `other` as `usual`: the share of the comparable cases. The percentage
    /// is 100 if `other` has no cases. Does not allocate.
    pub fn against(self, other: Share) -> Share {
        let usual = other.count.saturating_mul(100).checked_div(other.of);
        Share {
            usual: usual.unwrap_or(100),
            ..self
        }
    }
}

/// Further facts about a recording that is not linearizable. Facts that do not apply are 0 or `None`.
#[derive(Clone, Copy, Default)]
pub struct Further {
    /// The first moment such that some key's calls up to this moment are not linearizable; `NEVER` if only final keys
    /// contradict the calls. 0 if `contains` or `remove` alone is wrong.
    pub moment: u64,
    /// The removes that wrong answers of `add` did not see, and how many of these overlap a `remove` of another key
    /// that returned true. No cases unless `add` alone is wrong. `usual` is always 0.
    pub unseen: Share,
    /// The wrong answers of `add`, and how many of these another call on any key outlasts: the other call begins
    /// earlier and ends later, or never ends. Comparable are the right answers of `add`. All numbers are 0 unless `add`
    /// alone is wrong and a contradiction was kept for each wrong answer.
    pub outlasted: Share,
    /// Two overlapping calls of different threads that seem to have returned each other's replies. Only if the
    /// recording has exactly two contradictions, on different keys: each of the two calls has a wrong reply in one of
    /// them, and the two replies differ.
    pub swap: Option<(Made, Made)>,
    /// The numbers of keys, if many keys are added during the recording. `None` if not, or if one operation alone is
    /// wrong.
    pub growth: Option<Growth>,
}

/// The numbers of keys in a recording during which many keys are added.
#[derive(Clone, Copy)]
pub struct Growth {
    /// The first moment such that some key's calls up to this moment are not linearizable.
    pub moment: u64,
    /// The number of opening keys.
    pub from: u64,
    /// The number of keys that are known to be present at the end: the last completed call on the key left it present,
    /// or an opening key has no completed calls.
    pub to: u64,
    /// The number of keys that are in use at `moment`: calls on the key begin before `moment` and end after it.
    pub active: u64,
}

/// Returns whether `call` is an `add` or `remove` that returned false, overlaps the change `change`, and found the
/// state before this change. Both must be calls on the same key. Does not allocate.
pub fn is_refusal_during(call: Made, change: Made) -> bool {
    let is_refusal = call.reads() && call.operation != Operation::Contains;
    let is_met = call.begun < change.ended && change.begun < call.ended;
    is_refusal && is_met && call.needs() == change.makes().map(other)
}

/// Returns the `remove` that `answer`, a wrong answer of `add`, did not see: the last `remove` of the key that returned
/// true and had begun before `answer`. Returns `None` if there is no such `remove`, if the `remove` had not ended when
/// `answer` began, or if an earlier `remove` overlaps the last one, since either can have taken effect last. `key` has
/// all calls on the key.
fn unseen_by(key: &KeyCalls, answer: Made) -> Option<Made> {
    let remove = key.change_before(Presence::Absent, answer.begun)?;
    let is_last = key.no_change_runs(Presence::Absent, remove.begun);
    (remove.ended < answer.begun && is_last).then_some(remove)
}

/// Returns the removes that the wrong answers of `add` did not see, and how many of them overlap a `remove` of another
/// key. A `remove` is counted once for wrong answers that follow one another.
fn unseen_of(runs: &Runs<'_>, found: &Found, neighbours: &Neighbours) -> Result<Share, AllocError> {
    let mut unseen = Share::default();
    let mut last: Option<Made> = None;
    let mut known: Option<KeyCalls> = None;
    for answer in found.places.iter().filter_map(|place| place.wrong) {
        if known.as_ref().is_none_or(|key| key.key != answer.key) {
            known = Some(runs.calls_of(answer.key)?);
        }
        let remove = known.as_ref().and_then(|key| unseen_by(key, answer));
        if let Some(remove) = remove.filter(|remove| last != Some(*remove)) {
            let (key, sought) = (remove.key, Some(Operation::Remove));
            unseen.add(neighbours.overlap(key, remove.begun, remove.ended, sought));
            last = Some(remove);
        }
    }
    Ok(unseen)
}

/// Returns a call of a contradiction that was expected to return the opposite reply: the calls that begin before its
/// end are not linearizable, but would be with the opposite reply. Returns `None` if there is no such call.
fn expected_in(alloc: Global, runs: &Runs<'_>, place: &Place) -> Result<Option<Made>, AllocError> {
    let key = runs.calls_of(place.key)?;
    let stretches = stretches_of(alloc, &key)?;
    let calls = [place.wrong, place.silent, place.clash.second];
    for call in calls.into_iter().flatten() {
        if is_expected(alloc, &key, &stretches, &place.clash, call)? {
            return Ok(Some(call));
        }
    }
    Ok(None)
}

/// Returns two overlapping calls of different threads that seem to have returned each other's replies. Returns `None`
/// unless the recording has exactly two contradictions, on different keys, each with a call that was expected to return
/// the reply of the other.
fn swap_of(
    alloc: Global,
    runs: &Runs<'_>,
    found: &Found,
) -> Result<Option<(Made, Made)>, AllocError> {
    let (Some(first), Some(second), None) = (
        found.places.get(0),
        found.places.get(1),
        found.places.get(2),
    ) else {
        return Ok(None);
    };
    if first.key == second.key {
        return Ok(None);
    }
    let one = expected_in(alloc, runs, first)?;
    let two = expected_in(alloc, runs, second)?;
    let (Some(one), Some(two)) = (one, two) else {
        return Ok(None);
    };
    let is_met = one.begun < two.ended && two.begun < one.ended;
    let are_opposite = one.reply.is_some() && two.reply.is_some() && one.reply != two.reply;
    let is_swap = is_met && are_opposite && one.thread != two.thread;
    Ok(is_swap.then_some((one, two)))
}

/// Returns the begins of the wrong answers among contradictions, in increasing order, each once.
fn begins_of_wrong(alloc: Global, found: &Found) -> Result<Vec<u64>, AllocError> {
    let mut begins = Vec::new(alloc);
    for answer in found.places.iter().filter_map(|place| place.wrong) {
        begins.push(answer.begun)?;
    }
    begins.sort_unstable();
    begins.dedup();
    Ok(begins)
}

/// Returns how many wrong answers of the operation another call outlasts (it begins earlier and ends later), and the
/// percentage of right answers that a call outlasts. Returns no cases unless `found` has a contradiction for each wrong
/// answer. `calls` must be ordered by begin.
fn outlasted_of(
    alloc: Global,
    calls: &[Made],
    found: &Found,
    odd: &Odd,
) -> Result<Share, AllocError> {
    let begins = begins_of_wrong(alloc, found)?;
    let (mut last, mut wrong, mut others) = (0u64, Share::default(), Share::default());
    if u64::try_from(begins.len()).unwrap_or(0) != odd.wrong {
        return Ok(wrong);
    }
    for call in calls {
        if is_answer(*call, odd.operation) {
            let is_outlasted = last > call.ended;
            match begins.binary_search(&call.begun) {
                Ok(_) => wrong.add(is_outlasted),
                Err(_) => others.add(is_outlasted),
            }
        }
        last = last.max(call.ended);
    }
    Ok(wrong.against(others))
}

/// `growth_of` returns `None` if the recording has fewer keys than this: with few keys, a table that grows is an
/// unlikely cause.
const MANY_KEYS: usize = 64;

/// `growth_of` returns `None` if fewer keys than this are known to be present after all calls: the set then has hardly
/// grown.
const LEAST_PRESENT: u64 = 32;

/// `growth_of` returns `None` if fewer keys than this are in use at the given moment: a table that grows can only lose
/// changes of keys in use.
const LEAST_ACTIVE: u64 = 8;

/// Returns whether a key is in use at a moment: the first of its calls begins before the moment, and the last ends
/// after it. `calls` are the calls on the key, ordered by begin.
fn is_active(calls: &[Made], moment: u64) -> bool {
    match (calls.first(), calls.last()) {
        (Some(first), Some(last)) => first.begun < moment && moment < last.ended,
        _ => false,
    }
}

/// Returns the numbers of keys if many keys are added: after all calls, at least four times as many keys as the opening
/// keys are known to be present, and many keys are in use at `moment`. Returns `None` otherwise. `keys` are all keys of
/// the recording.
fn growth_of(
    alloc: Global,
    runs: &Runs<'_>,
    keys: &[u32],
    moment: u64,
) -> Result<Option<Growth>, AllocError> {
    if keys.len() < MANY_KEYS {
        return Ok(None);
    }
    let mut active = 0u64;
    for key in keys {
        let is_active = is_active(runs.made_of(*key), moment);
        active = active.saturating_add(u64::from(is_active));
    }
    let full = Fullness::of(alloc, runs)?;
    let (from, to) = (full.before(0), full.before(NEVER));
    let is_large = to >= LEAST_PRESENT && to >= from.saturating_mul(4);
    let growth = Growth {
        moment,
        from,
        to,
        active,
    };
    Ok((is_large && active >= LEAST_ACTIVE).then_some(growth))
}

/// Returns the further facts about a recording that is not linearizable. `keys` are all keys of the recording. `moment`
/// is the first moment such that some key's calls up to this moment are not linearizable. `found` is the result of
/// `find_all`; `neighbours` has the completed changes of all keys. Fails only if an allocation fails. Allocates.
pub fn further_of(
    alloc: Global,
    runs: &Runs<'_>,
    keys: &[u32],
    moment: u64,
    found: &Found,
    neighbours: &Neighbours,
) -> Result<Further, AllocError> {
    Ok(match found.odd {
        Some(odd) if odd.operation == Operation::Add => Further {
            unseen: unseen_of(runs, found, neighbours)?,
            outlasted: outlasted_of(alloc, &runs.recorded.calls, found, &odd)?,
            moment,
            ..Further::default()
        },
        Some(_) => Further::default(),
        None => Further {
            moment,
            swap: swap_of(alloc, runs, found)?,
            growth: growth_of(alloc, runs, keys, moment)?,
            ..Further::default()
        },
    })
}
