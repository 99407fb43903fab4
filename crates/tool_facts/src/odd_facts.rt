//! Facts about the operation that alone is wrong, in a recording that is not linearizable: how many of its answers are
//! wrong, which calls ran during the wrong answers, and what the next answers were.
//!
//! An answer is a completed call that changed nothing: a `contains`, or an `add` or `remove` that returned false. An
//! operation alone is wrong if all calls except its answers are linearizable. An answer of this operation is then wrong
//! if these calls are not linearizable with this one answer added. A moment is a time in the recording.

use crate::odd::{WrongAnswers, is_answer, is_explained_without, is_judged_without, without};
use lset_words::Presence;
use std::alloc::{AllocError, Global};
use tool_calls::{
    Clash, Crossings, Fullness, KeyCalls, Made, Neighbours, Operation, Place, Refused, Runs,
    Stretch, clash_of, other, stretches_of, symptom_of_reply,
};

/// Facts about the operation that alone is wrong: all calls except its answers (its completed calls that changed
/// nothing) are linearizable. A wrong answer is an answer that contradicts these calls. All counts are over all keys of
/// the recording.
#[derive(Clone, Copy)]
pub struct Odd {
    /// The operation that alone is wrong.
    pub operation: Operation,
    /// The number of wrong answers. If any one of them is added to all calls that are not answers of the operation,
    /// these calls are not linearizable.
    pub wrong: u64,
    /// Whether `wrong` counts all wrong answers. If false, the search was stopped, or there are further answers that
    /// are wrong only together.
    pub is_exact: bool,
    /// The number of all answers of the operation, right and wrong.
    pub of: u64,
    /// The number of wrong answers that found their key absent.
    pub missed: u64,
    /// The number of wrong answers that found their key present.
    pub found: u64,
    /// The number of wrong answers that overlap a change of their key to the state that the answer did not see: an
    /// `add` if the answer found the key absent, otherwise a `remove`. Calls that returned false do not count; calls
    /// with an unknown reply do.
    pub running: u64,
    /// The number of wrong answers that overlap a change of their key to the state that the answer saw: a `remove` if
    /// the answer found the key absent, otherwise an `add`. Calls that returned false do not count; calls with an
    /// unknown reply do.
    pub starting: u64,
    /// The number of wrong answers that overlap an `add` or `remove` of another key that returned true.
    pub beside: u64,
    /// The number of wrong answers that overlap a `remove` of another key that returned true.
    pub removing: u64,
    /// The number of wrong answers that overlap an `add` of another key that returned true.
    pub adding: u64,
    /// The number of wrong answers that overlap another `add` or `remove` of their key, whatever its reply.
    pub same: u64,
    /// The number of wrong answers that overlap another `add` of their key, whatever its reply.
    pub same_adds: u64,
    /// The number of wrong answers that overlap another `remove` of their key, whatever its reply.
    pub same_removes: u64,
    /// The number of wrong answers that did not see a change by their own thread: the last change of the key to the
    /// state that the answer did not see had ended before the answer began. Leaves out answers for which an earlier
    /// change to this state overlapped the last one, since either can have taken effect last.
    pub by_same: u64,
    /// The number of wrong answers that did not see a change by another thread: the last change of the key to the state
    /// that the answer did not see had ended before the answer began. Leaves out answers for which an earlier change to
    /// this state overlapped the last one, since either can have taken effect last.
    pub by_others: u64,
    /// The largest number of moments from the end of a change to the begin of the wrong answer that did not see it,
    /// among the answers in `by_same` and `by_others`. 0 if there are none.
    pub latest: u64,
    /// The number of answers in `by_same` and `by_others` that began at most 50 moments (`SOON`) after the end of the
    /// change that they did not see.
    pub soon: u64,
    /// The number of wrong answers that overlap another `add` or `remove` of their key, whatever its reply, or an `add`
    /// or `remove` of another key that returned true.
    pub active: u64,
    /// The number of wrong answers that overlap another `add` or `remove` of any key, whatever its reply.
    pub writing: u64,
    /// The percentage of sampled right answers of the operation that overlap another `add` or `remove` of any key,
    /// whatever its reply. For comparison with `writing`. 0 if there are no right answers.
    pub usually_writing: u64,
    /// The percentage of sampled right answers of the operation that overlap an `add` or `remove` of another key that
    /// returned true. For comparison with `beside`. 0 if there are no right answers.
    pub usual: u64,
    /// The percentage of sampled right answers of the operation that overlap another `add` or `remove` of their key,
    /// whatever its reply. For comparison with `same`. 0 if there are no right answers.
    pub usually_same: u64,
    /// The percentage of sampled right answers of the operation that overlap another `add` or `remove` of their key,
    /// whatever its reply, or an `add` or `remove` of another key that returned true. For comparison with `active`. 0
    /// if there are no right answers.
    pub usually_active: u64,
    /// Whether the sample of right answers, for the percentages, leaves out some right answers.
    pub has_more_answers: bool,
    /// The number of wrong answers after which the next completed call of the operation on the key was right, although
    /// no other change of the key can have come between.
    pub then_right: u64,
    /// The number of wrong answers after which the next completed call of the operation on the key was wrong, too,
    /// although no change of the key can have come between.
    pub then_wrong: u64,
    /// The number of wrong answers with a contradicting earlier call (or opening state) that was kept as a
    /// contradiction: at most 400 (`MOST_PLACED`).
    pub placed: u64,
    /// How many contradictions in `placed` are among calls that do not overlap: no call, on any key, that began during
    /// the contradiction began while another call was running.
    pub apart: u64,
    /// Whether the final keys of the recording were ignored in the search for this operation. Can be true only for
    /// `contains`.
    pub puts_left_aside: bool,
    /// The number of keys with wrong answers.
    pub keys: u64,
    /// Whether no call of the operation ever found a key with wrong answers present, although a call of the operation
    /// found another key present.
    pub never_finds: bool,
    /// The number of wrong answers that agree with the last earlier call on the key by their own thread: this call left
    /// the key in the state that the answer saw.
    pub own: u64,
    /// The number of wrong answers for which the other keys were examined, at most 200. 0 unless the operation is
    /// `contains` and all its wrong answers found their key absent.
    pub compared: u64,
    /// How many answers in `compared` began while no other key was known to be present. A key is known to be present if
    /// the last completed call on the key left it present.
    pub lonely: u64,
    /// The percentage of sampled calls of any operation that began while at most one key was known to be present. For
    /// comparison with `lonely`. 0 if `compared` is 0.
    pub usually_lonely: u64,
    /// How many answers in `compared` began while no larger key was known to be present. 0 if more than 16 keys
    /// (`MOST_KEYS`) have calls.
    pub largest: u64,
    /// Among sampled calls of `contains` that found their key present, the percentage that began while no larger key
    /// was known to be present. For comparison with `largest`. 100 if no call found its key; 0 if `compared` is 0 or
    /// more than 16 keys have calls.
    pub usually_largest: u64,
}

/// The operation that alone is wrong (all calls except its completed calls that changed nothing are linearizable), with
/// its wrong answers.
#[derive(Drop)]
pub struct OddFound {
    operation: Operation,
    /// Whether the final keys of the recording were ignored in the search for this operation.
    puts_left_aside: bool,
    /// The wrong answers: completed calls of the operation that contradict the other calls.
    pub answers: WrongAnswers,
}

/// If a recording has more calls than this, `is_odd` judges only each key alone. The judgement of all calls together
/// has the same result but needs more time.
const MOST_JUDGED: usize = 500_000;

/// Returns the final state of a key. Returns `None` if the final state is unknown, or if `aside` (the final keys are
/// ignored).
fn left_of(runs: &Runs<'_>, key: u32, aside: bool) -> Option<Presence> {
    if aside {
        None
    } else {
        runs.recorded.leaves(key)
    }
}

/// Returns whether `operation` alone is wrong: all calls except its answers (its completed calls that changed nothing)
/// are linearizable. `refused` are the keys with calls that are not linearizable. If `aside`, every set of final keys
/// is accepted.
fn is_odd(
    alloc: Global,
    runs: &Runs<'_>,
    refused: &[Refused],
    operation: Operation,
    aside: bool,
) -> Result<bool, AllocError> {
    for one in refused {
        let (calls, opening) = (runs.made_of(one.key), runs.recorded.opens(one.key));
        let left = left_of(runs, one.key, aside);
        if !is_explained_without(alloc, calls, operation, opening, left)? {
            return Ok(false);
        }
    }
    if runs.recorded.calls.len() > MOST_JUDGED {
        return Ok(true);
    }
    let is_cut = aside || runs.recorded.is_cut;
    is_judged_without(alloc, runs.recorded, operation, is_cut)
}

/// Returns the wrong answers of `operation`, which alone must be wrong: `is_odd` returns true for the same arguments.
fn wrong_answers(
    alloc: Global,
    runs: &Runs<'_>,
    refused: &[Refused],
    operation: Operation,
    aside: bool,
) -> Result<OddFound, AllocError> {
    let mut answers = WrongAnswers::new(alloc);
    for one in refused {
        let (calls, opening) = (runs.made_of(one.key), runs.recorded.opens(one.key));
        let left = left_of(runs, one.key, aside);
        answers.add_of_key(alloc, calls, operation, opening, left)?;
    }
    Ok(OddFound {
        operation,
        puts_left_aside: aside,
        answers,
    })
}

/// If the final keys have to be ignored, `contains` is blamed only if it has at least this many answers, and fewer than
/// half of them are wrong. A few answers that contradict the changes can be right.
const LEAST_ANSWERS: u64 = 10;

/// Returns the operation that alone is wrong, with its wrong answers. Tries `contains`, `contains` with the final keys
/// ignored, `add` and `remove`, in this order. `refused` are the keys with calls that are not linearizable. Returns
/// `None` if no operation alone is wrong. Fails only if an allocation fails. Allocates.
pub fn find_odd(
    alloc: Global,
    runs: &Runs<'_>,
    refused: &[Refused],
) -> Result<Option<OddFound>, AllocError> {
    let tries = [
        (Operation::Contains, false),
        (Operation::Contains, true),
        (Operation::Add, false),
        (Operation::Remove, false),
    ];
    for (operation, aside) in tries {
        if is_odd(alloc, runs, refused, operation, aside)? {
            let found = wrong_answers(alloc, runs, refused, operation, aside)?;
            let wrong = u64::try_from(found.answers.wrong.len()).unwrap_or(u64::MAX);
            let of = count_answers(&runs.recorded.calls, operation);
            // If the operation has only a few answers (completed calls that changed nothing), these can be right and
            // the other calls wrong, for example if an `add` was lost.
            let is_mostly_right = of >= LEAST_ANSWERS && wrong.saturating_mul(2) < of;
            let is_blamed = !aside || is_mostly_right;
            if is_blamed && !found.answers.wrong.is_empty() {
                return Ok(Some(found));
            }
        }
    }
    Ok(None)
}

/// The maximum number of adds and removes that one search for an overlap with an answer checks, to limit the time of
/// the search.
const MOST_WRITERS: usize = 100_000;

/// Adds and removes, whatever their replies, indexed to find those that overlap a call.
#[derive(Drop)]
struct Writers {
    /// The adds and removes, ordered by begin.
    calls: Vec<Made>,
    /// `latest[i]` is the latest end of the first i + 1 adds and removes; `NEVER` if one of these is pending.
    latest: Vec<u64>,
}

impl Writers {
    /// Indexes the adds and removes among `calls`, which must be ordered by begin.
    fn of(alloc: Global, calls: &[Made]) -> Result<Writers, AllocError> {
        let mut writers = Writers {
            calls: Vec::new(alloc),
            latest: Vec::new(alloc),
        };
        let mut last = 0;
        for call in calls {
            if call.operation != Operation::Contains {
                last = call.ended.max(last);
                writers.calls.push(*call)?;
                writers.latest.push(last)?;
            }
        }
        Ok(writers)
    }

    /// Returns whether an add or remove other than `answer` itself overlaps `answer`. If `operation` is given, only
    /// calls of this operation count.
    fn overlap(&self, answer: Made, operation: Option<Operation>) -> bool {
        let end = self.calls.partition_point(|call| call.begun < answer.ended);
        let calls = self.calls.get(..end).unwrap_or(&[]);
        let latest = self.latest.get(..end).unwrap_or(&[]);
        for (call, last) in calls.iter().zip(latest).rev().take(MOST_WRITERS) {
            if *last < answer.begun {
                return false;
            }
            let is_sought = operation.unwrap_or(call.operation) == call.operation;
            if is_sought && call.begun != answer.begun && call.ended > answer.begun {
                return true;
            }
        }
        false
    }
}

/// A key with wrong answers, indexed for searches. Sound calls are the calls on the key except the answers (completed
/// calls that changed nothing) of the wrong operation: they are linearizable.
#[derive(Drop)]
struct Sound {
    /// The sound calls.
    calls: KeyCalls,
    /// The stretches of the key: groups of overlapping changes. Empty if the key has at least `MOST_STRETCHED` sound
    /// calls.
    stretches: Vec<Stretch>,
    /// All adds and removes of the key, whatever their replies.
    writers: Writers,
}

/// If a key has at least this many calls, not counting the answers of the wrong operation, groups of overlapping
/// changes of the key are not searched for contradictions. The limit keeps the search short.
const MOST_STRETCHED: usize = 50_000;

/// Returns the calls on `key` without the answers (completed calls that changed nothing) of the wrong operation,
/// indexed for searches. `found` is the result of `find_odd`.
fn sound_calls(
    alloc: Global,
    runs: &Runs<'_>,
    key: u32,
    found: &OddFound,
) -> Result<Sound, AllocError> {
    let others = without(alloc, runs.made_of(key), found.operation)?;
    let opening = runs.recorded.opens(key);
    let left = left_of(runs, key, found.puts_left_aside);
    let calls = KeyCalls::new(alloc, key, others, opening, left)?;
    let stretches = if calls.calls.len() < MOST_STRETCHED {
        stretches_of(alloc, &calls)?
    } else {
        Vec::new(alloc)
    };
    let writers = Writers::of(alloc, runs.made_of(key))?;
    Ok(Sound {
        calls,
        stretches,
        writers,
    })
}

/// Returns the contradiction between the wrong answer `call` and the right calls on its key. `clash` are the
/// contradicting calls, as `clash_of` returns them.
fn place_of_answer(sound: &KeyCalls, call: Made, clash: Clash) -> Place {
    Place {
        key: sound.key,
        clash,
        symptom: symptom_of_reply(call),
        wrong: Some(call),
        silent: None,
        is_turned: true,
        begun: sound.begun_by(call.ended),
    }
}

/// Returns the facts about the wrong operation that `found` contains. All other counts are 0.
fn odd_of(found: &OddFound) -> Odd {
    Odd {
        operation: found.operation,
        wrong: u64::try_from(found.answers.wrong.len()).unwrap_or(u64::MAX),
        is_exact: found.answers.is_exact,
        of: 0,
        missed: 0,
        found: 0,
        running: 0,
        starting: 0,
        beside: 0,
        removing: 0,
        adding: 0,
        same: 0,
        same_adds: 0,
        same_removes: 0,
        by_same: 0,
        by_others: 0,
        latest: 0,
        soon: 0,
        active: 0,
        writing: 0,
        usually_writing: 0,
        usual: 0,
        usually_same: 0,
        usually_active: 0,
        has_more_answers: false,
        then_right: 0,
        then_wrong: 0,
        placed: 0,
        apart: 0,
        puts_left_aside: found.puts_left_aside,
        keys: 0,
        never_finds: false,
        own: 0,
        compared: 0,
        lonely: 0,
        usually_lonely: 0,
        largest: 0,
        usually_largest: 0,
    }
}

/// Adds one to a count.
pub(crate) fn more(count: &mut u64) {
    *count = count.saturating_add(1);
}

/// The maximum number of contradictions that are kept for wrong answers. The limit keeps the memory, and the time of
/// later searches, small.
const MOST_PLACED: usize = 400;

/// Appends the contradictions of the wrong answers to `places`, and returns the facts about the wrong operation.
/// `found` is the result of `find_odd`; `neighbours` has the completed changes of all keys. Fails only if an allocation
/// fails. Allocates.
pub fn places_of_odd(
    alloc: Global,
    runs: &Runs<'_>,
    found: &OddFound,
    places: &mut Vec<Place>,
    neighbours: &Neighbours,
) -> Result<Odd, AllocError> {
    let mut odd = odd_of(found);
    let calls = &runs.recorded.calls;
    let crossings = Crossings::of(alloc, calls)?;
    let writers = Writers::of(alloc, calls)?;
    let begins = begins_of(alloc, &found.answers.wrong)?;
    let mut sound: Option<Sound> = None;
    let mut sound_key: Option<u32> = None;
    let mut finds = false;
    for call in &found.answers.wrong {
        if sound_key != Some(call.key) {
            sound_key = Some(call.key);
            more(&mut odd.keys);
            let mut made = runs.made_of(call.key).iter();
            finds = finds || made.any(|one| has_found(*one, found.operation));
            sound = Some(sound_calls(alloc, runs, call.key, found)?);
        }
        if let Some(sound) = &sound {
            let made = runs.made_of(call.key);
            count_answer(sound, *call, &mut odd, neighbours);
            count_around(&sound.calls, made, *call, &mut odd, &begins);
            if writers.overlap(*call, None) {
                more(&mut odd.writing);
            }
            if places.len() < MOST_PLACED {
                if let Some(clash) = clash_of(&sound.calls, &sound.stretches, *call) {
                    more(&mut odd.placed);
                    if crossings.has_none(calls, clash.begun(), clash.until) {
                        more(&mut odd.apart);
                    }
                    places.push(place_of_answer(&sound.calls, *call, clash))?;
                }
            }
        }
    }
    count_usual(runs, &mut odd, neighbours, &writers, &begins);
    odd.of = count_answers(calls, found.operation);
    odd.never_finds = !finds && calls.iter().any(|one| has_found(*one, found.operation));
    if odd.operation == Operation::Contains && odd.found == 0 {
        compare_keys(alloc, runs, &found.answers.wrong, &mut odd)?;
    }
    Ok(odd)
}

/// Returns the begins of calls in increasing order.
fn begins_of(alloc: Global, calls: &[Made]) -> Result<Vec<u64>, AllocError> {
    let mut begins = Vec::new(alloc);
    for call in calls {
        begins.push(call.begun)?;
    }
    begins.sort_unstable();
    Ok(begins)
}

/// The maximum number of earlier calls on a key that are searched for the last call by a thread, to limit the time of
/// the search.
const MOST_OWN: usize = 2_000;

/// Returns whether the last call on the key by the thread of `answer`, before `answer`, left the key in the state that
/// `answer` saw. `calls` are the calls on the key, ordered by begin. Returns false if the thread has no such call among
/// the last `MOST_OWN`.
fn was_left_so(calls: &[Made], answer: Made) -> bool {
    let end = calls.partition_point(|call| call.begun < answer.begun);
    let earlier = calls.get(..end).unwrap_or(&[]).iter().rev();
    for call in earlier.take(MOST_OWN) {
        if call.thread == answer.thread {
            return call.leaves() == answer.needs();
        }
    }
    false
}

/// The maximum number of calls on a key that are checked for an overlap with a call, to limit the time of a sample.
const MOST_BEFORE: usize = 64;

/// Returns whether another add or remove of the same key, whatever its reply, overlaps the call `answer`. `calls` are
/// the calls on the key, ordered by begin. Considers only the `MOST_BEFORE` calls that began last before the end of
/// `answer`.
pub(crate) fn runs_beside(calls: &[Made], answer: Made) -> bool {
    let end = calls.partition_point(|call| call.begun < answer.ended);
    let earlier = calls.get(..end).unwrap_or(&[]).iter().rev();
    for call in earlier.take(MOST_BEFORE) {
        let is_other = call.begun != answer.begun && call.operation != Operation::Contains;
        if is_other && call.ended > answer.begun {
            return true;
        }
    }
    false
}

/// Returns whether a change of a key can have taken effect from the moment `since` to the moment `until`.
fn is_changed(sound: &KeyCalls, since: u64, until: u64) -> bool {
    sound.may_become(Presence::Present, since, until)
        || sound.may_become(Presence::Absent, since, until)
}

/// Returns the next completed call of the same operation on the key that begins after `answer` has ended. Returns
/// `None` if there is no such call, or if another change of the key can have come between. The returned call can itself
/// be a change. `calls` are all calls on the key, ordered by begin.
fn next_call(sound: &KeyCalls, calls: &[Made], answer: Made) -> Option<Made> {
    let first = calls.partition_point(|call| call.begun <= answer.ended);
    for call in calls.get(first..).unwrap_or(&[]) {
        if call.operation == answer.operation && call.reply.is_some() {
            let until = if call.changes() {
                call.begun.saturating_sub(1)
            } else {
                call.ended
            };
            let is_between = is_changed(sound, answer.begun, until);
            return if is_between { None } else { Some(*call) };
        }
        if call.changes() {
            return None;
        }
    }
    None
}

/// Counts the wrong answer `call` in `own` if it agrees with the last call on the key by its own thread, and in
/// `then_wrong` or `then_right` by the next call of the operation. `calls` are all calls on the key. `wrong` has the
/// begins of all wrong answers in increasing order.
fn count_around(sound: &KeyCalls, calls: &[Made], call: Made, odd: &mut Odd, wrong: &[u64]) {
    if was_left_so(calls, call) {
        more(&mut odd.own);
    }
    if let Some(next) = next_call(sound, calls, call) {
        match wrong.binary_search(&next.begun) {
            Ok(_) => more(&mut odd.then_wrong),
            Err(_) => more(&mut odd.then_right),
        }
    }
}

/// The maximum number of wrong answers for which the other keys are examined, to limit the time.
const MOST_COMPARED: usize = 200;

/// Returns whether a key was present after the last call on it that had ended before a moment, or in the opening state
/// if there is no such call. `calls` are the calls on the key, ordered by begin.
fn is_left_present(calls: &[Made], opening: Presence, moment: u64) -> bool {
    let (mut left, mut latest) = (Some(opening), 0);
    for call in calls {
        if call.begun >= moment {
            break;
        }
        if call.ended < moment && call.ended > latest {
            latest = call.ended;
            left = call.leaves();
        }
    }
    left == Some(Presence::Present)
}

/// Wrong answers are compared with larger keys only if at most this many keys have calls: each comparison looks at all
/// calls on these keys.
const MOST_KEYS: usize = 16;

/// Returns whether no key larger than the key of `call` was known to be present just before `call` began. At most
/// `MOST_KEYS` keys of the recording must have calls.
fn is_largest(runs: &Runs<'_>, call: Made) -> bool {
    // An opening key without calls stays present. The last `MOST_KEYS` + 1 opening keys suffice, since at least one of
    // them has no calls.
    let opening = runs.recorded.opening.iter().rev();
    for key in opening.take(MOST_KEYS.saturating_add(1)) {
        if *key > call.key && runs.place(*key) == usize::MAX {
            return false;
        }
    }
    for key in runs.used() {
        if *key > call.key
            && is_left_present(runs.made_of(*key), runs.recorded.opens(*key), call.begun)
        {
            return false;
        }
    }
    true
}

/// Samples calls of `contains` that found their key present, and returns the percentage that began while no larger key
/// was known to be present. Returns 100 if there are no such calls.
fn usually_largest(runs: &Runs<'_>) -> u64 {
    let calls = &runs.recorded.calls;
    let step = calls.len().checked_div(SAMPLED).unwrap_or(0);
    let (mut count, mut tried, mut next) = (0u64, 0u64, 0usize);
    for (index, call) in calls.iter().enumerate() {
        if index >= next && has_found(*call, Operation::Contains) {
            next = index.saturating_add(step);
            more(&mut tried);
            if is_largest(runs, *call) {
                more(&mut count);
            }
        }
    }
    count.saturating_mul(100).checked_div(tried).unwrap_or(100)
}

/// Counts the wrong answers that began while no other key, or no larger key, was known to be present. Considers the
/// first `MOST_COMPARED` answers in `wrong`.
fn compare_keys(
    alloc: Global,
    runs: &Runs<'_>,
    wrong: &[Made],
    odd: &mut Odd,
) -> Result<(), AllocError> {
    let full = Fullness::of(alloc, runs)?;
    let has_few = runs.places() <= MOST_KEYS;
    for call in wrong.iter().take(MOST_COMPARED) {
        let (key, moment) = (call.key, call.begun);
        let is_own = is_left_present(runs.made_of(key), runs.recorded.opens(key), moment);
        let others = full.before(moment).saturating_sub(u64::from(is_own));
        more(&mut odd.compared);
        if others == 0 {
            more(&mut odd.lonely);
        }
        if has_few && is_largest(runs, *call) {
            more(&mut odd.largest);
        }
    }
    odd.usually_lonely = full.share_between(&runs.recorded.calls, 0, 1);
    if has_few {
        odd.usually_largest = usually_largest(runs);
    }
    Ok(())
}

/// A sample has about this many calls, spread over the recording.
const SAMPLED: usize = 500;

/// Computes the percentages of sampled right answers that overlap changes, for comparison with the wrong answers.
/// `wrong` has the begins of the wrong answers in increasing order; `writers` has all adds and removes of the
/// recording.
fn count_usual(
    runs: &Runs<'_>,
    odd: &mut Odd,
    neighbours: &Neighbours,
    writers: &Writers,
    wrong: &[u64],
) {
    let calls = &runs.recorded.calls;
    let (mut beside, mut same, mut active, mut writing) = (0u64, 0u64, 0u64, 0u64);
    let (mut tried, mut next) = (0u64, 0usize);
    let step = calls.len().checked_div(SAMPLED).unwrap_or(0);
    for (index, call) in calls.iter().enumerate() {
        let is_other = is_answer(*call, odd.operation) && wrong.binary_search(&call.begun).is_err();
        if is_other && index < next {
            odd.has_more_answers = true;
        } else if is_other {
            next = index.saturating_add(step);
            let is_beside = neighbours.overlap(call.key, call.begun, call.ended, None);
            let is_same = runs_beside(runs.made_of(call.key), *call);
            tried = tried.saturating_add(1);
            beside = beside.saturating_add(u64::from(is_beside));
            same = same.saturating_add(u64::from(is_same));
            active = active.saturating_add(u64::from(is_beside || is_same));
            writing = writing.saturating_add(u64::from(writers.overlap(*call, None)));
        }
    }
    odd.usually_writing = percent(writing, tried);
    odd.usual = percent(beside, tried);
    odd.usually_same = percent(same, tried);
    odd.usually_active = percent(active, tried);
}

/// Returns `some` as a percentage of `all`; 0 if `all` is 0.
pub(crate) fn percent(some: u64, all: u64) -> u64 {
    some.saturating_mul(100).checked_div(all).unwrap_or(0)
}

/// Returns whether a call is of `operation` and found its key present.
fn has_found(call: Made, operation: Operation) -> bool {
    call.operation == operation && call.needs() == Some(Presence::Present)
}

/// Counts the wrong answer `call` by the state that it saw, and by the changes that overlap it. `sound` has the calls
/// on its key; `neighbours` has the completed changes of all keys.
fn count_answer(sound: &Sound, call: Made, odd: &mut Odd, neighbours: &Neighbours) {
    let Some(needs) = call.needs() else {
        return;
    };
    match needs {
        Presence::Present => more(&mut odd.found),
        Presence::Absent => more(&mut odd.missed),
    }
    if sound.calls.may_become(other(needs), call.begun, call.ended) {
        more(&mut odd.running);
    }
    if sound.calls.may_become(needs, call.begun, call.ended) {
        more(&mut odd.starting);
    }
    let (key, since, until) = (call.key, call.begun, call.ended);
    let is_beside = neighbours.overlap(key, since, until, None);
    if is_beside {
        more(&mut odd.beside);
    }
    let is_add = sound.writers.overlap(call, Some(Operation::Add));
    let is_remove = sound.writers.overlap(call, Some(Operation::Remove));
    odd.same_adds = odd.same_adds.saturating_add(u64::from(is_add));
    odd.same_removes = odd.same_removes.saturating_add(u64::from(is_remove));
    if is_add || is_remove {
        more(&mut odd.same);
    }
    if is_beside || is_add || is_remove {
        more(&mut odd.active);
    }
    count_unseen(&sound.calls, call, other(needs), odd);
    if neighbours.overlap(key, since, until, Some(Operation::Remove)) {
        more(&mut odd.removing);
    }
    if neighbours.overlap(key, since, until, Some(Operation::Add)) {
        more(&mut odd.adding);
    }
}

/// A wrong answer is counted in `soon` if it began at most this many moments (times in the recording) after the end of
/// the change that it did not see.
const SOON: u64 = 50;

/// Counts the wrong answer `call` if it did not see the last change of its key to the state `was`: by the thread of
/// this change, and by the time since then. Counts nothing if the change had not ended, or if an earlier change to the
/// same state overlaps it: either of the two can have taken effect last.
fn count_unseen(sound: &KeyCalls, call: Made, was: Presence, odd: &mut Odd) {
    let Some(change) = sound.change_before(was, call.begun) else {
        return;
    };
    if change.ended >= call.begun || !sound.no_change_runs(was, change.begun) {
        return;
    }
    if change.thread == call.thread {
        more(&mut odd.by_same);
    } else {
        more(&mut odd.by_others);
    }
    let late = call.begun.saturating_sub(change.ended);
    odd.latest = odd.latest.max(late);
    if late <= SOON {
        more(&mut odd.soon);
    }
}

/// Returns the number of answers of an operation: its completed calls that changed nothing.
fn count_answers(calls: &[Made], operation: Operation) -> u64 {
    let mut count = 0u64;
    for call in calls {
        if is_answer(*call, operation) {
            more(&mut count);
        }
    }
    count
}
