//! Decides whether one operation alone is wrong, and finds its wrong answers. An answer is a completed call that
//! changed nothing: a `contains`, or an `add` or `remove` that returned false. An operation alone is wrong if the
//! recording is not linearizable, but all calls except the answers of this operation are. An answer is then wrong if
//! these calls are not linearizable with this one answer added.

use crate::stream_calls::stream_call;
use lset_judge::{Judge, StreamFault, Verdict};
use lset_words::{Presence, increases};
use std::alloc::{AllocError, Global};
use tool_calls::{KeyState, Made, NEVER, Operation, Pending, Recorded, has_order};

/// Returns `true` if a call is an answer of `operation`: a completed call that changed nothing. Does not allocate.
pub fn is_answer(call: Made, operation: Operation) -> bool {
    call.operation == operation && call.reads()
}

/// Returns the calls on a key except the answers of `operation` (its completed calls that changed nothing). Fails only
/// if an allocation fails. Allocates.
pub fn without(
    alloc: Global,
    calls: &[Made],
    operation: Operation,
) -> Result<Vec<Made>, AllocError> {
    let mut others = Vec::new(alloc);
    for call in calls {
        if !is_answer(*call, operation) {
            others.push(*call)?;
        }
    }
    Ok(others)
}

/// Returns `true` if the calls on a key, except the answers of `operation` (its completed calls that changed nothing),
/// are linearizable. `opening` is the key's state before the calls. `left` is the state after the calls; if `None`,
/// every final state is accepted. Fails only if an allocation fails. Allocates.
pub fn is_explained_without(
    alloc: Global,
    calls: &[Made],
    operation: Operation,
    opening: Presence,
    left: Option<Presence>,
) -> Result<bool, AllocError> {
    let others = without(alloc, calls, operation)?;
    has_order(alloc, &others, opening, left)
}

/// Returns `true` if the judge (crate `lset_judge`) finds all calls of a recording, except the answers of `operation`
/// (its completed calls that changed nothing), linearizable. If `is_cut`, every set of final keys is accepted. Returns
/// `false` if the judge cannot read the recording. Fails only if an allocation fails. Allocates.
pub fn is_judged_without(
    alloc: Global,
    recorded: &Recorded,
    operation: Operation,
    is_cut: bool,
) -> Result<bool, AllocError> {
    if !increases(&recorded.opening) || !increases(&recorded.left) {
        return Ok(false);
    }
    let mut judge = Judge::new(alloc, &recorded.opening)?;
    for call in &recorded.calls {
        if is_answer(*call, operation) {
            continue;
        }
        match judge.add(stream_call(*call)) {
            Ok(()) => {}
            Err(StreamFault::Memory) => return Err(AllocError),
            Err(_) => return Ok(false),
        }
    }
    let verdict = if is_cut {
        judge.close_cut_off()?
    } else {
        judge.close(&recorded.left)?
    };
    Ok(matches!(verdict, Verdict::Linearizable))
}

/// The maximum number of steps of the search for wrong answers, over all keys. A step looks at one call that begins
/// after a tested answer. Without a limit, a long recording could need a number of steps that grows with the square of
/// its length.
const MOST_STEPS: u64 = 50_000_000;

/// The wrong answers of an operation. If any one of them is added to all calls that are not answers of the operation,
/// these calls are not linearizable.
#[derive(Drop)]
pub struct WrongAnswers {
    /// The wrong answers, grouped by key in the order in which keys were added. The answers of a key are ordered by
    /// end.
    pub wrong: Vec<Made>,
    /// The number of steps that the search can still make (see `MOST_STEPS`).
    steps: u64,
    /// Whether each answer was tested and, for each key, the calls without the wrong answers are linearizable. If
    /// false, the operation can have more wrong answers.
    pub is_exact: bool,
}

/// The state of a pass over the calls on a key, in the order of their begins and ends.
#[derive(Drop)]
struct Walk<'a> {
    alloc: Global,
    operation: Operation,
    /// The calls that have not begun yet, ordered by begin.
    rest: &'a [Made],
    /// The final state of the key; `None` if every final state is accepted.
    left: Option<Presence>,
    /// The state of the key after the calls so far, without the answers of the operation.
    key: KeyState,
    /// The calls that have begun and end later, including answers of the operation.
    pending: Pending,
}

impl Walk<'_> {
    /// Returns `true` if an answer is wrong: added alone to the other calls, it makes them not linearizable. `call` is
    /// the answer; its end is the current moment, and its reply does not agree with the state `self.key`. Follows the
    /// later calls with the answer and without it, until the answer can make no difference any more. If the steps in
    /// `found` run out, returns `false` and sets `is_exact` to false.
    fn is_wrong(&self, call: Made, found: &mut WrongAnswers) -> Result<bool, AllocError> {
        let mut with = self.key.copied(self.alloc)?;
        if !with.flip(call.ended) {
            return Ok(true);
        }
        let mut key = self.key.copied(self.alloc)?;
        let mut pending = self.pending.copied(self.alloc)?;
        for next in self.rest {
            if found.steps == 0 {
                found.is_exact = false;
                return Ok(false);
            }
            found.steps = found.steps.saturating_sub(1);
            if self.both_end(&mut key, &mut with, &mut pending, next.begun) {
                return Ok(true);
            }
            if with.is_like(&key) {
                return Ok(false);
            }
            if !is_answer(*next, self.operation) {
                key.begin(*next)?;
                with.begin(*next)?;
                pending.push(*next)?;
            }
        }
        Ok(self.both_end(&mut key, &mut with, &mut pending, NEVER) || !with.may_be_left(self.left))
    }

    /// Processes the calls that end before the moment `at`, in a state without the tested answer (`key`) and in a state
    /// with the answer (`with`). Returns `true` if the reply of a call does not fit the state `with`: the answer is
    /// then wrong.
    fn both_end(
        &self,
        key: &mut KeyState,
        with: &mut KeyState,
        pending: &mut Pending,
        at: u64,
    ) -> bool {
        for _ in 0..pending.len() {
            let Some(call) = pending.next_before(at) else {
                return false;
            };
            if is_answer(call, self.operation) {
                continue;
            }
            let _explained = key.settle(call);
            if !with.settle(call) {
                return true;
            }
        }
        false
    }

    /// Processes the calls that end before the moment `at`, in the order of their ends. Adds the wrong answers among
    /// them to `found`.
    fn end_before(&mut self, at: u64, found: &mut WrongAnswers) -> Result<(), AllocError> {
        for _ in 0..self.pending.len() {
            let Some(call) = self.pending.next_before(at) else {
                return Ok(());
            };
            if !is_answer(call, self.operation) {
                let _explained = self.key.settle(call);
            } else if !self.key.satisfies(call) && self.is_wrong(call, found)? {
                found.wrong.push(call)?;
            }
        }
        Ok(())
    }
}

/// Returns `true` if the calls on a key without the answers in `wrong` are linearizable. Calls are identified by their
/// begins, which are all different.
fn is_rest_explained(
    alloc: Global,
    calls: &[Made],
    wrong: &[Made],
    opening: Presence,
    left: Option<Presence>,
) -> Result<bool, AllocError> {
    let mut begins = Vec::new(alloc);
    for call in wrong {
        begins.push(call.begun)?;
    }
    begins.sort_unstable();
    let mut others = Vec::new(alloc);
    for call in calls {
        if begins.binary_search(&call.begun).is_err() {
            others.push(*call)?;
        }
    }
    has_order(alloc, &others, opening, left)
}

impl WrongAnswers {
    /// Creates an empty collection. Does not allocate.
    pub fn new(alloc: Global) -> WrongAnswers {
        WrongAnswers {
            wrong: Vec::new(alloc),
            steps: MOST_STEPS,
            is_exact: true,
        }
    }

    /// Adds the wrong answers among the calls on a key. `calls` are all calls on the key, ordered by begin. Without the
    /// answers of `operation` (its completed calls that changed nothing), they must be linearizable, from the state
    /// `opening` to the final state `left` (`None`: to any state). Fails only if an allocation fails. Allocates.
    pub fn add_of_key(
        &mut self,
        alloc: Global,
        calls: &[Made],
        operation: Operation,
        opening: Presence,
        left: Option<Presence>,
    ) -> Result<(), AllocError> {
        let before = self.wrong.len();
        let mut walk = Walk {
            alloc,
            operation,
            rest: calls,
            left,
            key: KeyState::new(alloc, opening),
            pending: Pending::new(alloc),
        };
        for (i, call) in calls.iter().enumerate() {
            walk.rest = calls.get(i..).unwrap_or(&[]);
            walk.end_before(call.begun, self)?;
            if !is_answer(*call, operation) {
                walk.key.begin(*call)?;
            }
            walk.pending.push(*call)?;
        }
        walk.rest = &[];
        walk.end_before(NEVER, self)?;
        let wrong = self.wrong.get(before..).unwrap_or(&[]);
        if !is_rest_explained(alloc, calls, wrong, opening, left)? {
            self.is_exact = false;
        }
        Ok(())
    }
}
