//! Finds repairs of a contradiction (two calls on one key that no order explains). A repair is an alteration after
//! which the calls around the contradiction are linearizable: one call has the opposite reply, one call is left out, or
//! one more change of the key is added. The repairs show which reply is wrong.

use crate::contradictions::Clash;
use crate::key_calls::KeyCalls;
use crate::key_order::has_order;
use crate::made_calls::{Made, NEVER, Operation, other};
use crate::stretches::{Stretch, sure_before};
use lset_words::Presence;
use std::alloc::{AllocError, Global};

/// How many calls on the key after a contradiction a repair must explain, in addition to the calls around the
/// contradiction. If no repair explains the first 24 calls, for example since another contradiction follows, fewer are
/// tried.
const AHEAD: [usize; 3] = [24, 8, 2];

/// The maximum number of calls around a contradiction (two calls on a key that no order explains). If there are more,
/// no repair is searched among these calls, since each possible repair is judged with all of them.
const MOST_AROUND: usize = 300;

/// The calls on a key around a contradiction, as they were known at a later moment: a call that ended after this moment
/// is pending or, if the call changed nothing, missing.
#[derive(Drop)]
struct Around {
    /// A moment before the contradiction. The calls began after this moment.
    from: u64,
    /// The calls, ordered by begin.
    calls: Vec<Made>,
    /// The state of the key (present or absent) at the moment `from`.
    state: Presence,
    /// The final state of the key; `None` if it is unknown, or if more calls follow.
    left: Option<Presence>,
}

/// The repairs of a contradiction: alterations after which the calls around it are linearizable.
#[derive(Drop)]
pub struct Repairs {
    /// Calls with a reply that can be the wrong one: if any one of them had the opposite reply, the calls around the
    /// contradiction would be linearizable.
    pub turned: Vec<Made>,
    /// Adds and removes that returned false. If any one of them were left out, the calls around the contradiction would
    /// be linearizable.
    pub dropped: Vec<Made>,
    /// `true` if the calls around the contradiction would be linearizable with one more add or remove of the key during
    /// the contradiction.
    pub change: bool,
}

impl Repairs {
    fn is_empty(&self) -> bool {
        self.turned.is_empty() && self.dropped.is_empty() && !self.change
    }
}

/// Returns the calls on a key that begin before the moment `until` and after a moment before the contradiction `clash`
/// at which the state of the key is known. `stretches` (groups of overlapping changes) provide this moment. `None` if
/// there are more than `MOST_AROUND` such calls.
fn calls_around(
    alloc: Global,
    key: &KeyCalls,
    stretches: &[Stretch],
    clash: &Clash,
    until: u64,
) -> Result<Option<Around>, AllocError> {
    let (from, state) = match sure_before(stretches, clash.begun()) {
        Some(sure) => (sure.ended, sure.leaves.unwrap_or(key.opening)),
        None => (0, key.opening),
    };
    let mut calls = Vec::new(alloc);
    for call in key.after(from) {
        if call.begun >= until {
            break;
        }
        if calls.len() >= MOST_AROUND {
            return Ok(None);
        }
        if let Some(cut) = call.cut_at(until.saturating_sub(1)) {
            calls.push(cut)?;
        }
    }
    let left = if until == NEVER { key.left } else { None };
    Ok(Some(Around {
        from,
        calls,
        state,
        left,
    }))
}

/// Returns when the call number `ahead` (counted from 0) after the contradiction `clash` began; `NEVER` if fewer calls
/// follow.
fn moment_ahead(key: &KeyCalls, clash: &Clash, ahead: usize) -> u64 {
    key.after(clash.until)
        .get(ahead)
        .map_or(NEVER, |call| call.begun)
}

impl Around {
    /// Returns `true` if `calls` are linearizable from `state` on, and can leave the final state `left`.
    fn is_explained(&self, alloc: Global, calls: &[Made]) -> Result<bool, AllocError> {
        has_order(alloc, calls, self.state, self.left)
    }

    /// Returns `true` if the calls are linearizable when `call` has the opposite reply or, if `drops`, when `call` is
    /// left out. If `call` is not one of the calls, a copy with the opposite reply is added, which can take effect from
    /// the begin of `call` on, but after the moment `from`.
    fn is_repaired(&self, alloc: Global, call: Made, drops: bool) -> Result<bool, AllocError> {
        let mut calls = Vec::new(alloc);
        for one in &self.calls {
            if *one != call {
                calls.push(*one)?;
            } else if !drops {
                calls.push(one.turned())?;
            }
        }
        if !self.calls.contains(&call) {
            if drops {
                return Ok(false);
            }
            let turned = Made {
                begun: self.from.saturating_add(1).max(call.begun),
                ..call.turned()
            };
            calls.push(turned)?;
            calls.sort_unstable_by_key(|one| one.begun);
        }
        self.is_explained(alloc, &calls)
    }

    /// Returns `true` if the calls are linearizable with one more change of the key: an add or remove that runs during
    /// the whole contradiction `clash` and changes the key to the state that its second call needs.
    fn is_repaired_by_change(&self, alloc: Global, clash: &Clash) -> Result<bool, AllocError> {
        let change = Made {
            begun: clash.begun(),
            ended: clash.until,
            thread: 0,
            key: 0,
            operation: Operation::that_makes(other(clash.was)),
            reply: if clash.until == NEVER {
                None
            } else {
                Some(true)
            },
        };
        let mut calls = Vec::new(alloc);
        for one in &self.calls {
            if one.begun == change.begun {
                calls.push(change)?;
            }
            calls.push(*one)?;
        }
        if calls.len() == self.calls.len() {
            calls.push(change)?;
            calls.sort_unstable_by_key(|call| call.begun);
        }
        self.is_explained(alloc, &calls)
    }
}

/// Adds a call to the list unless the list already contains the call.
fn add(calls: &mut Vec<Made>, call: Made) -> Result<(), AllocError> {
    if !calls.contains(&call) {
        calls.push(call)?;
    }
    Ok(())
}

/// Returns the calls whose reply can be the wrong one: the two calls of the contradiction `clash`, the call that shows
/// the key's state before its group of changes (`stretch.read`), and at most 8 adds or removes that ran during the
/// contradiction, returned false, and would have changed the key to the state that the second call needs.
fn candidates(alloc: Global, key: &KeyCalls, clash: &Clash) -> Result<Vec<Made>, AllocError> {
    let mut found = Vec::new(alloc);
    for call in [clash.first, clash.second].into_iter().flatten() {
        add(&mut found, call)?;
    }
    if let Some(stretch) = clash.stretch {
        if let Some(read) = stretch.read {
            add(&mut found, read)?;
        }
    }
    let operation = Operation::that_makes(other(clash.was));
    let silent = key.refusals(alloc, operation, clash.begun(), clash.until)?;
    for call in silent.iter().take(8) {
        add(&mut found, *call)?;
    }
    Ok(found)
}

/// Returns the repairs after which the calls `around` a contradiction are linearizable. Only calls in `candidates` are
/// altered or left out.
fn repairs_until(
    alloc: Global,
    clash: &Clash,
    around: &Around,
    candidates: &[Made],
) -> Result<Repairs, AllocError> {
    let mut repairs = Repairs {
        turned: Vec::new(alloc),
        dropped: Vec::new(alloc),
        change: around.is_repaired_by_change(alloc, clash)?,
    };
    for call in candidates {
        if around.is_repaired(alloc, *call, false)? {
            repairs.turned.push(*call)?;
        }
        let is_refusal = call.reads() && call.operation != Operation::Contains;
        if is_refusal && around.is_repaired(alloc, *call, true)? {
            repairs.dropped.push(*call)?;
        }
    }
    Ok(repairs)
}

/// Returns the repairs of the contradiction `clash`: alterations after which the calls around it, and the next calls on
/// the key, are linearizable. Empty if none is found. `stretches` are all groups of overlapping changes of the key.
/// Allocates.
pub fn repairs_of(
    alloc: Global,
    key: &KeyCalls,
    stretches: &[Stretch],
    clash: &Clash,
) -> Result<Repairs, AllocError> {
    let candidates = candidates(alloc, key, clash)?;
    for ahead in AHEAD {
        let until = moment_ahead(key, clash, ahead);
        let Some(around) = calls_around(alloc, key, stretches, clash, until)? else {
            continue;
        };
        let repairs = repairs_until(alloc, clash, &around, &candidates)?;
        if !repairs.is_empty() {
            return Ok(repairs);
        }
    }
    Ok(Repairs {
        turned: Vec::new(alloc),
        dropped: Vec::new(alloc),
        change: false,
    })
}

/// Returns `true` if the opposite reply of `call` was expected: the key's calls that had begun by the end of `call` are
/// not linearizable, but are with the opposite reply. Starts from a known state of the key before the contradiction
/// `clash`; `stretches` are all groups of overlapping changes of the key. Returns `false` if `call` is not among at
/// most `MOST_AROUND` calls since this state. Allocates.
pub fn is_expected(
    alloc: Global,
    key: &KeyCalls,
    stretches: &[Stretch],
    clash: &Clash,
    call: Made,
) -> Result<bool, AllocError> {
    let until = call.ended.saturating_add(1);
    match calls_around(alloc, key, stretches, clash, until)? {
        Some(around) if around.calls.contains(&call) => {
            let is_told = around.is_explained(alloc, &around.calls)?;
            Ok(!is_told && around.is_repaired(alloc, call, false)?)
        }
        _ => Ok(false),
    }
}
