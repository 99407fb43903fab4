ghost use Rattle.std.specs.Prelude.{◌≡◌, IfOk, IsTrue, length};
ghost use Rattle.lset_steps.specs.Rows.{IsSmall};

use crate::chain_walk::{chain_met, keys_of};
use crate::flaws;
use crate::lists::BrokenList;
use lset_replay::Steps;
use lset_steps::{Action, ChainKey, Event, Local, Told, opening_words};
use lset_text::Cause;
use lset_words::{Call, Layout, MOST_NODES, MOST_QUOTA, MOST_THREADS};
use std::alloc::{AllocError, Global};

/// A broken list (a list without one of its checks) during a run: its shared words and the private state of each
/// thread.
#[derive(Drop)]
pub struct BrokenWorld {
    alloc: Global,
    broken: BrokenList,
    words: Vec<u64>,
    locals: Vec<Local>,
}

/// Returns whether all numbers in a thread's private state are within their limits. If they are, computing with them
/// cannot overflow.
fn is_small(local: &Local) -> bool
    ensures { IsTrue result → IsSmall local.now }
{
    local.thread < MOST_THREADS
        && local.quota <= MOST_QUOTA
        && local.used <= local.quota
        && local.pred < MOST_NODES
        && local.curr < MOST_NODES
        && local.succ < MOST_NODES
        && local.node < MOST_NODES
}

/// Returns the value that `action` reads or writes: the stored value for a store, otherwise the current value of the
/// word. Returns `None` if the list does not have the word that `action` accesses.
fn sight(words: &[u64], action: Action) -> Option<u64> {
    let (Action::Load(word) | Action::Exchange(word, _, _) | Action::Store(word, _)) = action;
    let held = *words.get(word as usize)?;
    match action {
        Action::Store(_, value) => Some(value),
        Action::Load(_) | Action::Exchange(_, _, _) => Some(held),
    }
}

/// Performs the write of `action` if `action` is a store, or a compare-and-exchange that found the expected value.
fn write(words: &mut Vec<u64>, action: Action, seen: u64) {
    let (word, value) = match action {
        Action::Store(word, value) => (word, value),
        Action::Exchange(word, old, new) if seen == old => (word, new),
        Action::Load(_) | Action::Exchange(_, _, _) => return,
    };
    if let Some(held) = words.get_mut(word as usize) {
        *held = value;
    }
}

impl BrokenWorld {
    /// Creates a broken list (a list without one of its checks) that contains `keys`, before the first event. Returns
    /// `AllocError` if an allocation fails.
    pub fn opened(
        alloc: Global,
        broken: BrokenList,
        layout: &Layout,
        keys: &[u32],
    ) -> Result<BrokenWorld, AllocError>
        requires { length keys.now ≡ layout.now.opening }
    {
        let mut locals = Vec::new(alloc);
        for thread in 0..layout.threads() {
            locals.push(Local::idle(layout, thread))?;
        }
        Ok(BrokenWorld {
            alloc,
            broken,
            words: opening_words(alloc, layout, keys)?,
            locals,
        })
    }

    /// Starts a call. Returns `NoThread` if the thread does not exist, and `Busy` if the thread already has a pending
    /// call.
    fn begin(&mut self, thread: u32, call: Call) -> Result<Told, Cause> {
        let broken = self.broken;
        let local = self.locals.get_mut(thread as usize).ok_or(Cause::NoThread)?;
        if local.pc != 0 {
            return Err(Cause::Busy);
        }
        *local = flaws::begun(broken, call, local);
        Ok(Told {
            answer: None,
            change: None,
        })
    }

    /// Executes the next step of a thread. Returns `NoThread` if the thread does not exist, `Idle` if the thread has no
    /// pending call, and `Lost` if the step would access a word that the list does not have.
    fn go(&mut self, thread: u32) -> Result<Told, Cause> {
        let broken = self.broken;
        let local = self.locals.get_mut(thread as usize).ok_or(Cause::NoThread)?;
        if local.pc == 0 {
            return Err(Cause::Idle);
        }
        if !is_small(local) {
            return Err(Cause::Lost);
        }
        let action = flaws::next_action(broken, local);
        let seen = sight(&self.words, action).ok_or(Cause::Lost)?;
        write(&mut self.words, action, seen);
        let change = flaws::effect_of(broken, local, seen);
        let fed = flaws::fed_by(broken, local, seen);
        *local = fed.local;
        Ok(Told {
            answer: fed.answer,
            change,
        })
    }
}

impl Steps for BrokenWorld {
    fn held(&self, t: u32) -> Option<Local> {
        self.locals.get(t as usize).copied()
    }

    fn ahead(&self, t: u32) -> Option<(Action, u64)> {
        let local = self.locals.get(t as usize)?;
        if local.pc == 0 || !is_small(local) {
            return None;
        }
        let action = flaws::next_action(self.broken, local);
        Some((action, sight(&self.words, action)?))
    }

    fn make(&mut self, event: Event) -> Result<Told, Cause> {
        match event {
            Event::Begin(thread, call) => self.begin(thread, call),
            Event::Go(thread) => self.go(thread),
        }
    }

    fn met(&self) -> Result<Vec<ChainKey>, AllocError> {
        chain_met(self.alloc, &self.words)
    }

    fn keys(&self) -> Result<Vec<u32>, AllocError> {
        keys_of(self.alloc, &self.met()?)
    }
}
