//! The moment when each thread's last call ends.

ghost use Rattle.std.specs.Prelude.{◌≡◌, ◌==◌, ◌≤◌, ◌<◌, ◌^◌, ℕ, length, slice_index_or, OnOk, OnErr, if◌then◌else◌};
ghost use Rattle.lset_judge.specs.Pending.{last_end};

use std::alloc::{AllocError, Global};
use std::collections::HashMap;

/// Threads with numbers below `LOW` are stored in a vector, all other threads in a hash table.
const LOW: u32 = 65_536;

/// The moment when each thread's last call ends. Only calls that were passed to `store` count.
#[derive(Drop)]
pub(crate) struct Busy {
    /// The moment when the last call of each thread below `LOW` ends. 0 for a thread that has made no call.
    pub(crate) low: Vec<u64>,
    /// The moment when the last call of each thread with number `LOW` or higher ends. A thread that has made no call
    /// has no entry.
    pub(crate) high: HashMap<u32, u64>,
}

/// Appends zeros until the vector has at least `len` items.
fn lengthen(ends: &mut Vec<u64>, len: usize) -> Result<(), AllocError>
    ensures same { (i : ℕ) → slice_index_or ends.new.items i 0 ≡ slice_index_or ends.old.items i 0 }
    ensures long { OnOk result (len ≤ length ends.new.items) }
{
    while ends.len() < len {
        ends.push(0)?;
    }
    Ok(())
}

/// Stores `end` at index `place` of the vector. Appends zeros first if the vector is too short.
fn store(ends: &mut Vec<u64>, place: usize, end: u64) -> Result<(), AllocError>
    requires { place < 2 ^ 32 }
    ensures stored { OnOk result ((i : ℕ) → slice_index_or ends.new.items i 0 ≡ (if place == i then end else slice_index_or ends.old.items i 0)) }
    ensures same { OnErr result ((i : ℕ) → slice_index_or ends.new.items i 0 ≡ slice_index_or ends.old.items i 0) }
{
    lengthen(ends, place + 1)?;
    ends[place] = end;
    Ok(())
}

impl Busy {
    /// Returns an empty `Busy`, for threads that have made no calls. Does not allocate.
    pub(crate) fn new(alloc: Global) -> Busy {
        Busy {
            low: Vec::new(alloc),
            high: HashMap::new(alloc),
        }
    }

    /// Returns the moment when a thread's last call ends, or 0 for a thread without calls.
    pub(crate) fn last_end(&self, thread: u32) -> u64
        ensures { result ≡ last_end self.now thread }
    {
        if thread < LOW {
            match self.low.get(thread as usize) {
                Some(end) => *end,
                None => 0,
            }
        } else {
            match self.high.get(&thread) {
                Some(end) => *end,
                None => 0,
            }
        }
    }

    /// Stores the moment when a thread's last call ends. If an allocation fails, nothing changes.
    pub(crate) fn store(&mut self, thread: u32, end: u64) -> Result<(), AllocError>
        ensures stored { OnOk result ((t : ℕ) → last_end self.new t ≡ (if thread == t then end else last_end self.old t)) }
        ensures same { OnErr result ((t : ℕ) → last_end self.new t ≡ last_end self.old t) }
    {
        if thread < LOW {
            store(&mut self.low, thread as usize, end)?;
        } else {
            self.high.insert(thread, end)?;
        }
        Ok(())
    }
}
