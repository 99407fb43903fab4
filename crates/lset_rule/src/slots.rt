//! The slots of a thread (nodes reserved for its adds), and the other state that a thread keeps between two calls.
ghost use Rattle.std.specs.Prelude.{◌≡◌};
ghost use Rattle.lset_steps.specs.Steps.{idle};
ghost use Rattle.lset_rule.specs.OwnSlots.{slots_of, resting};

use lset_steps::Local;
use lset_words::{Call, Key, Layout};

/// The state that a thread keeps between two calls: its number, the number of its slots (nodes reserved for its adds),
/// and how many slots it has used. The rest of its private state does not affect the next call.
#[derive(Clone, Copy)]
pub struct OwnSlots {
    pub thread: u32,
    pub quota: u32,
    pub used: u32,
}

impl OwnSlots {
    /// Returns the slots of thread `thread` (nodes reserved for its adds) before its first call.
    pub fn unused(layout: &Layout, thread: u32) -> OwnSlots
        ensures { result ≡ slots_of (idle layout.now.quota thread) }
    {
        OwnSlots {
            thread,
            quota: layout.quota(),
            used: 0,
        }
    }

    /// Returns the part of a thread's private state that the thread keeps after a call.
    pub(crate) fn of(local: &Local) -> OwnSlots
        ensures { result ≡ slots_of local.now }
    {
        OwnSlots {
            thread: local.thread,
            quota: local.quota,
            used: local.used,
        }
    }

    /// Returns the private state of a thread that has the given slots (nodes reserved for its adds) and no pending
    /// call.
    pub(crate) fn resting(self) -> Local
        ensures { result ≡ resting self }
    {
        Local {
            thread: self.thread,
            quota: self.quota,
            used: self.used,
            call: Call::Contains(Key(0)),
            pc: 0,
            reply: None,
            pred: 0,
            curr: 0,
            succ: 0,
            node: 0,
            pkey: 0,
            ckey: 0,
        }
    }
}
