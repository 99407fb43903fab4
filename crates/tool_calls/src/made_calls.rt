//! A call in a recording of a concurrent set, and what the reply of the call shows: the state of its key (present or
//! absent) before and after the call took effect.

use lset_text::call_word;
use lset_words::{Call, Key, Presence};
use std::alloc::AllocError;

/// The end of a pending call: a call that the recording contains without an end and a reply. Later than every moment of
/// a recording.
pub const NEVER: u64 = u64::MAX;

/// An operation of a set.
#[derive(Clone, Copy, PartialEq, Eq)]
pub enum Operation {
    Add,
    Remove,
    Contains,
}

impl Operation {
    /// Returns the operation's name in a recording: `add`, `remove` or `contains`.
    pub fn word(self) -> &'static str {
        match self {
            Operation::Add => "add",
            Operation::Remove => "remove",
            Operation::Contains => "contains",
        }
    }

    /// Returns the operation that changes a key to `state`: `Add` for present, `Remove` for absent.
    pub fn that_makes(state: Presence) -> Operation {
        match state {
            Presence::Present => Operation::Add,
            Presence::Absent => Operation::Remove,
        }
    }
}

/// Returns the opposite state: present for absent, absent for present.
pub fn other(state: Presence) -> Presence {
    match state {
        Presence::Present => Presence::Absent,
        Presence::Absent => Presence::Present,
    }
}

/// A call in a recording.
#[derive(Clone, Copy, PartialEq, Eq)]
pub struct Made {
    /// The moment (a time in the recording) at which the call began.
    pub begun: u64,
    /// The moment at which the call ended; `NEVER` if the call is pending (the recording has no end and no reply).
    pub ended: u64,
    /// The number of the thread that made the call.
    pub thread: u32,
    /// The argument of the call.
    pub key: u32,
    /// What the call does with the key.
    pub operation: Operation,
    /// Whether the call returned true; `None` if the call is pending.
    pub reply: Option<bool>,
}

impl Made {
    /// Returns the state that the key must have just before the call takes effect, as the reply shows: an add that
    /// returned true needs the key absent. `None` if the call is pending.
    pub fn needs(self) -> Option<Presence> {
        let yes = self.reply?;
        let is_present = match self.operation {
            Operation::Contains | Operation::Remove => yes,
            Operation::Add => !yes,
        };
        Some(if is_present {
            Presence::Present
        } else {
            Presence::Absent
        })
    }

    /// Returns `true` if the call changed its key or can have changed it: an add or remove that returned true or is
    /// pending.
    pub fn changes(self) -> bool {
        self.operation != Operation::Contains && self.reply != Some(false)
    }

    /// Returns the state to which the call changed its key, or can have changed it if the call is pending. `None` if
    /// the call changes nothing: a contains, or a call that returned false.
    pub fn makes(self) -> Option<Presence> {
        if !self.changes() {
            return None;
        }
        match self.operation {
            Operation::Add => Some(Presence::Present),
            Operation::Remove => Some(Presence::Absent),
            Operation::Contains => None,
        }
    }

    /// Returns the state of the key just after the call takes effect, as the reply shows: an add leaves the key
    /// present, whether it returned true or false. `None` if the call is pending.
    pub fn leaves(self) -> Option<Presence> {
        let needs = self.needs()?;
        Some(self.makes().unwrap_or(needs))
    }

    /// Returns `true` if the call ended and changed nothing: a contains, or an add or remove that returned false.
    pub fn reads(self) -> bool {
        self.reply.is_some() && !self.changes()
    }

    /// Returns the call with the opposite reply. A pending call is returned as it is.
    pub fn turned(self) -> Made {
        Made {
            reply: self.reply.map(|yes| !yes),
            ..self
        }
    }

    /// Returns the call as it was known at `moment`: if the call ended later, as a pending call. `None` if the call
    /// ended later and changed nothing, since its reply then says nothing about the time up to `moment`. The call must
    /// have begun by `moment`.
    pub fn cut_at(self, moment: u64) -> Option<Made> {
        if self.ended <= moment {
            return Some(self);
        }
        if self.reads() {
            return None;
        }
        Some(Made {
            ended: NEVER,
            reply: None,
            ..self
        })
    }

    /// Returns `true` if the call was running at a moment from `since` to `until`, both included.
    pub fn overlaps(self, since: u64, until: u64) -> bool {
        self.begun <= until && self.ended >= since
    }
}

/// Appends the thread, operation, key, begin, end and reply of a call to `out`, with spaces between them. A pending
/// call has `-` for its end and its reply. Allocates.
pub fn put_call(out: &mut String, call: Made) -> Result<(), AllocError> {
    let (thread, word, key, begun) = (call.thread, call.operation.word(), call.key, call.begun);
    write!(out, "{thread} {word} {key} {begun} ")?;
    match call.reply {
        Some(yes) if call.ended < NEVER => {
            let ended = call.ended;
            write!(out, "{ended} {yes}")
        }
        _ => out.push_str("- -"),
    }
}

/// Returns the word for a state in messages: `present` or `absent`.
pub fn state_word(state: Presence) -> &'static str {
    match state {
        Presence::Present => "present",
        Presence::Absent => "absent",
    }
}

/// Removes the calls that had ended by `moment` from `calls`.
pub fn drop_ended(calls: &mut Vec<Made>, moment: u64) {
    calls.retain(|call| call.ended > moment);
}
