//! The sentences that say what ran at the same time as changes that were undone or reported twice. A change is an add or
//! remove that returned true. It was undone if its key was lost or came back although no call changed the key again. It
//! was reported twice if two overlapping calls returned true and only one of them can have made the change.

use crate::patterns::is_clear;
use std::alloc::AllocError;
use tool_facts::{Meets, Share};

/// What can have run at the same time as a change.
#[derive(Clone, Copy)]
pub enum Met {
    /// The first calls of the key.
    FirstCalls,
    /// Another add or remove of the key, successful or not.
    OwnKey,
    /// A change of another key.
    OtherKeys,
}

impl Met {
    fn share(self, meets: &Meets) -> Share {
        match self {
            Met::FirstCalls => meets.first,
            Met::OwnKey => meets.own,
            Met::OtherKeys => meets.others,
        }
    }

    /// Returns whether such calls ran during most of the changes that were undone or reported twice, clearly more often
    /// than during other changes.
    pub fn is_clear(self, meets: &Meets) -> bool {
        is_clear(self.share(meets))
    }

    /// Writes how often such calls ran, as a sentence that ends the line.
    pub fn put(self, out: &mut String, meets: &Meets) -> Result<(), AllocError> {
        let Share { count, of, usual } = self.share(meets);
        let what = match self {
            Met::FirstCalls => "the first calls of the key were still running",
            Met::OwnKey => "another add or remove of the key overlapped the change",
            Met::OtherKeys => "a change of another key overlapped the change",
        };
        if meets.has_more_contradictions {
            write!(out, "{count} of {of} checked times")?;
        } else {
            write!(out, "{count} of the {of} times")?;
        }
        let changes = if meets.has_more_changes {
            "sampled"
        } else {
            "all"
        };
        writeln!(
            out,
            " that a change was undone or reported twice, {what} (of {changes} changes: {usual}%)"
        )
    }

    /// Writes the conclusion from such calls, for a diagnosis without a likely cause.
    pub fn put_conclusion(self, out: &mut String) -> Result<(), AllocError> {
        out.push_str(match self {
            Met::FirstCalls => "the first calls of a key seem to disturb each other: ",
            Met::OwnKey => "calls of one key seem to disturb each other: ",
            Met::OtherKeys => "changes of different keys seem to disturb each other: ",
        })
    }
}

/// Writes how few of the changes that were undone or reported twice overlapped other adds and removes.
pub(crate) fn put_neither(out: &mut String, meets: &Meets) -> Result<(), AllocError> {
    let (own, others, of) = (meets.own.count, meets.others.count, meets.own.of);
    let checked = if meets.has_more_contradictions {
        "checked times"
    } else {
        "times"
    };
    writeln!(
        out,
        "of {of} {checked} that a change was undone or reported twice, only {own} times another add or remove of the key overlapped the change, and only {others} times a change of another key"
    )
}
