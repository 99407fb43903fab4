//! Counts the calls that overlap a change of their key. If there are only a few such calls, the verdict `Linearizable`
//! is weak evidence.

use crate::stream::BEHIND_ALL;

/// Counts for the changes of a key, except the changes that never end: how many are pending now, and when the last
/// completed change ended.
#[derive(Clone, Copy)]
pub(crate) struct Changes {
    pending: u64,
    last_end: u64,
}

impl Changes {
    /// Returns the counts for one pending change. The last completed change ended at `last_end`. 0 means that no change
    /// has ended.
    pub(crate) fn one(last_end: u64) -> Changes {
        Changes {
            pending: 1,
            last_end,
        }
    }

    /// Returns the counts for a key without pending changes. The last completed change ended at `last_end`. 0 means
    /// that no change has ended.
    pub(crate) fn ended(last_end: u64) -> Changes {
        Changes {
            pending: 0,
            last_end,
        }
    }

    /// Counts a change that starts now and ends at `until`. If `until` is at least `BEHIND_ALL`, the change never ends
    /// and is not counted.
    pub(crate) fn begin(&mut self, until: u64) {
        if until < BEHIND_ALL {
            self.pending = self.pending.saturating_add(1);
        }
    }

    /// Records that a change of the key ends at `moment`.
    pub(crate) fn end(&mut self, moment: u64) {
        self.pending = self.pending.saturating_sub(1);
        self.last_end = moment;
    }

    /// Returns whether a pending call overlaps a change of its key by another call. `is_change` must be true if and
    /// only if the pending call is itself a change that ends at some moment. `begun` is the moment when it started.
    pub(crate) fn overlap(self, is_change: bool, begun: u64) -> bool {
        self.pending > u64::from(is_change) || begun < self.last_end
    }
}
