//! Finds periods of sequential calls: no call in such a period began while another call was running.

use crate::made_calls::Made;
use std::alloc::{AllocError, Global};

/// Counts of the calls that began while another call was running.
#[derive(Drop)]
pub struct Crossings {
    /// `counts[i]` is the number of calls among the first i + 1 that began while another call was running.
    counts: Vec<u32>,
}

impl Crossings {
    /// Counts the calls that began while an earlier call in `calls` was running. `calls` must be ordered by begin.
    /// Allocates.
    pub fn of(alloc: Global, calls: &[Made]) -> Result<Crossings, AllocError> {
        let mut counts = Vec::new(alloc);
        let (mut count, mut latest) = (0u32, 0u64);
        for call in calls {
            if latest > call.begun {
                count = count.saturating_add(1);
            }
            latest = call.ended.max(latest);
            counts.push(count)?;
        }
        Ok(Crossings { counts })
    }

    /// Returns how many of the first `count` calls began while another call was running.
    fn up_to(&self, count: usize) -> u32 {
        self.counts.get(count.wrapping_sub(1)).copied().unwrap_or(0)
    }

    /// Returns `true` if the calls that began at the moments from `since` to `until` are sequential: none of them began
    /// while another call was running. `calls` must be the calls that were passed to `of`.
    pub fn has_none(&self, calls: &[Made], since: u64, until: u64) -> bool {
        let first = calls.partition_point(|call| call.begun < since);
        let end = calls.partition_point(|call| call.begun <= until);
        self.up_to(first) == self.up_to(end)
    }
}
