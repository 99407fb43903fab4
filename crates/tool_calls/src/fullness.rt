//! Estimates how many keys the set contains at each moment of a recording.

use crate::made_calls::Made;
use crate::runs::Runs;
use lset_words::Presence;
use std::alloc::{AllocError, Global};

/// The number of keys that were known to be present, at each moment of a recording. A key is known to be present if the
/// last call on the key that ended left it present or, before any such call, if the set opened with the key.
#[derive(Drop)]
pub struct Fullness {
    /// The moments at which the number changes, in increasing order.
    ends: Vec<u64>,
    /// `counts[i]` is the number of keys after the moment `ends[i]`.
    counts: Vec<u64>,
    /// The number of opening keys.
    first: u64,
}

/// Returns the completed calls in `calls`, in the order of their ends.
fn by_ends(alloc: Global, calls: &[Made]) -> Result<Vec<Made>, AllocError> {
    let mut ended = Vec::new(alloc);
    for call in calls {
        if call.reply.is_some() {
            ended.push(*call)?;
        }
    }
    ended.sort_unstable_by_key(|call| call.ended);
    Ok(ended)
}

impl Fullness {
    /// Counts the keys that are known to be present after the end of each call. Allocates.
    pub fn of(alloc: Global, runs: &Runs<'_>) -> Result<Fullness, AllocError> {
        let opening = &runs.recorded.opening;
        let mut present = Vec::from_elem(alloc, false, runs.places())?;
        for key in opening {
            if let Some(is_present) = present.get_mut(runs.place(*key)) {
                *is_present = true;
            }
        }
        let mut count = u64::try_from(opening.len()).unwrap_or(u64::MAX);
        let mut full = Fullness {
            ends: Vec::new(alloc),
            counts: Vec::new(alloc),
            first: count,
        };
        for call in &by_ends(alloc, &runs.recorded.calls)? {
            let is_left = call.leaves() == Some(Presence::Present);
            if let Some(is_present) = present.get_mut(runs.place(call.key)) {
                if *is_present != is_left {
                    *is_present = is_left;
                    count = if is_left {
                        count.saturating_add(1)
                    } else {
                        count.saturating_sub(1)
                    };
                    full.ends.push(call.ended)?;
                    full.counts.push(count)?;
                }
            }
        }
        Ok(full)
    }

    /// Returns the number of keys that were known to be present just before `moment`.
    pub fn before(&self, moment: u64) -> u64 {
        let at = self.ends.partition_point(|end| *end < moment);
        self.counts
            .get(at.wrapping_sub(1))
            .copied()
            .unwrap_or(self.first)
    }

    /// Returns the percentage of sampled calls that began while at least `least` and at most `most` keys were known to
    /// be present. The sample has calls at equal distances in `calls`; without calls, returns 100.
    pub fn share_between(&self, calls: &[Made], least: u64, most: u64) -> u64 {
        let step = calls.len().checked_div(SAMPLED).unwrap_or(0);
        let (mut count, mut tried, mut next) = (0u64, 0u64, 0usize);
        for (index, call) in calls.iter().enumerate() {
            if index < next {
                continue;
            }
            next = index.saturating_add(step);
            tried = tried.saturating_add(1);
            let present = self.before(call.begun);
            if present >= least && present <= most {
                count = count.saturating_add(1);
            }
        }
        count.saturating_mul(100).checked_div(tried).unwrap_or(100)
    }
}

/// The sample has every call if there are fewer calls than this; otherwise at least this many calls, and less than
/// twice as many. Bounds the time of `share_between`.
const SAMPLED: usize = 500;
