//! A recording: calls of a concurrent set, with the moments (times) at which they began and ended.

use crate::made_calls::Made;
use lset_words::Presence;

/// A recording of a set.
#[derive(Drop)]
pub struct Recorded {
    /// The keys that were present before the first call, in increasing order.
    pub opening: Vec<u32>,
    /// The calls, ordered by begin.
    pub calls: Vec<Made>,
    /// The final keys: those that are present after all calls, in increasing order.
    pub left: Vec<u32>,
    /// `true` if the recording was cut off. The final keys are then unknown.
    pub is_cut: bool,
    /// `true` if `calls` are only the first calls of a longer recording.
    pub is_part: bool,
}

impl Recorded {
    /// Returns `Present` if `key` is an opening key, otherwise `Absent`.
    pub fn opens(&self, key: u32) -> Presence {
        presence_in(&self.opening, key)
    }

    /// Returns `Present` if `key` is a final key, otherwise `Absent`. `None` if the final keys are unknown.
    pub fn leaves(&self, key: u32) -> Option<Presence> {
        if self.is_cut {
            None
        } else {
            Some(presence_in(&self.left, key))
        }
    }
}

/// Returns `Present` if `key` is in `keys`, otherwise `Absent`. `keys` must be in increasing order.
fn presence_in(keys: &[u32], key: u32) -> Presence {
    match keys.binary_search(&key) {
        Ok(_) => Presence::Present,
        Err(_) => Presence::Absent,
    }
}
