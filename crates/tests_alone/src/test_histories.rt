//! Keys and histories that several tests use.

use crate::prelude::*;

pub const FIVE: Key = Key(5);

/// Returns the keys from 0 to `count - 1`.
pub fn increasing_keys(alloc: Global, count: u32) -> Result<Vec<u32>, AllocError> {
    let mut keys = Vec::new(alloc);
    for number in 0..count {
        keys.push(number)?;
    }
    Ok(keys)
}

/// Appends calls that do not overlap to an empty history. The starts and ends of the calls are the moments 1, 2, 3 and
/// so on.
pub fn in_turn(
    mut history: History,
    calls: &[(u32, Call, Reply)],
) -> Result<History, HistoryFault> {
    let mut at = 0u32;
    for (thread, call, reply) in calls {
        let number = history.begin(*thread, *call, at.saturating_add(1))?;
        at = at.saturating_add(2);
        history.end(number, *reply, at)?;
    }
    Ok(history)
}

pub fn reply_of(is_true: bool) -> Reply {
    if is_true { Reply::True } else { Reply::False }
}
