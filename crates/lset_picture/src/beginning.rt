//! Finds the moment at which the picture of a rejected order starts. A moment is a position in the history, counted
//! from 1.
use crate::picture::Picture;
use crate::refusal::Refusal;
use lset_words::CallRecord;

/// Returns the smallest key that is in only one of the two lists, or `None` if the lists are equal. Both lists must be
/// in strictly increasing order.
fn first_apart(keys: &[u32], others: &[u32]) -> Option<u32> {
    for (key, other) in keys.iter().zip(others.iter()) {
        if key != other {
            return Some((*key).min(*other));
        }
    }
    let rest = if keys.len() < others.len() {
        others.get(keys.len())
    } else {
        keys.get(others.len())
    };
    rest.copied()
}

/// Returns the moment (a position in the history, from 1) when the first call on `key` starts, or `None` if there is no
/// such call.
fn first_begun(calls: &[CallRecord], key: u32) -> Option<u32> {
    for made in calls {
        if made.call.key().0 == key {
            return Some(made.begun);
        }
    }
    None
}

/// Returns the moment (a position in the history, from 1) at which the picture of a rejected order starts: the start of
/// the call that the reason names or, of two named calls, of the call that had ended before the other started. If the
/// final keys are wrong, it is the start of the first call on the smallest differing key. Returns `None` if there is no
/// such call.
pub(crate) fn clash_begins(picture: &Picture) -> Option<u32> {
    let calls = picture.history.calls();
    match &picture.refusal {
        None | Some(Refusal::Unknown { .. }) => None,
        Some(
            Refusal::Twice { call, .. }
            | Refusal::Missing { call, .. }
            | Refusal::HistoryReply { call, .. }
            | Refusal::SetReply { call, .. }
            | Refusal::TooEarly { other: call, .. },
        ) => calls.get(*call as usize).map(|made| made.begun),
        Some(Refusal::WrongSet { left }) => {
            first_begun(calls, first_apart(left, &picture.keys)?)
        }
    }
}
