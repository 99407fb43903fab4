use crate::picture::Picture;
use crate::refusal::Refusal;
use lset_words::CallRecord;

fn clashes_in(keys: &[u32], refusal: &Refusal, number: usize, made: &CallRecord) -> bool {
    match refusal {
        Refusal::Unknown { .. } => false,
        Refusal::Twice { call, .. }
        | Refusal::Missing { call, .. }
        | Refusal::HistoryReply { call, .. }
        | Refusal::SetReply { call, .. } => number == *call as usize,
        Refusal::TooEarly { call, other, .. } => {
            number == *call as usize || number == *other as usize
        }
        Refusal::WrongSet { left } => {
            let key = made.call.key().0;
            left.contains(&key) != keys.contains(&key)
        }
    }
}

/// Returns whether the call `made`, whose number is `number`, contradicts a rejected order and is therefore drawn in
/// red. A call contradicts the order if the reason for the rejection names it. If the final keys are wrong, a call
/// contradicts the order if its key is a final key of either the order or the report, but not of both.
pub(crate) fn is_clash(picture: &Picture, number: usize, made: &CallRecord) -> bool {
    match &picture.refusal {
        None => false,
        Some(refusal) => clashes_in(&picture.keys, refusal, number, made),
    }
}
