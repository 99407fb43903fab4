use lset_words::Reply;

/// The reason why an order is rejected: the first error in the order, with the facts that prove it. Calls are counted
/// from 0, the entries of the order (its places) from 1.
#[derive(Drop)]
pub enum Refusal {
    /// The order names call number `call`, but the history has only `calls` calls.
    Unknown {
        call: u32,
        calls: u32,
    },
    /// The order contains the call more than once. `first` and `second` are the first two places of the call in the
    /// order.
    Twice {
        call: u32,
        first: u64,
        second: u64,
    },
    /// The call ended at `moment` (a position in the history) with `reply`, but is missing from the order.
    Missing {
        call: u32,
        moment: u32,
        reply: Reply,
    },
    /// In the order, the call has the reply `says`. In the history, the call has the reply `ended`.
    HistoryReply {
        call: u32,
        place: u64,
        says: Reply,
        ended: Reply,
    },
    /// In the order, the call has the reply `says`. The sequential set, which has the keys `keys` at this place in the
    /// order, returns `answer`. If the call has ended, its reply in the history is `says`.
    SetReply {
        call: u32,
        place: u64,
        says: Reply,
        keys: Vec<u32>,
        answer: Reply,
    },
    /// The order has `call` before `other`, but `call` started at moment `begun`, after `other` had ended at moment
    /// `ended`. Moments are positions in the history.
    TooEarly {
        call: u32,
        begun: u32,
        other: u32,
        ended: u32,
    },
    /// After all calls in the order, the set has the keys `left`, but the report has other final keys.
    WrongSet {
        left: Vec<u32>,
    },
}
