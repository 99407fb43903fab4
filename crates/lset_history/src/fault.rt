ghost use Rattle.std.specs.Prelude.{◌≡◌};
ghost use Rattle.lset_history.specs.declared.fault.OrderFault.TheVariants.{Memory};

use std::alloc::AllocError;
use thiserror::Error;

/// An error of `History::begin` or `History::end`. If several errors apply, the first in the order of the variants is
/// returned. An error leaves the history unchanged.
#[derive(Clone, Copy, Debug, PartialEq, Eq, Error)]
pub enum HistoryFault {
    /// The history has no thread with the given number.
    #[error("no such thread")]
    NoThread,
    /// The thread already has a pending call.
    #[error("the thread already has a pending call")]
    Busy,
    /// The history has no call with the given number, or the call has already ended.
    #[error("no pending call has this number")]
    NotOpen,
    /// The moment (a number that dates the start or the end of a call) is 0, or is not after every earlier start and
    /// end.
    #[error("the moment is 0, or not above every earlier one")]
    Time,
    /// An allocation failed.
    #[error("out of memory")]
    Memory,
}

/// The first error in an order of calls, with the number of the call. The whole order is searched for one kind of error
/// before the next kind. If several errors are of the same kind, the first in the order is reported.
#[derive(Clone, Copy, Debug, PartialEq, Eq, Error)]
pub enum OrderFault {
    /// The history has no call with the given number.
    #[error("no call has the number {0}")]
    Unknown(u32),
    /// The call is in the order more than once.
    #[error("call {0} is in the order twice")]
    Twice(u32),
    /// The completed call is not in the order. If several calls are missing, the smallest number is reported.
    #[error("call {0} has ended and is not in the order")]
    Missing(u32),
    /// The reply in the order differs from the reply in the history, or from the sequential set's reply after the
    /// preceding calls of the order.
    #[error("call {0} has another reply")]
    WrongReply(u32),
    /// In the order, the call precedes a call that had already ended when the call began.
    #[error("call {0} is ordered before a call that had ended before call {0} began")]
    TooEarly(u32),
    /// The final keys differ from the keys of the sequential set after all calls, or do not increase strictly.
    #[error("the keys are not the final keys of the order, or do not increase")]
    WrongSet,
    /// An allocation failed.
    #[error("out of memory")]
    Memory,
}

impl From<AllocError> for OrderFault {
    ghost from_gives = { λ _ fault. fault ≡ Memory };

    fn from(_error: AllocError) -> OrderFault {
        OrderFault::Memory
    }
}
