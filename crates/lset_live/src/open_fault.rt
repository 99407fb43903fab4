use lset_words::{MOST_OPENING, MOST_QUOTA, MOST_THREADS};
use thiserror::Error;

/// An error of `open` or `open_with`.
#[derive(Clone, Copy, Debug, PartialEq, Eq, Error)]
pub enum OpenFault {
    /// The number of seats (one for each thread) is outside 1 to `MOST_THREADS`.
    #[error("the number of seats is outside 1 to {MOST_THREADS}")]
    Seats,
    /// The quota (the maximum number of successful adds per thread) is above `MOST_QUOTA`.
    #[error("the quota is above {MOST_QUOTA}")]
    Quota,
    /// The opening keys (the keys at the start) do not increase strictly, or there are more than `MOST_OPENING`.
    #[error("the opening keys do not increase strictly, or there are more than {MOST_OPENING}")]
    Opening,
    /// An allocation failed.
    #[error("out of memory")]
    Memory,
}
