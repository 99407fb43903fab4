use crate::{MOST_OPENING, MOST_QUOTA, MOST_THREADS};
use thiserror::Error;

/// An error of `layout` or `layout_opening`. It names the argument that is outside its limits.
#[derive(Clone, Copy, Debug, PartialEq, Eq, Error)]
pub enum LayoutFault {
    /// The number of threads is 0 or above 64.
    #[error("the number of threads is outside 1 to {MOST_THREADS}")]
    Threads,
    /// The quota (successful adds that each thread may make) is above 16,384.
    #[error("the quota is above {MOST_QUOTA}")]
    Quota,
    /// There are more than 1,048,576 opening keys.
    #[error("there are more than {MOST_OPENING} opening keys")]
    Opening,
}
