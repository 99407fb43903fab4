ghost use Rattle.std.specs.Prelude.{◌≡◌};
ghost use Rattle.lset_schedule.specs.declared.gen_fault.GenFault.TheVariants.{Memory};

use lset_words::{MOST_QUOTA, MOST_THREADS};
use std::alloc::{AllocError, AllocFailed};
use thiserror::Error;

/// The error of `generate` or `programs`. If several errors apply, the first variant is returned.
#[derive(Clone, Copy, Debug, PartialEq, Eq, Error)]
pub enum GenFault {
    /// The number of threads is 0 or above 64.
    #[error("the number of threads is outside 1 to {MOST_THREADS}")]
    Threads,
    /// The quota (the maximum number of successful adds per thread) is above 16,384.
    #[error("the quota is above {MOST_QUOTA}")]
    Quota,
    /// `keys` is 0, so no key can be drawn.
    #[error("there are no keys to choose from")]
    Keys,
    /// An allocation failed.
    #[error("out of memory")]
    Memory,
}

impl From<AllocError> for GenFault {
    ghost from_gives = { λ _ g. g ≡ Memory };

    fn from(_error: AllocError) -> GenFault {
        GenFault::Memory
    }
}

impl<T: Drop> From<AllocFailed<T>> for GenFault {
    ghost from_gives = { λ _ g. g ≡ Memory };

    fn from(_error: AllocFailed<T>) -> GenFault {
        GenFault::Memory
    }
}
