ghost use Rattle.std.specs.Prelude.{◌≡◌};
ghost use Rattle.lset_replay.specs.declared.fault.ReplayFault.TheVariants.{Memory};

use std::alloc::AllocError;
use thiserror::Error;

/// The error of a replay: the cause and line number of the first event that is not enabled, or `Memory`. Lines of the
/// schedule's text are counted from 1, including the header.
#[derive(Clone, Copy, Debug, PartialEq, Eq, Error)]
pub enum ReplayFault {
    /// The line names a thread that the schedule does not have.
    #[error("line {0}: NoThread")]
    NoThread(u64),
    /// The thread already has a pending call.
    #[error("line {0}: Busy")]
    Busy(u64),
    /// The thread has no pending call.
    #[error("line {0}: Idle")]
    Idle(u64),
    /// An allocation failed.
    #[error("out of memory")]
    Memory,
}

impl From<AllocError> for ReplayFault {
    ghost from_gives = { λ _ e. e ≡ Memory };

    fn from(_refused: AllocError) -> ReplayFault {
        ReplayFault::Memory
    }
}
