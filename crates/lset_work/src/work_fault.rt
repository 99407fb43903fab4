use lset_live::{LiveSet, Running, Seat};
use std::fmt;
use thiserror::Error;

/// The cause of a `WorkFault`.
#[derive(Clone, Copy, Debug, PartialEq, Eq, Error)]
pub enum WorkCause {
    /// The number of programs differs from the number of seats (per-thread handles to the set), or not all seats of the
    /// set were passed to `work`. (A seat that was merged into a passed seat counts as passed.) No thread was started.
    #[error("the number of programs differs from the number of seats, or seats are missing")]
    Programs,
    /// The system refused to start a thread. The threads that were started before have ended.
    #[error("the system refused to start a thread")]
    Spawn,
    /// The gate (a callback that permits or refuses each call) stopped a program: it refused a call, and no further
    /// call of the program was made. All threads have ended.
    #[error("the gate returned false")]
    Gate,
    /// An allocation failed. No thread was started.
    #[error("out of memory")]
    Memory,
}

/// The error of `work`. After `Programs` and `Memory`, no thread was started, and `back` contains the set and the seats
/// (per-thread handles to the set), unchanged. After any other cause, `back` is `None`.
#[derive(Drop, Error)]
#[error("{cause}")]
pub struct WorkFault<M: Running> {
    pub cause: WorkCause,
    pub back: Option<(LiveSet<M>, Vec<Seat<M>>)>,
}

impl<M: Running> fmt::Debug for WorkFault<M> {
    fn fmt<W: fmt::Write>(&self, f: &mut fmt::Formatter<W>) -> fmt::Result {
        f.debug_struct("WorkFault")
            .field("cause", &self.cause)
            .finish_non_exhaustive()
    }
}
