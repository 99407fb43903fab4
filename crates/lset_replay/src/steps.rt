//! The interface for running a schedule on a list or on a broken list (a list with one check removed).
ghost use Rattle.std.specs.Prelude.{Result};
ghost use Rattle.lset_text.specs.declared.causes.Cause.{Cause};
ghost use Rattle.lset_steps.specs.declared.Event.{Event};
ghost use Rattle.lset_steps.specs.declared.Told.{Told};
ghost use Rattle.lset_replay.specs.Made.{HasMade};

use lset_steps::{Action, ChainKey, Event, Local, Machine, StepFault, Told, World};
use lset_text::Cause;
use std::alloc::AllocError;

/// The world of a run: the shared words of a list or of a broken list (a list with one check removed), and the private
/// states of its threads. The events of the run are executed in the world.
pub trait Steps {
    /// Specifies the effect of an event. The default, which is used for broken lists (lists with one check removed),
    /// allows any effect.
    ghost makes: { Self → Event → Result Told Cause → Self → Type 0 } = { λ world event made after. Unit {0} };

    /// Returns the private state of thread `t`, or `None` if there is no such thread.
    fn held(&self, t: u32) -> Option<Local>;

    /// Returns the next access of thread `t` to a shared word, and the value that a load will read, a store will write,
    /// or a compare-and-exchange will find. Returns `None` if the thread does not exist or has no pending call or, on a
    /// broken list (a list with one check removed), if the step would fail with `Lost`.
    fn ahead(&self, t: u32) -> Option<(Action, u64)>;

    /// Executes an event and returns its effect. An event that is not enabled changes nothing, and the error is
    /// `NoThread`, `Busy` or `Idle`. On a broken list (a list with one check removed), the error can also be `Lost`.
    fn make(&mut self, event: Event) -> Result<Told, Cause>
        ensures { makes self.old event result self.new };

    /// Returns the key of each node between head and tail, in the order of the links, and whether the node is marked.
    /// Returns `AllocError` if an allocation fails.
    fn met(&self) -> Result<Vec<ChainKey>, AllocError>;

    /// Returns the keys of the unmarked nodes between head and tail, in increasing order. Returns `AllocError` if an
    /// allocation fails.
    fn keys(&self) -> Result<Vec<u32>, AllocError>;
}

impl<M: Machine> Steps for World<M> {
    ghost makes = { λ world event made after. HasMade M.table world event made after };

    fn held(&self, t: u32) -> Option<Local> {
        self.holds(t)
    }

    fn ahead(&self, t: u32) -> Option<(Action, u64)> {
        self.next(t)
    }

    #[inline(always)]
    fn make(&mut self, event: Event) -> Result<Told, Cause> {
        match self.step(event) {
            Ok(told) => Ok(told),
            Err(StepFault::NoThread) => Err(Cause::NoThread),
            Err(StepFault::Busy) => Err(Cause::Busy),
            Err(StepFault::Idle) => Err(Cause::Idle),
        }
    }

    fn met(&self) -> Result<Vec<ChainKey>, AllocError> {
        self.chain()
    }

    fn keys(&self) -> Result<Vec<u32>, AllocError> {
        self.content()
    }
}
