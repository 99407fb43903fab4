ghost use Rattle.lset_schedule.specs.Plan.{IsSchedule, view};

use lset_lists::{List, Task, on_list};
use lset_picture::Picture;
use lset_replay::{RunCalls, calls_of, world_of};
use lset_schedule::Schedule;
use std::alloc::{AllocError, Global};

/// A task that runs a schedule. `on_list` runs the task on the list of the schedule's kind.
#[derive(Clone, Copy)]
struct Running<'a> {
    alloc: Global,
    schedule: &'a Schedule,
}

impl Task for Running<'_> {
    type Out = Result<RunCalls, AllocError>;

    ghost may = { λ task kind. IsSchedule (view task.schedule.now) };

    ghost done = { λ task table result. Unit {0} };

    fn run<M: List>(self) -> Result<RunCalls, AllocError> {
        let world = world_of::<M>(self.alloc, self.schedule)?;
        calls_of(self.alloc, self.schedule, world)
    }
}

/// Runs a schedule and returns a picture of the run: the calls, an order that explains them, the linearization points,
/// and the final keys.
///
/// `schedule` must be within the limits, as every schedule from `read_schedule` is. If an event is not enabled, the
/// picture ends before that event, and names the event's line number and the cause (`NoThread`, `Busy` or `Idle`).
/// Returns `AllocError` if an allocation fails. (Such pictures of histories are due to Herlihy and Wing.)
pub(crate) fn picture_of_replay(alloc: Global, schedule: &Schedule) -> Result<Picture, AllocError>
    requires { IsSchedule (view schedule.now) }
{
    let calls = on_list(schedule.kind, Running { alloc, schedule })?;
    let refused = match calls.refused {
        Some(fault) => Some((fault.line, fault.cause.name())),
        None => None,
    };
    Ok(Picture {
        kind: schedule.kind,
        history: calls.history,
        events: Some(calls.events),
        order: calls.order,
        points: calls.points,
        keys: calls.keys,
        refusal: None,
        refused,
    })
}
