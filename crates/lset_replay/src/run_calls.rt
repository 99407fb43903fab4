//! Collects the calls of a run, for a picture or a report.
ghost use Rattle.lset_words.specs.Words.{Opens};
ghost use Rattle.lset_schedule.specs.Plan.{opening_in, view};

use crate::order::sorted_places;
use crate::recorder::Recorder;
use crate::replaying::follow;
use crate::steps::Steps;
use lset_history::History;
use lset_report::{order_of, points_of};
use lset_schedule::Schedule;
use lset_text::{Cause, LineFault};
use lset_words::{Placed, Point};
use std::alloc::{AllocError, Global};

/// The calls of a run. The run ends with the schedule's last event or before the first event that is not enabled.
#[derive(Drop)]
pub struct RunCalls {
    pub history: History,
    /// The calls that take effect, with their replies, in the order of their linearization points.
    pub order: Vec<Placed>,
    /// The linearization point (Herlihy and Wing) of each entry in `order`.
    pub points: Vec<Point>,
    /// The final keys.
    pub keys: Vec<u32>,
    /// The number of executed events.
    pub events: u32,
    /// The line number and the cause of the event that is not enabled, or `None` if all events were executed.
    pub refused: Option<LineFault>,
}

/// Executes the events of a schedule until an event is not enabled, and returns the calls of the run. No event may have
/// been executed in `world` before.
///
/// A call that changed the set takes effect at the event that made the change, even if the call is still pending. Any
/// other completed call takes effect at the first moment between its start and its end when its reply is correct. On a
/// broken list (a list with one check removed), a call without such a moment takes effect at its end. `replay` uses the
/// same code for lists that are not broken. `schedule` must be within the limits, as every schedule from
/// `read_schedule` is. Returns `AllocError` if an allocation fails.
pub fn calls_of<W: Steps + Drop>(
    alloc: Global,
    schedule: &Schedule,
    world: W,
) -> Result<RunCalls, AllocError>
    requires { Opens (opening_in (view schedule.now)) }
{
    let mut world = world;
    let mut recorder = Recorder::new(alloc, schedule)?;
    let first = schedule.first_event_line();
    let refused = match follow(&mut world, &mut recorder, first, &schedule.lines) {
        Ok(()) => None,
        Err(fault) if fault.cause == Cause::Memory => return Err(AllocError),
        Err(fault) => Some(fault),
    };
    let places = sorted_places(alloc, &recorder.places)?;
    Ok(RunCalls {
        order: order_of(alloc, &places)?,
        points: points_of(alloc, &places)?,
        keys: world.keys()?,
        events: recorder.last,
        history: recorder.history,
        refused,
    })
}
