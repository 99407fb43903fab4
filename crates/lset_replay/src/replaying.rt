ghost use Rattle.std.specs.Prelude.{◌≡◌, ◌≤◌, ◌^◌, List, length, IfOk, OnOk, IfErr};
ghost use Rattle.lset_words.specs.Words.{Opening};
ghost use Rattle.lset_schedule.specs.Plan.{view};
ghost use Rattle.lset_schedule.specs.Plan as plan;
ghost use Rattle.lset_steps.specs.Steps.{Table};
ghost use Rattle.lset_steps.specs.Worlds.{WorldState};
ghost use Rattle.lset_lists.specs.Tables.{table_of};
ghost use Rattle.lset_report.specs.Report as report;
ghost use Rattle.lset_report.specs.Texts.{HasWordsOfVersion};
ghost use Rattle.lset_replay.specs.declared.events.LineEvent.{LineEvent};
ghost use Rattle.lset_replay.specs.Events.{IsInLimits, events_from};
ghost use Rattle.lset_replay.specs.Follows.{AreSteps, HasFollowed, IsStopped};
ghost use Rattle.lset_replay.specs.Reports.{Replays, IsExplained, IsRefusal};

use crate::ReplayFault;
use crate::events::event_of;
use crate::order::sorted_places;
use crate::recorder::Recorder;
use crate::start::world_of;
use crate::steps::Steps;
use lset_lists::{List, Task, on_list, placement_explains_runs};
use lset_report::{Report, order_of};
use lset_schedule::{Line, Schedule};
use lset_steps::Machine;
use lset_steps::laws::{has_account, listed_content};
use lset_text::{Cause, LineFault};
use std::alloc::Global;

/// Converts the error that stopped a replay to a `ReplayFault`. `Memory` is the only cause that reaches the last arm.
fn refusal(stopped: LineFault) -> ReplayFault
    ensures { (T : Table) (op : Opening) (events : List LineEvent) → IsStopped T op events stopped → IsRefusal T op events result }
{
    match stopped.cause {
        Cause::NoThread => ReplayFault::NoThread(stopped.line),
        Cause::Busy => ReplayFault::Busy(stopped.line),
        Cause::Idle => ReplayFault::Idle(stopped.line),
        _ => ReplayFault::Memory,
    }
}

/// Executes and records the events in `lines`, in order. `first` is the line number of the first element of `lines`.
/// Stops at the first event that is not enabled or cannot be recorded, and returns the event's line and cause. The
/// cause is `Memory` if an allocation failed.
pub(crate) fn follow<W: Steps>(
    world: &mut W,
    recorder: &mut Recorder,
    first: u64,
    lines: &[Line],
) -> Result<(), LineFault>
    requires { first ≤ 2 ^ 32 }
    ensures followed { (T : Table) (state : W → WorldState) → AreSteps T W W.makes state
        → HasFollowed T recorder.old.history.opening (events_from first lines.now) 0 (state world.old) recorder.old
        → OnOk result (HasFollowed T recorder.old.history.opening (events_from first lines.now)
        (length (events_from first lines.now)) (state world.new) recorder.new) }
    ensures stopped { (T : Table) (state : W → WorldState) → AreSteps T W W.makes state
        → HasFollowed T recorder.old.history.opening (events_from first lines.now) 0 (state world.old) recorder.old
        → IfErr result (IsStopped T recorder.old.history.opening (events_from first lines.now)) }
{
    for (index, line) in lines.iter().enumerate() {
        let (next, times) = event_of(first + index as u64, *line);
        for _done in 0..times {
            match world.make(next.event) {
                Ok(told) => {
                    if let Err(cause) = recorder.follow(next.event, told) {
                        return Err(LineFault::at(next.line, cause));
                    }
                }
                Err(cause) => return Err(LineFault::at(next.line, cause)),
            }
        }
    }
    Ok(())
}

/// Implements `replay` for the list with the step table `M` (its atomic steps).
fn replay_on<M: Machine>(alloc: Global, schedule: &Schedule) -> Result<Report, ReplayFault>
    requires { IsInLimits (view schedule.now) }
    ensures replays { Replays M.table (view schedule.now) result }
    ensures explained { IfOk result (λ r. IsExplained (report.view r)) }
    ensures in_words { plan.HasWordsOfVersion (view schedule.now) → IfOk result (λ r. HasWordsOfVersion (report.view r)) }
{
    has_account::<M>();
    listed_content::<M>();
    placement_explains_runs::<M>();
    let mut world = world_of::<M>(alloc, schedule)?;
    let mut recorder = Recorder::new(alloc, schedule)?;
    let first = schedule.first_event_line();
    if let Err(stopped) = follow(&mut world, &mut recorder, first, &schedule.lines) {
        return Err(refusal(stopped));
    }
    let places = sorted_places(alloc, &recorder.places)?;
    let order = order_of(alloc, &places)?;
    let keys = world.content()?;
    Ok(Report {
        version: schedule.version,
        kind: schedule.kind,
        history: recorder.history,
        order,
        keys,
    })
}

/// A replay of a schedule, as a task that `on_list` runs on the list of the schedule's kind.
#[derive(Clone, Copy)]
struct Replaying<'a> {
    alloc: Global,
    schedule: &'a Schedule,
}

impl Task for Replaying<'_> {
    type Out = Result<Report, ReplayFault>;

    ghost may = { λ task kind. IsInLimits (view task.schedule.now) };

    ghost done = { λ task table result. Replays table (view task.schedule.now) result
        × IfOk result (λ r. IsExplained (report.view r))
        × (plan.HasWordsOfVersion (view task.schedule.now) → IfOk result (λ r. HasWordsOfVersion (report.view r))) };

    fn run<M: List>(self) -> Result<Report, ReplayFault> {
        replay_on::<M>(self.alloc, self.schedule)
    }
}

/// Executes a schedule and returns a report with the history of the run, a linearization of the history, and the final
/// keys.
///
/// `schedule` must be within the limits: 1 to 64 threads, a quota of 0 to 16,384 successful adds per thread, at most
/// 1,048,576 opening keys in strictly increasing order, and at most 1,000,000 events. Every schedule from
/// `read_schedule` is within the limits. The report has the version of the schedule. `write_report` accepts the report
/// if that version allows the schedule's calls and opening keys.
///
/// A call that changed the set takes effect at the event of its change, even if the call is pending. Any other
/// completed call takes effect at the first moment between its start and its end when its reply is correct.
/// Linearizability is due to Herlihy and Wing.
///
/// Example, from `crates/first_program`:
///
///     let schedule = read_schedule(alloc, text.as_bytes())?;
///     Ok(replay(alloc, &schedule)?)
///
/// # Errors
///
/// If an event is not enabled, returns the number of its line with one of these causes:
/// - `NoThread`: the schedule has no such thread;
/// - `Busy`: the thread already has a pending call;
/// - `Idle`: the thread has no pending call.
///
/// Returns `Memory` if an allocation fails. Does not block.
pub fn replay(alloc: Global, schedule: &Schedule) -> Result<Report, ReplayFault>
    requires { IsInLimits (view schedule.now) }
    ensures replays { Replays (table_of schedule.now.kind) (view schedule.now) result }
    ensures explained { IfOk result (λ r. IsExplained (report.view r)) }
    ensures in_words { plan.HasWordsOfVersion (view schedule.now) → IfOk result (λ r. HasWordsOfVersion (report.view r)) }
{
    on_list(schedule.kind, Replaying { alloc, schedule })
}
