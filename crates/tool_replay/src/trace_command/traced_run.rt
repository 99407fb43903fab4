//! Runs a schedule and writes its trace to a destination.

ghost use Rattle.lset_schedule.specs.Plan.{IsSchedule, view};

use crate::trace_command::Trace;
use crate::trace_command::trace_lines::{Lines, Sink, head_of};
use broken_lists::{broken_world_of, read_broken_schedule};
use lset_coarse::CoarseList;
use lset_fine::FineList;
use lset_lazy::LazyList;
use lset_lock_free::LockFreeList;
use lset_optimistic::OptimisticList;
use lset_replay::{Steps, TracedRun, event_of, world_of};
use lset_schedule::{Schedule, read_schedule};
use lset_steps::Machine;
use lset_words::Kind;
use std::alloc::Global;
use tool_base::Trouble;

/// Executes the events of a schedule, and writes the part of the trace after the header. Returns the exit status: 1 if
/// an event is not enabled (the trace ends there), otherwise 0.
fn trace<W: Steps + Drop, S: Sink>(
    schedule: &Schedule,
    run: TracedRun<W>,
    sink: &mut S,
) -> Result<u8, Trouble> {
    let mut run = run;
    let mut lines = Lines::to(sink);
    let mut number = schedule.first_event_line();
    for line in &schedule.lines {
        let (next, times) = event_of(number, *line);
        for _done in 0..times {
            match run.make(next)? {
                Ok(told) => lines.add(&told)?,
                Err(cause) => {
                    lines.end(Some((next.line, cause.name())))?;
                    return Ok(1);
                }
            }
        }
        number = number.saturating_add(1);
    }
    lines.end(None)?;
    Ok(0)
}

/// Writes the trace of a schedule on the list with step table `M`, and returns the exit status.
fn trace_on<M: Machine, S: Sink>(
    alloc: Global,
    schedule: &Schedule,
    chains: bool,
    sink: &mut S,
) -> Result<u8, Trouble>
    requires { IsSchedule (view schedule.now) }
{
    let world = world_of::<M>(alloc, schedule)?;
    let run = TracedRun::opened(alloc, schedule, world, chains)?;
    sink.take(&head_of(alloc, schedule, None)?)?;
    trace(schedule, run, sink)
}

/// Writes the trace of a schedule on the list that the schedule names. Uses a `match` instead of `on_list`, because a
/// task of `on_list` cannot contain `sink`.
fn trace_named<S: Sink>(
    alloc: Global,
    schedule: &Schedule,
    chains: bool,
    sink: &mut S,
) -> Result<u8, Trouble>
    requires { IsSchedule (view schedule.now) }
{
    match schedule.kind {
        Kind::Coarse => trace_on::<CoarseList, S>(alloc, schedule, chains, sink),
        Kind::Fine => trace_on::<FineList, S>(alloc, schedule, chains, sink),
        Kind::Optimistic => trace_on::<OptimisticList, S>(alloc, schedule, chains, sink),
        Kind::Lazy => trace_on::<LazyList, S>(alloc, schedule, chains, sink),
        Kind::LockFree => trace_on::<LockFreeList, S>(alloc, schedule, chains, sink),
    }
}

/// Reads a schedule from `text` and writes its trace to the destination `sink`. Returns the exit status: 1 if an event
/// is not enabled (the trace ends there), otherwise 0.
pub(crate) fn trace_into<S: Sink>(
    alloc: Global,
    options: Trace,
    text: &[u8],
    sink: &mut S,
) -> Result<u8, Trouble> {
    let Some(broken) = options.lacks else {
        let schedule = read_schedule(alloc, text)?;
        return trace_named(alloc, &schedule, options.chains, sink);
    };
    let schedule = read_broken_schedule(alloc, broken, text)?;
    let world = broken_world_of(alloc, broken, &schedule)?;
    let run = TracedRun::opened(alloc, &schedule, world, options.chains)?;
    sink.take(&head_of(alloc, &schedule, Some(broken.name()))?)?;
    trace(&schedule, run, sink)
}
