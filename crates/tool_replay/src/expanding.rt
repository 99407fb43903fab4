ghost use Rattle.std.specs.Prelude.{IfOk};
ghost use Rattle.lset_schedule.specs.Plan.{HasWordsOfVersion, view};

use crate::draft::{Draft, DraftLine};
use crate::stepping::{steps_to, take_steps};
use crate::version::smallest_version;
use lset_lists::{List, Task, on_list};
use lset_replay::Steps;
use lset_schedule::{Line, MOST_EVENTS, MOST_STEPS, Schedule};
use lset_steps::{Event, Machine, World};
use lset_text::{Cause, LineFault};
use lset_words::layout_opening;
use std::alloc::{AllocError, Global};
use tool_base::Trouble;

/// Executes the events of one line of a schedule in `world` (a list with its threads). Returns the error `TooMany` if
/// the line has more than `left` events.
fn make_plain<M: Machine>(world: &mut World<M>, line: Line, left: u32) -> Result<(), Cause> {
    if line.event_count() > left {
        return Err(Cause::TooMany);
    }
    match line {
        Line::Begin(thread, call) => {
            world.make(Event::Begin(thread, call))?;
            Ok(())
        }
        Line::Go(thread, steps) => take_steps(world, thread, steps),
    }
}

/// Executes one line of a draft, with at most `left` events. Returns the line of the schedule that replaces `line`.
fn make_line<M: Machine>(world: &mut World<M>, line: DraftLine, left: u32) -> Result<Line, Cause> {
    let most = left.min(MOST_STEPS);
    match line {
        DraftLine::Plain(line) => {
            make_plain(world, line, left)?;
            Ok(line)
        }
        DraftLine::Out(thread) => {
            let steps = steps_to(world, thread, 0, most)?;
            Ok(Line::Go(thread, steps))
        }
        DraftLine::To(thread, row) => {
            let steps = steps_to(world, thread, row, most)?;
            Ok(Line::Go(thread, steps))
        }
    }
}

/// Creates the state of a run of a draft (the shared words and the private states of the threads), before the first
/// event.
fn start_of<M: Machine>(alloc: Global, draft: &Draft) -> Result<World<M>, AllocError> {
    let keys = draft.opening.as_slice();
    let Ok(layout) = layout_opening(draft.header.threads, draft.header.quota, keys.len() as u32)
    else {
        unreachable!();
    };
    World::<M>::opened(alloc, layout, keys)
}

/// Expands the lines of a draft (a schedule that can state where a thread stops) by running them on the list `M`.
fn lines_on<M: Machine>(alloc: Global, draft: &Draft) -> Result<Vec<Line>, Trouble> {
    let mut world = start_of::<M>(alloc, draft)?;
    let mut number = draft.first_event_line();
    let mut lines = Vec::new(alloc);
    let mut left = MOST_EVENTS;
    for line in &draft.lines {
        let made = match make_line(&mut world, *line, left) {
            Ok(made) => made,
            Err(cause) => return Err(Trouble::from(LineFault::at(number, cause))),
        };
        lines.push(made)?;
        left = left.saturating_sub(made.event_count());
        number = number.saturating_add(1);
    }
    Ok(lines)
}

/// A task that replaces the lines of a draft (a schedule that can state where a thread stops) with lines of a schedule.
/// `on_list` runs the task on the list of the draft's kind.
#[derive(Clone, Copy)]
struct Expanding<'a> {
    alloc: Global,
    draft: &'a Draft,
}

impl Task for Expanding<'_> {
    type Out = Result<Vec<Line>, Trouble>;

    ghost may = { λ task kind. Unit {0} };

    ghost done = { λ task table result. Unit {0} };

    fn run<M: List>(self) -> Result<Vec<Line>, Trouble> {
        lines_on::<M>(self.alloc, self.draft)
    }
}

/// Expands a draft (a schedule that can state where a thread stops) into a schedule, by inserting each missing number
/// of steps. Allocates.
///
/// `draft` must be within the limits, as every draft from `read_draft` is. A line without a count gets the smallest
/// number of steps, at least 1, that ends the thread's call or brings the thread to the named row. All lines with a
/// count stay unchanged. The schedule has version 1 if it has no opening keys and no `ceiling`, otherwise version 2.
///
/// # Errors
///
/// Returns `Line` with the number of the first line that cannot be expanded:
/// - `TooMany`: with the line, the schedule would exceed 1,000,000 events;
/// - `NoThread`, `Busy`, `Idle`: an event is not enabled;
/// - `Waits`: within 10,000 steps, or within the remaining events, the call does not end or the row is not reached.
///
/// Returns `Memory` if an allocation fails.
pub fn schedule_of(alloc: Global, draft: &Draft) -> Result<Schedule, Trouble>
    ensures { IfOk result (λ s. HasWordsOfVersion (view s)) }
{
    let lines = on_list(draft.header.kind, Expanding { alloc, draft })?;
    let opening = draft.opening.to_vec(alloc)?;
    Ok(Schedule {
        version: smallest_version(&opening, &lines),
        kind: draft.header.kind,
        threads: draft.header.threads,
        quota: draft.header.quota,
        opening,
        lines,
    })
}
