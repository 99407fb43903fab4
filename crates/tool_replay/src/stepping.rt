//! Executes a given number of steps of a thread, or steps until the thread is at a given row of its step table (the
//! table of a list's atomic steps).

use lset_replay::Steps;
use lset_steps::{Event, Machine, World};
use lset_text::Cause;

/// Executes steps of a thread until its next step is row `row` of the step table (for row 0, until its call has ended).
/// Returns the number of steps, at least 1, or the error `Waits` if `most` steps do not suffice.
pub(crate) fn steps_to<M: Machine>(
    world: &mut World<M>,
    thread: u32,
    row: u32,
    most: u32,
) -> Result<u32, Cause> {
    for taken in 0..most {
        world.make(Event::Go(thread))?;
        if let Some(local) = world.holds(thread)
            && u32::from(local.pc) == row
        {
            return Ok(taken + 1);
        }
    }
    Err(Cause::Waits)
}

/// Executes `steps` steps of a thread. At the first step that is not enabled, stops and returns the cause.
pub(crate) fn take_steps<M: Machine>(
    world: &mut World<M>,
    thread: u32,
    steps: u32,
) -> Result<(), Cause> {
    for _taken in 0..steps {
        world.make(Event::Go(thread))?;
    }
    Ok(())
}
