ghost use Rattle.std.specs.Prelude.{◌≡◌, replicate};
ghost use Rattle.lset_replay.specs.Events.{events_of_line};

use lset_schedule::Line;
use lset_steps::Event;

/// An event of a schedule, with the number of its line in the schedule's text, counted from 1.
#[derive(Clone, Copy)]
pub struct LineEvent {
    pub line: u64,
    pub event: Event,
}

/// Returns the event in a line of a schedule, and the number of times that the line repeats the event.
pub fn event_of(number: u64, line: Line) -> (LineEvent, u32)
    ensures { events_of_line number line ≡ replicate result.1 result.0 }
{
    match line {
        Line::Begin(thread, call) => (
            LineEvent {
                line: number,
                event: Event::Begin(thread, call),
            },
            1,
        ),
        Line::Go(thread, steps) => (
            LineEvent {
                line: number,
                event: Event::Go(thread),
            },
            steps,
        ),
    }
}
