ghost use Rattle.std.specs.Prelude.{◌≡◌};
ghost use Rattle.lset_schedule.specs.Plan.{event_count, first_event_line, planned, title, view};

use crate::{FIRST_LINE, TITLE_ONE, TITLE_TWO};
use lset_text::{Header, Version};
use lset_words::{Call, Kind};

/// A line of a schedule. `Begin(thread, call)`: the thread begins the call. `Go(thread, steps)`: the thread's pending
/// call takes `steps` steps, 1 to 10,000. A `Begin` can contain any call, but `write_schedule` accepts only calls that
/// the schedule's version allows.
#[derive(Clone, Copy, Debug, PartialEq, Eq)]
pub enum Line {
    Begin(u32, Call),
    Go(u32, u32),
}

impl Line {
    /// Returns the number of events that the line counts as: 1, or the number of steps in a `Go`.
    pub fn event_count(self) -> u32
        ensures { result ≡ event_count self }
    {
        match self {
            Line::Begin(_, _) => 1,
            Line::Go(_, steps) => steps,
        }
    }
}

/// Returns a schedule's title line in the given version, without the newline.
pub(crate) fn title(version: Version) -> &'static str
    ensures { result.now ≡ title version }
{
    match version {
        Version::One => TITLE_ONE,
        Version::Two => TITLE_TWO,
    }
}

/// A schedule of at most 1,000,000 events. The number of threads is 1 to 64. The quota (the maximum number of
/// successful adds per thread) is 0 to 16,384. There are at most 1,048,576 opening keys (the keys at the start), in
/// strictly increasing order. A line's thread can be any `u32`. A schedule of version 1 can be written only if it has
/// no opening keys and begins no `ceiling`.
#[derive(Debug, Drop)]
pub struct Schedule {
    pub version: Version,
    pub kind: Kind,
    pub threads: u32,
    pub quota: u32,
    pub opening: Vec<u32>,
    pub lines: Vec<Line>,
}

impl Schedule {
    /// Returns the schedule with the given version, header, opening keys (keys at the start) and lines.
    pub(crate) fn of_header(
        version: Version,
        header: Header,
        opening: Vec<u32>,
        lines: Vec<Line>,
    ) -> Schedule
        ensures { view result ≡ planned version header opening.items lines.items }
    {
        Schedule {
            version,
            kind: header.kind,
            threads: header.threads,
            quota: header.quota,
            opening,
            lines,
        }
    }

    /// Returns the line number of the first event in the schedule's text. Lines are numbered from 1. If the schedule
    /// has no events, returns the line number that a first event would have.
    pub fn first_event_line(&self) -> u64
        ensures { result ≡ first_event_line (view self.now) }
    {
        FIRST_LINE + self.opening.len() as u64
    }
}
