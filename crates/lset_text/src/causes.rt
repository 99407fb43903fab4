ghost use Rattle.std.specs.Prelude.{◌≡◌, ◌≤◌, length};
ghost use Rattle.lset_text.specs.Causes.{fault, name_of, unended};
ghost use Rattle.lset_text.specs.declared.causes.Cause.TheVariants.{Memory};

use std::alloc::{AllocError, AllocFailed};
use thiserror::Error;

/// The cause of an error in a line of a file, with examples of such lines. If several causes apply to a line, the first
/// in the order of the variants is reported, except that `NotEnded` precedes all others.
#[derive(Clone, Copy, Debug, PartialEq, Eq)]
pub enum Cause {
    /// The first line is not the title of the file: an empty input; a schedule passed to `check`; `listset-calls 2`.
    Header,
    /// The second line is not `list` and a kind: `list skip`, `list Coarse`.
    Kind,
    /// The third line is not `threads` and a number from 1 to 64: `threads 65`, `threads 01`.
    Threads,
    /// The fourth line is not `quota` and a number from 0 to 16384: `quota 16385`.
    Quota,
    /// No such line can follow the lines above it: `take 0 5`; `go 0 1` (two spaces); `opening 5` below an event; an
    /// empty line.
    Event,
    /// In a report or a recording, no such line can follow the lines above it: `place 0 maybe`; `place 0 true` below a
    /// `key` line; in version 1 `place 0 at-5`; in a recording `call 0 add 5 1 8 full`.
    Line,
    /// The field is not a number, or is out of range: `begin 0 add 05`, `go 0 10001`, `place 01 true`.
    Number,
    /// With this line, the file has too many events, opening keys, calls, `place` lines or `key` lines: the hundredth
    /// line `go 0 10000` (10,000 events) below a `begin`, since a file has at most 1,000,000 events.
    TooMany,
    /// The key is not above the opening key before it: `opening 9` twice.
    Opening,
    /// The call contradicts the calls above it: `call 1 0 add 7 8 9 true` below `call 0 0 add 5 1 8 true`, since both
    /// calls use moment 8.
    History,
    /// The line has no newline at its end, or the text ends too early: a report or a recording without `end`.
    NotEnded,
    /// No thread has this number, as in `go 1 1` with `threads 1`.
    NoThread,
    /// The thread already has a pending call: `begin 0 add 5`, then `begin 0 add 6`.
    Busy,
    /// The thread has no pending call. This includes `go 0 8` (8 steps of thread 0) if the call of thread 0 ends after
    /// 7 steps.
    Idle,
    /// A broken list (with a check removed) cannot execute this step, which would access a word outside its table.
    Lost,
    /// The thread cannot reach the given step: `go 1 out` (run thread 1 to the end of its call) if thread 1 waits for a
    /// lock that another thread holds.
    Waits,
    /// An allocation failed at this line or above it. The program does not print the line: it prints `out of memory`.
    Memory,
}

impl Cause {
    /// Returns the name of the cause, at most 8 letters, as it is printed on standard error.
    pub fn name(self) -> &'static str
        ensures name { result.now ≡ name_of self }
        ensures short { length result.now ≤ 8 }
    {
        match self {
            Cause::Header => "Header",
            Cause::Kind => "Kind",
            Cause::Threads => "Threads",
            Cause::Quota => "Quota",
            Cause::Event => "Event",
            Cause::Line => "Line",
            Cause::Number => "Number",
            Cause::TooMany => "TooMany",
            Cause::Opening => "Opening",
            Cause::History => "History",
            Cause::NotEnded => "NotEnded",
            Cause::NoThread => "NoThread",
            Cause::Busy => "Busy",
            Cause::Idle => "Idle",
            Cause::Lost => "Lost",
            Cause::Waits => "Waits",
            Cause::Memory => "Memory",
        }
    }
}

impl From<AllocError> for Cause {
    ghost from_gives = { λ _ c. c ≡ Memory };

    fn from(_refused: AllocError) -> Cause {
        Cause::Memory
    }
}

impl<T: Drop> From<AllocFailed<T>> for Cause {
    ghost from_gives = { λ _ c. c ≡ Memory };

    fn from(_refused: AllocFailed<T>) -> Cause {
        Cause::Memory
    }
}

/// The first error in a file: its cause, and the number of the line, counted from 1.
#[derive(Clone, Copy, Debug, PartialEq, Eq, Error)]
#[error("line {line}: {cause:?}")]
pub struct LineFault {
    pub line: u64,
    pub cause: Cause,
}

impl LineFault {
    /// Returns the error with the given cause at line `line`, counted from 1.
    pub fn at(line: u64, cause: Cause) -> LineFault
        ensures { result ≡ fault line cause }
    {
        LineFault { line, cause }
    }

    /// Returns the error for a line that has bytes but no newline.
    pub fn unended(line: u64) -> LineFault
        ensures { result ≡ unended line }
    {
        LineFault::at(line, Cause::NotEnded)
    }
}
