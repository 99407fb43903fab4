ghost use Rattle.std.specs.Prelude.{◌≡◌, ◌∷◌, [], IfOk, IfErr, MatchResult};
ghost use Rattle.lset_text.specs.Parts.{cut_at};
ghost use Rattle.lset_text.specs.Kinds.{first_of, line_in};
ghost use Rattle.lset_schedule.specs.Plan.{Plan, IsSchedule, view, schedule_text};
ghost use Rattle.lset_schedule.specs.ScheduleReading.{
  Gives,
  events,
  version_told,
  reading,
  IsGoodLine,
  SchedulesReadBack,
};

use crate::body::{EventLine, read_text};
use crate::value::{Line, Schedule, title};
use crate::{MOST_STEPS, ScheduleFault};
use lset_text::{Cause, Version, cut, number, read_call, version_of};
use lset_words::Key;
use std::alloc::Global;

fn go(version: Version, word: &[u8], thread: &[u8], steps: &[u8]) -> Result<Line, Cause>
    ensures { result ≡ first_of version Cause.Event events.kinds (word.now ∷ thread.now ∷ steps.now ∷ []) }
{
    if word != b"go".as_slice() {
        return Err(Cause::Event);
    }
    let thread = number(thread, 0, u32::MAX).ok_or(Cause::Number)?;
    let steps = number(steps, 1, MOST_STEPS).ok_or(Cause::Number)?;
    Ok(Line::Go(thread, steps))
}

fn begin(
    version: Version,
    word: &[u8],
    thread: &[u8],
    call: &[u8],
    key: &[u8],
) -> Result<Line, Cause>
    ensures { result ≡ first_of version Cause.Event events.kinds (word.now ∷ thread.now ∷ call.now ∷ key.now ∷ []) }
{
    if word != b"begin".as_slice() {
        return Err(Cause::Event);
    }
    let call = read_call(version, call).ok_or(Cause::Event)?;
    let thread = number(thread, 0, u32::MAX).ok_or(Cause::Number)?;
    let key = number(key, 0, u32::MAX).ok_or(Cause::Number)?;
    Ok(Line::Begin(thread, call.with_key(Key(key))))
}

fn event(version: Version, line: &[u8]) -> Result<Line, Cause>
    ensures { result ≡ line_in version Cause.Event events.kinds line.now }
{
    let Some((first, rest)) = cut(line, b' ') else {
        return Err(Cause::Event);
    };
    let Some((second, rest)) = cut(rest, b' ') else {
        return Err(Cause::Event);
    };
    let Some((third, fourth)) = cut(rest, b' ') else {
        return go(version, first, second, rest);
    };
    if let Some((_, _more)) = cut(fourth, b' ') {
        return Err(Cause::Event);
    }
    begin(version, first, second, third, fourth)
}

impl EventLine for Line {
    ghost lines = { events };

    fn read(version: Version, line: &[u8]) -> Result<Line, Cause> {
        event(version, line)
    }

    fn count(self) -> u32 {
        self.event_count()
    }
}

/// Returns the format version of a schedule, which the first line of its text determines.
fn told_version(bytes: &[u8]) -> Version
    ensures { result ≡ version_told (cut_at 10 bytes.now) }
{
    version_of(bytes, title(Version::Two).as_bytes())
}

fn schedule(alloc: Global, bytes: &[u8]) -> Result<Schedule, ScheduleFault>
    ensures exact { Gives view result (reading bytes.now) }
    ensures memory { IfErr result (λ e. e.cause ≡ Cause.Memory → IsGoodLine bytes.now e.line) }
{
    let version = told_version(bytes);
    let body = read_text(alloc, version, title(version).as_bytes(), bytes)?;
    Ok(Schedule::of_header(version, body.header, body.opening, body.lines))
}

/// Reads a schedule of either version from its bytes. Allocates.
///
/// Line 1 determines the version. A schedule of version 1 has no `ceiling` and no opening keys.
///
/// As in `crates/first_program`:
///
///     let schedule = read_schedule(alloc, text.as_bytes())?;
///     Ok(replay(alloc, &schedule)?)
///
/// # Errors
///
/// Returns the number of the first line with an error, and the cause of the error. A line that has bytes but no newline
/// has the cause `NotEnded`. For other lines, the first cause in the order of `Cause` applies. A missing header line
/// has the same cause as a wrong line in its place. In version 1, a line that exists only in version 2 has the cause
/// `Event`. In either version, an opening key after an event line has the cause `Event`. The cause is `Number` if a
/// thread or a key is not a number up to 4294967295, or if the number of steps is not from 1 to 10000. The cause is
/// `TooMany` if there are more than 1,000,000 events or 1,048,576 opening keys. If an allocation fails, the cause is
/// `Memory`, at a line without another error.
#[tactic(auto, using(crate::proofs::ScheduleTextLaws::found_in, crate::proofs::ScheduleTextLaws::only_in))]
pub fn read_schedule(alloc: Global, bytes: &[u8]) -> Result<Schedule, ScheduleFault>
    // If a schedule is returned, it is within the limits, and `bytes` is the text of the schedule.
    ensures found { IfOk result (λ s. IsSchedule (view s) × (bytes.now ≡ schedule_text (view s))) }
    // If `bytes` is the text of a schedule within the limits, that schedule is returned, unless an allocation fails.
    ensures only { (p : Plan) → IsSchedule p → bytes.now ≡ schedule_text p
        → MatchResult result (λ s. view s ≡ p) (λ e. e.cause ≡ Cause.Memory) }
    // The result is the one that `reading` defines, unless an allocation fails.
    ensures exact { Gives view result (reading bytes.now) }
    // The error `Memory` names a line after the header. Neither the named line nor any line before it has another
    // error.
    ensures memory { IfErr result (λ e. e.cause ≡ Cause.Memory → IsGoodLine bytes.now e.line) }
{
    schedule(alloc, bytes)
}

/// Lemma: reading inverts writing. If a text can be read as a schedule, it is the text of that schedule, and reading
/// the text of a schedule yields that schedule.
pub fn schedules_read_back()
    ensures { SchedulesReadBack }
{}
