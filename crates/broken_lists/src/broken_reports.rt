//! Reads a schedule for a broken list (a list without one of its checks), runs the schedule, and returns a report of
//! the run.
ghost use Rattle.std.specs.Prelude.{◌≡◌, IfOk};
ghost use Rattle.lset_words.specs.Words.{Opens};
ghost use Rattle.lset_text.specs.declared.words.Version.TheVariants.{Two};
ghost use Rattle.lset_schedule.specs.Plan.{opening_in, view};

use crate::broken_runs::broken_world_of;
use crate::lists::BrokenList;
use lset_replay::{RunCalls, calls_of};
use lset_report::Report;
use lset_schedule::{Schedule, Version, read_schedule};
use lset_text::{Cause, LineFault};
use std::alloc::{AllocError, Global};

/// The number of the line that names the kind of list. Lines are counted from 1.
const KIND_LINE: u64 = 2;

/// Reads a schedule for a broken list (a list without one of its checks). Allocates.
///
/// # Errors
///
/// Returns the errors of `read_schedule`. Returns `Kind` in line 2 if the schedule names a list other than
/// `broken.kind()`.
pub fn read_broken_schedule(
    alloc: Global,
    broken: BrokenList,
    text: &[u8],
) -> Result<Schedule, LineFault>
    ensures { IfOk result (λ s. Opens (opening_in (view s))) }
{
    let schedule = read_schedule(alloc, text)?;
    if schedule.kind != broken.kind() {
        return Err(LineFault::at(KIND_LINE, Cause::Kind));
    }
    Ok(schedule)
}

fn run_calls(alloc: Global, broken: BrokenList, schedule: &Schedule) -> Result<RunCalls, AllocError>
    requires { Opens (opening_in (view schedule.now)) }
{
    let world = broken_world_of(alloc, broken, schedule)?;
    calls_of(alloc, schedule, world)
}

/// Reads a schedule for a broken list (a list without one of its checks), runs it, and returns a report in version 2 of
/// the format. In the report's order, the calls are sorted by linearization point, as computed by
/// `lset_replay::calls_of`. The order does not always explain the calls. Allocates.
///
/// # Errors
///
/// Returns the errors of `read_broken_schedule`. If an event is not enabled, or if its step would access a word that
/// the list does not have (`Lost`), returns the line and the cause. If an allocation fails during the run, returns
/// `Memory` in line 2.
pub fn report_broken(alloc: Global, broken: BrokenList, text: &[u8]) -> Result<Report, LineFault>
    ensures { IfOk result (λ r. r.version ≡ Two) }
{
    let schedule = read_broken_schedule(alloc, broken, text)?;
    let refused = |_| LineFault::at(KIND_LINE, Cause::Memory);
    let calls = run_calls(alloc, broken, &schedule).map_err(refused)?;
    match calls.refused {
        Some(fault) => Err(fault),
        None => Ok(Report {
            version: Version::Two,
            kind: schedule.kind,
            history: calls.history,
            order: calls.order,
            keys: calls.keys,
        }),
    }
}
