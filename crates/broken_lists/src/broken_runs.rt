//! Creates broken lists (lists without one of their checks), on which schedules can run.
ghost use Rattle.lset_schedule.specs.Plan.{opening_in, view};
ghost use Rattle.lset_words.specs.Words.{Opens};

use crate::broken_world::BrokenWorld;
use crate::lists::BrokenList;
use lset_schedule::Schedule;
use lset_words::layout_opening;
use std::alloc::{AllocError, Global};

/// Creates a broken list (a list without one of its checks) for a schedule, before the first event. Ignores the kind of
/// list that the schedule names.
///
/// After a run, `lset_replay::calls_of` collects the calls of the run and computes an order of the calls. If
/// `check_order` rejects the computed order, another order can still explain the calls. `schedule` must be within the
/// limits, as every schedule from `read_schedule` is. Returns `AllocError` if an allocation fails.
pub fn broken_world_of(
    alloc: Global,
    broken: BrokenList,
    schedule: &Schedule,
) -> Result<BrokenWorld, AllocError>
    requires { Opens (opening_in (view schedule.now)) }
{
    let keys = schedule.opening.as_slice();
    let Ok(layout) = layout_opening(schedule.threads, schedule.quota, keys.len() as u32) else {
        unreachable!();
    };
    BrokenWorld::opened(alloc, broken, &layout, keys)
}
