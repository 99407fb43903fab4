ghost use Rattle.std.specs.Prelude.{◌≡◌, IfOk};
ghost use Rattle.lset_words.specs.Words.{Opens, sizes};
ghost use Rattle.lset_schedule.specs.Plan.{opening_in, view};
ghost use Rattle.lset_steps.specs.Steps.{opening};

use lset_schedule::Schedule;
use lset_steps::{Machine, World};
use lset_words::layout_opening;
use std::alloc::{AllocError, Global};

/// Creates the world (shared words and private states) of the list with the step table `M` (its atomic steps), before
/// the first event of a schedule. `schedule` must be within the limits, as every schedule from `read_schedule` is.
/// Returns `AllocError` if an allocation fails.
pub fn world_of<M: Machine>(alloc: Global, schedule: &Schedule) -> Result<World<M>, AllocError>
    requires { Opens (opening_in (view schedule.now)) }
    ensures { IfOk result (λ w. w ≡ record {
      sizes = sizes (opening_in (view schedule.now));
      state = opening (opening_in (view schedule.now));
    }) }
{
    let keys = schedule.opening.as_slice();
    let Ok(layout) = layout_opening(schedule.threads, schedule.quota, keys.len() as u32) else {
        unreachable!();
    };
    World::<M>::opened(alloc, layout, keys)
}
