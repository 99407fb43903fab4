//! Implements the steps of two broken OptimisticLists, whose validation (the check of the two locked nodes) is too
//! weak.
ghost use Rattle.lset_steps.specs.Rows.{IsSmall};

use lset_optimistic::fed_by;
use lset_steps::{Fed, Local};

fn past_the_walk(local: Local) -> Local {
    if local.pc == 6 {
        Local { pc: 8, ..local }
    } else {
        local
    }
}

/// Returns a thread's state after a step of an OptimisticList without a second walk from the head. The validation (the
/// check after both nodes are locked) only checks that `pred` links to `curr`.
pub(crate) fn fed_without_walk(local: &Local, seen: u64) -> Fed
    requires { IsSmall local.now }
{
    let fed = fed_by(local, seen);
    Fed {
        local: past_the_walk(fed.local),
        ..fed
    }
}

/// Returns a thread's state after its second walk has loaded the key `seen`, in an OptimisticList that compares keys
/// instead of nodes. The walk arrives if `seen` is the key of `pred`, fails if `seen` is greater, and continues if
/// `seen` is smaller.
pub(crate) fn arrived_by_key(seen: u64, local: &Local) -> Local {
    if local.pkey < seen {
        Local {
            pc: 14,
            reply: None,
            ..*local
        }
    } else if seen == local.pkey {
        Local { pc: 8, ..*local }
    } else {
        Local { pc: 6, ..*local }
    }
}
