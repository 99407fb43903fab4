//! Implements the steps of two broken FineLists (lists without one of their checks). In the first list, `remove` does
//! not lock the node that it unlinks. In the second list, a walk unlocks a node before it locks the next node.
ghost use Rattle.lset_steps.specs.Rows.{IsSmall};

use lset_fine::fed_by;
use lset_steps::reads::continued;
use lset_steps::{Fed, Local};
use lset_words::Call;

fn row_of_remove(pc: u8) -> u8 {
    match pc {
        3 => 4,
        4 => 5,
        5 => 3,
        12 => 13,
        _ => pc,
    }
}

fn with_one_lock(call: Call, local: Local) -> Local {
    match call {
        Call::Remove(_) => Local {
            pc: row_of_remove(local.pc),
            ..local
        },
        Call::Add(_) | Call::Contains(_) | Call::Ceiling(_) => local,
    }
}

/// Returns a thread's state after a step of a FineList whose `remove` locks `pred` but not `curr`, the node that it
/// unlinks. `seen` is the value that the step read or wrote.
pub(crate) fn fed_with_one_lock(local: &Local, seen: u64) -> Fed
    requires { IsSmall local.now }
{
    let fed = fed_by(local, seen);
    Fed {
        local: with_one_lock(local.call, fed.local),
        ..fed
    }
}

fn through_row_14(local: Local) -> Local {
    if local.pc == 3 {
        Local { pc: 14, ..local }
    } else {
        local
    }
}

/// Returns a thread's state after a step of a FineList whose walk unlocks `pred` before it locks `curr`. Row 14, which
/// the step table of the intact FineList does not have, unlocks `pred`. `seen` is the value that the step read or
/// wrote.
pub(crate) fn fed_pred_first(local: &Local, seen: u64) -> Fed
    requires { IsSmall local.now }
{
    if local.pc == 14 {
        return continued(Local { pc: 3, ..*local });
    }
    let fed = fed_by(local, seen);
    if local.pc != 6 {
        return fed;
    }
    Fed {
        local: through_row_14(fed.local),
        ..fed
    }
}
