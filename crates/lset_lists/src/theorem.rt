//! The main theorem, for every machine (a list algorithm as a table of steps): each run, of any length, is explained by
//! some order of its calls.
ghost use Rattle.lset_lists.specs.Headline.{RunsAreLinearizable, PlacementExplainsRuns};

use lset_steps::Machine;
use lset_steps::laws::{has_account, listed_content};

/// Theorem: every run of every machine (a list algorithm as a table of steps) is linearizable. The run can have any
/// length, and any number of threads and any quota (successful adds per thread) within the limits. Some order of the
/// calls linearizes the history of the run and leaves the same keys as the run. (Herlihy and Wing's linearizability,
/// with completion of pending calls.)
pub fn runs_are_linearizable<M: Machine>()
    ensures { RunsAreLinearizable M.table }
{
    placement_explains_runs::<M>();
}

/// Theorem: the order of a run's calls by their linearization points (the placement) exists and is unique. The
/// placement linearizes the history of the run and leaves the same keys as the run. The theorem covers every machine (a
/// list algorithm as a table of steps) and every run within the limits of `runs_are_linearizable`.
pub fn placement_explains_runs<M: Machine>()
    ensures { PlacementExplainsRuns M.table }
{
    has_account::<M>();
    listed_content::<M>();
}
