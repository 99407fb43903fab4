//! The five lists: the machine of each kind of list (its algorithm as a table of steps), and the theorem that every run
//! of each machine is linearizable. `on_list` runs a `Task` on a list whose kind is known only at run time.
#![tactic(auto)]

mod theorem;

ghost use Rattle.std.specs.Prelude.{◌≡◌};
ghost use Rattle.lset_words.specs.declared.Kind.{Kind};
ghost use Rattle.lset_steps.specs.Steps.{Table};
ghost use Rattle.lset_lists.specs.Tables.{table_of};

use lset_coarse::CoarseList;
use lset_fine::FineList;
use lset_lazy::LazyList;
use lset_lock_free::LockFreeList;
use lset_optimistic::OptimisticList;
use lset_steps::Machine;
use lset_words::Kind;
pub use theorem::{placement_explains_runs, runs_are_linearizable};

/// One of the five lists, as a machine (a table of steps).
pub trait List: Machine {
    /// Lemma: the list's step table is the step table of its kind (`KIND`).
    fn has_the_table_of_its_kind()
        ensures { table_of Self.KIND ≡ Self.table };
}

impl List for CoarseList {
    fn has_the_table_of_its_kind() {}
}

impl List for FineList {
    fn has_the_table_of_its_kind() {}
}

impl List for OptimisticList {
    fn has_the_table_of_its_kind() {}
}

impl List for LazyList {
    fn has_the_table_of_its_kind() {}
}

impl List for LockFreeList {
    fn has_the_table_of_its_kind() {}
}

/// A task that `on_list` can run on any of the five lists.
pub trait Task {
    type Out;

    /// The precondition of the task, for a list of the given kind.
    ghost may: { Self → Kind → Type 0 };

    /// The postcondition of the task, for a list with the given step table.
    ghost done: { Self → Table → Self.Out → Type 0 };

    /// Runs the task on the list `M`.
    fn run<M: List>(self) -> Self::Out
        requires { may self M.KIND }
        ensures { done self M.table result };
}

/// Runs the task on the list of the kind `kind`, and returns the task's result.
pub fn on_list<T: Task + Drop>(kind: Kind, task: T) -> T::Out
    requires { T.may task kind }
    ensures { T.done task (table_of kind) result }
{
    match kind {
        Kind::Coarse => task.run::<CoarseList>(),
        Kind::Fine => task.run::<FineList>(),
        Kind::Optimistic => task.run::<OptimisticList>(),
        Kind::Lazy => task.run::<LazyList>(),
        Kind::LockFree => task.run::<LockFreeList>(),
    }
}
