use lset_live::{Bounded, OpenContains, Running, RunningReads};
use lset_steps::{Action, Fed, Local, Machine, OpenReads};
use lset_words::{Call, Key, Kind};
use std::marker::PhantomData;

/// The list `M`, run by the interpreter of its step table instead of by its own loops. Tests and `bench/run` compare
/// the interpreter with the loops. `Stepped` implements the traits `Bounded`, `Running` and `OpenContains` with their
/// default bodies.
pub struct Stepped<M: Machine> {
    list: PhantomData<M>,
}

impl<M: Machine> Machine for Stepped<M> {
    const KIND: Kind = M::KIND;

    ghost KIND = { M.KIND };

    ghost table = { M.table };

    #[inline(always)]
    fn begin(call: Call, local: &Local) -> Local {
        M::begin(call, local)
    }

    #[inline(always)]
    fn next(local: &Local) -> Action {
        M::next(local)
    }

    #[inline(always)]
    fn feed(local: &Local, seen: u64) -> Fed {
        M::feed(local, seen)
    }

    fn effect(local: &Local, seen: u64) -> Option<(Key, bool)> {
        M::effect(local, seen)
    }

    ghost lawful = { M.lawful };
}

impl<M: OpenReads> OpenReads for Stepped<M> {
    ghost reads = { M.reads };

    ghost walks = { M.walks };
}

impl<M: Machine> Bounded for Stepped<M> {}

impl<M: Machine> Running for Stepped<M> {}

impl<M: OpenReads> OpenContains for Stepped<M> {}

impl<M: OpenReads> RunningReads for Stepped<M> {}
