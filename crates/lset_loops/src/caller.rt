//! The pending call of a thread, with all values that the loop of the call needs.
ghost use Rattle.std.specs.Prelude.{◌≡◌, ◌<◌};
ghost use Rattle.std.proofs.Props.{props};
ghost use Rattle.lset_words.specs.Words.{tail_word, target};
ghost use Rattle.lset_rule.specs.Seats.{MayCall};
ghost use Rattle.lset_loops.specs.Begun.{IsCall, begun_at};
ghost use Rattle.lset_loops.specs.Calling.{MayBegin};

use lset_rule::{OwnSlots, Pause, TableSeat, Words};
use lset_steps::Machine;
use lset_words::Call;
use std::marker::Model;
use std::snapshot::Snapshot;

/// A pending call, and a copy of its seat (per-thread handle) from the time when the call started.
#[derive(Drop)]
pub(crate) struct Origin {
    call: Call,
    place: Snapshot<TableSeat>,
}

impl Model for Origin {
    ghost use Rattle.std.specs.Coded.{codes};
    ghost use Rattle.lset_rule.specs.contracts.view.Past as past;
    ghost use Rattle.lset_loops.specs.Begun.{Begun, begun_at};

    ghost Value = { Begun };

    ghost coded = { Prim.hlevel (codes, past.the_row.coded) };

    ghost view = { λ o. begun_at o.call o.place.value };
}

/// A call and its thread: the shared words of the list, the code that runs between two steps (the pause), the thread's
/// slots (nodes reserved for its adds), the call, and the call's key as a word.
#[derive(Drop)]
pub(crate) struct Caller<'a, M: Machine, P: Pause> {
    pub table: &'a Words<M>,
    pub pause: &'a P,
    pub slots: OwnSlots,
    pub call: Call,
    pub key: u64,
    origin: Origin,
    ghost is_call: { IsCall origin call table.now.table_id table.now.key } by { Prim.hlevel props },
    ghost is_key: { key ≡ target origin.call },
    ghost is_low: { target call < tail_word },
}

impl<'a, M: Machine, P: Pause> Caller<'a, M, P> {
    /// Creates the caller of `call` from the idle seat `place` (a per-thread handle). The call starts only with its
    /// first step.
    pub fn new(
        table: &'a Words<M>,
        place: &TableSeat,
        slots: OwnSlots,
        call: Call,
        pause: &'a P,
    ) -> Caller<'a, M, P>
        requires { MayCall M.table table.now.table_id table.now.key slots place.now }
        ensures origin { result.origin ≡ begun_at call place.now }
        ensures begins { MayBegin M.table result.origin result.slots place.now }
    {
        Caller {
            table,
            pause,
            slots,
            call,
            key: call.key().word(),
            origin: Origin {
                call,
                place: Snapshot::of(place),
            },
        }
    }
}
