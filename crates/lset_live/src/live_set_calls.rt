//! Implements `SetCalls` (the calls of a set in contracts) for running sets.
ghost use Rattle.std.specs.Prelude.{◌≡◌};

use crate::running_machine::Running;
use crate::seat::Seat;
use crate::set::LiveSet;
use lset_rule::Spin;
use lset_words::{Call, Reply, SetCalls};
use std::sync::Wait;

impl<M: Running> SetCalls for LiveSet<M> {
    type Seat = Seat<M>;

    ghost is_of = { λ set seat. seat.set ≡ set };

    ghost record_of = { λ seat. seat.past };

    ghost held_by = { λ seat. seat.held };

    fn make_call<R: Wait>(&self, rt: &R, seat: &mut Seat<M>, call: Call) -> Reply {
        self.call(rt, seat, call, &Spin::new())
    }
}
