//! The trait of sets that several threads can call.
ghost use Rattle.std.specs.Prelude.{◌≡◌, ℕ};
ghost use Rattle.lset_words.specs.Records.{Record, called};

use crate::{Call, Reply};
use std::sync::Wait;

/// A set that several threads can call. Each thread calls the set through its own seat (one thread's access to the
/// set). The function `session` serves any set that implements `SetCalls`.
pub trait SetCalls {
    type Seat;

    /// Holds if a seat (one thread's access to a set) belongs to the set.
    ghost is_of: { Self → Self.Seat → Type 0 };

    /// Returns the record of a seat (one thread's access to the set): the seat's calls with their replies.
    ghost record_of: { Self.Seat → Record };

    /// Returns the number of seats that a seat (one thread's access to the set) contains: 1 for itself, and 1 for each
    /// seat that was merged into it.
    ghost held_by: { Self.Seat → ℕ };

    /// Executes `call` for the thread of `seat` (one thread's access to the set), which must belong to the set, and
    /// returns the reply. Appends the call with its reply to the record of `seat`. Nothing else about `seat` changes.
    ///
    /// Can block while another thread holds a lock that the call needs. The implementations in this library do not
    /// allocate, so `session` does not allocate either.
    fn make_call<R: Wait>(&self, rt: &R, seat: &mut Self::Seat, call: Call) -> Reply
        requires { is_of self.now seat.old }
        ensures record { record_of seat.new ≡ called (record_of seat.old) (record { call = call; reply = result }) }
        ensures seat { is_of self.now seat.new × (held_by seat.new ≡ held_by seat.old) };
}
