//! Merges several seats of a set into one seat (gathering). A seat is a per-thread handle to the set.
ghost use Rattle.std.specs.Prelude.{◌≡◌, ◌+◌, ◌<◌, ◌≤◌, ◌↔◌, IfSome, IsTrue, Some, [], ◌∷◌, length, sum_by};
ghost use Rattle.std.specs.Option.{option_map};
ghost use Rattle.lset_words.specs.declared.TheConstants.{MOST_THREADS};
ghost use Rattle.lset_rule.specs.Runs.{StartsWith};
ghost use Rattle.lset_live.specs.Seats.{gather_onto, held_in};

use crate::seat::Seat;
use crate::set::LiveSet;
use lset_steps::Machine;

impl<M: Machine> LiveSet<M> {
    /// Returns whether `seats` (per-thread handles), together with the seats merged into them, are all seats of the
    /// set.
    pub fn is_held_by(&self, seats: &[Seat<M>]) -> bool
        ensures all { IsTrue result ↔ (sum_by (λ s. s.held) seats.now ≡ self.now.shape.threads) }
        ensures few { IsTrue result → (0 < length seats.now) × (length seats.now ≤ MOST_THREADS) }
    {
        let most = u64::from(self.seats());
        let mut total = 0u64;
        for seat in seats {
            total += u64::from(seat.held());
            if total > most {
                return false;
            }
        }
        total == most
    }

    /// Merges the seat `from` (a per-thread handle) into the seat `into` and returns the merged seat. Returns `from` if
    /// `into` is `None`. Both seats must belong to the set.
    pub fn gather_onto(&self, into: Option<Seat<M>>, from: Seat<M>) -> Seat<M>
        requires into { IfSome into (λ s. s.set ≡ self.now) }
        requires from { from.set ≡ self.now }
        ensures record { Some result.past ≡ gather_onto (option_map (λ s. s.past) into) (from.past ∷ []) }
        ensures held { result.held ≡ held_in into + from.held }
        ensures seat { result.set ≡ self.now }
        ensures events { StartsWith result.events from.events × IfSome into (λ s. StartsWith result.events s.events) }
    {
        let Some(mut into) = into else {
            return from;
        };
        self.gather(&mut into, from);
        into
    }
}
