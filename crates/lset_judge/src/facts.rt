//! The facts that the judge stores about the calls on each key. The judge uses the facts to find a clash: two calls on
//! the key that contradict each other.

ghost use Rattle.std.specs.Prelude.{◌≡◌, ◌↔◌, ◌≤◌, false, IsTrue, MatchOption, Some};
ghost use Rattle.lset_words.specs.Effects.{effect_of};
ghost use Rattle.lset_words.specs.Words.{key_of};
ghost use Rattle.lset_judge.specs.Clash.{left_so, other};
ghost use Rattle.lset_judge.specs.Code.{state_of, event_as};
ghost use Rattle.lset_judge.specs.Verdict.{is_plain};
ghost use Rattle.lset_judge.specs.Facts.{begun_by, facts_of, first_of, is_call, reply_kept, until_of, word_kept, ComesAfter, EndsBy, IsClashing, IsEnded, IsFound, IsFoundLeft, IsStanding};

use crate::clash::{Clash, leaves, needs, other};
use crate::event::Event;
use crate::rule::{Kept, KeyState};
use crate::stream::StreamCall;
use lset_words::{Call, Key, Presence, Reply};

/// Returns whether both calls have ended, and the first call ended no later than the second.
fn ends_by(first: StreamCall, second: StreamCall) -> bool
    ensures { IsTrue result ↔ EndsBy first.ended second.ended }
{
    match (first.ended, second.ended) {
        (Some((first, _)), Some((second, _))) => first <= second,
        _ => false,
    }
}

/// Returns the state in which a completed call left its key, and the kind of the call. Returns `None` for a `ceiling`
/// (a call that returns the smallest key not less than its argument), or if the reply is neither true nor false.
fn kept_as(call: Call, reply: Reply) -> Option<(Presence, Kept)>
    ensures { MatchOption result (is_plain call reply ≡ false) (λ p. (left_so (effect_of call reply) ≡ Some p.0) × (word_kept p.1 p.0 (key_of call) ≡ call)
        × (reply_kept p.1 p.0 ≡ reply) × IsTrue (is_call p.1)) }
{
    match (call, reply) {
        (Call::Add(_), Reply::True) => Some((Presence::Present, Kept::Change)),
        (Call::Add(_), Reply::False) => Some((Presence::Present, Kept::Refused)),
        (Call::Remove(_), Reply::True) => Some((Presence::Absent, Kept::Change)),
        (Call::Remove(_), Reply::False) => Some((Presence::Absent, Kept::Refused)),
        (Call::Contains(_), Reply::True) => Some((Presence::Present, Kept::Look)),
        (Call::Contains(_), Reply::False) => Some((Presence::Absent, Kept::Look)),
        _ => None,
    }
}

/// Returns the call of kind `kept` that left `key` in the state `was`: an `add`, a `remove` or a `contains`.
fn word_kept(kept: Kept, was: Presence, key: Key) -> Call
    ensures { result ≡ word_kept kept was key }
{
    match (kept, was) {
        (Kept::Look, _) => Call::Contains(key),
        (_, Presence::Present) => Call::Add(key),
        (_, Presence::Absent) => Call::Remove(key),
    }
}

/// Returns the reply of a call of kind `kept` that left its key in the state `was`.
fn reply_kept(kept: Kept, was: Presence) -> Reply
    ensures { result ≡ reply_kept kept was }
{
    match (kept, was) {
        (Kept::Change, _) => Reply::True,
        (Kept::Refused, _) => Reply::False,
        (_, Presence::Present) => Reply::True,
        (_, Presence::Absent) => Reply::False,
    }
}

impl KeyState {
    fn until(&self, there: Presence) -> u64
        ensures { result ≡ until_of there (facts_of self.now) }
    {
        match there {
            Presence::Present => self.changes.puts_until,
            Presence::Absent => self.changes.takes_until,
        }
    }

    /// Returns the stored call on `key`: a completed call that left the key in the state `was`. Returns `None` if no
    /// call is stored: the set then opened with the key in the state `was`.
    fn first(&self, key: Key) -> Option<StreamCall>
        ensures { result ≡ first_of key.0 (facts_of self.now) }
    {
        if matches!(self.kept, Kept::Opening) {
            return None;
        }
        Some(StreamCall {
            thread: self.thread,
            call: word_kept(self.kept, self.was, key),
            begun: self.begun,
            ended: Some((self.ended, reply_kept(self.kept, self.was))),
        })
    }

    /// Records the start of a call after the judge has found that no order explains the calls. Updates only
    /// `puts_until` and `takes_until`, the last moments when an `add` and a `remove` of the key end.
    pub(crate) fn note_begin(&mut self, event: Event)
        ensures { facts_of self.new ≡ begun_by (event_as event) (facts_of self.old) }
    {
        match event {
            Event::Begins(Presence::Present, end) => self.changes.raise_puts(end),
            Event::Begins(Presence::Absent, end) => self.changes.raise_takes(end),
            Event::Ends(_) | Event::Looks(_, _) | Event::Idle => {}
        }
    }

    /// Returns whether all changes of the key away from the state `was` had ended when the stored call `first` started.
    /// If `first` is `None`, returns whether no change away from the state `was` has started.
    fn is_standing(&self, first: Option<StreamCall>, key: Key) -> bool
        requires { first ≡ first_of key.0 (facts_of self.now) }
        ensures { IsTrue result ↔ IsStanding key.0 (facts_of self.now) }
    {
        let until = self.until(other(self.was));
        match first {
            Some(call) => until <= call.begun,
            None => until == 0,
        }
    }

    /// Returns whether `second` starts after `first` has ended. Also returns true if the stored facts about the key
    /// show that the two calls contradict each other in the opposite order, or if `first` is `None`.
    fn comes_after(&self, first: Option<StreamCall>, second: StreamCall) -> bool
        ensures { IsTrue result ↔ ComesAfter (facts_of self.now) first second }
    {
        let Some(first) = first else {
            return true;
        };
        if let Some((end, _)) = first.ended {
            if end < second.begun {
                return true;
            }
        }
        let Some(left) = leaves(second) else {
            return false;
        };
        first.begun != second.begun
            && needs(first) == Some(other(left))
            && self.until(other(left)) <= second.begun
            && ends_by(first, second)
    }

    /// Returns the clash between the stored call on the key and `second`, which ends now: no order can contain both
    /// calls. If no call is stored, returns the clash between the key's opening state and `second`. Returns `None` if
    /// and only if the stored facts show no clash.
    pub(crate) fn clash_of(&self, second: StreamCall) -> Option<Clash>
        ensures { MatchOption result (IsClashing (facts_of self.now) second → ⊥) (IsFound (facts_of self.now) second) }
    {
        if needs(second) != Some(other(self.was)) {
            return None;
        }
        let key = second.call.key();
        let first = self.first(key);
        if !self.is_standing(first, key) || !self.comes_after(first, second) {
            return None;
        }
        Some(Clash {
            was: self.was,
            first,
            second: Some(second),
        })
    }

    /// Stores the result of `clash_of` in `clash`. A separate function, so that the caller needs no stack space for
    /// another `Clash`.
    pub(crate) fn store_clash(&self, second: StreamCall, clash: &mut Option<Clash>)
        ensures { MatchOption clash.new (IsClashing (facts_of self.now) second → ⊥) (IsFound (facts_of self.now) second) }
    {
        *clash = self.clash_of(second);
    }

    /// Returns the clash between the stored call on the key and the key's final state `left`: no order can contain the
    /// call and leave the key in the state `left`. If no call is stored, returns the clash between the key's opening
    /// state and `left`. Returns `None` if and only if the stored facts show no clash.
    pub(crate) fn clash_left(&self, key: Key, left: Presence) -> Option<Clash>
        ensures { MatchOption result (left ≡ other self.now.was → IsStanding key.0 (facts_of self.now) → ⊥) (IsFoundLeft key.0 (facts_of self.now) left) }
    {
        let first = self.first(key);
        if left != other(self.was) || !self.is_standing(first, key) {
            return None;
        }
        Some(Clash {
            was: self.was,
            first,
            second: None,
        })
    }

    /// Returns whether a completed call that started at `begun` and left the key in the state `was` replaces the stored
    /// call: all changes to the opposite state must have ended by `begun`. The stored call is kept if it left the key
    /// in the state `was` too, and all changes to the opposite state had ended when it started.
    fn is_to_be_kept(&self, begun: u64, was: Presence) -> bool
        ensures kept { IsTrue result → (until_of (other was) (facts_of self.now) ≤ begun)
            × (self.now.was ≡ was → until_of (other was) (facts_of self.now) ≤ self.now.begun → ⊥) }
        ensures stays { result ≡ false → until_of (other was) (facts_of self.now) ≤ begun
            → (self.now.was ≡ was) × (until_of (other was) (facts_of self.now) ≤ self.now.begun) }
    {
        let until = self.until(other(was));
        until <= begun && !(self.was == was && until <= self.begun)
    }

    /// Records the end of `call`. Either `call` replaces the stored call on the key, or the facts are unchanged.
    pub(crate) fn keep(&mut self, call: StreamCall)
        ensures state { state_of self.new ≡ state_of self.old }
        ensures ended { IsEnded call (facts_of self.old) (facts_of self.new) }
    {
        let Some((end, reply)) = call.ended else {
            return;
        };
        let Some((was, kept)) = kept_as(call.call, reply) else {
            return;
        };
        if !self.is_to_be_kept(call.begun, was) {
            return;
        }
        self.was = was;
        self.kept = kept;
        self.thread = call.thread;
        self.begun = call.begun;
        self.ended = end;
    }
}
