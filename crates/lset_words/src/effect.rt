//! The effect of a completed call: the call changed its key, or found the key present or absent.

ghost use Rattle.std.specs.Prelude.{◌≡◌};
ghost use Rattle.lset_words.specs.Effects.{effect_of};

use crate::{Call, Reply};

/// Whether a key is in a set.
#[derive(Clone, Copy, Debug, PartialEq, Eq)]
pub enum Presence {
    Present,
    Absent,
}

/// The effect of a completed call: the call changed its key, or found the key present or absent.
#[derive(Clone, Copy, Debug, PartialEq, Eq)]
pub enum Effect {
    /// The call added its key (`Present`) or removed its key (`Absent`).
    Changes(Presence),
    /// The call found its key present or absent, and changed nothing.
    Sees(Presence),
    /// The reply shows nothing about the key, because the call is a `ceiling`, or the reply is impossible for the call.
    Other,
}

impl Call {
    /// Returns the effect of the call when its reply is `reply`. An `add` that returns `Full` found its key absent.
    pub fn effect(self, reply: Reply) -> Effect
        ensures { result ≡ effect_of self reply }
    {
        match (self, reply) {
            (Call::Add(_), Reply::True) => Effect::Changes(Presence::Present),
            (Call::Add(_), Reply::False) => Effect::Sees(Presence::Present),
            (Call::Add(_), Reply::Full) => Effect::Sees(Presence::Absent),
            (Call::Remove(_), Reply::True) => Effect::Changes(Presence::Absent),
            (Call::Remove(_), Reply::False) => Effect::Sees(Presence::Absent),
            (Call::Contains(_), Reply::True) => Effect::Sees(Presence::Present),
            (Call::Contains(_), Reply::False) => Effect::Sees(Presence::Absent),
            _ => Effect::Other,
        }
    }
}
