//! Events of a key. An event is the start or the end of a call on the key.

ghost use Rattle.std.specs.Prelude.{◌≡◌};
ghost use Rattle.lset_judge.specs.Code.{event_as};
ghost use Rattle.lset_judge.specs.Events.{kind_as, open_kind, begin_event, end_event};

use lset_words::{Call, Effect, Presence};

/// The effect of the start or the end of a call on the call's key. A change is an `add` or `remove` that returned true
/// or is pending.
#[derive(Clone, Copy, Debug, PartialEq, Eq)]
pub(crate) enum Event {
    /// A change starts. The fields are the state to which the change takes the key, and the moment when the change ends
    /// (after all other moments if the change never ends).
    Begins(Presence, u64),
    /// A change ends. The field is the state to which the change took the key.
    Ends(Presence),
    /// A read ends. The fields are the state that the read saw, and the moment when the read started.
    Looks(Presence, u64),
    /// A start or an end that does not matter to the judge.
    Idle,
}

/// Returns the effect that `call` can have on its key while it is pending.
pub(crate) fn open_effect(call: Call) -> Effect
    ensures { kind_as result ≡ open_kind call }
{
    match call {
        Call::Add(_) => Effect::Changes(Presence::Present),
        Call::Remove(_) => Effect::Changes(Presence::Absent),
        Call::Contains(_) | Call::Ceiling(_) => Effect::Other,
    }
}

/// Returns the event for the start of a call with the effect `effect`. `until` is the moment when the call ends, or a
/// moment after all others if the call never ends.
pub(crate) fn begin_event(effect: Effect, until: u64) -> Event
    ensures { event_as result ≡ begin_event (kind_as effect) until }
{
    match effect {
        Effect::Changes(to) => Event::Begins(to, until),
        Effect::Sees(_) | Effect::Other => Event::Idle,
    }
}

/// Returns the event for the end of a call with the effect `effect`. The call started at the moment `begun`.
pub(crate) fn end_event(effect: Effect, begun: u64) -> Event
    ensures { event_as result ≡ end_event (kind_as effect) begun }
{
    match effect {
        Effect::Changes(to) => Event::Ends(to),
        Effect::Sees(seen) => Event::Looks(seen, begun),
        Effect::Other => Event::Idle,
    }
}
