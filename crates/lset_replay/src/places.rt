ghost use Rattle.std.specs.Prelude.{◌≡◌};
ghost use Rattle.lset_replay.specs.Trace.{needs_key, found_in, changed_at, read_at};

use lset_words::{Call, Effect, Presence, Reply};

/// A pending call, with its number in the history and the moment (event number) when the call started.
#[derive(Clone, Copy)]
pub(crate) struct OpenCall {
    pub number: u32,
    pub call: Call,
    pub begun: u32,
}

/// Returns `true` if the reply of a call that changed nothing requires the call's key to be present, and `false` if the
/// reply requires the key to be absent. Returns `true` for every `ceiling`.
pub(crate) fn needs_key(call: Call, reply: Reply) -> bool
    ensures { result ≡ needs_key call reply }
{
    matches!(call, Call::Ceiling(_))
        || matches!(call.effect(reply), Effect::Sees(Presence::Present))
}

/// Returns the key in the reply of a `ceiling`, or `None` if the reply is `Nothing`.
pub(crate) fn found_in(reply: Reply) -> Option<u32>
    ensures { result ≡ found_in reply }
{
    match reply {
        Reply::At(key) => Some(key.0),
        Reply::Nothing | Reply::True | Reply::False | Reply::Full => None,
    }
}

/// The linearization point of a call: its moment (event number), the call's reply, and whether the call changes the set
/// at the moment.
#[derive(Clone, Copy)]
pub(crate) struct Linearized {
    pub moment: u32,
    pub reply: Reply,
    pub change: bool,
}

impl Linearized {
    /// Creates the linearization point of a call that changes the set at `moment`. The call's reply is `True`.
    pub fn changed(moment: u32) -> Linearized
        ensures { result ≡ changed_at moment }
    {
        Linearized {
            moment,
            reply: Reply::True,
            change: true,
        }
    }

    /// Creates the linearization point of a call that changes nothing. The point is at `moment` or, if `moment` is
    /// `None`, at `end`, the moment when the call ends.
    pub fn read(moment: Option<u32>, end: u32, reply: Reply) -> Linearized
        ensures { result ≡ read_at moment end reply }
    {
        Linearized {
            moment: moment.unwrap_or(end),
            reply,
            change: false,
        }
    }
}
