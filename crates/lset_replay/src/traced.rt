use lset_steps::{Action, ChainKey, Local};
use lset_words::{Call, Key, Reply};

/// The action of an event: it started a call, or it accessed one word. For an access, the number is the value that a
/// load read, a store wrote, or a compare-and-exchange found.
#[derive(Clone, Copy)]
pub enum Deed {
    Begin(Call),
    Access(Action, u64),
}

/// The end of a call: the call's reply, and the moment (event number) when the call takes effect.
#[derive(Clone, Copy, Debug, PartialEq, Eq)]
pub struct CallEnd {
    pub reply: Reply,
    pub moment: u32,
}

/// An event of a run for a trace: the number of the event's line in the schedule's text, the event's effect, and the
/// state of its thread before and after the event. `moment` is the number of the event, counted from 1. `call` is the
/// number, counted from 0, of the call that the event started, continued or ended. `change` is the key that the event
/// added (`true`) or removed (`false`), if any. `end` describes the end of the call, if the event ended it. `chain`
/// lists the nodes of the list from head to tail, if a list of nodes was requested and the event changed the list.
#[derive(Drop)]
pub struct TracedEvent {
    pub line: u64,
    pub moment: u32,
    pub thread: u32,
    pub call: u32,
    pub change: Option<(Key, bool)>,
    pub end: Option<CallEnd>,
    pub deed: Deed,
    pub before: Local,
    pub after: Local,
    pub chain: Option<Vec<ChainKey>>,
}
