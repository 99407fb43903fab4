//! Conversions between two types of a recorded call: `Made`, used by the diagnosis, and `StreamCall`, used by the judge
//! (the crate `lset_judge`, which decides whether a recording is linearizable).

use lset_judge::StreamCall;
use lset_words::{Call, Key, Reply};
use tool_calls::{Made, NEVER, Operation};

/// Converts a call from the judge's type. A pending call gets the end `NEVER` and no reply.
pub(crate) fn made_of(call: StreamCall) -> Made {
    let operation = match call.call {
        Call::Add(_) => Operation::Add,
        Call::Remove(_) => Operation::Remove,
        Call::Contains(_) | Call::Ceiling(_) => Operation::Contains,
    };
    let (ended, reply) = match call.ended {
        Some((end, reply)) => (end, Some(reply == Reply::True)),
        None => (NEVER, None),
    };
    Made {
        begun: call.begun,
        ended,
        thread: call.thread,
        key: call.call.key().0,
        operation,
        reply,
    }
}

/// Converts a call to the judge's type. A call without a reply becomes a pending call. Does not allocate.
pub fn stream_call(made: Made) -> StreamCall {
    let key = Key(made.key);
    let call = match made.operation {
        Operation::Add => Call::Add(key),
        Operation::Remove => Call::Remove(key),
        Operation::Contains => Call::Contains(key),
    };
    let ended = match made.reply {
        Some(true) => Some((made.ended, Reply::True)),
        Some(false) => Some((made.ended, Reply::False)),
        None => None,
    };
    StreamCall {
        thread: made.thread,
        call,
        begun: made.begun,
        ended,
    }
}
