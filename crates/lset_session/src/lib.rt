//! Sessions: a client sends one request per line, and the session answers each request. A session reads from any
//! `Source`, writes to any `Sink`, and calls any set that implements `SetCalls`. A session makes all its calls through
//! one seat (a per-thread handle) of the set.
#![tactic(auto)]

mod buffered;
mod devices;
mod requests;
mod sessions;

pub use buffered::buffered_session;
pub use devices::{Device, Sink, Source, write_all};
pub use requests::{Request, read_request};
pub use sessions::{EndReason, Ended, session};

/// The maximum length of a request line, in bytes without the newline.
pub const LONGEST_LINE: usize = 64;

/// The maximum number of lines that one session answers.
pub const MOST_LINES: u32 = 1_000_000;
