//! A server for a running set. Clients connect, and each connection is served in a session. Each seat (per-thread
//! handle to the set) has its own worker thread.
#![tactic(auto)]

mod channel;
mod lingering;
mod set_server;
mod workers;

pub use lset_session::{
    Device, EndReason, Ended, Request, Sink, Source, buffered_session, read_request, session,
};
pub use set_server::{ServeCause, ServeFault, Served, serve};
