//! The imports that all groups of calls share, and the trait of the runtimes that the calls require.
pub use crate::refused_calls::{Calls, check};
pub use anyhow::{Error, Result};
pub use lset_lazy::LazyList;
pub use lset_live::{LiveSet, OpenFault, Seat, open};
pub use lset_words::{Call, Key, Reply};
pub use std::alloc::{AllocError, Global};
pub use std::net::{Net, TcpListener, TcpStream};
pub use std::sync::Wait;
pub use std::thread::Threads;
pub use std::time::Clock;

/// A runtime with a clock, and with threads that can block.
pub trait Host: Clock + Sync + Threads + Wait {}

impl<R: Clock + Sync + Threads + Wait> Host for R {}
