//! The imports that most tests need, and the trait of the runtimes that the tests require.
pub use crate::stepped::Stepped;
pub use lset_coarse::CoarseList;
pub use lset_fine::FineList;
pub use lset_lazy::LazyList;
pub use lset_live::{
    Added, Bounded, Countless, LiveSet, OpenFault, Running, RunningReads, Seat, open, open_with,
};
pub use lset_lock_free::LockFreeList;
pub use lset_optimistic::OptimisticList;
pub use lset_rule::{Pause, Spin};
pub use lset_server::{Device, EndReason, Ended, Sink, Source, buffered_session, session};
pub use lset_steps::Machine;
pub use lset_words::{Call, Key, Kind, MOST_OPENING, MOST_QUOTA, MOST_THREADS, Reply};
pub use lset_work::{Always, Gate};
pub use std::alloc::Global;
pub use std::io::{self, Read, Write};
pub use std::net::{Net, TcpListener, TcpStream};
pub use std::process::Abort;
pub use std::sync::Wait;
pub use std::sync::atomic::{AtomicBool, AtomicU64, Ordering};
pub use std::thread::{self, Threads, join};
pub use std::time::{Clock, Duration};

/// A runtime that can fail a test, wait, sleep, and start threads.
pub trait Host: Abort + Clock + Sync + Threads + Wait {}

impl<R: Abort + Clock + Sync + Threads + Wait> Host for R {}
