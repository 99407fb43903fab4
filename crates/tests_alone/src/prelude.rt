//! The imports that most tests need, and the trait of the runtimes that the tests require.
pub use lset_coarse::CoarseList;
pub use lset_fine::FineList;
pub use lset_history::{Changes, History, HistoryFault, Oracle, OrderFault, Placed, check_order};
pub use lset_judge::{Judge, LAST_MOMENT, Refusal, StreamCall, StreamFault, Verdict};
pub use lset_lazy::LazyList;
pub use lset_lock_free::LockFreeList;
pub use lset_optimistic::OptimisticList;
pub use lset_replay::replay;
pub use lset_schedule::generate;
pub use lset_steps::{Event, Machine, World};
pub use lset_words::{
    Call, Key, MOST_OPENING, MOST_QUOTA, MOST_THREADS, Presence, Reply, layout, layout_opening,
};
pub use rand_core::{Rng, SeedableRng};
pub use rand_pcg::Pcg32;
pub use std::alloc::{AllocError, Global};
pub use std::net::{Net, TcpListener, TcpStream};
pub use std::process::Abort;
use std::rt::Files;
use std::sync::Wait;
pub use std::test::Fail;
use std::thread::Threads;
use std::time::Clock;

/// A runtime that can run the program `listset` and fail a test.
pub trait Host: Abort
    + Clock
    + Files
    + Net<Listener = TcpListener, Stream = TcpStream>
    + Sync
    + Threads
    + Wait {}

impl<
    R: Abort
        + Clock
        + Files
        + Net<Listener = TcpListener, Stream = TcpStream>
        + Sync
        + Threads
        + Wait,
> Host for R {}
