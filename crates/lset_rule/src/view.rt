//! The view of a seat (one thread's access to the set): what the seat knows about the run, as data for contracts. No
//! views exist at run time.
ghost use Rattle.std.specs.Prelude.{◌≡◌};
ghost use Rattle.lset_words.specs.Words.{Opening};

use lset_steps::{Event, Local};
use lset_words::{Call, Reply};
use std::collections::LinkedList;
use std::marker::Model;

/// The parameters with which a set was opened: the number of threads, the quota (how many successful adds each thread
/// may make), and the opening keys. The parameters never change.
#[derive(Drop)]
pub struct Opened {
    threads: u32,
    quota: u32,
    keys: Vec<u32>,
}

impl Model for Opened {
    ghost Value = { Opening };

    ghost view = { λ s. record { threads = s.threads; quota = s.quota; keys = s.keys.items } };
}

impl Opened {
    /// Returns the parameters of a set that opens with the keys `keys` and `threads` threads. Each thread can make
    /// `quota` successful adds.
    pub fn new(threads: u32, quota: u32, keys: Vec<u32>) -> Opened
        ensures { result ≡ record { threads = threads; quota = quota; keys = keys.items } }
    {
        Opened {
            threads,
            quota,
            keys,
        }
    }
}

/// A completed call in the record of a seat (one thread's access to the set).
pub struct OwnCall {
    pub call: Call,
    pub reply: Reply,
    /// The number of the event that started the call. All events of all threads are numbered together, from 1.
    pub begun: u64,
    /// The number of the event that ended the call.
    pub ended: u64,
}

/// A pending call of a thread.
pub struct PendingCall {
    pub call: Call,
    /// The number of the event that started the call. All events of all threads are numbered together, from 1.
    pub begun: u64,
    /// The number of steps that the call has taken.
    pub steps: u64,
}

/// The record of a seat (one thread's access to the set): its completed calls, and the records of the seats that were
/// merged into it (gathered), oldest first.
pub enum Past {
    /// The record of the thread with the given number, which has completed no calls yet.
    Fresh(u32),
    /// An earlier record of a seat (one thread's access to the set), and the call that the seat's own thread completed
    /// next.
    Called(&'static Past, OwnCall),
    /// An earlier record of a seat (one thread's access to the set), and the record of another seat that was then
    /// merged into the first seat.
    Gathered(&'static Past, &'static Past),
}

/// A spare thread: an idle thread that a seat (one thread's access to the set) has in addition to its own thread.
pub struct SpareThread {
    pub thread: u32,
    pub local: Local,
}

/// A view: what a seat (one thread's access to the set) knows about the run.
pub struct View {
    /// Whether the view has no threads, because it belongs to a receipt (the events that a seat has seen), or to a seat
    /// that was merged into another seat. For a view without threads, the invariant states only which events it has
    /// seen.
    pub spent: bool,
    /// The parameters with which the set was opened: its number of threads, its quota (how many successful adds each
    /// thread may make), and its opening keys.
    pub shape: Opened,
    /// The number of the seat's own thread: the thread that makes the calls of the seat.
    pub thread: u32,
    /// The private state of the seat's own thread: its row in the step table, and the nodes and values that it has
    /// read.
    pub local: Local,
    /// The pending call of the seat's own thread.
    pub under: Option<PendingCall>,
    /// The idle threads that the seat (one thread's access to the set) has in addition to its own thread. They came
    /// from merged seats, or have not been split off yet.
    pub others: LinkedList<SpareThread>,
    /// The completed calls of the seat (one thread's access to the set), and the records of the seats that were merged
    /// into it.
    pub past: Past,
    /// The events that the seat (one thread's access to the set) has seen, oldest first: all events of all threads up
    /// to its own last step or, if later, up to the last event that a merged seat or a receipt had seen.
    pub seen: LinkedList<Event>,
    /// The events that the seat had seen before its last merge, or before its last use of a receipt (the events that
    /// another seat has seen).
    pub ours: LinkedList<Event>,
    /// The events that the merged seat had seen before the last merge, or the events of the receipt that the seat used
    /// last.
    pub theirs: LinkedList<Event>,
}
