//! Step machines: list algorithms as tables of atomic steps, with one row for each step. A world (a list with its
//! threads) executes the steps one event at a time.
#![tactic(auto)]

ghost use Rattle.std.specs.Prelude.{◌≡◌, ◌+◌, ◌*◌, ◌<◌};
ghost use Rattle.lset_words.specs.declared.Kind.{Kind};
ghost use Rattle.lset_steps.specs.Steps.{Table, idle};
ghost use Rattle.lset_steps.specs.Laws.{Lawful, Occurs, Sees};
ghost use Rattle.lset_steps.specs.BoundedReads.{BoundedReads, WalkWasInChain, most_reads};

pub mod laws;
pub mod reads;
pub mod rows;
mod world;

use lset_words::{Call, Key, Kind, Layout, Reply};
pub use world::{ChainKey, StepFault, World, opening_words};

/// The private state of a thread:
/// - its number, its quota (the successful adds that it may make), and the number of slots (nodes reserved for adds)
///   that it has used;
/// - its call and the call's reply;
/// - the program counter `pc`: the next row of the step table, or 0 if no call is pending;
/// - the registers `pred` to `ckey`: nodes and key words.
#[derive(Clone, Copy)]
pub struct Local {
    pub thread: u32,
    pub quota: u32,
    pub used: u32,
    pub call: Call,
    pub pc: u8,
    pub reply: Option<Reply>,
    pub pred: u64,
    pub curr: u64,
    pub succ: u64,
    pub node: u64,
    pub pkey: u64,
    pub ckey: u64,
}

impl Local {
    /// Returns the private state of thread `t` before its first call. Accepts every `t`, also one that is not below
    /// `layout.threads()`.
    pub fn idle(layout: &Layout, t: u32) -> Local
        ensures { result ≡ idle layout.now.quota t }
    {
        Local::at_rest(t, layout.quota())
    }

    /// Returns the private state of thread number `thread` before its first call.
    pub(crate) fn at_rest(thread: u32, quota: u32) -> Local
        ensures { result ≡ idle quota thread }
    {
        Local {
            thread,
            quota,
            used: 0,
            call: Call::Contains(Key(0)),
            pc: 0,
            reply: None,
            pred: 0,
            curr: 0,
            succ: 0,
            node: 0,
            pkey: 0,
            ckey: 0,
        }
    }
}

/// One atomic access to a 64-bit word of the list. The first number is the word's index. A store has the new value. An
/// exchange has the expected value and the new value, and writes only if the word has the expected value.
#[derive(Clone, Copy)]
pub enum Action {
    Load(u64),
    Store(u64, u64),
    Exchange(u64, u64, u64),
}

/// The private state of a thread after a step, and the reply if the step ends the call.
#[derive(Clone, Copy)]
pub struct Fed {
    pub local: Local,
    pub answer: Option<Reply>,
}

/// An event of a run: a thread begins a call, or takes one atomic step of its pending call. Threads are numbered from
/// 0.
#[derive(Clone, Copy, Debug, PartialEq, Eq)]
pub enum Event {
    Begin(u32, Call),
    Go(u32),
}

/// The outcome of an event: the reply if the event ends a call, and the key that the event adds (`true`) or removes
/// (`false`), if any.
#[derive(Clone, Copy, Debug, PartialEq, Eq)]
pub struct Told {
    pub answer: Option<Reply>,
    pub change: Option<(Key, bool)>,
}

/// The algorithm of a list-based set, as a table of steps. Each function describes one step of one thread. The five
/// lists of this library are Herlihy and Shavit's algorithms. The argument `seen` is the value that the step loads or
/// stores or, for an exchange, the value before the exchange. The exchange succeeds if `seen` is the expected value.
pub trait Machine {
    const KIND: Kind;

    ghost KIND: { Kind };

    ghost table: { Table };

    /// Returns the private state of a thread after it begins `call`. `local` is the thread's state before `call`. If a
    /// call is pending in `local`, the result does not contain the pending call.
    fn begin(call: Call, local: &Local) -> Local
        ensures { result ≡ table.begin call local.now };

    /// Returns the thread's next access to a word. The thread must have a pending call, and `local` must be its private
    /// state at some moment of a run.
    fn next(local: &Local) -> Action
        requires { Occurs table local.now }
        ensures { result ≡ table.next local.now };

    /// Returns the private state of a thread after its next step, and the reply if the step ends the call. Some run
    /// must have a thread in the state `local` whose next step sees the value `seen`.
    fn feed(local: &Local, seen: u64) -> Fed
        requires { Sees table local.now seen }
        ensures { result ≡ table.feed local.now seen };

    /// Returns the key that the thread's next step adds (`true`) or removes (`false`), or `None` if the step does not
    /// change the set. Some run must have a thread in the state `local` whose next step sees the value `seen`.
    fn effect(local: &Local, seen: u64) -> Option<(Key, bool)>
        requires { Sees table local.now seen }
        ensures { result ≡ table.effect local.now seen };

    ghost lawful: { Lawful table };
}

/// A machine (a list algorithm as a table of steps) with a `contains` that takes no lock and writes nothing. Therefore
/// a `contains` never waits for another thread (Herlihy and Shavit's wait-free `contains`).
pub trait OpenReads: Machine {
    /// Returns the maximum number of steps that a `contains` takes, whatever the other threads do. Each step of a
    /// `contains` is a load.
    fn bound(layout: &Layout) -> u64
        ensures { result ≡ most_reads layout.now }
    {
        2 * (u64::from(layout.threads()) * u64::from(layout.quota()) + u64::from(layout.opening()))
            + 2
    }

    ghost reads: { BoundedReads Self.table };

    ghost walks: { WalkWasInChain Self.table };
}
