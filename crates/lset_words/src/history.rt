//! The calls of a history, the elements of an order of calls, and the linearization points of calls.

use crate::{Call, Reply};

/// A call of a history (Herlihy and Wing): the thread, the call, the moment when the call begins, and the moment when
/// the call ends with its reply. A moment is a logical time, counted from 1. A call without an end is pending.
#[derive(Clone, Copy, Debug, PartialEq, Eq)]
pub struct CallRecord {
    pub thread: u32,
    pub call: Call,
    pub begun: u32,
    pub ended: Option<(u32, Reply)>,
}

/// An element of an order of calls: the call's number in its history, counted from 0, and the call's reply in the
/// order.
#[derive(Clone, Copy, Debug, PartialEq, Eq)]
pub struct Placed {
    pub call: u32,
    pub reply: Reply,
}

/// The linearization point of a call: the moment when the call takes effect (the number of events so far), and whether
/// the call changes the set when it takes effect.
#[derive(Clone, Copy, Debug, PartialEq, Eq)]
pub struct Point {
    pub moment: u32,
    pub change: bool,
}
