//! Calls through a seat (per-thread handle), each with its own result type. On `LiveSet`, the corresponding calls
//! return a `Reply`.
ghost use Rattle.std.specs.Prelude.{◌≡◌};
ghost use Rattle.lset_words.specs.declared.Call.TheVariants.{Add, Remove, Contains, Ceiling};
ghost use Rattle.lset_live.specs.Explained.{HasAnswered};
ghost use Rattle.lset_live.specs.Seats.{reply_of};
ghost use Rattle.lset_live.specs.Typed.{IsAddReply, IsCeilingReply, IsTruth, reply_of_add, reply_of_ceiling};

use crate::running_machine::Running;
use crate::seat::Seat;
use crate::set::LiveSet;
use lset_words::{Key, Reply};
use std::sync::Wait;

/// The result of `Seat::add`.
#[derive(Clone, Copy, Debug, PartialEq, Eq)]
#[must_use]
pub enum Added {
    /// The key was absent and has been added. The add counts against the thread's quota. The reply is `True`.
    New,
    /// The key was already present. Nothing changed. The reply is `False`.
    Already,
    /// The key was absent, but the seat's thread has used up its quota of adds. Nothing changed. The reply is `Full`.
    Full,
}

impl<M: Running> Seat<M> {
    /// Adds `key` to `set`. Returns whether the key was added, was already present, or would exceed the quota. The seat
    /// must belong to `set`.
    ///
    /// Appends the call with its reply to the seat's record, as `LiveSet::add` does. A removed key still counts against
    /// the quota. Can block while another thread holds a lock that the call needs. Does not allocate.
    ///
    /// For example:
    ///
    ///     match seat.add(rt, &set, Key(5)) {
    ///         Added::New => println!(rt; "5 is in the set now")?,
    ///         Added::Already => println!(rt; "5 was in the set already")?,
    ///         Added::Full => println!(rt; "this seat has used up its quota of adds")?,
    ///     }
    pub fn add<R: Wait>(&mut self, rt: &R, set: &LiveSet<M>, key: Key) -> Added
        requires { self.old.set ≡ set.now }
        ensures { HasAnswered M.table set.now self.old (Add key) (reply_of_add result) self.new }
    {
        let reply = set.add(rt, self, key);
        added_of(reply)
    }

    /// Removes `key` from `set`, and returns whether the key was present. The seat must belong to `set`.
    ///
    /// Appends the call with the reply `True` or `False` to the seat's record, as `LiveSet::remove` does. Can block
    /// while another thread holds a lock that the call needs. Does not allocate.
    ///
    /// For example:
    ///
    ///     if seat.remove(rt, &set, Key(5)) {
    ///         println!(rt; "5 was in the set")?;
    ///     }
    pub fn remove<R: Wait>(&mut self, rt: &R, set: &LiveSet<M>, key: Key) -> bool
        requires { self.old.set ≡ set.now }
        ensures { HasAnswered M.table set.now self.old (Remove key) (reply_of result) self.new }
    {
        let reply = set.remove(rt, self, key);
        truth_of(reply)
    }

    /// Returns whether `key` is in `set`. The seat must belong to `set`.
    ///
    /// Appends the call with the reply `True` or `False` to the seat's record, as `LiveSet::contains` does. Can block
    /// while another thread holds a lock that the call needs; `LiveSet::contains_now` never blocks. Does not allocate.
    ///
    /// For example:
    ///
    ///     if !seat.contains(rt, &set, Key(5)) {
    ///         println!(rt; "5 is not in the set")?;
    ///     }
    pub fn contains<R: Wait>(&mut self, rt: &R, set: &LiveSet<M>, key: Key) -> bool
        requires { self.old.set ≡ set.now }
        ensures { HasAnswered M.table set.now self.old (Contains key) (reply_of result) self.new }
    {
        let reply = set.contains(rt, self, key);
        truth_of(reply)
    }

    /// Returns the smallest key of `set` at or above `key`, or `None` if there is no such key. The seat must belong to
    /// `set`.
    ///
    /// Appends the call with the reply `At` (of the returned key) or `Nothing` to the seat's record, as
    /// `LiveSet::ceiling` does. Can block while another thread holds a lock that the call needs. Does not allocate.
    ///
    /// For example:
    ///
    ///     if let Some(Key(smallest)) = seat.ceiling(rt, &set, Key(0)) {
    ///         println!(rt; "the smallest key is {smallest}")?;
    ///     }
    pub fn ceiling<R: Wait>(&mut self, rt: &R, set: &LiveSet<M>, key: Key) -> Option<Key>
        requires { self.old.set ≡ set.now }
        ensures { HasAnswered M.table set.now self.old (Ceiling key) (reply_of_ceiling result) self.new }
    {
        let reply = set.ceiling(rt, self, key);
        key_of(reply)
    }
}

/// Converts the reply of an `add` to the result type `Added`.
fn added_of(reply: Reply) -> Added
    requires { IsAddReply reply }
    ensures { reply_of_add result ≡ reply }
{
    match reply {
        Reply::True => Added::New,
        Reply::False => Added::Already,
        Reply::Full => Added::Full,
        Reply::At(_) | Reply::Nothing => unreachable!(),
    }
}

/// Converts the reply of a `remove` or a `contains` to a Boolean.
pub(crate) fn truth_of(reply: Reply) -> bool
    requires { IsTruth reply }
    ensures { reply_of result ≡ reply }
{
    match reply {
        Reply::True => true,
        Reply::False => false,
        Reply::Full | Reply::At(_) | Reply::Nothing => unreachable!(),
    }
}

/// Converts the reply of a `ceiling` to the key in the reply, or to `None` if the reply is `Nothing`.
fn key_of(reply: Reply) -> Option<Key>
    requires { IsCeilingReply reply }
    ensures { reply_of_ceiling result ≡ reply }
{
    match reply {
        Reply::At(key) => Some(key),
        Reply::Nothing => None,
        Reply::True | Reply::False | Reply::Full => unreachable!(),
    }
}
