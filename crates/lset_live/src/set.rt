//! A running set (a list in memory that threads share), and the calls of the set.
ghost use Rattle.std.specs.Prelude.{◌≡◌, ◌≢◌, ◌+◌, ◌<◌, ◌≤◌, ℕ, List, [], ◌∷◌, length, vec_capacity, IfOk, IfErr, IfSome};
ghost use Rattle.lset_words.specs.Words.{word_count, sizes};
ghost use Rattle.lset_words.specs.declared.Call.TheVariants.{Add, Remove, Contains, Ceiling};
ghost use Rattle.lset_words.specs.declared.TheConstants.{MOST_QUOTA, MOST_THREADS};
ghost use Rattle.lset_rule.specs.declared.view.Past.{Fresh};
ghost use Rattle.lset_rule.specs.Views.{IsIdle};
ghost use Rattle.lset_rule.specs.Seats.{IsOf};
ghost use Rattle.lset_steps.specs.BoundedReads.{most_reads};
ghost use Rattle.lset_rule.specs.Runs.{StartsWith};
ghost use Rattle.lset_rule.specs.Rule.{left_view, right_view};
ghost use Rattle.lset_live.specs.Closes.{HasKeys, most_keys};
ghost use Rattle.lset_live.specs.Explained.{HasMadeAtMost, IsOneLegalOrder, IsOneOrderInTime, HasAnswered};
ghost use Rattle.lset_words.specs.Records.{gathered, thread_of};
ghost use Rattle.lset_live.specs.Seats.{reply_of};

use crate::bounded::Bounded;
use crate::closed::Closed;
use crate::running_machine::{OpenContains, Running, RunningReads};
use crate::seat::Seat;
use crate::typed_calls::truth_of;
use atomic_table::Table;
use lset_lists::runs_are_linearizable;
use lset_rule::{
    Follows, JoinSeats, Learn, Opened, Pause, Rounds, Spin, SplitSeat, TableSeat, View,
};
use lset_steps::Machine;
use lset_words::{Call, Key, Reply};
use std::alloc::{AllocError, Global};
use std::fmt;
use std::marker::{Model, PhantomData};
use std::sync::Wait;
use thiserror::Error;

/// A running set of the list `M`: Herlihy and Shavit's `Set`, with a limit on the number of keys that each thread can
/// add (its quota). Threads share the set by `&`, and each thread calls the set through its own seat (per-thread
/// handle). In contracts, a set is its table of words (memory cells) and what it was opened with: the number of
/// threads, the quota and the keys at the start.
#[derive(Drop)]
pub struct LiveSet<M: Machine> {
    pub(crate) table: Table<(), View, Opened, Follows<M>, Global>,
    pub(crate) threads: u32,
    pub(crate) quota: u32,
    pub(crate) opening: u32,
    pub(crate) alloc: Global,
    ghost sized: { (table.shared.table_id.words ≡ word_count (record { threads = threads; quota = quota; opening = opening })) × (table.shared.table_id.slots ≡ 0) },
    ghost shaped: { sizes table.shared.key ≡ record { threads = threads; quota = quota; opening = opening } },
    ghost within: { (0 < threads) × (threads ≤ MOST_THREADS) × (quota ≤ MOST_QUOTA) },
}

impl<M: Machine> Model for LiveSet<M> {
    ghost use Rattle.lset_live.specs.Seats.{SetValue};

    ghost Value = { SetValue };

    ghost view = { λ s. record { table = s.table.shared.table_id; shape = s.table.shared.key } };
}

/// The error of `LiveSet::close` if the given seat (per-thread handle) does not hold all seats of the set. Contains the
/// unchanged set and the unchanged seat.
#[derive(Drop, Error)]
#[error("the seat does not hold all seats of the set")]
pub struct SeatsOut<M: Machine> {
    pub set: LiveSet<M>,
    pub seat: Seat<M>,
}

impl<M: Machine> fmt::Debug for SeatsOut<M> {
    fn fmt<W: fmt::Write>(&self, f: &mut fmt::Formatter<W>) -> fmt::Result {
        f.debug_struct("SeatsOut")
            .field("seats", &self.set.threads)
            .field("held", &self.seat.held)
            .finish_non_exhaustive()
    }
}

impl<M: Machine> LiveSet<M> {
    /// Returns the number of seats that the set was opened with, which is the number of threads that can call the set.
    pub fn seats(&self) -> u32
        ensures seats { result ≡ self.now.shape.threads }
        ensures range { (0 < result) × (result ≤ MOST_THREADS) }
    {
        self.threads
    }

    /// Returns the quota: the number of keys that each thread can add over the life of the set.
    pub fn quota(&self) -> u32
        ensures quota { result ≡ self.now.shape.quota }
        ensures range { result ≤ MOST_QUOTA }
    {
        self.quota
    }

    /// Returns the maximum number of keys that the set can have: the number of keys at the start plus the number of
    /// keys that its threads can add.
    pub fn most_keys(&self) -> usize
        ensures { result ≡ most_keys (sizes self.now.shape) }
    {
        self.threads as usize * self.quota as usize + self.opening as usize
    }
}

impl<M: Running> LiveSet<M> {
    /// Executes the call through `seat` (a per-thread handle), which must belong to the set, and returns the reply.
    /// Calls `pause` after each step of the call except the last.
    ///
    /// Appends the call with its reply to the seat's record of completed calls. In contracts, a seat has seen a prefix
    /// of the run's events (starts and steps of calls). The call starts after this prefix, and its last step is the
    /// last event of the new prefix. The calls in the new prefix have a linearization (Herlihy and Wing) that agrees
    /// with the record. Can block while another thread holds a lock that the call needs. Does not allocate.
    pub fn call<R: Wait, P: Pause>(
        &self,
        rt: &R,
        seat: &mut Seat<M>,
        call: Call,
        pause: &P,
    ) -> Reply
        requires { seat.old.set ≡ self.now }
        ensures { HasAnswered M.table self.now seat.old call result seat.new }
    {
        runs_are_linearizable::<M>();
        let (slots, reply) = M::make_on::<R, P>(
            rt,
            &self.table.shared,
            &mut seat.place,
            seat.slots,
            call,
            pause,
        );
        seat.slots = slots;
        reply
    }

    /// Adds `key`. Returns `True` if the key was absent and has been added, `False` if it was already present, and
    /// `Full` if it was absent but the thread has used up its quota of adds. `seat` (a per-thread handle) must belong
    /// to the set. Can block while another thread holds a lock that the call needs. Does not allocate.
    pub fn add<R: Wait>(&self, rt: &R, seat: &mut Seat<M>, key: Key) -> Reply
        requires { seat.old.set ≡ self.now }
        ensures { HasAnswered M.table self.now seat.old (Add key) result seat.new }
    {
        self.call(rt, seat, Call::Add(key), &Spin::new())
    }

    /// Removes `key`. Returns `True` if the key was present, otherwise `False`. `seat` (a per-thread handle) must
    /// belong to the set. Can block while another thread holds a lock that the call needs. Does not allocate.
    pub fn remove<R: Wait>(&self, rt: &R, seat: &mut Seat<M>, key: Key) -> Reply
        requires { seat.old.set ≡ self.now }
        ensures { HasAnswered M.table self.now seat.old (Remove key) result seat.new }
    {
        self.call(rt, seat, Call::Remove(key), &Spin::new())
    }

    /// Returns `True` if `key` is present, otherwise `False`. `seat` (a per-thread handle) must belong to the set. Can
    /// block while another thread holds a lock that the call needs. Does not allocate.
    pub fn contains<R: Wait>(&self, rt: &R, seat: &mut Seat<M>, key: Key) -> Reply
        requires { seat.old.set ≡ self.now }
        ensures { HasAnswered M.table self.now seat.old (Contains key) result seat.new }
    {
        self.call(rt, seat, Call::Contains(key), &Spin::new())
    }

    /// Returns `At` with the smallest key at or above `key`, or `Nothing` if there is no such key. `seat` (a per-thread
    /// handle) must belong to the set. Can block while another thread holds a lock that the call needs. Does not
    /// allocate.
    pub fn ceiling<R: Wait>(&self, rt: &R, seat: &mut Seat<M>, key: Key) -> Reply
        requires { seat.old.set ≡ self.now }
        ensures { HasAnswered M.table self.now seat.old (Ceiling key) result seat.new }
    {
        self.call(rt, seat, Call::Ceiling(key), &Spin::new())
    }
}

impl<M: Bounded> LiveSet<M> {
    /// Executes the call through `seat` (a per-thread handle), which must belong to the set, with at most `N::MOST`
    /// rounds in each loop of the call. Needs no runtime. In LazyList and LockFreeList, a `contains` never blocks and
    /// makes as many rounds as it needs. Returns the seat and the reply, which satisfy the postcondition of `call`.
    ///
    /// Returns `None` if a loop has used up its rounds, for example while the call waits for a lock. The call is then
    /// still pending and holds its locks. The seat is consumed, and the set can never be closed. With [`Countless`]
    /// rounds, no run reaches this case.
    pub fn call_within<P: Pause, N: Rounds>(
        &self,
        seat: Seat<M>,
        call: Call,
        pause: &P,
    ) -> Option<(Seat<M>, Reply)>
        requires { seat.set ≡ self.now }
        ensures { IfSome result (λ r. HasAnswered M.table self.now seat call r.1 r.0) }
    {
        runs_are_linearizable::<M>();
        let Seat {
            mut place,
            slots,
            held,
            of: _,
        } = seat;
        let (slots, reply) = M::make_within::<P, N>(
            &self.table.shared,
            &mut place,
            slots,
            call,
            pause,
        )?;
        let seat = Seat {
            place,
            slots,
            held,
            of: PhantomData,
        };
        Some((seat, reply))
    }
}

impl<M: Machine> LiveSet<M> {
    /// Merges the seat `from` (a per-thread handle) into the seat `into`, which then also has the record of `from`, the
    /// seats that `from` held, and the events that `from` had seen. Both seats must belong to the set. In each order
    /// that agrees with the record of `into`, the calls of `from` precede all calls that `into` makes after the merge.
    pub fn gather(&self, into: &mut Seat<M>, from: Seat<M>)
        requires into { into.old.set ≡ self.now }
        requires from { from.set ≡ self.now }
        ensures seat { into.new.set ≡ self.now }
        ensures record { into.new.past ≡ gathered into.old.past from.past }
        ensures held { into.new.held ≡ into.old.held + from.held }
        ensures events { StartsWith into.new.events into.old.events × StartsWith into.new.events from.events }
    {
        let Seat {
            place,
            slots: _,
            held,
            of: _,
        } = from;
        self.table
            .shared
            .join_seat::<JoinSeats>(&mut into.place, place);
        self.table.shared.load::<Learn<M>>(&mut into.place, 0);
        into.held += held;
    }

    /// Closes the set if `seat` (a per-thread handle) holds all seats of the set. Otherwise returns the set and `seat`
    /// unchanged in `SeatsOut`.
    ///
    /// The calls in the seat's record have an order in which a sequential set returns the same replies and ends with
    /// the final keys. The order agrees with the record, and is a linearization of the events (starts and steps of
    /// calls) that the seat has seen.
    pub fn close(self, seat: Seat<M>) -> Result<Closed, SeatsOut<M>>
        requires { seat.set ≡ self }
        ensures all { IfOk result (λ c. seat.held ≡ self.shape.threads) }
        ensures sizes { IfOk result (λ c. c.sizes ≡ sizes self.shape) }
        ensures closed { IfOk result (λ c. (keys : List ℕ) → HasKeys c keys → IsOneLegalOrder self.shape (seat.past ∷ []) keys) }
        ensures in_time { IfOk result (λ c. (keys : List ℕ) → HasKeys c keys → IsOneOrderInTime M.table self.shape seat.events (seat.past ∷ []) keys) }
        ensures out { IfErr result (λ b. (seat.held ≢ self.shape.threads) × (b.set ≡ self) × (b.seat ≡ seat)) }
    {
        runs_are_linearizable::<M>();
        if seat.held != self.threads {
            return Err(SeatsOut { set: self, seat });
        }
        let LiveSet {
            alloc,
            table,
            threads,
            quota,
            opening,
        } = self;
        let Seat {
            place,
            slots: _,
            held: _,
            of: _,
        } = seat;
        let words = table.close_with(place);
        Ok(Closed {
            alloc,
            words,
            threads,
            quota,
            opening,
        })
    }

    /// Closes the set and returns its final keys, in increasing order. `seat` (a per-thread handle) must hold all seats
    /// of the set. Returns an error only if an allocation fails.
    pub fn keys_left(self, seat: Seat<M>) -> Result<Vec<u32>, AllocError>
        requires seat { seat.set ≡ self }
        requires all { seat.held ≡ self.shape.threads }
        ensures order { IfOk result (λ v. IsOneLegalOrder self.shape (seat.past ∷ []) v.items) }
        ensures in_time { IfOk result (λ v. IsOneOrderInTime M.table self.shape seat.events (seat.past ∷ []) v.items) }
    {
        let Ok(closed) = self.close(seat) else {
            unreachable!()
        };
        closed.keys()
    }

    /// Closes the set, appends its final keys in increasing order to the vector `room`, and returns the vector. `room`
    /// must be empty, with a capacity of at least `most_keys`. `seat` (a per-thread handle) must hold all seats of the
    /// set. Does not allocate and does not fail.
    pub fn keys_left_in(self, seat: Seat<M>, room: Vec<u32>) -> Vec<u32>
        requires seat { seat.set ≡ self }
        requires all { seat.held ≡ self.shape.threads }
        requires room { (room.items ≡ []) × (most_keys (sizes self.shape) ≤ vec_capacity room) }
        ensures order { IsOneLegalOrder self.shape (seat.past ∷ []) result.items }
        ensures in_time { IsOneOrderInTime M.table self.shape seat.events (seat.past ∷ []) result.items }
    {
        let Ok(closed) = self.close(seat) else {
            unreachable!()
        };
        let Ok(keys) = closed.keys_in(room) else {
            unreachable!()
        };
        keys
    }

    pub(crate) fn split_off(&self, place: &mut TableSeat) -> TableSeat
        requires place { IsOf self.now.table self.now.shape place.old × IsIdle place.old.me.0 }
        requires fresh { (place.old.me.0.past ≡ Fresh place.old.me.0.thread) × (0 < length place.old.me.0.others) }
        ensures old { (place.new.table_id ≡ place.old.table_id) × (place.new.id ≡ place.old.id)
            × (place.new.me ≡ (left_view place.old.me.0, place.old.me.1)) }
        ensures new { (result.table_id ≡ place.old.table_id) × (result.me ≡ (right_view place.old.me.0, [])) }
    {
        self.table.shared.split_seat::<SplitSeat>(place)
    }
}

impl<M: OpenContains> LiveSet<M> {
    /// Returns whether `key` is in the set, without blocking or allocating. `seat` (a per-thread handle) must belong to
    /// the set. The call is appended to the seat's record with the reply `True` or `False`.
    ///
    /// The call is wait-free: whatever other threads do, it takes at most `lset_steps::OpenReads::bound` steps, and each
    /// step is a load. Unlike `contains_now`, this function also exists for lists that are not `Running`.
    pub fn contains_within_bound(&self, seat: &mut Seat<M>, key: Key) -> bool
        requires { seat.old.set ≡ self.now }
        ensures answered { HasAnswered M.table self.now seat.old (Contains key) (reply_of result) seat.new }
        ensures within { HasMadeAtMost (most_reads (sizes self.now.shape)) (thread_of seat.old.past) seat.new.events }
    {
        runs_are_linearizable::<M>();
        let (slots, reply) = M::contains_now_on(
            &self.table.shared,
            &mut seat.place,
            seat.slots,
            key,
        );
        seat.slots = slots;
        truth_of(reply)
    }
}

impl<M: RunningReads> LiveSet<M> {
    /// Returns whether `key` is in the set, without blocking or allocating. `seat` (a per-thread handle) must belong to
    /// the set. The call is appended to the seat's record with the reply `True` or `False`.
    ///
    /// The call is wait-free: whatever other threads do, it takes at most `lset_steps::OpenReads::bound` steps, and each
    /// step is a load.
    pub fn contains_now(&self, seat: &mut Seat<M>, key: Key) -> bool
        requires { seat.old.set ≡ self.now }
        ensures answered { HasAnswered M.table self.now seat.old (Contains key) (reply_of result) seat.new }
        ensures within { HasMadeAtMost (most_reads (sizes self.now.shape)) (thread_of seat.old.past) seat.new.events }
    {
        self.contains_within_bound(seat, key)
    }
}
