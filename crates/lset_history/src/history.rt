ghost use Rattle.std.specs.Prelude.{◌≡◌, ◌<◌, ◌^◌, length, IfOk, OnOk, IfErr, OnErr, [], None};
ghost use Rattle.std.specs.List.Sorted.{IsStrictlyIncreasing};
ghost use Rattle.lset_words.specs.Words.{IsWithin, Opens, empty};
ghost use Rattle.lset_words.specs.History.{IsHistory, MayFollow};
ghost use Rattle.lset_history.specs.History.{MayBegin, CannotBegin, with_begun, MayEnd, CannotEnd, with_ended, last_moment};

use crate::HistoryFault;
use lset_words::{Call, CallRecord, MOST_THREADS, Reply, keys_are_small};
use std::alloc::{AllocError, Global};
use std::fmt;
use std::marker::Model;

/// A history of calls (as defined by Herlihy and Wing): the thread, start, end and reply of each call. Calls are
/// numbered from 0, ordered by start. Moments are numbers from 1. No two starts or ends have the same moment.
#[derive(Drop)]
pub struct History {
    threads: u32,
    quota: u32,
    opening: Vec<u32>,
    calls: Vec<CallRecord>,
    busy: [bool; MOST_THREADS as usize],
    latest: u32,
}

impl fmt::Debug for History {
    fn fmt<W: fmt::Write>(&self, f: &mut fmt::Formatter<W>) -> fmt::Result {
        f.debug_struct("History")
            .field("threads", &self.threads)
            .field("quota", &self.quota)
            .field("opening", &self.opening)
            .field("calls", &self.calls)
            .finish()
    }
}

impl Model for History {
    ghost use Rattle.lset_history.specs.History.{HistoryValue, IsKept};

    ghost Value = { HistoryValue };

    ghost view = { λ h. record {
      opening = record { threads = h.threads; quota = h.quota; keys = h.opening.items };
      calls = h.calls.items;
    } };

    ghost invariant = { λ h. IsKept (record {
      opening = record { threads = h.threads; quota = h.quota; keys = h.opening.items };
      calls = h.calls.items;
    }) h.busy h.latest };
}

fn last_moment(call_record: &CallRecord) -> u32
    ensures { result ≡ last_moment call_record.now }
{
    match call_record.ended {
        None => call_record.begun,
        Some((end, _)) => call_record.begun.max(end),
    }
}

impl History {
    /// Returns a history without calls, for a set without opening keys. `threads` is the number of threads (1 to 64);
    /// `quota` is the number of successful adds that each thread can make (0 to 16,384). Does not allocate; later calls
    /// use `alloc`.
    pub fn new(alloc: Global, threads: u32, quota: u32) -> History
        requires { IsWithin (record { threads = threads; quota = quota; opening = 0 }) }
        ensures { result ≡ record { opening = empty threads quota; calls = [] } }
    {
        History::opened(alloc, threads, quota, Vec::new(alloc))
    }

    /// Returns a history without calls, for a set with the opening keys `opening`: at most 1,048,576 keys in strictly
    /// increasing order. `threads` is the number of threads (1 to 64); `quota` is the number of successful adds that
    /// each thread can make (0 to 16,384). Takes ownership of `opening` and does not allocate.
    pub fn opened(alloc: Global, threads: u32, quota: u32, opening: Vec<u32>) -> History
        requires within { IsWithin (record { threads = threads; quota = quota; opening = length opening.items }) }
        requires rising { IsStrictlyIncreasing opening.items }
        ensures { result ≡ record {
          opening = record { threads = threads; quota = quota; keys = opening.items };
          calls = [];
        } }
    {
        keys_are_small(&opening);
        History {
            threads,
            quota,
            opening,
            calls: Vec::new(alloc),
            busy: [false; MOST_THREADS as usize],
            latest: 0,
        }
    }

    /// Replaces the opening keys of the set, and keeps the calls. `opening` must have at most 1,048,576 keys in
    /// strictly increasing order. Takes ownership of `opening` and does not allocate.
    pub fn reopen(&mut self, opening: Vec<u32>)
        requires within { IsWithin (record {
          threads = self.old.opening.threads;
          quota = self.old.opening.quota;
          opening = length opening.items;
        }) }
        requires rising { IsStrictlyIncreasing opening.items }
        ensures { self.new ≡ record self.old { opening = record self.old.opening { keys = opening.items } } }
    {
        keys_are_small(&opening);
        self.opening = opening;
    }

    /// Appends a pending or completed call to the history. The call must satisfy `MayFollow`: it begins after all other
    /// calls have begun and all earlier calls of its thread have ended, and no other call begins or ends at the moment
    /// when it begins or ends. Can allocate. If an allocation fails, returns `AllocError` and leaves the history
    /// unchanged.
    pub fn push(&mut self, call_record: CallRecord) -> Result<(), AllocError>
        requires { MayFollow self.old.opening.threads self.old.calls call_record }
        ensures pushed { OnOk result (self.new ≡ with_begun self.old call_record) }
        ensures unchanged { OnErr result (self.new ≡ self.old) }
    {
        self.calls.push(call_record)?;
        self.busy[call_record.thread as usize] = call_record.ended.is_none();
        self.latest = self.latest.max(last_moment(&call_record));
        Ok(())
    }

    /// Records that `thread` begins a call at the moment `at`. Returns the call's number: 0 for the first call of the
    /// history, 1 for the second, and so on. Can allocate.
    ///
    /// # Errors
    ///
    /// Returns the first error that applies, and leaves the history unchanged:
    /// - `NoThread`: the history has no thread with the number `thread`;
    /// - `Busy`: the thread already has a pending call;
    /// - `Time`: `at` is 0, or not after every earlier moment;
    /// - `Memory`: an allocation failed.
    pub fn begin(&mut self, thread: u32, call: Call, at: u32) -> Result<u32, HistoryFault>
        ensures number { IfOk result (λ number. number ≡ length self.old.calls) }
        ensures begun { OnOk result
            (self.new ≡ with_begun self.old (record { thread = thread; call = call; begun = at; ended = None })) }
        ensures accepted { OnOk result (MayBegin self.old thread at) }
        ensures refused { IfErr result (CannotBegin self.old thread at) }
        ensures unchanged { OnErr result (self.new ≡ self.old) }
    {
        if thread >= self.threads {
            return Err(HistoryFault::NoThread);
        }
        if self.busy[thread as usize] {
            return Err(HistoryFault::Busy);
        }
        if at <= self.latest {
            return Err(HistoryFault::Time);
        }
        let number = self.calls.len() as u32;
        let record = CallRecord {
            thread,
            call,
            begun: at,
            ended: None,
        };
        let Ok(()) = self.push(record) else {
            return Err(HistoryFault::Memory);
        };
        Ok(number)
    }

    /// Records that the call numbered `id` ends at the moment `at` with `reply`. Does not allocate.
    ///
    /// # Errors
    ///
    /// Returns the first error that applies, and leaves the history unchanged:
    /// - `NotOpen`: the call does not exist, or has already ended;
    /// - `Time`: `at` is 0, or not after every earlier moment.
    pub fn end(&mut self, id: u32, reply: Reply, at: u32) -> Result<(), HistoryFault>
        ensures ended { OnOk result (self.new ≡ with_ended self.old id (at, reply)) }
        ensures accepted { OnOk result (MayEnd self.old id at) }
        ensures refused { IfErr result (CannotEnd self.old id at) }
        ensures unchanged { OnErr result (self.new ≡ self.old) }
    {
        let index = id as usize;
        if index >= self.calls.len() {
            return Err(HistoryFault::NotOpen);
        }
        let record = self.calls[index];
        if record.ended.is_some() {
            return Err(HistoryFault::NotOpen);
        }
        if at <= self.latest {
            return Err(HistoryFault::Time);
        }
        self.calls[index] = CallRecord {
            ended: Some((at, reply)),
            ..record
        };
        self.busy[record.thread as usize] = false;
        self.latest = at;
        Ok(())
    }

    /// Returns the calls, indexed by their numbers.
    pub fn calls(&self) -> &[CallRecord]
        ensures value { result.now ≡ self.now.calls }
        ensures history { IsHistory self.now.opening.threads self.now.calls }
        ensures few { length self.now.calls < 2 ^ 32 }
    {
        &self.calls
    }

    /// Returns the number of threads, 1 to 64.
    pub fn threads(&self) -> u32
        ensures value { result ≡ self.now.opening.threads }
        ensures opens { Opens self.now.opening }
    {
        self.threads
    }

    /// Returns the quota (the number of successful adds that each thread can make), 0 to 16,384.
    pub fn quota(&self) -> u32
        ensures value { result ≡ self.now.opening.quota }
        ensures opens { Opens self.now.opening }
    {
        self.quota
    }

    /// Returns the opening keys, at most 1,048,576, in strictly increasing order.
    pub fn opening(&self) -> &[u32]
        ensures value { result.now ≡ self.now.opening.keys }
        ensures opens { Opens self.now.opening }
    {
        &self.opening
    }
}
