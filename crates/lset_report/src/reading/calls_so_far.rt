ghost use Rattle.std.specs.Prelude.{◌≡◌, [], true, IfOk, OnOk};
ghost use Rattle.lset_words.specs.Words.{IsWithin, empty};
ghost use Rattle.lset_history.specs.History.{with_begun};
ghost use Rattle.lset_report.specs.ReportReading.{may_follow};
ghost use Rattle.lset_report.specs.ReportCalls.{Tracks, end_moment, is_open, is_last_end, ends_well_by};

use lset_history::History;
use lset_words::CallRecord;
use std::alloc::{AllocError, Global};

/// The calls read so far, with fields that decide whether another call can follow them.
#[derive(Drop)]
pub(crate) struct CallsSoFar {
    /// The calls read so far, as a history of a set that opens empty.
    pub history: History,
    /// The moment (a position in the history, from 1) when the last call started, or 0 before the first call.
    pub last_begun: u32,
    /// For each thread, the moment (a position in the history, from 1) when the thread's last call ended. 0 if the
    /// thread has no call yet or if its last call is pending.
    pub last_ends: Vec<u32>,
    /// For each thread, whether the thread's last call is pending.
    pub busy: Vec<bool>,
    ghost within: { IsWithin (record { threads = history.opening.threads; quota = history.opening.quota; opening = 0 }) },
    ghost tracks: { Tracks history last_begun last_ends.items busy.items },
}

fn end_moment(made: CallRecord) -> u32
    ensures { result ≡ end_moment made.ended }
{
    match made.ended {
        Some((end, _)) => end,
        None => 0,
    }
}

fn is_open(made: CallRecord) -> bool
    ensures { result ≡ is_open made.ended }
{
    match made.ended {
        Some(_) => false,
        None => true,
    }
}

impl CallsSoFar {
    /// Returns a `CallsSoFar` without calls, for `threads` threads that can each add `quota` keys. Allocates.
    pub fn new(alloc: Global, threads: u32, quota: u32) -> Result<CallsSoFar, AllocError>
        requires { IsWithin (record { threads = threads; quota = quota; opening = 0 }) }
        ensures { IfOk result (λ s. s.history ≡ record { opening = empty threads quota; calls = [] }) }
    {
        Ok(CallsSoFar {
            history: History::new(alloc, threads, quota),
            last_begun: 0,
            last_ends: vec![in alloc; 0; threads as usize]?,
            busy: vec![in alloc; false; threads as usize]?,
        })
    }

    /// Returns whether some thread's last call ended at `moment` (a position in the history), which must not be 0.
    fn is_last_end(&self, moment: u32) -> bool
        ensures { result ≡ is_last_end self.now.last_ends.items moment }
    {
        self.last_ends.contains(&moment)
    }

    fn ends_well(&self, made: CallRecord) -> bool
        ensures { result ≡ ends_well_by self.now.last_ends.items made }
    {
        match made.ended {
            Some((end, _)) => made.begun < end && !self.is_last_end(end),
            None => true,
        }
    }

    /// Returns whether the call `made` can follow the calls read so far. After `last_begun`, the only positions of the
    /// history that are taken are ends of threads' last calls, so the start and the end of `made` are compared only
    /// with these ends.
    pub fn may_follow(&self, made: CallRecord) -> bool
        ensures { result ≡ may_follow self.now.history.opening.threads self.now.history.calls made }
    {
        let thread = made.thread as usize;
        if thread >= self.last_ends.len() {
            return false;
        }
        self.last_begun < made.begun
            && self.ends_well(made)
            && !self.is_last_end(made.begun)
            && !self.busy[thread]
            && self.last_ends[thread] < made.begun
    }

    /// Appends the call `made`, which must be able to follow the calls read so far. Can allocate.
    pub fn push(&mut self, made: CallRecord) -> Result<(), AllocError>
        requires { may_follow self.old.history.opening.threads self.old.history.calls made ≡ true }
        ensures { OnOk result (self.new.history ≡ with_begun self.old.history made) }
    {
        self.history.push(made)?;
        self.last_begun = made.begun;
        self.last_ends[made.thread as usize] = end_moment(made);
        self.busy[made.thread as usize] = is_open(made);
        Ok(())
    }
}
