//! Lets the threads of a test wait for each other, up to a time limit.

use crate::prelude::*;

/// Waits until the flag is set. Polls every millisecond, at most 10,000 times. Returns `true` if the flag was set.
pub fn comes<R: Clock>(rt: &R, flag: &AtomicBool) -> bool {
    for _ in 0..10_000 {
        if flag.load(Ordering::SeqCst) {
            return true;
        }
        thread::sleep(rt, Duration::from_millis(1));
    }
    false
}

/// Waits until the count is `number`. Polls every millisecond, at most 10,000 times. Returns `true` if the count
/// reached `number`.
pub fn reaches<R: Clock>(rt: &R, count: &AtomicU64, number: u64) -> bool {
    for _ in 0..10_000 {
        if count.load(Ordering::SeqCst) == number {
            return true;
        }
        thread::sleep(rt, Duration::from_millis(1));
    }
    false
}

/// Waits for the first flag, makes a call, and sets the second flag.
pub fn calls<M: Running, R: Clock + Wait, P: Pause>(
    rt: &R,
    set: &LiveSet<M>,
    mut seat: Seat<M>,
    call: Call,
    pause: &P,
    flags: (&AtomicBool, &AtomicBool),
) -> Reply {
    let _came = comes(rt, flags.0);
    let reply = set.call(rt, &mut seat, call, pause);
    flags.1.store(true, Ordering::SeqCst);
    reply
}

/// A meeting of up to 64 threads: a thread that arrives for the first time waits for all other threads. `took` is true
/// if a thread had to wait for a lock and then acquired the lock.
#[derive(Drop)]
pub struct Meeting<'a, R> {
    rt: &'a R,
    threads: u64,
    came: [AtomicBool; 64],
    count: AtomicU64,
    missed: AtomicBool,
    took: AtomicBool,
}

impl<'a, R: Clock> Meeting<'a, R> {
    /// Creates a meeting of `threads` threads. No thread has arrived yet.
    pub fn new(rt: &'a R, threads: u64) -> Meeting<'a, R> {
        Meeting {
            rt,
            threads,
            came: [false; 64].map(AtomicBool::new),
            count: AtomicU64::new(0),
            missed: AtomicBool::new(false),
            took: AtomicBool::new(false),
        }
    }

    /// Registers that a thread has arrived, and waits for all other threads. Returns `false` if some thread does not
    /// arrive in time. Returns `true` at once if `thread` has arrived before.
    pub fn come(&self, thread: u32) -> bool {
        if self.came[(thread % 64) as usize].swap(true, Ordering::SeqCst) {
            return true;
        }
        self.count.fetch_add(1, Ordering::SeqCst);
        let has_met = reaches(self.rt, &self.count, self.threads);
        if !has_met {
            self.missed.store(true, Ordering::SeqCst);
        }
        has_met
    }

    /// Returns `true` if all threads arrived and no thread gave up waiting.
    pub fn was_held(&self) -> bool {
        self.count.load(Ordering::SeqCst) == self.threads && !self.missed.load(Ordering::SeqCst)
    }

    /// Returns `true` if a thread had to wait for a lock and then acquired the lock.
    pub fn has_waited(&self) -> bool {
        self.took.load(Ordering::SeqCst)
    }
}

/// Makes each thread wait before its second call until all threads have arrived.
impl<'a, R: Clock> Gate for Meeting<'a, R> {
    fn pass(&self, seat: u32, call: u32) -> bool {
        call != 1 || self.come(seat)
    }
}

/// Makes each thread wait after its first step until all threads have taken a step.
impl<'a, R: Clock> Pause for Meeting<'a, R> {
    fn moved(&self, thread: u32) {
        let _has_met = self.come(thread);
    }

    fn failed(&self, thread: u32) {
        let _has_met = self.come(thread);
    }

    fn taken(&self, _thread: u32) {
        self.took.store(true, Ordering::SeqCst);
    }
}
