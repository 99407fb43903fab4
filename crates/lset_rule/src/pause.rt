//! The code that runs between two steps of a call.

use crossbeam_utils::Backoff;
use std::cell::Cell;

/// The code that a call runs between two of its steps. No contract depends on the code of a pause: it cannot access the
/// shared words or the seat (one thread's access to the set), and affects only how long a call lasts.
///
/// Steps that succeed and steps that fail have separate functions for speed: after a call to a function that can yield
/// the processor, the compiled code reads a byte. If only `failed` can yield, steps that succeed avoid this read.
pub trait Pause {
    /// Called after a step that succeeded without ending the call. `thread` is the number of the calling thread.
    fn moved(&self, thread: u32);

    /// Called after a step that failed without ending the call. A failed step is a compare-and-exchange that did not
    /// find the expected value, for example because a lock is held. `thread` is the number of the calling thread.
    fn failed(&self, thread: u32);

    /// Called instead of `moved` when a call gets a lock that it has waited for. Only the loops of the four lists with
    /// locks call `taken`. The interpreter (`interpret_within`) calls `moved` instead. `thread` is the number of the
    /// calling thread.
    fn taken(&self, thread: u32) {
        self.moved(thread)
    }
}

/// The maximum number of `Backoff::spin` calls after a failed step: 16 calls execute up to 1,024 pause instructions.
/// The long wait lets the thread that holds the lock make many calls while the cache line of the lock stays with its
/// processor.
const MOST_WAITS: u32 = 16;

/// A pause that waits after each failed compare-and-exchange, with `Backoff` of `crossbeam_utils`. The waits of a call
/// grow up to a limit, and then also yield the processor. They are short again after the call gets a lock. Each call
/// has its own `Spin`.
#[derive(Drop)]
pub struct Spin {
    backoff: Backoff,
    waits: Cell<u32>,
}

impl Spin {
    /// Returns a pause for a new call, which has no failed steps yet.
    pub fn new() -> Spin {
        Spin {
            backoff: Backoff::new(),
            waits: Cell::new(1),
        }
    }
}

impl Pause for Spin {
    fn moved(&self, _thread: u32) {}

    #[inline(never)]
    fn failed(&self, _thread: u32) {
        let waits = self.waits.get();
        for _ in 0..waits {
            self.backoff.spin();
        }
        if waits < MOST_WAITS {
            self.waits.set(2 * waits);
        } else {
            self.backoff.snooze();
        }
    }

    fn taken(&self, _thread: u32) {
        self.backoff.reset();
        self.waits.set(1);
    }
}
