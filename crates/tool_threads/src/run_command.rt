use crate::key_lines::put_keys;
use crate::troubles::{opening_trouble, work_trouble};
use lset_coarse::CoarseList;
use lset_fine::FineList;
use lset_lazy::LazyList;
use lset_live::{Running, open_with};
use lset_lock_free::LockFreeList;
use lset_optimistic::OptimisticList;
use lset_schedule::programs;
use lset_words::{Kind, Reply};
use lset_work::{Always, Outcome, work};
use std::alloc::{AllocError, Global};
use std::io::Write;
use std::sync::Wait;
use std::thread::Threads;
use tool_base::{Answer, LivesRequest, RandomRequest, Trouble, deliver, read_lives_request};

/// The number of calls, and the numbers of calls that returned true, false and full.
#[derive(Clone, Copy)]
struct Counts {
    calls: u64,
    trues: u64,
    falses: u64,
    fulls: u64,
}

impl Counts {
    /// Counts a call with the given reply. A reply of `ceiling` (the smallest key not less than the argument) is
    /// counted as a call only.
    fn add(&mut self, reply: Reply) {
        self.calls = self.calls.wrapping_add(1);
        match reply {
            Reply::True => self.trues = self.trues.wrapping_add(1),
            Reply::False => self.falses = self.falses.wrapping_add(1),
            Reply::Full => self.fulls = self.fulls.wrapping_add(1),
            Reply::At(_) | Reply::Nothing => {}
        }
    }
}

/// Runs one round: generates a program (a list of calls) for each thread, and runs the programs in threads on a new set
/// of the list `M` that opens with the keys `opening`. Returns the error `SystemCause::Opening` if `opening` has more
/// than 1,048,576 keys.
fn run_round<M: Running + Send + Sync, R: Threads + Wait + Sync>(
    rt: &R,
    alloc: Global,
    request: RandomRequest,
    opening: &[u32],
) -> Result<Outcome, Trouble> {
    let programs = programs(
        alloc,
        request.threads,
        request.calls,
        request.keys,
        request.seed,
    )?;
    let (set, seats) = match open_with::<M>(alloc, request.threads, request.quota, opening) {
        Ok(opened) => opened,
        Err(fault) => return Err(opening_trouble(fault)),
    };
    match work(rt, alloc, set, seats, programs, &Always) {
        Ok(outcome) => Ok(outcome),
        Err(fault) => Err(work_trouble(fault.cause)),
    }
}

/// Returns the output of `run`: the counts, the number of keys, and a line for each key.
fn summary_text(alloc: Global, counts: Counts, keys: &[u32]) -> Result<Vec<u8>, AllocError> {
    let mut out = String::new(alloc);
    writeln!(
        out,
        "calls {}\ntrue {}\nfalse {}",
        counts.calls, counts.trues, counts.falses
    )?;
    writeln!(out, "full {}\nkeys {}", counts.fulls, keys.len())?;
    put_keys(&mut out, keys)?;
    Ok(out.into_bytes())
}

/// Runs all rounds on sets of the list `M`, and returns the output of `run`. The first set opens empty, and every later
/// set with the final keys of the previous round.
fn run_rounds<M: Running + Send + Sync, R: Threads + Wait + Sync>(
    rt: &R,
    alloc: Global,
    lives: LivesRequest,
) -> Result<Vec<u8>, Trouble> {
    let mut counts = Counts {
        calls: 0,
        trues: 0,
        falses: 0,
        fulls: 0,
    };
    let mut keys = Vec::new(alloc);
    for number in 0..lives.lives {
        let seed = lives.run.seed.wrapping_add(64 * u64::from(number));
        let request = RandomRequest { seed, ..lives.run };
        let Outcome {
            replies,
            keys: left,
        } = run_round::<M, R>(rt, alloc, request, &keys)?;
        for list in &replies {
            for reply in list {
                counts.add(*reply);
            }
        }
        keys = left;
    }
    Ok(summary_text(alloc, counts, &keys)?)
}

/// Runs random programs in threads. (A program is the list of calls of one thread.) The programs run in rounds, and
/// each round has a new set. The answer has exit status 0.
///
/// All programs of a round run at the same time on the round's set. The programs of round `i`, counted from 0, are
/// generated from the seed plus `64 * i` (wrapping). The first set opens empty, and every later set with the final keys
/// of the previous round. The text begins with the lines `calls N`, `true N`, `false N`, `full N` and `keys N`. A line
/// `key k` follows for each final key of the last round, in increasing order. Allocates. Blocks until all threads have
/// ended.
pub fn run_lives<R: Threads + Wait + Sync>(
    rt: &R,
    alloc: Global,
    request: LivesRequest,
) -> Result<Answer, Trouble> {
    let text = match request.run.kind {
        Kind::Coarse => run_rounds::<CoarseList, R>(rt, alloc, request),
        Kind::Fine => run_rounds::<FineList, R>(rt, alloc, request),
        Kind::Optimistic => run_rounds::<OptimisticList, R>(rt, alloc, request),
        Kind::Lazy => run_rounds::<LazyList, R>(rt, alloc, request),
        Kind::LockFree => run_rounds::<LockFreeList, R>(rt, alloc, request),
    };
    Ok(Answer {
        text: text?,
        status: 0,
    })
}

/// Implements the command `run`: writes the answer of `run_lives` to `output` and returns the exit status. `values` are
/// the command's arguments, as `read_lives_request` reads them.
///
/// The exit status is 0 if the answer was written. Otherwise one line about the error is written to `faults`, if
/// possible, and the exit status is 2 if an argument is missing or wrong, 3 if an allocation failed, and 1 for any
/// other error. An example of another error is a round that would open with more than 1,048,576 keys. Allocates. Blocks
/// until all threads have ended.
pub fn tool_run<R: Threads + Wait + Sync, W: Write, F: Write>(
    rt: &R,
    alloc: Global,
    values: &[String],
    output: &mut W,
    faults: &mut F,
) -> u8 {
    let made = match read_lives_request(values) {
        Ok(request) => run_lives(rt, alloc, request),
        Err(wrong) => Err(Trouble::Bad(wrong)),
    };
    deliver(made, output, faults)
}
