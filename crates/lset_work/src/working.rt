//! Runs programs (lists of calls) on the seats of a set, all at the same time. A seat is one thread's handle to the
//! set.
ghost use Rattle.std.specs.Prelude.{◌≡◌, ◌<◌, ◌^◌, ◌↔◌, IfOk, IfErr, IsOk, MatchResult, All, map, length, true};
ghost use Rattle.lset_live.specs.Explained.{IsOneLegalOrder};
ghost use Rattle.lset_work.specs.Programs.{Fit, GivesBack, HaveRun, IsOfThreads, IsWorkInTime, worked};

use crate::gate::Gate;
use crate::program_threads::{Gathered, Shared, join_all};
use crate::room::{Room, reserved};
use crate::work_fault::{WorkCause, WorkFault};
use lset_live::{LiveSet, Running, Seat};
use lset_words::{Call, Reply};
use std::alloc::Global;
use std::sync::Wait;
use std::thread;
use std::thread::{Scope, Threads};

/// The outcome of `work`.
#[derive(Drop)]
pub struct Outcome {
    /// The replies to the calls of each program, in the order of the seats (per-thread handles).
    pub replies: Vec<Vec<Reply>>,
    /// The final keys of the set, in increasing order.
    pub keys: Vec<u32>,
}

/// Runs each program on its seat (per-thread handle to the set), in a thread of `scope`, and merges the seats into one.
fn run_in<'s, E, R: Threads + Wait + Sync, M: Running + Send + Sync, G: Gate + Sync>(
    scope: &Scope<'s, E>,
    rt: &'s R,
    set: &'s LiveSet<M>,
    gate: &'s G,
    seats: Vec<Seat<M>>,
    room: Room<M, G>,
) -> Result<Gathered<M>, WorkCause>
    requires seats { All (λ s. s.set ≡ set.now) seats.items }
    requires programs { length room.programs.items ≡ length seats.items }
    ensures { MatchResult result (λ g. HaveRun set.now seats.items (map (λ p. p.calls.items) room.programs.items)
        g.seat (map (λ v. v.items) g.replies.items)) (IsOfThreads (G.may_shut gate.now)) }
{
    let Room {
        programs,
        workers,
        replies,
    } = room;
    let shared = Shared { rt, set, gate };
    let Some(workers) = shared.start_all(scope, workers, seats, programs) else {
        return Err(WorkCause::Spawn);
    };
    let Some(gathered) = join_all(rt, set, gate, workers, replies) else {
        return Err(WorkCause::Gate);
    };
    Ok(gathered)
}

/// Runs each program on its seat (per-thread handle to the set), in its own thread, and merges the seats into one when
/// all threads have ended.
fn run_all<R: Threads + Wait + Sync, M: Running + Send + Sync, G: Gate + Sync>(
    rt: &R,
    set: &LiveSet<M>,
    gate: &G,
    seats: Vec<Seat<M>>,
    room: Room<M, G>,
) -> Result<Gathered<M>, WorkCause>
    requires seats { All (λ s. s.set ≡ set.now) seats.items }
    requires programs { length room.programs.items ≡ length seats.items }
    ensures { MatchResult result (λ g. HaveRun set.now seats.items (map (λ p. p.calls.items) room.programs.items)
        g.seat (map (λ v. v.items) g.replies.items)) (IsOfThreads (G.may_shut gate.now)) }
{
    thread::scope(
        thread::scope_env(),
        rt,
        |scope| -> Result<Gathered<M>, WorkCause>
            requires seats { All (λ s. s.set ≡ set.now) seats.items }
            requires programs { length room.programs.items ≡ length seats.items }
            ensures { MatchResult result (λ g. HaveRun set.entry.now seats.items (map (λ p. p.calls.items) room.programs.items)
                g.seat (map (λ v. v.items) g.replies.items)) (IsOfThreads (G.may_shut gate.entry.now)) }
        { run_in(scope, rt, set, gate, seats, room) },
    )
}

/// Makes the calls of each program on its seat. All programs run at the same time, each in its own thread. (A seat is
/// one thread's handle to the set.)
///
/// Before each call, `gate` decides whether the program continues. At the end, the seats are merged into one (gathered)
/// and the set is closed. Some legal order (Herlihy and Wing) has exactly the calls in the seats' records and the calls
/// of the programs with their replies. The legal order keeps the order of each seat's calls, and leaves the final keys.
/// A program has at most 4,294,967,295 calls. Blocks until all threads have ended. A thread can block on the set's
/// locks, and while the gate blocks.
///
/// # Errors
///
/// Returns a `WorkFault` with one of the following causes:
///
/// - `Programs`: if and only if the number of programs differs from the number of seats, or the seats (together with
/// the seats merged into them) are not all seats of the set. No call was made, and the set and the seats are returned.
/// - `Spawn`: the system refused to start a thread. The threads that had been started have ended.
/// - `Gate`: the gate refused a call, and no further call of that call's program was made. All threads have ended.
/// - `Memory`: an allocation failed. All memory, including the memory for the final keys, is allocated before the first
/// thread starts. The set and the seats are returned.
///
/// No contract states when the system refuses to start a thread, or when a gate that can return false does so.
pub fn work<R: Threads + Wait + Sync, M: Running + Send + Sync, G: Gate + Sync>(
    rt: &R,
    alloc: Global,
    set: LiveSet<M>,
    seats: Vec<Seat<M>>,
    programs: Vec<Vec<Call>>,
    gate: &G,
) -> Result<Outcome, WorkFault<M>>
    requires seats { All (λ s. s.set ≡ set) seats.items }
    requires short { All (λ p. length p.items < 2 ^ 32) programs.items }
    // Each call of each program has one reply.
    ensures replies { IfOk result (λ o. map (λ v. length v.items) o.replies.items ≡ map (λ p. length p.items) programs.items) }
    ensures outcome { IfOk result (λ o. IsOneLegalOrder set.shape (worked
        (map (λ s. s.past) seats.items) (map (λ p. p.items) programs.items) (map (λ v. v.items) o.replies.items)) o.keys.items) }
    // The legal order of all calls also linearizes a history that begins with the events that the seats had seen before
    // `work`. A call that had ended in the seen events precedes, in the order, all calls that began later. (A seat can
    // learn from a receipt that a call has ended: a receipt contains the events that another seat had seen.)
    ensures in_time { IfOk result (λ o. IsWorkInTime M.table set.shape seats.items (worked
        (map (λ s. s.past) seats.items) (map (λ p. p.items) programs.items) (map (λ v. v.items) o.replies.items)) o.keys.items) }
    // The cause is `Programs` if and only if the numbers of programs, of seats and of the set's threads do not match.
    ensures fitting { IsOk result → Fit set seats.items (length programs.items) }
    ensures refused { IfErr result (λ f. f.cause ≡ WorkCause.Programs ↔ ¬ (Fit set seats.items (length programs.items))) }
    ensures back { IfErr result (λ f. GivesBack (set, seats) f.cause f.back) }
    // If the gate (a callback that permits or refuses each call) never returns false, no program stops early.
    ensures gate { IfErr result (λ f. f.cause ≡ WorkCause.Gate → G.may_shut gate.now ≡ true) }
{
    if programs.len() != seats.len() || !set.is_held_by(&seats) {
        return Err(WorkFault {
            cause: WorkCause::Programs,
            back: Some((set, seats)),
        });
    }
    let Some((room, keys)) = reserved::<M, G>(alloc, programs, set.most_keys()) else {
        return Err(WorkFault {
            cause: WorkCause::Memory,
            back: Some((set, seats)),
        });
    };
    let gathered = match run_all(rt, &set, gate, seats, room) {
        Ok(gathered) => gathered,
        Err(cause) => return Err(WorkFault { cause, back: None }),
    };
    let Gathered { seat, replies } = gathered;
    let Some(seat) = seat else { unreachable!() };
    let keys = set.keys_left_in(seat, keys);
    Ok(Outcome { replies, keys })
}
