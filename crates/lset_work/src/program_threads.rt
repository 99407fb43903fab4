//! The threads of `work`: functions that start the threads, run their programs, and join the threads.
ghost use Rattle.std.specs.Prelude.{◌≡◌, ◌<◌, ◌≤◌, ◌^◌, [], IfSome, MatchBool, MatchOption, All, map, length, true, vec_capacity};
ghost use Rattle.lset_rule.specs.Runs.{StartsWith};
ghost use Rattle.lset_work.specs.Programs.{HaveRun, IsMadeOn};

use crate::gate::Gate;
use crate::room::Program;
use lset_live::{LiveSet, Running, Seat};
use lset_rule::Spin;
use lset_words::{Call, Reply};
use std::snapshot::Snapshot;
use std::sync::Wait;
use std::thread::{Promise, PromisedHandle, Scope, Threads};

/// The result of a thread: its seat (per-thread handle to the set), and the replies to the calls of its program. `None`
/// in place of the replies means that the gate (a callback that permits or refuses each call) stopped the program.
#[derive(Drop)]
pub(crate) struct Done<M: Running> {
    pub seat: Seat<M>,
    pub replies: Option<Vec<Reply>>,
}

/// The arguments of a thread, for the thread's contract: the thread makes all calls of its program on its seat
/// (per-thread handle to the set), unless the gate (a callback that permits or refuses each call) stops the program.
#[derive(Drop)]
pub(crate) struct WorkerPromise<M: Running, G: Gate> {
    pub set: Snapshot<LiveSet<M>>,
    pub gate: Snapshot<G>,
    pub seat: Snapshot<Seat<M>>,
    pub program: Snapshot<Vec<Call>>,
}

impl<M: Running, G: Gate> Promise<Done<M>> for WorkerPromise<M, G> {
    ghost kept_by = { λ owed done. (done.seat.set ≡ owed.set.value) × (done.seat.held ≡ owed.seat.value.held)
        × MatchOption done.replies (G.may_shut owed.gate.value ≡ true)
        (λ v. IsMadeOn owed.seat.value.past owed.program.value.items v.items done.seat.past)
        × StartsWith done.seat.events owed.seat.value.events };
}

/// A started thread that runs a program.
pub(crate) type Worker<M, G> = PromisedHandle<Done<M>, WorkerPromise<M, G>>;

/// Makes the calls of a program, and appends the replies. Stops early if the gate (a callback that permits or refuses
/// each call) refuses a call. Returns whether all calls were made.
fn make_calls<R: Wait, M: Running, G: Gate>(
    rt: &R,
    set: &LiveSet<M>,
    gate: &G,
    seat: &mut Seat<M>,
    calls: &[Call],
    replies: &mut Vec<Reply>,
) -> bool
    requires seat { seat.old.set ≡ set.now }
    requires room { (replies.old.items ≡ []) × (length calls.now ≤ vec_capacity replies.old) }
    requires short { length calls.now < 2 ^ 32 }
    ensures seat { (seat.new.set ≡ set.now) × (seat.new.held ≡ seat.old.held) }
    ensures later { StartsWith seat.new.events seat.old.events }
    ensures made { MatchBool result (IsMadeOn seat.old.past calls.now replies.new.items seat.new.past) (G.may_shut gate.now ≡ true) }
{
    let thread = seat.thread();
    for (number, call) in calls.iter().enumerate() {
        if !gate.pass(thread, number as u32) {
            return false;
        }
        let reply = set.call(rt, seat, *call, &Spin::new());
        let Ok(()) = replies.push(reply) else {
            unreachable!()
        };
    }
    true
}

fn run_program<R: Wait, M: Running, G: Gate>(
    rt: &R,
    set: &LiveSet<M>,
    gate: &G,
    mut seat: Seat<M>,
    program: Program,
) -> Done<M>
    requires { seat.set ≡ set.now }
    ensures seat { (result.seat.set ≡ set.now) × (result.seat.held ≡ seat.held) }
    ensures later { StartsWith result.seat.events seat.events }
    ensures made { MatchOption result.replies (G.may_shut gate.now ≡ true)
        (λ v. IsMadeOn seat.past program.calls.items v.items result.seat.past) }
{
    let Program { calls, mut replies } = program;
    if !make_calls(rt, set, gate, &mut seat, &calls, &mut replies) {
        return Done {
            seat,
            replies: None,
        };
    }
    Done {
        seat,
        replies: Some(replies),
    }
}

/// The values that all threads share: the set, the gate (a callback that permits or refuses each call), and the runtime
/// on which the threads wait.
#[derive(Drop)]
pub(crate) struct Shared<'s, R, M: Running, G: Gate> {
    pub rt: &'s R,
    pub set: &'s LiveSet<M>,
    pub gate: &'s G,
}

impl<'s, R: Wait + Sync, M: Running + Send + Sync, G: Gate + Sync> Shared<'s, R, M, G> {
    /// Starts a thread that runs `program` (a list of calls) on `seat` (a per-thread handle to the set). Returns `None`
    /// if the system refuses to start the thread.
    fn start_one<E>(
        &self,
        scope: &Scope<'s, E>,
        seat: Seat<M>,
        program: Program,
    ) -> Option<Worker<M, G>>
        requires { seat.set ≡ self.now.set.now }
        ensures { IfSome result (λ w. (w.promise.set.value ≡ self.now.set.now) × (w.promise.gate.value ≡ self.now.gate.now)
            × (w.promise.seat.value ≡ seat) × (w.promise.program.value ≡ program.calls)) }
    {
        let rt = self.rt;
        let set = self.set;
        let gate = self.gate;
        let owed = WorkerPromise {
            set: Snapshot::of(set),
            gate: Snapshot::of(gate),
            seat: Snapshot::of(&seat),
            program: Snapshot::of(&program.calls),
        };
        scope
            .spawn_with(owed, move || run_program(rt, set, gate, seat, program))
            .ok()
    }

    /// Starts a thread for each seat (per-thread handle to the set). The thread makes the calls of the seat's program.
    /// Returns `None` if the system refuses to start a thread.
    pub fn start_all<E>(
        &self,
        scope: &Scope<'s, E>,
        mut workers: Vec<Worker<M, G>>,
        seats: Vec<Seat<M>>,
        programs: Vec<Program>,
    ) -> Option<Vec<Worker<M, G>>>
        requires seats { All (λ s. s.set ≡ self.now.set.now) seats.items }
        requires programs { length programs.items ≡ length seats.items }
        requires room { (workers.items ≡ []) × (length seats.items ≤ vec_capacity workers) }
        ensures seats { IfSome result (λ v. map (λ w. w.promise.seat.value) v.items ≡ seats.items) }
        ensures programs { IfSome result (λ v.
            map (λ w. w.promise.program.value.items) v.items ≡ map (λ p. p.calls.items) programs.items) }
        ensures set { IfSome result (λ v. All (λ w. w.promise.set.value ≡ self.now.set.now) v.items) }
        ensures gate { IfSome result (λ v. All (λ w. w.promise.gate.value ≡ self.now.gate.now) v.items) }
    {
        let mut programs = programs.into_iter();
        for seat in seats {
            let Some(program) = programs.next() else {
                unreachable!()
            };
            let worker = self.start_one(scope, seat, program)?;
            let Ok(()) = workers.push(worker) else {
                unreachable!()
            };
        }
        Some(workers)
    }
}

/// The replies of all programs, and the seat (per-thread handle to the set) into which all seats were merged.
#[derive(Drop)]
pub(crate) struct Gathered<M: Running> {
    pub seat: Option<Seat<M>>,
    pub replies: Vec<Vec<Reply>>,
}

/// Waits for one thread after another, and merges their seats (per-thread handles to the set) into one. Returns `None`
/// at the first thread whose program was stopped by the gate (a callback that permits or refuses each call), without
/// waiting for the remaining threads.
pub(crate) fn join_all<R: Threads, M: Running, G: Gate>(
    rt: &R,
    set: &LiveSet<M>,
    gate: &G,
    workers: Vec<Worker<M, G>>,
    mut replies: Vec<Vec<Reply>>,
) -> Option<Gathered<M>>
    requires set { All (λ w. w.promise.set.value ≡ set.now) workers.items }
    requires gate { All (λ w. w.promise.gate.value ≡ gate.now) workers.items }
    requires room { (replies.items ≡ []) × (length workers.items ≤ vec_capacity replies) }
    ensures { MatchOption result (G.may_shut gate.now ≡ true)
        (λ g. HaveRun set.now (map (λ w. w.promise.seat.value) workers.items)
        (map (λ w. w.promise.program.value.items) workers.items) g.seat (map (λ v. v.items) g.replies.items)) }
{
    let mut seat = None;
    for worker in workers {
        let done = worker.join(rt);
        let Ok(()) = replies.push(done.replies?) else {
            unreachable!()
        };
        seat = Some(set.gather_onto(seat, done.seat));
    }
    Some(Gathered { seat, replies })
}
