//! The worker threads of a server, one for each seat. A seat is one thread's handle to the set.
ghost use Rattle.std.specs.Prelude.{◌≡◌, ◌≢◌, ◌<◌, ◌≤◌, ◌-◌, ◌*◌, ◌++◌, List, [], ◌∷◌, All, length, map, sum_by};
ghost use Rattle.std.specs.Prelude.{IfErr, IfOk, IfSome, MatchOption, OnOk};
ghost use Rattle.std.specs.Option.{option_map};
ghost use Rattle.lset_words.specs.declared.TheConstants.{MOST_THREADS};
ghost use Rattle.crossbeam_channel.specs.Claims.{view, IsSeatAt};
ghost use Rattle.crossbeam_channel.specs.Ends.{sends_on, receives_on};
ghost use Rattle.lset_words.specs.Records.{CallMade, with_calls};
ghost use Rattle.lset_live.specs.Seats.{held_in};
ghost use Rattle.lset_session.specs.declared.TheConstants.{MOST_LINES};
ghost use Rattle.lset_server.specs.Tallies.{tally};
ghost use Rattle.lset_server.specs.Workers.{HasWorked, HaveWorked};
ghost use Rattle.lset_server.specs.declared.set_server.ServeCause.TheVariants as cause;

use crate::channel::{Connection, Message, Receiver, Sender, Token, cut_part, receive, take_back};
use crate::lingering::take_leave;
use crate::set_server::ServeCause;
use lset_live::{LiveSet, Running, Seat};
use lset_session::{Device, buffered_session};
use std::alloc::Global;
use std::net::TcpStream;
use std::snapshot::Snapshot;
use std::sync::Wait;
use std::thread::{Promise, PromisedHandle, Scope, Threads};
use std::time::Clock;

/// The result of a worker thread: its pass (permission to use the channel), its seat (handle to the set), and the
/// numbers of sessions and calls that the thread has completed.
#[derive(Drop)]
pub(crate) struct WorkerResult<M: Running> {
    pub pass: Token<TcpStream>,
    pub seat: Seat<M>,
    pub sessions: u64,
    pub calls: u64,
}

/// The arguments of a worker thread, for the thread's contract: the channel, the set, the seat (per-thread handle to
/// the set), and the maximum number of sessions.
#[derive(Drop)]
pub(crate) struct WorkerPromise<M: Running> {
    pub from: Snapshot<Receiver<TcpStream>>,
    pub set: Snapshot<LiveSet<M>>,
    pub seat: Snapshot<Seat<M>>,
    pub most: u64,
}

impl<M: Running> Promise<WorkerResult<M>> for WorkerPromise<M> {
    ghost kept_by = { λ p b. IsSeatAt (receives_on p.from.value) b.pass × (b.seat.set ≡ p.set.value)
        × HasWorked p.seat.value b.seat (view b.pass) b.sessions b.calls
        × (b.sessions ≤ p.most) × (b.calls ≤ MOST_LINES * p.most) };
}

/// A started worker thread.
pub(crate) type Worker<M> = PromisedHandle<WorkerResult<M>, WorkerPromise<M>>;

/// Waits for the next connection. Returns `None` if the message `Close` or an error arrives, because no more
/// connections follow.
fn next<R: Wait>(
    rt: &R,
    from: &Receiver<TcpStream>,
    pass: &mut Token<TcpStream>,
) -> Option<Connection<TcpStream>>
    requires channel { IsSeatAt (receives_on from.now) pass.old }
    requires part { 0 < (view pass.old).parts }
    ensures channel { IsSeatAt (receives_on from.now) pass.new }
    ensures told { MatchOption result (view pass.new ≡ view pass.old)
        (λ c. view pass.new ≡ tally (view pass.old).parts (view pass.old).sent ((view pass.old).received ++ c.number ∷ [])) }
{
    match receive(rt, from, pass) {
        Ok(Message::Connection(connection)) => Some(connection),
        Ok(Message::Close) | Err(_) => None,
    }
}

/// Serves one client in a session on `seat` (a per-thread handle to the set), and prepares the connection for closing.
/// Returns the number of calls made. A read or write error ends only the session with this client.
fn hold<R: Wait + Clock, M: Running>(
    rt: &R,
    stream: &TcpStream,
    set: &LiveSet<M>,
    seat: &mut Seat<M>,
) -> u64
    requires { seat.old.set ≡ set.now }
    ensures seat { (seat.new.set ≡ set.now) × (seat.new.held ≡ seat.old.held) }
    ensures calls { (added : List CallMade) × (seat.new.past ≡ with_calls seat.old.past added) × (result ≡ length added) }
    ensures few { result ≤ MOST_LINES }
{
    // If the system refuses the option, answers can arrive later. Nothing else changes.
    let _ = stream.set_nodelay(true);
    let ended = buffered_session(rt, Device::new(stream), Device::new(stream), set, seat);
    take_leave(rt, stream, ended.why);
    ended.calls
}

/// Serves connections on `seat` (a per-thread handle to the set) until no more connections arrive or `most` connections
/// have been received.
fn work<R: Wait + Clock, M: Running>(
    rt: &R,
    from: &Receiver<TcpStream>,
    mut pass: Token<TcpStream>,
    set: &LiveSet<M>,
    mut seat: Seat<M>,
    most: u32,
) -> WorkerResult<M>
    requires pass { IsSeatAt (receives_on from.now) pass × (view pass ≡ tally 1 [] []) }
    requires seat { seat.set ≡ set.now }
    ensures pass { IsSeatAt (receives_on from.now) result.pass }
    ensures seat { result.seat.set ≡ set.now }
    ensures worked { HasWorked seat result.seat (view result.pass) result.sessions result.calls }
    ensures few { (result.sessions ≤ most) × (result.calls ≤ MOST_LINES * most) }
{
    let mut sessions = 0u64;
    let mut calls = 0u64;
    while sessions < u64::from(most) {
        let Some(connection) = next(rt, from, &mut pass) else {
            break;
        };
        calls += hold(rt, &connection.stream, set, &mut seat);
        sessions += 1;
    }
    WorkerResult {
        pass,
        seat,
        sessions,
        calls,
    }
}

/// The total numbers of the workers' sessions and calls, and the seat (per-thread handle to the set) into which the
/// workers' seats were merged.
#[derive(Drop)]
pub(crate) struct Gathered<M: Running> {
    pub seat: Option<Seat<M>>,
    pub sessions: u64,
    pub calls: u64,
}

/// A pool of worker threads: the set that they serve, both ends of the channel that passes connections to them, and the
/// number of connections.
#[derive(Drop)]
pub(crate) struct Pool<'s, R, M: Running> {
    pub rt: &'s R,
    pub set: &'s LiveSet<M>,
    pub to: Sender<TcpStream>,
    pub from: &'s Receiver<TcpStream>,
    pub sessions: u32,
}

impl<'s, R: Threads + Wait + Clock + Sync, M: Running + Send + Sync> Pool<'s, R, M> {
    /// Starts a worker thread on `seat` (a per-thread handle to the set). Returns `None` if the system refuses to start
    /// the thread.
    fn start<E>(
        &self,
        scope: &Scope<'s, E>,
        pass: Token<TcpStream>,
        seat: Seat<M>,
    ) -> Option<Worker<M>>
        requires pass { IsSeatAt (receives_on self.now.from.now) pass × (view pass ≡ tally 1 [] []) }
        requires seat { seat.set ≡ self.now.set.now }
        ensures owed { IfSome result (λ h. (receives_on h.promise.from.value ≡ receives_on self.now.from.now)
            × (h.promise.set.value ≡ self.now.set.now) × (h.promise.most ≡ self.now.sessions)) }
        ensures seat { IfSome result (λ h. h.promise.seat.value ≡ seat) }
    {
        let rt = self.rt;
        let from = self.from;
        let set = self.set;
        let most = self.sessions;
        let promise = WorkerPromise {
            from: Snapshot::of(from),
            set: Snapshot::of(set),
            seat: Snapshot::of(&seat),
            most: u64::from(most),
        };
        scope
            .spawn_with(promise, move || work(rt, from, pass, set, seat, most))
            .ok()
    }

    /// Starts a worker thread on each seat (per-thread handle to the set). Each worker has its own pass (permission to
    /// use the channel), which is split off the sender's `pass`. The memory for all thread handles is allocated before
    /// the first thread starts.
    pub fn start_all<E>(
        &self,
        alloc: Global,
        scope: &Scope<'s, E>,
        pass: &mut Token<TcpStream>,
        seats: Vec<Seat<M>>,
    ) -> Result<Vec<Worker<M>>, ServeCause>
        requires pass { IsSeatAt (sends_on self.now.to) pass.old × (receives_on self.now.from.now ≡ sends_on self.now.to)
            × (length seats.items < (view pass.old).parts) }
        requires seats { All (λ s. s.set ≡ self.now.set.now) seats.items }
        ensures seats { IfOk result (λ v. map (λ h. h.promise.seat.value) v.items ≡ seats.items) }
        ensures owed { IfOk result (λ v. All (λ h. (receives_on h.promise.from.value ≡ sends_on self.now.to)
            × (h.promise.set.value ≡ self.now.set.now) × (h.promise.most ≡ self.now.sessions)) v.items) }
        ensures cause { IfErr result (λ e. e ≢ cause.Seats) }
        ensures pass { OnOk result (IsSeatAt (sends_on self.now.to) pass.new
            × (view pass.new ≡ tally ((view pass.old).parts - length seats.items) (view pass.old).sent (view pass.old).received)) }
    {
        let Ok(mut workers) = Vec::with_capacity(alloc, seats.len()) else {
            return Err(ServeCause::Memory);
        };
        for seat in seats {
            let part = cut_part(&self.to, pass);
            let Some(worker) = self.start(scope, part, seat) else {
                return Err(ServeCause::Spawn);
            };
            let Ok(()) = workers.push(worker) else {
                return Err(ServeCause::Memory);
            };
        }
        Ok(workers)
    }

    /// Waits for the worker threads to end, joins their passes (permissions to use the channel) to `pass`, and merges
    /// their seats (per-thread handles to the set) into one.
    pub fn join_all(&self, pass: &mut Token<TcpStream>, workers: Vec<Worker<M>>) -> Gathered<M>
        requires pass { IsSeatAt (sends_on self.now.to) pass.old × (0 < (view pass.old).parts) }
        requires owed { All (λ h. (receives_on h.promise.from.value ≡ sends_on self.now.to)
            × (h.promise.set.value ≡ self.now.set.now) × (h.promise.most ≡ self.now.sessions)) workers.items }
        requires few { length workers.items ≤ MOST_THREADS }
        ensures pass { IsSeatAt (sends_on self.now.to) pass.new }
        ensures joined { HaveWorked (map (λ h. h.promise.seat.value.past) workers.items) (option_map (λ s. s.past) result.seat)
            (view pass.old) (view pass.new) (length workers.items) result.sessions result.calls }
        ensures held { held_in result.seat ≡ sum_by (λ h. h.promise.seat.value.held) workers.items }
        ensures seat { IfSome result.seat (λ s. s.set ≡ self.now.set.now) }
    {
        let mut seat = None;
        let mut sessions = 0u64;
        let mut calls = 0u64;
        for worker in workers {
            let back = worker.join(self.rt);
            let WorkerResult {
                pass: part,
                seat: given,
                sessions: served,
                calls: made,
            } = back;
            take_back(&self.to, pass, part);
            seat = Some(self.set.gather_onto(seat, given));
            sessions += served;
            calls += made;
        }
        Gathered {
            seat,
            sessions,
            calls,
        }
    }
}
