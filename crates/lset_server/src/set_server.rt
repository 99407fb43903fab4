//! Serves a running set to the connections that a listener accepts. A seat is one thread's handle to the set. Several
//! seats can be merged into one.
ghost use Rattle.std.specs.Prelude.{◌≡◌, ◌≢◌, ◌<◌, ◌≤◌, ◌↔◌, ◌++◌, [], All, None, Some, length, map, sum_by};
ghost use Rattle.std.specs.Prelude.{IfErr, IfOk, IfSome, IsOk, OnOk};
ghost use Rattle.std.specs.Option.{option_map};
ghost use Rattle.lset_words.specs.declared.TheConstants.{MOST_THREADS};
ghost use Rattle.crossbeam_channel.specs.Claims.{view, IsSeatAt};
ghost use Rattle.crossbeam_channel.specs.Ends.{sends_on, receives_on};
ghost use Rattle.lset_live.specs.Seats.{held_in};
ghost use Rattle.lset_server.specs.Serving.{HasGathered, IsServed};
ghost use Rattle.lset_server.specs.Tallies.{ReceivedOnce, numbers_below, tally};
ghost use Rattle.lset_server.specs.Tallied.{tally_of};
ghost use Rattle.lset_server.specs.declared.channel.TheConstants.{PARTS};

use crate::channel::{Connection, Message, NothingLost, Sender, Tally, Token, balance, send};
use crate::workers::{Gathered, Pool};
use crossbeam_channel::bounded_with;
use lset_live::{LiveSet, Running, Seat};
use std::alloc::Global;
use std::net::{TcpListener, TcpStream};
use std::sync::Wait;
use std::thread::{Scope, Threads};
use std::time::Clock;
use std::{fmt, thread};
use thiserror::Error;

/// The cause of a `ServeFault`.
#[derive(Clone, Copy, Debug, PartialEq, Eq, Error)]
pub enum ServeCause {
    /// Not all seats (per-thread handles to the set) were passed to `serve`. (A seat that was merged into a passed seat
    /// counts as passed.) No connection was accepted.
    #[error("not all seats of the set were passed")]
    Seats,
    /// The system did not accept a connection.
    #[error("the system did not accept a connection")]
    Accept,
    /// The system refused to start a thread.
    #[error("the system refused to start a thread")]
    Spawn,
    /// The channel returned a connection, or another message, instead of sending it to a worker.
    #[error("the channel returned a connection")]
    Send,
    /// An allocation failed.
    #[error("out of memory")]
    Memory,
    /// The workers received fewer connections than were accepted.
    #[error("the workers received fewer connections than were accepted")]
    Left,
}

/// The result of `serve`: the number of sessions, the number of calls made in the sessions, and the final keys in
/// increasing order.
#[derive(Drop)]
pub struct Served {
    pub sessions: u64,
    pub calls: u64,
    pub keys: Vec<u32>,
    pass: Token<TcpStream>,
}

/// The error of `serve`. After `Seats`, no connection was accepted, and `back` contains the set and the seats
/// (per-thread handles to the set). After any other cause, `back` is `None`.
#[derive(Drop, Error)]
#[error("{cause}")]
pub struct ServeFault<M: Running> {
    pub cause: ServeCause,
    pub back: Option<(LiveSet<M>, Vec<Seat<M>>)>,
}

impl<M: Running> fmt::Debug for ServeFault<M> {
    fn fmt<W: fmt::Write>(&self, f: &mut fmt::Formatter<W>) -> fmt::Result {
        f.debug_struct("ServeFault")
            .field("cause", &self.cause)
            .finish_non_exhaustive()
    }
}

/// Accepts `sessions` connections, numbers them from 0, and sends them to the workers.
fn accept_all<R: Wait>(
    rt: &R,
    listener: &TcpListener,
    to: &Sender<TcpStream>,
    pass: &mut Token<TcpStream>,
    sessions: u32,
) -> Result<(), ServeCause>
    requires { IsSeatAt (sends_on to.now) pass.old × (0 < (view pass.old).parts) }
    ensures cause { IfErr result (λ e. e ≢ ServeCause.Seats) }
    ensures told { OnOk result (IsSeatAt (sends_on to.now) pass.new × (view pass.new
        ≡ tally (view pass.old).parts ((view pass.old).sent ++ numbers_below sessions) (view pass.old).received)) }
{
    for number in 0..sessions {
        let Ok((stream, _)) = listener.accept() else {
            return Err(ServeCause::Accept);
        };
        let connection = Connection {
            number: u64::from(number),
            stream,
        };
        if send(rt, to, pass, Message::Connection(connection)).is_err() {
            return Err(ServeCause::Send);
        }
    }
    Ok(())
}

/// Sends each worker the notice that no more connections will arrive.
fn close_all<R: Wait>(
    rt: &R,
    to: &Sender<TcpStream>,
    pass: &mut Token<TcpStream>,
    workers: usize,
) -> Result<(), ServeCause>
    requires { IsSeatAt (sends_on to.now) pass.old × (0 < (view pass.old).parts) }
    ensures cause { IfErr result (λ e. e ≢ ServeCause.Seats) }
    ensures told { OnOk result (IsSeatAt (sends_on to.now) pass.new × (view pass.new ≡ view pass.old)) }
{
    for _ in 0..workers {
        if send(rt, to, pass, Message::Close).is_err() {
            return Err(ServeCause::Send);
        }
    }
    Ok(())
}

/// Accepts `sessions` connections and sends them to the workers. Then notifies each worker that no more connections
/// will arrive.
fn send_all<R: Wait>(
    rt: &R,
    listener: &TcpListener,
    to: &Sender<TcpStream>,
    pass: &mut Token<TcpStream>,
    sessions: u32,
    workers: usize,
) -> Result<(), ServeCause>
    requires { IsSeatAt (sends_on to.now) pass.old × (0 < (view pass.old).parts) }
    ensures cause { IfErr result (λ e. e ≢ ServeCause.Seats) }
    ensures told { OnOk result (IsSeatAt (sends_on to.now) pass.new × (view pass.new
        ≡ tally (view pass.old).parts ((view pass.old).sent ++ numbers_below sessions) (view pass.old).received)) }
{
    accept_all(rt, listener, to, pass, sessions)?;
    close_all(rt, to, pass, workers)
}

/// Starts the workers, sends them `sessions` connections, and waits for them to end. Returns the pass (permission to
/// use the channel), which has all parts again, and the seat (handle to the set) into which all seats were merged.
fn serve_in<'s, E, R: Threads + Wait + Clock + Sync, M: Running + Send + Sync>(
    alloc: Global,
    scope: &Scope<'s, E>,
    listener: &TcpListener,
    pool: &Pool<'s, R, M>,
    mut pass: Token<TcpStream>,
    seats: Vec<Seat<M>>,
) -> Result<(Token<TcpStream>, Gathered<M>), ServeCause>
    requires pass { IsSeatAt (sends_on pool.now.to) pass × (receives_on pool.now.from.now ≡ sends_on pool.now.to)
        × (view pass ≡ tally PARTS [] []) }
    requires seats { All (λ s. s.set ≡ pool.now.set.now) seats.items × (length seats.items ≤ MOST_THREADS) }
    ensures gathered { IfOk result (λ g. HasGathered (map (λ s. s.past) seats.items) (option_map (λ s. s.past) g.1.seat)
        (view g.0) pool.now.sessions g.1.sessions g.1.calls) }
    ensures held { IfOk result (λ g. held_in g.1.seat ≡ sum_by (λ s. s.held) seats.items) }
    ensures seat { IfOk result (λ g. IfSome g.1.seat (λ s. s.set ≡ pool.now.set.now)) }
    ensures cause { IfErr result (λ e. e ≢ ServeCause.Seats) }
{
    let workers = seats.len();
    let started = pool.start_all(alloc, scope, &mut pass, seats)?;
    send_all(
        pool.rt,
        listener,
        &pool.to,
        &mut pass,
        pool.sessions,
        workers,
    )?;
    let gathered = pool.join_all(&mut pass, started);
    balance(&pool.to, &mut pass);
    if gathered.sessions != u64::from(pool.sessions) {
        return Err(ServeCause::Left);
    }
    Ok((pass, gathered))
}

/// Creates the channel and serves the connections. After an error, the channel is dropped, which ends the workers.
fn serve_all<R: Threads + Wait + Clock + Sync, M: Running + Send + Sync>(
    rt: &R,
    alloc: Global,
    listener: &TcpListener,
    set: &LiveSet<M>,
    seats: Vec<Seat<M>>,
    sessions: u32,
) -> Result<(Token<TcpStream>, Gathered<M>), ServeCause>
    requires seats { All (λ s. s.set ≡ set.now) seats.items × (0 < length seats.items) × (length seats.items ≤ MOST_THREADS) }
    ensures gathered { IfOk result (λ g. HasGathered (map (λ s. s.past) seats.items) (option_map (λ s. s.past) g.1.seat)
        (view g.0) sessions g.1.sessions g.1.calls) }
    ensures held { IfOk result (λ g. held_in g.1.seat ≡ sum_by (λ s. s.held) seats.items) }
    ensures seat { IfOk result (λ g. IfSome g.1.seat (λ s. s.set ≡ set.now)) }
    ensures cause { IfErr result (λ e. e ≢ ServeCause.Seats) }
{
    let Ok((to, from, pass)) = bounded_with::<Message<TcpStream>, Tally, NothingLost, Global>(
        alloc,
        seats.len(),
    ) else {
        return Err(ServeCause::Memory);
    };
    let pool = Pool {
        rt,
        set,
        to,
        from: &from,
        sessions,
    };
    thread::scope(
        thread::scope_env(),
        rt,
        move |scope| -> Result<(Token<TcpStream>, Gathered<M>), ServeCause>
            requires pass { IsSeatAt (sends_on pool.to) pass × (receives_on pool.from.now ≡ sends_on pool.to)
                × (view pass ≡ tally PARTS [] []) }
            requires seats { All (λ s. s.set ≡ pool.set.now) seats.items × (length seats.items ≤ MOST_THREADS) }
        { serve_in(alloc, scope, listener, &pool, pass, seats) },
    )
}

/// Serves a set to `sessions` connections, with one worker thread for each of `seats` (per-thread handles to the set).
///
/// `seats` must belong to `set`. Connections are numbered from 0, and wait in a channel that has room for one
/// connection per seat. Each worker runs `buffered_session` on its seat, for one connection after another. A session
/// that ends with a read or write error does not end the server. At the end, the seats are merged into one (gathered)
/// and the set is closed. Blocks until all connections have been accepted and all workers have ended. Each worker
/// blocks while it waits for its client.
///
/// # Errors
///
/// Returns a `ServeFault` with one of the following causes:
///
/// - `Seats`: if and only if `seats`, including the seats merged into them, are not all seats of the set. No connection
///   was accepted, and the set and the seats are returned.
/// - `Accept`, `Spawn`: the system refused a connection or a thread.
/// - `Send`: the channel returned a connection, or another message, instead of sending it to a worker.
/// - `Left`: the workers received fewer connections than were accepted.
/// - `Memory`: an allocation failed.
///
/// After any cause except `Seats`, the workers that were started end, and the set is dropped.
pub fn serve<R: Threads + Wait + Clock + Sync, M: Running + Send + Sync>(
    rt: &R,
    alloc: Global,
    listener: TcpListener,
    set: LiveSet<M>,
    seats: Vec<Seat<M>>,
    sessions: u32,
) -> Result<Served, ServeFault<M>>
    requires { All (λ s. s.set ≡ set) seats.items }
    // [Received once]: each connection was received by a worker exactly once.
    ensures received { IfOk result (λ s. (s.sessions ≡ sessions) × ReceivedOnce sessions (tally_of s)) }
    // [Served]: some legal order leaves the final keys. The order consists of the calls made from `seats` before
    // `serve` and of `calls` further calls.
    ensures served { IfOk result (λ s. IsServed set.shape (map (λ t. t.past) seats.items) s.calls s.keys.items) }
    ensures all { IsOk result → sum_by (λ s. s.held) seats.items ≡ set.shape.threads }
    ensures refused { IfErr result (λ f. f.cause ≡ ServeCause.Seats ↔ (sum_by (λ s. s.held) seats.items ≢ set.shape.threads)) }
    ensures back { IfErr result (λ f. (f.cause ≡ ServeCause.Seats → f.back ≡ Some (set, seats))
        × (f.cause ≢ ServeCause.Seats → f.back ≡ None)) }
{
    if !set.is_held_by(&seats) {
        return Err(ServeFault {
            cause: ServeCause::Seats,
            back: Some((set, seats)),
        });
    }
    let (pass, gathered) = match serve_all(rt, alloc, &listener, &set, seats, sessions) {
        Ok(gathered) => gathered,
        Err(cause) => return Err(ServeFault { cause, back: None }),
    };
    let Gathered {
        seat,
        sessions,
        calls,
    } = gathered;
    let Some(seat) = seat else { unreachable!() };
    let Ok(keys) = set.keys_left(seat) else {
        return Err(ServeFault {
            cause: ServeCause::Memory,
            back: None,
        });
    };
    Ok(Served {
        sessions,
        calls,
        keys,
        pass,
    })
}
