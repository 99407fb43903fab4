//! Runs programs in threads, and a server with one session. No two threads allocate at the same time, so the order of
//! the allocations is the same in every run.

use crate::prelude::*;
use lset_server::{ServeCause, Served, serve};
use lset_work::{Always, Outcome, WorkCause, WorkFault, work};
use std::io::{self, Read, Write};
use std::net::Shutdown;

/// Opens a set and returns it with its seats (per-thread handles to the set). Makes a second attempt if the first one
/// returns `Memory`.
fn open_seats(
    alloc: Global,
    calls: &mut Calls,
    seats: u32,
) -> Result<(LiveSet<LazyList>, Vec<Seat<LazyList>>), OpenFault> {
    answer!(
        calls,
        "open",
        OpenFault::Memory,
        open::<LazyList>(alloc, seats, 4)
    )
}

/// Returns two programs (lists of calls, one for each thread): Add 1, Contains 1, Remove 1; and Add 2, Add 2.
fn two_programs(alloc: Global) -> Result<Vec<Vec<Call>>, AllocError> {
    let mut programs = Vec::new(alloc);
    let first = [
        Call::Add(Key(1)),
        Call::Contains(Key(1)),
        Call::Remove(Key(1)),
    ];
    let second = [Call::Add(Key(2)), Call::Add(Key(2))];
    programs.push(Vec::from_slice(alloc, &first)?)?;
    programs.push(Vec::from_slice(alloc, &second)?)?;
    Ok(programs)
}

/// Records why `work` failed. Returns the set and the seats (per-thread handles to the set) that `work` returned with
/// its error or, if it returned none, a new set with its seats.
fn after_refusal(
    alloc: Global,
    calls: &mut Calls,
    fault: WorkFault<LazyList>,
) -> Result<(LiveSet<LazyList>, Vec<Seat<LazyList>>)> {
    let WorkFault { cause, back } = fault;
    calls.name = match (cause, back.is_some()) {
        (WorkCause::Memory, true) => "work (Memory, all comes back)",
        (WorkCause::Spawn, false) => "work (Spawn)",
        _ => return Err(Error::msg("another fault")),
    };
    check(calls.may_be_refused())?;
    match back {
        Some(back) => Ok(back),
        None => Ok(open::<LazyList>(alloc, 2, 4)?),
    }
}

/// Runs the programs again, on the set and the seats (per-thread handles to the set) that `after_refusal` returned.
fn work_again<R: Host>(
    rt: &R,
    alloc: Global,
    set: LiveSet<LazyList>,
    seats: Vec<Seat<LazyList>>,
) -> Result<Outcome> {
    match work(rt, alloc, set, seats, two_programs(alloc)?, &Always) {
        Ok(outcome) => Ok(outcome),
        Err(_) => Err(Error::msg("a fault")),
    }
}

/// Runs two programs (lists of calls) in two threads, and runs them again if the first run fails.
pub fn programs_on_threads<R: Host>(rt: &R, alloc: Global, calls: &mut Calls) -> Result<()> {
    let programs = answer!(calls, "Vec::push", AllocError, two_programs(alloc))?;
    let (set, seats) = open_seats(alloc, calls, 2)?;
    calls.name = "work";
    let outcome = match work(rt, alloc, set, seats, programs, &Always) {
        Ok(outcome) => outcome,
        Err(fault) => {
            let (set, seats) = after_refusal(alloc, calls, fault)?;
            work_again(rt, alloc, set, seats)?
        }
    };
    check(outcome.keys.as_slice() == [2].as_slice() && outcome.replies.len() == 2)
}

/// Connects a client that sends its lines before the server accepts the connection. The client therefore needs no
/// thread.
fn client<R: Net<Listener = TcpListener, Stream = TcpStream>>(
    rt: &R,
) -> io::Result<(TcpListener, TcpStream)> {
    let listener = TcpListener::bind(rt, "127.0.0.1:0")?;
    let port = listener.local_addr()?.port();
    let mut stream = TcpStream::connect(rt, ("127.0.0.1", port))?;
    stream.write_all(b"ADD 7\nCONTAINS 7\nADD 3\nQUIT\n")?;
    stream.shutdown(Shutdown::Write)?;
    Ok((listener, stream))
}

/// Checks that one session was served: the number of calls, the final keys, and the answers that the client received.
fn is_served(served: &Served, stream: &mut TcpStream) -> Result<()> {
    let mut answers = [0u8; 19];
    stream.read_exact(&mut answers)?;
    check(answers.as_slice() == b"TRUE\nTRUE\nTRUE\nBYE\n".as_slice())?;
    check(served.sessions == 1 && served.calls == 3)?;
    check(served.keys.as_slice() == [3, 7].as_slice())
}

/// Serves one client. Returns `None` on success, and the cause if the server fails. Returns an error if the client
/// cannot connect or receives wrong answers.
fn serve_client<R: Host + Net<Listener = TcpListener, Stream = TcpStream>>(
    rt: &R,
    alloc: Global,
    set: LiveSet<LazyList>,
    seats: Vec<Seat<LazyList>>,
) -> Result<Option<ServeCause>> {
    let (listener, mut stream) = client(rt)?;
    match serve(rt, alloc, listener, set, seats, 1) {
        Ok(served) => {
            is_served(&served, &mut stream)?;
            Ok(None)
        }
        Err(fault) => Ok(Some(fault.cause)),
    }
}

/// Serves one client. If the server fails, starts another server and serves another client.
pub fn a_session<R: Host + Net<Listener = TcpListener, Stream = TcpStream>>(
    rt: &R,
    alloc: Global,
    calls: &mut Calls,
) -> Result<()> {
    let (set, seats) = open_seats(alloc, calls, 1)?;
    calls.name = "serve";
    let Some(cause) = serve_client(rt, alloc, set, seats)? else {
        return Ok(());
    };
    calls.name = match cause {
        ServeCause::Memory => "serve (Memory)",
        ServeCause::Spawn => "serve (Spawn)",
        _ => return Err(Error::msg("another fault")),
    };
    check(calls.may_be_refused())?;
    let (set, seats) = open::<LazyList>(alloc, 1, 4)?;
    check(serve_client(rt, alloc, set, seats)?.is_none())
}
