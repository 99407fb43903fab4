use crate::key_lines::{put_keys, read_keys};
use crate::troubles::{opening_trouble, serve_trouble};
use lset_coarse::CoarseList;
use lset_fine::FineList;
use lset_lazy::LazyList;
use lset_live::{Running, open_with};
use lset_lock_free::LockFreeList;
use lset_optimistic::OptimisticList;
use lset_server::{Served, serve};
use lset_words::Kind;
use std::alloc::{AllocError, Global};
use std::io::{Read, Write};
use std::net::{Ipv4Addr, Net, TcpListener, TcpStream};
use std::sync::Wait;
use std::thread::Threads;
use std::time::Clock;
use tool_base::{Answer, Input, ServeRequest, Trouble, put, read_all};

/// Returns the lines that a server prints when it ends: the number of sessions (accepted connections), the number of
/// calls, and the final keys.
fn served_text(alloc: Global, served: &Served) -> Result<Vec<u8>, AllocError> {
    let mut out = String::new(alloc);
    let (sessions, calls) = (served.sessions, served.calls);
    writeln!(out, "sessions {sessions}\ncalls {calls}")?;
    put_keys(&mut out, &served.keys)?;
    Ok(out.into_bytes())
}

/// Writes the line `listening 127.0.0.1:PORT` to `output` and flushes `output`.
fn announce<W: Write>(alloc: Global, output: &mut W, port: u16) -> Result<(), Trouble> {
    let line = format!(in alloc; "listening 127.0.0.1:{port}\n")?;
    if put(output, line.as_bytes()) && output.flush().is_ok() {
        Ok(())
    } else {
        Err(Trouble::CannotWrite)
    }
}

/// Listens on a port of the loopback interface and prints the port on `output`.
fn listen<R: Net<Listener = TcpListener, Stream = TcpStream>, W: Write>(
    rt: &R,
    alloc: Global,
    port: u16,
    output: &mut W,
) -> Result<TcpListener, Trouble> {
    let Ok(listener) = TcpListener::bind(rt, (Ipv4Addr::LOCALHOST, port)) else {
        return Err(Trouble::CannotListen);
    };
    let Ok(address) = listener.local_addr() else {
        return Err(Trouble::CannotListen);
    };
    announce(alloc, output, address.port())?;
    Ok(listener)
}

/// Creates a set of the list `M` with the keys `keys`, listens, prints the port, and serves connections. `M` must be
/// the list that the request names.
fn serve_list<
    M: Running + Send + Sync,
    R: Net<Listener = TcpListener, Stream = TcpStream> + Threads + Wait + Clock + Sync,
    W: Write,
>(
    rt: &R,
    alloc: Global,
    request: ServeRequest,
    keys: &[u32],
    output: &mut W,
) -> Result<Answer, Trouble> {
    let (set, seats) = match open_with::<M>(alloc, request.seats, request.quota, keys) {
        Ok(opened) => opened,
        Err(fault) => return Err(opening_trouble(fault)),
    };
    let listener = listen(rt, alloc, request.port, output)?;
    match serve(rt, alloc, listener, set, seats, request.sessions) {
        Ok(served) => Ok(Answer {
            text: served_text(alloc, &served)?,
            status: 0,
        }),
        Err(fault) => Err(serve_trouble(fault.cause)),
    }
}

/// Serves a set that opens with the keys `keys`, on the loopback interface. The answer has exit status 0 and the lines
/// `sessions N` and `calls N`, followed by `key k` for each final key in increasing order.
///
/// The server creates the set, listens, writes `listening 127.0.0.1:P` to `output` and flushes `output`. Only then does
/// the server start its threads and accept connections, so the line is written even if a thread cannot be started.
/// Allocates. Blocks until all connections have ended.
///
/// The function matches on the kind of list itself: `lset_lists::on_list`, with which other commands select a list,
/// runs step tables and not sets that threads share.
pub fn serve_set<
    R: Net<Listener = TcpListener, Stream = TcpStream> + Threads + Wait + Clock + Sync,
    W: Write,
>(
    rt: &R,
    alloc: Global,
    request: ServeRequest,
    keys: &[u32],
    output: &mut W,
) -> Result<Answer, Trouble> {
    match request.kind {
        Kind::Coarse => serve_list::<CoarseList, R, W>(rt, alloc, request, keys, output),
        Kind::Fine => serve_list::<FineList, R, W>(rt, alloc, request, keys, output),
        Kind::Optimistic => serve_list::<OptimisticList, R, W>(rt, alloc, request, keys, output),
        Kind::Lazy => serve_list::<LazyList, R, W>(rt, alloc, request, keys, output),
        Kind::LockFree => serve_list::<LockFreeList, R, W>(rt, alloc, request, keys, output),
    }
}

/// Serves a set that opens with the keys in `input`. First reads `input` to its end, as `read_keys` does, so the output
/// of one server can be the input of the next. The server does not store the set.
pub fn serve_set_of<
    R: Net<Listener = TcpListener, Stream = TcpStream> + Threads + Wait + Clock + Sync,
    I: Read,
    W: Write,
>(
    rt: &R,
    alloc: Global,
    request: ServeRequest,
    input: &mut I,
    output: &mut W,
) -> Result<Answer, Trouble> {
    let bytes = read_all(alloc, input)?;
    let keys = read_keys(alloc, Input::new(&bytes)?.bytes())?;
    serve_set(rt, alloc, request, &keys, output)
}
