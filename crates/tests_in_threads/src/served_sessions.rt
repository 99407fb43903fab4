//! Tests of servers on the loopback interface. A server has one worker for each seat (per-thread handle to the set).

use crate::clients::{all_meet, asks, leaves, meets};
use crate::opened::last_of;
use crate::prelude::*;
use crate::session_lines::{ANSWERS, CEILINGS, FOUND, LINES};
use lset_server::{ServeCause, Served, serve};

/// The kind of set that the servers in these tests serve.
type Set = LiveSet<LazyList>;

/// Opens an empty set for `seats` threads. Returns the set and a seat (handle to the set) for each thread. Each seat
/// can add 4 keys.
fn opened<R: Abort>(rt: &R, alloc: Global, seats: u32) -> (Set, Vec<Seat<LazyList>>) {
    open::<LazyList>(alloc, seats, 4).expect(rt, "not opened")
}

fn listening<R: Host + Net<Listener = TcpListener, Stream = TcpStream>>(rt: &R) -> TcpListener {
    TcpListener::bind(rt, "127.0.0.1:0").expect(rt, "no port")
}

/// Serves `sessions` sessions on `seats` (per-thread handles to the set) while `ask` uses the server's port. Fails the
/// test if `ask` returns `false`.
fn served_on<
    R: Host + Net<Listener = TcpListener, Stream = TcpStream>,
    F: FnOnce(u16) -> bool + Send,
>(rt: &R, alloc: Global, set: Set, seats: Vec<Seat<LazyList>>, sessions: u32, ask: F) -> Served {
    let listener = listening(rt);
    let port = listener.local_addr().expect(rt, "no port").port();
    let (served, asked) = join(
        rt,
        move || { serve(rt, alloc, listener, set, seats, sessions) },
        move || ask(port),
    );
    assert!(rt; asked);
    match served {
        Ok(served) => served,
        Err(fault) => panic!(rt; "{:?}", fault.cause),
    }
}

/// Serves `sessions` sessions on a new set with `seats` seats (per-thread handles to the set) while `ask` uses the
/// server's port.
fn served_while<
    R: Host + Net<Listener = TcpListener, Stream = TcpStream>,
    F: FnOnce(u16) -> bool + Send,
>(rt: &R, alloc: Global, seats: u32, sessions: u32, ask: F) -> Served {
    let (set, seats) = opened(rt, alloc, seats);
    served_on(rt, alloc, set, seats, sessions, ask)
}

fn made<R: Abort>(rt: &R, served: &Served, sessions: u64, calls: u64, keys: &[u32]) {
    assert_eq!(rt; (served.sessions, served.calls), (sessions, calls));
    assert_eq!(rt; served.keys.as_slice(), keys);
}

#[test]
fn a_client_receives_six_answers(rt: HostRuntime) {
    let ask = |port: u16| asks(&rt, port, LINES, ANSWERS);
    let served = served_while(&rt, rt.alloc(), 1, 1, ask);
    made(&rt, &served, 1, 4, &[]);
}

#[test]
fn no_session_leaves_no_keys(rt: HostRuntime) {
    let served = served_while(&rt, rt.alloc(), 2, 0, |_port: u16| true);
    made(&rt, &served, 0, 0, &[]);
}

#[test]
fn serve_with_a_missing_seat_returns_set_and_seats(rt: HostRuntime) {
    let (set, mut seats) = opened(&rt, rt.alloc(), 2);
    let _ = seats.pop();
    let Err(fault) = serve(&rt, rt.alloc(), listening(&rt), set, seats, 1) else {
        panic!(rt; "a seat is missing")
    };
    assert!(rt; fault.cause == ServeCause::Seats && fault.back.is_some());
}

/// Runs two clients. Neither client disconnects before both have received their answers.
fn both_meet<R: Host + Net<Listener = TcpListener, Stream = TcpStream>>(rt: &R, port: u16) -> bool {
    let met = AtomicU64::new(0);
    let both = join(
        rt,
        || meets(rt, port, b"ADD 1\n", &met),
        || meets(rt, port, b"ADD 2\n", &met),
    );
    both.0 && both.1
}

#[test]
fn two_sessions_are_served_at_once(rt: HostRuntime) {
    let served = served_while(&rt, rt.alloc(), 2, 2, |port: u16| both_meet(&rt, port));
    made(&rt, &served, 2, 2, &[1, 2]);
}

/// Asserts that a server serves one session for each seat (per-thread handle to the set) at the same time, and then the
/// remaining sessions.
fn meets_on_each_seat<R: Host + Net<Listener = TcpListener, Stream = TcpStream>>(
    rt: &R,
    alloc: Global,
    seats: u32,
    sessions: u32,
) {
    let first = sessions.min(seats);
    let rest = sessions.saturating_sub(first);
    let served = served_while(rt, alloc, seats, sessions, |port: u16| {
        all_meet(rt, alloc, port, first) && all_meet(rt, alloc, port, rest)
    });
    made(rt, &served, u64::from(sessions), u64::from(sessions), &[]);
}

/// Serves fewer sessions than seats, as many sessions as seats, and more. A seat is one thread's handle to the set, and
/// serves one session at a time.
#[test]
fn as_many_sessions_as_seats_are_served_at_once(rt: HostRuntime) {
    for (seats, sessions) in [(2, 1), (3, 3), (5, 7), (64, 65)] {
        meets_on_each_seat(&rt, rt.alloc(), seats, sessions);
    }
}

/// Opens a set with four seats (per-thread handles to the set) and merges the seats into two pairs.
fn two_pairs<R: Abort>(rt: &R, alloc: Global) -> (Set, Vec<Seat<LazyList>>) {
    let (set, mut seats) = opened(rt, alloc, 4);
    let three = last_of(rt, &set, &mut seats);
    let two = last_of(rt, &set, &mut seats);
    let mut one = last_of(rt, &set, &mut seats);
    let mut zero = last_of(rt, &set, &mut seats);
    set.gather(&mut zero, three);
    set.gather(&mut one, two);
    let pairs = vec![in alloc; zero, one].expect(rt, "room");
    (set, pairs)
}

/// The server must start one worker for each seat (per-thread handle to the set) that it receives, and none for a seat
/// that was merged into a received seat.
#[test]
fn each_gathered_seat_serves_a_session(rt: HostRuntime) {
    let (set, pairs) = two_pairs(&rt, rt.alloc());
    let ask = |port: u16| both_meet(&rt, port);
    let served = served_on(&rt, rt.alloc(), set, pairs, 2, ask);
    made(&rt, &served, 2, 2, &[1, 2]);
}

#[test]
fn a_client_that_disconnects_ends_only_its_session(rt: HostRuntime) {
    let ask = |port: u16| {
        leaves(&rt, port, b"ADD 7\nADD") && asks(&rt, port, b"CONTAINS 7\nQUIT\n", b"TRUE\nBYE\n")
    };
    let served = served_while(&rt, rt.alloc(), 1, 2, ask);
    made(&rt, &served, 2, 2, &[7]);
}

#[test]
fn a_ceiling_finds_the_key_of_another_session(rt: HostRuntime) {
    let (lines, answers) = (b"CEILING 9\nCEILING 10\nQUIT\n", b"AT 9\nNONE\nBYE\n");
    let ask = |port: u16| asks(&rt, port, CEILINGS, FOUND) && asks(&rt, port, lines, answers);
    let served = served_while(&rt, rt.alloc(), 1, 2, ask);
    made(&rt, &served, 2, 5, &[9]);
}
