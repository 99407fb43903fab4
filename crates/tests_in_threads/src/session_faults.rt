//! Tests of sessions (a client's request lines, and the answers to them) in which a read or a write fails.
use crate::prelude::*;
use crate::session_devices::{FailingReader, FailingWriter};
use crate::session_lines::{
    ANSWERS, CEILINGS, LINES, end, held, held_buffered, one_seat, was_held,
};

/// Asserts that a session ends when write number `at` (from 1) fails, after `calls` calls, and that it has written a
/// prefix of `answers`.
fn write_fails<R: Host>(rt: &R, alloc: Global, lines: &[u8], answers: &[u8], at: u64, calls: u64) {
    let (set, mut seat) = one_seat(rt, alloc);
    let mut writer = FailingWriter::new(alloc, at);
    let (mut lines, mut taker) = (Device::new(lines), Device::new(&mut writer));
    let ended = session(rt, &mut lines, &mut taker, &set, &mut seat);
    assert!(rt; ended == end(EndReason::WriteFault, calls), "{at}");
    writer.has_stopped(rt, answers);
}

/// Asserts that a session ends when any of its writes fails. Each entry of `rows` states a range of writes (by the
/// numbers of its first and final write), and how many calls the session has made when one of these writes fails.
fn writes_fail<R: Host>(
    rt: &R,
    alloc: Global,
    lines: &[u8],
    answers: &[u8],
    rows: &[(u64, u64, u64)],
) {
    for &(from, to, calls) in rows {
        for at in from..=to {
            write_fails(rt, alloc, lines, answers, at, calls);
        }
    }
}

#[test]
fn a_failed_write_ends_the_session(rt: HostRuntime) {
    let rows = [(1, 5, 1), (6, 11, 2), (12, 20, 3), (21, 29, 4)];
    writes_fail(&rt, rt.alloc(), LINES, ANSWERS, &rows);
    let lines = b"ADD 4294967295\nCEILING 0\nQUIT\n".as_slice();
    let answers = b"TRUE\nAT 4294967295\nBYE\n".as_slice();
    let rows = [(1, 5, 1), (6, 19, 2), (20, 23, 2)];
    writes_fail(&rt, rt.alloc(), lines, answers, &rows);
}

/// Asserts that a session ends when read number `at` (from 1) fails. All lines that were read before must have been
/// answered, even if answers are buffered.
fn read_fails<R: Host>(rt: &R, alloc: Global, lines: &[u8], at: u64, answers: &[u8], calls: u64) {
    let ended = end(EndReason::ReadFault, calls);
    let mut reader = FailingReader::new(lines, at);
    let session = held(rt, alloc, &mut Device::new(&mut reader));
    was_held(rt, &session, answers, ended);
    assert!(rt; reader.reads == at, "{at}");
    let mut reader = FailingReader::new(lines, at);
    let session = held_buffered(rt, alloc, Device::new(&mut reader));
    was_held(rt, &session, answers, ended);
    assert!(rt; reader.reads == at, "{at}, answers wait");
}

/// Asserts that a session ends when any of its reads fails. Each entry of `rows` states a range of reads (by the
/// numbers of its first and final read), the answers written before the reads in the range, and the number of calls
/// made before them.
fn reads_fail<R: Host>(rt: &R, alloc: Global, lines: &[u8], rows: &[(u64, u64, &[u8], u64)]) {
    for &(from, to, answers, calls) in rows {
        for at in from..=to {
            read_fails(rt, alloc, lines, at, answers, calls);
        }
    }
}

#[test]
fn a_failed_read_ends_the_session(rt: HostRuntime) {
    let rows: [(u64, u64, &[u8], u64); 6] = [
        (1, 6, b"", 0),
        (7, 12, b"TRUE\n", 1),
        (13, 23, b"TRUE\nFALSE\n", 2),
        (24, 30, b"TRUE\nFALSE\nTRUE\n", 3),
        (31, 39, b"TRUE\nFALSE\nTRUE\nBAD\n", 3),
        (40, 44, b"TRUE\nFALSE\nTRUE\nBAD\nTRUE\n", 4),
    ];
    reads_fail(&rt, rt.alloc(), LINES, &rows);
    let rows: [(u64, u64, &[u8], u64); 4] = [
        (1, 10, b"", 0),
        (11, 16, b"NONE\n", 1),
        (17, 26, b"NONE\nTRUE\n", 2),
        (27, 31, b"NONE\nTRUE\nAT 9\n", 3),
    ];
    reads_fail(&rt, rt.alloc(), CEILINGS, &rows);
}

/// Lines, the answers to the lines, and the number of calls.
type Lines = (&'static [u8], &'static [u8], u64);

/// Lines for each way to end a session: calls and `QUIT`; a line that is too long; lines without a call.
const OF_EACH_END: [Lines; 3] = [
    (LINES, ANSWERS, 4),
    (&[b'A'; 65], b"LONG\n", 0),
    (b"\nQUIT\n", b"BAD\nBYE\n", 0),
];

/// Asserts that a buffered session makes all calls if all lines arrive in one read, even if write number `at` fails.
fn waiting_write_fails<R: Host>(rt: &R, alloc: Global, lines: Lines, at: u64) {
    let (text, answers, calls) = lines;
    let (set, mut seat) = one_seat(rt, alloc);
    let mut writer = FailingWriter::new(alloc, at);
    let (from, to) = (Device::new(text), Device::new(&mut writer));
    let ended = buffered_session(rt, from, to, &set, &mut seat);
    assert!(rt; ended == end(EndReason::WriteFault, calls), "{at}");
    writer.has_stopped(rt, answers);
}

#[test]
fn a_failed_write_of_buffered_answers_ends_the_session(rt: HostRuntime) {
    for lines in OF_EACH_END {
        for at in 1..=lines.1.len() as u64 {
            waiting_write_fails(&rt, rt.alloc(), lines, at);
        }
    }
}

/// All lines arrive in one read, and the answers to the lines do not fit into the buffer at once. After the first write
/// has failed, the session must make no further call.
#[test]
fn no_call_is_made_after_a_failed_write(rt: HostRuntime) {
    let mut text = Vec::from_slice(rt.alloc(), b"ADD 4294967295\n").expect(&rt, "room");
    for _ in 0..408 {
        text.extend_from_slice(b"CEILING 0\n").expect(&rt, "room");
    }
    let (set, mut seat) = one_seat(&rt, rt.alloc());
    let mut writer = FailingWriter::new(rt.alloc(), 1);
    let (from, to) = (Device::new(text.as_slice()), Device::new(&mut writer));
    let ended = buffered_session(&rt, from, to, &set, &mut seat);
    assert!(rt; ended == end(EndReason::WriteFault, 294));
}
