//! Tests of sessions: request lines, and the answers to them.

use crate::opened::{last_of, two_seats};
use crate::prelude::*;
use crate::session_devices::{FailingReader, GenerousReader, GreedyWriter};

/// Six request lines of a session. `ANSWERS` lists the answers to them.
pub const LINES: &[u8] = b"ADD 7\nADD 7\nCONTAINS 7\nMOVE 7\nREMOVE 7\nQUIT\n";

pub const ANSWERS: &[u8] = b"TRUE\nFALSE\nTRUE\nBAD\nTRUE\nBYE\n";

/// Lines that ask for the smallest key that is at least 7, before and after the key 9 is added. `FOUND` lists the
/// answers to the lines.
pub const CEILINGS: &[u8] = b"CEILING 7\nADD 9\nCEILING 7\nQUIT\n";

pub const FOUND: &[u8] = b"NONE\nTRUE\nAT 9\nBYE\n";

/// Opens an empty set with one seat (per-thread handle to the set). The seat can add 4 keys.
pub fn one_seat<R: Abort>(rt: &R, alloc: Global) -> (LiveSet<LazyList>, Seat<LazyList>) {
    let (set, mut seats) = open::<LazyList>(alloc, 1, 4).expect(rt, "not opened");
    let seat = last_of(rt, &set, &mut seats);
    (set, seat)
}

/// Runs a session on a new set. Returns the answers, the reason for the session's end, and the number of calls.
pub fn held<R: Host, I: Source>(rt: &R, alloc: Global, reader: &mut I) -> (Vec<u8>, Ended) {
    let (set, mut seat) = one_seat(rt, alloc);
    let mut written = Vec::new(alloc);
    let ended = session(rt, reader, &mut Device::new(&mut written), &set, &mut seat);
    (written, ended)
}

/// Runs a session with buffered answers on a new set. Returns the answers, the reason for the session's end, and the
/// number of calls.
pub fn held_buffered<R: Host, I: Source + Drop>(
    rt: &R,
    alloc: Global,
    lines: I,
) -> (Vec<u8>, Ended) {
    let (set, mut seat) = one_seat(rt, alloc);
    let mut written = Vec::new(alloc);
    let ended = buffered_session(rt, lines, Device::new(&mut written), &set, &mut seat);
    (written, ended)
}

/// Returns the end of a session: the reason `why` and the number `calls` of calls.
pub fn end(why: EndReason, calls: u64) -> Ended {
    Ended { why, calls }
}

/// Asserts the answers of a session, the reason for its end, and the number of its calls.
pub fn was_held<R: Abort>(rt: &R, session: &(Vec<u8>, Ended), answers: &[u8], ended: Ended) {
    assert!(rt; session.0.as_slice() == answers);
    assert_eq!(rt; session.1, ended);
}

/// A text with lines, the answers to the lines, the reason for the session's end, and the number of calls.
type Row = (&'static [u8], &'static [u8], EndReason, u64);

/// Asserts the answers to each text, each time on a new set. The answers must be the same if the text arrives one byte
/// at a time, and if the answers are buffered.
fn are_answered<R: Host>(rt: &R, alloc: Global, rows: &[Row]) {
    for &(text, answers, why, calls) in rows {
        let ended = end(why, calls);
        was_held(rt, &held(rt, alloc, &mut Device::new(text)), answers, ended);
        let mut reader = FailingReader::new(text, 0);
        was_held(
            rt,
            &held(rt, alloc, &mut Device::new(&mut reader)),
            answers,
            ended,
        );
        was_held(
            rt,
            &held_buffered(rt, alloc, Device::new(text)),
            answers,
            ended,
        );
    }
}

/// A line with 65 letters.
const LONG: &[u8; 66] = b"AAAAAAAAAAAAAAAAAAAAAAAAAAAAAAAAAAAAAAAAAAAAAAAAAAAAAAAAAAAAAAAAA\n";

#[test]
fn six_lines_are_answered_also_one_byte_at_a_time(rt: HostRuntime) {
    are_answered(&rt, rt.alloc(), &[(LINES, ANSWERS, EndReason::Quit, 4)]);
}

#[test]
fn a_line_of_65_bytes_is_long_and_one_of_64_is_bad(rt: HostRuntime) {
    let long = LONG.as_slice();
    let rows: [Row; 4] = [
        (long, b"LONG\n", EndReason::Long, 0),
        (&LONG[..65], b"LONG\n", EndReason::Long, 0),
        (&LONG[1..], b"BAD\n", EndReason::End, 0),
        (&LONG[1..65], b"", EndReason::End, 0),
    ];
    are_answered(&rt, rt.alloc(), &rows);
}

#[test]
fn a_line_without_its_newline_is_not_answered(rt: HostRuntime) {
    let rows: [Row; 2] = [
        (b"ADD 7", b"", EndReason::End, 0),
        (b"", b"", EndReason::End, 0),
    ];
    are_answered(&rt, rt.alloc(), &rows);
}

const MORE_ROWS: [Row; 2] = [
    (
        b"ADD 4294967295\nADD 0\nQUIT\nADD 1\n",
        b"TRUE\nTRUE\nBYE\n",
        EndReason::Quit,
        2,
    ),
    (
        b"ADD 1\nADD 2\nADD 3\nADD 4\nADD 5\n",
        b"TRUE\nTRUE\nTRUE\nTRUE\nFULL\n",
        EndReason::End,
        5,
    ),
];

#[test]
fn the_largest_key_and_one_too_many_are_answered(rt: HostRuntime) {
    are_answered(&rt, rt.alloc(), &MORE_ROWS);
}

const ROWS_OF_CEILINGS: [Row; 3] = [
    (CEILINGS, FOUND, EndReason::Quit, 3),
    (
        b"ADD 0\nADD 4294967295\nCEILING 0\nCEILING 1\nCEILING 4294967295\nREMOVE 4294967295\nCEILING 1\n",
        b"TRUE\nTRUE\nAT 0\nAT 4294967295\nAT 4294967295\nTRUE\nNONE\n",
        EndReason::End,
        7,
    ),
    (
        b"ADD 8\nADD 2\nADD 6\nADD 4\nADD 5\nCEILING 5\nCEILING 6\nCEILING 9\nCONTAINS 5\n",
        b"TRUE\nTRUE\nTRUE\nTRUE\nFULL\nAT 6\nAT 6\nNONE\nFALSE\n",
        EndReason::End,
        9,
    ),
];

#[test]
fn ceilings_are_answered(rt: HostRuntime) {
    are_answered(&rt, rt.alloc(), &ROWS_OF_CEILINGS);
}

const BAD_ROWS: [Row; 2] = [
    (
        b"ADD 4294967296\n\nADD 07\nadd 7\nADD  7\nADD 7\r\nADD 7 \n ADD 7\nQUIT 7\n",
        b"BAD\nBAD\nBAD\nBAD\nBAD\nBAD\nBAD\nBAD\nBAD\n",
        EndReason::End,
        0,
    ),
    (
        b"CEILING 4294967296\nCEILING 07\nceiling 7\nCEILING  7\nCEILING\nCEILING \nCEILING 7 7\nCEILINGS 7\nAT 7\n",
        b"BAD\nBAD\nBAD\nBAD\nBAD\nBAD\nBAD\nBAD\nBAD\n",
        EndReason::End,
        0,
    ),
];

#[test]
fn a_key_too_large_an_empty_line_and_other_words_are_bad(rt: HostRuntime) {
    are_answered(&rt, rt.alloc(), &BAD_ROWS);
}

#[test]
fn a_session_calls_from_a_gathered_seat(rt: HostRuntime) {
    let (set, mut zero, mut one) = two_seats::<LazyList, HostRuntime>(&rt, rt.alloc());
    assert!(rt; set.add(&rt, &mut one, Key(9)) == Reply::True);
    set.gather(&mut zero, one);
    let mut written = Vec::new(rt.alloc());
    let mut lines = Device::new(b"CONTAINS 9\nQUIT\n".as_slice());
    let ended = session(
        &rt,
        &mut lines,
        &mut Device::new(&mut written),
        &set,
        &mut zero,
    );
    was_held(
        &rt,
        &(written, ended),
        b"TRUE\nBYE\n",
        end(EndReason::Quit, 1),
    );
}

/// The number of request lines `CONTAINS 7` in a long session. The answer to each line is `FALSE`.
const MANY: u64 = 6_000;

/// Asserts that a session makes few reads and at most one write for each answer. If the answers are buffered (`waits`),
/// the session must also make few writes.
fn makes_few<R: Host>(rt: &R, alloc: Global, text: &[u8], waits: bool) {
    let (set, mut seat) = one_seat(rt, alloc);
    let mut reader = GenerousReader { text, reads: 0 };
    let mut writer = GreedyWriter {
        bytes: 0,
        writes: 0,
    };
    let (mut lines, mut answers) = (Device::new(&mut reader), Device::new(&mut writer));
    let ended = if waits {
        buffered_session(rt, lines, answers, &set, &mut seat)
    } else {
        session(rt, &mut lines, &mut answers, &set, &mut seat)
    };
    assert!(rt; ended == end(EndReason::End, MANY) && reader.text.is_empty());
    assert!(rt; reader.reads <= 100, "{} reads", reader.reads);
    assert!(rt; writer.bytes == 6 * MANY, "{} bytes", writer.bytes);
    let most = if waits { 100 } else { MANY };
    assert!(rt; writer.writes <= most, "{} writes", writer.writes);
}

#[test]
fn a_session_makes_few_reads_and_writes(rt: HostRuntime) {
    let mut text = Vec::new(rt.alloc());
    for _ in 0..MANY {
        text.extend_from_slice(b"CONTAINS 7\n").expect(&rt, "room");
    }
    makes_few(&rt, rt.alloc(), &text, false);
    makes_few(&rt, rt.alloc(), &text, true);
}

/// Writing an empty text must succeed, and the next write must still reach the writer.
#[test]
fn a_write_of_nothing_succeeds(rt: HostRuntime) {
    let mut device = Device::new(GreedyWriter {
        bytes: 0,
        writes: 0,
    });
    let of_nothing = device.write(b"");
    assert!(rt; of_nothing == Some(0));
    let of_a_letter = device.write(b"A");
    assert!(rt; of_a_letter == Some(1));
}
