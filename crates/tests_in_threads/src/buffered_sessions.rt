//! Tests of sessions with buffered answers. All lines that were read must be answered before the next read.
use crate::prelude::*;
use crate::session_lines::{end, held, held_buffered, one_seat, was_held};
use std::cell::Cell;

/// The number of bytes of answers written so far, and whether all lines had been answered at each read.
#[derive(Drop)]
struct Seen {
    written: Cell<u64>,
    in_time: Cell<bool>,
}

/// A text that the session reads at once, and the total length in bytes of the answers to the lines that end in the
/// text.
type Turn<'a> = (&'a [u8], u64);

/// An input that returns one text per read. At each read, it checks that all lines of the earlier texts were answered.
#[derive(Drop)]
struct Asking<'a> {
    turns: &'a [Turn<'a>],
    due: u64,
    seen: &'a Seen,
}

impl Source for Asking<'_> {
    ghost remaining = { λ _. None };

    ghost has_failed = { λ _. false };

    fn read(&mut self, buffer: &mut [u8]) -> Option<usize> {
        let answered = self.seen.written.get() == self.due;
        self.seen.in_time.set(self.seen.in_time.get() && answered);
        if self.turns.is_empty() {
            return Some(0);
        }
        let (text, answers) = self.turns[0];
        self.turns = &self.turns[1..];
        self.due = self.due.wrapping_add(answers);
        let count = buffer.len().min(text.len());
        buffer[..count].copy_from_slice(&text[..count]);
        Some(count)
    }
}

/// An output that counts the bytes it receives.
#[derive(Drop)]
struct Counting<'a> {
    seen: &'a Seen,
}

impl Sink for Counting<'_> {
    ghost written = { λ _. None };

    ghost has_failed = { λ _. false };

    fn write(&mut self, text: &[u8]) -> Option<usize> {
        let written = self.seen.written.get().wrapping_add(text.len() as u64);
        self.seen.written.set(written);
        Some(text.len())
    }
}

/// Asserts that a session answers all lines of a text before it reads the next text, and that it makes `calls` calls.
fn are_answered_in_time<R: Host>(
    rt: &R,
    alloc: Global,
    turns: &[Turn<'_>],
    calls: u64,
    buffered: bool,
) {
    let (set, mut seat) = one_seat(rt, alloc);
    let seen = Seen {
        written: Cell::new(0),
        in_time: Cell::new(true),
    };
    let mut asking = Asking {
        turns: &*turns,
        due: 0,
        seen: &seen,
    };
    let mut counting = Counting { seen: &seen };
    let ended = if buffered {
        buffered_session(rt, asking, counting, &set, &mut seat)
    } else {
        session(rt, &mut asking, &mut counting, &set, &mut seat)
    };
    assert!(rt; ended == end(EndReason::End, calls));
    assert!(rt; seen.in_time.get(), "{buffered}");
    let due = turns
        .iter()
        .fold(0u64, |due, turn| due.wrapping_add(turn.1));
    assert!(rt; seen.written.get() == due, "{buffered}");
}

fn are_answered_in_both<R: Host>(rt: &R, alloc: Global, turns: &[Turn<'_>], calls: u64) {
    are_answered_in_time(rt, alloc, turns, calls, true);
    are_answered_in_time(rt, alloc, turns, calls, false);
}

/// Three cases: each read returns one line, as many lines as the buffer has bytes, or the end of a line and the start
/// of the next.
#[test]
fn answers_are_written_before_each_read(rt: HostRuntime) {
    let texts: &[Turn<'_>] = &[(b"\n", 4), (&[b'\n'; 4096], 4 * 4096), (b"\nA", 4)];
    for turn in texts {
        are_answered_in_both(&rt, rt.alloc(), &[*turn; 3], 0);
    }
}

/// Texts, each with the length of the answers to it in bytes. On a set that can add 4 keys, the answers are of every
/// kind that does not end the session.
const OF_EACH_ANSWER: [Turn<'static>; 9] = [
    (b"CEILING 0\n", 5),
    (b"ADD 4294967295\n", 5),
    (b"ADD 4294967295\n", 6),
    (b"CEILING 4\n", 14),
    (b"ADD 1\nADD 2\nADD 3\n", 15),
    (b"ADD 5\n", 5),
    (b"CONTAINS 5\n", 6),
    (b"REMOVE 1\n", 5),
    (b"MOVE 7\n", 4),
];

/// A client that waits for each answer must receive the answer before it sends its next line, whatever kind of answer
/// it is.
#[test]
fn each_kind_of_answer_is_written_before_the_next_read(rt: HostRuntime) {
    are_answered_in_both(&rt, rt.alloc(), &OF_EACH_ANSWER, 10);
}

/// Asserts that a buffered session writes the same answers as an unbuffered session, and ends for the same reason after
/// the same number of calls.
fn is_answered_alike<R: Host>(rt: &R, alloc: Global, text: &[u8]) {
    let (plain, ended) = held(rt, alloc, &mut Device::new(text));
    let session = held_buffered(rt, alloc, Device::new(text));
    was_held(rt, &session, &plain, ended);
}

/// Returns `empty` empty lines, followed by `last`.
fn lines_then<R: Abort>(rt: &R, alloc: Global, empty: usize, last: &[u8]) -> Vec<u8> {
    let mut text = vec![in alloc; b'\n'; empty].expect(rt, "room");
    text.extend_from_slice(last).expect(rt, "room");
    text
}

/// The answers to the lines of one read are four times as long as the buffer for answers.
#[test]
fn answers_longer_than_the_buffer_are_written(rt: HostRuntime) {
    let lasts: &[&[u8]] = &[b"".as_slice(), b"QUIT\n", &[b'A'; 65]];
    for last in lasts {
        let text = lines_then(&rt, rt.alloc(), 5000, last);
        is_answered_alike(&rt, rt.alloc(), &text);
    }
}

/// The lines of one read have the longest possible answers. Some answers fit only partly into the buffer.
#[test]
fn answers_that_fit_the_buffer_in_part_are_written_whole(rt: HostRuntime) {
    let mut text = Vec::from_slice(rt.alloc(), b"ADD 4294967295\n").expect(&rt, "room");
    for _ in 0..1000 {
        text.extend_from_slice(b"CEILING 0\n").expect(&rt, "room");
    }
    is_answered_alike(&rt, rt.alloc(), &text);
}
