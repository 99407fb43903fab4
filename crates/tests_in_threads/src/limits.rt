//! Tests of the limit on the number of lines in a session.
use crate::prelude::*;
use crate::session_lines::{end, held, held_buffered, was_held};

/// An input that returns empty lines, and then the bytes `last`.
#[derive(Drop)]
struct Lines {
    empty: u32,
    last: &'static [u8],
}

impl Source for Lines {
    ghost remaining = { λ _. None };

    ghost has_failed = { λ _. false };

    fn read(&mut self, buffer: &mut [u8]) -> Option<usize> {
        if buffer.is_empty() {
            return Some(0);
        }
        if self.empty >= 500 && buffer.len() >= 500 {
            self.empty -= 500;
            buffer[..500].fill(b'\n');
            return Some(500);
        }
        if self.empty > 0 {
            self.empty -= 1;
            buffer[0] = b'\n';
            return Some(1);
        }
        if self.last.is_empty() {
            return Some(0);
        }
        buffer[0] = self.last[0];
        self.last = &self.last[1..];
        Some(1)
    }
}

/// Asserts that a session answers `BAD` to each of `empty` empty lines, and `answers` to the bytes `last`. A buffered
/// session must write the same answers.
fn is_answered_after<R: Host>(
    rt: &R,
    alloc: Global,
    empty: u32,
    last: &'static [u8],
    answers: &[u8],
    ended: Ended,
) {
    let (written, how) = held(rt, alloc, &mut Lines { empty, last });
    let buffered = held_buffered(rt, alloc, Lines { empty, last });
    was_held(rt, &buffered, &written, how);
    assert!(rt; how == ended);
    assert!(rt; written.len() as u64 == 4 * u64::from(empty) + answers.len() as u64);
    assert!(rt; written.starts_with(b"BAD\nBAD\n"));
    assert!(rt; written.ends_with(answers));
}

#[test]
fn a_session_ends_after_a_million_lines(rt: HostRuntime) {
    let (limit, one) = (end(EndReason::Limit, 0), end(EndReason::Limit, 1));
    is_answered_after(&rt, rt.alloc(), 1_000_000, b"", b"LIMIT\n", limit);
    let quit = end(EndReason::Quit, 0);
    is_answered_after(&rt, rt.alloc(), 999_999, b"QUIT\n", b"BYE\n", quit);
    let (adds, answers) = (b"ADD 1\nADD 2\n", b"TRUE\nLIMIT\n");
    is_answered_after(&rt, rt.alloc(), 999_999, adds, answers, one);
}
