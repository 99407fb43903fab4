//! The readers and writers of sessions.
ghost use Rattle.std.specs.Prelude.{◌≡◌, ◌<◌, ◌≤◌, if◌then◌else◌, ℕ, List, Bool, true, false, Option, length, take, IfSome, MatchOption};
ghost use Rattle.std.specs.Io.KnownBytes.{Appends, Consumes, IsAtEnd, Keeps};
ghost use Rattle.lset_session.specs.Devices.{inner_of, is_failed, Writes};

use std::io::{Read, Write};

/// A reader of the bytes that a client sends. `read` must not be called after a read has failed.
pub trait Source {
    /// The bytes that have not been read yet, if they are known.
    ghost remaining: { Self → Option (List ℕ) };

    /// Returns `true` if a read has failed, that is, has returned `None`.
    ghost has_failed: { Self → Bool };

    /// Reads bytes into the start of `buffer` and returns their number. Returns 0 only at the end of the input or if
    /// `buffer` is empty, and `None` if the read fails.
    fn read(&mut self, buffer: &mut [u8]) -> Option<usize>
        requires works { has_failed self.old ≡ false }
        ensures bound { IfSome result (λ n. n ≤ length buffer.new) }
        ensures bytes { MatchOption result (Keeps (remaining self.old) (remaining self.new))
            (λ n. Consumes (remaining self.old) (remaining self.new) (take n buffer.new)
            × (n ≡ 0 → 0 < length buffer.new → IsAtEnd (remaining self.new))) }
        ensures failed { MatchOption result (has_failed self.new ≡ true) (λ n. has_failed self.new ≡ false) };
}

/// A writer for the answers of a session. `write` must not be called after a write has failed.
pub trait Sink {
    /// The bytes that have been written, if they are known.
    ghost written: { Self → Option (List ℕ) };

    /// Returns `true` if a write has failed, that is, has returned `None`.
    ghost has_failed: { Self → Bool };

    /// Writes a prefix of `text` and returns its length, which is at least 1 unless `text` is empty. Returns `None` if
    /// the write fails. A failed write writes no bytes.
    fn write(&mut self, text: &[u8]) -> Option<usize>
        requires works { has_failed self.old ≡ false }
        ensures bound { IfSome result (λ n. (n ≤ length text.now) × (0 < length text.now → 0 < n)) }
        ensures bytes { MatchOption result (Keeps (written self.old) (written self.new))
            (λ n. Appends (written self.old) (written self.new) (take n text.now)) }
        ensures failed { MatchOption result (has_failed self.new ≡ true) (λ n. has_failed self.new ≡ false) };
}

/// A reader or writer of the standard library, used as a `Source` or `Sink`. Any error is a failure, and so is a write
/// that accepts no bytes.
#[derive(Drop)]
pub struct Device<T> {
    inner: T,
    failed: bool,
}

impl<T> Device<T> {
    /// Wraps `inner`, a reader or writer that has not failed.
    pub fn new(inner: T) -> Device<T>
        ensures inner { inner_of result ≡ inner }
        ensures works { is_failed result ≡ false }
    {
        Device {
            inner,
            failed: false,
        }
    }
}

impl<T: Read> Source for Device<T> {
    ghost remaining = { λ d. T.remaining (inner_of d) };

    ghost has_failed = { is_failed };

    fn read(&mut self, buffer: &mut [u8]) -> Option<usize> {
        match self.inner.read(buffer) {
            Ok(count) => Some(count),
            Err(_) => {
                self.failed = true;
                None
            }
        }
    }
}

impl<T: Write> Sink for Device<T> {
    ghost written = { λ d. T.contents (inner_of d) };

    ghost has_failed = { is_failed };

    fn write(&mut self, text: &[u8]) -> Option<usize> {
        if text.is_empty() {
            return Some(0);
        }
        match self.inner.write(text) {
            Ok(count) if count > 0 => Some(count),
            _ => {
                self.failed = true;
                None
            }
        }
    }
}

/// Writes `text`, and returns whether all of it was written. After a failed write, writes nothing more.
pub fn write_all<W: Sink>(sink: &mut W, text: &[u8]) -> bool
    requires works { W.has_failed sink.old ≡ false }
    ensures text { Writes result (W.written sink.old) (W.written sink.new) text.now }
    ensures failed { W.has_failed sink.new ≡ (if result then false else true) }
{
    let mut rest = text;
    while !rest.is_empty() {
        let Some(count) = sink.write(rest) else {
            return false;
        };
        rest = &rest[count..];
    }
    true
}
