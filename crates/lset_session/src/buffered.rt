//! Sessions that buffer their answers.
//!
//! `session` writes each answer before it makes the next call. A buffered session collects answers in a buffer of 4,096
//! bytes. It writes the buffer when the buffer is full, before each read, and at the end. If a client sends many lines
//! at once, the server therefore writes only a few times. All answers are written before the session waits for the next
//! line.
ghost use Rattle.std.specs.Prelude.{◌≡◌, ◌≢◌, ◌<◌, ◌≤◌, IfSome, IsTrue, None, false, length, Option, List, ℕ};
ghost use Rattle.lset_session.specs.Sessions.{IsSession};
ghost use Rattle.lset_session.specs.declared.TheConstants.{MOST_LINES};
ghost use Rattle.lset_session.specs.declared.sessions.EndReason.{EndReason as Ending};

use crate::devices::{Sink, Source, write_all};
use crate::sessions::{EndReason, Ended, session};
use lset_words::SetCalls;
use std::cell::RefCell;
use std::sync::Wait;

/// The size of the answer buffer in bytes.
const ROOM: usize = 4096;

/// A buffer of answers that have not been written yet, the writer, and whether a write has failed.
#[derive(Drop)]
struct Buffer<O: Sink> {
    bytes: [u8; ROOM],
    len: usize,
    writer: O,
    failed: bool,
    ghost room: { len ≤ 4096 },
    ghost works: { failed ≡ O.has_failed writer },
}

impl<O: Sink> Buffer<O> {
    /// Returns an empty buffer for `writer`, which must not have failed.
    fn new(writer: O) -> Buffer<O>
        requires { O.has_failed writer ≡ false }
    {
        Buffer {
            bytes: [0; ROOM],
            len: 0,
            writer,
            failed: false,
        }
    }

    /// Writes the answers in the buffer, and returns whether all of them were written. After a failed write, writes
    /// nothing and returns false.
    fn flush(&mut self) -> bool
        ensures { IsTrue result → self.new.len ≡ 0 }
    {
        if self.failed {
            return false;
        }
        let whole = write_all(&mut self.writer, &self.bytes[..self.len]);
        self.failed = !whole;
        self.len = 0;
        whole
    }

    /// Copies as much of `text` into the buffer as fits, and returns the number of bytes copied.
    fn put(&mut self, text: &[u8]) -> usize
        ensures bound { result ≤ length text.now }
        ensures some { self.old.len ≢ ROOM → 0 < length text.now → 0 < result }
    {
        let count = text.len().min(ROOM - self.len);
        let end = self.len + count;
        self.bytes[self.len..end].copy_from_slice(&text[..count]);
        self.len = end;
        count
    }

    /// Copies as much of `text` into the buffer as fits, and returns the number of bytes copied. If the buffer is full,
    /// first writes the buffered answers, and returns `None` if writing them fails.
    fn write(&mut self, text: &[u8]) -> Option<usize>
        ensures { IfSome result (λ n. (n ≤ length text.now) × (0 < length text.now → 0 < n)) }
    {
        if self.len == ROOM && !self.flush() {
            return None;
        }
        Some(self.put(text))
    }
}

/// Writes the answers in the shared buffer, and returns whether all of them were written.
fn flush<O: Sink>(buffer: &RefCell<Buffer<O>>) -> bool {
    match buffer.try_borrow_mut() {
        Ok(mut buffer) => buffer.flush(),
        Err(_) => false,
    }
}

/// The reader of a buffered session. Writes the buffered answers to the client before each read.
#[derive(Drop)]
struct Flushing<'a, I, O: Sink> {
    reader: I,
    buffer: &'a RefCell<Buffer<O>>,
    failed: bool,
}

impl<I: Source, O: Sink> Source for Flushing<'_, I, O> {
    ghost use Rattle.std.specs.Prelude.{◌||◌};

    ghost remaining = { λ d. I.remaining d.reader };

    ghost has_failed = { λ d. d.failed || I.has_failed d.reader };

    fn read(&mut self, buffer: &mut [u8]) -> Option<usize> {
        if !flush(self.buffer) {
            self.failed = true;
            return None;
        }
        self.reader.read(buffer)
    }
}

/// The writer of a buffered session: puts answers into the shared buffer. No contract states which bytes were written,
/// because contracts cannot see into a `RefCell`.
#[derive(Drop)]
struct Buffered<'a, O: Sink> {
    buffer: &'a RefCell<Buffer<O>>,
    failed: bool,
}

impl<O: Sink> Sink for Buffered<'_, O> {
    ghost written = { λ _. None };

    ghost has_failed = { λ d. d.failed };

    fn write(&mut self, text: &[u8]) -> Option<usize> {
        if let Ok(mut buffer) = self.buffer.try_borrow_mut()
            && let Some(count) = buffer.write(text)
        {
            return Some(count);
        }
        self.failed = true;
        None
    }
}

/// Serves one client as `session` does, but buffers up to 4,096 bytes of answers. The buffered answers are written
/// before each read of `reader`, when the buffer is full, and at the end of the session. `reader` and `writer` must not
/// have failed, and `seat` (a per-thread handle) must belong to `set`.
///
/// If a write fails, the session ends with `WriteFault` and writes nothing more. The bytes written are then a prefix of
/// the answers. A call is counted even if its answer was not written. Blocks if `set`, `reader` or `writer` blocks.
/// Does not allocate.
pub fn buffered_session<R: Wait, I: Source + Drop, O: Sink + Drop, S: SetCalls>(
    rt: &R,
    reader: I,
    writer: O,
    set: &S,
    seat: &mut S::Seat,
) -> Ended
    requires seat { S.is_of set.now seat.old }
    requires works { (I.has_failed reader ≡ false) × (O.has_failed writer ≡ false) }
    // The definition [Session] holds for the bytes read and the calls made. No contract covers the bytes written.
    ensures session { (end : Ending) × (left : Option (List ℕ)) × (result.why ≢ EndReason.WriteFault → result.why ≡ end)
        × IsSession end result.calls (I.remaining reader) left (S.record_of seat.old) (S.record_of seat.new) None None }
    ensures few { result.calls ≤ MOST_LINES }
    ensures seat { S.is_of set.now seat.new × (S.held_by seat.new ≡ S.held_by seat.old) }
{
    let buffer = RefCell::new(Buffer::new(writer));
    let ended = session(
        rt,
        &mut Flushing {
            reader,
            buffer: &buffer,
            failed: false,
        },
        &mut Buffered {
            buffer: &buffer,
            failed: false,
        },
        set,
        seat,
    );
    if flush(&buffer) {
        ended
    } else {
        Ended {
            why: EndReason::WriteFault,
            ..ended
        }
    }
}
