//! Readers and writers for tests. Each reader or writer fails at one chosen call.

use crate::prelude::*;
use std::io::{self, ErrorKind, Read, Write};

pub const CANNOT_READ: &[u8] = b"listset: cannot read\n";

pub const CANNOT_WRITE: &[u8] = b"listset: cannot write\n";

/// A value of `Plan::fails_at` that no call reaches: a reader or writer with this value never fails.
pub const NEVER: usize = usize::MAX;

/// How a read or a write fails.
#[derive(Clone, Copy)]
pub enum Failure {
    /// The call fails with an error of kind `Interrupted`. Loops in std repeat an interrupted call.
    Interrupted,
    BrokenPipe,
    /// A write accepts no byte, and a flush fails with `WriteZero`. Not used for readers: a read that returns no byte
    /// means the end of the text.
    Nothing,
}

impl Failure {
    /// Returns the error of a failed call that does not return a number of bytes, such as a flush.
    fn error(self) -> io::Error {
        io::Error::from(match self {
            Failure::Interrupted => ErrorKind::Interrupted,
            Failure::BrokenPipe => ErrorKind::BrokenPipe,
            Failure::Nothing => ErrorKind::WriteZero,
        })
    }

    fn answer(self) -> io::Result<usize> {
        match self {
            Failure::Nothing => Ok(0),
            _ => Err(self.error()),
        }
    }
}

/// Determines when a reader or writer fails: call number `fails_at`, counted from 0, fails, and all later calls
/// succeed. A call transfers at most `most` bytes.
#[derive(Clone, Copy)]
pub struct Plan {
    pub most: usize,
    pub fails_at: usize,
    pub failure: Failure,
}

/// How a device fails, and the maximum number of bytes that one call of the device transfers.
pub type Way = (Failure, usize);

pub fn planned((failure, most): Way, fails_at: usize) -> Plan {
    Plan {
        most,
        fails_at,
        failure,
    }
}

/// The plan of a reader or writer that never fails and transfers all bytes in each call.
pub const WHOLE: Plan = Plan {
    most: usize::MAX,
    fails_at: NEVER,
    failure: Failure::Nothing,
};

#[derive(Drop)]
pub struct Reader {
    left: &'static [u8],
    plan: Plan,
    pub calls: usize,
}

impl Reader {
    pub fn new(text: &'static str, plan: Plan) -> Reader {
        Reader {
            left: text.as_bytes(),
            plan,
            calls: 0,
        }
    }
}

impl Read for Reader {
    fn read(&mut self, buf: &mut [u8]) -> io::Result<usize> {
        let call = self.calls;
        self.calls = call.saturating_add(1);
        if call == self.plan.fails_at {
            return self.plan.failure.answer();
        }
        let count = self.left.len().min(buf.len()).min(self.plan.most);
        buf[..count].copy_from_slice(&self.left[..count]);
        self.left = &self.left[count..];
        Ok(count)
    }
}

#[derive(Drop)]
pub struct Writer {
    pub taken: Vec<u8>,
    plan: Plan,
    /// The number of calls of `write` and `flush` so far.
    pub calls: usize,
}

impl Writer {
    pub fn new(alloc: Global, plan: Plan) -> Writer {
        Writer {
            taken: Vec::new(alloc),
            plan,
            calls: 0,
        }
    }

    /// Returns `true` if no call followed the failed call, and if each call before it wrote at least one byte of
    /// `text`, in order. (A flush before the failed call would be a call without a byte.)
    pub fn stopped_within(&self, text: &[u8]) -> bool {
        let calls = self.plan.fails_at;
        let bytes = self.taken.len();
        self.calls == calls.saturating_add(1)
            && calls <= bytes
            && bytes <= calls.saturating_mul(self.plan.most)
            && text.starts_with(&self.taken)
    }
}

impl Write for Writer {
    fn write(&mut self, buf: &[u8]) -> io::Result<usize> {
        let call = self.calls;
        self.calls = call.saturating_add(1);
        if call == self.plan.fails_at {
            return self.plan.failure.answer();
        }
        let count = buf.len().min(self.plan.most);
        self.taken.extend_from_slice(&buf[..count])?;
        Ok(count)
    }

    fn flush(&mut self) -> io::Result<()> {
        let call = self.calls;
        self.calls = call.saturating_add(1);
        if call == self.plan.fails_at {
            return Err(self.plan.failure.error());
        }
        Ok(())
    }
}
