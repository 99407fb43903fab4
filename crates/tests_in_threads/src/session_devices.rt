//! Readers and writers for tests of sessions. Some readers and writers fail at one chosen call. All others never fail,
//! and transfer as many bytes as possible.

use crate::prelude::*;
use std::io::ErrorKind;

/// A reader that returns one byte at a time. Read number `fails_at`, counted from 1, fails. All later reads succeed.
#[derive(Drop)]
pub struct FailingReader<'a> {
    text: &'a [u8],
    /// The number of reads so far, including a failed read.
    pub reads: u64,
    fails_at: u64,
}

impl<'a> FailingReader<'a> {
    /// Creates a reader at the start of the text. If `fails_at` is 0, no read fails.
    pub fn new(text: &'a [u8], fails_at: u64) -> FailingReader<'a> {
        FailingReader {
            text,
            reads: 0,
            fails_at,
        }
    }
}

impl Read for FailingReader<'_> {
    fn read(&mut self, buffer: &mut [u8]) -> io::Result<usize> {
        self.reads = self.reads.saturating_add(1);
        if self.reads == self.fails_at {
            return Err(io::Error::from(ErrorKind::Other));
        }
        if buffer.is_empty() || self.text.is_empty() {
            return Ok(0);
        }
        buffer[0] = self.text[0];
        self.text = &self.text[1..];
        Ok(1)
    }
}

/// A writer that accepts one byte at a time. Write number `fails_at`, counted from 1, fails. All later writes succeed.
#[derive(Drop)]
pub struct FailingWriter {
    /// The bytes written so far.
    pub text: Vec<u8>,
    /// The number of writes so far, including a failed write.
    pub writes: u64,
    fails_at: u64,
}

impl FailingWriter {
    /// Creates a writer that has accepted no bytes yet. If `fails_at` is 0, a write fails only if an allocation fails.
    pub fn new(alloc: Global, fails_at: u64) -> FailingWriter {
        FailingWriter {
            text: Vec::new(alloc),
            writes: 0,
            fails_at,
        }
    }

    /// Asserts that no write followed the failed write, and that all bytes of the answers before the failed write were
    /// written.
    pub fn has_stopped<R: Abort>(&self, rt: &R, answers: &[u8]) {
        let at = self.fails_at;
        assert_eq!(rt; self.text.len() as u64 + 1, at);
        assert_eq!(rt; self.writes, at);
        assert!(rt; answers.starts_with(&self.text), "{at}");
    }
}

impl Write for FailingWriter {
    fn write(&mut self, text: &[u8]) -> io::Result<usize> {
        self.writes = self.writes.saturating_add(1);
        if self.writes == self.fails_at {
            return Err(io::Error::from(ErrorKind::Other));
        }
        if text.is_empty() {
            return Ok(0);
        }
        self.text.push(text[0])?;
        Ok(1)
    }

    fn flush(&mut self) -> io::Result<()> {
        Ok(())
    }
}

/// A reader that fills the whole buffer if it can, and counts the reads.
#[derive(Drop)]
pub struct GenerousReader<'a> {
    pub text: &'a [u8],
    pub reads: u64,
}

impl Read for GenerousReader<'_> {
    fn read(&mut self, buffer: &mut [u8]) -> io::Result<usize> {
        self.reads = self.reads.saturating_add(1);
        let count = buffer.len().min(self.text.len());
        buffer[..count].copy_from_slice(&self.text[..count]);
        self.text = &self.text[count..];
        Ok(count)
    }
}

/// A writer that accepts all bytes, and counts the bytes and the writes.
#[derive(Drop)]
pub struct GreedyWriter {
    pub bytes: u64,
    pub writes: u64,
}

impl Write for GreedyWriter {
    fn write(&mut self, text: &[u8]) -> io::Result<usize> {
        self.writes = self.writes.saturating_add(1);
        self.bytes = self.bytes.saturating_add(text.len() as u64);
        Ok(text.len())
    }

    fn flush(&mut self) -> io::Result<()> {
        Ok(())
    }
}
