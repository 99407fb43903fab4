//! Reads the text of a recording: the calls of a concurrent set, one on each line, between the lines of the opening
//! keys and the lines of the final keys.
use crate::stream_calls::made_of;
use lset_recording::{Line, Section, line_told};
use std::alloc::{AllocError, Global};
use std::io::Read;
use tool_calls::Recorded;

/// A reader of the text of a recording, which keeps all calls in memory. The reader checks the form of each line. It
/// does not check that keys increase, or that a call can follow the calls before it: the judge (crate `lset_judge`)
/// checks that.
#[derive(Drop)]
pub struct RunReader {
    /// The lines that were read.
    recorded: Recorded,
    /// Which kinds of lines can come next: for example, no opening key comes after a call.
    section: Section,
    /// The beginning of the next line, if its newline has not been read.
    line: Vec<u8>,
    /// Whether all lines so far have the form of a line that is allowed at their position.
    is_whole: bool,
    alloc: Global,
}

impl RunReader {
    /// Creates a reader that has not read anything. Does not allocate.
    pub fn new(alloc: Global) -> RunReader {
        RunReader {
            recorded: Recorded {
                opening: Vec::new(alloc),
                calls: Vec::new(alloc),
                left: Vec::new(alloc),
                is_cut: false,
                is_part: false,
            },
            section: Section::Title,
            line: Vec::new(alloc),
            is_whole: true,
            alloc,
        }
    }

    /// Adds the content of a line to the recording.
    fn keep(&mut self, line: Line) -> Result<(), AllocError> {
        match line {
            Line::Opening(key) => self.recorded.opening.push(key)?,
            Line::Call(call) => self.recorded.calls.push(made_of(call))?,
            Line::Key(key) => self.recorded.left.push(key)?,
            Line::Title | Line::End => {}
            Line::Cut => self.recorded.is_cut = true,
        }
        self.section = line.section();
        Ok(())
    }

    /// Reads a whole line, without its newline. A line of a wrong form is not an error: the line is skipped, and
    /// `finish` then returns `None`.
    fn read_line(&mut self, line: &[u8]) -> Result<(), AllocError> {
        match line_told(self.section, line) {
            Ok(line) => self.keep(line),
            Err(_) => {
                self.is_whole = false;
                Ok(())
            }
        }
    }

    /// Reads the line that ends with the bytes `last`. The line begins with the bytes in `self.line`.
    fn end_line(&mut self, last: &[u8]) -> Result<(), AllocError> {
        if self.line.is_empty() {
            return self.read_line(last);
        }
        self.line.extend_from_slice(last)?;
        let whole = std::mem::replace(&mut self.line, Vec::new(self.alloc));
        self.read_line(&whole)
    }

    /// Reads the next bytes of the text, which can end in the middle of a line. Fails only if an allocation fails.
    /// Allocates. Does not block.
    pub fn feed(&mut self, piece: &[u8]) -> Result<(), AllocError> {
        let mut rest = piece;
        for _ in 0..piece.len() {
            let Some((line, more)) = lset_text::cut(rest, b'\n') else {
                break;
            };
            self.end_line(line)?;
            rest = more;
        }
        self.line.extend_from_slice(rest)?;
        Ok(())
    }

    /// Returns the recording. Returns `None` if a line does not have the form of a line that is allowed at its
    /// position, or if the text does not end with the line `end` or `cut` and a newline. Does not allocate.
    pub fn finish(self) -> Option<Recorded> {
        let is_done = matches!(self.section, Section::Done);
        if is_done && self.is_whole && self.line.is_empty() {
            Some(self.recorded)
        } else {
            None
        }
    }

    /// Returns everything read so far. Lines of a wrong form are left out. Does not allocate.
    pub fn recorded(&self) -> &Recorded {
        &self.recorded
    }

    /// Reads from `input` until the input ends, or until more than `most` calls are kept. Returns `Some(true)` if the
    /// input has ended, `Some(false)` if more than `most` calls are kept, and `None` if a read fails. Fails only if an
    /// allocation fails. Allocates. Blocks while reading.
    pub fn read_calls<R: Read>(
        &mut self,
        input: &mut R,
        most: usize,
    ) -> Result<Option<bool>, AllocError> {
        let mut buffer = Vec::from_elem(self.alloc, 0u8, READ_SIZE)?;
        for _ in 0..u64::MAX {
            let Ok(count) = input.read(&mut buffer) else {
                return Ok(None);
            };
            if count == 0 {
                return Ok(Some(true));
            }
            self.feed(buffer.get(..count).unwrap_or(&[]))?;
            if self.recorded.calls.len() > most {
                return Ok(Some(false));
            }
        }
        Ok(None)
    }

    /// Returns the first `count` calls as a recording that was cut off just before the next call began. A call that
    /// ended later becomes pending if it can have changed its key, and is left out otherwise. Returns `None` if at most
    /// `count` calls were read, or if a line has the wrong form. Fails only if an allocation fails. Allocates.
    pub fn first_calls(&self, count: usize) -> Result<Option<Recorded>, AllocError> {
        let Some(next) = self.recorded.calls.get(count) else {
            return Ok(None);
        };
        if !self.is_whole {
            return Ok(None);
        }
        let moment = next.begun.saturating_sub(1);
        let mut calls = Vec::new(self.alloc);
        for call in self.recorded.calls.get(..count).unwrap_or(&[]) {
            if let Some(cut) = call.cut_at(moment) {
                calls.push(cut)?;
            }
        }
        Ok(Some(Recorded {
            opening: Vec::from_slice(self.alloc, &self.recorded.opening)?,
            calls,
            left: Vec::new(self.alloc),
            is_cut: true,
            is_part: true,
        }))
    }
}

/// The maximum size of one read, in bytes. Limits the memory for the text.
const READ_SIZE: usize = 65_536;
