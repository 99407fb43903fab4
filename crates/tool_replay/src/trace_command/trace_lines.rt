//! Builds the text of a trace and writes it to a destination.

use crate::trace_command::chunks::{Chunk, is_full, put, put_number};
use crate::trace_command::event_line::put_event;
use lset_replay::TracedEvent;
use lset_schedule::Schedule;
use lset_steps::ChainKey;
use lset_text::{kind_word, put_openings};
use lset_words::Kind;
use std::alloc::{AllocError, Global};
use std::io::Write;
use tool_base::{Trouble, put as put_out};

const TITLE: &str = "listset-trace 1";

/// A destination for text that is written piece by piece.
pub trait Sink {
    /// Appends the next piece of the text.
    fn take(&mut self, text: &str) -> Result<(), Trouble>;
}

/// A destination that collects the text in memory.
impl Sink for Vec<u8> {
    fn take(&mut self, text: &str) -> Result<(), Trouble> {
        Ok(self.extend_from_slice(text.as_bytes())?)
    }
}

/// A destination that writes to an output.
#[derive(Drop)]
pub(crate) struct Output<'a, W> {
    pub output: &'a mut W,
}

impl<W: Write> Sink for Output<'_, W> {
    fn take(&mut self, text: &str) -> Result<(), Trouble> {
        if put_out(self.output, text.as_bytes()) {
            Ok(())
        } else {
            Err(Trouble::CannotWrite)
        }
    }
}

/// Appends the title of a trace and the line `list NAME`. If `lacks` names a broken list (a list without one of its
/// checks), appends the line `lacks NAME`.
fn put_list(out: &mut String, kind: Kind, lacks: Option<&str>) -> Result<(), AllocError> {
    let list = kind_word(kind);
    writeln!(out, "{TITLE}\nlist {list}")?;
    match lacks {
        Some(lacks) => writeln!(out, "lacks {lacks}"),
        None => Ok(()),
    }
}

fn put_limits(out: &mut String, threads: u32, quota: u32) -> Result<(), AllocError> {
    writeln!(out, "threads {threads}\nquota {quota}")
}

/// Returns the beginning of a trace, before the first event: the header, and a line for each opening key (key at the
/// start). If `lacks` names a broken list (a list without one of its checks), the header has a line `lacks NAME` after
/// the line of the list.
pub(crate) fn head_of(
    alloc: Global,
    schedule: &Schedule,
    lacks: Option<&str>,
) -> Result<String, AllocError> {
    let mut head = String::new(alloc);
    put_list(&mut head, schedule.kind, lacks)?;
    put_limits(&mut head, schedule.threads, schedule.quota)?;
    put_openings(&mut head, &schedule.opening)?;
    Ok(head)
}

/// A trace that is being written. `chunk` contains the part that has not been written to the destination yet.
#[derive(Drop)]
pub struct Lines<'a, S> {
    chunk: Chunk,
    sink: &'a mut S,
}

impl<S: Sink> Lines<'_, S> {
    /// Starts a trace that is written to `sink`.
    pub fn to(sink: &mut S) -> Lines<'_, S> {
        Lines {
            chunk: Chunk::new(),
            sink,
        }
    }

    /// Appends the line of an event and, if the event changed the chain of nodes, the line of the new chain.
    #[inline(always)]
    pub fn add(&mut self, event: &TracedEvent) -> Result<(), Trouble> {
        self.pour_full()?;
        put_event(&mut self.chunk, event);
        match &event.chain {
            Some(chain) => self.add_chain(chain),
            None => Ok(()),
        }
    }

    /// Appends the last line, and passes the rest of the text to the destination. The last line is `end` or, if an
    /// event was refused, the number of the event's line and the cause.
    pub fn end(&mut self, refused: Option<(u64, &str)>) -> Result<(), Trouble> {
        self.pour_full()?;
        match refused {
            None => put(&mut self.chunk, "end\n"),
            Some((line, cause)) => {
                put(&mut self.chunk, "refused line ");
                put_number(&mut self.chunk, line);
                put(&mut self.chunk, " ");
                put(&mut self.chunk, cause);
                put(&mut self.chunk, "\n");
            }
        }
        self.pour()
    }

    fn pour(&mut self) -> Result<(), Trouble> {
        self.sink.take(self.chunk.as_str())?;
        self.chunk.clear();
        Ok(())
    }

    fn pour_full(&mut self) -> Result<(), Trouble> {
        if is_full(&self.chunk) {
            self.pour()?;
        }
        Ok(())
    }

    /// Appends a line with the keys of all nodes in the list, from head to tail, with a star after the key of a marked
    /// node.
    fn add_chain(&mut self, chain: &[ChainKey]) -> Result<(), Trouble> {
        put(&mut self.chunk, "chain");
        for place in chain {
            self.pour_full()?;
            put(&mut self.chunk, " ");
            put_number(&mut self.chunk, u64::from(place.key));
            if place.marked {
                put(&mut self.chunk, "*");
            }
        }
        put(&mut self.chunk, "\n");
        Ok(())
    }
}
