//! Writes traces. A trace contains a line for each event of a schedule. Each line describes the effect of its event.

mod chunks;
mod event_line;
mod table_words;
mod trace_lines;
mod traced_run;

use broken_lists::BrokenList;
use std::alloc::Global;
use std::io::{Read, Write};
use tool_base::{Answer, Input, Tool, Trouble, read_all};
use trace_lines::Output;
use traced_run::trace_into;

/// The command `trace`. The answer contains a line for each event of a schedule. The exit status is 0 if all events
/// were executed, and 1 if an event was refused. A refused event ends the trace. The command fails with `Line` if the
/// text is not a schedule. On a broken list (a list without one of its checks), the command fails with the errors of
/// `read_broken_schedule`. The command fails with `Memory` if an allocation fails.
#[derive(Clone, Copy)]
pub struct Trace {
    /// Whether to write the chain of nodes after each event that changed the chain.
    pub chains: bool,
    /// The broken list (a list without one of its checks) that runs the schedule. A line `lacks NAME` in the trace's
    /// header names the broken list. `None` selects the list that the schedule names.
    pub lacks: Option<BrokenList>,
}

impl Tool for Trace {
    fn answer(&self, alloc: Global, input: Input<'_>) -> Result<Answer, Trouble> {
        let mut text = Vec::new(alloc);
        let status = trace_into(alloc, *self, input.bytes(), &mut text)?;
        Ok(Answer { text, status })
    }
}

/// Traces the schedule in `input` to `output`. The text is written in pieces while the schedule runs, so it is not
/// collected in memory. Returns an answer without text. The answer's status is 1 if an event was refused, otherwise 0.
/// If an allocation or a write fails, part of the trace can already have been written. Allocates.
pub fn trace_events<R: Read, W: Write>(
    alloc: Global,
    trace: Trace,
    input: &mut R,
    output: &mut W,
) -> Result<Answer, Trouble> {
    let bytes = read_all(alloc, input)?;
    let text = Input::new(&bytes)?.bytes();
    Ok(Answer {
        status: trace_into(alloc, trace, text, &mut Output { output })?,
        text: Vec::new(alloc),
    })
}
