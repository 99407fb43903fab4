use crate::host::HostInput;
use std::alloc::{AllocError, Global};
use std::io::Read;
use tool_base::{Answer, Trouble};
use tool_facts::RunReader;
use tool_judge::{judge_bytes, with_count};
use tool_why::{Diagnosis, Explained, diagnose, diagnosis_record, explain};

/// Returns an empty answer with status 0.
fn nothing(alloc: Global) -> Answer {
    Answer {
        text: Vec::new(alloc),
        status: 0,
    }
}

/// Returns the diagnosis of recorded calls, or `None` if a line has the wrong form or if some order explains the calls.
/// Does not check the other rules for recordings, for example that keys increase.
fn diagnosis_of(alloc: Global, text: &[u8]) -> Result<Option<Diagnosis>, AllocError> {
    let mut reader = RunReader::new(alloc);
    reader.feed(text)?;
    match reader.finish() {
        Some(recorded) => diagnose(alloc, &recorded),
        None => Ok(None),
    }
}

/// Returns the diagnosis of recorded calls as a record (lines with a name and values), with status 1. If a line has the
/// wrong form, or if some order explains the calls, returns an empty answer with status 0. Does not check the other
/// rules for recordings, for example that keys increase.
pub fn diagnose_recording(alloc: Global, text: &[u8]) -> Result<Answer, Trouble> {
    match diagnosis_of(alloc, text)? {
        Some(diagnosis) => Ok(Answer {
            text: diagnosis_record(alloc, &diagnosis)?.into_bytes(),
            status: 1,
        }),
        None => Ok(nothing(alloc)),
    }
}

/// Returns the lines that `judge FILE` prints below a verdict of `used` lines, with status 1. If `input` cannot be
/// explained, returns an empty answer with status 0.
fn explain_below<R: Read>(alloc: Global, input: &mut R, used: usize) -> Result<Answer, Trouble> {
    match explain(alloc, input, used)? {
        Some(Explained { count, text }) => Ok(Answer {
            text: with_count(alloc, &count, text.as_str())?.into_bytes(),
            status: 1,
        }),
        None => Ok(nothing(alloc)),
    }
}

/// Returns the number of lines of the answer `not linearizable`, or 0 for any other answer.
fn refused_lines(verdict: &Answer) -> usize {
    if verdict.status == 0 {
        return 0;
    }
    let ends = verdict.text.iter().filter(|byte| **byte == b'\n');
    ends.count()
}

/// Returns the lines that `judge FILE` prints below the verdict on a recording, with status 1. If the text is not a
/// recording, or if some order explains its calls, returns an empty answer with status 0.
pub fn diagnose_text(alloc: Global, text: &[u8]) -> Result<Answer, Trouble> {
    let used = match judge_bytes(alloc, text) {
        Ok(verdict) => refused_lines(&verdict),
        Err(Trouble::Memory) => return Err(Trouble::Memory),
        Err(_) => 0,
    };
    if used == 0 {
        return Ok(nothing(alloc));
    }
    let mut input = text;
    explain_below(alloc, &mut input, used)
}

/// Returns the lines that `judge FILE` prints below a verdict of `used` lines, with status 1. Reads the recording from
/// the file with the descriptor `file`. If the file cannot be read, a line has the wrong form, or some order explains
/// the calls, returns an empty answer with status 0. Does not check the other rules for recordings, for example that
/// keys increase.
pub fn diagnose_file(alloc: Global, file: i32, used: usize) -> Result<Answer, Trouble> {
    let mut input = HostInput { file };
    explain_below(alloc, &mut input, used)
}
