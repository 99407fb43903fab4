//! Implements `judge --only KEY`, which prints the recorded calls on one key.

use lset_recording::RecordingReader;
use std::alloc::Global;
use std::io::Read;
use tool_base::{Answer, READ_SIZE, Trouble, ValueName};
use tool_facts::{RunReader, recording_of_key};

/// Returns a recording that contains only the calls on one key or, if no order explains these calls, only the few calls
/// that show why. Allocates. Blocks while reading the input.
///
/// # Errors
///
/// Returns the errors of `judge_input`, and `Bad(ValueName::Key)` if the key has no calls.
pub(crate) fn print_key<R: Read>(
    alloc: Global,
    input: &mut R,
    key: u32,
) -> Result<Answer, Trouble> {
    let mut judge = RecordingReader::new(alloc);
    let mut run = RunReader::new(alloc);
    let mut buffer = [0u8; READ_SIZE];
    for _ in 0..u64::MAX {
        let Ok(count) = input.read(&mut buffer) else {
            return Err(Trouble::CannotRead);
        };
        if count == 0 {
            break;
        }
        judge.feed(&buffer[..count])?;
        run.feed(&buffer[..count])?;
    }
    let _judged = judge.finish()?;
    let Some(recorded) = run.finish() else {
        return Err(Trouble::CannotRead);
    };
    match recording_of_key(alloc, &recorded, key)? {
        Some(text) => Ok(Answer {
            text: text.into_bytes(),
            status: 0,
        }),
        None => Err(Trouble::Bad(ValueName::Key)),
    }
}
