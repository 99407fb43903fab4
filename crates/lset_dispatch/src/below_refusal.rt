//! Appends lines to the answer `not linearizable` of `judge`: an explanation of the refusal or, if the recording came
//! from a pipe, the advice to use a file. The explanation needs a second reading of the recording, which a pipe does
//! not allow.

ghost use Rattle.std.specs.Prelude.{ℕ, List};
ghost use Rattle.tool_base.specs.Tools.{view};
ghost use Rattle.tool_judge.specs.Judging.{Judges};

use std::alloc::{AllocError, Global};
use std::fs::File;
use std::io::Read;
use std::rt::Files;
use tool_base::{Answer, Trouble};
use tool_judge::{with_count, with_lines};
use tool_why::{Explained, explain};

const OF_A_FILE: &[u8] = b"\nto learn what is wrong, judge a file: listset judge FILE\n";

const FAILED: &[u8] =
    b"\nno explanation: memory ran out, or the file has changed since it was judged\n";

/// Returns the number of lines of the answer `not linearizable`, or 0 for any other answer.
fn refused_lines(made: &Result<Answer, Trouble>) -> usize {
    match made {
        Ok(answer) if answer.status != 0 => {
            let ends = answer.text.iter().filter(|byte| **byte == b'\n');
            ends.count()
        }
        _ => 0,
    }
}

/// Reads the recording again and returns the lines that explain why it is refused, or `None` if the second reading
/// finds no refused recording. `used` is the number of lines of the verdict above the explanation.
fn explanation<R: Read>(
    alloc: Global,
    input: &mut R,
    used: usize,
) -> Result<Option<String>, AllocError> {
    match explain(alloc, input, used)? {
        Some(Explained { count, text }) => Ok(Some(with_count(alloc, &count, text.as_str())?)),
        None => Ok(None),
    }
}

/// If the answer refuses the recording in the file at `path`, reads the file again and appends an explanation, or a
/// note that there is none. Returns any other answer unchanged. Allocates. Blocks while reading the file.
pub(crate) fn explained<H: Files>(
    rt: &H,
    alloc: Global,
    made: Result<Answer, Trouble>,
    path: &str,
) -> Result<Answer, Trouble>
    ensures { (bytes : List ℕ) → Judges bytes (view made) → Judges bytes (view result) }
{
    let used = refused_lines(&made);
    if used == 0 {
        return made;
    }
    let Ok(mut file) = File::open(rt, path) else {
        return with_lines(made, FAILED);
    };
    match explanation(alloc, &mut file, used) {
        Ok(Some(text)) => with_lines(made, text.as_bytes()),
        Ok(None) | Err(_) => with_lines(made, FAILED),
    }
}

/// If the answer refuses a recording that was read from a pipe, appends the advice to use a file. Returns any other
/// answer unchanged.
pub(crate) fn pointed(made: Result<Answer, Trouble>) -> Result<Answer, Trouble>
    ensures { (bytes : List ℕ) → Judges bytes (view made) → Judges bytes (view result) }
{
    if refused_lines(&made) == 0 {
        return made;
    }
    with_lines(made, OF_A_FILE)
}
