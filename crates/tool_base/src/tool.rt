ghost use Rattle.std.specs.Prelude.{ℕ, List, IfSome};
ghost use Rattle.tool_base.specs.Tools.{Ends, Made, OnInput, OnText, view};

use crate::answer::{Answer, deliver};
use crate::input::{Input, read_all};
use crate::trouble::Trouble;
use std::alloc::Global;
use std::io::{Read, Write};

/// A command that computes its answer from the whole input.
pub trait Tool {
    /// Defines which results are correct for an input that consists of the given bytes. By default, every result is
    /// correct.
    ghost answers: { Self → List ℕ → Made → Type 0 } = { λ tool bytes made. Unit {0} };

    /// Computes the answer for an input. Allocates.
    fn answer(&self, alloc: Global, input: Input<'_>) -> Result<Answer, Trouble>
        ensures { answers self.now input.entry.bytes.now (view result) };
}

/// Returns the command's answer for a text. Returns the error `TooLong` if the text is too long for an input.
/// Allocates.
pub fn answer_text<T: Tool>(alloc: Global, tool: &T, text: &[u8]) -> Result<Answer, Trouble>
    ensures { OnText (T.answers tool.now) text.now (view result) }
{
    let input = Input::new(text)?;
    tool.answer(alloc, input)
}

/// Reads an input to its end and returns the command's answer for the input.
fn answer_input<T: Tool, R: Read>(alloc: Global, tool: &T, input: &mut R) -> Result<Answer, Trouble>
    ensures { IfSome (R.remaining input.old) (λ bytes. OnInput (T.answers tool.now) bytes (view result)) }
{
    let bytes = read_all(alloc, input)?;
    answer_text(alloc, tool, &bytes)
}

/// Runs a command: reads all of `input`, then writes the answer to `output`. If an error occurs before the first write,
/// writes one line about the error to `stderr` and nothing to `output`. If a write to `output` fails, `output` can
/// contain a prefix of the answer, and the line is about the failed write.
///
/// Returns the exit status: the answer's status, 2 if an argument or option is wrong, 3 if an allocation failed, 1 for
/// any other error. A failed write to `stderr` does not change the exit status. Allocates. Blocks while reading and
/// writing.
pub fn run_tool<T: Tool, R: Read, W: Write, E: Write>(
    alloc: Global,
    tool: &T,
    input: &mut R,
    output: &mut W,
    stderr: &mut E,
) -> u8
    ensures { Ends (λ made. IfSome (R.remaining input.old) (λ bytes. OnInput (T.answers tool.now) bytes made))
        (W.contents output.old) (W.contents output.new) (E.contents stderr.old) (E.contents stderr.new) result }
{
    let made = answer_input(alloc, tool, input);
    deliver(made, output, stderr)
}
