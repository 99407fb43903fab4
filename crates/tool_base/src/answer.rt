//! The result of a command (text and exit status), and the error line on stderr.

ghost use Rattle.std.specs.Prelude.{◌≡◌, ◌+◌, ◌<◌, ◌++◌, codes, length, Result};
ghost use Rattle.tool_base.specs.Tools.{Delivers, IsDelivered, view};
ghost use Rattle.tool_base.specs.Trouble.{trouble_text};
ghost use Rattle.tool_base.specs.declared.answer.TheConstants.{LONGEST_LINE};

use crate::input::put;
use crate::trouble::Trouble;
use arrayvec::ArrayString;
use itoa::Buffer;
use std::io::Write;

/// The maximum length, in bytes, of the line that the program prints on stderr for an error. Includes the newline.
pub(crate) const LONGEST_LINE: usize = 64;

/// The result of a command: the text for the output, and the exit status if the text is written completely.
#[derive(Drop)]
pub struct Answer {
    pub text: Vec<u8>,
    pub status: u8,
}

impl Answer {
    /// Writes the answer's text to `output` and returns the answer's exit status. Returns the error `CannotWrite` if a
    /// write fails.
    fn write<W: Write>(&self, output: &mut W) -> Result<u8, Trouble>
        ensures { Delivers (view (Result.Ok self.now)) (W.contents output.old) (W.contents output.new) result }
    {
        if put(output, &self.text) {
            Ok(self.status)
        } else {
            Err(Trouble::CannotWrite)
        }
    }
}

/// Concatenates four strings and a newline. The result has at most `LONGEST_LINE` bytes.
fn line_with(front: &str, number: &str, sign: &str, name: &str) -> ArrayString<LONGEST_LINE>
    requires { length front.now + length number.now + length sign.now + length name.now < LONGEST_LINE }
    ensures { result.bytes ≡ front.now ++ number.now ++ sign.now ++ name.now ++ codes "\n" }
{
    let mut line = ArrayString::new();
    line.push_str(front);
    line.push_str(number);
    line.push_str(sign);
    line.push_str(name);
    line.push_str("\n");
    line
}

/// Returns the line that the program prints on stderr for an error: `listset: `, the message, and a newline.
pub fn line_of(trouble: Trouble) -> ArrayString<LONGEST_LINE>
    ensures { result.bytes ≡ trouble_text trouble }
{
    let mut buffer = Buffer::new();
    match trouble {
        Trouble::CannotRead => line_with("listset: cannot read", "", "", ""),
        Trouble::TooLong => line_with("listset: too long", "", "", ""),
        Trouble::CannotWrite => line_with("listset: cannot write", "", "", ""),
        Trouble::CannotListen => line_with("listset: cannot listen", "", "", ""),
        Trouble::Memory => line_with("listset: out of memory", "", "", ""),
        Trouble::Line(line, cause) => {
            line_with("listset: line ", buffer.format(line), ": ", cause.name())
        }
        Trouble::Bad(name) => line_with("listset: bad ", "", "", name.word()),
        Trouble::Work(cause) => line_with("listset: work: ", "", "", cause.name()),
        Trouble::Serve(cause) => line_with("listset: serve: ", "", "", cause.name()),
    }
}

/// Finishes a command: writes the answer's text to `output`, or the one-line error message to `stderr`. Returns the
/// exit status.
///
/// A failed write to `output`, or a write of no bytes, is not retried; its error is `CannotWrite`. A failed write to
/// `stderr` is not retried either, and does not change the exit status.
pub fn deliver<W: Write, E: Write>(
    made: Result<Answer, Trouble>,
    output: &mut W,
    stderr: &mut E,
) -> u8
    ensures { IsDelivered (view made)
        (W.contents output.old) (W.contents output.new) (E.contents stderr.old) (E.contents stderr.new) result }
{
    let written = match made {
        Ok(answer) => answer.write(output),
        Err(trouble) => Err(trouble),
    };
    match written {
        Ok(status) => status,
        Err(trouble) => {
            let _whole = put(stderr, line_of(trouble).as_bytes());
            trouble.status()
        }
    }
}
