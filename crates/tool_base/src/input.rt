ghost use Rattle.std.specs.Prelude.{◌≡◌, ◌⊎◌, ℕ, List, ◌++◌, ◌≤◌, length, IfOk, IfErr, IfSome, IsTrue, MatchResult};
ghost use Rattle.std.specs.Io.KnownBytes.{Appends};
ghost use Rattle.tool_base.specs.Tools.{IsReadOf, IsTooLong};
ghost use Rattle.tool_base.specs.declared.trouble.Trouble.TheVariants.{CannotRead, Memory};
ghost use Rattle.tool_base.specs.declared.input.TheConstants.{LONGEST};

use crate::trouble::Trouble;
use std::alloc::Global;
use std::io::{Read, Write};

/// The maximum size of an input, in bytes.
pub const LONGEST: usize = 67_108_864;

/// The maximum size of one read, in bytes.
pub const READ_SIZE: usize = 4096;

/// The bytes of an input. There are at most `LONGEST` bytes.
#[derive(Clone, Copy)]
pub struct Input<'a> {
    bytes: &'a [u8],
    ghost short: { length bytes.now ≤ LONGEST },
}

impl<'a> Input<'a> {
    /// Wraps the bytes of an input. Returns the error `TooLong` if there are more than `LONGEST` bytes.
    pub fn new(bytes: &'a [u8]) -> Result<Input<'a>, Trouble>
        ensures { MatchResult result (λ input. input.bytes.now ≡ bytes.entry.now) (IsTooLong bytes.entry.now) }
    {
        if bytes.len() > LONGEST {
            return Err(Trouble::TooLong);
        }
        Ok(Input { bytes })
    }

    /// Returns the bytes of the input.
    pub fn bytes(self) -> &'a [u8]
        ensures value { result.now ≡ self.entry.bytes.now }
        ensures short { length result.now ≤ LONGEST }
    {
        self.bytes
    }
}

/// Reads an input to its end. If the input is longer than `LONGEST` bytes, stops reading soon after `LONGEST` bytes.
/// Allocates. Blocks while reading.
///
/// # Errors
///
/// Returns `CannotRead` if a read fails; the read is not retried. Returns `Memory` if an allocation fails.
pub fn read_all<R: Read>(alloc: Global, input: &mut R) -> Result<Vec<u8>, Trouble>
    ensures read { IfOk result (λ v. IfSome (R.remaining input.old) (IsReadOf v.items)) }
    ensures trouble { IfErr result (λ t. (t ≡ CannotRead) ⊎ (t ≡ Memory)) }
{
    let mut bytes = Vec::new(alloc);
    let mut buffer = [0u8; READ_SIZE];
    while bytes.len() <= LONGEST {
        let count = match input.read(&mut buffer) {
            Ok(count) => count,
            Err(_) => return Err(Trouble::CannotRead),
        };
        if count == 0 {
            return Ok(bytes);
        }
        bytes.extend_from_slice(&buffer[..count])?;
    }
    Ok(bytes)
}

/// Writes a text. Returns `true` if the whole text was written. If a write fails or writes no byte, stops without a
/// retry; a prefix of the text can already have been written.
pub fn put<W: Write>(output: &mut W, text: &[u8]) -> bool
    ensures front { (done rest : List ℕ) × (text.now ≡ done ++ rest)
        × Appends (W.contents output.old) (W.contents output.new) done }
    ensures whole { IsTrue result → Appends (W.contents output.old) (W.contents output.new) text.now }
{
    let mut rest = text;
    while !rest.is_empty() {
        let count = match output.write(rest) {
            Ok(count) => count,
            Err(_) => return false,
        };
        if count == 0 {
            return false;
        }
        rest = &rest[count..];
    }
    true
}
