use crate::text_explained::explain_text;
use std::alloc::Global;
use std::io::{ErrorKind, Read};
use text_errors::quoted_name;
use tool_base::{Answer, LONGEST, READ_SIZE, Trouble};

/// Explains why the file named `file` could not be opened or read. Returns `Trouble::Memory` if an allocation fails.
pub fn explain_unopened(alloc: Global, file: &str, kind: ErrorKind) -> Result<Answer, Trouble> {
    let quoted = quoted_name(alloc, file)?;
    let name = quoted.as_str();
    let (why, name) = match kind {
        ErrorKind::NotFound => (
            "there is no such file. Look at its name, and at the folder that you are in: ls",
            "",
        ),
        ErrorKind::PermissionDenied => (
            "you have no right to read this file (of a file of yours: chmod u+r) or to enter its folder. To see whose they are: namei -l ",
            name,
        ),
        ErrorKind::IsADirectory => (
            "this is a folder. Name a file in it. To see its files: ls ",
            name,
        ),
        ErrorKind::NotADirectory => (
            "a part of this path is a file, and no folder. To see which: namei ",
            name,
        ),
        _ => (
            "the system did not read this file. To see what it is: ls -l ",
            name,
        ),
    };
    let text = format!(in alloc; "{file}: {why}{name}\n")?;
    Ok(Answer {
        text: text.into_bytes(),
        status: 0,
    })
}

/// Reads an input and explains its text as `explain_text` does, or explains why the input cannot be read. Stops reading
/// soon after `LONGEST` bytes. Allocates. Blocks while reading. Returns `Trouble::Memory` if an allocation fails.
pub fn explain_input<R: Read>(alloc: Global, file: &str, input: &mut R) -> Result<Answer, Trouble> {
    let mut text = Vec::new(alloc);
    let mut buffer = [0u8; READ_SIZE];
    for _ in 0..u64::MAX {
        if text.len() > LONGEST {
            break;
        }
        let count = match input.read(&mut buffer) {
            Ok(count) => count,
            Err(error) => return explain_unopened(alloc, file, error.kind()),
        };
        if count == 0 {
            return explain_text(alloc, file, &text);
        }
        text.extend_from_slice(&buffer[..count])?;
    }
    explain_text(alloc, file, &text)
}
