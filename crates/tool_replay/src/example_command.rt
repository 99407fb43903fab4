use crate::examples::{Example, all, named};
use lset_text::kind_word;
use std::alloc::{AllocError, Global};
use tool_base::{Answer, Trouble, ValueName};

/// What the command `example` should print.
#[derive(Clone, Copy)]
pub enum ExampleRequest {
    /// The names of all examples.
    Names,
    /// The text of a schedule, or of the report of a broken list (a list without one of its checks).
    Text(&'static str),
}

/// Reads the arguments of the command `example`. Without a name, the command prints all names. With a name, it prints
/// the example's schedule. With a name and `broken`, it prints the report of a broken list (a list without one of its
/// checks). Returns the error `Name` if no example has the name, and `Unbroken` if the example has no report of a
/// broken list.
pub fn read_example_request(
    name: Option<&[u8]>,
    broken: bool,
) -> Result<ExampleRequest, ValueName> {
    let Some(name) = name else {
        return Ok(ExampleRequest::Names);
    };
    let example = named(name).ok_or(ValueName::Name)?;
    if !broken {
        return Ok(ExampleRequest::Text(example.schedule));
    }
    let report = example.broken_report.ok_or(ValueName::Unbroken)?;
    Ok(ExampleRequest::Text(report))
}

/// Appends the line of an example: its name, its list, and a summary of the run.
fn put_example(out: &mut String, example: &Example) -> Result<(), AllocError> {
    let name = example.name;
    let list = kind_word(example.kind);
    let about = example.about;
    writeln!(out, "{name:<26}{list:<12}{about}")
}

/// Returns one line for each example.
fn write_names(alloc: Global) -> Result<Vec<u8>, AllocError> {
    let mut out = String::new(alloc);
    for example in all() {
        put_example(&mut out, example)?;
    }
    Ok(out.into_bytes())
}

/// Returns the text that `example` prints, with exit status 0. Returns `Memory` if an allocation fails.
pub fn print_example(alloc: Global, request: ExampleRequest) -> Result<Answer, Trouble> {
    let text = match request {
        ExampleRequest::Names => write_names(alloc)?,
        ExampleRequest::Text(text) => Vec::from_slice(alloc, text.as_bytes())?,
    };
    Ok(Answer { text, status: 0 })
}
