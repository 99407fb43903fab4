use std::alloc::Global;
use tool_base::{Answer, Trouble, explain_fault, read_fault_name};
use tool_explain::explain_text;

/// Returns the lines of `listset faults CAUSE` for the cause `cause`.
pub fn fault_by(alloc: Global, cause: &[u8]) -> Result<Answer, Trouble> {
    let name = read_fault_name(cause)?;
    explain_fault(alloc, name)
}

/// Explains `text`, the content of the file named `file`.
pub fn explain_by(alloc: Global, file: &[u8], text: &[u8]) -> Result<Answer, Trouble> {
    let file = String::from_utf8_lossy(alloc, file)?;
    explain_text(alloc, &file, text)
}
