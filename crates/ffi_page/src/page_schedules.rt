ghost use Rattle.tool_replay.specs.GenAnswers.{Generates};
ghost use Rattle.tool_base.specs.Tools.{view};
ghost use Rattle.ffi_page.specs.Page.{OfWords};

use crate::page_arguments::words_in;
use std::alloc::Global;
use tool_base::{Answer, Trouble};
use tool_replay::generate_for;

/// Returns the schedule that `gen` generates for the arguments in `bytes`. Zero bytes separate the arguments.
pub fn generate_by(alloc: Global, bytes: &[u8]) -> Result<Answer, Trouble>
    ensures { OfWords Generates bytes.now (view result) }
{
    let values = words_in(alloc, bytes)?;
    generate_for(alloc, &values)
}
