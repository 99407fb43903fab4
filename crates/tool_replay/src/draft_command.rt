use crate::draft_text::read_draft;
use crate::expanding::schedule_of;
use lset_schedule::write_schedule;
use std::alloc::Global;
use tool_base::{Answer, Input, Tool, Trouble};

/// The command `draft`, which turns a draft (a schedule that can state where a thread stops) into a schedule. The
/// answer is the text of the schedule, with exit status 0. The command fails with `Line` at the first line that is
/// wrong or cannot be expanded, and with `Memory` if an allocation fails.
#[derive(Clone, Copy)]
pub struct Expand {}

impl Tool for Expand {
    fn answer(&self, alloc: Global, input: Input<'_>) -> Result<Answer, Trouble> {
        let draft = read_draft(alloc, input.bytes())?;
        let schedule = schedule_of(alloc, &draft)?;
        let text = write_schedule(alloc, &schedule)?;
        Ok(Answer { text, status: 0 })
    }
}
