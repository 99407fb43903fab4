use lset_schedule::{Body, Line};

/// The largest number of a row (a step in a list's step table) that a line of a draft can name. A draft is a schedule
/// that can state where a thread stops.
pub const MOST_ROW: u32 = 255;

/// A line of a draft (a schedule that can state where a thread stops). `Plain` is a line of a schedule. `Out(thread)`
/// steps a thread until its call has ended. `To(thread, row)` steps a thread until it is at row `row` (1 to 255) of its
/// list's step table. `Out` and `To` take at least one step.
#[derive(Clone, Copy)]
pub enum DraftLine {
    Plain(Line),
    Out(u32),
    To(u32, u32),
}

/// A draft of a schedule. The draft has at most 1,000,000 events if each `Out` or `To` line is counted as one event.
pub type Draft = Body<DraftLine>;
