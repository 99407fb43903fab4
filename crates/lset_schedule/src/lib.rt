//! Schedules: lists of events. An event starts a call of a thread, or is a step of the thread's pending call. This
//! crate reads and writes the text of schedules, and draws random schedules.
#![tactic(auto)]

mod body; // reads opening keys and event lines
mod content; // the type `Body`: header, opening keys and event lines
mod draws; // random calls, and `programs` of calls
mod gen_fault; // the errors of `generate` and `programs`
mod generator; // `generate`, which draws a random schedule
mod schedule_reading; // `read_schedule`, from text to schedule
mod schedule_writing; // `write_schedule`, from schedule to text
mod value; // the type `Schedule` and its lines

pub use body::{EventLine, read_text};
pub use content::Body;
pub use draws::programs;
pub use gen_fault::GenFault;
pub use generator::generate;
pub use lset_text::{LineFault as ScheduleFault, Version};
pub use schedule_reading::{read_schedule, schedules_read_back};
pub use schedule_writing::write_schedule;
pub use value::{Line, Schedule};

/// The first line of a schedule of version 1, with the calls `add`, `remove` and `contains`.
const TITLE_ONE: &str = "listset-schedule 1";

/// The first line of a schedule of version 2, which can also state opening keys (the keys of the set at the start) and
/// contain the call `ceiling`.
const TITLE_TWO: &str = "listset-schedule 2";

/// The number of the first line after the header of a schedule. Lines are numbered from 1.
pub const FIRST_LINE: u64 = 5;

/// The maximum number of events in a schedule. Each step of a `go` line counts as one event.
pub const MOST_EVENTS: u32 = 1_000_000;

/// The maximum number of steps in one `go` line.
pub const MOST_STEPS: u32 = 10_000;

/// The maximum number of events in a schedule that `generate` draws.
pub const MOST_GENERATED: u32 = 10_000;

/// The maximum number of turns that `generate` uses to draw a schedule. A turn draws at most one event.
pub const MOST_TURNS: u32 = 100_000;
