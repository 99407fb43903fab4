ghost use Rattle.std.specs.List.Sorted.{IsStrictlyIncreasing};

use crate::recording_lines::Section;
use lset_judge::{Judge, StreamCall};
use std::alloc::Global;

/// The state of a reader after some lines of a recording.
#[derive(Drop)]
pub(crate) struct Judging {
    pub(crate) alloc: Global,
    pub(crate) section: Section,
    pub(crate) opening: Vec<u32>,
    // The judge of the calls, or `None` before the first call.
    pub(crate) judge: Option<Judge>,
    pub(crate) calls: u64,
    // The calls that the next `take_calls` returns, or `None` if `take_calls` has never been called.
    pub(crate) untaken: Option<Vec<StreamCall>>,
    pub(crate) keys: Vec<u32>,
    pub(crate) cut_off: bool,
    // The number of the next line.
    pub(crate) number: u64,
    ghost opens: { IsStrictlyIncreasing opening.items },
    ghost left: { IsStrictlyIncreasing keys.items },
}
