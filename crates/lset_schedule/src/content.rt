ghost use Rattle.std.specs.Prelude.{◌≤◌, length};
ghost use Rattle.std.specs.List.Sorted.{IsStrictlyIncreasing};
ghost use Rattle.lset_words.specs.declared.TheConstants.{MOST_OPENING};
ghost use Rattle.lset_text.specs.Headers.{IsHeader};

use crate::FIRST_LINE;
use lset_text::Header;

/// The content of a schedule or draft: its header, its opening keys (the keys at the start), and its event lines. There
/// are at most 1,048,576 opening keys, in strictly increasing order.
#[derive(Drop)]
pub struct Body<L> {
    pub header: Header,
    pub opening: Vec<u32>,
    pub lines: Vec<L>,
    /// The total number of events: the sum of `EventLine::count` over all lines.
    pub(crate) total: u32,
    ghost within: { IsHeader header },
    ghost increasing: { IsStrictlyIncreasing opening.items },
    ghost few: { length opening.items ≤ MOST_OPENING },
}

impl<L> Body<L> {
    /// Returns the line number of the first event line. Lines are numbered from 1.
    pub fn first_event_line(&self) -> u64 {
        FIRST_LINE + self.opening.len() as u64
    }
}
