use lset_history::History;
use lset_text::Version;
use lset_words::{Kind, Placed};

/// The maximum number of calls in a report that can be written as text.
pub const MOST_CALLS: usize = 1_000_000;

/// The maximum length of the order in a report that can be written as text.
pub const MOST_PLACES: usize = 1_000_000;

/// The maximum number of final keys in a report of version 1. In version 1, every set opens empty.
pub const MOST_KEYS: usize = 1_048_576;

/// The maximum number of final keys in a report of version 2. (In version 2, a set can open with up to 1,048,576 keys.)
pub const MOST_KEYS_OPENED: usize = 2_097_152;

/// A report of a run: the version of its format, the kind of list, the history with its threads, quota (successful adds
/// per thread) and opening keys (the keys at the start), an order of the calls, and the final keys.
///
/// In a report from `replay`, the order is a linearization that leaves the final keys, and the final keys are in
/// strictly increasing order. In a report from `read_report`, the order and the keys are arbitrary. A report of version
/// 1 has a text only if it has no opening keys, no call of `ceiling`, and no reply of a `ceiling` (`at-5` or
/// `nothing`).
#[derive(Debug, Drop)]
pub struct Report {
    pub version: Version,
    pub kind: Kind,
    pub history: History,
    pub order: Vec<Placed>,
    pub keys: Vec<u32>,
}
