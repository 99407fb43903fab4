ghost use Rattle.std.specs.Prelude.{ℕ, ◌<◌, ◌≤◌, ◌^◌, length, All};
ghost use Rattle.lset_history.specs.Changes.{moments_of};

use crate::places::{Linearized, OpenCall};
use lset_history::{Changes, History};

/// The calls of a run up to the last event: the history, the pending call of each thread, the linearization point of
/// each call (`None` while the point is unknown), and when each key was added or removed.
#[derive(Drop)]
pub(crate) struct Recorder {
    pub history: History,
    pub under_way: Vec<Option<OpenCall>>,
    pub places: Vec<Option<Linearized>>,
    pub changes: Changes,
    /// The number of the last event, counted from 1, or 0 before the first event.
    pub last: u32,
    ghost past: { (k : ℕ) → All (λ m. m ≤ last) (moments_of changes k) },
    ghost few: { (length places.items ≤ last) × (last < 2 ^ 32) },
}
