//! Replays schedules event by event and reports the runs. A report contains the history of the calls, an order that
//! explains the history, and the final keys.
//!
//! One loop, `follow`, executes the events of a schedule, and a `Recorder` collects the calls. For lists, the loop and
//! the recorder are proved: `replay` returns the report of the run. `calls_of` returns the calls for a picture, and
//! `TracedRun` reports the effect of each event. `calls_of` and `TracedRun` also work on broken lists (lists with one
//! check removed); they are tested, not proved.
#![tactic(auto)]

mod events; // an event with its line number
mod fault; // the reason why a replay fails
mod fits; // the first moment when a reply is correct
mod order; // the calls, sorted by linearization point
mod places; // a pending call and its linearization point
mod recorder; // the state of a `Recorder`
mod recording; // how a `Recorder` records an event
mod replaying; // `replay`, and the loop over the events
mod run_calls; // `calls_of`, the calls for a picture
mod start; // the state of a list before the first event
mod steps; // `Steps`, for lists and broken lists
mod traced; // an event as a trace shows it
mod tracing; // `TracedRun`, a run event by event

pub use events::{LineEvent, event_of};
pub use fault::ReplayFault;
pub use replaying::replay;
pub use run_calls::{RunCalls, calls_of};
pub use start::world_of;
pub use steps::Steps;
pub use traced::{CallEnd, Deed, TracedEvent};
pub use tracing::TracedRun;
