//! The picture that explains why a recording of a concurrent set is not linearizable: calls on one key that contradict
//! each other, drawn as bars of text, with the changes of other keys at the same time. One call can be marked as
//! suspected: it probably caused the contradiction.
#![tactic(auto)]

mod bars;
mod choosing;
mod counted;
mod diagnosis;
mod guilty;
mod showing;

pub use bars::put_picture;
pub use counted::count_in;
pub use diagnosis::{Diagnosis, Mark, Shown, few_of, undrawn};
