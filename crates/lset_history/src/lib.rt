//! The sequential set, histories of calls, and the check of an order of calls. The crate also contains placement, the
//! order of a run's calls by their linearization points, and the theorem that a placement linearizes the history.
//! Nothing in the crate depends on the nodes, links, locks or marks of a list.
#![tactic(auto)]

mod changes;
mod checker;
mod fault;
mod history;
mod oracle;
mod placement;

pub use changes::Changes;
pub use checker::check_order;
pub use fault::{HistoryFault, OrderFault};
pub use history::History;
pub use lset_words::{CallRecord, Placed};
pub use oracle::Oracle;
pub use placement::{
    every_call_has_a_place, fits_are_replies, logs_tell_histories, placement_is_one_order,
    placement_linearizes,
};
