//! Draws histories as text or SVG.
//!
//! A picture has a bar for each call, a sign at the call's linearization point, the set over time, and the order. If
//! the order is rejected, the picture states the reason. If an event in a schedule is not enabled, the picture names
//! the event.
#![tactic(auto)]

mod beginning; // the moment at which a picture starts
mod columns; // a column for each drawn moment
mod drawn_clashes; // calls that contradict a rejected order
mod drawn_moments; // moments when a call starts, takes effect or ends
mod drawn_sets; // the sets below the rows
mod orders; // the lines above and below the rows
mod picture; // the content of a picture
mod pictured_report; // the picture of a report
mod refusal; // the reasons to reject an order
mod refusals; // the reason to reject an order, as text
mod refusing; // finds the reason to reject an order
mod sheet; // SVG elements and their positions
mod style; // the style sheet of an SVG
mod svg; // a picture as an SVG
mod text; // a picture as text

pub use drawn_moments::is_past_the_last;
pub use picture::{Picture, Window};
pub use pictured_report::picture_of_report;
pub use refusal::Refusal;
pub use svg::write_svg;
pub use text::write_picture;

/// The maximum number of columns in a picture.
const MOST_COLUMNS: usize = 64;

/// The maximum number of keys that are printed for a set. The number of omitted keys is printed after them.
const MOST_KEYS_SHOWN: usize = 8;

/// The maximum width of a column, in characters. No text in a column of a linearizable history is longer.
const MOST_WIDTH: usize = 255;
