//! For the command `explain`: explains the error in a line of an input file, and how to correct the line. Errors in the
//! events of a schedule are explained in `tool_explain`, because these explanations require a replay of the lines
//! before the error.
#![tactic(auto)]

mod keyed; // errors in opening keys for serve
mod kinds; // kinds of texts
mod lined; // a text as lines and fields
mod recorded; // errors in recorded calls
mod reported; // errors in reports
mod spoiled; // errors that any text can have
mod written; // misspelled words and wrong numbers
mod wrong_lines; // chooses the explanation for a line

pub use keyed::wrong_key;
pub use kinds::{Place, TextKind};
pub use lined::{
    Lines, count_fields, field, field_or_empty, number_at, put_quoted, put_visible, quoted_name,
};
pub use spoiled::{put_encoding, put_no_title, put_not_ended, put_spoiled};
pub use written::{put_header, put_no_call, put_number, put_opening};
pub use wrong_lines::put_wrong_line;
