//! The common parts of all file formats: lines and fields, numbers, names, the four lines of a header, and the lines
//! that list the opening keys.
#![tactic(auto)]

mod causes; // the causes of errors in files
mod forms; // a lemma about reading all forms of lines
mod headers; // reads and writes the four header lines
mod numbers; // reads decimal numbers without leading zeros
mod openings; // writes the lines of the opening keys
mod text_parts; // splits a text at a byte
mod words; // names of lists and calls, and replies

pub use causes::{Cause, LineFault};
pub use forms::forms_read_back;
pub use headers::{Header, headers_read_back, number_of_line, put_header, read_header, version_of};
pub use numbers::{long_number, number, numbers_read_back};
pub use openings::{is_above, put_openings};
pub use text_parts::cut;
pub use words::{
    CallWord, ReplyWord, Version, call_word, is_reply, kind_word, read_call, read_kind, read_reply,
    reply_word, words_read_back,
};
