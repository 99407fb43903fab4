//! Reads recordings of the calls to a set: texts that begin with `listset-calls 1`. A reader judges the calls line by
//! line. It stores the keys, the pending calls, and at most one completed call on each key. Its memory grows with the
//! numbers of keys, threads, and pending calls, but not with the number of completed calls. (The format is this
//! project's own.)
#![tactic(auto)]

mod kept;
mod quick;
mod reader;
mod recording_judge;
mod recording_lines;

pub use reader::{RecordingReader, recordings_are_read};
pub use recording_judge::RecordingAnswer;
pub use recording_lines::{LONGEST_LINE, Line, Section, line_told};
