use crate::lined::{count_fields, field_or_empty};

/// The kind of a text, determined by its first line.
#[derive(Clone, Copy, PartialEq, Eq)]
pub enum TextKind {
    Schedule,
    Draft,
    Report,
    Recording,
    Trace,
    Course,
    /// Lines `key K`: the keys that the set of `serve` has at the start.
    Keys,
    /// The first line is not the title of any listset format.
    Unknown,
}

impl TextKind {
    /// Returns the kind of a text whose first line is `first`.
    pub fn of(first: &[u8]) -> TextKind {
        match first {
            b"listset-schedule 1" | b"listset-schedule 2" => TextKind::Schedule,
            b"listset-draft 2" => TextKind::Draft,
            b"listset-report 1" | b"listset-report 2" => TextKind::Report,
            b"listset-calls 1" => TextKind::Recording,
            b"listset-trace 1" => TextKind::Trace,
            b"listset-course 1" => TextKind::Course,
            _ => match (field_or_empty(first, 0), count_fields(first)) {
                (b"key", _) | (b"listening" | b"sessions" | b"calls", 2) => TextKind::Keys,
                _ => TextKind::Unknown,
            },
        }
    }

    /// Returns the predicate of a sentence about a file of the kind `self`, such as `is a schedule`.
    pub fn predicate(self) -> &'static str {
        match self {
            TextKind::Schedule => "is a schedule",
            TextKind::Draft => "is a draft",
            TextKind::Report => "is a report",
            TextKind::Recording => "has recorded calls",
            TextKind::Trace => "is a trace",
            TextKind::Course => "is a course",
            TextKind::Keys => "has keys for serve",
            TextKind::Unknown => "is no text of listset",
        }
    }
}

/// Where the first error of a text is: the name and the kind of the file, and the line with the error.
#[derive(Clone, Copy)]
pub struct Place<'a> {
    /// The name of the file, as typed in commands.
    pub file: &'a str,
    pub kind: TextKind,
    /// The line number, counted from 1.
    pub number: usize,
    /// The line without its newline.
    pub line: &'a [u8],
}
