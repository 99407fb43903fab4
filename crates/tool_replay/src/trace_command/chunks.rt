//! A buffer of fixed size for the text of a trace. The buffer is emptied before it is too full for the next line, so a
//! line is appended to the buffer without an allocation.
use arrayvec::ArrayString;
use itoa::Buffer;

/// The capacity of a `Chunk`, in bytes.
const ROOM: usize = 16_384;

/// An upper bound, in bytes, for the line of an event, and for one key in a line that lists the nodes.
const MOST_OF_LINE: usize = 1_024;

/// The part of a trace that has not been written to its destination yet.
pub(crate) type Chunk = ArrayString<ROOM>;

/// Returns `true` if the next line might not fit into the buffer.
pub(crate) fn is_full(chunk: &Chunk) -> bool {
    ROOM - MOST_OF_LINE < chunk.as_str().len()
}

pub fn put(chunk: &mut Chunk, text: &str) {
    let _whole = chunk.try_push_str(text);
}

pub(crate) fn put_number(chunk: &mut Chunk, number: u64) {
    let mut digits = Buffer::new();
    put(chunk, digits.format(number));
}
