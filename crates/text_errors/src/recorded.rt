//! Explains errors in the lines of a recording (a file of recorded calls for `judge`).

use crate::kinds::Place;
use crate::lined::{Lines, count_fields, field, field_or_empty, put_quoted};
use crate::reported::CallFields;
use crate::written::put_no_call;
use std::alloc::AllocError;

pub(crate) const HALF_PENDING: &str =
    "A pending call has '-' for END and for REPLY. This one has '-' for one of them only: write '-' for both, or the moment and the reply at the call's end.\n";

pub(crate) const OF_RECORDING: CallFields = CallFields {
    thread: 1,
    begin: 4,
    end: 5,
};

/// Returns `true` if exactly one of the fields END and REPLY of a call is `-`.
pub(crate) fn is_half_pending(line: &[u8]) -> bool {
    let (end, reply) = (field_or_empty(line, 5), field_or_empty(line, 6));
    (end == b"-".as_slice()) != (reply == b"-".as_slice())
}

/// Explains why a line cannot be at its place in a recording.
pub(crate) fn put_recording_form(
    out: &mut String,
    lines: &Lines<'_>,
    place: Place<'_>,
) -> Result<(), AllocError> {
    let ended = lines.last_before(place.number, |line| matches!(line, b"end" | b"cut"));
    if let Some(number) = ended {
        return writeln!(
            out,
            "The text ended with line {number}. Nothing comes after that line: remove this line and those below."
        );
    }
    match (field_or_empty(place.line, 0), count_fields(place.line)) {
        (b"call", 7) => put_call_words(out, place),
        (b"call", _) => out.push_str(
            "A call has seven fields: call THREAD CALL KEY BEGIN END REPLY, as in 'call 1 add 5 3 9 true'; a pending one has '-' for END and REPLY.\n",
        ),
        (b"opening", 2) => out.push_str(
            "Lines 'opening K' come before all calls: move the line up, below line 1.\n",
        ),
        _ => out.push_str(
            "Expected 'opening K', 'call THREAD CALL KEY BEGIN END REPLY', 'key K', in this order, then 'end'; or 'cut' instead of the 'key' lines and 'end'.\n",
        ),
    }
}

/// Explains why a line with the seven fields of a call is not a valid call of a recording.
fn put_call_words(out: &mut String, place: Place<'_>) -> Result<(), AllocError> {
    let (line, file) = (place.line, place.file);
    let reply = field_or_empty(line, 6);
    let is_unjudged = field(line, 2) == Some(b"ceiling".as_slice()) || reply == b"full".as_slice();
    if is_unjudged {
        return writeln!(
            out,
            "The judge takes no ceiling, and no add that returned full. Leave their lines out: grep -v -e ceiling -e full {file} | listset judge"
        );
    }
    if put_no_call(out, place, 2, "add, remove and contains")? {
        return Ok(());
    }
    if is_half_pending(line) {
        return out.push_str(HALF_PENDING);
    }
    if matches!(reply, b"true" | b"false" | b"-") {
        return out.push_str(
            "Lines of calls come before lines 'key K': move this line up. A key that the set has at the start is 'opening K', before all calls.\n",
        );
    }
    put_quoted(out, reply)?;
    out.push_str(" is no reply. A reply is true or false, in lower case.\n")
}
