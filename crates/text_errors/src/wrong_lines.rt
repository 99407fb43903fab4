//! Explains errors in the lines of a report, of a recording, or of opening keys for `serve` (the keys that the served
//! set has at the start).

use crate::kinds::{Place, TextKind};
use crate::lined::Lines;
use crate::recorded::{HALF_PENDING, OF_RECORDING, is_half_pending, put_recording_form};
use crate::reported::{put_moments, put_report_history};
use crate::written::put_number;
use lset_text::Cause;
use std::alloc::AllocError;

const LINES_OF_REPORT: &str =
    "Expected 'call ID THREAD CALL KEY BEGIN END REPLY' (or 'open' for END and REPLY), then 'place ID REPLY', then 'key K', then 'end'. A report of listset replay has these lines in this order.\n";

const MOST_OF_REPORT: &str =
    "A report has at most 1000000 calls, 1000000 places, and 1048576 keys (2097152 in version 2).\n";

/// Explains the error in a line after the header of a report, in a line after the title of a recording, or in a line of
/// opening keys for `serve` (the keys that the served set has at the start).
pub fn put_wrong_line(
    out: &mut String,
    lines: &Lines<'_>,
    place: Place<'_>,
    cause: Cause,
) -> Result<(), AllocError> {
    let is_recording = place.kind == TextKind::Recording;
    match (place.kind, cause) {
        (_, Cause::Number) if is_recording && is_half_pending(place.line) => {
            out.push_str(HALF_PENDING)
        }
        (_, Cause::Number) => put_number(out, place),
        (TextKind::Report, Cause::Line) => out.push_str(LINES_OF_REPORT),
        (TextKind::Report, Cause::TooMany) => out.push_str(MOST_OF_REPORT),
        (TextKind::Report, _) => put_report_history(out, lines, place),
        (TextKind::Recording, Cause::Line) => put_recording_form(out, lines, place),
        (TextKind::Recording, _) => put_moments(out, lines, place, OF_RECORDING),
        (_, Cause::TooMany) => out.push_str("A set opens with at most 1048576 keys.\n"),
        _ => out.push_str("Each line must be 'key K', as in 'key 5'.\n"),
    }
}
