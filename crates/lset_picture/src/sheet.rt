//! Writes SVG elements, one per line, and computes their positions in pixels.
use crate::columns::Column;
use std::alloc::AllocError;

/// The CSS classes for the threads' colors. Up to eight threads have different colors; after that, the colors repeat.
const THREADS: [&str; 8] = [
    "thread-0", "thread-1", "thread-2", "thread-3", "thread-4", "thread-5", "thread-6", "thread-7",
];

/// Returns the CSS class for a thread's elements.
pub(crate) fn thread_class(thread: u32) -> &'static str {
    THREADS[(thread % 8) as usize]
}

/// A position on the sheet, in pixels from the left and from the top.
#[derive(Clone, Copy)]
pub(crate) struct Spot {
    pub x: u64,
    pub y: u64,
}

/// Returns the x position, in pixels, of a moment (a position in the history): the left margin plus the total width of
/// the columns before the moment.
pub(crate) fn x_of(columns: &[Column], moment: u64) -> u64 {
    let mut x = 88u64;
    for column in columns {
        if u64::from(column.moment) < moment {
            x = x.saturating_add(9 * column.width.min(255) as u64);
        }
    }
    x
}

/// Returns the x position, in pixels, of the right edge of the last column.
pub(crate) fn right_edge(columns: &[Column]) -> u64 {
    x_of(columns, 4_294_967_296)
}

/// Returns the y position, in pixels, of a thread's row. `lane_y(threads)` is the y position of the row of the set.
pub(crate) fn lane_y(thread: u32) -> u64 {
    40 * u64::from(thread) + 90
}

/// Returns the y position, in pixels, of line `number` in the text below the rows, counted from 0.
pub(crate) fn line_y(threads: u32, number: usize) -> u64 {
    40 * u64::from(threads) + 126 + 16 * number.min(1_000_000) as u64
}

/// Appends a text element that starts at `start` and has the CSS class `class`. `clash` is empty, or the text ` clash`
/// for a call that contradicts the order.
pub(crate) fn put_text(
    out: &mut String,
    class: &str,
    clash: &str,
    start: Spot,
    text: &str,
) -> Result<(), AllocError> {
    let Spot { x, y } = start;
    writeln!(
        out,
        "<text class=\"{class}{clash}\" xml:space=\"preserve\" x=\"{x}\" y=\"{y}\">{text}</text>"
    )
}

/// Appends a text element in the default color.
pub(crate) fn put_plain(out: &mut String, x: u64, y: u64, text: &str) -> Result<(), AllocError> {
    put_text(out, "plain", "", Spot { x, y }, text)
}

/// Appends a line element of the given CSS class from `start` to `end`.
pub(crate) fn put_line(
    out: &mut String,
    class: &str,
    start: Spot,
    end: Spot,
) -> Result<(), AllocError> {
    let Spot { x, y } = start;
    let Spot { x: x2, y: y2 } = end;
    writeln!(
        out,
        "<line class=\"{class}\" x1=\"{x}\" y1=\"{y}\" x2=\"{x2}\" y2=\"{y2}\"/>"
    )
}

/// Appends a circle element with the given CSS classes and with its center at `centre`.
pub(crate) fn put_circle(
    out: &mut String,
    kind: &str,
    class: &str,
    centre: Spot,
) -> Result<(), AllocError> {
    let Spot { x, y } = centre;
    writeln!(
        out,
        "<circle class=\"{kind} {class}\" cx=\"{x}\" cy=\"{y}\" r=\"5\"/>"
    )
}
