//! Writes a picture as text: a row for each thread with a bar for each call and signs at the linearization points, the
//! set below the rows, and the order. (`put_signs` in `columns.rt` writes the bars and signs.)
use crate::MOST_COLUMNS;
use crate::columns::{Column, Drawing, Mark, Sign, drawing_in, end_at_last, put_signs};
use crate::orders::{put_cut, put_heading, put_lines_below};
use crate::picture::{Picture, Window};
use crate::refusals::put_refusal;
use lset_words::CallRecord;
use std::alloc::{AllocError, Global};

/// The width of a row's label, in characters.
const LABEL: usize = 10;

const LEGEND: &str = "* changes the set    o changes nothing, its reply fits there    > pending";

const LEGEND_OF_CUT: &str =
    "* changes the set    o changes nothing, its reply fits there    > ends later    < began earlier";

/// Returns whether the bar of a thread (the dashes for its pending call) continues after the signs in `marks`. `before`
/// is true if a bar was drawn up to the signs.
fn goes_on(marks: &[Mark], thread: u32, before: bool) -> bool {
    let mut drawn = before;
    for mark in marks {
        if mark.thread == thread {
            drawn = match mark.sign {
                Sign::Begin(_) => true,
                Sign::Change | Sign::Fit => drawn,
                Sign::End(_) => false,
            };
        }
    }
    drawn
}

/// Appends `with` to a row until the row has `width` characters. The row starts at byte `start` of the string.
fn fill(row: &mut String, start: usize, width: usize, with: char) -> Result<(), AllocError> {
    for _done in row.len().saturating_sub(start)..width {
        row.push(with)?;
    }
    Ok(())
}

/// Appends the part of a thread's row that is in the column `column`. Returns whether the bar (the dashes for a pending
/// call) continues past the column; `before` is true if a bar was drawn up to the column.
fn put_cell(
    row: &mut String,
    column: &Column,
    thread: u32,
    is_first: bool,
    before: bool,
) -> Result<bool, AllocError> {
    let start = row.len();
    put_signs(row, &column.marks, thread)?;
    if is_first && before && row.len() == start {
        row.push_str("<")?;
    }
    let drawn = goes_on(&column.marks, thread, before);
    fill(row, start, column.width, if drawn { '-' } else { ' ' })?;
    Ok(drawn)
}

/// Returns whether the thread had a pending call just before a moment (a position in the history).
fn is_spanned(calls: &[CallRecord], thread: u32, moment: u32) -> bool {
    for made in calls {
        if made.thread == thread
            && made.begun < moment
            && !matches!(made.ended, Some((end, _)) if end < moment)
        {
            return true;
        }
    }
    false
}

/// Appends a row without its trailing white space.
fn put_row(out: &mut String, row: &str) -> Result<(), AllocError> {
    out.push_str(row.trim_end())?;
    out.push_str("\n")
}

fn put_lane(
    alloc: Global,
    out: &mut String,
    picture: &Picture,
    drawing: &Drawing,
    thread: u32,
) -> Result<(), AllocError> {
    let mut drawn = is_spanned(picture.history.calls(), thread, drawing.from);
    let mut row = format!(in alloc; "thread {thread}")?;
    fill(&mut row, 0, LABEL, ' ')?;
    let mut is_first = true;
    for column in &drawing.columns {
        drawn = put_cell(&mut row, column, thread, is_first, drawn)?;
        is_first = false;
    }
    if drawn {
        row.push_str(">")?;
    }
    put_row(out, &row)
}

fn put_moments(alloc: Global, out: &mut String, columns: &[Column]) -> Result<(), AllocError> {
    let mut row = String::from_str(alloc, "moment    ")?;
    for column in columns {
        let start = row.len();
        let moment = column.moment;
        write!(&mut row, "{moment}")?;
        fill(&mut row, start, column.width, ' ')?;
    }
    put_row(out, &row)
}

fn put_sets(alloc: Global, out: &mut String, columns: &[Column]) -> Result<(), AllocError> {
    let mut row = String::from_str(alloc, "set       ")?;
    for column in columns {
        let start = row.len();
        row.push_str(&column.set)?;
        fill(&mut row, start, column.width, ' ')?;
    }
    put_row(out, &row)
}

/// Writes the rows of moments and of threads and, if the linearization points are known, the row of sets.
fn put_rows(
    alloc: Global,
    out: &mut String,
    picture: &Picture,
    drawing: &Drawing,
) -> Result<(), AllocError> {
    put_moments(alloc, out, &drawing.columns)?;
    for thread in 0..picture.history.threads() {
        put_lane(alloc, out, picture, drawing, thread)?;
    }
    if drawing.known {
        put_sets(alloc, out, &drawing.columns)?;
    }
    Ok(())
}

fn has_longer(rows: &str, width: u32) -> bool {
    for row in rows.lines() {
        if row.len() > width as usize {
            return true;
        }
    }
    false
}

/// Returns whether all rows of a drawing are at most `width` characters long.
fn fits(
    alloc: Global,
    picture: &Picture,
    drawing: &Drawing,
    width: u32,
) -> Result<bool, AllocError> {
    let mut rows = String::new(alloc);
    // The row of moments is nearly always the longest row, and it is cheap to write. Therefore it is tested first.
    put_moments(alloc, &mut rows, &drawing.columns)?;
    if has_longer(&rows, width) {
        return Ok(false);
    }
    put_rows(alloc, &mut rows, picture, drawing)?;
    Ok(!has_longer(&rows, width))
}

/// Drops columns from the end of a drawing until its rows fit into `width` characters. Keeps at least one column.
fn fit(
    alloc: Global,
    picture: &Picture,
    drawing: &mut Drawing,
    width: u32,
) -> Result<(), AllocError> {
    for _taken in 0..MOST_COLUMNS {
        if drawing.columns.len() <= 1 || fits(alloc, picture, drawing, width)? {
            break;
        }
        drawing.columns.pop();
    }
    end_at_last(picture, drawing);
    Ok(())
}

/// Computes the columns for the moments (positions in the history) in `window` that fit into `width` characters. If
/// `window` includes all moments, some do not fit, and the order is rejected, the columns start at the call that caused
/// the rejection.
fn fitted(
    alloc: Global,
    picture: &Picture,
    window: Window,
    width: u32,
) -> Result<Drawing, AllocError> {
    let mut drawing = drawing_in(alloc, picture, window)?;
    fit(alloc, picture, &mut drawing, width)?;
    if let Some(window) = drawing.window_of_clash(picture, window) {
        drawing = drawing_in(alloc, picture, window)?;
        fit(alloc, picture, &mut drawing, width)?;
    }
    Ok(drawing)
}

/// Writes the rows. If some moments (positions in the history) are not drawn, the range of drawn moments is written
/// above the rows. Writes nothing for a history without calls.
fn put_drawn_rows(
    alloc: Global,
    out: &mut String,
    picture: &Picture,
    drawing: &Drawing,
) -> Result<(), AllocError> {
    if picture.history.calls().is_empty() {
        return Ok(());
    }
    if drawing.is_cut() {
        put_cut(out, picture, drawing)?;
        out.push_str("\n")?;
    }
    put_rows(alloc, out, picture, drawing)?;
    out.push_str("\n")
}

/// Draws a picture as text: a row for each thread with its calls and their linearization points, the set, and the
/// order.
///
/// The picture has the moments from `window.from` to `window.to` when a call starts, takes effect or ends. A moment is
/// a position in the history, counted from 1. At most the first 64 such moments are drawn. Only as many moments are
/// drawn as fit into rows of `width` characters, but at least one. If `window` includes all moments but they do not all
/// fit, the drawing of a rejected order starts at the call that caused the rejection. Returns `AllocError` if an
/// allocation fails. Pictures with bars and points are due to Herlihy and Wing.
pub fn write_picture(
    alloc: Global,
    picture: &Picture,
    window: Window,
    width: u32,
) -> Result<Vec<u8>, AllocError> {
    let drawing = fitted(alloc, picture, window, width)?;
    let mut out = String::new(alloc);
    put_heading(&mut out, picture)?;
    out.push_str("\n")?;
    put_refusal(&mut out, picture)?;
    out.push_str("\n")?;
    put_drawn_rows(alloc, &mut out, picture, &drawing)?;
    let legend = if drawing.is_cut() {
        LEGEND_OF_CUT
    } else {
        LEGEND
    };
    put_lines_below(&mut out, picture, &drawing, legend)?;
    Ok(out.into_bytes())
}
