//! Writes a picture as an SVG: a line for each call, a circle for each linearization point, the set below the calls,
//! and the order as text.
use crate::columns::{Drawing, Side, drawing_in, put_call};
use crate::drawn_clashes::is_clash;
use crate::orders::{put_cut, put_heading, put_lines_below};
use crate::picture::{Picture, Standing, Window, points_of, standing_at};
use crate::refusals::put_refusal;
use crate::sheet::{
    Spot, lane_y, line_y, put_circle, put_line, put_plain, put_text, right_edge, thread_class, x_of,
};
use crate::style::STYLE;
use lset_text::reply_word;
use lset_words::CallRecord;
use std::alloc::{AllocError, Global};

const LEGEND: &str =
    "filled: changes the set    open: changes nothing, its reply fits there    dashed: pending";

/// How many characters of a line of text fit into the sheet at most. The columns can make the sheet wider.
const MOST_CHARACTERS: usize = 255;

/// The two lines above the rows: the heading, and the reason for rejecting the order (empty if the order is accepted).
#[derive(Clone, Copy)]
struct Above<'a> {
    heading: &'a str,
    refusal: &'a str,
}

/// Starts the SVG with its title, style and background. The sheet is wide enough for the columns, and for
/// `MOST_CHARACTERS` characters of each line of text.
fn put_sheet(
    out: &mut String,
    threads: u32,
    drawing: &Drawing,
    above: Above,
    below: &str,
) -> Result<(), AllocError> {
    let Above { heading, refusal } = above;
    let mut widest = heading.len().max(refusal.len());
    let mut count = 0usize;
    for line in below.lines() {
        widest = widest.max(line.len());
        count = count.saturating_add(1);
    }
    let text = 16 + 8 * widest.min(MOST_CHARACTERS) as u64;
    let width = right_edge(&drawing.columns).saturating_add(48).max(text);
    let height = line_y(threads, count);
    writeln!(
        out,
        "<svg xmlns=\"http://www.w3.org/2000/svg\" class=\"listset\" font-family=\"monospace\" font-size=\"12\" width=\"{width}\" height=\"{height}\" viewBox=\"0 0 {width} {height}\">"
    )?;
    writeln!(out, "<title>{heading}</title>\n{STYLE}")?;
    out.push_str("<rect class=\"ground\" width=\"100%\" height=\"100%\"/>\n")
}

/// Adds the lines above the rows: the heading, the reason if the order is rejected, and the range of drawn moments
/// (positions in the history) if some moments are not drawn.
fn put_above(
    alloc: Global,
    out: &mut String,
    picture: &Picture,
    drawing: &Drawing,
    above: Above,
) -> Result<(), AllocError> {
    put_plain(out, 8, 20, above.heading)?;
    let mut y = 38;
    if picture.refusal.is_some() {
        put_plain(out, 8, 34, above.refusal)?;
        y = 47;
    }
    if drawing.is_cut() {
        let mut cut = String::new(alloc);
        put_cut(&mut cut, picture, drawing)?;
        put_plain(out, 8, y, &cut)?;
    }
    Ok(())
}

/// Adds the labels of the rows: `moment`, `thread 0` and so on, and `set`.
fn put_labels(
    alloc: Global,
    out: &mut String,
    threads: u32,
    drawing: &Drawing,
) -> Result<(), AllocError> {
    put_plain(out, 8, 60, "moment")?;
    for thread in 0..threads {
        let label = format!(in alloc; "thread {thread}")?;
        let y = lane_y(thread).saturating_add(4);
        put_text(out, thread_class(thread), "", Spot { x: 8, y }, &label)?;
    }
    if drawing.known {
        put_plain(out, 8, lane_y(threads), "set")?;
    }
    Ok(())
}

fn put_columns(
    alloc: Global,
    out: &mut String,
    threads: u32,
    drawing: &Drawing,
) -> Result<(), AllocError> {
    for column in &drawing.columns {
        let moment = column.moment;
        let x = x_of(&drawing.columns, u64::from(moment));
        put_plain(out, x, 60, &format!(in alloc; "{moment}")?)?;
        if !column.set.is_empty() {
            put_plain(out, x, lane_y(threads), &column.set)?;
        }
    }
    Ok(())
}

/// Adds the line that represents a call.
fn put_bar(
    alloc: Global,
    out: &mut String,
    drawing: &Drawing,
    made: &CallRecord,
    clash: &str,
) -> Result<(), AllocError> {
    let y = lane_y(made.thread);
    let x = x_of(&drawing.columns, u64::from(made.begun));
    let (kind, end) = match made.ended {
        None => ("bar open", right_edge(&drawing.columns)),
        Some((end, _)) => ("bar", x_of(&drawing.columns, u64::from(end))),
    };
    let class = thread_class(made.thread);
    let class = format!(in alloc; "{kind} {class}{clash}")?;
    put_line(out, &class, Spot { x, y }, Spot { x: end, y })
}

/// Adds the operation and the key of a call above the call's start, if the start is drawn.
fn put_begin(
    alloc: Global,
    out: &mut String,
    drawing: &Drawing,
    made: &CallRecord,
    clash: &str,
) -> Result<(), AllocError> {
    if made.begun < drawing.from {
        return Ok(());
    }
    let mut call = String::new(alloc);
    put_call(&mut call, made.call)?;
    let x = x_of(&drawing.columns, u64::from(made.begun));
    let y = lane_y(made.thread).saturating_sub(10);
    put_text(out, thread_class(made.thread), clash, Spot { x, y }, &call)
}

/// Adds the reply of a call after the call's end, if the end is drawn.
fn put_end(
    alloc: Global,
    out: &mut String,
    drawing: &Drawing,
    made: &CallRecord,
    clash: &str,
) -> Result<(), AllocError> {
    let Some((end, reply)) = made.ended else {
        return Ok(());
    };
    if drawing.last < end {
        return Ok(());
    }
    let x = x_of(&drawing.columns, u64::from(end)).saturating_add(10);
    let y = lane_y(made.thread).saturating_add(4);
    let reply = reply_word(reply);
    let text = format!(in alloc; "{reply}")?;
    put_text(out, thread_class(made.thread), clash, Spot { x, y }, &text)
}

/// Adds a line, with its texts, for each call that overlaps the drawn moments (positions in the history). A call that
/// contradicts the order gets the CSS class `clash`, so it is thick and red.
fn put_bars(
    alloc: Global,
    out: &mut String,
    picture: &Picture,
    drawing: &Drawing,
) -> Result<(), AllocError> {
    for (number, made) in picture.history.calls().iter().enumerate() {
        if matches!(drawing.side_of_bar(*made), Side::Within) {
            let clash = if is_clash(picture, number, made) {
                " clash"
            } else {
                ""
            };
            put_bar(alloc, out, drawing, made, clash)?;
            put_begin(alloc, out, drawing, made, clash)?;
            put_end(alloc, out, drawing, made, clash)?;
        }
    }
    Ok(())
}

/// Returns the position of an entry's linearization point, the thread of the entry's call, and whether the call changes
/// the set. Returns `None` if the linearization point is unknown or not drawn.
fn dot_of(standing: Standing, drawing: &Drawing) -> Option<(Spot, u32, bool)> {
    let (made, point) = (standing.made?, standing.point?);
    if point.moment < drawing.from || drawing.last < point.moment {
        return None;
    }
    let x = x_of(&drawing.columns, u64::from(point.moment));
    let y = lane_y(made.thread);
    Some((Spot { x, y }, made.thread, point.change))
}

/// Adds the linearization points: as circles if `circles` is true, otherwise as thin lines down to the set.
fn put_points(
    out: &mut String,
    picture: &Picture,
    drawing: &Drawing,
    circles: bool,
) -> Result<(), AllocError> {
    let bottom = lane_y(picture.history.threads()).saturating_sub(14);
    for index in 0..points_of(picture).len() {
        let Some(standing) = standing_at(picture, index) else {
            return Ok(());
        };
        let Some((at, thread, change)) = dot_of(standing, drawing) else {
            continue;
        };
        if circles {
            let kind = if change { "point change" } else { "point fit" };
            put_circle(out, kind, thread_class(thread), at)?;
        } else {
            put_line(out, "stem", at, Spot { x: at.x, y: bottom })?;
        }
    }
    Ok(())
}

/// Adds the rows: the labels, the moments and the sets, then the thin lines from the linearization points down to the
/// set, the lines of the calls, and the circles of the linearization points on top.
fn put_rows(
    alloc: Global,
    out: &mut String,
    picture: &Picture,
    drawing: &Drawing,
) -> Result<(), AllocError> {
    let threads = picture.history.threads();
    put_labels(alloc, out, threads, drawing)?;
    put_columns(alloc, out, threads, drawing)?;
    put_points(out, picture, drawing, false)?;
    put_bars(alloc, out, picture, drawing)?;
    put_points(out, picture, drawing, true)
}

fn put_below(out: &mut String, threads: u32, below: &str) -> Result<(), AllocError> {
    for (number, line) in below.lines().enumerate() {
        put_plain(out, 8, line_y(threads, number), line)?;
    }
    Ok(())
}

/// Draws a picture as an SVG. Draws the moments in `window` when a call starts, takes effect or ends, but at most the
/// first 64 such moments. A moment is a position in the history, counted from 1.
///
/// If `window` includes all moments but they do not all fit, the drawing of a rejected order starts at the call that
/// caused the rejection. A call is a line in the color of its thread: dashed if the call is pending, thick if it
/// contradicts the order (`is_clash`). A linearization point is a circle, filled if the call changes the set, with a
/// thin line down to the set. The order is written below as text. The style sheet has a dark background for readers who
/// prefer one. The SVG has no script and no external references. Returns `AllocError` if an allocation fails.
pub fn write_svg(alloc: Global, picture: &Picture, window: Window) -> Result<Vec<u8>, AllocError> {
    let mut drawing = drawing_in(alloc, picture, window)?;
    if let Some(window) = drawing.window_of_clash(picture, window) {
        drawing = drawing_in(alloc, picture, window)?;
    }
    let mut heading = String::new(alloc);
    put_heading(&mut heading, picture)?;
    let mut refusal = String::new(alloc);
    put_refusal(&mut refusal, picture)?;
    let above = Above {
        heading: &heading,
        refusal: refusal.trim_end(),
    };
    let mut below = String::new(alloc);
    put_lines_below(&mut below, picture, &drawing, LEGEND)?;
    let mut out = String::new(alloc);
    put_sheet(&mut out, picture.history.threads(), &drawing, above, &below)?;
    put_above(alloc, &mut out, picture, &drawing, above)?;
    put_rows(alloc, &mut out, picture, &drawing)?;
    put_below(&mut out, picture.history.threads(), &below)?;
    out.push_str("</svg>\n")?;
    Ok(out.into_bytes())
}
