//! Writes the lines above and below the rows of the threads: the heading, the range of drawn moments (positions in the
//! history), and the order.
use crate::columns::{Drawing, Side, put_call};
use crate::drawn_sets::put_keys_line;
use crate::picture::{Picture, Standing, standing_at};
use crate::refusal::Refusal;
use lset_text::{kind_word, reply_word};
use lset_words::Placed;
use std::alloc::AllocError;

/// Writes a count with its noun, such as `2 calls` or `1 call`.
fn put_counted(out: &mut String, count: usize, word: &str) -> Result<(), AllocError> {
    let plural = if count == 1 { "" } else { "s" };
    write!(out, "{count} {word}{plural}")
}

/// Appends the heading, such as `fine list, 2 threads, quota 4: 3 calls in 35 events`.
pub(crate) fn put_heading(out: &mut String, picture: &Picture) -> Result<(), AllocError> {
    let kind = kind_word(picture.kind);
    write!(out, "{kind} list, ")?;
    put_counted(out, picture.history.threads() as usize, "thread")?;
    let quota = picture.history.quota();
    write!(out, ", quota {quota}: ")?;
    put_counted(out, picture.history.calls().len(), "call")?;
    if let Some(count) = picture.events {
        out.push_str(" in ")?;
        put_counted(out, count as usize, "event")?;
    }
    Ok(())
}

/// Appends the range of drawn moments (positions in the history), and the command-line options that draw the moments
/// before and after the range. Example: `moments 20 to 33 of 35; earlier: --to 19; later: --from 34`.
pub(crate) fn put_cut(
    out: &mut String,
    picture: &Picture,
    drawing: &Drawing,
) -> Result<(), AllocError> {
    let first = drawing.from.max(1);
    let last = drawing.last;
    write!(out, "moments {first} to {last}")?;
    if let Some(count) = picture.events {
        write!(out, " of {count}")?;
    }
    if drawing.before {
        let before = drawing.from.saturating_sub(1);
        write!(out, "; earlier: --to {before}")?;
    }
    if drawing.after {
        let next = u64::from(last) + 1;
        write!(out, "; later: --from {next}")?;
    }
    Ok(())
}

/// Writes an entry of the order, such as `   2  at 21    thread 0  add 5 true`.
fn put_place(out: &mut String, number: usize, standing: Standing) -> Result<(), AllocError> {
    write!(out, "{number:>4}  ")?;
    match standing.point {
        Some(point) => {
            let moment = point.moment;
            write!(out, "at {moment:<5} ")?;
        }
        None => out.push_str("         ")?,
    }
    match standing.made {
        Some(made) => {
            let thread = made.thread;
            write!(out, "thread {thread}  ")?;
            put_call(out, made.call)?;
        }
        None => {
            let call = standing.placed.call;
            write!(out, "call {call}")?;
        }
    }
    let reply = reply_word(standing.placed.reply);
    let fit = matches!(standing.point, Some(point) if !point.change);
    let open = matches!(standing.made, Some(made) if made.ended.is_none());
    let no_change = if fit { "  (no change)" } else { "" };
    let pending = if open { "  (pending)" } else { "" };
    writeln!(out, " {reply}{no_change}{pending}")
}

/// Returns whether an entry of the order is before, among or after the drawn moments (positions in the history). Uses
/// the linearization point of the entry if it is known, otherwise the bar of the entry's call. Returns `None` if the
/// call is not in the history.
fn side_of(standing: Standing, drawing: &Drawing) -> Option<Side> {
    match standing.point {
        Some(point) => Some(drawing.side_of(point.moment, Some(point.moment))),
        None => Some(drawing.side_of_bar(standing.made?)),
    }
}

/// Returns whether to print the entry `place` of the order, whose call is not in the history. The entry is printed only
/// if all moments (positions in the history) are drawn, or if the order was rejected because of this call.
fn is_told(picture: &Picture, drawing: &Drawing, place: Placed) -> bool {
    match &picture.refusal {
        _ if !drawing.is_cut() => true,
        Some(Refusal::Unknown { call, .. }) => place.call == *call,
        _ => false,
    }
}

/// The numbers of omitted entries of the order: entries before the drawn moments (positions in the history), entries
/// after them, and entries whose call is not in the history.
struct LeftOut {
    before: usize,
    after: usize,
    unknown: usize,
}

/// Writes the entries of the order that belong to the drawn moments (positions in the history), and returns how many
/// entries were left out.
fn put_places(
    out: &mut String,
    picture: &Picture,
    drawing: &Drawing,
) -> Result<LeftOut, AllocError> {
    let mut before = 0usize;
    let mut after = 0usize;
    let mut unknown = 0usize;
    for index in 0..picture.order.len() {
        let Some(standing) = standing_at(picture, index) else {
            break;
        };
        match side_of(standing, drawing) {
            Some(Side::Before) => before = before.saturating_add(1),
            Some(Side::After) => after = after.saturating_add(1),
            None if !is_told(picture, drawing, standing.placed) => {
                unknown = unknown.saturating_add(1);
            }
            _ => put_place(out, index + 1, standing)?,
        }
    }
    Ok(LeftOut {
        before,
        after,
        unknown,
    })
}

/// Writes a line about how many entries of the order were left out, or nothing if none was.
fn put_left_out(out: &mut String, left: LeftOut) -> Result<(), AllocError> {
    let LeftOut {
        before,
        after,
        unknown,
    } = left;
    if unknown > 0 {
        return writeln!(
            out,
            "{before} before, {after} after, {unknown} of unknown calls"
        );
    }
    if before > 0 || after > 0 {
        writeln!(out, "{before} before, {after} after")?;
    }
    Ok(())
}

fn put_order(out: &mut String, picture: &Picture, drawing: &Drawing) -> Result<(), AllocError> {
    if picture.history.calls().is_empty() {
        return out.push_str("no calls\n");
    }
    out.push_str("order\n")?;
    let left = put_places(out, picture, drawing)?;
    put_left_out(out, left)
}

/// Appends the lines below the rows: the order, the number of entries that are left out, the final keys, `legend` if
/// the linearization points are known, and the schedule's first event that is not enabled, if any.
pub(crate) fn put_lines_below(
    out: &mut String,
    picture: &Picture,
    drawing: &Drawing,
    legend: &str,
) -> Result<(), AllocError> {
    put_order(out, picture, drawing)?;
    put_keys_line(out, &picture.keys)?;
    if drawing.known && !picture.order.is_empty() {
        writeln!(out, "\n{legend}")?;
    }
    match picture.refused {
        Some((line, cause)) => writeln!(out, "\nrefused line {line} {cause}"),
        None => Ok(()),
    }
}
