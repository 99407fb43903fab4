use crate::picture::Picture;
use crate::refusing::why_refused;
use lset_history::{History, Placed};
use lset_report::Report;
use lset_words::{Effect, Point};
use std::alloc::{AllocError, Global};

/// Computes a linearization point for each entry of an order that explains the history. The point is the start of the
/// entry's call or the point of the previous entry, whichever is later.
fn first_points(
    alloc: Global,
    history: &History,
    order: &[Placed],
) -> Result<Vec<Point>, AllocError> {
    let mut points = Vec::new(alloc);
    let mut moment = 0u32;
    for place in order {
        if let Some(record) = history.calls().get(place.call as usize) {
            moment = record.begun.max(moment);
            points.push(Point {
                moment,
                change: matches!(record.call.effect(place.reply), Effect::Changes(_)),
            })?;
        }
    }
    Ok(points)
}

/// Returns the picture of a report. If the order explains the history and leaves exactly the final keys, each entry of
/// the order has a linearization point. Otherwise the picture has the error that `check_order` finds, and no
/// linearization points.
///
/// Takes about as long as `check_order`. Returns `AllocError` if an allocation fails. Such pictures of histories are
/// due to Herlihy and Wing.
pub fn picture_of_report(alloc: Global, report: Report) -> Result<Picture, AllocError> {
    let order = report.order.as_slice();
    let refusal = why_refused(alloc, &report.history, order, &report.keys)?;
    let points = match refusal {
        None => first_points(alloc, &report.history, order)?,
        Some(_) => Vec::new(alloc),
    };
    Ok(Picture {
        kind: report.kind,
        history: report.history,
        events: None,
        order: report.order,
        points,
        keys: report.keys,
        refusal,
        refused: None,
    })
}
