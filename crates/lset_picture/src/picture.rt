use crate::refusal::Refusal;
use lset_history::History;
use lset_words::{CallRecord, Kind, Placed, Point};

/// What a picture of a run or a report shows: a history, an order of the history's calls, and the final keys.
///
/// The moments in `points` never decrease along the order. The points are drawn only if the order is not rejected and
/// each entry of the order has a point.
#[derive(Drop)]
pub struct Picture {
    pub kind: Kind,
    pub history: History,
    /// The number of events executed, or `None` for the picture of a report.
    pub events: Option<u32>,
    pub order: Vec<Placed>,
    /// The linearization points, one for each entry of the order. Empty if the order is rejected.
    pub points: Vec<Point>,
    pub keys: Vec<u32>,
    pub refusal: Option<Refusal>,
    /// The line number and the cause of the schedule's first event that is not enabled, if any.
    pub refused: Option<(u64, &'static str)>,
}

/// The range of moments to draw. A moment is a position in the history, counted from 1. Only moments when a call
/// starts, takes effect or ends are drawn, and at most the first 64 such moments in the range.
#[derive(Clone, Copy)]
pub struct Window {
    pub from: u32,
    pub to: u32,
}

impl Window {
    /// Returns whether the range includes every moment (position in the history).
    pub fn is_whole(self) -> bool {
        self.from <= 1 && self.to == u32::MAX
    }
}

/// Returns whether the linearization points are known: the order is not rejected, and each entry of the order has a
/// point.
pub(crate) fn are_known(picture: &Picture) -> bool {
    picture.refusal.is_none() && picture.points.len() == picture.order.len()
}

/// Returns the linearization points to draw: all linearization points if they are known, otherwise none.
pub(crate) fn points_of(picture: &Picture) -> &[Point] {
    if are_known(picture) {
        &picture.points
    } else {
        &[]
    }
}

/// An entry of the order, with the entry's call if the call is in the history, and with the linearization point if the
/// point is known.
#[derive(Clone, Copy)]
pub(crate) struct Standing {
    pub placed: Placed,
    pub made: Option<CallRecord>,
    pub point: Option<Point>,
}

fn standing_of(picture: &Picture, index: usize, placed: Placed) -> Standing {
    Standing {
        placed,
        made: picture.history.calls().get(placed.call as usize).copied(),
        point: points_of(picture).get(index).copied(),
    }
}

/// Returns the entry of the order at `index`, counted from 0, or `None` if the order has no such entry.
pub(crate) fn standing_at(picture: &Picture, index: usize) -> Option<Standing> {
    let placed = picture.order.get(index)?;
    Some(standing_of(picture, index, *placed))
}
