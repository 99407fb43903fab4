ghost use Rattle.std.specs.Prelude.{◌≡◌, map, IfOk, OnOk};
ghost use Rattle.lset_report.specs.Order.{rank_of, placed_in, points_in, AreByPoints};

use lset_words::{Placed, Point};
use std::alloc::{AllocError, Global};

/// An entry of an order (a call with its reply), and the call's linearization point.
#[derive(Clone, Copy)]
pub struct Pointed {
    pub point: Point,
    pub placed: Placed,
}

impl Pointed {
    /// Returns the sort key of an entry: twice the moment (event number) of the linearization point, plus 1 if the call
    /// does not change the set.
    fn rank(&self) -> u64
        ensures { result ≡ rank_of self.now }
    {
        let after_the_change = if self.point.change { 0 } else { 1 };
        2 * u64::from(self.point.moment) + after_the_change
    }
}

/// Sorts the entries of an order by their linearization points. If several points have the same moment, a call that
/// changes the set comes first. The sort is stable. Returns `AllocError` if an allocation fails; the entries are then
/// in an unspecified order.
pub fn sort_by_points(places: &mut Vec<Pointed>) -> Result<(), AllocError>
    ensures { OnOk result (AreByPoints places.old.items places.new.items) }
{
    places.sort_by_key(|next| next.rank())?;
    Ok(())
}

/// Returns the entries in `places` without their linearization points. Returns `AllocError` if an allocation fails.
pub fn order_of(alloc: Global, places: &[Pointed]) -> Result<Vec<Placed>, AllocError>
    ensures { IfOk result (λ v. v.items ≡ placed_in places.now) }
{
    let mut order = Vec::with_capacity(alloc, places.len())?;
    for next in places {
        order.push(next.placed)?;
    }
    Ok(order)
}

/// Returns the linearization points of the entries in `places`. Returns `AllocError` if an allocation fails.
pub fn points_of(alloc: Global, places: &[Pointed]) -> Result<Vec<Point>, AllocError>
    ensures { IfOk result (λ v. v.items ≡ points_in places.now) }
{
    let mut points = Vec::with_capacity(alloc, places.len())?;
    for next in places {
        points.push(next.point)?;
    }
    Ok(points)
}
