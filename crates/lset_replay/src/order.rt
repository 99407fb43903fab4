ghost use Rattle.std.specs.Prelude.{◌≡◌, ◌<◌, ◌^◌, length, IfOk};
ghost use Rattle.lset_replay.specs.PlacedOrder.{pointed_from, AreSorted};

use crate::places::Linearized;
use lset_report::{Pointed, sort_by_points};
use lset_words::{Placed, Point};
use std::alloc::{AllocError, Global};

/// Returns an entry for each call that has a linearization point, ordered by call number. A call's number is its index
/// in `places`.
fn pointed_calls(alloc: Global, places: &[Option<Linearized>]) -> Result<Vec<Pointed>, AllocError>
    requires { length places.now < 2 ^ 32 }
    ensures { IfOk result (λ v. v.items ≡ pointed_from 0 places.now) }
{
    let mut pointed = Vec::with_capacity(alloc, places.len())?;
    for (number, place) in places.iter().enumerate() {
        if let Some(place) = place {
            pointed.push(Pointed {
                point: Point {
                    moment: place.moment,
                    change: place.change,
                },
                placed: Placed {
                    call: number as u32,
                    reply: place.reply,
                },
            })?;
        }
    }
    Ok(pointed)
}

/// Returns an entry for each call that has a linearization point, ordered by linearization point. If several points
/// have the same moment, a call that changes the set comes first, and the other calls are ordered by number. Returns
/// `AllocError` if an allocation fails.
pub(crate) fn sorted_places(
    alloc: Global,
    places: &[Option<Linearized>],
) -> Result<Vec<Pointed>, AllocError>
    requires { length places.now < 2 ^ 32 }
    ensures { IfOk result (λ v. AreSorted places.now v.items) }
{
    let mut pointed = pointed_calls(alloc, places)?;
    sort_by_points(&mut pointed)?;
    Ok(pointed)
}
