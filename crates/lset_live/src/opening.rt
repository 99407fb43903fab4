//! Opens sets, and creates their seats. A seat is a per-thread handle to a set.
ghost use Rattle.std.specs.Prelude.{◌≡◌, length, All, IfOk, IfErr};
ghost use Rattle.std.specs.List.Sorted.{IsStrictlyIncreasing};
ghost use Rattle.lset_words.specs.Words.{empty, Opens};
ghost use Rattle.lset_steps.specs.Steps.{opening_of};
ghost use Rattle.lset_live.specs.Seats.{IsOpened, RefusesSeats, RefusesOpening};

use crate::open_fault::OpenFault;
use crate::seat::Seat;
use crate::set::LiveSet;
use atomic_table::Table;
use lset_rule::{Opened, OwnSlots};
use lset_steps::{Machine, opening_words};
use lset_words::{Layout, LayoutFault, increases, layout, layout_opening};
use std::alloc::{AllocError, Global};
use std::marker::PhantomData;

fn open_on<M: Machine>(
    alloc: Global,
    layout: Layout,
    keys: &[u32],
) -> Result<(LiveSet<M>, Vec<Seat<M>>), AllocError>
    requires many { length keys.now ≡ layout.opening }
    requires increasing { IsStrictlyIncreasing keys.now }
    ensures { IfOk result (λ r. IsOpened r.0 (opening_of layout keys.now) r.1.items) }
{
    let threads = layout.threads();
    let quota = layout.quota();
    let opening = layout.opening();
    let words = opening_words(alloc, &layout, keys)?;
    let copied = Vec::from_slice(alloc, keys)?;
    let shape = Opened::new(threads, quota, copied);
    let (table, mut place) = Table::of_words(alloc, words.as_slice(), &shape)?;
    let set = LiveSet {
        alloc,
        table,
        threads,
        quota,
        opening,
    };
    let last = threads - 1;
    let mut seats = Vec::new(alloc);
    for t in 0..last {
        let place = set.split_off(&mut place);
        let slots = OwnSlots::unused(&layout, t);
        seats.push(Seat {
            place,
            slots,
            held: 1,
            of: PhantomData,
        })?;
    }
    let slots = OwnSlots::unused(&layout, last);
    seats.push(Seat {
        place,
        slots,
        held: 1,
        of: PhantomData,
    })?;
    Ok((set, seats))
}

/// Opens an empty set with `seats` seats, one for each thread (1 to `MOST_THREADS`). Seat `t` calls as thread `t`, and
/// can add `quota` keys (0 to `MOST_QUOTA`). Allocates all memory of the set, except for the vector of the final keys.
///
/// Returns the first error that applies:
///
/// - `OpenFault::Seats`: `seats` is out of range;
/// - `OpenFault::Quota`: `quota` is out of range;
/// - `OpenFault::Memory`: an allocation failed.
pub fn open<M: Machine>(
    alloc: Global,
    seats: u32,
    quota: u32,
) -> Result<(LiveSet<M>, Vec<Seat<M>>), OpenFault>
    ensures opened { IfOk result (λ r. IsOpened r.0 (empty seats quota) r.1.items) }
    ensures seats { IfOk result (λ r. All (λ s. s.set ≡ r.0) r.1.items) }
    ensures refused { IfErr result (RefusesSeats (record { threads = seats; quota = quota; opening = 0 })) }
{
    match layout(seats, quota) {
        Ok(layout) => match open_on::<M>(alloc, layout, &[]) {
            Ok(opened) => Ok(opened),
            Err(_) => Err(OpenFault::Memory),
        },
        Err(LayoutFault::Threads) => Err(OpenFault::Seats),
        Err(LayoutFault::Quota) => Err(OpenFault::Quota),
        Err(LayoutFault::Opening) => unreachable!(),
    }
}

/// Opens a set that contains `keys`, with `seats` seats, one for each thread (1 to `MOST_THREADS`). Each seat can add
/// `quota` keys (0 to `MOST_QUOTA`). `keys` must contain at most `MOST_OPENING` keys, in strictly increasing order. The
/// opening keys do not count against any quota, and each seat can remove them. The final keys of a closed set can open
/// another set, of any list. (In the literature, a list starts empty.)
///
/// Returns the first error that applies:
///
/// - `OpenFault::Seats`: `seats` is out of range;
/// - `OpenFault::Quota`: `quota` is out of range;
/// - `OpenFault::Opening`: there are too many `keys`, or a key is not greater than the key before it;
/// - `OpenFault::Memory`: an allocation failed.
pub fn open_with<M: Machine>(
    alloc: Global,
    seats: u32,
    quota: u32,
    keys: &[u32],
) -> Result<(LiveSet<M>, Vec<Seat<M>>), OpenFault>
    ensures opened { IfOk result (λ r. IsOpened r.0 (record { threads = seats; quota = quota; keys = keys.now }) r.1.items) }
    ensures seats { IfOk result (λ r. All (λ s. s.set ≡ r.0) r.1.items) }
    ensures within { IfOk result (λ _. Opens (record { threads = seats; quota = quota; keys = keys.now })) }
    ensures refused { IfErr result (RefusesOpening (record { threads = seats; quota = quota; keys = keys.now })) }
{
    let many = u32::try_from(keys.len()).unwrap_or(u32::MAX);
    match layout_opening(seats, quota, many) {
        Ok(layout) if increases(keys) => match open_on::<M>(alloc, layout, keys) {
            Ok(opened) => Ok(opened),
            Err(_) => Err(OpenFault::Memory),
        },
        Ok(_) | Err(LayoutFault::Opening) => Err(OpenFault::Opening),
        Err(LayoutFault::Threads) => Err(OpenFault::Seats),
        Err(LayoutFault::Quota) => Err(OpenFault::Quota),
    }
}
