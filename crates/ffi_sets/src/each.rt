//! Functions on a `Held` (the value that a C handle owns), for any of the five lists. A `Held` can be a seat of a set
//! (one thread's access to the set) or a receipt (the events that a seat has seen).
ghost use Rattle.lset_words.specs.declared.Call.TheVariants.{Contains};
ghost use Rattle.std.specs.Prelude.{◌≤◌, Some, IfNone, IfSome, IfOk, IfErr};
ghost use Rattle.ffi_sets.specs.Sets.{Gathers};
ghost use Rattle.ffi_sets.specs.Calls.{HasCalledHeld, HasHeededHeld, HasNotedHeld, HasReadHeld};

use crate::codes::{MAY_BLOCK, NO_MORE, NO_SEAT};
use crate::held::Held;
use crate::holding::open_of;
use lset_live::OpenFault;
use lset_words::{Call, Key, Reply};
use std::alloc::Global;

/// Opens a set of the list `kind`: 0 coarse, 1 fine, 2 optimistic, 3 lazy, 4 lock-free. `number` is the number that the
/// caller gives the set. Returns `None` if `kind` is any other number, and an error if another argument is out of range
/// or an allocation fails. Allocates.
pub fn open_held(
    alloc: Global,
    kind: u8,
    seats: u32,
    quota: u32,
    number: u64,
    keys: &[u32],
) -> Result<Option<Held>, OpenFault> {
    Ok(Some(match kind {
        0 => Held::Coarse(open_of(alloc, seats, quota, number, keys)?),
        1 => Held::Fine(open_of(alloc, seats, quota, number, keys)?),
        2 => Held::Optimistic(open_of(alloc, seats, quota, number, keys)?),
        3 => Held::Lazy(open_of(alloc, seats, quota, number, keys)?),
        4 => Held::LockFree(open_of(alloc, seats, quota, number, keys)?),
        _ => return Ok(None),
    }))
}

/// Makes a call from the seat (one thread's access to the set) in `held`. Returns `None` if `held` has no seat. Also
/// returns `None` if the call stops after 2^64 - 1 rounds of a loop without a reply; the seat is then lost.
pub fn call_held(held: &mut Held, call: Call) -> Option<Reply>
    ensures { HasCalledHeld held.old call result held.new }
{
    match held {
        Held::Coarse(of) => of.call(call),
        Held::Fine(of) => of.call(call),
        Held::Optimistic(of) => of.call(call),
        Held::Lazy(of) => of.call(call),
        Held::LockFree(of) => of.call(call),
        _ => None,
    }
}

/// Makes a `contains` from the seat (one thread's access to the set) in `held` without blocking, in at most
/// `most_reads` steps. Returns the error `MAY_BLOCK` on a coarse, fine or optimistic list, or `NO_SEAT` if `held` has
/// no seat. In case of an error, no call is made.
pub fn read_held(held: &mut Held, key: Key) -> Result<Reply, u8>
    ensures called { IfOk result (λ r. HasCalledHeld held.old (Contains key) (Some r) held.new) }
    ensures within { IfOk result (λ r. HasReadHeld held.old held.new) }
    ensures error { IfErr result (λ n. 254 ≤ n) }
{
    let reply = match held {
        Held::Lazy(of) => of.contains_now(key),
        Held::LockFree(of) => of.contains_now(key),
        Held::Coarse(_) | Held::Fine(_) | Held::Optimistic(_) => return Err(MAY_BLOCK),
        _ => None,
    };
    reply.ok_or(NO_SEAT)
}

/// Returns a receipt, which contains all events that the seat (one thread's access to the set) in `held` has seen.
/// Returns `None` if `held` has no seat.
pub fn receipt_held(held: &mut Held) -> Option<Held>
    ensures { IfSome result (λ given. HasNotedHeld held.old given held.new) }
{
    Some(match held {
        Held::Coarse(of) => Held::CoarseReceipt(of.receipt()?),
        Held::Fine(of) => Held::FineReceipt(of.receipt()?),
        Held::Optimistic(of) => Held::OptimisticReceipt(of.receipt()?),
        Held::Lazy(of) => Held::LazyReceipt(of.receipt()?),
        Held::LockFree(of) => Held::LockFreeReceipt(of.receipt()?),
        _ => return None,
    })
}

/// Passes the receipt `given` (the events that a seat has seen) to the seat (one thread's access to the set) in `into`.
/// Returns `None` on success. If `into` has no seat, `given` is no receipt, or the two differ in the kind of list or
/// the set's number, changes nothing and returns `given`.
pub fn heed_held(into: &mut Held, given: Held) -> Option<Held>
    requires { Gathers into.old given }
    ensures { IfNone result (HasHeededHeld into.old given into.new) }
{
    Some(match (into, given) {
        (Held::Coarse(of), Held::CoarseReceipt(it)) => Held::CoarseReceipt(of.after(it)?),
        (Held::Fine(of), Held::FineReceipt(it)) => Held::FineReceipt(of.after(it)?),
        (Held::Optimistic(of), Held::OptimisticReceipt(it)) => {
            Held::OptimisticReceipt(of.after(it)?)
        }
        (Held::Lazy(of), Held::LazyReceipt(it)) => Held::LazyReceipt(of.after(it)?),
        (Held::LockFree(of), Held::LockFreeReceipt(it)) => Held::LockFreeReceipt(of.after(it)?),
        (_, given) => given,
    })
}

/// Returns the number of seats (one for each thread) that `held` contains, and the total number of seats of the set.
/// Returns 0 for both if `held` has no seat.
pub fn counts_held(held: &Held) -> (u64, u32) {
    match held {
        Held::Coarse(of) => of.counts(),
        Held::Fine(of) => of.counts(),
        Held::Optimistic(of) => of.counts(),
        Held::Lazy(of) => of.counts(),
        Held::LockFree(of) => of.counts(),
        _ => (0, 0),
    }
}

/// Returns whether a seat (one thread's access to the set) can be split off the seat in `held`.
pub fn has_spare(held: &Held) -> bool {
    match held {
        Held::Coarse(of) => !of.spare.is_empty(),
        Held::Fine(of) => !of.spare.is_empty(),
        Held::Optimistic(of) => !of.spare.is_empty(),
        Held::Lazy(of) => !of.spare.is_empty(),
        Held::LockFree(of) => !of.spare.is_empty(),
        _ => false,
    }
}

/// Splits a seat (one thread's access to the set) off the seat in `held`. Returns the error `NO_MORE` if no seat can be
/// split off, or `OUT_OF_MEMORY` if the set's counter of owners is full.
pub fn split_held(held: &mut Held, alloc: Global) -> Result<Held, u8> {
    Ok(match held {
        Held::Coarse(of) => Held::Coarse(of.split(alloc)?),
        Held::Fine(of) => Held::Fine(of.split(alloc)?),
        Held::Optimistic(of) => Held::Optimistic(of.split(alloc)?),
        Held::Lazy(of) => Held::Lazy(of.split(alloc)?),
        Held::LockFree(of) => Held::LockFree(of.split(alloc)?),
        _ => return Err(NO_MORE),
    })
}

/// Merges the seat (one thread's access to the set) in `from` into the seat in `into`. Returns `None` on success. If
/// `into` or `from` has no seat, or the two differ in the kind of list or the set's number, changes nothing and returns
/// `from`.
pub fn gather_held(alloc: Global, into: &mut Held, from: Held) -> Option<Held>
    requires { Gathers into.old from }
{
    Some(match (into, from) {
        (Held::Coarse(into), Held::Coarse(from)) => Held::Coarse(into.gather(alloc, from)?),
        (Held::Fine(into), Held::Fine(from)) => Held::Fine(into.gather(alloc, from)?),
        (Held::Optimistic(into), Held::Optimistic(from)) => Held::Optimistic(into.gather(
            alloc, from,
        )?),
        (Held::Lazy(into), Held::Lazy(from)) => Held::Lazy(into.gather(alloc, from)?),
        (Held::LockFree(into), Held::LockFree(from)) => Held::LockFree(into.gather(alloc, from)?),
        (_, from) => from,
    })
}

/// Closes the set in `held` and returns the set's final keys. On an error, returns `held`, unchanged, and the number of
/// the error: `NO_SEAT` if `held` has no seat (one thread's access to the set), `SEATS_OUT` if `held` does not contain
/// all seats of the set, `OUT_OF_MEMORY` if an allocation failed.
pub fn close_held(alloc: Global, held: Held) -> Result<Vec<u32>, (Held, u8)> {
    match held {
        Held::Coarse(of) => match of.close(alloc) {
            Ok(keys) => Ok(keys),
            Err((of, code)) => Err((Held::Coarse(of), code)),
        },
        Held::Fine(of) => match of.close(alloc) {
            Ok(keys) => Ok(keys),
            Err((of, code)) => Err((Held::Fine(of), code)),
        },
        Held::Optimistic(of) => match of.close(alloc) {
            Ok(keys) => Ok(keys),
            Err((of, code)) => Err((Held::Optimistic(of), code)),
        },
        Held::Lazy(of) => match of.close(alloc) {
            Ok(keys) => Ok(keys),
            Err((of, code)) => Err((Held::Lazy(of), code)),
        },
        Held::LockFree(of) => match of.close(alloc) {
            Ok(keys) => Ok(keys),
            Err((of, code)) => Err((Held::LockFree(of), code)),
        },
        other => Err((other, NO_SEAT)),
    }
}

/// Copies `keys` to the start of `room` if they fit. In any case, returns the number of keys.
fn put_keys(keys: &[u32], room: &mut [u32]) -> usize {
    let count = keys.len();
    if count <= room.len() {
        room[..count].copy_from_slice(keys);
    }
    count
}

/// Copies the keys of the closed set in `held` to the start of `room` if they fit. Returns the number of keys, whether
/// or not they fit, or `usize::MAX` if `held` is not a closed set.
pub fn keys_held(held: &Held, room: &mut [u32]) -> usize {
    match held {
        Held::Closed(keys) => put_keys(keys, room),
        _ => usize::MAX,
    }
}
