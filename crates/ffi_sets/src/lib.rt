//! Running sets for C: functions on handles that C code keeps. The crate `ffi_c` exports the functions.
//!
//! A `CSeat` is a handle. It is empty, or owns a seat of a set (one thread's access to the set), a receipt (the events
//! that a seat has seen), or a closed set. Each function accepts all arguments that its types allow, with one
//! exception: seats and receipts with equal lists and numbers must belong to the same set. `codes` defines the numbers
//! of errors.
//!
//! A call from a seat stops without a reply after 2^64 - 1 rounds of a loop (`lset_live::Bounded`): waiting forever
//! would need a runtime, which C code does not have. The seat is then lost, and each later call from the seat returns
//! 255.
#![tactic(auto)]

mod answers; // replies and errors as numbers
mod codes; // the numbers of errors
mod each; // functions on a handle's value, any list
mod held; // the value that a handle owns
mod holding; // functions on a seat of one list
mod loose; // a box as pointer and allocator
mod seat; // the handle that C code keeps
mod yielding; // pauses after failed attempts

ghost use Rattle.lset_words.specs.declared.Call.TheVariants.{Add, Remove, Contains, Ceiling};
ghost use Rattle.std.specs.Prelude.{◌≡◌, ◌<◌};
ghost use Rattle.ffi_sets.specs.Calls.{HasCeiling, HasGiven, HasHeeded, HasMade, HasReadHeld};
ghost use Rattle.lset_words.specs.Words.{IsWithin};
ghost use Rattle.lset_steps.specs.BoundedReads.{most_reads as bound};
ghost use Rattle.ffi_sets.specs.Sets.{GathersAt};

use answers::{call_from_seat, fault_code, put_new, reply_code};
use codes::{BAD_KIND, DONE, IS_SEAT, NO_GATHER, NO_MORE, NO_SEAT, OUT_OF_MEMORY};
use each::{
    call_held, close_held, counts_held, gather_held, has_spare, heed_held, keys_held, open_held,
    read_held, receipt_held, split_held,
};
use held::Held;
use lset_lazy::LazyList;
use lset_steps::OpenReads;
use lset_words::{Call, Key, Reply, layout_opening};
pub use seat::CSeat;
use seat::{put, take};
use std::alloc::Global;
use std::mem::replace;

/// Opens a set of the list `kind`: 0 coarse, 1 fine, 2 optimistic, 3 lazy, 4 lock-free. The set has 1 to 64 `seats`
/// (one for each thread), a `quota` of 0 to 16,384 successful adds for each seat, and at most 1,048,576 opening `keys`
/// in strictly increasing order. Stores one seat in the handle `out`, which must be empty. All other seats can be split
/// off the stored seat. No other open set may have the same `number`, because `gather_seats` and `take_receipt` compare
/// sets by their numbers.
///
/// Returns `DONE`. On an error, changes nothing and returns the error: `IS_SEAT` if `out` is not empty, `BAD_KIND`,
/// `BAD_SEATS`, `BAD_QUOTA`, `BAD_KEYS`, or `OUT_OF_MEMORY` if an allocation failed. Does not block.
pub fn open_set(
    alloc: Global,
    kind: u8,
    seats: u32,
    quota: u32,
    number: u64,
    keys: &[u32],
    out: &mut CSeat,
) -> u8 {
    if let Some(held) = take(alloc, out) {
        put(out, held);
        return IS_SEAT;
    }
    match open_held(alloc, kind, seats, quota, number, keys) {
        Ok(Some(held)) => put_new(alloc, out, held),
        Ok(None) => BAD_KIND,
        Err(fault) => fault_code(fault),
    }
}

/// Splits a seat (one thread's access to the set) off the handle `seat` and stores the new seat in the handle `out`,
/// which must be empty.
///
/// Returns `DONE`. On an error, changes nothing and returns the first error that applies: `IS_SEAT` if `out` is not
/// empty, `NO_SEAT` if `seat` is empty, `NO_MORE` if no seat can be split off `seat`, `OUT_OF_MEMORY` if an allocation
/// failed. Does not block.
pub fn split_seat(alloc: Global, seat: &mut CSeat, out: &mut CSeat) -> u8 {
    if let Some(held) = take(alloc, out) {
        put(out, held);
        return IS_SEAT;
    }
    let Some(mut held) = take(alloc, seat) else {
        return NO_SEAT;
    };
    if !has_spare(&held) {
        put(seat, held);
        return NO_MORE;
    }
    // Allocates the box before the split. If the allocation failed after the split, the new seat would be lost.
    let Ok(mut made) = Box::new(alloc, Held::Nothing) else {
        put(seat, held);
        return OUT_OF_MEMORY;
    };
    let split = split_held(&mut held, alloc);
    put(seat, held);
    match split {
        Ok(split) => {
            *made = split;
            put(out, made);
            DONE
        }
        Err(code) => code,
    }
}

/// Adds `key` to the set. Returns 1 if the key was absent and has been added, 0 if it was present, and 2 if it was
/// absent but the seat has used up its quota of adds. Returns 255 if the handle `seat` owns no seat (one thread's
/// access to a set). Blocks while another thread holds a lock that the call needs. Does not allocate.
pub fn add_key(alloc: Global, seat: &mut CSeat, key: u32) -> u8
    ensures { HasMade seat.old.full seat.old.held (Add (record { 0 = key })) result seat.new.full seat.new.held }
{
    call_from_seat(alloc, seat, Call::Add(Key(key)))
}

/// Removes `key` from the set. Returns 1 if the key was present, 0 if it was absent, and 255 if the handle `seat` owns
/// no seat (one thread's access to a set). Blocks while another thread holds a lock that the call needs. Does not
/// allocate.
pub fn remove_key(alloc: Global, seat: &mut CSeat, key: u32) -> u8
    ensures { HasMade seat.old.full seat.old.held (Remove (record { 0 = key })) result seat.new.full seat.new.held }
{
    call_from_seat(alloc, seat, Call::Remove(Key(key)))
}

/// Returns 1 if `key` is in the set, 0 if it is not, and 255 if the handle `seat` owns no seat (one thread's access to
/// a set). On a coarse, fine or optimistic list, blocks while another thread holds a lock that the call needs. Does not
/// allocate.
pub fn contains_key(alloc: Global, seat: &mut CSeat, key: u32) -> u8
    ensures { HasMade seat.old.full seat.old.held (Contains (record { 0 = key })) result seat.new.full seat.new.held }
{
    call_from_seat(alloc, seat, Call::Contains(Key(key)))
}

/// Finds the smallest key of the set that is at least `key`. Returns 3 and writes the key to `at`, or returns 4 if the
/// set has no such key. Returns 255 if the handle `seat` owns no seat (one thread's access to a set). On a coarse, fine
/// or optimistic list, blocks while another thread holds a lock that the call needs. On a lock-free list, the call can
/// wait until another thread adds or removes a key. Does not allocate.
pub fn ceiling_at(alloc: Global, seat: &mut CSeat, key: u32, at: &mut u32) -> u8
    ensures { HasCeiling seat.old.full seat.old.held (Ceiling (record { 0 = key })) result at.old at.new seat.new.full seat.new.held }
{
    let Some(mut held) = take(alloc, seat) else {
        return NO_SEAT;
    };
    let reply = call_held(&mut held, Call::Ceiling(Key(key)));
    put(seat, held);
    if let Some(Reply::At(Key(found))) = reply {
        *at = found;
    }
    reply_code(reply)
}

/// Returns 1 if `key` is in the set and 0 if it is not, without blocking: whatever other threads do, the call takes at
/// most `most_reads` steps. On a coarse, fine or optimistic list, makes no call and returns 254. Returns 255 if the
/// handle `seat` owns no seat (one thread's access to a set). Does not allocate.
pub fn contains_key_now(alloc: Global, seat: &mut CSeat, key: u32) -> u8
    ensures made { result < 254 → HasMade seat.old.full seat.old.held (Contains (record { 0 = key })) result seat.new.full seat.new.held }
    ensures within { result < 254 → HasReadHeld seat.old.held seat.new.held }
{
    let Some(mut held) = take(alloc, seat) else {
        return NO_SEAT;
    };
    let read = read_held(&mut held, Key(key));
    put(seat, held);
    match read {
        Ok(reply) => reply_code(Some(reply)),
        Err(code) => code,
    }
}

/// Returns the maximum number of steps that a `contains` takes in any run of a lazy or lock-free list. The list is
/// opened with `seats` seats (one for each thread), a quota of `quota` adds for each seat, and `opening` keys. Returns
/// 0 if no set can be opened with these numbers. Does not block or allocate.
pub fn most_reads(seats: u32, quota: u32, opening: u32) -> u64
    ensures { IsWithin (record { threads = seats; quota = quota; opening = opening })
        → result ≡ bound (record { threads = seats; quota = quota; opening = opening }) }
{
    match layout_opening(seats, quota, opening) {
        Ok(layout) => LazyList::bound(&layout),
        Err(_) => 0,
    }
}

/// Stores a receipt in the handle `out`, which must be empty. The receipt covers everything that `seat` (one thread's
/// access to the set) has seen: its own calls, everything seen by the seats merged into it, and everything covered by
/// the receipts that it accepted. `seat` does not change.
///
/// Returns `DONE`. On an error, changes nothing and returns the first error that applies: `IS_SEAT` if `out` is not
/// empty, `NO_SEAT` if the handle `seat` owns no seat, `OUT_OF_MEMORY` if an allocation failed. Does not block.
pub fn give_receipt(alloc: Global, seat: &mut CSeat, out: &mut CSeat) -> u8
    ensures { result ≡ 0 → HasGiven seat.old.full seat.old.held out.new.full out.new.held seat.new.full seat.new.held }
{
    if let Some(held) = take(alloc, out) {
        put(out, held);
        return IS_SEAT;
    }
    let Some(mut held) = take(alloc, seat) else {
        return NO_SEAT;
    };
    let given = receipt_held(&mut held);
    put(seat, held);
    match given {
        Some(given) => put_new(alloc, out, given),
        None => NO_SEAT,
    }
}

/// Passes the receipt `given` (the events that a seat has seen) to `seat` (one thread's access to the set). In the
/// order of all calls, later calls of `seat` follow every call that the receipt covers. `given` is empty afterwards.
/// The caller must ensure that a seat and a receipt with equal lists and numbers belong to the same set.
///
/// Returns `DONE`. On an error, changes nothing. The error is `NO_SEAT` if `seat` or `given` is empty, and `NO_GATHER`
/// if `seat` and `given` are not a seat and a receipt with equal lists and numbers. Does not block or allocate.
pub fn take_receipt(alloc: Global, seat: &mut CSeat, given: &mut CSeat) -> u8
    requires { GathersAt seat.old.full seat.old.held given.old.full given.old.held }
    ensures { result ≡ 0 → HasHeeded seat.old.full seat.old.held given.old.full given.old.held seat.new.full seat.new.held }
{
    let Some(mut receipt) = take(alloc, given) else {
        return NO_SEAT;
    };
    let Some(mut held) = take(alloc, seat) else {
        put(given, receipt);
        return NO_SEAT;
    };
    let back = heed_held(&mut held, replace(&mut *receipt, Held::Nothing));
    put(seat, held);
    let Some(back) = back else {
        return DONE;
    };
    *receipt = back;
    put(given, receipt);
    NO_GATHER
}

/// Returns the number of seats (one for each thread) that `seat` contains, including itself. Writes the total number of
/// seats of the set to `all`. Both numbers are 0 if the handle `seat` owns no seat. Does not block or allocate.
pub fn count_seats(alloc: Global, seat: &mut CSeat, all: &mut u32) -> u64 {
    let (within, of_set) = match take(alloc, seat) {
        Some(held) => {
            let counts = counts_held(&held);
            put(seat, held);
            counts
        }
        None => (0, 0),
    };
    *all = of_set;
    within
}

/// Merges the seat `from` (one thread's access to the set), including all seats that it contains, into the seat `into`.
/// `from` is empty afterwards. The caller must ensure that two seats with equal lists and numbers belong to the same
/// set.
///
/// Returns `DONE`. On an error, changes nothing. The error is `NO_SEAT` if `into` or `from` is empty, and `NO_GATHER`
/// if `into` and `from` are not two seats with equal lists and numbers. Does not block or allocate.
pub fn gather_seats(alloc: Global, into: &mut CSeat, from: &mut CSeat) -> u8
    requires { GathersAt into.old.full into.old.held from.old.full from.old.held }
{
    let Some(mut other) = take(alloc, from) else {
        return NO_SEAT;
    };
    let Some(mut seat) = take(alloc, into) else {
        put(from, other);
        return NO_SEAT;
    };
    let back = gather_held(alloc, &mut seat, replace(&mut *other, Held::Nothing));
    put(into, seat);
    let Some(back) = back else {
        return DONE;
    };
    *other = back;
    put(from, other);
    NO_GATHER
}

/// Closes the set. The handle `seat` must contain all seats of the set (one for each thread): they were never split
/// off, or were merged back. Afterwards, the handle owns a closed set with the final keys.
///
/// Returns `DONE`. On an error, changes nothing and returns the first error that applies: `NO_SEAT` if the handle
/// `seat` owns no seat, `SEATS_OUT` if it does not contain all seats of the set, `OUT_OF_MEMORY` if an allocation
/// failed. Does not block.
pub fn close_set(alloc: Global, seat: &mut CSeat) -> u8 {
    let Some(mut held) = take(alloc, seat) else {
        return NO_SEAT;
    };
    match close_held(alloc, replace(&mut *held, Held::Nothing)) {
        Ok(keys) => {
            *held = Held::Closed(keys);
            put(seat, held);
            DONE
        }
        Err((kept, code)) => {
            *held = kept;
            put(seat, held);
            code
        }
    }
}

/// Copies the keys of the closed set in the handle `closed` to `room` in strictly increasing order, if they fit.
/// Returns the number of keys, or 2^64 - 1 if `closed` owns no closed set. Does not block or allocate.
pub fn give_keys(alloc: Global, closed: &mut CSeat, room: &mut [u32]) -> usize {
    let Some(held) = take(alloc, closed) else {
        return usize::MAX;
    };
    let count = keys_held(&held, room);
    put(closed, held);
    count
}

/// Drops the value that the handle `seat` owns. The handle is empty afterwards. A set cannot be closed once one of its
/// seats (one for each thread) has been dropped. Does not block.
pub fn let_go(alloc: Global, seat: &mut CSeat) {
    let _held = take(alloc, seat);
}
