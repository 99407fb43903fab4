//! Exports the functions of `ffi_sets` to C: sets of keys that threads share. C code uses the sets through handles
//! (`CSeat`). A handle is empty, or owns a seat (one thread's access to a set), a receipt (a record of the calls that a
//! seat has seen), or a closed set.
//!
//! Each exported function calls the function of `ffi_sets` that has the same contract. The parameter `alloc` has size
//! zero: C passes no argument for it.
#![tactic(auto)]

ghost use Rattle.lset_words.specs.declared.Call.TheVariants.{Add, Remove, Contains, Ceiling};
ghost use Rattle.std.specs.Prelude.{◌≡◌, ◌<◌};
ghost use Rattle.lset_words.specs.Words.{IsWithin};
ghost use Rattle.lset_steps.specs.BoundedReads.{most_reads};
ghost use Rattle.ffi_sets.specs.Calls.{HasCeiling, HasGiven, HasHeeded, HasMade, HasReadHeld};
ghost use Rattle.ffi_sets.specs.Sets.{GathersAt};

use ffi_sets::CSeat;
use std::alloc::Global;

/// Opens a set of the list `kind`: 0 coarse, 1 fine, 2 optimistic, 3 lazy, 4 lock-free. The set has 1 to 64 `seats`
/// (one for each thread), a `quota` of 0 to 16,384 successful adds for each seat, and at most 1,048,576 opening `keys`
/// in strictly increasing order. Stores one seat in the handle `out`, which must be empty. All other seats can be split
/// off the stored seat. No other open set may have the number `number`, because `listset_gather` and `listset_after`
/// compare sets by their numbers.
///
/// Returns `DONE`. On an error, changes nothing and returns the error: `IS_SEAT` if `out` is not empty, `BAD_KIND`,
/// `BAD_SEATS`, `BAD_QUOTA`, `BAD_KEYS`, or `OUT_OF_MEMORY` if an allocation failed. Does not block.
#[unsafe(no_mangle)]
pub extern "C" fn listset_open(
    alloc: Global,
    kind: u8,
    seats: u32,
    quota: u32,
    number: u64,
    keys: &[u32],
    out: &mut CSeat,
) -> u8 {
    ffi_sets::open_set(alloc, kind, seats, quota, number, keys, out)
}

/// Splits a seat (one thread's access to the set) off the handle `seat` and stores it in the handle `out`, which must
/// be empty.
///
/// Returns `DONE`. On an error, changes nothing and returns the first error that applies: `IS_SEAT` if `out` is not
/// empty, `NO_SEAT` if `seat` is empty, `NO_MORE` if no seat can be split off `seat`, `OUT_OF_MEMORY` if an allocation
/// failed. Does not block.
#[unsafe(no_mangle)]
pub extern "C" fn listset_split(alloc: Global, seat: &mut CSeat, out: &mut CSeat) -> u8 {
    ffi_sets::split_seat(alloc, seat, out)
}

/// Adds `key` to the set. Returns 1 if the key was absent and has been added, 0 if it was present, and 2 if it was
/// absent but the seat has used up its quota of adds. Returns 255 if the handle `seat` owns no seat (one thread's
/// access to a set). Blocks while another thread holds a lock that the call needs. Does not allocate.
#[unsafe(no_mangle)]
pub extern "C" fn listset_add(alloc: Global, seat: &mut CSeat, key: u32) -> u8
    ensures { HasMade seat.old.full seat.old.held (Add (record { 0 = key })) result seat.new.full seat.new.held }
{
    ffi_sets::add_key(alloc, seat, key)
}

/// Removes `key` from the set. Returns 1 if the key was present, 0 if it was absent, and 255 if the handle `seat` owns
/// no seat (one thread's access to a set). Blocks while another thread holds a lock that the call needs. Does not
/// allocate.
#[unsafe(no_mangle)]
pub extern "C" fn listset_remove(alloc: Global, seat: &mut CSeat, key: u32) -> u8
    ensures { HasMade seat.old.full seat.old.held (Remove (record { 0 = key })) result seat.new.full seat.new.held }
{
    ffi_sets::remove_key(alloc, seat, key)
}

/// Returns 1 if `key` is in the set, 0 if it is not, and 255 if the handle `seat` owns no seat (one thread's access to
/// a set). On a coarse, fine or optimistic list, blocks while another thread holds a lock that the call needs. Does not
/// allocate.
#[unsafe(no_mangle)]
pub extern "C" fn listset_contains(alloc: Global, seat: &mut CSeat, key: u32) -> u8
    ensures { HasMade seat.old.full seat.old.held (Contains (record { 0 = key })) result seat.new.full seat.new.held }
{
    ffi_sets::contains_key(alloc, seat, key)
}

/// Finds the smallest key of the set that is at least `key`. Returns 3 and writes the key to `at`, or returns 4 if the
/// set has no such key. Returns 255 if the handle `seat` owns no seat (one thread's access to a set). On a coarse, fine
/// or optimistic list, blocks while another thread holds a lock that the call needs. On a lock-free list, the call can
/// wait until another thread adds or removes a key. Does not allocate.
#[unsafe(no_mangle)]
pub extern "C" fn listset_ceiling(alloc: Global, seat: &mut CSeat, key: u32, at: &mut u32) -> u8
    ensures { HasCeiling seat.old.full seat.old.held (Ceiling (record { 0 = key })) result at.old at.new seat.new.full seat.new.held }
{
    ffi_sets::ceiling_at(alloc, seat, key, at)
}

/// Returns 1 if `key` is in the set and 0 if it is not, without blocking: whatever other threads do, the call takes at
/// most `listset_most_reads` steps. On a coarse, fine or optimistic list, returns 254 without making a call. Returns
/// 255 if the handle `seat` owns no seat (one thread's access to a set). Does not allocate.
#[unsafe(no_mangle)]
pub extern "C" fn listset_contains_now(alloc: Global, seat: &mut CSeat, key: u32) -> u8
    ensures made { result < 254 → HasMade seat.old.full seat.old.held (Contains (record { 0 = key })) result seat.new.full seat.new.held }
    ensures within { result < 254 → HasReadHeld seat.old.held seat.new.held }
{
    ffi_sets::contains_key_now(alloc, seat, key)
}

/// Returns the maximum number of steps of a `contains` in any run of a lazy or lock-free list that opens for `seats`
/// threads with `opening` keys. `quota` is the number of successful adds that one thread may make. Returns 0 if no set
/// can be opened with the given numbers. Does not block or allocate.
#[unsafe(no_mangle)]
pub extern "C" fn listset_most_reads(seats: u32, quota: u32, opening: u32) -> u64
    ensures { IsWithin (record { threads = seats; quota = quota; opening = opening })
        → result ≡ most_reads (record { threads = seats; quota = quota; opening = opening }) }
{
    ffi_sets::most_reads(seats, quota, opening)
}

/// Stores a receipt in the handle `out`, which must be empty. The receipt covers everything that `seat` (one thread's
/// access to the set) has seen: the calls of `seat`, and everything seen by the seats merged into `seat` and by the
/// receipts that `seat` accepted. `seat` does not change.
///
/// Returns `DONE`. On an error, changes nothing and returns the first error that applies: `IS_SEAT` if `out` is not
/// empty, `NO_SEAT` if the handle `seat` owns no seat, `OUT_OF_MEMORY` if an allocation failed. Does not block.
#[unsafe(no_mangle)]
pub extern "C" fn listset_receipt_of(alloc: Global, seat: &mut CSeat, out: &mut CSeat) -> u8
    ensures { result ≡ 0 → HasGiven seat.old.full seat.old.held out.new.full out.new.held seat.new.full seat.new.held }
{
    ffi_sets::give_receipt(alloc, seat, out)
}

/// Passes the receipt `given` (a record of the calls that a seat has seen) to `seat` (one thread's access to the set).
/// In the order of all calls, later calls of `seat` follow every call that the receipt covers. `given` is empty
/// afterwards. The caller must ensure that a seat and a receipt with the same kind of list and the same set number
/// belong to the same set.
///
/// Returns `DONE`. On an error, changes nothing and returns `NO_SEAT` if `seat` or `given` is empty, or `NO_GATHER` if
/// they are not a seat and a receipt with the same kind of list and the same set number. Does not block or allocate.
#[unsafe(no_mangle)]
pub extern "C" fn listset_after(alloc: Global, seat: &mut CSeat, given: &mut CSeat) -> u8
    requires { GathersAt seat.old.full seat.old.held given.old.full given.old.held }
    ensures { result ≡ 0 → HasHeeded seat.old.full seat.old.held given.old.full given.old.held seat.new.full seat.new.held }
{
    ffi_sets::take_receipt(alloc, seat, given)
}

/// Returns the number of seats (one for each thread) that `seat` contains, including `seat` itself. Writes the number
/// of all seats of the set to `all`. Both numbers are 0 if the handle `seat` owns no seat. Does not block or allocate.
#[unsafe(no_mangle)]
pub extern "C" fn listset_seats_within(alloc: Global, seat: &mut CSeat, all: &mut u32) -> u64 {
    ffi_sets::count_seats(alloc, seat, all)
}

/// Merges the seat `from` (one thread's access to the set), including all seats that it contains, into `into`. `from`
/// is empty afterwards. The caller must ensure that two seats with the same kind of list and the same set number belong
/// to the same set.
///
/// Returns `DONE`. On an error, changes nothing and returns `NO_SEAT` if `into` or `from` is empty, or `NO_GATHER` if
/// they are not two seats with the same kind of list and the same set number. Does not block or allocate.
#[unsafe(no_mangle)]
pub extern "C" fn listset_gather(alloc: Global, into: &mut CSeat, from: &mut CSeat) -> u8
    requires { GathersAt into.old.full into.old.held from.old.full from.old.held }
{
    ffi_sets::gather_seats(alloc, into, from)
}

/// Closes the set. All seats of the set (one for each thread) must be in the handle `seat`: never split off, or merged
/// back. Afterwards, the handle owns a closed set with the final keys.
///
/// Returns `DONE`. On an error, changes nothing and returns the first error that applies: `NO_SEAT` if the handle
/// `seat` owns no seat, `SEATS_OUT` if it does not contain all seats of the set, `OUT_OF_MEMORY` if an allocation
/// failed. Does not block.
#[unsafe(no_mangle)]
pub extern "C" fn listset_close(alloc: Global, seat: &mut CSeat) -> u8 {
    ffi_sets::close_set(alloc, seat)
}

/// Copies the keys of the closed set in the handle `closed` to `room` in strictly increasing order, if they fit.
/// Returns the number of keys, or 2^64 - 1 if `closed` owns no closed set. Does not block or allocate.
#[unsafe(no_mangle)]
pub extern "C" fn listset_keys(alloc: Global, closed: &mut CSeat, room: &mut [u32]) -> usize {
    ffi_sets::give_keys(alloc, closed, room)
}

/// Drops the value that the handle `seat` owns, and leaves the handle empty. A set cannot be closed after one of its
/// seats (one for each thread) has been dropped. Does not block.
#[unsafe(no_mangle)]
pub extern "C" fn listset_drop(alloc: Global, seat: &mut CSeat) {
    ffi_sets::let_go(alloc, seat);
}
