//! Makes calls for C, and converts replies and errors to the numbers that C functions return. Each call is made from a
//! seat (one thread's access to the set).
ghost use Rattle.std.specs.Prelude.{◌≡◌, true, false};
ghost use Rattle.ffi_sets.specs.Calls.{HasMade, code_of};

use crate::codes::{BAD_KEYS, BAD_QUOTA, BAD_SEATS, DONE, NO_SEAT, OUT_OF_MEMORY};
use crate::each::call_held;
use crate::held::Held;
use crate::seat::{CSeat, put, take};
use lset_live::OpenFault;
use lset_words::{Call, Reply};
use std::alloc::Global;

/// Converts a reply to a number: 0 for `False`, 1 for `True`, 2 for `Full`, 3 for `At`, 4 for `Nothing`, and 255 for
/// `None` (no reply).
pub fn reply_code(reply: Option<Reply>) -> u8
    ensures { result ≡ code_of reply }
{
    match reply {
        Some(Reply::False) => 0,
        Some(Reply::True) => 1,
        Some(Reply::Full) => 2,
        Some(Reply::At(_)) => 3,
        Some(Reply::Nothing) => 4,
        None => NO_SEAT,
    }
}

/// Converts an error of `lset_live::open_with` to the number that C functions return.
pub fn fault_code(fault: OpenFault) -> u8 {
    match fault {
        OpenFault::Seats => BAD_SEATS,
        OpenFault::Quota => BAD_QUOTA,
        OpenFault::Opening => BAD_KEYS,
        OpenFault::Memory => OUT_OF_MEMORY,
    }
}

/// Makes a call through the handle `seat` and returns the call's reply as a number. Returns 255 if the handle owns no
/// seat (one thread's access to a set). Also returns 255 if the call stops after 2^64 - 1 rounds of a loop without a
/// reply; the seat is then lost.
pub fn call_from_seat(alloc: Global, seat: &mut CSeat, call: Call) -> u8
    ensures { HasMade seat.old.full seat.old.held call result seat.new.full seat.new.held }
{
    let Some(mut held) = take(alloc, seat) else {
        return NO_SEAT;
    };
    let reply = call_held(&mut held, call);
    put(seat, held);
    reply_code(reply)
}

/// Moves `held` into a new box and stores the box in the handle `seat`, which must be empty. Returns `DONE`, or
/// `OUT_OF_MEMORY` if the allocation fails; the handle then stays empty.
pub fn put_new(alloc: Global, seat: &mut CSeat, held: Held) -> u8
    requires { seat.old.full ≡ false }
    ensures { result ≡ 0 → (seat.new.full ≡ true) × (seat.new.held ≡ held) }
{
    match Box::new(alloc, held) {
        Ok(boxed) => {
            put(seat, boxed);
            DONE
        }
        Err(_) => OUT_OF_MEMORY,
    }
}
