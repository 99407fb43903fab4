//! The numbers that the C functions return. `listset.h` has constants for them.

/// The function succeeded.
pub const DONE: u8 = 0;

/// The number of seats (one for each thread) is not between 1 and 64.
pub const BAD_SEATS: u8 = 10;

/// The quota (the maximum number of successful adds per seat) is greater than 16,384.
pub const BAD_QUOTA: u8 = 11;

/// There are more than 1,048,576 keys, or they are not in strictly increasing order.
pub const BAD_KEYS: u8 = 12;

/// An allocation failed.
pub const OUT_OF_MEMORY: u8 = 13;

/// No kind of list has the given number.
pub const BAD_KIND: u8 = 14;

/// The handle (`CSeat`) in which a function should store its result is not empty.
pub const IS_SEAT: u8 = 15;

/// The set cannot be closed: some of its seats (one for each thread) are not in the given handle, because they were
/// split off and not merged back.
pub const SEATS_OUT: u8 = 16;

/// No seat can be split off the given seat (one thread's access to the set).
pub const NO_MORE: u8 = 17;

/// The arguments are neither two seats nor a seat and a receipt, or they belong to different kinds of list or to sets
/// with different numbers. (A receipt contains the events that a seat, one thread's access to the set, has seen.)
pub const NO_GATHER: u8 = 18;

/// No call was made, because `contains` on a coarse, fine or optimistic list can block.
pub const MAY_BLOCK: u8 = 254;

/// The given `CSeat` (a handle that C code keeps) owns no seat (one thread's access to the set).
pub const NO_SEAT: u8 = 255;
