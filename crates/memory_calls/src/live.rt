//! Makes every kind of call on a set that threads can share, from opening the set to reading its final keys, on each of
//! the five lists. A seat is one thread's handle to the set.

use crate::prelude::*;
use lset_coarse::CoarseList;
use lset_fine::FineList;
use lset_live::{Added, Countless, Running, RunningReads, Spin};
use lset_lock_free::LockFreeList;
use lset_optimistic::OptimisticList;
use lset_server::{Device, session};

fn last_seat<M: Running>(set: &LiveSet<M>, seats: &mut Vec<Seat<M>>) -> Result<Seat<M>> {
    match seats.pop() {
        Some(seat) => Ok(seat),
        None => Err(Error::msg("no seat is left")),
    }
}

fn opened<M: Running>(alloc: Global, calls: &mut Calls) -> Result<(LiveSet<M>, Seat<M>, Seat<M>)> {
    let (set, mut seats) = answer!(calls, "open", OpenFault::Memory, open::<M>(alloc, 2, 6))?;
    let one = last_seat(&set, &mut seats)?;
    let zero = last_seat(&set, &mut seats)?;
    Ok((set, zero, one))
}

fn add_six<M: Running, R: Wait>(rt: &R, set: &LiveSet<M>, seat: &mut Seat<M>) -> Result<()> {
    for key in 1..=6 {
        check(set.add(rt, seat, Key(key)) == Reply::True)?;
    }
    Ok(())
}

/// Changes the set until its keys are 1, 2, 4, 5 and 6. Then looks for a removed key and for the next larger key.
fn change_and_look<M: Running, R: Wait>(
    rt: &R,
    alloc: Global,
    calls: &mut Calls,
    set: &LiveSet<M>,
    seat: &mut Seat<M>,
) -> Result<()> {
    calls.announce(alloc, "LiveSet::add")?;
    add_six(rt, set, seat)?;
    calls.announce(alloc, "LiveSet::remove")?;
    check(set.remove(rt, seat, Key(3)) == Reply::True)?;
    calls.announce(alloc, "LiveSet::contains")?;
    check(set.contains(rt, seat, Key(3)) == Reply::False)?;
    calls.announce(alloc, "LiveSet::ceiling")?;
    check(set.ceiling(rt, seat, Key(3)) == Reply::At(Key(4)))
}

/// Makes a call without a runtime and expects the reply `wanted`. If another thread holds a lock, a call without a
/// runtime spins instead of blocking.
fn call_within<M: Running>(
    alloc: Global,
    calls: &mut Calls,
    set: &LiveSet<M>,
    seat: Seat<M>,
    call: Call,
    wanted: Reply,
) -> Result<Seat<M>> {
    calls.announce(alloc, "LiveSet::call_within")?;
    let made = set.call_within::<Spin, Countless>(seat, call, &Spin::new());
    let Some((seat, reply)) = made else {
        return Err(Error::msg("a call gave up"));
    };
    check(reply == wanted)?;
    Ok(seat)
}

/// Makes one call of each operation without a runtime. The calls leave the keys of the set unchanged.
fn call_each_within<M: Running>(
    alloc: Global,
    calls: &mut Calls,
    set: &LiveSet<M>,
    seat: Seat<M>,
) -> Result<Seat<M>> {
    let key = Key(9);
    let seat = call_within(alloc, calls, set, seat, Call::Add(key), Reply::True)?;
    let seat = call_within(alloc, calls, set, seat, Call::Contains(key), Reply::True)?;
    let found = Reply::At(key);
    let seat = call_within(alloc, calls, set, seat, Call::Ceiling(Key(7)), found)?;
    call_within(alloc, calls, set, seat, Call::Remove(key), Reply::True)
}

/// Makes the calls that return a `bool`, `Added` or `Option<Key>` instead of a `Reply`. Expects the result `added` for
/// an `add` of the absent key 8. The calls leave the keys of the set unchanged.
fn call_typed<M: Running, R: Wait>(
    rt: &R,
    alloc: Global,
    calls: &mut Calls,
    set: &LiveSet<M>,
    seat: &mut Seat<M>,
    added: Added,
) -> Result<()> {
    calls.announce(alloc, "Seat::add")?;
    check(seat.add(rt, set, Key(4)) == Added::Already && seat.add(rt, set, Key(8)) == added)?;
    calls.announce(alloc, "Seat::contains")?;
    check(seat.contains(rt, set, Key(4)) && !seat.contains(rt, set, Key(3)))?;
    calls.announce(alloc, "Seat::ceiling")?;
    check(seat.ceiling(rt, set, Key(3)) == Some(Key(4)))?;
    check(seat.ceiling(rt, set, Key(10)).is_none())?;
    calls.announce(alloc, "Seat::remove")?;
    check(seat.remove(rt, set, Key(8)) == (added == Added::New))?;
    check(!seat.remove(rt, set, Key(3)))
}

/// Passes a receipt (a record of the events that a seat has seen) from each of two seats (per-thread handles) to the
/// other.
fn pass_receipts<M: Running>(
    alloc: Global,
    calls: &mut Calls,
    set: &LiveSet<M>,
    zero: &mut Seat<M>,
    one: &mut Seat<M>,
) -> Result<()> {
    calls.announce(alloc, "LiveSet::receipt")?;
    let mut receipt = set.receipt(zero);
    calls.announce(alloc, "LiveSet::copied")?;
    let copy = set.copied(&mut receipt);
    calls.announce(alloc, "LiveSet::after")?;
    set.after(one, receipt);
    set.after(zero, copy);
    Ok(())
}

/// Runs a session that reads its request lines from memory: four calls, a wrong line, and `QUIT`.
fn answer_session<M: Running, R: Wait>(
    rt: &R,
    alloc: Global,
    calls: &mut Calls,
    set: &LiveSet<M>,
    seat: &mut Seat<M>,
) -> Result<()> {
    let mut written = answer!(
        calls,
        "Vec::with_capacity",
        AllocError,
        Vec::with_capacity(alloc, 64)
    )?;
    calls.announce(alloc, "session")?;
    let lines = b"ADD 7\nADD 7\nCONTAINS 7\nMOVE 7\nREMOVE 7\nQUIT\n".as_slice();
    let mut reader = Device::new(lines);
    let ended = session(rt, &mut reader, &mut Device::new(&mut written), set, seat);
    check(ended.calls == 4)?;
    check(written.as_slice() == b"TRUE\nFALSE\nTRUE\nBAD\nTRUE\nBYE\n".as_slice())
}

/// Merges both seats (per-thread handles to the set) into one and closes the set.
fn gather_and_close<M: Running>(
    alloc: Global,
    calls: &mut Calls,
    set: LiveSet<M>,
    mut zero: Seat<M>,
    one: Seat<M>,
) -> Result<()> {
    calls.announce(alloc, "LiveSet::gather")?;
    set.gather(&mut zero, one);
    calls.announce(alloc, "LiveSet::close")?;
    let Ok(closed) = set.close(zero) else {
        return Err(Error::msg("a seat is out"));
    };
    let keys = answer!(calls, "Closed::keys", AllocError, closed.keys())?;
    check(keys.as_slice() == [1, 2, 4, 5, 6].as_slice())
}

/// Opens a set, makes calls from both of its seats (per-thread handles to the set), and closes the set.
fn running_set<M: Running, R: Wait>(rt: &R, alloc: Global, calls: &mut Calls) -> Result<()> {
    let (set, mut zero, mut one) = opened::<M>(alloc, calls)?;
    change_and_look(rt, alloc, calls, &set, &mut zero)?;
    answer_session(rt, alloc, calls, &set, &mut one)?;
    pass_receipts(alloc, calls, &set, &mut zero, &mut one)?;
    let mut one = call_each_within(alloc, calls, &set, one)?;
    call_typed(rt, alloc, calls, &set, &mut one, Added::New)?;
    call_typed(rt, alloc, calls, &set, &mut zero, Added::Full)?;
    gather_and_close(alloc, calls, set, zero, one)
}

/// Makes calls on `key`, which is absent before and present afterwards. The calls return a `bool`, `Added` or
/// `Option<Key>` instead of a `Reply`.
fn add_typed<M: Running, R: Wait>(
    rt: &R,
    set: &LiveSet<M>,
    seat: &mut Seat<M>,
    key: u32,
) -> Result<()> {
    check(!seat.remove(rt, set, Key(key)) && !seat.contains(rt, set, Key(key)))?;
    check(seat.add(rt, set, Key(key)) == Added::New)?;
    check(seat.add(rt, set, Key(key)) == Added::Already && seat.contains(rt, set, Key(key)))?;
    check(seat.ceiling(rt, set, Key(key)) == Some(Key(key)))
}

const MANY: u32 = 1_100;

/// Adds keys in decreasing order, so that each new key becomes the first key of the list, and then removes them.
fn fill_and_empty<M: Running, R: Wait>(rt: &R, set: &LiveSet<M>, seat: &mut Seat<M>) -> Result<()> {
    add_typed(rt, set, seat, u32::MAX)?;
    for key in (0..MANY).rev() {
        add_typed(rt, set, seat, key)?;
    }
    for key in 0..MANY {
        check(seat.remove(rt, set, Key(key)))?;
    }
    Ok(())
}

/// Makes more than a thousand calls of each operation, with small keys and with the largest key. All calls are made
/// from one seat (per-thread handle to the set), into which the second seat was merged.
fn many_calls<M: Running, R: Wait>(rt: &R, alloc: Global, calls: &mut Calls) -> Result<()> {
    let (set, mut seats) = answer!(calls, "open", OpenFault::Memory, open::<M>(alloc, 2, 1_101))?;
    let one = last_seat(&set, &mut seats)?;
    let mut zero = last_seat(&set, &mut seats)?;
    set.gather(&mut zero, one);
    fill_and_empty(rt, &set, &mut zero)
}

/// Opens a set with a `contains` that never blocks, and looks for present and absent keys.
fn read_now<M: RunningReads, R: Wait>(rt: &R, alloc: Global, calls: &mut Calls) -> Result<()> {
    let (set, mut zero, mut one) = opened::<M>(alloc, calls)?;
    add_six(rt, &set, &mut one)?;
    calls.announce(alloc, "LiveSet::contains_now")?;
    check(set.contains_now(&mut zero, Key(4)))?;
    check(!set.contains_now(&mut zero, Key(7)))?;
    check(!set.contains_now(&mut zero, Key(u32::MAX)))
}

pub fn running_sets<R: Wait>(rt: &R, alloc: Global, calls: &mut Calls) -> Result<()> {
    running_set::<CoarseList, R>(rt, alloc, calls)?;
    running_set::<FineList, R>(rt, alloc, calls)?;
    running_set::<OptimisticList, R>(rt, alloc, calls)?;
    running_set::<LazyList, R>(rt, alloc, calls)?;
    running_set::<LockFreeList, R>(rt, alloc, calls)?;
    many_calls::<CoarseList, R>(rt, alloc, calls)?;
    many_calls::<FineList, R>(rt, alloc, calls)?;
    many_calls::<OptimisticList, R>(rt, alloc, calls)?;
    many_calls::<LazyList, R>(rt, alloc, calls)?;
    many_calls::<LockFreeList, R>(rt, alloc, calls)?;
    read_now::<LazyList, R>(rt, alloc, calls)?;
    read_now::<LockFreeList, R>(rt, alloc, calls)
}
