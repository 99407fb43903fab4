//! A `contains` that only reads, as in Herlihy and Shavit.
ghost use Rattle.std.specs.Prelude.{◌≡◌, ◌%◌, ◌==◌, if◌then◌else◌};
ghost use Rattle.lset_words.specs.declared.Call.TheVariants.{Contains};
ghost use Rattle.lset_words.specs.declared.Reply.TheVariants.{True, False};
ghost use Rattle.lset_steps.specs.RowLaws.{HasReading};
ghost use Rattle.lset_rule.specs.Seats.{HasCalled, MayCall};
ghost use Rattle.lset_lazy.proofs.Rows.{lazy_rows};
ghost use Rattle.lset_lock_free.proofs.Rows.{lock_free_rows};

use crate::caller::Caller;
use crate::node::Node;
use lset_lazy::LazyList;
use lset_lock_free::LockFreeList;
use lset_rule::{OwnSlots, Pause, TableSeat, Words};
use lset_steps::OpenReads;
use lset_words::{Call, Key, Reply};

/// A list whose step table has the common rows 20 to 25 for `contains` and `ceiling` (see `lset_steps`).
pub trait ReadsByRows: OpenReads {
    ghost reading: { HasReading Self.table };
}

impl ReadsByRows for LazyList {
    ghost reading = { lazy_rows.reading };
}

impl ReadsByRows for LockFreeList {
    ghost reading = { lock_free_rows.reading };
}

/// Returns the reply of a `contains` that has found its key. `link` is the link word of the node with the key. The key
/// is in the set if the node is unmarked.
fn reply_by_mark(link: u64) -> Reply
    ensures { result ≡ (if link % 2 == 0 then True else False) }
{
    if link % 2 == 0 {
        Reply::True
    } else {
        Reply::False
    }
}

/// Executes a whole `contains` of `key`: walks to the first key that is not smaller than `key`, and replies according
/// to the mark of its node. This is Herlihy and Shavit's wait-free `contains`.
///
/// `place` is an idle seat (per-thread handle) on the words `table`, and `slots` are the slots of its thread (nodes for
/// keys that it adds). Returns the slots and the reply. `pause` is called after each step that does not end the call.
/// Does not block, and always returns.
pub fn contains_on<M: ReadsByRows, P: Pause>(
    table: &Words<M>,
    place: &mut TableSeat,
    slots: OwnSlots,
    key: Key,
    pause: &P,
) -> (OwnSlots, Reply)
    requires { MayCall M.table table.now.table_id table.now.key slots place.old }
    ensures { HasCalled M.table (Contains key) place.old result place.new }
{
    let caller = Caller::new(table, place, slots, Call::Contains(key), pause);
    let target = caller.key;
    let mut curr = Node::behind(caller.begin_at_head(place)); // row 20
    loop {
        let word = caller.look_at_key(place, curr); // row 21
        if word > target {
            return (caller.slots, Reply::False);
        }
        caller.goes_on();
        if word == target {
            let mark = caller.look_at_link(place, curr); // row 22
            return (caller.slots, reply_by_mark(mark));
        }
        let link = caller.look_at_link(place, curr); // row 20
        caller.goes_on();
        curr = Node::behind(link);
    }
}

/// A pause that does nothing.
#[derive(Drop)]
struct Unasked;

impl Pause for Unasked {
    fn moved(&self, _thread: u32) {}

    fn failed(&self, _thread: u32) {}
}

/// Executes a whole `contains` of `key`, like [`contains_on`], without pausing.
pub fn contains_now_on<M: ReadsByRows>(
    table: &Words<M>,
    place: &mut TableSeat,
    slots: OwnSlots,
    key: Key,
) -> (OwnSlots, Reply)
    requires { MayCall M.table table.now.table_id table.now.key slots place.old }
    ensures { HasCalled M.table (Contains key) place.old result place.new }
{
    contains_on::<M, Unasked>(table, place, slots, key, &Unasked)
}
