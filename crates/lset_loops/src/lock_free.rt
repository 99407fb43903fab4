//! LockFreeList: no locks. A call marks a node by a compare-and-exchange on the node's link, and the walks of `add` and
//! `remove` unlink marked nodes.
ghost use Rattle.std.specs.Prelude.{◌≡◌, IfSome};
ghost use Rattle.lset_steps.specs.ReadRows.{first_row};
ghost use Rattle.lset_lock_free.specs.LockFree.{lock_free};
ghost use Rattle.lset_rule.specs.Seats.{HasCalled, MayCall};
ghost use Rattle.lset_loops.specs.LockFree.{AtLink, HasTried, StopsAt};

use crate::caller::Caller;
use crate::decision::{Decision, Found, decide, one_more};
use crate::node::Node;
use crate::parts::Link;
use lset_lock_free::LockFreeList;
use lset_rule::{OwnSlots, Pause, Rounds, TableSeat, Words};
use lset_words::{Call, Reply};

/// Walks from `first`, the node after the head, to the first key that is not smaller than the call's key, and unlinks
/// marked nodes on the way (Herlihy and Shavit's `find`). Returns that key's node and the node before it, or `None`
/// after `N::MOST` rounds.
fn find<P: Pause, N: Rounds>(
    caller: &Caller<LockFreeList, P>,
    place: &mut TableSeat,
    first: Node,
) -> Option<Found>
    requires { AtLink caller.now.origin caller.now.slots 0 first.number place.old }
    ensures { IfSome result (λ f. StopsAt caller.now.origin caller.now.slots f place.new) }
{
    let key = caller.key;
    let mut pred = Node::head();
    let mut curr = first;
    for round in 0..N::MOST {
        let link = caller.load_link(place, curr); // row 2
        let succ = Node::behind(link);
        if link % 2 != 0 {
            if caller.exchange(place, pred, Link::To(curr), Link::To(succ)) { // row 3
                caller.goes_on();
                curr = succ;
                continue;
            }
            pred = Node::head();
            curr = Node::behind(caller.load_link(place, pred)); // row 1
            continue;
        }
        let word = caller.look_at_key(place, curr); // row 4
        if word >= key {
            return Some(Found { pred, curr, word });
        }
        caller.goes_on();
        pred = curr;
        curr = succ;
    }
    None
}

/// Makes the change that `decide` returns: links a new node between the two nodes in `found`, marks `found.curr` and
/// attempts to unlink it, or changes nothing. Returns `None` if a link has changed since the walk.
fn attempt<P: Pause>(
    caller: &Caller<LockFreeList, P>,
    place: &mut TableSeat,
    found: Found,
) -> Option<(OwnSlots, Reply)>
    requires { StopsAt caller.now.origin caller.now.slots found place.old }
    ensures { HasTried caller.now.origin caller.now.slots result place.new }
{
    match decide(caller.call, found.word, caller.slots) {
        Decision::PutIn => {
            caller.goes_on();
            let node = caller.fill_slot(place, found.curr); // rows 5, 6
            if !caller.exchange(place, found.pred, Link::To(found.curr), Link::To(node)) { // row 7
                return None;
            }
            Some((one_more(caller.slots), Reply::True))
        }
        Decision::TakeOut => {
            caller.goes_on();
            let succ = Node::behind(caller.load_link(place, found.curr)); // row 8
            if !caller.exchange(place, found.curr, Link::To(succ), Link::Marked(succ)) { // row 9
                return None;
            }
            caller.goes_on();
            caller.exchange_last(place, found.pred, Link::To(found.curr), Link::To(succ)); // row 10
            Some((caller.slots, Reply::True))
        }
        Decision::Answer(reply) => Some((caller.slots, reply)),
    }
}

/// Executes a whole `add` or `remove` on a LockFreeList. Walks to the key. Then an `add` links the thread's next slot
/// (an unused node) into the list, and a `remove` marks the node and attempts once to unlink it. Starts over if a link
/// has changed since the walk. This is Herlihy and Shavit's lock-free list.
///
/// Returns the thread's slots (nodes reserved for its adds) after the call, and the reply. Returns `None` if a loop has
/// made `N::MOST` rounds and not ended. The call is then still pending.
pub fn lock_free_change_within<P: Pause, N: Rounds>(
    table: &Words<LockFreeList>,
    place: &mut TableSeat,
    slots: OwnSlots,
    call: Call,
    pause: &P,
) -> Option<(OwnSlots, Reply)>
    requires may { MayCall lock_free table.now.table_id table.now.key slots place.old }
    requires changes { first_row call ≡ 1 }
    ensures { IfSome result (λ r. HasCalled lock_free call place.old r place.new) }
{
    let caller = Caller::new(table, place, slots, call, pause);
    let mut link = caller.begin_at_head(place); // row 1
    for round in 0..N::MOST {
        let found = find::<P, N>(&caller, place, Node::behind(link))?;
        match attempt(&caller, place, found) {
            Some(answer) => return Some(answer),
            None => link = caller.load_link(place, Node::head()), // row 1
        }
    }
    None
}
