//! FineList: each node has a lock. A walk takes the lock of a node before it releases the lock of the previous node.
ghost use Rattle.std.specs.Prelude.{IfSome};
ghost use Rattle.lset_fine.specs.Fine.{fine};
ghost use Rattle.lset_rule.specs.Seats.{HasCalled, MayCall};
ghost use Rattle.lset_loops.specs.Fine.{AtHead, Leaves, StopsAt};

use crate::caller::Caller;
use crate::decision::{Decision, Found, decide, one_more};
use crate::node::Node;
use crate::parts::Link;
use lset_fine::FineList;
use lset_rule::{OwnSlots, Pause, Rounds, TableSeat, Words};
use lset_steps::rows::lock_index;
use lset_words::{Call, HEAD, Reply};

/// Walks from the locked head to the first key that is not smaller than the call's key, and locks each node before it
/// releases the previous node. Returns the last two nodes, still locked, or `None` if a loop has made `N::MOST` rounds.
fn walk<P: Pause, N: Rounds>(caller: &Caller<FineList, P>, place: &mut TableSeat) -> Option<Found>
    requires { AtHead caller.now.origin caller.now.slots place.old }
    ensures { IfSome result (λ f. StopsAt caller.now.origin caller.now.slots f place.new) }
{
    let key = caller.key;
    let mut pred = Node::head();
    let mut curr = Node::behind(caller.load_link(place, pred)); // row 2
    for round in 0..N::MOST {
        caller.lock::<N>(place, curr)?; // row 3
        let word = caller.load_key(place, curr); // row 4
        if word >= key {
            return Some(Found { pred, curr, word });
        }
        caller.unlock(place, pred); // row 5
        let link = caller.load_link(place, curr); // row 6
        pred = curr;
        curr = Node::behind(link);
    }
    None
}

/// Makes the change that `decide` returns: links a new node between the two nodes in `found`, unlinks `found.curr`, or
/// changes nothing. The call must hold the locks of both nodes.
fn act<P: Pause>(
    caller: &Caller<FineList, P>,
    place: &mut TableSeat,
    found: Found,
) -> (OwnSlots, Reply)
    requires { StopsAt caller.now.origin caller.now.slots found place.old }
    ensures { Leaves caller.now.origin found result place.new }
{
    match decide(caller.call, found.word, caller.slots) {
        Decision::PutIn => {
            caller.put_in(place, found); // rows 7, 8, 9
            (one_more(caller.slots), Reply::True)
        }
        Decision::TakeOut => {
            let link = caller.load_link(place, found.curr); // row 10
            caller.store_link(place, found.pred, Link::To(Node::behind(link))); // row 11
            (caller.slots, Reply::True)
        }
        Decision::Answer(reply) => (caller.slots, reply),
    }
}

/// Executes a whole call on a FineList: walks to the key, locking each node before it releases the previous node, adds
/// or removes the key if needed, and releases both locks. This is Herlihy and Shavit's fine-grained list.
///
/// Returns the thread's slots (nodes reserved for its adds) after the call, and the reply. Returns `None` if a loop has
/// made `N::MOST` rounds and not ended. The call is then still pending, and keeps the locks that it holds.
pub fn fine_within<P: Pause, N: Rounds>(
    table: &Words<FineList>,
    place: &mut TableSeat,
    slots: OwnSlots,
    call: Call,
    pause: &P,
) -> Option<(OwnSlots, Reply)>
    requires { MayCall fine table.now.table_id table.now.key slots place.old }
    ensures { IfSome result (λ r. HasCalled fine call place.old r place.new) }
{
    let caller = Caller::new(table, place, slots, call, pause);
    caller.begin_locked::<N>(place, lock_index(HEAD))?; // row 1
    let found = walk::<P, N>(&caller, place)?;
    let answer = act(&caller, place, found);
    caller.unlock(place, found.curr); // row 12
    caller.unlock_last(place, found.pred); // row 13
    Some(answer)
}
