//! CoarseList: a single lock for the whole list.
ghost use Rattle.std.specs.Prelude.{IfSome};
ghost use Rattle.lset_coarse.specs.Coarse.{coarse};
ghost use Rattle.lset_rule.specs.Seats.{HasCalled, MayCall};
ghost use Rattle.lset_loops.specs.Coarse.{AtHead, Leaves, StopsAt};

use crate::caller::Caller;
use crate::decision::{Decision, Found, decide, one_more};
use crate::node::Node;
use crate::parts::Link;
use lset_coarse::CoarseList;
use lset_rule::{OwnSlots, Pause, Rounds, TableSeat, Words};
use lset_words::{Call, LOCK, Reply};

/// Walks from the head to the first key that is not smaller than the call's key. Returns that key's node and the node
/// before it, or `None` after `N::MOST` rounds.
fn walk<P: Pause, N: Rounds>(caller: &Caller<CoarseList, P>, place: &mut TableSeat) -> Option<Found>
    requires { AtHead caller.now.origin caller.now.slots place.old }
    ensures { IfSome result (λ f. StopsAt caller.now.origin caller.now.slots f place.new) }
{
    let key = caller.key;
    let mut pred = Node::head();
    let mut curr = Node::behind(caller.load_link(place, pred)); // row 2
    for round in 0..N::MOST {
        let word = caller.load_key(place, curr); // row 3
        if word >= key {
            return Some(Found { pred, curr, word });
        }
        let link = caller.load_link(place, curr); // row 4
        pred = curr;
        curr = Node::behind(link);
    }
    None
}

/// Makes the change that `decide` returns: links a new node between the two nodes in `found`, unlinks `found.curr`, or
/// changes nothing. The call must hold the list's lock.
fn act<P: Pause>(
    caller: &Caller<CoarseList, P>,
    place: &mut TableSeat,
    found: Found,
) -> (OwnSlots, Reply)
    requires { StopsAt caller.now.origin caller.now.slots found place.old }
    ensures { Leaves caller.now.origin result place.new }
{
    match decide(caller.call, found.word, caller.slots) {
        Decision::PutIn => {
            caller.put_in(place, found); // rows 5, 6, 7
            (one_more(caller.slots), Reply::True)
        }
        Decision::TakeOut => {
            let link = caller.load_link(place, found.curr); // row 8
            caller.store_link(place, found.pred, Link::To(Node::behind(link))); // row 9
            (caller.slots, Reply::True)
        }
        Decision::Answer(reply) => (caller.slots, reply),
    }
}

/// Executes a whole call on a CoarseList: takes the list's lock, walks to the key, adds or removes the key if needed,
/// and releases the lock. This is Herlihy and Shavit's coarse-grained list.
///
/// Returns the thread's slots (nodes reserved for its adds) after the call, and the reply. Returns `None` if a loop has
/// made `N::MOST` rounds and not ended. The call is then still pending, and keeps the locks that it holds.
pub fn coarse_within<P: Pause, N: Rounds>(
    table: &Words<CoarseList>,
    place: &mut TableSeat,
    slots: OwnSlots,
    call: Call,
    pause: &P,
) -> Option<(OwnSlots, Reply)>
    requires { MayCall coarse table.now.table_id table.now.key slots place.old }
    ensures { IfSome result (λ r. HasCalled coarse call place.old r place.new) }
{
    let caller = Caller::new(table, place, slots, call, pause);
    caller.begin_locked::<N>(place, LOCK)?; // row 1
    let found = walk::<P, N>(&caller, place)?;
    let answer = act(&caller, place, found);
    caller.release_last(place, LOCK); // row 10
    Some(answer)
}
