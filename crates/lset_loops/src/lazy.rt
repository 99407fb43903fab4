//! LazyList: a node is marked before it is unlinked. A call walks without locks, locks the two nodes that the walk
//! found, and checks that they are still neighbours.
ghost use Rattle.lset_steps.specs.ReadRows.{first_row};
ghost use Rattle.std.specs.Prelude.{◌≡◌, IfSome};
ghost use Rattle.lset_lazy.specs.Lazy.{lazy};
ghost use Rattle.lset_rule.specs.Seats.{HasCalled, MayCall};
ghost use Rattle.lset_loops.specs.Lazy.{AreNeighbours, AtKey, HasLocked, HasValidated, Leaves, StopsAt};

use crate::caller::Caller;
use crate::decision::{Decision, Found, decide, one_more};
use crate::node::Node;
use crate::parts::Link;
use lset_lazy::LazyList;
use lset_rule::{OwnSlots, Pause, Rounds, TableSeat, Words};
use lset_words::{Call, Reply};

/// Walks from `first`, the node after the head, to the first key that is not smaller than the call's key. Returns that
/// key's node and the node before it, or `None` after `N::MOST` rounds.
#[inline(always)]
fn walk<P: Pause, N: Rounds>(
    caller: &Caller<LazyList, P>,
    place: &mut TableSeat,
    first: Node,
) -> Option<Found>
    requires { AtKey caller.now.origin caller.now.slots 0 first.number place.old }
    ensures { IfSome result (λ f. StopsAt caller.now.origin caller.now.slots f place.new) }
{
    let key = caller.key;
    let mut pred = Node::head();
    let mut curr = first;
    for round in 0..N::MOST {
        let word = caller.load_key(place, curr); // row 2
        if word >= key {
            return Some(Found { pred, curr, word });
        }
        let link = caller.load_link(place, curr); // row 3
        pred = curr;
        curr = Node::behind(link);
    }
    None
}

/// Returns the node after `curr` if `pred` leads to `curr` and neither is marked, otherwise `None`. Both nodes must be
/// locked.
fn validate<P: Pause>(
    caller: &Caller<LazyList, P>,
    place: &mut TableSeat,
    found: Found,
) -> Option<Node>
    requires { HasLocked caller.now.origin caller.now.slots found place.old }
    ensures { HasValidated caller.now.origin caller.now.slots found result place.new }
{
    let before = caller.load_link(place, found.pred); // row 6
    if before != 2 * found.curr.number {
        return None;
    }
    let after = caller.load_link(place, found.curr); // row 7
    if after % 2 != 0 {
        return None;
    }
    Some(Node::behind(after))
}

/// Makes the change that `decide` returns: links a new node between the two nodes in `found`, marks and unlinks
/// `found.curr`, or changes nothing. The call must hold the locks of both nodes; `succ` is the node after `found.curr`.
fn act<P: Pause>(
    caller: &Caller<LazyList, P>,
    place: &mut TableSeat,
    found: Found,
    succ: Node,
) -> (OwnSlots, Reply)
    requires { AreNeighbours caller.now.origin caller.now.slots found succ place.old }
    ensures { Leaves caller.now.origin found result place.new }
{
    match decide(caller.call, found.word, caller.slots) {
        Decision::PutIn => {
            caller.put_in(place, found); // rows 8, 9, 10
            (one_more(caller.slots), Reply::True)
        }
        Decision::TakeOut => {
            caller.store_link(place, found.curr, Link::Marked(succ)); // row 11
            caller.store_link(place, found.pred, Link::To(succ)); // row 12
            (caller.slots, Reply::True)
        }
        Decision::Answer(reply) => (caller.slots, reply),
    }
}

/// Executes a whole `add` or `remove` on a LazyList. Walks to the key without locks, locks the two nodes around the
/// key, and checks that they are still neighbours in the list. If they are, adds or removes the key if needed and
/// releases both locks; otherwise releases both locks and starts over. This is Herlihy and Shavit's lazy list, after
/// Heller and others.
///
/// Returns the thread's slots (nodes reserved for its adds) after the call, and the reply. Returns `None` if a loop has
/// made `N::MOST` rounds and not ended. The call is then still pending, and keeps the locks that it holds.
pub fn lazy_change_within<P: Pause, N: Rounds>(
    table: &Words<LazyList>,
    place: &mut TableSeat,
    slots: OwnSlots,
    call: Call,
    pause: &P,
) -> Option<(OwnSlots, Reply)>
    requires may { MayCall lazy table.now.table_id table.now.key slots place.old }
    requires changes { first_row call ≡ 1 }
    ensures { IfSome result (λ r. HasCalled lazy call place.old r place.new) }
{
    let caller = Caller::new(table, place, slots, call, pause);
    let mut link = caller.begin_at_head(place); // row 1
    for round in 0..N::MOST {
        let found = walk::<P, N>(&caller, place, Node::behind(link))?;
        caller.lock::<N>(place, found.pred)?; // row 4
        caller.lock::<N>(place, found.curr)?; // row 5
        match validate(&caller, place, found) {
            Some(succ) => {
                let answer = act(&caller, place, found, succ);
                caller.unlock(place, found.curr); // row 13
                caller.unlock_last(place, found.pred); // row 14
                return Some(answer);
            }
            None => {
                caller.unlock(place, found.curr); // row 13
                caller.unlock(place, found.pred); // row 14
                link = caller.load_link(place, Node::head()); // row 1
            }
        }
    }
    None
}
