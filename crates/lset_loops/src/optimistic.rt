//! OptimisticList: a call walks without locks, locks the two nodes that the walk found, and walks again to check them.
ghost use Rattle.std.specs.Prelude.{IfSome};
ghost use Rattle.lset_optimistic.specs.Optimistic.{optimistic};
ghost use Rattle.lset_rule.specs.Seats.{HasCalled, MayCall};
ghost use Rattle.lset_loops.specs.Optimistic.{AreNeighbours, AtKey, HasLocked, HasReached, HasValidated, Leaves, StopsAt};

use crate::caller::Caller;
use crate::decision::{Decision, Found, decide, one_more};
use crate::node::Node;
use crate::parts::Link;
use lset_optimistic::OptimisticList;
use lset_rule::{OwnSlots, Pause, Rounds, TableSeat, Words};
use lset_words::{Call, HEAD, Reply};

/// The two nodes found by a walk, and the key of `pred` as the walk saw it (0 for the head).
#[derive(Clone, Copy)]
pub(crate) struct Stopped {
    pub(crate) found: Found,
    pub(crate) before: u64,
}

/// Walks from `first`, the node after the head, to the first key that is not smaller than the call's key. Returns that
/// key's node and the node before it, or `None` after `N::MOST` rounds.
#[inline(always)]
fn walk<P: Pause, N: Rounds>(
    caller: &Caller<OptimisticList, P>,
    place: &mut TableSeat,
    first: Node,
) -> Option<Stopped>
    requires { AtKey caller.now.origin caller.now.slots 0 first.number 0 place.old }
    ensures { IfSome result (λ f. StopsAt caller.now.origin caller.now.slots f place.new) }
{
    let key = caller.key;
    let mut pred = Node::head();
    let mut before = 0;
    let mut curr = first;
    for round in 0..N::MOST {
        let word = caller.load_key(place, curr); // row 2
        if word >= key {
            let found = Found { pred, curr, word };
            return Some(Stopped { found, before });
        }
        let link = caller.load_link(place, curr); // row 3
        pred = curr;
        before = word;
        curr = Node::behind(link);
    }
    None
}

/// Walks from the head a second time, and returns whether this walk reaches the node `pred` that the first walk found
/// before it meets a key greater than the key of `pred`. Returns `None` after `N::MOST` rounds.
#[inline(always)]
fn reaches<P: Pause, N: Rounds>(
    caller: &Caller<OptimisticList, P>,
    place: &mut TableSeat,
    stopped: Stopped,
) -> Option<bool>
    requires { HasLocked caller.now.origin caller.now.slots stopped place.old }
    ensures { IfSome result (λ r. HasReached caller.now.origin caller.now.slots stopped.found r place.new) }
{
    let pred = stopped.found.pred.number;
    let before = stopped.before;
    if pred == HEAD {
        return Some(true);
    }
    let mut node = Node::head();
    for round in 0..N::MOST {
        let link = caller.load_link(place, node); // row 6
        node = Node::behind(link);
        let word = caller.load_key(place, node); // row 7
        if word > before {
            return Some(false);
        }
        if node.number == pred {
            return Some(true);
        }
    }
    None
}

/// Returns whether the node `pred` that the walk found is still in the list and its link points to `curr`. Returns
/// `None` if the second walk has made `N::MOST` rounds. Both nodes must be locked.
fn validate<P: Pause, N: Rounds>(
    caller: &Caller<OptimisticList, P>,
    place: &mut TableSeat,
    stopped: Stopped,
) -> Option<bool>
    requires { HasLocked caller.now.origin caller.now.slots stopped place.old }
    ensures { IfSome result (λ r. HasValidated caller.now.origin caller.now.slots stopped.found r place.new) }
{
    let found = stopped.found;
    if !reaches::<P, N>(caller, place, stopped)? {
        return Some(false);
    }
    let link = caller.load_link(place, found.pred); // row 8
    if link / 2 != found.curr.number {
        return Some(false);
    }
    Some(true)
}

/// Makes the change that `decide` returns: links a new node between the two nodes in `found`, unlinks `found.curr`, or
/// changes nothing. The call must hold the locks of both nodes.
fn act<P: Pause>(
    caller: &Caller<OptimisticList, P>,
    place: &mut TableSeat,
    found: Found,
) -> (OwnSlots, Reply)
    requires { AreNeighbours caller.now.origin caller.now.slots found place.old }
    ensures { Leaves caller.now.origin found result place.new }
{
    match decide(caller.call, found.word, caller.slots) {
        Decision::PutIn => {
            caller.put_in(place, found); // rows 9, 10, 11
            (one_more(caller.slots), Reply::True)
        }
        Decision::TakeOut => {
            let link = caller.load_link(place, found.curr); // row 12
            caller.store_link(place, found.pred, Link::To(Node::behind(link))); // row 13
            (caller.slots, Reply::True)
        }
        Decision::Answer(reply) => (caller.slots, reply),
    }
}

/// Executes a whole call on an OptimisticList. Walks to the key without locks, locks the two nodes around the key, and
/// checks with a second walk that they are still neighbours in the list. If they are, adds or removes the key if
/// needed and releases both locks; otherwise releases both locks and starts over. This is Herlihy and Shavit's
/// optimistic list.
///
/// Returns the thread's slots (nodes reserved for its adds) after the call, and the reply. Returns `None` if a loop has
/// made `N::MOST` rounds and not ended. The call is then still pending, and keeps the locks that it holds.
pub fn optimistic_within<P: Pause, N: Rounds>(
    table: &Words<OptimisticList>,
    place: &mut TableSeat,
    slots: OwnSlots,
    call: Call,
    pause: &P,
) -> Option<(OwnSlots, Reply)>
    requires { MayCall optimistic table.now.table_id table.now.key slots place.old }
    ensures { IfSome result (λ r. HasCalled optimistic call place.old r place.new) }
{
    let caller = Caller::new(table, place, slots, call, pause);
    let mut link = caller.begin_at_head(place); // row 1
    for round in 0..N::MOST {
        let stopped = walk::<P, N>(&caller, place, Node::behind(link))?;
        let found = stopped.found;
        caller.lock::<N>(place, found.pred)?; // row 4
        caller.lock::<N>(place, found.curr)?; // row 5
        if validate::<P, N>(&caller, place, stopped)? {
            let answer = act(&caller, place, found);
            caller.unlock(place, found.pred); // row 14
            caller.unlock_last(place, found.curr); // row 15
            return Some(answer);
        }
        caller.unlock(place, found.pred); // row 14
        caller.unlock(place, found.curr); // row 15
        link = caller.load_link(place, Node::head()); // row 1
    }
    None
}
