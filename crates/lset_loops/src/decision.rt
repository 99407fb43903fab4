//! The decision of a call after its walk has stopped: to add the key, to remove the key, or only to reply.
ghost use Rattle.std.specs.Prelude.{◌≡◌, ◌<◌};
ghost use Rattle.lset_loops.specs.Calling.{Decides, HasStored, MayStore, one_more, put_stores, slot, slot_stores};

use crate::caller::Caller;
use crate::node::Node;
use crate::parts::Link;
use lset_rule::{OwnSlots, Pause, TableSeat};
use lset_steps::Machine;
use lset_steps::rows::ceiling_at;
use lset_words::{Call, Reply, slot_node};

/// The two nodes found by a walk: `curr` is the first node with a key that is not smaller than the call's key, and
/// `pred` is the node before `curr`. `word` is the key of `curr`.
#[derive(Clone, Copy)]
pub(crate) struct Found {
    pub pred: Node,
    pub curr: Node,
    pub word: u64,
}

/// The decision of a call after its walk has stopped: to link a node into the list, to unlink a node, or only to reply.
#[derive(Clone, Copy)]
pub(crate) enum Decision {
    PutIn,
    TakeOut,
    Answer(Reply),
}

/// Returns the decision of `call` after its walk has stopped. `word` is the first key of the walk that is not smaller
/// than the call's key.
pub fn decide(call: Call, word: u64, slots: OwnSlots) -> Decision
    ensures deed { Decides call slots word result }
    ensures room { result ≡ Decision.PutIn → slots.used < slots.quota }
{
    let found = word == call.key().word();
    let room = slots.used < slots.quota;
    match call {
        Call::Add(_) if found => Decision::Answer(Reply::False),
        Call::Add(_) if room => Decision::PutIn,
        Call::Add(_) => Decision::Answer(Reply::Full),
        Call::Remove(_) if found => Decision::TakeOut,
        Call::Contains(_) if found => Decision::Answer(Reply::True),
        Call::Remove(_) | Call::Contains(_) => Decision::Answer(Reply::False),
        Call::Ceiling(_) => Decision::Answer(ceiling_at(word)),
    }
}

/// Returns the slots of a thread (nodes reserved for its adds) after the thread has used one more slot.
pub(crate) fn one_more(slots: OwnSlots) -> OwnSlots
    requires { slots.used < slots.quota }
    ensures { result ≡ one_more slots }
{
    OwnSlots {
        used: slots.used + 1,
        ..slots
    }
}

impl<'a, M: Machine, P: Pause> Caller<'a, M, P> {
    /// Stores the call's key and a link to `next` in the thread's next slot (an unused node), and returns the slot's
    /// node.
    pub fn fill_slot(&self, place: &mut TableSeat, next: Node) -> Node
        requires { MayStore M.table self.now.origin (slot_stores self.now.slots self.now.key next.number) place.old }
        ensures node { result.number ≡ slot self.now.slots }
        ensures stored { HasStored M.table self.now.origin (slot_stores self.now.slots self.now.key next.number) place.old place.new }
    {
        let slots = self.slots;
        let node = Node {
            number: slot_node(slots.quota, slots.thread, slots.used),
        };
        self.store_key(place, node, self.key);
        self.store_link(place, node, Link::To(next));
        node
    }

    /// Stores the call's key in the thread's next slot (an unused node), and links the node between the two nodes in
    /// `found`.
    pub fn put_in(&self, place: &mut TableSeat, found: Found)
        requires { MayStore M.table self.now.origin (put_stores self.now.slots self.now.key found.pred.number found.curr.number) place.old }
        ensures { HasStored M.table self.now.origin (put_stores self.now.slots self.now.key found.pred.number found.curr.number) place.old place.new }
    {
        let node = self.fill_slot(place, found.curr);
        self.store_link(place, found.pred, Link::To(node));
    }
}
