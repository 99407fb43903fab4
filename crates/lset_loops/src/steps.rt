//! The steps of a pending call. Each function requires that its step is the next step according to the list's step
//! table (its numbered atomic steps).
ghost use Rattle.std.specs.Prelude.{◌≡◌, ◌≢◌, ℕ, ◌+◌, None, IfSome};
ghost use Rattle.lset_words.specs.Words.{key_index, link_index, lock_index};
ghost use Rattle.lset_steps.specs.ReadRows.{continued};
ghost use Rattle.lset_steps.specs.declared.Action.TheVariants.{Load, Store, Exchange};
ghost use Rattle.lset_rule.specs.Calls.{Goes};
ghost use Rattle.lset_loops.specs.Calling.{HasExchanged, HasStepped, HasTold, Holds, MayAnswer, MayBegin, MayLock, MayStep, first};
ghost use Rattle.lset_loops.specs.Nodes.{index_of, word_of};

use crate::caller::Caller;
use crate::node::Node;
use crate::parts::{Link, Part};
use lset_rule::{Pause, Rounds, TableSeat, start_on, step_on};
use lset_steps::rows::link_index;
use lset_steps::{Action, Machine};
use std::marker::Brand;

impl<'a, M: Machine, P: Pause> Caller<'a, M, P> {
    /// Calls the pause. A loop calls this function after a step that could have ended the call but did not. The
    /// functions for all other steps call the pause themselves.
    #[inline(always)]
    pub fn goes_on(&self) {
        self.pause.moved(self.slots.thread);
    }

    /// Loads a word. The load can end the call. If the call continues, the loop must call `goes_on`.
    #[inline(always)]
    fn look_at(&self, place: &mut TableSeat, part: Part) -> u64
        requires { MayAnswer M.table self.now.origin (Load (index_of part)) place.old }
        ensures told { HasTold M.table self.now.origin place.old result place.new }
        ensures goes { Goes M.table place.old.me.0 result place.new.me.0 }
    {
        step_on::<M>(self.table, place, Action::Load(part.index()))
    }

    /// Loads the key of a node. The load can end the call. If the call continues, the loop must call `goes_on`.
    #[inline(always)]
    pub fn look_at_key(&self, place: &mut TableSeat, node: Node) -> u64
        requires { MayAnswer M.table self.now.origin (Load (key_index node.number)) place.old }
        ensures told { HasTold M.table self.now.origin place.old result place.new }
        ensures goes { Goes M.table place.old.me.0 result place.new.me.0 }
    {
        self.look_at(place, Part::Key(node))
    }

    /// Loads the link of a node. The load can end the call. If the call continues, the loop must call `goes_on`.
    #[inline(always)]
    pub fn look_at_link(&self, place: &mut TableSeat, node: Node) -> u64
        requires { MayAnswer M.table self.now.origin (Load (link_index node.number)) place.old }
        ensures told { HasTold M.table self.now.origin place.old result place.new }
        ensures goes { Goes M.table place.old.me.0 result place.new.me.0 }
    {
        self.look_at(place, Part::Link(node))
    }

    #[inline(always)]
    fn load(&self, place: &mut TableSeat, part: Part) -> u64
        requires { MayStep M.table self.now.origin (Load (index_of part)) place.old }
        ensures { HasStepped M.table self.now.origin place.old result place.new }
    {
        let seen = step_on::<M>(self.table, place, Action::Load(part.index()));
        self.goes_on();
        seen
    }

    /// Loads the key of a node.
    pub fn load_key(&self, place: &mut TableSeat, node: Node) -> u64
        requires { MayStep M.table self.now.origin (Load (key_index node.number)) place.old }
        ensures { HasStepped M.table self.now.origin place.old result place.new }
    {
        self.load(place, Part::Key(node))
    }

    /// Loads the link of a node.
    pub fn load_link(&self, place: &mut TableSeat, node: Node) -> u64
        requires { MayStep M.table self.now.origin (Load (link_index node.number)) place.old }
        ensures { HasStepped M.table self.now.origin place.old result place.new }
    {
        self.load(place, Part::Link(node))
    }

    #[inline(always)]
    fn store(&self, place: &mut TableSeat, part: Part, value: u64)
        requires { MayStep M.table self.now.origin (Store (index_of part) value) place.old }
        ensures { HasStepped M.table self.now.origin place.old value place.new }
    {
        step_on::<M>(self.table, place, Action::Store(part.index(), value));
        self.goes_on();
    }

    /// Stores the key of a node.
    pub fn store_key(&self, place: &mut TableSeat, node: Node, key: u64)
        requires { MayStep M.table self.now.origin (Store (key_index node.number) key) place.old }
        ensures { HasStepped M.table self.now.origin place.old key place.new }
    {
        self.store(place, Part::Key(node), key);
    }

    /// Stores the link of a node.
    pub fn store_link(&self, place: &mut TableSeat, node: Node, link: Link)
        requires { MayStep M.table self.now.origin (Store (link_index node.number) (word_of link)) place.old }
        ensures { HasStepped M.table self.now.origin place.old (word_of link) place.new }
    {
        self.store(place, Part::Link(node), link.word());
    }

    /// Releases the lock of a node, as a step that does not end the call.
    pub fn unlock(&self, place: &mut TableSeat, node: Node)
        requires { MayStep M.table self.now.origin (Store (lock_index node.number) 0) place.old }
        ensures { HasStepped M.table self.now.origin place.old 0 place.new }
    {
        self.store(place, Part::Lock(node), 0);
    }

    /// Attempts to change the link of a node from `old` to `new` by a compare-and-exchange, without calling the pause.
    /// Returns the value that the link had before the attempt.
    #[inline(always)]
    pub fn exchange_last(&self, place: &mut TableSeat, node: Node, old: Link, new: Link) -> u64
        requires { MayAnswer M.table self.now.origin (Exchange (link_index node.number) (word_of old) (word_of new)) place.old }
        ensures { HasTold M.table self.now.origin place.old result place.new }
    {
        let link = Part::Link(node).index();
        let action = Action::Exchange(link, old.word(), new.word());
        step_on::<M>(self.table, place, action)
    }

    /// Attempts to change the link of a node from `old` to `new` by a compare-and-exchange, and returns whether the
    /// link was changed. The exchange can end the call. If the link was changed and the call continues, the loop must
    /// call `goes_on`.
    #[inline(always)]
    pub fn exchange(&self, place: &mut TableSeat, node: Node, old: Link, new: Link) -> bool
        requires { MayAnswer M.table self.now.origin (Exchange (link_index node.number) (word_of old) (word_of new)) place.old }
        ensures { HasExchanged M.table self.now.origin (word_of old) place.old result place.new }
    {
        if self.exchange_last(place, node, old, new) != old.word() {
            self.pause.failed(self.slots.thread);
            return false;
        }
        true
    }

    /// Attempts to take the lock at index `word` of the shared words until an attempt succeeds. Returns `None` after
    /// `N::MOST` failed attempts.
    #[inline(never)]
    fn wait_for<N: Rounds>(&self, place: &mut TableSeat, word: u64) -> Option<()>
        requires { MayLock M.table self.now.origin word self.now.slots.thread place.old }
        ensures { IfSome result (λ _. HasStepped M.table self.now.origin place.old 0 place.new) }
    {
        let own = u64::from(self.slots.thread) + 1;
        for round in 0..N::MOST {
            let seen = step_on::<M>(self.table, place, Action::Exchange(word, 0, own));
            if seen == 0 {
                self.pause.taken(self.slots.thread);
                return Some(());
            }
            self.pause.failed(self.slots.thread);
        }
        None
    }

    /// Takes the lock at index `word`. Returns `None` after `N::MOST` + 1 failed attempts.
    #[inline(always)]
    fn take<N: Rounds>(&self, place: &mut TableSeat, word: u64) -> Option<()>
        requires { MayLock M.table self.now.origin word self.now.slots.thread place.old }
        ensures { IfSome result (λ _. HasStepped M.table self.now.origin place.old 0 place.new) }
    {
        let own = u64::from(self.slots.thread) + 1;
        let seen = step_on::<M>(self.table, place, Action::Exchange(word, 0, own));
        if seen != 0 {
            self.pause.failed(self.slots.thread);
            self.wait_for::<N>(place, word)?;
        } else {
            self.goes_on();
        }
        Some(())
    }

    /// Takes the lock of a node. Returns `None` after `N::MOST` + 1 failed attempts.
    #[inline(always)]
    pub fn lock<N: Rounds>(&self, place: &mut TableSeat, node: Node) -> Option<()>
        requires { MayLock M.table self.now.origin (lock_index node.number) self.now.slots.thread place.old }
        ensures { IfSome result (λ _. HasStepped M.table self.now.origin place.old 0 place.new) }
    {
        self.take::<N>(place, Part::Lock(node).index())
    }

    /// Starts the call by taking the lock at index `word`. Returns `None` after `N::MOST` + 1 failed attempts.
    pub fn begin_locked<N: Rounds>(&self, place: &mut TableSeat, word: u64) -> Option<()>
        requires begins { MayBegin M.table self.now.origin self.now.slots place.old }
        requires acts { Exchange word 0 (self.now.slots.thread + 1) ≡ M.table.next (first M.table self.now.origin self.now.slots) }
        requires again { (n : ℕ) → n ≢ 0 → M.table.feed (first M.table self.now.origin self.now.slots) n ≡ continued (first M.table self.now.origin self.now.slots) }
        requires goes_on { (M.table.feed (first M.table self.now.origin self.now.slots) 0).answer ≡ None }
        ensures { IfSome result (λ _. Holds M.table self.now.origin (M.table.feed (first M.table self.now.origin self.now.slots) 0).local place.new) }
    {
        let own = u64::from(self.slots.thread) + 1;
        let action = Action::Exchange(word, 0, own);
        let seen = start_on::<M, Brand>(self.table, place, self.call, action);
        if seen != 0 {
            self.pause.failed(self.slots.thread);
            self.wait_for::<N>(place, word)?;
        } else {
            self.goes_on();
        }
        Some(())
    }

    /// Starts the call by loading the head's link. Returns the link word.
    pub fn begin_at_head(&self, place: &mut TableSeat) -> u64
        requires begins { MayBegin M.table self.now.origin self.now.slots place.old }
        requires acts { Load (link_index 0) ≡ M.table.next (first M.table self.now.origin self.now.slots) }
        requires goes_on { (n : ℕ) → (M.table.feed (first M.table self.now.origin self.now.slots) n).answer ≡ None }
        ensures { Holds M.table self.now.origin (M.table.feed (first M.table self.now.origin self.now.slots) result).local place.new }
    {
        let action = Action::Load(link_index(0));
        let seen = start_on::<M, Brand>(self.table, place, self.call, action);
        self.goes_on();
        seen
    }

    /// Releases the lock at index `word`, as the last step of the call.
    pub fn release_last(&self, place: &mut TableSeat, word: u64)
        requires { MayAnswer M.table self.now.origin (Store word 0) place.old }
        ensures { HasTold M.table self.now.origin place.old 0 place.new }
    {
        step_on::<M>(self.table, place, Action::Store(word, 0));
    }

    /// Releases the lock of a node, as the last step of the call.
    pub fn unlock_last(&self, place: &mut TableSeat, node: Node)
        requires { MayAnswer M.table self.now.origin (Store (lock_index node.number) 0) place.old }
        ensures { HasTold M.table self.now.origin place.old 0 place.new }
    {
        self.release_last(place, Part::Lock(node).index());
    }
}
