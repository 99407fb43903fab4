//! Worlds: a list and its threads at one moment of a run, executed event by event.

ghost use Rattle.std.specs.Prelude.{◌≡◌, ◌≢◌, ◌+◌, ◌*◌, ◌/◌, ◌%◌, ◌^◌, ◌<◌, ◌≤◌, IfOk, MatchOption, IsTrue, ◌↔◌, length, slice_index, map};
ghost use Rattle.std.specs.Prelude.{All};
ghost use Rattle.std.specs.List.{range_with_len};
ghost use Rattle.std.specs.List.Sorted.{IsStrictlyIncreasing};
ghost use Rattle.lset_words.specs.Words.{word_count, node_count, lock_index, opening_node, empty};
ghost use Rattle.lset_steps.specs.Chain.{node_key, node_link};
ghost use Rattle.lset_steps.specs.Steps.{Enabled, idle, opening, opening_of, opening_word, opening_next, opening_link, opening_key, after};
ghost use Rattle.lset_steps.specs.Steps.{told, local_of, seen_by, seen_next, left_by};
ghost use Rattle.lset_steps.specs.Laws.{StateLaws, word_named, view_of};
ghost use Rattle.lset_steps.specs.Worlds.{WorldState, IsRun, StepResult, IsContent, AreChainKeys, unmarked_keys, IsPickedFromChain};

use crate::{Action, Event, Local, Machine, Told};
use lset_words::{
    Call, HEAD, Layout, MOST_NODES, TAIL, key_index, keys_are_small, link_index, unpack,
};
use std::alloc::{AllocError, Global};
use std::marker::{Model, PhantomData};
use thiserror::Error;

/// The error of `World::step`. If several errors apply, the first in the order of the variants is returned. The world
/// (a list with its threads) is then unchanged.
#[derive(Clone, Copy, Debug, PartialEq, Eq, Error)]
pub enum StepFault {
    /// The world (a list with its threads) has no thread with the given number.
    #[error("no such thread")]
    NoThread,
    /// The thread already has a pending call.
    #[error("the thread already has a pending call")]
    Busy,
    /// The thread has no pending call.
    #[error("the thread has no pending call")]
    Idle,
}

/// A key in the chain of a list, and whether its node is marked as removed.
#[derive(Clone, Copy, Debug, PartialEq, Eq)]
pub struct ChainKey {
    pub key: u32,
    pub marked: bool,
}

/// A list and the threads that use it, at one moment of a run of machine `M`: the words of the list, and each thread's
/// private state. A world executes the run one event at a time, in a single real thread.
#[derive(Drop)]
pub struct World<M: Machine> {
    alloc: Global,
    threads: u32,
    quota: u32,
    opening: u32,
    words: Vec<u64>,
    locals: Vec<Local>,
    machine: PhantomData<M>,
}

impl<M: Machine> Model for World<M> {
    ghost Value = { WorldState };

    ghost view = { λ w. record {
      sizes = record { threads = w.threads; quota = w.quota; opening = w.opening };
      state = record { words = w.words.items; locals = w.locals.items };
    } };

    ghost invariant = { λ w. IsRun M.table (record {
      sizes = record { threads = w.threads; quota = w.quota; opening = w.opening };
      state = record { words = w.words.items; locals = w.locals.items };
    }) };
}

/// Returns the number of the first node after all slots (nodes reserved for adds): the node of the first opening key,
/// if any.
fn first_opening_node(layout: &Layout) -> u64
    ensures node { result ≡ opening_node layout.now 0 }
    ensures few { result + layout.now.opening ≤ MOST_NODES }
{
    let _nodes = layout.nodes();
    2 + u64::from(layout.threads()) * u64::from(layout.quota())
}

/// Returns the node of opening key `i`, or the tail if `i` is past the last opening key.
fn opening_next(layout: &Layout, i: u64) -> u64
    requires { i ≤ layout.now.opening }
    ensures node { result ≡ opening_next layout.now i }
    ensures few { result < MOST_NODES }
{
    if i < u64::from(layout.opening()) {
        first_opening_node(layout) + i
    } else {
        TAIL
    }
}

fn opening_link(layout: &Layout, node: u64) -> u64
    requires { node < node_count layout.now }
    ensures { result ≡ opening_link layout.now node }
{
    let first = first_opening_node(layout);
    if node == HEAD {
        2 * opening_next(layout, 0)
    } else if node == TAIL {
        2 * TAIL
    } else if node < first {
        0
    } else {
        2 * opening_next(layout, node - first + 1)
    }
}

fn opening_key(layout: &Layout, keys: &[u32], node: u64) -> u64
    requires node { node < node_count layout.now }
    requires keys { length keys.now ≡ layout.now.opening }
    ensures { result ≡ opening_key (opening_of layout.now keys.now) node }
{
    let first = first_opening_node(layout);
    if node == TAIL {
        4_294_967_297
    } else if node < first {
        0
    } else {
        u64::from(keys[(node - first) as usize]) + 1
    }
}

fn opening_word_at(layout: &Layout, keys: &[u32], i: u64) -> u64
    requires word { i < word_count layout.now }
    requires keys { length keys.now ≡ layout.now.opening }
    ensures { result ≡ opening_word (opening_of layout.now keys.now) i }
{
    if i == 0 {
        return 0;
    }
    if i == 1 {
        return u64::from(layout.threads());
    }
    if i == 2 {
        return u64::from(layout.quota());
    }
    let node = i / 3 - 1;
    match i % 3 {
        0 => opening_key(layout, keys, node),
        1 => opening_link(layout, node),
        _ => 0,
    }
}

/// Returns the words of a list before any event: a chain from the head through the nodes of the opening keys to the
/// tail, free locks, and zeros in unused slots (nodes reserved for adds). `keys` must contain exactly
/// `layout.opening()` keys. Allocates one vector of `layout.words()` words, at most 6,291,465. If the allocation fails,
/// returns `AllocError`.
pub fn opening_words(alloc: Global, layout: &Layout, keys: &[u32]) -> Result<Vec<u64>, AllocError>
    requires { length keys.now ≡ layout.now.opening }
    ensures words { IfOk result (λ v. v.items ≡ (opening (opening_of layout.now keys.now)).words) }
    ensures low { IfOk result (λ v. All (λ k. k < 2 ^ 32) keys.now) }
{
    keys_are_small(keys);
    let (words_in_all, behind_slots) = (layout.words(), 3 + 3 * first_opening_node(layout));
    let mut words = Vec::with_capacity(alloc, words_in_all as usize)?;
    for i in 0..9 {
        words.push(opening_word_at(layout, keys, i))?;
    }
    // The words of all slots (nodes that no add has used yet) are 0. A single `resize` writes all of them.
    words.resize(behind_slots as usize, 0)?;
    for i in behind_slots..words_in_all {
        words.push(opening_word_at(layout, keys, i))?;
    }
    Ok(words)
}

fn idle_locals(alloc: Global, layout: &Layout) -> Result<Vec<Local>, AllocError>
    ensures { IfOk result (λ v. v.items ≡ map (idle layout.now.quota) (range_with_len 0 layout.now.threads)) }
{
    let mut locals = Vec::new(alloc);
    for t in 0..layout.threads() {
        locals.push(Local::idle(layout, t))?;
    }
    Ok(locals)
}

/// Performs one access to a word, and returns the value that the access sees.
#[inline(always)]
fn access(words: &mut Vec<u64>, action: Action) -> u64
    requires { word_named action < length words.old.items }
    ensures seen { result ≡ seen_by words.old.items action }
    ensures left { words.new.items ≡ left_by words.old.items action }
{
    match action {
        Action::Load(w) => words[w as usize],
        Action::Store(w, v) => {
            words[w as usize] = v;
            v
        }
        Action::Exchange(w, old, new) => {
            let seen = words[w as usize];
            if seen == old {
                words[w as usize] = new;
            }
            seen
        }
    }
}

/// Returns the value that an action would see now, without performing the action.
fn sight(words: &[u64], action: Action) -> u64
    requires { word_named action < length words.now }
    ensures { result ≡ seen_by words.now action }
{
    match action {
        Action::Load(w) | Action::Exchange(w, _, _) => words[w as usize],
        Action::Store(_, v) => v,
    }
}

impl<M: Machine> World<M> {
    /// Returns an empty list before any event: no thread has a pending call. The layout must have no opening keys.
    /// Allocates the words and the threads' states. If an allocation fails, returns `AllocError`.
    pub fn new(alloc: Global, layout: Layout) -> Result<World<M>, AllocError>
        requires { layout.opening ≡ 0 }
        ensures { IfOk result (λ w. w ≡ record {
          sizes = layout;
          state = opening (empty layout.threads layout.quota);
        }) }
    {
        World::opened(alloc, layout, &[])
    }

    /// Returns a list that contains `keys`, before any event: no thread has a pending call. `keys` must contain exactly
    /// `layout.opening()` keys, in strictly increasing order. Any thread can remove opening keys. Allocates the words
    /// and the threads' states. If an allocation fails, returns `AllocError`.
    pub fn opened(alloc: Global, layout: Layout, keys: &[u32]) -> Result<World<M>, AllocError>
        requires many { length keys.now ≡ layout.opening }
        requires rising { IsStrictlyIncreasing keys.now }
        ensures { IfOk result (λ w. w ≡ record { sizes = layout; state = opening (opening_of layout keys.now) }) }
    {
        let words = opening_words(alloc, &layout, keys)?;
        let locals = idle_locals(alloc, &layout)?;
        Ok(World {
            alloc,
            threads: layout.threads(),
            quota: layout.quota(),
            opening: layout.opening(),
            words,
            locals,
            machine: PhantomData,
        })
    }

    /// Returns the word of the list with index `w`, which must be below the number of words.
    pub fn word(&self, w: u64) -> u64
        requires { w < word_count self.now.sizes }
        ensures { result ≡ slice_index self.now.state.words w }
    {
        self.words[w as usize]
    }

    /// Returns whether thread `t`, which must be below the number of threads, has a pending call.
    pub fn busy(&self, t: u32) -> bool
        requires { t < self.now.sizes.threads }
        ensures { IsTrue result ↔ ((local_of self.now.state t).pc ≢ 0) }
    {
        self.locals[t as usize].pc != 0
    }

    /// Returns the private state of thread `t`, or `None` if the world has no thread `t`.
    pub fn holds(&self, t: u32) -> Option<Local>
        ensures { MatchOption result (self.now.sizes.threads ≤ t) (λ l.
            (t < self.now.sizes.threads) × (l ≡ local_of self.now.state t)) }
    {
        if t < self.threads {
            Some(self.local(t))
        } else {
            None
        }
    }

    /// Returns the next access of thread `t` and the value that the access will see. Returns `None` if the world has no
    /// thread `t`, or if thread `t` has no pending call.
    pub fn next(&self, t: u32) -> Option<(Action, u64)>
        ensures { MatchOption result (Enabled self.now.state (Event.Go t) → ⊥) (λ s. Enabled self.now.state (Event.Go t)
            × (s.0 ≡ M.table.next (local_of self.now.state t)) × (s.1 ≡ seen_next M.table self.now.state t)) }
    {
        if t >= self.threads || self.local(t).pc == 0 {
            return None;
        }
        Some(self.next_access(t))
    }

    /// Returns the keys of the set in strictly increasing order: the keys of the unmarked nodes of the chain between
    /// head and tail. Allocates one vector. If the allocation fails, returns `AllocError` and changes nothing.
    pub fn content(&self) -> Result<Vec<u32>, AllocError>
        ensures { IfOk result (λ v. IsContent (view_of self.now.sizes self.now.state) v.items) }
    {
        self.walk(|met| if met.marked { None } else { Some(met.key) })
    }

    /// Returns the keys of the nodes between head and tail, in the order of the chain, each with its node's mark.
    /// Allocates one vector. If the allocation fails, returns `AllocError` and changes nothing. (Herlihy and Shavit's
    /// lists; the marks are Harris's.)
    pub fn chain(&self) -> Result<Vec<ChainKey>, AllocError>
        ensures keys { IfOk result (λ v. AreChainKeys (view_of self.now.sizes self.now.state) v.items) }
        ensures content { IfOk result (λ v.
            IsContent (view_of self.now.sizes self.now.state) (unmarked_keys v.items)) }
    {
        self.walk(|met| Some(met))
    }

    /// Walks along the chain, and calls `pick` with each key between head and tail. Collects all results except `None`.
    fn walk<T: Copy, F: Fn(ChainKey) -> Option<T>>(&self, pick: F) -> Result<Vec<T>, AllocError>
        requires { F.IsAlwaysCallable pick }
        ensures { IfOk result (λ v.
            IsPickedFromChain (F.post pick) (view_of self.now.sizes self.now.state) v.items) }
    {
        self.keeps_its_laws();
        let mut picked = Vec::new(self.alloc);
        let mut node = self.next_node(HEAD);
        while node != TAIL {
            let met = ChainKey {
                key: (self.node_key(node) - 1) as u32,
                marked: self.is_marked(node),
            };
            if let Some(item) = pick(met) {
                picked.push(item)?;
            }
            node = self.next_node(node);
        }
        Ok(picked)
    }

    /// Lemma: the state of a world (a list with its threads) satisfies the laws that hold in every state of every run.
    fn keeps_its_laws(&self)
        ensures { StateLaws M.table.marks self.now.sizes self.now.state }
    {
        let _words = &self.words;
    }

    fn node_key(&self, node: u64) -> u64
        requires { lock_index node < length self.now.state.words }
        ensures { result ≡ node_key self.now.state.words node }
    {
        self.words[key_index(node) as usize]
    }

    fn next_node(&self, node: u64) -> u64
        requires { lock_index node < length self.now.state.words }
        ensures { result ≡ node_link self.now.state.words node / 2 }
    {
        unpack(self.words[link_index(node) as usize]).0
    }

    fn is_marked(&self, node: u64) -> bool
        requires { lock_index node < length self.now.state.words }
        ensures { IsTrue result ↔ (node_link self.now.state.words node % 2 ≡ 1) }
    {
        unpack(self.words[link_index(node) as usize]).1
    }

    #[inline(always)]
    fn local(&self, t: u32) -> Local
        requires { t < self.now.sizes.threads }
        ensures { result ≡ local_of self.now.state t }
    {
        self.locals[t as usize]
    }

    fn next_access(&self, t: u32) -> (Action, u64)
        requires { Enabled self.now.state (Event.Go t) }
        ensures action { result.0 ≡ M.table.next (local_of self.now.state t) }
        ensures seen { result.1 ≡ seen_next M.table self.now.state t }
    {
        let words = &self.words;
        let local = self.local(t);
        let action = M::next(&local);
        let seen = sight(words, action);
        (action, seen)
    }

    fn begin(&mut self, t: u32, call: Call) -> Told
        requires { Enabled self.old.state (Event.Begin t call) }
        ensures new { self.new ≡ record self.old { state = after M.table self.old.state (Event.Begin t call) } }
        ensures told { result ≡ told M.table self.old.state (Event.Begin t call) }
    {
        let local = self.local(t);
        self.locals[t as usize] = M::begin(call, &local);
        Told {
            answer: None,
            change: None,
        }
    }

    /// Executes the next step of thread `t`. `local` is the private state of `t`.
    #[inline(always)]
    fn go_holding(&mut self, t: u32, local: Local) -> Told
        requires call { Enabled self.old.state (Event.Go t) }
        requires held { local ≡ local_of self.old.state t }
        ensures new { self.new ≡ record self.old { state = after M.table self.old.state (Event.Go t) } }
        ensures told { result ≡ told M.table self.old.state (Event.Go t) }
    {
        let words = &mut self.words;
        let action = M::next(&local);
        let seen = access(words, action);
        let fed = M::feed(&local, seen);
        let change = M::effect(&local, seen);
        self.locals[t as usize] = fed.local;
        Told {
            answer: fed.answer,
            change,
        }
    }

    /// Executes the next step of a thread that is at row `PC` of the step table. Because `PC` is a constant, the
    /// compiler keeps only the code of row `PC`, and the step writes only the fields of the thread's state that row
    /// `PC` changes.
    #[inline(always)]
    fn go_at<const PC: u8>(&mut self, t: u32) -> Told
        requires call { Enabled self.old.state (Event.Go t) }
        requires row { (local_of self.old.state t).pc ≡ PC }
        ensures new { self.new ≡ record self.old { state = after M.table self.old.state (Event.Go t) } }
        ensures told { result ≡ told M.table self.old.state (Event.Go t) }
    {
        let held = self.locals[t as usize];
        self.go_holding(t, Local { pc: PC, ..held })
    }

    /// Executes the next step of a thread at any row of the step table. Slower than `go_at`, which has code for one
    /// row.
    fn go_elsewhere(&mut self, t: u32) -> Told
        requires { Enabled self.old.state (Event.Go t) }
        ensures new { self.new ≡ record self.old { state = after M.table self.old.state (Event.Go t) } }
        ensures told { result ≡ told M.table self.old.state (Event.Go t) }
    {
        let held = self.locals[t as usize];
        self.go_holding(t, held)
    }

    /// Executes the next step of a thread with the code for its row of the step table. Each row of the five lists'
    /// tables has a match arm. Rows of other tables work without an arm, but more slowly.
    #[inline(always)]
    fn go(&mut self, t: u32) -> Told
        requires { Enabled self.old.state (Event.Go t) }
        ensures new { self.new ≡ record self.old { state = after M.table self.old.state (Event.Go t) } }
        ensures told { result ≡ told M.table self.old.state (Event.Go t) }
    {
        match self.locals[t as usize].pc {
            1 => self.go_at::<1>(t),
            2 => self.go_at::<2>(t),
            3 => self.go_at::<3>(t),
            4 => self.go_at::<4>(t),
            5 => self.go_at::<5>(t),
            6 => self.go_at::<6>(t),
            7 => self.go_at::<7>(t),
            8 => self.go_at::<8>(t),
            9 => self.go_at::<9>(t),
            10 => self.go_at::<10>(t),
            11 => self.go_at::<11>(t),
            12 => self.go_at::<12>(t),
            13 => self.go_at::<13>(t),
            14 => self.go_at::<14>(t),
            15 => self.go_at::<15>(t),
            20 => self.go_at::<20>(t),
            21 => self.go_at::<21>(t),
            22 => self.go_at::<22>(t),
            23 => self.go_at::<23>(t),
            24 => self.go_at::<24>(t),
            25 => self.go_at::<25>(t),
            _ => self.go_elsewhere(t),
        }
    }

    /// Executes one event. Returns the reply, if the event ends a call, and the key that the event adds or removes, if
    /// any. Does not allocate.
    ///
    /// # Errors
    ///
    /// Returns the first error that applies if the event is not enabled. The world is then unchanged.
    /// - `NoThread`: the world has no thread with the event's number;
    /// - `Busy`: the thread already has a pending call;
    /// - `Idle`: the thread has no pending call.
    #[inline(always)]
    pub fn step(&mut self, event: Event) -> Result<Told, StepFault>
        ensures { StepResult M.table self.old event result self.new }
    {
        match event {
            Event::Begin(t, call) => {
                if t >= self.threads {
                    return Err(StepFault::NoThread);
                }
                if self.local(t).pc != 0 {
                    return Err(StepFault::Busy);
                }
                Ok(self.begin(t, call))
            }
            Event::Go(t) => {
                if t >= self.threads {
                    return Err(StepFault::NoThread);
                }
                if self.local(t).pc == 0 {
                    return Err(StepFault::Idle);
                }
                Ok(self.go(t))
            }
        }
    }
}
