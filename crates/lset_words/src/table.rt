//! The layout of a list in memory: the index of each node's key word, link word and lock word.

ghost use Rattle.std.specs.Prelude.{◌≡◌, ◌+◌, ◌*◌, ◌^◌, ◌<◌, ◌≤◌};
ghost use Rattle.lset_words.specs.Words.{Sizes, IsWithin, node_count, word_count, slot_node, key_index, link_index, lock_index, WordsApart};
ghost use Rattle.lset_words.specs.Words.{SlotsApart};

use crate::{MOST_NODES, MOST_WORDS};
use std::marker::Model;

/// Returns the index of the word that stores the key of node `node`. `node` must be below `2^62`.
pub fn key_index(node: u64) -> u64
    requires { node < 2 ^ 62 }
    ensures { result ≡ key_index node }
{
    3 + 3 * node
}

/// Returns the index of the word that stores the link of node `node`. `node` must be below `2^62`.
pub fn link_index(node: u64) -> u64
    requires { node < 2 ^ 62 }
    ensures { result ≡ link_index node }
{
    4 + 3 * node
}

/// Returns the index of the word that stores the lock of node `node`. `node` must be below `2^62`.
pub fn lock_index(node: u64) -> u64
    requires { node < 2 ^ 62 }
    ensures { result ≡ lock_index node }
{
    5 + 3 * node
}

/// Returns the number of the node that is slot `slot` of thread `thread`. Each thread has `quota` slots (nodes reserved
/// for its adds). Accepts all values: if `slot` is not below `quota`, the result is a slot of a later thread, or is not
/// the number of a node.
pub fn slot_node(quota: u32, thread: u32, slot: u32) -> u64
    ensures { result ≡ slot_node quota thread slot }
{
    2 + u64::from(thread) * u64::from(quota) + u64::from(slot)
}

/// The layout of a list's table of words, for 1 to 64 threads, each with a quota of 0 to 16,384 successful adds, and 0
/// to 1,048,576 opening keys. Created by `layout` and `layout_opening`.
#[derive(Clone, Copy)]
pub struct Layout {
    threads: u32,
    quota: u32,
    opening: u32,
}

impl Model for Layout {
    ghost Value = { Sizes };

    ghost view = { λ l. record { threads = l.threads; quota = l.quota; opening = l.opening } };

    ghost invariant = { λ l. IsWithin (record { threads = l.threads; quota = l.quota; opening = l.opening }) };

    ghost inverse = { λ s. record { threads = s.threads; quota = s.quota; opening = s.opening } };
}

impl Layout {
    /// Returns the layout for `threads` threads with `quota` slots each (nodes reserved for adds), and `opening`
    /// opening keys. All three arguments must be within their limits.
    pub(crate) fn of(threads: u32, quota: u32, opening: u32) -> Layout
        requires { IsWithin (record { threads = threads; quota = quota; opening = opening }) }
        ensures { result ≡ record { threads = threads; quota = quota; opening = opening } }
    {
        Layout {
            threads,
            quota,
            opening,
        }
    }

    /// Returns the number of threads, 1 to 64.
    pub fn threads(&self) -> u32
        ensures value { result ≡ self.now.threads }
        ensures within { IsWithin self.now }
    {
        self.threads
    }

    /// Returns the quota of each thread (the number of adds that can succeed), 0 to 16,384.
    pub fn quota(&self) -> u32
        ensures value { result ≡ self.now.quota }
        ensures within { IsWithin self.now }
    {
        self.quota
    }

    /// Returns the number of opening keys, 0 to 1,048,576.
    pub fn opening(&self) -> u32
        ensures value { result ≡ self.now.opening }
        ensures within { IsWithin self.now }
    {
        self.opening
    }

    /// Returns the number of nodes: the head, the tail, one node for each slot of each thread (a slot is reserved for
    /// one add), and one node for each opening key.
    pub fn nodes(&self) -> u64
        ensures count { result ≡ node_count self.now }
        ensures few { result ≤ MOST_NODES }
    {
        2 + u64::from(self.threads) * u64::from(self.quota) + u64::from(self.opening)
    }

    /// Returns the number of words of the table, at most 6,291,465.
    pub fn words(&self) -> u64
        ensures count { result ≡ word_count self.now }
        ensures few { result ≤ MOST_WORDS }
    {
        3 + 3 * self.nodes()
    }

    /// Returns the index of the word that stores the key of node `i`. The index is below `words()`. `i` must be below
    /// `nodes()`.
    pub fn key_word(&self, i: u64) -> u64
        requires { i < node_count self.now }
        ensures index { result ≡ key_index i }
        ensures inside { result < word_count self.now }
    {
        let _nodes = self.nodes();
        key_index(i)
    }

    /// Returns the index of the word that stores the link of node `i`. The index is below `words()`. `i` must be below
    /// `nodes()`.
    pub fn link_word(&self, i: u64) -> u64
        requires { i < node_count self.now }
        ensures index { result ≡ link_index i }
        ensures inside { result < word_count self.now }
    {
        let _nodes = self.nodes();
        link_index(i)
    }

    /// Returns the index of the word that stores the lock of node `i`. The index is below `words()`. `i` must be below
    /// `nodes()`.
    pub fn lock_word(&self, i: u64) -> u64
        requires { i < node_count self.now }
        ensures index { result ≡ lock_index i }
        ensures inside { result < word_count self.now }
    {
        let _nodes = self.nodes();
        lock_index(i)
    }

    /// Returns the number of the node that is slot `j` of thread `t`: the node that the thread's successful add number
    /// `j`, counted from 0, uses up. `j` must be below `quota()`, and `t` must be below `threads()`.
    pub fn slot(&self, t: u32, j: u32) -> u64
        requires thread { t < self.now.threads }
        requires slot { j < self.now.quota }
        ensures node { result ≡ slot_node self.now.quota t j }
        ensures user { 1 < result }
        ensures inside { result < node_count self.now }
    {
        slot_node(self.quota, t, j)
    }
}

/// Lemma: different words of the table have different indices, and different slots (nodes reserved for adds) are
/// different nodes.
pub fn words_are_apart()
    ensures words { WordsApart }
    ensures slots { SlotsApart }
{}
