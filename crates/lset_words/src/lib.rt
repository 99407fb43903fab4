//! Keys, calls, replies, the layout of a list's words, and histories of calls.
//!
//! This crate's specs define the terms of the main theorem: the sequential set, the history of a run, an order of the
//! calls that explains the history, and the keys in the set at each moment. A run is defined in `lset_steps`. The
//! crates that prove the theorem for each list, run the lists in threads, replay schedules, and check reports all use
//! the definitions of this crate. To understand the theorem, read the definitions once.
//!
//! A function of this library allocates only if it has a parameter `alloc: Global`, or a parameter that was created
//! with an `alloc: Global`. A function blocks only if it has a parameter `rt` (the runtime) with `Wait`. The table of
//! words, the limits, and the call `ceiling` are not from the literature.
#![tactic(auto)]

ghost use Rattle.std.specs.Prelude.{◌≡◌, ℕ, ◌+◌, ◌/◌, ◌%◌, ◌<◌, ◌^◌, IsTrue, ◌↔◌, All, Bool, IfOk, IfErr};
ghost use Rattle.std.specs.List.Sorted.{IsStrictlyIncreasing};
ghost use Rattle.lset_words.specs.Words.{key_word_of, key_of, packed, RefusesSizes};

mod effect;
mod history;
mod layout_fault;
mod set_calls;
mod table;

pub use effect::{Effect, Presence};
pub use history::{CallRecord, Placed, Point};
pub use layout_fault::LayoutFault;
pub use set_calls::SetCalls;
pub use table::{Layout, key_index, link_index, lock_index, slot_node, words_are_apart};

/// The maximum number of threads of a list.
pub const MOST_THREADS: u32 = 64;

/// The maximum quota: how many adds by one thread can succeed over the life of a list. Each successful add uses up a
/// slot, which is a node that belongs to the thread.
pub const MOST_QUOTA: u32 = 16_384;

/// The maximum number of opening keys of a list (the keys that the list contains when it opens).
pub const MOST_OPENING: u32 = 1_048_576;

/// The maximum number of nodes of a list: the head, the tail, one node for each slot of each thread (a slot is a node
/// reserved for one add), and one node for each opening key.
pub const MOST_NODES: u64 = 2 + MOST_THREADS as u64 * MOST_QUOTA as u64 + MOST_OPENING as u64;

/// The maximum number of 64-bit words of a list: 3 for the list as a whole, and 3 for each node.
pub const MOST_WORDS: u64 = 3 + 3 * MOST_NODES;

/// The number of the head node in every list.
pub const HEAD: u64 = 0;

/// The number of the tail node in every list.
pub const TAIL: u64 = 1;

/// The index of the word that CoarseList uses as its only lock.
pub const LOCK: u64 = 0;

/// A key of a set: any `u32`.
#[derive(Clone, Copy, Debug, PartialEq, Eq, PartialOrd, Ord, Hash)]
pub struct Key(pub u32);

impl Key {
    /// Returns the word that stores the key in a node: the key plus 1. The head's key word is 0, and the tail's is
    /// `2^32 + 1`.
    pub fn word(self) -> u64
        ensures { result ≡ key_word_of self }
    {
        u64::from(self.0) + 1
    }
}

/// The five lists in Herlihy and Shavit's chapter on linked lists: coarse-grained, fine-grained, optimistic, lazy and
/// lock-free.
#[derive(Clone, Copy, Debug, PartialEq, Eq)]
pub enum Kind {
    Coarse,
    Fine,
    Optimistic,
    Lazy,
    LockFree,
}

/// A call on a set: `add`, `remove`, or `contains` with a key (Herlihy and Shavit's interface), or `ceiling`, which
/// asks for the smallest key that is not less than a given key.
#[derive(Clone, Copy, Debug, PartialEq, Eq)]
pub enum Call {
    Add(Key),
    Remove(Key),
    Contains(Key),
    /// Asks for the smallest key of the set that is not less than the given key.
    Ceiling(Key),
}

impl Call {
    /// Returns the key of the call.
    pub fn key(self) -> Key
        ensures { result ≡ key_of self }
    {
        match self {
            Call::Add(key) | Call::Remove(key) | Call::Contains(key) | Call::Ceiling(key) => key,
        }
    }
}

/// The reply of a completed call. `add`, `remove`, and `contains` reply `True` or `False`; `add` replies `Full` if the
/// key is absent and the thread has used up its quota of adds. `ceiling` replies `At` with the key that it found, or
/// `Nothing` if it found no key.
#[derive(Clone, Copy, Debug, PartialEq, Eq)]
pub enum Reply {
    True,
    False,
    Full,
    At(Key),
    Nothing,
}

/// Returns the layout of the words of a list that opens empty. The list has `threads` threads (1 to 64), each with a
/// quota of `quota` successful adds (0 to 16,384).
///
/// # Errors
///
/// Returns `LayoutFault::Threads` if `threads` is out of range, and otherwise `LayoutFault::Quota` if `quota` is out of
/// range.
pub fn layout(threads: u32, quota: u32) -> Result<Layout, LayoutFault>
    ensures sizes { IfOk result (λ l. l ≡ record { threads = threads; quota = quota; opening = 0 }) }
    ensures refused { IfErr result (RefusesSizes (record { threads = threads; quota = quota; opening = 0 })) }
{
    layout_opening(threads, quota, 0)
}

/// Returns the layout of the words of a list that opens with `opening` keys (0 to 1,048,576). The list has `threads`
/// threads (1 to 64), each with a quota of `quota` successful adds (0 to 16,384). Each opening key has its own node,
/// which does not count toward a thread's quota.
///
/// # Errors
///
/// Returns the first error that applies: `LayoutFault::Threads` if `threads` is out of range, `LayoutFault::Quota` if
/// `quota` is out of range, or `LayoutFault::Opening` if `opening` is out of range.
pub fn layout_opening(threads: u32, quota: u32, opening: u32) -> Result<Layout, LayoutFault>
    ensures sizes { IfOk result (λ l. l ≡ record { threads = threads; quota = quota; opening = opening }) }
    ensures refused { IfErr result (RefusesSizes (record { threads = threads; quota = quota; opening = opening })) }
{
    if threads == 0 || threads > MOST_THREADS {
        return Err(LayoutFault::Threads);
    }
    if quota > MOST_QUOTA {
        return Err(LayoutFault::Quota);
    }
    if opening > MOST_OPENING {
        return Err(LayoutFault::Opening);
    }
    Ok(Layout::of(threads, quota, opening))
}

/// Returns whether the keys are strictly increasing.
pub fn increases(keys: &[u32]) -> bool
    ensures { IsTrue result ↔ IsStrictlyIncreasing keys.now }
{
    for i in 1..keys.len() {
        if keys[i - 1] >= keys[i] {
            return false;
        }
    }
    true
}

/// Lemma: each key in `keys` is below `2^32`.
pub fn keys_are_small(keys: &[u32])
    ensures { All (λ k. k < 2 ^ 32) keys.now }
{
    let _keys = keys;
}

/// Packs a link word. `next`, below `2^63`, is the number of the next node, and `mark` is true if the node that has the
/// link is marked as removed. The number and the mark share one word, so one compare-and-exchange can change both
/// (Harris).
pub fn pack(next: u64, mark: bool) -> u64
    requires { next < 2 ^ 63 }
    ensures { result ≡ packed next mark }
{
    if mark { 2 * next + 1 } else { 2 * next }
}

/// Unpacks a link word into the number of the next node and the mark. Inverts `pack`, and accepts every `u64`.
pub fn unpack(word: u64) -> (u64, bool)
    ensures next { result.0 ≡ word / 2 }
    ensures mark { IsTrue result.1 ↔ (word % 2 ≡ 1) }
    ensures undoes_pack { (next : ℕ) → (mark : Bool) → word ≡ packed next mark → result ≡ (next, mark) }
{
    (word / 2, word % 2 == 1)
}
