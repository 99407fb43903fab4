ghost use Rattle.std.specs.Prelude.{◌≡◌, ℕ, ◌<◌, IfOk, OnErr, if◌then◌else◌};
ghost use Rattle.std.specs.List.Sorted.{IsStrictlyIncreasing};
ghost use Rattle.lset_words.specs.declared.Call.{Call};
ghost use Rattle.lset_words.specs.declared.Reply.{Reply};
ghost use Rattle.lset_words.specs.Words.{empty};
ghost use Rattle.lset_history.specs.Oracle.{Answers, PutsIn, set_opened};

use crate::History;
use lset_words::{Call, Key, Reply};
use std::alloc::{AllocError, Global};
use std::collections::BTreeSet;
use std::marker::Model;

fn reply_of(found: bool) -> Reply
    ensures { result ≡ (if found then Reply.True else Reply.False) }
{
    if found { Reply::True } else { Reply::False }
}

fn tree_of(alloc: Global, keys: &[u32]) -> Result<BTreeSet<u32>, AllocError>
    requires { IsStrictlyIncreasing keys.now }
    ensures { IfOk result (λ t. t.keys ≡ keys.now) }
{
    let mut tree = BTreeSet::new(alloc);
    for key in keys {
        tree.insert(*key)?;
    }
    Ok(tree)
}

/// The sequential set (with Herlihy and Shavit's interface) with a quota: the keys of the set, and the number of
/// successful adds of each thread. The quota is the number of successful adds that each thread can make.
#[derive(Drop)]
pub struct Oracle {
    alloc: Global,
    quota: u32,
    keys: BTreeSet<u32>,
    counts: Vec<u32>,
}

impl Model for Oracle {
    ghost use Rattle.lset_history.specs.Oracle.{OracleValue, set_of, KeepsCounts};

    ghost Value = { OracleValue };

    ghost view = { λ o. set_of o.quota o.keys.keys o.counts.items };

    ghost invariant = { λ o. KeepsCounts o.quota (record { keys = o.keys.keys; counts = o.counts.items }) };
}

impl Oracle {
    /// Returns the empty set for `threads` threads. Each thread can make `quota` successful adds. Accepts any numbers.
    /// Allocates a counter for each thread. Returns `AllocError` if an allocation fails.
    pub fn new(alloc: Global, threads: u32, quota: u32) -> Result<Oracle, AllocError>
        ensures { IfOk result (λ o. o ≡ set_opened (empty threads quota)) }
    {
        Oracle::opened(alloc, threads, quota, &[])
    }

    /// Returns a set with the opening keys `keys`, which must be in strictly increasing order and do not count toward a
    /// thread's quota (the number of successful adds that each thread can make). Accepts any `threads` and `quota`.
    /// Allocates. Returns `AllocError` if an allocation fails.
    pub fn opened(
        alloc: Global,
        threads: u32,
        quota: u32,
        keys: &[u32],
    ) -> Result<Oracle, AllocError>
        requires { IsStrictlyIncreasing keys.now }
        ensures { IfOk result (λ o. o ≡ set_opened (record { threads = threads; quota = quota; keys = keys.now })) }
    {
        let counts = vec![in alloc; 0; threads as usize]?;
        Ok(Oracle {
            alloc,
            quota,
            keys: tree_of(alloc, keys)?,
            counts,
        })
    }

    /// Returns the set in its opening state, before the first call of `history`. Allocates. Returns `AllocError` if an
    /// allocation fails.
    pub(crate) fn before(alloc: Global, history: &History) -> Result<Oracle, AllocError>
        ensures { IfOk result (λ o. o ≡ set_opened history.now.opening) }
    {
        Oracle::opened(alloc, history.threads(), history.quota(), history.opening())
    }

    /// Applies `call` of thread `thread`, which must be below the number of threads, to the set. Returns the reply.
    ///
    /// - `Add` returns `False` if the key is present; otherwise `Full` if the thread has used up its quota (the number
    /// of successful adds that each thread can make), else `True`.
    /// - `Remove` and `Contains` return `True` if the key is present, else `False`.
    /// - `Ceiling` returns `At` with the smallest key at or above its argument, or `Nothing` if there is no such key.
    ///
    /// Only an `Add` or a `Remove` that returns `True` changes the set. Only an `Add` that returns `True` allocates. If
    /// the allocation fails, returns `AllocError` and leaves the set unchanged.
    pub fn apply(&mut self, thread: u32, call: Call) -> Result<Reply, AllocError>
        requires { thread < self.old.threads }
        ensures answers { IfOk result (Answers self.old self.new thread call) }
        ensures growth { OnErr result (PutsIn self.old thread call) }
        ensures unchanged { OnErr result (self.new ≡ self.old) }
    {
        match call {
            Call::Add(key) => self.add(thread, key),
            Call::Remove(key) => Ok(self.remove(key)),
            Call::Contains(key) => Ok(self.contains(key)),
            Call::Ceiling(key) => Ok(self.ceiling(key)),
        }
    }

    fn add(&mut self, thread: u32, key: Key) -> Result<Reply, AllocError>
        requires { thread < self.old.threads }
        ensures answers { IfOk result (Answers self.old self.new thread (Call.Add key)) }
        ensures growth { OnErr result (PutsIn self.old thread (Call.Add key)) }
        ensures unchanged { OnErr result (self.new ≡ self.old) }
    {
        if self.keys.contains(&key.0) {
            return Ok(Reply::False);
        }
        let count = self.counts[thread as usize];
        if count == self.quota {
            return Ok(Reply::Full);
        }
        self.keys.insert(key.0)?;
        self.counts[thread as usize] = count + 1;
        Ok(Reply::True)
    }

    fn remove(&mut self, key: Key) -> Reply
        ensures { (thread : ℕ) → Answers self.old self.new thread (Call.Remove key) result }
    {
        reply_of(self.keys.remove(&key.0))
    }

    fn contains(&self, key: Key) -> Reply
        ensures { (thread : ℕ) → Answers self.now self.now thread (Call.Contains key) result }
    {
        reply_of(self.keys.contains(&key.0))
    }

    fn ceiling(&self, key: Key) -> Reply
        ensures { (thread : ℕ) → Answers self.now self.now thread (Call.Ceiling key) result }
    {
        match self.keys.range(key.0..).next() {
            Some(found) => Reply::At(Key(*found)),
            None => Reply::Nothing,
        }
    }

    /// Returns the keys of the set in strictly increasing order. Allocates one vector. Returns `AllocError` if the
    /// allocation fails.
    pub fn keys(&self) -> Result<Vec<u32>, AllocError>
        ensures keys { IfOk result (λ v. v.items ≡ self.now.state.keys) }
        ensures rising { IsStrictlyIncreasing self.now.state.keys }
    {
        self.keys.iter().copied().collect(self.alloc)
    }
}
