ghost use Rattle.std.specs.Prelude.{◌≡◌, ◌+◌, ◌≤◌, ◌<◌, ◌^◌, ◌↔◌, ℕ, List, length, not, true, false, IsTrue, OnOk, OnErr, IfOk};
ghost use Rattle.std.specs.List.Sorted.{IsStrictlyIncreasing};
ghost use Rattle.lset_history.specs.Changes.{
  IsFirst,
  no_changes,
  changes_in,
  moments_of,
  noted_of,
  is_present,
  is_present_now,
  IsLaterThanAll,
  with_change,
  opened_moments,
  IsCountUpTo,
  IsBounded,
};
ghost use Rattle.lset_history.specs.Raising.{
  IsNextNote,
  IsNextPresent,
  is_against,
  IsCandidate,
  IsBelow,
  IsSomeThere,
  CameAfter,
};
ghost use Rattle.lset_words.specs.Account.{IsCeiling};
ghost use Rattle.lset_words.specs.SequentialSet.{has_key};

use lset_words::keys_are_small;
use std::alloc::{AllocError, Global};
use std::collections::{BTreeMap, BTreeSet};
use std::marker::Model;
use std::ops::Bound;

/// The changes of a set over time: the moments when each key was added and removed. A moment is a number that dates an
/// event, from 1. At moment 0, before all events, the set has exactly the opening keys.
#[derive(Drop)]
pub struct Changes {
    alloc: Global,
    /// The opening keys (the keys in the set before all events), in increasing order. `moments` and `keys_at` contain
    /// only later changes.
    opening: Vec<u32>,
    /// Maps each key that was added or removed to the moments of its changes, in increasing order. Additions and
    /// removals of a key alternate.
    moments: BTreeMap<u32, Vec<u32>>,
    /// Maps the moment of each change to the key that changed. If an allocation fails in `note`, `keys_at` and
    /// `keys_now` can keep a surplus entry for a change that was not recorded.
    keys_at: BTreeMap<u32, u32>,
    /// The keys that the set has after the last change.
    keys_now: BTreeSet<u32>,
}

impl Model for Changes {
    ghost use Rattle.lset_history.specs.Changes.{ChangesValue, changes_in, AreKept};

    ghost Value = { ChangesValue };

    ghost view = { λ c. changes_in c.opening.items c.moments };

    ghost invariant = { λ c. AreKept (changes_in c.opening.items c.moments) c.keys_at c.keys_now };
}

/// Returns how many items of `moments` are at or before `at`, and how many items the binary search compared with `at`.
/// `moments` must increase strictly.
fn count_upto(moments: &[u32], at: u32) -> (usize, u32)
    requires { IsStrictlyIncreasing moments.now }
    ensures count { IsCountUpTo moments.now at result.0 }
    ensures looked { (b : ℕ) → b ≤ 64 → length moments.now < 2 ^ b → result.1 ≤ b }
    ensures needed { (b : ℕ) → 2 ^ b ≤ length moments.now + 1 → b ≤ result.1 }
{
    let mut low = 0;
    let mut high = moments.len();
    let mut looked = 0u32;
    while low < high {
        let middle = low + (high - low) / 2;
        if moments[middle] <= at {
            low = middle + 1;
        } else {
            high = middle;
        }
        looked += 1;
    }
    (low, looked)
}

fn is_past(end: Option<u32>, key: u32) -> bool
    ensures { IsTrue result ↔ (IsBelow key end → ⊥) }
{
    match end {
        Some(end) => end <= key,
        None => false,
    }
}

/// Records that `key` was added or removed at the moment `at`. If an allocation fails, returns `AllocError` and leaves
/// `moments` unchanged.
fn push_moment(
    moments: &mut BTreeMap<u32, Vec<u32>>,
    alloc: Global,
    key: u32,
    at: u32,
) -> Result<(), AllocError>
    ensures noted { OnOk result ((opening : List ℕ) (k : ℕ) → moments_of (changes_in opening moments.new) k
        ≡ with_change (moments_of (changes_in opening moments.old)) key at k) }
    ensures unchanged { OnErr result ((opening : List ℕ) → changes_in opening moments.new ≡ changes_in opening moments.old) }
{
    if let Some(moments) = moments.get_mut(&key) {
        moments.push(at)?;
        return Ok(());
    }
    let mut first = Vec::new(alloc);
    first.push(at)?;
    moments.insert(key, first)?;
    Ok(())
}

impl Changes {
    /// Returns a `Changes` without changes, for a set without opening keys. Does not allocate; later calls use `alloc`.
    pub fn new(alloc: Global) -> Changes
        ensures { result ≡ no_changes }
    {
        Changes {
            alloc,
            opening: Vec::new(alloc),
            moments: BTreeMap::new(alloc),
            keys_at: BTreeMap::new(alloc),
            keys_now: BTreeSet::new(alloc),
        }
    }

    /// Returns a `Changes` without changes, for a set with the opening keys `keys`, which must increase strictly.
    /// Allocates a copy of `keys`. Returns `AllocError` if the allocation fails.
    pub fn opened(alloc: Global, keys: &[u32]) -> Result<Changes, AllocError>
        requires { IsStrictlyIncreasing keys.now }
        ensures { IfOk result (λ c. (k : ℕ) → moments_of c k ≡ opened_moments keys.now k) }
    {
        keys_are_small(keys);
        Ok(Changes {
            alloc,
            opening: Vec::from_slice(alloc, keys)?,
            moments: BTreeMap::new(alloc),
            keys_at: BTreeMap::new(alloc),
            keys_now: keys.iter().copied().collect(alloc)?,
        })
    }

    /// Records that `key` was added (if `present` is true) or removed at the moment `at`. `at` must be above 0 and
    /// after every recorded moment. A key that is added must be absent; a key that is removed must be present. Can
    /// allocate. If an allocation fails, returns `AllocError` and records no change.
    pub fn note(&mut self, key: u32, present: bool, at: u32) -> Result<(), AllocError>
        requires later { IsLaterThanAll (moments_of self.old) at }
        requires turn { present ≡ not (is_present_now (moments_of self.old) key) }
        ensures noted { OnOk result ((k : ℕ) → moments_of self.new k ≡ with_change (moments_of self.old) key at k) }
        ensures unchanged { OnErr result (self.new ≡ self.old) }
    {
        // `key` is inserted into both indexes before its change is recorded. A removed key is removed from `keys_now`
        // only afterwards. After a failed allocation, an index can therefore have a surplus entry, but no entry is
        // missing.
        self.keys_at.insert(at, key)?;
        self.keys_now.insert(key)?;
        push_moment(&mut self.moments, self.alloc, key, at)?;
        if !present {
            self.keys_now.remove(&key);
        }
        Ok(())
    }

    /// Searches for the first moment from `from` to `to` when `key` is present (if `present` is true) or absent
    /// (otherwise). Returns the moment, or `None`, and the number of recorded moments that the search compared. `from`
    /// must be at most `to`.
    ///
    /// If the key changed at most 1,000,000 times, the binary search compares at most 24 moments. If the key changed n
    /// times after moment 0, the search compares at least log2(n + 1) moments, rounded down. No search by comparisons
    /// can guarantee fewer comparisons. Does not allocate.
    pub fn first(&self, key: u32, present: bool, from: u32, to: u32) -> (Option<u32>, u32)
        requires { from ≤ to }
        ensures first { IsFirst (λ m. is_present (moments_of self.now) key m ≡ present) from to result.0 }
        ensures few { length (moments_of self.now key) ≤ 1000000 → result.1 ≤ 24 }
        ensures needed { (b : ℕ) → 2 ^ b ≤ length (noted_of self.now key) + 1 → b ≤ result.1 }
    {
        let noted = self.noted(key);
        let (before, looked) = count_upto(noted, from);
        if ((before % 2 == 1) != self.opens_with(key)) == present {
            return (Some(from), looked);
        }
        if before == noted.len() {
            return (None, looked);
        }
        let next = noted[before];
        let found = if next <= to { Some(next) } else { None };
        (found, looked + 1)
    }

    fn opens_with(&self, key: u32) -> bool
        ensures { result ≡ has_key key self.now.opening }
    {
        let (upto, _looked) = count_upto(&self.opening, key);
        upto > 0 && self.opening[upto - 1] == key
    }

    /// Returns the moments when `key` was added or removed after moment 0, in increasing order.
    fn noted(&self, key: u32) -> &[u32]
        ensures value { result.now ≡ noted_of self.now key }
        ensures increases { IsStrictlyIncreasing result.now }
    {
        match self.moments.get(&key) {
            Some(moments) => moments,
            None => &[],
        }
    }

    fn was_present(&self, key: u32, moment: u32) -> bool
        ensures { result ≡ is_present (moments_of self.now) key moment }
    {
        self.first(key, true, moment, moment).0.is_some()
    }

    /// Returns the first entry of `keys_at` after `moment`: a moment, and the only key that can have changed at this
    /// moment. No key changed between `moment` and the moment of the entry. Returns `None` if no change comes after
    /// `moment`.
    fn note_after(&self, moment: u32) -> Option<(u32, u32)>
        ensures { IsNextNote (moments_of self.now) moment result }
    {
        let later = (Bound::Excluded(moment), Bound::Unbounded);
        match self.keys_at.range(later).next() {
            Some((at, key)) => Some((*at, *key)),
            None => None,
        }
    }

    /// Returns the smallest key above `key` in `keys_now`, or `None`. After the last change, the set contains no key
    /// between `key` and the result.
    fn present_after(&self, key: u32) -> Option<u32>
        ensures { IsNextPresent (moments_of self.now) key result }
    {
        let above = (Bound::Excluded(key), Bound::Unbounded);
        match self.keys_now.range(above).next() {
            Some(next) => Some(*next),
            None => None,
        }
    }

    /// Returns whether key `other` refutes the claim that, at `moment`, `found` is the smallest key of the set at or
    /// above `key`. If `found` is `None`, the claim is that there is no such key. A key from `key` to just below
    /// `found` refutes the claim if it is present; `found` itself refutes the claim if it is absent.
    fn is_against(&self, key: u32, found: Option<u32>, other: u32, moment: u32) -> bool
        ensures { result ≡ is_against (moments_of self.now) key found other moment }
    {
        match found {
            _ if other < key => false,
            Some(found) if found < other => false,
            Some(found) if found == other => !self.was_present(other, moment),
            _ => self.was_present(other, moment),
        }
    }

    /// Returns the only moment, from `from` on, that can be the first moment when `found` is the smallest key of the
    /// set at or above `key`. At each earlier moment from `from` on, some key refutes the claim that `found` is the
    /// smallest (see `is_against`). A key that refutes the claim at the returned moment also refutes it at all later
    /// moments.
    fn candidate(&self, key: u32, found: Option<u32>, from: u32) -> u32
        ensures { IsCandidate (moments_of self.now) key found from result }
    {
        let mut moment = from;
        let mut last = from;
        while let Some((at, noted)) = self.note_after(last) {
            // A key that refutes the claim at `moment` continues to refute it until the key is added or removed. The
            // only key that can change at the moment `at` is `noted`.
            if self.is_against(key, found, noted, moment) {
                moment = at;
            }
            last = at;
        }
        moment
    }

    /// Returns `true` only if each key from `key` to just below `end` that is present after the last change was absent
    /// at `moment`. Returns `false` only if some key from `key` to just below `end` was present at `moment`.
    fn came_after(&self, key: u32, end: Option<u32>, moment: u32) -> bool
        ensures came { IsTrue result → CameAfter (moments_of self.now) key end moment }
        ensures there { result ≡ false → IsSomeThere (moments_of self.now) key end moment }
    {
        let mut next = Some(key);
        while let Some(reached) = next {
            if is_past(end, reached) {
                break;
            }
            if self.was_present(reached, moment) {
                return false;
            }
            next = self.present_after(reached);
        }
        true
    }

    /// Returns the first moment from `from` to `to` when `found` is the smallest key of the set at or above `key`. If
    /// `found` is `None`, returns the first moment when the set contains no key at or above `key`. Returns `None` if
    /// there is no such moment. `from` must be at most `to`.
    ///
    /// Reads all changes after `from`, even those after `to`. A caller should therefore search before it records
    /// changes after `to`: all searches together then take time proportional to the sum of their ranges. Does not
    /// allocate.
    pub fn first_ceiling(&self, key: u32, found: Option<u32>, from: u32, to: u32) -> Option<u32>
        requires { from ≤ to }
        ensures first { IsFirst (λ m. IsCeiling (λ j. is_present (moments_of self.now) j m ≡ true) key found) from to result }
        ensures bounded { IsBounded (moments_of self.now) }
    {
        let _moments = &self.moments;
        let moment = self.candidate(key, found, from);
        let is_there = match found {
            Some(found) if found < key => false,
            Some(found) => self.was_present(found, moment),
            None => true,
        };
        if moment <= to && is_there && self.came_after(key, found, moment) {
            Some(moment)
        } else {
            None
        }
    }
}
