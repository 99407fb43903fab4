//! Finds pairs of keys that undo each other's changes. A change is undone if an added key is lost, or a removed key
//! comes back, although no call removed or added it. In a pair, nearly every undone change of one key overlaps a change
//! of the other key, its partner, and fewer undone changes overlap a change of any third key.

use crate::key_calls::KeyCalls;
use crate::made_calls::Made;
use crate::neighbours::Neighbours;
use crate::symptoms::Place;
use std::alloc::{AllocError, Global};

/// For an undone change (its effect was lost without a call), at most this many overlapping changes of other keys are
/// counted, the latest first. The limit bounds the time.
const MOST_BESIDE: usize = 64;

/// A key can have a partner only if at least this many of its changes were undone (their effect was lost without a
/// call). Fewer overlaps can be chance.
const LEAST: u64 = 8;

/// At most this many other keys are counted for a key. If the limit is reached, the key has no partner, since further
/// keys were not counted.
const MOST_KEYS: usize = 16;

/// A key that can be the partner of the examined key.
#[derive(Clone, Copy)]
struct Partner {
    key: u32,
    /// How many undone changes of the examined key (their effect was lost without a call) overlap a change of `key`.
    hits: u64,
}

/// A key and its partner: nearly all undone changes of the key (their effect was lost without a call) overlap a change
/// of the partner.
#[derive(Clone, Copy)]
pub struct Bound {
    /// The key with the undone changes.
    pub one: u32,
    /// The partner.
    pub two: u32,
    /// How many undone changes of `one` overlap a change of `two`.
    pub hits: u64,
    /// How many changes of `one` were undone.
    pub of: u64,
}

/// The other keys with a change that overlaps an undone change (its effect was lost without a call) of the examined
/// key.
#[derive(Drop)]
struct Partners {
    /// At most `MOST_KEYS` of these keys.
    found: Vec<Partner>,
    /// How many changes of the examined key were undone.
    of: u64,
}

impl Partners {
    /// Counts one more undone change that overlaps a change of `key`. Ignores a new key after `MOST_KEYS` keys.
    fn count(&mut self, key: u32) -> Result<(), AllocError> {
        for partner in &mut self.found {
            if partner.key == key {
                partner.hits = partner.hits.saturating_add(1);
                return Ok(());
            }
        }
        if self.found.len() < MOST_KEYS {
            self.found.push(Partner { key, hits: 1 })?;
        }
        Ok(())
    }

    /// Returns the key with the most overlapped undone changes, and the largest such number among the other keys.
    /// `None` if no key was counted.
    fn best(&self) -> Option<(Partner, u64)> {
        let mut best = *self.found.first()?;
        let mut second = 0;
        for partner in self.found.get(1..).unwrap_or(&[]) {
            if partner.hits > best.hits {
                second = best.hits;
                best = *partner;
            } else {
                second = partner.hits.max(second);
            }
        }
        Some((best, second))
    }
}

/// Returns the change that a contradiction (two calls on a key that no order explains) shows to be undone: the add
/// before the key was lost, or the remove before the key came back. `None` if the contradiction shows no lost or
/// returned key, if it is not between two calls, or if the change is unknown or overlaps the second call.
fn undone_change(key: &KeyCalls, place: &Place) -> Option<Made> {
    let second = place.clash.second?;
    let first = place.clash.first?;
    let change = if first.changes() {
        first
    } else {
        key.change_before(place.clash.was, first.begun)?
    };
    if place.is_gone() && change.ended < second.begun {
        Some(change)
    } else {
        None
    }
}

/// Counts, for each other key, the undone changes of `key` that overlap a change of this other key. `places` are the
/// contradictions of `key` (two calls that no order explains), `neighbours` are the changes of all keys.
fn partners_of(
    alloc: Global,
    key: &KeyCalls,
    places: &[Place],
    neighbours: &Neighbours,
) -> Result<Partners, AllocError> {
    let mut partners = Partners {
        found: Vec::new(alloc),
        of: 0,
    };
    for place in places {
        let Some(change) = undone_change(key, place) else {
            continue;
        };
        partners.of = partners.of.saturating_add(1);
        let (since, until) = (change.begun, change.ended);
        let beside = neighbours.around(alloc, key.key, since, until, MOST_BESIDE)?;
        let mut keys = Vec::new(alloc);
        for call in &beside {
            keys.push(call.key)?;
        }
        keys.sort_unstable();
        keys.dedup();
        for other in &keys {
            partners.count(*other)?;
        }
    }
    Ok(partners)
}

/// Returns `key` and its partner, the key whose changes seem to undo the changes of `key`: they overlap at least 85
/// percent of the undone changes of `key`, and the changes of each third key overlap at most 70 percent as many. `None`
/// without such a partner, with fewer than `LEAST` undone changes, or with `MOST_KEYS` overlapping keys. `places` are
/// the contradictions of `key` (two calls that no order explains), `neighbours` the changes of all keys. Allocates.
pub fn bound_of(
    alloc: Global,
    key: &KeyCalls,
    places: &[Place],
    neighbours: &Neighbours,
) -> Result<Option<Bound>, AllocError> {
    let partners = partners_of(alloc, key, places, neighbours)?;
    let of = partners.of;
    let Some((best, second)) = partners.best() else {
        return Ok(None);
    };
    let is_most = best.hits.saturating_mul(100) >= of.saturating_mul(85);
    let is_only = second.saturating_mul(100) <= best.hits.saturating_mul(70);
    let is_each_counted = partners.found.len() < MOST_KEYS;
    if of < LEAST || !is_most || !is_only || !is_each_counted {
        return Ok(None);
    }
    Ok(Some(Bound {
        one: key.key,
        two: best.key,
        hits: best.hits,
        of,
    }))
}

/// A key with at least this many contradictions (two calls that no order explains) should have a partner. If one such
/// key has none, the recording is not considered to have pairs of keys.
const MANY_PLACES: usize = 20;

/// Counts of the keys with and without a partner, the key whose changes seem to undo theirs.
#[derive(Clone, Copy)]
pub struct BoundKeys {
    /// The key and the partner with the most undone changes.
    best: Option<Bound>,
    /// The number of keys with a partner.
    bound: u64,
    /// The number of keys with at least `MANY_PLACES` contradictions and no partner.
    unbound: u64,
}

impl BoundKeys {
    /// Creates the counts for no keys.
    pub fn new() -> BoundKeys {
        BoundKeys {
            best: None,
            bound: 0,
            unbound: 0,
        }
    }

    /// Counts a key. `found` is the key and its partner, if it has one. `places` is the number of the key's
    /// contradictions (two calls that no order explains).
    pub fn add(&mut self, found: Option<Bound>, places: usize) {
        let Some(next) = found else {
            if places >= MANY_PLACES {
                self.unbound = self.unbound.saturating_add(1);
            }
            return;
        };
        self.bound = self.bound.saturating_add(1);
        match self.best {
            Some(best) if best.of >= next.of => {}
            _ => self.best = Some(next),
        }
    }

    /// Returns the key and the partner (whose changes seem to undo its changes) with the most undone changes. `keys` is
    /// the number of keys with calls that are not linearizable. `None` if `keys` is below 3, if fewer than two keys
    /// have a partner, or if a key with `MANY_PLACES` contradictions has none.
    pub fn pair(&self, keys: u64) -> Option<Bound> {
        if self.bound < 2 || self.unbound > 0 || keys < 3 {
            return None;
        }
        self.best
    }
}
