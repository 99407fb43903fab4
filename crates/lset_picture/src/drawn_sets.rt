//! Computes the sets that are printed below a picture, and writes sets as text.
use crate::MOST_KEYS_SHOWN;
use crate::picture::{Picture, Standing, standing_at};
use lset_words::Call;
use std::alloc::{AllocError, Global};
use std::collections::BTreeSet;

/// The set after the first `next` entries of an order.
#[derive(Drop)]
pub(crate) struct Reached {
    keys: BTreeSet<u32>,
    /// The number of order entries that have been applied to the set.
    next: usize,
}

/// Returns the set before the first entry of the order: the opening keys.
pub(crate) fn reached_at_first(alloc: Global, picture: &Picture) -> Result<Reached, AllocError> {
    let mut keys = BTreeSet::new(alloc);
    for key in picture.history.opening() {
        keys.insert(*key)?;
    }
    Ok(Reached { keys, next: 0 })
}

fn change_set(keys: &mut BTreeSet<u32>, call: Call) -> Result<(), AllocError> {
    match call {
        Call::Add(key) => {
            keys.insert(key.0)?;
        }
        Call::Remove(key) => {
            keys.remove(&key.0);
        }
        Call::Contains(_) | Call::Ceiling(_) => {}
    }
    Ok(())
}

/// Returns `Some(Some(call))` if the entry's call changes the set, and `Some(None)` if the call changes nothing.
/// Returns `None` if the entry's linearization point is after `moment` or unknown.
fn settled(standing: Standing, moment: u32) -> Option<Option<Call>> {
    let point = standing.point?;
    if moment < point.moment {
        return None;
    }
    match standing.made {
        Some(made) if point.change => Some(Some(made.call)),
        _ => Some(None),
    }
}

/// Applies the next entries of the order to the set: all entries whose linearization points are not after `moment`.
pub(crate) fn go_on(
    reached: &mut Reached,
    picture: &Picture,
    moment: u32,
) -> Result<(), AllocError> {
    for index in reached.next..picture.order.len() {
        let Some(standing) = standing_at(picture, index) else {
            return Ok(());
        };
        let Some(change) = settled(standing, moment) else {
            return Ok(());
        };
        if let Some(call) = change {
            change_set(&mut reached.keys, call)?;
        }
        reached.next = index + 1;
    }
    Ok(())
}

/// Writes `first`, the first keys of a set with `count` keys, separated by `separator`, followed by the number of keys
/// that were not written.
fn put_keys(
    out: &mut String,
    separator: &str,
    first: &[u32],
    count: usize,
) -> Result<(), AllocError> {
    let mut before = "";
    for key in first {
        write!(out, "{before}{key}")?;
        before = separator;
    }
    if first.len() < count {
        let more = count - first.len();
        write!(out, "{separator}..+{more}")?;
    }
    Ok(())
}

fn first_keys(keys: &[u32]) -> &[u32] {
    &keys[..keys.len().min(MOST_KEYS_SHOWN)]
}

/// Appends a set, such as `{5,9}`.
pub(crate) fn put_set(out: &mut String, keys: &[u32]) -> Result<(), AllocError> {
    out.push_str("{")?;
    put_keys(out, ",", first_keys(keys), keys.len())?;
    out.push_str("}")
}

/// Returns a set as text. Reads only the keys that are printed.
pub(crate) fn set_text(alloc: Global, reached: &Reached) -> Result<String, AllocError> {
    let mut first = Vec::new(alloc);
    let mut others = reached.keys.iter();
    for _taken in 0..MOST_KEYS_SHOWN {
        if let Some(key) = others.next() {
            first.push(*key)?;
        }
    }
    let mut out = String::new(alloc);
    out.push_str("{")?;
    put_keys(&mut out, ",", &first, reached.keys.len())?;
    out.push_str("}")?;
    Ok(out)
}

/// Appends the line with the final keys, such as `keys  5 9`.
pub(crate) fn put_keys_line(out: &mut String, keys: &[u32]) -> Result<(), AllocError> {
    out.push_str("keys")?;
    if !keys.is_empty() {
        out.push_str("  ")?;
    }
    put_keys(out, " ", first_keys(keys), keys.len())?;
    out.push_str("\n")
}
