//! Walks along the links of a broken list (a list without one of its checks) from the head. The words can have any
//! values, because a broken list can lose nodes.

ghost use Rattle.std.specs.Prelude.{◌<◌, ◌^◌, IsTrue};

use lset_steps::ChainKey;
use lset_words::{key_index, link_index};
use std::alloc::{AllocError, Global};
use std::collections::BTreeSet;

/// 2^32, which is greater than every node number and every key of a list. A walk along the links stops at this number.
const NO_NODE: u64 = 1 << 32;

/// A node that a walk along the links has reached: its key, its mark, and the number of the node to which it links.
#[derive(Clone, Copy)]
struct Met {
    place: ChainKey,
    next: u64,
}

/// Returns the word with index `index`, or 0 if the list has fewer words.
fn word_at(words: &[u64], index: u64) -> u64 {
    words.get(index as usize).copied().unwrap_or(0)
}

/// Returns whether the list has a node with the number `node` that is neither the head nor the tail.
fn is_met(words: &[u64], node: u64) -> bool
    ensures { IsTrue result → node < 2 ^ 32 }
{
    1 < node && node < NO_NODE && link_index(node) < words.len() as u64
}

fn met_at(words: &[u64], node: u64) -> Option<Met> {
    if !is_met(words, node) {
        return None;
    }
    let link = word_at(words, link_index(node));
    let key = word_at(words, key_index(node)).saturating_sub(1) % NO_NODE;
    Some(Met {
        place: ChainKey {
            key: key as u32,
            marked: link % 2 == 1,
        },
        next: link / 2,
    })
}

/// Walks along the links and returns the key and the mark of each node between head and tail. Also stops at a link to a
/// node that the list does not have.
///
/// The links of a broken list can form a cycle. Therefore the walk visits at most `words.len() / 3` nodes. Returns
/// `AllocError` if an allocation fails.
pub(crate) fn chain_met(alloc: Global, words: &[u64]) -> Result<Vec<ChainKey>, AllocError> {
    let mut met = Vec::new(alloc);
    let mut node = word_at(words, link_index(0)) / 2;
    for _left in 0..words.len() / 3 {
        match met_at(words, node) {
            Some(found) => {
                met.push(found.place)?;
                node = found.next;
            }
            None => return Ok(met),
        }
    }
    Ok(met)
}

/// Returns the keys of the unmarked nodes, sorted and without duplicates. Returns `AllocError` if an allocation fails.
pub(crate) fn keys_of(alloc: Global, met: &[ChainKey]) -> Result<Vec<u32>, AllocError> {
    let mut keys = BTreeSet::new(alloc);
    for place in met {
        if !place.marked {
            keys.insert(place.key)?;
        }
    }
    keys.iter().copied().collect(alloc)
}
