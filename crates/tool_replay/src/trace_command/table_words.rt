//! Names the shared words of a list: three words of the list itself, and three words for each node.
use crate::trace_command::chunks::{Chunk, put, put_number};

/// The value of the key word of the tail (the last node, which has no key). The tail's value is larger than the key
/// word of every other node.
const ABOVE_ALL_KEYS: u64 = 4_294_967_297;

/// A shared word of a list: one of the list's own three words, or one of the three words of a node, with the node's
/// number.
#[derive(Clone, Copy)]
pub(crate) enum TableWord {
    ListLock,
    Threads,
    Quota,
    Key(u64),
    Link(u64),
    Lock(u64),
}

impl TableWord {
    /// Returns the meaning of the shared word with index `index`. Words 0 to 2 belong to the list, and each node has
    /// the next three words. The index can be beyond the last node.
    pub fn at(index: u64) -> TableWord {
        let Some(past) = index.checked_sub(3) else {
            return match index {
                0 => TableWord::ListLock,
                1 => TableWord::Threads,
                _ => TableWord::Quota,
            };
        };
        let node = past / 3;
        match past % 3 {
            0 => TableWord::Key(node),
            1 => TableWord::Link(node),
            _ => TableWord::Lock(node),
        }
    }
}

pub(crate) fn put_node(out: &mut Chunk, node: u64) {
    match node {
        0 => put(out, "head"),
        1 => put(out, "tail"),
        _ => {
            put(out, "n");
            put_number(out, node);
        }
    }
}

pub(crate) fn put_key(out: &mut Chunk, word: u64) {
    match word {
        0 => put(out, "-inf"),
        ABOVE_ALL_KEYS => put(out, "+inf"),
        _ => put_number(out, word - 1),
    }
}

fn put_link(out: &mut Chunk, word: u64) {
    put_node(out, word / 2);
    if word % 2 == 1 {
        put(out, "*");
    }
}

fn put_lock(out: &mut Chunk, word: u64) {
    match word {
        0 => put(out, "free"),
        _ => {
            put(out, "t");
            put_number(out, word - 1);
        }
    }
}

/// Appends a word's name, such as `n2.link`.
pub(crate) fn put_name(out: &mut Chunk, word: TableWord) {
    let (node, field) = match word {
        TableWord::ListLock => return put(out, "list.lock"),
        TableWord::Threads => return put(out, "list.threads"),
        TableWord::Quota => return put(out, "list.quota"),
        TableWord::Key(node) => (node, ".key"),
        TableWord::Link(node) => (node, ".link"),
        TableWord::Lock(node) => (node, ".lock"),
    };
    put_node(out, node);
    put(out, field);
}

/// Appends the value of a word in the notation for that kind of word. A link is written as the next node (`head`,
/// `tail`, or `n` with its number), with a star if the link is marked.
pub(crate) fn put_value(out: &mut Chunk, word: TableWord, value: u64) {
    match word {
        TableWord::Key(_) => put_key(out, value),
        TableWord::Link(_) => put_link(out, value),
        TableWord::ListLock | TableWord::Lock(_) => put_lock(out, value),
        TableWord::Threads | TableWord::Quota => put_number(out, value),
    }
}
