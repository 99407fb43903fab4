//! The words of a node (key, link and lock), and the content of a link.
ghost use Rattle.std.specs.Prelude.{◌≡◌, ◌<◌};
ghost use Rattle.lset_words.specs.declared.TheConstants.{MOST_WORDS};
ghost use Rattle.lset_loops.specs.Nodes.{index_of, word_of};

use crate::node::Node;
use lset_steps::rows::{key_index, link_index, lock_index};

/// A word of a node: its key, its link or its lock.
#[derive(Clone, Copy)]
pub(crate) enum Part {
    Key(Node),
    Link(Node),
    Lock(Node),
}

impl Part {
    /// Returns the index of the word among the shared words of the set.
    pub fn index(self) -> u64
        requires { index_of self < MOST_WORDS }
        ensures { result ≡ index_of self }
    {
        match self {
            Part::Key(node) => key_index(node.number),
            Part::Link(node) => link_index(node.number),
            Part::Lock(node) => lock_index(node.number),
        }
    }
}

/// The content of a node's link: the next node, and whether the node that has the link is marked.
#[derive(Clone, Copy)]
pub(crate) enum Link {
    To(Node),
    Marked(Node),
}

impl Link {
    /// Returns the link as a word: twice the number of the next node, plus 1 if the node that has the link is marked.
    pub fn word(self) -> u64
        ensures { result ≡ word_of self }
    {
        match self {
            Link::To(next) => 2 * next.number,
            Link::Marked(next) => 2 * next.number + 1,
        }
    }
}
