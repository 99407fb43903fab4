//! Nodes of a list, identified by their numbers.
ghost use Rattle.std.specs.Prelude.{◌≡◌, ◌/◌, ◌<◌, ◌^◌};

/// A node of a list. Its number is below 2^63, because a link word has 63 bits for the number of the next node and one
/// bit for the mark.
#[derive(Clone, Copy)]
pub struct Node {
    pub number: u64,
    ghost small: { number < 2 ^ 63 },
}

impl Node {
    /// Returns the head node.
    pub fn head() -> Node
        ensures { result.number ≡ 0 }
    {
        Node { number: 0 }
    }

    /// Returns the node that a link word points to. Ignores the mark.
    pub fn behind(link: u64) -> Node
        ensures { result.number ≡ link / 2 }
    {
        Node { number: link / 2 }
    }
}
