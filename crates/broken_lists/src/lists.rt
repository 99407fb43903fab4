use lset_words::Kind;

/// A list with one check removed. A `BrokenList` is named after the removed check.
#[derive(Clone, Copy, Debug, PartialEq, Eq)]
pub enum BrokenList {
    /// CoarseList: a call continues even if it did not get the lock.
    Lock,
    /// FineList: `remove` locks only the node before the node that it unlinks.
    SecondLock,
    /// FineList: a walk unlocks a node before it locks the next node.
    HandOverHand,
    /// OptimisticList: the validation (the check of the two locked nodes) checks only that the first node links to the
    /// second.
    SecondWalk,
    /// OptimisticList: the second walk, which checks that the first locked node is still in the list, compares keys
    /// instead of nodes.
    SameNode,
    /// LazyList: the validation (the check of the two locked nodes) ignores the marks of the nodes.
    MarksInValidation,
    /// LazyList: `contains` ignores the mark of the node with its key.
    MarkInContains,
    /// LazyList: `ceiling` ignores the mark of the node at which it stops.
    MarkInCeiling,
    /// LockFreeList: `remove` unlinks a node without first marking the node.
    Mark,
    /// LockFreeList: `add` replaces the link of a node even if that node is marked.
    MarkInAdd,
    /// LockFreeList: `remove` also succeeds if another call has already marked the node.
    MarkInRemove,
    /// LockFreeList: `contains` ignores the mark of the node with its key.
    MarkAtKey,
    /// LockFreeList: every `add` of a thread reuses the thread's first node.
    NewSlot,
}

/// All broken lists.
pub const ALL: [BrokenList; 13] = [
    BrokenList::Lock,
    BrokenList::SecondLock,
    BrokenList::HandOverHand,
    BrokenList::SecondWalk,
    BrokenList::SameNode,
    BrokenList::MarksInValidation,
    BrokenList::MarkInContains,
    BrokenList::MarkInCeiling,
    BrokenList::Mark,
    BrokenList::MarkInAdd,
    BrokenList::MarkInRemove,
    BrokenList::MarkAtKey,
    BrokenList::NewSlot,
];

impl BrokenList {
    /// Returns the name that selects the list in `--lacks NAME`.
    pub fn name(self) -> &'static str {
        match self {
            BrokenList::Lock => "lock",
            BrokenList::SecondLock => "second-lock",
            BrokenList::HandOverHand => "hand-over-hand",
            BrokenList::SecondWalk => "second-walk",
            BrokenList::SameNode => "same-node",
            BrokenList::MarksInValidation => "marks-in-validation",
            BrokenList::MarkInContains => "mark-in-contains",
            BrokenList::MarkInCeiling => "mark-in-ceiling",
            BrokenList::Mark => "mark",
            BrokenList::MarkInAdd => "mark-in-add",
            BrokenList::MarkInRemove => "mark-in-remove",
            BrokenList::MarkAtKey => "mark-at-key",
            BrokenList::NewSlot => "new-slot",
        }
    }

    /// Returns the kind of the intact list, from which the check was removed.
    pub fn kind(self) -> Kind {
        match self {
            BrokenList::Lock => Kind::Coarse,
            BrokenList::SecondLock | BrokenList::HandOverHand => Kind::Fine,
            BrokenList::SecondWalk | BrokenList::SameNode => Kind::Optimistic,
            BrokenList::MarksInValidation
            | BrokenList::MarkInContains
            | BrokenList::MarkInCeiling => { Kind::Lazy }
            BrokenList::Mark
            | BrokenList::MarkInAdd
            | BrokenList::MarkInRemove
            | BrokenList::MarkAtKey
            | BrokenList::NewSlot => Kind::LockFree,
        }
    }
}

/// Returns the broken list named `name`, or `None` if no broken list has that name.
pub fn named(name: &[u8]) -> Option<BrokenList> {
    for broken in &ALL {
        if broken.name().as_bytes() == name {
            return Some(*broken);
        }
    }
    None
}
