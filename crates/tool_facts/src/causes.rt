//! The likely causes that a diagnosis can name for a recording that is not linearizable.

/// A likely cause: a kind of bug in a concurrent set. The comment of each variant says what the set does wrong. The
/// crate `tool_guess` chooses the variant.
#[derive(Clone, Copy)]
pub enum Cause {
    /// Two keys are treated as one.
    TwoKeys,
    /// `contains` does not check the word (a link, a counter) that `add` changes first.
    NotSeenYet,
    /// `contains` misses a key that a change of another key moves at that time.
    MovedKeys,
    /// Calls of several operations miss a key that a change of another key moves at that time.
    MovedForAll,
    /// Calls read several parts of the set at different moments, while a change moves keys between the parts.
    ReadsParts,
    /// `contains` is wrong while another add or remove of its key is only half done.
    HalfDone,
    /// The set contains a key twice, and a remove deletes only one of the two copies.
    KeptTwice,
    /// An add of another key drops a key, for example while a table grows.
    Displaced,
    /// A remove also carries out earlier removes of other keys that were waiting, even if these keys were added again.
    Batch,
    /// A remove removes another key than the key of the call.
    OtherKey,
    /// The set fails even if calls do not overlap: the bug is not a race.
    OneThread,
    /// `contains` does not check the word (a mark, a flag) that `remove` changes first.
    MarkNotRead,
    /// `contains` reads a copy that still contains removed keys for a while.
    TakenLater,
    /// `contains` does not search the whole set, but has a shortcut (a filter, a cache) that returns false too early.
    Shortcut,
    /// `contains` reads the size of the set first, and returns false if the size is 0.
    SizeFirst,
    /// `contains` reads a cache that belongs to the calling thread.
    ThreadCache,
    /// `contains` reads a copy that is updated only after `add` and `remove` return.
    LateCopy,
    /// One key is treated differently from the others, for example by a hash or a limit.
    OneKey,
    /// Some keys are treated differently from the others, for example by a hash or a limit.
    SomeKeys,
    /// `add` treats a removed node that is still linked as present.
    AddSeesRemoved,
    /// Two removes at the same time lose an unlink. A removed node stays linked, and `add` treats the node as present.
    UnlinkLost,
    /// `contains` gives up (for example after a failed try-lock), and returns false.
    ContainsGivesUp,
    /// `remove` has a shortcut that returns false too early.
    RemoveShortcut,
    /// `remove` returns false too early, although the key is present.
    RemoveGivesUp,
    /// `add` and `remove` give up (for example after a failed try-lock), and return false.
    GivesUp,
    /// `add` and `remove` give up while another call changes another key, and return false.
    GivesUpBeside,
    /// Two overlapping adds both insert their key.
    InsertedTwice,
    /// Operations look for a key in two different places (a slot and a node, a mark and a link) that no longer agree.
    TwoPlaces,
    /// Most of the set is broken from one moment on, for example because a removed node was reused too early.
    Reused,
    /// Calls on the same key at the same time undo each other.
    SameKey,
    /// Two of the first calls on a key undo each other, because they overlap.
    FirstCalls,
    /// Changes of different keys at the same time undo each other.
    OtherKeys,
    /// No call finds a key again that was added.
    NeverFound,
    /// Changes are lost while many keys are added, for example because a table is replaced by a larger one while calls
    /// still change the old one.
    Outgrown,
    /// When a part of the set is first used, two calls each create this part, and one of the two copies is lost.
    FirstUse,
    /// A remove keeps writing after it has taken effect, and undoes an add that overlaps the remove.
    GoesOn,
    /// The reply of a call is determined by an earlier read, not by the change that the call makes.
    EarlierLook,
    /// A call is repeated after it has already taken effect.
    MadeAgain,
    /// A check and the later write are not atomic: two calls both check before either of them writes.
    CheckThenAct,
    /// In `add` and in `remove`, a check and the later write are not atomic: two calls both check before either of them
    /// writes.
    BothCheck,
    /// Only in `add`, a check and the later write are not atomic: two adds both check before either of them inserts its
    /// key.
    AddChecks,
    /// Only in `remove`, a check and the later write are not atomic: two removes both check before either of them
    /// removes the key.
    RemoveChecks,
    /// A change is carried out a second time, and undoes a later change of its key.
    CarriedOutTwice,
    /// A search ends before the last key.
    LastKey,
    /// A search ends too early, even without overlapping calls.
    EndsEarly,
    /// `add` returns false too early, although the key is absent.
    AddGivesUp,
    /// Calls on the same key do not exclude each other, although the set relies on that.
    NoLock,
    /// A copy of the whole set overwrites newer changes of other keys.
    OldCopy,
    /// A copy of the whole set overwrites newer changes. Several keys are lost or return at the same time.
    OldCopyAtOnce,
    /// A link is written without a check that the link is still current.
    OldLink,
    /// A node is linked to a node that is being removed.
    Unlinked,
    /// A limit or an eviction drops keys when many keys are present.
    Evicted,
    /// A comparison of keys overflows, for example a difference in a signed number of 32 bits.
    Overflow,
    /// A change of another key writes an older state of the key back.
    WrittenBack,
    /// A table is replaced while calls still change the old table. Each key is lost at most once.
    Replaced,
    /// A table or copy is replaced while calls still change the old one. Several keys are lost or return at the same
    /// time.
    ReplacedAtOnce,
    /// `contains` finds a key before the add of the key has finished.
    SeenEarly,
    /// Two adds of different keys write to the same memory location.
    SharedPlace,
    /// An add returns true although its write was lost.
    AddLost,
    /// A new node is linked after a node that is being removed, and its key is lost.
    BehindUnlinked,
    /// Only `add` writes an older copy of the set back.
    OldCopyByAdd,
    /// Only `remove` writes an older copy of the set back.
    OldCopyByRemove,
    /// Some keys share a word or bucket that is written back as a whole.
    SharedWord,
    /// A call returns the reply of another call.
    OtherReply,
    /// A call is carried out with the key of another call.
    OtherCall,
    /// Calls return the replies of other calls, or are carried out with the keys of other calls.
    MixedCalls,
    /// `contains` misses keys that other calls move, or has a shortcut.
    MovedOrShortcut,
    /// `contains` finds keys that were removed just before: it ignores a mark, or reads a copy that still contains
    /// removed keys.
    MarkOrCopy,
    /// Changes take effect only after their calls have returned.
    EffectLate,
    /// An add and a remove of different keys cancel each other, as if they were on the same key.
    Cancelled,
    /// An add returns false although it has inserted its key.
    AddUndone,
    /// Each thread reads a copy of its own. Changes by other threads reach the copy late.
    ThreadCopy,
    /// A call returns the reply of a call of another thread, since the two threads share memory for replies.
    Borrowed,
    /// A remove takes effect late or twice, and removes a key that was added meanwhile.
    RemovedLater,
}
