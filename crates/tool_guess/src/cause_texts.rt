//! The sentences that follow `likely:` in a message. Parentheses list at most three examples of such a bug, the likeliest
//! first.

use tool_facts::Cause;

/// Returns the sentence for a likely cause if one operation alone is wrong.
fn answers_cause_text(cause: Cause) -> &'static str {
    match cause {
        Cause::MarkNotRead =>
            "contains does not look at what remove changes first (a mark, a flag)",
        Cause::SeenEarly =>
            "contains finds a key whose add is not finished (a node linked at one level only, a flag that it does not read)",
        Cause::NotSeenYet =>
            "contains does not look at what add changes first (it reads a cache, a counter, a second link)",
        Cause::TakenLater =>
            "contains still finds a key after its remove has returned (a queue of removals, a copy or an index that is updated late)",
        Cause::Shortcut =>
            "contains does not look at the whole set (a size or filter that is updated late, adds still in a buffer, a remembered node)",
        Cause::MovedOrShortcut =>
            "contains misses a key while a change of another key moves it or cuts the way to it (an unlinked node, a rotation or split, a table that grows), or does not look at the whole set",
        Cause::HalfDone =>
            "contains meets a half done add or remove of its key (a node linked too early, cut out or reused too early)",
        Cause::MarkOrCopy =>
            "contains finds a key just removed: it does not look at a mark, or reads a copy that is updated a little later",
        Cause::SizeFirst =>
            "contains looks at a size first that add updates late (it returns false if the size is 0)",
        Cause::ThreadCache =>
            "contains reads a cache of its thread, which changes by other threads do not update",
        Cause::MovedKeys =>
            "contains misses a key while a change of another key moves it or cuts the way to it (an unlinked or reused node, a rotation or split, a table that grows), and does not look again",
        Cause::LateCopy =>
            "contains reads a copy that is updated after add and remove return (a cache, a replica)",
        Cause::ThreadCopy =>
            "each thread reads a copy of its own, which changes by other threads reach late (a cache, a snapshot)",
        Cause::OneKey => "a comparison, a hash or a limit treats a key unlike others",
        Cause::SomeKeys =>
            "contains treats some keys unlike others (a hash, a key that is cut short, a limit)",
        Cause::AddSeesRemoved =>
            "add takes a removed node that is still linked for a present one (a mark not checked, an unlink that was lost)",
        Cause::UnlinkLost =>
            "an unlink was lost, so a removed node stays linked, and add takes it for present (two removes side by side, without a lock)",
        Cause::ContainsGivesUp =>
            "contains gives up and returns false (a try-lock that fails, a limit of tries)",
        Cause::AddGivesUp =>
            "add gives up and returns false (a failed compare-and-swap or try-lock that is not tried again)",
        Cause::LastKey =>
            "contains leaves out the last key (a loop or search with a bound that is too small)",
        Cause::EndsEarly =>
            "the search ends too early, also without a race (a slot that another key cleared, adds still in a buffer, a bound that is too small)",
        Cause::RemoveShortcut =>
            "remove has a shortcut that returns false too early (a size that add updates late)",
        _ =>
            "remove misses a present key: it gives up (a failed compare-and-swap, a try-lock), or a change of another key moves the key at that time",
    }
}

/// Returns the sentence for a likely cause.
pub fn cause_text(cause: Cause) -> &'static str {
    match cause {
        Cause::TwoKeys => "two keys are taken for one (a hash, a key cut short, a comparison)",
        Cause::KeptTwice =>
            "the key is in the set twice (two places, a count), and remove takes one of them",
        Cause::Evicted => "a limit or an eviction drops keys when many are present",
        Cause::Overflow =>
            "a comparison overflows (a difference of keys in a signed number of 32 bits)",
        Cause::Displaced =>
            "an add of another key drops it (a shared slot, a table that grows, an eviction)",
        Cause::Batch =>
            "a remove of another key carries out earlier removes (a batch, a queue), also of keys that were added again",
        Cause::OtherKey =>
            "a remove takes another key than its own (an index found earlier, the next node)",
        Cause::OneThread =>
            "an error without a race (a probe that ends too early, a comparison, a limit)",
        Cause::GivesUp =>
            "add and remove give up and return false, and do not try again (a try-lock, a failed compare-and-swap, a timeout)",
        Cause::GivesUpBeside =>
            "add and remove give up and return false while another key changes (a try-lock or compare-and-swap on a shared word, not tried again)",
        Cause::InsertedTwice =>
            "two adds insert the same key twice (each looked before the other inserted), and a remove takes one of them",
        Cause::TwoPlaces =>
            "calls test the key in two ways that no longer agree (a slot and its node, a mark and a link, a count below 0)",
        Cause::Reused =>
            "the structure is broken from one moment on (a removed node used again too early (ABA), a table or list that two calls change at once)",
        Cause::SameKey =>
            "calls of one key at the same time undo each other (no lock, or one that both hold, a failed compare-and-swap taken for success, a second write after the effect)",
        Cause::FirstCalls =>
            "two of the first calls of a key at the same time undo each other (each creates a bucket or node, or a failed compare-and-swap is taken for success)",
        Cause::OtherKeys =>
            "changes of different keys at the same time write over each other (no lock, two locks for one bucket, a link that is not checked again, a copy written back)",
        Cause::NeverFound =>
            "keys are added, but never found again (a comparison by identity, a hash that changes, a key cut short)",
        Cause::ReadsParts =>
            "calls read parts of the set at different moments, while a change moves keys between the parts (a buffer and a table read in the wrong order, a merge, a rotation)",
        Cause::MovedForAll =>
            "a search misses a key while a change of another key moves it or cuts the way to it (an unlinked node, a rotation or split, a table that grows)",
        Cause::Outgrown =>
            "changes are lost while many keys are added (a table copied to a larger one while calls still change the old one, or two changes of one bucket or array at once)",
        Cause::FirstUse =>
            "two first calls each create the same thing (a bucket, a node, a table), and one is lost",
        Cause::GoesOn =>
            "a remove undoes an add that overlaps it (it unlinks or clears after its effect, or a helper repeats it)",
        Cause::EarlierLook =>
            "the reply does not come from the change itself (from an earlier look, from a size)",
        Cause::MadeAgain =>
            "a call is repeated after it took effect, and returns the reply of the second attempt",
        Cause::CheckThenAct =>
            "check, then act: two calls look before either changes the set (no lock, or one that both can hold)",
        Cause::BothCheck =>
            "check, then act, in add and in remove: two calls look before either changes the set (no lock, or one that both can hold)",
        Cause::AddChecks =>
            "add checks, then acts: two adds look before either inserts (a check before the lock, or a failed compare-and-swap tried again without a new search)",
        Cause::RemoveChecks =>
            "remove checks, then acts: two removes look before either takes the key out, and both report it",
        Cause::CarriedOutTwice =>
            "a change is carried out twice (by a helper, or repeated), and the second time undoes a later change",
        Cause::NoLock =>
            "calls of one key do not exclude each other (no lock, two locks, a lock that fails, a load and then a store)",
        Cause::OldCopy =>
            "an older state is written over newer changes of other keys (copy on write, a link that is not checked again, a shared word)",
        Cause::OldCopyAtOnce =>
            "an older copy is written over newer changes of other keys (copy on write, a whole table, a shared word)",
        Cause::SharedPlace =>
            "two adds at the same time take the same place: one overwrites the other, or the order of keys breaks (a place not checked again after the search, a slot taken twice)",
        Cause::AddLost =>
            "two adds at the same time both write, and one is lost, yet returns true (a failed compare-and-swap that is not checked)",
        Cause::OldCopyByAdd =>
            "add, but not remove, writes what it read before over newer changes (a place not checked again, no compare-and-swap, a lock released too early)",
        Cause::OldCopyByRemove =>
            "remove, but not add, writes what it read before over newer changes (a link not checked again, no compare-and-swap, a lock released too early)",
        Cause::SharedWord =>
            "some keys share a word or bucket, and a change of one writes back an older state of the other (load, then store)",
        Cause::OtherReply =>
            "a call returns the reply of another call (a combiner or batch that hands replies to the wrong callers)",
        Cause::Borrowed =>
            "a call returns the reply of a call of another thread (a field or buffer that threads share)",
        Cause::MixedCalls =>
            "calls are mixed up: a call gets the reply or the key of another call (a combiner, a batch, a shared record)",
        Cause::OtherCall =>
            "a call is carried out with the key of another call (a combiner or a shared record that is read too late)",
        Cause::EffectLate =>
            "changes take effect only after their calls have returned (a queue, a worker, a late write)",
        Cause::Cancelled =>
            "an add and a remove of different keys cancel each other (an elimination slot that does not compare keys)",
        Cause::AddUndone =>
            "add returns false although it has inserted the key (a failed check without an undo, a second attempt)",
        Cause::RemovedLater =>
            "a remove deletes the key late or again, and takes out a newer add (a queue of deletions, a helper, an unlink)",
        Cause::OldLink | Cause::Unlinked | Cause::WrittenBack | Cause::BehindUnlinked =>
            "changes of neighbouring keys write over each other's links (no lock, two locks for one list, a mark or link not checked after the walk, a node linked to one that is being removed)",
        Cause::ReplacedAtOnce =>
            "the set, or a part of it, is replaced by a copy without the newest changes (copy on write, a table that grows, a merge of two parts)",
        Cause::Replaced =>
            "a table, segment or copy is replaced while calls still change the old one (a resize, a compaction, a failover)",
        _ => answers_cause_text(cause),
    }
}
