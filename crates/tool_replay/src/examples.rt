use crate::example_texts as texts;
use lset_words::Kind;

/// A well-known interleaving of calls on one of the five lists. An example shows why the list needs a certain step or
/// check. Most examples are from Herlihy and Shavit's chapter on linked lists, adapted to the lists of this library.
#[derive(Clone, Copy)]
pub(crate) struct Example {
    /// The example's name, as typed in `example NAME`.
    pub name: &'static str,
    /// The kind of list in the schedule.
    pub kind: Kind,
    /// A summary in a few words.
    pub about: &'static str,
    /// The schedule's text.
    pub schedule: &'static str,
    /// A report that the list could produce if it lacked the check that the example is about. `check` refuses the
    /// report, because no order explains its calls and final keys. Six examples have one; for the others the field is
    /// `None`.
    pub broken_report: Option<&'static str>,
}

const ALL: &[Example] = &[
    Example {
        name: "failed-tries",
        kind: Kind::Coarse,
        about: "two adds of one key: the second's tries of the lock fail",
        schedule: texts::FAILED_TRIES,
        broken_report: None,
    },
    Example {
        name: "full",
        kind: Kind::Coarse,
        about: "an add beyond its thread's quota; a remove gives no slot back",
        schedule: texts::FULL,
        broken_report: None,
    },
    Example {
        name: "hand-over-hand",
        kind: Kind::Fine,
        about: "a remover waits for an adder before it, then goes hand over hand",
        schedule: texts::HAND_OVER_HAND,
        broken_report: None,
    },
    Example {
        name: "same-gap",
        kind: Kind::Optimistic,
        about: "two adds into one gap: the second sees the changed link and walks again",
        schedule: texts::SAME_GAP,
        broken_report: Some(texts::SAME_GAP_BROKEN),
    },
    Example {
        name: "stale-pred",
        kind: Kind::Optimistic,
        about: "pred is taken out after the walk: the second walk does not find it",
        schedule: texts::STALE_PRED,
        broken_report: Some(texts::STALE_PRED_BROKEN),
    },
    Example {
        name: "marked-in-chain",
        kind: Kind::Lazy,
        about: "contains answers false, and the key's node is still in the chain",
        schedule: texts::MARKED_IN_CHAIN,
        broken_report: None,
    },
    Example {
        name: "marked-pred",
        kind: Kind::Lazy,
        about: "pred is marked after the walk: its link gives it away",
        schedule: texts::MARKED_PRED,
        broken_report: None,
    },
    Example {
        name: "read-in-anothers-step",
        kind: Kind::Lazy,
        about: "contains takes effect in a step of the thread that removed its key",
        schedule: texts::READ_IN_ANOTHERS_STEP,
        broken_report: None,
    },
    Example {
        name: "ceiling-in-anothers-step",
        kind: Kind::Lazy,
        about: "the answer of ceiling fits after steps of the other thread, and after none of its own",
        schedule: texts::CEILING_IN_ANOTHERS_STEP,
        broken_report: None,
    },
    Example {
        name: "opens-with-keys",
        kind: Kind::Lazy,
        about: "two opening keys take no slot, and the remove of one gives none back",
        schedule: texts::OPENS_WITH_KEYS,
        broken_report: None,
    },
    Example {
        name: "two-removers",
        kind: Kind::LockFree,
        about: "two removes of one key: one marks, the other walks again and answers false",
        schedule: texts::TWO_REMOVERS,
        broken_report: Some(texts::TWO_REMOVERS_BROKEN),
    },
    Example {
        name: "snip",
        kind: Kind::LockFree,
        about: "an add takes out the node that a remove has marked",
        schedule: texts::SNIP,
        broken_report: Some(texts::SNIP_BROKEN),
    },
    Example {
        name: "tries-again",
        kind: Kind::LockFree,
        about: "an exchange fails, and the add walks again with the same slot",
        schedule: texts::TRIES_AGAIN,
        broken_report: None,
    },
    Example {
        name: "left-in-chain",
        kind: Kind::LockFree,
        about: "a remove has ended, and its node is still in the chain: contains answers false",
        schedule: texts::LEFT_IN_CHAIN,
        broken_report: Some(texts::LEFT_IN_CHAIN_BROKEN),
    },
    Example {
        name: "ceiling-meets-mark",
        kind: Kind::LockFree,
        about: "the node at which ceiling stops is marked: it walks again and answers nothing",
        schedule: texts::CEILING_MEETS_MARK,
        broken_report: None,
    },
    Example {
        name: "ceiling-left-in-chain",
        kind: Kind::LockFree,
        about: "ceiling stops at the node of a remove that has ended: it may not answer that key",
        schedule: texts::CEILING_LEFT_IN_CHAIN,
        broken_report: Some(texts::CEILING_LEFT_IN_CHAIN_BROKEN),
    },
    Example {
        name: "behind-the-walk",
        kind: Kind::LockFree,
        about: "a key comes in behind the walk of ceiling, which answers the key above it",
        schedule: texts::BEHIND_THE_WALK,
        broken_report: None,
    },
    Example {
        name: "nothing-in-anothers-step",
        kind: Kind::LockFree,
        about: "ceiling answers nothing, and a key is there just after each of its own steps",
        schedule: texts::NOTHING_IN_ANOTHERS_STEP,
        broken_report: None,
    },
];

/// Returns all examples, grouped by list.
pub(crate) fn all() -> &'static [Example] {
    ALL
}

/// Returns the example with the name `name`, or `None` if no example has that name.
pub fn named(name: &[u8]) -> Option<Example> {
    for example in all() {
        if example.name.as_bytes() == name {
            return Some(*example);
        }
    }
    None
}
