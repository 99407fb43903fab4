//! Steps that several lists share: taking locks, using slots (nodes reserved for adds), and choosing how a call
//! continues after its walk along the chain.

ghost use Rattle.std.specs.Prelude.{◌≡◌, ◌+◌, ◌^◌, ◌<◌, ◌≤◌};
ghost use Rattle.lset_words.specs.Words.{lock_index};
ghost use Rattle.lset_steps.specs.Rows.{own_slot, begun, ceiling_at, decided_on, IsSmall};

use crate::{Action, Local};
use lset_words::{Call, Key, MOST_NODES, Reply, slot_node};
pub use lset_words::{key_index, link_index, lock_index};

/// Returns the node that the thread's next successful `add` will use: the first unused slot of the thread. A slot is a
/// node reserved for one `add`. If the thread has no unused slot, the result is not a slot of the thread.
#[inline(always)]
pub fn own_slot(local: &Local) -> u64
    requires { IsSmall local.now }
    ensures node { result ≡ own_slot local.now }
    ensures few { result ≤ MOST_NODES }
{
    slot_node(local.quota, local.thread, local.used)
}

/// Returns the action that attempts to take the lock of `node`: an exchange of 0 (a free lock) for the thread's number
/// plus 1. `node` must be below `2^62`. (Herlihy and Shavit's node locks.)
#[inline(always)]
pub fn try_lock(node: u64, local: &Local) -> Action
    requires { node < 2 ^ 62 }
    ensures { result ≡ Action.Exchange (lock_index node) 0 (local.now.thread + 1) }
{
    Action::Exchange(lock_index(node), 0, u64::from(local.thread) + 1)
}

/// Returns the private state of a thread that begins a call at row `pc` of the step table. The registers (nodes and key
/// words) are 0.
#[inline(always)]
pub fn begun(pc: u8, call: Call, local: &Local) -> Local
    ensures { result ≡ begun pc call local.now }
{
    Local {
        used: local.used,
        call,
        pc,
        ..Local::at_rest(local.thread, local.quota)
    }
}

/// The word that stores the tail's key: `2^32 + 1`.
pub const TAIL_WORD: u64 = 4_294_967_297;

/// Returns the reply of a `ceiling` that stops at key word `word`: the key, or `Nothing` if `word` is the tail's.
#[inline(always)]
pub fn ceiling_at(word: u64) -> Reply
    ensures { result ≡ ceiling_at word }
{
    if word < TAIL_WORD {
        Reply::At(Key(word.saturating_sub(1) as u32))
    } else {
        Reply::Nothing
    }
}

/// The rows of a step table at which a call continues after its walk: the row where it adds its key, the row where it
/// removes its key, and the row where it leaves with its reply.
#[derive(Clone, Copy)]
pub struct Targets {
    pub adds: u8,
    pub removes: u8,
    pub leaves: u8,
}

/// Returns how a call continues at `key`, the first key word that is not smaller than the call's own. `add` replies
/// `False` if the call's key is present, and `Full` if the quota of adds is used up. `remove` and `contains` reply
/// `False` if the call's key is absent; `contains` replies `True` if it is present. `ceiling` replies with the key of
/// the word `key`, or with `Nothing` at the tail. An `add` or `remove` without a reply continues at its own row of the
/// step table, as `rows` states.
#[inline(always)]
pub fn decide(rows: Targets, key: u64, local: Local) -> Local
    ensures { result ≡ decided_on rows key local }
{
    let found = key == local.call.key().word();
    let room = local.used < local.quota;
    let (pc, reply) = match local.call {
        Call::Add(_) if found => (rows.leaves, Some(Reply::False)),
        Call::Add(_) if room => (rows.adds, None),
        Call::Add(_) => (rows.leaves, Some(Reply::Full)),
        Call::Remove(_) if found => (rows.removes, None),
        Call::Contains(_) if found => (rows.leaves, Some(Reply::True)),
        Call::Remove(_) | Call::Contains(_) => (rows.leaves, Some(Reply::False)),
        Call::Ceiling(_) => (rows.leaves, Some(ceiling_at(key))),
    };
    Local { pc, reply, ..local }
}
