//! Searches a list of keys in increasing order.

ghost use Rattle.std.specs.Prelude.{◌≡◌};
ghost use Rattle.std.specs.List.Sorted.{IsStrictlyIncreasing};
ghost use Rattle.lset_words.specs.Effects.{presence};
ghost use Rattle.lset_words.specs.SequentialSet.{has_key};

use lset_words::Presence;

/// Returns `Present` if `key` is in `keys`, and otherwise `Absent`. `keys` must be in increasing order.
pub(crate) fn presence_in(keys: &[u32], key: u32) -> Presence
    requires { IsStrictlyIncreasing keys.now }
    ensures { result ≡ presence (has_key key keys.now) }
{
    match keys.binary_search(&key) {
        Ok(_) => Presence::Present,
        Err(_) => Presence::Absent,
    }
}
