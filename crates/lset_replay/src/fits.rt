//! Finds the first moment (event number) during a call when the call's reply is correct.
ghost use Rattle.std.specs.Prelude.{◌≡◌, ◌≢◌, ◌≤◌};
ghost use Rattle.lset_words.specs.declared.Key.{Key};
ghost use Rattle.lset_words.specs.declared.Call.TheVariants.{Ceiling};
ghost use Rattle.lset_history.specs.Changes.{moments_of};
ghost use Rattle.lset_replay.specs.Trace.{fit};

use crate::places::{OpenCall, found_in, needs_key};
use lset_history::Changes;
use lset_words::{Call, Reply};

/// Returns the first moment (event number) when `reply` is correct for the pending call `made`, from the start of the
/// call up to `last`. The call must not have changed the set. Returns `None` if there is no such moment.
pub fn fit(changes: &Changes, made: OpenCall, reply: Reply, last: u32) -> Option<u32>
    requires { made.begun ≤ last }
    ensures { result ≡ fit (moments_of changes.now) made reply last }
{
    match made.call {
        Call::Ceiling(key) => changes.first_ceiling(key.0, found_in(reply), made.begun, last),
        Call::Add(_) | Call::Remove(_) | Call::Contains(_) => {
            fit_by_key(changes, made, reply, last)
        }
    }
}

/// Implements `fit` for all calls except `ceiling`. Whether the reply of such a call is correct depends only on the
/// call's key.
fn fit_by_key(changes: &Changes, made: OpenCall, reply: Reply, last: u32) -> Option<u32>
    requires span { made.begun ≤ last }
    requires own_key { (k : Key) → made.call ≢ Ceiling k }
    ensures { result ≡ fit (moments_of changes.now) made reply last }
{
    let needed = needs_key(made.call, reply);
    let (first, _looked) = changes.first(made.call.key().0, needed, made.begun, last);
    first
}
