ghost use Rattle.std.specs.Prelude.{◌≡◌, Bool, true, false, IsTrue};

/// A gate: a callback that decides, before each call of a program, whether the call is made. A gate cannot access the
/// set.
pub trait Gate {
    /// Returns `true` if the gate can refuse a call, and so stop a program (the calls of one thread). Exists only in
    /// contracts.
    ghost may_shut: { Self → Bool } = { λ _. true };

    /// Returns whether to make call number `call` (from 0) of the program of thread `seat`.
    fn pass(&self, seat: u32, call: u32) -> bool
        ensures { may_shut self.now ≡ false → IsTrue result };
}

/// A gate that permits every call.
#[derive(Clone, Copy, Debug)]
pub struct Always;

impl Gate for Always {
    ghost may_shut = { λ _. false };

    fn pass(&self, _seat: u32, _call: u32) -> bool {
        true
    }
}
