//! A handle that C code keeps. A full handle owns a box, and an empty handle owns nothing.
ghost use Rattle.std.specs.Prelude.{◌≡◌, true, false, MatchOption};
ghost use Rattle.ffi_sets.specs.Owned.{seat_owns};
ghost use Rattle.ffi_sets.specs.declared.held.Held.{Held};
ghost use Rattle.ffi_sets.specs.contracts.held.Held.{the_row};

use crate::held::Held;
use crate::loose::Loose;
use std::alloc::Global;
use std::marker::Model;
use std::mem::replace;

/// A handle that C code keeps. If it is full, it owns a box with the value `held`. Only an empty handle may be dropped.
#[derive(Drop)]
#[repr(C)]
pub struct CSeat {
    pub full: bool,
    pub at: *mut u8,
    pub ghost held: { Held } by { the_row.coded },
}

impl Model for CSeat {
    ghost also_owns = { λ s. seat_owns s.full s.at s.held };
}

impl CSeat {
    /// Returns an empty handle.
    pub fn none() -> CSeat
        ensures { result.full ≡ false }
    {
        CSeat {
            full: false,
            at: std::ptr::null_mut(),
        }
    }

    /// Returns a full handle that owns the box `held`.
    fn of_loose(held: Loose<Held, Global>) -> CSeat
        ensures { (result.full ≡ true) × (result.held ≡ held.value) }
    {
        let Loose { at, alloc: _ } = held;
        CSeat {
            full: true,
            at: at as *mut u8,
        }
    }

    /// Returns the box that the handle owns, or `None` if the handle is empty.
    fn into_loose(self, alloc: Global) -> Option<Loose<Held, Global>>
        ensures { MatchOption result (self.full ≡ false) (λ l. (self.full ≡ true) × (l.value ≡ self.held)) }
    {
        let CSeat { full, at } = self;
        if full {
            Some(Loose {
                at: at as *mut Held,
                alloc,
            })
        } else {
            None
        }
    }
}

/// Moves the box out of the handle `seat`, which is empty afterwards. Returns `None` if the handle was empty.
pub fn take(alloc: Global, seat: &mut CSeat) -> Option<Box<Held>>
    ensures told { MatchOption result (seat.old.full ≡ false) (λ b. (seat.old.full ≡ true) × (b.value ≡ seat.old.held)) }
    ensures left { seat.new.full ≡ false }
{
    let held = replace(seat, CSeat::none()).into_loose(alloc)?;
    Some(held.into_box())
}

/// Stores a box in the handle `seat`, which must be empty.
pub fn put(seat: &mut CSeat, held: Box<Held>)
    requires { seat.old.full ≡ false }
    ensures { (seat.new.full ≡ true) × (seat.new.held ≡ held.value) }
{
    *seat = CSeat::of_loose(Loose::of(held));
}
