use anyhow::{Error, Result};
use std::alloc::{AllocError, Global};

/// Returns an error if `is_as_wanted` is false, that is, if a result differs from the expected result.
pub fn check(is_as_wanted: bool) -> Result<()> {
    if is_as_wanted {
        Ok(())
    } else {
        Err(Error::msg("another answer"))
    }
}

/// The progress of the program: the latest call, and the call that returned `Memory`.
#[derive(Drop)]
pub struct Calls {
    /// The name of the latest call.
    pub name: &'static str,
    /// The name of the call that returned `Memory`.
    pub refused: Option<&'static str>,
}

impl Calls {
    pub fn new() -> Calls {
        Calls {
            name: "none",
            refused: None,
        }
    }

    /// Records that the latest call returned `Memory`. Returns `false` if an earlier call also returned `Memory`,
    /// because only one allocation fails in a run.
    pub fn may_be_refused(&mut self) -> bool {
        if self.refused.is_some() {
            return false;
        }
        self.refused = Some(self.name);
        true
    }

    /// Records the name of the next call and allocates a block. This allocation, and all later ones up to the next
    /// announcement, count as allocations of the announced call.
    pub fn announce(&mut self, alloc: Global, name: &'static str) -> Result<(), AllocError> {
        self.name = name;
        if Box::new(alloc, 0).is_ok() || self.may_be_refused() {
            Ok(())
        } else {
            Err(AllocError)
        }
    }
}
