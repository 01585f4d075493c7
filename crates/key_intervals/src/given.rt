//! An interval that was given a number.
ghost use Rattle.std.specs.Prelude.{◌≡◌};
ghost use Rattle.key_intervals.specs.Division.{fresh};

use crate::bounds::Bounds;
use mw_types::{Duplicate, NoMemory};
use std::alloc::Global;

/// An interval that was given a number: it is live from then on until it ends.
#[derive(Drop)]
pub struct Given {
    /// The keys that the interval has.
    pub bounds: Bounds,
    /// Whether it has not ended.
    pub live: bool,
}

impl Duplicate for Given {
    fn copy(&self, alloc: Global) -> Result<Given, NoMemory> {
        let bounds = self.bounds.copy(alloc)?;
        Ok(Given {
            bounds,
            live: self.live,
        })
    }
}

// An interval that has just got its number.
pub(crate) fn fresh(bounds: Bounds) -> Given
    ensures { result ≡ fresh bounds }
{
    Given { bounds, live: true }
}
