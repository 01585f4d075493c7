//! Why bytes could not be read.
use mw_types::NoMemory;
use std::alloc::{AllocError, AllocFailed};

/// Why bytes gave no state.
#[derive(Clone, Copy, PartialEq, Eq)]
pub enum StateRefusal {
    /// The bytes are no state's spelling.
    Damaged,
    /// Memory ran out.
    NoMemory,
}

impl From<NoMemory> for StateRefusal {
    ghost use Rattle.std.specs.Prelude.{◌≡◌};
    ghost use Rattle.row_parts.specs.declared.refusal.StateRefusal.TheVariants as refusals;

    ghost from_gives = { λ _ refusal. refusal ≡ refusals.NoMemory };

    fn from(_want: NoMemory) -> StateRefusal {
        StateRefusal::NoMemory
    }
}

impl From<AllocError> for StateRefusal {
    ghost use Rattle.std.specs.Prelude.{◌≡◌};
    ghost use Rattle.row_parts.specs.declared.refusal.StateRefusal.TheVariants as refusals;

    ghost from_gives = { λ _ refusal. refusal ≡ refusals.NoMemory };

    fn from(_want: AllocError) -> StateRefusal {
        StateRefusal::NoMemory
    }
}

impl<T: Drop> From<AllocFailed<T>> for StateRefusal {
    ghost use Rattle.std.specs.Prelude.{◌≡◌};
    ghost use Rattle.row_parts.specs.declared.refusal.StateRefusal.TheVariants as refusals;

    ghost from_gives = { λ _ refusal. refusal ≡ refusals.NoMemory };

    fn from(_want: AllocFailed<T>) -> StateRefusal {
        StateRefusal::NoMemory
    }
}
