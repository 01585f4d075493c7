//! Refusals that several crates answer.
use crate::memory::NoMemory;

/// Why a text is no key.
#[derive(Clone, Copy, PartialEq, Eq)]
pub enum KeyRefusal {
    /// The text has no byte, or more than 256.
    BadLength,
    /// Memory ran out.
    NoMemory,
}

impl From<NoMemory> for KeyRefusal {
    ghost use Rattle.std.specs.Prelude.{◌≡◌};
    ghost use Rattle.mw_types.specs.declared.refusal.KeyRefusal.TheVariants as refusals;

    ghost from_gives = { λ _ refusal. refusal ≡ refusals.NoMemory };

    fn from(_want: NoMemory) -> KeyRefusal {
        KeyRefusal::NoMemory
    }
}

/// Why a plan was refused.
#[derive(Clone, Copy, PartialEq, Eq)]
pub enum PlanRefusal {
    /// This line, counted from 1, is the first that is out of form.
    Line {
        /// The line's number.
        line: u32,
    },
    /// Memory ran out.
    NoMemory,
}

impl From<NoMemory> for PlanRefusal {
    ghost use Rattle.std.specs.Prelude.{◌≡◌};
    ghost use Rattle.mw_types.specs.declared.refusal.PlanRefusal.TheVariants as refusals;

    ghost from_gives = { λ _ refusal. refusal ≡ refusals.NoMemory };

    fn from(_want: NoMemory) -> PlanRefusal {
        PlanRefusal::NoMemory
    }
}
