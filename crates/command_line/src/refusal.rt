//! Why words are not read.

use mw_types::NoMemory;
use std::alloc::AllocError;

/// Why there is no command.
#[derive(Clone, Copy, PartialEq, Eq)]
pub enum WordsRefusal {
    /// The words are no command.
    Usage,
    /// Memory ran out.
    NoMemory,
}

impl From<NoMemory> for WordsRefusal {
    ghost use Rattle.std.specs.Prelude.{◌≡◌};
    ghost use Rattle.command_line.specs.declared.refusal.WordsRefusal.TheVariants as refusals;

    ghost from_gives = { λ _ refusal. refusal ≡ refusals.NoMemory };

    fn from(_want: NoMemory) -> WordsRefusal {
        WordsRefusal::NoMemory
    }
}

impl From<AllocError> for WordsRefusal {
    ghost use Rattle.std.specs.Prelude.{◌≡◌};
    ghost use Rattle.command_line.specs.declared.refusal.WordsRefusal.TheVariants as refusals;

    ghost from_gives = { λ _ refusal. refusal ≡ refusals.NoMemory };

    fn from(_want: AllocError) -> WordsRefusal {
        WordsRefusal::NoMemory
    }
}
