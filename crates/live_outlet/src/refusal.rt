//! Why a text was not collected.

use mw_types::NoMemory;

/// Why a text was not collected.
#[derive(Clone, Copy, PartialEq, Eq)]
pub enum CollectRefusal {
    /// A live line has the id of an earlier one, and other bytes.
    Differs {
        /// The number of the first such line, from 1.
        line: u32,
        /// The number of the first line with its id.
        first: u32,
    },
    /// Memory ran out.
    NoMemory,
}

impl From<NoMemory> for CollectRefusal {
    ghost use Rattle.std.specs.Prelude.{◌≡◌};
    ghost use Rattle.live_outlet.specs.declared.refusal.CollectRefusal.TheVariants as refusals;

    ghost from_gives = { λ _ why. why ≡ refusals.NoMemory };

    fn from(_want: NoMemory) -> CollectRefusal {
        CollectRefusal::NoMemory
    }
}
