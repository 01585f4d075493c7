//! Why intervals were not split or merged.

use mw_types::NoMemory;
use std::alloc::AllocError;

/// Why an interval was not split.
#[derive(Clone, Copy, PartialEq, Eq)]
pub enum SplitRefusal {
    /// There is no live interval of that number.
    NoInterval,
    /// The interval is an injector's, or has no keys on one side of the cut.
    BadCut,
    /// Fewer than two numbers are left to be given.
    NumbersFull,
    /// The history has as many entries as it may have; intervals alone never answer this.
    HistoryFull,
    /// Memory ran out.
    NoMemory,
}

/// Why two intervals were not merged.
#[derive(Clone, Copy, PartialEq, Eq)]
pub enum MergeRefusal {
    /// There is no live interval of one of the numbers.
    NoInterval,
    /// The second interval does not begin, in the part of the first, where that ends.
    NotNeighbours,
    /// No number is left to be given.
    NumbersFull,
    /// The history has as many entries as it may have; intervals alone never answer this.
    HistoryFull,
    /// Memory ran out.
    NoMemory,
}

impl From<NoMemory> for SplitRefusal {
    ghost use Rattle.std.specs.Prelude.{◌≡◌};
    ghost use Rattle.key_intervals.specs.declared.refusals.SplitRefusal.TheVariants as splits;

    ghost from_gives = { λ _ why. why ≡ splits.NoMemory };

    fn from(_want: NoMemory) -> SplitRefusal {
        SplitRefusal::NoMemory
    }
}

impl From<AllocError> for SplitRefusal {
    ghost use Rattle.std.specs.Prelude.{◌≡◌};
    ghost use Rattle.key_intervals.specs.declared.refusals.SplitRefusal.TheVariants as splits;

    ghost from_gives = { λ _ why. why ≡ splits.NoMemory };

    fn from(_want: AllocError) -> SplitRefusal {
        SplitRefusal::NoMemory
    }
}

impl From<NoMemory> for MergeRefusal {
    ghost use Rattle.std.specs.Prelude.{◌≡◌};
    ghost use Rattle.key_intervals.specs.declared.refusals.MergeRefusal.TheVariants as merges;

    ghost from_gives = { λ _ why. why ≡ merges.NoMemory };

    fn from(_want: NoMemory) -> MergeRefusal {
        MergeRefusal::NoMemory
    }
}

impl From<AllocError> for MergeRefusal {
    ghost use Rattle.std.specs.Prelude.{◌≡◌};
    ghost use Rattle.key_intervals.specs.declared.refusals.MergeRefusal.TheVariants as merges;

    ghost from_gives = { λ _ why. why ≡ merges.NoMemory };

    fn from(_want: AllocError) -> MergeRefusal {
        MergeRefusal::NoMemory
    }
}
