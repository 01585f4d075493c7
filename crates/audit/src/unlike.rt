//! Why no entry was found in a line.
use mw_types::NoMemory;

// A line is that of no entry, as far as its form was read, or memory ran out.
#[derive(Clone, Copy)]
pub(crate) enum Unlike {
    /// It is that of no entry.
    NoEntry,
    /// Memory ran out.
    NoMemory,
}

impl From<NoMemory> for Unlike {
    ghost use Rattle.std.specs.Prelude.{◌≡◌};
    ghost use Rattle.audit.specs.declared.unlike.Unlike.TheVariants as refusals;

    ghost from_gives = { λ _ refusal. refusal ≡ refusals.NoMemory };

    fn from(_want: NoMemory) -> Unlike {
        Unlike::NoMemory
    }
}
