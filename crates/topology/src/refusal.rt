//! Why a topology file was refused.
use mw_types::NoMemory;

/// The rules of a topology file, in the order in which they are tried: the first that it breaks.
#[derive(Clone, Copy, PartialEq, Eq)]
pub enum TopologyRefusal {
    /// The bytes are not one JSON text in UTF-8.
    NotJson,
    /// The value has another shape: a member is missing, is of another kind or is not known.
    BadShape,
    /// There are more than 16 injectors, 32 computations, 64 readings or 61 intervals.
    TooMany,
    /// A part or a stream has a name of another form.
    BadName,
    /// Two parts have one name.
    DoubleName,
    /// Two parts publish one stream.
    DoubleStream,
    /// A computation reads a stream that no part before it publishes.
    UnknownStream,
    /// A number of a kind is not whole or not in its range.
    BadNumber,
    /// A cut has not 1 to 256 bytes, or the cuts of a computation do not ascend.
    BadCuts,
    /// No computation reads the stream of a weak one, or more than 64 readings are left without the weak
    /// ones.
    BadWeak,
    /// Memory ran out.
    NoMemory,
}

impl From<NoMemory> for TopologyRefusal {
    ghost use Rattle.std.specs.Prelude.{◌≡◌};
    ghost use Rattle.topology.specs.declared.refusal.TopologyRefusal.TheVariants as refusals;

    ghost from_gives = { λ _ refusal. refusal ≡ refusals.NoMemory };

    fn from(_want: NoMemory) -> TopologyRefusal {
        TopologyRefusal::NoMemory
    }
}

// Why the shape of a file was refused.
#[derive(Clone, Copy)]
pub(crate) enum ShapeRefusal {
    /// The value has another shape.
    BadShape,
    /// Memory ran out.
    NoMemory,
}

impl From<NoMemory> for ShapeRefusal {
    ghost use Rattle.std.specs.Prelude.{◌≡◌};
    ghost use Rattle.topology.specs.declared.refusal.ShapeRefusal.TheVariants as refusals;

    ghost from_gives = { λ _ refusal. refusal ≡ refusals.NoMemory };

    fn from(_want: NoMemory) -> ShapeRefusal {
        ShapeRefusal::NoMemory
    }
}
