//! Why a line, and with it a file, was refused.
use mw_types::{KeyRefusal, NoMemory};

/// The rules of a line, in the order in which they are tried: the first that it breaks.
#[derive(Clone, Copy, PartialEq, Eq)]
pub enum LineWhy {
    /// The line is not one JSON text in UTF-8.
    NotJson,
    /// The text is not an object.
    NotObject,
    /// The key is absent, or is not a text of 1 to 256 bytes.
    BadKey,
    /// The timestamp or the watermark is not a whole number from 0 to 2^62.
    BadStamp,
    /// The value is there, and is not a whole number of 64 bits.
    BadValue,
    /// There was no room for this record line.
    TooManyLines,
}

/// Why an event file was refused.
#[derive(Clone, Copy, PartialEq, Eq)]
pub enum LinesRefusal {
    /// This line, counted from 1, is the first that breaks a rule.
    Line {
        /// The line's number.
        line: u32,
        /// The first rule that it breaks.
        why: LineWhy,
    },
    /// Memory ran out.
    NoMemory,
}

impl From<NoMemory> for LinesRefusal {
    ghost use Rattle.std.specs.Prelude.{◌≡◌};
    ghost use Rattle.injector.specs.declared.refusal.LinesRefusal.TheVariants as refusals;

    ghost from_gives = { λ _ refusal. refusal ≡ refusals.NoMemory };

    fn from(_want: NoMemory) -> LinesRefusal {
        LinesRefusal::NoMemory
    }
}

/// Why one line was refused, whose number is not known yet.
#[derive(Clone, Copy)]
pub enum LineRefusal {
    /// The first rule that the line breaks.
    Breaks(LineWhy),
    /// Memory ran out.
    NoMemory,
}

impl From<NoMemory> for LineRefusal {
    ghost use Rattle.std.specs.Prelude.{◌≡◌};
    ghost use Rattle.injector.specs.declared.refusal.LineRefusal.TheVariants as refusals;

    ghost from_gives = { λ _ refusal. refusal ≡ refusals.NoMemory };

    fn from(_want: NoMemory) -> LineRefusal {
        LineRefusal::NoMemory
    }
}

impl From<LineWhy> for LineRefusal {
    ghost use Rattle.std.specs.Prelude.{◌≡◌};
    ghost use Rattle.injector.specs.declared.refusal.LineRefusal.TheVariants as refusals;

    ghost from_gives = { λ why refusal. refusal ≡ refusals.Breaks why };

    fn from(why: LineWhy) -> LineRefusal {
        LineRefusal::Breaks(why)
    }
}
