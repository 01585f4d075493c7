//! Why a printed history was not taken for a lawful run.

use mw_types::NoMemory;

/// What is wrong with the first wrong line of a printed history.
#[derive(Clone, Copy, PartialEq, Eq)]
pub enum AuditWhy {
    /// It begins as the line of an entry, and is that of none under its number.
    NotALine,
    /// It is the line of an entry that may not come there.
    Unlawful,
    /// The entries end before it, and work is left.
    NotFinished,
    /// The entries end before it, and the text is not theirs with their result.
    BadText,
}

/// Why an audit was refused.
#[derive(Clone, Copy, PartialEq, Eq)]
pub enum AuditRefusal {
    /// The text is not that of a lawful run.
    Bad {
        /// The number of the first line that is wrong, from 1.
        line: u32,
        /// What is wrong with it.
        why: AuditWhy,
    },
    /// Memory ran out.
    NoMemory,
}

impl From<NoMemory> for AuditRefusal {
    ghost use Rattle.std.specs.Prelude.{◌≡◌};
    ghost use Rattle.trace_lines.specs.declared.refusal.AuditRefusal.TheVariants as refusals;

    ghost from_gives = { λ _ refusal. refusal ≡ refusals.NoMemory };

    fn from(_want: NoMemory) -> AuditRefusal {
        AuditRefusal::NoMemory
    }
}
