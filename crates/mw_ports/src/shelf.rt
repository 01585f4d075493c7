//! Where files are read.
ghost use Rattle.std.specs.Prelude.{◌≡◌, ◌≤◌, ℕ, Option, length, IfOk, IfSome};
ghost use Rattle.mw_types.specs.Causes.{HasCause};
ghost use Rattle.mw_ports.specs.Shelves.{Files, ReadsFile};

use mw_types::{Bytes, NoMemory};
use std::alloc::Global;

/// Why a file was not read.
#[derive(Clone, Copy, PartialEq, Eq)]
pub enum ShelfFault {
    /// There is no file of that name.
    Missing,
    /// The outside world failed.
    Failed,
    /// The file has more bytes than were allowed.
    TooLong,
    /// Memory ran out.
    NoMemory,
}

impl From<NoMemory> for ShelfFault {
    ghost use Rattle.std.specs.Prelude.{◌≡◌};
    ghost use Rattle.mw_ports.specs.declared.shelf.ShelfFault.TheVariants as faults;

    ghost from_gives = { λ _ fault. fault ≡ faults.NoMemory };

    fn from(_want: NoMemory) -> ShelfFault {
        ShelfFault::NoMemory
    }
}

/// Named files that can be read.
pub trait Shelf: Drop {
    /// The files that it holds, where a contract can see them.
    ghost files: { Self → Option Files };

    /// How often the outside world failed.
    ghost faults: { Self → ℕ };

    /// How often a file was not there, or too long.
    ghost lacks: { Self → ℕ };

    /// All bytes of one file, which must be at most `limit`.
    fn read(&mut self, alloc: Global, name: &str, limit: u64) -> Result<Bytes, ShelfFault>
        ensures unchanged { files self.new ≡ files self.old }
        ensures within { IfOk result (λ bytes. length bytes ≤ limit) }
        ensures told { IfSome (files self.old) (λ held. ReadsFile (held name.now) limit result) }

        // Each refusal has its cause, but for that memory ran out.
        ensures failed { HasCause (faults self.old) (faults self.new) result ShelfFault.Failed }
        ensures missing { HasCause (lacks self.old) (lacks self.new) result ShelfFault.Missing }
        ensures too_long { HasCause (lacks self.old) (lacks self.new) result ShelfFault.TooLong };
}
