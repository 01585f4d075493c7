//! Why a desk refused a call.
ghost use Rattle.std.specs.Prelude.{◌≡◌};
ghost use Rattle.book.specs.DeskReasons.{of_claim, of_write};

use crate::refusals::{ClaimRefusal, WriteRefusal};
use mw_types::{Bytes, NoMemory, RowName};

/// Why a desk refused a call.
#[derive(Drop)]
pub enum DeskRefusal {
    /// Another had the turn to append.
    Busy {
        /// The word that was found, which names the holder of the turn.
        found: u64,
    },
    /// The interval has a later claim.
    Stale {
        /// The commit number of the interval's last claim.
        newer: u64,
    },
    /// The history has as many entries as it may have.
    HistoryFull,
    /// The keeper failed.
    KeeperFault,
    /// The keeper gave bytes that are no row that fits its name.
    RowDamaged {
        /// The row's name.
        name: RowName,
        /// The bytes.
        bytes: Bytes,
    },
    /// Memory ran out.
    NoMemory,
}

impl From<NoMemory> for DeskRefusal {
    ghost use Rattle.std.specs.Prelude.{◌≡◌};
    ghost use Rattle.book.specs.declared.desk_refusal.DeskRefusal.TheVariants as refusals;

    ghost from_gives = { λ _ refusal. refusal ≡ refusals.NoMemory };

    fn from(_want: NoMemory) -> DeskRefusal {
        DeskRefusal::NoMemory
    }
}

impl DeskRefusal {
    /// What a refused write is to a desk.
    pub fn of_write(why: WriteRefusal) -> DeskRefusal
        ensures { result ≡ of_write why }
    {
        match why {
            WriteRefusal::Stale { newer } => DeskRefusal::Stale { newer },
            WriteRefusal::HistoryFull => DeskRefusal::HistoryFull,
            WriteRefusal::NoMemory => DeskRefusal::NoMemory,
            WriteRefusal::KeeperFault => DeskRefusal::KeeperFault,
        }
    }

    /// What a refused claim is to a desk.
    pub fn of_claim(why: ClaimRefusal) -> DeskRefusal
        ensures { result ≡ of_claim why }
    {
        match why {
            ClaimRefusal::HistoryFull => DeskRefusal::HistoryFull,
            ClaimRefusal::KeeperFault => DeskRefusal::KeeperFault,
            ClaimRefusal::RowDamaged { name, bytes } => DeskRefusal::RowDamaged { name, bytes },
            ClaimRefusal::NoMemory => DeskRefusal::NoMemory,
        }
    }
}
