//! Why a book refused a call.
use mw_types::{Bytes, NoMemory, RowName};
use row_keeper::KeeperFault;

/// Why no book was made of a keeper.
#[derive(Drop)]
pub enum StartWhy {
    /// The keeper holds a row already; where a contract can see its rows, this is the one with the
    /// least name.
    NotEmpty {
        /// The row's name.
        name: RowName,
        /// The row's bytes.
        bytes: Bytes,
    },
    /// The keeper failed.
    KeeperFault,
    /// Memory ran out.
    NoMemory,
}

/// No book was made, and the keeper comes back.
#[derive(Drop)]
pub struct StartRefusal<K> {
    /// Why.
    pub why: StartWhy,
    /// The keeper.
    pub keeper: K,
}

/// Why a claim was refused.
#[derive(Drop)]
pub enum ClaimRefusal {
    /// The history has as many entries as it may have.
    HistoryFull,
    /// The keeper failed.
    KeeperFault,
    /// The keeper gave bytes that are no row that fits its name.
    RowDamaged {
        /// The row's name.
        name: RowName,
        /// The bytes.
        bytes: Bytes,
    },
    /// Memory ran out.
    NoMemory,
}

impl From<NoMemory> for ClaimRefusal {
    ghost use Rattle.std.specs.Prelude.{◌≡◌};
    ghost use Rattle.book.specs.declared.refusals.ClaimRefusal.TheVariants as refusals;

    ghost from_gives = { λ _ refusal. refusal ≡ refusals.NoMemory };

    fn from(_want: NoMemory) -> ClaimRefusal {
        ClaimRefusal::NoMemory
    }
}

/// Why a write was refused.
#[derive(Clone, Copy, PartialEq, Eq)]
pub enum WriteRefusal {
    /// The interval has a later claim.
    Stale {
        /// The commit number of its last claim.
        newer: u64,
    },
    /// The history has as many entries as it may have.
    HistoryFull,
    /// Memory ran out.
    NoMemory,
    /// The keeper failed.
    KeeperFault,
}

/// A report was refused, since the interval has a later claim.
#[derive(Clone, Copy, PartialEq, Eq)]
pub struct Stale {
    /// The commit number of the interval's last claim.
    pub newer: u64,
}

impl From<NoMemory> for WriteRefusal {
    ghost use Rattle.std.specs.Prelude.{◌≡◌};
    ghost use Rattle.book.specs.declared.refusals.WriteRefusal.TheVariants as refusals;

    ghost from_gives = { λ _ refusal. refusal ≡ refusals.NoMemory };

    fn from(_want: NoMemory) -> WriteRefusal {
        WriteRefusal::NoMemory
    }
}

impl From<KeeperFault> for WriteRefusal {
    ghost use Rattle.std.specs.Prelude.{◌≡◌};
    ghost use Rattle.book.specs.Refusing.{write_refusal_of};

    ghost from_gives = { λ fault refusal. refusal ≡ write_refusal_of fault };

    fn from(fault: KeeperFault) -> WriteRefusal {
        match fault {
            KeeperFault::Failed => WriteRefusal::KeeperFault,
            KeeperFault::NoMemory => WriteRefusal::NoMemory,
        }
    }
}

impl From<KeeperFault> for ClaimRefusal {
    ghost use Rattle.std.specs.Prelude.{◌≡◌};
    ghost use Rattle.book.specs.Refusing.{claim_refusal_of};

    ghost from_gives = { λ fault refusal. refusal ≡ claim_refusal_of fault };

    fn from(fault: KeeperFault) -> ClaimRefusal {
        match fault {
            KeeperFault::Failed => ClaimRefusal::KeeperFault,
            KeeperFault::NoMemory => ClaimRefusal::NoMemory,
        }
    }
}
