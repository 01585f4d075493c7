//! What every keeper of rows does.
ghost use Rattle.std.specs.Prelude.{◌≡◌, ℕ, All, Ok, Option, false, map, slice_get, option_map, true, IfOk, IfSome, OnErr, OnOk};
ghost use Rattle.mw_types.specs.Causes.{HasCause};
ghost use Rattle.row_keeper.specs.Rows.{Rows, AreInOrder, IsThere, entry_of, with_edit, with_row};
ghost use Rattle.key_intervals.specs.Intervals.{covers, rows_covered};

use key_intervals::Bounds;
use mw_types::{Bytes, Duplicate, NoMemory, RowName, Seq};
use std::alloc::Global;

/// Why a keeper did not do a call.
#[derive(Clone, Copy, PartialEq, Eq)]
pub enum KeeperFault {
    /// The keeper failed.
    Failed,
    /// Memory ran out.
    NoMemory,
}

impl From<NoMemory> for KeeperFault {
    ghost use Rattle.std.specs.Prelude.{◌≡◌};
    ghost use Rattle.row_keeper.specs.declared.keeper.KeeperFault.TheVariants as faults;

    ghost from_gives = { λ _ fault. fault ≡ faults.NoMemory };

    fn from(_want: NoMemory) -> KeeperFault {
        KeeperFault::NoMemory
    }
}

/// A row that a keeper holds.
#[derive(Drop, PartialEq, Eq)]
pub struct KeptRow {
    /// The row's name.
    pub name: RowName,
    /// The row's bytes.
    pub bytes: Bytes,
}

impl Duplicate for KeptRow {
    fn copy(&self, alloc: Global) -> Result<KeptRow, NoMemory> {
        Ok(KeptRow {
            name: self.name.copy(alloc)?,
            bytes: self.bytes.copy(alloc)?,
        })
    }
}

/// A list of rows.
pub type KeptRowList = Seq<KeptRow>;

/// What holds rows by their names. After a refusal it holds what it held before.
pub trait Keeper: Drop {
    /// The rows that it holds, where a contract can see them.
    ghost rows: { Self → Option Rows };

    /// How often it failed.
    ghost faults: { Self → ℕ };

    /// Sets the bytes of one row, which may be new.
    fn put(&mut self, alloc: Global, name: &RowName, bytes: &[u8]) -> Result<(), KeeperFault>
        ensures held { OnOk result
            (rows self.new ≡ option_map (with_row name.now bytes.now) (rows self.old)) }
        ensures unchanged { OnErr result (rows self.new ≡ rows self.old) }
        ensures ordered { IfSome (rows self.new) AreInOrder }
        ensures failed { HasCause (faults self.old) (faults self.new) result KeeperFault.Failed };

    /// Changes the bytes of one row where they lie: `head` stands in the place of as many at their front,
    /// and `put` in the place of `gone` bytes from `at` on. True where it did so, which counts as a put; a
    /// keeper that cannot, or has no such row, answers false and has done nothing, and the whole row is
    /// to be put.
    fn edit(
        &mut self,
        _alloc: Global,
        _name: &RowName,
        _head: &[u8],
        _at: usize,
        _gone: usize,
        _put: &[u8],
    ) -> Result<bool, KeeperFault>
        ensures edited { result ≡ Ok true → rows self.new
            ≡ option_map (with_edit _name.now _head.now _at _gone _put.now) (rows self.old) }
        ensures there { result ≡ Ok true → IfSome (rows self.old) (IsThere _name.now) }
        ensures whole { result ≡ Ok false → rows self.new ≡ rows self.old }
        ensures unchanged { OnErr result (rows self.new ≡ rows self.old) }
        ensures ordered { IfSome (rows self.old) AreInOrder → IfSome (rows self.new) AreInOrder }
        ensures failed { HasCause (faults self.old) (faults self.new) result KeeperFault.Failed }
    {
        Ok(false)
    }

    /// The rows of an interval, ascending by name. Any keeper keeps to the interval and the order, also
    /// one whose rows no contract can see.
    fn scan(&mut self, alloc: Global, bounds: &Bounds) -> Result<KeptRowList, KeeperFault>
        ensures within { IfOk result (λ found. IfSome (rows self.old)
            (λ held. map entry_of found ≡ rows_covered bounds.now held)) }
        ensures covered { IfOk result (All (λ (row : KeptRow). covers bounds.now row.name ≡ true)) }
        ensures ascending { IfOk result (λ found. AreInOrder (map entry_of found)) }
        ensures unchanged { rows self.new ≡ rows self.old }
        ensures ordered { IfSome (rows self.new) AreInOrder }
        ensures failed { HasCause (faults self.old) (faults self.new) result KeeperFault.Failed };

    /// The row with the least name, or none where it holds no row.
    fn first(&mut self, alloc: Global) -> Result<Option<KeptRow>, KeeperFault>
        ensures least { IfOk result (λ found. IfSome (rows self.old)
            (λ held. option_map entry_of found ≡ slice_get held 0)) }
        ensures unchanged { rows self.new ≡ rows self.old }
        ensures ordered { IfSome (rows self.new) AreInOrder }
        ensures failed { HasCause (faults self.old) (faults self.new) result KeeperFault.Failed };
}
