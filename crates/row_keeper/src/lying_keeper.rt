//! A keeper whose rows no contract can see, and which shows rows of its own whatever was put.
ghost use Rattle.std.specs.Prelude.{◌≡◌, ◌++◌, ◌∷◌, [], All, if◌then◌else◌, filter, map, true, Ok, None, IfErr, IfOk, IsOk, OnOk};
ghost use Rattle.key_intervals.specs.Intervals.{covers};
ghost use Rattle.row_keeper.specs.Rows.{AreInOrder, entry_of};
ghost use Rattle.row_keeper.specs.declared.keeper.KeptRow.{KeptRow};

use crate::keeper::{Keeper, KeeperFault, KeptRow, KeptRowList};
use key_intervals::Bounds;
use mw_types::{Duplicate, NoMemory, RowName};
use std::alloc::Global;
use std::marker::Model;

/// A keeper that says that it is empty, shows rows that nobody put, and forgets what is put.
#[derive(Drop)]
pub struct LyingKeeper {
    rows: KeptRowList,
}

impl Model for LyingKeeper {
    ghost use Rattle.std.specs.Prelude.{List, map};
    ghost use Rattle.row_keeper.specs.Rows.{AreInOrder, entry_of};
    ghost use Rattle.row_keeper.specs.declared.keeper.KeptRow.{KeptRow};

    ghost Value = { List KeptRow };

    ghost view = { λ k. k.rows };

    ghost invariant = { λ k. AreInOrder (map entry_of k.rows) };
}

impl LyingKeeper {
    /// A keeper that shows these rows.
    pub fn new(rows: KeptRowList) -> LyingKeeper
        requires ordered { AreInOrder (map entry_of rows) }
        ensures shown { result ≡ rows }
    {
        LyingKeeper { rows }
    }
}

impl Keeper for LyingKeeper {
    ghost use Rattle.std.specs.Prelude.{None};

    ghost rows = { λ _. None };

    ghost faults = { λ _. 0 };

    fn put(&mut self, _alloc: Global, _name: &RowName, _bytes: &[u8]) -> Result<(), KeeperFault>
        ensures done { IsOk result }
        ensures unchanged { self.new ≡ self.old }
    {
        Ok(())
    }

    fn scan(&mut self, alloc: Global, bounds: &Bounds) -> Result<KeptRowList, KeeperFault>
        ensures shown { IfOk result (λ found.
            found ≡ filter (λ (row : KeptRow). covers bounds.now row.name) self.old) }
        ensures covered { IfOk result (All (λ (row : KeptRow). covers bounds.now row.name ≡ true)) }
        ensures ascending { IfOk result (λ found. AreInOrder (map entry_of found)) }
        ensures no_memory { IfErr result (λ fault. fault ≡ KeeperFault.NoMemory) }
        ensures unchanged { self.new ≡ self.old }
    {
        Ok(shown(alloc, self.rows.as_slice(), bounds)?)
    }

    fn first(&mut self, _alloc: Global) -> Result<Option<KeptRow>, KeeperFault>
        ensures none { result ≡ Ok None }
        ensures unchanged { self.new ≡ self.old }
    {
        Ok(None)
    }
}

// The rows that the interval has.
fn shown(alloc: Global, rows: &[KeptRow], bounds: &Bounds) -> Result<KeptRowList, NoMemory>
    ensures { IfOk result (λ found.
        found ≡ filter (λ (row : KeptRow). covers bounds.now row.name) rows.now) }
{
    let mut found = KeptRowList::new(alloc);
    for row in rows {
        show(alloc, &mut found, row, bounds)?;
    }
    Ok(found)
}

// Appends a row, where the interval has it.
fn show(
    alloc: Global,
    found: &mut KeptRowList,
    row: &KeptRow,
    bounds: &Bounds,
) -> Result<(), NoMemory>
    ensures { OnOk result (found.new ≡ found.old
        ++ (if covers bounds.now row.now.name then row.now ∷ [] else [])) }
{
    if bounds.covers(&row.name) {
        found.push(row.copy(alloc)?)?;
    }
    Ok(())
}
