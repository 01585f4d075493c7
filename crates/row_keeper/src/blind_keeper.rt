//! A keeper whose rows no contract can see, and which shows one row whatever was put.
ghost use Rattle.std.specs.Prelude.{◌≡◌, ◌∷◌, [], All, if◌then◌else◌, map, true, Ok, None, IfErr, IfOk, IsOk};
ghost use Rattle.key_intervals.specs.Intervals.{covers};
ghost use Rattle.row_keeper.specs.Rows.{AreInOrder, entry_of};
ghost use Rattle.row_keeper.specs.declared.keeper.KeptRow.{KeptRow};

use crate::keeper::{Keeper, KeeperFault, KeptRow, KeptRowList};
use key_intervals::Bounds;
use mw_types::{Duplicate, NoMemory, RowName};
use std::alloc::Global;
use std::marker::Model;

/// A keeper that says that it is empty, and yet has a row in each interval that covers it.
#[derive(Drop)]
pub struct BlindKeeper {
    row: KeptRow,
}

impl Model for BlindKeeper {
    ghost use Rattle.row_keeper.specs.declared.keeper.KeptRow.{KeptRow};

    ghost Value = { KeptRow };

    ghost view = { λ k. k.row };
}

impl BlindKeeper {
    /// A keeper that shows this row.
    pub fn new(row: KeptRow) -> BlindKeeper
        ensures { result ≡ row }
    {
        BlindKeeper { row }
    }
}

impl Keeper for BlindKeeper {
    ghost use Rattle.std.specs.Prelude.{None};

    ghost rows = { λ _. None };

    ghost faults = { λ _. 0 };

    fn put(&mut self, _alloc: Global, _name: &RowName, _bytes: &[u8]) -> Result<(), KeeperFault>
        ensures done { IsOk result }
        ensures unchanged { self.new ≡ self.old }
    {
        Ok(())
    }

    #[tactic(auto, using(crate::proofs::Answered::shown_covered))]
    fn scan(&mut self, alloc: Global, bounds: &Bounds) -> Result<KeptRowList, KeeperFault>
        ensures shown { IfOk result (λ found.
            found ≡ (if covers bounds.now self.old.name then self.old ∷ [] else [])) }
        ensures covered { IfOk result (All (λ (row : KeptRow). covers bounds.now row.name ≡ true)) }
        ensures ascending { IfOk result (λ found. AreInOrder (map entry_of found)) }
        ensures no_memory { IfErr result (λ fault. fault ≡ KeeperFault.NoMemory) }
        ensures unchanged { self.new ≡ self.old }
    {
        Ok(shown(alloc, &self.row, bounds)?)
    }

    fn first(&mut self, _alloc: Global) -> Result<Option<KeptRow>, KeeperFault>
        ensures none { result ≡ Ok None }
        ensures unchanged { self.new ≡ self.old }
    {
        Ok(None)
    }
}

// The row, where the interval has it.
fn shown(alloc: Global, row: &KeptRow, bounds: &Bounds) -> Result<KeptRowList, NoMemory>
    ensures { IfOk result (λ found.
        found ≡ (if covers bounds.now row.now.name then row.now ∷ [] else [])) }
{
    let mut found = KeptRowList::new(alloc);
    if bounds.covers(&row.name) {
        found.push(row.copy(alloc)?)?;
    }
    Ok(found)
}
