//! The keeper, and the count of its faults.
ghost use Rattle.std.specs.Prelude.{◌≡◌, All, map, true, IfOk};
ghost use Rattle.mw_types.specs.Causes.{Counts};
ghost use Rattle.key_intervals.specs.Intervals.{covers};
ghost use Rattle.row_keeper.specs.Rows.{AreInOrder, entry_of};
ghost use Rattle.row_keeper.specs.declared.keeper.KeptRow.{KeptRow};

use crate::check::checked;
use crate::database::Ask;
use crate::fault::fault_of;
use crate::in_file::{FileDatabase, asked, closed, opened};
use crate::reading::{first_of, range_of};
use key_intervals::Bounds;
use mw_types::RowName;
use row_keeper::{Keeper, KeeperFault, KeptRow, KeptRowList};
use std::alloc::Global;
use std::marker::Model;

/// A keeper that holds its rows in a database, which contracts see as its count of faults.
#[derive(Drop)]
pub struct SqliteKeeper {
    database: FileDatabase,
    faults: u64,
}

impl Model for SqliteKeeper {
    ghost use Rattle.std.specs.Prelude.{ℕ};

    ghost Value = { ℕ };

    ghost view = { λ k. k.faults };
}

impl SqliteKeeper {
    /// Opens the database in the file of this name, or makes it with its one table `rows`.
    ///
    /// The file is this keeper's alone until it is dropped. `Failed` comes where the name is that of a folder
    /// or of a file that is no database, may not be written, is another connection's, or has another table
    /// `rows`. Beside the file stands its log, with `-wal` behind the name: the two belong together.
    pub fn at(rt: &HostRuntime, name: &str) -> Result<SqliteKeeper, KeeperFault>
        ensures faultless { IfOk result (λ keeper. keeper ≡ 0) }
    {
        match opened(rt, name) {
            Ok(database) => Ok(SqliteKeeper {
                database,
                faults: 0,
            }),
            Err(error) => Err(fault_of(error)),
        }
    }

    /// Commits the last puts, and takes the log into the file. `Failed` comes where puts that were answered
    /// with Ok are not all in the file. A keeper that is dropped instead loses the puts since its last commit.
    pub fn close(self) -> Result<(), KeeperFault> {
        closed(self.database)
    }
}

// The fault of a call, which counts where the keeper failed.
fn counted(faults: &mut u64, fault: KeeperFault) -> KeeperFault
    ensures same { result ≡ fault }
    ensures counts { Counts (fault ≡ KeeperFault.Failed) faults.old faults.new }
{
    if fault == KeeperFault::Failed {
        *faults = faults.saturating_add(1);
    }
    fault
}

// The rows that the database has of an interval.
fn found_within(
    alloc: Global,
    database: &mut FileDatabase,
    bounds: &Bounds,
) -> Result<KeptRowList, KeeperFault>
    ensures covered { IfOk result (All (λ (row : KeptRow). covers bounds.now row.name ≡ true)) }
    ensures ascending { IfOk result (λ rows. AreInOrder (map entry_of rows)) }
{
    let found = range_of(alloc, database, bounds)?;
    checked(bounds, found)
}

impl Keeper for SqliteKeeper {
    ghost use Rattle.std.specs.Prelude.{None};

    ghost rows = { λ _. None };

    ghost faults = { λ k. k };

    fn put(&mut self, alloc: Global, name: &RowName, bytes: &[u8]) -> Result<(), KeeperFault> {
        match asked(alloc, &mut self.database, &Ask::Put { name, bytes }) {
            Ok(_) => Ok(()),
            Err(fault) => Err(counted(&mut self.faults, fault)),
        }
    }

    fn scan(&mut self, alloc: Global, bounds: &Bounds) -> Result<KeptRowList, KeeperFault> {
        match found_within(alloc, &mut self.database, bounds) {
            Ok(found) => Ok(found),
            Err(fault) => Err(counted(&mut self.faults, fault)),
        }
    }

    fn first(&mut self, alloc: Global) -> Result<Option<KeptRow>, KeeperFault> {
        match first_of(alloc, &mut self.database) {
            Ok(found) => Ok(found),
            Err(fault) => Err(counted(&mut self.faults, fault)),
        }
    }
}
