//! What a shelf over files counts, and the reading that it counts for.
ghost use Rattle.std.specs.Prelude.{◌≡◌, ◌≤◌, ◌↔◌, ◌⊎◌, Err, length, IfErr, IfOk, IsErrOf};
ghost use Rattle.std.specs.IoError.{error_kind};
ghost use Rattle.mw_types.specs.Causes.{Counts};
ghost use Rattle.mw_ports.specs.Shelves.{IsLack};
ghost use Rattle.mw_ports.specs.Readers.{ReadsAll};

use crate::opened::opened_bytes;
use crate::shelf::ShelfFault;
use mw_types::Bytes;
use std::alloc::Global;
use std::io::{Error, ErrorKind, Read};
use std::marker::Model;

/// How often files failed, and how often one was not there or too long.
#[derive(Drop)]
pub struct Tally {
    faults: u64,
    lacks: u64,
}

impl Model for Tally {
    ghost use Rattle.mw_ports.specs.Shelves.{ShelfCounts};

    ghost Value = { ShelfCounts };

    ghost view = { λ t. record { faults = t.faults; lacks = t.lacks } };
}

impl Tally {
    /// Before the first read.
    pub fn new() -> Tally
        ensures { result ≡ record { faults = 0; lacks = 0 } }
    {
        Tally {
            faults: 0,
            lacks: 0,
        }
    }

    /// All bytes of the file that an open gave, which must be at most `limit`: the whole of a read,
    /// but for the open itself.
    pub fn read_opened<F: Read + Drop>(
        &mut self,
        alloc: Global,
        opened: Result<F, Error>,
        limit: u64,
    ) -> Result<Bytes, ShelfFault>
        ensures within { IfOk result (λ bytes. length bytes ≤ limit) }
        ensures told { IfOk opened (λ file. ReadsAll (F.remaining file) limit result) }

        // That the file is not there is no failure.
        ensures missing { IfErr opened (λ error.
            (result ≡ Err ShelfFault.Missing) ↔ (error_kind error ≡ ErrorKind.NotFound)) }
        ensures failed { IfErr opened (λ _.
            (result ≡ Err ShelfFault.Missing) ⊎ (result ≡ Err ShelfFault.Failed)) }

        // Each fault and each lack counts once.
        ensures faults { Counts (IsErrOf result ShelfFault.Failed) self.old.faults self.new.faults }
        ensures lacks { Counts (IsLack result) self.old.lacks self.new.lacks }
    {
        let bytes = opened_bytes(alloc, opened, limit);
        match bytes {
            Err(ShelfFault::Failed) => self.faults = self.faults.saturating_add(1),
            Err(ShelfFault::Missing | ShelfFault::TooLong) => {
                self.lacks = self.lacks.saturating_add(1);
            }
            _ => {}
        }
        bytes
    }
}
