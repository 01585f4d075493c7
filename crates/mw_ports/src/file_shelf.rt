//! The runtime's files as a shelf, whose files no contract can see.
ghost use Rattle.std.specs.Prelude.{◌≡◌, ◌≤◌, None, length, IfOk, IsErrOf};
ghost use Rattle.mw_types.specs.Causes.{Counts};
ghost use Rattle.mw_ports.specs.Shelves.{IsLack};

use crate::shelf::{Shelf, ShelfFault};
use crate::tally::Tally;
use mw_types::Bytes;
use std::alloc::Global;
use std::fs;
use std::marker::Model;
use std::rt::Files;

/// The files that a runtime has, by their paths. All of a read but the opening is
/// `Tally::read_opened`, whose clauses say of any reader what is given, and when a file is missing.
#[derive(Drop)]
pub struct FileShelf<'a, R: Files> {
    rt: &'a R,
    tally: Tally,
}

impl<'a, R: Files> Model for FileShelf<'a, R> {
    ghost use Rattle.mw_ports.specs.Shelves.{ShelfCounts};

    ghost Value = { ShelfCounts };

    ghost view = { λ s. s.tally };
}

impl<'a, R: Files> FileShelf<'a, R> {
    /// The files of this runtime.
    pub fn new(rt: &'a R) -> FileShelf<'a, R>
        ensures { result ≡ record { faults = 0; lacks = 0 } }
    {
        FileShelf {
            rt,
            tally: Tally::new(),
        }
    }
}

impl<'a, R: Files> Shelf for FileShelf<'a, R> {
    ghost files = { λ _. None };

    ghost faults = { λ s. s.faults };

    ghost lacks = { λ s. s.lacks };

    fn read(&mut self, alloc: Global, name: &str, limit: u64) -> Result<Bytes, ShelfFault>
        ensures within { IfOk result (λ bytes. length bytes ≤ limit) }

        // Each fault and each lack counts once.
        ensures faults { Counts (IsErrOf result ShelfFault.Failed) self.old.faults self.new.faults }
        ensures lacks { Counts (IsLack result) self.old.lacks self.new.lacks }
    {
        let opened = fs::open(self.rt, name);
        self.tally.read_opened(alloc, opened, limit)
    }
}
