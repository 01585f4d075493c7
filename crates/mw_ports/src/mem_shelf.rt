//! A shelf in memory, whose files a contract can see, and which fails at named calls.
ghost use Rattle.std.specs.Prelude.{◌≡◌, ◌≤◌, ◌↔◌, length, Some, IfOk, IsErrOf, Contains, option_copied};
ghost use Rattle.mw_types.specs.Causes.{Counts, raised};
ghost use Rattle.mw_ports.specs.Shelves.{IsLack, ReadsFile};
ghost use Rattle.mw_ports.specs.Fakes.{file_of};

use crate::shelf::{Shelf, ShelfFault};
use mw_types::{Bytes, CallList, Duplicate, Name, Seq};
use std::alloc::Global;
use std::marker::Model;

/// A file of a shelf in memory.
#[derive(Drop, PartialEq, Eq)]
pub struct NamedFile {
    /// The file's name.
    pub name: Name,
    /// All of its bytes.
    pub bytes: Bytes,
}

/// A list of files.
pub type FileList = Seq<NamedFile>;

/// A shelf that holds its files in memory.
#[derive(Drop)]
pub struct MemShelf {
    files: FileList,
    failing: CallList,
    calls: u64,
    faults: u64,
    lacks: u64,
}

impl Model for MemShelf {
    ghost use Rattle.mw_ports.specs.Fakes.{ShelfView};

    ghost Value = { ShelfView };

    ghost view = { λ s. record {
      files = s.files;
      failing = s.failing;
      calls = s.calls;
      faults = s.faults;
      lacks = s.lacks;
    } };
}

impl MemShelf {
    /// A shelf with these files, whose reads of these numbers, from 0, fail.
    pub fn of(files: FileList, failing: CallList) -> MemShelf
        ensures { result ≡
            record { files = files; failing = failing; calls = 0; faults = 0; lacks = 0 } }
    {
        MemShelf {
            files,
            failing,
            calls: 0,
            faults: 0,
            lacks: 0,
        }
    }
}

impl Shelf for MemShelf {
    ghost files = { λ s. Some (file_of s.files) };

    ghost faults = { λ s. s.faults };

    ghost lacks = { λ s. s.lacks };

    fn read(&mut self, alloc: Global, name: &str, limit: u64) -> Result<Bytes, ShelfFault>
        ensures failed { IsErrOf result ShelfFault.Failed ↔
            Contains self.old.failing self.old.calls }
        ensures within { IfOk result (λ bytes. length bytes ≤ limit) }
        ensures told { ReadsFile (file_of self.old.files name.now) limit result }

        // Each call counts, and each fault and lack once.
        ensures counted { self.new.calls ≡ raised self.old.calls }
        ensures faults { Counts (IsErrOf result ShelfFault.Failed) self.old.faults self.new.faults }
        ensures lacks { Counts (IsLack result) self.old.lacks self.new.lacks }
        ensures files { self.new.files ≡ self.old.files }
        ensures failing { self.new.failing ≡ self.old.failing }
    {
        let fails = self.failing.as_slice().contains(&self.calls);
        self.calls = self.calls.saturating_add(1);
        if fails {
            self.faults = self.faults.saturating_add(1);
            return Err(ShelfFault::Failed);
        }
        let found = found(alloc, self.files.as_slice(), name, limit);
        if let Err(ShelfFault::Missing | ShelfFault::TooLong) = found {
            self.lacks = self.lacks.saturating_add(1);
        }
        found
    }
}

// The bytes of the first file of that name, copied where they are not too many.
fn found(alloc: Global, files: &[NamedFile], name: &str, limit: u64) -> Result<Bytes, ShelfFault>
    ensures failed { IsErrOf result ShelfFault.Failed → ⊥ }
    ensures within { IfOk result (λ bytes. length bytes ≤ limit) }
    ensures told { ReadsFile (file_of files.now name.now) limit result }
{
    match bytes_of(files, name) {
        None => Err(ShelfFault::Missing),
        Some(bytes) if bytes.len() as u64 > limit => Err(ShelfFault::TooLong),
        Some(bytes) => Ok(bytes.copy(alloc)?),
    }
}

// The bytes of the first file of that name.
fn bytes_of<'f>(files: &'f [NamedFile], name: &str) -> Option<&'f Bytes>
    ensures first { option_copied result ≡ file_of files.now name.now }
{
    let file = files.iter().find(|file| file.name.text() == name)?;
    Some(&file.bytes)
}
