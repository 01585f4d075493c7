//! A desk that has a book to itself.
ghost use Rattle.std.specs.Prelude.{◌≡◌};
ghost use Rattle.book.specs.OwnDesks.{own_view};

use crate::answers::Claimed;
use crate::books::Book;
use crate::desk::{Desk, Seen};
use crate::desk_refusal::DeskRefusal;
use crate::lease::Lease;
use crate::writing::Writing;
use mw_types::RowName;
use row_keeper::Keeper;
use row_parts::Row;
use std::alloc::Global;

/// The note of a desk that nobody shares a book with. It tells nothing.
#[derive(Clone, Copy, Drop)]
pub struct NoNote;

impl Seen for NoNote {
    ghost use Rattle.std.specs.Prelude.{None, []};

    ghost sight = { λ _. None };

    ghost book = { λ _. [] };
}

/// A desk over a book that nobody else writes while the desk is there.
#[derive(Drop)]
pub struct OwnDesk<'b, 'a, K: Keeper> {
    /// The book.
    pub book: &'b mut Book<'a, K>,
}

impl<'b, 'a, K: Keeper> OwnDesk<'b, 'a, K> {
    /// The desk of this book.
    pub fn on(book: &'b mut Book<'a, K>) -> OwnDesk<'b, 'a, K>
        ensures book { result.book ≡ book.entry }
    {
        OwnDesk { book }
    }
}

impl<'b, 'a, K: Keeper> Desk for OwnDesk<'b, 'a, K> {
    ghost use Rattle.book.specs.OwnDesks.{own_home, own_view};

    type Note = NoNote;

    ghost view = { λ desk. own_view desk.book.now };

    ghost loan = { λ desk. desk.book.ghost_name };

    ghost home = { λ _. own_home };

    fn sound(&self) {
        self.book.sound();
    }

    fn claim(&mut self, alloc: Global, worker: u32, interval: u32) -> Result<Claimed, DeskRefusal> {
        match self.book.claim(alloc, worker, interval) {
            Ok(claimed) => Ok(claimed),
            Err(why) => Err(DeskRefusal::of_claim(why)),
        }
    }

    fn put(
        &mut self,
        alloc: Global,
        lease: &Lease,
        name: &RowName,
        row: &mut Row,
        writing: Writing<'_>,
    ) -> Result<u64, DeskRefusal> {
        self.book.sound();
        let front = self.book.history().len() as u64;
        match self.book.put(alloc, lease, front, name, row, writing) {
            Ok(commit) => Ok(commit),
            Err(why) => Err(DeskRefusal::of_write(why)),
        }
    }

    fn report(&mut self, lease: &Lease, own: u64) -> Result<u64, DeskRefusal> {
        let front = self.book.history().len() as u64;
        match self.book.report(lease, front, own) {
            Ok(mark) => Ok(mark),
            Err(why) => Err(DeskRefusal::Stale { newer: why.newer }),
        }
    }

    fn mark(&mut self, interval: u32) -> u64 {
        self.book.mark(interval)
    }

    fn floor(&mut self) -> u64 {
        self.book.floor()
    }

    fn note(&mut self) -> NoNote {
        NoNote
    }

    fn meet(&mut self, _note: NoNote) {}
}
