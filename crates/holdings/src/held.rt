//! What is held of one interval.
ghost use Rattle.std.specs.Prelude.{◌≡◌, ◌<◌, IfErr, IfOk, IfSome, IsSome, OnErr, OnOk, option_copied};
ghost use Rattle.std.specs.List.Sorted.{IsStrictlySortedBy};
ghost use Rattle.std.specs.Map.{keys_of};
ghost use Rattle.std.specs.Option.{is_some};
ghost use Rattle.mw_types.specs.Orders.{row_cmp};
ghost use Rattle.topology.specs.Shapes.{Shape};
ghost use Rattle.row_parts.specs.Contents.{cursor_in, found_delivery};
ghost use Rattle.run_history.specs.Runs.{cached, row_in};
ghost use Rattle.book.specs.Answers.{answer_of};
ghost use Rattle.book.specs.Desking.{IsRowKnown, MayAsk};
ghost use Rattle.book.specs.DeskReasons.{HasReason};
ghost use Rattle.book.specs.Desks.{HasLooked, KeepsMarks};
ghost use Rattle.book.specs.Writings.{HasPut, MayPut};
ghost use Rattle.holdings.specs.Holding.{row_held, with_row};
ghost use Rattle.holdings.specs.Pendings.{ArePendingAmong};
ghost use Rattle.holdings.specs.Purges.{IsFirstToPurge};
ghost use Rattle.holdings.specs.Timers.{IsFirstTimer};
ghost use Rattle.holdings.specs.Writing.{IsRewritten};

use crate::first_timer::RowTimer;
use crate::indexed::Indexed;
use crate::pending::SentList;
use book::{Desk, DeskRefusal, Lease, Writing};
use mw_types::{Duplicate, NoMemory, RecordId, RowName};
use row_parts::Row;
use run_history::{Case, first_row};
use std::alloc::Global;
use std::marker::Model;

/// What is held of one interval: the lease, and the rows that are cached.
#[derive(Drop)]
pub struct Held {
    pub(crate) lease: Lease,
    pub(crate) rows: Indexed,
}

impl Model for Held {
    ghost use Rattle.holdings.specs.Holding.{HeldView};

    ghost Value = { HeldView };

    ghost view = { λ held. record { lease = held.lease; rows = held.rows } };
}

impl Held {
    /// The lease.
    pub fn lease(&self) -> &Lease
        ensures lease { result.now ≡ self.now.lease }
    {
        &self.lease
    }

    /// The row of this name, or none where none is cached: the row is fresh then.
    pub fn row(&self, name: &RowName) -> Option<&Row>
        ensures row { option_copied result ≡ row_in (cached self.now.rows) name.now }
    {
        self.rows.get(name)
    }

    /// How many lines an injector has injected, by its row of this name: the next line.
    pub fn cursor(&self, name: &RowName) -> u32
        ensures cursor { (shape : Shape) →
            result ≡ cursor_in (row_held shape self.now name.now).state }
    {
        match self.row(name) {
            Some(row) => row.cursor(),
            None => 0,
        }
    }

    /// Whether the row of this name waits to learn that the record of an id was handled.
    pub fn is_pending(&self, name: &RowName, id: RecordId) -> bool
        ensures pending { (shape : Shape) →
            result ≡ is_some (found_delivery id (row_held shape self.now name.now).pending) }
    {
        match self.row(name) {
            Some(row) => row.is_pending(id),
            None => false,
        }
    }

    // The first timer of all rows, with the name of its row, or none where no row has a timer.
    pub(crate) fn first_timer(&mut self, alloc: Global) -> Result<Option<RowTimer>, NoMemory>
        ensures first { IfOk result (IsFirstTimer self.old.rows) }
        ensures same { self.new ≡ self.old }
    {
        self.rows.first_timer(alloc)
    }

    // All that is pending in the rows.
    pub(crate) fn pending(&self, alloc: Global) -> Result<SentList, NoMemory>
        ensures { IfOk result (ArePendingAmong self.now.rows) }
    {
        self.rows.pending(alloc)
    }

    // The name of the first row that may forget ids, or none where none may.
    pub(crate) fn to_purge(&self, floor: u64, least: u64) -> Option<&RowName>
        ensures { IsFirstToPurge floor least self.now.rows (option_copied result) }
    {
        self.rows.to_purge(floor, least)
    }

    // Sees to it that a row is cached, which changes no row.
    pub(crate) fn cache(
        &mut self,
        alloc: Global,
        case: &Case,
        name: &RowName,
    ) -> Result<(), NoMemory>
        requires ordered { IsStrictlySortedBy row_cmp (keys_of self.old.rows) }
        ensures there { OnOk result
            (self.new ≡ with_row name.now (row_held case.now.topology self.old name.now) self.old) }
        ensures unchanged { OnErr result (self.new ≡ self.old) }
    {
        if let Some(_) = self.rows.get(name) {
            return Ok(());
        }
        let key = name.copy(alloc)?;
        let row = first_row(alloc, case, name.part);
        self.rows.add(alloc, key, row)?;
        Ok(())
    }

    // Writes into a row that is cached, where it lies.
    pub(crate) fn put<D: Desk>(
        &mut self,
        alloc: Global,
        desk: &mut D,
        name: &RowName,
        writing: Writing<'_>,
    ) -> Result<u64, DeskRefusal>
        requires there { IsSome (row_in (cached self.old.rows) name.now) }
        requires lease { MayAsk (D.view desk.old) self.old.lease name.now }
        requires row { IfSome (row_in (cached self.old.rows) name.now)
            (IsRowKnown (D.view desk.old) self.old.lease name.now) }
        requires may { IfSome (row_in (cached self.old.rows) name.now) (λ row.
            MayPut (D.view desk.old) name.now row writing) }

        ensures put { IfOk result (λ commit. IsRewritten name.now
            (λ row left. HasPut (D.view desk.old) (D.view desk.new) self.old.lease name.now
            writing.entry row (answer_of commit left)) self.old self.new) }

        ensures kept { OnErr result (self.new ≡ self.old) }
        ensures looked { OnErr result (HasLooked (D.view desk.old) (D.view desk.new)) }
        ensures reason { IfErr result
            (HasReason (D.view desk.old) (D.view desk.new) self.old.lease) }
        ensures marks { KeepsMarks (D.view desk.old) (D.view desk.new) }
        ensures loan { D.loan desk.new ≡ D.loan desk.old }
        ensures home { D.home desk.new ≡ D.home desk.old }
    {
        let (before, index) = self.rows.note(name);
        let row = self.rows.row_mut(name);
        let written = desk.put(alloc, &self.lease, name, row, writing);
        self.rows.reindex(alloc, name, before, index);
        written
    }
}
