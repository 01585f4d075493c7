//! The rows of one interval that are cached, and what is kept beside them.
ghost use Rattle.std.specs.Prelude.{◌≡◌, IfOk, IsSome, None, OnErr, OnOk, Some, map, option_copied};
ghost use Rattle.std.specs.Borrow.{sem};
ghost use Rattle.std.specs.List.{flat_map};
ghost use Rattle.std.specs.List.Sorted.{IsStrictlySortedBy};
ghost use Rattle.std.specs.BTreeMap.{insert_entry};
ghost use Rattle.mw_types.specs.Orders.{row_cmp};
ghost use Rattle.mw_types.specs.declared.identity.RowName.{RowName};
ghost use Rattle.row_parts.specs.Contents.{Contents};
ghost use Rattle.run_history.specs.Marks.{row_marks};
ghost use Rattle.run_history.specs.Runs.{cached, row_in};
ghost use Rattle.run_history.specs.Watermarks.{least};
ghost use Rattle.book.specs.Claims.{named};
ghost use Rattle.book.specs.declared.answers.NamedRow.{NamedRow};
ghost use Rattle.holdings.specs.Indexes.{IsIndexOf};
ghost use Rattle.holdings.specs.Lending.{LendsIndexed};
ghost use Rattle.holdings.specs.Pendings.{ArePendingAmong};
ghost use Rattle.holdings.specs.Purges.{IsFirstToPurge};
ghost use Rattle.holdings.specs.Timers.{IsFirstTimer};
ghost use Rattle.holdings.specs.Writing.{IsNoted, WasNoted};

use crate::cache::Cache;
use crate::due::first_timer;
use crate::first_timer::RowTimer;
use crate::index::{Before, Index, before_of, changed, rekeyed};
use crate::pending::SentList;
use crate::seen::first_seen;
use book::NamedRowList;
use mw_types::{NoMemory, RowName};
use row_parts::Row;
use std::alloc::Global;
use std::marker::Model;
use std::mem::replace;

// Rows by their names, with an index of them. There is no index right after a claim, and where there
// was no memory to change it; it is made anew once it is asked for. It lies in a box, since it is
// taken out at each write, and put back.
#[derive(Drop)]
pub(crate) struct Indexed {
    rows: Cache,
    index: Option<Box<Index>>,
}

impl Model for Indexed {
    ghost use Rattle.std.specs.Prelude.{List};
    ghost use Rattle.mw_types.specs.declared.identity.RowName.{RowName};
    ghost use Rattle.row_parts.specs.Contents.{Contents};
    ghost use Rattle.holdings.specs.Indexes.{IsIndexed};

    ghost Value = { List (RowName × Contents) };

    ghost view = { λ all. all.rows };

    ghost invariant = { λ all. IsIndexed all.rows all.index };
}

impl Indexed {
    // The rows that a claim answered, which ascend by name.
    pub(crate) fn of(alloc: Global, rows: NamedRowList) -> Indexed
        requires { IsStrictlySortedBy row_cmp (map (λ (r : NamedRow). r.name) rows) }
        ensures { result ≡ map named rows }
    {
        Indexed {
            rows: Cache::of(alloc, rows),
            index: None,
        }
    }

    // The row of this name, or none where none is cached.
    pub(crate) fn get(&self, name: &RowName) -> Option<&Row>
        ensures { option_copied result ≡ row_in (cached self.now) name.now }
    {
        self.rows.get(name)
    }

    // Puts a row that is not cached yet.
    pub(crate) fn add(&mut self, alloc: Global, name: RowName, row: Row) -> Result<(), NoMemory>
        requires new { row_in (cached self.old) name ≡ None }
        ensures added { OnOk result (self.new ≡ insert_entry row_cmp self.old name row) }
        ensures unchanged { OnErr result (self.new ≡ self.old) }
    {
        let index = replace(&mut self.index, None);
        let index = changed(alloc, index, &self.rows, &name, &row);
        self.rows.add(alloc, name, row)?;
        self.index = index;
        Ok(())
    }

    // Takes the index out, with what it has of a row that is to be changed.
    pub(crate) fn note(&mut self, name: &RowName) -> (Before, Option<Box<Index>>)
        requires there { IsSome (row_in (cached self.old) name.now) }
        ensures noted { IsNoted name.now self.old result.0 result.1 }
        ensures same { self.new ≡ self.old }
    {
        let before = before_of(self.rows.get(name).unwrap());
        (before, replace(&mut self.index, None))
    }

    // The row of this name, which is cached, to be changed where it lies. Its index was taken out.
    pub(crate) fn row_mut(&mut self, name: &RowName) -> &mut Row
        requires there { IsSome (row_in (cached self.old) name.now) }
        ensures* lends { sem 𝓛 (LendsIndexed self.entry name.now result) }
        ensures row { row_in (cached self.old) name.now ≡ Some result.now }
    {
        self.index = None;
        self.rows.row_mut(name)
    }

    // Puts the index back once a row was changed, with what there is of the row now.
    pub(crate) fn reindex(
        &mut self,
        alloc: Global,
        name: &RowName,
        before: Before,
        index: Option<Box<Index>>,
    )
        requires there { IsSome (row_in (cached self.old) name.now) }
        requires noted { WasNoted name.now self.old before index }
        ensures same { self.new ≡ self.old }
    {
        self.index = rekeyed(alloc, index, &self.rows, name, before);
    }

    // The oldest work of all rows, or the end where there is none.
    pub(crate) fn oldest(&mut self, alloc: Global) -> Result<u64, NoMemory>
        ensures oldest { IfOk result (λ oldest.
            oldest ≡ least (flat_map (λ (r : RowName × Contents). row_marks r.1) self.old)) }
        ensures same { self.new ≡ self.old }
    {
        if let Some(index) = &self.index {
            return Ok(index.work.least());
        }
        let index = self.make_index(alloc)?;
        let oldest = index.work.least();
        self.index = Some(index);
        Ok(oldest)
    }

    // An index of the rows, made anew.
    fn make_index(&self, alloc: Global) -> Result<Box<Index>, NoMemory>
        ensures { IfOk result (λ index. IsIndexOf self.now index.value) }
    {
        boxed(alloc, self.rows.index(alloc)?)
    }

    // The first timer of all rows, with the name of its row, or none where no row has a timer.
    pub(crate) fn first_timer(&mut self, alloc: Global) -> Result<Option<RowTimer>, NoMemory>
        ensures first { IfOk result (IsFirstTimer self.old) }
        ensures same { self.new ≡ self.old }
    {
        if let Some(index) = &self.index {
            return first_timer(alloc, &index.dues);
        }
        let index = self.make_index(alloc)?;
        let found = first_timer(alloc, &index.dues);
        self.index = Some(index);
        found
    }

    // All that is pending in the rows.
    pub(crate) fn pending(&self, alloc: Global) -> Result<SentList, NoMemory>
        ensures { IfOk result (ArePendingAmong self.now) }
    {
        self.rows.pending(alloc)
    }

    // The name of the first row that may forget ids, or none where none may.
    pub(crate) fn to_purge(&self, floor: u64, least: u64) -> Option<&RowName>
        ensures { IsFirstToPurge floor least self.now (option_copied result) }
    {
        match &self.index {
            Some(index) => first_seen(&index.seen, &self.rows, floor, least),
            None => self.rows.to_purge(floor, least),
        }
    }
}

// An index in a box.
fn boxed(alloc: Global, index: Index) -> Result<Box<Index>, NoMemory>
    ensures { IfOk result (λ boxed. boxed.value ≡ index) }
{
    Ok(Box::new(alloc, index)?)
}
