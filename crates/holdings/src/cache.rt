//! The rows of one interval that are cached.
ghost use Rattle.std.specs.Prelude.{◌≡◌, ◌++◌, IfOk, IsSome, None, OnErr, OnOk, Some, fold, map, option_copied};
ghost use Rattle.std.specs.Borrow.{sem};
ghost use Rattle.std.specs.List.{flat_map};
ghost use Rattle.std.specs.List.Sorted.{IsStrictlySortedBy};
ghost use Rattle.std.specs.Map.{keys_of, lookup, set_value};
ghost use Rattle.std.specs.BTreeMap.{insert_entry, is_at};
ghost use Rattle.mw_types.specs.Orders.{row_cmp};
ghost use Rattle.mw_types.specs.declared.identity.RowName.{RowName};
ghost use Rattle.row_parts.specs.Contents.{Contents};
ghost use Rattle.row_parts.specs.Places.{IsHitOrGap};
ghost use Rattle.run_history.specs.Runs.{cached, row_in};
ghost use Rattle.book.specs.Claims.{named};
ghost use Rattle.book.specs.declared.answers.NamedRow.{NamedRow};
ghost use Rattle.holdings.specs.Lending.{LendsCached};
ghost use Rattle.holdings.specs.Firsts.{earlier};
ghost use Rattle.holdings.specs.Indexes.{HasStamped, IsIndexOf};
ghost use Rattle.holdings.specs.Pendings.{ArePendingAmong, sent_in};
ghost use Rattle.holdings.specs.Purges.{IsFirstToPurge, by_name, forgets, seen_name};
ghost use Rattle.holdings.specs.Dues.{due_of, due_order};
ghost use Rattle.holdings.specs.Keyed.{HasKeyed};
ghost use Rattle.holdings.specs.Seens.{seen_of};

use crate::index::Index;
use crate::pending::{SentList, push_row};
use crate::slots::{Slots, index_beside, purge_beside, push_beside};
use crate::to_purge::earlier_name;
use book::{NamedRow, NamedRowList};
use mw_types::{NoMemory, RowName};
use row_parts::Row;
use std::alloc::Global;
use std::marker::Model;

// Rows by their names: the list that a claim answered, as it is, so that a claim takes no memory
// after its answer; and those that are not in it.
#[derive(Drop)]
pub(crate) struct Cache {
    answered: Vec<NamedRow>,
    others: Slots,
}

impl Model for Cache {
    ghost use Rattle.std.specs.Prelude.{List};
    ghost use Rattle.mw_types.specs.declared.identity.RowName.{RowName};
    ghost use Rattle.row_parts.specs.Contents.{Contents};
    ghost use Rattle.holdings.specs.Caching.{AreOrdered, merged};

    ghost Value = { List (RowName × Contents) };

    ghost view = { λ cache. merged cache.answered.items cache.others };

    ghost invariant = { λ cache. AreOrdered cache.answered.items cache.others };
}

impl Cache {
    // The rows that a claim answered, which ascend by name.
    pub(crate) fn of(alloc: Global, rows: NamedRowList) -> Cache
        requires { IsStrictlySortedBy row_cmp (map (λ (r : NamedRow). r.name) rows) }
        ensures { result ≡ map named rows }
    {
        Cache {
            answered: rows.into_vec(),
            others: Slots::new(alloc),
        }
    }

    // The row of this name, or none where none is cached.
    pub(crate) fn get(&self, name: &RowName) -> Option<&Row>
        ensures { option_copied result ≡ row_in (cached self.now) name.now }
    {
        match self.others.tried(name) {
            Some(row) => Some(row),
            None => self.sought(name),
        }
    }

    // The same where the row is not the one that was found last.
    fn sought(&self, name: &RowName) -> Option<&Row>
        ensures { option_copied result ≡ row_in (cached self.now) name.now }
    {
        match place_of(&self.answered, name) {
            Ok(at) => Some(&self.answered[at].row),
            Err(_) => self.others.get(name),
        }
    }

    // Puts a row that is not cached yet.
    pub(crate) fn add(&mut self, alloc: Global, name: RowName, row: Row) -> Result<(), NoMemory>
        requires new { row_in (cached self.old) name ≡ None }
        ensures added { OnOk result (self.new ≡ insert_entry row_cmp self.old name row) }
        ensures unchanged { OnErr result (self.new ≡ self.old) }
    {
        self.others.add(alloc, name, row)?;
        Ok(())
    }

    // The row of this name, which is cached, to be changed where it lies.
    pub(crate) fn row_mut(&mut self, name: &RowName) -> &mut Row
        requires there { IsSome (row_in (cached self.old) name.now) }
        ensures* lends { sem 𝓛 (LendsCached self.entry name.now result) }
        ensures row { row_in (cached self.old) name.now ≡ Some result.now }
    {
        match place_of(&self.answered, name) {
            Ok(at) => {
                let place = &mut self.answered[at];
                &mut place.row
            }
            Err(_) => self.others.row_mut(name),
        }
    }

    // What is kept beside the rows, made anew.
    pub(crate) fn index(&self, alloc: Global) -> Result<Index, NoMemory>
        ensures { IfOk result (IsIndexOf self.now) }
    {
        let mut index = Index::new(alloc);
        index_in(alloc, &mut index, &self.answered)?;
        index_beside(alloc, &mut index, &self.others)?;
        Ok(index)
    }

    // All that is pending in the rows.
    pub(crate) fn pending(&self, alloc: Global) -> Result<SentList, NoMemory>
        ensures { IfOk result (ArePendingAmong self.now) }
    {
        let mut sent = SentList::new(alloc);
        push_in(alloc, &mut sent, &self.answered)?;
        push_beside(alloc, &mut sent, &self.others)?;
        Ok(sent)
    }

    // The name of the first row that may forget ids, or none where none may.
    pub(crate) fn to_purge(&self, floor: u64, least: u64) -> Option<&RowName>
        ensures { IsFirstToPurge floor least self.now (option_copied result) }
    {
        let first = purge_in(&self.answered, floor, least);
        purge_beside(&self.others, first, floor, least)
    }
}

// Appends what is pending in the rows of a list.
fn push_in(alloc: Global, sent: &mut SentList, rows: &[NamedRow]) -> Result<(), NoMemory>
    ensures { OnOk result (sent.new ≡ sent.old ++ flat_map sent_in (map named rows.now)) }
{
    for row in rows {
        push_row(alloc, sent, &row.name, &row.row)?;
    }
    Ok(())
}

// The name of the first row of a list that may forget ids.
fn purge_in(rows: &[NamedRow], floor: u64, least: u64) -> Option<&RowName>
    ensures { seen_name result
        ≡ fold (earlier (forgets floor least) by_name) None (map named rows.now) }
{
    let mut best = None;
    for row in rows {
        best = earlier_name(best, &row.name, &row.row, floor, least);
    }
    best
}

// Keeps what there is of the rows of a list.
fn index_in(alloc: Global, index: &mut Index, rows: &[NamedRow]) -> Result<(), NoMemory>
    requires ordered { IsStrictlySortedBy due_order (keys_of index.old.dues.entries) }
    requires ascending { IsStrictlySortedBy row_cmp (keys_of index.old.seen.entries) }
    ensures work { OnOk result (HasStamped (map named rows.now) index.old.work index.new.work) }
    ensures dues { OnOk result (HasKeyed due_order due_of (map named rows.now)
        index.old.dues.entries index.new.dues.entries) }
    ensures seen { OnOk result (HasKeyed row_cmp seen_of (map named rows.now)
        index.old.seen.entries index.new.seen.entries) }
{
    for row in rows {
        index.add(alloc, &row.name, &row.row)?;
    }
    Ok(())
}

// The place of a name's row among rows that ascend by name; `Err` has the place where it would
// stand.
fn place_of(rows: &[NamedRow], name: &RowName) -> Result<usize, usize>
    requires { IsStrictlySortedBy row_cmp (map (λ (r : NamedRow). r.name) rows.now) }
    ensures { IsHitOrGap (λ (r : NamedRow). row_cmp r.name name.now) rows.now result }
{
    rows.binary_search_by(|row| row.name.cmp(name))
}
