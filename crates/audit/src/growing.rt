//! What is kept, as entries come.
ghost use Rattle.std.specs.Prelude.{◌≡◌, ◌<◌, ◌^◌, ◌++◌, ◌∷◌, [], IfOk, List, OnOk, drop, length};
ghost use Rattle.std.specs.BTreeMap.{get, insert_entry};
ghost use Rattle.std.specs.Ordering.{nat_cmp};
ghost use Rattle.mw_types.specs.Orders.{row_cmp};
ghost use Rattle.audit.specs.Choices.{MayCome};
ghost use Rattle.audit.specs.Keeping.{HasChanged, HasClaimed, HasWorkLeft, IsFollowed, IsKept, newly_pending, pending_in};
ghost use Rattle.book.specs.Sending.{IsAfterEntry};

use crate::kept::{Claims, Kept, Rows};
use crate::leaving::left_of;
use crate::senders::note_entry;
use crate::waiting::{note_sent, take_handled};
use crate::work_left::work_left;
use crate::works::{no_works, note_entry_work};
use book::{NamedRow, first_work};
use mw_types::{Delivery, Entry, NoMemory, RowName};
use row_parts::Row;
use run_history::{Case, History};
use std::alloc::Global;
use std::collections::BTreeMap;

impl Kept {
    // What is kept of a history in which nothing has happened.
    pub(crate) fn new(alloc: Global, case: &Case) -> Result<Kept, NoMemory>
        ensures { IfOk result (IsKept case.now []) }
    {
        let works = no_works(alloc, case.topology.parts())?;
        Ok(Kept {
            rows: BTreeMap::new(alloc),
            waiting: BTreeMap::new(alloc),
            claims: BTreeMap::new(alloc),
            pending: BTreeMap::new(alloc),
            works,
            work: first_work(case),
        })
    }

    // Keeps what one more entry changes, which may come next.
    pub(crate) fn grow(
        &mut self,
        alloc: Global,
        case: &Case,
        history: &History,
        entry: &Entry,
    ) -> Result<(), NoMemory>
        requires followed { IsFollowed case.now history.now }
        requires kept { IsKept case.now history.now self.old }
        requires next { MayCome case.now history.now entry.now }
        requires few { length history.now < 2 ^ 32 }
        ensures { OnOk result (IsKept case.now (history.now ++ entry.now ∷ []) self.new) }
    {
        match left_of(alloc, case, history, self, entry)? {
            Some(left) => {
                note_entry_work(case, history, self, entry, &left)?;
                self.put(alloc, case, history.len() as u64, entry, left)
            }
            None => note_claim(&mut self.claims, entry, history.len() as u64),
        }
    }

    // Puts the row that an entry of this number leaves, and notes what it handled and sent.
    fn put(
        &mut self,
        alloc: Global,
        case: &Case,
        number: u64,
        entry: &Entry,
        left: NamedRow,
    ) -> Result<(), NoMemory>
        ensures rows { OnOk result (self.new.rows.entries
            ≡ insert_entry row_cmp self.old.rows.entries left.name left.row) }
        ensures waiting { OnOk result (HasChanged entry.now
            (newly_pending self.old.rows.entries left)
            self.old.waiting.entries self.new.waiting.entries) }
        ensures pending { OnOk result (IsAfterEntry number entry.now left.name
            (length (newly_pending self.old.rows.entries left))
            self.old.pending.entries self.new.pending.entries) }
        ensures work { OnOk result (HasWorkLeft case.now self.old.rows.entries left
            self.old.work self.new.work) }
        ensures claims { self.new.claims ≡ self.old.claims }
        ensures works { self.new.works ≡ self.old.works }
    {
        self.work = work_left(alloc, case, &self.rows, &left, self.work)?;
        let count = count_new(&self.rows, &left);
        note_entry(alloc, &mut self.pending, entry, number, count, &left.name)?;
        take_handled(&mut self.waiting, entry);
        note_sent(alloc, &mut self.waiting, new_pending(&self.rows, &left))?;
        let NamedRow { name, row } = left;
        put_row(&mut self.rows, name, row)
    }
}

// How much is pending in a row, before it is written anew.
fn pending_before(rows: &Rows, name: &RowName) -> usize
    ensures { result ≡ length (pending_in rows.now.entries name.now) }
{
    match rows.get(name) {
        Some(row) => row.pending.len(),
        None => 0,
    }
}

// How much a row has pending that was not pending in it before.
fn count_new(rows: &Rows, left: &NamedRow) -> u32
    ensures { result ≡ length (newly_pending rows.now.entries left.now) }
{
    let before = pending_before(rows, &left.name);
    left.row.pending.len().saturating_sub(before) as u32
}

// What a row has pending that was not pending in it before.
pub(crate) fn new_pending<'r>(rows: &Rows, left: &'r NamedRow) -> &'r [Delivery]
    ensures { result.now ≡ newly_pending rows.now.entries left.now }
{
    let before = pending_before(rows, &left.name);
    beyond(left.row.pending.as_slice(), before)
}

// The deliveries behind the first so many.
fn beyond(pending: &[Delivery], before: usize) -> &[Delivery]
    ensures { result.now ≡ drop before pending.now }
{
    match pending.get(before..) {
        Some(rest) => rest,
        None => &[],
    }
}

// Puts a row under its name.
fn put_row(rows: &mut Rows, name: RowName, row: Row) -> Result<(), NoMemory>
    ensures { OnOk result (rows.new.entries ≡ insert_entry row_cmp rows.old.entries name row) }
{
    rows.insert(name, row)?;
    Ok(())
}

// Notes that a claim is the last of its interval.
fn note_claim(claims: &mut Claims, entry: &Entry, number: u64) -> Result<(), NoMemory>
    ensures { OnOk result (HasClaimed entry.now number
        (get nat_cmp claims.old) (get nat_cmp claims.new)) }
{
    if let Entry::Claim { interval, .. } = entry {
        claims.insert(*interval, number)?;
    }
    Ok(())
}
