//! Appending an entry: its row is stored, and changes, or nothing does.
ghost use Rattle.std.specs.Prelude.{◌≡◌, ◌<◌, ◌+◌, ◌-◌, ◌^◌, ◌++◌, ◌∷◌, ◌⊎◌, [], length, IfErr, IfOk, IfSome, OnErr, OnOk};
ghost use Rattle.mw_types.specs.Causes.{HasCause};
ghost use Rattle.row_parts.specs.Contents.{IsRow};
ghost use Rattle.run_history.specs.Finished.{work_in};
ghost use Rattle.run_history.specs.Lent.{lent};
ghost use Rattle.book.specs.Books.{core_of};
ghost use Rattle.book.specs.Conditions.{IsRowOf};
ghost use Rattle.book.specs.Answers.{HasStayed, IsSameBook};
ghost use Rattle.book.specs.Appending.{HadWork, IsNext, LeavesWork, left_row, sent_by};
ghost use Rattle.book.specs.Drafts.{AreOwn, IsDrafting, MayDraft, drafted, undrafted};

use crate::books::Book;
use crate::drafts::Draft;
use crate::refusals::WriteRefusal;
use crate::settling::Settled;
use crate::work_left::{work_in, work_with};
use mw_types::{NoMemory, RowName};
use row_keeper::Keeper;
use row_parts::Row;
use run_history::{Case, EntryRef};
use std::alloc::Global;

impl<'a, K: Keeper> Book<'a, K> {
    // Puts a draft into a row, and appends the entry that does so. The row is as before where that is refused.
    pub(crate) fn put_draft(
        &mut self,
        alloc: Global,
        name: &RowName,
        row: &mut Row,
        draft: &mut Draft,
        entry: &EntryRef<'_>,
        commit: u64,
    ) -> Result<u64, WriteRefusal>
        requires drafting { IsDrafting self.old name.now row.old draft.old commit (lent entry.now) }
        requires below { commit < 2 ^ 32 }
        ensures appended { OnOk result
            (self.new.history ≡ self.old.history ++ lent entry.now ∷ []) }
        ensures commit { IfOk result (λ commit. commit ≡ length self.old.history) }
        ensures changed { OnOk result (row.new ≡ drafted draft.old commit row.old) }
        ensures row { OnErr result (row.new ≡ row.old) }
        ensures refused { IfErr result (λ why.
            (why ≡ WriteRefusal.NoMemory) ⊎ (why ≡ WriteRefusal.KeeperFault)) }
        ensures keeper_fault { HasCause self.old.faults self.new.faults result
            WriteRefusal.KeeperFault }
        ensures unchanged { OnErr result (HasStayed self.old self.new) }
        ensures same { IsSameBook self.old self.new }
    {
        let count = count_pending(row);
        let last = row.last;
        let case = self.case();
        match put_over(alloc, case, name, row, draft, commit) {
            Ok(gone) => self.append_drafted(alloc, name, gone, entry, row, draft, (count, last)),
            Err(NoMemory) => Err(WriteRefusal::NoMemory),
        }
    }

    // Appends the entry that put a draft into a row, in which so much work was, so many were pending, and which
    // had this last entry. Takes the draft out where that is refused.
    fn append_drafted(
        &mut self,
        alloc: Global,
        name: &RowName,
        gone: u64,
        entry: &EntryRef<'_>,
        row: &mut Row,
        draft: &mut Draft,
        before: (usize, u64),
    ) -> Result<u64, WriteRefusal>
        requires next { IsNext self.old.case (core_of self.old) name.now (lent entry.now) row.old }
        requires sent { length row.old.pending - before.0
            ≡ sent_by self.old.case.topology self.old.history (lent entry.now) }
        requires was { HadWork self.old name.now gone }
        requires own { AreOwn draft.old.own }
        requires back { IsRow (undrafted draft.old before.0 before.1 row.old) }
        ensures appended { OnOk result
            (self.new.history ≡ self.old.history ++ lent entry.now ∷ []) }
        ensures commit { IfOk result (λ commit. commit ≡ length self.old.history) }
        ensures kept { OnOk result (row.new ≡ row.old) }
        ensures back { OnErr result
            (row.new ≡ undrafted draft.old before.0 before.1 row.old) }
        ensures refused { IfErr result (λ why.
            (why ≡ WriteRefusal.NoMemory) ⊎ (why ≡ WriteRefusal.KeeperFault)) }
        ensures keeper_fault { HasCause self.old.faults self.new.faults result
            WriteRefusal.KeeperFault }
        ensures unchanged { OnErr result (HasStayed self.old self.new) }
        ensures same { IsSameBook self.old self.new }
    {
        let (count, last) = before;
        let sent = sent_since(row, count);
        match self.append_row(alloc, name, gone, entry, row, sent) {
            Ok(commit) => Ok(commit),
            Err(why) => {
                draft.take_out(alloc, row, count, last);
                Err(why)
            }
        }
    }

    // How much work is left once a row stands where so much of it was.
    fn work_left(&self, name: &RowName, gone: u64, row: &Row) -> Result<u64, NoMemory>
        ensures { IfOk result (λ left. left
            ≡ (self.now.work + work_in self.now.case name.now row.now) - gone) }
    {
        work_with(self.case, name, gone, row, self.core.work)
    }

    // Appends an entry that may come next and makes so many deliveries, and stores its row, in which so
    // much work was before. Answers the commit number.
    fn append_row(
        &mut self,
        alloc: Global,
        name: &RowName,
        gone: u64,
        entry: &EntryRef<'_>,
        row: &Row,
        sent: u32,
    ) -> Result<u64, WriteRefusal>
        requires next { IsNext self.old.case (core_of self.old) name.now (lent entry.now) row.now }
        requires sent { sent ≡ sent_by self.old.case.topology self.old.history (lent entry.now) }
        requires was { HadWork self.old name.now gone }
        ensures appended { OnOk result
            (self.new.history ≡ self.old.history ++ lent entry.now ∷ []) }
        ensures commit { IfOk result (λ commit. commit ≡ length self.old.history) }
        ensures refused { IfErr result (λ why.
            (why ≡ WriteRefusal.NoMemory) ⊎ (why ≡ WriteRefusal.KeeperFault)) }
        ensures keeper_fault { HasCause self.old.faults self.new.faults result
            WriteRefusal.KeeperFault }
        ensures unchanged { OnErr result (HasStayed self.old self.new) }
        ensures same { IsSameBook self.old self.new }
    {
        match self.work_left(name, gone, row) {
            Ok(left) => self.append_left(alloc, name, entry, row, None, left, sent),
            Err(NoMemory) => Err(WriteRefusal::NoMemory),
        }
    }

    // Appends an entry that may come next and makes so many deliveries, and stores its row, or what that is
    // once an id is settled. So much work is left then. Answers the commit number.
    pub(crate) fn append_left(
        &mut self,
        alloc: Global,
        name: &RowName,
        entry: &EntryRef<'_>,
        row: &Row,
        settled: Option<Settled>,
        left: u64,
        sent: u32,
    ) -> Result<u64, WriteRefusal>
        requires next { let left = left_row settled row.now in
            IsNext self.old.case (core_of self.old) name.now (lent entry.now) left }
        requires below { IfSome settled (λ s. s.commit < 2 ^ 32) }
        requires was { let old = self.old in
            IfSome settled (λ _. IsRowOf old.case old.rows old.history name.now row.now) }
        requires sent { sent ≡ sent_by self.old.case.topology self.old.history (lent entry.now) }
        requires left { LeavesWork self.old name.now (left_row settled row.now) left }
        ensures appended { OnOk result
            (self.new.history ≡ self.old.history ++ lent entry.now ∷ []) }
        ensures commit { IfOk result (λ commit. commit ≡ length self.old.history) }
        ensures refused { IfErr result (λ why.
            (why ≡ WriteRefusal.NoMemory) ⊎ (why ≡ WriteRefusal.KeeperFault)) }
        ensures keeper_fault { HasCause self.old.faults self.new.faults result
            WriteRefusal.KeeperFault }
        ensures unchanged { OnErr result (HasStayed self.old self.new) }
        ensures same { IsSameBook self.old self.new }
    {
        let commit = self.core.history.len() as u64;
        match self
            .core
            .append(alloc, entry, name, row, settled, left, sent)
        {
            Ok(()) => Ok(commit),
            Err(fault) => Err(fault.into()),
        }
    }
}

// How many are pending in a row. It can be kept, as each row can.
fn count_pending(row: &Row) -> usize
    ensures count { result ≡ length row.now.pending }
    ensures row { IsRow row.now }
{
    row.sound();
    row.pending.len()
}

// How many are pending in a row more than so many.
fn sent_since(row: &Row, count: usize) -> u32
    ensures { result ≡ length row.now.pending - count }
{
    row.pending.len().saturating_sub(count) as u32
}

// Puts a draft into a row, and answers how much work was in it.
fn put_over(
    alloc: Global,
    case: &Case,
    name: &RowName,
    row: &mut Row,
    draft: &mut Draft,
    commit: u64,
) -> Result<u64, NoMemory>
    requires may { MayDraft row.old draft.old }
    requires commit { commit < 2 ^ 32 }
    ensures gone { IfOk result (λ gone. gone ≡ work_in case.now name.now row.old) }
    ensures put { OnOk result (row.new ≡ drafted draft.old commit row.old) }
    ensures own { OnOk result (AreOwn draft.new.own) }
    ensures back { OnOk result
        (undrafted draft.new (length row.old.pending) row.old.last row.new ≡ row.old) }
    ensures err { OnErr result (row.new ≡ row.old) }
{
    let gone = work_in(case, name, row)?;
    draft.put_in(alloc, row, commit)?;
    Ok(gone)
}
