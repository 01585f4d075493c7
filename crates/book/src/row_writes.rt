//! Writes by kind: each changes its row where it lies and appends its entry, or leaves both as they were.
ghost use Rattle.std.specs.Prelude.{◌≡◌, ◌<◌, ◌-◌, ◌≤◌, ◌^◌, ◌⊎◌, [], length, take, IfErr, IfOk, IfSome, OnErr, OnOk, Some};
ghost use Rattle.mw_types.specs.Causes.{HasCause};
ghost use Rattle.mw_types.specs.declared.entry.Entry.TheVariants.{Ack, Purge};
ghost use Rattle.row_parts.specs.Contents.{IsRow, ids_from};
ghost use Rattle.run_history.specs.Runs.{run_of, written_row};
ghost use Rattle.book.specs.Answers.{HasStayed, IsSameBook, IsWritten, answer_of};
ghost use Rattle.book.specs.Appending.{left_row};
ghost use Rattle.book.specs.Conditions.{IsRowSeenAt, MayForgetAt, MaySettleAt, MayUseAt};
ghost use Rattle.book.specs.Drafts.{IsAdmitted, with_seen};
ghost use Rattle.book.specs.Proposals.{IsFiring, IsHandling, IsNextLine, IsProposedOf, IsWrittenBy};

use crate::books::Book;
use crate::changes::{firing, handling, injecting};
use crate::lease::Lease;
use crate::proposal::Proposal;
use crate::refusals::WriteRefusal;
use crate::settling::Settled;
use mw_types::{Delivery, Duplicate, Effects, IdList, NoMemory, RecordId, RowName, Timer};
use row_keeper::Keeper;
use row_parts::Row;
use run_history::EntryRef;
use std::alloc::Global;
use std::mem::replace;

// What a purge changes of a row, as it was before.
#[derive(Drop)]
struct Before {
    seen: IdList,
    floor: u64,
    last: u64,
}

impl<'a, K: Keeper> Book<'a, K> {
    // An injector's next line is injected. Answers the entry's commit number, as each of these does.
    pub(crate) fn inject_row(
        &mut self,
        alloc: Global,
        lease: &Lease,
        front: u64,
        name: &RowName,
        row: &mut Row,
        line: u32,
        commit: u64,
    ) -> Result<u64, WriteRefusal>
        requires admitted { IsAdmitted self.old lease.now commit }
        requires lease { MayUseAt self.old lease.now front name.now }
        requires row { IsRowSeenAt self.old lease.now front name.now row.old }
        requires line { IsNextLine self.old.case name.now row.old line }
        ensures written { let old = self.old in IfOk result (λ commit.
            IsWrittenBy old.case old.rows old.history self.new.history
            lease.now name.now (Proposal.Inject line) row.old (answer_of commit row.new)) }
        ensures row { OnErr result (row.new ≡ row.old) }
        ensures refused { IfErr result (λ why.
            (why ≡ WriteRefusal.NoMemory) ⊎ (why ≡ WriteRefusal.KeeperFault)) }
        ensures keeper_fault { HasCause self.old.faults self.new.faults result
            WriteRefusal.KeeperFault }
        ensures unchanged { OnErr result (HasStayed self.old self.new) }
        ensures same { IsSameBook self.old self.new }
    {
        let case = self.case();
        let mut made = match injecting(alloc, case, name, row, line, commit) {
            Ok(made) => made,
            Err(NoMemory) => return Err(WriteRefusal::NoMemory),
        };
        let entry = EntryRef::Inject {
            seq: lease.seq(),
            part: name.part,
            line,
            item: &made.item,
        };
        let done = self.put_draft(alloc, name, row, &mut made.draft, &entry, commit);
        drop(made);
        done
    }

    // A record was handled.
    pub(crate) fn handle_row(
        &mut self,
        alloc: Global,
        lease: &Lease,
        front: u64,
        name: &RowName,
        row: &mut Row,
        delivery: &Delivery,
        effects: &Effects,
        commit: u64,
    ) -> Result<u64, WriteRefusal>
        requires admitted { IsAdmitted self.old lease.now commit }
        requires lease { MayUseAt self.old lease.now front name.now }
        requires row { IsRowSeenAt self.old lease.now front name.now row.old }
        requires handling { IsHandling self.old.case name.now row.old delivery.now effects.now }
        requires seen { let run = run_of self.old.case.topology (take front self.old.history) in
            IfSome self.old.rows (λ _. IsProposedOf self.old.case name.now
            (Proposal.Handle delivery.now effects.now) run) }
        ensures written { let old = self.old in IfOk result (λ commit.
            IsWrittenBy old.case old.rows old.history self.new.history lease.now name.now
            (Proposal.Handle delivery.now effects.now) row.old (answer_of commit row.new)) }
        ensures row { OnErr result (row.new ≡ row.old) }
        ensures refused { IfErr result (λ why.
            (why ≡ WriteRefusal.NoMemory) ⊎ (why ≡ WriteRefusal.KeeperFault)) }
        ensures keeper_fault { HasCause self.old.faults self.new.faults result
            WriteRefusal.KeeperFault }
        ensures unchanged { OnErr result (HasStayed self.old self.new) }
        ensures same { IsSameBook self.old self.new }
    {
        let case = self.case();
        let mut draft = match handling(alloc, case, name, row, delivery, effects, commit) {
            Ok(draft) => draft,
            Err(NoMemory) => return Err(WriteRefusal::NoMemory),
        };
        let entry = EntryRef::Handle {
            seq: lease.seq(),
            row: name,
            id: delivery.id,
            effects,
        };
        let done = self.put_draft(alloc, name, row, &mut draft, &entry, commit);
        drop(draft);
        done
    }

    // A timer fired.
    pub(crate) fn fire_row(
        &mut self,
        alloc: Global,
        lease: &Lease,
        front: u64,
        name: &RowName,
        row: &mut Row,
        timer: Timer,
        mark: u64,
        effects: &Effects,
        commit: u64,
    ) -> Result<u64, WriteRefusal>
        requires admitted { IsAdmitted self.old lease.now commit }
        requires lease { MayUseAt self.old lease.now front name.now }
        requires row { IsRowSeenAt self.old lease.now front name.now row.old }
        requires firing { IsFiring self.old.case name.now row.old timer effects.now }
        requires seen { let run = run_of self.old.case.topology (take front self.old.history) in
            IfSome self.old.rows (λ _. IsProposedOf self.old.case name.now
            (Proposal.Fire timer mark effects.now) run) }
        ensures written { let old = self.old in IfOk result (λ commit.
            IsWrittenBy old.case old.rows old.history self.new.history lease.now name.now
            (Proposal.Fire timer mark effects.now) row.old (answer_of commit row.new)) }
        ensures row { OnErr result (row.new ≡ row.old) }
        ensures refused { IfErr result (λ why.
            (why ≡ WriteRefusal.NoMemory) ⊎ (why ≡ WriteRefusal.KeeperFault)) }
        ensures keeper_fault { HasCause self.old.faults self.new.faults result
            WriteRefusal.KeeperFault }
        ensures unchanged { OnErr result (HasStayed self.old self.new) }
        ensures same { IsSameBook self.old self.new }
    {
        let case = self.case();
        let mut draft = match firing(alloc, case, name, row, timer, effects, commit) {
            Ok(draft) => draft,
            Err(NoMemory) => return Err(WriteRefusal::NoMemory),
        };
        let entry = EntryRef::Fire {
            seq: lease.seq(),
            row: name,
            timer,
            mark,
            effects,
        };
        let done = self.put_draft(alloc, name, row, &mut draft, &entry, commit);
        drop(draft);
        done
    }

    // A sender learns that an id was handled: its row is stored without the delivery, which is taken out of it
    // only then.
    pub(crate) fn settle_row(
        &mut self,
        alloc: Global,
        lease: &Lease,
        front: u64,
        name: &RowName,
        row: &mut Row,
        id: RecordId,
        commit: u64,
    ) -> Result<u64, WriteRefusal>
        requires admitted { IsAdmitted self.old lease.now commit }
        requires lease { MayUseAt self.old lease.now front name.now }
        requires row { IsRowSeenAt self.old lease.now front name.now row.old }
        requires id { MaySettleAt self.old front row.old id }
        ensures written { let entry = Ack lease.now.seq name.now id in
            let left = written_row (length self.old.history) entry [] row.old in
            let old = self.old in IfOk result (λ commit.
            IsWritten old.case old.rows old.history self.new.history
            lease.now name.now entry left (answer_of commit row.new)) }
        ensures row { OnErr result (row.new ≡ row.old) }
        ensures refused { IfErr result (λ why.
            (why ≡ WriteRefusal.NoMemory) ⊎ (why ≡ WriteRefusal.KeeperFault)) }
        ensures keeper_fault { HasCause self.old.faults self.new.faults result
            WriteRefusal.KeeperFault }
        ensures unchanged { OnErr result (HasStayed self.old self.new) }
        ensures same { IsSameBook self.old self.new }
    {
        // That the id can be printed is known of what is pending in a row.
        row.sound();
        let entry = EntryRef::Ack {
            seq: lease.seq(),
            row: name,
            id,
        };
        let settled = Settled { id, commit };
        let left = self.work_less();
        match self.append_left(alloc, name, &entry, row, Some(settled), left, 0) {
            Ok(commit) => {
                take_settled(row, settled);
                Ok(commit)
            }
            Err(why) => Err(why),
        }
    }

    // A row forgets the ids below a floor. A copy of its ids goes back into it where that is refused.
    pub(crate) fn purge_row(
        &mut self,
        alloc: Global,
        lease: &Lease,
        front: u64,
        name: &RowName,
        row: &mut Row,
        floor: u64,
        commit: u64,
    ) -> Result<u64, WriteRefusal>
        requires admitted { IsAdmitted self.old lease.now commit }
        requires lease { MayUseAt self.old lease.now front name.now }
        requires row { IsRowSeenAt self.old lease.now front name.now row.old }
        requires floor { MayForgetAt self.old front name.now row.old floor }
        ensures written { let entry = Purge lease.now.seq name.now floor in
            let left = written_row (length self.old.history) entry [] row.old in
            let old = self.old in IfOk result (λ commit.
            IsWritten old.case old.rows old.history self.new.history
            lease.now name.now entry left (answer_of commit row.new)) }
        ensures row { OnErr result (row.new ≡ row.old) }
        ensures refused { IfErr result (λ why.
            (why ≡ WriteRefusal.NoMemory) ⊎ (why ≡ WriteRefusal.KeeperFault)) }
        ensures keeper_fault { HasCause self.old.faults self.new.faults result
            WriteRefusal.KeeperFault }
        ensures unchanged { OnErr result (HasStayed self.old self.new) }
        ensures same { IsSameBook self.old self.new }
    {
        let before = match forget(alloc, row, floor, commit) {
            Ok(before) => before,
            Err(NoMemory) => return Err(WriteRefusal::NoMemory),
        };
        let entry = EntryRef::Purge {
            seq: lease.seq(),
            row: name,
            floor,
        };
        let left = self.work_now();
        let done = self.append_left(alloc, name, &entry, row, None, left, 0);
        keep_or_put_back(row, before, done);
        done
    }

    // How much work is left once a delivery is settled.
    fn work_less(&self) -> u64
        ensures { result ≡ self.now.work - 1 }
    {
        self.core.work.saturating_sub(1)
    }

    // How much work is left.
    fn work_now(&self) -> u64
        ensures { result ≡ self.now.work }
    {
        self.core.work
    }
}

// Takes the delivery of a settled id out of a row where it lies.
fn take_settled(row: &mut Row, settled: Settled)
    requires { settled.commit < 2 ^ 32 }
    ensures { row.new ≡ left_row (Some settled) row.old }
{
    row.settle(settled.id);
    row.last = settled.commit;
}

// Has a row forget the ids below a floor, and answers what it had before.
fn forget(alloc: Global, row: &mut Row, floor: u64, commit: u64) -> Result<Before, NoMemory>
    requires rises { row.old.floor < floor }
    requires few { floor ≤ 2 ^ 32 }
    requires commit { commit < 2 ^ 32 }
    ensures row { IsRow row.old }
    ensures before { IfOk result (λ before. before
        ≡ record { seen = row.old.seen; floor = row.old.floor; last = row.old.last }) }
    ensures left { OnOk result (row.new ≡ record row.old {
      floor = floor;
      seen = ids_from floor row.old.seen;
      last = commit;
    }) }
    ensures err { OnErr result (row.new ≡ row.old) }
{
    row.sound();
    let before = Before {
        seen: row.seen.copy(alloc)?,
        floor: row.floor,
        last: row.last,
    };
    row.purge(floor);
    row.last = commit;
    Ok(before)
}

// Puts back into a row what it had before it forgot ids, where the entry that had it do so was refused.
fn keep_or_put_back(row: &mut Row, before: Before, done: Result<u64, WriteRefusal>)
    requires { IsRow (with_seen before row.old) }
    ensures kept { OnOk done (row.new ≡ row.old) }
    ensures back { OnErr done (row.new ≡ with_seen before row.old) }
{
    match done {
        Ok(_) => drop(before),
        Err(_) => put_back(row, before),
    }
}

// Puts back into a row what it had before it forgot ids.
fn put_back(row: &mut Row, before: Before)
    requires { IsRow (with_seen before row.old) }
    ensures { row.new ≡ with_seen before row.old }
{
    let Before { seen, floor, last } = before;
    drop(replace(&mut row.seen, seen));
    row.floor = floor;
    row.last = last;
}
