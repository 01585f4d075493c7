//! Writes: each appends one entry and stores its row, or is refused.
ghost use Rattle.std.specs.Prelude.{◌≡◌, ◌<◌, ◌^◌, ◌↔◌, ◌⊎◌, ℕ, None, [], length, take, IfErr, IfOk, IfSome, IsErrOf, OnErr, OnOk, Some};
ghost use Rattle.mw_types.specs.Causes.{HasCause};
ghost use Rattle.mw_types.specs.declared.entry.Entry.TheVariants.{Ack, Purge};
ghost use Rattle.run_history.specs.Runs.{run_of, written_row};
ghost use Rattle.run_history.specs.Fences.{IsClaimed, IsCurrent, IsOvertakenBy};
ghost use Rattle.book.specs.Books.{core_of};
ghost use Rattle.book.specs.Conditions.{IsRowOf, IsRowSeenAt, MayForgetAt, MaySettleAt, MayUseAt};
ghost use Rattle.book.specs.Answers.{HasStayed, IsFullWhere, IsSameBook, IsStaleWhere, IsWritten, answer_of};
ghost use Rattle.book.specs.Lawful.{IsLawful};
ghost use Rattle.book.specs.Proposals.{IsProposable, IsProposedOf, IsWrittenBy};
ghost use Rattle.book.specs.Writings.{IsPut, MayPutAt};
ghost use Rattle.book.specs.Appending.{later_than};
ghost use Rattle.book.specs.Drafts.{IsAdmitted};

use crate::answers::Written;
use crate::books::Book;
use crate::lease::Lease;
use crate::proposal::Proposal;
use crate::refusals::WriteRefusal;
use crate::writing::Writing;
use mw_types::{Duplicate, RecordId, RowName};
use row_keeper::Keeper;
use row_parts::Row;
use std::alloc::Global;

impl<'a, K: Keeper> Book<'a, K> {
    /// A row is written anew: an injector's next line is injected, a record was handled, or a timer
    /// fired.
    pub fn write(
        &mut self,
        alloc: Global,
        lease: &Lease,
        front: u64,
        name: &RowName,
        row: &Row,
        proposal: &Proposal,
    ) -> Result<Written, WriteRefusal>
        requires lease { MayUseAt self.old lease.now front name.now }
        requires row { IsRowSeenAt self.old lease.now front name.now row.now }
        requires proposal { IsProposable self.old.case name.now row.now proposal.now }
        requires seen { let run = run_of self.old.case.topology (take front self.old.history) in
            IfSome self.old.rows (λ _. IsProposedOf self.old.case name.now proposal.now run) }

        ensures written { let old = self.old in IfOk result
            (IsWrittenBy old.case old.rows old.history self.new.history
            lease.now name.now proposal.now row.now) }
        ensures found { let old = self.old in
            OnOk result (IsRowOf old.case old.rows old.history name.now row.now) }
        ensures stale { IsStaleWhere self.old.history lease.now result }
        ensures full { IsFullWhere self.old.limit self.old.history lease.now result }
        ensures keeper_fault { HasCause self.old.faults self.new.faults result
            WriteRefusal.KeeperFault }
        ensures unchanged { OnErr result (HasStayed self.old self.new) }
        ensures same { IsSameBook self.old self.new }
    {
        let writing = Writing::Propose { proposal };
        self.put_copy(alloc, lease, front, name, row, writing)
    }

    /// A sender learns that what it made was handled: the row no longer waits for the id.
    pub fn settle(
        &mut self,
        alloc: Global,
        lease: &Lease,
        front: u64,
        name: &RowName,
        row: &Row,
        id: RecordId,
    ) -> Result<Written, WriteRefusal>
        requires lease { MayUseAt self.old lease.now front name.now }
        requires row { IsRowSeenAt self.old lease.now front name.now row.now }
        requires id { MaySettleAt self.old front row.now id }

        ensures written { let entry = Ack lease.now.seq name.now id in
            let left = written_row (length self.old.history) entry [] row.now in
            let old = self.old in IfOk result
            (IsWritten old.case old.rows old.history self.new.history
            lease.now name.now entry left) }
        ensures found { let old = self.old in
            OnOk result (IsRowOf old.case old.rows old.history name.now row.now) }
        ensures stale { IsStaleWhere self.old.history lease.now result }
        ensures full { IsFullWhere self.old.limit self.old.history lease.now result }
        ensures keeper_fault { HasCause self.old.faults self.new.faults result
            WriteRefusal.KeeperFault }
        ensures unchanged { OnErr result (HasStayed self.old self.new) }
        ensures same { IsSameBook self.old self.new }
    {
        let writing = Writing::Settle { id };
        self.put_copy(alloc, lease, front, name, row, writing)
    }

    /// A row forgets the ids of records that are finished: those below the floor.
    pub fn purge(
        &mut self,
        alloc: Global,
        lease: &Lease,
        front: u64,
        name: &RowName,
        row: &Row,
        floor: u64,
    ) -> Result<Written, WriteRefusal>
        requires lease { MayUseAt self.old lease.now front name.now }
        requires row { IsRowSeenAt self.old lease.now front name.now row.now }
        requires floor { MayForgetAt self.old front name.now row.now floor }

        ensures written { let entry = Purge lease.now.seq name.now floor in
            let left = written_row (length self.old.history) entry [] row.now in
            let old = self.old in IfOk result
            (IsWritten old.case old.rows old.history self.new.history
            lease.now name.now entry left) }
        ensures found { let old = self.old in
            OnOk result (IsRowOf old.case old.rows old.history name.now row.now) }
        ensures stale { IsStaleWhere self.old.history lease.now result }
        ensures full { IsFullWhere self.old.limit self.old.history lease.now result }
        ensures keeper_fault { HasCause self.old.faults self.new.faults result
            WriteRefusal.KeeperFault }
        ensures unchanged { OnErr result (HasStayed self.old self.new) }
        ensures same { IsSameBook self.old self.new }
    {
        let writing = Writing::Purge { floor };
        self.put_copy(alloc, lease, front, name, row, writing)
    }

    /// Writes into a row where it lies: appends one entry, and stores what it leaves of the row. Answers
    /// the entry's commit number.
    pub fn put(
        &mut self,
        alloc: Global,
        lease: &Lease,
        front: u64,
        name: &RowName,
        row: &mut Row,
        writing: Writing<'_>,
    ) -> Result<u64, WriteRefusal>
        requires lease { MayUseAt self.old lease.now front name.now }
        requires row { IsRowSeenAt self.old lease.now front name.now row.old }
        requires may { MayPutAt self.old front name.now row.old writing }

        ensures put { let old = self.old in IfOk result (λ commit.
            IsPut old.case old.rows old.history self.new.history
            lease.now name.now writing.entry row.old (answer_of commit row.new)) }
        ensures row { OnErr result (row.new ≡ row.old) }
        ensures found { let old = self.old in
            OnOk result (IsRowOf old.case old.rows old.history name.now row.old) }
        ensures stale { IsStaleWhere self.old.history lease.now result }
        ensures full { IsFullWhere self.old.limit self.old.history lease.now result }
        ensures keeper_fault { HasCause self.old.faults self.new.faults result
            WriteRefusal.KeeperFault }
        ensures unchanged { OnErr result (HasStayed self.old self.new) }
        ensures same { IsSameBook self.old self.new }
    {
        let commit = match self.admit(lease) {
            Ok(commit) => commit,
            Err(why) => return Err(why),
        };
        self.put_admitted(alloc, lease, front, name, row, writing, commit)
    }

    /// Does what `put` does on a copy of a row, which it answers.
    pub fn put_copy(
        &mut self,
        alloc: Global,
        lease: &Lease,
        front: u64,
        name: &RowName,
        row: &Row,
        writing: Writing<'_>,
    ) -> Result<Written, WriteRefusal>
        requires lease { MayUseAt self.old lease.now front name.now }
        requires row { IsRowSeenAt self.old lease.now front name.now row.now }
        requires may { MayPutAt self.old front name.now row.now writing }

        ensures put { let old = self.old in IfOk result
            (IsPut old.case old.rows old.history self.new.history
            lease.now name.now writing.entry row.now) }
        ensures found { let old = self.old in
            OnOk result (IsRowOf old.case old.rows old.history name.now row.now) }
        ensures stale { IsStaleWhere self.old.history lease.now result }
        ensures full { IsFullWhere self.old.limit self.old.history lease.now result }
        ensures keeper_fault { HasCause self.old.faults self.new.faults result
            WriteRefusal.KeeperFault }
        ensures unchanged { OnErr result (HasStayed self.old self.new) }
        ensures same { IsSameBook self.old self.new }
    {
        let mut left = match self.copy_for(alloc, lease, row) {
            Ok(left) => left,
            Err(why) => return Err(why),
        };
        match self.put(alloc, lease, front, name, &mut left, writing) {
            Ok(commit) => Ok(Written { commit, row: left }),
            Err(why) => {
                drop(left);
                Err(why)
            }
        }
    }

    // Does what `put` does once the sequencer is tested, by the kind of what is written.
    fn put_admitted(
        &mut self,
        alloc: Global,
        lease: &Lease,
        front: u64,
        name: &RowName,
        row: &mut Row,
        writing: Writing<'_>,
        commit: u64,
    ) -> Result<u64, WriteRefusal>
        requires admitted { IsAdmitted self.old lease.now commit }
        requires lease { MayUseAt self.old lease.now front name.now }
        requires row { IsRowSeenAt self.old lease.now front name.now row.old }
        requires may { MayPutAt self.old front name.now row.old writing }

        ensures put { let old = self.old in IfOk result (λ commit.
            IsPut old.case old.rows old.history self.new.history
            lease.now name.now writing.entry row.old (answer_of commit row.new)) }
        ensures row { OnErr result (row.new ≡ row.old) }
        ensures refused { IfErr result (λ why.
            (why ≡ WriteRefusal.NoMemory) ⊎ (why ≡ WriteRefusal.KeeperFault)) }
        ensures keeper_fault { HasCause self.old.faults self.new.faults result
            WriteRefusal.KeeperFault }
        ensures unchanged { OnErr result (HasStayed self.old self.new) }
        ensures same { IsSameBook self.old self.new }
    {
        match writing {
            Writing::Propose { proposal } => {
                self.propose_row(alloc, lease, front, name, row, proposal, commit)
            }
            Writing::Settle { id } => self.settle_row(alloc, lease, front, name, row, id, commit),
            Writing::Purge { floor } => {
                self.purge_row(alloc, lease, front, name, row, floor, commit)
            }
        }
    }

    // Writes what is proposed once the sequencer is tested, by its kind.
    fn propose_row(
        &mut self,
        alloc: Global,
        lease: &Lease,
        front: u64,
        name: &RowName,
        row: &mut Row,
        proposal: &Proposal,
        commit: u64,
    ) -> Result<u64, WriteRefusal>
        requires admitted { IsAdmitted self.old lease.now commit }
        requires lease { MayUseAt self.old lease.now front name.now }
        requires row { IsRowSeenAt self.old lease.now front name.now row.old }
        requires proposal { IsProposable self.old.case name.now row.old proposal.now }
        requires seen { let run = run_of self.old.case.topology (take front self.old.history) in
            IfSome self.old.rows (λ _. IsProposedOf self.old.case name.now proposal.now run) }

        ensures written { let old = self.old in IfOk result (λ commit.
            IsWrittenBy old.case old.rows old.history self.new.history
            lease.now name.now proposal.now row.old (answer_of commit row.new)) }
        ensures row { OnErr result (row.new ≡ row.old) }
        ensures refused { IfErr result (λ why.
            (why ≡ WriteRefusal.NoMemory) ⊎ (why ≡ WriteRefusal.KeeperFault)) }
        ensures keeper_fault { HasCause self.old.faults self.new.faults result
            WriteRefusal.KeeperFault }
        ensures unchanged { OnErr result (HasStayed self.old self.new) }
        ensures same { IsSameBook self.old self.new }
    {
        match proposal {
            Proposal::Inject { line } => {
                self.inject_row(alloc, lease, front, name, row, *line, commit)
            }
            Proposal::Handle { delivery, effects } => {
                self.handle_row(alloc, lease, front, name, row, delivery, effects, commit)
            }
            Proposal::Fire {
                timer,
                mark,
                effects,
            } => self.fire_row(
                alloc, lease, front, name, row, *timer, *mark, effects, commit,
            ),
        }
    }

    // A copy of a row that is to be written. The sequencer comes first, as in each write.
    fn copy_for(&self, alloc: Global, lease: &Lease, row: &Row) -> Result<Row, WriteRefusal>
        requires claimed { IsClaimed lease.now.interval lease.now.seq self.now.history }
        ensures copied { IfOk result (λ left. left ≡ row.now) }
        ensures stale { IsStaleWhere self.now.history lease.now result }
        ensures full { IsFullWhere self.now.limit self.now.history lease.now result }
        ensures no_fault { IsErrOf result WriteRefusal.KeeperFault → ⊥ }
    {
        match self.admit(lease) {
            Ok(_) => Ok(row.copy(alloc)?),
            Err(why) => Err(why),
        }
    }

    // Tests the sequencer of a write, and then whether there is room for its entry, which will have
    // this commit number.
    fn admit(&self, lease: &Lease) -> Result<u64, WriteRefusal>
        requires claimed { IsClaimed lease.now.interval lease.now.seq self.now.history }
        ensures lawful { IsLawful self.now.case (core_of self.now) }
        ensures commit { IfOk result (λ commit. commit ≡ length self.now.history) }
        ensures below { IfOk result (λ commit. commit < 2 ^ 32) }
        ensures last { OnOk result
            (IsCurrent lease.now.interval lease.now.seq self.now.history) }
        ensures room { OnOk result (length self.now.history < self.now.limit) }
        ensures stale { IsStaleWhere self.now.history lease.now result }
        ensures full { IsFullWhere self.now.limit self.now.history lease.now result }
        ensures no_fault { IsErrOf result WriteRefusal.KeeperFault → ⊥ }
    {
        if let Some(newer) = self.newer(lease) {
            return Err(WriteRefusal::Stale { newer });
        }
        let commit = self.core.history.len() as u64;
        if commit >= self.core.limit {
            return Err(WriteRefusal::HistoryFull);
        }
        Ok(commit)
    }

    // The last claim of a lease's interval, where it is later than the lease's.
    pub(crate) fn newer(&self, lease: &Lease) -> Option<u64>
        requires claimed { IsClaimed lease.now.interval lease.now.seq self.now.history }
        ensures lawful { IsLawful self.now.case (core_of self.now) }
        ensures later { (newer : ℕ) → (result ≡ Some newer)
            ↔ IsOvertakenBy newer lease.now.interval lease.now.seq self.now.history }
        ensures own { result ≡ None →
            IsCurrent lease.now.interval lease.now.seq self.now.history }
    {
        let newest = self.core.newest(lease.interval());
        later(lease.seq(), newest)
    }
}

// The last claim, where it is later than this one.
fn later(seq: u64, newest: Option<u64>) -> Option<u64>
    ensures { result ≡ later_than seq newest }
{
    match newest {
        Some(newer) if seq < newer => Some(newer),
        _ => None,
    }
}
