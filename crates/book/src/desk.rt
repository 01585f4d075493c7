//! What a worker needs of a history: a desk, over a book of its own or one that others share.
ghost use Rattle.std.specs.Prelude.{◌≡◌, ◌<◌, ◌≤◌, ℕ, List, [], true, Option, IfErr, IfOk, IfSome, OnErr, length};
ghost use Rattle.mw_types.specs.declared.entry.Entry.TheVariants.{Ack, Purge};
ghost use Rattle.run_history.specs.Cases.{intervals_of};
ghost use Rattle.run_history.specs.Legal.{MayClaim};
ghost use Rattle.run_history.specs.Runs.{written_row};
ghost use Rattle.watermark.specs.Marks.{mark_of};
ghost use Rattle.book.specs.Answers.{answer_of};
ghost use Rattle.book.specs.Conditions.{IsOwnWork, MaySettle};
ghost use Rattle.book.specs.Desking.{HasClaimed, HasStored, HasWritten, IsKnownOf, IsPurgeKnown, IsReported, IsRowKnown, MayAsk};
ghost use Rattle.book.specs.DeskReasons.{HasClaimReason, HasReason, IsReportRefusal};
ghost use Rattle.book.specs.Desks.{DeskView, HasLooked, HasMet, Home, IsNoteOf, IsSound, KeepsMarks, Sight, TellsUnlessAlone};
ghost use Rattle.book.specs.Proposals.{IsProposable};
ghost use Rattle.book.specs.Writings.{HasPut, MayPut};

use crate::answers::{Claimed, Written};
use crate::desk_refusal::DeskRefusal;
use crate::lease::Lease;
use crate::proposal::Proposal;
use crate::writing::Writing;
use mw_types::{Duplicate, NoMemory, RecordId, RowName};
use row_parts::Row;
use std::alloc::Global;

/// What somebody has seen of a history, as a message carries it to another worker.
pub trait Seen: Drop {
    /// The case, and the beginning of the history that was seen, where it tells.
    ghost sight: { Self → Option Sight };

    /// The book of which it is, by its numbers.
    ghost book: { Self → List ℕ };
}

/// What a worker may ask of a history. Each call sees at least what was seen before, and appends at
/// most one entry of its own.
///
/// What others appended meanwhile carries no sequencer of a lease that the desk may use, and such a
/// lease may still be used. No known mark falls.
pub trait Desk: Drop {
    /// What it gives of what it has seen.
    type Note: Seen;

    /// What it knows.
    ghost view: { Self → DeskView };

    /// The borrow on which it rests.
    ghost loan: { Self → ℕ };

    /// Its place among the desks of its book.
    ghost home: { Self → Home };

    /// What always holds of a desk. It does nothing when it runs.
    fn sound(&self)
        ensures sound { IsSound (view self.now) };

    /// A worker takes an interval, which makes every earlier lease of it stale, and gets the rows that
    /// lie there.
    fn claim(&mut self, alloc: Global, worker: u32, interval: u32) -> Result<Claimed, DeskRefusal>
        requires may { MayClaim (view self.old).case worker interval }

        ensures claimed { IfOk result (HasClaimed (view self.old) (view self.new) worker interval) }
        ensures looked { OnErr result (HasLooked (view self.old) (view self.new)) }
        ensures reason { IfErr result (HasClaimReason (view self.old) (view self.new)) }
        ensures marks { KeepsMarks (view self.old) (view self.new) }
        ensures loan { loan self.new ≡ loan self.old }
        ensures home { home self.new ≡ home self.old };

    /// Writes into a row where it lies: appends one entry, which leaves the row as it then is. Answers
    /// the entry's commit number. A refusal leaves the row as it was.
    fn put(
        &mut self,
        alloc: Global,
        lease: &Lease,
        name: &RowName,
        row: &mut Row,
        writing: Writing<'_>,
    ) -> Result<u64, DeskRefusal>
        requires lease { MayAsk (view self.old) lease.now name.now }
        requires row { IsRowKnown (view self.old) lease.now name.now row.old }
        requires may { MayPut (view self.old) name.now row.old writing }

        ensures put { IfOk result (λ commit. HasPut (view self.old) (view self.new)
            lease.now name.now writing.entry row.old (answer_of commit row.new)) }
        ensures row { OnErr result (row.new ≡ row.old) }
        ensures looked { OnErr result (HasLooked (view self.old) (view self.new)) }
        ensures reason { IfErr result (HasReason (view self.old) (view self.new) lease.now) }
        ensures marks { KeepsMarks (view self.old) (view self.new) }
        ensures loan { loan self.new ≡ loan self.old }
        ensures home { home self.new ≡ home self.old };

    /// Does what `put` does on a copy of a row, which it answers.
    #[tactic(auto, using(crate::proofs::Untried::untried_looked, crate::proofs::Untried::untried_reason, crate::proofs::Untried::untried_marks))]
    fn put_copy(
        &mut self,
        alloc: Global,
        lease: &Lease,
        name: &RowName,
        row: &Row,
        writing: Writing<'_>,
    ) -> Result<Written, DeskRefusal>
        requires lease { MayAsk (view self.old) lease.now name.now }
        requires row { IsRowKnown (view self.old) lease.now name.now row.now }
        requires may { MayPut (view self.old) name.now row.now writing }

        ensures put { IfOk result (HasPut (view self.old) (view self.new)
            lease.now name.now writing.entry row.now) }
        ensures looked { OnErr result (HasLooked (view self.old) (view self.new)) }
        ensures reason { IfErr result (HasReason (view self.old) (view self.new) lease.now) }
        ensures marks { KeepsMarks (view self.old) (view self.new) }
        ensures loan { loan self.new ≡ loan self.old }
        ensures home { home self.new ≡ home self.old }
    {
        let mut left = match row.copy(alloc) {
            Ok(left) => left,
            Err(NoMemory) => return Err(DeskRefusal::NoMemory),
        };
        match self.put(alloc, lease, name, &mut left, writing) {
            Ok(commit) => Ok(Written { commit, row: left }),
            Err(why) => {
                drop(left);
                Err(why)
            }
        }
    }

    /// A row is written anew: an injector's next line is injected, a record was handled, or a timer
    /// fired.
    fn write(
        &mut self,
        alloc: Global,
        lease: &Lease,
        name: &RowName,
        row: &Row,
        proposal: &Proposal,
    ) -> Result<Written, DeskRefusal>
        requires lease { MayAsk (view self.old) lease.now name.now }
        requires row { IsRowKnown (view self.old) lease.now name.now row.now }
        requires proposal { IsProposable (view self.old).case name.now row.now proposal.now }
        requires known { IsKnownOf (view self.old) name.now proposal.now }

        ensures written { IfOk result
            (HasWritten (view self.old) (view self.new) lease.now name.now proposal.now row.now) }
        ensures looked { OnErr result (HasLooked (view self.old) (view self.new)) }
        ensures reason { IfErr result (HasReason (view self.old) (view self.new) lease.now) }
        ensures marks { KeepsMarks (view self.old) (view self.new) }
        ensures loan { loan self.new ≡ loan self.old }
        ensures home { home self.new ≡ home self.old }
    {
        self.put_copy(alloc, lease, name, row, Writing::Propose { proposal })
    }

    /// A sender learns that what it made was handled: the row no longer waits for the id.
    fn settle(
        &mut self,
        alloc: Global,
        lease: &Lease,
        name: &RowName,
        row: &Row,
        id: RecordId,
    ) -> Result<Written, DeskRefusal>
        requires lease { MayAsk (view self.old) lease.now name.now }
        requires row { IsRowKnown (view self.old) lease.now name.now row.now }
        requires id { MaySettle (view self.old).told (view self.old).seen row.now id }

        ensures written { let entry = Ack lease.now.seq name.now id in
            IfOk result (HasStored (view self.old) (view self.new) lease.now name.now entry row.now
            (λ commit. written_row commit entry [] row.now)) }
        ensures looked { OnErr result (HasLooked (view self.old) (view self.new)) }
        ensures reason { IfErr result (HasReason (view self.old) (view self.new) lease.now) }
        ensures marks { KeepsMarks (view self.old) (view self.new) }
        ensures loan { loan self.new ≡ loan self.old }
        ensures home { home self.new ≡ home self.old }
    {
        self.put_copy(alloc, lease, name, row, Writing::Settle { id })
    }

    /// A row forgets the ids of records that are finished: those below the floor.
    fn purge(
        &mut self,
        alloc: Global,
        lease: &Lease,
        name: &RowName,
        row: &Row,
        floor: u64,
    ) -> Result<Written, DeskRefusal>
        requires lease { MayAsk (view self.old) lease.now name.now }
        requires row { IsRowKnown (view self.old) lease.now name.now row.now }
        requires floor { IsPurgeKnown (view self.old) name.now row.now floor }

        ensures written { let entry = Purge lease.now.seq name.now floor in
            IfOk result (HasStored (view self.old) (view self.new) lease.now name.now entry row.now
            (λ commit. written_row commit entry [] row.now)) }
        ensures looked { OnErr result (HasLooked (view self.old) (view self.new)) }
        ensures reason { IfErr result (HasReason (view self.old) (view self.new) lease.now) }
        ensures marks { KeepsMarks (view self.old) (view self.new) }
        ensures loan { loan self.new ≡ loan self.old }
        ensures home { home self.new ≡ home self.old }
    {
        self.put_copy(alloc, lease, name, row, Writing::Purge { floor })
    }

    /// A worker reports the own work of an interval that it has, in whole microseconds: the oldest that
    /// is left in the interval's rows, or the end where there is none. The interval's mark, which may
    /// rise, is answered.
    fn report(&mut self, lease: &Lease, own: u64) -> Result<u64, DeskRefusal>
        requires lease { (view self.old).leases lease.now ≡ true }
        requires own { IsOwnWork (view self.old).case (view self.old).told (view self.old).seen
            lease.now own }

        ensures answer { IfOk result (λ mark.
            mark ≡ mark_of (view self.new).marks lease.now.interval) }
        ensures rise { (interval : ℕ) →
            mark_of (view self.old).marks interval ≤ mark_of (view self.new).marks interval }
        ensures looked { HasLooked (view self.old) (view self.new) }
        ensures reason { IfErr result (HasReason (view self.old) (view self.new) lease.now) }
        ensures only { IfErr result IsReportRefusal }

        // A desk that is alone sets this one mark, as its book does.
        ensures raised { (view self.old).alone ≡ true → IfOk result
            (λ mark. IsReported (view self.old) (view self.new) lease.now own mark) }
        ensures unchanged { (view self.old).alone ≡ true →
            OnErr result ((view self.new).marks ≡ (view self.old).marks) }
        ensures loan { loan self.new ≡ loan self.old }
        ensures home { home self.new ≡ home self.old };

    /// The known mark of an interval, in whole microseconds. It never falls.
    fn mark(&mut self, interval: u32) -> u64
        requires there { interval < length (intervals_of (view self.old).case.topology) }
        ensures mark { result ≡ mark_of (view self.new).marks interval }
        ensures looked { HasLooked (view self.old) (view self.new) }
        ensures marks { KeepsMarks (view self.old) (view self.new) }
        ensures loan { loan self.new ≡ loan self.old }
        ensures home { home self.new ≡ home self.old };

    /// The known floor, which never falls: of a desk that is alone that of what it has seen.
    fn floor(&mut self) -> u64
        ensures floor { result ≡ (view self.new).floor }
        ensures looked { HasLooked (view self.old) (view self.new) }
        ensures marks { KeepsMarks (view self.old) (view self.new) }
        ensures loan { loan self.new ≡ loan self.old }
        ensures home { home self.new ≡ home self.old };

    /// What the desk has seen, for a message to carry. The note tells it where a contract can see
    /// the keeper's rows, unless the desk is alone.
    fn note(&mut self) -> Self::Note
        ensures note { IsNoteOf (view self.new) (Self.Note.sight result) }
        ensures tells { TellsUnlessAlone (view self.new) (Self.Note.sight result) }
        ensures known { Self.Note.book result ≡ (home self.new).book }
        ensures looked { HasLooked (view self.old) (view self.new) }
        ensures marks { KeepsMarks (view self.old) (view self.new) }
        ensures loan { loan self.new ≡ loan self.old }
        ensures home { home self.new ≡ home self.old };

    /// The desk comes to see at least what a note of its own book tells.
    fn meet(&mut self, note: Self::Note)
        requires known { Self.Note.book note ≡ (home self.old).book }
        ensures met { HasMet (Self.Note.sight note) (view self.new) }
        ensures tells { TellsUnlessAlone (view self.old) (Self.Note.sight note) }
        ensures looked { HasLooked (view self.old) (view self.new) }
        ensures marks { KeepsMarks (view self.old) (view self.new) }
        ensures loan { loan self.new ≡ loan self.old }
        ensures home { home self.new ≡ home self.old };
}
