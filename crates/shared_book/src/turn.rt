//! Turns: the right to append, which one seat has at a time.
ghost use Rattle.std.specs.Prelude.{◌≡◌, ◌≢◌, ◌↔◌, IfErr, IfOk, IfSome, IsErrOf, [], length};
ghost use Rattle.std.specs.Borrow.{sem};
ghost use Rattle.mw_types.specs.declared.entry.Entry.TheVariants.{Ack, Purge};
ghost use Rattle.run_history.specs.Finished.{unfinished};
ghost use Rattle.run_history.specs.Legal.{MayClaim};
ghost use Rattle.run_history.specs.Runs.{run_of};
ghost use Rattle.book.specs.Answers.{IsFullWhere, IsStaleWhere};
ghost use Rattle.book.specs.Claims.{IsDamaged};
ghost use Rattle.book.specs.Conditions.{MayForget, MaySettle};
ghost use Rattle.book.specs.Proposals.{IsProposable};
ghost use Rattle.book.specs.declared.refusals.ClaimRefusal.TheVariants as claims;
ghost use Rattle.book.specs.declared.refusals.WriteRefusal.TheVariants as refusals;
ghost use Rattle.shared_book.specs.Guards.{RestsTurn};
ghost use Rattle.shared_book.specs.MarkSteps.{released};
ghost use Rattle.shared_book.specs.Turns.{HasClaimedIn, HasFaulted, HasStoredIn, HasTaken, HasTurn, HasWrittenIn, IsHere, IsIdle, IsProposedIn, IsRowHeld, MayWrite};

use crate::finishing::give_at;
use crate::seats::Seat;
use crate::shared::Shared;
use crate::slots::take;
use crate::turn_calls::{claim_at, put_at, unfinished_at};
use book::{ClaimRefusal, Claimed, Lease, Proposal, WriteRefusal, Writing, Written};
use mw_types::{RecordId, RowName};
use row_keeper::Keeper;
use row_parts::Row;
use std::alloc::Global;

/// Another seat has the turn.
#[derive(Drop)]
pub struct Busy {
    /// The word that was found, which is not 0.
    pub found: u64,
}

/// The right to append, which one seat has at a time. It must be released.
///
/// An entry under a lease is accepted only where the lease is the last of its interval. Where a
/// contract can see the keeper's rows, the row that was handed in is then the row of the history.
pub struct Turn<'s, 'a, K: Keeper> {
    pub(crate) shared: &'s Shared<'a, K>,
    pub(crate) seat: &'s mut Seat<K>,
}

impl<K: Keeper> Seat<K> {
    /// One try for the turn. A seat that gets it has seen the whole history, and each of its leases
    /// has its rows as the seat last saw them, whatever others appended.
    pub fn try_turn<'s, 'a>(
        &'s mut self,
        shared: &'s Shared<'a, K>,
    ) -> Result<Turn<'s, 'a, K>, Busy>
        requires here { IsHere shared.now.table.shared.table_id shared.now.case.now self.old.place }
        requires idle { IsIdle self.old.place.me }

        ensures* rests { sem 𝓛 (RestsTurn K.row K.Keeper self.entry result) }
        ensures loan { IfOk result (λ turn. turn.seat.ghost_name ≡ self.entry.ghost_name) }
        ensures shared { IfOk result (λ turn. turn.shared.now ≡ shared.now) }
        ensures here { IfOk result (λ turn.
            IsHere shared.now.table.shared.table_id shared.now.case.now turn.seat.now.place) }
        ensures turn { IfOk result (λ turn. HasTurn turn.seat.now.place.me) }
        ensures taken { IfOk result (λ turn.
            HasTaken self.old.place.me.0 turn.seat.now.place.me.0) }
    {
        let found = take(shared, self);
        if found != 0 {
            return Err(Busy { found });
        }
        Ok(Turn { shared, seat: self })
    }
}

impl<'s, 'a, K: Keeper> Turn<'s, 'a, K> {
    /// A worker takes an interval, which makes every earlier lease of it stale, whichever seat has
    /// it. The lease is the seat's, and may raise no mark before it is settled, as the turn is
    /// given back.
    pub fn claim(
        &mut self,
        alloc: Global,
        worker: u32,
        interval: u32,
    ) -> Result<Claimed, ClaimRefusal>
        requires here { let shared = self.old.shared.now in
            IsHere shared.table.shared.table_id shared.case.now self.old.seat.now.place }
        requires turn { HasTurn self.old.seat.now.place.me }
        requires may { MayClaim self.old.shared.now.case.now worker interval }

        ensures loan { self.new.seat.ghost_name ≡ self.old.seat.ghost_name }
        ensures shared { self.new.shared.now ≡ self.old.shared.now }
        ensures here { let shared = self.old.shared.now in
            IsHere shared.table.shared.table_id shared.case.now self.new.seat.now.place }
        ensures turn { HasTurn self.new.seat.now.place.me }
        ensures numbers { self.new.seat.now.place.me.0.numbers
            ≡ self.old.seat.now.place.me.0.numbers }
        ensures basis { self.new.seat.now.place.me.0.basis ≡ self.old.seat.now.place.me.0.basis }
        ensures claimed { let old = self.old.seat.now.place.me.0 in
            let new = self.new.seat.now.place.me.0 in
            IfOk result (HasClaimedIn old new worker interval) }
        ensures full { let old = self.old.seat.now.place.me.0 in
            IsErrOf result ClaimRefusal.HistoryFull ↔ (length old.front ≡ old.basis.limit) }
        ensures damaged { let old = self.old.seat.now.place.me.0 in
            IfErr result (IsDamaged old.basis.case old.basis.told (length old.front)) }
        ensures fault { IsErrOf result ClaimRefusal.KeeperFault →
            HasFaulted self.old.seat.now.place.me.0 self.new.seat.now.place.me.0 }
        ensures unchanged { IfErr result (λ why. (why ≢ claims.KeeperFault) →
            self.new.seat.now.place.me.0 ≡ self.old.seat.now.place.me.0) }
    {
        let shared = self.shared;
        claim_at(alloc, shared, self.seat, worker, interval)
    }

    /// A row is written anew, under a lease of the seat: an injector's next line is injected, a
    /// record was handled, or a timer fired.
    pub fn write(
        &mut self,
        alloc: Global,
        lease: &Lease,
        name: &RowName,
        row: &Row,
        proposal: &Proposal,
    ) -> Result<Written, WriteRefusal>
        requires here { let shared = self.old.shared.now in
            IsHere shared.table.shared.table_id shared.case.now self.old.seat.now.place }
        requires turn { HasTurn self.old.seat.now.place.me }
        requires lease { MayWrite self.old.seat.now.place.me.0 lease.now name.now }
        requires row { IsRowHeld self.old.seat.now.place.me.0 lease.now name.now row.now }
        requires proposal { let shared = self.old.shared.now in
            IsProposable shared.case.now name.now row.now proposal.now }
        requires seen { IsProposedIn self.old.seat.now.place.me.0 name.now proposal.now }

        ensures loan { self.new.seat.ghost_name ≡ self.old.seat.ghost_name }
        ensures shared { self.new.shared.now ≡ self.old.shared.now }
        ensures here { let shared = self.old.shared.now in
            IsHere shared.table.shared.table_id shared.case.now self.new.seat.now.place }
        ensures turn { HasTurn self.new.seat.now.place.me }
        ensures numbers { self.new.seat.now.place.me.0.numbers
            ≡ self.old.seat.now.place.me.0.numbers }
        ensures basis { self.new.seat.now.place.me.0.basis ≡ self.old.seat.now.place.me.0.basis }
        ensures written { let old = self.old.seat.now.place.me.0 in
            let new = self.new.seat.now.place.me.0 in
            IfOk result (HasWrittenIn old new lease.now name.now proposal.now row.now) }
        ensures stale { IsStaleWhere self.old.seat.now.place.me.0.front lease.now result }
        ensures full { let old = self.old.seat.now.place.me.0 in
            IsFullWhere old.basis.limit old.front lease.now result }
        ensures fault { IsErrOf result WriteRefusal.KeeperFault →
            HasFaulted self.old.seat.now.place.me.0 self.new.seat.now.place.me.0 }
        ensures unchanged { IfErr result (λ why. (why ≢ refusals.KeeperFault) →
            self.new.seat.now.place.me.0 ≡ self.old.seat.now.place.me.0) }
    {
        let shared = self.shared;
        let writing = Writing::Propose { proposal };
        put_at(alloc, shared, self.seat, lease, name, row, writing)
    }

    /// A sender learns, under a lease of the seat, that what it made was handled: the row no longer
    /// waits for the id.
    pub fn settle(
        &mut self,
        alloc: Global,
        lease: &Lease,
        name: &RowName,
        row: &Row,
        id: RecordId,
    ) -> Result<Written, WriteRefusal>
        requires here { let shared = self.old.shared.now in
            IsHere shared.table.shared.table_id shared.case.now self.old.seat.now.place }
        requires turn { HasTurn self.old.seat.now.place.me }
        requires lease { MayWrite self.old.seat.now.place.me.0 lease.now name.now }
        requires row { IsRowHeld self.old.seat.now.place.me.0 lease.now name.now row.now }
        requires id { let v = self.old.seat.now.place.me.0 in
            MaySettle v.basis.told v.front row.now id }

        ensures loan { self.new.seat.ghost_name ≡ self.old.seat.ghost_name }
        ensures shared { self.new.shared.now ≡ self.old.shared.now }
        ensures here { let shared = self.old.shared.now in
            IsHere shared.table.shared.table_id shared.case.now self.new.seat.now.place }
        ensures turn { HasTurn self.new.seat.now.place.me }
        ensures numbers { self.new.seat.now.place.me.0.numbers
            ≡ self.old.seat.now.place.me.0.numbers }
        ensures basis { self.new.seat.now.place.me.0.basis ≡ self.old.seat.now.place.me.0.basis }
        ensures written { let entry = Ack lease.now.seq name.now id in
            let old = self.old.seat.now.place.me.0 in
            let new = self.new.seat.now.place.me.0 in
            IfOk result (HasStoredIn old new lease.now name.now entry row.now) }
        ensures stale { IsStaleWhere self.old.seat.now.place.me.0.front lease.now result }
        ensures full { let old = self.old.seat.now.place.me.0 in
            IsFullWhere old.basis.limit old.front lease.now result }
        ensures fault { IsErrOf result WriteRefusal.KeeperFault →
            HasFaulted self.old.seat.now.place.me.0 self.new.seat.now.place.me.0 }
        ensures unchanged { IfErr result (λ why. (why ≢ refusals.KeeperFault) →
            self.new.seat.now.place.me.0 ≡ self.old.seat.now.place.me.0) }
    {
        let shared = self.shared;
        let writing = Writing::Settle { id };
        put_at(alloc, shared, self.seat, lease, name, row, writing)
    }

    /// A row forgets, under a lease of the seat, the ids of records that are finished: those below
    /// the floor.
    pub fn purge(
        &mut self,
        alloc: Global,
        lease: &Lease,
        name: &RowName,
        row: &Row,
        floor: u64,
    ) -> Result<Written, WriteRefusal>
        requires here { let shared = self.old.shared.now in
            IsHere shared.table.shared.table_id shared.case.now self.old.seat.now.place }
        requires turn { HasTurn self.old.seat.now.place.me }
        requires lease { MayWrite self.old.seat.now.place.me.0 lease.now name.now }
        requires row { IsRowHeld self.old.seat.now.place.me.0 lease.now name.now row.now }
        requires floor { let v = self.old.seat.now.place.me.0 in
            MayForget v.basis.case v.basis.told v.front name.now row.now floor }

        ensures loan { self.new.seat.ghost_name ≡ self.old.seat.ghost_name }
        ensures shared { self.new.shared.now ≡ self.old.shared.now }
        ensures here { let shared = self.old.shared.now in
            IsHere shared.table.shared.table_id shared.case.now self.new.seat.now.place }
        ensures turn { HasTurn self.new.seat.now.place.me }
        ensures numbers { self.new.seat.now.place.me.0.numbers
            ≡ self.old.seat.now.place.me.0.numbers }
        ensures basis { self.new.seat.now.place.me.0.basis ≡ self.old.seat.now.place.me.0.basis }
        ensures written { let entry = Purge lease.now.seq name.now floor in
            let old = self.old.seat.now.place.me.0 in
            let new = self.new.seat.now.place.me.0 in
            IfOk result (HasStoredIn old new lease.now name.now entry row.now) }
        ensures stale { IsStaleWhere self.old.seat.now.place.me.0.front lease.now result }
        ensures full { let old = self.old.seat.now.place.me.0 in
            IsFullWhere old.basis.limit old.front lease.now result }
        ensures fault { IsErrOf result WriteRefusal.KeeperFault →
            HasFaulted self.old.seat.now.place.me.0 self.new.seat.now.place.me.0 }
        ensures unchanged { IfErr result (λ why. (why ≢ refusals.KeeperFault) →
            self.new.seat.now.place.me.0 ≡ self.old.seat.now.place.me.0) }
    {
        let shared = self.shared;
        let writing = Writing::Purge { floor };
        put_at(alloc, shared, self.seat, lease, name, row, writing)
    }

    /// How much work is left, as on a book.
    pub fn unfinished(&mut self) -> u64
        requires here { let shared = self.old.shared.now in
            IsHere shared.table.shared.table_id shared.case.now self.old.seat.now.place }
        requires turn { HasTurn self.old.seat.now.place.me }

        ensures loan { self.new.seat.ghost_name ≡ self.old.seat.ghost_name }
        ensures shared { self.new.shared.now ≡ self.old.shared.now }
        ensures here { let shared = self.old.shared.now in
            IsHere shared.table.shared.table_id shared.case.now self.new.seat.now.place }
        ensures turn { HasTurn self.new.seat.now.place.me }
        ensures view { self.new.seat.now.place.me.0 ≡ self.old.seat.now.place.me.0 }
        ensures left { let v = self.old.seat.now.place.me.0 in IfSome v.basis.told
            (λ _. result ≡ unfinished v.basis.case (run_of v.basis.case.topology v.front)) }
    {
        let shared = self.shared;
        unfinished_at(shared, self.seat)
    }

    /// Gives the turn back, and the book with it. The floor's word is raised to the floor of the
    /// history, and each lease of the seat that is the last of its interval is settled: its rows are
    /// known by all that was seen, and what feeds it by the marks as the seat had loaded them.
    pub fn release(self)
        requires here { let shared = self.shared.now in
            IsHere shared.table.shared.table_id shared.case.now self.seat.now.place }
        requires turn { HasTurn self.seat.now.place.me }
        ensures view { self.exit.1.0.now.place.me ≡ (released self.entry.seat.now.place.me.0, []) }
        ensures table { self.exit.1.0.now.place.table_id ≡ self.entry.seat.now.place.table_id }
    {
        let Turn { shared, seat } = self;
        give_at(shared, seat);
    }
}
