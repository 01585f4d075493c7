//! A desk over a seat of a shared book.
ghost use Rattle.std.specs.Prelude.{◌≡◌, [], false};
ghost use Rattle.shared_book.specs.KeptFacts.{IsKeptOfSeat-prop};
ghost use Rattle.shared_book.specs.SharedDesks.{HasKept};
ghost use Rattle.shared_book.specs.Turns.{IsHere, IsIdle};

use crate::beginning::begin;
use crate::desk_claims::claim_once;
use crate::desk_reports::{floor_once, mark_once, report_once};
use crate::desk_writes::put_once;
use crate::meets::meet_once;
use crate::seats::{Note, Seat};
use crate::shared::Shared;
use book::{Claimed, Desk, DeskRefusal, Lease, Seen, Writing};
use history_laws::case_is_runnable;
use mw_types::RowName;
use row_keeper::Keeper;
use row_parts::Row;
use std::alloc::Global;

impl<K: Keeper> Seen for Note<K> {
    ghost use Rattle.shared_book.specs.SharedDesks.{sight_of, table_numbers};

    ghost sight = { λ note. sight_of note.place.me.0 };

    ghost book = { λ note. table_numbers note.place.table_id };
}

/// A desk over a seat of a shared book. Each claim and each write is one try for the turn, the call
/// and the release; another's turn is answered at once as `Busy`. A report is one raise of the mark's
/// word, and `mark` and `floor` are one load each, whoever has the turn.
#[derive(Drop)]
pub struct SharedDesk<'s, 'a, K: Keeper> {
    pub(crate) shared: &'s Shared<'a, K>,
    pub(crate) seat: &'s mut Seat<K>,
    ghost table: { seat.now.place.table_id ≡ shared.now.table.shared.table_id },
    ghost case: { seat.now.place.me.0.basis.case ≡ shared.now.case.now },
    ghost turn: { seat.now.place.me.0.turn ≡ false },
    ghost places: { seat.now.place.me.1 ≡ [] },
    ghost kept: { HasKept seat.now.place.me.0 } by { let v = seat.now.place.me.0 in
        IsKeptOfSeat-prop v.basis v.front v.leases v.floor },
}

impl<'s, 'a, K: Keeper> SharedDesk<'s, 'a, K> {
    /// The desk of a seat that holds no turn. It knows the marks and the floor that the seat has
    /// loaded.
    pub fn on(shared: &'s Shared<'a, K>, seat: &'s mut Seat<K>) -> SharedDesk<'s, 'a, K>
        requires here { IsHere shared.now.table.shared.table_id shared.now.case.now
            seat.old.place }
        requires idle { IsIdle seat.old.place.me }
        ensures loan { result.seat.ghost_name ≡ seat.entry.ghost_name }
        ensures shared { result.shared.now ≡ shared.now }
        ensures view { result.seat.now.place.me ≡ seat.entry.now.place.me }
        ensures number { result.seat.now.number ≡ seat.entry.now.number }
    {
        begin(shared, seat);
        SharedDesk { shared, seat }
    }
}

impl<'s, 'a, K: Keeper> Desk for SharedDesk<'s, 'a, K> {
    ghost use Rattle.std.specs.Prelude.{◌≤◌, ℕ, min, true, IfErr, IfOk, IsOk, OnErr};
    ghost use Rattle.watermark.specs.Marks.{mark_of};
    ghost use Rattle.book.specs.Conditions.{IsOwnWork};
    ghost use Rattle.book.specs.DeskReasons.{HasReason, IsReportRefusal};
    ghost use Rattle.book.specs.Desking.{IsReported};
    ghost use Rattle.book.specs.Desks.{HasLooked};
    ghost use Rattle.shared_book.specs.Places.{input_under};
    ghost use Rattle.shared_book.specs.SharedDesks.{is_held, shared_home, shared_view};

    type Note = Note<K>;

    ghost view = { λ desk. shared_view desk.seat.now.place.me.0 };

    ghost loan = { λ desk. desk.seat.ghost_name };

    ghost home = { λ desk. shared_home desk.seat.now.place };

    fn sound(&self) {
        case_is_runnable(self.shared.case);
    }

    fn claim(&mut self, alloc: Global, worker: u32, interval: u32) -> Result<Claimed, DeskRefusal> {
        let shared = self.shared;
        claim_once(alloc, shared, self.seat, worker, interval)
    }

    fn put(
        &mut self,
        alloc: Global,
        lease: &Lease,
        name: &RowName,
        row: &mut Row,
        writing: Writing<'_>,
    ) -> Result<u64, DeskRefusal> {
        let shared = self.shared;
        put_once(alloc, shared, self.seat, lease, name, row, writing)
    }

    /// One raise of the mark, which is never refused, whoever has the turn and whoever has claimed the
    /// interval since.
    fn report(&mut self, lease: &Lease, own: u64) -> Result<u64, DeskRefusal>
        requires lease { is_held self.old.seat.now.place.me.0.leases lease.now ≡ true }
        requires own { let v = self.old.seat.now.place.me.0 in
            IsOwnWork v.basis.case v.basis.told v.front lease.now own }

        ensures always { IsOk result }

        // To its own work, as far as what fed the lease's interval allowed when it was last settled.
        ensures raised_to { let v = self.old.seat.now.place.me.0 in
            IfOk result (λ mark. min own (input_under v lease.now) ≤ mark) }

        // As of any desk.
        ensures answer { let new = shared_view self.new.seat.now.place.me.0 in
            IfOk result (λ mark. mark ≡ mark_of new.marks lease.now.interval) }
        ensures rise { let old = shared_view self.old.seat.now.place.me.0 in
            let new = shared_view self.new.seat.now.place.me.0 in
            (interval : ℕ) → mark_of old.marks interval ≤ mark_of new.marks interval }
        ensures looked { HasLooked (shared_view self.old.seat.now.place.me.0)
            (shared_view self.new.seat.now.place.me.0) }
        ensures reason { let old = shared_view self.old.seat.now.place.me.0 in
            let new = shared_view self.new.seat.now.place.me.0 in
            IfErr result (HasReason old new lease.now) }
        ensures only { IfErr result IsReportRefusal }
        ensures raised { let old = shared_view self.old.seat.now.place.me.0 in
            let new = shared_view self.new.seat.now.place.me.0 in old.alone ≡ true →
            IfOk result (λ mark. IsReported old new lease.now own mark) }
        ensures unchanged { let old = shared_view self.old.seat.now.place.me.0 in
            let new = shared_view self.new.seat.now.place.me.0 in
            old.alone ≡ true → OnErr result (new.marks ≡ old.marks) }
        ensures loan { self.new.seat.ghost_name ≡ self.old.seat.ghost_name }
        ensures home { shared_home self.new.seat.now.place ≡ shared_home self.old.seat.now.place }
    {
        let shared = self.shared;
        Ok(report_once(shared, self.seat, lease, own))
    }

    fn mark(&mut self, interval: u32) -> u64 {
        let shared = self.shared;
        mark_once(shared, self.seat, interval)
    }

    fn floor(&mut self) -> u64 {
        let shared = self.shared;
        floor_once(shared, self.seat)
    }

    fn note(&mut self) -> Note<K> {
        let shared = self.shared;
        shared.note(self.seat)
    }

    fn meet(&mut self, note: Note<K>) {
        let shared = self.shared;
        meet_once(shared, self.seat, note);
    }
}
