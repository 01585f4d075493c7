//! Writes on rows of intervals that are held.
ghost use Rattle.std.specs.Prelude.{◌≡◌, ◌<◌, IfErr, IfOk, IfSome, IsSome, OnErr, Some};
ghost use Rattle.topology.specs.Shapes.{parts_of};
ghost use Rattle.run_history.specs.Fences.{interval_of};
ghost use Rattle.run_history.specs.Runs.{cached, row_in};
ghost use Rattle.book.specs.Answers.{answer_of};
ghost use Rattle.book.specs.Desking.{IsRowKnown, MayAsk};
ghost use Rattle.book.specs.DeskReasons.{HasReason};
ghost use Rattle.book.specs.Desks.{HasLooked, KeepsMarks};
ghost use Rattle.book.specs.Writings.{HasPut, MayPut};
ghost use Rattle.holdings.specs.Holding.{AreAllHeld, HoldsEntry, IsRefusedOf, KeepsHeld, held_at, row_held};
ghost use Rattle.holdings.specs.Writing.{IsRewrittenAt};

use crate::held::Held;
use crate::holdings::Holdings;
use book::{Desk, DeskRefusal, Writing};
use mw_types::RowName;
use run_history::Case;
use std::alloc::Global;

impl Holdings {
    /// Writes into a row: appends one entry, and what the entry leaves of the row is held. Answers the
    /// commit number of the entry.
    #[tactic(auto, using(book::proofs::Untried::untried_looked))]
    pub fn put<D: Desk>(
        &mut self,
        alloc: Global,
        desk: &mut D,
        case: &Case,
        interval: u32,
        name: &RowName,
        writing: Writing<'_>,
    ) -> Result<u64, DeskRefusal>
        requires case { (D.view desk.old).case ≡ case.now }
        requires fits { AreAllHeld case.now (D.view desk.old) self.old }
        requires covers { interval_of case.now.topology name.now ≡ Some interval }
        requires part { name.now.part < parts_of case.now.topology }
        requires there { IsSome (held_at self.old interval) }
        requires may { IfSome (held_at self.old interval) (λ held. MayPut (D.view desk.old)
            name.now (row_held case.now.topology held name.now) writing) }

        ensures fits { AreAllHeld case.now (D.view desk.new) self.new }
        ensures put { IfOk result (λ commit.
            HoldsEntry case.now.topology interval name.now commit
            (λ lease row answer. HasPut (D.view desk.old) (D.view desk.new) lease name.now
            writing.entry row answer) self.old self.new) }

        ensures kept { OnErr result (KeepsHeld case.now.topology self.old self.new) }
        ensures looked { OnErr result (HasLooked (D.view desk.old) (D.view desk.new)) }
        ensures reason { IfErr result
            (IsRefusedOf (D.view desk.old) (D.view desk.new) self.old interval) }
        ensures marks { KeepsMarks (D.view desk.old) (D.view desk.new) }
        ensures loan { D.loan desk.new ≡ D.loan desk.old }
        ensures home { D.home desk.new ≡ D.home desk.old }
    {
        desk.sound();
        self.ready(alloc, case, interval, name)?;
        let place = &mut self.all[interval as usize];
        let written = put_at(place, alloc, desk, name, writing);
        desk.sound();
        written
    }
}

// Writes into a row that is cached in a place where something is held.
fn put_at<D: Desk>(
    place: &mut Option<Held>,
    alloc: Global,
    desk: &mut D,
    name: &RowName,
    writing: Writing<'_>,
) -> Result<u64, DeskRefusal>
    requires held { IsSome place.old }
    requires there { IfSome place.old (λ held. IsSome (row_in (cached held.rows) name.now)) }
    requires lease { IfSome place.old (λ held. MayAsk (D.view desk.old) held.lease name.now) }
    requires row { IfSome place.old (λ held. IfSome (row_in (cached held.rows) name.now)
        (IsRowKnown (D.view desk.old) held.lease name.now)) }
    requires may { IfSome place.old (λ held. IfSome (row_in (cached held.rows) name.now)
        (λ row. MayPut (D.view desk.old) name.now row writing)) }

    ensures put { IfOk result (λ commit. IfSome place.old (λ held. IsRewrittenAt name.now
        (λ row left. HasPut (D.view desk.old) (D.view desk.new) held.lease name.now
        writing.entry row (answer_of commit left)) held place.new)) }

    ensures kept { OnErr result (place.new ≡ place.old) }
    ensures looked { OnErr result (HasLooked (D.view desk.old) (D.view desk.new)) }
    ensures reason { IfErr result (λ why. IfSome place.old (λ held.
        HasReason (D.view desk.old) (D.view desk.new) held.lease why)) }
    ensures marks { KeepsMarks (D.view desk.old) (D.view desk.new) }
    ensures loan { D.loan desk.new ≡ D.loan desk.old }
    ensures home { D.home desk.new ≡ D.home desk.old }
{
    match place {
        Some(held) => held.put(alloc, desk, name, writing),
        None => unreachable!(),
    }
}
