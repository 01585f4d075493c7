//! Purges: rows forget the ids of records that are finished.
ghost use Rattle.std.specs.Prelude.{◌≡◌, ◌<◌, ◌≤◌, ◌↔◌, IfErr, IfOk, IsFalse, IsTrue, OnErr, Some};
ghost use Rattle.topology.specs.Shapes.{Shape, parts_of};
ghost use Rattle.book.specs.Desks.{HasLooked, KeepsMarks};
ghost use Rattle.holdings.specs.Holding.{HeldView, held_at, held_on};
ghost use Rattle.node.specs.Answers.{AnswersForget, AnswersPurge, AnswersWrite, FailsAsked, FailsForget, FailsPurge, HasGrown, HasKept};
ghost use Rattle.node.specs.Asking.{HasToForget, MayAskForget, Request, forgetting};
ghost use Rattle.node.specs.Fits.{Fits};
ghost use Rattle.node.specs.PurgeSteps.{AreRowsWithin, CanForget, IsToPurge};
ghost use Rattle.node.specs.Workers.{worker_at};

use crate::node::Node;
use crate::outcome::{NodeFault, Outcome};
use book::{Desk, Seen, Writing};
use holdings::Held;
use mw_types::{Duplicate, NoMemory, RowName};
use run_history::Case;
use std::alloc::Global;

impl<N: Seen> Node<N> {
    /// Has one row forget the ids that no sender may send again, where it has so many and one at
    /// least. It answers `Nothing` exactly where a work is prepared, the worker has no lease of the
    /// row, the row has too few ids, or its floor is not below the known one.
    pub fn purge_row<D: Desk<Note = N>>(
        &mut self,
        alloc: Global,
        desk: &mut D,
        case: &Case,
        name: &RowName,
        least: u32,
    ) -> Result<Outcome, NodeFault>
        requires fits { Fits case.now (D.view desk.old) self.old }
        requires part { name.now.part < parts_of case.now.topology }

        ensures fits { Fits case.now (D.view desk.new) self.new }
        ensures answers { IfOk result (AnswersForget case.now.topology
            (D.view desk.old) (D.view desk.new) name.now least self.old self.new) }
        ensures number { self.new.number ≡ self.old.number }

        ensures kept { OnErr result (HasKept self.old self.new) }
        ensures looked { OnErr result (HasLooked (D.view desk.old) (D.view desk.new)) }
        ensures fault { IfErr result (FailsForget case.now.topology
            (D.view desk.old) (D.view desk.new) name.now least self.old) }

        ensures grown { HasGrown self.old.held (D.view desk.old) (D.view desk.new) }
        ensures marks { KeepsMarks (D.view desk.old) (D.view desk.new) }
        ensures loan { D.loan desk.new ≡ D.loan desk.old }
        ensures home { D.home desk.new ≡ D.home desk.old }
    {
        desk.sound();
        let floor = desk.floor();
        desk.sound();
        if self.may_forget(case, name, least, floor) {
            self.forget(alloc, desk, case, name, floor)
        } else {
            Ok(Outcome::Nothing)
        }
    }

    /// Has the first row of an interval, by key, that has so many ids to forget, and one at least,
    /// forget them. It answers `Nothing` exactly where a work is prepared, the worker has no lease
    /// of the interval, or no row there has so many ids and a floor below the known one.
    pub fn purge<D: Desk<Note = N>>(
        &mut self,
        alloc: Global,
        desk: &mut D,
        case: &Case,
        interval: u32,
        least: u32,
    ) -> Result<Outcome, NodeFault>
        requires fits { Fits case.now (D.view desk.old) self.old }

        ensures fits { Fits case.now (D.view desk.new) self.new }
        ensures answers { IfOk result (AnswersPurge case.now.topology
            (D.view desk.old) (D.view desk.new) interval least self.old self.new) }
        ensures number { self.new.number ≡ self.old.number }

        ensures kept { OnErr result (HasKept self.old self.new) }
        ensures looked { OnErr result (HasLooked (D.view desk.old) (D.view desk.new)) }
        ensures fault { IfErr result (FailsPurge case.now.topology
            (D.view desk.old) (D.view desk.new) interval least self.old) }

        ensures grown { HasGrown self.old.held (D.view desk.old) (D.view desk.new) }
        ensures marks { KeepsMarks (D.view desk.old) (D.view desk.new) }
        ensures loan { D.loan desk.new ≡ D.loan desk.old }
        ensures home { D.home desk.new ≡ D.home desk.old }
    {
        desk.sound();
        let floor = desk.floor();
        desk.sound();
        match self.to_purge(alloc, case, interval, least, floor)? {
            Some(name) => self.forget(alloc, desk, case, &name, floor),
            None => Ok(Outcome::Nothing),
        }
    }

    // The first row of an interval that has so many ids to forget, where nothing is prepared.
    fn to_purge(
        &self,
        alloc: Global,
        case: &Case,
        interval: u32,
        least: u32,
        floor: u64,
    ) -> Result<Option<RowName>, NoMemory>
        requires within { AreRowsWithin case.now.topology interval
            (held_at self.now.held interval) }
        ensures found { IfOk result
            (IsToPurge case.now.topology self.now interval least floor) }
    {
        if self.prepared.is_some() {
            return Ok(None);
        }
        if self.held.get(interval).is_none() {
            return Ok(None);
        }
        match self.held.to_purge(interval, floor, least as u64) {
            Some(name) => Ok(Some(name.copy(alloc)?)),
            None => Ok(None),
        }
    }

    // Whether nothing is prepared, and a row is held and has so many ids, and a floor below this
    // one.
    fn may_forget(&self, case: &Case, name: &RowName, least: u32, floor: u64) -> bool
        requires part { name.now.part < parts_of case.now.topology }
        ensures may { IsTrue result →
            CanForget case.now.topology self.now least floor name.now }
        ensures may_not { IsFalse result →
            CanForget case.now.topology self.now least floor name.now → ⊥ }
    {
        if self.prepared.is_some() {
            return false;
        }
        match self.held.get(case.interval_of(name)) {
            Some(held) => has_to_forget(held, name, least, floor),
            None => false,
        }
    }

    // Has a row that is held, and has ids, forget those below a floor that the desk knows.
    pub(crate) fn forget<D: Desk<Note = N>>(
        &mut self,
        alloc: Global,
        desk: &mut D,
        case: &Case,
        name: &RowName,
        floor: u64,
    ) -> Result<Outcome, NodeFault>
        requires fits { Fits case.now (D.view desk.old) self.old }
        requires part { name.now.part < parts_of case.now.topology }
        requires floor { floor ≤ (D.view desk.old).floor }
        requires may { CanForget case.now.topology self.old 0 floor name.now }

        ensures fits { Fits case.now (D.view desk.new) self.new }
        ensures answers { (held : HeldView) →
            held_on case.now.topology self.old.held name.now ≡ Some held →
            IfOk result (AnswersWrite case.now.topology (D.view desk.old) (D.view desk.new)
            (forgetting held name.now floor) (worker_at self.old) self.old self.new) }
        ensures number { self.new.number ≡ self.old.number }

        ensures kept { OnErr result (HasKept self.old self.new) }
        ensures looked { OnErr result (HasLooked (D.view desk.old) (D.view desk.new)) }
        ensures fault { (held : HeldView) →
            held_on case.now.topology self.old.held name.now ≡ Some held →
            IfErr result (FailsAsked (D.view desk.old) (D.view desk.new)
            (Some (forgetting held name.now floor))) }

        ensures grown { HasGrown self.old.held (D.view desk.old) (D.view desk.new) }
        ensures marks { KeepsMarks (D.view desk.old) (D.view desk.new) }
        ensures loan { D.loan desk.new ≡ D.loan desk.old }
        ensures home { D.home desk.new ≡ D.home desk.old }
    {
        let interval = case.interval_of(name);
        let writing = Writing::Purge { floor };
        self.put_on(alloc, desk, case, interval, name, writing, Vec::new(alloc))
    }
}

// Whether a row that is held has so many ids, and one at least, and a floor below this one.
fn has_to_forget(held: &Held, name: &RowName, least: u32, floor: u64) -> bool
    ensures { (shape : Shape) →
        IsTrue result ↔ HasToForget shape held.now least floor name.now }
{
    match held.row(name) {
        Some(row) => row.has_ids(least, floor),
        None => false,
    }
}
