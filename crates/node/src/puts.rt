//! One write on a row that a worker holds, and what a refusal of it leaves.
ghost use Rattle.std.specs.Prelude.{◌≡◌, ◌<◌, IfSome, IsSome, OnErr, Some};
ghost use Rattle.topology.specs.Shapes.{parts_of};
ghost use Rattle.run_history.specs.Fences.{interval_of};
ghost use Rattle.book.specs.Desks.{HasLooked, IsSound, KeepsMarks};
ghost use Rattle.book.specs.Writings.{MayPut};
ghost use Rattle.holdings.specs.Holding.{held_at, row_held};
ghost use Rattle.node.specs.Answers.{HasGrown, HasKept};
ghost use Rattle.node.specs.Fits.{Fits};
ghost use Rattle.node.specs.PutSteps.{HasPutOn};

use crate::node::Node;
use crate::outcome::{NodeFault, Outcome};
use book::{Desk, Seen, Writing};
use mw_types::RowName;
use outbox::{Outgoing, write_made};
use run_history::Case;
use std::alloc::Global;

impl<N: Seen> Node<N> {
    // Writes into a row of an interval that is held, and then has what the entry made to send; a lease
    // that was overtaken is let go.
    pub(crate) fn put_on<D: Desk<Note = N>>(
        &mut self,
        alloc: Global,
        desk: &mut D,
        case: &Case,
        interval: u32,
        name: &RowName,
        writing: Writing<'_>,
        made: Vec<Outgoing>,
    ) -> Result<Outcome, NodeFault>
        requires fits { Fits case.now (D.view desk.old) self.old }
        requires covers { interval_of case.now.topology name.now ≡ Some interval }
        requires part { name.now.part < parts_of case.now.topology }
        requires there { IsSome (held_at self.old.held interval) }
        requires may { IfSome (held_at self.old.held interval) (λ here. MayPut (D.view desk.old)
            name.now (row_held case.now.topology here name.now) writing) }

        ensures put { HasPutOn case.now (D.view desk.old) (D.view desk.new)
            interval name.now writing.entry made.items self.old self.new result }
        ensures number { self.new.number ≡ self.old.number }
        ensures sound { IsSound (D.view desk.new) }

        ensures kept { OnErr result (HasKept self.old self.new) }
        ensures looked { OnErr result (HasLooked (D.view desk.old) (D.view desk.new)) }

        ensures grown { HasGrown self.old.held (D.view desk.old) (D.view desk.new) }
        ensures marks { KeepsMarks (D.view desk.old) (D.view desk.new) }
        ensures loan { D.loan desk.new ≡ D.loan desk.old }
        ensures home { D.home desk.new ≡ D.home desk.old }
    {
        let (held, outbox) = (&mut self.held, &mut self.outbox);
        let written = write_made(
            held, outbox, alloc, desk, case, interval, name, writing, made,
        );
        desk.sound();
        match written {
            Ok(commit) => Ok(Outcome::Committed { commit }),
            Err(why) => self.yield_to(case, interval, why),
        }
    }
}
