//! The write of a work that is prepared.
ghost use Rattle.std.specs.Prelude.{◌≡◌, IfErr, IfOk, OnErr};
ghost use Rattle.book.specs.Desks.{HasLooked, KeepsMarks};
ghost use Rattle.node.specs.Answers.{AnswersAsked, FailsAsked, HasGrown, HasKept};
ghost use Rattle.node.specs.Asking.{work_asked};
ghost use Rattle.node.specs.Fits.{Fits};
ghost use Rattle.node.specs.Workers.{sending_of, with_written, worker_at};

use crate::node::Node;
use crate::outcome::{NodeFault, Outcome};
use crate::work::unprepared;
use book::{Desk, Seen};
use outbox::write_work;
use run_history::Case;
use std::alloc::Global;

impl<N: Seen> Node<N> {
    /// Writes what is prepared. Then word goes to the sender that its record was handled, and after that
    /// goes what the handler produced. It answers `Nothing` exactly where nothing is prepared.
    #[tactic(auto, using(crate::proofs::FitLaws::looked_not, crate::proofs::FitLaws::grown_looked, crate::proofs::FitLaws::fails_memory))]
    pub fn commit<D: Desk<Note = N>>(
        &mut self,
        alloc: Global,
        desk: &mut D,
        case: &Case,
    ) -> Result<Outcome, NodeFault>
        requires fits { Fits case.now (D.view desk.old) self.old }

        ensures fits { Fits case.now (D.view desk.new) self.new }
        ensures answers { let asked = work_asked case.now.topology self.old in
            let after = with_written (sending_of self.old) (worker_at self.old) in
            IfOk result (AnswersAsked case.now.topology
            (D.view desk.old) (D.view desk.new) asked after self.old self.new) }
        ensures number { self.new.number ≡ self.old.number }

        ensures kept { OnErr result (HasKept self.old self.new) }
        ensures looked { OnErr result (HasLooked (D.view desk.old) (D.view desk.new)) }
        ensures fault { let asked = work_asked case.now.topology self.old in
            IfErr result (FailsAsked (D.view desk.old) (D.view desk.new) asked) }

        ensures grown { HasGrown self.old.held (D.view desk.old) (D.view desk.new) }
        ensures marks { KeepsMarks (D.view desk.old) (D.view desk.new) }
        ensures loan { D.loan desk.new ≡ D.loan desk.old }
        ensures home { D.home desk.new ≡ D.home desk.old }
    {
        let Some(work) = &self.prepared else {
            return Ok(Outcome::Nothing);
        };
        let parts = work.parts();
        let interval = case.interval_of(&parts.0.to);
        let (held, outbox) = (&mut self.held, &mut self.outbox);
        let (sender, proposal) = (&work.sender, &work.proposal);
        let written = write_work(
            held, outbox, alloc, desk, case, interval, sender, proposal, parts,
        );
        desk.sound();
        match written {
            Ok(commit) => {
                unprepared(&mut self.prepared);
                Ok(Outcome::Committed { commit })
            }
            Err(why) => self.yield_to(case, interval, why),
        }
    }
}
