//! Claims of intervals.
ghost use Rattle.std.specs.Prelude.{◌≡◌, ◌<◌, IfErr, IfOk, OnErr};
ghost use Rattle.topology.specs.Rules.{interval_count};
ghost use Rattle.book.specs.DeskReasons.{HasClaimReason};
ghost use Rattle.book.specs.Desks.{HasLooked, KeepsMarks};
ghost use Rattle.node.specs.Answers.{AnswersClaim, HasGrown, HasKept, refusal_of};
ghost use Rattle.node.specs.Fits.{Fits};

use crate::node::Node;
use crate::outcome::{NodeFault, Outcome};
use crate::yields::refused;
use book::{Desk, Seen};
use run_history::Case;
use std::alloc::Global;

impl<N: Seen> Node<N> {
    /// Takes an interval, whose rows it then has. Every earlier lease of it is stale after that,
    /// and what this worker had of it is replaced.
    #[tactic(auto, using(crate::proofs::FitLaws::looked_not, crate::proofs::FitLaws::grown_looked))]
    pub fn claim<D: Desk<Note = N>>(
        &mut self,
        alloc: Global,
        desk: &mut D,
        case: &Case,
        interval: u32,
    ) -> Result<Outcome, NodeFault>
        requires fits { Fits case.now (D.view desk.old) self.old }
        requires interval { interval < interval_count case.now.topology }

        ensures fits { Fits case.now (D.view desk.new) self.new }
        ensures answers { IfOk result (AnswersClaim case.now.topology
            (D.view desk.old) (D.view desk.new) interval self.old self.new) }
        ensures number { self.new.number ≡ self.old.number }

        ensures kept { OnErr result (HasKept self.old self.new) }
        ensures looked { OnErr result (HasLooked (D.view desk.old) (D.view desk.new)) }
        ensures fault { IfErr result (λ fault.
            HasClaimReason (D.view desk.old) (D.view desk.new) (refusal_of fault)) }

        ensures grown { HasGrown self.old.held (D.view desk.old) (D.view desk.new) }
        ensures marks { KeepsMarks (D.view desk.old) (D.view desk.new) }
        ensures loan { D.loan desk.new ≡ D.loan desk.old }
        ensures home { D.home desk.new ≡ D.home desk.old }
    {
        match self.held.claim(alloc, desk, case, self.number, interval) {
            Ok(seq) => {
                self.unprepare(case, interval);
                Ok(Outcome::Claimed { seq })
            }
            Err(why) => refused(why),
        }
    }
}
