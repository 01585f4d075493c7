//! Reports of own work.
ghost use Rattle.std.specs.Prelude.{◌≡◌, ◌<◌, ◌≤◌, ℕ, true, IfErr, IfOk, Ok, OnErr};
ghost use Rattle.topology.specs.Rules.{interval_count};
ghost use Rattle.watermark.specs.Marks.{mark_of};
ghost use Rattle.book.specs.Desks.{HasLooked};
ghost use Rattle.holdings.specs.Holding.{held_at};
ghost use Rattle.node.specs.Answers.{AnswersReport, FailsReport, HasGrown, HasKept};
ghost use Rattle.node.specs.Fits.{Fits};

use crate::node::Node;
use crate::outcome::{NodeFault, Outcome};
use book::{Desk, Seen};
use outbox::report_work;
use run_history::Case;
use std::alloc::Global;

impl<N: Seen> Node<N> {
    /// Reports the own work of an interval that it has, which may raise the interval's mark. It
    /// answers `Nothing` exactly where it has no lease of the interval.
    #[tactic(auto, using(crate::proofs::FitLaws::looked_not, crate::proofs::FitLaws::grown_looked))]
    pub fn report<D: Desk<Note = N>>(
        &mut self,
        alloc: Global,
        desk: &mut D,
        case: &Case,
        interval: u32,
    ) -> Result<Outcome, NodeFault>
        requires fits { Fits case.now (D.view desk.old) self.old }
        requires interval { interval < interval_count case.now.topology }

        ensures fits { Fits case.now (D.view desk.new) self.new }
        ensures answers { let held = held_at self.old.held interval in
            IfOk result (AnswersReport case.now
            (D.view desk.old) (D.view desk.new) held self.old self.new) }
        ensures number { self.new.number ≡ self.old.number }

        ensures kept { OnErr result (HasKept self.old self.new) }
        ensures fault { let held = held_at self.old.held interval in
            IfErr result (FailsReport (D.view desk.old) (D.view desk.new) held) }
        ensures memory { IfErr result (λ fault. fault ≡ NodeFault.NoMemory) }

        ensures looked { HasLooked (D.view desk.old) (D.view desk.new) }
        ensures grown { HasGrown self.old.held (D.view desk.old) (D.view desk.new) }
        ensures rise { (i : ℕ) →
            mark_of (D.view desk.old).marks i ≤ mark_of (D.view desk.new).marks i }
        ensures unchanged { (D.view desk.old).alone ≡ true →
            ((mark : ℕ) → result ≡ Ok (Outcome.Marked mark) → ⊥) →
            (D.view desk.new).marks ≡ (D.view desk.old).marks }
        ensures loan { D.loan desk.new ≡ D.loan desk.old }
        ensures home { D.home desk.new ≡ D.home desk.old }
    {
        desk.sound();
        if self.held.get(interval).is_none() {
            return Ok(Outcome::Nothing);
        }
        let _count = case.interval_count();
        let reported = report_work(&mut self.held, alloc, desk, case, interval);
        desk.sound();
        match reported {
            Ok(mark) => Ok(Outcome::Marked { mark }),
            Err(why) => self.yield_to(case, interval, why),
        }
    }
}
