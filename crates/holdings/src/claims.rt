//! Claims of intervals, and what holds beside a worker that acts.
ghost use Rattle.std.specs.Prelude.{◌≡◌, IfErr, IfOk, List, OnErr, Option};
ghost use Rattle.run_history.specs.Cases.{CaseShape};
ghost use Rattle.run_history.specs.Legal.{MayClaim};
ghost use Rattle.book.specs.DeskReasons.{HasClaimReason};
ghost use Rattle.book.specs.Desks.{DeskView, HasLooked, IsSound, KeepsMarks};
ghost use Rattle.holdings.specs.Holding.{AreAllHeld, HasSeenOthers, HeldView, HoldsClaim, KeepsHeld};

use crate::held::Held;
use crate::holdings::Holdings;
use crate::indexed::Indexed;
use book::{Claimed, Desk, DeskRefusal};
use run_history::Case;
use std::alloc::Global;

impl Holdings {
    /// A worker takes an interval, and holds what the claim answers: the lease, and the rows that
    /// lie there. Answers the lease's sequencer.
    #[tactic(auto, using(book::proofs::Untried::untried_looked))]
    pub fn claim<D: Desk>(
        &mut self,
        alloc: Global,
        desk: &mut D,
        case: &Case,
        worker: u32,
        interval: u32,
    ) -> Result<u64, DeskRefusal>
        requires case { (D.view desk.old).case ≡ case.now }
        requires fits { AreAllHeld case.now (D.view desk.old) self.old }
        requires may { MayClaim case.now worker interval }

        ensures fits { AreAllHeld case.now (D.view desk.new) self.new }
        ensures claimed { IfOk result (λ seq.
            HoldsClaim (D.view desk.old) (D.view desk.new) worker interval seq self.old self.new) }

        ensures kept { OnErr result (KeepsHeld case.now.topology self.old self.new) }
        ensures looked { OnErr result (HasLooked (D.view desk.old) (D.view desk.new)) }
        ensures reason { IfErr result (HasClaimReason (D.view desk.old) (D.view desk.new)) }
        ensures marks { KeepsMarks (D.view desk.old) (D.view desk.new) }
        ensures loan { D.loan desk.new ≡ D.loan desk.old }
        ensures home { D.home desk.new ≡ D.home desk.old }
    {
        // The place comes first: once the desk has answered, no memory may be wanted.
        self.make_room(interval)?;
        desk.sound();
        let _count = case.interval_count();
        let _bounds = case.bounds(interval);
        let claimed = desk.claim(alloc, worker, interval);
        desk.sound();
        let Claimed { lease, rows } = claimed?;
        let seq = lease.seq();
        let rows = Indexed::of(alloc, rows);
        self.hold(interval, Held { lease, rows });
        Ok(seq)
    }
}

/// What is held fits beside another worker that acts: a desk may come to see more, of which nothing
/// was written under a lease that is held. It does nothing when it runs.
pub fn fits_beside()
    ensures beside { (case : CaseShape) (old new : DeskView) (all : List (Option HeldView)) →
        IsSound old → IsSound new → old.case ≡ case → HasSeenOthers old new all →
        AreAllHeld case old all → AreAllHeld case new all }
{}
