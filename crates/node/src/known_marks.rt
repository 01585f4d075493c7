//! The least mark of a part that a desk knows.
ghost use Rattle.std.specs.Prelude.{◌≡◌, ◌<◌, length};
ghost use Rattle.run_history.specs.Cases.{intervals_of};
ghost use Rattle.book.specs.Desks.{HasLooked, KeepsMarks};
ghost use Rattle.node.specs.Answers.{IsLeastKnown};
ghost use Rattle.node.specs.MarkSteps.{IsLesser};

use book::Desk;
use mw_types::END;
use run_history::Case;

// The least mark of a part's intervals, each as its desk knows it when it is asked.
#[tactic(auto, using(crate::proofs::FitLaws::looked_not))]
pub(crate) fn least_known<D: Desk>(desk: &mut D, case: &Case, part: u32) -> u64
    requires case { (D.view desk.old).case ≡ case.now }
    ensures known { IsLeastKnown case.now.topology part (D.view desk.old) (D.view desk.new) result }
    ensures looked { HasLooked (D.view desk.old) (D.view desk.new) }
    ensures marks { KeepsMarks (D.view desk.old) (D.view desk.new) }
    ensures loan { D.loan desk.new ≡ D.loan desk.old }
    ensures home { D.home desk.new ≡ D.home desk.old }
{
    desk.sound();
    let mut least = END;
    for interval in 0..case.interval_count() {
        let counts = case.bounds(interval).part == part;
        least = lesser(desk, interval, counts, least);
    }
    desk.sound();
    least
}

// The lesser of a mark and that of an interval, if that one counts.
#[tactic(auto, using(crate::proofs::FitLaws::looked_not))]
fn lesser<D: Desk>(desk: &mut D, interval: u32, counts: bool, least: u64) -> u64
    requires there { interval < length (intervals_of (D.view desk.old).case.topology) }
    ensures lesser { IsLesser counts interval
        (D.view desk.old).marks (D.view desk.new).marks least result }
    ensures looked { HasLooked (D.view desk.old) (D.view desk.new) }
    ensures marks { KeepsMarks (D.view desk.old) (D.view desk.new) }
    ensures loan { D.loan desk.new ≡ D.loan desk.old }
    ensures home { D.home desk.new ≡ D.home desk.old }
{
    if !counts {
        return least;
    }
    least.min(desk.mark(interval))
}
