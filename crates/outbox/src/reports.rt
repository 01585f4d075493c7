//! Reports of the own work of an interval that is held.
ghost use Rattle.std.specs.Prelude.{◌≡◌, ◌<◌, ◌≤◌, ℕ, true, IfErr, IfOk, IfSome, IsSome, OnErr, length};
ghost use Rattle.run_history.specs.Cases.{intervals_of};
ghost use Rattle.watermark.specs.Marks.{mark_of};
ghost use Rattle.book.specs.Desks.{HasLooked};
ghost use Rattle.holdings.specs.Holding.{AreAllHeld, IsRefusedOf, held_at};
ghost use Rattle.outbox.specs.Reports.{IsReportOf, IsUnreported};

use book::{Desk, DeskRefusal};
use holdings::Holdings;
use mw_types::NoMemory;
use run_history::Case;
use std::alloc::Global;

/// Reports the own work of an interval that is held: the oldest that is left in its rows. Answers the
/// interval's mark, in whole microseconds.
#[tactic(auto, using(book::proofs::Untried::untried_looked))]
pub fn report_work<D: Desk>(
    held: &mut Holdings,
    alloc: Global,
    desk: &mut D,
    case: &Case,
    interval: u32,
) -> Result<u64, DeskRefusal>
    requires case { (D.view desk.old).case ≡ case.now }
    requires fits { AreAllHeld case.now (D.view desk.old) held.old }
    requires there { IsSome (held_at held.old interval) }
    requires interval { interval < length (intervals_of case.now.topology) }

    ensures reported { IfOk result (λ mark. IfSome (held_at held.old interval) (λ here.
        IsReportOf case.now (D.view desk.old) (D.view desk.new) interval here mark)) }
    ensures same { held.new ≡ held.old }
    ensures looked { HasLooked (D.view desk.old) (D.view desk.new) }
    ensures reason { IfErr result
        (IsRefusedOf (D.view desk.old) (D.view desk.new) held.old interval) }
    ensures only { IfErr result IsUnreported }
    ensures rise { (i : ℕ) →
        mark_of (D.view desk.old).marks i ≤ mark_of (D.view desk.new).marks i }
    ensures unchanged { (D.view desk.old).alone ≡ true →
        OnErr result ((D.view desk.new).marks ≡ (D.view desk.old).marks) }
    ensures loan { D.loan desk.new ≡ D.loan desk.old }
    ensures home { D.home desk.new ≡ D.home desk.old }
{
    let own = match held.own_work(alloc, &*desk, case, interval) {
        Ok(own) => own,
        Err(NoMemory) => return Err(DeskRefusal::NoMemory),
    };
    desk.report(held.get(interval).unwrap().lease(), own)
}
