//! A claim that is tried until nobody else has the turn.
ghost use Rattle.std.specs.Prelude.{◌≡◌, ◌<◌, ℕ, IfErr, IsFalse, IsTrue, OnErr, OnOk};
ghost use Rattle.topology.specs.Rules.{interval_count};
ghost use Rattle.node.specs.Fits.{Fits};
ghost use Rattle.workers.specs.Claims.{HasLeased};
ghost use Rattle.workers.specs.Crews.{HasClaimedOne, HasFaultCause, HasGoneOn};
ghost use Rattle.workers.specs.Tries.{IsClaimed};

use crate::waiting::wait;
use book::{Desk, Seen};
use node::{Node, NodeFault, Outcome};
use run_history::Case;
use std::alloc::Global;
use std::sync::Wait;

// Whether an interval was claimed.
fn is_claimed(outcome: &Outcome) -> bool
    ensures claimed { IsTrue result → IsClaimed outcome.now }
    ensures not_claimed { IsFalse result → IsClaimed outcome.now → ⊥ }
{
    match outcome {
        Outcome::Claimed { seq: _ } => true,
        _ => false,
    }
}

// A worker claims an interval.
pub(crate) fn claim<R: Wait, N: Seen, D: Desk<Note = N>>(
    rt: &R,
    alloc: Global,
    node: &mut Node<N>,
    desk: &mut D,
    case: &Case,
    interval: u32,
) -> Result<(), NodeFault>
    requires fits { Fits case.now (D.view desk.old) node.old }
    requires interval { interval < interval_count case.now.topology }

    ensures fits { Fits case.now (D.view desk.new) node.new }
    ensures number { node.new.number ≡ node.old.number }
    ensures went_on { HasGoneOn 1 (D.view desk.old) (D.view desk.new) }
    ensures claimed { OnOk result (HasClaimedOne node.old.number interval
        (D.view desk.old) (D.view desk.new)) }
    ensures leased { OnOk result ((seq : ℕ)
        × HasLeased interval seq node.old node.new (D.view desk.new)) }
    ensures own { OnErr result ((D.view desk.new).own ≡ (D.view desk.old).own) }
    ensures cause { IfErr result (HasFaultCause (D.view desk.new)) }
    ensures loan { D.loan desk.new ≡ D.loan desk.old }
    ensures home { D.home desk.new ≡ D.home desk.old }
{
    let mut waited = 0;
    for _ in rt.forever() {
        let outcome = node.claim(alloc, desk, case, interval)?;
        if is_claimed(&outcome) {
            return Ok(());
        }
        waited = wait(rt, waited);
    }
    unreachable!()
}
