//! The first claims, one of each interval.
ghost use Rattle.std.specs.Prelude.{◌≡◌, ◌<◌, ◌+◌, ◌%◌, length, IsFalse, IsTrue};
ghost use Rattle.topology.specs.Rules.{interval_count};
ghost use Rattle.run_history.specs.Cases.{intervals_of};
ghost use Rattle.workers.specs.Claims.{HasClaimedTo, HaveClaimedOnly, HaveClaimedSome, HoldFirst, LeasesOne, claimed_by};
ghost use Rattle.workers.specs.Crews.{AreFresh, AreHealthy, AreWorkers, ClaimsOne, HasDone, IsFaulty, KeepsOrders, KeepsOwn, KeepsPasses, OthersStay};

use crate::counts::intervals_in;
use crate::crew::Worker;
use crate::office::Office;
use crate::telling::{tell, tell_all};
use row_keeper::Keeper;
use run_history::Case;
use shared_book::Shared;
use std::alloc::Global;
use std::sync::Wait;

// One worker claims an interval. False where that fails.
pub(crate) fn claim_one<K: Keeper, J: Office, R: Wait>(
    rt: &R,
    alloc: Global,
    shared: &Shared<'_, K>,
    case: &Case,
    crew: &mut [Worker<K, J>],
    at: usize,
    interval: u32,
) -> bool
    requires case { shared.now.case.now ≡ case.now }
    requires workers { AreWorkers shared.now.table.shared.table_id case.now crew.old }
    requires at { at < length crew.old }
    requires interval { interval < interval_count case.now.topology }

    ensures workers { AreWorkers shared.now.table.shared.table_id case.now crew.new }
    ensures done { HasDone 1 crew.old crew.new }
    ensures passes { KeepsPasses crew.old crew.new }
    ensures orders { KeepsOrders crew.old crew.new }
    ensures others { OthersStay at crew.old crew.new }
    ensures claimed { IsTrue result → ClaimsOne at interval crew.old crew.new }
    ensures leased { IsTrue result → LeasesOne at interval crew.old crew.new }
    ensures healthy { IsTrue result → AreHealthy crew.old → AreHealthy crew.new }
    ensures own { IsFalse result → KeepsOwn crew.old crew.new }
    ensures faulty { IsFalse result → IsFaulty crew.new }
{
    crew[at].claim(rt, alloc, shared, case, interval)
}

// An interval is claimed by the worker that its number names, once that has seen what the last claimer has seen.
fn claim_next<K: Keeper, J: Office, R: Wait>(
    rt: &R,
    alloc: Global,
    shared: &Shared<'_, K>,
    case: &Case,
    crew: &mut [Worker<K, J>],
    last: usize,
    interval: u32,
) -> bool
    requires case { shared.now.case.now ≡ case.now }
    requires workers { AreWorkers shared.now.table.shared.table_id case.now crew.old }
    requires healthy { AreHealthy crew.old }
    requires last { last < length crew.old }
    requires interval { interval < interval_count case.now.topology }
    requires claimed { HasClaimedTo (length crew.old) interval last crew.old }

    ensures workers { AreWorkers shared.now.table.shared.table_id case.now crew.new }
    ensures done { HasDone 1 crew.old crew.new }
    ensures passes { KeepsPasses crew.old crew.new }
    ensures orders { KeepsOrders crew.old crew.new }
    ensures claimed { HasClaimedTo (length crew.old) (claimed_by result interval)
        (interval % length crew.old) crew.new }
    ensures held { IsTrue result → HoldFirst interval crew.old →
        HoldFirst (interval + 1) crew.new }
    ensures healthy { IsTrue result → AreHealthy crew.new }
    ensures faulty { IsFalse result → IsFaulty crew.new }
{
    let at = interval as usize % crew.len();
    tell(shared, case, crew, last, at);
    claim_one(rt, alloc, shared, case, crew, at, interval)
}

// Each interval is claimed, and each worker comes to see all claims. False where a claim fails.
pub(crate) fn claim_all<K: Keeper, J: Office, R: Wait>(
    rt: &R,
    alloc: Global,
    shared: &Shared<'_, K>,
    case: &Case,
    crew: &mut [Worker<K, J>],
) -> bool
    requires case { shared.now.case.now ≡ case.now }
    requires workers { AreWorkers shared.now.table.shared.table_id case.now crew.old }
    requires healthy { AreHealthy crew.old }
    requires some { 0 < length crew.old }
    requires fresh { AreFresh crew.old }

    ensures workers { AreWorkers shared.now.table.shared.table_id case.now crew.new }
    ensures done { HasDone 61 crew.old crew.new }
    ensures passes { KeepsPasses crew.old crew.new }
    ensures orders { KeepsOrders crew.old crew.new }
    ensures only { IsTrue result → HaveClaimedOnly (length crew.old) case.now crew.new }
    ensures held { IsTrue result →
        HoldFirst (length (intervals_of case.now.topology)) crew.new }
    ensures healthy { IsTrue result → AreHealthy crew.new }
    ensures some { IsFalse result → HaveClaimedSome (length crew.old) case.now crew.new }
    ensures faulty { IsFalse result → IsFaulty crew.new }
{
    let mut last = 0;
    let intervals = intervals_in(case);
    for interval in 0..intervals {
        if !claim_next(rt, alloc, shared, case, crew, last, interval) {
            return false;
        }
        last = interval as usize % crew.len();
    }
    tell_all(shared, case, crew, last);
    true
}
