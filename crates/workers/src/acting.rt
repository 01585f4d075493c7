//! What a plan has happen before a round.
ghost use Rattle.std.specs.Prelude.{◌≡◌, ◌<◌, ◌≤◌, ◌+◌, ◌*◌, ◌∷◌, [], All, false, length, IsFalse, IsTrue};
ghost use Rattle.topology.specs.Rules.{interval_count};
ghost use Rattle.plans.specs.Plans.{IsWhat};
ghost use Rattle.workers.specs.Actions.{IsActionOf, acted};
ghost use Rattle.workers.specs.Crews.{AreCalm, AreHealthy, AreWorkers, HasDone, IsFaulty, KeepsOrders, KeepsPasses, StayCalm, spent, stall_of};

use crate::claiming::claim_one;
use crate::counts::intervals_in;
use crate::crew::Worker;
use crate::office::Office;
use node::Node;
use plans::{Action, What};
use row_keeper::Keeper;
use run_history::Case;
use shared_book::{Note, Shared};
use std::alloc::Global;
use std::sync::Wait;

// The intervals that a worker holds, of so many.
fn held_by<K: Keeper>(node: &Node<Note<K>>, intervals: u32) -> [bool; 61]
    requires few { intervals ≤ 61 }
{
    let mut held = [false; 61];
    for interval in 0..intervals {
        held[interval as usize] = node.holds(interval);
    }
    held
}

// A worker claims an interval, where it is asked to. False where that fails.
fn claim_where<K: Keeper, J: Office, R: Wait>(
    rt: &R,
    alloc: Global,
    shared: &Shared<'_, K>,
    case: &Case,
    crew: &mut [Worker<K, J>],
    at: usize,
    interval: u32,
    asked: bool,
) -> bool
    requires case { shared.now.case.now ≡ case.now }
    requires workers { AreWorkers shared.now.table.shared.table_id case.now crew.old }
    requires at { at < length crew.old }
    requires interval { interval < interval_count case.now.topology }

    ensures workers { AreWorkers shared.now.table.shared.table_id case.now crew.new }
    ensures done { HasDone 1 crew.old crew.new }
    ensures passes { KeepsPasses crew.old crew.new }
    ensures orders { KeepsOrders crew.old crew.new }
    ensures healthy { IsTrue result → AreHealthy crew.old → AreHealthy crew.new }
    ensures faulty { IsFalse result → IsFaulty crew.new }
{
    if asked {
        claim_one(rt, alloc, shared, case, crew, at, interval)
    } else {
        true
    }
}

// A worker claims these intervals. False where a claim fails.
fn claim_these<K: Keeper, J: Office, R: Wait>(
    rt: &R,
    alloc: Global,
    shared: &Shared<'_, K>,
    case: &Case,
    crew: &mut [Worker<K, J>],
    at: usize,
    these: &[bool; 61],
) -> bool
    requires case { shared.now.case.now ≡ case.now }
    requires workers { AreWorkers shared.now.table.shared.table_id case.now crew.old }
    requires at { at < length crew.old }

    ensures workers { AreWorkers shared.now.table.shared.table_id case.now crew.new }
    ensures done { HasDone 61 crew.old crew.new }
    ensures passes { KeepsPasses crew.old crew.new }
    ensures orders { KeepsOrders crew.old crew.new }
    ensures healthy { IsTrue result → AreHealthy crew.old → AreHealthy crew.new }
    ensures faulty { IsFalse result → IsFaulty crew.new }
{
    let intervals = intervals_in(case);
    for interval in 0..intervals {
        let asked = these[interval as usize];
        if !claim_where(rt, alloc, shared, case, crew, at, interval, asked) {
            return false;
        }
    }
    true
}

// A worker forgets all that it has.
fn crash_one<K: Keeper, J: Office>(
    shared: &Shared<'_, K>,
    case: &Case,
    crew: &mut [Worker<K, J>],
    at: usize,
)
    requires case { shared.now.case.now ≡ case.now }
    requires workers { AreWorkers shared.now.table.shared.table_id case.now crew.old }
    requires at { at < length crew.old }

    ensures workers { AreWorkers shared.now.table.shared.table_id case.now crew.new }
    ensures done { HasDone 0 crew.old crew.new }
    ensures passes { KeepsPasses crew.old crew.new }
    ensures orders { KeepsOrders crew.old crew.new }
    ensures healthy { AreHealthy crew.old → AreHealthy crew.new }
{
    crew[at].crash(case);
}

// A worker forgets all that it has, where it crashes.
fn crash_where<K: Keeper, J: Office>(
    shared: &Shared<'_, K>,
    case: &Case,
    crew: &mut [Worker<K, J>],
    at: usize,
    crashes: bool,
)
    requires case { shared.now.case.now ≡ case.now }
    requires workers { AreWorkers shared.now.table.shared.table_id case.now crew.old }
    requires at { at < length crew.old }

    ensures workers { AreWorkers shared.now.table.shared.table_id case.now crew.new }
    ensures done { HasDone 0 crew.old crew.new }
    ensures passes { KeepsPasses crew.old crew.new }
    ensures orders { KeepsOrders crew.old crew.new }
    ensures healthy { AreHealthy crew.old → AreHealthy crew.new }
{
    if crashes {
        crash_one(shared, case, crew, at);
    }
}

// What a worker holds is claimed by the next one; where it crashes it has forgotten all before. False where a claim
// fails.
fn hand_over<K: Keeper, J: Office, R: Wait>(
    rt: &R,
    alloc: Global,
    shared: &Shared<'_, K>,
    case: &Case,
    crew: &mut [Worker<K, J>],
    at: usize,
    crashes: bool,
) -> bool
    requires case { shared.now.case.now ≡ case.now }
    requires workers { AreWorkers shared.now.table.shared.table_id case.now crew.old }
    requires at { at < length crew.old }

    ensures workers { AreWorkers shared.now.table.shared.table_id case.now crew.new }
    ensures done { HasDone 61 crew.old crew.new }
    ensures passes { KeepsPasses crew.old crew.new }
    ensures orders { KeepsOrders crew.old crew.new }
    ensures healthy { IsTrue result → AreHealthy crew.old → AreHealthy crew.new }
    ensures faulty { IsFalse result → IsFaulty crew.new }
{
    let held = held_by(&crew[at].node, intervals_in(case));
    crash_where(shared, case, crew, at, crashes);
    let workers = crew.len();
    let next = (at + 1) % workers;
    claim_these(rt, alloc, shared, case, crew, next, &held)
}

// A worker gets the orders of a round. True where it stalled in the round before.
fn begin<K: Keeper, J: Office>(
    shared: &Shared<'_, K>,
    case: &Case,
    crew: &mut [Worker<K, J>],
    at: usize,
    round: u32,
) -> bool
    requires case { shared.now.case.now ≡ case.now }
    requires workers { AreWorkers shared.now.table.shared.table_id case.now crew.old }
    requires at { at < length crew.old }

    ensures workers { AreWorkers shared.now.table.shared.table_id case.now crew.new }
    ensures done { HasDone 0 crew.old crew.new }
    ensures passes { KeepsPasses crew.old crew.new }
    ensures healthy { AreHealthy crew.old → AreHealthy crew.new }
    ensures settled { spent crew.new + stall_of result ≤ spent crew.old }
    ensures stalls { AreCalm crew.old → result ≡ false }
    ensures calm { AreCalm crew.old → StayCalm crew.old crew.new }
{
    crew[at].begin(round)
}

// A worker gets the orders of a round, and what it holds is claimed by the next one where it stalled in the round
// before. False where a claim fails.
fn order<K: Keeper, J: Office, R: Wait>(
    rt: &R,
    alloc: Global,
    shared: &Shared<'_, K>,
    case: &Case,
    crew: &mut [Worker<K, J>],
    at: usize,
    round: u32,
) -> bool
    requires case { shared.now.case.now ≡ case.now }
    requires workers { AreWorkers shared.now.table.shared.table_id case.now crew.old }
    requires at { at < length crew.old }

    ensures workers { AreWorkers shared.now.table.shared.table_id case.now crew.new }
    ensures done { HasDone 0 crew.old crew.new }
    ensures passes { KeepsPasses crew.old crew.new }
    ensures healthy { IsTrue result → AreHealthy crew.old → AreHealthy crew.new }
    ensures faulty { IsFalse result → IsFaulty crew.new }
    ensures calm { AreCalm crew.old → StayCalm crew.old crew.new }
{
    if begin(shared, case, crew, at, round) {
        hand_over(rt, alloc, shared, case, crew, at, false)
    } else {
        true
    }
}

// Each worker gets the orders of a round. False where a claim fails.
fn order_all<K: Keeper, J: Office, R: Wait>(
    rt: &R,
    alloc: Global,
    shared: &Shared<'_, K>,
    case: &Case,
    crew: &mut [Worker<K, J>],
    round: u32,
) -> bool
    requires case { shared.now.case.now ≡ case.now }
    requires workers { AreWorkers shared.now.table.shared.table_id case.now crew.old }

    ensures workers { AreWorkers shared.now.table.shared.table_id case.now crew.new }
    ensures done { HasDone 0 crew.old crew.new }
    ensures passes { KeepsPasses crew.old crew.new }
    ensures healthy { IsTrue result → AreHealthy crew.old → AreHealthy crew.new }
    ensures faulty { IsFalse result → IsFaulty crew.new }
    ensures calm { AreCalm crew.old → StayCalm crew.old crew.new }
{
    for at in 0..crew.len() {
        if !order(rt, alloc, shared, case, crew, at, round) {
            return false;
        }
    }
    true
}

// A worker is asked to do what an action says of its turn of work.
fn ask<K: Keeper, J: Office>(
    shared: &Shared<'_, K>,
    case: &Case,
    crew: &mut [Worker<K, J>],
    at: usize,
    what: What,
)
    requires case { shared.now.case.now ≡ case.now }
    requires workers { AreWorkers shared.now.table.shared.table_id case.now crew.old }
    requires at { at < length crew.old }

    ensures workers { AreWorkers shared.now.table.shared.table_id case.now crew.new }
    ensures done { HasDone 61 crew.old crew.new }
    ensures passes { KeepsPasses crew.old crew.new }
    ensures healthy { AreHealthy crew.old → AreHealthy crew.new }
{
    crew[at].order(what);
}

// What happens to a worker by an action. False where a claim fails.
fn act<K: Keeper, J: Office, R: Wait>(
    rt: &R,
    alloc: Global,
    shared: &Shared<'_, K>,
    case: &Case,
    crew: &mut [Worker<K, J>],
    what: What,
) -> bool
    requires case { shared.now.case.now ≡ case.now }
    requires workers { AreWorkers shared.now.table.shared.table_id case.now crew.old }
    requires what { IsWhat case.now.topology (length crew.old) what }

    ensures workers { AreWorkers shared.now.table.shared.table_id case.now crew.new }
    ensures done { HasDone 61 crew.old crew.new }
    ensures passes { KeepsPasses crew.old crew.new }
    ensures healthy { IsTrue result → AreHealthy crew.old → AreHealthy crew.new }
    ensures faulty { IsFalse result → IsFaulty crew.new }
{
    match what {
        What::Crash { worker } => {
            hand_over(rt, alloc, shared, case, crew, worker as usize, true)
        }
        What::Move { interval, worker } => {
            claim_one(rt, alloc, shared, case, crew, worker as usize, interval)
        }
        What::Stall { worker }
        | What::Repeat { worker }
        | What::Lose { worker }
        | What::Hold { worker } => {
            ask(shared, case, crew, worker as usize, what);
            true
        }
    }
}

// An action is done in its round. False where a claim fails.
fn act_where<K: Keeper, J: Office, R: Wait>(
    rt: &R,
    alloc: Global,
    shared: &Shared<'_, K>,
    case: &Case,
    crew: &mut [Worker<K, J>],
    action: Action,
    round: u32,
) -> bool
    requires case { shared.now.case.now ≡ case.now }
    requires workers { AreWorkers shared.now.table.shared.table_id case.now crew.old }
    requires action { IsActionOf case.now.topology (length crew.old) action }

    ensures workers { AreWorkers shared.now.table.shared.table_id case.now crew.new }
    ensures done { HasDone (61 * acted round (action ∷ [])) crew.old crew.new }
    ensures passes { KeepsPasses crew.old crew.new }
    ensures healthy { IsTrue result → AreHealthy crew.old → AreHealthy crew.new }
    ensures faulty { IsFalse result → IsFaulty crew.new }
    ensures none { acted round (action ∷ []) ≡ 0 → crew.new ≡ crew.old }
{
    if action.round == round {
        act(rt, alloc, shared, case, crew, action.what)
    } else {
        true
    }
}

// The actions of a round are done, in their order. False where a claim fails.
fn act_all<K: Keeper, J: Office, R: Wait>(
    rt: &R,
    alloc: Global,
    shared: &Shared<'_, K>,
    case: &Case,
    crew: &mut [Worker<K, J>],
    actions: &[Action],
    round: u32,
) -> bool
    requires case { shared.now.case.now ≡ case.now }
    requires workers { AreWorkers shared.now.table.shared.table_id case.now crew.old }
    requires actions { All (IsActionOf case.now.topology (length crew.old)) actions.now }

    ensures workers { AreWorkers shared.now.table.shared.table_id case.now crew.new }
    ensures done { HasDone (61 * acted round actions.now) crew.old crew.new }
    ensures passes { KeepsPasses crew.old crew.new }
    ensures healthy { IsTrue result → AreHealthy crew.old → AreHealthy crew.new }
    ensures faulty { IsFalse result → IsFaulty crew.new }
    ensures none { acted round actions.now ≡ 0 → crew.new ≡ crew.old }
{
    for action in actions {
        if !act_where(rt, alloc, shared, case, crew, *action, round) {
            return false;
        }
    }
    true
}

// What is done before a round. False where a claim fails.
pub(crate) fn prepare<K: Keeper, J: Office, R: Wait>(
    rt: &R,
    alloc: Global,
    shared: &Shared<'_, K>,
    case: &Case,
    crew: &mut [Worker<K, J>],
    actions: &[Action],
    round: u32,
) -> bool
    requires case { shared.now.case.now ≡ case.now }
    requires workers { AreWorkers shared.now.table.shared.table_id case.now crew.old }
    requires actions { All (IsActionOf case.now.topology (length crew.old)) actions.now }

    ensures workers { AreWorkers shared.now.table.shared.table_id case.now crew.new }
    ensures done { HasDone (61 * acted round actions.now) crew.old crew.new }
    ensures passes { KeepsPasses crew.old crew.new }
    ensures healthy { IsTrue result → AreHealthy crew.old → AreHealthy crew.new }
    ensures faulty { IsFalse result → IsFaulty crew.new }
    ensures calm { IsTrue result → acted round actions.now ≡ 0 → AreCalm crew.old →
        StayCalm crew.old crew.new }
{
    if !order_all(rt, alloc, shared, case, crew, round) {
        return false;
    }
    act_all(rt, alloc, shared, case, crew, actions, round)
}
