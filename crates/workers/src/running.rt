//! The rounds of a run.
ghost use Rattle.std.specs.Prelude.{◌≡◌, ◌⊎◌, ◌<◌, ◌≤◌, ◌+◌, ◌*◌, ◌∷◌, [], ℕ, Some, None, All, length, IfNone, IfSome};
ghost use Rattle.std.specs.Option.{is_some};
ghost use Rattle.mw_types.specs.Causes.{Rose};
ghost use Rattle.run_history.specs.Fences.{Begins};
ghost use Rattle.book.specs.OwnDesks.{telling};
ghost use Rattle.node.specs.Answers.{refusal_of};
ghost use Rattle.node.specs.Works.{IsWorkOf};
ghost use Rattle.plans.specs.Plans.{IsAction};
ghost use Rattle.shared_book.specs.Opening.{span};
ghost use Rattle.shared_book.specs.SharedDesks.{table_numbers};
ghost use Rattle.workers.specs.Actions.{IsActionOf};
ghost use Rattle.workers.specs.Claims.{AreQuiet, HaveBegun, HaveClaimedSome};
ghost use Rattle.workers.specs.Crews.{AllHavePasses, AreCalm, AreFresh, AreHealthy, AreWorkers, HasDone, IsFaulty};
ghost use Rattle.workers.specs.Rounds.{HasInjectedAll, IsDamageAt, claims_in, first_claims, rounds_room};
ghost use Rattle.workers.specs.Runs.{HasRun, HasRunPlain};
ghost use Rattle.workers.specs.Seats.{IsSeated};

use crate::acting::prepare;
use crate::boxes::boxes_for;
use crate::claiming::claim_all;
use crate::counts::{intervals_in, keeps_rules};
use crate::crew::Worker;
use crate::dealing::hire_all;
use crate::ended::Rounds;
use crate::joining::join_all;
use crate::mailbox::Mailbox;
use crate::office::Office;
use crate::rounding::{has_fault, one_round};
use book::Book;
use computations::Computation;
use mw_ports::Gate;
use node::NodeFault;
use plans::{Action, Actions};
use row_keeper::Keeper;
use run_history::Case;
use shared_book::{Note, Seat, Shared};
use std::alloc::Global;
use std::marker::Brand;
use std::sync::Wait;
use std::thread::Threads;

/// Shares a book among so many workers, has them claim all intervals and do so many rounds of work, in two threads
/// beside each other, and closes the book.
///
/// Interval i is first claimed by worker i mod `workers`. Before each round what a plan says of it is done, in the
/// order of its lines: what a worker held that crashes, or that stalled in the round before, is claimed by the next
/// worker. Messages go through one mailbox for each interval. The first fault ends the rounds, and what was appended
/// stands. What is in mailboxes at the end is lost, and so is what a worker has not written or sent.
/// At most 61 entries are appended, 61 more for each action and 6,000 a round for each worker.
///
/// Where no thread can be made the workers do their turns one after another. No clause says how many threads there
/// are, nor which messages go through mailboxes, nor what an action does beside claims.
pub fn rounds<'a, R, K, C, G>(
    rt: &R,
    alloc: Global,
    book: Book<'a, K>,
    case: &'a Case,
    work: &C,
    workers: u32,
    rounds: u32,
    actions: &Actions,
    gate: &G,
) -> Rounds<'a, K>
where
    R: Threads + Wait + Sync,
    K: Keeper + Send,
    C: Computation + Sync,
    G: Gate + Sync,
    requires case { book.case ≡ case.now }
    requires work { IsWorkOf case.now.topology (C.does work.now) }
    requires some { 0 < workers }
    requires few { workers ≤ 16 }
    requires rounds { rounds ≤ 1000 }
    requires actions { All (IsAction case.now.topology workers rounds) actions.now }

    ensures case { result.book.case ≡ book.entry.case }
    ensures limit { result.book.limit ≡ book.entry.limit }
    ensures tells { is_some result.book.rows ≡ is_some book.entry.rows }
    ensures grown { Begins book.entry.history result.book.history }
    ensures room { length result.book.history ≤ length book.entry.history
        + rounds_room workers rounds (length actions.now) }
    ensures faults { book.entry.faults ≤ result.book.faults }

    // An empty history begins with one claim of each interval; where a fault ends the claims, with some of them.
    ensures first { book.entry.history ≡ [] →
        Begins result.book.history (first_claims book.entry.case workers)
        ⊎ Begins (first_claims book.entry.case workers) result.book.history }
    ensures claimed { book.entry.history ≡ [] → IfNone result.fault
        (Begins (first_claims book.entry.case workers) result.book.history) }

    // Without a plan they are all its claims, and each injector has injected its lines, or 16 a round.
    ensures plain { book.entry.history ≡ [] → actions.now ≡ [] → IfNone result.fault
        (claims_in result.book.history ≡ first_claims book.entry.case workers) }
    ensures injected { IfSome book.entry.rows (λ _. book.entry.history ≡ [] → actions.now ≡ [] →
        IfNone result.fault (HasInjectedAll book.entry.case rounds result.book.history)) }

    // A fault has its cause. A row is damaged for as many entries as were seen when it was read.
    ensures keeper_fault { result.fault ≡ Some NodeFault.KeeperFault →
        Rose book.entry.faults result.book.faults }
    ensures full { result.fault ≡ Some NodeFault.HistoryFull →
        length result.book.history ≡ result.book.limit }
    ensures damaged { IfSome result.fault (λ why. (count : ℕ)
        × (count ≤ length result.book.history)
        × IsDamageAt book.entry.case (telling book.entry.rows) count (refusal_of why)) }
{
    match Shared::start(alloc, book, workers + 1) {
        Ok((shared, seat)) => {
            let mut seat = seat;
            let actions = actions.actions();
            let fault = shared_rounds::<R, K, C, G, Brand>(
                rt, alloc, &shared, case, &mut seat, work, gate, workers, rounds, actions,
            );
            Rounds {
                book: shared.close(seat),
                fault,
            }
        }
        Err(refusal) => Rounds {
            book: refusal.book,
            fault: Some(NodeFault::NoMemory),
        },
    }
}

// All memory is taken before the seats are dealt, so that no seat is lost.
fn shared_rounds<R, K, C, G, J>(
    rt: &R,
    alloc: Global,
    shared: &Shared<'_, K>,
    case: &Case,
    seat: &mut Seat<K>,
    work: &C,
    gate: &G,
    workers: u32,
    rounds: u32,
    actions: &[Action],
) -> Option<NodeFault>
where
    R: Threads + Wait + Sync,
    K: Keeper + Send,
    C: Computation + Sync,
    G: Gate + Sync,
    J: Office + Send + Sync,
    requires case { shared.now.case.now ≡ case.now }
    requires seated { IsSeated shared.now.table.shared.table_id case.now seat.old.place }
    requires number { seat.old.number ≡ 0 }
    requires numbers { seat.old.place.me.0.numbers ≡ span 0 (workers + 1) }
    requires seats { seat.old.place.me.0.basis.seats ≡ workers + 1 }
    requires fresh { seat.old.place.me.0.own ≡ [] }
    requires work { IsWorkOf case.now.topology (C.does work.now) }
    requires shape { case.now.topology ≡ J.shape }
    requires book { table_numbers shared.now.table.shared.table_id ≡ J.book }
    requires some { 0 < workers }
    requires few { workers ≤ 16 }
    requires rounds { rounds ≤ 1000 }
    requires actions { All (IsActionOf case.now.topology workers) actions.now }

    ensures seated { IsSeated shared.now.table.shared.table_id case.now seat.new.place }
    ensures run { HasRun case.now workers (rounds_room workers rounds (length actions.now))
        seat.old.place.me.0 seat.new.place.me.0 result }
    ensures quiet { actions.now ≡ [] → IfNone result
        (HasRunPlain workers rounds case.now seat.new.place.me.0) }
{
    let intervals = intervals_in(case);
    let Ok((boxes, passes)) = boxes_for::<Note<K>, J>(alloc, intervals, workers) else {
        return Some(NodeFault::NoMemory);
    };
    let mut crew = Vec::new(alloc);
    if crew.reserve(workers as usize).is_err() {
        return Some(NodeFault::NoMemory);
    }
    hire_all(alloc, shared, case, seat, passes, &mut crew);
    let boxes = boxes.as_slice();
    let all = crew.as_mut_slice();
    all_rounds(
        rt, alloc, shared, case, work, boxes, gate, all, actions, rounds,
    );
    join_all(shared, case, seat, crew)
}

// The first claims, and all rounds. It ends with the first fault, which a worker then has.
fn all_rounds<R, K, C, G, J>(
    rt: &R,
    alloc: Global,
    shared: &Shared<'_, K>,
    case: &Case,
    work: &C,
    boxes: &[Mailbox<Note<K>, J>],
    gate: &G,
    crew: &mut [Worker<K, J>],
    actions: &[Action],
    rounds: u32,
)
where
    R: Threads + Wait + Sync,
    K: Keeper + Send,
    C: Computation + Sync,
    G: Gate + Sync,
    J: Office + Send + Sync,
    requires case { shared.now.case.now ≡ case.now }
    requires workers { AreWorkers shared.now.table.shared.table_id case.now crew.old }
    requires healthy { AreHealthy crew.old }
    requires some { 0 < length crew.old }
    requires fresh { AreFresh crew.old }
    requires calm { AreCalm crew.old }
    requires work { IsWorkOf case.now.topology (C.does work.now) }
    requires shape { case.now.topology ≡ J.shape }
    requires book { table_numbers shared.now.table.shared.table_id ≡ J.book }
    requires passes { AllHavePasses case.now boxes.now crew.old }
    requires actions { All (IsActionOf case.now.topology (length crew.old)) actions.now }

    ensures workers { AreWorkers shared.now.table.shared.table_id case.now crew.new }
    ensures done { HasDone (rounds_room (length crew.old) rounds (length actions.now))
        crew.old crew.new }
    ensures first { HaveBegun (length crew.old) case.now crew.new
        ⊎ (IsFaulty crew.new × HaveClaimedSome (length crew.old) case.now crew.new) }
    ensures quiet { actions.now ≡ [] → AreHealthy crew.new →
        AreQuiet (length crew.old) case.now (16 * rounds) crew.new }
{
    // The rules of a topology say that each injector lies in an interval.
    keeps_rules(case);
    if !claim_all(rt, alloc, shared, case, crew) {
        return;
    }
    for round in 0..rounds {
        if !prepare(rt, alloc, shared, case, crew, actions, round) {
            return;
        }
        one_round(rt, alloc, shared, case, work, boxes, gate, crew);
        if has_fault(crew) {
            return;
        }
    }
}
