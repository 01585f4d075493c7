//! How the seats of workers become one again.
ghost use Rattle.std.specs.Prelude.{◌≡◌, ◌<◌, All, IsSome, None, length};
ghost use Rattle.workers.specs.Crews.{AreWorkers, IsWorker};
ghost use Rattle.workers.specs.Runs.{HasTakenIn, IsFirstFault};
ghost use Rattle.workers.specs.Seats.{IsSeated};

use crate::crew::Worker;
use crate::office::Office;
use node::NodeFault;
use row_keeper::Keeper;
use run_history::Case;
use shared_book::{Seat, Shared};

// The fault of the first of two that has one.
fn first_of(one: Option<NodeFault>, other: Option<NodeFault>) -> Option<NodeFault>
    ensures first { IsSome one → result ≡ one }
    ensures other { one ≡ None → result ≡ other }
{
    match one {
        Some(why) => Some(why),
        None => other,
    }
}

// What a worker leaves: its seat, and its fault, where it has one.
fn leave<K: Keeper, J: Office>(worker: Worker<K, J>) -> (Seat<K>, Option<NodeFault>)
    ensures seat { result.0 ≡ worker.seat }
    ensures fault { result.1 ≡ worker.fault }
{
    let Worker { seat, fault, .. } = worker;
    (seat, fault)
}

// The seat takes in that of each worker, and the fault of the first worker that has one is answered.
pub(crate) fn join_all<K: Keeper, J: Office>(
    shared: &Shared<'_, K>,
    case: &Case,
    seat: &mut Seat<K>,
    crew: Vec<Worker<K, J>>,
) -> Option<NodeFault>
    requires case { shared.now.case.now ≡ case.now }
    requires seated { IsSeated shared.now.table.shared.table_id case.now seat.old.place }
    requires workers { AreWorkers shared.now.table.shared.table_id case.now crew.items }

    ensures seated { IsSeated shared.now.table.shared.table_id case.now seat.new.place }
    ensures taken { HasTakenIn seat.old.place.me.0 0 crew.items seat.new.place.me.0 }
    ensures fault { IsFirstFault crew.items result }
{
    let mut crew = crew;
    let mut first = None;
    while let Some(worker) = crew.pop() {
        let (other, fault) = leave(worker);
        shared.join(seat, other);
        first = first_of(fault, first);
    }
    first
}
