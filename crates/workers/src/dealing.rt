//! How workers get their seats.
ghost use Rattle.std.specs.Prelude.{◌≡◌, ◌<◌, ◌≤◌, ◌+◌, ◌∷◌, [], All, length};
ghost use Rattle.std.specs.Prelude.{vec_capacity};
ghost use Rattle.shared_book.specs.Opening.{span};
ghost use Rattle.workers.specs.Crews.{AreWorkers, IsWorker};
ghost use Rattle.workers.specs.Runs.{HasDealt, IsHired, passes_in};
ghost use Rattle.workers.specs.Seats.{IsSeated};

use crate::boxes::Passes;
use crate::crew::Worker;
use crate::office::Office;
use crate::orders::Orders;
use crate::pass_list::PassList;
use node::Node;
use row_keeper::Keeper;
use run_history::Case;
use shared_book::{Note, Seat, Shared};
use std::alloc::Global;

// A worker of this number with these passes, at a seat of its own, which is dealt to it.
fn hire<K: Keeper, J: Office>(
    alloc: Global,
    shared: &Shared<'_, K>,
    case: &Case,
    seat: &mut Seat<K>,
    passes: PassList<Note<K>, J>,
    number: u32,
    left: u32,
) -> Worker<K, J>
    requires case { shared.now.case.now ≡ case.now }
    requires seated { IsSeated shared.now.table.shared.table_id case.now seat.old.place }
    requires number { seat.old.number ≡ number }
    requires few { number < 16 }
    requires some { 0 < left }
    requires numbers { seat.old.place.me.0.numbers ≡ span number (left + 1) }

    ensures seated { IsSeated shared.now.table.shared.table_id case.now seat.new.place }
    ensures next { seat.new.number ≡ number + 1 }
    ensures numbers { seat.new.place.me.0.numbers ≡ span (number + 1) left }
    ensures dealt { HasDealt seat.old.place.me.0 seat.new.place.me.0 }
    ensures worker { IsWorker shared.now.table.shared.table_id case.now result }
    ensures its_number { result.node.number ≡ number }
    ensures hired { IsHired seat.old.place.me.0 result }
    ensures passes { result.passes ≡ passes }
{
    Worker {
        node: Node::new(alloc, number),
        seat: shared.deal(seat),
        passes,
        orders: Orders::plain(0),
        fault: None,
    }
}

// One worker for each list of passes. There is room for all of them.
pub(crate) fn hire_all<K: Keeper, J: Office>(
    alloc: Global,
    shared: &Shared<'_, K>,
    case: &Case,
    seat: &mut Seat<K>,
    passes: Passes<Note<K>, J>,
    crew: &mut Vec<Worker<K, J>>,
)
    requires case { shared.now.case.now ≡ case.now }
    requires seated { IsSeated shared.now.table.shared.table_id case.now seat.old.place }
    requires number { seat.old.number ≡ 0 }
    requires few { length passes.items ≤ 16 }
    requires numbers { seat.old.place.me.0.numbers ≡ span 0 (length passes.items + 1) }
    requires none { crew.old.items ≡ [] }
    requires room { length passes.items ≤ vec_capacity crew.old }

    ensures seated { IsSeated shared.now.table.shared.table_id case.now seat.new.place }
    ensures numbers { seat.new.place.me.0.numbers ≡ length passes.items ∷ [] }
    ensures dealt { HasDealt seat.old.place.me.0 seat.new.place.me.0 }
    ensures workers { AreWorkers shared.now.table.shared.table_id case.now crew.new.items }
    ensures many { length crew.new.items ≡ length passes.items }
    ensures hired { All (IsHired seat.old.place.me.0) crew.new.items }
    ensures passes { passes_in crew.new.items ≡ passes.items }
{
    let mut number = 0u32;
    let mut left = passes.len() as u32;
    for own in passes {
        let worker = hire(alloc, shared, case, seat, own, number, left);
        crew.push_reserved(worker);
        number += 1;
        left -= 1;
    }
}
