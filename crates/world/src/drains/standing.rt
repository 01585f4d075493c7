//! How a record stands that a row has pending.
ghost use Rattle.std.specs.Prelude.{◌≡◌, ◌≤◌, IfOk, Some, option_copied};
ghost use Rattle.mw_types.specs.declared.TheConstants.{MAX_STAMP};
ghost use Rattle.run_history.specs.Fences.{interval_of};
ghost use Rattle.run_history.specs.Runs.{run_of};
ghost use Rattle.outbox.specs.Messages.{IsComputation};
ghost use Rattle.node.specs.Works.{IsStateThere, IsWorkOf, row_or_fresh};
ghost use Rattle.world.specs.drains.Drains.{is_full};
ghost use Rattle.world.specs.drains.Standings.{IsStandingIn, StandsIn};
ghost use Rattle.world.specs.drains.Turns.{IsAtWork, worker_of};

use crate::drains::least_work::row_of;
use book::Book;
use computations::Computation;
use holdings::Holdings;
use mw_types::{Delivery, Effects, NoMemory};
use node::handled;
use row_keeper::Keeper;
use row_parts::Row;
use run_history::first_row;
use std::alloc::Global;

// What is to be done about a record that a row has pending.
#[derive(Drop)]
pub(crate) enum Standing {
    // It is finished in its row.
    Finished,
    // Its row forgets ids first.
    Full,
    // It was handled, and that is to be written.
    Handled {
        // What its computation left.
        effects: Effects,
    },
}

// How a record stands in its row as that is held; one that is to be handled is handled.
pub(crate) fn standing_of<'a, K: Keeper, C: Computation>(
    alloc: Global,
    book: &Book<'a, K>,
    work: &C,
    held: &Holdings,
    interval: u32,
    delivery: &Delivery,
) -> Result<Standing, NoMemory>
    requires work { IsWorkOf book.now.case.topology (C.does work.now) }
    requires at_work { IsAtWork book.now (worker_of held.now) }
    requires computation { IsComputation book.now.case.topology delivery.now.to.part }
    requires covers { interval_of book.now.case.topology delivery.now.to ≡ Some interval }
    requires stamp { delivery.now.item.stamp ≤ MAX_STAMP }
    ensures stands { IfOk result (StandsIn book.now held.now interval delivery.now) }
{
    let row = row_of(held, interval, &delivery.to);
    standing_at(alloc, book, work, row, delivery)
}

// How a record stands in a row, or in a new one where none is there.
fn standing_at<'a, K: Keeper, C: Computation>(
    alloc: Global,
    book: &Book<'a, K>,
    work: &C,
    row: Option<&Row>,
    delivery: &Delivery,
) -> Result<Standing, NoMemory>
    requires work { IsWorkOf book.now.case.topology (C.does work.now) }
    requires there { let shape = book.now.case.topology in let part = delivery.now.to.part in
        IsStateThere shape part (row_or_fresh shape part (option_copied row)).state }
    requires stamp { delivery.now.item.stamp ≤ MAX_STAMP }
    ensures stands { let shape = book.now.case.topology in
        let found = row_or_fresh shape delivery.now.to.part (option_copied row.entry) in
        IfOk result
        (IsStandingIn book.now.case (run_of shape book.now.history) found delivery.now) }
{
    match row {
        Some(row) => standing_in(alloc, book, work, row, delivery),
        None => {
            let row = first_row(alloc, book.case(), delivery.to.part);
            let found = standing_in(alloc, book, work, &row, delivery);
            drop(row);
            found
        }
    }
}

// How a record stands in a row.
fn standing_in<'a, K: Keeper, C: Computation>(
    alloc: Global,
    book: &Book<'a, K>,
    work: &C,
    row: &Row,
    delivery: &Delivery,
) -> Result<Standing, NoMemory>
    requires work { IsWorkOf book.now.case.topology (C.does work.now) }
    requires there { IsStateThere book.now.case.topology delivery.now.to.part row.now.state }
    requires stamp { delivery.now.item.stamp ≤ MAX_STAMP }
    ensures stands { let run = run_of book.now.case.topology book.now.history in
        IfOk result (IsStandingIn book.now.case run row.now delivery.now) }
{
    if row.is_finished(delivery.id) {
        return Ok(Standing::Finished);
    }
    if is_full(book, row) {
        return Ok(Standing::Full);
    }
    let effects = handled(alloc, work, book.case(), &delivery.to, row, &delivery.item)?;
    Ok(Standing::Handled { effects })
}

// Whether a row has 64 ids or more, and can forget some.
fn is_full<'a, K: Keeper>(book: &Book<'a, K>, row: &Row) -> bool
    ensures { result ≡ is_full (run_of book.now.case.topology book.now.history) row.now }
{
    64 <= row.seen.len() && row.floor < book.floor()
}
