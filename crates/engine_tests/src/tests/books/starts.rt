//! Books in which nothing has happened yet, and what such a book is shared by.
ghost use Rattle.std.specs.Prelude.{◌≡◌, ◌<◌, ◌≤◌, ◌^◌, [], None};
ghost use Rattle.shared_book.specs.Opening.{span};
ghost use Rattle.engine_tests.specs.TestSeats.{IsAtRest};

use crate::tests::made;
use book::Book;
use row_keeper::Keeper;
use run_history::Case;
use shared_book::{Seat, Shared};
use std::alloc::Global;
use std::process::Abort;

// A book of a case over a keeper, with room for so many entries.
pub(crate) fn started<'a, K: Keeper>(
    rt: &impl Abort,
    alloc: Global,
    case: &'a Case,
    keeper: K,
    limit: u64,
) -> Book<'a, K>
    requires limit { limit ≤ 2 ^ 32 }
    ensures case { result.case ≡ case.now }
    ensures empty { result.history ≡ [] }
    ensures rows { result.rows ≡ K.rows keeper }
{
    made(rt, Book::start(alloc, case, keeper, limit))
}

// A new book is shared among so many seats, and the first seat has the numbers of all.
pub(crate) fn shared_among<'a, K: Keeper>(
    rt: &impl Abort,
    alloc: Global,
    case: &'a Case,
    keeper: K,
    limit: u64,
    seats: u32,
) -> (Shared<'a, K>, Seat<K>)
    requires limit { limit ≤ 2 ^ 32 }
    requires some { 0 < seats }
    requires few { seats ≤ 17 }
    ensures case { result.0.case.now ≡ case.now }
    ensures rest { let table = result.0.table.shared in
        IsAtRest table.table_id result.0.case.now seats (span 0 seats) result.1.place }
    ensures first { result.1.number ≡ 0 }
    ensures untold { K.rows keeper ≡ None → result.1.place.me.0.basis.told ≡ None }
{
    let book = started(rt, alloc, case, keeper, limit);
    made(rt, Shared::start(alloc, book, seats))
}

// How many entries the history of a book has, which is let go here.
pub(crate) fn entries_in<K: Keeper>(book: Book<'_, K>) -> usize {
    let count = book.history().len();
    drop(book);
    count
}
