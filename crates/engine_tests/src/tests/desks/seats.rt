//! A worker over the desk of the one seat of a shared book, which comes back with what it appended.
ghost use Rattle.std.specs.Prelude.{◌≡◌, ◌∷◌, []};
ghost use Rattle.engine_tests.specs.TestSeats.{IsAtRest};

use super::acts::drive;
use super::example::Example;
use super::plays::{Row, Table};
use crate::tests::entries::has_left;
use crate::tests::made;
use book::Book;
use node::Node;
use row_keeper::Keeper;
use shared_book::{Seat, Shared, SharedDesk};
use std::alloc::Global;
use std::process::Abort;

// A worker at the desk of the one seat.
fn at_seat<K: Keeper>(
    rt: &impl Abort,
    alloc: Global,
    given: &Example,
    shared: &Shared<'_, K>,
    seat: &mut Seat<K>,
    table: Table<'_>,
)
    requires case { shared.now.case.now ≡ given.now.case }
    requires rest { let table = shared.now.table.shared in
        IsAtRest table.table_id shared.now.case.now 1 (0 ∷ []) seat.old.place }
    ensures rest { let table = shared.now.table.shared in
        IsAtRest table.table_id shared.now.case.now 1 (0 ∷ []) seat.new.place }
{
    let mut desk = SharedDesk::on(&*shared, seat);
    let mut node = Node::new(alloc, 0);
    drive(rt, alloc, given, &mut desk, &mut node, table);
    drop(node);
}

// A worker over a shared book of one seat, which comes back with what is wanted.
pub(crate) fn over_one_seat<K: Keeper>(
    rt: &impl Abort,
    alloc: Global,
    given: &Example,
    book: Book<'_, K>,
    row: &Row<'_>,
    table: Table<'_>,
)
    requires case { book.case ≡ given.now.case }
{
    let (shared, seat) = made(rt, Shared::start(alloc, book, 1));
    let mut seat = seat;
    at_seat(rt, alloc, given, &shared, &mut seat, table);
    let book = shared.close(seat);
    has_left(rt, &book, row.entries, &row.marks);
    drop(book);
}
