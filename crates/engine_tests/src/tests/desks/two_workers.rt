//! Workers over the desks of two seats, and what stands in the book once the seats are joined.
ghost use Rattle.std.specs.Prelude.{◌≡◌, ◌∷◌, []};
ghost use Rattle.engine_tests.specs.TestSeats.{IsAtRest};

use super::acts::drive;
use super::busy::at_busy_seats;
use super::crossing::cross;
use super::example::Example;
use super::plays::{Acts, Row, Two};
use super::turns_of_work::at_turning_seats;
use crate::tests::entries::has_left;
use crate::tests::made;
use book::{Book, Desk, Seen};
use node::Node;
use row_keeper::Keeper;
use shared_book::{Seat, Shared, SharedDesk};
use std::alloc::Global;
use std::marker::Brand;
use std::process::Abort;
use std::sync::Wait;

// The first worker acts, then the second, and then the first again.
fn overtake<N: Seen, D: Desk<Note = N>>(
    rt: &impl Abort,
    alloc: Global,
    given: &Example,
    one: &mut D,
    other: &mut D,
    acts: Acts<'_>,
)
    requires one { (D.view one.old).case ≡ given.now.case }
    requires other { (D.view other.old).case ≡ given.now.case }
    ensures case { (D.view one.new).case ≡ given.now.case }
    ensures loan { D.loan one.new ≡ D.loan one.old }
    ensures home { D.home one.new ≡ D.home one.old }
    ensures other_case { (D.view other.new).case ≡ given.now.case }
    ensures other_loan { D.loan other.new ≡ D.loan other.old }
    ensures other_home { D.home other.new ≡ D.home other.old }
{
    let mut first = Node::new(alloc, 0);
    drive(rt, alloc, given, one, &mut first, acts.before);
    let mut second = Node::new(alloc, 1);
    drive(rt, alloc, given, other, &mut second, acts.between);
    drive(rt, alloc, given, one, &mut first, acts.after);
    drop(second);
    drop(first);
}

// What workers do over the desks of two seats.
fn at_seats<R: Wait + Abort, K: Keeper>(
    rt: &R,
    alloc: Global,
    given: &Example,
    shared: &Shared<'_, K>,
    one: &mut Seat<K>,
    other: &mut Seat<K>,
    two: Two<'_>,
)
    requires case { shared.now.case.now ≡ given.now.case }
    requires one { let table = shared.now.table.shared in
        IsAtRest table.table_id shared.now.case.now 2 (0 ∷ []) one.old.place }
    requires other { let table = shared.now.table.shared in
        IsAtRest table.table_id shared.now.case.now 2 (1 ∷ []) other.old.place }
    ensures one { let table = shared.now.table.shared in
        IsAtRest table.table_id shared.now.case.now 2 (0 ∷ []) one.new.place }
    ensures other { let table = shared.now.table.shared in
        IsAtRest table.table_id shared.now.case.now 2 (1 ∷ []) other.new.place }
{
    match two {
        Two::Busy(acts) => at_busy_seats(rt, alloc, given, shared, one, other, acts),
        Two::Overtaking(acts) => {
            let mut first = SharedDesk::on(&*shared, one);
            let mut second = SharedDesk::on(&*shared, other);
            overtake(rt, alloc, given, &mut first, &mut second, acts);
        }
        Two::Crossing(steps) => {
            let mut first = SharedDesk::on(&*shared, one);
            let mut second = SharedDesk::on(&*shared, other);
            cross(rt, alloc, given, &mut first, &mut second, steps);
        }
        Two::Turns => at_turning_seats::<R, K, Brand>(rt, alloc, given, shared, one, other),
    }
}

// Workers over a shared book of two seats, which are joined, and the book comes back.
pub(crate) fn over_two_seats<R: Wait + Abort, K: Keeper>(
    rt: &R,
    alloc: Global,
    given: &Example,
    book: Book<'_, K>,
    row: &Row<'_>,
    two: Two<'_>,
)
    requires case { book.case ≡ given.now.case }
{
    let (shared, seat) = made(rt, Shared::start(alloc, book, 2));
    let mut other = seat;
    let mut one = shared.deal(&mut other);
    at_seats(rt, alloc, given, &shared, &mut one, &mut other, two);
    shared.join(&mut other, one);
    let book = shared.close(other);
    has_left(rt, &book, row.entries, &row.marks);
    drop(book);
}
