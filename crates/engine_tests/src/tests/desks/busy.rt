//! A worker at the desk of a seat while another seat has the turn: it is told so at once, nothing is
//! appended, and the same does it once the turn is given back.
ghost use Rattle.std.specs.Prelude.{◌≡◌, ◌∷◌, []};
ghost use Rattle.node.specs.Fits.{Fits};
ghost use Rattle.engine_tests.specs.TestSeats.{IsAtRest};

use super::acts::{Act, Answer, drive};
use super::example::Example;
use super::plays::{Acts, Kept, Play, Row, Table, Two, play_all};
use crate::tests::entries::Told;
use book::{Desk, Seen};
use node::Node;
use row_keeper::Keeper;
use shared_book::{Seat, Shared, SharedDesk};
use std::alloc::Global;
use std::process::Abort;

// The worker takes both intervals.
const BEFORE: Table<'static> = &[
    (Act::ClaimSource, Answer::Claimed(0)),
    (Act::ClaimCount, Answer::Claimed(1)),
];

// The word that is found is 1 more than the number of the seat that has the turn, which is 1. A report
// asks for no turn: the file states no watermark before its first line.
const DURING: Table<'static> = &[
    (Act::ClaimSource, Answer::Busy(2)),
    (Act::Inject, Answer::Busy(2)),
    (Act::ReportSource, Answer::Marked(0)),
];

// Afterwards the line is injected under the first lease, and its record is at 10.
const AFTER: Table<'static> = &[
    (Act::Inject, Answer::Committed(2)),
    (Act::ReportSource, Answer::Marked(10)),
];

// What those appended.
const ENTRIES: &[Told] = &[Told::Claim(0, 0), Told::Claim(0, 1), Told::Inject(0, 0)];

static ROWS: [Row<'static>; 1] = [Row {
    kept: Kept::InMemory(&[]),
    limit: 8,
    play: Play::Two(Two::Busy(Acts {
        before: BEFORE,
        between: DURING,
        after: AFTER,
    })),
    entries: ENTRIES,
    marks: [10, 0],
}];

// The worker acts while the other seat has the turn.
fn while_taken<K: Keeper, N: Seen, D: Desk<Note = N>>(
    rt: &impl Abort,
    alloc: Global,
    given: &Example,
    shared: &Shared<'_, K>,
    other: &mut Seat<K>,
    desk: &mut D,
    node: &mut Node<N>,
    during: Table<'_>,
)
    requires rest { let table = shared.now.table.shared in
        IsAtRest table.table_id shared.now.case.now 2 (1 ∷ []) other.old.place }
    requires fits { Fits given.now.case (D.view desk.old) node.old }
    ensures rest { let table = shared.now.table.shared in
        IsAtRest table.table_id shared.now.case.now 2 (1 ∷ []) other.new.place }
    ensures fits { Fits given.now.case (D.view desk.new) node.new }
    ensures loan { D.loan desk.new ≡ D.loan desk.old }
    ensures home { D.home desk.new ≡ D.home desk.old }
{
    match other.try_turn(&*shared) {
        Ok(turn) => {
            drive(rt, alloc, given, desk, node, during);
            turn.release();
        }
        Err(_) => rt.panic("no turn"),
    }
}

// The worker acts before, while the other seat has the turn, and after.
fn beside<K: Keeper, N: Seen, D: Desk<Note = N>>(
    rt: &impl Abort,
    alloc: Global,
    given: &Example,
    shared: &Shared<'_, K>,
    other: &mut Seat<K>,
    desk: &mut D,
    acts: Acts<'_>,
)
    requires rest { let table = shared.now.table.shared in
        IsAtRest table.table_id shared.now.case.now 2 (1 ∷ []) other.old.place }
    requires case { (D.view desk.old).case ≡ given.now.case }
    ensures rest { let table = shared.now.table.shared in
        IsAtRest table.table_id shared.now.case.now 2 (1 ∷ []) other.new.place }
    ensures case { (D.view desk.new).case ≡ given.now.case }
    ensures loan { D.loan desk.new ≡ D.loan desk.old }
    ensures home { D.home desk.new ≡ D.home desk.old }
{
    let mut node = Node::new(alloc, 0);
    drive(rt, alloc, given, desk, &mut node, acts.before);
    while_taken(
        rt,
        alloc,
        given,
        shared,
        other,
        desk,
        &mut node,
        acts.between,
    );
    drive(rt, alloc, given, desk, &mut node, acts.after);
    drop(node);
}

// The same, over the desk of a seat.
pub(crate) fn at_busy_seats<K: Keeper>(
    rt: &impl Abort,
    alloc: Global,
    given: &Example,
    shared: &Shared<'_, K>,
    one: &mut Seat<K>,
    other: &mut Seat<K>,
    acts: Acts<'_>,
)
    requires case { shared.now.case.now ≡ given.now.case }
    requires one { let table = shared.now.table.shared in
        IsAtRest table.table_id shared.now.case.now 2 (0 ∷ []) one.old.place }
    requires other { let table = shared.now.table.shared in
        IsAtRest table.table_id shared.now.case.now 2 (1 ∷ []) other.old.place }
    ensures one { let table = shared.now.table.shared in
        IsAtRest table.table_id shared.now.case.now 2 (0 ∷ []) one.new.place }
    ensures other { let table = shared.now.table.shared in
        IsAtRest table.table_id shared.now.case.now 2 (1 ∷ []) other.new.place }
{
    let mut desk = SharedDesk::on(&*shared, one);
    beside(rt, alloc, given, shared, other, &mut desk, acts);
}

#[test]
fn turn_of_another_is_busy(rt: HostRuntime) {
    play_all(&rt, rt.alloc(), &ROWS);
}
