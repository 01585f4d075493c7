//! Two workers in their turns of work, of which one has the injector and the other the count: the
//! count's timer fires, since each turn loads the marks that the other worker has reported.
ghost use Rattle.std.specs.Prelude.{◌≡◌, ◌<◌, ◌≤◌, ◌∷◌, [], length};
ghost use Rattle.crossbeam_queue.specs.Passes.{IsPassOf};
ghost use Rattle.run_history.specs.Cases.{intervals_of};
ghost use Rattle.node.specs.Fits.{Fits};
ghost use Rattle.shared_book.specs.SharedDesks.{shared_home, shared_view, table_numbers};
ghost use Rattle.workers.specs.Passing.{ArePasses};
ghost use Rattle.engine_tests.specs.TestSeats.{IsAtRest};

use super::acts::{Act, Answer, drive};
use super::example::Example;
use super::plays::{Kept, Play, Row, Table, Two, play_all};
use crate::tests::entries::Told;
use crate::tests::made;
use book::Seen;
use mw_ports::OpenGate;
use mw_types::END;
use node::Node;
use row_keeper::Keeper;
use shared_book::{Note, Seat, Shared, SharedDesk};
use std::alloc::Global;
use std::process::Abort;
use std::sync::Wait;
use workers::{MailPass, Mailbox, Office, Orders, slice};

// What each worker does first.
const SOURCE: Table<'static> = &[(Act::ClaimSource, Answer::Claimed(0))];

const COUNT: Table<'static> = &[(Act::ClaimCount, Answer::Claimed(1))];

// Both lines are injected in the first turn, as entries 2 and 3, whose records are handled in the other worker's
// first turn, and the words of that are settled in the second. Then the injector is at its end, which the count
// knows by its second turn. None of its timers is due there until it reports: the end of its first window, at 60,
// then that of the second, at 120. So both fire in that turn, and nothing is left.
static ROWS: [Row<'static>; 1] = [Row {
    kept: Kept::InMemory(&[]),
    limit: 64,
    play: Play::Two(Two::Turns),
    entries: &[
        Told::Claim(0, 0),
        Told::Claim(1, 1),
        Told::Inject(0, 0),
        Told::Inject(0, 1),
        Told::Handle(1, 2),
        Told::Handle(1, 3),
        Told::Ack(0, 2),
        Told::Ack(0, 3),
        Told::Fire(1, 60),
        Told::Fire(1, 120),
    ],
    marks: [END, END],
}];

// A mailbox with room for so many messages, and its one pass.
pub(crate) fn mailbox<N: Seen, J: Office>(
    rt: &impl Abort,
    alloc: Global,
    room: u32,
) -> (Mailbox<N, J>, MailPass<N, J>)
    requires room { 0 < room }
    requires small { room ≤ 1024 }
    ensures { IsPassOf result.0.line result.1.pass }
{
    let (mailbox, mut passes) = made(rt, Mailbox::new(alloc, room, 1));
    match passes.pop() {
        Some(pass) => (mailbox, pass),
        None => rt.panic("no pass"),
    }
}

// A worker does a turn of work.
fn turn<R: Wait + Abort, K: Keeper, J: Office>(
    rt: &R,
    alloc: Global,
    given: &Example,
    desk: &mut SharedDesk<'_, '_, K>,
    node: &mut Node<Note<K>>,
    boxes: &[Mailbox<Note<K>, J>],
    passes: &mut [MailPass<Note<K>, J>],
    round: u32,
)
    requires shape { given.now.case.topology ≡ J.shape }
    requires passes { let count = length (intervals_of given.now.case.topology) in
        ArePasses count boxes.now passes.old }
    requires book { (shared_home desk.old.seat.now.place).book ≡ J.book }
    requires fits { Fits given.now.case
        (shared_view desk.old.seat.now.place.me.0) node.old }
    ensures passes { let count = length (intervals_of given.now.case.topology) in
        ArePasses count boxes.now passes.new }
    ensures fits { Fits given.now.case
        (shared_view desk.new.seat.now.place.me.0) node.new }
    ensures loan { desk.new.seat.ghost_name ≡ desk.old.seat.ghost_name }
    ensures home { shared_home desk.new.seat.now.place ≡ shared_home desk.old.seat.now.place }
{
    let (case, work) = (&given.case, given.work());
    let orders = Orders::plain(round);
    made(
        rt,
        slice(
            rt, alloc, node, desk, case, work, boxes, passes, &orders, &OpenGate,
        ),
    );
}

// Each worker in turn, three times.
fn turns<R: Wait + Abort, K: Keeper, J: Office>(
    rt: &R,
    alloc: Global,
    given: &Example,
    one: &mut SharedDesk<'_, '_, K>,
    first: &mut Node<Note<K>>,
    other: &mut SharedDesk<'_, '_, K>,
    second: &mut Node<Note<K>>,
    boxes: &[Mailbox<Note<K>, J>],
    passes: &mut [MailPass<Note<K>, J>],
)
    requires shape { given.now.case.topology ≡ J.shape }
    requires passes { let count = length (intervals_of given.now.case.topology) in
        ArePasses count boxes.now passes.old }
    requires book { (shared_home one.old.seat.now.place).book ≡ J.book }
    requires other_book { (shared_home other.old.seat.now.place).book ≡ J.book }
    requires first { Fits given.now.case
        (shared_view one.old.seat.now.place.me.0) first.old }
    requires second { Fits given.now.case
        (shared_view other.old.seat.now.place.me.0) second.old }
    ensures first { Fits given.now.case
        (shared_view one.new.seat.now.place.me.0) first.new }
    ensures loan { one.new.seat.ghost_name ≡ one.old.seat.ghost_name }
    ensures home { shared_home one.new.seat.now.place ≡ shared_home one.old.seat.now.place }
    ensures second { Fits given.now.case
        (shared_view other.new.seat.now.place.me.0) second.new }
    ensures other_loan { other.new.seat.ghost_name ≡ other.old.seat.ghost_name }
    ensures other_home { shared_home other.new.seat.now.place
        ≡ shared_home other.old.seat.now.place }
{
    for round in 1..4u32 {
        turn(rt, alloc, given, one, first, boxes, passes, round);
        turn(rt, alloc, given, other, second, boxes, passes, round);
    }
}

// Each worker claims its interval, and then they do their turns.
fn work<R: Wait + Abort, K: Keeper, J: Office>(
    rt: &R,
    alloc: Global,
    given: &Example,
    one: &mut SharedDesk<'_, '_, K>,
    other: &mut SharedDesk<'_, '_, K>,
    boxes: &[Mailbox<Note<K>, J>],
    passes: &mut [MailPass<Note<K>, J>],
)
    requires shape { given.now.case.topology ≡ J.shape }
    requires passes { let count = length (intervals_of given.now.case.topology) in
        ArePasses count boxes.now passes.old }
    requires book { (shared_home one.old.seat.now.place).book ≡ J.book }
    requires other_book { (shared_home other.old.seat.now.place).book ≡ J.book }
    requires one { one.old.seat.now.place.me.0.basis.case ≡ given.now.case }
    requires other { other.old.seat.now.place.me.0.basis.case ≡ given.now.case }
    ensures case { one.new.seat.now.place.me.0.basis.case ≡ given.now.case }
    ensures loan { one.new.seat.ghost_name ≡ one.old.seat.ghost_name }
    ensures home { shared_home one.new.seat.now.place ≡ shared_home one.old.seat.now.place }
    ensures other_case { other.new.seat.now.place.me.0.basis.case ≡ given.now.case }
    ensures other_loan { other.new.seat.ghost_name ≡ other.old.seat.ghost_name }
    ensures other_home { shared_home other.new.seat.now.place
        ≡ shared_home other.old.seat.now.place }
{
    let mut first = Node::new(alloc, 0);
    drive(rt, alloc, given, one, &mut first, SOURCE);
    let mut second = Node::new(alloc, 1);
    drive(rt, alloc, given, other, &mut second, COUNT);
    turns(
        rt,
        alloc,
        given,
        one,
        &mut first,
        other,
        &mut second,
        boxes,
        passes,
    );
    drop(second);
    drop(first);
}

// The same over the desks of two seats. The mailboxes are those of the book.
pub(crate) fn at_turning_seats<R: Wait + Abort, K: Keeper, J: Office>(
    rt: &R,
    alloc: Global,
    given: &Example,
    shared: &Shared<'_, K>,
    one: &mut Seat<K>,
    other: &mut Seat<K>,
)
    requires shape { given.now.case.topology ≡ J.shape }
    requires book { table_numbers shared.now.table.shared.table_id ≡ J.book }
    requires case { shared.now.case.now ≡ given.now.case }
    requires one { let table = shared.now.table.shared in
        IsAtRest table.table_id shared.now.case.now 2 (0 ∷ []) one.old.place }
    requires other { let table = shared.now.table.shared in
        IsAtRest table.table_id shared.now.case.now 2 (1 ∷ []) other.old.place }
    ensures one { let table = shared.now.table.shared in
        IsAtRest table.table_id shared.now.case.now 2 (0 ∷ []) one.new.place }
    ensures other { let table = shared.now.table.shared in
        IsAtRest table.table_id shared.now.case.now 2 (1 ∷ []) other.new.place }
{
    let (source, to_source) = mailbox::<Note<K>, J>(rt, alloc, 8);
    let (count, to_count) = mailbox::<Note<K>, J>(rt, alloc, 8);
    let boxes = [source, count];
    let mut passes = [to_source, to_count];
    let mut first = SharedDesk::on(&*shared, one);
    let mut second = SharedDesk::on(&*shared, other);
    work(
        rt,
        alloc,
        given,
        &mut first,
        &mut second,
        &boxes,
        &mut passes,
    );
    drop(passes);
    drop(boxes);
}

#[test]
fn timer_fires_behind_the_mark_of_another(rt: HostRuntime) {
    play_all(&rt, rt.alloc(), &ROWS);
}
