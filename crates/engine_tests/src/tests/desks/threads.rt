//! Two threads that inject under one book: each has a seat and a worker of its own, and tries for the turn
//! until each line of its injector is an entry.
ghost use Rattle.std.specs.Prelude.{◌≡◌, ◌<◌, ◌∷◌, []};
ghost use Rattle.topology.specs.Rules.{interval_count};
ghost use Rattle.node.specs.Fits.{Fits};
ghost use Rattle.engine_tests.specs.TestSeats.{IsAtRest};

use super::acts::{Answer, short};
use crate::tests::keepers::in_memory;
use crate::tests::text_cases::lines;
use crate::tests::{made, must};
use book::{Book, Desk, Seen};
use injector::ItemsList;
use mw_types::Entry;
use node::Node;
use row_keeper::Keeper;
use run_history::Case;
use shared_book::{Seat, Shared, SharedDesk};
use std::alloc::Global;
use std::process::Abort;
use std::sync::Wait;
use std::thread::{Threads, join, yield_now};
use topology::read;

// How many lines each injector has.
const LINES: u32 = 200;

// What a worker tries until it has the turn.
#[derive(Clone, Copy)]
enum Deed {
    // It claims the interval of its injector.
    Claim,
    // It injects the next line.
    Inject,
}

// Tries until the turn is there, and answers what came of it then.
fn at_last<N: Seen, D: Desk<Note = N>, R: Wait>(
    rt: &R,
    alloc: Global,
    case: &Case,
    desk: &mut D,
    node: &mut Node<N>,
    part: u32,
    deed: Deed,
) -> Answer
    requires fits { Fits case.now (D.view desk.old) node.old }
    requires part { part < interval_count case.now.topology }
    ensures fits { Fits case.now (D.view desk.new) node.new }
    ensures loan { D.loan desk.new ≡ D.loan desk.old }
    ensures home { D.home desk.new ≡ D.home desk.old }
{
    for _ in rt.forever() {
        let answer = match deed {
            Deed::Claim => node.claim(alloc, desk, case, part),
            Deed::Inject => node.inject(alloc, desk, case, part),
        };
        let told = short(&answer);
        drop(answer);
        match told {
            Answer::Busy(_) => yield_now(),
            told => return told,
        }
    }
    unreachable!()
}

// A worker claims the interval of an injector, and injects all of its lines: whether each was written.
fn injects_all<N: Seen, D: Desk<Note = N>, R: Wait>(
    rt: &R,
    alloc: Global,
    case: &Case,
    desk: &mut D,
    node: &mut Node<N>,
    part: u32,
) -> bool
    requires fits { Fits case.now (D.view desk.old) node.old }
    requires part { part < interval_count case.now.topology }
    ensures fits { Fits case.now (D.view desk.new) node.new }
    ensures loan { D.loan desk.new ≡ D.loan desk.old }
    ensures home { D.home desk.new ≡ D.home desk.old }
{
    let claimed = at_last(rt, alloc, case, desk, node, part, Deed::Claim);
    let mut all = matches!(claimed, Answer::Claimed(_));
    for _ in 0..LINES {
        let injected = at_last(rt, alloc, case, desk, node, part, Deed::Inject);
        all = all && matches!(injected, Answer::Committed(_));
    }
    all && at_last(rt, alloc, case, desk, node, part, Deed::Inject) == Answer::Nothing
}

// One thread: a worker over the desk of a seat injects all lines of one injector.
fn one_thread<K: Keeper, R: Wait + Abort>(
    rt: &R,
    alloc: Global,
    shared: &Shared<'_, K>,
    case: &Case,
    seat: Seat<K>,
    part: u32,
) -> Seat<K>
    requires case { shared.now.case.now ≡ case.now }
    requires part { part < 2 }
    requires rest { let table = shared.now.table.shared in let v = seat.place.me.0 in
        IsAtRest table.table_id shared.now.case.now v.basis.seats v.numbers seat.place }
    ensures rest { let table = shared.now.table.shared in let v = seat.place.me.0 in
        IsAtRest table.table_id shared.now.case.now v.basis.seats v.numbers result.place }
{
    let mut seat = seat;
    at_desk(rt, alloc, shared, case, &mut seat, part);
    seat
}

// The same, at the desk of the seat.
fn at_desk<K: Keeper, R: Wait + Abort>(
    rt: &R,
    alloc: Global,
    shared: &Shared<'_, K>,
    case: &Case,
    seat: &mut Seat<K>,
    part: u32,
)
    requires case { shared.now.case.now ≡ case.now }
    requires part { part < 2 }
    requires rest { let table = shared.now.table.shared in let v = seat.old.place.me.0 in
        IsAtRest table.table_id shared.now.case.now v.basis.seats v.numbers seat.old.place }
    ensures rest { let table = shared.now.table.shared in let v = seat.old.place.me.0 in
        IsAtRest table.table_id shared.now.case.now v.basis.seats v.numbers seat.new.place }
{
    if case.interval_count() <= part {
        rt.panic("no such part")
    }
    let mut desk = SharedDesk::on(&*shared, seat);
    let mut node = Node::new(alloc, part);
    let all = injects_all(rt, alloc, case, &mut desk, &mut node, part);
    drop(node);
    must(rt, all, part);
}

// Two threads, and the seats are joined once both have ended.
#[tactic(auto, using(shared_book::proofs::Sending::core_send, shared_book::proofs::Sending::seat_send))]
fn in_threads<K: Keeper + Send, R: Threads + Wait + Abort + Sync>(
    rt: &R,
    alloc: Global,
    shared: &Shared<'_, K>,
    case: &Case,
    one: Seat<K>,
    other: Seat<K>,
) -> Seat<K>
    requires case { shared.now.case.now ≡ case.now }
    requires one { let table = shared.now.table.shared in
        IsAtRest table.table_id shared.now.case.now 2 (0 ∷ []) one.place }
    requires other { let table = shared.now.table.shared in
        IsAtRest table.table_id shared.now.case.now 2 (1 ∷ []) other.place }
    ensures rest { let table = shared.now.table.shared in
        IsAtRest table.table_id shared.now.case.now 2 (0 ∷ 1 ∷ []) result.place }
{
    let (first, second) = join(
        rt,
        move || -> Seat<K>
            requires case { shared.now.case.now ≡ case.now }
            requires rest { let table = shared.now.table.shared in
                IsAtRest table.table_id shared.now.case.now 2 (0 ∷ []) one.place }
            ensures rest { let table = shared.entry.now.table.shared in
                IsAtRest table.table_id shared.entry.now.case.now 2 (0 ∷ []) result.place }
        { one_thread(rt, alloc, shared, case, one, 0) },
        move || -> Seat<K>
            requires case { shared.now.case.now ≡ case.now }
            requires rest { let table = shared.now.table.shared in
                IsAtRest table.table_id shared.now.case.now 2 (1 ∷ []) other.place }
            ensures rest { let table = shared.entry.now.table.shared in
                IsAtRest table.table_id shared.entry.now.case.now 2 (1 ∷ []) result.place }
        { one_thread(rt, alloc, shared, case, other, 1) },
    );
    let mut all = second;
    shared.join(&mut all, first);
    all
}

// Whether the injections of a part are all of its lines, in their order.
fn are_in_order(entries: &[Entry], of: u32) -> bool {
    let mut next = 0u32;
    for entry in entries {
        if let Entry::Inject { part, line, .. } = entry {
            if *part == of && *line != next {
                return false;
            }
            next = if *part == of {
                next.saturating_add(1)
            } else {
                next
            };
        }
    }
    next == LINES
}

// A book has two claims, and each line of both injectors. It is let go here.
fn has_all<K: Keeper>(rt: &impl Abort, alloc: Global, book: Book<'_, K>) {
    let entries = made(rt, book.history().entries(alloc));
    drop(book);
    let all = entries.as_slice();
    let are_all = all.len() == 402 && are_in_order(all, 0) && are_in_order(all, 1);
    drop(entries);
    must(rt, are_all, "the entries");
}

// The book comes back with what both have injected.
fn two_threads<K: Keeper + Send, R: Threads + Wait + Abort + Sync>(
    rt: &R,
    alloc: Global,
    shared: Shared<'_, K>,
    case: &Case,
    seat: Seat<K>,
)
    requires case { shared.case.now ≡ case.now }
    requires rest { let table = shared.table.shared in
        IsAtRest table.table_id shared.case.now 2 (0 ∷ 1 ∷ []) seat.place }
    requires first { seat.number ≡ 0 }
{
    let mut other = seat;
    let one = shared.deal(&mut other);
    let seat = in_threads(rt, alloc, &shared, case, one, other);
    let book = shared.close(seat);
    has_all(rt, alloc, book);
}

// Two injectors, and a pass that reads both.
const TOPOLOGY: &str =
    r#"{"injectors":[{"name":"clicks","stream":"raw"},{"name":"views","stream":"seen"}],"computations":[{"name":"copy","kind":"pass","reads":[{"stream":"raw","by":"key"},{"stream":"seen","by":"key"}],"stream":"copies"}]}"#;

// The lines of both injectors.
fn items(rt: &impl Abort, alloc: Global) -> ItemsList {
    let mut text = String::new(alloc);
    for _ in 0..LINES {
        made(rt, text.push_str("{\"key\":\"a\",\"ts\":1}\n"));
    }
    let mut all = ItemsList::new(alloc);
    for _ in 0..2 {
        made(rt, all.push(lines(rt, alloc, text.as_str())));
    }
    all
}

// The case of two injectors with these lines each.
fn two_injectors(rt: &impl Abort, alloc: Global) -> Case {
    let topology = made(rt, read(alloc, TOPOLOGY.as_bytes()));
    let items = items(rt, alloc);
    if items.len() != topology.injectors() as usize {
        rt.panic("other injectors")
    }
    made(rt, Case::of(alloc, topology, items))
}

// A book of the case is shared among two seats.
fn begin<R: Threads + Wait + Abort + Sync>(rt: &R, alloc: Global, case: &Case) {
    let keeper = in_memory(rt, alloc, &[]);
    let book = made(rt, Book::start(alloc, case, keeper, 500));
    let (shared, seat) = made(rt, Shared::start(alloc, book, 2));
    two_threads(rt, alloc, shared, case, seat);
}

#[test]
fn threads_inject_under_one_book(rt: HostRuntime) {
    let alloc = rt.alloc();
    let case = two_injectors(&rt, alloc);
    begin(&rt, alloc, &case);
    drop(case);
}
