//! Threads that raise marks: each has a seat and a lease of its own, and none waits for another's turn.
ghost use Rattle.std.specs.Prelude.{◌≡◌, ◌<◌, ◌∷◌, [], IfSome, None, true};
ghost use Rattle.run_history.specs.Legal.{MayClaim};
ghost use Rattle.worked_examples.specs.Rising.{rise_case};
ghost use Rattle.shared_book.specs.SharedDesks.{shared_home, shared_view};
ghost use Rattle.engine_tests.specs.TestSeats.{GoesOn, IsAtRest};

use super::starts::shared_among;
use super::tables::{Table, try_all};
use super::trials::lease_of;
use crate::tests::keepers::blind;
use crate::tests::must;
use book::{Desk, DeskRefusal, Lease};
use row_keeper::Keeper;
use run_history::Case;
use shared_book::{Seat, Shared, SharedDesk};
use std::alloc::Global;
use std::process::Abort;
use std::sync::Wait;
use std::thread::{Threads, join, yield_now};

// How often each thread raises a mark.
const RAISES: u64 = 1000;

// The interval that each of two threads claims, and the injector's mark at the end.
#[derive(Clone, Copy)]
pub(crate) struct Row {
    one: u32,
    other: u32,
    source: u64,
    ghost one_there: { one < 2 },
    ghost other_there: { other < 2 },
}

// What a thread loaded of the two marks last, and whether all that it loaded is as it has to be.
#[derive(Clone, Copy)]
struct Loads {
    source: u64,
    count: u64,
    is_sound: bool,
}

// A thread that has ended, with its seat.
#[derive(Drop)]
struct Ended<K: Keeper> {
    seat: Seat<K>,
    loads: Loads,
}

// Two threads that have ended, with the seat of both.
#[derive(Drop)]
struct Joined<K: Keeper> {
    seat: Seat<K>,
    first: Loads,
    second: Loads,
}

// The mark of one interval was loaded: it is not below what was loaded before.
fn loaded(loads: Loads, interval: u32, mark: u64) -> Loads {
    if interval == 0 {
        Loads {
            source: mark,
            is_sound: loads.is_sound && loads.source <= mark,
            ..loads
        }
    } else {
        Loads {
            count: mark,
            is_sound: loads.is_sound && loads.count <= mark,
            ..loads
        }
    }
}

// One try to claim the interval, and no lease where another had the turn. The test ends where it is refused.
fn lease_once<K: Keeper>(
    rt: &impl Abort,
    alloc: Global,
    desk: &mut SharedDesk<'_, '_, K>,
    worker: u32,
    interval: u32,
) -> Option<Lease>
    requires may { MayClaim (shared_view desk.old.seat.now.place.me.0).case worker interval }
    ensures held { IfSome result (λ lease.
        (shared_view desk.new.seat.now.place.me.0).leases lease ≡ true) }
    ensures goes_on { GoesOn (shared_view desk.old.seat.now.place.me.0)
        (shared_view desk.new.seat.now.place.me.0) }
    ensures loan { desk.new.seat.ghost_name ≡ desk.old.seat.ghost_name }
    ensures home { shared_home desk.new.seat.now.place ≡ shared_home desk.old.seat.now.place }
{
    match desk.claim(alloc, worker, interval) {
        Ok(claimed) => Some(lease_of(rt, claimed)),
        Err(why) => {
            let is_busy = matches!(&why, DeskRefusal::Busy { .. });
            drop(why);
            must(rt, is_busy, "a claim waits for the turn alone");
            None
        }
    }
}

// A claim of the interval, once nobody else has the turn.
fn lease_at_last<K: Keeper, R: Wait + Abort>(
    rt: &R,
    alloc: Global,
    desk: &mut SharedDesk<'_, '_, K>,
    worker: u32,
    interval: u32,
) -> Lease
    requires may { MayClaim (shared_view desk.old.seat.now.place.me.0).case worker interval }
    ensures held { (shared_view desk.new.seat.now.place.me.0).leases result ≡ true }
    ensures goes_on { GoesOn (shared_view desk.old.seat.now.place.me.0)
        (shared_view desk.new.seat.now.place.me.0) }
    ensures loan { desk.new.seat.ghost_name ≡ desk.old.seat.ghost_name }
    ensures home { shared_home desk.new.seat.now.place ≡ shared_home desk.old.seat.now.place }
{
    for _ in rt.forever() {
        if let Some(lease) = lease_once(rt, alloc, desk, worker, interval) {
            return lease;
        }
        yield_now();
    }
    unreachable!()
}

// Both marks are loaded: that of the count is not above that of the injector, which feeds it.
fn load_both<K: Keeper>(desk: &mut SharedDesk<'_, '_, K>, loads: Loads) -> Loads
    requires case { (shared_view desk.old.seat.now.place.me.0).case ≡ rise_case }
    ensures goes_on { GoesOn (shared_view desk.old.seat.now.place.me.0)
        (shared_view desk.new.seat.now.place.me.0) }
    ensures loan { desk.new.seat.ghost_name ≡ desk.old.seat.ghost_name }
    ensures home { shared_home desk.new.seat.now.place ≡ shared_home desk.old.seat.now.place }
{
    let count = desk.mark(1);
    let source = desk.mark(0);
    let mut both = loaded(loaded(loads, 1, count), 0, source);
    both.is_sound = both.is_sound && count <= source;
    both
}

// One raise, which is never refused: the injector's mark, which nothing feeds, is raised to the own work
// whoever has claimed the interval since.
fn raise_once<K: Keeper>(
    desk: &mut SharedDesk<'_, '_, K>,
    lease: &Lease,
    interval: u32,
    own: u64,
    loads: Loads,
) -> Loads
    requires untold { (shared_view desk.old.seat.now.place.me.0).told ≡ None }
    requires held { (shared_view desk.old.seat.now.place.me.0).leases lease.now ≡ true }
    ensures goes_on { GoesOn (shared_view desk.old.seat.now.place.me.0)
        (shared_view desk.new.seat.now.place.me.0) }
    ensures loan { desk.new.seat.ghost_name ≡ desk.old.seat.ghost_name }
    ensures home { shared_home desk.new.seat.now.place ≡ shared_home desk.old.seat.now.place }
{
    match desk.report(lease, own) {
        Ok(mark) => {
            let mut raised = loaded(loads, interval, mark);
            raised.is_sound = raised.is_sound && (interval == 1 || own <= mark);
            raised
        }
        Err(_) => unreachable!(),
    }
}

// Both marks are loaded, and one is raised; in each tenth round a lease that is not overtaken comes to allow
// as much as was loaded.
fn round<K: Keeper>(
    desk: &mut SharedDesk<'_, '_, K>,
    lease: &Lease,
    interval: u32,
    worker: u32,
    nth: u64,
    loads: Loads,
) -> Loads
    requires nth { nth < 1000 }
    requires case { (shared_view desk.old.seat.now.place.me.0).case ≡ rise_case }
    requires untold { (shared_view desk.old.seat.now.place.me.0).told ≡ None }
    requires held { (shared_view desk.old.seat.now.place.me.0).leases lease.now ≡ true }
    ensures goes_on { GoesOn (shared_view desk.old.seat.now.place.me.0)
        (shared_view desk.new.seat.now.place.me.0) }
    ensures loan { desk.new.seat.ghost_name ≡ desk.old.seat.ghost_name }
    ensures home { shared_home desk.new.seat.now.place ≡ shared_home desk.old.seat.now.place }
{
    let both = load_both(desk, loads);
    if nth % 10 == 0 {
        let _tried = desk.catch_up();
    }
    raise_once(desk, lease, interval, 2 * nth + u64::from(worker) + 1, both)
}

// All rounds of a thread.
fn raise_all<K: Keeper>(
    desk: &mut SharedDesk<'_, '_, K>,
    lease: &Lease,
    interval: u32,
    worker: u32,
) -> Loads
    requires case { (shared_view desk.old.seat.now.place.me.0).case ≡ rise_case }
    requires untold { (shared_view desk.old.seat.now.place.me.0).told ≡ None }
    requires held { (shared_view desk.old.seat.now.place.me.0).leases lease.now ≡ true }
    ensures goes_on { GoesOn (shared_view desk.old.seat.now.place.me.0)
        (shared_view desk.new.seat.now.place.me.0) }
    ensures loan { desk.new.seat.ghost_name ≡ desk.old.seat.ghost_name }
    ensures home { shared_home desk.new.seat.now.place ≡ shared_home desk.old.seat.now.place }
{
    let mut loads = Loads {
        source: 0,
        count: 0,
        is_sound: true,
    };
    for nth in 0..RAISES {
        loads = round(desk, lease, interval, worker, nth, loads);
    }
    loads
}

// A worker claims an interval and raises its mark.
fn work<K: Keeper, R: Wait + Abort>(
    rt: &R,
    alloc: Global,
    desk: &mut SharedDesk<'_, '_, K>,
    worker: u32,
    interval: u32,
) -> Loads
    requires worker { worker < 2 }
    requires interval { interval < 2 }
    requires case { (shared_view desk.old.seat.now.place.me.0).case ≡ rise_case }
    requires untold { (shared_view desk.old.seat.now.place.me.0).told ≡ None }
    ensures goes_on { GoesOn (shared_view desk.old.seat.now.place.me.0)
        (shared_view desk.new.seat.now.place.me.0) }
    ensures loan { desk.new.seat.ghost_name ≡ desk.old.seat.ghost_name }
    ensures home { shared_home desk.new.seat.now.place ≡ shared_home desk.old.seat.now.place }
{
    let lease = lease_at_last(rt, alloc, desk, worker, interval);
    let loads = raise_all(desk, &lease, interval, worker);
    drop(lease);
    loads
}

// The same, at the desk of a seat.
fn at_desk<K: Keeper, R: Wait + Abort>(
    rt: &R,
    alloc: Global,
    shared: &Shared<'_, K>,
    seat: &mut Seat<K>,
    worker: u32,
    interval: u32,
) -> Loads
    requires worker { worker < 2 }
    requires interval { interval < 2 }
    requires case { shared.now.case.now ≡ rise_case }
    requires untold { seat.old.place.me.0.basis.told ≡ None }
    requires rest { let table = shared.now.table.shared in let v = seat.old.place.me.0 in
        IsAtRest table.table_id shared.now.case.now v.basis.seats v.numbers seat.old.place }
    ensures rest { let table = shared.now.table.shared in let v = seat.old.place.me.0 in
        IsAtRest table.table_id shared.now.case.now v.basis.seats v.numbers seat.new.place }
{
    let mut desk = SharedDesk::on(&*shared, seat);
    work(rt, alloc, &mut desk, worker, interval)
}

// One thread.
fn one_thread<K: Keeper, R: Wait + Abort>(
    rt: &R,
    alloc: Global,
    shared: &Shared<'_, K>,
    seat: Seat<K>,
    worker: u32,
    interval: u32,
) -> Ended<K>
    requires worker { worker < 2 }
    requires interval { interval < 2 }
    requires case { shared.now.case.now ≡ rise_case }
    requires untold { seat.place.me.0.basis.told ≡ None }
    requires rest { let table = shared.now.table.shared in let v = seat.place.me.0 in
        IsAtRest table.table_id shared.now.case.now v.basis.seats v.numbers seat.place }
    ensures rest { let table = shared.now.table.shared in let v = seat.place.me.0 in
        IsAtRest table.table_id shared.now.case.now v.basis.seats v.numbers result.seat.place }
{
    let mut seat = seat;
    let loads = at_desk(rt, alloc, shared, &mut seat, worker, interval);
    Ended { seat, loads }
}

// Two threads, whose seats are joined once both have ended.
#[tactic(auto, using(shared_book::proofs::Sending::core_send, shared_book::proofs::Sending::seat_send))]
fn in_threads<K: Keeper + Send, R: Threads + Wait + Abort + Sync>(
    rt: &R,
    alloc: Global,
    shared: &Shared<'_, K>,
    one: Seat<K>,
    other: Seat<K>,
    mine: u32,
    theirs: u32,
) -> Joined<K>
    requires mine { mine < 2 }
    requires theirs { theirs < 2 }
    requires case { shared.now.case.now ≡ rise_case }
    requires untold { one.place.me.0.basis.told ≡ None }
    requires untold_too { other.place.me.0.basis.told ≡ None }
    requires one { let table = shared.now.table.shared in
        IsAtRest table.table_id shared.now.case.now 2 (0 ∷ []) one.place }
    requires other { let table = shared.now.table.shared in
        IsAtRest table.table_id shared.now.case.now 2 (1 ∷ []) other.place }
    ensures rest { let table = shared.now.table.shared in
        IsAtRest table.table_id shared.now.case.now 2 (0 ∷ 1 ∷ []) result.seat.place }
{
    let (first, second) = join(
        rt,
        move || -> Ended<K>
            requires mine { mine < 2 }
            requires case { shared.now.case.now ≡ rise_case }
            requires untold { one.place.me.0.basis.told ≡ None }
            requires rest { let table = shared.now.table.shared in
                IsAtRest table.table_id shared.now.case.now 2 (0 ∷ []) one.place }
            ensures rest { let table = shared.entry.now.table.shared in
                IsAtRest table.table_id shared.entry.now.case.now 2 (0 ∷ []) result.seat.place }
        { one_thread(rt, alloc, shared, one, 0, mine) },
        move || -> Ended<K>
            requires theirs { theirs < 2 }
            requires case { shared.now.case.now ≡ rise_case }
            requires untold { other.place.me.0.basis.told ≡ None }
            requires rest { let table = shared.now.table.shared in
                IsAtRest table.table_id shared.now.case.now 2 (1 ∷ []) other.place }
            ensures rest { let table = shared.entry.now.table.shared in
                IsAtRest table.table_id shared.entry.now.case.now 2 (1 ∷ []) result.seat.place }
        { one_thread(rt, alloc, shared, other, 1, theirs) },
    );
    let Ended { seat, loads } = first;
    let mut both = Joined {
        seat: second.seat,
        first: loads,
        second: second.loads,
    };
    shared.join(&mut both.seat, seat);
    both
}

// Two threads over the seats of a book: all that they loaded is as it has to be, and the book comes back with two
// claims, the injector's mark and, of the count's interval, the greatest to which it was raised.
pub(crate) fn two_threads<R: Threads + Wait + Abort + Sync>(
    rt: &R,
    alloc: Global,
    case: &Case,
    row: Row,
)
    requires case { case.now ≡ rise_case }
{
    let keeper = blind(rt, alloc, 7, &[]);
    let (shared, seat) = shared_among(rt, alloc, case, keeper, 8, 2);
    let mut other = seat;
    let one = shared.deal(&mut other);
    let Joined {
        seat,
        first,
        second,
    } = in_threads(rt, alloc, &shared, one, other, row.one, row.other);
    let book = shared.close(seat);
    let marks = [row.source, first.count.max(second.count)];
    let has = book.history().len() == 2 && book.marks() == marks.as_slice();
    drop(book);
    must(rt, has && first.is_sound && second.is_sound, row.source);
}

// Each raises the mark of its own interval; both raise the injector's, where the lease that was claimed first is
// overtaken by the other; or both raise the count's, which nothing allows to rise. The first raises the
// injector's to 1, 3, .., 1999, and the second to 2, 4, .., 2000.
const ROWS: [Row; 4] = [
    Row {
        one: 0,
        other: 1,
        source: 1999,
    },
    Row {
        one: 1,
        other: 0,
        source: 2000,
    },
    Row {
        one: 0,
        other: 0,
        source: 2000,
    },
    Row {
        one: 1,
        other: 1,
        source: 0,
    },
];

#[test]
fn marks_rise_in_threads(rt: HostRuntime) {
    try_all(&rt, rt.alloc(), Table::Raisers(&ROWS));
}
