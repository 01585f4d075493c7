//! Threads that append to one history: each has a seat of its own, and tries for the turn until it has
//! claimed as often as it is to.
ghost use Rattle.std.specs.Prelude.{◌≡◌, ◌<◌, ◌≤◌, ◌+◌, ◌-◌, []};
ghost use Rattle.std.specs.Thread.{IsSync, IsSend};
ghost use Rattle.run_history.specs.Legal.{MayClaim};
ghost use Rattle.worked_examples.specs.Rising.{rise_case};
ghost use Rattle.shared_book.specs.Joins.{joined};
ghost use Rattle.shared_book.specs.Opening.{span};
ghost use Rattle.shared_book.specs.Turns.{IsHere, IsIdle};
ghost use Rattle.engine_tests.specs.TestSeats.{IsAtRest};

use super::histories::expect_shares;
use super::seats::{Tried, claim_once};
use super::starts::shared_among;
use crate::tests::keepers::in_memory;
use crate::tests::made;
use crate::tests::two_lines::two_line_case;
use book::Book;
use row_keeper::Keeper;
use run_history::Case;
use shared_book::{Seat, Shared};
use std::alloc::Global;
use std::process::Abort;
use std::sync::Wait;
use std::thread::{Threads, join, yield_now};

// How often each worker is to claim.
pub(crate) type Shares = [u32; 4];

// A seat whose threads have ended, and the numbers that they were answered, a list for each worker.
#[derive(Drop)]
struct Ended<K: Keeper> {
    seat: Seat<K>,
    numbers: Vec<Vec<u64>>,
}

// The number of a claim, or none where another had the turn. The test ends where the book refused.
fn number_of(rt: &impl Abort, tried: Tried) -> Option<u64> {
    match tried {
        Tried::Claimed { seq } => Some(seq),
        Tried::Busy { .. } => None,
        _ => rt.panic("a claim is refused"),
    }
}

// Tries for the turn until the interval is claimed: the number of the claim.
fn claim_at_last<K: Keeper, R: Wait + Abort>(
    rt: &R,
    alloc: Global,
    shared: &Shared<'_, K>,
    seat: &mut Seat<K>,
    worker: u32,
    interval: u32,
) -> u64
    requires rest { let table = shared.now.table.shared in let v = seat.old.place.me.0 in
        IsAtRest table.table_id shared.now.case.now v.basis.seats v.numbers seat.old.place }
    requires may { MayClaim shared.now.case.now worker interval }
    ensures rest { let table = shared.now.table.shared in let v = seat.old.place.me.0 in
        IsAtRest table.table_id shared.now.case.now v.basis.seats v.numbers seat.new.place }
{
    for _ in rt.forever() {
        let tried = claim_once(alloc, shared, seat, worker, interval);
        if let Some(number) = number_of(rt, tried) {
            return number;
        }
        yield_now();
    }
    unreachable!()
}

// A worker claims so often, one interval after the other, and notes the numbers of its claims.
fn claim_share<K: Keeper, R: Wait + Abort>(
    rt: &R,
    alloc: Global,
    shared: &Shared<'_, K>,
    seat: &mut Seat<K>,
    worker: u32,
    share: u32,
    numbers: &mut Vec<u64>,
)
    requires case { shared.now.case.now ≡ rise_case }
    requires worker { worker < 4 }
    requires rest { let table = shared.now.table.shared in let v = seat.old.place.me.0 in
        IsAtRest table.table_id shared.now.case.now v.basis.seats v.numbers seat.old.place }
    ensures rest { let table = shared.now.table.shared in let v = seat.old.place.me.0 in
        IsAtRest table.table_id shared.now.case.now v.basis.seats v.numbers seat.new.place }
{
    for nth in 0..share {
        let interval = worker.wrapping_add(nth) % 2;
        let number = claim_at_last(rt, alloc, shared, seat, worker, interval);
        made(rt, numbers.push(number));
    }
}

// One thread: a worker claims so often through a seat of its own.
fn one_thread<K: Keeper, R: Wait + Abort>(
    rt: &R,
    alloc: Global,
    shared: &Shared<'_, K>,
    seat: Seat<K>,
    worker: u32,
    share: u32,
) -> Ended<K>
    requires case { shared.now.case.now ≡ rise_case }
    requires worker { worker < 4 }
    requires rest { let table = shared.now.table.shared in let v = seat.place.me.0 in
        IsAtRest table.table_id shared.now.case.now v.basis.seats v.numbers seat.place }
    ensures rest { let table = shared.now.table.shared in let v = seat.place.me.0 in
        IsAtRest table.table_id shared.now.case.now v.basis.seats v.numbers result.seat.place }
{
    let mut seat = seat;
    let mut own = Vec::new(alloc);
    claim_share(rt, alloc, shared, &mut seat, worker, share, &mut own);
    let numbers = made(rt, vec![in alloc; own]);
    Ended { seat, numbers }
}

// Puts more lists behind those of other workers.
fn put_behind(rt: &impl Abort, numbers: &mut Vec<Vec<u64>>, more: Vec<Vec<u64>>) {
    let mut more = more;
    made(rt, numbers.append(&mut more));
    drop(more);
}

// A seat takes in that of another thread, whose numbers are put behind its own.
fn taken_in<K: Keeper>(
    rt: &impl Abort,
    shared: &Shared<'_, K>,
    others: Ended<K>,
    one: Ended<K>,
) -> Ended<K>
    requires here { IsHere shared.now.table.shared.table_id shared.now.case.now others.seat.place }
    requires idle { IsIdle others.seat.place.me }
    requires other { IsHere shared.now.table.shared.table_id shared.now.case.now one.seat.place }
    requires other_idle { IsIdle one.seat.place.me }
    ensures here { IsHere shared.now.table.shared.table_id shared.now.case.now result.seat.place }
    ensures view { result.seat.place.me
        ≡ (joined others.seat.place.me.0 one.seat.place.me.0, []) }
{
    let Ended { seat, numbers } = one;
    let mut all = others;
    shared.join(&mut all.seat, seat);
    put_behind(rt, &mut all.numbers, numbers);
    all
}

// A seat deals its first number to a thread, and the rest of them in a thread beside it; the seats are
// joined once both have ended.
#[tactic(auto, using(shared_book::proofs::Sending::core_send, shared_book::proofs::Sending::seat_send))]
fn in_threads<K: Keeper + Send, R: Threads + Wait + Abort + Sync>(
    rt: &R,
    alloc: Global,
    shared: &Shared<'_, K>,
    seat: Seat<K>,
    shares: Shares,
    left: u32,
) -> Ended<K>
    requires case { shared.now.case.now ≡ rise_case }
    requires few { seat.number + left < 4 }
    requires rest { let table = shared.now.table.shared in let v = seat.place.me.0 in
        IsAtRest table.table_id shared.now.case.now v.basis.seats
        (span seat.number (left + 1)) seat.place }
    ensures rest { let table = shared.now.table.shared in let v = seat.place.me.0 in
        IsAtRest table.table_id shared.now.case.now v.basis.seats
        (span seat.number (left + 1)) result.seat.place }
{
    let share = shares[left as usize];
    if left == 0 {
        return one_thread(rt, alloc, shared, seat, left, share);
    }
    let mut rest = seat;
    let one = shared.deal(&mut rest);
    let next = left - 1;
    let (first, others) = join(
        rt,
        move || -> Ended<K>
            requires case { shared.now.case.now ≡ rise_case }
            requires worker { left < 4 }
            requires rest { let table = shared.now.table.shared in let v = one.place.me.0 in
                IsAtRest table.table_id shared.now.case.now v.basis.seats v.numbers one.place }
            ensures rest { let table = shared.entry.now.table.shared in
                let v = one.place.me.0 in IsAtRest table.table_id shared.entry.now.case.now
                v.basis.seats v.numbers result.seat.place }
        { one_thread(rt, alloc, shared, one, left, share) },
        move || -> Ended<K>
            requires sends { IsSync R.row × IsSend K.row }
            requires case { shared.now.case.now ≡ rise_case }
            requires few { rest.number + next < 4 }
            requires rest { let table = shared.now.table.shared in let v = rest.place.me.0 in
                IsAtRest table.table_id shared.now.case.now v.basis.seats
                (span rest.number (next + 1)) rest.place }
            ensures rest { let table = shared.entry.now.table.shared in
                let v = rest.place.me.0 in
                IsAtRest table.table_id shared.entry.now.case.now v.basis.seats
                (span rest.number (next + 1)) result.seat.place }
        { in_threads(rt, alloc, shared, rest, shares, next) },
    );
    taken_in(rt, shared, others, first)
}

// The history of a book has what the workers were answered. Both are let go here.
fn has_shares<K: Keeper>(
    rt: &impl Abort,
    alloc: Global,
    book: Book<'_, K>,
    numbers: Vec<Vec<u64>>,
    shares: &Shares,
) {
    let entries = made(rt, book.history().entries(alloc));
    drop(book);
    expect_shares(rt, entries.as_slice(), numbers.as_slice(), shares);
    drop(numbers);
    drop(entries);
}

// The threads of a shared book, which comes back with what all of them appended.
fn all_threads<R: Threads + Wait + Abort + Sync>(
    rt: &R,
    alloc: Global,
    case: &Case,
    seats: u32,
    shares: Shares,
)
    requires case { case.now ≡ rise_case }
    requires some { 0 < seats }
    requires few { seats ≤ 4 }
{
    let keeper = in_memory(rt, alloc, &[]);
    let (shared, seat) = shared_among(rt, alloc, case, keeper, 10_000, seats);
    let Ended { seat, numbers } = in_threads(rt, alloc, &shared, seat, shares, seats - 1);
    let book = shared.close(seat);
    has_shares(rt, alloc, book, numbers, &shares);
}

// So many threads, and how often each claims.
const THREADS: [(u32, Shares); 3] = [
    (2, [5000, 5000, 0, 0]),
    (3, [2000, 3000, 5000, 0]),
    (4, [2500, 2500, 2500, 2500]),
];

// The threads of each row.
fn each_row<R: Threads + Wait + Abort + Sync>(rt: &R, alloc: Global) {
    let case = two_line_case(rt, alloc);
    for row in &THREADS {
        let (seats, shares) = *row;
        all_threads(rt, alloc, &case, seats, shares);
    }
    drop(case);
}

#[test]
fn threads_append_to_one_history(rt: HostRuntime) {
    each_row(&rt, rt.alloc());
}
