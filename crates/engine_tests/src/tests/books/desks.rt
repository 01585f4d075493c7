//! Desks over two seats of one book: a desk is told that the other seat has the turn, claims once it
//! is given back, and sees what a note of the other desk tells.
ghost use Rattle.std.specs.Prelude.{◌≡◌, ◌∷◌, []};
ghost use Rattle.run_history.specs.Legal.{MayClaim};
ghost use Rattle.worked_examples.specs.Rising.{rise_case};
ghost use Rattle.engine_tests.specs.TestSeats.{IsAtRest};

use super::pairs::Pair;
use super::seats::Tried;
use super::tables::{Table, try_all};
use crate::tests::must;
use book::{Desk, DeskRefusal};
use row_keeper::Keeper;
use shared_book::{Seat, Shared, SharedDesk};
use std::alloc::Global;
use std::process::Abort;

// What comes of the claims.
const WANT: &[Tried] = &[
    Tried::Busy { found: 1 },
    Tried::Claimed { seq: 0 },
    Tried::Claimed { seq: 1 },
];

// What came of a claim through any desk.
fn claim_through<D: Desk>(desk: &mut D, alloc: Global, worker: u32, interval: u32) -> Tried
    requires may { MayClaim (D.view desk.old).case worker interval }
    ensures case { (D.view desk.new).case ≡ (D.view desk.old).case }
    ensures loan { D.loan desk.new ≡ D.loan desk.old }
    ensures home { D.home desk.new ≡ D.home desk.old }
{
    let claimed = desk.claim(alloc, worker, interval);
    let tried = match &claimed {
        Ok(claimed) => Tried::Claimed {
            seq: claimed.lease.seq(),
        },
        Err(DeskRefusal::Busy { found }) => Tried::Busy { found: *found },
        Err(_) => Tried::Refused,
    };
    drop(claimed);
    tried
}

// The floor behind a claim: the claims are the history, so it is above the last, and 0 where there is none.
fn floor_behind(tried: Tried) -> u64 {
    match tried {
        Tried::Claimed { seq } => seq.wrapping_add(1),
        _ => 0,
    }
}

// One claim through the desk of a seat: the claims of the intervals before it are there, and the floor's word
// is above them, whichever seat raised it.
fn desk_claim<K: Keeper>(
    rt: &impl Abort,
    alloc: Global,
    shared: &Shared<'_, K>,
    seat: &mut Seat<K>,
    interval: u32,
) -> Tried
    requires rest { let table = shared.now.table.shared in let v = seat.old.place.me.0 in
        IsAtRest table.table_id shared.now.case.now v.basis.seats v.numbers seat.old.place }
    requires may { MayClaim shared.now.case.now 0 interval }
    ensures rest { let table = shared.now.table.shared in let v = seat.old.place.me.0 in
        IsAtRest table.table_id shared.now.case.now v.basis.seats v.numbers seat.new.place }
{
    let mut desk = SharedDesk::on(&*shared, seat);
    let before = desk.floor();
    let tried = claim_through(&mut desk, alloc, 0, interval);
    let after = desk.floor();
    let is_floor = before == u64::from(interval) && after == floor_behind(tried);
    must(rt, is_floor, "the floor before and after");
    tried
}

// A note of one desk is met by another of the same book.
fn pass_note<D: Desk>(one: &mut D, other: &mut D)
    requires book { (D.home one.old).book ≡ (D.home other.old).book }
    ensures case { (D.view one.new).case ≡ (D.view one.old).case }
    ensures loan { D.loan one.new ≡ D.loan one.old }
    ensures home { D.home one.new ≡ D.home one.old }
    ensures other_case { (D.view other.new).case ≡ (D.view other.old).case }
    ensures other_loan { D.loan other.new ≡ D.loan other.old }
    ensures other_home { D.home other.new ≡ D.home other.old }
{
    let note = one.note();
    other.meet(note);
}

// The same, of the seats.
fn notes<K: Keeper>(shared: &Shared<'_, K>, one: &mut Seat<K>, other: &mut Seat<K>)
    requires one { let table = shared.now.table.shared in
        IsAtRest table.table_id shared.now.case.now 2 (0 ∷ []) one.old.place }
    requires other { let table = shared.now.table.shared in
        IsAtRest table.table_id shared.now.case.now 2 (1 ∷ []) other.old.place }
    ensures one { let table = shared.now.table.shared in
        IsAtRest table.table_id shared.now.case.now 2 (0 ∷ []) one.new.place }
    ensures other { let table = shared.now.table.shared in
        IsAtRest table.table_id shared.now.case.now 2 (1 ∷ []) other.new.place }
{
    let mut first = SharedDesk::on(&*shared, one);
    let mut second = SharedDesk::on(&*shared, other);
    pass_note(&mut first, &mut second);
}

// What comes of a claim through the desk of one seat while the other has the turn, where the other gets it.
fn tried_beside<K: Keeper>(
    rt: &impl Abort,
    alloc: Global,
    shared: &Shared<'_, K>,
    one: &mut Seat<K>,
    other: &mut Seat<K>,
) -> Tried
    requires case { shared.now.case.now ≡ rise_case }
    requires one { let table = shared.now.table.shared in
        IsAtRest table.table_id shared.now.case.now 2 (0 ∷ []) one.old.place }
    requires other { let table = shared.now.table.shared in
        IsAtRest table.table_id shared.now.case.now 2 (1 ∷ []) other.old.place }
    ensures one { let table = shared.now.table.shared in
        IsAtRest table.table_id shared.now.case.now 2 (0 ∷ []) one.new.place }
    ensures other { let table = shared.now.table.shared in
        IsAtRest table.table_id shared.now.case.now 2 (1 ∷ []) other.new.place }
{
    match one.try_turn(&*shared) {
        Ok(turn) => {
            let tried = desk_claim(rt, alloc, shared, other, 0);
            turn.release();
            tried
        }
        Err(_) => Tried::Refused,
    }
}

// While one seat has the turn, the desk of the other is told so: the word is 1 more than the number
// of the seat. Then each claims through its desk, and one meets a note of the other.
pub(crate) fn claim_at_desks<K: Keeper>(
    rt: &impl Abort,
    alloc: Global,
    shared: &Shared<'_, K>,
    one: &mut Seat<K>,
    other: &mut Seat<K>,
)
    requires case { shared.now.case.now ≡ rise_case }
    requires one { let table = shared.now.table.shared in
        IsAtRest table.table_id shared.now.case.now 2 (0 ∷ []) one.old.place }
    requires other { let table = shared.now.table.shared in
        IsAtRest table.table_id shared.now.case.now 2 (1 ∷ []) other.old.place }
    ensures one { let table = shared.now.table.shared in
        IsAtRest table.table_id shared.now.case.now 2 (0 ∷ []) one.new.place }
    ensures other { let table = shared.now.table.shared in
        IsAtRest table.table_id shared.now.case.now 2 (1 ∷ []) other.new.place }
{
    let beside = tried_beside(rt, alloc, shared, one, other);
    let first = desk_claim(rt, alloc, shared, other, 0);
    notes(shared, one, other);
    let second = desk_claim(rt, alloc, shared, one, 1);
    let tried = [beside, first, second];
    must(rt, tried.as_slice() == WANT, "what comes of each claim");
}

#[test]
fn desk_answers_busy(rt: HostRuntime) {
    try_all(&rt, rt.alloc(), Table::Seats(Pair::Desks, 2));
}
