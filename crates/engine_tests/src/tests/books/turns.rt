//! Two seats of one book: one has the turn at a time, and a note tells what a seat had seen.
ghost use Rattle.std.specs.Prelude.{◌≡◌, ◌<◌, ◌∷◌, []};
ghost use Rattle.topology.specs.Rules.{interval_count};
ghost use Rattle.worked_examples.specs.Rising.{rise_case};
ghost use Rattle.engine_tests.specs.TestSeats.{IsAtRest};

use super::pairs::Pair;
use super::seats::{Tried, claim_once, try_once};
use super::tables::{Table, try_all};
use crate::tests::must;
use row_keeper::Keeper;
use shared_book::{Seat, Shared};
use std::alloc::Global;
use std::process::Abort;

// What comes of a try beside the turn, and of one behind it.
const FOUND: &[Tried] = &[Tried::Busy { found: 1 }, Tried::Given];

// What comes of three claims.
const CLAIMED: &[Tried] = &[
    Tried::Claimed { seq: 0 },
    Tried::Claimed { seq: 1 },
    Tried::Claimed { seq: 2 },
];

// What one seat finds while the other has the turn, where the other gets it.
fn found_beside<K: Keeper>(shared: &Shared<'_, K>, one: &mut Seat<K>, other: &mut Seat<K>) -> Tried
    requires one { let table = shared.now.table.shared in
        IsAtRest table.table_id shared.now.case.now 2 (0 ∷ []) one.old.place }
    requires other { let table = shared.now.table.shared in
        IsAtRest table.table_id shared.now.case.now 2 (1 ∷ []) other.old.place }
    ensures one { let table = shared.now.table.shared in
        IsAtRest table.table_id shared.now.case.now 2 (0 ∷ []) one.new.place }
    ensures other { let table = shared.now.table.shared in
        IsAtRest table.table_id shared.now.case.now 2 (1 ∷ []) other.new.place }
{
    match one.try_turn(&*shared) {
        Ok(turn) => {
            let tried = try_once(shared, other);
            turn.release();
            tried
        }
        Err(_) => Tried::Refused,
    }
}

// Each claims once the other has given the turn back, and one meets a note of the other.
fn claim_by_turns<K: Keeper>(
    alloc: Global,
    shared: &Shared<'_, K>,
    one: &mut Seat<K>,
    other: &mut Seat<K>,
) -> [Tried; 3]
    requires case { shared.now.case.now ≡ rise_case }
    requires one { let table = shared.now.table.shared in
        IsAtRest table.table_id shared.now.case.now 2 (0 ∷ []) one.old.place }
    requires other { let table = shared.now.table.shared in
        IsAtRest table.table_id shared.now.case.now 2 (1 ∷ []) other.old.place }
    ensures one { let table = shared.now.table.shared in
        IsAtRest table.table_id shared.now.case.now 2 (0 ∷ []) one.new.place }
    ensures other { let table = shared.now.table.shared in
        IsAtRest table.table_id shared.now.case.now 2 (1 ∷ []) other.new.place }
{
    let first = claim_once(alloc, shared, one, 0, 0);
    let note = shared.note(one);
    shared.meet(other, note);
    let second = claim_once(alloc, shared, other, 1, 0);
    let third = claim_once(alloc, shared, one, 0, 1);
    [first, second, third]
}

// While one seat has the turn, the other is told so: the word is 1 more than the number of the seat. Then each claims.
pub(crate) fn take_turns<K: Keeper>(
    rt: &impl Abort,
    alloc: Global,
    shared: &Shared<'_, K>,
    one: &mut Seat<K>,
    other: &mut Seat<K>,
)
    requires case { shared.now.case.now ≡ rise_case }
    requires one { let table = shared.now.table.shared in
        IsAtRest table.table_id shared.now.case.now 2 (0 ∷ []) one.old.place }
    requires other { let table = shared.now.table.shared in
        IsAtRest table.table_id shared.now.case.now 2 (1 ∷ []) other.old.place }
    ensures one { let table = shared.now.table.shared in
        IsAtRest table.table_id shared.now.case.now 2 (0 ∷ []) one.new.place }
    ensures other { let table = shared.now.table.shared in
        IsAtRest table.table_id shared.now.case.now 2 (1 ∷ []) other.new.place }
{
    let found = [found_beside(shared, one, other), try_once(shared, other)];
    let claimed = claim_by_turns(alloc, shared, one, other);
    let is_so = found.as_slice() == FOUND && claimed.as_slice() == CLAIMED;
    must(rt, is_so, "what comes of each try");
}

#[test]
fn turn_is_busy(rt: HostRuntime) {
    try_all(&rt, rt.alloc(), Table::Seats(Pair::Turns, 3));
}
