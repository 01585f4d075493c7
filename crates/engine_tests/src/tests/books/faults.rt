//! A keeper that fails under a turn: the claim is refused, the next one is accepted, in the same turn
//! or in another, and the history has what was accepted alone.
ghost use Rattle.std.specs.Prelude.{◌≡◌, ◌<◌, ◌∷◌, []};
ghost use Rattle.worked_examples.specs.Rising.{rise_case};
ghost use Rattle.engine_tests.specs.TestSeats.{IsAtRest};

use super::seats::{Tried, claim_with};
use super::starts::shared_among;
use super::tables::{Table, try_all};
use crate::tests::entries::{Told, are_told};
use crate::tests::keepers::in_memory;
use crate::tests::must;
use row_keeper::Keeper;
use run_history::Case;
use shared_book::{Seat, Shared};
use std::alloc::Global;
use std::process::Abort;

// Four claims, of the workers 0 to 3: the call of the keeper that fails, where each claim is one and the start was
// the first, what came of each claim in the first turn and in the second, and the entries that are left.
#[derive(Clone, Copy)]
pub(crate) struct Fault {
    failing: &'static [u64],
    first: &'static [Tried],
    second: &'static [Tried],
    left: &'static [Told],
}

const FAILED: Tried = Tried::KeeperFault;

const FIRST: Tried = Tried::Claimed { seq: 0 };

const SECOND: Tried = Tried::Claimed { seq: 1 };

const THIRD: Tried = Tried::Claimed { seq: 2 };

// Each of the four claims fails once.
static FAULTS: [Fault; 4] = [
    Fault {
        failing: &[1],
        first: &[FAILED, FIRST],
        second: &[SECOND, THIRD],
        left: &[Told::Claim(1, 1), Told::Claim(2, 0), Told::Claim(3, 1)],
    },
    Fault {
        failing: &[2],
        first: &[FIRST, FAILED],
        second: &[SECOND, THIRD],
        left: &[Told::Claim(0, 0), Told::Claim(2, 0), Told::Claim(3, 1)],
    },
    Fault {
        failing: &[3],
        first: &[FIRST, SECOND],
        second: &[FAILED, THIRD],
        left: &[Told::Claim(0, 0), Told::Claim(1, 1), Told::Claim(3, 1)],
    },
    Fault {
        failing: &[4],
        first: &[FIRST, SECOND],
        second: &[THIRD, FAILED],
        left: &[Told::Claim(0, 0), Told::Claim(1, 1), Told::Claim(2, 0)],
    },
];

// One try for the turn, and two claims in it, of a worker and of the next.
fn claim_twice<K: Keeper>(
    alloc: Global,
    shared: &Shared<'_, K>,
    seat: &mut Seat<K>,
    worker: u32,
) -> [Tried; 2]
    requires case { shared.now.case.now ≡ rise_case }
    requires worker { worker < 15 }
    requires rest { let table = shared.now.table.shared in
        IsAtRest table.table_id shared.now.case.now 1 (0 ∷ []) seat.old.place }
    ensures rest { let table = shared.now.table.shared in
        IsAtRest table.table_id shared.now.case.now 1 (0 ∷ []) seat.new.place }
{
    match seat.try_turn(&*shared) {
        Ok(turn) => {
            let mut turn = turn;
            let first = claim_with(alloc, &mut turn, worker, 0);
            let second = claim_with(alloc, &mut turn, worker + 1, 1);
            turn.release();
            [first, second]
        }
        Err(busy) => {
            let tried = Tried::Busy { found: busy.found };
            [tried, tried]
        }
    }
}

// Two turns with two claims each, over a keeper that fails at one of them.
pub(crate) fn two_turns(rt: &impl Abort, alloc: Global, case: &Case, fault: &Fault)
    requires case { case.now ≡ rise_case }
{
    let keeper = in_memory(rt, alloc, fault.failing);
    let (shared, seat) = shared_among(rt, alloc, case, keeper, 8, 1);
    let mut seat = seat;
    let first = claim_twice(alloc, &shared, &mut seat, 0);
    let second = claim_twice(alloc, &shared, &mut seat, 2);
    let book = shared.close(seat);
    are_told(rt, book.history(), fault.left);
    drop(book);
    let is_so = first.as_slice() == fault.first && second.as_slice() == fault.second;
    must(rt, is_so, "what comes of each claim");
}

#[test]
fn keeper_that_fails_under_a_turn(rt: HostRuntime) {
    try_all(&rt, rt.alloc(), Table::Faults(&FAULTS));
}
