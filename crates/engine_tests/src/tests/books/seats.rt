//! What the tests do with a seat of a shared book: each call is one turn.
ghost use Rattle.std.specs.Prelude.{◌≡◌, ℕ, List};
ghost use Rattle.run_history.specs.Legal.{MayClaim};
ghost use Rattle.shared_book.specs.Turns.{HasTurn, IsHere};
ghost use Rattle.engine_tests.specs.TestSeats.{IsAtRest};

use book::ClaimRefusal;
use row_keeper::Keeper;
use shared_book::{Seat, Shared, Turn};
use std::alloc::Global;

// What came of a try for the turn.
#[derive(Clone, Copy, PartialEq, Eq)]
pub(crate) enum Tried {
    // Another had the turn.
    Busy { found: u64 },
    // The interval was claimed.
    Claimed { seq: u64 },
    // The turn was there, and the keeper failed.
    KeeperFault,
    // The turn was there, and the book refused.
    Refused,
    // The turn was there, and was given back.
    Given,
}

// What came of a claim in a turn.
pub(crate) fn claim_with<K: Keeper>(
    alloc: Global,
    turn: &mut Turn<'_, '_, K>,
    worker: u32,
    interval: u32,
) -> Tried
    requires here { let shared = turn.old.shared.now in
        IsHere shared.table.shared.table_id shared.case.now turn.old.seat.now.place }
    requires turn { HasTurn turn.old.seat.now.place.me }
    requires may { MayClaim turn.old.shared.now.case.now worker interval }
    ensures loan { turn.new.seat.ghost_name ≡ turn.old.seat.ghost_name }
    ensures shared { turn.new.shared.now ≡ turn.old.shared.now }
    ensures here { let shared = turn.old.shared.now in
        IsHere shared.table.shared.table_id shared.case.now turn.new.seat.now.place }
    ensures turn { HasTurn turn.new.seat.now.place.me }
    ensures numbers { turn.new.seat.now.place.me.0.numbers
        ≡ turn.old.seat.now.place.me.0.numbers }
    ensures basis { turn.new.seat.now.place.me.0.basis ≡ turn.old.seat.now.place.me.0.basis }
{
    let claimed = turn.claim(alloc, worker, interval);
    let tried = match &claimed {
        Ok(claimed) => Tried::Claimed {
            seq: claimed.lease.seq(),
        },
        Err(ClaimRefusal::KeeperFault) => Tried::KeeperFault,
        Err(_) => Tried::Refused,
    };
    drop(claimed);
    tried
}

// One try for the turn, and a claim in it.
pub(crate) fn claim_once<K: Keeper>(
    alloc: Global,
    shared: &Shared<'_, K>,
    seat: &mut Seat<K>,
    worker: u32,
    interval: u32,
) -> Tried
    requires rest { let table = shared.now.table.shared in let v = seat.old.place.me.0 in
        IsAtRest table.table_id shared.now.case.now v.basis.seats v.numbers seat.old.place }
    requires may { MayClaim shared.now.case.now worker interval }
    ensures rest { let table = shared.now.table.shared in let v = seat.old.place.me.0 in
        IsAtRest table.table_id shared.now.case.now v.basis.seats v.numbers seat.new.place }
{
    match seat.try_turn(&*shared) {
        Ok(turn) => {
            let mut turn = turn;
            let tried = claim_with(alloc, &mut turn, worker, interval);
            turn.release();
            tried
        }
        Err(busy) => Tried::Busy { found: busy.found },
    }
}

// One try for the turn, which is given back at once.
pub(crate) fn try_once<K: Keeper>(shared: &Shared<'_, K>, seat: &mut Seat<K>) -> Tried
    requires rest { let table = shared.now.table.shared in let v = seat.old.place.me.0 in
        IsAtRest table.table_id shared.now.case.now v.basis.seats v.numbers seat.old.place }
    ensures rest { let table = shared.now.table.shared in let v = seat.old.place.me.0 in
        IsAtRest table.table_id shared.now.case.now v.basis.seats v.numbers seat.new.place }
{
    match seat.try_turn(&*shared) {
        Ok(turn) => {
            turn.release();
            Tried::Given
        }
        Err(busy) => Tried::Busy { found: busy.found },
    }
}
