//! The end of a turn.
ghost use Rattle.std.specs.Prelude.{◌≡◌, []};
ghost use Rattle.run_history.specs.Legal.{floor_of};
ghost use Rattle.run_history.specs.Runs.{run_of};
ghost use Rattle.shared_book.specs.MarkSteps.{released};
ghost use Rattle.shared_book.specs.SharedDesks.{HasKept};
ghost use Rattle.shared_book.specs.Turns.{HasTurn, IsHere};

use crate::mark_words::raise_floor;
use crate::seats::Seat;
use crate::settling::{floor_in, settle_leases};
use crate::shared::Shared;
use crate::slots::give;
use row_keeper::Keeper;

// The turn is given back, by a seat that asks the book for the floor first.
pub(crate) fn give_at<K: Keeper>(shared: &Shared<'_, K>, seat: &mut Seat<K>)
    requires here { IsHere shared.now.table.shared.table_id shared.now.case.now seat.old.place }
    requires turn { HasTurn seat.old.place.me }

    ensures table { seat.new.place.table_id ≡ seat.old.place.table_id }
    ensures here { IsHere shared.now.table.shared.table_id shared.now.case.now seat.new.place }
    ensures view { seat.new.place.me ≡ (released seat.old.place.me.0, []) }
    ensures kept { HasKept seat.new.place.me.0 }
    ensures number { seat.new.number ≡ seat.old.number }
{
    let floor = floor_in(shared, &mut seat.place);
    finish(shared, seat, floor);
}

// The floor is raised to that of the history, and the turn is given back: each lease that is the last of
// its interval is settled.
pub(crate) fn finish<K: Keeper>(shared: &Shared<'_, K>, seat: &mut Seat<K>, floor: u64)
    requires here { IsHere shared.now.table.shared.table_id shared.now.case.now seat.old.place }
    requires turn { HasTurn seat.old.place.me }
    requires floor { let v = seat.old.place.me.0 in
        floor ≡ floor_of (run_of v.basis.case.topology v.front) }

    ensures here { IsHere shared.now.table.shared.table_id shared.now.case.now seat.new.place }
    ensures view { seat.new.place.me ≡ (released seat.old.place.me.0, []) }
    ensures kept { HasKept seat.new.place.me.0 }
    ensures number { seat.new.number ≡ seat.old.number }
{
    settle_leases(
        shared,
        &mut seat.place,
        seat.settled,
        &seat.marks,
        &seat.claims,
        &mut seat.inputs,
    );
    seat.settled = true;
    raise_floor(shared, &mut seat.place, floor);
    give(shared, &mut seat.place);
}
