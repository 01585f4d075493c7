//! A claim through a desk of a shared book.
ghost use Rattle.std.specs.Prelude.{◌≡◌, IfErr, IfOk, OnErr};
ghost use Rattle.run_history.specs.Legal.{MayClaim};
ghost use Rattle.book.specs.Desking.{HasClaimed};
ghost use Rattle.book.specs.DeskReasons.{HasClaimReason};
ghost use Rattle.book.specs.Desks.{HasLooked, KeepsMarks};
ghost use Rattle.shared_book.specs.SharedDesks.{HasKept, shared_view};
ghost use Rattle.shared_book.specs.Turns.{IsHere, IsIdle};

use crate::finishing::give_at;
use crate::seats::Seat;
use crate::shared::Shared;
use crate::slots::take;
use crate::turn_calls::claim_at;
use book::{Claimed, DeskRefusal};
use row_keeper::Keeper;
use std::alloc::Global;

// One try for the turn, the claim, and the release.
pub(crate) fn claim_once<K: Keeper>(
    alloc: Global,
    shared: &Shared<'_, K>,
    seat: &mut Seat<K>,
    worker: u32,
    interval: u32,
) -> Result<Claimed, DeskRefusal>
    requires here { IsHere shared.now.table.shared.table_id shared.now.case.now seat.old.place }
    requires idle { IsIdle seat.old.place.me }
    requires kept { HasKept seat.old.place.me.0 }
    requires may { MayClaim shared.now.case.now worker interval }

    ensures here { IsHere shared.now.table.shared.table_id shared.now.case.now seat.new.place }
    ensures idle { IsIdle seat.new.place.me }
    ensures kept { HasKept seat.new.place.me.0 }
    ensures numbers { seat.new.place.me.0.numbers ≡ seat.old.place.me.0.numbers }
    ensures basis { seat.new.place.me.0.basis ≡ seat.old.place.me.0.basis }
    ensures claimed { IfOk result (HasClaimed (shared_view seat.old.place.me.0)
        (shared_view seat.new.place.me.0) worker interval) }
    ensures looked { OnErr result (HasLooked (shared_view seat.old.place.me.0)
        (shared_view seat.new.place.me.0)) }
    ensures reason { IfErr result (HasClaimReason (shared_view seat.old.place.me.0)
        (shared_view seat.new.place.me.0)) }
    ensures marks { KeepsMarks (shared_view seat.old.place.me.0)
        (shared_view seat.new.place.me.0) }
{
    let found = take(shared, seat);
    if found != 0 {
        return Err(DeskRefusal::Busy { found });
    }
    let result = claim_at(alloc, shared, seat, worker, interval);
    give_at(shared, seat);
    match result {
        Ok(claimed) => Ok(claimed),
        Err(why) => Err(DeskRefusal::of_claim(why)),
    }
}
