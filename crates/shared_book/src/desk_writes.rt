//! Writes through a desk of a shared book.
ghost use Rattle.std.specs.Prelude.{◌≡◌, IfErr, IfOk, OnErr};
ghost use Rattle.book.specs.Answers.{answer_of};
ghost use Rattle.book.specs.Desking.{IsRowKnown, MayAsk};
ghost use Rattle.book.specs.DeskReasons.{HasReason};
ghost use Rattle.book.specs.Desks.{HasLooked, KeepsMarks};
ghost use Rattle.book.specs.Writings.{HasPut, MayPut};
ghost use Rattle.shared_book.specs.SharedDesks.{HasKept, shared_view};
ghost use Rattle.shared_book.specs.Turns.{IsHere, IsIdle};

use crate::finishing::finish;
use crate::in_turn::put_in;
use crate::seats::Seat;
use crate::shared::Shared;
use crate::slots::take;
use book::{DeskRefusal, Lease, Writing};
use mw_types::RowName;
use row_keeper::Keeper;
use row_parts::Row;
use std::alloc::Global;

// One try for the turn, a write on a row that is changed where it lies, and the release.
pub(crate) fn put_once<K: Keeper>(
    alloc: Global,
    shared: &Shared<'_, K>,
    seat: &mut Seat<K>,
    lease: &Lease,
    name: &RowName,
    row: &mut Row,
    writing: Writing<'_>,
) -> Result<u64, DeskRefusal>
    requires here { IsHere shared.now.table.shared.table_id shared.now.case.now seat.old.place }
    requires idle { IsIdle seat.old.place.me }
    requires kept { HasKept seat.old.place.me.0 }
    requires lease { MayAsk (shared_view seat.old.place.me.0) lease.now name.now }
    requires row { IsRowKnown (shared_view seat.old.place.me.0)
        lease.now name.now row.old }
    requires may { MayPut (shared_view seat.old.place.me.0) name.now row.old writing }

    ensures here { IsHere shared.now.table.shared.table_id shared.now.case.now seat.new.place }
    ensures idle { IsIdle seat.new.place.me }
    ensures kept { HasKept seat.new.place.me.0 }
    ensures numbers { seat.new.place.me.0.numbers ≡ seat.old.place.me.0.numbers }
    ensures basis { seat.new.place.me.0.basis ≡ seat.old.place.me.0.basis }
    ensures put { IfOk result (λ commit. HasPut (shared_view seat.old.place.me.0)
        (shared_view seat.new.place.me.0) lease.now name.now writing.entry row.old
        (answer_of commit row.new)) }
    ensures row { OnErr result (row.new ≡ row.old) }
    ensures looked { OnErr result (HasLooked (shared_view seat.old.place.me.0)
        (shared_view seat.new.place.me.0)) }
    ensures reason { IfErr result (HasReason (shared_view seat.old.place.me.0)
        (shared_view seat.new.place.me.0) lease.now) }
    ensures marks { KeepsMarks (shared_view seat.old.place.me.0)
        (shared_view seat.new.place.me.0) }
{
    let found = take(shared, seat);
    if found != 0 {
        return Err(DeskRefusal::Busy { found });
    }
    let (result, floor_after) = put_in(alloc, shared, &mut seat.place, lease, name, row, writing);
    finish(shared, seat, floor_after);
    match result {
        Ok(commit) => Ok(commit),
        Err(why) => Err(DeskRefusal::of_write(why)),
    }
}
