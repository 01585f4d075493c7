//! Marks and the floor through a desk of a shared book.
ghost use Rattle.std.specs.Prelude.{◌≡◌, ◌<◌, ◌≤◌, ℕ, [], length, min, true};
ghost use Rattle.run_history.specs.Cases.{intervals_of};
ghost use Rattle.watermark.specs.Marks.{mark_of};
ghost use Rattle.book.specs.Conditions.{IsOwnWork};
ghost use Rattle.book.specs.Desks.{HasLooked, KeepsMarks};
ghost use Rattle.shared_book.specs.Places.{input_under};
ghost use Rattle.shared_book.specs.SharedDesks.{HasKept, is_held, shared_view};
ghost use Rattle.shared_book.specs.Turns.{IsHere, IsIdle};

use crate::seats::Seat;
use crate::shared::Shared;
use crate::slots::look;
use book::Lease;
use history_laws::case_is_runnable;
use row_keeper::Keeper;

// One raise, whoever has the turn.
pub(crate) fn report_once<K: Keeper>(
    shared: &Shared<'_, K>,
    seat: &mut Seat<K>,
    lease: &Lease,
    own: u64,
) -> u64
    requires here { IsHere shared.now.table.shared.table_id shared.now.case.now seat.old.place }
    requires idle { IsIdle seat.old.place.me }
    requires kept { HasKept seat.old.place.me.0 }
    requires lease { is_held seat.old.place.me.0.leases lease.now ≡ true }
    requires own { let v = seat.old.place.me.0 in
        IsOwnWork v.basis.case v.basis.told v.front lease.now own }

    ensures here { IsHere shared.now.table.shared.table_id shared.now.case.now seat.new.place }
    ensures idle { IsIdle seat.new.place.me }
    ensures kept { HasKept seat.new.place.me.0 }
    ensures numbers { seat.new.place.me.0.numbers ≡ seat.old.place.me.0.numbers }
    ensures basis { seat.new.place.me.0.basis ≡ seat.old.place.me.0.basis }
    ensures answer { result ≡ mark_of (shared_view seat.new.place.me.0).marks lease.now.interval }
    ensures raised_to { min own (input_under seat.old.place.me.0 lease.now) ≤ result }
    ensures looked { HasLooked (shared_view seat.old.place.me.0) (shared_view seat.new.place.me.0) }
    ensures marks { KeepsMarks (shared_view seat.old.place.me.0)
        (shared_view seat.new.place.me.0) }
{
    case_is_runnable(shared.case);
    look(shared, &mut seat.place);
    shared.raise(seat, lease, own)
}

// One load of a mark.
pub(crate) fn mark_once<K: Keeper>(shared: &Shared<'_, K>, seat: &mut Seat<K>, interval: u32) -> u64
    requires here { IsHere shared.now.table.shared.table_id shared.now.case.now seat.old.place }
    requires idle { IsIdle seat.old.place.me }
    requires kept { HasKept seat.old.place.me.0 }
    requires there { interval < length (intervals_of shared.now.case.now.topology) }

    ensures here { IsHere shared.now.table.shared.table_id shared.now.case.now seat.new.place }
    ensures idle { IsIdle seat.new.place.me }
    ensures kept { HasKept seat.new.place.me.0 }
    ensures numbers { seat.new.place.me.0.numbers ≡ seat.old.place.me.0.numbers }
    ensures basis { seat.new.place.me.0.basis ≡ seat.old.place.me.0.basis }
    ensures mark { result ≡ mark_of (shared_view seat.new.place.me.0).marks interval }
    ensures looked { HasLooked (shared_view seat.old.place.me.0) (shared_view seat.new.place.me.0) }
    ensures marks { KeepsMarks (shared_view seat.old.place.me.0)
        (shared_view seat.new.place.me.0) }
{
    case_is_runnable(shared.case);
    shared.mark(seat, interval)
}

// One load of the floor.
pub(crate) fn floor_once<K: Keeper>(shared: &Shared<'_, K>, seat: &mut Seat<K>) -> u64
    requires here { IsHere shared.now.table.shared.table_id shared.now.case.now seat.old.place }
    requires idle { IsIdle seat.old.place.me }

    ensures here { IsHere shared.now.table.shared.table_id shared.now.case.now seat.new.place }
    ensures idle { IsIdle seat.new.place.me }
    ensures kept { HasKept seat.new.place.me.0 }
    ensures numbers { seat.new.place.me.0.numbers ≡ seat.old.place.me.0.numbers }
    ensures basis { seat.new.place.me.0.basis ≡ seat.old.place.me.0.basis }
    ensures floor { result ≡ (shared_view seat.new.place.me.0).floor }
    ensures looked { HasLooked (shared_view seat.old.place.me.0) (shared_view seat.new.place.me.0) }
    ensures marks { KeepsMarks (shared_view seat.old.place.me.0)
        (shared_view seat.new.place.me.0) }
{
    let floor = shared.floor(seat);
    look(shared, &mut seat.place);
    floor
}
