//! The begin of a desk.
ghost use Rattle.std.specs.Prelude.{◌≡◌};
ghost use Rattle.shared_book.specs.SharedDesks.{HasKept};
ghost use Rattle.shared_book.specs.Turns.{IsHere};

use crate::seats::Seat;
use crate::shared::Shared;
use crate::slots::look;
use row_keeper::Keeper;

// The seat of a desk looks, to learn what it has seen.
pub(crate) fn begin<K: Keeper>(shared: &Shared<'_, K>, seat: &mut Seat<K>)
    requires here { IsHere shared.now.table.shared.table_id shared.now.case.now seat.old.place }
    ensures here { IsHere shared.now.table.shared.table_id shared.now.case.now seat.new.place }
    ensures same { seat.new.place.me ≡ seat.old.place.me }
    ensures number { seat.new.number ≡ seat.old.number }
    ensures kept { HasKept seat.new.place.me.0 }
{
    look(shared, &mut seat.place);
}
