//! A desk comes to see all that was appended.
ghost use Rattle.std.specs.Prelude.{◌≡◌, IfErr, OnOk};
ghost use Rattle.book.specs.Desks.{HasLooked, KeepsMarks};
ghost use Rattle.shared_book.specs.Guards.{HasMissed};
ghost use Rattle.shared_book.specs.SharedDesks.{HasKept, shared_home, shared_view};
ghost use Rattle.shared_book.specs.Turns.{HasCaughtUp, IsHere, IsIdle};

use crate::finishing::give_at;
use crate::seats::Seat;
use crate::shared::Shared;
use crate::shared_desk::SharedDesk;
use crate::slots::take;
use crate::turn::Busy;
use row_keeper::Keeper;

impl<'s, 'a, K: Keeper> SharedDesk<'s, 'a, K> {
    /// One try for the turn, which is given back at once: where nobody else has it, the seat comes to
    /// see all that was appended, and each of its leases that is the last of its interval allows a mark
    /// as high as the seat has loaded the marks that feed the interval. Where another seat has it, that
    /// is answered.
    pub fn catch_up(&mut self) -> Result<(), Busy>
        ensures caught { OnOk result (HasCaughtUp self.old.seat.now.place.me.0
            self.new.seat.now.place.me.0) }
        ensures busy { IfErr result (HasMissed self.old.seat.now.place.me.0
            self.new.seat.now.place.me.0) }
        ensures looked { HasLooked (shared_view self.old.seat.now.place.me.0)
            (shared_view self.new.seat.now.place.me.0) }
        ensures marks { KeepsMarks (shared_view self.old.seat.now.place.me.0)
            (shared_view self.new.seat.now.place.me.0) }
        ensures shared { self.new.shared.now ≡ self.old.shared.now }
        ensures loan { self.new.seat.ghost_name ≡ self.old.seat.ghost_name }
        ensures home { shared_home self.new.seat.now.place ≡ shared_home self.old.seat.now.place }
    {
        let shared = self.shared;
        turn_once(shared, self.seat)
    }
}

// One try for the turn, and the release.
fn turn_once<K: Keeper>(shared: &Shared<'_, K>, seat: &mut Seat<K>) -> Result<(), Busy>
    requires here { IsHere shared.now.table.shared.table_id shared.now.case.now seat.old.place }
    requires idle { IsIdle seat.old.place.me }
    requires kept { HasKept seat.old.place.me.0 }

    ensures here { IsHere shared.now.table.shared.table_id shared.now.case.now seat.new.place }
    ensures idle { IsIdle seat.new.place.me }
    ensures kept { HasKept seat.new.place.me.0 }
    ensures numbers { seat.new.place.me.0.numbers ≡ seat.old.place.me.0.numbers }
    ensures basis { seat.new.place.me.0.basis ≡ seat.old.place.me.0.basis }
    ensures caught { OnOk result (HasCaughtUp seat.old.place.me.0 seat.new.place.me.0) }
    ensures busy { IfErr result (HasMissed seat.old.place.me.0 seat.new.place.me.0) }
    ensures looked { HasLooked (shared_view seat.old.place.me.0)
        (shared_view seat.new.place.me.0) }
    ensures marks { KeepsMarks (shared_view seat.old.place.me.0)
        (shared_view seat.new.place.me.0) }
{
    let found = take(shared, seat);
    if found != 0 {
        return Err(Busy { found });
    }
    give_at(shared, seat);
    Ok(())
}
