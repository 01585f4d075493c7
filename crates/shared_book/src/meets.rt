//! A note is met.
ghost use Rattle.std.specs.Prelude.{◌≡◌, [], IsSome};
ghost use Rattle.run_history.specs.Fences.{Begins};
ghost use Rattle.book.specs.Desks.{HasLooked, HasMet, KeepsMarks};
ghost use Rattle.shared_book.specs.Joins.{joined};
ghost use Rattle.shared_book.specs.SharedDesks.{HasKept, shared_view, sight_of};
ghost use Rattle.shared_book.specs.Steps.{HasSeenLawful};
ghost use Rattle.shared_book.specs.Turns.{HasMetForeign, IsHere, IsIdle};

use crate::rule::Joined;
use crate::seats::{Note, Seat};
use crate::shared::Shared;
use crate::slots::look;
use row_keeper::Keeper;

// The seat comes to see at least what the note has. A note of the table is of the seat's book.
pub(crate) fn meet_at<K: Keeper>(shared: &Shared<'_, K>, seat: &mut Seat<K>, note: Note<K>)
    requires here { IsHere shared.now.table.shared.table_id shared.now.case.now seat.old.place }
    requires idle { IsIdle seat.old.place.me }
    requires note { note.place.table_id ≡ shared.now.table.shared.table_id }

    ensures here { IsHere shared.now.table.shared.table_id shared.now.case.now seat.new.place }
    ensures view { seat.new.place.me ≡ (joined seat.old.place.me.0 note.place.me.0, []) }
    ensures number { seat.new.number ≡ seat.old.number }
    ensures met { Begins note.place.me.0.front seat.new.place.me.0.front }
    ensures numbers { seat.new.place.me.0.numbers ≡ seat.old.place.me.0.numbers }
    ensures own { seat.new.place.me.0.own ≡ seat.old.place.me.0.own }
    ensures leases { seat.new.place.me.0.leases ≡ seat.old.place.me.0.leases }
    ensures faults { seat.new.place.me.0.faults ≡ seat.old.place.me.0.faults }
    ensures lawful { HasSeenLawful seat.new.place.me.0 }
    ensures foreign { HasMetForeign seat.old.place.me.0 seat.new.place.me.0 }
    ensures basis { note.place.me.0.basis ≡ seat.old.place.me.0.basis }
{
    let Note { place } = note;
    look(shared, &mut seat.place);
    shared
        .table
        .shared
        .join_seat::<Joined>(&mut seat.place, place);
    look(shared, &mut seat.place);
}

// The same through a desk.
pub(crate) fn meet_once<K: Keeper>(shared: &Shared<'_, K>, seat: &mut Seat<K>, note: Note<K>)
    requires here { IsHere shared.now.table.shared.table_id shared.now.case.now seat.old.place }
    requires idle { IsIdle seat.old.place.me }
    requires kept { HasKept seat.old.place.me.0 }
    requires note { note.place.table_id ≡ shared.now.table.shared.table_id }

    ensures here { IsHere shared.now.table.shared.table_id shared.now.case.now seat.new.place }
    ensures idle { IsIdle seat.new.place.me }
    ensures kept { HasKept seat.new.place.me.0 }
    ensures numbers { seat.new.place.me.0.numbers ≡ seat.old.place.me.0.numbers }
    ensures basis { seat.new.place.me.0.basis ≡ seat.old.place.me.0.basis }
    ensures met { HasMet (sight_of note.place.me.0) (shared_view seat.new.place.me.0) }
    ensures tells { IsSome seat.old.place.me.0.basis.told → IsSome (sight_of note.place.me.0) }
    ensures looked { HasLooked (shared_view seat.old.place.me.0)
        (shared_view seat.new.place.me.0) }
    ensures marks { KeepsMarks (shared_view seat.old.place.me.0)
        (shared_view seat.new.place.me.0) }
{
    meet_at(shared, seat, note);
}
