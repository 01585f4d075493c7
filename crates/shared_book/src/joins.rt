//! Notes, seats that take in others, and the close.
ghost use Rattle.std.specs.Prelude.{◌≡◌, ◌<◌, ℕ, []};
ghost use Rattle.run_history.specs.Fences.{Begins};
ghost use Rattle.book.specs.Books.{core_of};
ghost use Rattle.shared_book.specs.Joins.{joined, note_of};
ghost use Rattle.shared_book.specs.Lists.{IsIn};
ghost use Rattle.shared_book.specs.Steps.{HasSeenLawful};
ghost use Rattle.shared_book.specs.Turns.{HasMetForeign, IsClosed, IsHere, IsIdle};

use crate::joined_arrays::{greater_of, newer_of};
use crate::meets::meet_at;
use crate::put_back::{put_back, reload};
use crate::rule::{Joined, Noted};
use crate::seats::{Note, Seat};
use crate::shared::Shared;
use crate::slots::look;
use book::Book;
use row_keeper::Keeper;

impl<'a, K: Keeper> Shared<'a, K> {
    /// A note of what a seat has seen, which has no lease and no number.
    pub fn note(&self, seat: &mut Seat<K>) -> Note<K>
        requires here { IsHere self.now.table.shared.table_id self.now.case.now seat.old.place }
        ensures table { seat.new.place.table_id ≡ seat.old.place.table_id }
        ensures same { seat.new.place.me ≡ seat.old.place.me }
        ensures number { seat.new.number ≡ seat.old.number }
        ensures note { IsHere self.now.table.shared.table_id self.now.case.now result.place }
        ensures view { result.place.me ≡ (note_of seat.old.place.me.0, []) }
    {
        Note {
            place: self.table.shared.split_seat::<Noted>(&mut seat.place),
        }
    }

    /// The seat comes to see at least what the note has, and has its own numbers, entries, leases
    /// and faults as before. What it comes to see was not written under a lease of its own. It
    /// holds no turn.
    pub fn meet(&self, seat: &mut Seat<K>, note: Note<K>)
        requires here { IsHere self.now.table.shared.table_id self.now.case.now seat.old.place }
        requires idle { IsIdle seat.old.place.me }
        requires note { IsHere self.now.table.shared.table_id self.now.case.now note.place }

        ensures here { IsHere self.now.table.shared.table_id self.now.case.now seat.new.place }
        ensures view { seat.new.place.me ≡ (joined seat.old.place.me.0 note.place.me.0, []) }
        ensures number { seat.new.number ≡ seat.old.number }
        ensures met { Begins note.place.me.0.front seat.new.place.me.0.front }
        ensures numbers { seat.new.place.me.0.numbers ≡ seat.old.place.me.0.numbers }
        ensures own { seat.new.place.me.0.own ≡ seat.old.place.me.0.own }
        ensures leases { seat.new.place.me.0.leases ≡ seat.old.place.me.0.leases }
        ensures faults { seat.new.place.me.0.faults ≡ seat.old.place.me.0.faults }
        ensures lawful { HasSeenLawful seat.new.place.me.0 }
        ensures foreign { HasMetForeign seat.old.place.me.0 seat.new.place.me.0 }
    {
        meet_at(self, seat, note);
    }

    /// The seat takes in another of a caller, with its numbers, leases and entries. Of each
    /// interval it then has settled the newer lease of the two, and of each word it has loaded the
    /// greater value. Neither holds a turn.
    pub fn join(&self, seat: &mut Seat<K>, other: Seat<K>)
        requires here { IsHere self.now.table.shared.table_id self.now.case.now seat.old.place }
        requires idle { IsIdle seat.old.place.me }
        requires other { IsHere self.now.table.shared.table_id self.now.case.now other.place }
        requires other_idle { IsIdle other.place.me }

        ensures here { IsHere self.now.table.shared.table_id self.now.case.now seat.new.place }
        ensures view { seat.new.place.me ≡ (joined seat.old.place.me.0 other.place.me.0, []) }

        // What either had seen begins what the seat has seen now.
        ensures seen { Begins seat.old.place.me.0.front seat.new.place.me.0.front }
        ensures met { Begins other.place.me.0.front seat.new.place.me.0.front }
    {
        let Seat {
            place,
            number,
            marks,
            claims,
            inputs,
            settled: _,
        } = other;
        let mut theirs = place;
        look(self, &mut theirs);
        self.table
            .shared
            .join_seat::<Joined>(&mut seat.place, theirs);
        look(self, &mut seat.place);
        // Each seat settled its leases by the marks that it alone had loaded.
        seat.settled = false;
        seat.marks = greater_of(&seat.marks, &marks);
        seat.inputs = newer_of(&seat.claims, &claims, &seat.inputs, &inputs);
        seat.claims = newer_of(&seat.claims, &claims, &seat.claims, &claims);
        if number < seat.number {
            seat.number = number;
        }
    }

    /// The book comes back from the seat that has all numbers, and no turn: each entry since the
    /// start is the seat's own. Its marks are those of the words, which the seat loads first: none
    /// is below what the seat had loaded. Where the seat saw the keeper fail, that has failed more
    /// often than at the start.
    pub fn close(self, seat: Seat<K>) -> Book<'a, K>
        requires here { IsHere self.table.shared.table_id self.case.now seat.place }
        requires idle { IsIdle seat.place.me }
        requires all { (n : ℕ) → n < seat.place.me.0.basis.seats → IsIn n seat.place.me.0.numbers }

        ensures case { result.case ≡ self.entry.case.now }
        ensures closed { IsClosed seat.place.me.0 (core_of result) }
    {
        let mut seat = seat;
        reload(&self, &mut seat);
        let Seat { place, marks, .. } = seat;
        let Shared { case, table } = self;
        let mut closed = table.close_with(place);
        let slot = closed.take(0);
        closed.free();
        match slot {
            Some(core) => {
                let mut book = Book::of(case, core);
                put_back(&mut book, &marks);
                book
            }
            None => unreachable!(),
        }
    }
}
