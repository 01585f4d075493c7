//! How a book comes to be shared, and seats of callers.
ghost use Rattle.std.specs.Prelude.{◌≡◌, ◌<◌, ◌≤◌, ◌+◌, ◌∷◌, [], ℕ, IfErr, IfOk, IfSome, None, Some, false, length, true};
ghost use Rattle.run_history.specs.Legal.{floor_of};
ghost use Rattle.run_history.specs.Runs.{run_of};
ghost use Rattle.watermark.specs.Marks.{mark_of};
ghost use Rattle.book.specs.Books.{core_of};
ghost use Rattle.book.specs.Lawful.{IsLawful};
ghost use Rattle.book.specs.Marks.{AreSafe};
ghost use Rattle.shared_book.specs.Joins.{first_of, leaves, others_of, stays};
ghost use Rattle.shared_book.specs.Opening.{AreRight, blank, newborn};
ghost use Rattle.shared_book.specs.Turns.{IsHere, IsIdle};

use crate::rule::{Dealt, Fetch, Open};
use crate::seats::Seat;
use crate::shared::{Key, Shared};
use crate::views::View;
use atomic_table::{Seat as Place, Table};
use book::{Book, Core};
use history_laws::case_is_runnable;
use row_keeper::Keeper;
use run_history::Case;
use std::alloc::Global;

/// Memory ran out before the book was shared, and it comes back.
#[derive(Drop)]
pub struct SharedRefusal<'a, K: Keeper> {
    /// The book.
    pub book: Book<'a, K>,
}

impl<'a, K: Keeper> Shared<'a, K> {
    /// Shares a book among so many seats of callers: the first seat has all their numbers, and
    /// deals them. It has seen the whole history, and has no lease.
    pub fn start(
        alloc: Global,
        book: Book<'a, K>,
        seats: u32,
    ) -> Result<(Shared<'a, K>, Seat<K>), SharedRefusal<'a, K>>
        requires some { 0 < seats }
        requires few { seats ≤ 17 }

        ensures case { IfOk result (λ shared. shared.0.case.now ≡ book.entry.case) }
        ensures here { IfOk result (λ shared. IsHere shared.0.table.shared.table_id
            book.entry.case shared.1.place) }
        ensures idle { IfOk result (λ shared. IsIdle shared.1.place.me) }
        ensures view { IfOk result (λ shared. shared.1.place.me.0
            ≡ newborn (blank book.entry.case seats true) (core_of book.entry)) }
        ensures number { IfOk result (λ shared. shared.1.number ≡ 0) }

        // The words begin with the book's floor and marks.
        ensures floor { IfOk result (λ shared. shared.0.table.shared.key.floor
            ≡ floor_of (run_of book.entry.case.topology book.entry.history)) }
        ensures marks { IfOk result (λ shared. (interval : ℕ) →
            mark_of shared.0.table.shared.key.marks interval ≡ mark_of book.entry.marks interval) }
        ensures book { IfErr result (λ refusal. refusal.book ≡ book.entry) }
    {
        let many = book.history().len() as u64;
        let floor = book.floor();
        let marks = first_marks(&book);
        let (case, core) = book.into_core();
        match opened(alloc, case, core, u64::from(seats), many, floor, marks) {
            Ok(shared) => Ok(shared),
            Err(core) => Err(SharedRefusal {
                book: Book::of(case, core),
            }),
        }
    }

    /// Gives the least number of a seat to a new one, which has seen what the seat has, and has no
    /// lease.
    pub fn deal(&self, seat: &mut Seat<K>) -> Seat<K>
        requires here { IsHere self.now.table.shared.table_id self.now.case.now seat.old.place }
        requires idle { IsIdle seat.old.place.me }
        requires more { first_of (others_of seat.old.place.me.0.numbers)
            ≡ (seat.old.number + 1) ∷ [] }
        requires few { seat.old.number < 60 }

        ensures here { IsHere self.now.table.shared.table_id self.now.case.now seat.new.place }
        ensures stays { seat.new.place.me ≡ (stays seat.old.place.me.0, []) }
        ensures next { seat.new.number ≡ seat.old.number + 1 }
        ensures new { IsHere self.now.table.shared.table_id self.now.case.now result.place }
        ensures leaves { result.place.me ≡ (leaves seat.old.place.me.0, []) }
        ensures number { result.number ≡ seat.old.number }
    {
        let number = seat.number;
        let place = self.table.shared.split_seat::<Dealt>(&mut seat.place);
        seat.number = number + 1;
        Seat {
            place,
            number,
            marks: [0; 61],
            claims: [0; 61],
            inputs: [0; 61],
            settled: false,
        }
    }
}

// A table with a book in its place, and the first seat, which has all numbers.
fn opened<'a, K: Keeper>(
    alloc: Global,
    case: &'a Case,
    core: Core<K>,
    seats: u64,
    many: u64,
    floor: u64,
    marks: [u64; 61],
) -> Result<(Shared<'a, K>, Seat<K>), Core<K>>
    requires lawful { IsLawful case.now core }
    requires some { 0 < seats }
    requires many { many ≡ length core.history }
    requires right { AreRight case.now floor marks core }

    ensures case { IfOk result (λ shared. shared.0.case.now ≡ case.now) }
    ensures here { IfOk result (λ shared.
        IsHere shared.0.table.shared.table_id case.now shared.1.place) }
    ensures idle { IfOk result (λ shared. IsIdle shared.1.place.me) }
    ensures view { IfOk result (λ shared.
        shared.1.place.me.0 ≡ newborn (blank case.now seats true) core) }
    ensures number { IfOk result (λ shared. shared.1.number ≡ 0) }
    ensures floor { IfOk result (λ shared. shared.0.table.shared.key.floor ≡ floor) }
    ensures marks { IfOk result (λ shared. shared.0.table.shared.key.marks ≡ marks) }
    ensures core { IfErr result (λ given. given ≡ core) }
{
    let key = Key {
        case,
        seats,
        floor,
        marks,
    };
    match Table::vacant(alloc, &first_words(floor, &marks), 1, &key) {
        Ok((table, mut place)) => {
            let shared = Shared { case, table };
            fill(&shared, &mut place, core, seats, many);
            let seat = Seat {
                place,
                number: 0,
                marks: [0; 61],
                claims: [0; 61],
                inputs: [0; 61],
                settled: false,
            };
            Ok((shared, seat))
        }
        Err(_) => Err(core),
    }
}

// The words of a table before the book is in it: the floor behind the first two, and each mark.
fn first_words(floor: u64, marks: &[u64; 61]) -> [u64; 64]
    ensures { result ≡ 0 ∷ 0 ∷ floor ∷ marks.now }
{
    let mut words = [0; 64];
    words[2] = floor;
    words[3..].copy_from_slice(marks);
    words
}

// The marks of a book, and 0 behind them.
fn first_marks<K: Keeper>(book: &Book<'_, K>) -> [u64; 61]
    ensures long { length result ≡ 61 }
    ensures marks { (interval : ℕ) → mark_of result interval ≡ mark_of book.now.marks interval }
    ensures safe { IfSome book.now.rows (λ _. AreSafe book.now.case
        (run_of book.now.case.topology book.now.history) result) }
{
    case_is_runnable(book.case());
    widened(book.marks())
}

// Numbers, and 0 behind them.
fn widened(given: &[u64]) -> [u64; 61]
    requires { length given.now ≤ 61 }
    ensures long { length result ≡ 61 }
    ensures marks { (k : ℕ) → mark_of result k ≡ mark_of given.now k }
{
    let mut marks = [0; 61];
    marks[..given.len()].copy_from_slice(given);
    marks
}

// The book is put into the place, in two steps: the first seat takes the place, and gives it back.
fn fill<K: Keeper>(
    shared: &Shared<'_, K>,
    place: &mut Place<Option<Core<K>>, View>,
    core: Core<K>,
    seats: u64,
    many: u64,
)
    requires table { place.old.table_id ≡ shared.now.table.shared.table_id }
    requires case { shared.now.table.shared.key.case.now ≡ shared.now.case.now }
    requires seats { shared.now.table.shared.key.seats ≡ seats }
    requires blank { place.old.me ≡ (blank shared.now.case.now seats false, []) }
    requires some { 0 < seats }
    requires lawful { IsLawful shared.now.case.now core }
    requires many { many ≡ length core.history }
    requires right { let key = shared.now.table.shared.key in
        AreRight shared.now.case.now key.floor key.marks core }
    ensures table { place.new.table_id ≡ shared.now.table.shared.table_id }
    ensures view { place.new.me ≡ (newborn (blank shared.now.case.now seats true) core, []) }
{
    shared.table.shared.load::<Fetch>(place, 0);
    let was = shared.table.shared.exchange(place, 0, Some(core));
    let None = was else { unreachable!() };
    shared.table.shared.store::<Open>(place, 0, many);
}
