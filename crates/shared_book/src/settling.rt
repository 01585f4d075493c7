//! What a release settles of a seat's leases.
ghost use Rattle.std.specs.Prelude.{◌≡◌, ◌==◌, ◌<◌, ℕ, false, length, suc, true};
ghost use Rattle.std.specs.Option.{option_map_or};
ghost use Rattle.run_history.specs.Cases.{intervals_of};
ghost use Rattle.run_history.specs.Fences.{last_claim};
ghost use Rattle.run_history.specs.Legal.{floor_of};
ghost use Rattle.run_history.specs.Runs.{run_of};
ghost use Rattle.run_history.specs.Watermarks.{least};
ghost use Rattle.watermark.specs.Marks.{feeding_marks};
ghost use Rattle.shared_book.specs.Places.{claims_of, inputs_of};
ghost use Rattle.shared_book.specs.Settling.{AreSettled, AreSettledTo, IsFed, input_after, least_of};
ghost use Rattle.shared_book.specs.Steps.{idle};
ghost use Rattle.shared_book.specs.Turns.{HasTurn, IsHere};

use crate::shared::Shared;
use crate::slots::{home, out};
use crate::views::View;
use atomic_table::Seat as Place;
use book::{Book, Core};
use history_laws::case_is_runnable;
use row_keeper::Keeper;
use watermark::inputs;

// The floor of the history.
pub(crate) fn floor_in<K: Keeper>(
    shared: &Shared<'_, K>,
    place: &mut Place<Option<Core<K>>, View>,
) -> u64
    requires here { IsHere shared.now.table.shared.table_id shared.now.case.now place.old }
    requires turn { HasTurn place.old.me }
    ensures here { IsHere shared.now.table.shared.table_id shared.now.case.now place.new }
    ensures turn { HasTurn place.new.me }
    ensures view { place.new.me.0 ≡ place.old.me.0 }
    ensures floor { let v = place.old.me.0 in
        result ≡ floor_of (run_of v.basis.case.topology v.front) }
{
    let core = out(shared, place);
    let book = Book::of(shared.case, core);
    let floor = book.floor();
    let (_case, core) = book.into_core();
    home(shared, place, core);
    floor
}

// The input marks become those that a release of the turn settles. Where they are settled, nothing is
// asked.
pub(crate) fn settle_leases<K: Keeper>(
    shared: &Shared<'_, K>,
    place: &mut Place<Option<Core<K>>, View>,
    settled: bool,
    marks: &[u64; 61],
    claims: &[u64; 61],
    inputs: &mut [u64; 61],
)
    requires here { IsHere shared.now.table.shared.table_id shared.now.case.now place.old }
    requires turn { HasTurn place.old.me }
    requires loaded { marks.now ≡ place.old.me.0.marks }
    requires claimed { claims.now ≡ claims_of place.old.me.0 }
    requires fed { inputs.old ≡ inputs_of place.old.me.0 }
    requires current { let v = place.old.me.0 in settled ≡ true →
        AreSettled v.basis.case.topology v.front marks.now claims.now inputs.old }

    ensures here { IsHere shared.now.table.shared.table_id shared.now.case.now place.new }
    ensures turn { HasTurn place.new.me }
    ensures view { place.new.me.0 ≡ place.old.me.0 }
    ensures inputs { inputs.new ≡ inputs_of (idle place.old.me.0) }
    ensures settled { let v = place.old.me.0 in
        AreSettled v.basis.case.topology v.front marks.now claims.now inputs.new }
{
    if settled {
        return;
    }
    let core = out(shared, place);
    let book = Book::of(shared.case, core);
    let least = settle(&book, marks, claims, inputs);
    let (_case, core) = book.into_core();
    home(shared, place, core);
    *inputs = least;
}

// Of each interval whose last claim is the seat's, the input mark is the least of the marks that feed
// it.
fn settle<K: Keeper>(
    book: &Book<'_, K>,
    marks: &[u64; 61],
    claims: &[u64; 61],
    inputs: &[u64; 61],
) -> [u64; 61]
    ensures settled { AreSettledTo book.now.case.topology book.now.history marks.now claims.now
        inputs.now 61 result }
{
    let mut settled = *inputs;
    let mut last = None;
    for interval in 0..61 {
        let at = interval as usize;
        let (input, fed) = settled_input(book, marks, interval, claims[at], inputs[at], last);
        settled[at] = input;
        last = fed;
    }
    settled
}

// The input mark of one interval, and the part and its least mark that were computed last. The book is
// asked where the seat has a lease of the interval.
fn settled_input<K: Keeper>(
    book: &Book<'_, K>,
    marks: &[u64; 61],
    interval: u32,
    claim: u64,
    input: u64,
    last: Option<(u32, u64)>,
) -> (u64, Option<(u32, u64)>)
    requires last { IsFed book.now.case.topology marks.now last }
    ensures input { result.0 ≡ input_after book.now.case.topology book.now.history marks.now
        interval claim input }
    ensures last { IsFed book.now.case.topology marks.now result.1 }
{
    if claim == 0 {
        return (input, last);
    }
    if is_last(book.last_claim(interval), claim) {
        book.sound();
        let fed = fed_by(book, interval, marks, last);
        (fed.1, Some(fed))
    } else {
        (input, last)
    }
}

// An interval's part, and the least of the marks that feed it: it is computed where the part is not the
// last.
fn fed_by<K: Keeper>(
    book: &Book<'_, K>,
    interval: u32,
    marks: &[u64; 61],
    last: Option<(u32, u64)>,
) -> (u32, u64)
    requires there { interval < length (intervals_of book.now.case.topology) }
    requires last { IsFed book.now.case.topology marks.now last }
    ensures least { result.1 ≡ least (feeding_marks book.now.case.topology interval marks.now) }
    ensures part { result.1 ≡ least_of book.now.case.topology marks.now result.0 }
{
    let part = book.case().bounds(interval).part;
    if let Some(fed) = last {
        if fed.0 == part {
            return fed;
        }
    }
    (part, least_input(book, interval, marks))
}

// The least of the marks that feed an interval.
fn least_input<K: Keeper>(book: &Book<'_, K>, interval: u32, marks: &[u64; 61]) -> u64
    requires there { interval < length (intervals_of book.now.case.topology) }
    ensures { result ≡ least (feeding_marks book.now.case.topology interval marks.now) }
{
    let case = book.case();
    case_is_runnable(case);
    let count = case.interval_count() as usize;
    inputs(case, interval, &marks[..count])
}

// Whether the last claim is 1 less than this.
fn is_last(last: Option<u64>, claim: u64) -> bool
    ensures { result ≡ option_map_or (λ (seq : ℕ). suc seq == claim) last false }
{
    match last {
        Some(seq) => claim != 0 && claim - 1 == seq,
        None => false,
    }
}
