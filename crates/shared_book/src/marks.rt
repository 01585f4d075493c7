//! Marks and the floor, which a seat reads and raises without the turn.
ghost use Rattle.std.specs.Prelude.{◌≡◌, ◌<◌, ◌≤◌, min, slice_set, true};
ghost use Rattle.watermark.specs.Marks.{mark_of};
ghost use Rattle.shared_book.specs.Lists.{IsIn};
ghost use Rattle.shared_book.specs.MarkSteps.{IsOwnSettled};
ghost use Rattle.shared_book.specs.Places.{input_under, with_floor_loaded, with_mark_loaded};
ghost use Rattle.shared_book.specs.Turns.{IsHere};

use crate::mark_words::{load_floor, load_mark, raise_mark};
use crate::seats::Seat;
use crate::shared::Shared;
use book::Lease;
use row_keeper::Keeper;

impl<'a, K: Keeper> Shared<'a, K> {
    /// One load of the mark of an interval, in whole microseconds. It is not below what the seat had
    /// loaded.
    pub fn mark(&self, seat: &mut Seat<K>, interval: u32) -> u64
        requires here { IsHere self.now.table.shared.table_id self.now.case.now seat.old.place }
        requires there { interval < 61 }

        ensures here { IsHere self.now.table.shared.table_id self.now.case.now seat.new.place }
        ensures view { let me = seat.old.place.me in
            seat.new.place.me ≡ (with_mark_loaded me.0 interval result, me.1) }
        ensures rises { mark_of seat.old.place.me.0.marks interval ≤ result }
        ensures number { seat.new.number ≡ seat.old.number }
    {
        let mark = load_mark(self, &mut seat.place, interval);
        seat.settled = keep_mark(&mut seat.marks, interval, mark, seat.settled);
        mark
    }

    /// One load of the floor. It is not below what the seat had loaded, and at most the floor of the
    /// history.
    pub fn floor(&self, seat: &mut Seat<K>) -> u64
        requires here { IsHere self.now.table.shared.table_id self.now.case.now seat.old.place }

        ensures here { IsHere self.now.table.shared.table_id self.now.case.now seat.new.place }
        ensures view { let me = seat.old.place.me in
            seat.new.place.me ≡ (with_floor_loaded me.0 result, me.1) }
        ensures rises { seat.old.place.me.0.floor ≤ result }
        ensures number { seat.new.number ≡ seat.old.number }
    {
        load_floor(self, &mut seat.place)
    }

    /// Raises the mark of a lease's interval to its own work, in whole microseconds, as far as the
    /// marks that feed it allowed when the lease was last settled, and answers the mark. A lease that
    /// is stale may raise too: what it vouches for still holds.
    pub fn raise(&self, seat: &mut Seat<K>, lease: &Lease, own: u64) -> u64
        requires here { IsHere self.now.table.shared.table_id self.now.case.now seat.old.place }
        requires lease { IsIn lease.now seat.old.place.me.0.leases }
        requires own { IsOwnSettled seat.old.place.me.0 lease.now own }

        ensures here { IsHere self.now.table.shared.table_id self.now.case.now seat.new.place }
        ensures view { let me = seat.old.place.me in
            seat.new.place.me ≡ (with_mark_loaded me.0 lease.now.interval result, me.1) }
        ensures raised { min own (input_under seat.old.place.me.0 lease.now) ≤ result }
        ensures rises { mark_of seat.old.place.me.0.marks lease.now.interval ≤ result }
        ensures number { seat.new.number ≡ seat.old.number }
    {
        let input = settled_input(seat, lease);
        let mark = raise_mark(self, &mut seat.place, lease, own.min(input));
        seat.settled = keep_mark(&mut seat.marks, lease.interval(), mark, seat.settled);
        mark
    }
}

// Keeps a mark as it was loaded. What was settled stays settled where the mark is what it was.
fn keep_mark(marks: &mut [u64; 61], interval: u32, mark: u64, settled: bool) -> bool
    requires there { interval < 61 }
    ensures marks { marks.new ≡ slice_set marks.old interval mark }
    ensures same { result ≡ true → marks.new ≡ marks.old }
    ensures settled { result ≡ true → settled ≡ true }
{
    let same = marks[interval as usize] == mark;
    marks[interval as usize] = mark;
    settled && same
}

// The mark to which what feeds a lease's interval allowed to raise it: 0 where the seat has a newer
// lease of the interval.
fn settled_input<K: Keeper>(seat: &Seat<K>, lease: &Lease) -> u64
    requires there { lease.now.interval < 61 }
    ensures { result ≡ input_under seat.now.place.me.0 lease.now }
{
    let interval = lease.interval() as usize;
    let claim = seat.claims[interval];
    if claim == 0 {
        return 0;
    }
    if claim - 1 == lease.seq() {
        seat.inputs[interval]
    } else {
        0
    }
}
