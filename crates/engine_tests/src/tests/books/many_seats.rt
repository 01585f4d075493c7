//! Seventeen seats of one book: each is dealt from the one before, and all are joined at the end.
ghost use Rattle.std.specs.Prelude.{◌≡◌, ◌<◌, ◌≤◌, ◌+◌, ◌∷◌, [], ℕ};
ghost use Rattle.worked_examples.specs.Rising.{rise_case};
ghost use Rattle.shared_book.specs.Opening.{span};
ghost use Rattle.engine_tests.specs.TestSeats.{IsAtRest};

use super::seats::{Tried, claim_once};
use super::starts::{entries_in, shared_among};
use crate::tests::keepers::in_memory;
use crate::tests::must;
use crate::tests::two_lines::two_line_case;
use row_keeper::Keeper;
use shared_book::{Seat, Shared};
use std::alloc::Global;
use std::process::Abort;

// A seat claims, deals the first of its numbers, and takes the new seat in again once the rest of
// its numbers were dealt. Whether each of them has claimed.
fn dealt<K: Keeper>(alloc: Global, shared: &Shared<'_, K>, seat: &mut Seat<K>, left: u32) -> bool
    requires case { shared.now.case.now ≡ rise_case }
    requires few { seat.old.number + left < 17 }
    requires rest { let table = shared.now.table.shared in IsAtRest table.table_id
        shared.now.case.now 17 (span seat.old.number (left + 1)) seat.old.place }
    ensures rest { let table = shared.now.table.shared in IsAtRest table.table_id
        shared.now.case.now 17 (span seat.old.number (left + 1)) seat.new.place }
{
    let tried = claim_once(alloc, shared, seat, 0, left % 2);
    let mut are = matches!(tried, Tried::Claimed { .. });
    if left > 0 {
        let one = shared.deal(seat);
        let others = dealt(alloc, shared, seat, left - 1);
        shared.join(seat, one);
        are = are && others;
    }
    are
}

// Seventeen seats of a book, which comes back with a claim of each.
fn all_seats(rt: &impl Abort, alloc: Global) {
    let case = two_line_case(rt, alloc);
    let (shared, seat) = shared_among(rt, alloc, &case, in_memory(rt, alloc, &[]), 17, 17);
    let mut seat = seat;
    let are = dealt(alloc, &shared, &mut seat, 16);
    let book = shared.close(seat);
    must(rt, entries_in(book) == 17 && are, "a claim of each");
    drop(case);
}

#[test]
fn seventeen_seats_join_and_close(rt: HostRuntime) {
    all_seats(&rt, rt.alloc());
}
