//! Two seats of one book, which are joined at the end.
ghost use Rattle.std.specs.Prelude.{◌≡◌, ◌∷◌, []};
ghost use Rattle.worked_examples.specs.Rising.{rise_case};
ghost use Rattle.engine_tests.specs.TestSeats.{IsAtRest};

use super::desks::claim_at_desks;
use super::starts::{entries_in, shared_among};
use super::turns::take_turns;
use crate::tests::keepers::in_memory;
use crate::tests::must;
use row_keeper::Keeper;
use run_history::Case;
use shared_book::{Seat, Shared};
use std::alloc::Global;
use std::process::Abort;

// What is done with the seats: they take turns, or claim at their desks.
#[derive(Clone, Copy)]
pub(crate) enum Pair {
    Turns,
    Desks,
}

// It is done.
fn act<K: Keeper>(
    rt: &impl Abort,
    alloc: Global,
    shared: &Shared<'_, K>,
    one: &mut Seat<K>,
    other: &mut Seat<K>,
    pair: Pair,
)
    requires case { shared.now.case.now ≡ rise_case }
    requires one { let table = shared.now.table.shared in
        IsAtRest table.table_id shared.now.case.now 2 (0 ∷ []) one.old.place }
    requires other { let table = shared.now.table.shared in
        IsAtRest table.table_id shared.now.case.now 2 (1 ∷ []) other.old.place }
    ensures one { let table = shared.now.table.shared in
        IsAtRest table.table_id shared.now.case.now 2 (0 ∷ []) one.new.place }
    ensures other { let table = shared.now.table.shared in
        IsAtRest table.table_id shared.now.case.now 2 (1 ∷ []) other.new.place }
{
    match pair {
        Pair::Turns => take_turns(rt, alloc, shared, one, other),
        Pair::Desks => claim_at_desks(rt, alloc, shared, one, other),
    }
}

// Two seats of a book, which comes back with so many entries.
pub(crate) fn two_seats(rt: &impl Abort, alloc: Global, case: &Case, pair: Pair, entries: usize)
    requires case { case.now ≡ rise_case }
{
    let (shared, seat) = shared_among(rt, alloc, case, in_memory(rt, alloc, &[]), 8, 2);
    let mut other = seat;
    let mut one = shared.deal(&mut other);
    act(rt, alloc, &shared, &mut one, &mut other, pair);
    shared.join(&mut other, one);
    let book = shared.close(other);
    must(rt, entries_in(book) == entries, "how many entries");
}
