//! The tables of what is tried over the case of the example of two lines, and the one walk through each.
ghost use Rattle.std.specs.Prelude.{◌≡◌};
ghost use Rattle.worked_examples.specs.Rising.{rise_case};

use super::faults::{Fault, two_turns};
use super::pairs::{Pair, two_seats};
use super::plays::{Setting, play_in};
use super::raising::{Row, two_threads};
use super::refusals::{What, is_as_told};
use crate::tests::must;
use crate::tests::two_lines::two_line_case;
use run_history::Case;
use std::alloc::Global;
use std::process::Abort;
use std::sync::Wait;
use std::thread::Threads;

// A table.
#[derive(Clone, Copy)]
pub(crate) enum Table<'a> {
    // What workers do with a book.
    Settings(&'a [Setting]),
    // Keepers that fail under a turn.
    Faults(&'a [Fault]),
    // What is refused, or not, each with its name.
    Refusals(&'a [(&'a str, What)]),
    // Threads that raise marks.
    Raisers(&'a [Row]),
    // What two seats do with a book, which comes back with so many entries.
    Seats(Pair, usize),
}

// Each row of a table is tried.
fn try_over<R: Threads + Wait + Abort + Sync>(rt: &R, alloc: Global, case: &Case, table: Table<'_>)
    requires case { case.now ≡ rise_case }
{
    match table {
        Table::Settings(rows) => {
            for row in rows {
                play_in(rt, alloc, case, row);
            }
        }
        Table::Faults(rows) => {
            for row in rows {
                two_turns(rt, alloc, case, row);
            }
        }
        Table::Refusals(rows) => {
            for (name, what) in rows {
                must(rt, is_as_told(rt, alloc, case, what), *name);
            }
        }
        Table::Raisers(rows) => {
            for row in rows {
                two_threads(rt, alloc, case, *row);
            }
        }
        Table::Seats(pair, entries) => two_seats(rt, alloc, case, pair, entries),
    }
}

// The same over the case of the example of two lines.
pub(crate) fn try_all<R: Threads + Wait + Abort + Sync>(rt: &R, alloc: Global, table: Table<'_>) {
    let case = two_line_case(rt, alloc);
    try_over(rt, alloc, &case, table);
    drop(case);
}
