//! A shared book.
ghost use Rattle.std.specs.Prelude.{◌≡◌};

use crate::rule::Law;
use crate::views::View;
use atomic_table::Table;
use book::Core;
use row_keeper::Keeper;
use run_history::Case;
use std::alloc::Global;

/// What the table is told when it is made.
#[derive(Drop)]
pub struct Key<'a> {
    /// The case of the book.
    pub case: &'a Case,
    /// How many seats callers may have.
    pub seats: u64,
    /// The floor of the book's history.
    pub floor: u64,
    /// The book's mark of each interval, and 0 behind them.
    pub marks: [u64; 61],
}

/// A book that threads share: its case, and a table whose one place holds all else of it. Word 0 is
/// the length of the history, word 1 the turn, word 2 the floor, and each other the mark of an
/// interval.
pub struct Shared<'a, K: Keeper> {
    pub(crate) case: &'a Case,
    pub(crate) table: Table<Option<Core<K>>, View, Key<'a>, Law, Global>,
    ghost sized: { (table.shared.table_id.words ≡ 64) × (table.shared.table_id.slots ≡ 1) },
}
