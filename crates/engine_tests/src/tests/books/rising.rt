//! The marks rise while a line is worked off, over a keeper that tells its rows, one that does not,
//! and one that fails at each of its calls in turn.
ghost use Rattle.std.specs.Prelude.{◌≡◌};
ghost use Rattle.worked_examples.specs.Rising.{rise_case, row_closed, row_counted, row_injected};
ghost use Rattle.engine_tests.specs.TestBooks.{HasRisen};

use super::calls::{RECORD, report};
use super::example::none_open;
use super::hands::Hands;
use super::plays::{Kept, Play, Setting};
use super::tables::{Table, try_all};
use super::trials::{Trial, injected, step};
use crate::tests::must;
use book::{Book, Stale};
use row_keeper::Keeper;
use row_parts::Row;
use std::process::Abort;

// Whether the first record of entry 2 is to be sent first, by the injector's row.
fn sends_record<K: Keeper>(book: &Book<'_, K>, hands: &Hands) -> bool {
    match book.least_sent() {
        Some((id, name)) => id == RECORD && *name == hands.injector,
        None => false,
    }
}

// The mark of the injector's interval.
fn source_mark<K: Keeper>(book: &Book<'_, K>) -> u64
    requires { book.now.case ≡ rise_case }
{
    book.mark(0)
}

// Whether a report was accepted, and answered this mark.
fn is_mark(reported: Result<u64, Stale>, want: u64) -> bool {
    reported == Ok(want)
}

// The record is to be sent, the injector's interval reports, and the record is handled.
fn handled<K: Keeper>(rt: &impl Abort, trial: Trial, book: &mut Book<'_, K>, hands: &Hands) -> Row
    requires risen { HasRisen 3 book.old }
    ensures risen { HasRisen 4 book.new }
    ensures left { result ≡ row_counted }
{
    let is_sent = sends_record(book, hands);
    let mark = report(book, &hands.source, 0, 3, 10);
    let is_so = is_sent && is_mark(mark, 10);
    must(rt, is_so, "the record is to be sent, and a mark of 10");
    let fresh = Row::new(trial.alloc, none_open(trial.alloc));
    let row = step(rt, trial, book, hands, &fresh, 3);
    drop(fresh);
    row
}

// Whether nothing is pending in a row.
fn is_settled(row: Row) -> bool {
    let is = row.pending.is_empty();
    drop(row);
    is
}

// The interval of the count reports, and the sender settles the record: nothing is to be sent.
fn settled<K: Keeper>(
    rt: &impl Abort,
    trial: Trial,
    book: &mut Book<'_, K>,
    hands: &Hands,
    injected: &Row,
)
    requires risen { HasRisen 4 book.old }
    requires injected { injected.now ≡ row_injected }
    ensures risen { HasRisen 5 book.new }
{
    let mark = report(book, &hands.count, 1, 4, 60);
    let row = step(rt, trial, book, hands, injected, 4);
    let is_so = is_settled(row) && is_mark(mark, 10) && book.least_sent().is_none();
    must(rt, is_so, "a mark of 10, and nothing to be sent");
}

// Both intervals report, and the timer of the window fires.
fn fired<K: Keeper>(
    rt: &impl Abort,
    trial: Trial,
    book: &mut Book<'_, K>,
    hands: &Hands,
    counted: &Row,
) -> Row
    requires risen { HasRisen 5 book.old }
    requires counted { counted.now ≡ row_counted }
    ensures risen { HasRisen 6 book.new }
    ensures left { result ≡ row_closed }
{
    let source = report(book, &hands.source, 0, 5, 60);
    let raised = source_mark(book);
    let count = report(book, &hands.count, 1, 5, 60);
    let is_so = is_mark(source, 60) && raised == 60 && is_mark(count, 60);
    must(rt, is_so, "both marks rise to 60");
    step(rt, trial, book, hands, counted, 5)
}

// The row is purged.
fn purged<K: Keeper>(
    rt: &impl Abort,
    trial: Trial,
    book: &mut Book<'_, K>,
    hands: &Hands,
    closed: &Row,
)
    requires risen { HasRisen 6 book.old }
    requires closed { closed.now ≡ row_closed }
{
    let row = step(rt, trial, book, hands, closed, 6);
    let is_purged = row.floor == 6 && row.seen.is_empty();
    drop(row);
    must(rt, is_purged, "the row forgets what is below 6");
}

// Worker 0 works off the first line.
pub(crate) fn rise<K: Keeper>(rt: &impl Abort, trial: Trial, book: &mut Book<'_, K>, hands: &Hands)
    requires risen { HasRisen 2 book.old }
{
    let injected = injected(rt, trial, book, hands);
    let counted = handled(rt, trial, book, hands);
    settled(rt, trial, book, hands, &injected);
    let closed = fired(rt, trial, book, hands, &counted);
    purged(rt, trial, book, hands, &closed);
    drop(closed);
    drop(counted);
    drop(injected);
}

// Each call of the keeper fails in turn.
static SETTINGS: [Setting; 10] = [
    (Kept::Sound, 8, Play::Rise),
    (Kept::Blind, 8, Play::Rise),
    (Kept::Failing(0), 8, Play::Rise),
    (Kept::Failing(1), 8, Play::Rise),
    (Kept::Failing(2), 8, Play::Rise),
    (Kept::Failing(3), 8, Play::Rise),
    (Kept::Failing(4), 8, Play::Rise),
    (Kept::Failing(5), 8, Play::Rise),
    (Kept::Failing(6), 8, Play::Rise),
    (Kept::Failing(7), 8, Play::Rise),
];

#[test]
fn marks_rise(rt: HostRuntime) {
    try_all(&rt, rt.alloc(), Table::Settings(&SETTINGS));
}
