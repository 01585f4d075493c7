//! The calls of the example over a keeper that may fail at one of its calls: there the book stays as it was, and the
//! call is made again.
ghost use Rattle.std.specs.Prelude.{◌≡◌, ◌≤◌, ◌<◌, ◌+◌};
ghost use Rattle.worked_examples.specs.Rising.{row_injected};
ghost use Rattle.engine_tests.specs.TestBooks.{HasRisen, IsLeft, first_lease, row_before};

use super::calls::{claim, next};
use super::example::hands;
use super::hands::Hands;
use super::refused;
use crate::tests::{made, must};
use book::{Book, ClaimRefusal, Claimed, Lease, WriteRefusal, Written};
use mw_types::State;
use row_keeper::Keeper;
use row_parts::Row;
use std::alloc::Global;
use std::process::Abort;

// Where rows are allocated, and which call of the keeper fails, from 0. Each call of the book uses the
// keeper once.
#[derive(Clone, Copy)]
pub(crate) struct Trial {
    pub(crate) alloc: Global,
    pub(crate) failing: u64,
}

// What is seen of a book: how many entries it has, its floor, how much work is left, and the marks.
pub(crate) type Sight = [u64; 5];

// What is seen of a book after so many entries of the example, from 2 on.
static SIGHTS: [Sight; 6] = [
    [2, 2, 1, 0, 0],
    [3, 2, 2, 0, 0],
    [4, 2, 3, 10, 0],
    [5, 5, 2, 10, 10],
    [6, 6, 1, 60, 60],
    [7, 7, 1, 60, 60],
];

// What is seen of a book now. A mark that is not there is 7.
pub(crate) fn sight<K: Keeper>(book: &Book<'_, K>) -> Sight {
    let marks = book.marks();
    let source = marks.get(0).copied().unwrap_or(7);
    let count = marks.get(1).copied().unwrap_or(7);
    let entries = book.history().len() as u64;
    [entries, book.floor(), book.unfinished(), source, count]
}

// Whether a book looks as it has to after so many entries.
fn looks_so<K: Keeper>(book: &Book<'_, K>, count: u64) -> bool {
    let at = (count as usize).wrapping_sub(2);
    match SIGHTS.get(at) {
        Some(want) => sight(book) == *want,
        None => false,
    }
}

// A write was refused for this cause, and changed nothing.
pub(crate) fn stays<K: Keeper>(
    rt: &impl Abort,
    book: &Book<'_, K>,
    before: &Sight,
    why: WriteRefusal,
    want: WriteRefusal,
) {
    let is_so = why == want && sight(book) == *before;
    must(rt, is_so, "it is refused, and nothing changes");
}

// Why a claim was refused, in a word.
pub(crate) fn word_of(why: ClaimRefusal) -> &'static str {
    let word = match &why {
        ClaimRefusal::HistoryFull => "full",
        ClaimRefusal::KeeperFault => "keeper",
        _ => "other",
    };
    drop(why);
    word
}

// Tries to claim an interval, where the keeper fails at that.
fn fail_claim<K: Keeper>(rt: &impl Abort, trial: Trial, book: &mut Book<'_, K>, interval: u32)
    requires risen { HasRisen interval book.old }
    requires interval { interval < 2 }
    ensures stayed { HasRisen interval book.new }
{
    if trial.failing == u64::from(interval) + 1 {
        let before = sight(book);
        let why = refused(rt, claim(trial.alloc, book, interval));
        let is_so = word_of(why) == "keeper" && sight(book) == before;
        must(rt, is_so, "the keeper failed, and nothing changes");
    }
}

// The lease of a claim that found no row.
pub(crate) fn lease_of(rt: &impl Abort, claimed: Claimed) -> Lease
    ensures { result ≡ claimed.lease }
{
    let Claimed { lease, rows } = claimed;
    must(rt, rows.is_empty(), "a claim finds no row");
    drop(rows);
    lease
}

// Worker 0 claims the interval whose number is the number of entries, where no row lies.
fn claimed<K: Keeper>(rt: &impl Abort, trial: Trial, book: &mut Book<'_, K>, interval: u32) -> Lease
    requires risen { HasRisen interval book.old }
    requires interval { interval < 2 }
    ensures risen { HasRisen (interval + 1) book.new }
    ensures lease { result ≡ first_lease interval }
{
    fail_claim(rt, trial, book, interval);
    lease_of(rt, made(rt, claim(trial.alloc, book, interval)))
}

// Worker 0 claims both intervals.
pub(crate) fn claim_both<K: Keeper>(rt: &impl Abort, trial: Trial, book: &mut Book<'_, K>) -> Hands
    requires risen { HasRisen 0 book.old }
    ensures risen { HasRisen 2 book.new }
{
    let source = claimed(rt, trial, book, 0);
    let count = claimed(rt, trial, book, 1);
    must(rt, looks_so(book, 2), "both intervals are claimed");
    hands(rt, trial.alloc, source, count)
}

// Tries what comes next after so many of the entries, where the keeper fails at that.
fn fail_next<K: Keeper>(
    rt: &impl Abort,
    trial: Trial,
    book: &mut Book<'_, K>,
    hands: &Hands,
    row: &Row,
    count: u64,
)
    requires risen { HasRisen count book.old }
    requires claimed { 2 ≤ count }
    requires there { count < 7 }
    requires row { row.now ≡ row_before count }
    ensures stayed { HasRisen count book.new }
{
    if trial.failing == count + 1 {
        let before = sight(book);
        let why = refused(rt, next(trial.alloc, book, hands, row, count));
        stays(rt, book, &before, why, WriteRefusal::KeeperFault);
    }
}

// What comes next after so many of the entries is done, and the row that it leaves.
pub(crate) fn step<K: Keeper>(
    rt: &impl Abort,
    trial: Trial,
    book: &mut Book<'_, K>,
    hands: &Hands,
    row: &Row,
    count: u64,
) -> Row
    requires risen { HasRisen count book.old }
    requires claimed { 2 ≤ count }
    requires there { count < 7 }
    requires row { row.now ≡ row_before count }
    ensures risen { HasRisen (count + 1) book.new }
    ensures left { IsLeft count result }
{
    fail_next(rt, trial, book, hands, row, count);
    let written = made(rt, next(trial.alloc, book, hands, row, count));
    let Written { commit, row } = written;
    must(rt, commit == count && looks_so(book, count + 1), count);
    row
}

// The first line is injected, and the injector's row that it leaves.
pub(crate) fn injected<K: Keeper>(
    rt: &impl Abort,
    trial: Trial,
    book: &mut Book<'_, K>,
    hands: &Hands,
) -> Row
    requires risen { HasRisen 2 book.old }
    ensures risen { HasRisen 3 book.new }
    ensures left { result ≡ row_injected }
{
    let fresh = Row::new(trial.alloc, State::Injector { cursor: 0 });
    let row = step(rt, trial, book, hands, &fresh, 2);
    drop(fresh);
    row
}
