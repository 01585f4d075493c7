//! Claims, writes and starts that are refused.
ghost use Rattle.std.specs.Prelude.{◌≡◌, ◌<◌};
ghost use Rattle.worked_examples.specs.Rising.{rise_case};
ghost use Rattle.engine_tests.specs.TestBooks.{HasRisen};

use super::calls::next;
use super::example::row_a;
use super::hands::Hands;
use super::plays::{Kept, Play, Setting};
use super::refused;
use super::starts::started;
use super::tables::{Table, try_all};
use super::trials::word_of;
use crate::tests::keepers::in_memory;
use crate::tests::{made, must};
use book::{Book, ClaimRefusal, Claimed, StartRefusal, StartWhy, WriteRefusal};
use mw_types::{Bytes, Key, RowName, State};
use record_codec::encode_row;
use row_keeper::{BlindKeeper, Keeper, KeptRow, MemKeeper};
use row_parts::Row;
use run_history::Case;
use std::alloc::Global;
use std::process::Abort;

// Whether no line is injected into a full history.
fn is_inject_full<K: Keeper>(alloc: Global, book: &mut Book<'_, K>, hands: &Hands) -> bool
    requires risen { HasRisen 2 book.old }
{
    let fresh = Row::new(alloc, State::Injector { cursor: 0 });
    let written = next(alloc, book, hands, &fresh, 2);
    drop(fresh);
    let is = matches!(&written, Err(WriteRefusal::HistoryFull));
    drop(written);
    is
}

// Both claims filled a history of two: no interval is claimed, and no line is injected.
pub(crate) fn fill<K: Keeper>(rt: &impl Abort, alloc: Global, book: &mut Book<'_, K>, hands: &Hands)
    requires risen { HasRisen 2 book.old }
{
    let is_claim_full = word_of(refused(rt, book.claim(alloc, 2, 0))) == "full";
    let is_inject_full = is_inject_full(alloc, book, hands);
    let is_so = is_claim_full && is_inject_full && book.history().len() == 2;
    must(rt, is_so, "no interval is claimed, and no line is injected");
}

static SETTINGS: [Setting; 1] = [(Kept::Sound, 2, Play::Fill)];

#[test]
fn history_full(rt: HostRuntime) {
    try_all(&rt, rt.alloc(), Table::Settings(&SETTINGS));
}

// Bytes that are no row's.
const DAMAGED: &[u8] = &[255];

// The row of the key a of the count, with bytes that are no row's.
fn damaged(rt: &impl Abort, alloc: Global) -> KeptRow {
    KeptRow {
        name: row_a(rt, alloc),
        bytes: Bytes::from_vec(made(rt, vec![in alloc; 255])),
    }
}

// Whether a claim was refused for the damaged row.
fn is_damaged(claimed: Result<Claimed, ClaimRefusal>) -> bool {
    let is = match &claimed {
        Err(ClaimRefusal::RowDamaged { name, bytes }) => {
            name.part == 1 && name.key.text() == "a" && bytes.as_slice() == DAMAGED
        }
        _ => false,
    };
    drop(claimed);
    is
}

// Worker 0 claims an interval.
fn claim_one<K: Keeper>(
    alloc: Global,
    book: &mut Book<'_, K>,
    interval: u32,
) -> Result<Claimed, ClaimRefusal>
    requires case { book.old.case ≡ rise_case }
    requires interval { interval < 2 }
    ensures case { book.new.case ≡ rise_case }
{
    book.claim(alloc, 0, interval)
}

// What comes of a claim of an interval over a keeper that shows this row, as the first or after one of the injector's
// interval, and how many entries there are then.
fn claimed_over(
    rt: &impl Abort,
    alloc: Global,
    case: &Case,
    row: KeptRow,
    is_first: bool,
    interval: u32,
) -> (Result<Claimed, ClaimRefusal>, usize)
    requires case { case.now ≡ rise_case }
    requires interval { interval < 2 }
{
    let mut book = started(rt, alloc, case, BlindKeeper::new(row), 8);
    if !is_first {
        drop(made(rt, claim_one(alloc, &mut book, 0)));
    }
    let claimed = claim_one(alloc, &mut book, interval);
    let count = book.history().len();
    drop(book);
    (claimed, count)
}

// The injector's row before its first line, as a keeper has it.
fn sound(rt: &impl Abort, alloc: Global) -> KeptRow {
    let row = Row::new(alloc, State::Injector { cursor: 0 });
    let bytes = made(rt, encode_row(alloc, &row));
    drop(row);
    KeptRow {
        name: RowName {
            part: 0,
            key: Key::none(alloc),
        },
        bytes,
    }
}

// Whether a claim was answered with one row, of the injector.
fn has_sound(claimed: Claimed) -> bool {
    let has = match claimed.rows.as_slice() {
        [one] => one.name.part == 0 && matches!(one.row.state, State::Injector { cursor: 0 }),
        _ => false,
    };
    drop(claimed);
    has
}

// A keeper in memory with the damaged row.
fn with_damaged(rt: &impl Abort, alloc: Global) -> MemKeeper {
    let mut keeper = in_memory(rt, alloc, &[]);
    let row = damaged(rt, alloc);
    made(rt, keeper.put(alloc, &row.name, row.bytes.as_slice()));
    drop(row);
    keeper
}

// Whether a start over a keeper with a row names it, and hands back the keeper with it.
fn is_handed_back(rt: &impl Abort, alloc: Global, case: &Case) -> bool {
    let keeper = with_damaged(rt, alloc);
    let StartRefusal { why, keeper } = refused(rt, Book::start(alloc, case, keeper, 8));
    let is_named = match &why {
        StartWhy::NotEmpty { name, bytes } => name.part == 1 && bytes.len() == 1,
        _ => false,
    };
    drop(why);
    let rows = made(rt, keeper.rows(alloc));
    let count = rows.len();
    drop(rows);
    drop(keeper);
    is_named && count == 1
}

// What is refused, or not.
pub(crate) enum What {
    Named(bool),
    Sound,
    NotEmpty,
}

static CASES: [(&str, What); 4] = [
    ("the first claim names a damaged row", What::Named(true)),
    ("the second claim names it", What::Named(false)),
    ("a sound row is claimed", What::Sound),
    ("a keeper with a row is not empty", What::NotEmpty),
];

// Whether it is. A claim of the interval of the damaged row names it, and the history has the claim before it alone; a
// claim of the interval of the sound row is answered with that.
pub(crate) fn is_as_told(rt: &impl Abort, alloc: Global, case: &Case, what: &What) -> bool
    requires case { case.now ≡ rise_case }
{
    match what {
        What::Named(is_first) => {
            let row = damaged(rt, alloc);
            let (claimed, count) = claimed_over(rt, alloc, case, row, *is_first, 1);
            let before = if *is_first { 0 } else { 1 };
            is_damaged(claimed) && count == before
        }
        What::Sound => {
            let row = sound(rt, alloc);
            let (claimed, count) = claimed_over(rt, alloc, case, row, true, 0);
            has_sound(made(rt, claimed)) && count == 1
        }
        What::NotEmpty => is_handed_back(rt, alloc, case),
    }
}

#[test]
fn rows_are_claimed_or_named(rt: HostRuntime) {
    try_all(&rt, rt.alloc(), Table::Refusals(&CASES));
}
