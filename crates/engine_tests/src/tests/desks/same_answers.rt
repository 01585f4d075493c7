//! One worker at each kind of desk: it is asked the same, and answers the same.
ghost use Rattle.std.specs.Prelude.{◌≡◌};

use super::acts::{Act, Answer, drive};
use super::example::Example;
use super::plays::{Kept, Play, Row, Table, play_all};
use crate::tests::entries::{Told, has_left};
use book::{Book, OwnDesk};
use node::Node;
use row_keeper::Keeper;
use std::alloc::Global;
use std::process::Abort;

// The worker claims both intervals, which are entries 0 and 1. The first line is entry 2, and its record
// goes to the row of the key a: handled it is entry 3, and acknowledged it is entry 4. The watermark before
// the second line is 60, so that the injector's own work is at 60 then; the window's end, at 60 too, is the
// count's. The injector's interval is claimed anew as entry 5: with that turn the count's lease is settled under
// the mark that the injector's has then. The timer at 60 is not due before the count's mark is 60, and fires as
// entry 6. The row has one id to forget, which the purge takes away as entry 7.
const TABLE: Table<'static> = &[
    (Act::ClaimSource, Answer::Claimed(0)),
    (Act::ClaimCount, Answer::Claimed(1)),
    (Act::Take, Answer::Nothing),
    (Act::Inject, Answer::Committed(2)),
    (Act::Take, Answer::Prepared),
    (Act::Write, Answer::Committed(3)),
    (Act::Take, Answer::Committed(4)),
    (Act::ReportSource, Answer::Marked(60)),
    (Act::Fire, Answer::Nothing),
    (Act::ClaimSource, Answer::Claimed(5)),
    (Act::ReportCount, Answer::Marked(60)),
    (Act::Fire, Answer::Committed(6)),
    (Act::Purge, Answer::Committed(7)),
    (Act::Purge, Answer::Nothing),
];

// What those appended. The lease of the injector's interval has the sequencer 0, that of the count's has 1.
// The record's id has the commit number 2 of the line. The timer fired under the mark 60, and the floor is
// 7, since all that was made in the entries before it is finished.
const ENTRIES: &[Told] = &[
    Told::Claim(0, 0),
    Told::Claim(0, 1),
    Told::Inject(0, 0),
    Told::Handle(1, 2),
    Told::Ack(0, 2),
    Told::Claim(0, 0),
    Told::Fire(1, 60),
    Told::Purge(1, 7),
];

// The same over a book of its own, over a shared book, and over one whose keeper tells no row.
static ROWS: [Row<'static>; 3] = [
    Row {
        kept: Kept::InMemory(&[]),
        limit: 8,
        play: Play::Own(TABLE),
        entries: ENTRIES,
        marks: [60, 60],
    },
    Row {
        kept: Kept::InMemory(&[]),
        limit: 8,
        play: Play::One(TABLE),
        entries: ENTRIES,
        marks: [60, 60],
    },
    Row {
        kept: Kept::Blind,
        limit: 8,
        play: Play::One(TABLE),
        entries: ENTRIES,
        marks: [60, 60],
    },
];

// A worker at the desk of a book of its own.
pub(crate) fn over_own_book<K: Keeper>(
    rt: &impl Abort,
    alloc: Global,
    given: &Example,
    book: Book<'_, K>,
    row: &Row<'_>,
    table: Table<'_>,
)
    requires case { book.case ≡ given.now.case }
{
    let mut book = book;
    let mut desk = OwnDesk::on(&mut book);
    let mut node = Node::new(alloc, 0);
    drive(rt, alloc, given, &mut desk, &mut node, table);
    drop(node);
    has_left(rt, &book, row.entries, &row.marks);
    drop(book);
}

#[test]
fn node_over_each_desk(rt: HostRuntime) {
    play_all(&rt, rt.alloc(), &ROWS);
}
