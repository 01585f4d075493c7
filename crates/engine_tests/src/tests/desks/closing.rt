//! The marks that a worker raised at the desk of a seat come back with the book.
use super::acts::{Act, Answer};
use super::plays::{Kept, Play, Row, Table, play_all};
use crate::tests::entries::Told;

// The first line is worked off, and both marks rise to 60: the count's once its lease is settled under the
// injector's mark, with the turn of the second claim.
const TABLE: Table<'static> = &[
    (Act::ClaimSource, Answer::Claimed(0)),
    (Act::ClaimCount, Answer::Claimed(1)),
    (Act::Inject, Answer::Committed(2)),
    (Act::Take, Answer::Prepared),
    (Act::Write, Answer::Committed(3)),
    (Act::Take, Answer::Committed(4)),
    (Act::ReportSource, Answer::Marked(60)),
    (Act::ReportCount, Answer::Marked(0)),
    (Act::ClaimSource, Answer::Claimed(5)),
    (Act::ReportCount, Answer::Marked(60)),
];

static ROWS: [Row<'static>; 1] = [Row {
    kept: Kept::InMemory(&[]),
    limit: 8,
    play: Play::One(TABLE),
    entries: &[
        Told::Claim(0, 0),
        Told::Claim(0, 1),
        Told::Inject(0, 0),
        Told::Handle(1, 2),
        Told::Ack(0, 2),
        Told::Claim(0, 0),
    ],
    marks: [60, 60],
}];

#[test]
fn close_hands_marks_back(rt: HostRuntime) {
    play_all(&rt, rt.alloc(), &ROWS);
}
