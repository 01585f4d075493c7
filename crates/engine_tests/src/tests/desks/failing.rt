//! A keeper that fails under a worker's turn: the call answers so and appends nothing, the turn is given
//! back, and the same call does it afterwards.
use super::acts::{Act, Answer};
use super::plays::{Kept, Play, Row, Table, play_all};
use crate::tests::entries::Told;

// Call 0 of the keeper is that of the book's start. A claim is one call, which reads the interval's rows, and
// so is a write, which puts its row; a report and what is refused before the keeper is asked are none. So
// the first try of each but the acknowledgement fails: that one takes its message with it.
const FAILING: [u64; 7] = [1, 3, 5, 7, 10, 12, 14];

// Beside each answer stands the number of the call.
const TABLE: Table<'static> = &[
    (Act::ClaimSource, Answer::KeeperFault), // 1
    (Act::ClaimSource, Answer::Claimed(0)), // 2
    (Act::ClaimCount, Answer::KeeperFault), // 3
    (Act::ClaimCount, Answer::Claimed(1)), // 4
    (Act::Inject, Answer::KeeperFault), // 5
    (Act::Inject, Answer::Committed(2)), // 6
    (Act::Take, Answer::Prepared), // none
    (Act::Write, Answer::KeeperFault), // 7
    (Act::Write, Answer::Committed(3)), // 8
    (Act::Take, Answer::Committed(4)), // 9
    (Act::ReportSource, Answer::Marked(60)), // none
    (Act::ClaimSource, Answer::KeeperFault), // 10
    (Act::ClaimSource, Answer::Claimed(5)), // 11
    (Act::ReportCount, Answer::Marked(60)), // none
    (Act::Fire, Answer::KeeperFault), // 12
    (Act::Fire, Answer::Committed(6)), // 13
    (Act::Purge, Answer::KeeperFault), // 14
    (Act::Purge, Answer::Committed(7)), // 15
];

// What was refused is no entry.
const ENTRIES: &[Told] = &[
    Told::Claim(0, 0),
    Told::Claim(0, 1),
    Told::Inject(0, 0),
    Told::Handle(1, 2),
    Told::Ack(0, 2),
    Told::Claim(0, 0),
    Told::Fire(1, 60),
    Told::Purge(1, 7),
];

static ROWS: [Row<'static>; 1] = [Row {
    kept: Kept::InMemory(&FAILING),
    limit: 8,
    play: Play::One(TABLE),
    entries: ENTRIES,
    marks: [60, 60],
}];

#[test]
fn keeper_fails_under_a_turn(rt: HostRuntime) {
    play_all(&rt, rt.alloc(), &ROWS);
}
