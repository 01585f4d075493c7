//! Two workers over the desks of two seats, who take in each other's messages.
use super::acts::{Act, Answer};
use super::crossing::Step;
use super::plays::{Kept, Play, Row, Two, play_all};
use crate::tests::entries::Told;

// Worker 0 claims both intervals and injects the line, whose record it handles and does not yet write. A copy
// of its message is of no row that worker 1 has, but the note of it tells the three entries. Worker 1 claims
// the count's interval, which is entry 3, so that the write of worker 0 is stale. The record is still pending
// at its sender: worker 1 handles it once it is sent again, which is entry 4 under the sequencer 3.
const CROSSED: Row<'static> = Row {
    kept: Kept::InMemory(&[]),
    limit: 16,
    play: Play::Two(Two::Crossing(&[
        (Step::One(Act::ClaimSource), Answer::Claimed(0)),
        (Step::One(Act::ClaimCount), Answer::Claimed(1)),
        (Step::One(Act::Inject), Answer::Committed(2)),
        (Step::Copy, Answer::NotMine),
        (Step::One(Act::Take), Answer::Prepared),
        (Step::Other(Act::ClaimCount), Answer::Claimed(3)),
        (Step::One(Act::Write), Answer::Stale(3)),
        (Step::One(Act::Sweep), Answer::Queued(1)),
        (Step::Hand, Answer::Prepared),
        (Step::Other(Act::Write), Answer::Committed(4)),
    ])),
    entries: &[
        Told::Claim(0, 0),
        Told::Claim(0, 1),
        Told::Inject(0, 0),
        Told::Claim(1, 1),
        Told::Handle(3, 2),
    ],
    marks: [0, 0],
};

// The record is handled by worker 1, as entry 3 behind the claims and the line, and is delivered again: it
// is acknowledged again, and there is nothing to write. The sender settles it by the first word of that,
// which is entry 4; by the second there is nothing left to settle, and nothing is sent again.
const AGAIN: Row<'static> = Row {
    kept: Kept::InMemory(&[]),
    limit: 16,
    play: Play::Two(Two::Crossing(&[
        (Step::One(Act::ClaimSource), Answer::Claimed(0)),
        (Step::Other(Act::ClaimCount), Answer::Claimed(1)),
        (Step::One(Act::Inject), Answer::Committed(2)),
        (Step::Copy, Answer::Prepared),
        (Step::Other(Act::Write), Answer::Committed(3)),
        (Step::Hand, Answer::Duplicate),
        (Step::Other(Act::Write), Answer::Nothing),
        (Step::Back, Answer::Committed(4)),
        (Step::Back, Answer::Nothing),
        (Step::One(Act::Sweep), Answer::Queued(0)),
    ])),
    entries: &[
        Told::Claim(0, 0),
        Told::Claim(1, 1),
        Told::Inject(0, 0),
        Told::Handle(1, 2),
        Told::Ack(0, 2),
    ],
    marks: [0, 0],
};

static ROWS: [Row<'static>; 2] = [CROSSED, AGAIN];

#[test]
fn messages_cross_seats(rt: HostRuntime) {
    play_all(&rt, rt.alloc(), &ROWS);
}
