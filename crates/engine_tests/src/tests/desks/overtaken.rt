//! Two workers over the desks of two seats: what one writes after the other has claimed its interval is
//! refused, names that claim, and changes nothing.
use super::acts::{Act, Answer};
use super::plays::{Acts, Kept, Play, Row, Two, play_all};
use crate::tests::entries::Told;

// Worker 1 claims the injector's interval before worker 0 injects. The claim is entry 2, which names what
// overtook the lease 0. Without the lease there is nothing to inject.
const INJECT: Row<'static> = Row {
    kept: Kept::InMemory(&[]),
    limit: 16,
    play: Play::Two(Two::Overtaking(Acts {
        before: &[
            (Act::ClaimSource, Answer::Claimed(0)),
            (Act::ClaimCount, Answer::Claimed(1)),
        ],
        between: &[(Act::ClaimSource, Answer::Claimed(2))],
        after: &[
            (Act::Inject, Answer::Stale(2)),
            (Act::Inject, Answer::Nothing),
        ],
    })),
    entries: &[Told::Claim(0, 0), Told::Claim(0, 1), Told::Claim(1, 0)],
    marks: [0, 0],
};

// Worker 1 claims the count's interval when worker 0 has handled the record and not yet written that. The
// claim is entry 3, behind the line. What was prepared under the lease is given up with it.
const HANDLE: Row<'static> = Row {
    kept: Kept::InMemory(&[]),
    limit: 16,
    play: Play::Two(Two::Overtaking(Acts {
        before: &[
            (Act::ClaimSource, Answer::Claimed(0)),
            (Act::ClaimCount, Answer::Claimed(1)),
            (Act::Inject, Answer::Committed(2)),
            (Act::Take, Answer::Prepared),
        ],
        between: &[(Act::ClaimCount, Answer::Claimed(3))],
        after: &[
            (Act::Write, Answer::Stale(3)),
            (Act::Write, Answer::Nothing),
        ],
    })),
    entries: &[
        Told::Claim(0, 0),
        Told::Claim(0, 1),
        Told::Inject(0, 0),
        Told::Claim(1, 1),
    ],
    marks: [0, 0],
};

// Worker 1 claims the injector's interval when worker 0 has handled the record, and the word of that is
// still to be written. The claim is entry 4, behind the line and what handled it.
const SETTLE: Row<'static> = Row {
    kept: Kept::InMemory(&[]),
    limit: 16,
    play: Play::Two(Two::Overtaking(Acts {
        before: &[
            (Act::ClaimSource, Answer::Claimed(0)),
            (Act::ClaimCount, Answer::Claimed(1)),
            (Act::Inject, Answer::Committed(2)),
            (Act::Take, Answer::Prepared),
            (Act::Write, Answer::Committed(3)),
        ],
        between: &[(Act::ClaimSource, Answer::Claimed(4))],
        after: &[
            (Act::Take, Answer::Stale(4)),
            (Act::Inject, Answer::Nothing),
        ],
    })),
    entries: &[
        Told::Claim(0, 0),
        Told::Claim(0, 1),
        Told::Inject(0, 0),
        Told::Handle(1, 2),
        Told::Claim(1, 0),
    ],
    marks: [0, 0],
};

// Worker 1 claims the count's interval when worker 0 knows that the timer is due. The claim is entry 6,
// behind worker 0's second one.
const FIRE: Row<'static> = Row {
    kept: Kept::InMemory(&[]),
    limit: 16,
    play: Play::Two(Two::Overtaking(Acts {
        before: &[
            (Act::ClaimSource, Answer::Claimed(0)),
            (Act::ClaimCount, Answer::Claimed(1)),
            (Act::Inject, Answer::Committed(2)),
            (Act::Take, Answer::Prepared),
            (Act::Write, Answer::Committed(3)),
            (Act::Take, Answer::Committed(4)),
            (Act::ReportSource, Answer::Marked(60)),
            (Act::ClaimSource, Answer::Claimed(5)),
            (Act::ReportCount, Answer::Marked(60)),
        ],
        between: &[(Act::ClaimCount, Answer::Claimed(6))],
        after: &[(Act::Fire, Answer::Stale(6)), (Act::Fire, Answer::Nothing)],
    })),
    entries: &[
        Told::Claim(0, 0),
        Told::Claim(0, 1),
        Told::Inject(0, 0),
        Told::Handle(1, 2),
        Told::Ack(0, 2),
        Told::Claim(0, 0),
        Told::Claim(1, 1),
    ],
    marks: [60, 60],
};

// Worker 1 claims the count's interval when worker 0 has fired the timer, and the row of the key a has an id
// to forget. The claim is entry 7, behind the timer's.
const PURGE: Row<'static> = Row {
    kept: Kept::InMemory(&[]),
    limit: 16,
    play: Play::Two(Two::Overtaking(Acts {
        before: &[
            (Act::ClaimSource, Answer::Claimed(0)),
            (Act::ClaimCount, Answer::Claimed(1)),
            (Act::Inject, Answer::Committed(2)),
            (Act::Take, Answer::Prepared),
            (Act::Write, Answer::Committed(3)),
            (Act::Take, Answer::Committed(4)),
            (Act::ReportSource, Answer::Marked(60)),
            (Act::ClaimSource, Answer::Claimed(5)),
            (Act::ReportCount, Answer::Marked(60)),
            (Act::Fire, Answer::Committed(6)),
        ],
        between: &[(Act::ClaimCount, Answer::Claimed(7))],
        after: &[
            (Act::Purge, Answer::Stale(7)),
            (Act::Purge, Answer::Nothing),
        ],
    })),
    entries: &[
        Told::Claim(0, 0),
        Told::Claim(0, 1),
        Told::Inject(0, 0),
        Told::Handle(1, 2),
        Told::Ack(0, 2),
        Told::Claim(0, 0),
        Told::Fire(1, 60),
        Told::Claim(1, 1),
    ],
    marks: [60, 60],
};

// Worker 1 claims the injector's interval before worker 0 reports. The claim is entry 2. A report under a lease
// that is stale is answered too, and harmless: the mark is that of the injector's file, which states no
// watermark before its first line. The other interval is still worker 0's, whose mark is not above 0 while
// the injector's is 0.
const REPORT: Row<'static> = Row {
    kept: Kept::InMemory(&[]),
    limit: 16,
    play: Play::Two(Two::Overtaking(Acts {
        before: &[
            (Act::ClaimSource, Answer::Claimed(0)),
            (Act::ClaimCount, Answer::Claimed(1)),
        ],
        between: &[(Act::ClaimSource, Answer::Claimed(2))],
        after: &[
            (Act::ReportSource, Answer::Marked(0)),
            (Act::ReportSource, Answer::Marked(0)),
            (Act::ReportCount, Answer::Marked(0)),
        ],
    })),
    entries: &[Told::Claim(0, 0), Told::Claim(0, 1), Told::Claim(1, 0)],
    marks: [0, 0],
};

// Worker 1 claims the count's interval when the injector's mark is 60. The claim is entry 5. Worker 0's lease was
// settled while that mark was 0, and vouches for no more.
const RAISE: Row<'static> = Row {
    kept: Kept::InMemory(&[]),
    limit: 16,
    play: Play::Two(Two::Overtaking(Acts {
        before: &[
            (Act::ClaimSource, Answer::Claimed(0)),
            (Act::ClaimCount, Answer::Claimed(1)),
            (Act::Inject, Answer::Committed(2)),
            (Act::Take, Answer::Prepared),
            (Act::Write, Answer::Committed(3)),
            (Act::Take, Answer::Committed(4)),
            (Act::ReportSource, Answer::Marked(60)),
        ],
        between: &[(Act::ClaimCount, Answer::Claimed(5))],
        after: &[(Act::ReportCount, Answer::Marked(0))],
    })),
    entries: &[
        Told::Claim(0, 0),
        Told::Claim(0, 1),
        Told::Inject(0, 0),
        Told::Handle(1, 2),
        Told::Ack(0, 2),
        Told::Claim(1, 1),
    ],
    marks: [60, 0],
};

static ROWS: [Row<'static>; 7] = [INJECT, HANDLE, SETTLE, FIRE, PURGE, REPORT, RAISE];

#[test]
fn stale_across_seats(rt: HostRuntime) {
    play_all(&rt, rt.alloc(), &ROWS);
}
