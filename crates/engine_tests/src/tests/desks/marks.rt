//! Two workers over the desks of two seats, whose marks rise: no mark passes work that is left, also where
//! its lease was overtaken before it was raised.
use super::acts::{Act, Answer};
use super::crossing::Step;
use super::plays::{Kept, Play, Row, Two, play_all};
use crate::tests::entries::Told;

// Worker 0 injects the line, whose record is at 10, and worker 1 is to handle it. The injector's own work is that
// record, and then the watermark of 60 before the second line; the count's is the end of the window, at 60.
//
// A lease may be raised to the marks that feed its interval as its seat had loaded them when it last gave a turn
// back. Worker 1 had loaded 10 when it wrote entry 3, and so its report is answered with 10 as long as it
// takes no other turn; it is overtaken by entry 4, and its report stays at 10 though the injector's mark, which
// it loads, is 60. Worker 0's own lease is settled under 10 too, by entry 5, until it takes a turn and gives it
// back once the injector's mark is 60.
const RAISED: Row<'static> = Row {
    kept: Kept::InMemory(&[]),
    limit: 16,
    play: Play::Two(Two::Crossing(&[
        (Step::One(Act::ClaimSource), Answer::Claimed(0)),
        (Step::One(Act::Inject), Answer::Committed(1)),
        (Step::One(Act::ReportSource), Answer::Marked(10)),
        (Step::Other(Act::ClaimCount), Answer::Claimed(2)),
        (Step::Hand, Answer::Prepared),
        (Step::Other(Act::LoadSource), Answer::Marked(10)),
        (Step::Other(Act::Write), Answer::Committed(3)),
        (Step::Other(Act::ReportCount), Answer::Marked(10)),
        (Step::One(Act::ClaimCount), Answer::Claimed(4)),
        (Step::Back, Answer::Committed(5)),
        (Step::One(Act::ReportSource), Answer::Marked(60)),
        (Step::Other(Act::LoadSource), Answer::Marked(60)),
        (Step::Other(Act::ReportCount), Answer::Marked(10)),
        (Step::One(Act::ReportCount), Answer::Marked(10)),
        (Step::CatchUp, Answer::Nothing),
        (Step::One(Act::ReportCount), Answer::Marked(60)),
        (Step::One(Act::Purge), Answer::Committed(6)),
    ])),
    entries: &[
        Told::Claim(0, 0),
        Told::Inject(0, 0),
        Told::Claim(1, 1),
        Told::Handle(2, 1),
        Told::Claim(0, 1),
        Told::Ack(0, 1),
        Told::Purge(4, 6),
    ],
    marks: [60, 60],
};

static ROWS: [Row<'static>; 1] = [RAISED];

#[test]
fn marks_across_seats(rt: HostRuntime) {
    play_all(&rt, rt.alloc(), &ROWS);
}
