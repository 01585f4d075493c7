//! Plans that are read, each with how many actions it has, or the line for which it is refused.
use crate::tests::must;
use crate::tests::text_cases::{COUNT, case};
use mw_types::PlanRefusal;
use plans::read_actions;
use run_history::Case;
use std::alloc::Global;
use std::process::Abort;

// What a plan is for four workers: how many actions it has, or the line for which it is refused.
enum Said {
    Actions(usize),
    Line(u32),
}

// A plan, its rounds, and what it is for four workers.
const PLANS: [(&str, u32, Said); 12] = [
    ("", 0, Said::Actions(0)),
    ("# none\n\n", 0, Said::Actions(0)),
    ("at 0 crash 0\n", 0, Said::Line(1)),
    ("at 0 crash 0\n", 1, Said::Actions(1)),
    (
        "at 2 stall 1\nat 4 crash 2\nat 6 move 1 0\nat 7 repeat 0\nat 8 lose 0\nat 9 hold 0\n",
        150,
        Said::Actions(6),
    ),
    ("at 149 hold 3\r\n\r\n#\nat 150 hold 3", 150, Said::Line(4)),
    ("at 1 crash 4", 2, Said::Line(1)),
    ("at 1 move 2 0", 2, Said::Line(1)),
    ("at 1 move 0", 2, Said::Line(1)),
    ("at 1 hold", 2, Said::Line(1)),
    ("at 1 stop 0", 2, Said::Line(1)),
    (" at 1 hold 0", 2, Said::Line(1)),
];

// Whether a plan is for four workers what the table says.
fn is_read(alloc: Global, case: &Case, plan: &str, rounds: u32, said: &Said) -> bool {
    let bytes = plan.as_bytes();
    if bytes.len() > 1 << 20 {
        return false;
    }
    match (read_actions(alloc, bytes, case, 4, rounds), said) {
        (Ok(plan), Said::Actions(count)) => plan.actions().len() == *count,
        (Err(PlanRefusal::Line { line }), Said::Line(refused)) => line == *refused,
        _ => false,
    }
}

// Each plan is what the table says.
fn each_is_read(rt: &impl Abort, alloc: Global, case: &Case) {
    for (plan, rounds, said) in &PLANS {
        must(rt, is_read(alloc, case, plan, *rounds, said), *plan);
    }
}

#[test]
fn plans_are_read(rt: HostRuntime) {
    let alloc = rt.alloc();
    let case = case(&rt, alloc, COUNT, "");
    each_is_read(&rt, alloc, &case);
    drop(case);
}
