//! The mode `run`, whose workers are threads: the claims of each run with its plan, and the text that one thread
//! writes too.
mod gates;
mod refusals;
mod senders;
mod whole;

use super::calls::{SOLO, keeper, sink};
use super::looks::{Claim, Look};
use super::must_hold;
use super::threads::{seen, seen_at};
use super::topologies::{COUNT, CUTS, RELAYED};
use mw_ports::OpenGate;
use std::alloc::Global;
use std::process::Abort;
use std::sync::Wait;
use std::thread::Threads;

/// Which topology and which plan a call has, and how many lines, in all three intervals.
pub type Files<'a> = (&'a str, &'a [u8], u32);

// A stall, a crash, a move, and the three that change what is sent.
const PLAN: &[u8] = b"at 2 stall 1
at 4 crash 2
at 6 move 3 0
at 7 repeat 0
at 8 lose 0
at 9 hold 0
";

// Each of them in a round of its own, at two workers.
const EACH: &[u8] = b"at 1 crash 0
at 2 stall 1
at 4 move 2 1
at 5 repeat 1
at 6 lose 0
at 7 hold 1
";

// The line of the worked plan's call.
const PLANNED: &str = "run --workers 4 --rounds 12 --plan p t.json e";

// The claims of the first rounds and of the plan, and then the drain's.
const PLANNED_CLAIMS: &[Claim] = &[
    (0, 0),
    (1, 1),
    (2, 2),
    (3, 3),
    (2, 1),
    (3, 1),
    (3, 2),
    (0, 3),
    (0, 0),
    (0, 1),
    (0, 2),
    (0, 3),
];

// Those of the plan with each in a round of its own, and then the drain's.
const EACH_CLAIMS: &[Claim] = &[
    (0, 0),
    (1, 1),
    (0, 2),
    (1, 3),
    (1, 0),
    (1, 2),
    (0, 0),
    (0, 1),
    (0, 2),
    (0, 3),
    (1, 2),
    (0, 0),
    (0, 1),
    (0, 2),
    (0, 3),
];

// The claims of three workers that no plan moves, and then the drain's.
const PLAIN_CLAIMS: &[Claim] = &[
    (0, 0),
    (1, 1),
    (2, 2),
    (0, 3),
    (0, 0),
    (0, 1),
    (0, 2),
    (0, 3),
];

// Those of one worker for two intervals, and of one for each.
const ALONE_CLAIMS: &[Claim] = &[(0, 0), (0, 1), (0, 0), (0, 1)];

const MANY_CLAIMS: &[Claim] = &[(0, 0), (1, 1), (0, 0), (0, 1)];

// Runs: of each the line, the files, and the claims.
static RUNS: [(&str, Files<'static>, &[Claim]); 8] = [
    (PLANNED, (CUTS, PLAN, 60), PLANNED_CLAIMS),
    (
        "run --workers 2 --rounds 12 --plan p t.json e",
        (CUTS, EACH, 60),
        EACH_CLAIMS,
    ),
    (
        "run --workers 3 --rounds 4 t.json e",
        (CUTS, b"", 60),
        PLAIN_CLAIMS,
    ),
    (
        "run --workers 3 --rounds 0 t.json e",
        (CUTS, b"", 60),
        PLAIN_CLAIMS,
    ),
    (
        "run --workers 3 --rounds 0 --plan p t.json e",
        (CUTS, b"# nothing\n", 60),
        PLAIN_CLAIMS,
    ),
    (
        "run --workers 1 --rounds 5 t.json e",
        (COUNT, b"", 60),
        ALONE_CLAIMS,
    ),
    (
        "run --workers 16 --rounds 2 t.json e",
        (COUNT, b"", 60),
        MANY_CLAIMS,
    ),
    (
        "run --workers 2 --rounds 4 t.json e",
        (RELAYED, b"", 60),
        MANY_CLAIMS,
    ),
];

#[test]
fn each_run_has_its_claims(rt: HostRuntime) {
    for (line, files, claims) in &RUNS {
        let is_so = seen(&rt, rt.alloc(), line, *files, &[], Look::Claims(claims));
        must_hold(&rt, is_so, *line);
    }
}

// Whether a run ends with Ok, and writes what one thread writes.
fn writes_the_same<R: Threads + Wait + Abort + Sync>(
    rt: &R,
    alloc: Global,
    line: &str,
    files: Files<'_>,
) -> bool {
    let mut out = sink(alloc);
    let keeper = keeper(rt, alloc, &[]);
    let gate = &OpenGate;
    let is_ok = seen_at(rt, alloc, line, files, keeper, &mut out, gate, Look::Ends);
    let look = Look::WritesBytes(out.text());
    let is_same = is_ok && seen(rt, alloc, SOLO, files, &[], look);
    drop(out);
    is_same
}

#[test]
fn each_run_writes_what_one_thread_writes(rt: HostRuntime) {
    for (line, files, _) in &RUNS {
        must_hold(&rt, writes_the_same(&rt, rt.alloc(), line, *files), *line);
    }
}

// Whether a run over a topology ends with Ok, and an audit of what it wrote, which lies in the plan's place, says how
// many entries there are.
fn is_audited<R: Threads + Wait + Abort + Sync>(
    rt: &R,
    alloc: Global,
    line: &str,
    topology: &str,
) -> bool {
    let mut out = sink(alloc);
    let keeper = keeper(rt, alloc, &[]);
    let (files, gate) = ((topology, b"".as_slice(), 60), &OpenGate);
    let is_ok = seen_at(rt, alloc, line, files, keeper, &mut out, gate, Look::Ends);
    let line = "audit --trace p t.json e";
    let look = Look::Begins("{\"entries\":");
    let is_so = is_ok && seen(rt, alloc, line, (topology, out.text(), 60), &[], look);
    drop(out);
    is_so
}

// Lines of runs, and their topologies.
static AUDITED: [(&str, &str); 2] = [
    ("run --workers 2 --rounds 3 --history t.json e", CUTS),
    ("run --workers 2 --rounds 0 --history t.json e", COUNT),
];

#[test]
fn a_runs_own_text_is_accepted(rt: HostRuntime) {
    for (line, topology) in &AUDITED {
        must_hold(&rt, is_audited(&rt, rt.alloc(), line, topology), *line);
    }
}

#[test]
fn four_threads_end_twenty_times_as_one_does(rt: HostRuntime) {
    for time in 0..20u32 {
        let is_same = writes_the_same(&rt, rt.alloc(), PLANNED, (CUTS, PLAN, 60));
        must_hold(&rt, is_same, time);
    }
}

// The keeper's call that fails, and how many entries there are then. The first call of the keeper asks for a row,
// and each claim for the rows of its interval.
static FAILING: [(u64, usize); 5] = [(0, 0), (1, 0), (2, 1), (3, 2), (4, 3)];

#[test]
fn a_keeper_that_fails_at_a_first_claim_ends_the_run(rt: HostRuntime) {
    let line = "run --workers 3 --rounds 4 t.json e";
    for (call, entries) in &FAILING {
        let look = Look::Failed(*entries);
        let is_so = seen(&rt, rt.alloc(), line, (CUTS, b"", 60), &[*call], look);
        must_hold(&rt, is_so, *call);
    }
}
