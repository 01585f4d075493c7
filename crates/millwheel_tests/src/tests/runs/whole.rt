//! The worked plan at its whole length: two thousand lines, and as many rounds as they need.
use super::{Files, PLAN, PLANNED_CLAIMS};
use crate::tests::calls::{SOLO, keeper, sink};
use crate::tests::looks::{Claim, Look};
use crate::tests::must_hold;
use crate::tests::threads::seen_at;
use crate::tests::topologies::CUTS;
use mw_ports::OpenGate;
use std::alloc::Global;
use std::process::Abort;
use std::sync::Wait;
use std::thread::Threads;

// The line of the call, which prints the history too.
const LINE: &str = "run --workers 4 --rounds 150 --plan p --history t.json e";

// The plan, and the lines.
const FILES: Files<'static> = (CUTS, PLAN, 2000);

// How the line of a claim begins in a printed history; the number of the interval is next.
const CLAIM: &str = "{\"do\":\"claim\",\"interval\":";

// The digit at a place of a line.
fn digit_at(line: &[u8], at: usize) -> u32 {
    let digit = line.get(at).copied().unwrap_or(0);
    u32::from(digit).wrapping_sub(48)
}

// The claim of a line that is one. Workers and intervals have one digit, and the worker's stands last but one.
fn claim_in(line: &str) -> Claim {
    let bytes = line.as_bytes();
    let worker = digit_at(bytes, bytes.len().wrapping_sub(2));
    (worker, digit_at(bytes, CLAIM.len()))
}

// Whether these are the claims that a printed history tells.
fn tells_claims(text: &str, claims: &[Claim]) -> bool {
    let mut next = 0usize;
    let mut are = true;
    for line in text.split('\n') {
        if line.starts_with(CLAIM) {
            are = are && claims.get(next).copied() == Some(claim_in(line));
            next = next.saturating_add(1);
        }
    }
    are && next == claims.len()
}

// Whether a run has these claims, and its result is what stands behind its history.
fn ends_so(told: &[u8], end: &[u8], claims: &[Claim]) -> bool {
    match str::from_utf8(told) {
        Ok(text) => told.ends_with(end) && tells_claims(text, claims),
        Err(_) => false,
    }
}

// Whether the run has the claims of its plan, and ends with the text of one thread.
fn is_as_planned<R: Threads + Wait + Abort + Sync>(rt: &R, alloc: Global) -> bool {
    let (mut told, mut alone) = (sink(alloc), sink(alloc));
    let (gate, look) = (&OpenGate, Look::Ends);
    let empty = keeper(rt, alloc, &[]);
    let is_run = seen_at(rt, alloc, LINE, FILES, empty, &mut told, gate, look);
    let empty = keeper(rt, alloc, &[]);
    let is_solo = seen_at(rt, alloc, SOLO, FILES, empty, &mut alone, gate, look);
    let is_so = is_run && is_solo && ends_so(told.text(), alone.text(), PLANNED_CLAIMS);
    drop(alone);
    drop(told);
    is_so
}

#[test]
fn the_planned_run_of_two_thousand_lines(rt: HostRuntime) {
    must_hold(&rt, is_as_planned(&rt, rt.alloc()), "the planned run");
}
