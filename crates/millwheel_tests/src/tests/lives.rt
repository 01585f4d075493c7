//! Results as soon as their entries are there.
use super::calls::{FIRST, Fault, Files};
use super::events::EVENTS;
use super::looks::{BadCase, Case, Look, all_fail_so, all_hold};
use super::topologies::{COUNT, TAILS};

// What the first example writes up to its first result, and up to its second.
const ONE: &str =
    r#"{"id":"00000000-0000-8000-8000-00000000000b","key":"a","stream":"windows","ts":60,"value":2}
"#;

const BOTH: &str =
    r#"{"id":"00000000-0000-8000-8000-00000000000b","key":"a","stream":"windows","ts":60,"value":2}
{"id":"00000000-0000-8000-8000-00000000000c","key":"a","stream":"windows","ts":120,"value":1}
"#;

/// What the first example writes in all.
pub const ALL: &str =
    r#"{"id":"00000000-0000-8000-8000-00000000000b","key":"a","stream":"windows","ts":60,"value":2}
{"id":"00000000-0000-8000-8000-00000000000c","key":"a","stream":"windows","ts":120,"value":1}
{"fired":2,"handled":3,"injected":3,"late":0}
"#;

// The first record is passed on, and then two workers crash that have nothing.
const CRASHES: Files<'static> = &[
    ("t.json", TAILS),
    ("e", EVENTS),
    (
        "p",
        "claim 0 0\nclaim 0 1\ninject 0 0\nsend 0\ntake 0 0\nwrite 0\ncrash 3\ncrash 4\n",
    ),
];

// Behind the drain's first claim the one result stands again, once.
const AGAIN: &str =
    r#"{"id":"00000000-0000-8000-8000-000000000003","key":"a","stream":"copies","ts":10,"value":1}
{"id":"00000000-0000-8000-8000-000000000003","key":"a","stream":"copies","ts":10,"value":1}
{"id":"00000000-0000-8000-8000-000000000008","key":"a","stream":"copies","ts":59,"value":1}
{"id":"00000000-0000-8000-8000-00000000000b","key":"a","stream":"copies","ts":60,"value":1}
{"fired":0,"handled":3,"injected":3,"late":0}
"#;

// The first record is passed on and acknowledged, and no worker crashes.
const GOES_ON: Files<'static> = &[
    ("t.json", TAILS),
    ("e", EVENTS),
    (
        "p",
        "claim 0 0\nclaim 0 1\ninject 0 0\nsend 0\ntake 0 0\nwrite 0\nsend 0\ntake 0 1\n",
    ),
];

// So each result stands once.
const ON: &str =
    r#"{"id":"00000000-0000-8000-8000-000000000003","key":"a","stream":"copies","ts":10,"value":1}
{"id":"00000000-0000-8000-8000-000000000008","key":"a","stream":"copies","ts":59,"value":1}
{"id":"00000000-0000-8000-8000-00000000000b","key":"a","stream":"copies","ts":60,"value":1}
{"fired":0,"handled":3,"injected":3,"late":0}
"#;

// The same without a plan: each result stands once.
const COPIES: &str =
    r#"{"id":"00000000-0000-8000-8000-000000000003","key":"a","stream":"copies","ts":10,"value":1}
{"id":"00000000-0000-8000-8000-000000000006","key":"a","stream":"copies","ts":59,"value":1}
{"id":"00000000-0000-8000-8000-000000000009","key":"a","stream":"copies","ts":60,"value":1}
{"fired":0,"handled":3,"injected":3,"late":0}
"#;

// A plan of no step.
const NO_STEP: Files<'static> = &[("t.json", COUNT), ("e", EVENTS), ("p", "#\n")];

// Calls that write each result at once, and one that is none.
static LIVES: [Case; 6] = [
    ("solo", "solo --live t.json e", FIRST, Look::Runs(ALL, 14)),
    (
        "copies",
        "solo t.json e --live",
        CRASHES,
        Look::Runs(COPIES, 12),
    ),
    (
        "no step",
        "replay --live --plan p t.json e",
        NO_STEP,
        Look::Runs(ALL, 14),
    ),
    (
        "crashes",
        "replay --plan p --live t.json e",
        CRASHES,
        Look::Runs(AGAIN, 14),
    ),
    (
        "no crash",
        "replay --plan p --live t.json e",
        GOES_ON,
        Look::Runs(ON, 14),
    ),
    (
        "history",
        "solo --live --history t.json e",
        FIRST,
        Look::Refused("usage: millwheel MODE ARGS"),
    ),
];

#[test]
fn results_are_written_as_their_entries_come(rt: HostRuntime) {
    all_hold(&rt, rt.alloc(), &LIVES);
}

// The line of the first of them.
const LIVE: &str = "solo --live t.json e";

// The call of a sink of eight bytes that fails, how many entries there are then, and what was written: the first result
// is the twelfth entry's, in twelve pieces, and the second the thirteenth's, in twelve too.
static CUTS: [BadCase; 5] = [
    ("0", Fault::Writes(&[0]), LIVE, FIRST, Look::Cut(12, "")),
    (
        "1",
        Fault::Writes(&[1]),
        LIVE,
        FIRST,
        Look::Cut(12, "{\"id\":\"0"),
    ),
    (
        "2",
        Fault::Writes(&[2]),
        LIVE,
        FIRST,
        Look::Cut(12, "{\"id\":\"00000000-"),
    ),
    ("12", Fault::Writes(&[12]), LIVE, FIRST, Look::Cut(13, ONE)),
    ("24", Fault::Writes(&[24]), LIVE, FIRST, Look::Cut(14, BOTH)),
];

#[test]
fn a_sink_that_fails_stops_the_run(rt: HostRuntime) {
    all_fail_so(&rt, rt.alloc(), &CUTS);
}
