//! The mode `audit`: whether a printed history, with its result behind it, is that of a lawful run.
use super::calls::{Fault, Files, sink};
use super::events::EVENTS;
use super::histories::{MARKED, PRINTED};
use super::looks::{
    BadCase, Case, Look, Refusal, all_are_refused, all_fail_so, all_hold, seen, seen_at,
};
use super::topologies::{COUNT, CUTS, READERS, SPIKE};
use super::{made, must_hold};
use std::alloc::Global;
use std::process::Abort;
use std::str;

/// The line that audits a trace of one event file.
pub const AUDIT: &str = "audit --trace r t.json e";

/// Two records, with a watermark between them, which the trace `MARKED` is of.
pub const MARKED_EVENTS: &str =
    "{\"key\":\"a\",\"ts\":10}\n{\"watermark\":60}\n{\"key\":\"a\",\"ts\":70}\n";

// A plan whose second worker claims the row while the first has its record prepared.
const OLD_OWNER: &str = "claim 0 0\nclaim 0 1\ninject 0 0\nsend 0\ntake 0 0\nclaim 1 1\nwrite 0\n";

// The trace of those records, with them.
const LAWFUL: Files<'static> = &[("t.json", COUNT), ("e", MARKED_EVENTS), ("r", MARKED)];

// It is accepted.
static ACCEPTED: [Case; 1] = [(
    "a lawful trace",
    AUDIT,
    LAWFUL,
    Look::Writes("{\"entries\":11}\n"),
)];

#[test]
fn audit_accepts(rt: HostRuntime) {
    all_hold(&rt, rt.alloc(), &ACCEPTED);
}

// What is written in the place of what, where it first stands in the trace of the two records, and what is
// said then.
static CHANGED: [(&str, &str, &str); 8] = [
    (
        "\"mark\":61",
        "\"mark\":60",
        "not a lawful run: line 6: Unlawful",
    ),
    (
        "",
        "{\"fired\":2,\"handled\":2,\"injected\":2,\"late\":0}\n",
        "not a lawful run: line 12: BadText",
    ),
    (
        "{\"fired\":2,\"handled\":2,\"injected\":2,\"late\":0}\r\n",
        "{\"fired\":2,\"handled\":2,\"injected\":2,\"late\":0}\n",
        "not a lawful run: line 12: BadText",
    ),
    (
        "\"n\":4,\"out\"",
        "\"n\":3,\"out\"",
        "not a lawful run: line 4: NotALine",
    ),
    (
        "\"worker\":0 }",
        "\"worker\":0}",
        "not a lawful run: line 1: NotALine",
    ),
    (
        "\"seq\":1}",
        "\"seq\":0}",
        "not a lawful run: line 5: Unlawful",
    ),
    (
        "\"floor\":11",
        "\"floor\":10",
        "not a lawful run: line 11: Unlawful",
    ),
    (
        "{\"do\":\"claim\",\"interval\":0,\"n\":2,\"worker\":1}\n{\"do\":\"inject\"",
        "{\"do\":\"inject\"",
        "not a lawful run: line 4: NotALine",
    ),
];

// Whether the trace is refused with this message, once a text stands in the place of another.
fn refuses_changed(rt: &impl Abort, alloc: Global, new: &str, old: &str, message: &str) -> bool {
    let (front, back) = MARKED.split_once(old).unwrap_or(("", ""));
    let trace = made(rt, format!(in alloc; "{front}{new}{back}"));
    let files = [
        ("t.json", COUNT),
        ("e", MARKED_EVENTS),
        ("r", trace.as_str()),
    ];
    let look = Look::Refused(message);
    let is_so = seen(rt, alloc, AUDIT, &files, Fault::Never, look);
    drop(trace);
    is_so
}

#[test]
fn audit_refuses(rt: HostRuntime) {
    for (new, old, message) in &CHANGED {
        let is_so = refuses_changed(&rt, rt.alloc(), new, old, message);
        must_hold(&rt, is_so, *new);
    }
}

// Traces that end early.
const EMPTY: Files<'static> = &[("t.json", COUNT), ("e", MARKED_EVENTS), ("r", "")];

const CLAIMED: Files<'static> = &[
    ("t.json", COUNT),
    ("e", MARKED_EVENTS),
    (
        "r",
        "{\"do\":\"claim\",\"interval\":0,\"n\":0,\"worker\":0}\n",
    ),
];

const UNTOLD: Files<'static> = &[("t.json", COUNT), ("e", MARKED_EVENTS), ("r", "no history")];

// What is said of each.
static ENDED: [Case; 3] = [
    (
        "no trace",
        AUDIT,
        EMPTY,
        Look::Refused("not a lawful run: line 1: NotFinished"),
    ),
    (
        "one claim",
        AUDIT,
        CLAIMED,
        Look::Refused("not a lawful run: line 2: NotFinished"),
    ),
    (
        "no history",
        AUDIT,
        UNTOLD,
        Look::Refused("not a lawful run: line 1: NotFinished"),
    ),
];

#[test]
fn a_trace_that_ends_early_is_refused(rt: HostRuntime) {
    all_hold(&rt, rt.alloc(), &ENDED);
}

// Files that are read in their order, the trace last, and what is said of the first that is refused.
static FILES: [Refusal; 5] = [
    (AUDIT, &[], "no file t.json"),
    (AUDIT, &[("t.json", "[]")], "topology refused: BadShape"),
    (AUDIT, &[("t.json", COUNT)], "no file e"),
    (
        AUDIT,
        &[("t.json", COUNT), ("e", "[]\n")],
        "events refused: file 0 line 1: NotObject",
    ),
    (AUDIT, &[("t.json", COUNT), ("e", "")], "no file r"),
];

#[test]
fn files_are_refused_before_a_trace(rt: HostRuntime) {
    all_are_refused(&rt, rt.alloc(), &FILES);
}

// Whether bytes are audited as the text of a run over these files, of so many entries, for which there is one lifetime.
fn audits<'x>(
    rt: &impl Abort,
    alloc: Global,
    trace: &'x [u8],
    topology: &'x str,
    text: &'x str,
) -> bool {
    match str::from_utf8(trace) {
        Ok(trace) => {
            let files = [("t.json", topology), ("e", EVENTS), ("r", trace)];
            seen(rt, alloc, AUDIT, &files, Fault::Never, Look::Writes(text))
        }
        Err(_) => false,
    }
}

// Whether a run's own text, with its history, is audited as that of so many entries.
fn audits_own(rt: &impl Abort, alloc: Global, line: &str, topology: &str, text: &str) -> bool {
    let files = [("t.json", topology), ("p", OLD_OWNER), ("e", EVENTS)];
    let mut out = sink(alloc);
    let is_ok = seen_at(rt, alloc, line, &files, &mut out, Look::Ends);
    let is_so = is_ok && audits(rt, alloc, out.text(), topology, text);
    drop(out);
    is_so
}

// The lines of runs, their topologies, and what is written of each audit.
static RUNS: [(&str, &str, &str); 5] = [
    (PRINTED, COUNT, "{\"entries\":14}\n"),
    (PRINTED, CUTS, "{\"entries\":16}\n"),
    (PRINTED, READERS, "{\"entries\":22}\n"),
    (PRINTED, SPIKE, "{\"entries\":22}\n"),
    (
        "replay --plan p --history t.json e",
        COUNT,
        "{\"entries\":17}\n",
    ),
];

#[test]
fn a_runs_own_text_is_accepted(rt: HostRuntime) {
    for (line, topology, text) in &RUNS {
        let is_so = audits_own(&rt, rt.alloc(), line, topology, text);
        must_hold(&rt, is_so, *text);
    }
}

// A sink that takes eight bytes and fails at its second call gets eight bytes of what is written.
static CUT: [BadCase; 1] = [(
    "eight bytes",
    Fault::Writes(&[1]),
    AUDIT,
    LAWFUL,
    Look::Cut(0, "{\"entrie"),
)];

#[test]
fn a_sink_fails_after_eight_bytes_of_an_audit(rt: HostRuntime) {
    all_fail_so(&rt, rt.alloc(), &CUT);
}
