//! The mode `plain`: what it writes is what a run of the same files writes, in each order of its steps.
use super::calls::{FIRST, Fault, Files, REPLAY, SOLO, sink};
use super::events::EVENTS;
use super::looks::{Case, Look, ONE_ROW, all_hold, seen, seen_at, seen_over_a_row};
use super::topologies::{CHAIN, COUNT, CUTS, SPIKE, TAILS, TWO, UNREAD};
use super::{made, must_hold};
use millwheel_cli::load_lines;
use std::alloc::Global;
use std::process::Abort;
use std::str;

// A count that reads one stream twice, by the key and by the key's head.
const TWICE: &str =
    r#"{"injectors":[{"name":"clicks","stream":"raw"}],"computations":[{"name":"per_minute","kind":"count","size":60,"reads":[{"stream":"raw","by":"key"},{"stream":"raw","by":"head"}],"stream":"windows"}]}"#;

// A count by the key's head, and one by its tail.
const HEAD_AND_TAIL: &str =
    r#"{"injectors":[{"name":"clicks","stream":"raw"}],"computations":[{"name":"by_head","kind":"count","size":60,"reads":[{"stream":"raw","by":"head"}],"stream":"heads"},{"name":"by_tail","kind":"count","size":60,"reads":[{"stream":"raw","by":"tail"}],"stream":"tails"}]}"#;

// A spike of what is injected: above three times the mean of the last two.
const RAW_SPIKE: &str =
    r#"{"injectors":[{"name":"clicks","stream":"raw"}],"computations":[{"name":"spikes","kind":"spike","last":2,"times":3,"reads":[{"stream":"raw","by":"key"}],"stream":"alerts"}]}"#;

// A topology with an event file, and the text of both.
struct Row {
    name: &'static str,
    topology: &'static str,
    events: &'static str,
    text: &'static str,
}

// The files of the worked examples.
static WORKED: [Row; 4] = [
    Row {
        name: "a count",
        topology: COUNT,
        events: EVENTS,
        text: r#"{"key":"a","stream":"windows","ts":60,"value":2}
{"key":"a","stream":"windows","ts":120,"value":1}
{"fired":2,"handled":3,"injected":3,"late":0}
"#,
    },
    Row {
        name: "a count of what a count makes",
        topology: CHAIN,
        events: EVENTS,
        text: r#"{"key":"a","stream":"hours","ts":3600,"value":2}
{"fired":3,"handled":5,"injected":3,"late":0}
"#,
    },
    Row {
        name: "a spike behind a count",
        topology: SPIKE,
        events: r#"{"key":"a","ts":0}
{"key":"a","ts":60}
{"key":"a","ts":120}
{"key":"a","ts":121}
{"key":"a","ts":122}
{"key":"a","ts":123}
{"key":"a","ts":124}
{"key":"a","ts":125}
{"key":"a","ts":126}
"#,
        text: r#"{"key":"a","stream":"alerts","ts":181,"value":7}
{"fired":6,"handled":12,"injected":9,"late":0}
"#,
    },
    Row {
        name: "an unread stream",
        topology: UNREAD,
        events: r#"{"key":"b","ts":7,"value":-3}"#,
        text: r#"{"key":"b","stream":"raw","ts":7,"value":-3}
{"fired":0,"handled":0,"injected":1,"late":0}
"#,
    },
];

// A late line through each kind. The spike at 40 is one since the late 9 is at no place.
static LATE: [Row; 3] = [
    Row {
        name: "late through a count",
        topology: COUNT,
        events: r#"{"watermark":100}
{"key":"a","ts":50}
{"key":"a","ts":100}
"#,
        text: r#"{"key":"a","stream":"windows","ts":120,"value":1}
{"fired":1,"handled":2,"injected":2,"late":1}
"#,
    },
    Row {
        name: "late through a pass",
        topology: TAILS,
        events: r#"{"watermark":100}
{"key":"h/x","ts":50,"value":4}
"#,
        text: r#"{"key":"h/x","stream":"copies","ts":50,"value":4}
{"fired":0,"handled":1,"injected":1,"late":1}
"#,
    },
    Row {
        name: "late through a spike",
        topology: RAW_SPIKE,
        events: r#"{"key":"a","ts":10,"value":1}
{"key":"a","ts":20,"value":1}
{"watermark":35}
{"key":"a","ts":30,"value":9}
{"key":"a","ts":40,"value":4}
"#,
        text: r#"{"key":"a","stream":"alerts","ts":41,"value":4}
{"fired":3,"handled":4,"injected":4,"late":1}
"#,
    },
];

// What one reads twice, and how keys are extracted.
static READINGS: [Row; 4] = [
    Row {
        name: "a double reading into one row",
        topology: TWICE,
        events: r#"{"key":"a","ts":10}"#,
        text: r#"{"key":"a","stream":"windows","ts":60,"value":2}
{"fired":1,"handled":2,"injected":1,"late":0}
"#,
    },
    Row {
        name: "a double reading into two rows",
        topology: TWICE,
        events: r#"{"key":"a/b","ts":10}"#,
        text: r#"{"key":"a","stream":"windows","ts":60,"value":1}
{"key":"a/b","stream":"windows","ts":60,"value":1}
{"fired":2,"handled":2,"injected":1,"late":0}
"#,
    },
    Row {
        name: "head and tail",
        topology: HEAD_AND_TAIL,
        events: r#"{"key":"h/x","ts":5}
{"key":"g/x","ts":6}
"#,
        text: r#"{"key":"g","stream":"heads","ts":60,"value":1}
{"key":"h","stream":"heads","ts":60,"value":1}
{"key":"x","stream":"tails","ts":60,"value":2}
{"fired":3,"handled":4,"injected":2,"late":0}
"#,
    },
    Row {
        name: "equal lines",
        topology: TAILS,
        events: r#"{"key":"h/x","ts":5,"value":-3}
{"key":"h/x","ts":5,"value":-3}
"#,
        text: r#"{"key":"h/x","stream":"copies","ts":5,"value":-3}
{"key":"h/x","stream":"copies","ts":5,"value":-3}
{"fired":0,"handled":2,"injected":2,"late":0}
"#,
    },
];

// The values of a spike: three times -9 is below two times -10, and three times -14 is not below two
// times -30; three times 2 is not below two times 3; and of two values at 10 the 7 stands.
static VALUES: [Row; 3] = [
    Row {
        name: "negative values",
        topology: RAW_SPIKE,
        events: r#"{"key":"a","ts":10,"value":-5}
{"key":"a","ts":20,"value":-4}
{"key":"a","ts":30,"value":-10}
{"key":"a","ts":40,"value":-30}
"#,
        text: r#"{"key":"a","stream":"alerts","ts":31,"value":-10}
{"fired":4,"handled":4,"injected":4,"late":0}
"#,
    },
    Row {
        name: "exactly three times",
        topology: RAW_SPIKE,
        events: r#"{"key":"a","ts":10,"value":1}
{"key":"a","ts":20,"value":1}
{"key":"a","ts":30,"value":3}
"#,
        text: r#"{"fired":3,"handled":3,"injected":3,"late":0}
"#,
    },
    Row {
        name: "two values at one timestamp",
        topology: RAW_SPIKE,
        events: r#"{"key":"a","ts":10,"value":7}
{"key":"a","ts":20,"value":1}
{"key":"a","ts":10,"value":1}
{"key":"a","ts":30,"value":9}
"#,
        text: r#"{"fired":3,"handled":4,"injected":4,"late":0}
"#,
    },
];

// A plan that goes before the drain.
const PLAN: &str = "claim 0 0
inject 0 0
";

// Ends the test where the files of a row are not counted and run to its text, by a drain alone and behind a plan.
fn all_are_counted(rt: &impl Abort, alloc: Global, rows: &[Row]) {
    for row in rows {
        let files = [("t.json", row.topology), ("p", PLAN), ("e", row.events)];
        for line in &["plain t.json e", SOLO, REPLAY] {
            let look = Look::Writes(row.text);
            let is_so = seen(rt, alloc, line, &files, Fault::Never, look);
            must_hold(rt, is_so, row.name);
        }
    }
}

#[test]
fn the_worked_examples_are_counted(rt: HostRuntime) {
    all_are_counted(&rt, rt.alloc(), &WORKED);
}

#[test]
fn a_late_record_is_in_no_window_and_at_no_place(rt: HostRuntime) {
    all_are_counted(&rt, rt.alloc(), &LATE);
}

#[test]
fn a_member_is_read_once_for_each_subscription(rt: HostRuntime) {
    all_are_counted(&rt, rt.alloc(), &READINGS);
}

#[test]
fn a_spike_is_judged_by_the_values_before_it(rt: HostRuntime) {
    all_are_counted(&rt, rt.alloc(), &VALUES);
}

// Two event files, one for each of two injectors.
const BOTH: Files<'static> = &[
    ("t.json", TWO),
    ("l", "{\"key\":\"a\",\"ts\":10}"),
    ("r", "{\"key\":\"a\",\"ts\":70}"),
];

// What is written of both.
const TEXT: &str = r#"{"key":"a","stream":"windows","ts":60,"value":1}
{"key":"a","stream":"windows","ts":120,"value":1}
{"fired":2,"handled":2,"injected":2,"late":0}
"#;

static TWO_COUNTED: [Case; 1] = [("both files", "plain t.json l r", BOTH, Look::Writes(TEXT))];

#[test]
fn two_injectors_are_counted(rt: HostRuntime) {
    all_hold(&rt, rt.alloc(), &TWO_COUNTED);
}

// Whether the text of these lines is solo's where they are counted.
fn lines_are_counted(rt: &impl Abort, alloc: Global, events: &str) -> bool {
    let files = [("t.json", CUTS), ("e", events)];
    let mut solo = sink(alloc);
    let is_ok = seen_at(rt, alloc, SOLO, &files, &mut solo, Look::Ends);
    let look = Look::WritesBytes(solo.text());
    let is_same = seen(rt, alloc, "plain t.json e", &files, Fault::Never, look);
    drop(solo);
    is_ok && is_same
}

// The same of two thousand lines of the mode load.
fn load_is_counted(rt: &impl Abort, alloc: Global) -> bool {
    let bytes = made(rt, load_lines(alloc, 7, 2000));
    let is_so = match str::from_utf8(bytes.as_slice()) {
        Ok(events) => lines_are_counted(rt, alloc, events),
        Err(_) => false,
    };
    drop(bytes);
    is_so
}

#[test]
fn two_thousand_lines_are_counted_as_solo_does(rt: HostRuntime) {
    must_hold(&rt, load_is_counted(&rt, rt.alloc()), "two thousand lines");
}

// A keeper that has a row is handed back with it where the first example is counted.
#[test]
fn a_keeper_that_has_a_row_is_not_called(rt: HostRuntime) {
    let look = Look::Counted(ONE_ROW);
    let is_so = seen_over_a_row(&rt, rt.alloc(), "plain t.json e", FIRST, look);
    must_hold(&rt, is_so, "the row of h0");
}
