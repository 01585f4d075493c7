//! What is written of a run, by the values of the worked examples.
use super::calls::{Fault, Files, SOLO};
use super::events::{EVENTS, heads};
use super::looks::{Case, Look, Row, all_hold, seen};
use super::must_hold;
use super::topologies::{CHAIN, COUNT, CUTS, HEADS, READERS, SPELLED, SPIKE, TAILS, UNREAD};
use std::alloc::Global;
use std::process::Abort;

// Three records of one hour.
const HOUR: &str = r#"{"key":"a","stream":"hours","ts":3600,"value":2}
{"fired":3,"handled":5,"injected":3,"late":0}
"#;

// Five keys, of each one record.
const FIVE_KEYS: &str = r#"{"key":"z","ts":10}
{"key":"q","ts":10}
{"key":"p","ts":10}
{"key":"h","ts":10}
{"key":"a","ts":10}
"#;

// The windows of five keys, in the order of the keys.
const FIVE_WINDOWS: &str = r#"{"key":"a","stream":"windows","ts":60,"value":1}
{"key":"h","stream":"windows","ts":60,"value":1}
{"key":"p","stream":"windows","ts":60,"value":1}
{"key":"q","stream":"windows","ts":60,"value":1}
{"key":"z","stream":"windows","ts":60,"value":1}
{"fired":5,"handled":5,"injected":5,"late":0}
"#;

// A record that is counted and passed on.
const BOTH: &str = r#"{"key":"a","stream":"copies","ts":10,"value":1}
{"key":"a","stream":"windows","ts":60,"value":1}
{"fired":1,"handled":2,"injected":1,"late":0}
"#;

// One late record.
const ONE_LATE: &str = r#"{"fired":0,"handled":1,"injected":1,"late":1}
"#;

// One record in time, at a watermark.
const ONE_IN_TIME: &str = r#"{"key":"a","stream":"windows","ts":120,"value":1}
{"fired":1,"handled":1,"injected":1,"late":0}
"#;

// One record at the greatest timestamp.
const GREATEST: &str = r#"{"key":"a","stream":"windows","ts":4611686018427387960,"value":1}
{"fired":1,"handled":1,"injected":1,"late":0}
"#;

// Event files with watermarks, and what is written of each.
static MARKED: [Case; 4] = [
    (
        "late record counts as late",
        SOLO,
        &[
            ("t.json", COUNT),
            ("e", "{\"watermark\":100}\n{\"key\":\"a\",\"ts\":50}\n"),
        ],
        Look::Writes(ONE_LATE),
    ),
    (
        "record at watermark is in time",
        SOLO,
        &[
            ("t.json", COUNT),
            ("e", "{\"watermark\":100}\n{\"key\":\"a\",\"ts\":100}\n"),
        ],
        Look::Writes(ONE_IN_TIME),
    ),
    (
        "lower watermark changes nothing",
        SOLO,
        &[
            ("t.json", COUNT),
            (
                "e",
                "{\"watermark\":100}\n{\"watermark\":20}\n{\"key\":\"a\",\"ts\":50}\n",
            ),
        ],
        Look::Writes(ONE_LATE),
    ),
    (
        "greatest timestamp",
        SOLO,
        &[
            ("t.json", COUNT),
            ("e", "{\"key\":\"a\",\"ts\":4611686018427387904}"),
        ],
        Look::Writes(GREATEST),
    ),
];

#[test]
fn the_watermark_says_what_is_late(rt: HostRuntime) {
    all_hold(&rt, rt.alloc(), &MARKED);
}

// One record of a value, and that it is passed on.
const VALUED: &str = "{\"key\":\"h/x\",\"ts\":5,\"value\":-3}\n";

const PASSED: &str = r#"{"key":"h/x","stream":"copies","ts":5,"value":-3}
{"fired":0,"handled":1,"injected":1,"late":0}
"#;

// One record in other spellings, between lines that are none, and what is written of it.
const ODD: &str = "\n{\"value\":-3,\"ts\":59,\"key\":\"b\",\"note\":null}\r\n{\"watermark\":60}\n";

const SUMMED: &str = r#"{"key":"b","stream":"sums","ts":60,"value":1}
{"fired":1,"handled":1,"injected":1,"late":0}
"#;

// What is written of a record that nobody reads.
const INJECTED: &str = r#"{"key":"b","stream":"raw","ts":7,"value":-3}
{"fired":0,"handled":0,"injected":1,"late":0}
"#;

// Records of one key at nine timestamps, and the first five of them.
const NINE: &str = r#"{"key":"a","ts":0}
{"key":"a","ts":60}
{"key":"a","ts":120}
{"key":"a","ts":121}
{"key":"a","ts":122}
{"key":"a","ts":123}
{"key":"a","ts":124}
{"key":"a","ts":125}
{"key":"a","ts":126}
"#;

const FIVE: &str = r#"{"key":"a","ts":0}
{"key":"a","ts":60}
{"key":"a","ts":120}
{"key":"a","ts":121}
{"key":"a","ts":122}
"#;

// What is written of each.
const ABOVE: &str = r#"{"key":"a","stream":"alerts","ts":181,"value":7}
{"fired":6,"handled":12,"injected":9,"late":0}
"#;

const AT: &str = r#"{"fired":6,"handled":8,"injected":5,"late":0}
"#;

// A record of two readers, and one that is passed on.
const READ: Files<'static> = &[("t.json", READERS), ("e", "{\"key\":\"a\",\"ts\":10}\n")];

const TAILED: Files<'static> = &[("t.json", TAILS), ("e", VALUED)];

// The rows that the latter leaves. The last commit on the injector's is 4, and the purge of the other has number 5.
const TAIL_ROWS: &[Row<'static>] = &[
    (
        0,
        "",
        b"\x01\0\0\0\0\0\0\0\x04\0\0\0\0\0\0\0\0\0\0\0\0\x01\0\0\0\0\0\0\0\0\0\0\0\0",
    ),
    (
        1,
        "x",
        b"\x01\0\0\0\0\0\0\0\x05\0\0\0\0\0\0\0\x05\x03\0\0\0\0\0\0\0\0\0\0\0\0\0\0\0\0\0\0\0\0",
    ),
];

// Topologies, and what is written, done or left of an event file.
static TEXTS: [Case; 10] = [
    ("pass by tail", SOLO, TAILED, Look::Writes(PASSED)),
    (
        "a row is named by the tail",
        SOLO,
        TAILED,
        Look::Leaves(TAIL_ROWS),
    ),
    ("two readers of one stream", SOLO, READ, Look::Writes(BOTH)),
    (
        "two readers of one stream make eleven entries",
        SOLO,
        READ,
        Look::Entries(11),
    ),
    (
        "a count counts what a count makes",
        SOLO,
        &[("t.json", CHAIN), ("e", EVENTS)],
        Look::Writes(HOUR),
    ),
    (
        "a count in three intervals",
        SOLO,
        &[("t.json", CUTS), ("e", FIVE_KEYS)],
        Look::Writes(FIVE_WINDOWS),
    ),
    (
        "other names and spellings are taken",
        SOLO,
        &[("t.json", SPELLED), ("e", ODD)],
        Look::Writes(SUMMED),
    ),
    (
        "an unread stream is written",
        SOLO,
        &[
            ("t.json", UNREAD),
            ("e", "{\"key\":\"b\",\"ts\":7,\"value\":-3}"),
        ],
        Look::Writes(INJECTED),
    ),
    (
        "spike above three times",
        SOLO,
        &[("t.json", SPIKE), ("e", NINE)],
        Look::Writes(ABOVE),
    ),
    (
        "no spike at three times",
        SOLO,
        &[("t.json", SPIKE), ("e", FIVE)],
        Look::Writes(AT),
    ),
];

#[test]
fn each_topology_has_its_text(rt: HostRuntime) {
    all_hold(&rt, rt.alloc(), &TEXTS);
}

// What is written of a thousand records by the key's head.
const BY_HEAD: &str = r#"{"key":"h0","stream":"windows","ts":1000,"value":250}
{"key":"h1","stream":"windows","ts":1000,"value":250}
{"key":"h2","stream":"windows","ts":1000,"value":250}
{"key":"h3","stream":"windows","ts":1000,"value":250}
{"fired":4,"handled":1000,"injected":1000,"late":0}
"#;

// Whether it is.
fn heads_write(rt: &impl Abort, alloc: Global) -> bool {
    let events = heads(rt, alloc);
    let files = [("t.json", HEADS), ("e", events.as_str())];
    let is_so = seen(rt, alloc, SOLO, &files, Fault::Never, Look::Writes(BY_HEAD));
    drop(events);
    is_so
}

#[test]
fn windows_by_head(rt: HostRuntime) {
    must_hold(&rt, heads_write(&rt, rt.alloc()), "a thousand records");
}
