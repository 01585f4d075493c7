//! The history of a run, line by line, and the rows that it leaves, by the values of the worked examples.
use super::calls::{FIRST, Files, SOLO};
use super::looks::{Case, Look, Row, all_hold};
use super::repeats::{Repeat, all_are_repeated};
use super::topologies::{COUNT, CUTS, READERS};

// The history of the first example, and its text.
const TWO_WINDOWS: &str = r#"{"do":"claim","interval":0,"n":0,"worker":0}
{"do":"claim","interval":1,"n":1,"worker":0}
{"do":"inject","key":"a","late":false,"line":0,"n":2,"part":0,"seq":0,"ts":10,"value":1}
{"do":"handle","id":"00000000-0000-8000-8000-000000000002","n":3,"out":[],"part":1,"row":"a","seq":1,"state":"01000000000000000000000001000000000000003c0000000000000001","timers":[{"tag":0,"time":60}]}
{"do":"ack","id":"00000000-0000-8000-8000-000000000002","n":4,"part":0,"row":"","seq":0}
{"do":"inject","key":"a","late":false,"line":1,"n":5,"part":0,"seq":0,"ts":59,"value":1}
{"do":"handle","id":"00000000-0000-8000-8000-000000000005","n":6,"out":[],"part":1,"row":"a","seq":1,"state":"01000000000000000000000001000000000000003c0000000000000002","timers":[{"tag":0,"time":60}]}
{"do":"ack","id":"00000000-0000-8000-8000-000000000005","n":7,"part":0,"row":"","seq":0}
{"do":"inject","key":"a","late":false,"line":2,"n":8,"part":0,"seq":0,"ts":60,"value":1}
{"do":"handle","id":"00000000-0000-8000-8000-000000000008","n":9,"out":[],"part":1,"row":"a","seq":1,"state":"01000000000000000000000002000000000000003c000000000000000200000000000000780000000000000001","timers":[{"tag":0,"time":120}]}
{"do":"ack","id":"00000000-0000-8000-8000-000000000008","n":10,"part":0,"row":"","seq":0}
{"do":"fire","late":false,"mark":60,"n":11,"out":[{"key":"a","ts":60,"value":2}],"part":1,"row":"a","seq":1,"state":"0100000000000000000000000100000000000000780000000000000001","tag":0,"time":60}
{"do":"fire","late":false,"mark":120,"n":12,"out":[{"key":"a","ts":120,"value":1}],"part":1,"row":"a","seq":1,"state":"01000000000000000000000000","tag":0,"time":120}
{"do":"purge","floor":13,"n":13,"part":1,"row":"a","seq":1}
{"key":"a","stream":"windows","ts":60,"value":2}
{"key":"a","stream":"windows","ts":120,"value":1}
{"fired":2,"handled":3,"injected":3,"late":0}
"#;

// The history of no event: the claims alone.
const NO_EVENTS: &str = r#"{"do":"claim","interval":0,"n":0,"worker":0}
{"do":"claim","interval":1,"n":1,"worker":0}
{"fired":0,"handled":0,"injected":0,"late":0}
"#;

/// A watermark fires a window before the next line is injected.
pub const MARKED: &str = r#"{"do":"claim","interval":0,"n":0,"worker":0}
{"do":"claim","interval":1,"n":1,"worker":0}
{"do":"inject","key":"a","late":false,"line":0,"n":2,"part":0,"seq":0,"ts":10,"value":1}
{"do":"handle","id":"00000000-0000-8000-8000-000000000002","n":3,"out":[],"part":1,"row":"a","seq":1,"state":"01000000000000000000000001000000000000003c0000000000000001","timers":[{"tag":0,"time":60}]}
{"do":"ack","id":"00000000-0000-8000-8000-000000000002","n":4,"part":0,"row":"","seq":0}
{"do":"fire","late":false,"mark":60,"n":5,"out":[{"key":"a","ts":60,"value":1}],"part":1,"row":"a","seq":1,"state":"01000000000000000000000000","tag":0,"time":60}
{"do":"inject","key":"a","late":false,"line":1,"n":6,"part":0,"seq":0,"ts":70,"value":1}
{"do":"handle","id":"00000000-0000-8000-8000-000000000006","n":7,"out":[],"part":1,"row":"a","seq":1,"state":"0100000000000000000000000100000000000000780000000000000001","timers":[{"tag":0,"time":120}]}
{"do":"ack","id":"00000000-0000-8000-8000-000000000006","n":8,"part":0,"row":"","seq":0}
{"do":"fire","late":false,"mark":120,"n":9,"out":[{"key":"a","ts":120,"value":1}],"part":1,"row":"a","seq":1,"state":"01000000000000000000000000","tag":0,"time":120}
{"do":"purge","floor":10,"n":10,"part":1,"row":"a","seq":1}
{"key":"a","stream":"windows","ts":60,"value":1}
{"key":"a","stream":"windows","ts":120,"value":1}
{"fired":2,"handled":2,"injected":2,"late":0}
"#;

// Each reader of a stream handles the record under an id of its own.
const READ_TWICE: &str = r#"{"do":"claim","interval":0,"n":0,"worker":0}
{"do":"claim","interval":1,"n":1,"worker":0}
{"do":"claim","interval":2,"n":2,"worker":0}
{"do":"inject","key":"a","late":false,"line":0,"n":3,"part":0,"seq":0,"ts":10,"value":1}
{"do":"handle","id":"00000000-0000-8000-8000-000000000003","n":4,"out":[],"part":1,"row":"a","seq":1,"state":"01000000000000000000000001000000000000003c0000000000000001","timers":[{"tag":0,"time":60}]}
{"do":"ack","id":"00000000-0000-8000-8000-000000000003","n":5,"part":0,"row":"","seq":0}
{"do":"handle","id":"00000000-0000-8001-8000-000000000003","n":6,"out":[{"key":"a","ts":10,"value":1}],"part":2,"row":"a","seq":2,"state":"030000000000000000","timers":[]}
{"do":"ack","id":"00000000-0000-8001-8000-000000000003","n":7,"part":0,"row":"","seq":0}
{"do":"fire","late":false,"mark":60,"n":8,"out":[{"key":"a","ts":60,"value":1}],"part":1,"row":"a","seq":1,"state":"01000000000000000000000000","tag":0,"time":60}
{"do":"purge","floor":9,"n":9,"part":1,"row":"a","seq":1}
{"do":"purge","floor":10,"n":10,"part":2,"row":"a","seq":2}
{"key":"a","stream":"copies","ts":10,"value":1}
{"key":"a","stream":"windows","ts":60,"value":1}
{"fired":1,"handled":2,"injected":1,"late":0}
"#;

// Each key is handled in its interval.
const CUT: &str = r#"{"do":"claim","interval":0,"n":0,"worker":0}
{"do":"claim","interval":1,"n":1,"worker":0}
{"do":"claim","interval":2,"n":2,"worker":0}
{"do":"claim","interval":3,"n":3,"worker":0}
{"do":"inject","key":"h","late":false,"line":0,"n":4,"part":0,"seq":0,"ts":10,"value":1}
{"do":"handle","id":"00000000-0000-8000-8000-000000000004","n":5,"out":[],"part":1,"row":"h","seq":2,"state":"01000000000000000000000001000000000000003c0000000000000001","timers":[{"tag":0,"time":60}]}
{"do":"ack","id":"00000000-0000-8000-8000-000000000004","n":6,"part":0,"row":"","seq":0}
{"do":"inject","key":"a","late":false,"line":1,"n":7,"part":0,"seq":0,"ts":10,"value":1}
{"do":"handle","id":"00000000-0000-8000-8000-000000000007","n":8,"out":[],"part":1,"row":"a","seq":1,"state":"01000000000000000000000001000000000000003c0000000000000001","timers":[{"tag":0,"time":60}]}
{"do":"ack","id":"00000000-0000-8000-8000-000000000007","n":9,"part":0,"row":"","seq":0}
{"do":"fire","late":false,"mark":60,"n":10,"out":[{"key":"a","ts":60,"value":1}],"part":1,"row":"a","seq":1,"state":"01000000000000000000000000","tag":0,"time":60}
{"do":"fire","late":false,"mark":60,"n":11,"out":[{"key":"h","ts":60,"value":1}],"part":1,"row":"h","seq":2,"state":"01000000000000000000000000","tag":0,"time":60}
{"do":"purge","floor":12,"n":12,"part":1,"row":"a","seq":1}
{"do":"purge","floor":13,"n":13,"part":1,"row":"h","seq":2}
{"key":"a","stream":"windows","ts":60,"value":1}
{"key":"h","stream":"windows","ts":60,"value":1}
{"fired":2,"handled":2,"injected":2,"late":0}
"#;

/// The line that prints the history too.
pub const PRINTED: &str = "solo --history t.json e";

/// The injector's row has injected three lines, and the last commit number on it is 10.
pub const INJECTOR: &[u8] =
    b"\x01\0\0\0\0\0\0\0\x0a\0\0\0\0\0\0\0\0\0\0\0\0\x03\0\0\0\0\0\0\0\0\0\0\0\0";

/// The row of a has no window, timer or id left, and the purge has commit number 13.
pub const COUNTED: &[u8] = b"\x01\0\0\0\0\0\0\0\x0d\0\0\0\0\0\0\0\x0d\x01\0\0\0\0\0\0\0\0\0\0\0\0\
    \0\0\0\0\0\0\0\0\0\0\0\0";

// The two rows that the first example leaves.
const TWO_ROWS: &[Row<'static>] = &[(0, "", INJECTOR), (1, "a", COUNTED)];

// What is written of the first example, its entries, and its rows.
static EXAMPLE: [Case; 3] = [
    ("text", PRINTED, FIRST, Look::Writes(TWO_WINDOWS)),
    ("entries", SOLO, FIRST, Look::Entries(14)),
    ("rows", SOLO, FIRST, Look::Leaves(TWO_ROWS)),
];

#[test]
fn two_windows_and_summary(rt: HostRuntime) {
    all_hold(&rt, rt.alloc(), &EXAMPLE);
}

// An event file of no line.
const EMPTY: Files<'static> = &[("t.json", COUNT), ("e", "")];

// What is written of it, and that it leaves no row.
static NOTHING: [Case; 2] = [
    ("text", PRINTED, EMPTY, Look::Writes(NO_EVENTS)),
    ("rows", SOLO, EMPTY, Look::Leaves(&[])),
];

#[test]
fn empty_event_file(rt: HostRuntime) {
    all_hold(&rt, rt.alloc(), &NOTHING);
}

// Histories and their lines.
static HISTORIES: [Case; 3] = [
    (
        "watermark fires before next inject",
        PRINTED,
        &[
            ("t.json", COUNT),
            (
                "e",
                "{\"key\":\"a\",\"ts\":10}\n{\"watermark\":60}\n{\"key\":\"a\",\"ts\":70}\n",
            ),
        ],
        Look::Writes(MARKED),
    ),
    (
        "each reader has an id of its own",
        PRINTED,
        &[("t.json", READERS), ("e", "{\"key\":\"a\",\"ts\":10}\n")],
        Look::Writes(READ_TWICE),
    ),
    (
        "each key is handled in its interval",
        PRINTED,
        &[
            ("t.json", CUTS),
            (
                "e",
                "{\"key\":\"h\",\"ts\":10}\n{\"key\":\"a\",\"ts\":10}\n",
            ),
        ],
        Look::Writes(CUT),
    ),
];

#[test]
fn each_history_has_its_lines(rt: HostRuntime) {
    all_hold(&rt, rt.alloc(), &HISTORIES);
}

// A record, of which a file has 64 or 65, and the line that works off such a file.
const RECORD: &str = "{\"key\":\"a\",\"ts\":1}\n";

const REPEATED: &str = "solo t.json f";

// Of so many records of one key, the entry of this number.
static MANY: [Repeat; 7] = [
    (
        "entry 191",
        REPEATED,
        RECORD,
        64,
        Look::Entry(191, ("inject", 63)),
    ),
    (
        "entry 192",
        REPEATED,
        RECORD,
        64,
        Look::Entry(192, ("handle", 191)),
    ),
    (
        "entry 193",
        REPEATED,
        RECORD,
        64,
        Look::Entry(193, ("ack", 191)),
    ),
    (
        "entry 194",
        REPEATED,
        RECORD,
        65,
        Look::Entry(194, ("inject", 64)),
    ),
    (
        "entry 195",
        REPEATED,
        RECORD,
        65,
        Look::Entry(195, ("purge", 194)),
    ),
    (
        "entry 196",
        REPEATED,
        RECORD,
        65,
        Look::Entry(196, ("handle", 194)),
    ),
    (
        "entry 197",
        REPEATED,
        RECORD,
        65,
        Look::Entry(197, ("ack", 194)),
    ),
];

// Two claims, and three entries for each of 64 records, stand before entry 194. The row has seen 64 ids
// then, which it forgets before it handles one more; with 63 it forgets none.
#[test]
fn a_row_of_64_ids_forgets_them_before_it_handles_one_more(rt: HostRuntime) {
    all_are_repeated(&rt, rt.alloc(), &MANY);
}
