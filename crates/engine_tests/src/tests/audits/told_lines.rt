//! What lines tell of choices, and how a text is cut into lines.
use crate::tests::{made, must};
use std::alloc::Global;
use std::process::Abort;
use trace_lines::{Choice, begins_entry, choice_at, next_line};

// What a line tells: what is done, and two numbers that are chosen.
type Told = (&'static str, u64, u64);

// What the choice of a line is: a worker and an interval, an injector, an id, a part and a mark, a part and an
// id's commit number, or a part and a floor; and nothing where there is none.
fn told(rt: &impl Abort, alloc: Global, line: &str) -> Told {
    let choice = made(rt, choice_at(alloc, line.as_bytes()));
    let told = match &choice {
        Some(Choice::Claim { worker, interval }) => {
            ("claim", u64::from(*worker), u64::from(*interval))
        }
        Some(Choice::Inject { part }) => ("inject", u64::from(*part), 0),
        Some(Choice::Handle { id }) => ("handle", id.commit, u64::from(id.index)),
        Some(Choice::Fire { row, mark }) => ("fire", u64::from(row.part), *mark),
        Some(Choice::Ack { row, id }) => ("ack", u64::from(row.part), id.commit),
        Some(Choice::Purge { row, floor }) => ("purge", u64::from(row.part), *floor),
        None => ("nothing", 0, 0),
    };
    drop(choice);
    told
}

// A line of each kind of the worked row, and lines that tell nothing.
static LINES: [(&str, Told); 12] = [
    (
        r#"{"do":"claim","interval":1,"n":1,"worker":0}"#,
        ("claim", 0, 1),
    ),
    (
        r#"{"do":"inject","key":"a","late":false,"line":1,"n":6,"part":0,"seq":0,"ts":70,"value":1}"#,
        ("inject", 0, 0),
    ),
    (
        r#"{"do":"handle","id":"00000000-0000-8000-8000-000000000006","n":7,"out":[],"part":1,"row":"a","seq":1,"state":"0100000000000000000000000100000000000000780000000000000001","timers":[{"tag":0,"time":120}]}"#,
        ("handle", 6, 0),
    ),
    (
        r#"{"do":"ack","id":"00000000-0000-8000-8000-000000000006","n":8,"part":0,"row":"","seq":0}"#,
        ("ack", 0, 6),
    ),
    (
        r#"{"do":"fire","late":false,"mark":120,"n":9,"out":[{"key":"a","ts":120,"value":1}],"part":1,"row":"a","seq":1,"state":"01000000000000000000000000","tag":0,"time":120}"#,
        ("fire", 1, 120),
    ),
    (
        r#"{"do":"purge","floor":10,"n":10,"part":1,"row":"a","seq":1}"#,
        ("purge", 1, 10),
    ),
    (
        r#"{"do":"claim","interval":4294967296,"n":1,"worker":0}"#,
        ("nothing", 0, 0),
    ),
    (
        r#"{"do":"claim","interval":1e0,"n":1,"worker":0}"#,
        ("nothing", 0, 0),
    ),
    (
        r#"{"do":"ack","id":"00000000-0000-4000-8000-000000000006","n":8,"part":0,"row":"","seq":0}"#,
        ("nothing", 0, 0),
    ),
    (
        r#"{"do":"sleep","interval":1,"n":1,"worker":0}"#,
        ("nothing", 0, 0),
    ),
    (
        r#"{"key":"a","stream":"windows","ts":60,"value":1}"#,
        ("nothing", 0, 0),
    ),
    (
        "{\"do\":\"purge\",\"floor\":10,\"n\":10,\"part\":1,\"row\":\"a\",\"seq\":1",
        ("nothing", 0, 0),
    ),
];

// A text whose second line ends with a carriage return, and whose last one lacks its line feed.
static TEXT: &str = "{\"do\":1}\n{\"do\":22}\r\n{\"key\":333}\n\n{\"do\":4444}";

// How long the first lines of a text are, and whether they begin as those of entries do.
fn cut(text: &[u8]) -> [(usize, bool); 6] {
    let mut lines = [(0, false); 6];
    let mut rest = text;
    for line in &mut lines {
        if !rest.is_empty() {
            let (first, after) = next_line(rest);
            *line = (first.len(), begins_entry(first));
            rest = after;
        }
    }
    lines
}

#[test]
fn lines_tell_choices(rt: HostRuntime) {
    for (line, choice) in &LINES {
        must(&rt, told(&rt, rt.alloc(), line) == *choice, *line);
    }
}

#[test]
fn a_carriage_return_stays(rt: HostRuntime) {
    let lines = cut(TEXT.as_bytes());
    assert!(rt;
        lines
            == [
                (8, true),
                (10, true),
                (11, false),
                (0, false),
                (11, true),
                (0, false)
            ]
    );
}
