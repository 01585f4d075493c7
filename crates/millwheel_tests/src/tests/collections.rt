//! The mode `collect`: the live lines of a file, each once.
use super::USAGE;
use super::calls::{Fault, Files};
use super::looks::{BadCase, Case, Look, Refusal, all_are_refused, all_fail_so, all_hold};

// A line that stands twice, and one that is cut off.
const TWICE: Files<'static> = &[(
    "f",
    r#"{"id":"00000000-0000-8000-8000-00000000000b","key":"a","stream":"windows","ts":60,"value":2}
{"id":"00000000-0000-8000-8000-00000000000b","key":"a","stream":"windows","ts":60,"value":2}
{"id":"0000"#,
)];

// What is written of each. The second line has a greater id than the first.
static ROWS: [Case; 4] = [
    (
        "nothing",
        "collect f",
        &[("f", "")],
        Look::Writes("{\"lines\":0,\"other\":0}\n"),
    ),
    (
        "twice and cut off",
        "collect f",
        TWICE,
        Look::Writes(
            r#"{"id":"00000000-0000-8000-8000-00000000000b","key":"a","stream":"windows","ts":60,"value":2}
{"lines":1,"other":1}
"#,
        ),
    ),
    (
        "by their ids",
        "collect f",
        &[(
            "f",
            r#"{"id":"00000000-0000-8000-8000-00000000000c","key":"a","stream":"windows","ts":120,"value":1}

{"id":"00000000-0000-8000-8000-00000000000b","key":"a","stream":"windows","ts":60,"value":2}
"#,
        )],
        Look::Writes(
            r#"{"id":"00000000-0000-8000-8000-00000000000b","key":"a","stream":"windows","ts":60,"value":2}
{"id":"00000000-0000-8000-8000-00000000000c","key":"a","stream":"windows","ts":120,"value":1}
{"lines":2,"other":0}
"#,
        ),
    ),
    (
        "other spellings",
        "collect f",
        &[(
            "f",
            r#"{"key":"a","id":"00000000-0000-8000-8000-00000000000b","stream":"windows","ts":60,"value":2}
{"id":"00000000-0000-8000-8000-00000000000b", "key":"a","stream":"windows","ts":60,"value":2}
{"fired":2,"handled":3,"injected":3,"late":0}
"#,
        )],
        Look::Writes("{\"lines\":0,\"other\":3}\n"),
    ),
];

#[test]
fn collect_once(rt: HostRuntime) {
    all_hold(&rt, rt.alloc(), &ROWS);
}

// A file whose fourth line differs from its first.
const DIFFERING: Files<'static> = &[(
    "f",
    r#"{"id":"00000000-0000-8000-8000-00000000000b","key":"a","stream":"windows","ts":60,"value":2}
{"id":"00000000-0000-8000-8000-00000000000b","key":"a","stream":"windows","ts":60,"value":2}
{"id":"0000
{"id":"00000000-0000-8000-8000-00000000000b","key":"a","stream":"windows","ts":60,"value":3}
"#,
)];

// Lines that are refused over that file, and what is said of each.
static LINES: [Refusal; 3] = [
    ("collect f", DIFFERING, "line 4 differs from line 1"),
    ("collect g", DIFFERING, "no file g"),
    ("collect f f", DIFFERING, USAGE),
];

#[test]
fn a_line_that_differs_is_named(rt: HostRuntime) {
    all_are_refused(&rt, rt.alloc(), &LINES);
}

// A sink that takes eight bytes and fails at its second call gets eight bytes of a file's text.
static CUT: [BadCase; 1] = [(
    "eight bytes",
    Fault::Writes(&[1]),
    "collect f",
    TWICE,
    Look::Cut(0, "{\"id\":\"0"),
)];

#[test]
fn a_sink_fails_after_eight_bytes_of_a_collection(rt: HostRuntime) {
    all_fail_so(&rt, rt.alloc(), &CUT);
}
