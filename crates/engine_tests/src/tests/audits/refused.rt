//! Texts that are refused, each for its first wrong line.
use super::cases::{Answer, answer_of};
use super::traces::MARKED;
use crate::tests::text_cases::TWO;
use crate::tests::{made, must};
use std::alloc::Global;
use std::process::Abort;

// What is written in the place of what, where it first stands, and what is answered then.
type Changed = (&'static str, &'static str, Answer);

// One line is another; the last has two that are, of which the first is named.
static CHANGED: [Changed; 20] = [
    ("\"mark\":60", "\"mark\":61", (6, "Unlawful")),
    ("\"mark\":60", "\"mark\":59", (6, "Unlawful")),
    (
        "\"late\":false,\"mark\"",
        "\"late\":true,\"mark\"",
        (6, "Unlawful"),
    ),
    (
        "\"value\":1}],\"part\"",
        "\"value\":2}],\"part\"",
        (6, "Unlawful"),
    ),
    ("\"worker\":0", "\"worker\":16", (1, "Unlawful")),
    ("\"worker\":0", "\"worker\":4294967296", (1, "NotALine")),
    ("\"worker\":0}", "\"worker\":0}\r", (1, "NotALine")),
    ("\"interval\":1,", "\"interval\": 1,", (2, "NotALine")),
    ("\"interval\":1,", "\"interval\":1e0,", (2, "NotALine")),
    (
        "\"interval\":1,\"n\":1,",
        "\"n\":1,\"interval\":1,",
        (2, "NotALine"),
    ),
    ("\"line\":0", "\"line\":1", (3, "Unlawful")),
    ("\"n\":3", "\"n\":4", (4, "NotALine")),
    (
        "0000000001\",\"timers\"",
        "0000000002\",\"timers\"",
        (4, "Unlawful"),
    ),
    (
        "0000000001\",\"timers\"",
        "000000000\",\"timers\"",
        (4, "NotALine"),
    ),
    (
        "\"tag\":0,\"time\":60}]",
        "\"tag\":0,\"time\":61}]",
        (4, "Unlawful"),
    ),
    (
        "\"seq\":1,\"state\"",
        "\"seq\":0,\"state\"",
        (4, "Unlawful"),
    ),
    ("\"floor\":10", "\"floor\":11", (11, "Unlawful")),
    ("\"late\":0}\n", "\"late\":0}", (12, "BadText")),
    (
        "{\"key\":\"a\",\"stream\":\"windows\",\"ts\":60,\"value\":1}\n",
        "",
        (12, "BadText"),
    ),
    (
        "\"mark\":60,\"n\":5",
        "\"mark\":61,\"n\":4",
        (6, "NotALine"),
    ),
];

// The text ends behind its first lines, and then this follows.
static CUT: [(&str, &str, Answer); 7] = [
    ("{\"do\":\"claim\",\"interval\":0", "", (1, "NotFinished")),
    ("{\"do\":\"claim\",\"interval\":1", "", (2, "NotFinished")),
    ("{\"fired\"", "", (12, "BadText")),
    ("\n{\"key\"", "", (12, "BadText")),
    (
        "{\"do\":\"handle\"",
        "{\"do\":\"ack\",\"id\":\"00000000-0000-8000-8000-000000000002\",\"n\":3,\"part\":0,\"row\":\"\",\"seq\":0}",
        (4, "Unlawful"),
    ),
    (
        "{\"do\":\"ack\"",
        "{\"do\":\"handle\",\"id\":\"00000000-0000-8000-8000-000000000002\",\"n\":4,\"out\":[],\"part\":1,\"row\":\"a\",\"seq\":1,\"state\":\"01000000000000000000000001000000000000003c0000000000000001\",\"timers\":[{\"tag\":0,\"time\":60}]}\n",
        (5, "Unlawful"),
    ),
    (
        "{\"do\":\"inject\"",
        "{\"do\":\"claim\",\"interval\":0,\"n\":2,\"worker\":1}\n{\"do\":\"inject\",\"key\":\"a\",\"late\":false,\"line\":0,\"n\":3,\"part\":0,\"seq\":0,\"ts\":10,\"value\":1}\n",
        (4, "Unlawful"),
    ),
];

// The answer, once a text stands in the place of another, or of that and all behind it.
fn changed(rt: &impl Abort, alloc: Global, old: &str, new: &str, goes_on: bool) -> Answer {
    let Some((front, back)) = MARKED.split_once(old) else {
        return (0, "not there");
    };
    let back = if goes_on { back } else { "" };
    let text = made(rt, format!(in alloc; "{front}{new}{back}"));
    let answer = answer_of(rt, alloc, TWO, text.as_str());
    drop(text);
    answer
}

#[test]
fn audit_refuses(rt: HostRuntime) {
    for (old, new, answer) in &CHANGED {
        let answered = changed(&rt, rt.alloc(), old, new, true);
        must(&rt, answered == *answer, *new);
    }
}

#[test]
fn a_text_that_ends_is_refused(rt: HostRuntime) {
    for (end, more, answer) in &CUT {
        let answered = changed(&rt, rt.alloc(), end, more, false);
        must(&rt, answered == *answer, *end);
    }
}
