//! Two event files, one for each of two injectors.
use super::calls::Files;
use super::looks::{Case, Look, all_hold};
use super::topologies::TWO;

// A record of each injector, in windows of their own.
const FILES: Files<'static> = &[
    ("t.json", TWO),
    ("l", "{\"key\":\"a\",\"ts\":10}"),
    ("r", "{\"key\":\"a\",\"ts\":70}"),
];

// The line that works off both.
const BOTH: &str = "solo t.json l r";

// What is written of both.
const TEXT: &str = r#"{"key":"a","stream":"windows","ts":60,"value":1}
{"key":"a","stream":"windows","ts":120,"value":1}
{"fired":2,"handled":2,"injected":2,"late":0}
"#;

// Before the second injector injects its line it holds the watermark at 0, so a window fires after the lines of both.
static LOOKS: [Case; 3] = [
    ("text and entries", BOTH, FILES, Look::Runs(TEXT, 12)),
    (
        "line of the first",
        BOTH,
        FILES,
        Look::Entry(6, ("inject", 0)),
    ),
    ("first window", BOTH, FILES, Look::Entry(9, ("fire", 60))),
];

#[test]
fn two_injectors_hold_the_watermark(rt: HostRuntime) {
    all_hold(&rt, rt.alloc(), &LOOKS);
}
