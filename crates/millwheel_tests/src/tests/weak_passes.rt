//! Weak passes: each mode does what it does without them, and a plan has them lose what they pass on.
use super::audits::{AUDIT, MARKED_EVENTS};
use super::calls::{Files, REPLAY, SOLO, sink};
use super::events::EVENTS;
use super::histories::MARKED;
use super::lives::ALL;
use super::looks::{Case, Look, Refusal, all_are_refused, all_hold, seen_at};
use super::replays::TEXT;
use super::topologies::{COUNT, RELAYED};
use super::{made, must_hold};
use mw_ports::MemSink;
use std::alloc::Global;
use std::process::Abort;
use std::str;

// The line that counts.
const PLAIN: &str = "plain t.json e";

// A record goes over the relay to the count, and word of it goes back over the relay.
const THERE_AND_BACK: &str = "claim 0 0
claim 0 1
inject 0 0
send 0
take 0 0
relay 0 0
take 0 1
write 0
send 0
relay 0 2
take 0 3
";

// The relay forgets before word comes, which is lost; of what is sent again word goes back.
const FORGOTTEN: &str = "claim 0 0
claim 0 1
inject 0 0
send 0
take 0 0
relay 0 0
take 0 1
write 0
send 0
forget 0
relay 0 2
resend 0
send 0
relay 0 3
take 0 4
send 0
relay 0 5
take 0 6
";

// The first example behind a weak pass, without a plan and with each of these.
const FIRST: Files<'static> = &[("t.json", RELAYED), ("e", EVENTS)];

const PLANNED: Files<'static> = &[("t.json", RELAYED), ("p", THERE_AND_BACK), ("e", EVENTS)];

const LOST: Files<'static> = &[("t.json", RELAYED), ("p", FORGOTTEN), ("e", EVENTS)];

// A trace of a run without the weak pass.
const TRACED: Files<'static> = &[("t.json", RELAYED), ("e", MARKED_EVENTS), ("r", MARKED)];

// What each mode writes of the first example, and after how many entries.
static MODES: [Case; 6] = [
    ("solo", SOLO, FIRST, Look::Runs(TEXT, 14)),
    ("plain", PLAIN, FIRST, Look::Writes(TEXT)),
    ("live", "solo --live t.json e", FIRST, Look::Runs(ALL, 14)),
    ("there and back", REPLAY, PLANNED, Look::Runs(TEXT, 16)),
    ("a relay forgets", REPLAY, LOST, Look::Runs(TEXT, 16)),
    ("audit", AUDIT, TRACED, Look::Writes("{\"entries\":11}\n")),
];

#[test]
fn each_mode_leaves_a_weak_pass_out(rt: HostRuntime) {
    all_hold(&rt, rt.alloc(), &MODES);
}

// Plans that name a relay or an interval that is not there: intervals are those of what is left.
static UNNAMED: [Refusal; 4] = [
    (
        REPLAY,
        &[("t.json", RELAYED), ("p", "relay 1 0\n"), ("e", EVENTS)],
        "plan refused: line 1",
    ),
    (
        REPLAY,
        &[("t.json", RELAYED), ("p", "claim 0 2\n"), ("e", EVENTS)],
        "plan refused: line 1",
    ),
    (
        REPLAY,
        &[("t.json", COUNT), ("p", "#\nrelay 0 0\n"), ("e", EVENTS)],
        "plan refused: line 2",
    ),
    (
        REPLAY,
        &[("t.json", COUNT), ("p", "forget 0\n"), ("e", EVENTS)],
        "plan refused: line 1",
    ),
];

#[test]
fn a_plan_names_relays_that_are_there(rt: HostRuntime) {
    all_are_refused(&rt, rt.alloc(), &UNNAMED);
}

// Six weak passes of which each reads the one before it twice, so that a count reads the injector 64 times; and a count
// that reads it once more by itself.
const DOUBLED: &str =
    r#"{"injectors":[{"name":"clicks","stream":"raw"}],"computations":[{"name":"a","kind":"pass","weak":true,"reads":[{"stream":"raw","by":"key"},{"stream":"raw","by":"key"}],"stream":"two"},{"name":"b","kind":"pass","weak":true,"reads":[{"stream":"two","by":"key"},{"stream":"two","by":"key"}],"stream":"four"},{"name":"c","kind":"pass","weak":true,"reads":[{"stream":"four","by":"key"},{"stream":"four","by":"key"}],"stream":"eight"},{"name":"d","kind":"pass","weak":true,"reads":[{"stream":"eight","by":"key"},{"stream":"eight","by":"key"}],"stream":"sixteen"},{"name":"e","kind":"pass","weak":true,"reads":[{"stream":"sixteen","by":"key"},{"stream":"sixteen","by":"key"}],"stream":"half"},{"name":"f","kind":"pass","weak":true,"reads":[{"stream":"half","by":"key"},{"stream":"half","by":"key"}],"stream":"all"},{"name":"per_minute","kind":"count","size":60,"reads":[{"stream":"all","by":"key"}],"stream":"windows"}]}"#;

const DOUBLED_AND_ONE: &str =
    r#"{"injectors":[{"name":"clicks","stream":"raw"}],"computations":[{"name":"a","kind":"pass","weak":true,"reads":[{"stream":"raw","by":"key"},{"stream":"raw","by":"key"}],"stream":"two"},{"name":"b","kind":"pass","weak":true,"reads":[{"stream":"two","by":"key"},{"stream":"two","by":"key"}],"stream":"four"},{"name":"c","kind":"pass","weak":true,"reads":[{"stream":"four","by":"key"},{"stream":"four","by":"key"}],"stream":"eight"},{"name":"d","kind":"pass","weak":true,"reads":[{"stream":"eight","by":"key"},{"stream":"eight","by":"key"}],"stream":"sixteen"},{"name":"e","kind":"pass","weak":true,"reads":[{"stream":"sixteen","by":"key"},{"stream":"sixteen","by":"key"}],"stream":"half"},{"name":"f","kind":"pass","weak":true,"reads":[{"stream":"half","by":"key"},{"stream":"half","by":"key"}],"stream":"all"},{"name":"per_minute","kind":"count","size":60,"reads":[{"stream":"all","by":"key"},{"stream":"raw","by":"key"}],"stream":"windows"}]}"#;

// One record.
const ONE: &str = "{\"key\":\"a\",\"ts\":10}\n";

// Which comes by each reading.
const COUNTED: &str = "{\"key\":\"a\",\"stream\":\"windows\",\"ts\":60,\"value\":64}
{\"fired\":1,\"handled\":64,\"injected\":1,\"late\":0}
";

static MOST: [Case; 1] = [(
    "64 readings are left",
    PLAIN,
    &[("t.json", DOUBLED), ("e", ONE)],
    Look::Writes(COUNTED),
)];

static TOO_MANY: [Refusal; 1] = [(
    PLAIN,
    &[("t.json", DOUBLED_AND_ONE), ("e", ONE)],
    "topology refused: BadWeak",
)];

#[test]
fn at_most_sixty_four_readings_are_left(rt: HostRuntime) {
    all_hold(&rt, rt.alloc(), &MOST);
    all_are_refused(&rt, rt.alloc(), &TOO_MANY);
}

// A topology, with `~` where it says of each of its passes whether that is weak.
type Twin = (&'static str, &'static str);

// One behind the other, by other extractors; one that is read twice; and two beside each other, which a third reads.
static TWINS: [Twin; 3] = [
    (
        "in a row",
        r#"{"injectors":[{"name":"clicks","stream":"raw"}],"computations":[{"name":"near","kind":"pass","weak":~,"reads":[{"stream":"raw","by":"tail"}],"stream":"mid"},{"name":"far","kind":"pass","weak":~,"reads":[{"stream":"mid","by":"key"}],"stream":"end"},{"name":"per_minute","kind":"count","size":60,"reads":[{"stream":"end","by":"head"}],"stream":"windows"}]}"#,
    ),
    (
        "read twice",
        r#"{"injectors":[{"name":"clicks","stream":"raw"}],"computations":[{"name":"near","kind":"pass","weak":~,"reads":[{"stream":"raw","by":"key"}],"stream":"mid"},{"name":"per_minute","kind":"count","size":60,"reads":[{"stream":"mid","by":"head"},{"stream":"mid","by":"tail"},{"stream":"raw","by":"key"}],"stream":"windows"}]}"#,
    ),
    (
        "a diamond",
        r#"{"injectors":[{"name":"clicks","stream":"raw"}],"computations":[{"name":"left","kind":"pass","weak":~,"reads":[{"stream":"raw","by":"head"}],"stream":"l"},{"name":"right","kind":"pass","weak":~,"reads":[{"stream":"raw","by":"tail"}],"stream":"r"},{"name":"both","kind":"pass","weak":~,"reads":[{"stream":"l","by":"key"},{"stream":"r","by":"key"}],"stream":"b"},{"name":"per_minute","kind":"count","size":60,"reads":[{"stream":"b","by":"head"},{"stream":"l","by":"tail"}],"stream":"windows"}]}"#,
    ),
];

// Keys with a head and a tail, one of them late.
const PARTED: &str = "{\"key\":\"a/b\",\"ts\":10}
{\"key\":\"b/a\",\"ts\":20}
{\"watermark\":60}
{\"key\":\"c\",\"ts\":70,\"value\":3}
{\"key\":\"a/c\",\"ts\":50}
";

// Appends a topology whose passes say this of themselves.
fn push_stated(rt: &impl Abort, all: &mut String, topology: &str, weak: &str) {
    let mut is_first = true;
    for piece in topology.split('~') {
        if !is_first {
            made(rt, all.push_str(weak));
        }
        made(rt, all.push_str(piece));
        is_first = false;
    }
}

// What stands before the summary line of a text.
fn lines_of(text: &[u8]) -> &str {
    match str::from_utf8(text) {
        Ok(text) => text.split_once("{\"fired\"").unwrap_or(("", "")).0,
        Err(_) => "",
    }
}

// What a call writes over a topology whose passes say this of themselves, to a sink that has no text yet.
fn writes(
    rt: &impl Abort,
    alloc: Global,
    line: &str,
    topology: &str,
    weak: &str,
    out: &mut MemSink,
) -> bool {
    let mut stated = String::new(alloc);
    push_stated(rt, &mut stated, topology, weak);
    let files = [("t.json", stated.as_str()), ("e", PARTED)];
    let is_ok = seen_at(rt, alloc, line, &files, out, Look::Ends);
    drop(stated);
    is_ok
}

// Whether a topology has the same lines with weak passes and with plain ones.
fn is_seen_through(rt: &impl Abort, alloc: Global, line: &str, topology: &str) -> bool {
    let (mut one, mut other) = (sink(alloc), sink(alloc));
    let is_one = writes(rt, alloc, line, topology, "true", &mut one);
    let is_other = writes(rt, alloc, line, topology, "false", &mut other);
    let lines = lines_of(one.text());
    let is_same = !lines.is_empty() && lines == lines_of(other.text());
    drop(one);
    drop(other);
    is_one && is_other && is_same
}

#[test]
fn weak_passes_are_seen_through(rt: HostRuntime) {
    for (name, topology) in &TWINS {
        for line in &[SOLO, PLAIN] {
            let is_so = is_seen_through(&rt, rt.alloc(), line, topology);
            must_hold(&rt, is_so, *name);
        }
    }
}
