//! Words and files that are refused, and what is said of them.
use super::USAGE;
use super::calls::{FIRST, Fault, Files, REPLAY, SOLO};
use super::events::EVENTS;
use super::looks::{BadCase, Look, Refusal, all_are_refused, all_fail_so};
use super::repeats::{Repeat, all_are_repeated};
use super::topologies::{COUNT, TWO};

// Reads that fail, and what is said of each.
static READS: [BadCase; 2] = [
    (
        "the topology",
        Fault::Reads(&[0]),
        SOLO,
        FIRST,
        Look::Refused("can't read t.json"),
    ),
    (
        "the events",
        Fault::Reads(&[1]),
        SOLO,
        FIRST,
        Look::Refused("can't read e"),
    ),
];

#[test]
fn a_file_that_cannot_be_read_is_named(rt: HostRuntime) {
    all_fail_so(&rt, rt.alloc(), &READS);
}

// The line of calls whose topology is so many blanks.
const BLANK: &str = "solo f e";

// Blanks alone are within the limit, and are no JSON text.
static BLANKS: [Repeat; 2] = [
    (
        "within the limit",
        BLANK,
        " ",
        1048576,
        Look::Refused("topology refused: NotJson"),
    ),
    (
        "above it",
        BLANK,
        " ",
        1048577,
        Look::Refused("too long: f"),
    ),
];

#[test]
fn a_topology_that_is_too_long_is_refused(rt: HostRuntime) {
    all_are_repeated(&rt, rt.alloc(), &BLANKS);
}

// The topology of the count with one place changed: it reads another stream, and there are two and three injectors.
const LATER: Files<'static> = &[
    (
        "t.json",
        r#"{"injectors":[{"name":"clicks","stream":"raw"}],"computations":[{"name":"per_minute","kind":"count","size":60,"reads":[{"stream":"later","by":"key"}],"stream":"windows"}]}"#,
    ),
    ("e", EVENTS),
];

const MORE: Files<'static> = &[
    (
        "t.json",
        r#"{"injectors":[{"name":"clicks","stream":"raw"},{"name":"taps","stream":"more"}],"computations":[{"name":"per_minute","kind":"count","size":60,"reads":[{"stream":"raw","by":"key"}],"stream":"windows"}]}"#,
    ),
    ("e", EVENTS),
];

const MOST: Files<'static> = &[
    (
        "t.json",
        r#"{"injectors":[{"name":"clicks","stream":"raw"},{"name":"taps","stream":"more"},{"name":"views","stream":"seen"}],"computations":[{"name":"per_minute","kind":"count","size":60,"reads":[{"stream":"raw","by":"key"}],"stream":"windows"}]}"#,
    ),
    ("e", EVENTS),
];

// A weak pass that nothing reads.
const UNREAD: Files<'static> = &[
    (
        "t.json",
        r#"{"injectors":[{"name":"clicks","stream":"raw"}],"computations":[{"name":"near","kind":"pass","weak":true,"reads":[{"stream":"raw","by":"key"}],"stream":"mid"},{"name":"per_minute","kind":"count","size":60,"reads":[{"stream":"raw","by":"key"}],"stream":"windows"}]}"#,
    ),
    ("e", EVENTS),
];

// What is said of each.
static CHANGES: [Refusal; 4] = [
    (SOLO, LATER, "topology refused: UnknownStream"),
    (SOLO, MORE, "1 event files for 2 injectors"),
    (SOLO, MOST, "1 event files for 3 injectors"),
    (SOLO, UNREAD, "topology refused: BadWeak"),
];

#[test]
fn a_topology_is_refused_for_its_streams_or_its_files(rt: HostRuntime) {
    all_are_refused(&rt, rt.alloc(), &CHANGES);
}

// Event files and a plan, each with a bad line.
const CUT: Files<'static> = &[
    ("t.json", COUNT),
    ("e", "{\"key\":\"a\",\"ts\":10}\n{\"key\":\"a\",\"ts\":1"),
];

const STAMPED: Files<'static> = &[
    ("t.json", COUNT),
    ("e", "{\"key\":\"a\",\"ts\":4611686018427387905}"),
];

const UNSTAMPED: Files<'static> = &[("t.json", TWO), ("l", EVENTS), ("r", "\n{\"key\":\"a\"}\n")];

const PLANNED: Files<'static> = &[
    ("t.json", COUNT),
    ("p", "claim 0 0\nclaim 0 2\n"),
    ("e", EVENTS),
];

// One file more than there are injectors.
const ONE_MORE: Files<'static> = &[("t.json", COUNT), ("l", EVENTS), ("r", EVENTS)];

// The line of calls with two event files.
const TWO_FILES: &str = "solo t.json l r";

// Calls that are refused: words that are no command, files that are not there, and files with a bad line.
static REFUSED: [Refusal; 31] = [
    ("", FIRST, USAGE),
    ("\"\"", FIRST, USAGE),
    ("solo", FIRST, USAGE),
    ("solo t", FIRST, USAGE),
    ("solo t.json", FIRST, USAGE),
    ("sing t.json e", FIRST, USAGE),
    ("replay t.json e", FIRST, USAGE),
    ("run t.json e", FIRST, USAGE),
    ("run --workers 2 --rounds 3 t.json e", FIRST, USAGE),
    ("load 7 0", FIRST, USAGE),
    ("load 7 3 --history", FIRST, USAGE),
    ("solo --history t.json", FIRST, USAGE),
    ("solo --history --history t.json e", FIRST, USAGE),
    ("solo - e", FIRST, USAGE),
    ("solo --history t.json -e", FIRST, USAGE),
    ("plain t.json", FIRST, USAGE),
    ("plain t.json e --history", FIRST, USAGE),
    ("plain t.json e --keep k", FIRST, USAGE),
    ("solo t e", FIRST, "no file t"),
    ("solo t.json f", FIRST, "no file f"),
    ("solo --history t.json f", FIRST, "no file f"),
    ("plain t e", FIRST, "no file t"),
    ("plain t.json f", FIRST, "no file f"),
    ("plain e e", FIRST, "topology refused: NotJson"),
    ("plain t.json e e", FIRST, "2 event files for 1 injectors"),
    (
        "plain t.json t.json",
        FIRST,
        "events refused: file 0 line 1: BadKey",
    ),
    (SOLO, CUT, "events refused: file 0 line 2: NotJson"),
    (SOLO, STAMPED, "events refused: file 0 line 1: BadStamp"),
    (
        TWO_FILES,
        UNSTAMPED,
        "events refused: file 1 line 2: BadStamp",
    ),
    (REPLAY, PLANNED, "plan refused: line 2"),
    (TWO_FILES, ONE_MORE, "2 event files for 1 injectors"),
];

#[test]
fn words_and_files_are_refused(rt: HostRuntime) {
    all_are_refused(&rt, rt.alloc(), &REFUSED);
}

// The second file after a first of so many records.
static ROOM: [Repeat; 1] = [(
    "the second line",
    "solo two.json f e",
    "{\"key\":\"a\",\"ts\":1}\n",
    262143,
    Look::Refused("events refused: file 1 line 2: TooManyLines"),
)];

#[test]
fn the_second_file_has_the_room_that_is_left(rt: HostRuntime) {
    all_are_repeated(&rt, rt.alloc(), &ROOM);
}
