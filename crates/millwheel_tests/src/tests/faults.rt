//! A sink or a keeper that fails, and keepers that have rows.
use super::calls::{FIRST, Fault, SOLO, called, put, sink};
use super::events::heads;
use super::looks::{BadCase, Kind, Look, Row, all_fail_so, is_row, seen_over_a_row};
use super::topologies::HEADS;
use super::{bytes_of, key, must_hold};
use millwheel_cli::Status;
use mw_types::RowName;
use row_keeper::{BlindKeeper, KeptRow};
use std::alloc::Global;
use std::process::Abort;

// The run over a sink of eight bytes ends with that, after all of its entries and eight bytes.
const EIGHT: Look<'static> = Look::Cut(14, "{\"key\":\"");

// Sinks whose second write fails, or takes nothing.
static SINKS: [BadCase; 2] = [
    ("it fails", Fault::Writes(&[1]), SOLO, FIRST, EIGHT),
    ("it takes nothing", Fault::Idles(&[1]), SOLO, FIRST, EIGHT),
];

#[test]
fn a_sink_fails_after_eight_bytes_or_takes_nothing(rt: HostRuntime) {
    all_fail_so(&rt, rt.alloc(), &SINKS);
}

// The entries before the third put, and the rows after the second: the record waits for its
// acknowledgement in the one row, and is finished in the other.
const BEFORE_THE_ACK: &[Kind<'static>] = &[
    ("claim", 0),
    ("claim", 1),
    ("inject", 0),
    ("handle", 2),
];

const WAITING: &[Row<'static>] = &[
    (
        0,
        "",
        b"\x01\0\0\0\0\0\0\0\x02\0\0\0\0\0\0\0\0\0\0\0\0\x01\0\0\0\0\0\0\0\x01\0\0\0\0\0\0\0\x02\0\
            \0\0\0\0\0\0\x01\0\x01\x61\0\x01\x61\0\0\0\0\0\0\0\x0a\0\0\0\0\0\0\0\x01\0\0\0\0\0",
    ),
    (
        1,
        "a",
        b"\x01\0\0\0\0\0\0\0\x03\0\0\0\0\0\0\0\0\x01\0\0\0\0\0\0\0\0\0\0\0\x01\0\0\0\0\0\0\0\x3c\0\
            \0\0\0\0\0\0\x01\0\0\0\x01\0\0\0\0\0\0\0\x3c\0\0\0\0\0\0\0\0\0\0\0\0\0\0\0\0\x01\0\0\0\0\
            \0\0\0\x02\0\0\0\0",
    ),
];

// The keeper's call that fails, and what is left then.
static FAILED: [BadCase; 7] = [
    ("0", Fault::Keeps(&[0]), SOLO, FIRST, Look::Failed(0)),
    ("1", Fault::Keeps(&[1]), SOLO, FIRST, Look::Failed(0)),
    ("2", Fault::Keeps(&[2]), SOLO, FIRST, Look::Failed(1)),
    ("3", Fault::Keeps(&[3]), SOLO, FIRST, Look::Failed(2)),
    ("4", Fault::Keeps(&[4]), SOLO, FIRST, Look::Failed(3)),
    ("5", Fault::Keeps(&[5]), SOLO, FIRST, Look::Failed(4)),
    (
        "5 and its rows",
        Fault::Keeps(&[5]),
        SOLO,
        FIRST,
        Look::Left(BEFORE_THE_ACK, WAITING),
    ),
];

#[test]
fn a_keeper_that_fails_ends_the_run(rt: HostRuntime) {
    all_fail_so(&rt, rt.alloc(), &FAILED);
}

// Whether a run of a thousand records over a keeper that has a row is refused, and leaves the row.
fn thousand_are_refused(rt: &impl Abort, alloc: Global) -> bool {
    let events = heads(rt, alloc);
    let files = [("t.json", HEADS), ("e", events.as_str())];
    let is_so = seen_over_a_row(rt, alloc, SOLO, &files, Look::NotEmpty);
    drop(events);
    is_so
}

#[test]
fn keeper_not_empty(rt: HostRuntime) {
    let are_refused = thousand_are_refused(&rt, rt.alloc());
    must_hold(&rt, are_refused, "a thousand records");
}

// A keeper that shows the row a of part 1 with the byte 255 and never what is put: the row stays as it was made.
fn blind(rt: &impl Abort, alloc: Global) -> BlindKeeper {
    let key = key(rt, alloc, "a");
    let name = RowName { part: 1, key };
    let bytes = bytes_of(rt, alloc, b"\xff");
    let mut blind = BlindKeeper::new(KeptRow { name, bytes });
    put(rt, alloc, &mut blind, "a", 0);
    blind
}

// Whether a status names that row as damaged.
fn names_the_damage(status: &Status) -> bool {
    match status {
        Status::RowDamaged { name, bytes } => is_row(name, bytes.as_slice(), &(1, "a", b"\xff")),
        _ => false,
    }
}

// Whether the run ends with that and writes nothing. The injector's interval was claimed before the damaged row's.
fn damage_ends(rt: &impl Abort, alloc: Global) -> bool {
    let mut out = sink(alloc);
    let done = called(rt, alloc, SOLO, FIRST, &[], blind(rt, alloc), &mut out);
    let is_so = names_the_damage(&done.status) && done.history.len() == 1;
    drop(done);
    let is_empty = out.text().is_empty();
    drop(out);
    is_so && is_empty
}

#[test]
fn damaged_row(rt: HostRuntime) {
    must_hold(&rt, damage_ends(&rt, rt.alloc()), "the row of a");
}
