//! Keepers that show a row which the run did not write.
use crate::tests::calls::{FIRST, SOLO, called, sink};
use crate::tests::{key, made, must_hold};
use hex::decode;
use millwheel_cli::Status;
use mw_types::{Bytes, NoMemory, RowName};
use row_keeper::{KeptRow, KeptRowList, LyingKeeper};
use std::alloc::Global;
use std::process::Abort;

// A row that a keeper shows: its part, its key, and its fields in hexadecimal, with one blank between them. The fields
// are version, last entry, floor, state, timers, pending deliveries and handled ids.
type Shown = (u32, &'static str, &'static str);

// A row that fits its name is used, whatever it says of the history; one that does not is named, with its bytes.
static LIES: [(&str, bool, Shown); 10] = [
    (
        "a timer",
        true,
        (
            1,
            "a",
            "01 0000000000000000 0000000000000000 01 0000000000000000 00000000 00000001 000000000000003c 0000000000000000 00 00000000 00000000",
        ),
    ),
    (
        "an id that is handled before it is made",
        true,
        (
            1,
            "a",
            "01 0000000000000000 0000000000000000 01 0000000000000000 00000000 00000000 00000000 00000001 0000000000000002 00000000",
        ),
    ),
    (
        "a pending delivery of the first entry, which is a claim",
        true,
        (
            1,
            "a",
            "01 0000000000000000 0000000000000000 01 0000000000000000 00000000 00000000 00000001 0000000000000000 00000000 00000001 0001 61 0001 61 000000000000000a 0000000000000001 00 00000000",
        ),
    ),
    (
        "a pending delivery of an entry that is to come",
        false,
        (
            1,
            "a",
            "01 0000000000000000 0000000000000000 01 0000000000000000 00000000 00000000 00000001 0000000000000002 00000000 00000001 0001 61 0001 61 000000000000000a 0000000000000001 00 00000000",
        ),
    ),
    (
        "a pending delivery to an injector",
        false,
        (
            1,
            "a",
            "01 0000000000000000 0000000000000000 01 0000000000000000 00000000 00000000 00000001 0000000000000000 00000000 00000000 0000 0001 61 000000000000000a 0000000000000001 00 00000000",
        ),
    ),
    (
        "a state of another kind",
        false,
        (
            1,
            "a",
            "01 0000000000000000 0000000000000000 03 0000000000000000 00000000 00000000 00000000",
        ),
    ),
    (
        "an injector at its end",
        true,
        (
            0,
            "",
            "01 0000000000000000 0000000000000000 00 00000003 00000000 00000000 00000000",
        ),
    ),
    (
        "an injector beyond its end",
        false,
        (
            0,
            "",
            "01 0000000000000000 0000000000000000 00 00000004 00000000 00000000 00000000",
        ),
    ),
    (
        "an injector with a timer",
        false,
        (
            0,
            "",
            "01 0000000000000000 0000000000000000 00 00000000 00000001 000000000000003c 0000000000000000 00 00000000 00000000",
        ),
    ),
    (
        "a row that was purged to the greatest floor",
        true,
        (
            1,
            "a",
            "01 00000000ffffffff 0000000100000000 01 0000000000000000 00000000 00000000 00000000 00000000",
        ),
    ),
];

// The bytes of a row's fields.
fn bytes(rt: &impl Abort, alloc: Global, fields: &str) -> Bytes {
    let mut digits = String::new(alloc);
    for field in fields.split(' ') {
        made(rt, digits.push_str(field));
    }
    let bytes = made(rt, decode(alloc, digits.as_str()));
    drop(digits);
    Bytes::from_vec(bytes)
}

// A row as a keeper has it.
fn row(rt: &impl Abort, alloc: Global, shown: &Shown) -> KeptRow {
    let (part, text, fields) = *shown;
    KeptRow {
        name: RowName {
            part,
            key: key(rt, alloc, text),
        },
        bytes: bytes(rt, alloc, fields),
    }
}

// A keeper that shows one row.
fn liar(alloc: Global, row: KeptRow) -> Result<LyingKeeper, NoMemory> {
    let mut rows = KeptRowList::new(alloc);
    rows.push(row)?;
    Ok(LyingKeeper::new(rows))
}

// Whether a row of this name and these bytes is the one that is shown.
fn is_shown(row: KeptRow, name: &RowName, bytes: &Bytes) -> bool {
    let is_so = row.name == *name && row.bytes == *bytes;
    drop(row);
    is_so
}

// Whether this status is the one of a row that fits its name, or else of one that does not.
fn is_told(rt: &impl Abort, alloc: Global, status: &Status, shown: &Shown, fits: bool) -> bool {
    match status {
        Status::Ok => fits,
        Status::RowDamaged { name, bytes } => {
            !fits && is_shown(row(rt, alloc, shown), name, bytes)
        }
        _ => false,
    }
}

// Whether the run of the first example over a keeper that shows the row ends so.
fn ends_so(rt: &impl Abort, alloc: Global, shown: &Shown, fits: bool) -> bool {
    let mut out = sink(alloc);
    let liar = made(rt, liar(alloc, row(rt, alloc, shown)));
    let done = called(rt, alloc, SOLO, FIRST, &[], liar, &mut out);
    drop(out);
    let is_told = is_told(rt, alloc, &done.status, shown, fits);
    drop(done);
    is_told
}

#[test]
fn a_keeper_that_lies_is_used_or_named(rt: HostRuntime) {
    for (name, fits, shown) in &LIES {
        must_hold(&rt, ends_so(&rt, rt.alloc(), shown, *fits), *name);
    }
}
