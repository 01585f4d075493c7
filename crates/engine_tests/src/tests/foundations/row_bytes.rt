//! The bytes of states, and those of a row, as a keeper has them.
use super::{Holds, all_hold, are, each_holds, made, refusal_of};
use record_codec::{RowRefusal, decode_row, encode_row};
use row_parts::{StateRefusal, read_state, state_bytes};
use std::alloc::Global;
use std::process::Abort;

const INJECTOR: [u8; 34] = [
    1, 0, 0, 0, 0, 0, 0, 0, 10, 0, 0, 0, 0, 0, 0, 0, 0, 0, 0, 0, 0, 3, 0, 0, 0, 0, 0, 0, 0, 0, 0,
    0, 0, 0,
];

const COUNT: [u8; 42] = [
    1, 0, 0, 0, 0, 0, 0, 0, 13, 0, 0, 0, 0, 0, 0, 0, 13, 1, 0, 0, 0, 0, 0, 0, 0, 0, 0, 0, 0, 0, 0,
    0, 0, 0, 0, 0, 0, 0, 0, 0, 0, 0,
];

// The bytes of the injector's row with another version.
const OTHER_VERSION: [u8; 34] = [
    2, 0, 0, 0, 0, 0, 0, 0, 10, 0, 0, 0, 0, 0, 0, 0, 0, 0, 0, 0, 0, 3, 0, 0, 0, 0, 0, 0, 0, 0, 0,
    0, 0, 0,
];

// The same with more ids than bytes.
const MORE_IDS: [u8; 34] = [
    1, 0, 0, 0, 0, 0, 0, 0, 10, 0, 0, 0, 0, 0, 0, 0, 0, 0, 0, 0, 0, 3, 0, 0, 0, 0, 0, 0, 0, 0, 255,
    255, 255, 255,
];

// An injector's row to which nothing happened, with a byte too many.
const LONGER: [u8; 35] = [
    1, 0, 0, 0, 0, 0, 0, 0, 0, 0, 0, 0, 0, 0, 0, 0, 0, 0, 0, 0, 0, 0, 0, 0, 0, 0, 0, 0, 0, 0, 0, 0,
    0, 0, 0,
];

// What bytes are.
enum Told {
    // Those of a row with this last entry and this floor.
    Row(u64, u64),
    // Those of no row.
    NoRow,
    // Those of a state.
    State,
    // Those of no state.
    NoState,
}

// Bytes, and what they are.
type Spelling = (&'static [u8], Told);

static ROWS: [(&str, Spelling); 5] = [
    ("injector", (&INJECTOR, Told::Row(10, 0))),
    ("count", (&COUNT, Told::Row(13, 13))),
    ("another version", (&OTHER_VERSION, Told::NoRow)),
    ("more ids than bytes", (&MORE_IDS, Told::NoRow)),
    ("a byte too many", (&LONGER, Told::NoRow)),
];

// A state of each kind, and bytes of none: more windows than there are bytes, no kind, and a byte too many.
static STATES: [Spelling; 7] = [
    (b"\0\0\0\0\x03", Told::State),
    (b"\x01\0\0\0\0\0\0\0\0\0\0\0\0", Told::State),
    (
        b"\x02\0\0\0\0\0\0\0\x01\0\0\0\0\0\0\0\x01\xff\xff\xff\xff\xff\xff\xff\xfe",
        Told::State,
    ),
    (b"\x03\0\0\0\0\0\0\0\x02", Told::State),
    (b"\x01\0\0\0\0\0\0\0\0\xff\xff\xff\xff", Told::NoState),
    (b"\x04\0\0\0\0\0\0\0\x02", Told::NoState),
    (b"\x03\0\0\0\0\0\0\0\x02\0", Told::NoState),
];

// Whether no row has these bytes, or no state.
fn is_damaged(alloc: Global, bytes: &[u8], of_row: bool) -> bool {
    if of_row {
        refusal_of(decode_row(alloc, bytes)) == Some(RowRefusal::Damaged)
    } else {
        refusal_of(read_state(alloc, bytes)) == Some(StateRefusal::Damaged)
    }
}

// Whether none has a beginning of these bytes.
fn beginnings_are_damaged(alloc: Global, bytes: &[u8], of_row: bool) -> bool {
    let mut are = true;
    for end in 0..bytes.len() {
        are = are && is_damaged(alloc, &bytes[..end], of_row);
    }
    are
}

impl Holds for Spelling {
    // No beginning of what a row or a state is spelt with spells one.
    fn holds<R: Abort>(&self, rt: &R, alloc: Global) -> bool {
        let (bytes, told) = self;
        match told {
            Told::Row(last, floor) => {
                let row = made(rt, decode_row(alloc, bytes));
                let is_told = row.last == *last && row.floor == *floor;
                let spelling = made(rt, encode_row(alloc, &row));
                drop(row);
                are(spelling, bytes) && is_told && beginnings_are_damaged(alloc, bytes, true)
            }
            Told::State => {
                let state = made(rt, read_state(alloc, bytes));
                let spelling = made(rt, state_bytes(alloc, &state));
                drop(state);
                are(spelling, bytes) && beginnings_are_damaged(alloc, bytes, false)
            }
            Told::NoRow => is_damaged(alloc, bytes, true),
            Told::NoState => is_damaged(alloc, bytes, false),
        }
    }
}

#[test]
fn row_bytes(rt: HostRuntime) {
    each_holds(&rt, rt.alloc(), &ROWS);
}

#[test]
fn states_are_written_and_read(rt: HostRuntime) {
    all_hold(&rt, rt.alloc(), &STATES);
}
