//! Each call of the keeper, of the files and of the output that fails in turn, in each mode.
use crate::tests::calls::{Fault, Files, REPLAY, SOLO};
use crate::tests::events::EVENTS;
use crate::tests::loads::SUMMARY;
use crate::tests::looks::{BadCase, Kind, Look, all_fail_so, seen};
use crate::tests::must_hold;
use crate::tests::replays::{OLD_OWNER, TEXT};
use crate::tests::topologies::COUNT;

// The files of the first example, with the old owner's plan.
const FILES: Files<'static> = &[("t.json", COUNT), ("p", OLD_OWNER), ("e", EVENTS)];

// The lines of the modes that have no plan.
const PLAIN: &str = "plain t.json e";

const LOAD: &str = "load 7 3";

// The history of the first example. A claim is told by its interval, a line by its number, a record or an acknowledgement
// by the number of the entry that made it, a timer by its mark, a purge by its floor.
const WHOLE: [Kind<'static>; 14] = [
    ("claim", 0),
    ("claim", 1),
    ("inject", 0),
    ("handle", 2),
    ("ack", 2),
    ("inject", 1),
    ("handle", 5),
    ("ack", 5),
    ("inject", 2),
    ("handle", 8),
    ("ack", 8),
    ("fire", 60),
    ("fire", 120),
    ("purge", 13),
];

// The history of the old owner's plan, and of the drain after it. The write that is stale comes to no keeper.
const REPLAYED: [Kind<'static>; 17] = [
    ("claim", 0),
    ("claim", 1),
    ("inject", 0),
    ("claim", 1),
    ("handle", 2),
    ("ack", 2),
    ("claim", 0),
    ("claim", 1),
    ("inject", 1),
    ("handle", 8),
    ("ack", 8),
    ("inject", 2),
    ("handle", 11),
    ("ack", 11),
    ("fire", 60),
    ("fire", 120),
    ("purge", 16),
];

// The history of three lines of three keys, one in each interval of a count: `b` at 99, `t` at 109 and `i` at 32.
const LOADED: [Kind<'static>; 19] = [
    ("claim", 0),
    ("claim", 1),
    ("claim", 2),
    ("claim", 3),
    ("inject", 0),
    ("handle", 4),
    ("ack", 4),
    ("inject", 1),
    ("handle", 7),
    ("ack", 7),
    ("inject", 2),
    ("handle", 10),
    ("ack", 10),
    ("fire", 60),
    ("fire", 120),
    ("fire", 120),
    ("purge", 16),
    ("purge", 17),
    ("purge", 18),
];

// The words of each mode that runs, and the entries of its history.
static RUNS: [(&str, &[Kind<'static>]); 3] = [(SOLO, &WHOLE), (REPLAY, &REPLAYED), (LOAD, &LOADED)];

// The keeper's first call is that of the book's start, and the others are one for each entry. With the one behind the
// last failing the run ends well.
#[test]
fn each_keeper_call_fails(rt: HostRuntime) {
    for (line, want) in &RUNS {
        for number in 0..(want.len() as u64).saturating_add(2) {
            let look = Look::Stops(number.saturating_sub(1) as usize, want);
            let is_so = seen(&rt, rt.alloc(), line, FILES, Fault::Keeps(&[number]), look);
            must_hold(&rt, is_so, format_args!("{line}: {number}"));
        }
    }
}

// Calls: of each the read that fails, and what is said, or written where it reads no more.
static READS: [BadCase; 11] = [
    (
        "solo 0",
        Fault::Reads(&[0]),
        SOLO,
        FILES,
        Look::Refused("can't read t.json"),
    ),
    (
        "solo 1",
        Fault::Reads(&[1]),
        SOLO,
        FILES,
        Look::Refused("can't read e"),
    ),
    (
        "solo 2",
        Fault::Reads(&[2]),
        SOLO,
        FILES,
        Look::Writes(TEXT),
    ),
    (
        "replay 0",
        Fault::Reads(&[0]),
        REPLAY,
        FILES,
        Look::Refused("can't read t.json"),
    ),
    (
        "replay 1",
        Fault::Reads(&[1]),
        REPLAY,
        FILES,
        Look::Refused("can't read p"),
    ),
    (
        "replay 2",
        Fault::Reads(&[2]),
        REPLAY,
        FILES,
        Look::Refused("can't read e"),
    ),
    (
        "replay 3",
        Fault::Reads(&[3]),
        REPLAY,
        FILES,
        Look::Writes(TEXT),
    ),
    (
        "plain 0",
        Fault::Reads(&[0]),
        PLAIN,
        FILES,
        Look::Refused("can't read t.json"),
    ),
    (
        "plain 1",
        Fault::Reads(&[1]),
        PLAIN,
        FILES,
        Look::Refused("can't read e"),
    ),
    (
        "plain 2",
        Fault::Reads(&[2]),
        PLAIN,
        FILES,
        Look::Writes(TEXT),
    ),
    (
        "load 0",
        Fault::Reads(&[0]),
        LOAD,
        FILES,
        Look::Writes(SUMMARY),
    ),
];

#[test]
fn each_read_fails(rt: HostRuntime) {
    all_fail_so(&rt, rt.alloc(), &READS);
}

// Each mode, and the text that it writes.
static TEXTS: [(&str, &str); 4] = [(SOLO, TEXT), (REPLAY, TEXT), (PLAIN, TEXT), (LOAD, SUMMARY)];

// The output takes eight bytes a call. Where one of its calls fails, the run ends with that after as many bytes as the
// calls before took; it writes the whole text where there is no such call.
#[test]
fn each_write_fails(rt: HostRuntime) {
    for (line, text) in &TEXTS {
        for number in 0..=text.len().div_ceil(8) as u64 {
            let look = Look::CutAt(number.saturating_mul(8) as usize, text);
            let is_so = seen(&rt, rt.alloc(), line, FILES, Fault::Writes(&[number]), look);
            must_hold(&rt, is_so, format_args!("{line}: {number}"));
        }
    }
}
