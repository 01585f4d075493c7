//! The lines of a history: each record injected, handled and acknowledged, then its window fired, and
//! the row purged. Each line is that of a copy of its entry, and all together are those of the entries.
ghost use Rattle.mw_types.specs.Bounds.{IsWithin};
ghost use Rattle.run_history.specs.HistoryLines.{HasLine};

use super::entry_copies::production;
use super::handlers::timer;
use super::{are, key_of, made, must, name_of};
use mw_types::{Bytes, Duplicate, Effects, Entry, Record, RecordId, Seq, State};
use row_parts::read_state;
use run_history::{History, entry_line, history_lines};
use std::alloc::Global;
use std::process::Abort;

// The lines of the entries.
static LINES: [&[u8]; 11] = [
    b"{\"do\":\"claim\",\"interval\":0,\"n\":0,\"worker\":0}\n",
    b"{\"do\":\"claim\",\"interval\":1,\"n\":1,\"worker\":0}\n",
    b"{\"do\":\"inject\",\"key\":\"a\",\"late\":false,\"line\":0,\"n\":2,\"part\":0,\"seq\":0,\"ts\":10,\"value\":1}\n",
    b"{\"do\":\"handle\",\"id\":\"00000000-0000-8000-8000-000000000002\",\"n\":3,\"out\":[],\"part\":1,\"row\":\"a\",\"seq\":1,\"state\":\"01000000000000000000000001000000000000003c0000000000000001\",\"timers\":[{\"tag\":0,\"time\":60}]}\n",
    b"{\"do\":\"ack\",\"id\":\"00000000-0000-8000-8000-000000000002\",\"n\":4,\"part\":0,\"row\":\"\",\"seq\":0}\n",
    b"{\"do\":\"fire\",\"late\":false,\"mark\":60,\"n\":5,\"out\":[{\"key\":\"a\",\"ts\":60,\"value\":1}],\"part\":1,\"row\":\"a\",\"seq\":1,\"state\":\"01000000000000000000000000\",\"tag\":0,\"time\":60}\n",
    b"{\"do\":\"inject\",\"key\":\"a\",\"late\":false,\"line\":1,\"n\":6,\"part\":0,\"seq\":0,\"ts\":70,\"value\":1}\n",
    b"{\"do\":\"handle\",\"id\":\"00000000-0000-8000-8000-000000000006\",\"n\":7,\"out\":[],\"part\":1,\"row\":\"a\",\"seq\":1,\"state\":\"0100000000000000000000000100000000000000780000000000000001\",\"timers\":[{\"tag\":0,\"time\":120}]}\n",
    b"{\"do\":\"ack\",\"id\":\"00000000-0000-8000-8000-000000000006\",\"n\":8,\"part\":0,\"row\":\"\",\"seq\":0}\n",
    b"{\"do\":\"fire\",\"late\":false,\"mark\":120,\"n\":9,\"out\":[{\"key\":\"a\",\"ts\":120,\"value\":1}],\"part\":1,\"row\":\"a\",\"seq\":1,\"state\":\"01000000000000000000000000\",\"tag\":0,\"time\":120}\n",
    b"{\"do\":\"purge\",\"floor\":10,\"n\":10,\"part\":1,\"row\":\"a\",\"seq\":1}\n",
];

// The states of a count: with no window, and with one in which one record is.
const NONE: &[u8] = b"\x01\0\0\0\0\0\0\0\0\0\0\0\0";

const ONE_60: &[u8] = b"\x01\0\0\0\0\0\0\0\0\0\0\0\x01\0\0\0\0\0\0\0\x3c\0\0\0\0\0\0\0\x01";

const ONE_120: &[u8] = b"\x01\0\0\0\0\0\0\0\0\0\0\0\x01\0\0\0\0\0\0\0\x78\0\0\0\0\0\0\0\x01";

// The state of these bytes.
fn state_spelt(rt: &impl Abort, alloc: Global, bytes: &[u8]) -> State
    ensures { IsWithin result }
{
    made(rt, read_state(alloc, bytes))
}

// A handler left this state, and set the timer of this time.
fn sets(rt: &impl Abort, alloc: Global, bytes: &[u8], time: u32) -> Effects {
    let mut timers = Seq::new(alloc);
    made(rt, timers.push(timer(u64::from(time), false)));
    Effects {
        state: state_spelt(rt, alloc, bytes),
        timers,
        productions: Seq::new(alloc),
    }
}

// A line is injected.
fn injected(rt: &impl Abort, alloc: Global, line: u32, stamp: u64) -> Entry
    ensures { HasLine result }
{
    Entry::Inject {
        seq: 0,
        part: 0,
        line,
        item: Record {
            key: key_of(rt, alloc, "a"),
            stamp,
            value: 1,
            late: false,
        },
    }
}

// The last window is closed, and the row produces its count of one.
fn fired(rt: &impl Abort, alloc: Global, time: u32) -> Entry
    ensures { HasLine result }
{
    let mut productions = Seq::new(alloc);
    made(rt, productions.push(production(rt, alloc, "a", time, 1)));
    let effects = Effects {
        state: state_spelt(rt, alloc, NONE),
        timers: Seq::new(alloc),
        productions,
    };
    Entry::Fire {
        seq: 1,
        row: name_of(rt, alloc, 1, "a"),
        timer: timer(u64::from(time), false),
        mark: u64::from(time),
        effects,
    }
}

// The entry of this commit number. Each record that is injected opens a window when it is handled, the injector's row
// learns that it was handled, and the last entry purges the row.
fn entry(rt: &impl Abort, alloc: Global, n: usize) -> Entry
    ensures { HasLine result }
{
    let (injected_by, time, state) = if n < 6 {
        (2u32, 60u32, ONE_60)
    } else {
        (6u32, 120u32, ONE_120)
    };
    let (commit, index) = (u64::from(injected_by), 0);
    let id = RecordId { commit, index };
    match n {
        0 => Entry::Claim {
            worker: 0,
            interval: 0,
        },
        1 => Entry::Claim {
            worker: 0,
            interval: 1,
        },
        2 => injected(rt, alloc, 0, 10),
        6 => injected(rt, alloc, 1, 70),
        3 | 7 => Entry::Handle {
            seq: 1,
            row: name_of(rt, alloc, 1, "a"),
            id,
            effects: sets(rt, alloc, state, time),
        },
        4 | 8 => {
            let row = name_of(rt, alloc, 0, "");
            Entry::Ack { seq: 0, row, id }
        }
        5 | 9 => fired(rt, alloc, time),
        _ => Entry::Purge {
            seq: 1,
            row: name_of(rt, alloc, 1, "a"),
            floor: 10,
        },
    }
}

// What is printed of the history of the first entries, of which there are so many.
fn printed(rt: &impl Abort, alloc: Global, count: usize) -> Bytes {
    let mut history = History::new(alloc);
    for n in 0..count {
        made(rt, history.push(entry(rt, alloc, n)));
    }
    made(rt, history_lines(alloc, &history))
}

// Whether bytes are those of all lines, one after another.
fn are_lines(bytes: &[u8]) -> bool {
    let mut rest = bytes;
    for line in &LINES {
        match rest.strip_prefix(*line) {
            Some(after) => rest = after,
            None => return false,
        }
    }
    rest.is_empty()
}

// A copy of each entry is printed as its line, and the history as all lines.
#[test]
fn a_history_is_printed_line_by_line(rt: HostRuntime) {
    let alloc = rt.alloc();
    for (n, line) in LINES.iter().enumerate() {
        let entry = entry(&rt, alloc, n);
        let copy = made(&rt, entry.copy(alloc));
        drop(entry);
        let printed = made(&rt, entry_line(alloc, &copy, n as u64));
        drop(copy);
        must(&rt, are(printed, line), n);
    }
    let all = printed(&rt, alloc, LINES.len());
    let is_whole = are_lines(all.as_slice());
    drop(all);
    let is_none = are(printed(&rt, alloc, 0), b"");
    must(
        &rt,
        is_whole && is_none,
        "all lines, and of nothing no line",
    );
}
