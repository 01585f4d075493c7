//! The calls of `run_history`, for what no clause says: that ample memory is enough. No helper has a
//! clause, so that no test carries what the calls before have told.
use super::entry_copies::{Numbered, are_entries, entry, is_entry};
use super::marks::case_of;
use super::{are, length_of, made, must};
use mw_types::{Entry, Key, Production, Record};
use run_history::{Case, EntryRef, History, emissions, first_row, make, production, result_text};
use std::alloc::Global;
use std::process::Abort;
use topology::Topology;

// How many deliveries and emissions a part makes of a record that the count produces.
fn sizes(rt: &impl Abort, alloc: Global, topology: &Topology, part: u32) -> (usize, usize) {
    if topology.parts() <= part {
        return (0, 0);
    }
    let counted = [Production {
        key: Key::none(alloc),
        stamp: 60,
        value: 2,
    }];
    let made = made(rt, make(alloc, topology, part, &counted, false, 7));
    drop(counted);
    let sizes = (made.deliveries.len(), made.emissions.len());
    drop(made);
    sizes
}

// The summary of nothing.
const SUMMARY: &[u8] = b"{\"fired\":0,\"handled\":0,\"injected\":0,\"late\":0}\n";

// Whether the first row of the count has no timer, pending delivery or id, a history of nothing emits nothing, and its
// summary is printed alone.
fn is_empty(rt: &impl Abort, alloc: Global, case: &Case) -> bool {
    let row = first_row(alloc, case, 1);
    let sizes = (row.timers.len(), row.pending.len(), row.seen.len());
    drop(row);
    let nothing = History::new(alloc);
    let text = made(rt, result_text(alloc, case, &nothing));
    let emitted = made(rt, emissions(alloc, case, &nothing));
    drop(nothing);
    are(text, SUMMARY) && length_of(emitted) == 0 && sizes == (0, 0, 0)
}

// Whether the case of one count whose event file is empty has two intervals, a row of it begins fresh, and a run of
// nothing is printed. No other function has a case of its own, since each that has is slow to prove.
fn is_empty_run(rt: &impl Abort, alloc: Global) -> bool {
    let case = case_of(rt, alloc, made(rt, Topology::one_count(alloc, 60)));
    let is_cut = case.interval_count() == 2;
    let is_empty = is_empty(rt, alloc, &case);
    drop(case);
    is_cut && is_empty
}

// Whether a record is produced as it is.
fn is_produced(rt: &impl Abort, alloc: Global) -> bool {
    let record = Record {
        key: Key::none(alloc),
        stamp: 10,
        value: 3,
        late: false,
    };
    let production = made(rt, production(alloc, &record));
    drop(record);
    let is_so = production.stamp == 10 && production.value == 3;
    drop(production);
    is_so
}

// One entry, whose record has no key.
static ONE: [Numbered; 1] = [((1, 0, "", 0, 0), [1, 0, 0, 0])];

// The injector of one count makes a delivery, and the count an emission.
#[test]
fn histories_are_kept_made_and_printed(rt: HostRuntime) {
    let alloc = rt.alloc();
    let is_kept = gives_back(&rt, alloc, &ONE) && is_produced(&rt, alloc);
    let topology = made(&rt, Topology::one_count(alloc, 60));
    let injected = sizes(&rt, alloc, &topology, 0);
    let counted = sizes(&rt, alloc, &topology, 1);
    drop(topology);
    must(
        &rt,
        is_kept,
        "an entry is taken back, a record produced as it is",
    );
    let is_made = injected == (1, 0) && counted == (0, 1) && is_empty_run(&rt, alloc);
    must(
        &rt,
        is_made,
        "a count is sent to and emits, nothing is printed",
    );
}

// 2^32 - 1, and one more.
const BELOW: u64 = 4_294_967_295;

const ABOVE: u64 = 4_294_967_296;

// Keys of 30 bytes, and of one more.
const SHORT: &str = "abcdefghijklmnopqrstuvwxyz1234";

const LONG: &str = "abcdefghijklmnopqrstuvwxyz12345";

// Entries of rows that come again, with others between.
static GIVEN: [Numbered; 31] = [
    // Each kind, with short keys and small numbers.
    ((0, 0, "", 0, 1), [0, 1, 1, 0]),
    ((1, 3, "a", 0, 2), [1, 3, 0, 2]),
    ((2, 3, "a", 1, 3), [2, 3, 1, 3]),
    ((3, 3, SHORT, 0, 4), [3, 3, 4, 0]),
    ((4, 3, "a", 1, 5), [4, 3, 1, 5]),
    ((5, 3, SHORT, 5, 6), [5, 3, 5, 0]),
    // The greatest numbers below 2^32.
    ((1, BELOW, SHORT, 0, 7), [1, BELOW, 0, 7]),
    ((2, BELOW, "b", BELOW, 8), [2, BELOW, BELOW, 8]),
    ((3, BELOW, "a", 0, 9), [3, BELOW, 9, 0]),
    ((4, BELOW, SHORT, BELOW, 10), [4, BELOW, BELOW, 10]),
    ((5, BELOW, "a", BELOW, 11), [5, BELOW, BELOW, 0]),
    // A sequencer of 2^32.
    ((1, ABOVE, "a", 0, 12), [1, ABOVE, 0, 12]),
    ((2, ABOVE, "a", 1, 13), [2, ABOVE, 1, 13]),
    ((3, ABOVE, "b", 0, 14), [3, ABOVE, 14, 0]),
    ((4, ABOVE, "a", 1, 15), [4, ABOVE, 1, 15]),
    ((5, ABOVE, SHORT, 5, 16), [5, ABOVE, 5, 0]),
    // A commit number or a floor of 2^32.
    ((2, 3, "a", ABOVE, 17), [2, 3, ABOVE, 17]),
    ((4, 3, "b", ABOVE, 18), [4, 3, ABOVE, 18]),
    ((5, 3, SHORT, ABOVE, 19), [5, 3, ABOVE, 0]),
    // A long key.
    ((1, 3, LONG, 0, 20), [1, 3, 0, 20]),
    ((2, 3, LONG, 1, 21), [2, 3, 1, 21]),
    ((3, 3, LONG, 0, 22), [3, 3, 22, 0]),
    ((4, 3, LONG, 1, 23), [4, 3, 1, 23]),
    ((5, 3, LONG, 5, 24), [5, 3, 5, 0]),
    // Each kind once more.
    ((0, 0, "", 0, 25), [0, 1, 25, 0]),
    ((1, 4, "b", 0, 26), [1, 4, 0, 26]),
    ((2, 4, SHORT, 2, 27), [2, 4, 2, 27]),
    ((3, 4, "a", 0, 28), [3, 4, 28, 0]),
    ((4, 4, SHORT, 2, 29), [4, 4, 2, 29]),
    ((5, 4, "b", 6, 30), [5, 4, 6, 0]),
    ((2, 4, "a", 2, 31), [2, 4, 2, 31]),
];

// Whether a history lends each of these entries, and none past its end.
fn lends_all(history: &History, all: &[Numbered]) -> bool {
    let mut lends = history.get(all.len()).is_none();
    for (number, want) in all.iter().enumerate() {
        lends = match history.get(number) {
            Some(entry) => lends && is_entry(&entry, want),
            None => false,
        };
    }
    lends
}

// Whether an entry was there, and is this one, or there was none. It is handed over, so that it is let go here alone.
fn is_popped(entry: Option<Entry>, want: Option<&Numbered>) -> bool {
    let is_popped = match (&entry, want) {
        (Some(entry), Some(want)) => is_entry(&EntryRef::of(entry), want),
        (None, None) => true,
        _ => false,
    };
    drop(entry);
    is_popped
}

// Whether a history gives these entries back in the other order, until none is left.
fn pops_all(history: &mut History, all: &[Numbered]) -> bool {
    let mut pops = true;
    for want in all.iter().rev() {
        pops = pops && is_popped(history.pop(), Some(want));
    }
    pops && history.is_empty() && is_popped(history.pop(), None)
}

// Whether a history that is empty lends and lists these entries after they are pushed.
fn takes_all(rt: &impl Abort, alloc: Global, history: &mut History, all: &[Numbered]) -> bool {
    let was_empty = history.is_empty();
    for (told, _) in all {
        made(rt, history.push(entry(rt, alloc, told)));
    }
    let entries = made(rt, history.entries(alloc));
    let lists_all = are_entries(entries.as_slice(), all);
    drop(entries);
    was_empty && lists_all && lends_all(history, all)
}

// Whether a history has the entries that it is given, gives them back, and takes them again.
fn gives_back(rt: &impl Abort, alloc: Global, all: &[Numbered]) -> bool {
    let mut history = History::new(alloc);
    let has_all = takes_all(rt, alloc, &mut history, all);
    let pops_all = pops_all(&mut history, all);
    let has_again = takes_all(rt, alloc, &mut history, all);
    drop(history);
    has_all && pops_all && has_again
}

#[test]
fn a_history_gives_each_entry_back(rt: HostRuntime) {
    must(
        &rt,
        gives_back(&rt, rt.alloc(), &GIVEN),
        "each entry is given back",
    );
}
