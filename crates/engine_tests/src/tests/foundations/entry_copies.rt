//! What no clause says: that copies of entries, which have no `==`, have each field of what was copied, one by
//! one and in a list.
ghost use Rattle.std.specs.Prelude.{◌≤◌};
ghost use Rattle.mw_types.specs.declared.TheConstants.{MAX_STAMP};

use super::handlers::timer;
use super::{key_of, made, must, name_of};
use mw_types::{
    Duplicate, Effects, Entry, EntryList, Production, ProductionList, Record, RecordId, State,
    TimerList,
};
use run_history::EntryRef;
use std::alloc::Global;
use std::process::Abort;

// What an entry is made of: its kind, its sequencer, the key of its row or record, the commit number of its
// id or its floor, and a number of its own: an interval, a line, an index or a mark.
pub(super) type Told = (u32, u64, &'static str, u64, u32);

/// The record of a key.
pub(super) fn record(rt: &impl Abort, alloc: Global, key: &str) -> Record {
    Record {
        key: key_of(rt, alloc, key),
        stamp: 10,
        value: -1,
        late: false,
    }
}

/// What a handler produced: a key's value at this time.
pub(super) fn production(
    rt: &impl Abort,
    alloc: Global,
    key: &str,
    time: u32,
    value: i64,
) -> Production
    ensures { result.stamp ≤ MAX_STAMP }
{
    Production {
        key: key_of(rt, alloc, key),
        stamp: time as u64,
        value,
    }
}

// What a handler leaves that found so many late records, set one timer and produced one record.
fn effects(rt: &impl Abort, alloc: Global, late: u32) -> Effects {
    let mut timers = TimerList::new(alloc);
    made(rt, timers.push(timer(60, true)));
    let mut productions = ProductionList::new(alloc);
    made(rt, productions.push(production(rt, alloc, "b", 60, 2)));
    Effects {
        state: State::Pass {
            late: u64::from(late),
        },
        timers,
        productions,
    }
}

// The entry that is made of this.
pub(super) fn entry(rt: &impl Abort, alloc: Global, told: &Told) -> Entry {
    let (kind, seq, key, commit, index) = *told;
    let id = RecordId { commit, index };
    match kind {
        0 => Entry::Claim {
            worker: 1,
            interval: index,
        },
        1 => Entry::Inject {
            seq,
            part: 0,
            line: index,
            item: record(rt, alloc, key),
        },
        2 => Entry::Handle {
            seq,
            row: name_of(rt, alloc, 1, key),
            id,
            effects: effects(rt, alloc, index),
        },
        3 => fired(rt, alloc, seq, key, index),
        4 => Entry::Ack {
            seq,
            row: name_of(rt, alloc, 1, key),
            id,
        },
        _ => Entry::Purge {
            seq,
            row: name_of(rt, alloc, 1, key),
            floor: commit,
        },
    }
}

// The entry of a timer that fired.
fn fired(rt: &impl Abort, alloc: Global, seq: u64, key: &str, mark: u32) -> Entry {
    Entry::Fire {
        seq,
        row: name_of(rt, alloc, 1, key),
        timer: timer(60, false),
        mark: u64::from(mark),
        effects: effects(rt, alloc, mark),
    }
}

// Whether it is what the handler of above left, which found so many late records.
fn are_effects(effects: &Effects, count: u32) -> bool {
    let are_produced = match effects.productions.as_slice() {
        [one] => one.key.text() == "b" && one.stamp == 60 && one.value == 2,
        _ => false,
    };
    matches!(effects.state, State::Pass { late } if late == u64::from(count))
        && effects.timers.as_slice() == [timer(60, true)].as_slice()
        && are_produced
}

// An entry, by what it is made of, and its kind and numbers.
pub(super) type Numbered = (Told, [u64; 4]);

// One entry of each kind.
static KINDS: [Numbered; 6] = [
    ((0, 0, "", 0, 2), [0, 1, 2, 0]),
    ((1, 3, "a", 0, 4), [1, 3, 0, 4]),
    ((2, 3, "a", 1, 2), [2, 3, 1, 2]),
    ((3, 3, "a", 0, 61), [3, 3, 61, 0]),
    ((4, 3, "a", 1, 2), [4, 3, 1, 2]),
    ((5, 3, "a", 5, 0), [5, 3, 5, 0]),
];

// Whether an entry has the row, the record, the timer and the effects of above, where it has one.
fn has_parts(entry: &EntryRef<'_>, key: &str, late: u32) -> bool {
    let (row, effects) = match *entry {
        EntryRef::Claim { .. } => return true,
        EntryRef::Inject { item, .. } => {
            return item.key.text() == key && item.stamp == 10 && item.value == -1 && !item.late;
        }
        EntryRef::Handle { row, effects, .. } => (row, Some(effects)),
        EntryRef::Fire {
            row,
            timer: fired,
            effects,
            ..
        } => {
            if fired != timer(60, false) {
                return false;
            }
            (row, Some(effects))
        }
        EntryRef::Ack { row, .. } => (row, None),
        EntryRef::Purge { row, .. } => (row, None),
    };
    let are_left = match effects {
        Some(effects) => are_effects(effects, late),
        None => true,
    };
    are_left && row.part == 1 && row.key.text() == key
}

/// Whether it is this entry, by its kind and numbers, and by what it has beside them.
pub(super) fn is_entry(entry: &EntryRef<'_>, want: &Numbered) -> bool {
    let ((_, _, key, _, late), want) = *want;
    let numbers = match *entry {
        EntryRef::Claim { worker, interval } => [0, u64::from(worker), u64::from(interval), 0],
        EntryRef::Inject {
            seq,
            part,
            line,
            ..
        } => [1, seq, u64::from(part), u64::from(line)],
        EntryRef::Handle { seq, id, .. } => [2, seq, id.commit, u64::from(id.index)],
        EntryRef::Fire { seq, mark, .. } => [3, seq, mark, 0],
        EntryRef::Ack { seq, id, .. } => [4, seq, id.commit, u64::from(id.index)],
        EntryRef::Purge { seq, floor, .. } => [5, seq, floor, 0],
    };
    numbers == want && has_parts(entry, key, late)
}

/// Whether each is the entry of its place.
pub(super) fn are_entries(entries: &[Entry], want: &[Numbered]) -> bool {
    let mut are = entries.len() == want.len();
    for (entry, one) in entries.iter().zip(want) {
        are = are && is_entry(&EntryRef::of(entry), one);
    }
    are
}

// The entries, and a copy of their list, have each entry, and each field of it.
#[test]
fn entries_of_each_kind_are_copied(rt: HostRuntime) {
    let alloc = rt.alloc();
    let mut entries = EntryList::new(alloc);
    for (told, _) in &KINDS {
        made(&rt, entries.push(entry(&rt, alloc, told)));
    }
    let copies = made(&rt, entries.copy(alloc));
    let are_copied = are_entries(copies.as_slice(), &KINDS);
    drop(copies);
    let are_kept = are_entries(entries.as_slice(), &KINDS);
    drop(entries);
    must(&rt, are_kept && are_copied, "entries of each kind");
}
