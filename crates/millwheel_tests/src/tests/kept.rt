//! Whether rows that a keeper holds are those of a history, by reading each back.
//!
//! It is of topologies in which each line is read by one computation, whose stream nobody reads.
use mw_types::{Entry, State};
use record_codec::decode_row;
use row_keeper::KeptRow;
use row_parts::Row;
use std::alloc::Global;

// The part and the key of the row that an entry is on; a claim is on none.
fn name_of(entry: &Entry) -> Option<(u32, &str)> {
    match entry {
        Entry::Claim { .. } => None,
        Entry::Inject { part, .. } => Some((*part, "")),
        Entry::Handle { row, .. } => Some((row.part, row.key.text())),
        Entry::Fire { row, .. } => Some((row.part, row.key.text())),
        Entry::Ack { row, .. } => Some((row.part, row.key.text())),
        Entry::Purge { row, .. } => Some((row.part, row.key.text())),
    }
}

// Whether an entry is on this row.
fn is_on(entry: &Entry, kept: &KeptRow) -> bool {
    match name_of(entry) {
        Some((part, key)) => part == kept.name.part && key == kept.name.key.text(),
        None => false,
    }
}

// Whether a row has the numbers that the entries on it give, of which there is one at least: its last entry, its floor,
// and how many ids wait for their acknowledgement.
fn has_numbers(row: &Row, entries: &[Entry], kept: &KeptRow) -> bool {
    let mut last = None;
    let mut floor = 0u64;
    let mut waiting = 0usize;
    for (number, entry) in entries.iter().enumerate() {
        if is_on(entry, kept) {
            last = Some(number as u64);
            match entry {
                Entry::Inject { .. } => waiting = waiting.saturating_add(1),
                Entry::Ack { .. } => waiting = waiting.saturating_sub(1),
                Entry::Purge { floor: of, .. } => floor = *of,
                _ => {}
            }
        }
    }
    last == Some(row.last) && row.floor == floor && row.pending.len() == waiting
}

// Whether the row has seen each id that was handled on it and is not below its floor, and no other.
fn has_seen(row: &Row, entries: &[Entry], kept: &KeptRow) -> bool {
    let mut count = 0usize;
    let mut are_finished = true;
    for entry in entries {
        match entry {
            Entry::Handle { id, .. } if is_on(entry, kept) && id.commit >= row.floor => {
                count = count.saturating_add(1);
                are_finished = are_finished && row.is_finished(*id);
            }
            _ => {}
        }
    }
    are_finished && row.seen.len() == count
}

// Whether a row has the state of the last entry that left one, or is an injector's after as many lines as were injected.
fn has_state(row: &Row, entries: &[Entry], kept: &KeptRow) -> bool {
    let mut lines = 0u32;
    let mut left = None;
    for entry in entries {
        if is_on(entry, kept) {
            match entry {
                Entry::Inject { .. } => lines = lines.saturating_add(1),
                Entry::Handle { effects, .. } => left = Some(row.state == effects.state),
                Entry::Fire { effects, .. } => left = Some(row.state == effects.state),
                _ => {}
            }
        }
    }
    match left {
        Some(is_so) => is_so,
        None => matches!(row.state, State::Injector { cursor } if cursor == lines),
    }
}

// Whether a kept row is read back as the one of the history.
fn is_kept(alloc: Global, kept: &KeptRow, entries: &[Entry]) -> bool {
    let decoded = decode_row(alloc, kept.bytes.as_slice());
    let is_so = match &decoded {
        Ok(row) => {
            has_numbers(row, entries, kept)
                && has_seen(row, entries, kept)
                && has_state(row, entries, kept)
        }
        Err(_) => false,
    };
    drop(decoded);
    is_so
}

// Whether the row that an entry is on is kept, where it is on one.
fn has_row(rows: &[KeptRow], entry: &Entry) -> bool {
    let mut has = name_of(entry).is_none();
    for kept in rows {
        has = has || is_on(entry, kept);
    }
    has
}

/// Whether these are the rows of a history, and no others: each row that an entry is on, as the entries leave it.
pub(super) fn are_kept(alloc: Global, rows: &[KeptRow], entries: &[Entry]) -> bool {
    let mut are = true;
    for kept in rows {
        are = are && is_kept(alloc, kept, entries);
    }
    for entry in entries {
        are = are && has_row(rows, entry);
    }
    are
}
