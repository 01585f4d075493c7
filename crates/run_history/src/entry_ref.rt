//! An entry of a history, lent.
ghost use Rattle.std.specs.Prelude.{◌≡◌, IfOk};
ghost use Rattle.run_history.specs.Lent.{lent};

use mw_types::{
    Duplicate, Effects, Entry, NoMemory, Record, RecordId, RowName, Timer, copied_ack, copied_fire,
    copied_handle, copied_inject, copied_purge,
};
use std::alloc::Global;

/// One entry of the history, whose longer parts are lent. Its place in the history, from 0, is its
/// commit number.
#[derive(Clone, Copy)]
pub enum EntryRef<'a> {
    /// A worker took an interval of keys; the entry's commit number is its sequencer.
    Claim {
        /// The worker.
        worker: u32,
        /// The interval.
        interval: u32,
    },
    /// An injector put its next line into its stream.
    Inject {
        /// The sequencer under which it was written.
        seq: u64,
        /// The injector.
        part: u32,
        /// The record line, from 0.
        line: u32,
        /// The record of that line.
        item: &'a Record,
    },
    /// A row handled a record.
    Handle {
        /// The sequencer under which it was written.
        seq: u64,
        /// The row.
        row: &'a RowName,
        /// The id of the record.
        id: RecordId,
        /// What the handler left.
        effects: &'a Effects,
    },
    /// A timer of a row fired.
    Fire {
        /// The sequencer under which it was written.
        seq: u64,
        /// The row.
        row: &'a RowName,
        /// The timer.
        timer: Timer,
        /// The watermark under which it fired, in whole microseconds.
        mark: u64,
        /// What the handler left.
        effects: &'a Effects,
    },
    /// The sender's row learnt that a record was handled.
    Ack {
        /// The sequencer under which it was written.
        seq: u64,
        /// The sender's row.
        row: &'a RowName,
        /// The id of the record.
        id: RecordId,
    },
    /// A row forgot the ids of records that are finished.
    Purge {
        /// The sequencer under which it was written.
        seq: u64,
        /// The row.
        row: &'a RowName,
        /// The commit number below which every id is finished.
        floor: u64,
    },
}

impl<'a> EntryRef<'a> {
    /// An entry that somebody else has, lent.
    pub fn of(entry: &'a Entry) -> EntryRef<'a>
        ensures { lent result ≡ entry.now }
    {
        match entry {
            Entry::Claim { worker, interval } => EntryRef::Claim {
                worker: *worker,
                interval: *interval,
            },
            Entry::Inject {
                seq,
                part,
                line,
                item,
            } => EntryRef::Inject {
                seq: *seq,
                part: *part,
                line: *line,
                item,
            },
            Entry::Handle {
                seq,
                row,
                id,
                effects,
            } => EntryRef::Handle {
                seq: *seq,
                row,
                id: *id,
                effects,
            },
            Entry::Fire {
                seq,
                row,
                timer,
                mark,
                effects,
            } => EntryRef::Fire {
                seq: *seq,
                row,
                timer: *timer,
                mark: *mark,
                effects,
            },
            Entry::Ack { seq, row, id } => EntryRef::Ack {
                seq: *seq,
                row,
                id: *id,
            },
            Entry::Purge { seq, row, floor } => EntryRef::Purge {
                seq: *seq,
                row,
                floor: *floor,
            },
        }
    }
    /// The entry, with memory of its own.
    pub fn copied(self, alloc: Global) -> Result<Entry, NoMemory>
        ensures { IfOk result (λ entry. entry ≡ lent self.entry) }
    {
        match self {
            EntryRef::Claim { worker, interval } => Ok(Entry::Claim { worker, interval }),
            EntryRef::Inject {
                seq,
                part,
                line,
                item,
            } => copied_inject(alloc, seq, part, line, item),
            EntryRef::Handle {
                seq,
                row,
                id,
                effects,
            } => copied_handle(alloc, seq, row, id, effects),
            EntryRef::Fire {
                seq,
                row,
                timer,
                mark,
                effects,
            } => copied_fire(alloc, seq, row, timer, mark, effects),
            EntryRef::Ack { seq, row, id } => copied_ack(alloc, seq, row, id),
            EntryRef::Purge { seq, row, floor } => copied_purge(alloc, seq, row, floor),
        }
    }
}
