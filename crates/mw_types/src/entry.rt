//! The entries of a history: what happened, one atomic step each.
ghost use Rattle.std.specs.Prelude.{◌≡◌, IfOk};
ghost use Rattle.mw_types.specs.declared.entry.Entry.TheVariants.{Inject, Handle, Fire, Ack, Purge};

use crate::effects::Effects;
use crate::identity::{RecordId, RowName};
use crate::memory::{Duplicate, NoMemory};
use crate::record::Record;
use crate::seq::Seq;
use crate::timer::Timer;
use std::alloc::Global;

/// One entry of the history. Its place in the history, from 0, is its commit number.
#[derive(Drop)]
pub enum Entry {
    /// A worker took an interval of keys; the entry's commit number is its sequencer.
    Claim {
        /// The worker.
        worker: u32,
        /// The interval.
        interval: u32,
    },
    /// An injector put its next line into its stream.
    Inject {
        /// The sequencer under which it was written.
        seq: u64,
        /// The injector.
        part: u32,
        /// The record line, from 0.
        line: u32,
        /// The record of that line.
        item: Record,
    },
    /// A row handled a record.
    Handle {
        /// The sequencer under which it was written.
        seq: u64,
        /// The row.
        row: RowName,
        /// The id of the record.
        id: RecordId,
        /// What the handler left.
        effects: Effects,
    },
    /// A timer of a row fired.
    Fire {
        /// The sequencer under which it was written.
        seq: u64,
        /// The row.
        row: RowName,
        /// The timer.
        timer: Timer,
        /// The watermark under which it fired, in whole microseconds.
        mark: u64,
        /// What the handler left.
        effects: Effects,
    },
    /// The sender's row learnt that a record was handled.
    Ack {
        /// The sequencer under which it was written.
        seq: u64,
        /// The sender's row.
        row: RowName,
        /// The id of the record.
        id: RecordId,
    },
    /// A row forgot the ids of records that are finished.
    Purge {
        /// The sequencer under which it was written.
        seq: u64,
        /// The row.
        row: RowName,
        /// The commit number below which every id is finished.
        floor: u64,
    },
}

/// A list of entries.
pub type EntryList = Seq<Entry>;

impl Duplicate for Entry {
    fn copy(&self, alloc: Global) -> Result<Entry, NoMemory> {
        match self {
            Entry::Claim { worker, interval } => Ok(Entry::Claim {
                worker: *worker,
                interval: *interval,
            }),
            Entry::Inject {
                seq,
                part,
                line,
                item,
            } => copied_inject(alloc, *seq, *part, *line, item),
            Entry::Handle {
                seq,
                row,
                id,
                effects,
            } => copied_handle(alloc, *seq, row, *id, effects),
            Entry::Fire {
                seq,
                row,
                timer,
                mark,
                effects,
            } => copied_fire(alloc, *seq, row, *timer, *mark, effects),
            Entry::Ack { seq, row, id } => copied_ack(alloc, *seq, row, *id),
            Entry::Purge { seq, row, floor } => copied_purge(alloc, *seq, row, *floor),
        }
    }
}

/// A line that was injected, with an equal record.
pub fn copied_inject(
    alloc: Global,
    seq: u64,
    part: u32,
    line: u32,
    item: &Record,
) -> Result<Entry, NoMemory>
    ensures { IfOk result (λ entry. entry ≡ Inject seq part line item.now) }
{
    let item = item.copy(alloc)?;
    Ok(Entry::Inject {
        seq,
        part,
        line,
        item,
    })
}

/// A record that was handled, with an equal row and equal effects.
pub fn copied_handle(
    alloc: Global,
    seq: u64,
    row: &RowName,
    id: RecordId,
    effects: &Effects,
) -> Result<Entry, NoMemory>
    ensures { IfOk result (λ entry. entry ≡ Handle seq row.now id effects.now) }
{
    let row = row.copy(alloc)?;
    let effects = effects.copy(alloc)?;
    Ok(Entry::Handle {
        seq,
        row,
        id,
        effects,
    })
}

/// A timer that fired, with an equal row and equal effects.
pub fn copied_fire(
    alloc: Global,
    seq: u64,
    row: &RowName,
    timer: Timer,
    mark: u64,
    effects: &Effects,
) -> Result<Entry, NoMemory>
    ensures { IfOk result (λ entry. entry ≡ Fire seq row.now timer mark effects.now) }
{
    let row = row.copy(alloc)?;
    let effects = effects.copy(alloc)?;
    Ok(Entry::Fire {
        seq,
        row,
        timer,
        mark,
        effects,
    })
}

/// What a sender learnt, with an equal row.
pub fn copied_ack(alloc: Global, seq: u64, row: &RowName, id: RecordId) -> Result<Entry, NoMemory>
    ensures { IfOk result (λ entry. entry ≡ Ack seq row.now id) }
{
    let row = row.copy(alloc)?;
    Ok(Entry::Ack { seq, row, id })
}

/// What a row forgot, with an equal row.
pub fn copied_purge(alloc: Global, seq: u64, row: &RowName, floor: u64) -> Result<Entry, NoMemory>
    ensures { IfOk result (λ entry. entry ≡ Purge seq row.now floor) }
{
    let row = row.copy(alloc)?;
    Ok(Entry::Purge { seq, row, floor })
}
