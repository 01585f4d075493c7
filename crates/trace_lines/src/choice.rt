//! What of an entry is chosen.

use mw_types::{RecordId, RowName};

/// What of an entry is chosen: all else of a lawful entry follows from what stands before it.
#[derive(Drop)]
pub enum Choice {
    /// Of a claim: who claims what.
    Claim {
        /// The worker.
        worker: u32,
        /// The interval.
        interval: u32,
    },
    /// Of an injected line: whose next line it is.
    Inject {
        /// The injector.
        part: u32,
    },
    /// Of a handled record: which one.
    Handle {
        /// The id of the record.
        id: RecordId,
    },
    /// Of a fired timer, which is the least of its row: the row, and the watermark.
    Fire {
        /// The row.
        row: RowName,
        /// The watermark under which it fires, in whole microseconds.
        mark: u64,
    },
    /// Of an acknowledgement: who learns of which record.
    Ack {
        /// The sender's row.
        row: RowName,
        /// The id of the record.
        id: RecordId,
    },
    /// Of a purge: which row forgets how much.
    Purge {
        /// The row.
        row: RowName,
        /// The commit number below which every id is finished.
        floor: u64,
    },
}
