//! What is kept of a history.
use mw_types::{Delivery, RecordId, RowName};
use row_parts::Row;
use std::collections::BTreeMap;
use watermark::Oldest;

// The rows that an entry is on, by their names.
pub(crate) type Rows = BTreeMap<RowName, Row>;

// What waits to be handled, by its ids.
pub(crate) type Waiting = BTreeMap<RecordId, Delivery>;

// The commit number of the last claim of each interval that has one.
pub(crate) type Claims = BTreeMap<u32, u64>;

// Each id that is pending, with its sender's row.
pub(crate) type Senders = BTreeMap<RecordId, RowName>;

/// What is kept of a history, so that nothing is sought in it again.
#[derive(Drop)]
pub struct Kept {
    pub(crate) rows: Rows,
    pub(crate) waiting: Waiting,
    pub(crate) claims: Claims,
    pub(crate) pending: Senders,
    // Of each part, the timestamps of what waits for it and of its rows the first times of timers,
    // those that are late left out.
    pub(crate) works: Vec<Oldest>,
    // The deliveries that are not acknowledged, the timers that are set, and the injectors with
    // lines left.
    pub(crate) work: u64,
}
