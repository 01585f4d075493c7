//! One record line of an event file.
use mw_types::Key;

/// The record of one line.
#[derive(Drop, PartialEq, Eq)]
pub struct Item {
    /// The record's key.
    pub record_key: Key,
    /// Its timestamp, in whole microseconds, at most 2^62.
    pub stamp: u64,
    /// Its value.
    pub value: i64,
    /// Whether the line is below a watermark line that stands before it.
    pub late: bool,
}
