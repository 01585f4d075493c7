//! What a book answers.
use crate::lease::Lease;
use mw_types::{RowName, Seq};
use row_parts::Row;

/// A row, with its name.
#[derive(Drop)]
pub struct NamedRow {
    /// The name.
    pub name: RowName,
    /// The row.
    pub row: Row,
}

/// A list of rows, with their names.
pub type NamedRowList = Seq<NamedRow>;

/// What a claim answers.
#[derive(Drop)]
pub struct Claimed {
    /// The right to write the interval's rows.
    pub lease: Lease,
    /// The rows of the interval, ascending by name.
    pub rows: NamedRowList,
}

/// What a write answers.
#[derive(Drop)]
pub struct Written {
    /// The commit number of the entry that was appended.
    pub commit: u64,
    /// The row as the entry leaves it.
    pub row: Row,
}
