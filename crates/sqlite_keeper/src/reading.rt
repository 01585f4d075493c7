//! What the database answers, as rows.

use crate::database::Ask;
use crate::fault::fault_of;
use crate::in_file::{FileDatabase, asked};
use key_intervals::Bounds;
use mw_types::{Key, KeyRefusal, RowName, Seq};
use row_keeper::{KeeperFault, KeptRow, KeptRowList};
use sqlite::Row;
use std::alloc::Global;

/// The rows that the database answers for an interval.
pub(crate) fn range_of(
    alloc: Global,
    database: &mut FileDatabase,
    bounds: &Bounds,
) -> Result<KeptRowList, KeeperFault> {
    let rows = asked(alloc, database, &Ask::Range { bounds })?;
    rows_of(alloc, rows.as_slice())
}

/// The row that the database answers as its first.
pub(crate) fn first_of(
    alloc: Global,
    database: &mut FileDatabase,
) -> Result<Option<KeptRow>, KeeperFault> {
    let rows = asked(alloc, database, &Ask::First)?;
    match rows.first() {
        Some(row) => Ok(Some(row_of(alloc, row)?)),
        None => Ok(None),
    }
}

// The rows of an answer.
fn rows_of(alloc: Global, rows: &[Row]) -> Result<KeptRowList, KeeperFault> {
    let mut found = KeptRowList::new(alloc);
    for row in rows {
        found.push(row_of(alloc, row)?)?;
    }
    Ok(found)
}

// A row of an answer.
fn row_of(alloc: Global, row: &Row) -> Result<KeptRow, KeeperFault> {
    let part = part_of(row)?;
    let key = key_of(alloc, bytes_of(row, 1)?.as_slice())?;
    let bytes = Seq::from_vec(bytes_of(row, 2)?);
    Ok(KeptRow {
        name: RowName { part, key },
        bytes,
    })
}

// The number of a row's part.
fn part_of(row: &Row) -> Result<u32, KeeperFault> {
    match row.get::<u32>(0) {
        Ok(part) => Ok(part),
        Err(error) => Err(fault_of(error)),
    }
}

// The bytes in a column of a row.
fn bytes_of(row: &Row, at: usize) -> Result<Vec<u8>, KeeperFault> {
    match row.get::<Vec<u8>>(at) {
        Ok(bytes) => Ok(bytes),
        Err(error) => Err(fault_of(error)),
    }
}

// The key with these bytes. Bytes that are no key were put by another program.
fn key_of(alloc: Global, bytes: &[u8]) -> Result<Key, KeeperFault> {
    if bytes.is_empty() {
        return Ok(Key::none(alloc));
    }
    let Ok(text) = std::str::from_utf8(bytes) else {
        return Err(KeeperFault::Failed);
    };
    match Key::of(alloc, text) {
        Ok(key) => Ok(key),
        Err(KeyRefusal::BadLength) => Err(KeeperFault::Failed),
        Err(KeyRefusal::NoMemory) => Err(KeeperFault::NoMemory),
    }
}
