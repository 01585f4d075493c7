//! What is done with a keeper, whatever keeper it is.
use super::refusal_of;
use crate::tests::calls::put;
use crate::tests::key;
use crate::tests::looks::{Row, are_rows};
use key_intervals::Bounds;
use row_keeper::{Keeper, KeeperFault, KeptRowList};
use std::alloc::Global;
use std::process::Abort;

/// What is done with a keeper, and looked at.
#[derive(Clone, Copy)]
pub enum Deed {
    /// Seven rows are put where there was none, and are there.
    PutsSeven,
    /// Those rows are there.
    HasSeven,
    /// One row is put so often, each time with another byte.
    PutsOne(u32),
    /// The first row has this byte, and is 0 where there is none; a scan goes well.
    HasFirst(u8),
    /// The part 1 has one row, whose key is `a`, with these bytes.
    HasOne(&'static [u8]),
    /// A scan fails, and so does a look for the first row.
    FailsTwice,
    /// A look for the first row fails.
    Fails,
}

/// Whether a deed is done with a keeper.
pub(super) fn is_done(
    rt: &impl Abort,
    alloc: Global,
    keeper: &mut impl Keeper,
    deed: Deed,
) -> bool {
    match deed {
        Deed::PutsSeven => {
            let was_empty = first(alloc, keeper) == Ok(0);
            for (text, byte) in &ROWS {
                put(rt, alloc, keeper, text, *byte);
            }
            was_empty && has_seven(rt, alloc, keeper)
        }
        Deed::HasSeven => has_seven(rt, alloc, keeper),
        Deed::PutsOne(times) => {
            for time in 0..times {
                put(rt, alloc, keeper, "h", (time % 251) as u8);
            }
            true
        }
        Deed::HasFirst(byte) => {
            let fault = refusal_of(scanned(rt, alloc, keeper, "h", "q"));
            fault.is_none() && first(alloc, keeper) == Ok(byte)
        }
        Deed::HasOne(bytes) => are_found(scanned(rt, alloc, keeper, "", ""), &[(1, "a", bytes)]),
        Deed::FailsTwice => {
            let fault = refusal_of(scanned(rt, alloc, keeper, "h", "q"));
            fault == Some(KeeperFault::Failed) && first(alloc, keeper) == Err(KeeperFault::Failed)
        }
        Deed::Fails => first(alloc, keeper) == Err(KeeperFault::Failed),
    }
}

// The keys and the bytes of seven rows, the last in the place of an earlier one.
static ROWS: [(&str, u8); 7] = [
    ("q", 1),
    ("pz", 2),
    ("h", 3),
    ("hi", 4),
    ("g", 5),
    ("\u{ff}", 6),
    ("h", 7),
];

// Those of them that stand from h to q.
static FROM_H_TO_Q: [Row<'static>; 3] = [(1, "h", b"\x07"), (1, "hi", b"\x04"), (1, "pz", b"\x02")];

// Whether the first of these rows is there, and those from h to q are.
fn has_seven(rt: &impl Abort, alloc: Global, keeper: &mut impl Keeper) -> bool {
    let is_first = first(alloc, keeper) == Ok(5);
    are_found(scanned(rt, alloc, keeper, "h", "q"), &FROM_H_TO_Q) && is_first
}

// The byte of the first row, or 0 where there is none.
fn first(alloc: Global, keeper: &mut impl Keeper) -> Result<u8, KeeperFault> {
    match keeper.first(alloc) {
        Ok(Some(row)) => Ok(row.bytes.get(0).copied().unwrap_or(0)),
        Ok(None) => Ok(0),
        Err(fault) => Err(fault),
    }
}

// The rows of part 1 from one key to another, or where this is the empty one, to the end.
fn scanned(
    rt: &impl Abort,
    alloc: Global,
    keeper: &mut impl Keeper,
    from: &str,
    to: &str,
) -> Result<KeptRowList, KeeperFault> {
    let from = key(rt, alloc, from);
    let to = if to.is_empty() {
        None
    } else {
        Some(key(rt, alloc, to))
    };
    let bounds = Bounds { part: 1, from, to };
    let found = keeper.scan(alloc, &bounds);
    drop(bounds);
    found
}

// Whether a scan found these rows.
fn are_found(found: Result<KeptRowList, KeeperFault>, want: &[Row<'_>]) -> bool {
    let are = match &found {
        Ok(rows) => are_rows(rows.as_slice(), want),
        Err(_) => false,
    };
    drop(found);
    are
}
