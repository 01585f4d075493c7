//! The rows that entries leave, made as values.
ghost use Rattle.std.specs.Prelude.{◌≡◌, ◌<◌, ◌≤◌, ◌^◌, IfOk};
ghost use Rattle.row_parts.specs.Contents.{without_delivery, ids_from};

use mw_types::{Duplicate, NoMemory, RecordId};
use row_parts::Row;
use std::alloc::Global;

/// A row once an id of it is settled by the entry of this commit number. The row stays as it is where the
/// id is not pending in it.
pub fn settled(alloc: Global, row: &Row, id: RecordId, commit: u64) -> Result<Row, NoMemory>
    requires { commit < 2 ^ 32 }
    ensures { IfOk result (λ made. made ≡ record row.now {
      pending = without_delivery id row.now.pending;
      last = commit;
    }) }
{
    let mut made = row.copy(alloc)?;
    made.settle(id);
    made.last = commit;
    Ok(made)
}

/// A row once the entry of this commit number has raised its floor, and the ids below it are forgotten.
pub fn purged(alloc: Global, row: &Row, floor: u64, commit: u64) -> Result<Row, NoMemory>
    requires commit { commit < 2 ^ 32 }
    requires rises { row.now.floor ≤ floor }
    requires few { floor ≤ 2 ^ 32 }
    ensures { IfOk result (λ made. made ≡ record row.now {
      floor = floor;
      seen = ids_from floor row.now.seen;
      last = commit;
    }) }
{
    let mut made = row.copy(alloc)?;
    made.purge(floor);
    made.last = commit;
    Ok(made)
}
