//! How much work is left, as entries come.
ghost use Rattle.std.specs.Prelude.{IfOk};
ghost use Rattle.audit.specs.Keeping.{HasWorkLeft};

use crate::kept::Rows;
use book::{NamedRow, work_after};
use mw_types::{NoMemory, RowName};
use row_parts::Row;
use run_history::{Case, first_row};
use std::alloc::Global;

// How much work is left of so much, once a row is put under its name.
pub(crate) fn work_left(
    alloc: Global,
    case: &Case,
    rows: &Rows,
    left: &NamedRow,
    work: u64,
) -> Result<u64, NoMemory>
    ensures { IfOk result (HasWorkLeft case.now rows.now.entries left.now work) }
{
    match rows.get(&left.name) {
        Some(row) => work_after(case, &left.name, row, &left.row, work),
        None => {
            let fresh = first_row(alloc, case, left.name.part);
            work_after(case, &left.name, &fresh, &left.row, work)
        }
    }
}
