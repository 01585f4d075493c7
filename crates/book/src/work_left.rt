//! How much work a row leaves.
ghost use Rattle.std.specs.Prelude.{◌≡◌, ◌+◌, ◌-◌, IfOk};
ghost use Rattle.run_history.specs.Finished.{row_has_line, work_in};

use crate::fitting::lines;
use mw_types::{NoMemory, RowName};
use row_parts::Row;
use run_history::Case;

/// How much work is left of so much, once one row stands in the place of another. Where it cannot be
/// counted there is no memory.
pub fn work_after(
    case: &Case,
    name: &RowName,
    before: &Row,
    after: &Row,
    work: u64,
) -> Result<u64, NoMemory>
    ensures { IfOk result (λ left. left ≡ (work + work_in case.now name.now after.now)
        - work_in case.now name.now before.now) }
{
    let gone = work_in(case, name, before)?;
    work_with(case, name, gone, after, work)
}

// How much work is left of so much, once a row stands where so much of it was. Where it cannot be counted
// there is no memory.
pub(crate) fn work_with(
    case: &Case,
    name: &RowName,
    gone: u64,
    after: &Row,
    work: u64,
) -> Result<u64, NoMemory>
    ensures { IfOk result (λ left. left ≡ (work + work_in case.now name.now after.now) - gone) }
{
    let new = work_in(case, name, after)?;
    let both = added(work, new)?;
    Ok(both.saturating_sub(gone))
}

// The work in a row.
pub(crate) fn work_in(case: &Case, name: &RowName, row: &Row) -> Result<u64, NoMemory>
    ensures { IfOk result (λ work. work ≡ work_in case.now name.now row.now) }
{
    let lists = added(row.pending.len() as u64, row.timers.len() as u64)?;
    added(lists, u64::from(row_has_line(case, name, row)))
}

// Whether a row is an injector's, and has a line left.
fn row_has_line(case: &Case, name: &RowName, row: &Row) -> bool
    ensures { result ≡ row_has_line case.now name.now row.now }
{
    name.part < case.topology.injectors()
        && name.key.text().is_empty()
        && row.cursor() < lines(case, name.part)
}

// The sum of two counts, where it can be counted.
fn added(one: u64, other: u64) -> Result<u64, NoMemory>
    ensures { IfOk result (λ sum. sum ≡ one + other) }
{
    match one.checked_add(other) {
        Some(sum) => Ok(sum),
        None => Err(NoMemory),
    }
}
