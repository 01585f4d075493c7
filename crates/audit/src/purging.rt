//! Ids that rows forget.
ghost use Rattle.std.specs.Prelude.{◌≡◌, ◌&&◌, IfOk, is_some, nat_lt};
ghost use Rattle.run_history.specs.Legal.{floor_of};
ghost use Rattle.run_history.specs.Runs.{cached, row_in, row_of, run_of};
ghost use Rattle.trace_lines.specs.declared.choice.Choice.TheVariants as choices;
ghost use Rattle.audit.specs.Choices.{IsChosen};
ghost use Rattle.audit.specs.Keeping.{IsFollowed, IsKept};

use crate::finding::sequencer;
use crate::kept::{Kept, Rows};
use crate::senders::first_sent;
use mw_types::{Duplicate, Entry, NoMemory, RowName};
use run_history::{Case, History};
use std::alloc::Global;

// The entry by which a row forgets the ids below a floor, or none where it may not.
pub(crate) fn purge_of(
    alloc: Global,
    case: &Case,
    history: &History,
    kept: &Kept,
    name: &RowName,
    floor: u64,
) -> Result<Option<Entry>, NoMemory>
    requires followed { IsFollowed case.now history.now }
    requires kept { IsKept case.now history.now kept.now }
    ensures { IfOk result (IsChosen case.now history.now (choices.Purge name.now floor)) }
{
    if floor > floor_of(case, history, kept) || !may_rise(case, &kept.rows, name, floor) {
        return Ok(None);
    }
    match sequencer(case, &kept.claims, name) {
        Some(seq) => {
            let row = name.copy(alloc)?;
            Ok(Some(Entry::Purge { seq, row, floor }))
        }
        None => Ok(None),
    }
}

// The least commit number of what is pending, or that of the next entry where nothing is.
fn floor_of(case: &Case, history: &History, kept: &Kept) -> u64
    requires { IsKept case.now history.now kept.now }
    ensures { result ≡ floor_of (run_of case.now.topology history.now) }
{
    match first_sent(&kept.pending) {
        Some((id, _)) => id.commit,
        None => history.len() as u64,
    }
}

// Whether a row is there, and has a lower floor.
fn may_rise(case: &Case, rows: &Rows, name: &RowName, floor: u64) -> bool
    ensures { result ≡ (is_some (row_in (cached rows.now.entries) name.now)
        && nat_lt (row_of case.now.topology (cached rows.now.entries) name.now).floor floor) }
{
    match rows.get(name) {
        Some(row) => row.floor < floor,
        None => false,
    }
}
