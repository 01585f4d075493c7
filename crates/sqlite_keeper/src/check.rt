//! The test of an answer: its rows are in the interval, and ascend.
ghost use Rattle.std.specs.Prelude.{◌≡◌, ◌&&◌, All, map, true, is_ok, IfOk};
ghost use Rattle.key_intervals.specs.Intervals.{covers};
ghost use Rattle.row_keeper.specs.Rows.{AreInOrder, entry_of};
ghost use Rattle.row_keeper.specs.declared.keeper.KeptRow.{KeptRow};
ghost use Rattle.sqlite_keeper.specs.Checks.{are_within, do_ascend, is_below_first};

use key_intervals::Bounds;
use row_keeper::{KeeperFault, KeptRow, KeptRowList};

// Whether each row is in the interval.
fn are_within(bounds: &Bounds, rows: &[KeptRow]) -> bool
    ensures { result ≡ are_within bounds.now rows.now }
{
    rows.iter().all(|row| bounds.covers(&row.name))
}

// Whether a row is below the first of these.
fn is_below_first(row: &KeptRow, later: &[KeptRow]) -> bool
    ensures { result ≡ is_below_first row.now later.now }
{
    match later {
        [next, ..] => row.name.cmp(&next.name).is_lt(),
        [] => true,
    }
}

// Whether each row is below the one after it.
fn do_ascend(rows: &[KeptRow]) -> bool
    ensures { result ≡ do_ascend rows.now }
{
    let mut rest = rows;
    while let Some((row, later)) = rest.split_first() {
        if !is_below_first(row, later) {
            return false;
        }
        rest = later;
    }
    true
}

/// The rows that were found, where they are in the interval and ascend. Rows that don't were not put by a
/// keeper, or the file is damaged.
#[tactic(auto, using(crate::proofs::Checked::within_covered, crate::proofs::Checked::ascending_in_order))]
pub(crate) fn checked(bounds: &Bounds, found: KeptRowList) -> Result<KeptRowList, KeeperFault>
    ensures exact { is_ok result ≡ are_within bounds.now found && do_ascend found }
    ensures same { IfOk result (λ rows. rows ≡ found) }
    ensures covered { IfOk result (All (λ (row : KeptRow). covers bounds.now row.name ≡ true)) }
    ensures ascending { IfOk result (λ rows. AreInOrder (map entry_of rows)) }
{
    if are_within(bounds, found.as_slice()) && do_ascend(found.as_slice()) {
        Ok(found)
    } else {
        Err(KeeperFault::Failed)
    }
}
