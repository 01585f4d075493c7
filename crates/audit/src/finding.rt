//! What is found of a row.
ghost use Rattle.std.specs.Prelude.{◌≡◌, ◌<◌};
ghost use Rattle.std.specs.Option.{option_and_then};
ghost use Rattle.std.specs.BTreeMap.{get};
ghost use Rattle.std.specs.Ordering.{nat_cmp};
ghost use Rattle.row_parts.specs.Contents.{cursor_in};
ghost use Rattle.topology.specs.Shapes.{parts_of};
ghost use Rattle.run_history.specs.Fences.{interval_of};
ghost use Rattle.run_history.specs.Runs.{cached, row_of};

use crate::kept::{Claims, Rows};
use mw_types::RowName;
use run_history::Case;

// The number of the last claim of a row's interval, or none where it was never claimed.
pub(crate) fn sequencer(case: &Case, claims: &Claims, name: &RowName) -> Option<u64>
    requires part { name.now.part < parts_of case.now.topology }
    ensures { result ≡ option_and_then (get nat_cmp claims.now)
        (interval_of case.now.topology name.now) }
{
    let interval = case.interval_of(name);
    claims.get(&interval).copied()
}

// How many lines an injector's row says were injected.
pub(crate) fn cursor(case: &Case, rows: &Rows, name: &RowName) -> u32
    ensures { result
        ≡ cursor_in (row_of case.now.topology (cached rows.now.entries) name.now).state }
{
    match rows.get(name) {
        Some(row) => row.cursor(),
        None => 0,
    }
}
