//! Records that are handled.
ghost use Rattle.std.specs.Prelude.{◌≡◌, IfOk, Some};
ghost use Rattle.computations.specs.Parts.{part_doings};
ghost use Rattle.row_parts.specs.Contents.{found_delivery};
ghost use Rattle.run_history.specs.Runs.{run_of};
ghost use Rattle.node.specs.Works.{IsWorkOf};
ghost use Rattle.trace_lines.specs.declared.choice.Choice.TheVariants as choices;
ghost use Rattle.audit.specs.Choices.{IsChosen};
ghost use Rattle.audit.specs.Keeping.{IsFollowed, IsKept};

use crate::finding::sequencer;
use crate::kept::Kept;
use computations::Kinds;
use mw_types::{Delivery, Duplicate, Entry, NoMemory, RecordId};
use node::left_of_delivery;
use run_history::{Case, History};
use std::alloc::Global;

// The entry of a record that waits under this id, or none where none does.
pub(crate) fn handling_of(
    alloc: Global,
    case: &Case,
    work: &Kinds,
    history: &History,
    kept: &Kept,
    id: RecordId,
) -> Result<Option<Entry>, NoMemory>
    requires work { IsWorkOf case.now.topology (part_doings work.now) }
    requires followed { IsFollowed case.now history.now }
    requires kept { IsKept case.now history.now kept.now }
    ensures { IfOk result (IsChosen case.now history.now (choices.Handle id)) }
{
    match kept.waiting.get(&id) {
        Some(delivery) => delivered(alloc, case, work, history, kept, delivery),
        None => Ok(None),
    }
}

// The entry of a delivery that waits, or none where its row's interval was never claimed.
fn delivered(
    alloc: Global,
    case: &Case,
    work: &Kinds,
    history: &History,
    kept: &Kept,
    delivery: &Delivery,
) -> Result<Option<Entry>, NoMemory>
    requires work { IsWorkOf case.now.topology (part_doings work.now) }
    requires followed { IsFollowed case.now history.now }
    requires kept { IsKept case.now history.now kept.now }
    requires waits { found_delivery delivery.now.id
        (run_of case.now.topology history.now).unhandled ≡ Some delivery.now }
    ensures { IfOk result (IsChosen case.now history.now (choices.Handle delivery.now.id)) }
{
    match sequencer(case, &kept.claims, &delivery.to) {
        Some(seq) => {
            let found = kept.rows.get(&delivery.to);
            let effects = left_of_delivery(alloc, work, case, found, delivery)?;
            let row = delivery.to.copy(alloc)?;
            Ok(Some(Entry::Handle {
                seq,
                row,
                id: delivery.id,
                effects,
            }))
        }
        None => Ok(None),
    }
}
