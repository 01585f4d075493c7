//! Records of which the sender learns that they were handled.
ghost use Rattle.std.specs.Prelude.{◌≡◌, ◌&&◌, IfOk, is_none, is_some};
ghost use Rattle.row_parts.specs.Contents.{found_delivery};
ghost use Rattle.trace_lines.specs.declared.choice.Choice.TheVariants as choices;
ghost use Rattle.audit.specs.Choices.{IsChosen};
ghost use Rattle.audit.specs.Keeping.{IsFollowed, IsKept, pending_in};
ghost use Rattle.audit.specs.Waits.{waiting_in};

use crate::finding::sequencer;
use crate::kept::Kept;
use mw_types::{Duplicate, Entry, NoMemory, RecordId, RowName};
use run_history::{Case, History};
use std::alloc::Global;

// The entry by which a row learns that the record of this id was handled, or none where it may not.
pub(crate) fn acknowledgement_of(
    alloc: Global,
    case: &Case,
    history: &History,
    kept: &Kept,
    name: &RowName,
    id: RecordId,
) -> Result<Option<Entry>, NoMemory>
    requires followed { IsFollowed case.now history.now }
    requires kept { IsKept case.now history.now kept.now }
    ensures { IfOk result (IsChosen case.now history.now (choices.Ack name.now id)) }
{
    if !is_settled(kept, name, id) {
        return Ok(None);
    }
    match sequencer(case, &kept.claims, name) {
        Some(seq) => {
            let row = name.copy(alloc)?;
            Ok(Some(Entry::Ack { seq, row, id }))
        }
        None => Ok(None),
    }
}

// Whether an id is pending in a row and waits no more.
fn is_settled(kept: &Kept, name: &RowName, id: RecordId) -> bool
    ensures { result ≡ (is_some (found_delivery id (pending_in kept.now.rows.entries name.now))
        && is_none (waiting_in kept.now.waiting.entries id)) }
{
    match kept.rows.get(name) {
        Some(row) => row.is_pending(id) && kept.waiting.get(&id).is_none(),
        None => false,
    }
}
