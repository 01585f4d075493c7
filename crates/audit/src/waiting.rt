//! What waits to be handled, as entries come.
ghost use Rattle.std.specs.Prelude.{◌≡◌, OnOk};
ghost use Rattle.std.specs.BTreeMap.{insert_entry};
ghost use Rattle.mw_types.specs.Orders.{id_cmp};
ghost use Rattle.audit.specs.Keeping.{HasNoted, HasTaken};

use crate::kept::Waiting;
use mw_types::{Delivery, Duplicate, Entry, NoMemory};
use std::alloc::Global;

// Takes away what an entry handles.
pub(crate) fn take_handled(waiting: &mut Waiting, entry: &Entry)
    ensures { HasTaken entry.now waiting.old.entries waiting.new.entries }
{
    if let Entry::Handle { id, .. } = entry {
        waiting.remove(id);
    }
}

// Notes these as well, under their ids.
pub(crate) fn note_sent(
    alloc: Global,
    waiting: &mut Waiting,
    sent: &[Delivery],
) -> Result<(), NoMemory>
    ensures { OnOk result (HasNoted sent.now waiting.old.entries waiting.new.entries) }
{
    for delivery in sent {
        note_one(alloc, waiting, delivery)?;
    }
    Ok(())
}

// Notes one more under its id.
fn note_one(alloc: Global, waiting: &mut Waiting, delivery: &Delivery) -> Result<(), NoMemory>
    ensures { OnOk result (waiting.new.entries
        ≡ insert_entry id_cmp waiting.old.entries delivery.now.id delivery.now) }
{
    waiting.insert(delivery.id, delivery.copy(alloc)?)?;
    Ok(())
}
