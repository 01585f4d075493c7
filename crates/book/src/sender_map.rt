//! Which row sent each id that is unacknowledged, kept as entries come.
ghost use Rattle.std.specs.Prelude.{◌≡◌, OnOk, OnErr, Some};
ghost use Rattle.std.specs.BTreeMap.{insert_entry};
ghost use Rattle.mw_types.specs.Orders.{id_cmp};
ghost use Rattle.run_history.specs.Lent.{lent};
ghost use Rattle.book.specs.Senders.{sender_of};
ghost use Rattle.book.specs.Sending.{HasForgotten, HasSent, HasSettled, IsUnsent, KnowsSame, is_sender, settled_by};

use mw_types::{Duplicate, NoMemory, RecordId, RowName};
use run_history::EntryRef;
use std::alloc::Global;
use std::cmp::Ordering;
use std::collections::BTreeMap;

// Each id that is pending, with its sender's row.
pub(crate) type Senders = BTreeMap<RecordId, RowName>;

/// The id that an entry acknowledges.
pub fn settled_by(entry: &EntryRef<'_>) -> Option<RecordId>
    ensures { result ≡ settled_by (lent entry.now) }
{
    match entry {
        EntryRef::Ack { id, .. } => Some(*id),
        _ => None,
    }
}

// Notes that a row sent so many, under the number of its entry.
pub(crate) fn note_sent(
    alloc: Global,
    senders: &mut Senders,
    commit: u64,
    sent: u32,
    name: &RowName,
) -> Result<(), NoMemory>
    requires unsent { IsUnsent commit senders.old.entries }
    ensures noted { OnOk result
        (HasSent commit name.now sent senders.old.entries senders.new.entries) }
    ensures unchanged { OnErr result (KnowsSame senders.old.entries senders.new.entries) }
{
    for index in 0..sent {
        if let Err(NoMemory) = note_one(alloc, senders, RecordId { commit, index }, name) {
            forget_sent(senders, commit, index);
            return Err(NoMemory);
        }
    }
    Ok(())
}

// Notes that a row sent an id.
fn note_one(
    alloc: Global,
    senders: &mut Senders,
    id: RecordId,
    name: &RowName,
) -> Result<(), NoMemory>
    ensures noted { OnOk result
        (senders.new.entries ≡ insert_entry id_cmp senders.old.entries id name.now) }
    ensures unchanged { OnErr result (senders.new.entries ≡ senders.old.entries) }
{
    senders.insert(id, name.copy(alloc)?)?;
    Ok(())
}

// Takes back what was noted of the first so many of an entry.
pub(crate) fn forget_sent(senders: &mut Senders, commit: u64, sent: u32)
    ensures { HasForgotten commit sent senders.old.entries senders.new.entries }
{
    for index in 0..sent {
        senders.remove(&RecordId { commit, index });
    }
}

/// An id is acknowledged and forgotten, where there is one and this row sent it.
pub fn settle(senders: &mut BTreeMap<RecordId, RowName>, id: Option<RecordId>, name: &RowName)
    ensures { HasSettled id name.now senders.old.entries senders.new.entries }
{
    if let Some(id) = id {
        settle_one(senders, id, name);
    }
}

// This id is acknowledged, where this row sent it.
fn settle_one(senders: &mut Senders, id: RecordId, name: &RowName)
    ensures { HasSettled (Some id) name.now senders.old.entries senders.new.entries }
{
    if is_sender(senders, id, name) {
        senders.remove(&id);
    }
}

// Whether this row sent the id.
fn is_sender(senders: &Senders, id: RecordId, name: &RowName) -> bool
    ensures { result ≡ is_sender name.now (sender_of senders.now.entries id) }
{
    match senders.get(&id) {
        Some(sender) => name.cmp(sender) == Ordering::Equal,
        None => false,
    }
}
