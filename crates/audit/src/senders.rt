//! Which row sent each id that is unacknowledged, as entries come.
ghost use Rattle.std.specs.Prelude.{◌≡◌, ◌↔◌, [], IfSome, None, OnOk, Some};
ghost use Rattle.std.specs.BTreeMap.{insert_entry};
ghost use Rattle.mw_types.specs.Orders.{id_cmp};
ghost use Rattle.book.specs.Senders.{sender_of};
ghost use Rattle.book.specs.Sending.{HasSent, IsAfterEntry, IsLeastKnown};

use crate::kept::Senders;
use book::{settle, settled_by};
use mw_types::{Duplicate, Entry, NoMemory, RecordId, RowName};
use run_history::EntryRef;
use std::alloc::Global;

// Notes what an entry of a row sent, under its number, and what it acknowledged.
pub(crate) fn note_entry(
    alloc: Global,
    senders: &mut Senders,
    entry: &Entry,
    commit: u64,
    sent: u32,
    name: &RowName,
) -> Result<(), NoMemory>
    ensures { OnOk result (IsAfterEntry commit entry.now name.now sent
        senders.old.entries senders.new.entries) }
{
    note_sent(alloc, senders, commit, sent, name)?;
    settle(senders, settled_by(&EntryRef::of(entry)), name);
    Ok(())
}

// Notes that a row sent so many, under the number of its entry.
fn note_sent(
    alloc: Global,
    senders: &mut Senders,
    commit: u64,
    sent: u32,
    name: &RowName,
) -> Result<(), NoMemory>
    ensures { OnOk result
        (HasSent commit name.now sent senders.old.entries senders.new.entries) }
{
    for index in 0..sent {
        note_one(alloc, senders, RecordId { commit, index }, name)?;
    }
    Ok(())
}

// Notes that a row sent an id.
fn note_one(
    alloc: Global,
    senders: &mut Senders,
    id: RecordId,
    name: &RowName,
) -> Result<(), NoMemory>
    ensures { OnOk result
        (senders.new.entries ≡ insert_entry id_cmp senders.old.entries id name.now) }
{
    senders.insert(id, name.copy(alloc)?)?;
    Ok(())
}

// The least id that is unacknowledged, and its sender's row.
pub(crate) fn first_sent(senders: &Senders) -> Option<(RecordId, &RowName)>
    ensures sender { IfSome result
        (λ sent. sender_of senders.now.entries sent.0 ≡ Some sent.1.now) }
    ensures least { IfSome result (λ sent. IsLeastKnown senders.now.entries sent.0) }
    ensures none { (result ≡ None) ↔ (senders.now.entries ≡ []) }
{
    match senders.first_key_value() {
        Some((id, name)) => Some((*id, name)),
        None => None,
    }
}
