//! The ids that a row handled: looking one up, adding one and forgetting the finished ones.
ghost use Rattle.std.specs.Prelude.{◌≡◌, ◌≤◌, OnOk, OnErr, Some};
ghost use Rattle.std.specs.List.{list_any};
ghost use Rattle.std.specs.List.Sorted.{IsStrictlySortedBy};
ghost use Rattle.mw_types.specs.Orders.{id_cmp};
ghost use Rattle.row_parts.specs.Contents.{AreSeen, IsId, same_id, with_id, ids_from};
ghost use Rattle.row_parts.specs.Changes.{without_ids};

use crate::places::{id_place, room};
use mw_types::{IdList, NoMemory, RecordId};

/// Whether an id is among these, which stand in order.
pub fn has_id(ids: &[RecordId], id: RecordId) -> bool
    requires { IsStrictlySortedBy id_cmp ids.now }
    ensures { result ≡ list_any (same_id id) ids.now }
{
    id_place(ids, id).is_ok()
}

/// Adds an id to these, in order; one that is there already stays. Refuses where memory ran out,
/// or 2^32 - 1 are there, and leaves the ids as they were.
pub fn add_id(ids: &mut IdList, floor: u64, id: RecordId) -> Result<(), NoMemory>
    requires ids { AreSeen floor ids.old }
    requires id { IsId id }
    requires kept { floor ≤ id.commit }
    ensures ok { OnOk result (ids.new ≡ with_id id ids.old) }
    ensures err { OnErr result (ids.new ≡ ids.old) }
    ensures ids { AreSeen floor ids.new }
{
    if let Err(at) = id_place(ids.as_slice(), id) {
        room(ids.len())?;
        ids.insert(at, id)?;
    }
    Ok(())
}

/// Takes an id away from these, if it is there. It looks at each of them.
pub fn take_id(ids: &mut IdList, id: RecordId)
    ensures { ids.new ≡ without_ids (Some id) ids.old }
{
    ids.retain(|other| !is_same(id, *other));
}

// Whether two ids are the same.
fn is_same(id: RecordId, other: RecordId) -> bool
    ensures { result ≡ same_id id other }
{
    id.commit == other.commit && id.index == other.index
}

/// Forgets the ids below a floor, a commit number. Those that are left stand in order, and none is
/// below.
pub fn forget_below(ids: &mut IdList, old: u64, floor: u64)
    requires ids { AreSeen old ids.old }
    ensures rest { ids.new ≡ ids_from floor ids.old }
    ensures ids { AreSeen floor ids.new }
{
    ids.retain(|id| id.commit >= floor);
}
