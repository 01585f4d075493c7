//! Where a timer, an id or a delivery stands in its list, or where it would stand.
ghost use Rattle.std.specs.Prelude.{◌+◌, ◌<◌, ◌^◌, OnOk};
ghost use Rattle.std.specs.List.Sorted.{IsStrictlySortedBy};
ghost use Rattle.mw_types.specs.Orders.{id_cmp, timer_cmp};
ghost use Rattle.row_parts.specs.Contents.{delivery_cmp};
ghost use Rattle.row_parts.specs.Places.{timer_rank, id_rank, delivery_rank, IsHitOrGap};

use mw_types::{Delivery, NoMemory, RecordId, Timer};

// A list is shorter than 2^32, which is as far as its length is written.
const LIST_MAX: usize = u32::MAX as usize;

/// Whether a list of this length may have one more element. Refuses, as if memory ran out, where
/// 2^32 - 1 are there already.
pub fn room(len: usize) -> Result<(), NoMemory>
    ensures { OnOk result (len + 1 < 2 ^ 32) }
{
    if len < LIST_MAX {
        Ok(())
    } else {
        Err(NoMemory)
    }
}

/// Whether a list of this length may have so many elements more. Refuses, as if memory ran out, where it
/// would have 2^32.
pub fn room_for(len: usize, more: usize) -> Result<(), NoMemory>
    ensures { OnOk result (len + more < 2 ^ 32) }
{
    match len.checked_add(more) {
        Some(all) if all <= LIST_MAX => Ok(()),
        _ => Err(NoMemory),
    }
}

/// The place of the timer with this tag and time, in whole microseconds; `Err` has the place where
/// it would stand.
pub fn timer_place(timers: &[Timer], tag: u64, time: u64) -> Result<usize, usize>
    requires { IsStrictlySortedBy timer_cmp timers.now }
    ensures { IsHitOrGap (timer_rank tag time) timers.now result }
{
    timers.binary_search_by(|timer| timer.time.cmp(&time).then(timer.tag.cmp(&tag)))
}

/// The place of an id, which is mostly at the end; `Err` has the place where it would stand.
pub fn id_place(ids: &[RecordId], id: RecordId) -> Result<usize, usize>
    requires { IsStrictlySortedBy id_cmp ids.now }
    ensures { IsHitOrGap (id_rank id) ids.now result }
{
    match ids.last() {
        Some(last) if *last < id => Err(ids.len()),
        _ => ids.binary_search(&id),
    }
}

/// The place of the delivery with this id; `Err` has the place where it would stand.
pub fn delivery_place(deliveries: &[Delivery], id: RecordId) -> Result<usize, usize>
    requires { IsStrictlySortedBy delivery_cmp deliveries.now }
    ensures { IsHitOrGap (delivery_rank id) deliveries.now result }
{
    deliveries.binary_search_by(|delivery| delivery.id.cmp(&id))
}
