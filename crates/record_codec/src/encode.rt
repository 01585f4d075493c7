//! Writing a row.
ghost use Rattle.std.specs.Prelude.{◌≡◌, ◌<◌, ◌+◌, ◌++◌, ◌^◌, [], All, IfOk, OnOk, length};
ghost use Rattle.mw_types.specs.declared.timer.Timer.{Timer};
ghost use Rattle.row_parts.specs.Contents.{IsRow};
ghost use Rattle.row_parts.specs.Spelling.{DeliveryFits, FitsBytes, IsSpelledRow, spelling_of};
ghost use Rattle.record_codec.specs.Edits.{deliveries_spelling, head_spelling, row_sending};

use crate::lengths::have_spellings;
use mw_types::{Bytes, Delivery, NoMemory};
use row_parts::{Row, Spelled, put_in_fours, put_state};
use std::alloc::Global;

// The version of the form of rows, which is their first byte.
const VERSION: u8 = 1;

// Room for a row with one delivery under a short key, and some more.
const ROOM: usize = 128;

// How many bytes an id has.
const ID_BYTES: usize = 12;

// How many bytes a timer and the open window that it closes have.
const TIMER_BYTES: usize = 33;

/// The bytes of a row.
pub fn encode_row(alloc: Global, row: &Row) -> Result<Bytes, NoMemory>
    ensures spelled { IfOk result (λ bytes. bytes ≡ spelling_of row.now) }
    ensures own { OnOk result (IsSpelledRow row.now) }
{
    encode_over(Vec::new(alloc), row)
}

/// The bytes of a row, in the memory of a buffer that is used no more.
pub fn encode_over(buffer: Vec<u8>, row: &Row) -> Result<Bytes, NoMemory>
    ensures spelled { IfOk result (λ bytes. bytes ≡ spelling_of row.now) }
    ensures own { OnOk result (IsSpelledRow row.now) }
{
    row.sound();
    encode_sending(buffer, row, row.last, row.pending.as_slice(), &[])
}

/// The bytes of a row with this last entry and the deliveries of both lists in the place of its own, in the
/// memory of a buffer that is used no more.
pub fn encode_sending(
    buffer: Vec<u8>,
    row: &Row,
    last: u64,
    front: &[Delivery],
    behind: &[Delivery],
) -> Result<Bytes, NoMemory>
    requires { IsRow (row_sending last (front.now ++ behind.now) row.now) }
    ensures spelled { let left = row_sending last (front.now ++ behind.now) row.now in
        IfOk result (λ bytes. bytes ≡ spelling_of left) }
    ensures own { OnOk result (IsSpelledRow (row_sending last (front.now ++ behind.now) row.now)) }
{
    let mut out = buffer;
    out.clear();
    out.reserve(room_of(row))?;
    put_head(&mut out, row, last, front.len() + behind.len())?;
    put_deliveries(&mut out, front)?;
    put_deliveries(&mut out, behind)?;
    put_in_fours(&mut out, row.seen.as_slice())?;
    Ok(Bytes::from_vec(out))
}

/// What changes in the bytes of a row with this last entry and the deliveries of all three lists, of which
/// the second is new: the bytes before the deliveries and those of the new ones, and how many the former are.
/// They are in the memory of a buffer that is used no more.
pub fn encode_edit(
    buffer: Vec<u8>,
    row: &Row,
    last: u64,
    front: &[Delivery],
    new: &[Delivery],
    behind: &[Delivery],
) -> Result<(usize, Bytes), NoMemory>
    requires { IsRow (row_sending last (front.now ++ (new.now ++ behind.now)) row.now) }
    ensures head { let count = length (front.now ++ (new.now ++ behind.now)) in
        IfOk result (λ e. e.0 ≡ length (head_spelling last count row.now)) }
    ensures spelled { let count = length (front.now ++ (new.now ++ behind.now)) in
        IfOk result (λ e. e.1 ≡ head_spelling last count row.now ++ deliveries_spelling new.now) }
    ensures own { let pending = front.now ++ (new.now ++ behind.now) in
        OnOk result (IsSpelledRow (row_sending last pending row.now)) }
{
    let mut out = buffer;
    out.clear();
    out.reserve(ROOM)?;
    put_head(
        &mut out,
        row,
        last,
        front.len() + (new.len() + behind.len()),
    )?;
    let head = out.len();
    put_deliveries(&mut out, new)?;
    have_spellings(front);
    have_spellings(behind);
    Ok((head, Bytes::from_vec(out)))
}

// Appends the bytes of a row before its deliveries, with this last entry and so many deliveries.
fn put_head(out: &mut Vec<u8>, row: &Row, last: u64, count: usize) -> Result<(), NoMemory>
    requires empty { out.old.items ≡ [] }
    requires few { count < 2 ^ 32 }
    ensures spelled { OnOk result (out.new.items ≡ head_spelling last count row.now) }
    ensures state { OnOk result (FitsBytes row.now.state) }
    ensures tags { OnOk result (All (λ (t : Timer). t.tag < 2 ^ 64) row.now.timers) }
{
    out.push(VERSION)?;
    last.put(out)?;
    row.floor.put(out)?;
    put_state(out, &row.state)?;
    put_in_fours(out, row.timers.as_slice())?;
    (count as u32).put(out)?;
    Ok(())
}

// Appends the bytes of deliveries.
fn put_deliveries(out: &mut Vec<u8>, deliveries: &[Delivery]) -> Result<(), NoMemory>
    ensures spelled { let spelt = deliveries_spelling deliveries.now in
        OnOk result (out.new.items ≡ out.old.items ++ spelt) }
    ensures fit { OnOk result (All DeliveryFits deliveries.now) }
{
    for delivery in deliveries {
        delivery.put(out)?;
    }
    Ok(())
}

// Room for a row: its timers, and the ids that it has seen, are the longest of its lists.
fn room_of(row: &Row) -> usize {
    let timers = row.timers.len().saturating_mul(TIMER_BYTES);
    let ids = row.seen.len().saturating_mul(ID_BYTES);
    ROOM.saturating_add(timers).saturating_add(ids)
}
