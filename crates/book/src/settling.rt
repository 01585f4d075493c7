//! The row that no longer waits for an id, before the delivery is taken out of it.
ghost use Rattle.std.specs.Prelude.{◌≡◌, ◌<◌, ◌++◌, ◌^◌, IfOk, IfSome, OnOk};
ghost use Rattle.std.specs.List.Sorted.{IsStrictlySortedBy};
ghost use Rattle.row_parts.specs.Contents.{ArePending, delivery_cmp, without_delivery};
ghost use Rattle.row_parts.specs.Places.{IsHitOrGap, delivery_rank};
ghost use Rattle.row_parts.specs.Spelling.{IsSpelledRow, spelling_of};
ghost use Rattle.book.specs.Appending.{left_row};
ghost use Rattle.book.specs.declared.settling.Settled.{Settled};

use mw_types::{Bytes, Delivery, NoMemory, RecordId};
use record_codec::{encode_over, encode_sending};
use row_parts::Row;

// An id for which a row waits no more, and the number of the entry that says so.
#[derive(Clone, Copy)]
pub(crate) struct Settled {
    pub(crate) id: RecordId,
    pub(crate) commit: u64,
}

// The bytes of a row, or of what it is once an id is settled, in the memory of a buffer that is used no more.
pub(crate) fn spell(buffer: Vec<u8>, row: &Row, settled: Option<Settled>) -> Result<Bytes, NoMemory>
    requires { IfSome settled (λ s. s.commit < 2 ^ 32) }
    ensures spelled { IfOk result (λ bytes. bytes ≡ spelling_of (left_row settled row.now)) }
    ensures own { OnOk result (IsSpelledRow (left_row settled row.now)) }
{
    match settled {
        Some(settled) => spell_settled(buffer, row, settled),
        None => encode_over(buffer, row),
    }
}

// The bytes of a row once an id is settled.
fn spell_settled(buffer: Vec<u8>, row: &Row, settled: Settled) -> Result<Bytes, NoMemory>
    requires { settled.commit < 2 ^ 32 }
    ensures spelled { let pending = without_delivery settled.id row.now.pending in
        let left = record row.now { pending = pending; last = settled.commit } in
        IfOk result (λ bytes. bytes ≡ spelling_of left) }
    ensures own { let pending = without_delivery settled.id row.now.pending in
        OnOk result (IsSpelledRow (record row.now {
          pending = pending;
          last = settled.commit;
        })) }
{
    row.sound();
    let (front, _, behind) = parted(row.pending.as_slice(), settled.id);
    encode_sending(buffer, row, settled.commit, front, behind)
}

// The deliveries before the one with this id, that one alone, and those behind it.
pub(crate) fn parted(
    deliveries: &[Delivery],
    id: RecordId,
) -> (&[Delivery], &[Delivery], &[Delivery])
    requires { ArePending deliveries.now }
    ensures left { result.0.now ++ result.2.now ≡ without_delivery id deliveries.now }
    ensures whole { deliveries.now ≡ result.0.now ++ (result.1.now ++ result.2.now) }
{
    match place_of(deliveries, id) {
        Ok(at) => (
            &deliveries[..at],
            &deliveries[at..at + 1],
            &deliveries[at + 1..],
        ),
        Err(_) => (deliveries, &[], &[]),
    }
}

// The place of the delivery with this id; `Err` has the place where it would stand.
fn place_of(deliveries: &[Delivery], id: RecordId) -> Result<usize, usize>
    requires { IsStrictlySortedBy delivery_cmp deliveries.now }
    ensures { IsHitOrGap (delivery_rank id) deliveries.now result }
{
    deliveries.binary_search_by(|delivery| delivery.id.cmp(&id))
}
