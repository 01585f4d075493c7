//! Storing a row: what changed of its bytes, or all of them.
ghost use Rattle.std.specs.Prelude.{◌≡◌, ◌<◌, ◌≤◌, ◌+◌, ◌^◌, IfSome, Ok, OnErr, OnOk, Some, drop, length, option_map, take, true, false};
ghost use Rattle.mw_types.specs.Causes.{HasCause};
ghost use Rattle.row_parts.specs.Contents.{IsRow};
ghost use Rattle.row_parts.specs.Spelling.{IsSpelledRow, spelling_of};
ghost use Rattle.row_keeper.specs.Rows.{IsThere, with_edit, with_row};
ghost use Rattle.record_codec.specs.Edits.{deliveries_spelling};
ghost use Rattle.run_history.specs.Lent.{lent};
ghost use Rattle.book.specs.Appending.{left_row};
ghost use Rattle.book.specs.Storing.{AreBytesOf, HaveEdited, HaveShorter, grown_by, row_of_pieces};

use crate::settling::{Settled, parted, spell};
use mw_types::{Delivery, RowName};
use record_codec::{bytes_behind, encode_edit};
use row_keeper::{Keeper, KeeperFault};
use row_parts::Row;
use run_history::EntryRef;
use std::alloc::Global;
use std::mem::replace;

// The deliveries of a row that is to be stored, of which some are new, and those that go from it.
#[derive(Clone, Copy)]
struct Pieces<'a> {
    front: &'a [Delivery],
    gone: &'a [Delivery],
    new: &'a [Delivery],
    behind: &'a [Delivery],
}

// How many deliveries an entry puts behind those of its row, where it changes nothing else but the row's head.
pub(crate) fn grown_by(settled: Option<Settled>, entry: &EntryRef<'_>, sent: u32) -> Option<u32>
    ensures { result ≡ grown_by settled (lent entry.now) sent }
{
    match (settled, entry) {
        (None, EntryRef::Inject { .. }) => Some(sent),
        _ => None,
    }
}

// Stores the bytes of a row, or of what it is once an id is settled, made in a buffer that is used again.
// Where only so many deliveries came, or an id is settled, they are edited where they lie.
pub(crate) fn store<K: Keeper>(
    alloc: Global,
    keeper: &mut K,
    buffer: &mut Vec<u8>,
    name: &RowName,
    row: &Row,
    settled: Option<Settled>,
    grown: Option<u32>,
) -> Result<(), KeeperFault>
    requires below { IfSome settled (λ s. s.commit < 2 ^ 32) }
    requires held { IfSome settled (λ _. IfSome (K.rows keeper.old) (AreBytesOf name.now row.now)) }
    requires shorter { IfSome grown
        (λ sent. IfSome (K.rows keeper.old) (HaveShorter name.now sent row.now)) }
    ensures stored { let bytes = spelling_of (left_row settled row.now) in
        OnOk result (K.rows keeper.new ≡ option_map (with_row name.now bytes) (K.rows keeper.old)) }
    ensures own { OnOk result (IsSpelledRow (left_row settled row.now)) }
    ensures unchanged { OnErr result (K.rows keeper.new ≡ K.rows keeper.old) }
    ensures failed { HasCause (K.faults keeper.old) (K.faults keeper.new)
        result KeeperFault.Failed }
{
    if store_changed(alloc, keeper, buffer, name, row, settled, grown)? {
        return Ok(());
    }
    store_whole(alloc, keeper, buffer, name, row, settled)
}

// Edits the bytes of a row where they lie, where an id was settled or deliveries came. Answers false where
// nothing was done.
fn store_changed<K: Keeper>(
    alloc: Global,
    keeper: &mut K,
    buffer: &mut Vec<u8>,
    name: &RowName,
    row: &Row,
    settled: Option<Settled>,
    grown: Option<u32>,
) -> Result<bool, KeeperFault>
    requires below { IfSome settled (λ s. s.commit < 2 ^ 32) }
    requires held { IfSome settled (λ _. IfSome (K.rows keeper.old) (AreBytesOf name.now row.now)) }
    requires shorter { IfSome grown
        (λ sent. IfSome (K.rows keeper.old) (HaveShorter name.now sent row.now)) }
    ensures stored { let bytes = spelling_of (left_row settled row.now) in result ≡ Ok true →
        K.rows keeper.new ≡ option_map (with_row name.now bytes) (K.rows keeper.old) }
    ensures own { result ≡ Ok true → IsSpelledRow (left_row settled row.now) }
    ensures whole { result ≡ Ok false → K.rows keeper.new ≡ K.rows keeper.old }
    ensures unchanged { OnErr result (K.rows keeper.new ≡ K.rows keeper.old) }
    ensures failed { HasCause (K.faults keeper.old) (K.faults keeper.new)
        result KeeperFault.Failed }
{
    match (settled, grown) {
        (Some(settled), _) => store_settled(alloc, keeper, buffer, name, row, settled),
        (None, Some(sent)) => store_grown(alloc, keeper, buffer, name, row, sent),
        (None, None) => Ok(false),
    }
}

// Stores all bytes of a row, or of what it is once an id is settled.
fn store_whole<K: Keeper>(
    alloc: Global,
    keeper: &mut K,
    buffer: &mut Vec<u8>,
    name: &RowName,
    row: &Row,
    settled: Option<Settled>,
) -> Result<(), KeeperFault>
    requires below { IfSome settled (λ s. s.commit < 2 ^ 32) }
    ensures stored { let bytes = spelling_of (left_row settled row.now) in
        OnOk result (K.rows keeper.new ≡ option_map (with_row name.now bytes) (K.rows keeper.old)) }
    ensures own { OnOk result (IsSpelledRow (left_row settled row.now)) }
    ensures unchanged { OnErr result (K.rows keeper.new ≡ K.rows keeper.old) }
    ensures failed { HasCause (K.faults keeper.old) (K.faults keeper.new)
        result KeeperFault.Failed }
{
    match spell(replace(buffer, Vec::new(alloc)), row, settled) {
        Ok(bytes) => {
            let done = keeper.put(alloc, name, bytes.as_slice());
            *buffer = bytes.into_vec();
            done
        }
        Err(want) => Err(want.into()),
    }
}

// Cuts the delivery of a settled id out of the bytes of its row, where more are pending. Answers false where
// nothing was done.
fn store_settled<K: Keeper>(
    alloc: Global,
    keeper: &mut K,
    buffer: &mut Vec<u8>,
    name: &RowName,
    row: &Row,
    settled: Settled,
) -> Result<bool, KeeperFault>
    requires below { settled.commit < 2 ^ 32 }
    requires held { IfSome (K.rows keeper.old) (AreBytesOf name.now row.now) }
    ensures stored { let bytes = spelling_of (left_row (Some settled) row.now) in result ≡ Ok true →
        K.rows keeper.new ≡ option_map (with_row name.now bytes) (K.rows keeper.old) }
    ensures own { result ≡ Ok true → IsSpelledRow (left_row (Some settled) row.now) }
    ensures whole { result ≡ Ok false → K.rows keeper.new ≡ K.rows keeper.old }
    ensures unchanged { OnErr result (K.rows keeper.new ≡ K.rows keeper.old) }
    ensures failed { HasCause (K.faults keeper.old) (K.faults keeper.new)
        result KeeperFault.Failed }
{
    row.sound();
    if row.pending.len() < 2 {
        return Ok(false);
    }
    let (front, gone, behind) = parted(row.pending.as_slice(), settled.id);
    let pieces = Pieces {
        front,
        gone,
        new: &[],
        behind,
    };
    edit(alloc, keeper, buffer, name, row, settled.commit, &pieces)
}

// Puts the bytes of the last deliveries of a row, so many, which are new, behind those of the others, where
// several are pending. Answers false where nothing was done.
fn store_grown<K: Keeper>(
    alloc: Global,
    keeper: &mut K,
    buffer: &mut Vec<u8>,
    name: &RowName,
    row: &Row,
    sent: u32,
) -> Result<bool, KeeperFault>
    requires { IfSome (K.rows keeper.old) (HaveShorter name.now sent row.now) }
    ensures stored { let bytes = spelling_of row.now in result ≡ Ok true →
        K.rows keeper.new ≡ option_map (with_row name.now bytes) (K.rows keeper.old) }
    ensures own { result ≡ Ok true → IsSpelledRow row.now }
    ensures whole { result ≡ Ok false → K.rows keeper.new ≡ K.rows keeper.old }
    ensures unchanged { OnErr result (K.rows keeper.new ≡ K.rows keeper.old) }
    ensures failed { HasCause (K.faults keeper.old) (K.faults keeper.new)
        result KeeperFault.Failed }
{
    row.sound();
    let deliveries = row.pending.as_slice();
    if deliveries.len() < 2 {
        return Ok(false);
    }
    let count = deliveries.len().saturating_sub(sent as usize);
    let (front, new) = deliveries.split_at(count);
    let pieces = Pieces {
        front,
        gone: &[],
        new,
        behind: &[],
    };
    edit(alloc, keeper, buffer, name, row, row.last, &pieces)
}

// Edits the bytes of a row to those with this last entry and the deliveries of three pieces. Answers false
// where nothing was done.
fn edit<K: Keeper>(
    alloc: Global,
    keeper: &mut K,
    buffer: &mut Vec<u8>,
    name: &RowName,
    row: &Row,
    last: u64,
    pieces: &Pieces,
) -> Result<bool, KeeperFault>
    requires row { let left = row_of_pieces last
        pieces.now.front.now pieces.now.new.now pieces.now.behind.now row.now in IsRow left }
    requires held { let left = row_of_pieces last
        pieces.now.front.now pieces.now.new.now pieces.now.behind.now row.now in IfSome (K.rows keeper.old)
        (HaveEdited name.now pieces.now.front.now pieces.now.gone.now pieces.now.behind.now left) }
    ensures stored { let left = row_of_pieces last
        pieces.now.front.now pieces.now.new.now pieces.now.behind.now row.now in result ≡ Ok true →
        K.rows keeper.new ≡ option_map (with_row name.now (spelling_of left)) (K.rows keeper.old) }
    ensures own { let left = row_of_pieces last
        pieces.now.front.now pieces.now.new.now pieces.now.behind.now row.now in
        result ≡ Ok true → IsSpelledRow left }
    ensures whole { result ≡ Ok false → K.rows keeper.new ≡ K.rows keeper.old }
    ensures unchanged { OnErr result (K.rows keeper.new ≡ K.rows keeper.old) }
    ensures failed { HasCause (K.faults keeper.old) (K.faults keeper.new)
        result KeeperFault.Failed }
{
    let room = replace(buffer, Vec::new(alloc));
    match encode_edit(room, row, last, pieces.front, pieces.new, pieces.behind) {
        Ok((head, bytes)) => {
            let done = edit_behind(alloc, keeper, name, bytes.as_slice(), head, pieces);
            *buffer = bytes.into_vec();
            done
        }
        Err(want) => Err(want.into()),
    }
}

// Edits the bytes of a row to those with so many of these in front, and with the rest in the place of the
// deliveries that go.
fn edit_behind<K: Keeper>(
    alloc: Global,
    keeper: &mut K,
    name: &RowName,
    bytes: &[u8],
    head: usize,
    pieces: &Pieces,
) -> Result<bool, KeeperFault>
    requires { head ≤ length bytes.now }
    ensures edited { let at = head + length (deliveries_spelling pieces.now.front.now) in
        let gone = length (deliveries_spelling pieces.now.gone.now) in result ≡ Ok true →
        K.rows keeper.new ≡ option_map
        (with_edit name.now (take head bytes.now) at gone (drop head bytes.now)) (K.rows keeper.old) }
    ensures there { result ≡ Ok true → IfSome (K.rows keeper.old) (IsThere name.now) }
    ensures whole { result ≡ Ok false → K.rows keeper.new ≡ K.rows keeper.old }
    ensures unchanged { OnErr result (K.rows keeper.new ≡ K.rows keeper.old) }
    ensures failed { HasCause (K.faults keeper.old) (K.faults keeper.new)
        result KeeperFault.Failed }
{
    let (front, new) = bytes.split_at(head);
    let at = bytes_behind(head, pieces.front);
    let gone = bytes_behind(0, pieces.gone);
    match (at, gone) {
        (Some(at), Some(gone)) => keeper.edit(alloc, name, front, at, gone, new),
        _ => Ok(false),
    }
}
