//! Reading a row.
ghost use Rattle.std.specs.Prelude.{◌≡◌, ◌≢◌, true, nat_le, List, ℕ, Some, Ok, Err, IfOk, IsErrOf, MatchResult};
ghost use Rattle.std.specs.List.{list_all};
ghost use Rattle.row_parts.specs.Contents.{Contents, IsRow};
ghost use Rattle.row_parts.specs.Spelling.{spelling_of, IsSpelledRow};
ghost use Rattle.row_parts.specs.Reading.{Gives, keep};
ghost use Rattle.record_codec.specs.Reading.{kept_from, Lists, are_within, row_with, rest_at, lists_at, fields_at, row_at, whole_row};

use crate::refusal::RowRefusal;
use mw_types::{Delivery, DeliveryList, IdList, RecordId, State, Timer, TimerList};
use row_parts::{Row, Spelled, StateRefusal, take_ascending, take_state};
use std::alloc::Global;

// The number of entries that a history may have.
const ENTRIES: u64 = 1 << 32;

// Whether each of these ids is at or above the floor.
fn is_kept_from(floor: u64, ids: &[RecordId]) -> bool
    ensures { result ≡ kept_from floor ids.now }
{
    ids.iter().all(|id| id.commit >= floor)
}

// A row's timers, what is pending, and the ids that it handled.
type Lists = (TimerList, (DeliveryList, IdList));

// Reads the lists of a row.
#[tactic(auto, unfolding(crate::specs::Reading::lists_at))]
fn take_lists(alloc: Global, bytes: &[u8]) -> Result<(Lists, &[u8]), StateRefusal>
    ensures { Gives (λ x. (x.0, x.1.now)) result (lists_at bytes.now) }
{
    let (timers, rest) = take_ascending::<Timer>(alloc, bytes)?;
    let (pending, rest) = take_ascending::<Delivery>(alloc, rest)?;
    let (seen, rest) = take_ascending::<RecordId>(alloc, rest)?;
    Ok(((timers, (pending, seen)), rest))
}

// Reads the lists of a row after its numbers and its state, and answers the row.
fn take_rest(
    alloc: Global,
    last: u64,
    floor: u64,
    state: State,
    bytes: &[u8],
) -> Result<(Row, &[u8]), StateRefusal>
    // What the lists may be is known to whoever read what stands before them.
    requires { (lists : Lists) (rest : List ℕ) → lists_at bytes.now ≡ Some (lists, rest)
        → are_within last floor lists ≡ true → IsRow (row_with last floor state lists) }
    ensures { Gives (λ x. (x.0, x.1.now)) result (rest_at last floor state bytes.now) }
{
    let ((timers, (pending, seen)), rest) = take_lists(alloc, bytes)?;
    if last < ENTRIES && floor <= ENTRIES && is_kept_from(floor, seen.as_slice()) {
        let row = Row {
            state,
            timers,
            pending,
            seen,
            floor,
            last,
        };
        Ok((row, rest))
    } else {
        drop(timers);
        drop(pending);
        drop(seen);
        drop(state);
        Err(StateRefusal::Damaged)
    }
}

// Reads what follows a row's version.
#[tactic(auto, unfolding(crate::specs::Reading::fields_at))]
fn take_fields(alloc: Global, bytes: &[u8]) -> Result<(Row, &[u8]), StateRefusal>
    ensures { Gives (λ x. (x.0, x.1.now)) result (fields_at bytes.now) }
{
    let (last, rest) = u64::take(alloc, bytes)?;
    let (floor, rest) = u64::take(alloc, rest)?;
    let (state, rest) = take_state(alloc, rest)?;
    take_rest(alloc, last, floor, state, rest)
}

// Reads a row from the front.
#[tactic(auto, unfolding(crate::specs::Reading::row_at))]
fn take_row(alloc: Global, bytes: &[u8]) -> Result<(Row, &[u8]), StateRefusal>
    ensures { Gives (λ x. (x.0, x.1.now)) result (row_at bytes.now) }
{
    match bytes {
        [1, rest @ ..] => take_fields(alloc, rest),
        _ => Err(StateRefusal::Damaged),
    }
}

// Reads a row that is all of the bytes.
#[tactic(auto, unfolding(crate::specs::Reading::whole_row))]
fn take_whole(alloc: Global, bytes: &[u8]) -> Result<Row, StateRefusal>
    ensures { Gives (λ row. row) result (whole_row bytes.now) }
{
    let (row, rest) = take_row(alloc, bytes)?;
    if rest.is_empty() {
        Ok(row)
    } else {
        drop(row);
        Err(StateRefusal::Damaged)
    }
}

/// The row whose bytes these are, all of them.
pub fn decode_row(alloc: Global, bytes: &[u8]) -> Result<Row, RowRefusal>
    // What is answered has these bytes.
    ensures found { IfOk result (λ row. IsSpelledRow row × (bytes.now ≡ spelling_of row)) }
    // The row that has these bytes is answered, unless memory runs out.
    ensures only { (row : Contents) → IsSpelledRow row → bytes.now ≡ spelling_of row
        → MatchResult result (λ r. r ≡ row) (λ refusal. refusal ≡ RowRefusal.NoMemory) }
    // Damaged is answered only where no row has these bytes.
    ensures damaged { IsErrOf result RowRefusal.Damaged
        → (row : Contents) → IsSpelledRow row → bytes.now ≢ spelling_of row }
{
    match take_whole(alloc, bytes) {
        Ok(row) => Ok(row),
        Err(StateRefusal::Damaged) => Err(RowRefusal::Damaged),
        Err(StateRefusal::NoMemory) => Err(RowRefusal::NoMemory),
    }
}
