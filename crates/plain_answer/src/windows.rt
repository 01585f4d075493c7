//! What a count gives of all that it reads.
ghost use Rattle.std.specs.Prelude.{◌≡◌, ◌≤◌, ◌+◌, ◌++◌, ◌∷◌, [], map, IfOk, OnOk};
ghost use Rattle.std.specs.BTreeMap.{insert_entry};
ghost use Rattle.std.specs.List.Sorted.{IsPermutation};
ghost use Rattle.mw_types.specs.declared.kind.Kind.TheVariants.{Count};
ghost use Rattle.plain_answer.specs.Plain.{plain_end, plain_of};
ghost use Rattle.plain_answer.specs.Tallies.{tally_at, tally_of, tally_with, window_cmp, window_given};

use mw_types::{Duplicate, Key, NoMemory, Record};
use std::alloc::Global;
use std::collections::BTreeMap;

// How many records each window has, by key and then by its end.
type Tally = BTreeMap<(Key, u64), u64>;

/// What a count with windows of this size, in whole microseconds, gives of all the members that it
/// reads, each with the key of the row that reads it. For an end or a number past the greatest
/// there is no memory.
pub fn windows_of(
    alloc: Global,
    size: u64,
    members: &[(Key, Record)],
) -> Result<Vec<Record>, NoMemory>
    requires size { 1 ≤ size }
    ensures windows { IfOk result (λ records.
        IsPermutation (plain_of (Count size) members.now) records.items) }
{
    let tally = tally(alloc, size, members)?;
    given(alloc, &tally)
}

// How many records in time each window has.
fn tally(alloc: Global, size: u64, members: &[(Key, Record)]) -> Result<Tally, NoMemory>
    requires { 1 ≤ size }
    ensures { IfOk result (λ tally. tally.entries ≡ tally_of size members.now) }
{
    let mut tally = BTreeMap::new(alloc);
    for member in members {
        note(alloc, &mut tally, size, &member.0, &member.1)?;
    }
    Ok(tally)
}

// Counts a record in its window, where it is in time.
fn note(
    alloc: Global,
    tally: &mut Tally,
    size: u64,
    key: &Key,
    item: &Record,
) -> Result<(), NoMemory>
    requires { 1 ≤ size }
    ensures { OnOk result
        (tally.new.entries ≡ tally_with size tally.old.entries (key.now, item.now)) }
{
    if item.late {
        return Ok(());
    }
    let window = (key.copy(alloc)?, end_of(size, item.stamp)?);
    count_up(tally, window)
}

// Counts one record more in a window.
fn count_up(tally: &mut Tally, window: (Key, u64)) -> Result<(), NoMemory>
    ensures { OnOk result (tally.new.entries ≡ insert_entry window_cmp tally.old.entries window
        (tally_at tally.old.entries window + 1)) }
{
    let Some(count) = count_of(tally, &window).checked_add(1) else {
        return Err(NoMemory);
    };
    tally.insert(window, count)?;
    Ok(())
}

// Where the window of a timestamp ends.
fn end_of(size: u64, stamp: u64) -> Result<u64, NoMemory>
    requires { 1 ≤ size }
    ensures { IfOk result (λ end. end ≡ plain_end size stamp) }
{
    match (stamp - stamp % size).checked_add(size) {
        Some(end) => Ok(end),
        None => Err(NoMemory),
    }
}

// How many records a window has so far.
fn count_of(tally: &Tally, window: &(Key, u64)) -> u64
    ensures { result ≡ tally_at tally.now.entries window.now }
{
    match tally.get(window) {
        Some(count) => *count,
        None => 0,
    }
}

// The counts as records.
fn given(alloc: Global, tally: &Tally) -> Result<Vec<Record>, NoMemory>
    ensures { IfOk result (λ records. records.items ≡ map window_given tally.now.entries) }
{
    let mut records = Vec::new(alloc);
    for (window, count) in tally {
        push_window(alloc, &mut records, window, *count)?;
    }
    Ok(records)
}

// Puts the count of one window behind the records.
fn push_window(
    alloc: Global,
    records: &mut Vec<Record>,
    window: &(Key, u64),
    count: u64,
) -> Result<(), NoMemory>
    ensures { OnOk result
        (records.new.items ≡ records.old.items ++ window_given (window.now, count) ∷ []) }
{
    records.push(window_record(alloc, window, count)?)?;
    Ok(())
}

// The count of one window as a record.
fn window_record(alloc: Global, window: &(Key, u64), count: u64) -> Result<Record, NoMemory>
    ensures { IfOk result (λ r. r ≡ window_given (window.now, count)) }
{
    let Ok(value) = i64::try_from(count) else {
        return Err(NoMemory);
    };
    Ok(Record {
        key: window.0.copy(alloc)?,
        stamp: window.1,
        value,
        late: false,
    })
}
