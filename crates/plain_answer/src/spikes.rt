//! What a spike gives of all that it reads.
ghost use Rattle.std.specs.Prelude.{◌≡◌, ◌≤◌, ◌++◌, [], IfOk, OnOk};
ghost use Rattle.std.specs.BTreeMap.{insert_entry};
ghost use Rattle.std.specs.List.Sorted.{IsPermutation};
ghost use Rattle.mw_types.specs.declared.kind.Kind.TheVariants.{Spike};
ghost use Rattle.computations.specs.Handlers.{known_with};
ghost use Rattle.plain_answer.specs.Plain.{fires_of, plain_of};
ghost use Rattle.plain_answer.specs.Spiked.{greater_at, known_of, noted_of, noted_with, spike_given, spike_of, spikes_along};
ghost use Rattle.plain_answer.specs.Tallies.{window_cmp};

use crate::given::Given;
use computations::is_spike;
use mw_types::{Duplicate, Key, NoMemory, Record, Seq};
use std::alloc::Global;
use std::collections::BTreeMap;

// The greatest value at each place, by key and then by timestamp.
type Places = BTreeMap<(Key, u64), i64>;

// What a spike that compares so many values by this factor gives of all the members that it reads,
// each with the key of the row that reads it, and how often it fires: once a place. For a time past
// the greatest there is no memory.
pub(crate) fn spikes_of(
    alloc: Global,
    last: u32,
    times: u32,
    members: &[(Key, Record)],
) -> Result<Given, NoMemory>
    requires last { last ≤ 64 }
    requires times { times ≤ 1000 }
    ensures spikes { IfOk result (λ given.
        IsPermutation (plain_of (Spike last times) members.now) given.records) }
    ensures fires { IfOk result (λ given. given.fires ≡ fires_of (Spike last times) members.now) }
{
    let places = places(alloc, members)?;
    let spikes = spikes(alloc, last, times, &places)?;
    Ok(Given {
        records: Seq::from_vec(spikes),
        fires: places.len() as u64,
    })
}

// The places of the members in time.
fn places(alloc: Global, members: &[(Key, Record)]) -> Result<Places, NoMemory>
    ensures { IfOk result (λ places. places.entries ≡ noted_of members.now) }
{
    let mut places = BTreeMap::new(alloc);
    for member in members {
        note(alloc, &mut places, &member.0, &member.1)?;
    }
    Ok(places)
}

// Notes a record at its place, where it is in time.
fn note(alloc: Global, places: &mut Places, key: &Key, item: &Record) -> Result<(), NoMemory>
    ensures { OnOk result (places.new.entries ≡ noted_with places.old.entries (key.now, item.now)) }
{
    if item.late {
        return Ok(());
    }
    enter(places, (key.copy(alloc)?, item.stamp), item.value)
}

// Enters a value at a place, where of two the greater stays.
fn enter(places: &mut Places, place: (Key, u64), value: i64) -> Result<(), NoMemory>
    ensures { OnOk result (places.new.entries ≡ insert_entry window_cmp places.old.entries place
        (greater_at places.old.entries place value)) }
{
    let value = greater(places, &place, value);
    places.insert(place, value)?;
    Ok(())
}

// The greater of a value and the one at its place, if one is.
fn greater(places: &Places, place: &(Key, u64), value: i64) -> i64
    ensures { result ≡ greater_at places.now.entries place.now value }
{
    match places.get(place) {
        Some(old) => (*old).max(value),
        None => value,
    }
}

// The row at hand: its key, and the last values that are known of it.
#[derive(Drop)]
struct Row {
    key: Key,
    known: Vec<i64>,
}

// The spikes along the places.
fn spikes(alloc: Global, last: u32, times: u32, places: &Places) -> Result<Vec<Record>, NoMemory>
    requires last { last ≤ 64 }
    requires times { times ≤ 1000 }
    ensures { IfOk result (λ records.
        records.items ≡ spikes_along last times [] [] places.now.entries) }
{
    let mut records = Vec::new(alloc);
    let mut row = Row {
        key: Key::none(alloc),
        known: Vec::new(alloc),
    };
    for (place, value) in places {
        go_on(alloc, last, times, &mut row, &mut records, place, value)?;
    }
    Ok(records)
}

// Goes on by one place: puts its spike behind the records, if it is one, and learns its value.
fn go_on(
    alloc: Global,
    last: u32,
    times: u32,
    row: &mut Row,
    records: &mut Vec<Record>,
    place: &(Key, u64),
    value: &i64,
) -> Result<(), NoMemory>
    requires last { last ≤ 64 }
    requires times { times ≤ 1000 }
    ensures spike { OnOk result (records.new.items ≡ records.old.items ++ spike_of last times
        (known_of row.old.key row.old.known.items place.now.0) (place.now, value.now)) }
    ensures row { OnOk result (row.new.key ≡ place.now.0) }
    ensures known { OnOk result (row.new.known.items ≡ known_with last
        (known_of row.old.key row.old.known.items place.now.0) value.now) }
{
    turn(alloc, row, &place.0)?;
    push_spike(alloc, last, times, &row.known, records, place, value)?;
    learn(&mut row.known, last, value)
}

// Goes over to the row of this key, of which no value is known, unless it is at hand.
fn turn(alloc: Global, row: &mut Row, key: &Key) -> Result<(), NoMemory>
    ensures row { OnOk result (row.new.key ≡ key.now) }
    ensures known { OnOk result
        (row.new.known.items ≡ known_of row.old.key row.old.known.items key.now) }
{
    if row.key != *key {
        row.key = key.copy(alloc)?;
        row.known.clear();
    }
    Ok(())
}

// Puts the spike at a place behind the records, if it is one.
fn push_spike(
    alloc: Global,
    last: u32,
    times: u32,
    known: &[i64],
    records: &mut Vec<Record>,
    place: &(Key, u64),
    value: &i64,
) -> Result<(), NoMemory>
    requires last { last ≤ 64 }
    requires times { times ≤ 1000 }
    ensures { OnOk result (records.new.items
        ≡ records.old.items ++ spike_of last times known.now (place.now, value.now)) }
{
    if is_spike(last, times, known, *value) {
        records.push(spike_record(alloc, place, *value)?)?;
    }
    Ok(())
}

// The spike at a place as a record.
fn spike_record(alloc: Global, place: &(Key, u64), value: i64) -> Result<Record, NoMemory>
    ensures { IfOk result (λ r. r ≡ spike_given (place.now, value)) }
{
    let Some(stamp) = place.1.checked_add(1) else {
        return Err(NoMemory);
    };
    Ok(Record {
        key: place.0.copy(alloc)?,
        stamp,
        value,
        late: false,
    })
}

// Appends a value to the last ones, of which so many stay.
fn learn(known: &mut Vec<i64>, last: u32, value: &i64) -> Result<(), NoMemory>
    ensures { OnOk result (known.new.items ≡ known_with last known.old.items value.now) }
{
    known.push(*value)?;
    for _ in 0..known.len().saturating_sub(last as usize) {
        known.remove(0);
    }
    Ok(())
}
