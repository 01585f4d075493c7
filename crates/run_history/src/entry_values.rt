//! Entries as JSON objects.
ghost use Rattle.std.specs.Prelude.{◌≡◌, ◌++◌, ◌∷◌, [], codes, map, IfOk, OnOk, string_bytes};
ghost use Rattle.mw_types.specs.Bounds.{IsWithin};
ghost use Rattle.row_parts.specs.Contents.{IsId};
ghost use Rattle.row_parts.specs.Spelling.{state_spelling};
ghost use Rattle.hex.specs.Hex.{encode_lower};
ghost use Rattle.run_history.specs.HistoryLines.{array_data, production_data, state_data, timer_data, claim_data, inject_data, handle_data, fire_data, ack_data, purge_data, entry_data, HasLine};
ghost use Rattle.run_history.specs.Lent.{lent};
ghost use Rattle.serde_json.specs.Data.{boolean, number, object, put, string, unsigned};
ghost use Rattle.serde_json.specs.Find.{of_integer};
ghost use Rattle.serde_json.specs.View.{members_view, view};

use crate::entry_ref::EntryRef;
use crate::members::{put_flag, put_id, put_integer, put_number, put_row, put_text};
use mw_types::{Effects, NoMemory, Production, Record, RecordId, RowName, State, Timer};
use row_parts::state_bytes;
use serde_json::{Map, Value};
use std::alloc::Global;

// An entry under its commit number.
pub(crate) fn entry_value(alloc: Global, entry: &EntryRef<'_>, n: u64) -> Result<Value, NoMemory>
    requires { HasLine (lent entry.now) }
    ensures { IfOk result (λ value. view value ≡ entry_data n (lent entry.now)) }
{
    let mut map = Map::new(alloc);
    put_entry(alloc, &mut map, entry, n)?;
    Ok(Value::Object(map))
}

// Puts what an entry says into an object that has nothing yet.
fn put_entry(
    alloc: Global,
    map: &mut Map<String, Value>,
    entry: &EntryRef<'_>,
    n: u64,
) -> Result<(), NoMemory>
    requires line { HasLine (lent entry.now) }
    requires empty { map.old.entries ≡ [] }
    ensures { OnOk result (object (members_view map.new.entries) ≡ entry_data n (lent entry.now)) }
{
    match *entry {
        EntryRef::Claim { worker, interval } => put_claim(alloc, map, n, worker, interval),
        EntryRef::Inject {
            seq,
            part,
            line,
            item,
        } => put_inject(alloc, map, n, seq, part, line, item),
        EntryRef::Handle {
            seq,
            row,
            id,
            effects,
        } => put_handle(alloc, map, n, seq, row, id, effects),
        EntryRef::Fire {
            seq,
            row,
            timer,
            mark,
            effects,
        } => put_fire(alloc, map, n, seq, row, timer, mark, effects),
        EntryRef::Ack { seq, row, id } => put_ack(alloc, map, n, seq, row, id),
        EntryRef::Purge { seq, row, floor } => put_purge(alloc, map, n, seq, row, floor),
    }
}

// Puts a claim.
fn put_claim(
    alloc: Global,
    map: &mut Map<String, Value>,
    n: u64,
    worker: u32,
    interval: u32,
) -> Result<(), NoMemory>
    requires empty { map.old.entries ≡ [] }
    ensures { OnOk result (object (members_view map.new.entries) ≡ claim_data n worker interval) }
{
    put_deed(alloc, map, "claim", n)?;
    put_number(alloc, map, "interval", u64::from(interval))?;
    put_number(alloc, map, "worker", u64::from(worker))
}

// Puts an injected line.
fn put_inject(
    alloc: Global,
    map: &mut Map<String, Value>,
    n: u64,
    seq: u64,
    part: u32,
    line: u32,
    item: &Record,
) -> Result<(), NoMemory>
    requires empty { map.old.entries ≡ [] }
    ensures { OnOk result
        (object (members_view map.new.entries) ≡ inject_data n seq part line item.now) }
{
    put_write(alloc, map, "inject", n, seq)?;
    put_number(alloc, map, "part", u64::from(part))?;
    put_number(alloc, map, "line", u64::from(line))?;
    put_item(alloc, map, item)
}

// Puts a handled record.
fn put_handle(
    alloc: Global,
    map: &mut Map<String, Value>,
    n: u64,
    seq: u64,
    row: &RowName,
    id: RecordId,
    effects: &Effects,
) -> Result<(), NoMemory>
    requires id { IsId id }
    requires empty { map.old.entries ≡ [] }
    ensures { OnOk result
        (object (members_view map.new.entries) ≡ handle_data n seq row.now id effects.now) }
{
    put_write(alloc, map, "handle", n, seq)?;
    put_row(alloc, map, row)?;
    put_id(alloc, map, id)?;
    put_effects(alloc, map, effects)?;
    put_timers(alloc, map, effects)
}

// Puts a fired timer.
fn put_fire(
    alloc: Global,
    map: &mut Map<String, Value>,
    n: u64,
    seq: u64,
    row: &RowName,
    timer: Timer,
    mark: u64,
    effects: &Effects,
) -> Result<(), NoMemory>
    requires empty { map.old.entries ≡ [] }
    ensures { OnOk result
        (object (members_view map.new.entries) ≡ fire_data n seq row.now timer mark effects.now) }
{
    put_write(alloc, map, "fire", n, seq)?;
    put_row(alloc, map, row)?;
    put_due(alloc, map, timer, mark)?;
    put_effects(alloc, map, effects)
}

// Puts an acknowledgement.
fn put_ack(
    alloc: Global,
    map: &mut Map<String, Value>,
    n: u64,
    seq: u64,
    row: &RowName,
    id: RecordId,
) -> Result<(), NoMemory>
    requires id { IsId id }
    requires empty { map.old.entries ≡ [] }
    ensures { OnOk result (object (members_view map.new.entries) ≡ ack_data n seq row.now id) }
{
    put_write(alloc, map, "ack", n, seq)?;
    put_row(alloc, map, row)?;
    put_id(alloc, map, id)
}

// Puts a purge.
fn put_purge(
    alloc: Global,
    map: &mut Map<String, Value>,
    n: u64,
    seq: u64,
    row: &RowName,
    floor: u64,
) -> Result<(), NoMemory>
    requires empty { map.old.entries ≡ [] }
    ensures { OnOk result (object (members_view map.new.entries) ≡ purge_data n seq row.now floor) }
{
    put_write(alloc, map, "purge", n, seq)?;
    put_row(alloc, map, row)?;
    put_number(alloc, map, "floor", floor)
}

// Puts what an entry does, and its commit number.
fn put_deed(alloc: Global, map: &mut Map<String, Value>, deed: &str, n: u64) -> Result<(), NoMemory>
    ensures { OnOk result (members_view map.new.entries
        ≡ put (codes "n") (number (unsigned n))
        (put (codes "do") (string deed.now) (members_view map.old.entries))) }
{
    put_text(alloc, map, "do", deed)?;
    put_number(alloc, map, "n", n)
}

// Puts what a write does, its commit number, and the sequencer under which it was written.
fn put_write(
    alloc: Global,
    map: &mut Map<String, Value>,
    deed: &str,
    n: u64,
    seq: u64,
) -> Result<(), NoMemory>
    ensures { OnOk result (members_view map.new.entries
        ≡ put (codes "seq") (number (unsigned seq))
        (put (codes "n") (number (unsigned n))
        (put (codes "do") (string deed.now) (members_view map.old.entries)))) }
{
    put_deed(alloc, map, deed, n)?;
    put_number(alloc, map, "seq", seq)
}

// Puts what a record holds.
fn put_item(alloc: Global, map: &mut Map<String, Value>, item: &Record) -> Result<(), NoMemory>
    ensures { OnOk result (members_view map.new.entries
        ≡ put (codes "value") (number (of_integer item.now.value))
        (put (codes "ts") (number (unsigned item.now.stamp))
        (put (codes "late") (boolean item.now.late)
        (put (codes "key") (string item.now.key) (members_view map.old.entries))))) }
{
    put_text(alloc, map, "key", item.key.text())?;
    put_flag(alloc, map, "late", item.late)?;
    put_number(alloc, map, "ts", item.stamp)?;
    put_integer(alloc, map, "value", item.value)
}

// Puts a timer that was fired, and the watermark under which it was.
fn put_due(
    alloc: Global,
    map: &mut Map<String, Value>,
    timer: Timer,
    mark: u64,
) -> Result<(), NoMemory>
    ensures { OnOk result (members_view map.new.entries
        ≡ put (codes "mark") (number (unsigned mark))
        (put (codes "time") (number (unsigned timer.time))
        (put (codes "tag") (number (unsigned timer.tag))
        (put (codes "late") (boolean timer.late) (members_view map.old.entries))))) }
{
    put_flag(alloc, map, "late", timer.late)?;
    put_number(alloc, map, "tag", u64::from(timer.tag))?;
    put_number(alloc, map, "time", timer.time)?;
    put_number(alloc, map, "mark", mark)
}

// Puts what a handler produced and the state that it left.
fn put_effects(
    alloc: Global,
    map: &mut Map<String, Value>,
    effects: &Effects,
) -> Result<(), NoMemory>
    ensures { OnOk result (members_view map.new.entries
        ≡ put (codes "state") (state_data effects.now.state)
        (put (codes "out") (array_data production_data effects.now.productions)
        (members_view map.old.entries))) }
{
    let out = productions_value(alloc, effects.productions.as_slice())?;
    serde_json::put(map, alloc, "out", out)?;
    put_state(alloc, map, &effects.state)
}

// Puts a state, as its bytes in lower-case hexadecimal.
fn put_state(alloc: Global, map: &mut Map<String, Value>, state: &State) -> Result<(), NoMemory>
    requires { IsWithin state.now }
    ensures { OnOk result (members_view map.new.entries
        ≡ put (codes "state") (state_data state.now) (members_view map.old.entries)) }
{
    let text = state_text(alloc, state)?;
    put_text(alloc, map, "state", text.as_str())
}

// Puts the timers that a handler set.
fn put_timers(
    alloc: Global,
    map: &mut Map<String, Value>,
    effects: &Effects,
) -> Result<(), NoMemory>
    ensures { OnOk result (members_view map.new.entries
        ≡ put (codes "timers") (array_data timer_data effects.now.timers)
        (members_view map.old.entries)) }
{
    let timers = timers_value(alloc, effects.timers.as_slice())?;
    serde_json::put(map, alloc, "timers", timers)?;
    Ok(())
}

// The bytes of a state, in lower-case hexadecimal.
fn state_text(alloc: Global, state: &State) -> Result<String, NoMemory>
    requires { IsWithin state.now }
    ensures { IfOk result (λ text. string_bytes text ≡ encode_lower (state_spelling state.now)) }
{
    let bytes = state_bytes(alloc, state)?;
    Ok(hex::encode(alloc, bytes.as_slice())?)
}

// Productions, in order.
fn productions_value(alloc: Global, productions: &[Production]) -> Result<Value, NoMemory>
    ensures { IfOk result (λ value. view value ≡ array_data production_data productions.now) }
{
    let mut values = Vec::with_capacity(alloc, productions.len())?;
    for production in productions {
        push_production(alloc, &mut values, production)?;
    }
    Ok(Value::Array(values))
}

// Appends a production.
fn push_production(
    alloc: Global,
    values: &mut Vec<Value>,
    production: &Production,
) -> Result<(), NoMemory>
    ensures { OnOk result (map view values.new.items
        ≡ map view values.old.items ++ production_data production.now ∷ []) }
{
    let mut members = Map::new(alloc);
    put_production(alloc, &mut members, production)?;
    values.push(Value::Object(members))?;
    Ok(())
}

// Puts a production into an object that has nothing yet.
fn put_production(
    alloc: Global,
    map: &mut Map<String, Value>,
    production: &Production,
) -> Result<(), NoMemory>
    requires empty { map.old.entries ≡ [] }
    ensures { OnOk result
        (object (members_view map.new.entries) ≡ production_data production.now) }
{
    put_text(alloc, map, "key", production.key.text())?;
    put_number(alloc, map, "ts", production.stamp)?;
    put_integer(alloc, map, "value", production.value)
}

// Timers that were set, in order.
fn timers_value(alloc: Global, timers: &[Timer]) -> Result<Value, NoMemory>
    ensures { IfOk result (λ value. view value ≡ array_data timer_data timers.now) }
{
    let mut values = Vec::with_capacity(alloc, timers.len())?;
    for timer in timers {
        push_timer(alloc, &mut values, *timer)?;
    }
    Ok(Value::Array(values))
}

// Appends a timer.
fn push_timer(alloc: Global, values: &mut Vec<Value>, timer: Timer) -> Result<(), NoMemory>
    ensures { OnOk result (map view values.new.items
        ≡ map view values.old.items ++ timer_data timer ∷ []) }
{
    let mut members = Map::new(alloc);
    put_number(alloc, &mut members, "tag", u64::from(timer.tag))?;
    put_number(alloc, &mut members, "time", timer.time)?;
    values.push(Value::Object(members))?;
    Ok(())
}
