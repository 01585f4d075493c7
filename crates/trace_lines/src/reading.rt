//! What a line tells of the choice of its entry.
ghost use Rattle.std.specs.Prelude.{◌≡◌, IfOk, IfSome};
ghost use Rattle.serde_json.specs.View.{view};
ghost use Rattle.live_outlet.specs.Guesses.{key_of, key_at};
ghost use Rattle.trace_lines.specs.Choices.{short_of, short_at, row_in, claim_in, inject_in, handle_in, fire_in, ack_in, purge_in, choice_named, choice_in, choice_at};

use crate::choice::Choice;
use json_reading::json_of;
use live_outlet::{id_at, stamp_at, text_at};
use mw_types::{Key, KeyRefusal, NoMemory, RowName};
use serde_json::Value;
use std::alloc::Global;

/// The choice that a line tells, which is that of its entry where it is the line of one. Of other
/// lines it tells one too, or none; whether the line is that of the entry is not looked at.
pub fn choice_at(alloc: Global, line: &[u8]) -> Result<Option<Choice>, NoMemory>
    ensures told { IfOk result (λ choice. choice ≡ choice_at line.now) }
{
    match json_of(alloc, line)? {
        Some(value) => choice_in(alloc, &value),
        None => Ok(None),
    }
}

// The choice that a value tells.
fn choice_in(alloc: Global, value: &Value) -> Result<Option<Choice>, NoMemory>
    ensures { IfOk result (λ choice. choice ≡ choice_in (view value.now)) }
{
    match text_at(value, "do") {
        Some(kind) => choice_named(alloc, kind, value),
        None => Ok(None),
    }
}

// The choice of an entry of this kind.
fn choice_named(alloc: Global, kind: &str, value: &Value) -> Result<Option<Choice>, NoMemory>
    ensures { IfOk result (λ choice. choice ≡ choice_named kind.now (view value.now)) }
{
    match kind {
        "claim" => Ok(claim_in(value)),
        "inject" => Ok(inject_in(value)),
        "handle" => Ok(handle_in(value)),
        "fire" => fire_in(alloc, value),
        "ack" => ack_in(alloc, value),
        "purge" => purge_in(alloc, value),
        _ => Ok(None),
    }
}

// The choice of a claim.
fn claim_in(value: &Value) -> Option<Choice>
    ensures { result ≡ claim_in (view value.now) }
{
    let worker = short_at(value, "worker")?;
    let interval = short_at(value, "interval")?;
    Some(Choice::Claim { worker, interval })
}

// The choice of an injected line.
fn inject_in(value: &Value) -> Option<Choice>
    ensures { result ≡ inject_in (view value.now) }
{
    let part = short_at(value, "part")?;
    Some(Choice::Inject { part })
}

// The choice of a handled record.
fn handle_in(value: &Value) -> Option<Choice>
    ensures { result ≡ handle_in (view value.now) }
{
    let id = id_at(value, "id")?;
    Some(Choice::Handle { id })
}

// The choice of a fired timer.
fn fire_in(alloc: Global, value: &Value) -> Result<Option<Choice>, NoMemory>
    ensures { IfOk result (λ choice. choice ≡ fire_in (view value.now)) }
{
    let Some(mark) = stamp_at(value, "mark") else {
        return Ok(None);
    };
    match row_in(alloc, value)? {
        Some(row) => Ok(Some(Choice::Fire { row, mark })),
        None => Ok(None),
    }
}

// The choice of an acknowledgement.
fn ack_in(alloc: Global, value: &Value) -> Result<Option<Choice>, NoMemory>
    ensures { IfOk result (λ choice. choice ≡ ack_in (view value.now)) }
{
    let Some(id) = id_at(value, "id") else {
        return Ok(None);
    };
    match row_in(alloc, value)? {
        Some(row) => Ok(Some(Choice::Ack { row, id })),
        None => Ok(None),
    }
}

// The choice of a purge.
fn purge_in(alloc: Global, value: &Value) -> Result<Option<Choice>, NoMemory>
    ensures { IfOk result (λ choice. choice ≡ purge_in (view value.now)) }
{
    let Some(floor) = stamp_at(value, "floor") else {
        return Ok(None);
    };
    match row_in(alloc, value)? {
        Some(row) => Ok(Some(Choice::Purge { row, floor })),
        None => Ok(None),
    }
}

// The row that a value names.
fn row_in(alloc: Global, value: &Value) -> Result<Option<RowName>, NoMemory>
    ensures { IfOk result (λ row. row ≡ row_in (view value.now)) }
{
    let Some(part) = short_at(value, "part") else {
        return Ok(None);
    };
    match key_at(alloc, value, "row")? {
        Some(key) => Ok(Some(RowName { part, key })),
        None => Ok(None),
    }
}

// A member that is a key.
fn key_at(alloc: Global, value: &Value, name: &str) -> Result<Option<Key>, NoMemory>
    ensures { IfOk result (λ key. key ≡ key_at name.now (view value.now)) }
{
    match text_at(value, name) {
        Some(text) => key_of(alloc, text),
        None => Ok(None),
    }
}

/// A text as a key, which may be empty; none where it is longer than keys are.
pub fn key_of(alloc: Global, text: &str) -> Result<Option<Key>, NoMemory>
    ensures { IfOk result (λ key. key ≡ key_of text.now) }
{
    if text.is_empty() {
        return Ok(Some(Key::none(alloc)));
    }
    match Key::of(alloc, text) {
        Ok(key) => Ok(Some(key)),
        Err(KeyRefusal::BadLength) => Ok(None),
        Err(KeyRefusal::NoMemory) => Err(NoMemory),
    }
}

// A member that is an unsigned number of 32 bits.
fn short_at(value: &Value, name: &str) -> Option<u32>
    ensures { result ≡ short_at name.now (view value.now) }
{
    let number = stamp_at(value, name)?;
    u32::try_from(number).ok()
}
