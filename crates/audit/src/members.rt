//! The members of a value, as an entry has them.
ghost use Rattle.std.specs.Prelude.{◌≡◌, ◌<◌, ◌≤◌, ◌^◌, IfOk, IfSome, FitsSigned};
ghost use Rattle.std.specs.Int.{w64};
ghost use Rattle.std.specs.Option.{option_map};
ghost use Rattle.serde_json.specs.View.{items_view, view};
ghost use Rattle.mw_types.specs.declared.TheConstants.{MAX_STAMP};
ghost use Rattle.topology.specs.Grammar.{array_in};
ghost use Rattle.row_parts.specs.Contents.{IsId};
ghost use Rattle.mw_types.specs.Bounds.{IsKey};
ghost use Rattle.live_outlet.specs.Guesses.{id_at, key_at, key_of, stamp_at, value_at};
ghost use Rattle.trace_lines.specs.Choices.{row_in, short_at};
ghost use Rattle.trace_lines.specs.Entries.{IsRowName};
ghost use Rattle.audit.specs.Guesses.{Gives, flag_at, time_at};

use crate::unlike::Unlike;
use live_outlet::{stamp_at, text_at};
use mw_types::{Key, KeyRefusal, MAX_STAMP, RecordId, RowName};
use serde_json::Value;
use std::alloc::Global;

// The items of the array that a member is.
pub(crate) fn array_in<'v>(value: &'v Value, name: &str) -> Option<&'v [Value]>
    ensures { option_map (λ xs. items_view xs.now) result ≡ array_in name.now (view value.now) }
{
    match value.get(name)?.as_array() {
        Some(items) => Some(items.as_slice()),
        None => None,
    }
}

// A member that is an unsigned number of 64 bits.
pub(crate) fn number_at(value: &Value, name: &str) -> Result<u64, Unlike>
    ensures { Gives result (stamp_at name.now (view value.now)) }
{
    match stamp_at(value, name) {
        Some(number) => Ok(number),
        None => Err(Unlike::NoEntry),
    }
}

// A member that is an unsigned number of 32 bits.
pub(crate) fn short_at(value: &Value, name: &str) -> Result<u32, Unlike>
    ensures { Gives result (short_at name.now (view value.now)) }
{
    let number = number_at(value, name)?;
    if number < 1 << 32 {
        Ok(number as u32)
    } else {
        Err(Unlike::NoEntry)
    }
}

// A member that is a timestamp inside a run.
pub(crate) fn time_at(value: &Value, name: &str) -> Result<u64, Unlike>
    ensures told { Gives result (time_at name.now (view value.now)) }
    ensures in_time { IfOk result (λ time. time ≤ MAX_STAMP) }
{
    let time = number_at(value, name)?;
    if time <= MAX_STAMP {
        Ok(time)
    } else {
        Err(Unlike::NoEntry)
    }
}

// A member that is a signed number of 64 bits.
pub(crate) fn value_at(value: &Value, name: &str) -> Result<i64, Unlike>
    ensures { Gives result (value_at name.now (view value.now)) }
{
    match live_outlet::value_at(value, name) {
        Some(number) => Ok(number),
        None => Err(Unlike::NoEntry),
    }
}

// A member that is a truth value.
pub(crate) fn flag_at(value: &Value, name: &str) -> Result<bool, Unlike>
    ensures { Gives result (flag_at name.now (view value.now)) }
{
    match value.get(name).and_then(Value::as_bool) {
        Some(flag) => Ok(flag),
        None => Err(Unlike::NoEntry),
    }
}

// The row that a value names.
pub(crate) fn row_in(alloc: Global, value: &Value) -> Result<RowName, Unlike>
    ensures told { Gives result (row_in (view value.now)) }
    ensures is { IfOk result IsRowName }
{
    let part = short_at(value, "part")?;
    let key = key_at(alloc, value, "row")?;
    Ok(RowName { part, key })
}

// A member that is a key, which may be empty.
pub(crate) fn key_at(alloc: Global, value: &Value, name: &str) -> Result<Key, Unlike>
    ensures told { Gives result (key_at name.now (view value.now)) }
    ensures is { IfOk result IsKey }
{
    match text_at(value, name) {
        Some(text) => key_of(alloc, text),
        None => Err(Unlike::NoEntry),
    }
}

// A text as a key.
fn key_of(alloc: Global, text: &str) -> Result<Key, Unlike>
    ensures told { Gives result (key_of text.now) }
    ensures is { IfOk result IsKey }
{
    if text.is_empty() {
        return Ok(Key::none(alloc));
    }
    match Key::of(alloc, text) {
        Ok(key) => Ok(key),
        Err(KeyRefusal::BadLength) => Err(Unlike::NoEntry),
        Err(KeyRefusal::NoMemory) => Err(Unlike::NoMemory),
    }
}

// A member that is an id.
pub(crate) fn id_at(value: &Value, name: &str) -> Result<RecordId, Unlike>
    ensures told { Gives result (id_at name.now (view value.now)) }
    ensures is { IfOk result IsId }
{
    match live_outlet::id_at(value, name) {
        Some(id) => Ok(id),
        None => Err(Unlike::NoEntry),
    }
}
