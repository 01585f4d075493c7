//! Of which emission a line may tell.
ghost use Rattle.std.specs.Prelude.{◌≡◌, IfOk, IfSome, IsTrue, Some, codes};
ghost use Rattle.std.specs.Option.{option_map};
ghost use Rattle.topology.specs.Rules.{is_name};
ghost use Rattle.serde_json.specs.View.{view};
ghost use Rattle.row_parts.specs.Contents.{IsId};
ghost use Rattle.mw_types.specs.Bounds.{IsKey};
ghost use Rattle.live_outlet.specs.LiveLines.{IsLive};
ghost use Rattle.live_outlet.specs.Guesses.{id_of, id_in, id_at, text_at, key_at, name_at, stamp_at, value_at, line_in, line_guessed};

use crate::line::{LiveLine, told};
use json_reading::json_of;
use mw_types::{NoMemory, RecordId, Text};
use serde_json::Value;
use std::alloc::Global;
use topology::is_name;
use uuid::Uuid;

// The version of a UUID whose content is its maker's own, in its upper half.
const VERSION_8: u64 = 0x8000;

// The variant of the UUIDs of RFC 9562, in the lower half.
const VARIANT: u64 = 1 << 63;

// The line that bytes may be.
pub(crate) fn line_guessed(alloc: Global, bytes: &[u8]) -> Result<Option<LiveLine>, NoMemory>
    ensures line { IfOk result (λ line. line ≡ line_guessed bytes.now) }
    ensures live { IfOk result (λ line. IfSome line IsLive) }
{
    match json_of(alloc, bytes)? {
        Some(value) => line_in(alloc, &value),
        None => Ok(None),
    }
}

// The line that a value may be.
fn line_in(alloc: Global, value: &Value) -> Result<Option<LiveLine>, NoMemory>
    ensures line { IfOk result (λ line. line ≡ line_in (view value.now)) }
    ensures live { IfOk result (λ line. IfSome line IsLive) }
{
    let Some(id) = id_at(value, "id") else {
        return Ok(None);
    };
    let Some(key) = key_at(value, "key") else {
        return Ok(None);
    };
    let Some(stream) = name_at(value, "stream") else {
        return Ok(None);
    };
    let Some(stamp) = stamp_at(value, "ts") else {
        return Ok(None);
    };
    let Some(found) = value_at(value, "value") else {
        return Ok(None);
    };
    line_with(alloc, id, key, stream, stamp, found)
}

// The line that tells this.
fn line_with(
    alloc: Global,
    id: RecordId,
    key: &str,
    stream: &str,
    stamp: u64,
    value: i64,
) -> Result<Option<LiveLine>, NoMemory>
    requires id { IsId id }
    requires key { IsKey key.now }
    requires stream { IsTrue (is_name stream.now) }
    ensures line { IfOk result (λ line. line ≡ Some (record
        { id = id; key = key.now; stream = stream.now; stamp = stamp; value = value })) }
    ensures live { IfOk result (λ line. IfSome line IsLive) }
{
    let key = Text::of(alloc, key)?;
    let stream = Text::of(alloc, stream)?;
    Ok(Some(told(id, key, stream, stamp, value)))
}

/// A member that is the print of an id.
pub fn id_at(value: &Value, name: &str) -> Option<RecordId>
    ensures id { result ≡ id_at name.now (view value.now) }
    ensures is_id { IfSome result IsId }
{
    id_in(text_at(value, name)?)
}

// A member that is a key.
fn key_at<'v>(value: &'v Value, name: &str) -> Option<&'v str>
    ensures key { option_map (λ text. text.now) result ≡ key_at name.now (view value.now) }
    ensures is_key { IfSome result (λ text. IsKey text.now) }
{
    let text = text_at(value, name)?;
    if text.len() > 256 { None } else { Some(text) }
}

// A member that is a stream's name.
fn name_at<'v>(value: &'v Value, name: &str) -> Option<&'v str>
    ensures name { option_map (λ text. text.now) result ≡ name_at name.now (view value.now) }
    ensures is_name { IfSome result (λ text. IsTrue (is_name text.now)) }
{
    let text = text_at(value, name)?;
    if is_name(text.as_bytes()) {
        Some(text)
    } else {
        None
    }
}

/// A member that is an unsigned number of 64 bits.
pub fn stamp_at(value: &Value, name: &str) -> Option<u64>
    ensures { result ≡ stamp_at name.now (view value.now) }
{
    value.get(name).and_then(Value::as_u64)
}

/// A member that is a signed number of 64 bits.
pub fn value_at(value: &Value, name: &str) -> Option<i64>
    ensures { result ≡ value_at name.now (view value.now) }
{
    value.get(name).and_then(Value::as_i64)
}

/// A member that is a text.
pub fn text_at<'v>(value: &'v Value, name: &str) -> Option<&'v str>
    ensures { option_map (λ text. text.now) result ≡ text_at name.now (view value.now) }
{
    value.get(name).and_then(Value::as_str)
}

/// The id of which a text may be the print: the text of a UUID that is numbered as ids are.
pub fn id_in(text: &str) -> Option<RecordId>
    ensures id { result ≡ id_in text.now }
    ensures is_id { IfSome result IsId }
{
    match Uuid::parse_str(text) {
        Ok(uuid) => id_of(uuid),
        Err(_) => None,
    }
}

// The id of a UUID.
fn id_of(uuid: Uuid) -> Option<RecordId>
    ensures id { result ≡ id_of uuid }
    ensures is_id { IfSome result IsId }
{
    let (high, low) = uuid.as_u64_pair();
    if high < VERSION_8 || high >= VERSION_8 + 512 || low < VARIANT || low >= VARIANT + (1 << 32) {
        return None;
    }
    Some(RecordId {
        commit: low - VARIANT,
        index: (high - VERSION_8) as u32,
    })
}
