//! What one line of an event file says.
ghost use Rattle.std.specs.Prelude.{◌≡◌, ◌≤◌, codes, IfOk, IfSome};
ghost use Rattle.mw_types.specs.declared.TheConstants.{INPUT_MAX};
ghost use Rattle.std.specs.Option.{option_map, ok_or};
ghost use Rattle.serde_json.specs.Data.{Data};
ghost use Rattle.serde_json.specs.Find.{get};
ghost use Rattle.serde_json.specs.View.{view};
ghost use Rattle.injector.specs.EventLines.{is_blank, as_stamp, as_value, key_in, stamp_in, value_in, record_in, watermark_in, object_reading, data_reading, line_reading};
ghost use Rattle.injector.specs.Answers.{Gives, IsInput};

use crate::refusal::{LineRefusal, LineWhy};
use crate::short_form::short_reading;
use json_reading::json_of;
use mw_types::{INPUT_MAX, Key, KeyRefusal};
use serde_json::Value;
use std::alloc::Global;

/// What a line says.
#[derive(Drop)]
pub enum LineKind {
    /// Nothing.
    Blank,
    /// The least timestamp that is still to come, as the file declares it.
    Watermark {
        /// The watermark.
        stamp: u64,
    },
    /// A record.
    Record {
        /// The record's key.
        record_key: Key,
        /// Its timestamp.
        stamp: u64,
        /// Its value.
        value: i64,
    },
}

// Whether the line has spaces and tabs alone.
fn is_blank(line: &[u8]) -> bool
    ensures { result ≡ is_blank line.now }
{
    line.iter().all(|b| *b == b' ' || *b == b'\t')
}

// The timestamp that a value is.
fn as_stamp(value: &Value) -> Option<u64>
    ensures value { result ≡ as_stamp (view value.now) }
    ensures bounded { IfSome result (λ stamp. stamp ≤ INPUT_MAX) }
{
    let stamp = value.as_u64()?;
    if stamp <= INPUT_MAX {
        Some(stamp)
    } else {
        None
    }
}

// The record's key.
fn key_in(alloc: Global, line: &Value) -> Result<Key, LineRefusal>
    ensures { Gives result (key_in (view line.now)) }
{
    let Some(text) = line.get("key").and_then(Value::as_str) else {
        return Err(LineRefusal::Breaks(LineWhy::BadKey));
    };
    match Key::of(alloc, text) {
        Ok(key) => Ok(key),
        Err(KeyRefusal::BadLength) => Err(LineRefusal::Breaks(LineWhy::BadKey)),
        Err(KeyRefusal::NoMemory) => Err(LineRefusal::NoMemory),
    }
}

// The record's timestamp.
fn stamp_in(line: &Value) -> Result<u64, LineWhy>
    ensures value { result ≡ stamp_in (view line.now) }
    ensures bounded { IfOk result (λ stamp. stamp ≤ INPUT_MAX) }
{
    match line.get("ts") {
        Some(value) => as_stamp(value).ok_or(LineWhy::BadStamp),
        None => Err(LineWhy::BadStamp),
    }
}

// The record's value, which is 1 where the line has none.
fn value_in(line: &Value) -> Result<i64, LineWhy>
    ensures { result ≡ value_in (view line.now) }
{
    match line.get("value") {
        Some(value) => value.as_i64().ok_or(LineWhy::BadValue),
        None => Ok(1),
    }
}

// The record of a line that has no watermark.
fn record_in(alloc: Global, line: &Value) -> Result<LineKind, LineRefusal>
    ensures reading { Gives result (record_in (view line.now)) }
    ensures bounded { IfOk result IsInput }
{
    let record_key = key_in(alloc, line)?;
    let stamp = stamp_in(line)?;
    let value = value_in(line)?;
    Ok(LineKind::Record {
        record_key,
        stamp,
        value,
    })
}

// The watermark that a member is.
fn watermark_in(value: &Value) -> Result<LineKind, LineWhy>
    ensures reading { result ≡ watermark_in (view value.now) }
    ensures bounded { IfOk result IsInput }
{
    let stamp = as_stamp(value).ok_or(LineWhy::BadStamp)?;
    Ok(LineKind::Watermark { stamp })
}

// What an object says.
fn object_reading(alloc: Global, line: &Value) -> Result<LineKind, LineRefusal>
    ensures reading { Gives result (object_reading (view line.now)) }
    ensures bounded { IfOk result IsInput }
{
    match line.get("watermark") {
        Some(value) => Ok(watermark_in(value)?),
        None => record_in(alloc, line),
    }
}

// What a value says, which has to be an object.
fn data_reading(alloc: Global, line: &Value) -> Result<LineKind, LineRefusal>
    ensures reading { Gives result (data_reading (view line.now)) }
    ensures bounded { IfOk result IsInput }
{
    if !line.is_object() {
        return Err(LineRefusal::Breaks(LineWhy::NotObject));
    }
    object_reading(alloc, line)
}

// What a line says in whatever spelling.
fn any_reading(alloc: Global, line: &[u8]) -> Result<LineKind, LineRefusal>
    ensures reading { Gives result (line_reading line.now) }
    ensures bounded { IfOk result IsInput }
{
    if is_blank(line) {
        return Ok(LineKind::Blank);
    }
    let Some(value) = json_of(alloc, line)? else {
        return Err(LineRefusal::Breaks(LineWhy::NotJson));
    };
    data_reading(alloc, &value)
}

/// What a line says, or the first rule that it breaks.
pub fn line_reading(alloc: Global, line: &[u8]) -> Result<LineKind, LineRefusal>
    ensures reading { Gives result (line_reading line.now) }
    ensures bounded { IfOk result IsInput }
{
    // Most lines are in the short form, and a JSON reader takes several times as long for them.
    match short_reading(alloc, line)? {
        Some(kind) => Ok(kind),
        None => any_reading(alloc, line),
    }
}
