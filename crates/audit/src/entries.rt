//! Which entry a value may be of.
ghost use Rattle.std.specs.Prelude.{IfOk};
ghost use Rattle.serde_json.specs.View.{view};
ghost use Rattle.trace_lines.specs.Entries.{IsEntry};
ghost use Rattle.audit.specs.Guesses.{Gives, entry_in, entry_named, claim_in, inject_in, handle_in, fire_in, ack_in, purge_in};

use crate::members::{id_at, number_at, row_in, short_at};
use crate::parts::{effects_in, fired_in, item_in, outcome_in};
use crate::unlike::Unlike;
use live_outlet::text_at;
use mw_types::{Entry, Seq};
use serde_json::Value;
use std::alloc::Global;

// The entry that a value may be of.
pub(crate) fn entry_in(alloc: Global, value: &Value) -> Result<Entry, Unlike>
    ensures told { Gives result (entry_in (view value.now)) }
    ensures is { IfOk result IsEntry }
{
    match text_at(value, "do") {
        Some(kind) => entry_named(alloc, kind, value),
        None => Err(Unlike::NoEntry),
    }
}

// The entry of this kind.
fn entry_named(alloc: Global, kind: &str, value: &Value) -> Result<Entry, Unlike>
    ensures told { Gives result (entry_named kind.now (view value.now)) }
    ensures is { IfOk result IsEntry }
{
    match kind {
        "claim" => claim_in(value),
        "inject" => inject_in(alloc, value),
        "handle" => handle_in(alloc, value),
        "fire" => fire_in(alloc, value),
        "ack" => ack_in(alloc, value),
        "purge" => purge_in(alloc, value),
        _ => Err(Unlike::NoEntry),
    }
}

// A claim.
fn claim_in(value: &Value) -> Result<Entry, Unlike>
    ensures told { Gives result (claim_in (view value.now)) }
    ensures is { IfOk result IsEntry }
{
    let worker = short_at(value, "worker")?;
    let interval = short_at(value, "interval")?;
    Ok(Entry::Claim { worker, interval })
}

// An injected line.
fn inject_in(alloc: Global, value: &Value) -> Result<Entry, Unlike>
    ensures told { Gives result (inject_in (view value.now)) }
    ensures is { IfOk result IsEntry }
{
    let seq = number_at(value, "seq")?;
    let part = short_at(value, "part")?;
    let line = short_at(value, "line")?;
    let item = item_in(alloc, value)?;
    Ok(Entry::Inject {
        seq,
        part,
        line,
        item,
    })
}

// A handled record.
fn handle_in(alloc: Global, value: &Value) -> Result<Entry, Unlike>
    ensures told { Gives result (handle_in (view value.now)) }
    ensures is { IfOk result IsEntry }
{
    let seq = number_at(value, "seq")?;
    let id = id_at(value, "id")?;
    let row = row_in(alloc, value)?;
    let effects = outcome_in(alloc, value)?;
    Ok(Entry::Handle {
        seq,
        row,
        id,
        effects,
    })
}

// A fired timer.
fn fire_in(alloc: Global, value: &Value) -> Result<Entry, Unlike>
    ensures told { Gives result (fire_in (view value.now)) }
    ensures is { IfOk result IsEntry }
{
    let seq = number_at(value, "seq")?;
    let mark = number_at(value, "mark")?;
    let timer = fired_in(value)?;
    let row = row_in(alloc, value)?;
    let effects = effects_in(alloc, value, Seq::new(alloc))?;
    Ok(Entry::Fire {
        seq,
        row,
        timer,
        mark,
        effects,
    })
}

// An acknowledgement.
fn ack_in(alloc: Global, value: &Value) -> Result<Entry, Unlike>
    ensures told { Gives result (ack_in (view value.now)) }
    ensures is { IfOk result IsEntry }
{
    let seq = number_at(value, "seq")?;
    let id = id_at(value, "id")?;
    let row = row_in(alloc, value)?;
    Ok(Entry::Ack { seq, row, id })
}

// A purge.
fn purge_in(alloc: Global, value: &Value) -> Result<Entry, Unlike>
    ensures told { Gives result (purge_in (view value.now)) }
    ensures is { IfOk result IsEntry }
{
    let seq = number_at(value, "seq")?;
    let floor = number_at(value, "floor")?;
    let row = row_in(alloc, value)?;
    Ok(Entry::Purge { seq, row, floor })
}
