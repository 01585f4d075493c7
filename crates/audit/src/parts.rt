//! The parts of an entry that a value may have.
ghost use Rattle.std.specs.Prelude.{◌<◌, ◌≤◌, ◌^◌, All, IfOk, codes};
ghost use Rattle.serde_json.specs.View.{items_view, view};
ghost use Rattle.mw_types.specs.declared.TheConstants.{MAX_STAMP};
ghost use Rattle.mw_types.specs.declared.timer.Timer.{Timer as Set};
ghost use Rattle.mw_types.specs.declared.record.Production.{Production as Made};
ghost use Rattle.topology.specs.Grammar.{each_of, list_in};
ghost use Rattle.row_parts.specs.Reading.{whole_state};
ghost use Rattle.row_parts.specs.Spelling.{IsSpelledState};
ghost use Rattle.hex.specs.Hex.{decode_of};
ghost use Rattle.trace_lines.specs.Entries.{IsOutcome, IsProduction, IsRecord};
ghost use Rattle.audit.specs.Guesses.{Gives, effects_in, fired_in, found_in, item_in, outcome_in, production_in, state_in, timer_in};

use crate::members::{array_in, flag_at, key_at, number_at, time_at, value_at};
use crate::unlike::Unlike;
use hex::FromHexError;
use live_outlet::text_at;
use mw_types::{Bytes, Effects, Production, ProductionList, Record, Seq, State, Timer, TimerList};
use row_parts::{StateRefusal, read_state};
use serde_json::Value;
use std::alloc::Global;

// A record.
pub(crate) fn item_in(alloc: Global, value: &Value) -> Result<Record, Unlike>
    ensures told { Gives result (item_in (view value.now)) }
    ensures is { IfOk result IsRecord }
{
    let stamp = number_at(value, "ts")?;
    let found = value_at(value, "value")?;
    let late = flag_at(value, "late")?;
    let key = key_at(alloc, value, "key")?;
    Ok(Record {
        key,
        stamp,
        value: found,
        late,
    })
}

// A timer that fired.
pub(crate) fn fired_in(value: &Value) -> Result<Timer, Unlike>
    ensures told { Gives result (fired_in (view value.now)) }
    ensures tag { IfOk result (λ (t : Set). t.tag < 2 ^ 64) }
    ensures time { IfOk result (λ (t : Set). t.time < 2 ^ 64) }
{
    let tag = number_at(value, "tag")?;
    let time = number_at(value, "time")?;
    let late = flag_at(value, "late")?;
    Ok(Timer { tag, time, late })
}

// What a handler left of a record.
pub(crate) fn outcome_in(alloc: Global, value: &Value) -> Result<Effects, Unlike>
    ensures told { Gives result (outcome_in (view value.now)) }
    ensures is { IfOk result IsOutcome }
{
    let timers = timers_at(alloc, value)?;
    effects_in(alloc, value, timers)
}

// What a handler left, with these timers.
pub(crate) fn effects_in(alloc: Global, value: &Value, timers: TimerList) -> Result<Effects, Unlike>
    requires times { All (λ (t : Set). t.time ≤ MAX_STAMP) timers }
    requires tags { All (λ (t : Set). t.tag < 2 ^ 64) timers }
    ensures told { Gives result (effects_in timers (view value.now)) }
    ensures is { IfOk result IsOutcome }
{
    let state = state_in(alloc, value)?;
    let productions = productions_at(alloc, value)?;
    Ok(Effects {
        state,
        timers,
        productions,
    })
}

// The timers that a value has.
fn timers_at(alloc: Global, value: &Value) -> Result<TimerList, Unlike>
    ensures told { Gives result (list_in timer_in (codes "timers") (view value.now)) }
    ensures times { IfOk result (All (λ (t : Set). t.time ≤ MAX_STAMP)) }
    ensures tags { IfOk result (All (λ (t : Set). t.tag < 2 ^ 64)) }
{
    match array_in(value, "timers") {
        Some(values) => timers_in(alloc, values),
        None => Err(Unlike::NoEntry),
    }
}

// The timers that these values are.
fn timers_in(alloc: Global, values: &[Value]) -> Result<TimerList, Unlike>
    ensures told { Gives result (each_of timer_in (items_view values.now)) }
    ensures times { IfOk result (All (λ (t : Set). t.time ≤ MAX_STAMP)) }
    ensures tags { IfOk result (All (λ (t : Set). t.tag < 2 ^ 64)) }
{
    let mut found = Seq::new(alloc);
    for value in values {
        found.push(timer_in(value)?)?;
    }
    Ok(found)
}

// A timer that was set.
fn timer_in(value: &Value) -> Result<Timer, Unlike>
    ensures told { Gives result (timer_in (view value.now)) }
    ensures time { IfOk result (λ (t : Set). t.time ≤ MAX_STAMP) }
    ensures tag { IfOk result (λ (t : Set). t.tag < 2 ^ 64) }
{
    let tag = number_at(value, "tag")?;
    let time = time_at(value, "time")?;
    let late = false;
    Ok(Timer { tag, time, late })
}

// The productions that a value has.
fn productions_at(alloc: Global, value: &Value) -> Result<ProductionList, Unlike>
    ensures told { Gives result (list_in production_in (codes "out") (view value.now)) }
    ensures stamps { IfOk result (All (λ (p : Made). p.stamp ≤ MAX_STAMP)) }
    ensures each { IfOk result (All IsProduction) }
{
    match array_in(value, "out") {
        Some(values) => productions_in(alloc, values),
        None => Err(Unlike::NoEntry),
    }
}

// The productions that these values are.
fn productions_in(alloc: Global, values: &[Value]) -> Result<ProductionList, Unlike>
    ensures told { Gives result (each_of production_in (items_view values.now)) }
    ensures stamps { IfOk result (All (λ (p : Made). p.stamp ≤ MAX_STAMP)) }
    ensures each { IfOk result (All IsProduction) }
{
    let mut found = Seq::new(alloc);
    for value in values {
        found.push(production_in(alloc, value)?)?;
    }
    Ok(found)
}

// A production.
fn production_in(alloc: Global, value: &Value) -> Result<Production, Unlike>
    ensures told { Gives result (production_in (view value.now)) }
    ensures stamp { IfOk result (λ (p : Made). p.stamp ≤ MAX_STAMP) }
    ensures is { IfOk result IsProduction }
{
    let stamp = time_at(value, "ts")?;
    let found = value_at(value, "value")?;
    let key = key_at(alloc, value, "key")?;
    Ok(Production {
        key,
        stamp,
        value: found,
    })
}

// The state whose bytes a value has in hexadecimal.
fn state_in(alloc: Global, value: &Value) -> Result<State, Unlike>
    ensures told { Gives result (state_in (view value.now)) }
    ensures is { IfOk result IsSpelledState }
{
    match text_at(value, "state") {
        Some(text) => state_of(alloc, bytes_of(alloc, text)?.as_slice()),
        None => Err(Unlike::NoEntry),
    }
}

// The bytes that a text has in hexadecimal.
fn bytes_of(alloc: Global, text: &str) -> Result<Bytes, Unlike>
    ensures { Gives result (found_in (decode_of text.now)) }
{
    match hex::decode(alloc, text) {
        Ok(bytes) => Ok(Bytes::from_vec(bytes)),
        Err(FromHexError::OutOfMemory) => Err(Unlike::NoMemory),
        Err(_) => Err(Unlike::NoEntry),
    }
}

// The state whose bytes these are.
fn state_of(alloc: Global, bytes: &[u8]) -> Result<State, Unlike>
    ensures told { Gives result (whole_state bytes.now) }
    ensures is { IfOk result IsSpelledState }
{
    match read_state(alloc, bytes) {
        Ok(state) => Ok(state),
        Err(StateRefusal::Damaged) => Err(Unlike::NoEntry),
        Err(StateRefusal::NoMemory) => Err(Unlike::NoMemory),
    }
}
