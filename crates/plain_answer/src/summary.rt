//! The numbers of the plain text's last line.
ghost use Rattle.std.specs.Prelude.{◌≡◌, ◌+◌, ◌<◌, [], length, count_by, take, string_bytes, IfOk, OnOk};
ghost use Rattle.injector.specs.Sources.{SourceLine};
ghost use Rattle.run_history.specs.Texts.{as_line};
ghost use Rattle.plain_answer.specs.Plain.{fired_of, handled_of, injected_count, late_count, plain_summary};
ghost use Rattle.plain_answer.specs.Sends.{ArePlain, AreRead};
ghost use Rattle.serde_json.specs.Data.{number, object, put, unsigned};
ghost use Rattle.serde_json.specs.View.{members_view, view};

use crate::given::added;
use crate::streams::Sent;
use injector::Items;
use mw_types::NoMemory;
use run_history::{Case, value_line};
use serde_json::{Map, Value};
use std::alloc::Global;

// The last line of the text, with its LF.
pub(crate) fn summary_line(alloc: Global, case: &Case, all: &Sent) -> Result<String, NoMemory>
    requires plain { ArePlain case.now all.now.streams.items }
    requires read { AreRead case.now.topology all.now.streams.items all.now.reads.items }
    requires fired { all.now.fired ≡ fired_of case.now }
    ensures { IfOk result (λ text. string_bytes text ≡ as_line (plain_summary case.now)) }
{
    let value = summary(alloc, case, all)?;
    value_line(alloc, &value)
}

// The numbers of the line, as an object.
fn summary(alloc: Global, case: &Case, all: &Sent) -> Result<Value, NoMemory>
    requires plain { ArePlain case.now all.now.streams.items }
    requires read { AreRead case.now.topology all.now.streams.items all.now.reads.items }
    requires fired { all.now.fired ≡ fired_of case.now }
    ensures { IfOk result (λ value. view value ≡ plain_summary case.now) }
{
    let mut map = Map::new(alloc);
    put_numbers(alloc, &mut map, case, all)?;
    Ok(Value::Object(map))
}

// Puts the numbers into an object that has nothing yet.
fn put_numbers(
    alloc: Global,
    map: &mut Map<String, Value>,
    case: &Case,
    all: &Sent,
) -> Result<(), NoMemory>
    requires empty { map.old.entries ≡ [] }
    requires plain { ArePlain case.now all.now.streams.items }
    requires read { AreRead case.now.topology all.now.streams.items all.now.reads.items }
    requires fired { all.now.fired ≡ fired_of case.now }
    ensures { OnOk result (object (members_view map.new.entries) ≡ plain_summary case.now) }
{
    put_number(alloc, map, "fired", all.fired)?;
    put_number(alloc, map, "handled", handled(case, all)?)?;
    put_number(alloc, map, "injected", injected_number(case)?)?;
    put_number(alloc, map, "late", late_number(case)?)
}

// Puts a number under a name.
fn put_number(
    alloc: Global,
    map: &mut Map<String, Value>,
    name: &str,
    value: u64,
) -> Result<(), NoMemory>
    ensures { OnOk result (members_view map.new.entries
        ≡ put name.now (number (unsigned value)) (members_view map.old.entries)) }
{
    serde_json::put(map, alloc, name, Value::from(value))?;
    Ok(())
}

// How many records are handled.
fn handled(case: &Case, all: &Sent) -> Result<u64, NoMemory>
    requires plain { ArePlain case.now all.now.streams.items }
    requires read { AreRead case.now.topology all.now.streams.items all.now.reads.items }
    ensures { IfOk result (λ n. n ≡ handled_of case.now) }
{
    let mut sum = 0;
    for part in case.topology.injectors()..case.topology.parts() {
        sum = added(sum, all.reads[part as usize].len() as u64)?;
    }
    Ok(sum)
}

// How many records the files have.
fn injected_number(case: &Case) -> Result<u64, NoMemory>
    ensures { IfOk result (λ n. n ≡ injected_count case.now) }
{
    let sources = case.items.as_slice();
    let mut sum = 0;
    for source in sources {
        sum = added(sum, source.count() as u64)?;
    }
    Ok(sum)
}

// How many records of the files are late.
fn late_number(case: &Case) -> Result<u64, NoMemory>
    ensures { IfOk result (λ n. n ≡ late_count case.now) }
{
    let sources = case.items.as_slice();
    let mut sum = 0;
    for source in sources {
        sum = added(sum, late_in(source)?)?;
    }
    Ok(sum)
}

// How many records of a file are late.
fn late_in(source: &Items) -> Result<u64, NoMemory>
    ensures { IfOk result (λ n. n ≡ count_by (λ (l : SourceLine). l.item.late) source.now) }
{
    let mut sum = 0;
    for line in 0..source.count() {
        sum = added(sum, late_at(source, line))?;
    }
    Ok(sum)
}

// How many records more are late with this line: one or none.
fn late_at(source: &Items, line: u32) -> u64
    requires { line < length source.now }
    ensures { count_by (λ (l : SourceLine). l.item.late) (take (line + 1) source.now)
        ≡ count_by (λ (l : SourceLine). l.item.late) (take line source.now) + result }
{
    u64::from(source.at(line).late)
}
