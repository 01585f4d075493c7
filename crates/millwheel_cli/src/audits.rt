//! What is written of a printed history: how many entries it has, where it is that of a lawful run.
ghost use Rattle.std.specs.Prelude.{◌≡◌, ◌≤◌, ◌<◌, ◌^◌, length, IfErr, IfOk};
ghost use Rattle.serde_json.specs.View.{view};
ghost use Rattle.trace_lines.specs.Refusals.{IsAuditRefusal};
ghost use Rattle.millwheel_cli.specs.Audits.{CountsTrace, HoldsRun, IsCountOf, SaysWrong, entries_data, entries_line};
ghost use Rattle.millwheel_cli.specs.Reasons.{ShelfSeen, IsAuditRefused};
ghost use Rattle.millwheel_cli.specs.Inside.{IsTraceRefused, UnlessWant};

use crate::call::read_inputs;
use crate::reading::read_file;
use crate::refusal::Refusal;
use audit::{audit, refused_texts_are_of_no_run};
use command_line::{Call, Inputs};
use history_laws::case_is_runnable;
use mw_ports::Shelf;
use mw_types::{Bytes, Name, NoMemory};
use run_history::{Case, value_line};
use serde_json::{Map, Value};
use std::alloc::Global;
use trace_lines::{AuditRefusal, case_is_keyed};

// How many bytes a trace may have.
const TRACE_MAX: u64 = 1 << 28;

/// What is written of a trace: how many entries the run has whose text it is. The files of the run are
/// read first.
pub fn audited_text<S: Shelf>(
    alloc: Global,
    shelf: &mut S,
    call: &Call,
    inputs: &Inputs,
    trace: &Name,
) -> Result<Bytes, Refusal>
    requires audit { call.now ≡ Call.Audit inputs.now trace.now }

    ensures files { S.files shelf.new ≡ S.files shelf.old }
    ensures faults_later { S.faults shelf.old ≤ S.faults shelf.new }
    ensures lacks_later { S.lacks shelf.old ≤ S.lacks shelf.new }
    ensures text { IfOk result (HoldsRun (S.files shelf.old) inputs.now trace.now) }
    ensures refused { let seen : ShelfSeen = record {
      files = S.files shelf.old;
      faults = (S.faults shelf.old, S.faults shelf.new);
      lacks = (S.lacks shelf.old, S.lacks shelf.new);
    } in IfErr result (UnlessWant (IsAuditRefused seen inputs.now trace.now)) }
{
    let task = read_inputs(alloc, shelf, call, inputs)?;
    let text = trace_text(alloc, shelf, &task.case, trace);
    drop(task);
    text
}

// What is written of the trace in the file of that name, of a run of this case.
fn trace_text<S: Shelf>(
    alloc: Global,
    shelf: &mut S,
    case: &Case,
    trace: &Name,
) -> Result<Bytes, Refusal>
    ensures files { S.files shelf.new ≡ S.files shelf.old }
    ensures faults_later { S.faults shelf.old ≤ S.faults shelf.new }
    ensures lacks_later { S.lacks shelf.old ≤ S.lacks shelf.new }
    ensures text { IfOk result (CountsTrace (S.files shelf.old) trace.now case.now) }
    ensures refused { let seen : ShelfSeen = record {
      files = S.files shelf.old;
      faults = (S.faults shelf.old, S.faults shelf.new);
      lacks = (S.lacks shelf.old, S.lacks shelf.new);
    } in IfErr result (UnlessWant (IsTraceRefused seen trace.now case.now)) }
{
    let bytes = read_file(alloc, shelf, trace, TRACE_MAX)?;
    count_text(alloc, case, bytes.as_slice())
}

// What is written of a text of a run of this case.
fn count_text(alloc: Global, case: &Case, bytes: &[u8]) -> Result<Bytes, Refusal>
    requires few { length bytes.now < 2 ^ 32 }
    ensures text { IfOk result (IsCountOf case.now bytes.now) }
    ensures refused { IfErr result (UnlessWant (SaysWrong case.now bytes.now)) }
{
    match audit(alloc, case, bytes) {
        Ok(history) => Ok(entries_line(alloc, history.len() as u64)?),
        Err(refusal) => Err(refuted(case, bytes, refusal)),
    }
}

// The refusal of a text of no lawful run of this case.
fn refuted(case: &Case, bytes: &[u8], refusal: AuditRefusal) -> Refusal
    requires few { length bytes.now < 2 ^ 32 }
    requires refused { IsAuditRefusal case.now bytes.now refusal }
    ensures wrong { UnlessWant (SaysWrong case.now bytes.now) result }
{
    case_is_runnable(case);
    case_is_keyed(case);
    refused_texts_are_of_no_run();
    Refusal::from(refusal)
}

// The line that says how many entries there are.
fn entries_line(alloc: Global, entries: u64) -> Result<Bytes, NoMemory>
    ensures { IfOk result (λ line. line ≡ entries_line entries) }
{
    let value = entries_value(alloc, entries)?;
    let line = value_line(alloc, &value)?;
    Ok(Bytes::from_vec(line.into_bytes()))
}

// How many entries there are, as an object.
fn entries_value(alloc: Global, entries: u64) -> Result<Value, NoMemory>
    ensures { IfOk result (λ value. view value ≡ entries_data entries) }
{
    let mut map = Map::new(alloc);
    serde_json::put(&mut map, alloc, "entries", Value::from(entries))?;
    Ok(Value::Object(map))
}
