//! The live lines of a file, each once.
ghost use Rattle.std.specs.Prelude.{◌≡◌, ◌≤◌, ◌<◌, ◌^◌, ◌++◌, ◌∷◌, [], length, Err, Ok, IfErr, IfOk, OnOk, string_bytes};
ghost use Rattle.serde_json.specs.View.{view};
ghost use Rattle.run_history.specs.Texts.{as_line};
ghost use Rattle.live_outlet.specs.Covering.{ended};
ghost use Rattle.millwheel_cli.specs.Limits.{collect_limit};
ghost use Rattle.millwheel_cli.specs.Collects.{HoldsLines, IsGatheredText, collect_taken, counts_data, gathered_text};
ghost use Rattle.millwheel_cli.specs.Reasons.{ShelfSeen, IsFileRefused};
ghost use Rattle.millwheel_cli.specs.Inside.{UnlessWant};

use crate::reading::read_file;
use crate::refusal::Refusal;
use live_outlet::{Collected, collect};
use mw_ports::Shelf;
use mw_types::{Bytes, Name, NoMemory};
use run_history::value_line;
use serde_json::{Map, Value};
use std::alloc::Global;

// How many bytes a text of live lines may have.
const COLLECT_MAX: u64 = 1 << 28;

/// What is written of a file of live lines: each of them once, ascending by id, and how many they are.
pub fn collected_text<S: Shelf>(alloc: Global, shelf: &mut S, name: &Name) -> Result<Bytes, Refusal>
    ensures files { S.files shelf.new ≡ S.files shelf.old }
    ensures faults_later { S.faults shelf.old ≤ S.faults shelf.new }
    ensures lacks_later { S.lacks shelf.old ≤ S.lacks shelf.new }
    ensures text { IfOk result (HoldsLines (S.files shelf.old) name.now) }
    ensures refused { let seen : ShelfSeen = record {
      files = S.files shelf.old;
      faults = (S.faults shelf.old, S.faults shelf.new);
      lacks = (S.lacks shelf.old, S.lacks shelf.new);
    } in IfErr result (UnlessWant (IsFileRefused seen name.now collect_limit collect_taken)) }
{
    let bytes = read_file(alloc, shelf, name, COLLECT_MAX)?;
    let text = taken_text(alloc, bytes.as_slice())?;
    Ok(text)
}

// What is written of a text of live lines.
fn taken_text(alloc: Global, bytes: &[u8]) -> Result<Bytes, Refusal>
    requires few { length bytes.now < 2 ^ 32 }
    ensures taken { OnOk result (collect_taken bytes.now ≡ Ok bytes.now) }
    ensures text { IfOk result (IsGatheredText bytes.now) }
    ensures refused { IfErr result
        (UnlessWant (λ status. collect_taken bytes.now ≡ Err status)) }
{
    let collected = collect(alloc, bytes)?;
    let text = gathered_text(alloc, &collected)?;
    Ok(text)
}

// The live lines of a text, and the line that counts them and the others.
fn gathered_text(alloc: Global, collected: &Collected) -> Result<Bytes, NoMemory>
    ensures { IfOk result (λ text. text ≡ gathered_text collected.now.lines collected.now.other) }
{
    let lines = collected.lines.as_slice();
    let mut text = lines_text(alloc, lines)?;
    let counts = counts_line(alloc, lines.len() as u64, collected.other)?;
    text.extend_from_slice(counts.as_bytes())?;
    Ok(Bytes::from_vec(text))
}

// Lines, each with its LF.
fn lines_text(alloc: Global, lines: &[Bytes]) -> Result<Vec<u8>, NoMemory>
    ensures { IfOk result (λ text. text.items ≡ ended lines.now) }
{
    let mut text = Vec::new(alloc);
    for line in lines {
        write_line(&mut text, line.as_slice())?;
    }
    Ok(text)
}

// Appends a line, with its LF.
fn write_line(text: &mut Vec<u8>, line: &[u8]) -> Result<(), NoMemory>
    ensures { OnOk result (text.new.items ≡ text.old.items ++ (line.now ++ 10 ∷ [])) }
{
    text.extend_from_slice(line)?;
    text.push(b'\n')?;
    Ok(())
}

// The line that counts live lines and others.
fn counts_line(alloc: Global, lines: u64, other: u32) -> Result<String, NoMemory>
    ensures { IfOk result (λ line. string_bytes line ≡ as_line (counts_data lines other)) }
{
    let counts = counts(alloc, lines, other)?;
    value_line(alloc, &counts)
}

// These counts, as an object.
fn counts(alloc: Global, lines: u64, other: u32) -> Result<Value, NoMemory>
    ensures { IfOk result (λ value. view value ≡ counts_data lines other) }
{
    let mut map = Map::new(alloc);
    serde_json::put(&mut map, alloc, "lines", Value::from(lines))?;
    serde_json::put(&mut map, alloc, "other", Value::from(u64::from(other)))?;
    Ok(Value::Object(map))
}
