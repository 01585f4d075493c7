//! The text that is written of a history.
ghost use Rattle.std.specs.Prelude.{◌≡◌, ◌++◌, ◌<◌, [], All, map, IfOk, OnOk, false, string_bytes};
ghost use Rattle.std.specs.List.{flat_map};
ghost use Rattle.std.specs.List.Sorted.{IsPermutation, IsSorted};
ghost use Rattle.topology.specs.Shapes.{parts_of};
ghost use Rattle.run_history.specs.Runs.{run_of};
ghost use Rattle.run_history.specs.Texts.{line_of, line_cmp, line_data, as_line, summary_data, IsResultText};
ghost use Rattle.run_history.specs.Printing.{IsPrintable};
ghost use Rattle.serde_json.specs.View.{view};
ghost use Rattle.serde_json.specs.Written.{has_float};

use crate::case::Case;
use crate::emitted::emissions;
use crate::history::History;
use crate::line::ResultLine;
use crate::summary::summary_line;
use mw_types::{Bytes, Duplicate, Emission, Name, NoMemory};
use serde_json::Value;
use std::alloc::Global;
use topology::Topology;

// Room for a line of the usual length. A text that begins with it grows to powers of two.
pub(crate) const LINE_ROOM: usize = 128;

/// The result of a history: its emissions as sorted lines, and a summary line.
pub fn result_text(alloc: Global, case: &Case, history: &History) -> Result<Bytes, NoMemory>
    requires printable { IsPrintable case.now.topology history.now }

    ensures written { IfOk result (λ text. IsResultText case.now.topology history.now text) }
{
    let lines = sorted_lines(alloc, case, history)?;
    let mut text = lines_text(alloc, &lines)?;
    write_summary(alloc, &mut text, history)?;
    Ok(Bytes::from_vec(text))
}

// The lines of what a history emitted, in order.
fn sorted_lines(alloc: Global, case: &Case, history: &History) -> Result<Vec<ResultLine>, NoMemory>
    requires { IsPrintable case.now.topology history.now }
    ensures each_once { let shape = case.now.topology in IfOk result (λ lines.
        IsPermutation (map (line_of shape) (run_of shape history.now).emissions) lines.items) }
    ensures in_order { IfOk result (λ lines. IsSorted line_cmp lines.items) }
{
    let emissions = emissions(alloc, case, history)?;
    let mut lines = lines(alloc, &case.topology, emissions.as_slice())?;
    lines.sort()?;
    Ok(lines)
}

// The lines of emissions.
fn lines(
    alloc: Global,
    topology: &Topology,
    emissions: &[Emission],
) -> Result<Vec<ResultLine>, NoMemory>
    requires { All (λ e. e.part < parts_of topology.now) emissions.now }
    ensures { IfOk result (λ lines. lines.items ≡ map (line_of topology.now) emissions.now) }
{
    let mut lines = Vec::with_capacity(alloc, emissions.len())?;
    for emission in emissions {
        lines.push(line(alloc, topology, emission)?)?;
    }
    Ok(lines)
}

// The line of an emission.
fn line(alloc: Global, topology: &Topology, emission: &Emission) -> Result<ResultLine, NoMemory>
    requires { emission.now.part < parts_of topology.now }
    ensures { IfOk result (λ line. line ≡ line_of topology.now emission.now) }
{
    Ok(ResultLine {
        stream: Name::of(alloc, topology.stream(emission.part))?,
        stamp: emission.item.stamp,
        key: emission.item.key.copy(alloc)?,
        value: emission.item.value,
    })
}

/// The texts of result lines, one after the other.
pub fn lines_text(alloc: Global, lines: &[ResultLine]) -> Result<Vec<u8>, NoMemory>
    ensures { IfOk result (λ text.
        text.items ≡ flat_map (λ line. as_line (line_data line)) lines.now) }
{
    let mut text = Vec::with_capacity(alloc, LINE_ROOM)?;
    write_lines(alloc, &mut text, lines)?;
    Ok(text)
}

// Appends the texts of lines.
fn write_lines(alloc: Global, text: &mut Vec<u8>, lines: &[ResultLine]) -> Result<(), NoMemory>
    ensures { OnOk result (text.new.items
        ≡ text.old.items ++ flat_map (λ line. as_line (line_data line)) lines.now) }
{
    // One buffer serves all lines: a writer clears the room ahead of it.
    let mut buffer = Vec::with_capacity(alloc, LINE_ROOM)?;
    for line in lines {
        buffer = write_line(text, line, buffer)?;
    }
    Ok(())
}

// Appends the text of a line, and gives the buffer back, which holds nothing.
fn write_line(text: &mut Vec<u8>, line: &ResultLine, buffer: Vec<u8>) -> Result<Vec<u8>, NoMemory>
    requires { buffer.items ≡ [] }
    ensures written { OnOk result
        (text.new.items ≡ text.old.items ++ as_line (line_data line.now)) }
    ensures empty { IfOk result (λ buffer. buffer.items ≡ []) }
{
    let mut written = line.text(buffer)?;
    text.extend_from_slice(&written)?;
    written.clear();
    Ok(written)
}

// Appends the summary line.
fn write_summary(alloc: Global, text: &mut Vec<u8>, history: &History) -> Result<(), NoMemory>
    ensures { OnOk result (text.new.items
        ≡ text.old.items ++ as_line (summary_data history.now)) }
{
    text.extend_from_slice(summary_line(alloc, history)?.as_slice())?;
    Ok(())
}

/// A value as a line, with its LF.
pub fn value_line(alloc: Global, value: &Value) -> Result<String, NoMemory>
    requires { has_float (view value.now) ≡ false }
    ensures { IfOk result (λ text. string_bytes text ≡ as_line (view value.now)) }
{
    let mut text = value.to_string(alloc)?;
    text.push('\n')?;
    Ok(text)
}
