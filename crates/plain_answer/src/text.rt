//! The plain text of a case.
ghost use Rattle.std.specs.Prelude.{◌≡◌, ◌++◌, ◌<◌, [], length, map, IfOk, OnOk};
ghost use Rattle.std.specs.List.Sorted.{IsPermutation, IsSorted};
ghost use Rattle.topology.specs.declared.subscription.Subscription.{Subscription};
ghost use Rattle.topology.specs.Shapes.{consumers_of, parts_of, stream_of};
ghost use Rattle.run_history.specs.Texts.{line_cmp, as_line};
ghost use Rattle.plain_answer.specs.Plain.{fired_of, lines_unread, plain_line, plain_lines, plain_summary, IsPlainText};
ghost use Rattle.plain_answer.specs.Sends.{lines_in, ArePlain, AreRead};

use crate::streams::{Sent, all_streams};
use crate::summary::summary_line;
use mw_types::{Bytes, Duplicate, Name, NoMemory, Record, Seq};
use run_history::{Case, ResultLine, lines_text};
use std::alloc::Global;
use topology::Topology;

/// The plain text of a case: the lines of the streams that nothing reads, sorted, and the summary
/// line, worked out from the records of its files alone. Where a timestamp in whole microseconds,
/// a sum or a count is past the greatest that fits, it answers as where there is no memory.
pub fn plain_text(alloc: Global, case: &Case) -> Result<Bytes, NoMemory>
    ensures plain { IfOk result (IsPlainText case.now) }
{
    let all = all_streams(alloc, case)?;
    text_of(alloc, case, &all)
}

// The text of what the streams have.
fn text_of(alloc: Global, case: &Case, all: &Sent) -> Result<Bytes, NoMemory>
    requires plain { ArePlain case.now all.now.streams.items }
    requires read { AreRead case.now.topology all.now.streams.items all.now.reads.items }
    requires fired { all.now.fired ≡ fired_of case.now }
    ensures { IfOk result (IsPlainText case.now) }
{
    let lines = sorted_lines(alloc, case, &all.streams)?;
    let mut text = lines_text(alloc, &lines)?;
    write_summary(alloc, &mut text, case, all)?;
    Ok(Bytes::from_vec(text))
}

// Appends the summary line.
fn write_summary(alloc: Global, text: &mut Vec<u8>, case: &Case, all: &Sent) -> Result<(), NoMemory>
    requires plain { ArePlain case.now all.now.streams.items }
    requires read { AreRead case.now.topology all.now.streams.items all.now.reads.items }
    requires fired { all.now.fired ≡ fired_of case.now }
    ensures { OnOk result (text.new.items ≡ text.old.items ++ as_line (plain_summary case.now)) }
{
    text.extend_from_slice(summary_line(alloc, case, all)?.as_bytes())?;
    Ok(())
}

// The lines of the streams that nothing reads, in order.
fn sorted_lines(
    alloc: Global,
    case: &Case,
    streams: &[Seq<Record>],
) -> Result<Vec<ResultLine>, NoMemory>
    requires { ArePlain case.now streams.now }
    ensures each_once { IfOk result (λ lines. IsPermutation (plain_lines case.now) lines.items) }
    ensures in_order { IfOk result (λ lines. IsSorted line_cmp lines.items) }
{
    let mut lines = lines(alloc, &case.topology, streams)?;
    lines.sort()?;
    Ok(lines)
}

// The lines of the streams that nothing reads.
fn lines(
    alloc: Global,
    topology: &Topology,
    streams: &[Seq<Record>],
) -> Result<Vec<ResultLine>, NoMemory>
    requires { length streams.now ≡ parts_of topology.now }
    ensures { IfOk result (λ lines. lines.items ≡ lines_in topology.now 0 streams.now) }
{
    let mut lines = Vec::new(alloc);
    for part in 0..topology.parts() {
        let items = streams[part as usize].as_slice();
        put_unread(alloc, &mut lines, topology, part, items)?;
    }
    Ok(lines)
}

// Appends the lines of a stream, where nothing reads it.
fn put_unread(
    alloc: Global,
    lines: &mut Vec<ResultLine>,
    topology: &Topology,
    part: u32,
    items: &[Record],
) -> Result<(), NoMemory>
    requires { part < parts_of topology.now }
    ensures { OnOk result (lines.new.items ≡ lines.old.items
        ++ lines_unread (consumers_of topology.now part) (stream_of topology.now part) items.now) }
{
    if topology.consumers(part).is_empty() {
        put_lines(alloc, lines, topology.stream(part), items)?;
    }
    Ok(())
}

// Appends the lines of a stream.
fn put_lines(
    alloc: Global,
    lines: &mut Vec<ResultLine>,
    stream: &str,
    items: &[Record],
) -> Result<(), NoMemory>
    ensures { OnOk result
        (lines.new.items ≡ lines.old.items ++ map (plain_line stream.now) items.now) }
{
    for item in items {
        lines.push(line(alloc, stream, item)?)?;
    }
    Ok(())
}

// The line of a member of a stream.
fn line(alloc: Global, stream: &str, item: &Record) -> Result<ResultLine, NoMemory>
    ensures { IfOk result (λ line. line ≡ plain_line stream.now item.now) }
{
    Ok(ResultLine {
        stream: Name::of(alloc, stream)?,
        stamp: item.stamp,
        key: item.key.copy(alloc)?,
        value: item.value,
    })
}
