//! The text of a history, and its writing.
ghost use Rattle.std.specs.Prelude.{◌≡◌, ◌≤◌, ◌++◌, All, IfOk, false};
ghost use Rattle.mw_types.specs.Causes.{Rose};
ghost use Rattle.run_history.specs.Printing.{IsPrintable};
ghost use Rattle.run_history.specs.HistoryLines.{HasLine};
ghost use Rattle.task_runs.specs.Answers.{IsLongText, IsWholeText};
ghost use Rattle.task_runs.specs.Tasks.{is_at_once};
ghost use Rattle.task_runs.specs.Inside.{HasText, IsWritten, of_sink};

use crate::status::Status;
use crate::task::{Task, Wanted};
use mw_ports::{Sink, SinkFault, write_all};
use mw_types::{Bytes, NoMemory};
use run_history::{Case, History, history_lines, result_text, summary_line};
use std::alloc::Global;

/// Writes the text that is wanted of a task's history, where it is wanted at the end.
pub fn write<O: Sink>(alloc: Global, task: &Task, history: &History, out: &mut O) -> Status
    requires late { is_at_once task.now.wanted ≡ false }
    requires printable { IsPrintable task.now.case.topology history.now }
    requires lines { All HasLine history.now }

    ensures later { O.faults out.old ≤ O.faults out.new }
    ensures written { HasText task.now.wanted task.now.case.topology history.now
        (O.text out.old) (O.text out.new) result }
    ensures sink_fault { result ≡ Status.SinkFault → Rose (O.faults out.old) (O.faults out.new) }
{
    match whole_text(alloc, task, history) {
        Ok(text) => match write_all(out, text.as_slice()) {
            Ok(()) => Status::Ok,
            Err(fault) => status_of_sink(fault),
        },
        Err(NoMemory) => Status::NoMemory,
    }
}

// The text that is wanted of a task's history at the end.
fn whole_text(alloc: Global, task: &Task, history: &History) -> Result<Bytes, NoMemory>
    requires late { is_at_once task.now.wanted ≡ false }
    requires printable { IsPrintable task.now.case.topology history.now }
    requires lines { All HasLine history.now }
    ensures { IfOk result (IsWholeText task.now.wanted task.now.case.topology history.now) }
{
    match task.wanted {
        Wanted::ResultAlone => result_text(alloc, &task.case, history),
        Wanted::HistoryFirst => long_text(alloc, &task.case, history),
        Wanted::SummaryAlone => summary_line(alloc, history),
        Wanted::EachAtOnce => unreachable!(),
    }
}

// The lines of a history, and then its result.
fn long_text(alloc: Global, case: &Case, history: &History) -> Result<Bytes, NoMemory>
    requires printable { IsPrintable case.now.topology history.now }
    requires lines { All HasLine history.now }
    ensures { IfOk result (IsLongText case.now.topology history.now) }
{
    let lines = history_lines(alloc, history)?;
    let result = result_text(alloc, case, history)?;
    joined(lines, result.as_slice())
}

// Bytes, and then more of them.
fn joined(text: Bytes, more: &[u8]) -> Result<Bytes, NoMemory>
    ensures { IfOk result (λ all. all ≡ text ++ more.now) }
{
    let mut all = text.into_vec();
    all.extend_from_slice(more)?;
    Ok(Bytes::from_vec(all))
}

/// Writes a text, and tells how that ended.
pub fn written<O: Sink>(text: &[u8], out: &mut O) -> Status
    ensures later { O.faults out.old ≤ O.faults out.new }
    ensures sink_fault { result ≡ Status.SinkFault → Rose (O.faults out.old) (O.faults out.new) }
    ensures written { IsWritten text.now (O.text out.old) (O.text out.new) result }
{
    match write_all(out, text) {
        Ok(()) => Status::Ok,
        Err(fault) => status_of_sink(fault),
    }
}

/// The status of a sink's fault.
pub fn status_of_sink(fault: SinkFault) -> Status
    ensures { result ≡ of_sink fault }
{
    match fault {
        SinkFault::Failed => Status::SinkFault,
        SinkFault::NoMemory => Status::NoMemory,
    }
}
