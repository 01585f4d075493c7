//! The plain count of a case, which no keeper has a part in.
ghost use Rattle.std.specs.Prelude.{◌≡◌, ◌≤◌, []};
ghost use Rattle.mw_types.specs.Causes.{Rose};
ghost use Rattle.plain_answer.specs.Plain.{IsPlainText};
ghost use Rattle.task_runs.specs.Answers.{Left, TextLeaves};
ghost use Rattle.task_runs.specs.Inside.{HasPlain};

use crate::done::{Done, unbegun};
use crate::status::Status;
use crate::text::status_of_sink;
use mw_ports::{Sink, write_all};
use mw_types::NoMemory;
use plain_answer::plain_text;
use row_keeper::Keeper;
use run_history::Case;
use std::alloc::Global;

/// Writes the plain count of a case, and hands the keeper back as it was.
pub fn count<K: Keeper, O: Sink>(alloc: Global, case: &Case, keeper: K, out: &mut O) -> Done<K>
    ensures out_later { O.faults out.old ≤ O.faults out.new }
    ensures sink_fault { result.status ≡ Status.SinkFault →
        Rose (O.faults out.old) (O.faults out.new) }
    ensures keeper_fault { result.status ≡ Status.KeeperFault → ⊥ }
    ensures left { let left : Left = record {
      rows = (K.rows keeper, K.rows result.keeper);
      text = (O.text out.old, O.text out.new);
      history = result.history;
    } in TextLeaves (IsPlainText case.now) left result.status }
    ensures keeper { result.keeper ≡ keeper }
    ensures history { result.history ≡ [] }
{
    let status = write_plain(alloc, case, out);
    unbegun(alloc, status, keeper)
}

// Writes the plain count of a case.
fn write_plain<O: Sink>(alloc: Global, case: &Case, out: &mut O) -> Status
    ensures later { O.faults out.old ≤ O.faults out.new }
    ensures written { HasPlain case.now (O.text out.old) (O.text out.new) result }
    ensures sink_fault { result ≡ Status.SinkFault → Rose (O.faults out.old) (O.faults out.new) }
{
    match plain_text(alloc, case) {
        Ok(text) => match write_all(out, text.as_slice()) {
            Ok(()) => Status::Ok,
            Err(fault) => status_of_sink(fault),
        },
        Err(NoMemory) => Status::NoMemory,
    }
}
