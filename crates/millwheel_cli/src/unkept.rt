//! A call without a task: a text is written of its files, and no keeper has a part in it.
ghost use Rattle.std.specs.Prelude.{◌≡◌, ◌≤◌, [], false, IfErr, IfOk};
ghost use Rattle.mw_types.specs.Causes.{Rose};
ghost use Rattle.millwheel_cli.specs.Asked.{has_task};
ghost use Rattle.millwheel_cli.specs.Reasons.{ShelfSeen, IsCallRefused};
ghost use Rattle.task_runs.specs.Answers.{IsUnrun, Left};
ghost use Rattle.millwheel_cli.specs.Answers.{IsTextOf};
ghost use Rattle.millwheel_cli.specs.Inside.{IsTextEnd, UnlessWant};

use crate::audits::audited_text;
use crate::collecting::collected_text;
use crate::refusal::{Refusal, status_of};
use command_line::Call;
use mw_ports::{Shelf, Sink};
use mw_types::Bytes;
use row_keeper::Keeper;
use std::alloc::Global;
use task_runs::{Done, Status, unbegun, written};

/// Writes the text of a call without a task, and hands the keeper back as it was.
pub fn write_files<S: Shelf, K: Keeper, O: Sink>(
    alloc: Global,
    call: &Call,
    shelf: &mut S,
    keeper: K,
    out: &mut O,
) -> Done<K>
    requires text { has_task call.now ≡ false }

    ensures files { S.files shelf.new ≡ S.files shelf.old }
    ensures faults_later { S.faults shelf.old ≤ S.faults shelf.new }
    ensures lacks_later { S.lacks shelf.old ≤ S.lacks shelf.new }
    ensures out_later { O.faults out.old ≤ O.faults out.new }
    ensures keeper_fault { result.status ≡ Status.KeeperFault → ⊥ }
    ensures sink_fault { result.status ≡ Status.SinkFault →
        Rose (O.faults out.old) (O.faults out.new) }
    ensures ended { let seen : ShelfSeen = record {
      files = S.files shelf.old;
      faults = (S.faults shelf.old, S.faults shelf.new);
      lacks = (S.lacks shelf.old, S.lacks shelf.new);
    } in let left : Left = record {
      rows = (K.rows keeper, K.rows result.keeper);
      text = (O.text out.old, O.text out.new);
      history = result.history;
    } in IsTextEnd seen call.now left result.status }
    ensures keeper { result.keeper ≡ keeper }
    ensures history { result.history ≡ [] }
{
    let status = write_text(alloc, call, shelf, out);
    unbegun(alloc, status, keeper)
}

// Writes the text of a call without a task, and tells how that ended.
fn write_text<S: Shelf, O: Sink>(alloc: Global, call: &Call, shelf: &mut S, out: &mut O) -> Status
    requires text { has_task call.now ≡ false }

    ensures files { S.files shelf.new ≡ S.files shelf.old }
    ensures faults_later { S.faults shelf.old ≤ S.faults shelf.new }
    ensures lacks_later { S.lacks shelf.old ≤ S.lacks shelf.new }
    ensures out_later { O.faults out.old ≤ O.faults out.new }
    ensures keeper_fault { result ≡ Status.KeeperFault → ⊥ }
    ensures sink_fault { result ≡ Status.SinkFault → Rose (O.faults out.old) (O.faults out.new) }
    ensures ended { let seen : ShelfSeen = record {
      files = S.files shelf.old;
      faults = (S.faults shelf.old, S.faults shelf.new);
      lacks = (S.lacks shelf.old, S.lacks shelf.new);
    } in (left : Left) → IsUnrun left → left.text ≡ (O.text out.old, O.text out.new) →
        IsTextEnd seen call.now left result }
{
    match text_of(alloc, call, shelf) {
        Ok(text) => written(text.as_slice(), out),
        Err(refusal) => status_of(refusal),
    }
}

// The text of a call without a task, by its files.
fn text_of<S: Shelf>(alloc: Global, call: &Call, shelf: &mut S) -> Result<Bytes, Refusal>
    requires text { has_task call.now ≡ false }

    ensures files { S.files shelf.new ≡ S.files shelf.old }
    ensures faults_later { S.faults shelf.old ≤ S.faults shelf.new }
    ensures lacks_later { S.lacks shelf.old ≤ S.lacks shelf.new }
    ensures text { IfOk result (IsTextOf (S.files shelf.old) call.now) }
    ensures refused { let seen : ShelfSeen = record {
      files = S.files shelf.old;
      faults = (S.faults shelf.old, S.faults shelf.new);
      lacks = (S.lacks shelf.old, S.lacks shelf.new);
    } in IfErr result (UnlessWant (IsCallRefused seen call.now)) }
{
    match call {
        Call::Collect { file } => collected_text(alloc, shelf, file),
        Call::Audit { inputs, trace } => audited_text(alloc, shelf, call, inputs, trace),
        Call::Solo { .. }
        | Call::Replay { .. }
        | Call::Run { .. }
        | Call::Plain { .. }
        | Call::Load { .. } => unreachable!(),
    }
}
