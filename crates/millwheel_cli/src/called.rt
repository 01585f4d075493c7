//! A call, from its files to its end.
ghost use Rattle.std.specs.Prelude.{◌≡◌, ◌≤◌, [], false, true};
ghost use Rattle.std.specs.Option.{is_some};
ghost use Rattle.mw_types.specs.Causes.{Rose};
ghost use Rattle.command_line.specs.Grammar.{HasSizes};
ghost use Rattle.millwheel_cli.specs.Asked.{is_run, is_unkept};
ghost use Rattle.millwheel_cli.specs.Reasons.{ShelfSeen};
ghost use Rattle.task_runs.specs.Answers.{Left};
ghost use Rattle.millwheel_cli.specs.Inside.{IsCallEnd};

use crate::asked::has_task;
use crate::call::read_task;
use crate::refusal::status_of;
use crate::unkept::write_files;
use crate::work::{work, work_alone};
use command_line::Call;
use mw_ports::{Gate, Shelf, Sink};
use row_keeper::Keeper;
use std::alloc::Global;
use std::sync::Wait;
use std::thread::Threads;
use task_runs::{Done, Status, unbegun};

/// Reads the files of a call that asks for no threads, and does what it asks for.
pub fn called_alone<S: Shelf, K: Keeper, O: Sink>(
    alloc: Global,
    call: &Call,
    shelf: &mut S,
    keeper: K,
    out: &mut O,
) -> Done<K>
    requires sizes { HasSizes call.now }
    requires alone { is_run call.now ≡ false }

    ensures files { S.files shelf.new ≡ S.files shelf.old }
    ensures faults_later { S.faults shelf.old ≤ S.faults shelf.new }
    ensures lacks_later { S.lacks shelf.old ≤ S.lacks shelf.new }
    ensures keeper_later { K.faults keeper ≤ K.faults result.keeper }
    ensures out_later { O.faults out.old ≤ O.faults out.new }
    ensures keeper_fault { result.status ≡ Status.KeeperFault →
        Rose (K.faults keeper) (K.faults result.keeper) }
    ensures sink_fault { result.status ≡ Status.SinkFault →
        Rose (O.faults out.old) (O.faults out.new) }
    ensures ended { let seen : ShelfSeen = record {
      files = S.files shelf.old;
      faults = (S.faults shelf.old, S.faults shelf.new);
      lacks = (S.lacks shelf.old, S.lacks shelf.new);
    } in let left : Left = record {
      rows = (K.rows keeper, K.rows result.keeper);
      text = (O.text out.old, O.text out.new);
      history = result.history;
    } in IsCallEnd seen call.now left result.status }
    ensures untouched { result.history ≡ [] → K.rows result.keeper ≡ K.rows keeper }
    ensures tells { is_some (K.rows result.keeper) ≡ is_some (K.rows keeper) }
    ensures unkept { is_unkept call.now ≡ true →
        (result.keeper ≡ keeper) × (result.history ≡ []) }
{
    if !has_task(call) {
        return write_files(alloc, call, shelf, keeper, out);
    }
    match read_task(alloc, shelf, call) {
        Ok(task) => {
            let done = work_alone(alloc, call, &task, keeper, out);
            drop(task);
            done
        }
        Err(refusal) => unbegun(alloc, status_of(refusal), keeper),
    }
}

/// Reads the files of a call, and does what it asks for.
pub fn called<R, S, K, O, G>(
    rt: &R,
    alloc: Global,
    call: &Call,
    shelf: &mut S,
    keeper: K,
    out: &mut O,
    gate: &G,
) -> Done<K>
where
    R: Threads + Wait + Sync,
    S: Shelf,
    K: Keeper + Send,
    O: Sink,
    G: Gate + Sync,
    requires sizes { HasSizes call.now }

    ensures files { S.files shelf.new ≡ S.files shelf.old }
    ensures faults_later { S.faults shelf.old ≤ S.faults shelf.new }
    ensures lacks_later { S.lacks shelf.old ≤ S.lacks shelf.new }
    ensures keeper_later { K.faults keeper ≤ K.faults result.keeper }
    ensures out_later { O.faults out.old ≤ O.faults out.new }
    ensures keeper_fault { result.status ≡ Status.KeeperFault →
        Rose (K.faults keeper) (K.faults result.keeper) }
    ensures sink_fault { result.status ≡ Status.SinkFault →
        Rose (O.faults out.old) (O.faults out.new) }
    ensures ended { let seen : ShelfSeen = record {
      files = S.files shelf.old;
      faults = (S.faults shelf.old, S.faults shelf.new);
      lacks = (S.lacks shelf.old, S.lacks shelf.new);
    } in let left : Left = record {
      rows = (K.rows keeper, K.rows result.keeper);
      text = (O.text out.old, O.text out.new);
      history = result.history;
    } in IsCallEnd seen call.now left result.status }
    ensures untouched { result.history ≡ [] → K.rows result.keeper ≡ K.rows keeper }
    ensures tells { is_some (K.rows result.keeper) ≡ is_some (K.rows keeper) }
    ensures unkept { is_unkept call.now ≡ true →
        (result.keeper ≡ keeper) × (result.history ≡ []) }
{
    if !has_task(call) {
        return write_files(alloc, call, shelf, keeper, out);
    }
    match read_task(alloc, shelf, call) {
        Ok(task) => {
            let done = work(rt, alloc, call, &task, keeper, out, gate);
            drop(task);
            done
        }
        Err(refusal) => unbegun(alloc, status_of(refusal), keeper),
    }
}
