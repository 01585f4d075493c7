//! What a call does with its task: it is run, or counted.
ghost use Rattle.std.specs.Prelude.{◌≡◌, ◌≤◌, [], false, true};
ghost use Rattle.std.specs.Option.{is_some};
ghost use Rattle.mw_types.specs.Causes.{Rose};
ghost use Rattle.world.specs.scripts.WorldStates.{IsFolding};
ghost use Rattle.millwheel_cli.specs.Asked.{has_task, is_run, is_unkept};
ghost use Rattle.task_runs.specs.Tasks.{AreThere, is_at_once, is_rounds};
ghost use Rattle.task_runs.specs.Answers.{Left};
ghost use Rattle.millwheel_cli.specs.Answers.{CallLeaves};

use command_line::Call;
use mw_ports::{Gate, Sink};
use row_keeper::Keeper;
use std::alloc::Global;
use std::sync::Wait;
use std::thread::Threads;
use task_runs::{Done, Status, Task, count, run, run_rounds};

/// Does what a call that asks for no threads asks for with its task: the mode plain counts its case, and each
/// other runs it over the keeper.
pub fn work_alone<K: Keeper, O: Sink>(
    alloc: Global,
    call: &Call,
    task: &Task,
    keeper: K,
    out: &mut O,
) -> Done<K>
    requires task { has_task call.now ≡ true }
    requires folding { IsFolding task.now.case.topology task.now.routes }
    requires there { AreThere task.now.case.topology task.now.routes.weaks task.now.before }
    requires alone { is_rounds task.now.before ≡ false }

    ensures keeper_later { K.faults keeper ≤ K.faults result.keeper }
    ensures out_later { O.faults out.old ≤ O.faults out.new }
    ensures keeper_fault { result.status ≡ Status.KeeperFault →
        Rose (K.faults keeper) (K.faults result.keeper) }
    ensures sink_fault { result.status ≡ Status.SinkFault →
        Rose (O.faults out.old) (O.faults out.new) }
    ensures left { let left : Left = record {
      rows = (K.rows keeper, K.rows result.keeper);
      text = (O.text out.old, O.text out.new);
      history = result.history;
    } in CallLeaves call.now task.now left result.status }
    ensures untouched { result.history ≡ [] → K.rows result.keeper ≡ K.rows keeper }
    ensures tells { is_some (K.rows result.keeper) ≡ is_some (K.rows keeper) }
    ensures unkept { is_unkept call.now ≡ true →
        (result.keeper ≡ keeper) × (result.history ≡ []) }
{
    match call {
        Call::Plain { .. } => count(alloc, &task.case, keeper, out),
        Call::Solo { .. } | Call::Replay { .. } | Call::Run { .. } | Call::Load { .. } => {
            run(alloc, task, keeper, out)
        }
        Call::Collect { .. } | Call::Audit { .. } => unreachable!(),
    }
}

/// Does what a call asks for with its task: a run has its workers in threads.
pub fn work<R, K, O, G>(
    rt: &R,
    alloc: Global,
    call: &Call,
    task: &Task,
    keeper: K,
    out: &mut O,
    gate: &G,
) -> Done<K>
where
    R: Threads + Wait + Sync,
    K: Keeper + Send,
    O: Sink,
    G: Gate + Sync,
    requires task { has_task call.now ≡ true }
    requires folding { IsFolding task.now.case.topology task.now.routes }
    requires there { AreThere task.now.case.topology task.now.routes.weaks task.now.before }
    requires rounds { is_rounds task.now.before ≡ is_run call.now }
    requires late { is_run call.now ≡ true → is_at_once task.now.wanted ≡ false }

    ensures keeper_later { K.faults keeper ≤ K.faults result.keeper }
    ensures out_later { O.faults out.old ≤ O.faults out.new }
    ensures keeper_fault { result.status ≡ Status.KeeperFault →
        Rose (K.faults keeper) (K.faults result.keeper) }
    ensures sink_fault { result.status ≡ Status.SinkFault →
        Rose (O.faults out.old) (O.faults out.new) }
    ensures left { let left : Left = record {
      rows = (K.rows keeper, K.rows result.keeper);
      text = (O.text out.old, O.text out.new);
      history = result.history;
    } in CallLeaves call.now task.now left result.status }
    ensures untouched { result.history ≡ [] → K.rows result.keeper ≡ K.rows keeper }
    ensures tells { is_some (K.rows result.keeper) ≡ is_some (K.rows keeper) }
    ensures unkept { is_unkept call.now ≡ true →
        (result.keeper ≡ keeper) × (result.history ≡ []) }
{
    match call {
        Call::Run { .. } => run_rounds(rt, alloc, task, keeper, out, gate),
        Call::Solo { .. } | Call::Replay { .. } | Call::Plain { .. } | Call::Load { .. } => {
            work_alone(alloc, call, task, keeper, out)
        }
        Call::Collect { .. } | Call::Audit { .. } => unreachable!(),
    }
}
