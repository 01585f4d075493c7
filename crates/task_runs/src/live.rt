//! A run whose results are written as soon as they are there.
ghost use Rattle.std.specs.Prelude.{◌≡◌, ◌≤◌, ◌==◌, ◌<◌, ◌-◌, List, [], All, Err, IfErr, IfOk, IfSome, OnErr, OnOk, false, length, true};
ghost use Rattle.std.specs.Option.{is_some};
ghost use Rattle.mw_types.specs.Causes.{HasCause, Rose};
ghost use Rattle.mw_types.specs.declared.entry.Entry.{Entry as Happened};
ghost use Rattle.topology.specs.Shapes.{Shape as Form};
ghost use Rattle.run_history.specs.Fences.{Begins};
ghost use Rattle.run_history.specs.Texts.{as_line, summary_data};
ghost use Rattle.world.specs.scripts.Acts.{world_after};
ghost use Rattle.world.specs.scripts.Keeping.{AppendsAtMostOne};
ghost use Rattle.world.specs.scripts.Worlds.{empty_world};
ghost use Rattle.plans.specs.Steps.{IsStep};
ghost use Rattle.world.specs.drains.Drains.{HasEnded, IsDraining};
ghost use Rattle.world.specs.drains.Turns.{HasGone, WhereTold};
ghost use Rattle.world.specs.drains.DrainTurns.{HasDrained};
ghost use Rattle.live_outlet.specs.Outlets.{IsPumpedFrom, WritesTo};
ghost use Rattle.world.specs.Replays.{IsReplayed, IsWholeReplay};
ghost use Rattle.world.specs.WorldDrains.{HasDrain};
ghost use Rattle.world.specs.scripts.WorldStates.{world_of};
ghost use Rattle.task_runs.specs.Limits.{history_limit};
ghost use Rattle.task_runs.specs.Answers.{Left, RunLeaves};
ghost use Rattle.task_runs.specs.Lives.{GoesOnBy, HasResults, IsCutBehind, IsPumpedTo, LivesOn, PumpsOn, StepsOn, TurnsOn, WritesLines, WritesReplay, place_behind, pumped_from, script_lines, stepped_from};
ghost use Rattle.task_runs.specs.Tasks.{is_at_once};
ghost use Rattle.task_runs.specs.Inside.{HasLiveCause, IsLiveBehind, IsStepDone, IsStepFault, IsTurnFault, IsWritten, StopsLive, StopsStep, of_live};

use crate::runs::status_of_drain;
use crate::status::Status;
use crate::task::{Before, Task};
use crate::text::{status_of_sink, written};
use computations::Computation;
use live_outlet::Outlet;
use mw_ports::{Sink, SinkFault};
use mw_types::NoMemory;
use node::NodeFault;
use row_keeper::Keeper;
use run_history::summary_line;
use std::alloc::Global;
use world::{Drain, Step, World, drains_begin_the_drained_history, drains_leave_no_work};

/// Why a run was stopped whose results are written at once.
#[derive(Drop)]
pub(crate) enum LiveFault {
    /// A step or a turn of the drain failed.
    Run {
        /// Why.
        why: NodeFault,
    },
    /// The output failed.
    Sink {
        /// Why.
        why: SinkFault,
    },
}

impl From<NodeFault> for LiveFault {
    ghost use Rattle.std.specs.Prelude.{◌≡◌};
    ghost use Rattle.task_runs.specs.declared.live.LiveFault.TheVariants as faults;

    ghost from_gives = { λ why fault. fault ≡ faults.Run why };

    fn from(why: NodeFault) -> LiveFault {
        LiveFault::Run { why }
    }
}

impl From<SinkFault> for LiveFault {
    ghost use Rattle.std.specs.Prelude.{◌≡◌};
    ghost use Rattle.task_runs.specs.declared.live.LiveFault.TheVariants as faults;

    ghost from_gives = { λ why fault. fault ≡ faults.Sink why };

    fn from(why: SinkFault) -> LiveFault {
        LiveFault::Sink { why }
    }
}

/// Does the steps of a task in a new world, works all off that is left, and writes each result as soon
/// as its entry is there, and the summary line behind them.
pub(crate) fn finish_live<'a, K: Keeper, C: Computation + Drop, O: Sink>(
    alloc: Global,
    world: &mut World<'a, K, C>,
    task: &Task,
    steps: &[Step],
    out: &mut O,
) -> Status
    requires live { is_at_once task.now.wanted ≡ true }
    requires case { world.old.book.case ≡ task.now.case }
    requires routes { world.old.routes ≡ task.now.routes }
    requires before { task.now.before ≡ Before.Steps steps.now }
    requires steps { All (IsStep task.now.case.topology task.now.routes.weaks) steps.now }
    requires begun { world_of world.old ≡ empty_world task.now.routes task.now.case.topology }
    requires limit { world.old.book.limit ≡ history_limit }

    ensures keeper_later { world.old.book.faults ≤ world.new.book.faults }
    ensures out_later { O.faults out.old ≤ O.faults out.new }
    ensures keeper_fault { result ≡ Status.KeeperFault →
        Rose world.old.book.faults world.new.book.faults }
    ensures sink_fault { result ≡ Status.SinkFault → Rose (O.faults out.old) (O.faults out.new) }
    ensures left { let left : Left = record {
      rows = (world.old.book.rows, world.new.book.rows);
      text = (O.text out.old, O.text out.new);
      history = world.new.book.history;
    } in RunLeaves task.now left result }
    ensures untouched { world.new.book.history ≡ [] → world.new.book.rows ≡ world.old.book.rows }
    ensures tells { is_some world.new.book.rows ≡ is_some world.old.book.rows }
{
    world.sound();
    let ran = run_live(alloc, world, steps, out);
    world.sound();
    drains_leave_no_work();
    drains_begin_the_drained_history();
    match ran {
        Ok(()) => write_summary(alloc, world, out),
        Err(fault) => status_of_live(fault),
    }
}

// Does the steps of a script in a new world, works all off that is left, and writes each result.
fn run_live<'a, K: Keeper, C: Computation + Drop, O: Sink>(
    alloc: Global,
    world: &mut World<'a, K, C>,
    steps: &[Step],
    out: &mut O,
) -> Result<(), LiveFault>
    requires steps { All (IsStep world.old.book.case.topology world.old.routes.weaks) steps.now }
    requires begun { world_of world.old
        ≡ empty_world world.old.routes world.old.book.case.topology }

    ensures case { world.new.book.case ≡ world.old.book.case }
    ensures limit { world.new.book.limit ≡ world.old.book.limit }
    ensures tells { is_some world.new.book.rows ≡ is_some world.old.book.rows }
    ensures keeper_later { world.old.book.faults ≤ world.new.book.faults }
    ensures out_later { O.faults out.old ≤ O.faults out.new }
    ensures replayed { IfSome world.old.book.rows
        (λ _. IsReplayed world.old.routes world.old.book.case
        steps.now world.new.book.history) }
    ensures whole { OnOk result (IfSome world.old.book.rows
        (λ _. IsWholeReplay world.old.routes world.old.book.case
        steps.now world.new.book.history)) }
    ensures more { result ≡ Err (LiveFault.Run NodeFault.HistoryFull) → IfSome world.old.book.rows
        (λ _. IsWholeReplay world.old.routes world.old.book.case
        steps.now world.new.book.history → ⊥) }
    ensures cause { IfErr result (HasLiveCause world.old.book world.new.book
        (O.faults out.old) (O.faults out.new)) }

    // The results of the history were written, or a part of them; after Ok by the lines of the replay.
    ensures results { OnOk result (HasResults world.old.book.case.topology world.new.book.history
        (length steps.now == 0) (O.text out.old) (O.text out.new)) }
    ensures lines { OnOk result (IfSome world.old.book.rows (λ _. WritesReplay
        world.old.routes world.old.book.case steps.now world.new.book.history
        (O.text out.old) (O.text out.new))) }
    ensures behind { IfErr result (λ fault. IsLiveBehind fault world.old.book.case.topology
        world.new.book.history (O.text out.old) (O.text out.new)) }
{
    let mut outlet = Outlet::new(alloc);
    let ran = run_pumped(alloc, world, steps, &mut outlet, out);
    drop(outlet);
    ran
}

// The same with an outlet that has written nothing.
fn run_pumped<'a, K: Keeper, C: Computation + Drop, O: Sink>(
    alloc: Global,
    world: &mut World<'a, K, C>,
    steps: &[Step],
    outlet: &mut Outlet,
    out: &mut O,
) -> Result<(), LiveFault>
    requires steps { All (IsStep world.old.book.case.topology world.old.routes.weaks) steps.now }
    requires begun { world_of world.old
        ≡ empty_world world.old.routes world.old.book.case.topology }
    requires pumped { IsPumpedTo world.old.book.case.topology world.old.book.history true
        outlet.old (O.text out.old) (O.text out.old) }

    ensures case { world.new.book.case ≡ world.old.book.case }
    ensures limit { world.new.book.limit ≡ world.old.book.limit }
    ensures tells { is_some world.new.book.rows ≡ is_some world.old.book.rows }
    ensures keeper_later { world.old.book.faults ≤ world.new.book.faults }
    ensures out_later { O.faults out.old ≤ O.faults out.new }
    ensures replayed { IfSome world.old.book.rows
        (λ _. IsReplayed world.old.routes world.old.book.case
        steps.now world.new.book.history) }
    ensures whole { OnOk result (IfSome world.old.book.rows
        (λ _. IsWholeReplay world.old.routes world.old.book.case
        steps.now world.new.book.history)) }
    ensures more { result ≡ Err (LiveFault.Run NodeFault.HistoryFull) → IfSome world.old.book.rows
        (λ _. IsWholeReplay world.old.routes world.old.book.case
        steps.now world.new.book.history → ⊥) }
    ensures cause { IfErr result (HasLiveCause world.old.book world.new.book
        (O.faults out.old) (O.faults out.new)) }

    // The results of the history were written, or a part of them; after Ok by the lines of the replay.
    ensures results { OnOk result (HasResults world.old.book.case.topology world.new.book.history
        (length steps.now == 0) (O.text out.old) (O.text out.new)) }
    ensures lines { OnOk result (IfSome world.old.book.rows (λ _. WritesReplay
        world.old.routes world.old.book.case steps.now world.new.book.history
        (O.text out.old) (O.text out.new))) }
    ensures behind { IfErr result (λ fault. IsLiveBehind fault world.old.book.case.topology
        world.new.book.history (O.text out.old) (O.text out.new)) }
{
    world.sound();
    script_live(alloc, world, steps, outlet, out)?;
    drain_live(alloc, world, outlet, out)
}

// Does the steps of a script, and writes each result of theirs.
fn script_live<'a, K: Keeper, C: Computation + Drop, O: Sink>(
    alloc: Global,
    world: &mut World<'a, K, C>,
    steps: &[Step],
    outlet: &mut Outlet,
    out: &mut O,
) -> Result<(), LiveFault>
    requires steps { All (IsStep world.old.book.case.topology world.old.routes.weaks) steps.now }
    requires pumped { IsPumpedTo world.old.book.case.topology world.old.book.history true
        outlet.old (O.text out.old) (O.text out.old) }

    ensures case { world.new.book.case ≡ world.old.book.case }
    ensures routes { world.new.routes ≡ world.old.routes }
    ensures limit { world.new.book.limit ≡ world.old.book.limit }
    ensures tells { is_some world.new.book.rows ≡ is_some world.old.book.rows }
    ensures keeper_later { world.old.book.faults ≤ world.new.book.faults }
    ensures out_later { O.faults out.old ≤ O.faults out.new }

    // Where a contract can see the keeper's rows the history begins what the script writes, and after
    // Ok the world is the one that the script leaves.
    ensures begun { IfSome world.old.book.rows (λ _. Begins world.new.book.history
        (world_after world.old.book.case (world_of world.old) steps.now).history) }
    ensures done { OnOk result (IfSome world.old.book.rows (λ _. world_of world.new
        ≡ world_after world.old.book.case (world_of world.old) steps.now)) }
    ensures cause { IfErr result (HasLiveCause world.old.book world.new.book
        (O.faults out.old) (O.faults out.new)) }

    ensures pumped { OnOk result (IsPumpedTo world.old.book.case.topology world.new.book.history
        (length steps.now == 0) outlet.new (O.text out.old) (O.text out.new)) }
    ensures lines { OnOk result (IfSome world.old.book.rows (λ _. WritesLines
        (script_lines world.old.book.case (world_of world.old) outlet.old.place steps.now)
        outlet.new (O.text out.old) (O.text out.new))) }
    ensures behind { IfErr result (λ fault. IsLiveBehind fault world.old.book.case.topology
        world.new.book.history (O.text out.old) (O.text out.new)) }
{
    for step in steps {
        step_live(alloc, world, step, outlet, out)?;
    }
    Ok(())
}

// Does a step, and writes its results.
fn step_live<'a, K: Keeper, C: Computation + Drop, O: Sink>(
    alloc: Global,
    world: &mut World<'a, K, C>,
    step: &Step,
    outlet: &mut Outlet,
    out: &mut O,
) -> Result<(), LiveFault>
    requires step { IsStep world.old.book.case.topology world.old.routes.weaks step.now }
    requires extends { IsPumpedFrom world.old.book.case.topology
        outlet.old world.old.book.history }

    ensures case { world.new.book.case ≡ world.old.book.case }
    ensures routes { world.new.routes ≡ world.old.routes }
    ensures limit { world.new.book.limit ≡ world.old.book.limit }
    ensures tells { is_some world.new.book.rows ≡ is_some world.old.book.rows }
    ensures keeper_later { world.old.book.faults ≤ world.new.book.faults }
    ensures grown { AppendsAtMostOne (world_of world.old) (world_of world.new) }
    ensures out_later { O.faults out.old ≤ O.faults out.new }
    ensures done { OnOk result (IsStepDone step.now world.old world.new) }
    ensures failed { IfErr result (IsStepFault step.now world.old world.new) }
    ensures cause { IfErr result (HasLiveCause world.old.book world.new.book
        (O.faults out.old) (O.faults out.new)) }

    ensures stepped { OnOk result (StepsOn world.old.book.case.topology world.new.book.history
        (length world.old.book.history) outlet.old outlet.new (O.text out.old) (O.text out.new)) }
    ensures lines { OnOk result (GoesOnBy (stepped_from world.old.book.case.topology
        world.new.book.history (length world.old.book.history) step.now outlet.old.place)
        outlet.old outlet.new (O.text out.old) (O.text out.new)) }
    ensures behind { IfErr result (λ fault. StopsStep fault world.old.book.case.topology
        world.old.book.history world.new.book.history outlet.old
        (O.text out.old) (O.text out.new)) }
{
    let before = world.book().history().len();
    world.step(alloc, step)?;
    after_step(alloc, world, step, before, outlet, out)?;
    Ok(())
}

// Writes the results of a step that was done when there were so many entries. The crash of a worker takes
// the outlet back: it begins again when an entry comes.
fn after_step<'a, K: Keeper, C: Computation + Drop, O: Sink>(
    alloc: Global,
    world: &World<'a, K, C>,
    step: &Step,
    before: usize,
    outlet: &mut Outlet,
    out: &mut O,
) -> Result<(), SinkFault>
    requires extends { IsPumpedFrom world.now.book.case.topology
        outlet.old world.now.book.history }
    ensures stepped { OnOk result (StepsOn world.now.book.case.topology world.now.book.history
        before outlet.old outlet.new (O.text out.old) (O.text out.new)) }
    ensures lines { OnOk result (GoesOnBy (stepped_from world.now.book.case.topology
        world.now.book.history before step.now outlet.old.place)
        outlet.old outlet.new (O.text out.old) (O.text out.new)) }
    ensures cut { OnErr result (IsCutBehind world.now.book.case.topology world.now.book.history
        outlet.old (O.text out.old) (O.text out.new)) }
    ensures cause { HasCause (O.faults out.old) (O.faults out.new) result SinkFault.Failed }
{
    take_back(alloc, step, outlet);
    if before < world.book().history().len() {
        pump(alloc, world, outlet, out)
    } else {
        Ok(())
    }
}

// Takes an outlet back where a step is the crash of a worker.
fn take_back(alloc: Global, step: &Step, outlet: &mut Outlet)
    ensures owes { outlet.new.owes ≡ outlet.old.owes }
    ensures place { outlet.new.place ≡ place_behind step.now outlet.old.place }
    ensures extends { (shape : Form) (history : List Happened) →
        IsPumpedFrom shape outlet.old history → IsPumpedFrom shape outlet.new history }
{
    if let Step::Crash { .. } = step {
        outlet.back(alloc);
    }
}

// Works off all that is left in a world, and writes each result of that.
fn drain_live<'a, K: Keeper, C: Computation + Drop, O: Sink>(
    alloc: Global,
    world: &mut World<'a, K, C>,
    outlet: &mut Outlet,
    out: &mut O,
) -> Result<(), LiveFault>
    requires extends { IsPumpedFrom world.old.book.case.topology
        outlet.old world.old.book.history }

    ensures gone { HasGone world.old.book world.new.book }
    ensures out_later { O.faults out.old ≤ O.faults out.new }
    ensures draining { IfSome world.old.book.rows (λ _. IsDraining world.old.book.case
        (length world.old.book.history) world.new.book.history) }
    ensures ended { OnOk result (IfSome world.old.book.rows (λ _. HasEnded world.old.book.case
        (length world.old.book.history) world.new.book.history)) }
    ensures more { result ≡ Err (LiveFault.Run NodeFault.HistoryFull) → IfSome world.old.book.rows
        (λ _. HasEnded world.old.book.case (length world.old.book.history)
        world.new.book.history → ⊥) }
    ensures cause { IfErr result (HasLiveCause world.old.book world.new.book
        (O.faults out.old) (O.faults out.new)) }

    ensures results { OnOk result (LivesOn world.old.book.case.topology world.old.book.history
        world.new.book.history outlet.old (O.text out.old) (O.text out.new)) }
    ensures lines { OnOk result (GoesOnBy (pumped_from world.old.book.case.topology
        world.new.book.history outlet.old.place)
        outlet.old outlet.new (O.text out.old) (O.text out.new)) }
    ensures behind { IfErr result (λ fault. StopsLive fault world.old.book.case.topology
        world.old.book.history world.new.book.history outlet.old
        (O.text out.old) (O.text out.new)) }
{
    let mut drain = world.begin_drain(alloc);
    let drained = turns_live(alloc, world, &mut drain, outlet, out);
    drop(drain);
    drained
}

// Writes each next entry of a drain and its results, until none is left.
fn turns_live<'a, K: Keeper, C: Computation + Drop, O: Sink>(
    alloc: Global,
    world: &mut World<'a, K, C>,
    drain: &mut Drain,
    outlet: &mut Outlet,
    out: &mut O,
) -> Result<(), LiveFault>
    requires drain { HasDrain world.old drain.old }
    requires extends { IsPumpedFrom world.old.book.case.topology
        outlet.old world.old.book.history }

    ensures gone { HasGone world.old.book world.new.book }
    ensures out_later { O.faults out.old ≤ O.faults out.new }
    ensures draining { WhereTold world.old.book (
        IsDraining world.old.book.case drain.old.from world.old.book.history →
        IsDraining world.old.book.case drain.old.from world.new.book.history) }
    ensures ended { OnOk result (WhereTold world.old.book
        (HasEnded world.old.book.case drain.old.from world.new.book.history)) }
    ensures more { result ≡ Err (LiveFault.Run NodeFault.HistoryFull) → WhereTold world.old.book
        (HasEnded world.old.book.case drain.old.from world.new.book.history → ⊥) }
    ensures cause { IfErr result (HasLiveCause world.old.book world.new.book
        (O.faults out.old) (O.faults out.new)) }

    ensures results { OnOk result (LivesOn world.old.book.case.topology world.old.book.history
        world.new.book.history outlet.old (O.text out.old) (O.text out.new)) }
    ensures lines { OnOk result (GoesOnBy (pumped_from world.old.book.case.topology
        world.new.book.history outlet.old.place)
        outlet.old outlet.new (O.text out.old) (O.text out.new)) }
    ensures behind { IfErr result (λ fault. StopsLive fault world.old.book.case.topology
        world.old.book.history world.new.book.history outlet.old
        (O.text out.old) (O.text out.new)) }
{
    while turn_live(alloc, world, drain, outlet, out)? {}
    Ok(())
}

// Writes the next entry of a drain and its results, and tells whether there was one.
fn turn_live<'a, K: Keeper, C: Computation + Drop, O: Sink>(
    alloc: Global,
    world: &mut World<'a, K, C>,
    drain: &mut Drain,
    outlet: &mut Outlet,
    out: &mut O,
) -> Result<bool, LiveFault>
    requires drain { HasDrain world.old drain.old }
    requires extends { IsPumpedFrom world.old.book.case.topology
        outlet.old world.old.book.history }

    ensures drained { IfOk result (HasDrained drain.old.from world.old.book world.new.book) }
    ensures drain { OnOk result (HasDrain world.new drain.new) }
    ensures from { drain.new.from ≡ drain.old.from }
    ensures ended { IfOk result (λ more. more ≡ false → WhereTold world.old.book
        (HasEnded world.old.book.case drain.old.from world.old.book.history)) }
    ensures nearer { IfOk result (λ more. more ≡ true →
        world.new.book.limit - length world.new.book.history
        < world.old.book.limit - length world.old.book.history) }
    ensures out_later { O.faults out.old ≤ O.faults out.new }
    ensures failed { IfErr result (IsTurnFault drain.old.from world.old.book world.new.book) }
    ensures cause { IfErr result (HasLiveCause world.old.book world.new.book
        (O.faults out.old) (O.faults out.new)) }

    ensures extends { OnOk result (IsPumpedFrom world.old.book.case.topology
        outlet.new world.new.book.history) }
    ensures pumped { OnOk result (TurnsOn world.old.book.case.topology world.old.book.history
        world.new.book.history outlet.old outlet.new (O.text out.old) (O.text out.new)) }
    ensures place { OnOk result (outlet.new.place ≡ length world.new.book.history) }
    ensures wrote { OnOk result (WritesTo world.old.book.case.topology world.new.book.history
        outlet.old outlet.new (O.text out.old) (O.text out.new)) }
    ensures behind { IfErr result (λ fault. StopsLive fault world.old.book.case.topology
        world.old.book.history world.new.book.history outlet.old
        (O.text out.old) (O.text out.new)) }
{
    let more = world.drain_turn(alloc, drain)?;
    pump(alloc, world, outlet, out)?;
    Ok(more)
}

// Writes the results that are not out yet.
fn pump<'a, K: Keeper, C: Computation + Drop, O: Sink>(
    alloc: Global,
    world: &World<'a, K, C>,
    outlet: &mut Outlet,
    out: &mut O,
) -> Result<(), SinkFault>
    requires extends { IsPumpedFrom world.now.book.case.topology
        outlet.old world.now.book.history }
    ensures extends { IsPumpedFrom world.now.book.case.topology
        outlet.new world.now.book.history }
    ensures pumped { OnOk result (PumpsOn world.now.book.case.topology world.now.book.history
        outlet.old outlet.new (O.text out.old) (O.text out.new)) }
    ensures place { OnOk result (outlet.new.place ≡ length world.now.book.history) }
    ensures wrote { OnOk result (WritesTo world.now.book.case.topology world.now.book.history
        outlet.old outlet.new (O.text out.old) (O.text out.new)) }
    ensures cut { OnErr result (IsCutBehind world.now.book.case.topology world.now.book.history
        outlet.old (O.text out.old) (O.text out.new)) }
    ensures cause { HasCause (O.faults out.old) (O.faults out.new) result SinkFault.Failed }
{
    let book = world.book();
    outlet.pump(alloc, book.case(), book.history(), out)?;
    Ok(())
}

// Writes the summary line of a world's history.
fn write_summary<'a, K: Keeper, C: Computation + Drop, O: Sink>(
    alloc: Global,
    world: &World<'a, K, C>,
    out: &mut O,
) -> Status
    ensures later { O.faults out.old ≤ O.faults out.new }
    ensures sink_fault { result ≡ Status.SinkFault → Rose (O.faults out.old) (O.faults out.new) }
    ensures written { IsWritten (as_line (summary_data world.now.book.history))
        (O.text out.old) (O.text out.new) result }
{
    match summary_line(alloc, world.book().history()) {
        Ok(line) => written(line.as_slice(), out),
        Err(NoMemory) => Status::NoMemory,
    }
}

// The status where such a run was stopped.
fn status_of_live(fault: LiveFault) -> Status
    ensures { result ≡ of_live fault }
{
    match fault {
        LiveFault::Run { why } => status_of_drain(why),
        LiveFault::Sink { why } => status_of_sink(why),
    }
}
