//! The run of a task over a keeper, and the writing of its text.
ghost use Rattle.std.specs.Prelude.{◌≡◌, ◌≤◌, [], All, Err, IfErr, IfSome, OnOk, false, length, replicate};
ghost use Rattle.std.specs.Option.{is_some};
ghost use Rattle.mw_types.specs.Causes.{Rose};
ghost use Rattle.run_history.specs.Cases.{intervals_of};
ghost use Rattle.book.specs.Books.{core_of};
ghost use Rattle.book.specs.DeskReasons.{IsDamageOf};
ghost use Rattle.book.specs.Lawful.{IsLawful};
ghost use Rattle.book.specs.OwnDesks.{own_view};
ghost use Rattle.node.specs.Answers.{refusal_of};
ghost use Rattle.node.specs.Works.{IsWorkOf};
ghost use Rattle.world.specs.scripts.Worlds.{empty_world};
ghost use Rattle.world.specs.Replays.{IsReplayed, IsWholeReplay};
ghost use Rattle.plans.specs.Steps.{IsStep};
ghost use Rattle.world.specs.scripts.WorldStates.{IsFolding, world_of};
ghost use Rattle.task_runs.specs.Limits.{history_limit};
ghost use Rattle.task_runs.specs.Answers.{Left, RunLeaves};
ghost use Rattle.task_runs.specs.Tasks.{AreThere, is_at_once, is_rounds};
ghost use Rattle.task_runs.specs.Inside.{of_start, of_drain};

use crate::done::{Done, unbegun};
use crate::live::finish_live;
use crate::status::Status;
use crate::task::{Before, Task};
use crate::text::write;
use book::{Book, StartRefusal, StartWhy};
use computations::{Computation, Kinds};
use mw_ports::Sink;
use mw_types::{Duplicate, NoMemory};
use node::NodeFault;
use plain_answer::results_are_the_plain_count;
use row_keeper::Keeper;
use std::alloc::Global;
use world::{
    Step, World, WorldRefusal, drains_begin_the_drained_history, drains_leave_no_work, run_script,
};

/// How many entries a history may have.
pub(crate) const HISTORY_MAX: u64 = 1 << 32;

/// Runs a task that has no rounds over a keeper to its end, and writes its text.
pub fn run<K: Keeper, O: Sink>(alloc: Global, task: &Task, keeper: K, out: &mut O) -> Done<K>
    requires folding { IsFolding task.now.case.topology task.now.routes }
    requires there { AreThere task.now.case.topology task.now.routes.weaks task.now.before }
    requires alone { is_rounds task.now.before ≡ false }

    ensures keeper_later { K.faults keeper ≤ K.faults result.keeper }
    ensures out_later { O.faults out.old ≤ O.faults out.new }
    ensures keeper_fault { result.status ≡ Status.KeeperFault →
        Rose (K.faults keeper) (K.faults result.keeper) }
    ensures sink_fault { result.status ≡ Status.SinkFault →
        Rose (O.faults out.old) (O.faults out.new) }
    ensures left { let left : Left = record {
      rows = (K.rows keeper, K.rows result.keeper);
      text = (O.text out.old, O.text out.new);
      history = result.history;
    } in RunLeaves task.now left result.status }
    ensures untouched { result.history ≡ [] → K.rows result.keeper ≡ K.rows keeper }
    ensures tells { is_some (K.rows result.keeper) ≡ is_some (K.rows keeper) }
{
    match &task.before {
        Before::Steps { steps } => run_steps(alloc, task, steps.steps(), keeper, out),
        Before::Rounds { .. } => unreachable!(),
    }
}

// Runs a task with these steps over a keeper to its end, and writes its text.
fn run_steps<K: Keeper, O: Sink>(
    alloc: Global,
    task: &Task,
    steps: &[Step],
    keeper: K,
    out: &mut O,
) -> Done<K>
    requires folding { IsFolding task.now.case.topology task.now.routes }
    requires before { task.now.before ≡ Before.Steps steps.now }
    requires steps { All (IsStep task.now.case.topology task.now.routes.weaks) steps.now }

    ensures keeper_later { K.faults keeper ≤ K.faults result.keeper }
    ensures out_later { O.faults out.old ≤ O.faults out.new }
    ensures keeper_fault { result.status ≡ Status.KeeperFault →
        Rose (K.faults keeper) (K.faults result.keeper) }
    ensures sink_fault { result.status ≡ Status.SinkFault →
        Rose (O.faults out.old) (O.faults out.new) }
    ensures left { let left : Left = record {
      rows = (K.rows keeper, K.rows result.keeper);
      text = (O.text out.old, O.text out.new);
      history = result.history;
    } in RunLeaves task.now left result.status }
    ensures untouched { result.history ≡ [] → K.rows result.keeper ≡ K.rows keeper }
    ensures tells { is_some (K.rows result.keeper) ≡ is_some (K.rows keeper) }
{
    match Kinds::of(alloc, &task.case.topology) {
        Ok(work) => run_work(alloc, task, steps, work, keeper, out),
        Err(NoMemory) => unbegun(alloc, Status::NoMemory, keeper),
    }
}

// Runs a task over a keeper to its end, with these computations, and writes its text.
fn run_work<K: Keeper, C: Computation + Drop, O: Sink>(
    alloc: Global,
    task: &Task,
    steps: &[Step],
    work: C,
    keeper: K,
    out: &mut O,
) -> Done<K>
    requires work { IsWorkOf task.now.case.topology (C.does work) }
    requires folding { IsFolding task.now.case.topology task.now.routes }
    requires before { task.now.before ≡ Before.Steps steps.now }
    requires steps { All (IsStep task.now.case.topology task.now.routes.weaks) steps.now }

    ensures keeper_later { K.faults keeper ≤ K.faults result.keeper }
    ensures out_later { O.faults out.old ≤ O.faults out.new }
    ensures keeper_fault { result.status ≡ Status.KeeperFault →
        Rose (K.faults keeper) (K.faults result.keeper) }
    ensures sink_fault { result.status ≡ Status.SinkFault →
        Rose (O.faults out.old) (O.faults out.new) }
    ensures left { let left : Left = record {
      rows = (K.rows keeper, K.rows result.keeper);
      text = (O.text out.old, O.text out.new);
      history = result.history;
    } in RunLeaves task.now left result.status }
    ensures untouched { result.history ≡ [] → K.rows result.keeper ≡ K.rows keeper }
    ensures tells { is_some (K.rows result.keeper) ≡ is_some (K.rows keeper) }
{
    match Book::start(alloc, &task.case, keeper, HISTORY_MAX) {
        Ok(book) => run_book(alloc, book, work, task, steps, out),
        Err(refusal) => unstarted(alloc, refusal),
    }
}

/// What a call leaves that began no book.
pub(crate) fn unstarted<K: Keeper>(alloc: Global, refusal: StartRefusal<K>) -> Done<K>
    ensures status { result.status ≡ of_start refusal.why }
    ensures keeper { result.keeper ≡ refusal.keeper }
    ensures history { result.history ≡ [] }
{
    let StartRefusal { why, keeper } = refusal;
    unbegun(alloc, status_of_start(why), keeper)
}

// Runs a new book to its end, in a world of its own, and writes its text.
fn run_book<'a, K: Keeper, C: Computation + Drop, O: Sink>(
    alloc: Global,
    book: Book<'a, K>,
    work: C,
    task: &Task,
    steps: &[Step],
    out: &mut O,
) -> Done<K>
    requires work { IsWorkOf book.case.topology (C.does work) }
    requires case { book.case ≡ task.now.case }
    requires folding { IsFolding task.now.case.topology task.now.routes }
    requires before { task.now.before ≡ Before.Steps steps.now }
    requires steps { All (IsStep task.now.case.topology task.now.routes.weaks) steps.now }
    requires empty { book.history ≡ [] }
    requires marks { let shape = book.case.topology in
        book.marks ≡ replicate (length (intervals_of shape)) 0 }
    requires limit { book.limit ≡ history_limit }

    ensures keeper_later { book.entry.faults ≤ K.faults result.keeper }
    ensures out_later { O.faults out.old ≤ O.faults out.new }
    ensures keeper_fault { result.status ≡ Status.KeeperFault →
        Rose book.entry.faults (K.faults result.keeper) }
    ensures sink_fault { result.status ≡ Status.SinkFault →
        Rose (O.faults out.old) (O.faults out.new) }
    ensures left { let left : Left = record {
      rows = (book.entry.rows, K.rows result.keeper);
      text = (O.text out.old, O.text out.new);
      history = result.history;
    } in RunLeaves task.now left result.status }
    ensures untouched { result.history ≡ [] → K.rows result.keeper ≡ book.entry.rows }
    ensures tells { is_some (K.rows result.keeper) ≡ is_some book.entry.rows }
{
    let Ok(routes) = task.routes.copy(alloc) else {
        return unworlded(WorldRefusal { book, work });
    };
    match World::start(alloc, book, work, routes) {
        Ok(world) => run_world(alloc, world, task, steps, out),
        Err(refusal) => unworlded(refusal),
    }
}

// What a call leaves that began no world.
fn unworlded<'a, K: Keeper, C: Computation + Drop>(refusal: WorldRefusal<'a, K, C>) -> Done<K>
    ensures status { result.status ≡ Status.NoMemory }
    ensures rows { K.rows result.keeper ≡ refusal.entry.book.rows }
    ensures faults { K.faults result.keeper ≡ refusal.entry.book.faults }
    ensures history { result.history ≡ refusal.entry.book.history }
{
    let WorldRefusal { book, work: _ } = refusal;
    let (keeper, history) = book.into_parts();
    let status = Status::NoMemory;
    Done {
        status,
        keeper,
        history,
    }
}

// Runs a new world to its end, and writes its text.
fn run_world<'a, K: Keeper, C: Computation + Drop, O: Sink>(
    alloc: Global,
    world: World<'a, K, C>,
    task: &Task,
    steps: &[Step],
    out: &mut O,
) -> Done<K>
    requires case { world.book.case ≡ task.now.case }
    requires before { task.now.before ≡ Before.Steps steps.now }
    requires steps { All (IsStep task.now.case.topology task.now.routes.weaks) steps.now }
    requires routes { world.routes ≡ task.now.routes }
    requires begun { world_of world ≡ empty_world task.now.routes task.now.case.topology }
    requires limit { world.book.limit ≡ history_limit }

    ensures keeper_later { world.entry.book.faults ≤ K.faults result.keeper }
    ensures out_later { O.faults out.old ≤ O.faults out.new }
    ensures keeper_fault { result.status ≡ Status.KeeperFault →
        Rose world.entry.book.faults (K.faults result.keeper) }
    ensures sink_fault { result.status ≡ Status.SinkFault →
        Rose (O.faults out.old) (O.faults out.new) }
    ensures left { let left : Left = record {
      rows = (world.entry.book.rows, K.rows result.keeper);
      text = (O.text out.old, O.text out.new);
      history = result.history;
    } in RunLeaves task.now left result.status }
    ensures untouched { result.history ≡ [] → K.rows result.keeper ≡ world.entry.book.rows }
    ensures tells { is_some (K.rows result.keeper) ≡ is_some world.entry.book.rows }
{
    let mut world = world;
    let status = finish(alloc, &mut world, task, steps, out);
    let (keeper, history) = world.into_book().into_parts();
    Done {
        status,
        keeper,
        history,
    }
}

// Does the steps of a task in a new world, works all off that is left, and writes its text.
fn finish<'a, K: Keeper, C: Computation + Drop, O: Sink>(
    alloc: Global,
    world: &mut World<'a, K, C>,
    task: &Task,
    steps: &[Step],
    out: &mut O,
) -> Status
    requires case { world.old.book.case ≡ task.now.case }
    requires routes { world.old.routes ≡ task.now.routes }
    requires before { task.now.before ≡ Before.Steps steps.now }
    requires steps { All (IsStep task.now.case.topology task.now.routes.weaks) steps.now }
    requires begun { world_of world.old ≡ empty_world task.now.routes task.now.case.topology }
    requires limit { world.old.book.limit ≡ history_limit }

    ensures keeper_later { world.old.book.faults ≤ world.new.book.faults }
    ensures out_later { O.faults out.old ≤ O.faults out.new }
    ensures keeper_fault { result ≡ Status.KeeperFault →
        Rose world.old.book.faults world.new.book.faults }
    ensures sink_fault { result ≡ Status.SinkFault → Rose (O.faults out.old) (O.faults out.new) }
    ensures left { let left : Left = record {
      rows = (world.old.book.rows, world.new.book.rows);
      text = (O.text out.old, O.text out.new);
      history = world.new.book.history;
    } in RunLeaves task.now left result }
    ensures untouched { world.new.book.history ≡ [] → world.new.book.rows ≡ world.old.book.rows }
    ensures tells { is_some world.new.book.rows ≡ is_some world.old.book.rows }
{
    if task.wanted.is_at_once() {
        finish_live(alloc, world, task, steps, out)
    } else {
        finish_late(alloc, world, task, steps, out)
    }
}

// Does the steps of a task in a new world, works all off that is left, and then writes its text.
fn finish_late<'a, K: Keeper, C: Computation + Drop, O: Sink>(
    alloc: Global,
    world: &mut World<'a, K, C>,
    task: &Task,
    steps: &[Step],
    out: &mut O,
) -> Status
    requires late { is_at_once task.now.wanted ≡ false }
    requires case { world.old.book.case ≡ task.now.case }
    requires routes { world.old.routes ≡ task.now.routes }
    requires before { task.now.before ≡ Before.Steps steps.now }
    requires steps { All (IsStep task.now.case.topology task.now.routes.weaks) steps.now }
    requires begun { world_of world.old ≡ empty_world task.now.routes task.now.case.topology }
    requires limit { world.old.book.limit ≡ history_limit }

    ensures keeper_later { world.old.book.faults ≤ world.new.book.faults }
    ensures out_later { O.faults out.old ≤ O.faults out.new }
    ensures keeper_fault { result ≡ Status.KeeperFault →
        Rose world.old.book.faults world.new.book.faults }
    ensures sink_fault { result ≡ Status.SinkFault → Rose (O.faults out.old) (O.faults out.new) }
    ensures left { let left : Left = record {
      rows = (world.old.book.rows, world.new.book.rows);
      text = (O.text out.old, O.text out.new);
      history = world.new.book.history;
    } in RunLeaves task.now left result }
    ensures untouched { world.new.book.history ≡ [] → world.new.book.rows ≡ world.old.book.rows }
    ensures tells { is_some world.new.book.rows ≡ is_some world.old.book.rows }
{
    look(world);
    let replayed = replay(alloc, world, steps);
    look(world);
    let history = world.book().history();
    drains_leave_no_work();
    drains_begin_the_drained_history();
    results_are_the_plain_count();
    match replayed {
        Ok(()) => write(alloc, task, history, out),
        Err(fault) => status_of_drain(fault),
    }
}

// Does the steps of a script in a new world, and works all off that is left.
fn replay<'a, K: Keeper, C: Computation + Drop>(
    alloc: Global,
    world: &mut World<'a, K, C>,
    steps: &[Step],
) -> Result<(), NodeFault>
    requires steps { All (IsStep world.old.book.case.topology world.old.routes.weaks) steps.now }
    requires begun { world_of world.old
        ≡ empty_world world.old.routes world.old.book.case.topology }

    ensures case { world.new.book.case ≡ world.old.book.case }
    ensures limit { world.new.book.limit ≡ world.old.book.limit }
    ensures tells { is_some world.new.book.rows ≡ is_some world.old.book.rows }
    ensures keeper_later { world.old.book.faults ≤ world.new.book.faults }
    ensures replayed { IfSome world.old.book.rows
        (λ _. IsReplayed world.old.routes world.old.book.case
        steps.now world.new.book.history) }
    ensures whole { OnOk result (IfSome world.old.book.rows
        (λ _. IsWholeReplay world.old.routes world.old.book.case
        steps.now world.new.book.history)) }
    ensures keeper_fault { result ≡ Err NodeFault.KeeperFault →
        Rose world.old.book.faults world.new.book.faults }
    ensures full { result ≡ Err NodeFault.HistoryFull →
        length world.new.book.history ≡ world.new.book.limit }
    ensures more { result ≡ Err NodeFault.HistoryFull → IfSome world.old.book.rows
        (λ _. IsWholeReplay world.old.routes world.old.book.case
        steps.now world.new.book.history → ⊥) }
    ensures damaged { IfErr result (λ why.
        IsDamageOf (own_view world.new.book) (refusal_of why)) }
{
    look(world);
    run_script(alloc, world, steps)?;
    world.drain(alloc)
}

// What holds of every book is known of a world's.
fn look<'a, K: Keeper, C: Computation + Drop>(world: &World<'a, K, C>)
    ensures lawful { IsLawful world.now.book.case (core_of world.now.book) }
{
    world.book().history();
}

// The status where a book was not begun.
fn status_of_start(why: StartWhy) -> Status
    ensures { result ≡ of_start why }
{
    match why {
        StartWhy::NotEmpty { name, bytes } => Status::NotEmpty { name, bytes },
        StartWhy::KeeperFault => Status::KeeperFault,
        StartWhy::NoMemory => Status::NoMemory,
    }
}

/// The status where a drain did not come to its end.
pub(crate) fn status_of_drain(fault: NodeFault) -> Status
    ensures { result ≡ of_drain fault }
{
    match fault {
        NodeFault::HistoryFull => Status::HistoryFull,
        NodeFault::KeeperFault => Status::KeeperFault,
        NodeFault::RowDamaged { name, bytes } => Status::RowDamaged { name, bytes },
        NodeFault::NoMemory => Status::NoMemory,
    }
}
