//! What a call asks for, with its files.
ghost use Rattle.std.specs.Prelude.{◌≡◌, ◌≤◌, ◌<◌, ◌^◌, length, Err, IfErr, IfOk, IsOk, true};
ghost use Rattle.topology.specs.Shapes.{injectors_of};
ghost use Rattle.world.specs.scripts.WorldStates.{IsFolding};
ghost use Rattle.command_line.specs.Grammar.{HasSizes};
ghost use Rattle.millwheel_cli.specs.Asked.{has_task, is_run};
ghost use Rattle.task_runs.specs.Tasks.{AreThere, is_rounds};
ghost use Rattle.millwheel_cli.specs.Tasks.{HoldsBefore, IsInputsTask, IsLoadTask, IsTask};
ghost use Rattle.millwheel_cli.specs.Reasons.{ShelfSeen, IsRefused, IsRefusedFirst, IsCallRefused, IsPlanRefused, IsTopologyRefused, load_taken};
ghost use Rattle.millwheel_cli.specs.Inside.{HoldsLeft, UnlessWant};

use crate::form::{Bare, bare_case, no_actions, no_steps, with_sources};
use crate::load::load_case;
use crate::reading::{read_rounds, read_sources, read_steps, read_topology};
use crate::refusal::Refusal;
use command_line::{Call, Inputs};
use injector::ItemsList;
use mw_ports::Shelf;
use mw_types::{Name, NoMemory};
use std::alloc::Global;
use task_runs::{Before, Task, Wanted, wanted_of};
use topology::Folded;

/// Reads the files that a call names, one after the other, up to the first that is refused.
pub fn read_task<S: Shelf>(alloc: Global, shelf: &mut S, call: &Call) -> Result<Task, Refusal>
    requires sizes { HasSizes call.now }
    requires task { has_task call.now ≡ true }

    ensures files { S.files shelf.new ≡ S.files shelf.old }
    ensures faults_later { S.faults shelf.old ≤ S.faults shelf.new }
    ensures lacks_later { S.lacks shelf.old ≤ S.lacks shelf.new }
    ensures asked { IfOk result (IsTask (S.files shelf.old) call.now) }
    ensures folding { IfOk result (λ task. IsFolding task.case.topology task.routes) }
    ensures there { IfOk result
        (λ task. AreThere task.case.topology task.routes.weaks task.before) }
    ensures rounds { IfOk result (λ task. is_rounds task.before ≡ is_run call.now) }
    ensures refused { let seen : ShelfSeen = record {
      files = S.files shelf.old;
      faults = (S.faults shelf.old, S.faults shelf.new);
      lacks = (S.lacks shelf.old, S.lacks shelf.new);
    } in IfErr result (UnlessWant (IsCallRefused seen call.now)) }
{
    match call {
        Call::Solo { inputs } => read_inputs(alloc, shelf, call, inputs),
        Call::Replay { plan: _, inputs } => read_inputs(alloc, shelf, call, inputs),
        Call::Run {
            workers: _,
            rounds: _,
            plan: _,
            inputs,
        } => read_inputs(alloc, shelf, call, inputs),
        Call::Plain { inputs } => read_inputs(alloc, shelf, call, inputs),
        Call::Load { seed, lines } => load_task(alloc, *seed, *lines),
        Call::Collect { .. } | Call::Audit { .. } => unreachable!(),
    }
}

/// The task of a call with these files.
pub(crate) fn read_inputs<S: Shelf>(
    alloc: Global,
    shelf: &mut S,
    call: &Call,
    inputs: &Inputs,
) -> Result<Task, Refusal>
    requires sizes { HasSizes call.now }

    ensures files { S.files shelf.new ≡ S.files shelf.old }
    ensures faults_later { S.faults shelf.old ≤ S.faults shelf.new }
    ensures lacks_later { S.lacks shelf.old ≤ S.lacks shelf.new }
    ensures asked { IfOk result (IsInputsTask (S.files shelf.old) call.now inputs.now) }
    ensures folding { IfOk result (λ task. IsFolding task.case.topology task.routes) }
    ensures there { IfOk result
        (λ task. AreThere task.case.topology task.routes.weaks task.before) }
    ensures rounds { IfOk result (λ task. is_rounds task.before ≡ is_run call.now) }
    ensures refused { let seen : ShelfSeen = record {
      files = S.files shelf.old;
      faults = (S.faults shelf.old, S.faults shelf.new);
      lacks = (S.lacks shelf.old, S.lacks shelf.new);
    } in IfErr result (UnlessWant (IsRefused seen call.now inputs.now)) }
{
    let (bare, before) = read_first(alloc, shelf, call, inputs)?;
    match read_sources(alloc, shelf, inputs.events.as_slice()) {
        Ok(sources) => {
            let wanted = wanted_of(inputs.history, inputs.live);
            Ok(task_of(alloc, bare, before, sources, wanted)?)
        }
        Err(refusal) => {
            drop(bare);
            drop(before);
            Err(refusal)
        }
    }
}

// What is read before the event files: what is left of the topology, and what comes before the drain.
fn read_first<S: Shelf>(
    alloc: Global,
    shelf: &mut S,
    call: &Call,
    inputs: &Inputs,
) -> Result<(Bare, Before), Refusal>
    requires sizes { HasSizes call.now }

    ensures files { S.files shelf.new ≡ S.files shelf.old }
    ensures faults_later { S.faults shelf.old ≤ S.faults shelf.new }
    ensures lacks_later { S.lacks shelf.old ≤ S.lacks shelf.new }
    ensures few { IsOk result → length inputs.now.events < 2 ^ 32 }
    ensures left { IfOk result (λ read. HoldsLeft (S.files shelf.old) inputs.now.topology
        (length inputs.now.events) read.0.case.topology read.0.routes) }
    ensures injectors { IfOk result
        (λ read. injectors_of read.0.case.topology ≡ length inputs.now.events) }
    ensures before { IfOk result (λ read. HoldsBefore (S.files shelf.old) call.now
        read.0.case.topology read.0.routes.weaks read.1) }
    ensures there { IfOk result
        (λ read. AreThere read.0.case.topology read.0.routes.weaks read.1) }
    ensures rounds { IfOk result (λ read. is_rounds read.1 ≡ is_run call.now) }
    ensures refused { let seen : ShelfSeen = record {
      files = S.files shelf.old;
      faults = (S.faults shelf.old, S.faults shelf.new);
      lacks = (S.lacks shelf.old, S.lacks shelf.new);
    } in IfErr result (UnlessWant (IsRefusedFirst seen call.now inputs.now)) }
{
    let bare = read_bare(alloc, shelf, inputs)?;
    match read_before(alloc, shelf, &bare, call) {
        Ok(before) => Ok((bare, before)),
        Err(refusal) => {
            drop(bare);
            Err(refusal)
        }
    }
}

// What is left of the topology, without a line.
fn read_bare<S: Shelf>(alloc: Global, shelf: &mut S, inputs: &Inputs) -> Result<Bare, Refusal>
    ensures files { S.files shelf.new ≡ S.files shelf.old }
    ensures faults_later { S.faults shelf.old ≤ S.faults shelf.new }
    ensures lacks_later { S.lacks shelf.old ≤ S.lacks shelf.new }
    ensures few { IsOk result → length inputs.now.events < 2 ^ 32 }
    ensures left { IfOk result (λ bare. HoldsLeft (S.files shelf.old) inputs.now.topology
        (length inputs.now.events) bare.case.topology bare.routes) }
    ensures injectors { IfOk result
        (λ bare. injectors_of bare.case.topology ≡ length inputs.now.events) }
    ensures refused { let seen : ShelfSeen = record {
      files = S.files shelf.old;
      faults = (S.faults shelf.old, S.faults shelf.new);
      lacks = (S.lacks shelf.old, S.lacks shelf.new);
    } in IfErr result (UnlessWant (IsTopologyRefused seen
        (length inputs.now.events) inputs.now.topology)) }
{
    let count = count_of(inputs.events.as_slice())?;
    let folded = read_topology(alloc, shelf, count, &inputs.topology)?;
    Ok(bare_case(alloc, folded)?)
}

// What comes before the drain of a call, over what is left of its topology.
fn read_before<S: Shelf>(
    alloc: Global,
    shelf: &mut S,
    bare: &Bare,
    call: &Call,
) -> Result<Before, Refusal>
    requires sizes { HasSizes call.now }

    ensures files { S.files shelf.new ≡ S.files shelf.old }
    ensures faults_later { S.faults shelf.old ≤ S.faults shelf.new }
    ensures lacks_later { S.lacks shelf.old ≤ S.lacks shelf.new }
    ensures before { IfOk result (HoldsBefore (S.files shelf.old) call.now
        bare.now.case.topology bare.now.routes.weaks) }
    ensures there { IfOk result (AreThere bare.now.case.topology bare.now.routes.weaks) }
    ensures rounds { IfOk result (λ before. is_rounds before ≡ is_run call.now) }
    ensures refused { let seen : ShelfSeen = record {
      files = S.files shelf.old;
      faults = (S.faults shelf.old, S.faults shelf.new);
      lacks = (S.lacks shelf.old, S.lacks shelf.new);
    } in IfErr result (UnlessWant (IsPlanRefused seen call.now
        bare.now.case.topology bare.now.routes.weaks)) }
{
    let case = &bare.case;
    match call {
        Call::Replay { plan, inputs: _ } => read_steps(alloc, shelf, bare, plan),
        Call::Run {
            workers,
            rounds,
            plan: Some(plan),
            inputs: _,
        } => read_rounds(alloc, shelf, bare, *workers, *rounds, plan),
        Call::Run {
            workers,
            rounds,
            plan: None,
            inputs: _,
        } => Ok(no_actions(alloc, case, *workers, *rounds)?),
        Call::Solo { .. }
        | Call::Plain { .. }
        | Call::Load { .. }
        | Call::Collect { .. }
        | Call::Audit { .. } => { Ok(no_steps(alloc, case)?) }
    }
}

// The task of what is left of a topology, of what comes before its drain, and of what its injectors have.
fn task_of(
    alloc: Global,
    bare: Bare,
    before: Before,
    sources: ItemsList,
    wanted: Wanted,
) -> Result<Task, NoMemory>
    requires { length sources ≡ injectors_of bare.case.topology }
    ensures case { IfOk result
        (λ task. task.case ≡ record { topology = bare.case.topology; sources = sources }) }
    ensures routes { IfOk result (λ task. task.routes ≡ bare.routes) }
    ensures before { IfOk result (λ task. task.before ≡ before) }
    ensures wanted { IfOk result (λ task. task.wanted ≡ wanted) }
{
    let Bare { case, routes } = bare;
    let topology = case.topology;
    let bare = with_sources(alloc, Folded { topology, routes }, sources)?;
    Ok(task_over(bare, before, wanted))
}

// The task of a case, of what comes before its drain, and of what is to be written.
fn task_over(bare: Bare, before: Before, wanted: Wanted) -> Task
    ensures case { result.case ≡ bare.case }
    ensures routes { result.routes ≡ bare.routes }
    ensures before { result.before ≡ before }
    ensures wanted { result.wanted ≡ wanted }
{
    let Bare { case, routes } = bare;
    Task {
        case,
        routes,
        before,
        wanted,
    }
}

// How many event files these are. More than a `u32` counts are refused as a lack of memory, which
// their names alone would take.
fn count_of(events: &[Name]) -> Result<u32, NoMemory>
    ensures { IfOk result (λ count. count ≡ length events.now) }
{
    match u32::try_from(events.len()) {
        Ok(count) => Ok(count),
        Err(_) => Err(NoMemory),
    }
}

// The task of load, by a seed and with so many lines.
fn load_task(alloc: Global, seed: u32, lines: u32) -> Result<Task, Refusal>
    ensures asked { IfOk result (IsLoadTask seed lines) }
    ensures folding { IfOk result (λ task. IsFolding task.case.topology task.routes) }
    ensures refused { IfErr result (UnlessWant (λ status. load_taken seed lines ≡ Err status)) }
{
    let bare = load_case(alloc, seed, lines)?;
    match no_steps(alloc, &bare.case) {
        Ok(before) => Ok(task_over(bare, before, Wanted::SummaryAlone)),
        Err(NoMemory) => {
            drop(bare);
            Err(Refusal::NoMemory)
        }
    }
}
