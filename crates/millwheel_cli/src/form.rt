//! What the bytes of files are taken for.
ghost use Rattle.std.specs.Prelude.{◌≡◌, ◌<◌, ◌^◌, [], false, length, true, Err, IfErr, IfOk, Ok};
ghost use Rattle.topology.specs.Shapes.{injectors_of};
ghost use Rattle.topology.specs.Rules.{IsTopology};
ghost use Rattle.command_line.specs.Grammar.{AreSizes};
ghost use Rattle.millwheel_cli.specs.Files.{topology_taken, source_taken};
ghost use Rattle.task_runs.specs.Tasks.{AreThere, is_rounds};
ghost use Rattle.millwheel_cli.specs.Tasks.{rounds_taken, steps_taken};
ghost use Rattle.millwheel_cli.specs.Inside.{IsLeftOf, of_lines, UnlessWant};

use crate::refusal::Refusal;
use injector::{Items, ItemsList, LinesRefusal, read_lines};
use mw_types::{NoMemory, PlanRefusal, Seq};
use plans::{Actions, Schedule, read_actions, read_schedule};
use run_history::Case;
use std::alloc::Global;
use task_runs::Before;
use topology::{Folded, Routes, Topology, read};

/// What is left of the topology that these bytes are taken for, without its weak computations. It has an
/// injector for each event file.
pub fn topology_of(alloc: Global, count: u32, bytes: &[u8]) -> Result<Folded, Refusal>
    ensures left { IfOk result
        (λ folded. IsLeftOf count bytes.now folded.topology folded.routes) }
    ensures injectors { IfOk result (λ folded. injectors_of folded.topology ≡ count) }
    ensures refused { IfErr result
        (UnlessWant (λ status. topology_taken count bytes.now ≡ Err status)) }
{
    let topology = stated_by(alloc, count, bytes)?;
    Ok(topology.fold(alloc)?)
}

// The topology that these bytes are taken for, which has an injector for each event file.
fn stated_by(alloc: Global, count: u32, bytes: &[u8]) -> Result<Topology, Refusal>
    ensures taken { IfOk result (λ topology. topology_taken count bytes.now ≡ Ok topology) }
    ensures rules { IfOk result IsTopology }
    ensures injectors { IfOk result (λ topology. injectors_of topology ≡ count) }
    ensures refused { IfErr result
        (UnlessWant (λ status. topology_taken count bytes.now ≡ Err status)) }
{
    let topology = read(alloc, bytes)?;
    let injectors = topology.injectors();
    if injectors != count {
        let files = count;
        return Err(Refusal::FileCount { files, injectors });
    }
    Ok(topology)
}

/// What is left of a topology without its weak computations. A plan speaks of that alone, before any line is read.
#[derive(Drop)]
pub struct Bare {
    /// The case of what is left.
    pub case: Case,
    /// The ways through the weak computations.
    pub routes: Routes,
}

/// What is left of a topology, without a line.
pub fn bare_case(alloc: Global, folded: Folded) -> Result<Bare, NoMemory>
    ensures case { IfOk result (λ bare. bare.case.topology ≡ folded.topology) }
    ensures routes { IfOk result (λ bare. bare.routes ≡ folded.routes) }
{
    match no_lines(alloc, folded.topology.injectors()) {
        Ok(sources) => with_sources(alloc, folded, sources),
        Err(NoMemory) => {
            drop(folded);
            Err(NoMemory)
        }
    }
}

/// What is left of a topology, whose injectors have these lines.
pub fn with_sources(alloc: Global, folded: Folded, sources: ItemsList) -> Result<Bare, NoMemory>
    requires { length sources ≡ injectors_of folded.topology }
    ensures case { IfOk result (λ bare.
        bare.case ≡ record { topology = folded.topology; sources = sources }) }
    ensures routes { IfOk result (λ bare. bare.routes ≡ folded.routes) }
{
    let Folded { topology, routes } = folded;
    match Case::of(alloc, topology, sources) {
        Ok(case) => Ok(Bare { case, routes }),
        Err(NoMemory) => {
            drop(routes);
            Err(NoMemory)
        }
    }
}

// So many sources without a line.
fn no_lines(alloc: Global, count: u32) -> Result<ItemsList, NoMemory>
    ensures { IfOk result (λ sources. length sources ≡ count) }
{
    let mut sources = Seq::new(alloc);
    for _ in 0..count {
        sources.push(Items::new(alloc))?;
    }
    Ok(sources)
}

/// The steps that the bytes of a plan are taken for, over what is left of a topology.
pub fn steps_of(alloc: Global, bare: &Bare, bytes: &[u8]) -> Result<Before, Refusal>
    requires { length bytes.now < 2 ^ 32 }
    ensures taken { IfOk result (λ before.
        steps_taken bare.now.case.topology bare.now.routes.weaks bytes.now ≡ Ok before) }
    ensures there { IfOk result (AreThere bare.now.case.topology bare.now.routes.weaks) }
    ensures steps { IfOk result (λ before. is_rounds before ≡ false) }
    ensures refused { IfErr result (UnlessWant (λ status.
        steps_taken bare.now.case.topology bare.now.routes.weaks bytes.now ≡ Err status)) }
{
    let steps = read_schedule(alloc, bytes, &bare.case, bare.routes.weaks())?;
    Ok(Before::Steps { steps })
}

/// The rounds that the bytes of a plan are taken for, over what is left of a topology and of so many workers.
pub fn rounds_of(
    alloc: Global,
    bare: &Bare,
    workers: u32,
    rounds: u32,
    bytes: &[u8],
) -> Result<Before, Refusal>
    requires few { length bytes.now < 2 ^ 32 }
    requires sizes { AreSizes workers rounds }

    ensures taken { IfOk result
        (λ before. rounds_taken bare.now.case.topology workers rounds bytes.now ≡ Ok before) }
    ensures there { IfOk result (AreThere bare.now.case.topology bare.now.routes.weaks) }
    ensures rounds { IfOk result (λ before. is_rounds before ≡ true) }
    ensures refused { IfErr result (UnlessWant
        (λ status. rounds_taken bare.now.case.topology workers rounds bytes.now ≡ Err status)) }
{
    let actions = read_actions(alloc, bytes, &bare.case, workers, rounds)?;
    Ok(Before::Rounds {
        workers,
        rounds,
        actions,
    })
}

/// The steps where there is no plan: none.
pub fn no_steps(alloc: Global, case: &Case) -> Result<Before, NoMemory>
    ensures { IfOk result (λ before. before ≡ Before.Steps []) }
{
    let steps = no_schedule(alloc, case)?;
    Ok(Before::Steps { steps })
}

// A script without a step: an empty text has no line that could be out of form.
fn no_schedule(alloc: Global, case: &Case) -> Result<Schedule, NoMemory>
    ensures { IfOk result (λ steps. steps ≡ []) }
{
    match read_schedule(alloc, &[], case, 0) {
        Ok(steps) => Ok(steps),
        Err(PlanRefusal::NoMemory) => Err(NoMemory),
        Err(PlanRefusal::Line { .. }) => unreachable!(),
    }
}

/// The rounds of so many workers where there is no plan: nothing happens in them.
pub fn no_actions(alloc: Global, case: &Case, workers: u32, rounds: u32) -> Result<Before, NoMemory>
    ensures { IfOk result (λ before. before ≡ Before.Rounds workers rounds []) }
{
    let actions = no_plan(alloc, case, workers, rounds)?;
    Ok(Before::Rounds {
        workers,
        rounds,
        actions,
    })
}

// A plan without an action, by the same.
fn no_plan(alloc: Global, case: &Case, workers: u32, rounds: u32) -> Result<Actions, NoMemory>
    ensures { IfOk result (λ actions. actions ≡ []) }
{
    match read_actions(alloc, &[], case, workers, rounds) {
        Ok(actions) => Ok(actions),
        Err(PlanRefusal::NoMemory) => Err(NoMemory),
        Err(PlanRefusal::Line { .. }) => unreachable!(),
    }
}

/// The source that the bytes of the event file of this number are taken for, with room for so many
/// record lines.
pub fn items_of(alloc: Global, file: u32, room: u32, bytes: &[u8]) -> Result<Items, Refusal>
    requires { length bytes.now < 2 ^ 32 }
    ensures taken { IfOk result (λ items. source_taken file room bytes.now ≡ Ok items) }
    ensures refused { IfErr result
        (UnlessWant (λ status. source_taken file room bytes.now ≡ Err status)) }
{
    match read_lines(alloc, bytes, room) {
        Ok(items) => Ok(items),
        Err(refusal) => Err(of_lines(file, refusal)),
    }
}

// The refusal of the event file of this number.
fn of_lines(file: u32, refusal: LinesRefusal) -> Refusal
    ensures { result ≡ of_lines file refusal }
{
    match refusal {
        LinesRefusal::Line { line, why } => Refusal::EventsRefused { file, line, why },
        LinesRefusal::NoMemory => Refusal::NoMemory,
    }
}
