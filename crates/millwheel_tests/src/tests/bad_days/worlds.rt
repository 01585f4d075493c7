//! A scripted world of the first example's case, and what its steps answer.
ghost use Rattle.std.specs.Prelude.{◌≡◌, All, IfOk, length};
ghost use Rattle.topology.specs.Shapes.{injectors_of};
ghost use Rattle.node.specs.Works.{IsWorkOf};
ghost use Rattle.computations.specs.Parts.{part_doings};
ghost use Rattle.plans.specs.Steps.{IsStep};
ghost use Rattle.world.specs.scripts.WorldStates.{IsFolding};

use super::overtaken::sides;
use crate::tests::events::EVENTS;
use crate::tests::made;
use crate::tests::topologies::COUNT;
use book::Book;
use computations::Kinds;
use injector::{ItemsList, read_lines};
use mw_types::NoMemory;
use node::{NodeFault, Outcome};
use row_keeper::{Keeper, MemKeeper};
use run_history::{Case, EntryRef, History};
use std::alloc::Global;
use std::process::Abort;
use topology::{Folded, Routes, Topology, read};
use world::{Schedule, Step, World, read_schedule};

// The topology of the first example, which has one injector.
fn topology(rt: &impl Abort, alloc: Global) -> Topology
    ensures { injectors_of result ≡ 1 }
{
    let topology = made(rt, read(alloc, COUNT.as_bytes()));
    if topology.injectors() != 1 {
        rt.panic("other injectors")
    }
    topology
}

// Its lines, as those of the one injector.
fn items(rt: &impl Abort, alloc: Global) -> ItemsList
    ensures { length result ≡ 1 }
{
    let bytes = EVENTS.as_bytes();
    if bytes.len() > 1 << 20 {
        rt.panic("too long")
    }
    let lines = made(rt, read_lines(alloc, bytes, 1 << 18));
    let mut items = ItemsList::new(alloc);
    made(rt, items.push(lines));
    items
}

// Its case, and the ways through its weak passes, of which it has none.
fn case(rt: &impl Abort, alloc: Global) -> (Case, Routes)
    ensures { IsFolding result.0.topology result.1 }
{
    let items = items(rt, alloc);
    let file = topology(rt, alloc);
    let Folded { topology, routes } = made(rt, file.fold(alloc));
    drop(file);
    (made(rt, Case::of(alloc, topology, items)), routes)
}

// The computations of a case.
fn work(alloc: Global, case: &Case) -> Result<Kinds, NoMemory>
    ensures { IfOk result (λ kinds. IsWorkOf case.now.topology (part_doings kinds)) }
{
    match Kinds::of(alloc, &case.topology) {
        Ok(kinds) => Ok(kinds),
        Err(NoMemory) => Err(NoMemory),
    }
}

// A world over a new book of a case.
fn world<'a>(
    rt: &impl Abort,
    alloc: Global,
    case: &'a Case,
    routes: Routes,
    keeper: MemKeeper,
) -> World<'a, MemKeeper, Kinds>
    requires { IsFolding case.now.topology routes }
{
    let work = made(rt, work(alloc, case));
    let book = made(rt, Book::start(alloc, case, keeper, 1 << 32));
    made(rt, World::start(alloc, book, work, routes))
}

// The one step of a line.
fn step(rt: &impl Abort, alloc: Global, case: &Case, weaks: u32, line: &str) -> Step
    ensures { IsStep case.now.topology weaks result }
{
    let schedule = schedule(rt, alloc, case, weaks, line);
    let step = match schedule.steps().first() {
        Some(step) => *step,
        None => rt.panic("no step"),
    };
    drop(schedule);
    step
}

// The schedule of a text.
fn schedule(rt: &impl Abort, alloc: Global, case: &Case, weaks: u32, text: &str) -> Schedule
    ensures { All (IsStep case.now.topology weaks) result }
{
    let bytes = text.as_bytes();
    if bytes.len() > 1 << 20 {
        rt.panic("too long")
    }
    made(rt, read_schedule(alloc, bytes, case, weaks))
}

// What the step of a line answers. No other function does a step, since each that does carries what its clauses tell.
fn answer(
    rt: &impl Abort,
    alloc: Global,
    world: &mut World<'_, MemKeeper, Kinds>,
    line: &str,
) -> Result<Outcome, NodeFault> {
    let case = world.book().case();
    let step = step(rt, alloc, case, world.weaks(), line);
    world.step(alloc, &step)
}

// An answer, as a script has it: its word, and its number where it has one.
type Said = (&'static str, Option<u64>);

// How a script has an outcome.
fn outcome_said(outcome: &Outcome) -> Said {
    match outcome {
        Outcome::Claimed { seq } => ("Claimed", Some(*seq)),
        Outcome::Committed { commit } => ("Committed", Some(*commit)),
        Outcome::Queued { count } => ("Queued", Some(*count)),
        Outcome::Sent { count } => ("Sent", Some(*count)),
        Outcome::Marked { mark } => ("Marked", Some(*mark)),
        Outcome::Stale { newer } => ("Stale", Some(*newer)),
        Outcome::Prepared => ("Prepared", None),
        Outcome::Duplicate => ("Duplicate", None),
        Outcome::Nothing => ("Nothing", None),
        _ => ("another", None),
    }
}

// How a script has a fault.
fn fault_said(fault: &NodeFault) -> Said {
    match fault {
        NodeFault::KeeperFault => ("KeeperFault", None),
        _ => ("another", None),
    }
}

// How a script has the floor of the last entry.
fn floor_said(history: &History) -> Said {
    match history.get(history.len().wrapping_sub(1)) {
        Some(EntryRef::Purge { floor, .. }) => ("floor", Some(floor)),
        _ => ("no floor", None),
    }
}

// How a script has the end of a drain.
fn drain_said(alloc: Global, world: &mut World<'_, MemKeeper, Kinds>) -> Said {
    match world.drain(alloc) {
        Ok(()) => ("Ok", None),
        Err(fault) => fault_said(&fault),
    }
}

// What a script has beside the left side of a line.
fn said(
    rt: &impl Abort,
    alloc: Global,
    world: &mut World<'_, MemKeeper, Kinds>,
    asked: &str,
) -> Said {
    if asked == "drain" {
        return drain_said(alloc, world);
    }
    if asked == "last" {
        return floor_said(world.book().history());
    }
    let answer = answer(rt, alloc, world, asked);
    let said = match &answer {
        Ok(outcome) => outcome_said(outcome),
        Err(fault) => fault_said(fault),
    };
    drop(answer);
    said
}

// Whether an answer is written so.
fn is_written(rt: &impl Abort, alloc: Global, said: Said, want: &str) -> bool {
    match said {
        (word, None) => word == want,
        (word, Some(number)) => made(rt, format!(in alloc; "{word} {number}")).as_str() == want,
    }
}

// Does each step of a script over a world.
fn do_steps(
    rt: &impl Abort,
    alloc: Global,
    world: &mut World<'_, MemKeeper, Kinds>,
    name: &str,
    script: &str,
) {
    for line in script.split('\n') {
        let (asked, want) = sides(line);
        let said = said(rt, alloc, world, asked);
        assert!(rt; is_written(rt, alloc, said, want), "{name}: {line}");
    }
}

/// Does each step of a script over a new world of the first example and this keeper.
pub(super) fn do_all(rt: &impl Abort, alloc: Global, keeper: MemKeeper, name: &str, script: &str) {
    let (case, routes) = case(rt, alloc);
    let mut world = world(rt, alloc, &case, routes, keeper);
    do_steps(rt, alloc, &mut world, name, script);
    drop(world);
    drop(case);
}
