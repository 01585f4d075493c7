//! The reading of files: a topology, a plan, event files.
ghost use Rattle.std.specs.Prelude.{◌≡◌, ◌≤◌, ◌<◌, ◌^◌, false, length, true, IfErr, IfOk, Ok};
ghost use Rattle.topology.specs.Shapes.{injectors_of};
ghost use Rattle.command_line.specs.Grammar.{AreSizes};
ghost use Rattle.millwheel_cli.specs.Limits.{events_limit, lines_limit, plan_limit};
ghost use Rattle.millwheel_cli.specs.Files.{source_taken, IsContent, HoldsAs, HoldsSource, HoldsSources};
ghost use Rattle.task_runs.specs.Tasks.{AreThere, is_rounds};
ghost use Rattle.millwheel_cli.specs.Tasks.{rounds_taken, steps_taken};
ghost use Rattle.millwheel_cli.specs.Reasons.{ShelfSeen, IsUnread, IsFileRefused, IsTopologyRefused, IsSourceRefused};
ghost use Rattle.millwheel_cli.specs.Inside.{HoldsLeft, of_shelf, UnlessWant};

use crate::form::{Bare, items_of, rounds_of, steps_of, topology_of};
use crate::refusal::Refusal;
use injector::{Items, ItemsList};
use mw_ports::{Shelf, ShelfFault};
use mw_types::{Bytes, Duplicate, Name, NoMemory, Seq};
use std::alloc::Global;
use task_runs::Before;
use text_lines::LINES_MAX;
use topology::Folded;

// How many bytes a topology may have.
const TOPOLOGY_MAX: u64 = 1 << 20;

// How many bytes a plan may have.
const PLAN_MAX: u64 = 1 << 20;

// How many bytes an event file may have.
const EVENTS_MAX: u64 = 1 << 25;

/// What is left of the topology in the file of that name, for so many event files, without its weak
/// computations.
pub fn read_topology<S: Shelf>(
    alloc: Global,
    shelf: &mut S,
    count: u32,
    name: &Name,
) -> Result<Folded, Refusal>
    ensures files { S.files shelf.new ≡ S.files shelf.old }
    ensures faults_later { S.faults shelf.old ≤ S.faults shelf.new }
    ensures lacks_later { S.lacks shelf.old ≤ S.lacks shelf.new }
    ensures left { IfOk result (λ folded.
        HoldsLeft (S.files shelf.old) name.now count folded.topology folded.routes) }
    ensures injectors { IfOk result (λ folded. injectors_of folded.topology ≡ count) }
    ensures refused { let seen : ShelfSeen = record {
      files = S.files shelf.old;
      faults = (S.faults shelf.old, S.faults shelf.new);
      lacks = (S.lacks shelf.old, S.lacks shelf.new);
    } in IfErr result (UnlessWant (IsTopologyRefused seen count name.now)) }
{
    let bytes = read_file(alloc, shelf, name, TOPOLOGY_MAX)?;
    topology_of(alloc, count, bytes.as_slice())
}

/// The steps in the plan's file of that name, over what is left of a topology.
pub fn read_steps<S: Shelf>(
    alloc: Global,
    shelf: &mut S,
    bare: &Bare,
    name: &Name,
) -> Result<Before, Refusal>
    ensures files { S.files shelf.new ≡ S.files shelf.old }
    ensures faults_later { S.faults shelf.old ≤ S.faults shelf.new }
    ensures lacks_later { S.lacks shelf.old ≤ S.lacks shelf.new }
    ensures plan { IfOk result
        (λ before. HoldsAs (S.files shelf.old) name.now plan_limit
        (steps_taken bare.now.case.topology bare.now.routes.weaks) (Ok before)) }
    ensures there { IfOk result (AreThere bare.now.case.topology bare.now.routes.weaks) }
    ensures steps { IfOk result (λ before. is_rounds before ≡ false) }
    ensures refused { let seen : ShelfSeen = record {
      files = S.files shelf.old;
      faults = (S.faults shelf.old, S.faults shelf.new);
      lacks = (S.lacks shelf.old, S.lacks shelf.new);
    } in IfErr result (UnlessWant (IsFileRefused seen name.now plan_limit
        (steps_taken bare.now.case.topology bare.now.routes.weaks))) }
{
    let bytes = read_file(alloc, shelf, name, PLAN_MAX)?;
    steps_of(alloc, bare, bytes.as_slice())
}

/// The rounds in the plan's file of that name, over what is left of a topology and of so many workers.
pub fn read_rounds<S: Shelf>(
    alloc: Global,
    shelf: &mut S,
    bare: &Bare,
    workers: u32,
    rounds: u32,
    name: &Name,
) -> Result<Before, Refusal>
    requires sizes { AreSizes workers rounds }

    ensures files { S.files shelf.new ≡ S.files shelf.old }
    ensures faults_later { S.faults shelf.old ≤ S.faults shelf.new }
    ensures lacks_later { S.lacks shelf.old ≤ S.lacks shelf.new }
    ensures plan { IfOk result
        (λ before. HoldsAs (S.files shelf.old) name.now plan_limit
        (rounds_taken bare.now.case.topology workers rounds) (Ok before)) }
    ensures there { IfOk result (AreThere bare.now.case.topology bare.now.routes.weaks) }
    ensures rounds { IfOk result (λ before. is_rounds before ≡ true) }
    ensures refused { let seen : ShelfSeen = record {
      files = S.files shelf.old;
      faults = (S.faults shelf.old, S.faults shelf.new);
      lacks = (S.lacks shelf.old, S.lacks shelf.new);
    } in IfErr result (UnlessWant (IsFileRefused seen name.now plan_limit
        (rounds_taken bare.now.case.topology workers rounds))) }
{
    let bytes = read_file(alloc, shelf, name, PLAN_MAX)?;
    rounds_of(alloc, bare, workers, rounds, bytes.as_slice())
}

/// What the event files of these names hold, each with the room for record lines that those before it
/// left.
pub fn read_sources<S: Shelf>(
    alloc: Global,
    shelf: &mut S,
    names: &[Name],
) -> Result<ItemsList, Refusal>
    requires few { length names.now < 2 ^ 32 }

    ensures files { S.files shelf.new ≡ S.files shelf.old }
    ensures faults_later { S.faults shelf.old ≤ S.faults shelf.new }
    ensures lacks_later { S.lacks shelf.old ≤ S.lacks shelf.new }
    ensures count { IfOk result (λ sources. length sources ≡ length names.now) }
    ensures sources { IfOk result (HoldsSources (S.files shelf.old) 0 lines_limit names.now) }
    ensures refused { let seen : ShelfSeen = record {
      files = S.files shelf.old;
      faults = (S.faults shelf.old, S.faults shelf.new);
      lacks = (S.lacks shelf.old, S.lacks shelf.new);
    } in IfErr result (UnlessWant (IsSourceRefused seen 0 lines_limit names.now)) }
{
    let mut sources = Seq::new(alloc);
    let mut file: u32 = 0;
    let mut room = LINES_MAX;
    for name in names {
        let items = read_items(alloc, shelf, file, room, name)?;
        file += 1;
        room = room.saturating_sub(items.count());
        sources.push(items)?;
    }
    Ok(sources)
}

// What the event file of that name and number holds, with room for so many record lines.
fn read_items<S: Shelf>(
    alloc: Global,
    shelf: &mut S,
    file: u32,
    room: u32,
    name: &Name,
) -> Result<Items, Refusal>
    ensures files { S.files shelf.new ≡ S.files shelf.old }
    ensures faults_later { S.faults shelf.old ≤ S.faults shelf.new }
    ensures lacks_later { S.lacks shelf.old ≤ S.lacks shelf.new }
    ensures source { IfOk result (HoldsSource (S.files shelf.old) file room name.now) }
    ensures refused { let seen : ShelfSeen = record {
      files = S.files shelf.old;
      faults = (S.faults shelf.old, S.faults shelf.new);
      lacks = (S.lacks shelf.old, S.lacks shelf.new);
    } in IfErr result (UnlessWant
        (IsFileRefused seen name.now events_limit (source_taken file room))) }
{
    let bytes = read_file(alloc, shelf, name, EVENTS_MAX)?;
    let items = items_of(alloc, file, room, bytes.as_slice())?;
    Ok(items)
}

/// The bytes of the file of that name, which may have so many.
pub(crate) fn read_file<S: Shelf>(
    alloc: Global,
    shelf: &mut S,
    name: &Name,
    limit: u64,
) -> Result<Bytes, Refusal>
    ensures files { S.files shelf.new ≡ S.files shelf.old }
    ensures faults_later { S.faults shelf.old ≤ S.faults shelf.new }
    ensures lacks_later { S.lacks shelf.old ≤ S.lacks shelf.new }
    ensures within { IfOk result (λ bytes. length bytes ≤ limit) }
    ensures content { IfOk result (IsContent (S.files shelf.old) name.now) }
    ensures refused { let seen : ShelfSeen = record {
      files = S.files shelf.old;
      faults = (S.faults shelf.old, S.faults shelf.new);
      lacks = (S.lacks shelf.old, S.lacks shelf.new);
    } in IfErr result (UnlessWant (IsUnread seen name.now limit)) }
{
    match shelf.read(alloc, name.text(), limit) {
        Ok(bytes) => Ok(bytes),
        Err(fault) => Err(refusal_of(alloc, name, fault)?),
    }
}

// The refusal of a shelf for the file of that name.
fn refusal_of(alloc: Global, name: &Name, fault: ShelfFault) -> Result<Refusal, NoMemory>
    ensures { IfOk result (λ refusal. refusal ≡ of_shelf name.now fault) }
{
    let refusal = match fault {
        ShelfFault::Missing => Refusal::NoFile {
            name: name.copy(alloc)?,
        },
        ShelfFault::Failed => Refusal::ReadFault {
            name: name.copy(alloc)?,
        },
        ShelfFault::TooLong => Refusal::TooLong {
            name: name.copy(alloc)?,
        },
        ShelfFault::NoMemory => Refusal::NoMemory,
    };
    Ok(refusal)
}
