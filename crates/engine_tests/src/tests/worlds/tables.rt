//! How a table of steps and answers is tried.
//!
//! A line of a table is a line of a schedule and, after ` = `, what that step answers. Three more words may
//! stand for a step: `drain`, after which the world is drained, `count`, beside which stands how many
//! entries there are, and `last`, beside which stands the last of them.
ghost use Rattle.std.specs.Prelude.{◌≤◌, ◌^◌, All};
ghost use Rattle.plans.specs.Steps.{IsStep};
ghost use Rattle.world.specs.scripts.WorldStates.{IsFolding};

use super::fixtures::{MOST, world};
use crate::tests::keepers::{blind, in_memory};
use crate::tests::made;
use crate::tests::text_cases::{COUNT, RECORDS, folded_case};
use computations::Kinds;
use node::{NodeFault, Outcome};
use row_keeper::Keeper;
use run_history::{Case, EntryRef};
use std::alloc::Global;
use std::process::Abort;
use topology::Routes;
use world::{Schedule, Step, World, read_schedule};

// The schedule of a text.
pub(crate) fn schedule(
    rt: &impl Abort,
    alloc: Global,
    case: &Case,
    weaks: u32,
    text: &str,
) -> Schedule
    ensures { All (IsStep case.now.topology weaks) result }
{
    let bytes = text.as_bytes();
    if bytes.len() > 1 << 20 {
        rt.panic("the schedule is too long");
    }
    made(rt, read_schedule(alloc, bytes, case, weaks))
}

// The one step of a line.
fn step(rt: &impl Abort, alloc: Global, case: &Case, weaks: u32, line: &str) -> Step
    ensures { IsStep case.now.topology weaks result }
{
    let schedule = schedule(rt, alloc, case, weaks, line);
    match schedule.steps().first() {
        Some(step) => *step,
        None => rt.panic("the line has no step"),
    }
}

// What the step of a line answers. No other function does a step, since each that does carries what
// its clauses tell.
fn answer<K: Keeper>(
    rt: &impl Abort,
    alloc: Global,
    world: &mut World<'_, K, Kinds>,
    line: &str,
) -> Result<Outcome, NodeFault> {
    let case = world.book().case();
    let step = step(rt, alloc, case, world.weaks(), line);
    world.step(alloc, &step)
}

// An answer, as a table has it: its word, and its number where it has one.
pub(crate) type Said = (&'static str, Option<u64>);

// How a table has a fault.
fn fault_word(fault: &NodeFault) -> &'static str {
    match fault {
        NodeFault::HistoryFull => "HistoryFull",
        NodeFault::KeeperFault => "KeeperFault",
        NodeFault::RowDamaged { .. } => "RowDamaged",
        NodeFault::NoMemory => "NoMemory",
    }
}

// How a table has an entry: what it is, and for what.
pub(crate) fn entry_said(entry: Option<EntryRef<'_>>) -> Said {
    match entry {
        Some(EntryRef::Claim { interval, .. }) => ("Claim", Some(u64::from(interval))),
        Some(EntryRef::Inject { line, .. }) => ("Inject", Some(u64::from(line))),
        Some(EntryRef::Handle { id, .. }) => ("Handle", Some(id.commit)),
        Some(EntryRef::Fire { mark, .. }) => ("Fire", Some(mark)),
        Some(EntryRef::Ack { id, .. }) => ("Ack", Some(id.commit)),
        Some(EntryRef::Purge { floor, .. }) => ("Purge", Some(floor)),
        None => ("none", None),
    }
}

// How a table has the end of a drain.
fn drain_said<K: Keeper>(alloc: Global, world: &mut World<'_, K, Kinds>) -> Said {
    let drained = world.drain(alloc);
    let said = match &drained {
        Ok(()) => ("Ok", None),
        Err(fault) => (fault_word(fault), None),
    };
    drop(drained);
    said
}

// How a table has what the step of a line answers.
fn step_said<K: Keeper>(
    rt: &impl Abort,
    alloc: Global,
    world: &mut World<'_, K, Kinds>,
    line: &str,
) -> Said {
    let answer = answer(rt, alloc, world, line);
    let said = match &answer {
        Ok(Outcome::Claimed { seq }) => ("Claimed", Some(*seq)),
        Ok(Outcome::Committed { commit }) => ("Committed", Some(*commit)),
        Ok(Outcome::Queued { count }) => ("Queued", Some(*count)),
        Ok(Outcome::Sent { count }) => ("Sent", Some(*count)),
        Ok(Outcome::Copied { message }) => ("Copied", Some(u64::from(*message))),
        Ok(Outcome::Marked { mark }) => ("Marked", Some(*mark)),
        Ok(Outcome::Stale { newer }) => ("Stale", Some(*newer)),
        Ok(Outcome::Busy { found }) => ("Busy", Some(*found)),
        Ok(Outcome::Prepared) => ("Prepared", None),
        Ok(Outcome::Duplicate) => ("Duplicate", None),
        Ok(Outcome::NotMine) => ("NotMine", None),
        Ok(Outcome::Lost) => ("Lost", None),
        Ok(Outcome::Crashed) => ("Crashed", None),
        Ok(Outcome::Nothing) => ("Nothing", None),
        Err(fault) => (fault_word(fault), None),
    };
    drop(answer);
    said
}

// What a table has beside the left side of a line.
fn said<K: Keeper>(
    rt: &impl Abort,
    alloc: Global,
    world: &mut World<'_, K, Kinds>,
    asked: &str,
) -> Said {
    match asked {
        "drain" => drain_said(alloc, world),
        "count" => ("entries", Some(world.book().history().len() as u64)),
        "last" => {
            let history = world.book().history();
            entry_said(history.get(history.len().wrapping_sub(1)))
        }
        _ => step_said(rt, alloc, world, asked),
    }
}

// Whether one line of a table holds.
fn holds<K: Keeper>(
    rt: &impl Abort,
    alloc: Global,
    world: &mut World<'_, K, Kinds>,
    line: &str,
) -> bool {
    let Some((asked, want)) = line.split_once(" = ") else {
        return false;
    };
    match said(rt, alloc, world, asked) {
        (word, None) => word == want,
        (word, Some(number)) => {
            let text = made(rt, format!(in alloc; "{word} {number}"));
            let is = text.as_str() == want;
            drop(text);
            is
        }
    }
}

// Does each step of a table, and answers the number of the first line that does not hold, from 1, or 0.
fn first_wrong<K: Keeper>(
    rt: &impl Abort,
    alloc: Global,
    world: &mut World<'_, K, Kinds>,
    table: &str,
) -> u64 {
    let mut number: u64 = 0;
    for line in table.split('\n') {
        number = number.saturating_add(1);
        if !holds(rt, alloc, world, line) {
            return number;
        }
    }
    0
}

// Over which keeper and book a table is tried.
#[derive(Clone, Copy)]
pub(crate) enum Over {
    // A keeper in memory whose calls of these numbers fail, and a book that takes as many entries as any.
    Failing(&'static [u64]),
    // A keeper in memory that does not fail, and a book that takes so many entries.
    Full(u32),
    // A keeper that does not tell its rows and shows these bytes for the key `z` of the count, and a book that takes
    // as many entries as any.
    Blind(&'static [u8]),
}

// A keeper in memory that does not fail.
pub(crate) const SOUND: Over = Over::Failing(&[]);

// The count, and its three records.
pub(crate) const COUNTED: (&str, &str) = (COUNT, RECORDS);

// A table that is tried: its name, the topology and the event file, over what, and its lines.
pub(crate) type Table = (
    &'static str,
    (&'static str, &'static str),
    Over,
    &'static str,
);

// The number of the first line of a table that does not hold, or 0, over a new world of this case and this keeper,
// whose book takes so many entries.
fn wrong_over<K: Keeper>(
    rt: &impl Abort,
    alloc: Global,
    case: &Case,
    routes: &Routes,
    keeper: K,
    limit: u64,
    table: &str,
) -> u64
    requires limit { limit ≤ 2 ^ 32 }
    requires folding { IsFolding case.now.topology routes.now }
{
    let mut world = world(rt, alloc, case, routes, keeper, limit);
    let wrong = first_wrong(rt, alloc, &mut world, table);
    drop(world);
    wrong
}

// The same over the keeper and the book that the table tells.
fn wrong_of(rt: &impl Abort, alloc: Global, case: &Case, routes: &Routes, table: &Table) -> u64
    requires { IsFolding case.now.topology routes.now }
{
    let (_, _, over, lines) = *table;
    match over {
        Over::Failing(calls) => {
            wrong_over(
                rt,
                alloc,
                case,
                routes,
                in_memory(rt, alloc, calls),
                MOST,
                lines,
            )
        }
        Over::Full(limit) => {
            let limit = u64::from(limit);
            assert!(rt; limit <= MOST, "a book takes fewer entries");
            wrong_over(
                rt,
                alloc,
                case,
                routes,
                in_memory(rt, alloc, &[]),
                limit,
                lines,
            )
        }
        Over::Blind(shown) => {
            wrong_over(
                rt,
                alloc,
                case,
                routes,
                blind(rt, alloc, 1, shown),
                MOST,
                lines,
            )
        }
    }
}

// The same over the case that the table tells.
fn wrong_in(rt: &impl Abort, alloc: Global, table: &Table) -> u64 {
    let (topology, events) = table.1;
    let (case, routes) = folded_case(rt, alloc, topology, events);
    let wrong = wrong_of(rt, alloc, &case, &routes, table);
    drop(routes);
    drop(case);
    wrong
}

// Each line of each table holds. One that does not is named, with its table.
pub(crate) fn all_hold(rt: &impl Abort, alloc: Global, tables: &[Table]) {
    for table in tables {
        let (name, line) = (table.0, wrong_in(rt, alloc, table));
        assert!(rt; line == 0, "{name}: line {line}");
    }
}
