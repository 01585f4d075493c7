//! Worlds that are drained turn by turn, as their twins are drained at once.
ghost use Rattle.std.specs.Prelude.{◌≡◌, OnSome, true};
ghost use Rattle.world.specs.WorldDrains.{HasDrain};
ghost use Rattle.world.specs.scripts.WorldStates.{IsFolding};

use super::fixtures::{CHAIN, MOST, world};
use super::tables::entry_said;
use super::whole_scripts::{is_drained, runs};
use crate::tests::keepers::in_memory;
use crate::tests::text_cases::{COUNT, RECORDS, TWO, folded_case};
use crate::tests::{made, must};
use computations::Kinds;
use row_keeper::{Keeper, MemKeeper};
use run_history::{Case, History};
use std::alloc::Global;
use std::process::Abort;
use topology::Routes;
use world::{Drain, World};

// Whether the next turn writes one entry, which is the one that a whole history has at its place, or none
// where it has to write none.
fn turns<K: Keeper>(
    alloc: Global,
    world: &mut World<'_, K, Kinds>,
    drain: &mut Drain,
    whole: &History,
    is_more: bool,
) -> bool
    requires drain { HasDrain world.old drain.old }
    ensures drain { result ≡ true → HasDrain world.new drain.new }
{
    let count = world
        .book()
        .history()
        .len()
        .saturating_add(usize::from(is_more));
    let Some(more) = turn(alloc, world, drain) else {
        return false;
    };
    let history = world.book().history();
    let last = history.len().wrapping_sub(1);
    let is_as = entry_said(history.get(last)) == entry_said(whole.get(last));
    more == is_more && history.len() == count && is_as
}

// Whether the next turn writes an entry, or none after a fault.
fn turn<K: Keeper>(
    alloc: Global,
    world: &mut World<'_, K, Kinds>,
    drain: &mut Drain,
) -> Option<bool>
    requires drain { HasDrain world.old drain.old }
    ensures drain { OnSome result (HasDrain world.new drain.new) }
{
    world.drain_turn(alloc, drain).ok()
}

// Whether a drain by turns writes the entries of a whole history, one a turn, and then none, however often
// it is asked.
fn is_drained_as<K: Keeper>(
    alloc: Global,
    world: &mut World<'_, K, Kinds>,
    whole: &History,
) -> bool {
    let left = whole.len().saturating_sub(world.book().history().len());
    let mut drain = world.begin_drain(alloc);
    let holds = turns_on(alloc, world, &mut drain, whole, left);
    drop(drain);
    holds
}

// Whether so many turns write one entry of a whole history each, and two more write none.
fn turns_on<K: Keeper>(
    alloc: Global,
    world: &mut World<'_, K, Kinds>,
    drain: &mut Drain,
    whole: &History,
    left: usize,
) -> bool
    requires drain { HasDrain world.old drain.old }
{
    for _ in 0..left {
        if !turns(alloc, world, drain, whole, true) {
            return false;
        }
    }
    turns(alloc, world, drain, whole, false) && turns(alloc, world, drain, whole, false)
}

// A world that has done a script, over a keeper whose calls of these numbers fail.
fn after<'a>(
    rt: &impl Abort,
    alloc: Global,
    case: &'a Case,
    routes: &Routes,
    failing: &[u64],
    script: &str,
) -> World<'a, MemKeeper, Kinds>
    requires { IsFolding case.now.topology routes.now }
{
    let keeper = in_memory(rt, alloc, failing);
    let mut world = world(rt, alloc, case, routes, keeper, MOST);
    made(rt, runs(rt, alloc, &mut world, script));
    world
}

// Whether both ways of a drain write the same behind a script.
fn is_one(
    rt: &impl Abort,
    alloc: Global,
    files: (&str, &str),
    failing: &[u64],
    script: &str,
) -> bool {
    let (topology, events) = files;
    let (case, routes) = folded_case(rt, alloc, topology, events);
    let holds = is_one_of(rt, alloc, &case, &routes, failing, script);
    drop(routes);
    drop(case);
    holds
}

// The same of a case: a world is drained at once, and once more after a fault, and each ends as is wanted.
fn is_one_of(
    rt: &impl Abort,
    alloc: Global,
    case: &Case,
    routes: &Routes,
    failing: &[u64],
    script: &str,
) -> bool
    requires { IsFolding case.now.topology routes.now }
{
    let is_faulty = !failing.is_empty();
    let mut twin = after(rt, alloc, case, routes, failing, script);
    let ends = is_drained(alloc, &mut twin) != is_faulty
        && (!is_faulty || is_drained(alloc, &mut twin));
    let holds = ends
        && turns_as(
            rt,
            alloc,
            case,
            routes,
            failing,
            script,
            twin.book().history(),
        );
    drop(twin);
    holds
}

// Whether a drain by turns of a world behind a script writes the entries of a whole history. After a fault it is
// drained once more, as its twin was.
fn turns_as(
    rt: &impl Abort,
    alloc: Global,
    case: &Case,
    routes: &Routes,
    failing: &[u64],
    script: &str,
    whole: &History,
) -> bool
    requires { IsFolding case.now.topology routes.now }
{
    let mut world = after(rt, alloc, case, routes, failing, script);
    let first = is_drained_as(alloc, &mut world, whole);
    let holds = if failing.is_empty() {
        first
    } else {
        !first && is_drained_as(alloc, &mut world, whole)
    };
    drop(world);
    holds
}

// A worker crashes before it sends, and the record that the next owner sends again is in flight.
const IN_FLIGHT: &str = "claim 0 0
claim 0 1
inject 0 0
crash 0
claim 1 0
resend 1
send 1
";

// A record is prepared, and its sender has crashed.
const PREPARED: &str = "claim 0 0
claim 1 1
inject 0 0
send 0
take 1 0
crash 0
";

// Scripts before a drain: of each the name, the case, the calls of the keeper that fail, and the steps.
type Scripted = (
    &'static str,
    (&'static str, &'static str),
    &'static [u64],
    &'static str,
);

static SCRIPTS: [Scripted; 5] = [
    ("no script", (COUNT, RECORDS), &[], ""),
    ("a message in flight", (COUNT, RECORDS), &[], IN_FLIGHT),
    ("a record prepared", (COUNT, TWO), &[], PREPARED),
    ("a chain of counts", (CHAIN, TWO), &[], ""),
    // The sixth call is that of the second line.
    ("a keeper that fails once", (COUNT, RECORDS), &[6], ""),
];

#[test]
fn a_drain_by_turns_writes_what_a_drain_does(rt: HostRuntime) {
    for (name, files, failing, script) in &SCRIPTS {
        must(&rt, is_one(&rt, rt.alloc(), *files, failing, script), name);
    }
}
