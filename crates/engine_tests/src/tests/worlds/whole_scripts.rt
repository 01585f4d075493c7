//! Whole scripts, whose answers are dropped.
ghost use Rattle.world.specs.scripts.WorldStates.{IsFolding};

use super::fixtures::{MOST, world};
use super::tables::{entry_said, schedule};
use crate::tests::keepers::in_memory;
use crate::tests::must;
use crate::tests::text_cases::{COUNT, RECORDS, folded_case};
use computations::Kinds;
use node::NodeFault;
use row_keeper::Keeper;
use run_history::Case;
use std::alloc::Global;
use std::process::Abort;
use topology::Routes;
use world::{World, run_script};

// A worker has prepared a record and crashes before it writes.
const UNWRITTEN: &str = "# one worker
claim 0 0
claim 0 1

inject 0 0
send 0
take 0 0
crash 0
";

// Does the steps of a text. No other function runs a script.
pub(crate) fn runs<K: Keeper>(
    rt: &impl Abort,
    alloc: Global,
    world: &mut World<'_, K, Kinds>,
    text: &str,
) -> Result<(), NodeFault> {
    let case = world.book().case();
    let schedule = schedule(rt, alloc, case, world.weaks(), text);
    let ran = run_script(alloc, world, schedule.steps());
    drop(schedule);
    ran
}

// Does the steps of a text, and says whether they end so with so many entries.
fn leaves<K: Keeper>(
    rt: &impl Abort,
    alloc: Global,
    world: &mut World<'_, K, Kinds>,
    text: &str,
    is_ok: bool,
    entries: usize,
) -> bool {
    let ran = runs(rt, alloc, world, text);
    let ends_so = ran.is_ok() == is_ok;
    drop(ran);
    ends_so && world.book().history().len() == entries
}

// Drains, and says whether that goes well.
pub(crate) fn is_drained<K: Keeper>(alloc: Global, world: &mut World<'_, K, Kinds>) -> bool {
    let drained = world.drain(alloc);
    let is_ok = drained.is_ok();
    drop(drained);
    is_ok
}

// What a script is tried for.
enum Whole {
    // A drain behind it handles what was prepared.
    Handled,
    // It ends at a fault.
    Ended,
}

// The drain claims as entries 3 and 4, and handles the record as entry 5.
fn is_handled(rt: &impl Abort, alloc: Global, case: &Case, routes: &Routes) -> bool
    requires { IsFolding case.now.topology routes.now }
{
    let keeper = in_memory(rt, alloc, &[]);
    let mut world = world(rt, alloc, case, routes, keeper, MOST);
    let is_left = leaves(rt, alloc, &mut world, UNWRITTEN, true, 3);
    let is_drained = is_drained(alloc, &mut world);
    let book = world.into_book();
    let history = book.history();
    let is_handled = history.len() == 16 && entry_said(history.get(5)) == ("Handle", Some(2));
    drop(book);
    is_left && is_drained && is_handled
}

// The fourth call of the keeper fails, which the script's third step makes.
fn ends(rt: &impl Abort, alloc: Global, case: &Case, routes: &Routes) -> bool
    requires { IsFolding case.now.topology routes.now }
{
    let keeper = in_memory(rt, alloc, &[3]);
    let mut world = world(rt, alloc, case, routes, keeper, MOST);
    let ends = leaves(rt, alloc, &mut world, UNWRITTEN, false, 2);
    let goes_on = leaves(rt, alloc, &mut world, "inject 0 0\nclaim 1 1", true, 4);
    drop(world);
    ends && goes_on
}

// Whether it is so, over the count and its three records.
fn holds(rt: &impl Abort, alloc: Global, whole: &Whole) -> bool {
    let (case, routes) = folded_case(rt, alloc, COUNT, RECORDS);
    let holds = match whole {
        Whole::Handled => is_handled(rt, alloc, &case, &routes),
        Whole::Ended => ends(rt, alloc, &case, &routes),
    };
    drop(routes);
    drop(case);
    holds
}

#[test]
fn a_drain_handles_what_was_prepared(rt: HostRuntime) {
    must(
        &rt,
        holds(&rt, rt.alloc(), &Whole::Handled),
        "it is handled",
    );
}

#[test]
fn a_script_ends_at_a_fault(rt: HostRuntime) {
    must(&rt, holds(&rt, rt.alloc(), &Whole::Ended), "it ends there");
}
