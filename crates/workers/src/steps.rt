//! The steps of a turn of work that no message asks for.
ghost use Rattle.std.specs.Prelude.{◌≡◌, ◌<◌, IfErr, IsTrue, OnOk};
ghost use Rattle.topology.specs.Rules.{interval_count};
ghost use Rattle.topology.specs.Shapes.{injectors_of};
ghost use Rattle.node.specs.Fits.{Fits};
ghost use Rattle.outbox.specs.Messages.{IsComputation};
ghost use Rattle.node.specs.Works.{IsWorkOf};
ghost use Rattle.node.specs.declared.outcome.Outcome.TheVariants as outcomes;
ghost use Rattle.workers.specs.Serving.{HasInjectedLeast, HasLeastLinesOf, HasServed, HasServedLines, lines_each, lines_of};
ghost use Rattle.workers.specs.Slices.{IsSliceFault};

use crate::calls::{Fire, Inject, Purge, Report};
use crate::counts::{injectors_in, intervals_in, parts_in};
use crate::held::{held_of, is_of};
use crate::tries::until_free;
use book::{Desk, Seen};
use computations::Computation;
use node::{Node, NodeFault, Outcome};
use run_history::Case;
use std::alloc::Global;
use std::sync::Wait;

// Whether there was nothing to do.
fn is_nothing(outcome: &Outcome) -> bool
    ensures nothing { IsTrue result → outcome.now ≡ outcomes.Nothing }
{
    match outcome {
        Outcome::Nothing => true,
        _ => false,
    }
}

// The own work of an interval is reported, where it is one of a part.
fn report_of<R: Wait, N: Seen, D: Desk<Note = N>>(
    rt: &R,
    alloc: Global,
    node: &mut Node<N>,
    desk: &mut D,
    case: &Case,
    interval: u32,
    part: u32,
) -> Result<(), NodeFault>
    requires fits { Fits case.now (D.view desk.old) node.old }
    requires there { interval < interval_count case.now.topology }

    ensures served { HasServed case.now 0 (D.view desk.old) (D.view desk.new)
        node.old node.new }
    ensures fault { IfErr result (IsSliceFault (D.view desk.old) (D.view desk.new)) }
    ensures loan { D.loan desk.new ≡ D.loan desk.old }
    ensures home { D.home desk.new ≡ D.home desk.old }
{
    if !is_of(case, interval, part) {
        return Ok(());
    }
    until_free(rt, alloc, node, desk, case, &Report { interval })?;
    Ok(())
}

// The own work of each interval of a part is reported.
fn report_part<R: Wait, N: Seen, D: Desk<Note = N>>(
    rt: &R,
    alloc: Global,
    node: &mut Node<N>,
    desk: &mut D,
    case: &Case,
    part: u32,
) -> Result<(), NodeFault>
    requires fits { Fits case.now (D.view desk.old) node.old }

    ensures served { HasServed case.now 0 (D.view desk.old) (D.view desk.new)
        node.old node.new }
    ensures fault { IfErr result (IsSliceFault (D.view desk.old) (D.view desk.new)) }
    ensures loan { D.loan desk.new ≡ D.loan desk.old }
    ensures home { D.home desk.new ≡ D.home desk.old }
{
    let intervals = intervals_in(case);
    for interval in 0..intervals {
        report_of(rt, alloc, node, desk, case, interval, part)?;
    }
    Ok(())
}

// The next timer of a part fires. Where none is due, own work is reported, and one that is due then fires. True
// where none is due still.
fn fire_next<R: Wait, N: Seen, D: Desk<Note = N>, C: Computation>(
    rt: &R,
    alloc: Global,
    node: &mut Node<N>,
    desk: &mut D,
    case: &Case,
    work: &C,
    part: u32,
) -> Result<bool, NodeFault>
    requires fits { Fits case.now (D.view desk.old) node.old }
    requires work { IsWorkOf case.now.topology (C.does work.now) }
    requires part { IsComputation case.now.topology part }

    ensures served { HasServed case.now 1 (D.view desk.old) (D.view desk.new)
        node.old node.new }
    ensures fault { IfErr result (IsSliceFault (D.view desk.old) (D.view desk.new)) }
    ensures loan { D.loan desk.new ≡ D.loan desk.old }
    ensures home { D.home desk.new ≡ D.home desk.old }
{
    let first = until_free(rt, alloc, node, desk, case, &Fire { work, part })?;
    if !is_nothing(&first) {
        return Ok(false);
    }
    report_part(rt, alloc, node, desk, case, part)?;
    let next = until_free(rt, alloc, node, desk, case, &Fire { work, part })?;
    Ok(is_nothing(&next))
}

// Up to so many timers of a part fire.
fn fire_part<R: Wait, N: Seen, D: Desk<Note = N>, C: Computation>(
    rt: &R,
    alloc: Global,
    node: &mut Node<N>,
    desk: &mut D,
    case: &Case,
    work: &C,
    part: u32,
    most: u32,
) -> Result<(), NodeFault>
    requires fits { Fits case.now (D.view desk.old) node.old }
    requires work { IsWorkOf case.now.topology (C.does work.now) }
    requires part { IsComputation case.now.topology part }

    ensures served { HasServed case.now most (D.view desk.old) (D.view desk.new)
        node.old node.new }
    ensures fault { IfErr result (IsSliceFault (D.view desk.old) (D.view desk.new)) }
    ensures loan { D.loan desk.new ≡ D.loan desk.old }
    ensures home { D.home desk.new ≡ D.home desk.old }
{
    for done in 0..most {
        if fire_next(rt, alloc, node, desk, case, work, part)? {
            return Ok(());
        }
    }
    Ok(())
}

// Up to 16 timers of each computation fire for each interval of it that the worker has.
pub(crate) fn fire_all<R: Wait, N: Seen, D: Desk<Note = N>, C: Computation>(
    rt: &R,
    alloc: Global,
    node: &mut Node<N>,
    desk: &mut D,
    case: &Case,
    work: &C,
) -> Result<(), NodeFault>
    requires fits { Fits case.now (D.view desk.old) node.old }
    requires work { IsWorkOf case.now.topology (C.does work.now) }

    ensures served { HasServed case.now 976 (D.view desk.old) (D.view desk.new)
        node.old node.new }
    ensures fault { IfErr result (IsSliceFault (D.view desk.old) (D.view desk.new)) }
    ensures loan { D.loan desk.new ≡ D.loan desk.old }
    ensures home { D.home desk.new ≡ D.home desk.old }
{
    let parts = parts_in(case);
    let injectors = injectors_in(case);
    // 16 for each interval that there may be. Since no interval is of two parts, what is left never makes it less.
    let mut left = 976u32;
    for part in injectors..parts {
        let most = left.min(16 * held_of(node, case, part));
        fire_part(rt, alloc, node, desk, case, work, part, most)?;
        left -= most;
    }
    Ok(())
}

// Up to 16 lines of an injector are injected.
fn inject_part<R: Wait, N: Seen, D: Desk<Note = N>>(
    rt: &R,
    alloc: Global,
    node: &mut Node<N>,
    desk: &mut D,
    case: &Case,
    part: u32,
) -> Result<(), NodeFault>
    requires fits { Fits case.now (D.view desk.old) node.old }
    requires part { part < injectors_of case.now.topology }

    ensures served { HasServedLines case.now 16 (lines_of part 16) (D.view desk.old)
        (D.view desk.new) node.old node.new }
    ensures lines { OnOk result
        (HasLeastLinesOf 16 case.now part node.old (D.view desk.old) (D.view desk.new)) }
    ensures fault { IfErr result (IsSliceFault (D.view desk.old) (D.view desk.new)) }
    ensures loan { D.loan desk.new ≡ D.loan desk.old }
    ensures home { D.home desk.new ≡ D.home desk.old }
{
    for done in 0..16u32 {
        let outcome = until_free(rt, alloc, node, desk, case, &Inject { part })?;
        if is_nothing(&outcome) {
            return Ok(());
        }
    }
    Ok(())
}

// Up to 16 lines of each injector are injected.
pub(crate) fn inject_all<R: Wait, N: Seen, D: Desk<Note = N>>(
    rt: &R,
    alloc: Global,
    node: &mut Node<N>,
    desk: &mut D,
    case: &Case,
) -> Result<(), NodeFault>
    requires fits { Fits case.now (D.view desk.old) node.old }

    ensures served { HasServedLines case.now 256 (lines_each 16) (D.view desk.old)
        (D.view desk.new) node.old node.new }
    ensures injected { OnOk result
        (HasInjectedLeast case.now node.old (D.view desk.old) (D.view desk.new)) }
    ensures fault { IfErr result (IsSliceFault (D.view desk.old) (D.view desk.new)) }
    ensures loan { D.loan desk.new ≡ D.loan desk.old }
    ensures home { D.home desk.new ≡ D.home desk.old }
{
    let injectors = injectors_in(case);
    for part in 0..injectors {
        inject_part(rt, alloc, node, desk, case, part)?;
    }
    Ok(())
}

// Up to 8 rows of an interval forget ids, where they have 64.
fn purge_at<R: Wait, N: Seen, D: Desk<Note = N>>(
    rt: &R,
    alloc: Global,
    node: &mut Node<N>,
    desk: &mut D,
    case: &Case,
    interval: u32,
) -> Result<(), NodeFault>
    requires fits { Fits case.now (D.view desk.old) node.old }

    ensures served { HasServed case.now 8 (D.view desk.old) (D.view desk.new)
        node.old node.new }
    ensures fault { IfErr result (IsSliceFault (D.view desk.old) (D.view desk.new)) }
    ensures loan { D.loan desk.new ≡ D.loan desk.old }
    ensures home { D.home desk.new ≡ D.home desk.old }
{
    for done in 0..8u32 {
        let outcome = until_free(rt, alloc, node, desk, case, &Purge { interval })?;
        if is_nothing(&outcome) {
            return Ok(());
        }
    }
    Ok(())
}

// Up to 8 rows of each interval forget ids.
pub(crate) fn purge_all<R: Wait, N: Seen, D: Desk<Note = N>>(
    rt: &R,
    alloc: Global,
    node: &mut Node<N>,
    desk: &mut D,
    case: &Case,
) -> Result<(), NodeFault>
    requires fits { Fits case.now (D.view desk.old) node.old }

    ensures served { HasServed case.now 488 (D.view desk.old) (D.view desk.new)
        node.old node.new }
    ensures fault { IfErr result (IsSliceFault (D.view desk.old) (D.view desk.new)) }
    ensures loan { D.loan desk.new ≡ D.loan desk.old }
    ensures home { D.home desk.new ≡ D.home desk.old }
{
    let intervals = intervals_in(case);
    for interval in 0..intervals {
        purge_at(rt, alloc, node, desk, case, interval)?;
    }
    Ok(())
}

// The own work of each interval is reported.
pub(crate) fn report_all<R: Wait, N: Seen, D: Desk<Note = N>>(
    rt: &R,
    alloc: Global,
    node: &mut Node<N>,
    desk: &mut D,
    case: &Case,
) -> Result<(), NodeFault>
    requires fits { Fits case.now (D.view desk.old) node.old }

    ensures served { HasServed case.now 0 (D.view desk.old) (D.view desk.new)
        node.old node.new }
    ensures fault { IfErr result (IsSliceFault (D.view desk.old) (D.view desk.new)) }
    ensures loan { D.loan desk.new ≡ D.loan desk.old }
    ensures home { D.home desk.new ≡ D.home desk.old }
{
    let intervals = intervals_in(case);
    for interval in 0..intervals {
        until_free(rt, alloc, node, desk, case, &Report { interval })?;
    }
    Ok(())
}
