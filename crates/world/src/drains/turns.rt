//! One turn of a drain.
ghost use Rattle.std.specs.Prelude.{◌≡◌, IfErr, IfOk, OnOk, false};
ghost use Rattle.node.specs.Works.{IsWorkOf};
ghost use Rattle.world.specs.drains.Turns.{AreExact, HasFailed, HasTurned, IsAtWork, IsEndOf, IsFullUnended, IsQuiet, IsSettled, WhereTold, worker_of};

use crate::drains::firing::{fire_first, report_all};
use crate::drains::injecting::inject_next;
use crate::drains::least_work::work_on;
use crate::drains::purging::purge_first;
use book::Book;
use computations::Computation;
use holdings::Holdings;
use mw_types::Duplicate;
use node::NodeFault;
use row_keeper::Keeper;
use std::alloc::Global;

// Writes the one entry that comes next, and tells whether there was one: it works on one delivery,
// where one is not acknowledged, and else goes on to what comes after that.
pub(crate) fn turn<'a, K: Keeper, C: Computation>(
    alloc: Global,
    book: &mut Book<'a, K>,
    work: &C,
    held: &mut Holdings,
) -> Result<bool, NodeFault>
    requires work { IsWorkOf book.old.case.topology (C.does work.now) }
    requires at_work { IsAtWork book.old (worker_of held.old) }
    ensures turned { IfOk result (HasTurned book.old book.new) }
    ensures at_work { OnOk result (IsAtWork book.new (worker_of held.new)) }
    ensures ended { IfOk result (λ more. more ≡ false →
        WhereTold book.old (IsEndOf book.old.case book.old.history)) }
    ensures failed { IfErr result (HasFailed book.old book.new) }
    ensures unended { IfErr result (IsFullUnended book.old) }
{
    let Some((id, sender)) = book.least_sent() else {
        return go_on(alloc, book, work, held);
    };
    let sender = sender.copy(alloc)?;
    let worked = work_on(alloc, book, work, held, id, &sender);
    drop(sender);
    worked
}

// Where all is acknowledged: finds the low watermarks, and goes on by them.
fn go_on<'a, K: Keeper, C: Computation>(
    alloc: Global,
    book: &mut Book<'a, K>,
    work: &C,
    held: &mut Holdings,
) -> Result<bool, NodeFault>
    requires work { IsWorkOf book.old.case.topology (C.does work.now) }
    requires at_work { IsAtWork book.old (worker_of held.old) }
    requires settled { IsSettled book.old.case book.old.history }
    ensures turned { IfOk result (HasTurned book.old book.new) }
    ensures at_work { OnOk result (IsAtWork book.new (worker_of held.new)) }
    ensures ended { IfOk result (λ more. more ≡ false →
        WhereTold book.old (IsEndOf book.old.case book.old.history)) }
    ensures failed { IfErr result (HasFailed book.old book.new) }
    ensures unended { IfErr result (IsFullUnended book.old) }
{
    // Its clauses say what always holds of a book.
    book.history();
    report_all(alloc, book, held)?;
    fire_or_inject(alloc, book, work, held)
}

// Where the marks are exact: fires a timer, else injects a line, else has a row forget its ids.
fn fire_or_inject<'a, K: Keeper, C: Computation>(
    alloc: Global,
    book: &mut Book<'a, K>,
    work: &C,
    held: &mut Holdings,
) -> Result<bool, NodeFault>
    requires work { IsWorkOf book.old.case.topology (C.does work.now) }
    requires at_work { IsAtWork book.old (worker_of held.old) }
    requires settled { IsSettled book.old.case book.old.history }
    requires exact { WhereTold book.old (AreExact book.old) }
    ensures turned { IfOk result (HasTurned book.old book.new) }
    ensures at_work { OnOk result (IsAtWork book.new (worker_of held.new)) }
    ensures ended { IfOk result (λ more. more ≡ false →
        WhereTold book.old (IsEndOf book.old.case book.old.history)) }
    ensures failed { IfErr result (HasFailed book.old book.new) }
    ensures unended { IfErr result (IsFullUnended book.old) }
{
    let fired = fire_first(alloc, book, work, held)?;
    if fired {
        return Ok(true);
    }
    inject_or_purge(alloc, book, held)
}

// Where no timer is due: injects a line, else has a row forget its ids.
fn inject_or_purge<'a, K: Keeper>(
    alloc: Global,
    book: &mut Book<'a, K>,
    held: &mut Holdings,
) -> Result<bool, NodeFault>
    requires at_work { IsAtWork book.old (worker_of held.old) }
    requires settled { IsSettled book.old.case book.old.history }
    requires quiet { WhereTold book.old (IsQuiet book.old.case book.old.history) }
    ensures turned { IfOk result (HasTurned book.old book.new) }
    ensures at_work { OnOk result (IsAtWork book.new (worker_of held.new)) }
    ensures ended { IfOk result (λ more. more ≡ false →
        WhereTold book.old (IsEndOf book.old.case book.old.history)) }
    ensures failed { IfErr result (HasFailed book.old book.new) }
    ensures unended { IfErr result (IsFullUnended book.old) }
{
    let injected = inject_next(alloc, book, held)?;
    if injected {
        return Ok(true);
    }
    purge_first(alloc, book, held)
}
