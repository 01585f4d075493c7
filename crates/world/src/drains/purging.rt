//! What a drain does last: rows forget the ids that they have seen.
ghost use Rattle.std.specs.Prelude.{◌≡◌, ◌<◌, IfErr, IfOk, IfSome, IsSome, OnOk, false};
ghost use Rattle.topology.specs.Rules.{interval_count};
ghost use Rattle.run_history.specs.Legal.{floor_of};
ghost use Rattle.book.specs.Books.{core_of};
ghost use Rattle.book.specs.Lawful.{IsLawful};
ghost use Rattle.run_history.specs.Runs.{run_of};
ghost use Rattle.node.specs.Asking.{MayAskPurge};
ghost use Rattle.node.specs.PurgeSteps.{IsToPurge};
ghost use Rattle.world.specs.drains.Turns.{HasAskedOne, HasFailed, HasTurned, IsAtWork, IsEndOf, IsFullAsking, IsFullUnended, IsInjected, IsQuiet, IsSettled, WhereTold, worker_of};
ghost use Rattle.holdings.specs.Holding.{held_at};
ghost use Rattle.holdings.specs.Purges.{IsFirstToPurge};

use crate::drains::writes::put;
use book::{Book, Writing};
use holdings::Holdings;
use mw_types::{Duplicate, NoMemory, RowName};
use node::NodeFault;
use row_keeper::Keeper;
use std::alloc::Global;

// Has the first row that has seen ids, of all intervals, forget them.
pub(crate) fn purge_first<'a, K: Keeper>(
    alloc: Global,
    book: &mut Book<'a, K>,
    held: &mut Holdings,
) -> Result<bool, NodeFault>
    requires at_work { IsAtWork book.old (worker_of held.old) }
    requires settled { IsSettled book.old.case book.old.history }
    requires quiet { WhereTold book.old (IsQuiet book.old.case book.old.history) }
    requires injected { WhereTold book.old (IsInjected book.old.case book.old.history) }
    ensures turned { IfOk result (HasTurned book.old book.new) }
    ensures at_work { OnOk result (IsAtWork book.new (worker_of held.new)) }
    ensures ended { IfOk result (λ more. more ≡ false →
        WhereTold book.old (IsEndOf book.old.case book.old.history)) }
    ensures failed { IfErr result (HasFailed book.old book.new) }
    ensures unended { IfErr result (IsFullUnended book.old) }
{
    // Its clauses say what always holds of a book.
    book.history();
    let case = book.case();
    for interval in 0..case.interval_count() {
        let more = purge(alloc, book, held, interval)?;
        if more {
            return Ok(true);
        }
    }
    Ok(false)
}

// Has the first row of an interval that has seen ids forget them.
fn purge<'a, K: Keeper>(
    alloc: Global,
    book: &mut Book<'a, K>,
    held: &mut Holdings,
    interval: u32,
) -> Result<bool, NodeFault>
    requires at_work { IsAtWork book.old (worker_of held.old) }
    requires there { interval < interval_count book.old.case.topology }
    ensures asked { let shape = book.old.case.topology in
        let floor = floor_of (run_of shape book.old.history) in
        IfOk result (HasAskedOne book.old book.new
        (MayAskPurge shape (worker_of held.old) interval 1 floor)) }
    ensures lawful { IsLawful book.old.case (core_of book.old) }
    ensures at_work { OnOk result (IsAtWork book.new (worker_of held.new)) }
    ensures failed { IfErr result (HasFailed book.old book.new) }
    ensures asking { let shape = book.old.case.topology in
        let floor = floor_of (run_of shape book.old.history) in
        IfErr result (IsFullAsking (MayAskPurge shape (worker_of held.old) interval 1 floor)) }
{
    // Its clauses say what always holds of a book.
    book.history();
    let floor = book.floor();
    let found = to_purge(alloc, held, interval, floor)?;
    purge_found(alloc, book, held, interval, found, floor)
}

// Has what was found to be the first row of an interval that has ids to forget forget them.
fn purge_found<'a, K: Keeper>(
    alloc: Global,
    book: &mut Book<'a, K>,
    held: &mut Holdings,
    interval: u32,
    found: Option<RowName>,
    floor: u64,
) -> Result<bool, NodeFault>
    requires at_work { IsAtWork book.old (worker_of held.old) }
    requires found { IsToPurge book.old.case.topology (worker_of held.old) interval 1 floor found }
    requires floor { floor ≡ floor_of (run_of book.old.case.topology book.old.history) }
    ensures asked { IfOk result (HasAskedOne book.old book.new
        (MayAskPurge book.old.case.topology (worker_of held.old) interval 1 floor)) }
    ensures at_work { OnOk result (IsAtWork book.new (worker_of held.new)) }
    ensures failed { IfErr result (HasFailed book.old book.new) }
    ensures asking { IfErr result (IsFullAsking
        (MayAskPurge book.old.case.topology (worker_of held.old) interval 1 floor)) }
{
    match found {
        Some(name) => {
            let writing = Writing::Purge { floor };
            let purged = put(alloc, book, held, interval, &name, writing);
            drop(name);
            purged?;
            Ok(true)
        }
        None => Ok(false),
    }
}

// The first row of an interval that has ids to forget.
fn to_purge(
    alloc: Global,
    held: &Holdings,
    interval: u32,
    floor: u64,
) -> Result<Option<RowName>, NoMemory>
    requires there { IsSome (held_at held.now interval) }
    ensures first { IfOk result (λ found. IfSome (held_at held.now interval)
        (λ here. IsFirstToPurge floor 1 here.rows found)) }
{
    match held.to_purge(interval, floor, 1) {
        Some(name) => Ok(Some(name.copy(alloc)?)),
        None => Ok(None),
    }
}
