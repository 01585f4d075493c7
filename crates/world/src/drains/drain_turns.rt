//! A drain that is done turn by turn, so that its caller may look at each entry.
ghost use Rattle.std.specs.Prelude.{◌≡◌, ◌<◌, ◌-◌, IfOk, IfErr, IfSome, None, OnOk, false, true, length};
ghost use Rattle.node.specs.Works.{IsWorkOf};
ghost use Rattle.world.specs.drains.Drains.{HasEnded};
ghost use Rattle.world.specs.drains.Turns.{HasFailed, WhereTold};
ghost use Rattle.world.specs.drains.DrainTurns.{HasDrained, IsAtClaim, IsFullBefore, IsPastClaims, IsUnderWay};

use crate::drains::claiming::claim;
use crate::drains::turns::turn;
use book::Book;
use computations::Computation;
use holdings::Holdings;
use node::NodeFault;
use row_keeper::Keeper;
use std::alloc::Global;
use std::marker::Model;

/// A drain that was begun: how many entries there were, and what it holds of each interval.
#[derive(Drop)]
pub struct Drain {
    from: u64,
    held: Holdings,
}

impl Model for Drain {
    ghost use Rattle.world.specs.drains.DrainTurns.{DrainView};
    ghost use Rattle.world.specs.drains.Turns.{worker_of};

    ghost Value = { DrainView };

    ghost view = { λ d. record { from = d.from; node = worker_of d.held } };
}

/// Begins a drain of a book, which holds nothing yet. It takes no memory.
pub fn begin_drain<'a, K: Keeper>(alloc: Global, book: &Book<'a, K>) -> Drain
    ensures from { result.from ≡ length book.now.history }
    ensures under_way { IsUnderWay book.now result }
{
    Drain {
        from: book.history().len() as u64,
        held: Holdings::new(alloc),
    }
}

/// Appends the one entry that a drain has next, and tells whether there was one. A drain is these,
/// one after another; after a fault it is at its end, and another one may be begun.
pub fn drain_turn<'a, K: Keeper, C: Computation>(
    alloc: Global,
    book: &mut Book<'a, K>,
    work: &C,
    drain: &mut Drain,
) -> Result<bool, NodeFault>
    requires work { IsWorkOf book.old.case.topology (C.does work.now) }
    requires under_way { IsUnderWay book.old drain.old }

    ensures drained { IfOk result (HasDrained drain.old.from book.old book.new) }
    ensures under_way { OnOk result (IsUnderWay book.new drain.new) }
    ensures from { drain.new.from ≡ drain.old.from }

    // Where a contract can see the keeper's rows, no entry is left only at the drain's end.
    ensures ended { IfOk result (λ more. more ≡ false →
        WhereTold book.old (HasEnded book.old.case drain.old.from book.old.history)) }
    ensures nearer { IfOk result (λ more. more ≡ true →
        book.new.limit - length book.new.history < book.old.limit - length book.old.history) }
    ensures failed { IfErr result (HasFailed book.old book.new) }
    ensures unended { IfErr result (IsFullBefore drain.old.from book.old) }
{
    let turned = turn_once(alloc, book, work, drain);
    // Its clauses say that the history is within its limit.
    book.history();
    turned
}

// Claims the next interval, where one is left, and else writes what comes after the claims.
fn turn_once<'a, K: Keeper, C: Computation>(
    alloc: Global,
    book: &mut Book<'a, K>,
    work: &C,
    drain: &mut Drain,
) -> Result<bool, NodeFault>
    requires work { IsWorkOf book.old.case.topology (C.does work.now) }
    requires under_way { IsUnderWay book.old drain.old }
    ensures drained { IfOk result (HasDrained drain.old.from book.old book.new) }
    ensures under_way { OnOk result (IsUnderWay book.new drain.new) }
    ensures from { drain.new.from ≡ drain.old.from }
    ensures ended { IfOk result (λ more. more ≡ false →
        WhereTold book.old (HasEnded book.old.case drain.old.from book.old.history)) }
    ensures failed { IfErr result (HasFailed book.old book.new) }
    ensures unended { IfErr result (IsFullBefore drain.old.from book.old) }
{
    match next_claim(book, drain) {
        Some(interval) => claim_next(alloc, book, drain, interval),
        None => turn_next(alloc, book, work, drain),
    }
}

// The interval that is claimed next, while one is left.
fn next_claim<'a, K: Keeper>(book: &Book<'a, K>, drain: &Drain) -> Option<u32>
    requires under_way { IsUnderWay book.now drain.now }
    ensures next { IfSome result (IsAtClaim book.now drain.now) }
    ensures past { result ≡ None → IsPastClaims book.now drain.now }
{
    let claimed = book.history().len() as u64 - drain.from;
    if claimed < u64::from(book.case().interval_count()) {
        Some(claimed as u32)
    } else {
        None
    }
}

// Claims the next interval.
fn claim_next<'a, K: Keeper>(
    alloc: Global,
    book: &mut Book<'a, K>,
    drain: &mut Drain,
    interval: u32,
) -> Result<bool, NodeFault>
    requires next { IsAtClaim book.old drain.old interval }
    ensures drained { IfOk result (HasDrained drain.old.from book.old book.new) }
    ensures under_way { OnOk result (IsUnderWay book.new drain.new) }
    ensures from { drain.new.from ≡ drain.old.from }
    ensures more { IfOk result (λ more. more ≡ true) }
    ensures failed { IfErr result (HasFailed book.old book.new) }
    ensures unended { IfErr result (IsFullBefore drain.old.from book.old) }
{
    claim(alloc, book, &mut drain.held, interval)?;
    Ok(true)
}

// Writes the next entry after the claims, and tells whether there was one.
fn turn_next<'a, K: Keeper, C: Computation>(
    alloc: Global,
    book: &mut Book<'a, K>,
    work: &C,
    drain: &mut Drain,
) -> Result<bool, NodeFault>
    requires work { IsWorkOf book.old.case.topology (C.does work.now) }
    requires past { IsPastClaims book.old drain.old }
    ensures drained { IfOk result (HasDrained drain.old.from book.old book.new) }
    ensures under_way { OnOk result (IsUnderWay book.new drain.new) }
    ensures from { drain.new.from ≡ drain.old.from }
    ensures ended { IfOk result (λ more. more ≡ false →
        WhereTold book.old (HasEnded book.old.case drain.old.from book.old.history)) }
    ensures failed { IfErr result (HasFailed book.old book.new) }
    ensures unended { IfErr result (IsFullBefore drain.old.from book.old) }
{
    turn(alloc, book, work, &mut drain.held)
}
