//! What one worker does to its book: each call of a worker that a step asks for.
ghost use Rattle.std.specs.Prelude.{◌<◌, IfErr, IfOk, OnErr};
ghost use Rattle.topology.specs.Rules.{interval_count};
ghost use Rattle.outbox.specs.Messages.{IsComputation};
ghost use Rattle.node.specs.Workers.{worker_at};
ghost use Rattle.node.specs.Works.{IsWorkOf};
ghost use Rattle.world.specs.scripts.Standing.{FitsOwn};
ghost use Rattle.world.specs.drains.Turns.{HasFailed};
ghost use Rattle.world.specs.scripts.Stepping.{IsCausedBy};
ghost use Rattle.world.specs.scripts.WorkerCalls.{ActsOn, HasCalled, HasRested, IsFullOn};

use book::{Book, Desk, NoNote, OwnDesk};
use computations::Computation;
use node::{Node, NodeFault, Outcome};
use plans::Step;
use row_keeper::Keeper;
use std::alloc::Global;

// A worker claims an interval.
pub(crate) fn claim<'a, K: Keeper>(
    alloc: Global,
    book: &mut Book<'a, K>,
    node: &mut Node<NoNote>,
    interval: u32,
) -> Result<Outcome, NodeFault>
    requires fits { FitsOwn book.old node.old }
    requires there { interval < interval_count book.old.case.topology }
    ensures called { HasCalled book.old book.new node.old node.new }
    ensures acted { IfOk result (ActsOn (Step.Claim node.old.number interval)
        book.old node.old book.new node.new) }
    ensures cause { IfOk result (IsCausedBy (worker_at node.old)
        book.old.history book.new.history) }
    ensures rested { OnErr result (HasRested book.old book.new node.old node.new) }
    ensures failed { IfErr result (HasFailed book.old book.new) }
    ensures full { IfErr result (IsFullOn (Step.Claim node.old.number interval)
        book.old node.old) }
{
    // Its clauses say what always holds of a book.
    book.history();
    let case = book.case();
    let mut desk = OwnDesk { book };
    desk.sound();
    let result = node.claim(alloc, &mut desk, case, interval);
    desk.sound();
    result
}

// A worker injects the next line of an injector.
pub(crate) fn inject<'a, K: Keeper>(
    alloc: Global,
    book: &mut Book<'a, K>,
    node: &mut Node<NoNote>,
    part: u32,
) -> Result<Outcome, NodeFault>
    requires fits { FitsOwn book.old node.old }
    ensures called { HasCalled book.old book.new node.old node.new }
    ensures acted { IfOk result (ActsOn (Step.Inject node.old.number part)
        book.old node.old book.new node.new) }
    ensures cause { IfOk result (IsCausedBy (worker_at node.old)
        book.old.history book.new.history) }
    ensures rested { OnErr result (HasRested book.old book.new node.old node.new) }
    ensures failed { IfErr result (HasFailed book.old book.new) }
    ensures full { IfErr result (IsFullOn (Step.Inject node.old.number part)
        book.old node.old) }
{
    // Its clauses say what always holds of a book.
    book.history();
    let case = book.case();
    let mut desk = OwnDesk { book };
    desk.sound();
    let result = node.inject(alloc, &mut desk, case, part);
    desk.sound();
    result
}

// A worker writes what it has prepared.
pub(crate) fn write<'a, K: Keeper>(
    alloc: Global,
    book: &mut Book<'a, K>,
    node: &mut Node<NoNote>,
) -> Result<Outcome, NodeFault>
    requires fits { FitsOwn book.old node.old }
    ensures called { HasCalled book.old book.new node.old node.new }
    ensures acted { IfOk result (ActsOn (Step.Write node.old.number)
        book.old node.old book.new node.new) }
    ensures cause { IfOk result (IsCausedBy (worker_at node.old)
        book.old.history book.new.history) }
    ensures rested { OnErr result (HasRested book.old book.new node.old node.new) }
    ensures failed { IfErr result (HasFailed book.old book.new) }
    ensures full { IfErr result (IsFullOn (Step.Write node.old.number)
        book.old node.old) }
{
    // Its clauses say what always holds of a book.
    book.history();
    let case = book.case();
    let mut desk = OwnDesk { book };
    desk.sound();
    let result = node.commit(alloc, &mut desk, case);
    desk.sound();
    result
}

// A worker fires the next timer of a computation, where it is due.
pub(crate) fn fire<'a, K: Keeper, C: Computation>(
    alloc: Global,
    book: &mut Book<'a, K>,
    work: &C,
    node: &mut Node<NoNote>,
    part: u32,
) -> Result<Outcome, NodeFault>
    requires fits { FitsOwn book.old node.old }
    requires work { IsWorkOf book.old.case.topology (C.does work.now) }
    requires part { IsComputation book.old.case.topology part }
    ensures called { HasCalled book.old book.new node.old node.new }
    ensures acted { IfOk result (ActsOn (Step.Fire node.old.number part)
        book.old node.old book.new node.new) }
    ensures cause { IfOk result (IsCausedBy (worker_at node.old)
        book.old.history book.new.history) }
    ensures rested { OnErr result (HasRested book.old book.new node.old node.new) }
    ensures failed { IfErr result (HasFailed book.old book.new) }
    ensures full { IfErr result (IsFullOn (Step.Fire node.old.number part)
        book.old node.old) }
{
    // Its clauses say what always holds of a book.
    book.history();
    let case = book.case();
    let mut desk = OwnDesk { book };
    desk.sound();
    let result = node.fire(alloc, &mut desk, case, work, part);
    desk.sound();
    result
}

// A worker reports the own work of an interval.
pub(crate) fn report<'a, K: Keeper>(
    alloc: Global,
    book: &mut Book<'a, K>,
    node: &mut Node<NoNote>,
    interval: u32,
) -> Result<Outcome, NodeFault>
    requires fits { FitsOwn book.old node.old }
    requires there { interval < interval_count book.old.case.topology }
    ensures called { HasCalled book.old book.new node.old node.new }
    ensures acted { IfOk result (ActsOn (Step.Report node.old.number interval)
        book.old node.old book.new node.new) }
    ensures cause { IfOk result (IsCausedBy (worker_at node.old)
        book.old.history book.new.history) }
    ensures rested { OnErr result (HasRested book.old book.new node.old node.new) }
    ensures failed { IfErr result (HasFailed book.old book.new) }
    ensures full { IfErr result (IsFullOn (Step.Report node.old.number interval)
        book.old node.old) }
{
    // Its clauses say what always holds of a book.
    book.history();
    let case = book.case();
    let mut desk = OwnDesk { book };
    desk.sound();
    let result = node.report(alloc, &mut desk, case, interval);
    desk.sound();
    result
}

// A worker has all that is pending to send once more.
pub(crate) fn resend<'a, K: Keeper>(
    alloc: Global,
    book: &mut Book<'a, K>,
    node: &mut Node<NoNote>,
) -> Result<Outcome, NodeFault>
    requires fits { FitsOwn book.old node.old }
    ensures called { HasCalled book.old book.new node.old node.new }
    ensures acted { IfOk result (ActsOn (Step.Resend node.old.number)
        book.old node.old book.new node.new) }
    ensures cause { IfOk result (IsCausedBy (worker_at node.old)
        book.old.history book.new.history) }
    ensures rested { OnErr result (HasRested book.old book.new node.old node.new) }
    ensures failed { IfErr result (HasFailed book.old book.new) }
    ensures full { IfErr result (IsFullOn (Step.Resend node.old.number)
        book.old node.old) }
{
    // Its clauses say what always holds of a book.
    book.history();
    let case = book.case();
    let desk = OwnDesk { book };
    desk.sound();
    let result = node.sweep(alloc, &desk, case);
    desk.sound();
    result
}

// A worker purges a row of an interval.
pub(crate) fn purge<'a, K: Keeper>(
    alloc: Global,
    book: &mut Book<'a, K>,
    node: &mut Node<NoNote>,
    interval: u32,
) -> Result<Outcome, NodeFault>
    requires fits { FitsOwn book.old node.old }
    requires there { interval < interval_count book.old.case.topology }
    ensures called { HasCalled book.old book.new node.old node.new }
    ensures acted { IfOk result (ActsOn (Step.Purge node.old.number interval)
        book.old node.old book.new node.new) }
    ensures cause { IfOk result (IsCausedBy (worker_at node.old)
        book.old.history book.new.history) }
    ensures rested { OnErr result (HasRested book.old book.new node.old node.new) }
    ensures failed { IfErr result (HasFailed book.old book.new) }
    ensures full { IfErr result (IsFullOn (Step.Purge node.old.number interval)
        book.old node.old) }
{
    // Its clauses say what always holds of a book.
    book.history();
    let case = book.case();
    let mut desk = OwnDesk { book };
    desk.sound();
    let result = node.purge(alloc, &mut desk, case, interval, 1);
    desk.sound();
    result
}
