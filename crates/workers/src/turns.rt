//! One turn of work between the two ends of the gate.
ghost use Rattle.std.specs.Prelude.{◌≡◌, false, length, IfErr, OnOk};
ghost use Rattle.run_history.specs.Cases.{CaseShape, intervals_of};
ghost use Rattle.book.specs.Desks.{DeskView};
ghost use Rattle.node.specs.Fits.{Fits};
ghost use Rattle.node.specs.Works.{IsWorkOf};
ghost use Rattle.workers.specs.Passing.{ArePasses};
ghost use Rattle.workers.specs.Serving.{HasInjectedLeast, HasServed, HasServedLines, lines_each};
ghost use Rattle.workers.specs.Slices.{IsSliceFault};

use crate::calls::Commit;
use crate::mailbox::Mailbox;
use crate::office::Office;
use crate::orders::Orders;
use crate::passes::MailPass;
use crate::posting::send;
use crate::steps::{fire_all, inject_all, purge_all, report_all};
use crate::taking::take_all;
use crate::tries::until_free;
use book::{Desk, Seen};
use computations::Computation;
use mw_ports::Gate;
use node::{Node, NodeFault};
use run_history::Case;
use std::alloc::Global;
use std::sync::Wait;

// Writes what is prepared, and sends what it held.
fn settle_up<R: Wait, N: Seen, D: Desk<Note = N>, J: Office>(
    rt: &R,
    alloc: Global,
    node: &mut Node<N>,
    desk: &mut D,
    case: &Case,
    boxes: &[Mailbox<N, J>],
    passes: &mut [MailPass<N, J>],
) -> Result<(), NodeFault>
    requires fits { Fits case.now (D.view desk.old) node.old }
    requires shape { case.now.topology ≡ J.shape }
    requires book { (D.home desk.old).book ≡ J.book }
    requires passes { ArePasses (length (intervals_of case.now.topology)) boxes.now passes.old }

    ensures served { HasServed case.now 1 (D.view desk.old) (D.view desk.new)
        node.old node.new }
    ensures fault { IfErr result (IsSliceFault (D.view desk.old) (D.view desk.new)) }
    ensures passes { ArePasses (length (intervals_of case.now.topology)) boxes.now passes.new }
    ensures loan { D.loan desk.new ≡ D.loan desk.old }
    ensures home { D.home desk.new ≡ D.home desk.old }
{
    let held = node.unsent();
    until_free(rt, alloc, node, desk, case, &Commit)?;
    send(rt, alloc, node, desk, case, boxes, passes, held, false)?;
    Ok(())
}

// In each fourth round, what was pending at the fourth before is to be sent again, and rows forget ids.
fn tidy<R: Wait, N: Seen, D: Desk<Note = N>>(
    rt: &R,
    alloc: Global,
    node: &mut Node<N>,
    desk: &mut D,
    case: &Case,
    round: u32,
) -> Result<(), NodeFault>
    requires fits { Fits case.now (D.view desk.old) node.old }

    ensures served { HasServed case.now 488 (D.view desk.old) (D.view desk.new)
        node.old node.new }
    ensures fault { IfErr result (IsSliceFault (D.view desk.old) (D.view desk.new)) }
    ensures loan { D.loan desk.new ≡ D.loan desk.old }
    ensures home { D.home desk.new ≡ D.home desk.old }
{
    if round % 4 != 0 {
        return Ok(());
    }
    node.sweep_older(alloc, &*desk, case)?;
    purge_all(rt, alloc, node, desk, case)
}

// What it has to send is lost, where it is to be.
fn let_go<N: Seen>(node: &mut Node<N>, lose: bool)
    ensures rest { node.new ≡ record node.old { outbox = node.new.outbox } }
    ensures fits { (case : CaseShape) (desk : DeskView) → Fits case desk node.old →
        Fits case desk node.new }
{
    if !lose {
        return;
    }
    node.drop_messages();
}

// Sends what it has to send, as its orders have it.
fn send_out<R: Wait, N: Seen, D: Desk<Note = N>, J: Office>(
    rt: &R,
    alloc: Global,
    node: &mut Node<N>,
    desk: &mut D,
    case: &Case,
    boxes: &[Mailbox<N, J>],
    passes: &mut [MailPass<N, J>],
    orders: &Orders,
) -> Result<(), NodeFault>
    requires fits { Fits case.now (D.view desk.old) node.old }
    requires shape { case.now.topology ≡ J.shape }
    requires book { (D.home desk.old).book ≡ J.book }
    requires passes { ArePasses (length (intervals_of case.now.topology)) boxes.now passes.old }

    ensures served { HasServed case.now 0 (D.view desk.old) (D.view desk.new)
        node.old node.new }
    ensures fault { IfErr result (IsSliceFault (D.view desk.old) (D.view desk.new)) }
    ensures passes { ArePasses (length (intervals_of case.now.topology)) boxes.now passes.new }
    ensures loan { D.loan desk.new ≡ D.loan desk.old }
    ensures home { D.home desk.new ≡ D.home desk.old }
{
    let_go(node, orders.lose);
    if orders.hold {
        return Ok(());
    }
    let count = node.unsent();
    let repeat = orders.repeat;
    send(rt, alloc, node, desk, case, boxes, passes, count, repeat)?;
    Ok(())
}

// Timers fire, and up to 16 lines of each injector are injected.
fn work_on<R: Wait, N: Seen, D: Desk<Note = N>, C: Computation>(
    rt: &R,
    alloc: Global,
    node: &mut Node<N>,
    desk: &mut D,
    case: &Case,
    work: &C,
) -> Result<(), NodeFault>
    requires fits { Fits case.now (D.view desk.old) node.old }
    requires work { IsWorkOf case.now.topology (C.does work.now) }

    ensures served { HasServedLines case.now 1232 (lines_each 16) (D.view desk.old)
        (D.view desk.new) node.old node.new }
    ensures injected { OnOk result
        (HasInjectedLeast case.now node.old (D.view desk.old) (D.view desk.new)) }
    ensures fault { IfErr result (IsSliceFault (D.view desk.old) (D.view desk.new)) }
    ensures loan { D.loan desk.new ≡ D.loan desk.old }
    ensures home { D.home desk.new ≡ D.home desk.old }
{
    fire_all(rt, alloc, node, desk, case, work)?;
    inject_all(rt, alloc, node, desk, case)
}

// What it does once no message asks for more.
fn go_on<R: Wait, N: Seen, D: Desk<Note = N>, C: Computation, J: Office>(
    rt: &R,
    alloc: Global,
    node: &mut Node<N>,
    desk: &mut D,
    case: &Case,
    work: &C,
    boxes: &[Mailbox<N, J>],
    passes: &mut [MailPass<N, J>],
    orders: &Orders,
) -> Result<(), NodeFault>
    requires fits { Fits case.now (D.view desk.old) node.old }
    requires work { IsWorkOf case.now.topology (C.does work.now) }
    requires shape { case.now.topology ≡ J.shape }
    requires book { (D.home desk.old).book ≡ J.book }
    requires passes { ArePasses (length (intervals_of case.now.topology)) boxes.now passes.old }

    ensures served { HasServedLines case.now 1720 (lines_each 16) (D.view desk.old)
        (D.view desk.new) node.old node.new }
    ensures injected { OnOk result
        (HasInjectedLeast case.now node.old (D.view desk.old) (D.view desk.new)) }
    ensures fault { IfErr result (IsSliceFault (D.view desk.old) (D.view desk.new)) }
    ensures passes { ArePasses (length (intervals_of case.now.topology)) boxes.now passes.new }
    ensures loan { D.loan desk.new ≡ D.loan desk.old }
    ensures home { D.home desk.new ≡ D.home desk.old }
{
    work_on(rt, alloc, node, desk, case, work)?;
    tidy(rt, alloc, node, desk, case, orders.round)?;
    send_out(rt, alloc, node, desk, case, boxes, passes, orders)?;
    report_all(rt, alloc, node, desk, case)
}

// What is done between the gate's two ends.
pub(crate) fn within<R: Wait, N: Seen, D: Desk<Note = N>, C: Computation, G: Gate, J: Office>(
    rt: &R,
    alloc: Global,
    node: &mut Node<N>,
    desk: &mut D,
    case: &Case,
    work: &C,
    boxes: &[Mailbox<N, J>],
    passes: &mut [MailPass<N, J>],
    orders: &Orders,
    gate: &G,
) -> Result<(), NodeFault>
    requires fits { Fits case.now (D.view desk.old) node.old }
    requires work { IsWorkOf case.now.topology (C.does work.now) }
    requires alone { (D.view desk.old).alone ≡ false }
    requires shape { case.now.topology ≡ J.shape }
    requires book { (D.home desk.old).book ≡ J.book }
    requires passes { ArePasses (length (intervals_of case.now.topology)) boxes.now passes.old }

    ensures served { HasServedLines case.now 6000 (lines_each 16) (D.view desk.old)
        (D.view desk.new) node.old node.new }
    ensures injected { OnOk result (orders.now.stall ≡ false →
        HasInjectedLeast case.now node.old (D.view desk.old) (D.view desk.new)) }
    ensures fault { IfErr result (IsSliceFault (D.view desk.old) (D.view desk.new)) }
    ensures passes { ArePasses (length (intervals_of case.now.topology)) boxes.now passes.new }
    ensures loan { D.loan desk.new ≡ D.loan desk.old }
    ensures home { D.home desk.new ≡ D.home desk.old }
{
    settle_up(rt, alloc, node, desk, case, boxes, passes)?;
    let unwritten = take_all(
        rt,
        alloc,
        node,
        desk,
        case,
        work,
        boxes,
        passes,
        orders.stall,
        gate,
    )?;
    if unwritten && orders.stall {
        return Ok(());
    }
    go_on(rt, alloc, node, desk, case, work, boxes, passes, orders)
}
