//! Messages that a worker takes from its mailboxes.
ghost use Rattle.std.specs.Prelude.{◌≡◌, ◌<◌, ◌≤◌, ◌-◌, false, length, IfErr, IfOk, IsFalse, IsTrue};
ghost use Rattle.topology.specs.Shapes.{parts_of};
ghost use Rattle.run_history.specs.Cases.{intervals_of};
ghost use Rattle.crossbeam_queue.specs.Passes.{IsPassOf};
ghost use Rattle.node.specs.Fits.{Fits};
ghost use Rattle.outbox.specs.Messages.{IsAddressed};
ghost use Rattle.node.specs.Received.{IsAck, IsDeliver, note_of, outgoing_of};
ghost use Rattle.node.specs.Works.{IsWorkOf};
ghost use Rattle.workers.specs.Passing.{ArePasses};
ghost use Rattle.workers.specs.Serving.{HasServed};
ghost use Rattle.workers.specs.Slices.{IsSliceFault};

use crate::budget::Budget;
use crate::calls::Commit;
use crate::counts::intervals_in;
use crate::held::held_in;
use crate::mailbox::Mailbox;
use crate::office::Office;
use crate::passes::MailPass;
use crate::tries::{until_free, until_settled};
use book::{Desk, Seen};
use computations::Computation;
use mw_ports::{Gate, Point};
use node::{Message, Node, NodeFault, Outcome, Receipt};
use run_history::Case;
use std::alloc::Global;
use std::sync::Wait;

// Whether a record was handled, and is still to be written.
fn is_prepared(outcome: &Outcome) -> bool {
    match outcome {
        Outcome::Prepared => true,
        _ => false,
    }
}

// Whether a message is a record.
fn is_record<N: Seen>(message: &Message<N>) -> bool
    ensures record { IsTrue result → IsDeliver (outgoing_of message.now) }
    ensures ack { IsFalse result → IsAck (outgoing_of message.now) }
{
    match message {
        Message::Deliver { parcel: _ } => true,
        Message::Ack { receipt: _ } => false,
    }
}

// Whether an entry was appended.
fn is_committed(outcome: &Outcome) -> bool {
    match outcome {
        Outcome::Committed { commit: _ } => true,
        _ => false,
    }
}

// Writes what is prepared, between two points of the gate: the second is passed only where it was
// written.
fn write_through<R: Wait, N: Seen, D: Desk<Note = N>, G: Gate>(
    rt: &R,
    alloc: Global,
    node: &mut Node<N>,
    desk: &mut D,
    case: &Case,
    gate: &G,
) -> Result<(), NodeFault>
    requires fits { Fits case.now (D.view desk.old) node.old }

    ensures served { HasServed case.now 1 (D.view desk.old) (D.view desk.new)
        node.old node.new }
    ensures fault { IfErr result (IsSliceFault (D.view desk.old) (D.view desk.new)) }
    ensures loan { D.loan desk.new ≡ D.loan desk.old }
    ensures home { D.home desk.new ≡ D.home desk.old }
{
    gate.at(node.worker(), Point::BeforeCommit);
    let outcome = until_free(rt, alloc, node, desk, case, &Commit)?;
    if is_committed(&outcome) {
        gate.at(node.worker(), Point::AfterCommit);
    }
    Ok(())
}

// Takes in a record. True where it was handled, and is still to be written.
fn take_in<N: Seen, D: Desk<Note = N>, C: Computation>(
    alloc: Global,
    node: &mut Node<N>,
    desk: &mut D,
    case: &Case,
    work: &C,
    message: Message<N>,
) -> Result<bool, NodeFault>
    requires fits { Fits case.now (D.view desk.old) node.old }
    requires work { IsWorkOf case.now.topology (C.does work.now) }
    requires alone { (D.view desk.old).alone ≡ false }
    requires addressed { IsAddressed case.now.topology (outgoing_of message) }
    requires known { N.book (note_of message) ≡ (D.home desk.old).book }
    requires record { IsDeliver (outgoing_of message) }

    ensures served { HasServed case.now 0 (D.view desk.old) (D.view desk.new)
        node.old node.new }
    ensures fault { IfErr result (IsSliceFault (D.view desk.old) (D.view desk.new)) }
    ensures loan { D.loan desk.new ≡ D.loan desk.old }
    ensures home { D.home desk.new ≡ D.home desk.old }
{
    let outcome = node.prepare(alloc, desk, case, work, message)?;
    Ok(is_prepared(&outcome))
}

// Takes in word that a record was handled, once it is out of its message.
fn take_receipt<R: Wait, N: Seen, D: Desk<Note = N>>(
    rt: &R,
    alloc: Global,
    node: &mut Node<N>,
    desk: &mut D,
    case: &Case,
    receipt: Receipt<N>,
) -> Result<bool, NodeFault>
    requires fits { Fits case.now (D.view desk.old) node.old }
    requires alone { (D.view desk.old).alone ≡ false }
    requires part { receipt.to.part < parts_of case.now.topology }
    requires known { N.book receipt.note ≡ (D.home desk.old).book }

    ensures served { HasServed case.now 1 (D.view desk.old) (D.view desk.new)
        node.old node.new }
    ensures fault { IfErr result (IsSliceFault (D.view desk.old) (D.view desk.new)) }
    ensures loan { D.loan desk.new ≡ D.loan desk.old }
    ensures home { D.home desk.new ≡ D.home desk.old }
{
    let Receipt { to, id, note } = receipt;
    desk.sound();
    desk.meet(note);
    desk.sound();
    let _answer = until_settled(rt, alloc, node, desk, case, &to, id)?;
    Ok(false)
}

// Takes in word that a record was handled.
fn take_word<R: Wait, N: Seen, D: Desk<Note = N>>(
    rt: &R,
    alloc: Global,
    node: &mut Node<N>,
    desk: &mut D,
    case: &Case,
    message: Message<N>,
) -> Result<bool, NodeFault>
    requires fits { Fits case.now (D.view desk.old) node.old }
    requires alone { (D.view desk.old).alone ≡ false }
    requires addressed { IsAddressed case.now.topology (outgoing_of message) }
    requires known { N.book (note_of message) ≡ (D.home desk.old).book }
    requires ack { IsAck (outgoing_of message) }

    ensures served { HasServed case.now 1 (D.view desk.old) (D.view desk.new)
        node.old node.new }
    ensures fault { IfErr result (IsSliceFault (D.view desk.old) (D.view desk.new)) }
    ensures loan { D.loan desk.new ≡ D.loan desk.old }
    ensures home { D.home desk.new ≡ D.home desk.old }
{
    match message {
        Message::Ack { receipt } => take_receipt(rt, alloc, node, desk, case, receipt),
        Message::Deliver { parcel: _ } => unreachable!(),
    }
}

// Takes a record. True where the work is to stay prepared, since the worker stalls.
fn take_record<R: Wait, N: Seen, D: Desk<Note = N>, C: Computation, G: Gate>(
    rt: &R,
    alloc: Global,
    node: &mut Node<N>,
    desk: &mut D,
    case: &Case,
    work: &C,
    message: Message<N>,
    stall: bool,
    gate: &G,
) -> Result<bool, NodeFault>
    requires fits { Fits case.now (D.view desk.old) node.old }
    requires work { IsWorkOf case.now.topology (C.does work.now) }
    requires alone { (D.view desk.old).alone ≡ false }
    requires addressed { IsAddressed case.now.topology (outgoing_of message) }
    requires known { N.book (note_of message) ≡ (D.home desk.old).book }
    requires record { IsDeliver (outgoing_of message) }

    ensures served { HasServed case.now 1 (D.view desk.old) (D.view desk.new)
        node.old node.new }
    ensures fault { IfErr result (IsSliceFault (D.view desk.old) (D.view desk.new)) }
    ensures loan { D.loan desk.new ≡ D.loan desk.old }
    ensures home { D.home desk.new ≡ D.home desk.old }
{
    let prepared = take_in(alloc, node, desk, case, work, message)?;
    if !prepared || stall {
        return Ok(prepared);
    }
    write_through(rt, alloc, node, desk, case, gate)?;
    Ok(false)
}

// Takes one message. True where the worker stalls.
pub(crate) fn take_one<R: Wait, N: Seen, D: Desk<Note = N>, C: Computation, G: Gate>(
    rt: &R,
    alloc: Global,
    node: &mut Node<N>,
    desk: &mut D,
    case: &Case,
    work: &C,
    message: Message<N>,
    stall: bool,
    gate: &G,
) -> Result<bool, NodeFault>
    requires fits { Fits case.now (D.view desk.old) node.old }
    requires work { IsWorkOf case.now.topology (C.does work.now) }
    requires alone { (D.view desk.old).alone ≡ false }
    requires addressed { IsAddressed case.now.topology (outgoing_of message) }
    requires known { N.book (note_of message) ≡ (D.home desk.old).book }

    ensures served { HasServed case.now 1 (D.view desk.old) (D.view desk.new)
        node.old node.new }
    ensures fault { IfErr result (IsSliceFault (D.view desk.old) (D.view desk.new)) }
    ensures loan { D.loan desk.new ≡ D.loan desk.old }
    ensures home { D.home desk.new ≡ D.home desk.old }
{
    if is_record(&message) {
        take_record(rt, alloc, node, desk, case, work, message, stall, gate)
    } else {
        take_word(rt, alloc, node, desk, case, message)
    }
}

// Takes up to so many messages of a mailbox. Answers how many it took, and whether the worker stalls.
fn take_from<R: Wait, N: Seen, D: Desk<Note = N>, C: Computation, G: Gate, J: Office>(
    rt: &R,
    alloc: Global,
    node: &mut Node<N>,
    desk: &mut D,
    case: &Case,
    work: &C,
    mailbox: &Mailbox<N, J>,
    pass: &mut MailPass<N, J>,
    most: u32,
    stall: bool,
    gate: &G,
) -> Result<(u32, bool), NodeFault>
    requires fits { Fits case.now (D.view desk.old) node.old }
    requires work { IsWorkOf case.now.topology (C.does work.now) }
    requires alone { (D.view desk.old).alone ≡ false }
    requires shape { case.now.topology ≡ J.shape }
    requires book { (D.home desk.old).book ≡ J.book }
    requires pass { IsPassOf mailbox.now.line pass.old.pass }

    ensures served { HasServed case.now most (D.view desk.old) (D.view desk.new)
        node.old node.new }
    ensures taken { IfOk result (λ taken. HasServed case.now taken.0 (D.view desk.old)
        (D.view desk.new) node.old node.new) }
    ensures few { IfOk result (λ taken. taken.0 ≤ most) }
    ensures fault { IfErr result (IsSliceFault (D.view desk.old) (D.view desk.new)) }
    ensures pass { IsPassOf mailbox.now.line pass.new.pass }
    ensures loan { D.loan desk.new ≡ D.loan desk.old }
    ensures home { D.home desk.new ≡ D.home desk.old }
{
    for done in 0..most {
        let Some(message) = mailbox.pop(rt, pass) else {
            return Ok((done, false));
        };
        if take_one(rt, alloc, node, desk, case, work, message, stall, gate)? {
            return Ok((done + 1, true));
        }
    }
    Ok((most, false))
}

// Takes what may be taken of the mailbox of an interval, where it has that. True where the worker stalls.
fn take_at<R: Wait, N: Seen, D: Desk<Note = N>, C: Computation, G: Gate, J: Office>(
    rt: &R,
    alloc: Global,
    node: &mut Node<N>,
    desk: &mut D,
    case: &Case,
    work: &C,
    boxes: &[Mailbox<N, J>],
    passes: &mut [MailPass<N, J>],
    interval: u32,
    budget: &mut Budget,
    stall: bool,
    gate: &G,
) -> Result<bool, NodeFault>
    requires fits { Fits case.now (D.view desk.old) node.old }
    requires work { IsWorkOf case.now.topology (C.does work.now) }
    requires alone { (D.view desk.old).alone ≡ false }
    requires shape { case.now.topology ≡ J.shape }
    requires book { (D.home desk.old).book ≡ J.book }
    requires passes { ArePasses (length (intervals_of case.now.topology)) boxes.now passes.old }
    requires interval { interval < length (intervals_of case.now.topology) }
    requires budget { budget.old ≤ 3904 }

    // It takes no more than goes from the budget.
    ensures served { HasServed case.now (budget.old - budget.new) (D.view desk.old)
        (D.view desk.new) node.old node.new }
    ensures less { budget.new ≤ budget.old }
    ensures fault { IfErr result (IsSliceFault (D.view desk.old) (D.view desk.new)) }
    ensures passes { ArePasses (length (intervals_of case.now.topology)) boxes.now passes.new }
    ensures loan { D.loan desk.new ≡ D.loan desk.old }
    ensures home { D.home desk.new ≡ D.home desk.old }
{
    if !node.holds(interval) {
        return Ok(false);
    }
    let at = interval as usize;
    let mailbox = &boxes[at];
    let pass = &mut passes[at];
    let most = budget.take_out();
    let (taken, stalls) = take_from(
        rt, alloc, node, desk, case, work, mailbox, pass, most, stall, gate,
    )?;
    budget.put_back(most - taken);
    Ok(stalls)
}

// Takes what lies in the mailboxes of the intervals that it has: of each, in their order, up to 64 messages,
// and beyond them, up to 1,024 in all, as many as are left of 3,904 when 64 are set aside for each that is still
// to come. True where the worker stalls.
pub(crate) fn take_all<R: Wait, N: Seen, D: Desk<Note = N>, C: Computation, G: Gate, J: Office>(
    rt: &R,
    alloc: Global,
    node: &mut Node<N>,
    desk: &mut D,
    case: &Case,
    work: &C,
    boxes: &[Mailbox<N, J>],
    passes: &mut [MailPass<N, J>],
    stall: bool,
    gate: &G,
) -> Result<bool, NodeFault>
    requires fits { Fits case.now (D.view desk.old) node.old }
    requires work { IsWorkOf case.now.topology (C.does work.now) }
    requires alone { (D.view desk.old).alone ≡ false }
    requires shape { case.now.topology ≡ J.shape }
    requires book { (D.home desk.old).book ≡ J.book }
    requires passes { ArePasses (length (intervals_of case.now.topology)) boxes.now passes.old }

    ensures served { HasServed case.now 3904 (D.view desk.old) (D.view desk.new)
        node.old node.new }
    ensures fault { IfErr result (IsSliceFault (D.view desk.old) (D.view desk.new)) }
    ensures passes { ArePasses (length (intervals_of case.now.topology)) boxes.now passes.new }
    ensures loan { D.loan desk.new ≡ D.loan desk.old }
    ensures home { D.home desk.new ≡ D.home desk.old }
{
    let intervals = intervals_in(case);
    let mut budget = Budget::of(held_in(node, case));
    let left = &mut budget;
    for interval in 0..intervals {
        if take_at(
            rt, alloc, node, desk, case, work, boxes, passes, interval, left, stall, gate,
        )? {
            return Ok(true);
        }
    }
    Ok(false)
}
