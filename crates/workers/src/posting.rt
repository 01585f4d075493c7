//! Messages that a worker puts into mailboxes.
ghost use Rattle.std.specs.Prelude.{◌≡◌, ◌<◌, length};
ghost use Rattle.run_history.specs.Cases.{intervals_of};
ghost use Rattle.crossbeam_queue.specs.Passes.{IsPassOf};
ghost use Rattle.node.specs.Fits.{Fits};
ghost use Rattle.outbox.specs.Messages.{IsAddressed};
ghost use Rattle.node.specs.Received.{note_of, outgoing_of};
ghost use Rattle.workers.specs.Passing.{ArePasses};
ghost use Rattle.workers.specs.Serving.{HasServed};

use crate::mailbox::Mailbox;
use crate::office::Office;
use crate::passes::MailPass;
use book::{Desk, Seen};
use mw_types::NoMemory;
use node::{Message, Node};
use run_history::Case;
use std::alloc::Global;
use std::sync::Wait;

// The interval to whose mailbox a message goes.
fn address<N: Seen>(case: &Case, message: &Message<N>) -> u32
    requires addressed { IsAddressed case.now.topology (outgoing_of message.now) }
    ensures there { result < length (intervals_of case.now.topology) }
{
    match message {
        Message::Deliver { parcel } => case.interval_of(&parcel.delivery.to),
        Message::Ack { receipt } => case.interval_of(&receipt.to),
    }
}

// Puts a message into a mailbox; where that is full it is dropped.
fn put<R: Wait, N: Seen, J: Office>(
    rt: &R,
    mailbox: &Mailbox<N, J>,
    pass: &mut MailPass<N, J>,
    message: Message<N>,
)
    requires pass { IsPassOf mailbox.now.line pass.old.pass }
    requires known { N.book (note_of message) ≡ J.book }
    requires addressed { IsAddressed J.shape (outgoing_of message) }
    ensures pass { IsPassOf mailbox.now.line pass.new.pass }
{
    let _full = mailbox.push(rt, pass, message);
}

// Puts a message into the mailbox of its interval.
fn post<R: Wait, N: Seen, J: Office>(
    rt: &R,
    case: &Case,
    boxes: &[Mailbox<N, J>],
    passes: &mut [MailPass<N, J>],
    message: Message<N>,
)
    requires shape { case.now.topology ≡ J.shape }
    requires passes { ArePasses (length (intervals_of case.now.topology)) boxes.now passes.old }
    requires known { N.book (note_of message) ≡ J.book }
    requires addressed { IsAddressed case.now.topology (outgoing_of message) }
    ensures passes { ArePasses (length (intervals_of case.now.topology)) boxes.now passes.new }
{
    let interval = address(case, &message) as usize;
    put(rt, &boxes[interval], &mut passes[interval], message);
}

// Sends the first of what it has to send once more, where that is a record.
fn send_again<R: Wait, N: Seen, D: Desk<Note = N>, J: Office>(
    rt: &R,
    alloc: Global,
    node: &Node<N>,
    desk: &mut D,
    case: &Case,
    boxes: &[Mailbox<N, J>],
    passes: &mut [MailPass<N, J>],
) -> Result<(), NoMemory>
    requires fits { Fits case.now (D.view desk.old) node.now }
    requires shape { case.now.topology ≡ J.shape }
    requires book { (D.home desk.old).book ≡ J.book }
    requires passes { ArePasses (length (intervals_of case.now.topology)) boxes.now passes.old }

    ensures served { HasServed case.now 0 (D.view desk.old) (D.view desk.new) node.now node.now }
    ensures passes { ArePasses (length (intervals_of case.now.topology)) boxes.now passes.new }
    ensures loan { D.loan desk.new ≡ D.loan desk.old }
    ensures home { D.home desk.new ≡ D.home desk.old }
{
    match node.first_again(alloc, desk)? {
        Some(again) => {
            post(rt, case, boxes, passes, again);
            Ok(())
        }
        None => Ok(()),
    }
}

// Sends the first of what it has to send.
fn send_first<R: Wait, N: Seen, D: Desk<Note = N>, J: Office>(
    rt: &R,
    node: &mut Node<N>,
    desk: &mut D,
    case: &Case,
    boxes: &[Mailbox<N, J>],
    passes: &mut [MailPass<N, J>],
)
    requires fits { Fits case.now (D.view desk.old) node.old }
    requires shape { case.now.topology ≡ J.shape }
    requires book { (D.home desk.old).book ≡ J.book }
    requires passes { ArePasses (length (intervals_of case.now.topology)) boxes.now passes.old }

    ensures served { HasServed case.now 0 (D.view desk.old) (D.view desk.new) node.old node.new }
    ensures passes { ArePasses (length (intervals_of case.now.topology)) boxes.now passes.new }
    ensures loan { D.loan desk.new ≡ D.loan desk.old }
    ensures home { D.home desk.new ≡ D.home desk.old }
{
    match node.next_message(desk) {
        Some(message) => post(rt, case, boxes, passes, message),
        None => {}
    }
}

// Sends the first of what it has to send, a record twice where it is to be repeated.
fn send_one<R: Wait, N: Seen, D: Desk<Note = N>, J: Office>(
    rt: &R,
    alloc: Global,
    node: &mut Node<N>,
    desk: &mut D,
    case: &Case,
    boxes: &[Mailbox<N, J>],
    passes: &mut [MailPass<N, J>],
    repeat: bool,
) -> Result<(), NoMemory>
    requires fits { Fits case.now (D.view desk.old) node.old }
    requires shape { case.now.topology ≡ J.shape }
    requires book { (D.home desk.old).book ≡ J.book }
    requires passes { ArePasses (length (intervals_of case.now.topology)) boxes.now passes.old }

    ensures served { HasServed case.now 0 (D.view desk.old) (D.view desk.new) node.old node.new }
    ensures passes { ArePasses (length (intervals_of case.now.topology)) boxes.now passes.new }
    ensures loan { D.loan desk.new ≡ D.loan desk.old }
    ensures home { D.home desk.new ≡ D.home desk.old }
{
    if !repeat {
        send_first(rt, node, desk, case, boxes, passes);
        return Ok(());
    }
    send_again(rt, alloc, &*node, desk, case, boxes, passes)?;
    send_first(rt, node, desk, case, boxes, passes);
    Ok(())
}

// Sends so many messages, each record twice where it is to be repeated.
pub(crate) fn send<R: Wait, N: Seen, D: Desk<Note = N>, J: Office>(
    rt: &R,
    alloc: Global,
    node: &mut Node<N>,
    desk: &mut D,
    case: &Case,
    boxes: &[Mailbox<N, J>],
    passes: &mut [MailPass<N, J>],
    count: usize,
    repeat: bool,
) -> Result<(), NoMemory>
    requires fits { Fits case.now (D.view desk.old) node.old }
    requires shape { case.now.topology ≡ J.shape }
    requires book { (D.home desk.old).book ≡ J.book }
    requires passes { ArePasses (length (intervals_of case.now.topology)) boxes.now passes.old }

    ensures served { HasServed case.now 0 (D.view desk.old) (D.view desk.new) node.old node.new }
    ensures passes { ArePasses (length (intervals_of case.now.topology)) boxes.now passes.new }
    ensures loan { D.loan desk.new ≡ D.loan desk.old }
    ensures home { D.home desk.new ≡ D.home desk.old }
{
    for _ in 0..count {
        send_one(rt, alloc, node, desk, case, boxes, passes, repeat)?;
    }
    Ok(())
}
