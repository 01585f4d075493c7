//! Messages that a worker takes: a record that it handles, or word that a record was handled.
ghost use Rattle.std.specs.Prelude.{◌≡◌, ℕ, IfErr, IfOk, None, OnErr};
ghost use Rattle.book.specs.OwnDesks.{own_view};
ghost use Rattle.outbox.specs.Messages.{IsAddressed, IsOutgoing};
ghost use Rattle.node.specs.Received.{outgoing_of};
ghost use Rattle.node.specs.Workers.{worker_at};
ghost use Rattle.node.specs.Works.{IsWorkOf};
ghost use Rattle.node.specs.declared.message.Message.TheVariants as messages;
ghost use Rattle.world.specs.scripts.Acts.{must_wait};
ghost use Rattle.world.specs.scripts.Worlds.{row_of_message};
ghost use Rattle.world.specs.scripts.Standing.{FitsOwn};
ghost use Rattle.world.specs.drains.Turns.{HasFailed};
ghost use Rattle.world.specs.scripts.Stepping.{IsCausedBy};
ghost use Rattle.world.specs.scripts.WorkerCalls.{HasCalled, HasRested, IsFullTaking, IsReady, TakesOn, answered_in_place};

use book::{Book, Desk, NoNote, OwnDesk};
use computations::Computation;
use mw_types::RowName;
use node::{Message, Node, NodeFault, Outcome, Parcel, Receipt};
use row_keeper::Keeper;
use run_history::Case;
use std::alloc::Global;

// What a worker answers that leaves a message in flight, if it does.
pub(crate) fn answered_in_place(
    case: &Case,
    node: &Node<NoNote>,
    message: &Message<NoNote>,
) -> Option<Outcome>
    requires addressed { IsAddressed case.now.topology (outgoing_of message.now) }
    requires ready { IsReady node.now }
    ensures { result
        ≡ answered_in_place case.now.topology (worker_at node.now) (outgoing_of message.now) }
{
    if must_wait(node, message) {
        return Some(Outcome::Nothing);
    }
    if node.holds(case.interval_of(row_of(message))) {
        None
    } else {
        Some(Outcome::NotMine)
    }
}

// Whether a message has to wait until what is prepared is written.
fn must_wait(node: &Node<NoNote>, message: &Message<NoNote>) -> bool
    requires ready { IsReady node.now }
    ensures { result ≡ must_wait (worker_at node.now) (outgoing_of message.now) }
{
    match message {
        Message::Deliver { parcel: _ } => node.has_prepared(),
        Message::Ack { receipt: _ } => false,
    }
}

// The row to which a message goes.
fn row_of(message: &Message<NoNote>) -> &RowName
    ensures { result.now ≡ row_of_message (outgoing_of message.now) }
{
    match message {
        Message::Deliver { parcel } => &parcel.delivery.to,
        Message::Ack { receipt } => &receipt.to,
    }
}

// A worker takes a message, which it does not leave in flight.
pub(crate) fn receive<'a, K: Keeper, C: Computation>(
    alloc: Global,
    book: &mut Book<'a, K>,
    work: &C,
    node: &mut Node<NoNote>,
    message: Message<NoNote>,
) -> Result<Outcome, NodeFault>
    requires fits { FitsOwn book.old node.old }
    requires work { IsWorkOf book.old.case.topology (C.does work.now) }
    requires sent { IsOutgoing book.old.case (own_view book.old) (outgoing_of message) }
    requires takes { answered_in_place book.old.case.topology
        (worker_at node.old) (outgoing_of message)
        ≡ None }
    ensures called { HasCalled book.old book.new node.old node.new }
    ensures acted { IfOk result (λ outcome. (number : ℕ) → TakesOn number (outgoing_of message)
        book.old node.old book.new node.new outcome) }
    ensures cause { IfOk result (IsCausedBy (worker_at node.old)
        book.old.history book.new.history) }
    ensures rested { OnErr result (HasRested book.old book.new node.old node.new) }
    ensures failed { IfErr result (HasFailed book.old book.new) }
    ensures full { IfErr result (λ why. (number : ℕ) →
        IsFullTaking number (outgoing_of message) book.old node.old why) }
{
    match message {
        Message::Deliver { parcel } => handle(alloc, book, work, node, parcel),
        Message::Ack { receipt } => acknowledge(alloc, book, node, receipt),
    }
}

// A worker takes a record, and handles it.
fn handle<'a, K: Keeper, C: Computation>(
    alloc: Global,
    book: &mut Book<'a, K>,
    work: &C,
    node: &mut Node<NoNote>,
    parcel: Parcel<NoNote>,
) -> Result<Outcome, NodeFault>
    requires fits { FitsOwn book.old node.old }
    requires work { IsWorkOf book.old.case.topology (C.does work.now) }
    requires sent { IsOutgoing book.old.case (own_view book.old)
        (outgoing_of (messages.Deliver parcel)) }
    requires takes { answered_in_place book.old.case.topology (worker_at node.old)
        (outgoing_of (messages.Deliver parcel)) ≡ None }
    ensures called { HasCalled book.old book.new node.old node.new }
    ensures acted { IfOk result (λ outcome. (number : ℕ) → TakesOn number
        (outgoing_of (messages.Deliver parcel)) book.old node.old book.new node.new outcome) }
    ensures cause { IfOk result (IsCausedBy (worker_at node.old)
        book.old.history book.new.history) }
    ensures rested { OnErr result (HasRested book.old book.new node.old node.new) }
    ensures failed { IfErr result (HasFailed book.old book.new) }
    ensures full { IfErr result (λ why. (number : ℕ) →
        IsFullTaking number (outgoing_of (messages.Deliver parcel)) book.old node.old why) }
{
    // Its clauses say what always holds of a book.
    book.history();
    let case = book.case();
    let mut desk = OwnDesk { book };
    desk.sound();
    let result = node.prepare(alloc, &mut desk, case, work, Message::Deliver { parcel });
    desk.sound();
    result
}

// A worker takes word that a record was handled.
fn acknowledge<'a, K: Keeper>(
    alloc: Global,
    book: &mut Book<'a, K>,
    node: &mut Node<NoNote>,
    receipt: Receipt<NoNote>,
) -> Result<Outcome, NodeFault>
    requires fits { FitsOwn book.old node.old }
    requires sent { IsOutgoing book.old.case (own_view book.old)
        (outgoing_of (messages.Ack receipt)) }
    requires takes { answered_in_place book.old.case.topology (worker_at node.old)
        (outgoing_of (messages.Ack receipt)) ≡ None }
    ensures called { HasCalled book.old book.new node.old node.new }
    ensures acted { IfOk result (λ outcome. (number : ℕ) → TakesOn number
        (outgoing_of (messages.Ack receipt)) book.old node.old book.new node.new outcome) }
    ensures cause { IfOk result (IsCausedBy (worker_at node.old)
        book.old.history book.new.history) }
    ensures rested { OnErr result (HasRested book.old book.new node.old node.new) }
    ensures failed { IfErr result (HasFailed book.old book.new) }
    ensures full { IfErr result (λ why. (number : ℕ) →
        IsFullTaking number (outgoing_of (messages.Ack receipt)) book.old node.old why) }
{
    // Its clauses say what always holds of a book.
    book.history();
    let case = book.case();
    let mut desk = OwnDesk { book };
    desk.sound();
    let result = node.take_ack(alloc, &mut desk, case, Message::Ack { receipt });
    desk.sound();
    result
}
