//! One turn of work of one worker.
ghost use Rattle.std.specs.Prelude.{◌≡◌, false, length, IfErr, OnOk};
ghost use Rattle.run_history.specs.Cases.{intervals_of};
ghost use Rattle.node.specs.Fits.{Fits};
ghost use Rattle.node.specs.Works.{IsWorkOf};
ghost use Rattle.shared_book.specs.SharedDesks.{shared_home, shared_view};
ghost use Rattle.workers.specs.Passing.{ArePasses};
ghost use Rattle.workers.specs.Slices.{HasInjected, HasWorked, IsSliceFault, KeepsLeases};

use crate::learning::learn;
use crate::mailbox::Mailbox;
use crate::office::Office;
use crate::orders::Orders;
use crate::passes::MailPass;
use crate::turns::within;
use book::Desk;
use computations::Computation;
use mw_ports::{Gate, Point};
use node::{Node, NodeFault};
use row_keeper::Keeper;
use run_history::Case;
use shared_book::{Note, SharedDesk};
use std::alloc::Global;
use std::sync::Wait;

/// One turn of work of one worker, at the desk of a book that it shares with others.
///
/// First it loads the marks that others have reported, so that what it reports may rise behind
/// them. Then it goes by steps. What it has prepared is written, and what it held is sent. Of the
/// mailbox of each interval that it has, in their order, it takes up to 64 messages, and beyond
/// them, up to 1,024 in all, as many as are left of 3,904 when 64 are set aside for each of these
/// intervals that is still to come. Of each computation up to 16 timers fire for each interval of
/// it that it has; where none is due it reports these intervals, and goes on where one is due then.
/// Of each injector that it has exactly 16 lines are injected, or all that are left. In each fourth
/// round, what was pending at the fourth before already is to be sent again, and up to 8 times a row
/// of each interval that has 64 ids or more forgets those of finished records. What it has to send
/// is put into mailboxes, where a message is dropped that finds no room. Its own work is reported.
/// Where another has the turn to append it waits a moment and tries again. A worker that stalls
/// ends with the first record that it has handled, unwritten.
///
/// It takes no interval, and appends at most 6,000 entries. It fails only where memory runs out,
/// the keeper fails or the history is full; what it did before stands. The mailboxes are those of
/// the case's intervals, in their order, with a pass of each. No clause says which messages it
/// takes or sends, nor which timers fire.
pub fn slice<'s, 'a, R: Wait, K: Keeper, C: Computation, G: Gate, J: Office>(
    rt: &R,
    alloc: Global,
    node: &mut Node<Note<K>>,
    desk: &mut SharedDesk<'s, 'a, K>,
    case: &Case,
    work: &C,
    boxes: &[Mailbox<Note<K>, J>],
    passes: &mut [MailPass<Note<K>, J>],
    orders: &Orders,
    gate: &G,
) -> Result<(), NodeFault>
    requires fits { Fits case.now
        (shared_view desk.old.seat.now.place.me.0) node.old }
    requires work { IsWorkOf case.now.topology (C.does work.now) }
    requires shape { case.now.topology ≡ J.shape }
    requires book { (shared_home desk.old.seat.now.place).book ≡ J.book }
    requires passes { ArePasses (length (intervals_of case.now.topology)) boxes.now passes.old }

    // It fits its desk still, and is the same worker.
    ensures fits { Fits case.now
        (shared_view desk.new.seat.now.place.me.0) node.new }
    ensures number { node.new.number ≡ node.old.number }

    // It appended so many entries at most, none of them a claim, and lost a lease only to another.
    ensures worked { HasWorked 6000 (shared_view desk.old.seat.now.place.me.0)
        (shared_view desk.new.seat.now.place.me.0) }
    ensures kept { KeepsLeases (shared_view desk.new.seat.now.place.me.0).seen
        node.old node.new }

    // Each injector that it had has exactly 16 lines more, or all that were left.
    ensures injected { OnOk result (orders.now.stall ≡ false →
        HasInjected case.now node.old (shared_view desk.old.seat.now.place.me.0)
        (shared_view desk.new.seat.now.place.me.0)) }
    ensures fault { IfErr result (IsSliceFault
        (shared_view desk.old.seat.now.place.me.0)
        (shared_view desk.new.seat.now.place.me.0)) }

    // Its passes are of the same mailboxes, and its desk of the same seat and book.
    ensures passes { ArePasses (length (intervals_of case.now.topology)) boxes.now passes.new }
    ensures loan { desk.new.seat.ghost_name ≡ desk.old.seat.ghost_name }
    ensures home { shared_home desk.new.seat.now.place ≡ shared_home desk.old.seat.now.place }
    ensures table { desk.new.shared.now.table.shared.table_id
        ≡ desk.old.shared.now.table.shared.table_id }
    ensures case { desk.new.shared.now.case.now ≡ desk.old.shared.now.case.now }
{
    gate.at(node.worker(), Point::Begin);
    desk.sound();
    learn(desk, case);
    let done = within(
        rt, alloc, node, desk, case, work, boxes, passes, orders, gate,
    );
    desk.sound();
    gate.at(node.worker(), Point::End);
    done
}
