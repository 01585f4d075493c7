//! What a worker does at its seat.
ghost use Rattle.std.specs.Prelude.{◌≡◌, ◌<◌, ◌∷◌, [], ℕ, false, length, IfErr, OnErr, OnOk};
ghost use Rattle.topology.specs.Rules.{interval_count};
ghost use Rattle.run_history.specs.Cases.{intervals_of};
ghost use Rattle.run_history.specs.Fences.{Begins};
ghost use Rattle.book.specs.Desks.{IsSound};
ghost use Rattle.node.specs.Fits.{Fits};
ghost use Rattle.node.specs.Works.{IsWorkOf};
ghost use Rattle.shared_book.specs.SharedDesks.{shared_view, table_numbers};
ghost use Rattle.shared_book.specs.Turns.{IsHere};
ghost use Rattle.workers.specs.Passing.{ArePasses};
ghost use Rattle.workers.specs.Slices.{HasInjected, HasWorked, IsSliceFault, KeepsLeases};
ghost use Rattle.workers.specs.Claims.{HasLeased};
ghost use Rattle.workers.specs.Crews.{HasClaimedOne, HasFaultCause, HasGoneOn};
ghost use Rattle.workers.specs.Seats.{IsSeated};

use crate::claim_tries::claim;
use crate::mailbox::Mailbox;
use crate::office::Office;
use crate::orders::Orders;
use crate::pass_list::PassList;
use crate::passes::MailPass;
use crate::slicing::slice;
use book::Desk;
use computations::Computation;
use mw_ports::Gate;
use node::{Node, NodeFault, node_fits_beside};
use row_keeper::Keeper;
use run_history::Case;
use shared_book::{Note, Seat, Shared, SharedDesk};
use std::alloc::Global;
use std::sync::Wait;

// What a seat has seen is lawful.
fn look_at<K: Keeper>(shared: &Shared<'_, K>, seat: &mut Seat<K>)
    requires seated { IsSeated shared.now.table.shared.table_id shared.now.case.now seat.old.place }
    ensures seated { IsSeated shared.now.table.shared.table_id shared.now.case.now seat.new.place }
    ensures same { seat.new.place.me ≡ seat.old.place.me }
    ensures sound { IsSound (shared_view seat.new.place.me.0) }
{
    let desk = SharedDesk::on(shared, seat);
    desk.sound();
}

// A seat comes to see what a note tells, and its worker still fits.
pub(crate) fn meet_at<K: Keeper>(
    shared: &Shared<'_, K>,
    case: &Case,
    node: &Node<Note<K>>,
    seat: &mut Seat<K>,
    note: Note<K>,
)
    requires case { shared.now.case.now ≡ case.now }
    requires seated { IsSeated shared.now.table.shared.table_id case.now seat.old.place }
    requires fits { Fits case.now (shared_view seat.old.place.me.0) node.now }
    requires note { IsHere shared.now.table.shared.table_id shared.now.case.now note.place }

    ensures seated { IsSeated shared.now.table.shared.table_id case.now seat.new.place }
    ensures fits { Fits case.now (shared_view seat.new.place.me.0) node.now }
    ensures numbers { seat.new.place.me.0.numbers ≡ seat.old.place.me.0.numbers }
    ensures went_on { HasGoneOn 0 (shared_view seat.old.place.me.0)
        (shared_view seat.new.place.me.0) }
    ensures own { seat.new.place.me.0.own ≡ seat.old.place.me.0.own }
    ensures met { Begins note.place.me.0.front seat.new.place.me.0.front }
{
    look_at(shared, seat);
    shared.meet(seat, note);
    look_at(shared, seat);
    node_fits_beside();
}

// A worker claims an interval at its seat.
pub(crate) fn claim_at<K: Keeper, R: Wait>(
    rt: &R,
    alloc: Global,
    shared: &Shared<'_, K>,
    case: &Case,
    node: &mut Node<Note<K>>,
    seat: &mut Seat<K>,
    interval: u32,
) -> Result<(), NodeFault>
    requires case { shared.now.case.now ≡ case.now }
    requires seated { IsSeated shared.now.table.shared.table_id case.now seat.old.place }
    requires fits { Fits case.now (shared_view seat.old.place.me.0) node.old }
    requires interval { interval < interval_count case.now.topology }

    ensures seated { IsSeated shared.now.table.shared.table_id case.now seat.new.place }
    ensures fits { Fits case.now (shared_view seat.new.place.me.0) node.new }
    ensures number { node.new.number ≡ node.old.number }
    ensures numbers { seat.new.place.me.0.numbers ≡ seat.old.place.me.0.numbers }
    ensures went_on { HasGoneOn 1 (shared_view seat.old.place.me.0)
        (shared_view seat.new.place.me.0) }
    ensures claimed { OnOk result (HasClaimedOne node.old.number interval
        (shared_view seat.old.place.me.0) (shared_view seat.new.place.me.0)) }
    ensures leased { OnOk result ((seq : ℕ)
        × HasLeased interval seq node.old node.new (shared_view seat.new.place.me.0)) }
    ensures own { OnErr result (seat.new.place.me.0.own ≡ seat.old.place.me.0.own) }
    ensures cause { IfErr result (HasFaultCause (shared_view seat.new.place.me.0)) }
{
    let mut desk = SharedDesk::on(shared, seat);
    claim(rt, alloc, node, &mut desk, case, interval)
}

// A worker does its turn of work at its seat.
fn work_at<K: Keeper, R: Wait, C: Computation, G: Gate, J: Office>(
    rt: &R,
    alloc: Global,
    shared: &Shared<'_, K>,
    case: &Case,
    work: &C,
    node: &mut Node<Note<K>>,
    seat: &mut Seat<K>,
    boxes: &[Mailbox<Note<K>, J>],
    passes: &mut [MailPass<Note<K>, J>],
    orders: &Orders,
    gate: &G,
) -> Result<(), NodeFault>
    requires case { shared.now.case.now ≡ case.now }
    requires seated { IsSeated shared.now.table.shared.table_id case.now seat.old.place }
    requires fits { Fits case.now (shared_view seat.old.place.me.0) node.old }
    requires work { IsWorkOf case.now.topology (C.does work.now) }
    requires shape { case.now.topology ≡ J.shape }
    requires book { table_numbers shared.now.table.shared.table_id ≡ J.book }
    requires passes { ArePasses (length (intervals_of case.now.topology)) boxes.now passes.old }

    ensures seated { IsSeated shared.now.table.shared.table_id case.now seat.new.place }
    ensures fits { Fits case.now (shared_view seat.new.place.me.0) node.new }
    ensures number { node.new.number ≡ node.old.number }
    ensures numbers { seat.new.place.me.0.numbers ≡ seat.old.place.me.0.numbers }
    ensures worked { HasWorked 6000 (shared_view seat.old.place.me.0)
        (shared_view seat.new.place.me.0) }
    ensures kept { KeepsLeases (shared_view seat.new.place.me.0).seen node.old node.new }
    ensures injected { OnOk result (orders.now.stall ≡ false →
        HasInjected case.now node.old (shared_view seat.old.place.me.0)
        (shared_view seat.new.place.me.0)) }
    ensures fault { IfErr result (IsSliceFault (shared_view seat.old.place.me.0)
        (shared_view seat.new.place.me.0)) }
    ensures passes { ArePasses (length (intervals_of case.now.topology)) boxes.now passes.new }
{
    let mut desk = SharedDesk::on(shared, seat);
    slice(
        rt, alloc, node, &mut desk, case, work, boxes, passes, orders, gate,
    )
}

// The same, with the passes in their list.
pub(crate) fn work_with<K: Keeper, R: Wait, C: Computation, G: Gate, J: Office>(
    rt: &R,
    alloc: Global,
    shared: &Shared<'_, K>,
    case: &Case,
    work: &C,
    node: &mut Node<Note<K>>,
    seat: &mut Seat<K>,
    boxes: &[Mailbox<Note<K>, J>],
    passes: &mut PassList<Note<K>, J>,
    orders: &Orders,
    gate: &G,
) -> Result<(), NodeFault>
    requires case { shared.now.case.now ≡ case.now }
    requires seated { IsSeated shared.now.table.shared.table_id case.now seat.old.place }
    requires fits { Fits case.now (shared_view seat.old.place.me.0) node.old }
    requires work { IsWorkOf case.now.topology (C.does work.now) }
    requires shape { case.now.topology ≡ J.shape }
    requires book { table_numbers shared.now.table.shared.table_id ≡ J.book }
    requires passes { ArePasses (length (intervals_of case.now.topology)) boxes.now passes.old }

    ensures seated { IsSeated shared.now.table.shared.table_id case.now seat.new.place }
    ensures fits { Fits case.now (shared_view seat.new.place.me.0) node.new }
    ensures number { node.new.number ≡ node.old.number }
    ensures numbers { seat.new.place.me.0.numbers ≡ seat.old.place.me.0.numbers }
    ensures worked { HasWorked 6000 (shared_view seat.old.place.me.0)
        (shared_view seat.new.place.me.0) }
    ensures kept { KeepsLeases (shared_view seat.new.place.me.0).seen node.old node.new }
    ensures injected { OnOk result (orders.now.stall ≡ false →
        HasInjected case.now node.old (shared_view seat.old.place.me.0)
        (shared_view seat.new.place.me.0)) }
    ensures fault { IfErr result (IsSliceFault (shared_view seat.old.place.me.0)
        (shared_view seat.new.place.me.0)) }
    ensures passes { ArePasses (length (intervals_of case.now.topology)) boxes.now passes.new }
{
    let all = passes.all.as_mut_slice();
    work_at(
        rt, alloc, shared, case, work, node, seat, boxes, all, orders, gate,
    )
}
