//! One worker of a run.
ghost use Rattle.std.specs.Prelude.{◌≡◌, ◌<◌, ◌≤◌, ◌+◌, ℕ, IsFalse, IsSome, IsTrue, None, false};
ghost use Rattle.topology.specs.Rules.{interval_count};
ghost use Rattle.run_history.specs.Fences.{Begins};
ghost use Rattle.node.specs.Fits.{Fits};
ghost use Rattle.node.specs.Works.{IsWorkOf};
ghost use Rattle.shared_book.specs.SharedDesks.{table_numbers};
ghost use Rattle.shared_book.specs.Turns.{IsHere};
ghost use Rattle.workers.specs.Claims.{HasLeased};
ghost use Rattle.workers.specs.Crews.{HasClaimedOne, HasPasses, HasStepped, HasWorkedOnce, IsWorker, desk_of, spent_by};

use crate::mailbox::Mailbox;
use crate::office::Office;
use crate::orders::Orders;
use crate::pass_list::PassList;
use crate::seating::{claim_at, meet_at, work_with};
use computations::Computation;
use mw_ports::Gate;
use node::{Node, NodeFault};
use plans::What;
use row_keeper::Keeper;
use run_history::Case;
use shared_book::{Note, Seat, Shared};
use std::alloc::Global;
use std::sync::Wait;

// A worker with its seat, its passes, what it is asked in this round, and why its last call failed, where it did.
#[derive(Drop)]
pub(crate) struct Worker<K: Keeper, J: Office> {
    pub(crate) node: Node<Note<K>>,
    pub(crate) seat: Seat<K>,
    pub(crate) passes: PassList<Note<K>, J>,
    pub(crate) orders: Orders,
    pub(crate) fault: Option<NodeFault>,
}

impl<K: Keeper, J: Office> Worker<K, J> {
    // It claims an interval. False where that fails, and then it has the fault.
    pub(crate) fn claim<R: Wait>(
        &mut self,
        rt: &R,
        alloc: Global,
        shared: &Shared<'_, K>,
        case: &Case,
        interval: u32,
    ) -> bool
        requires case { shared.now.case.now ≡ case.now }
        requires worker { IsWorker shared.now.table.shared.table_id case.now self.old }
        requires interval { interval < interval_count case.now.topology }

        ensures worker { IsWorker shared.now.table.shared.table_id case.now self.new }
        ensures stepped { HasStepped self.old self.new }
        ensures passes { self.new.passes ≡ self.old.passes }
        ensures orders { self.new.orders ≡ self.old.orders }
        ensures few { spent_by self.new ≤ spent_by self.old + 1 }
        ensures claimed { IsTrue result → HasClaimedOne self.old.node.number interval
            (desk_of self.old) (desk_of self.new) }
        ensures leased { IsTrue result →
            (seq : ℕ) × HasLeased interval seq self.old.node self.new.node (desk_of self.new) }
        ensures same_fault { IsTrue result → self.new.fault ≡ self.old.fault }
        ensures own { IsFalse result → (desk_of self.new).own ≡ (desk_of self.old).own }
        ensures faulty { IsFalse result → IsSome self.new.fault }
    {
        let node = &mut self.node;
        let seat = &mut self.seat;
        match claim_at(rt, alloc, shared, case, node, seat, interval) {
            Ok(()) => true,
            Err(why) => {
                self.fault = Some(why);
                false
            }
        }
    }

    // A note of what it has seen.
    pub(crate) fn note(&mut self, shared: &Shared<'_, K>, case: &Case) -> Note<K>
        requires case { shared.now.case.now ≡ case.now }
        requires worker { IsWorker shared.now.table.shared.table_id case.now self.old }

        ensures worker { IsWorker shared.now.table.shared.table_id case.now self.new }
        ensures same { desk_of self.new ≡ desk_of self.old }
        ensures number { self.new.node ≡ self.old.node }
        ensures passes { self.new.passes ≡ self.old.passes }
        ensures orders { self.new.orders ≡ self.old.orders }
        ensures fault { self.new.fault ≡ self.old.fault }
        ensures here { IsHere shared.now.table.shared.table_id case.now result.place }
        ensures note { result.place.me.0.front ≡ (desk_of self.old).seen }
    {
        shared.note(&mut self.seat)
    }

    // It comes to see what a note tells. It has no fault.
    pub(crate) fn meet(&mut self, shared: &Shared<'_, K>, case: &Case, note: Note<K>)
        requires case { shared.now.case.now ≡ case.now }
        requires worker { IsWorker shared.now.table.shared.table_id case.now self.old }
        requires note { IsHere shared.now.table.shared.table_id case.now note.place }
        requires none { self.old.fault ≡ None }

        ensures worker { IsWorker shared.now.table.shared.table_id case.now self.new }
        ensures node { self.new.node ≡ self.old.node }
        ensures stepped { HasStepped self.old self.new }
        ensures passes { self.new.passes ≡ self.old.passes }
        ensures own { (desk_of self.new).own ≡ (desk_of self.old).own }
        ensures orders { self.new.orders ≡ self.old.orders }
        ensures fault { self.new.fault ≡ None }
        ensures met { Begins note.place.me.0.front (desk_of self.new).seen }
    {
        let node = &self.node;
        meet_at(shared, case, node, &mut self.seat, note);
    }

    // It forgets all that it has.
    pub(crate) fn crash(&mut self, case: &Case)
        requires case { (desk_of self.old).case ≡ case.now }

        ensures fits { Fits case.now (desk_of self.old) self.new.node }
        ensures number { self.new.node.number ≡ self.old.node.number }
        ensures seat { self.new.seat ≡ self.old.seat }
        ensures passes { self.new.passes ≡ self.old.passes }
        ensures orders { self.new.orders ≡ self.old.orders }
        ensures fault { self.new.fault ≡ self.old.fault }
    {
        let _crashed = self.node.crash();
    }

    // It gets the orders of a round. True where it stalled in the round before.
    pub(crate) fn begin(&mut self, round: u32) -> bool
        ensures node { self.new.node ≡ self.old.node }
        ensures seat { self.new.seat ≡ self.old.seat }
        ensures passes { self.new.passes ≡ self.old.passes }
        ensures fault { self.new.fault ≡ self.old.fault }
        ensures stalled { result ≡ self.old.orders.stall }
        ensures calm { self.new.orders.stall ≡ false }
    {
        let stalled = self.orders.stall;
        self.orders = Orders::plain(round);
        stalled
    }

    // It is asked to do what an action says of its turn of work.
    pub(crate) fn order(&mut self, what: What)
        ensures node { self.new.node ≡ self.old.node }
        ensures seat { self.new.seat ≡ self.old.seat }
        ensures passes { self.new.passes ≡ self.old.passes }
        ensures fault { self.new.fault ≡ self.old.fault }
    {
        match what {
            What::Stall { worker: _ } => self.orders.stall = true,
            What::Repeat { worker: _ } => self.orders.repeat = true,
            What::Lose { worker: _ } => self.orders.lose = true,
            What::Hold { worker: _ } => self.orders.hold = true,
            What::Crash { worker: _ } | What::Move { .. } => {}
        }
    }

    // It does its turn of work.
    pub(crate) fn work<R: Wait, C: Computation, G: Gate>(
        &mut self,
        rt: &R,
        alloc: Global,
        shared: &Shared<'_, K>,
        case: &Case,
        work: &C,
        boxes: &[Mailbox<Note<K>, J>],
        gate: &G,
    )
        requires case { shared.now.case.now ≡ case.now }
        requires worker { IsWorker shared.now.table.shared.table_id case.now self.old }
        requires work { IsWorkOf case.now.topology (C.does work.now) }
        requires shape { case.now.topology ≡ J.shape }
        requires book { table_numbers shared.now.table.shared.table_id ≡ J.book }
        requires passes { HasPasses case.now boxes.now self.old }

        ensures worked { HasWorkedOnce shared.now.table.shared.table_id case.now boxes.now
            self.old self.new }
    {
        let node = &mut self.node;
        let seat = &mut self.seat;
        let passes = &mut self.passes;
        let orders = self.orders;
        let done = work_with(
            rt, alloc, shared, case, work, node, seat, boxes, passes, &orders, gate,
        );
        self.fault = done.err();
    }
}
