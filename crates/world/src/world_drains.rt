//! The drain of a world, whole and turn by turn.
ghost use Rattle.std.specs.Prelude.{◌≡◌, ◌≤◌, ◌<◌, ◌-◌, ℕ, Some, false, true, length, slice_get, Err, IfErr, IfOk, IfSome, OnOk};
ghost use Rattle.std.specs.Option.{is_some};
ghost use Rattle.mw_types.specs.Causes.{Rose};
ghost use Rattle.run_history.specs.Fences.{Begins};
ghost use Rattle.run_history.specs.Finished.{IsFinished};
ghost use Rattle.run_history.specs.Runs.{run_of};
ghost use Rattle.book.specs.DeskReasons.{IsDamageOf};
ghost use Rattle.book.specs.OwnDesks.{own_view};
ghost use Rattle.node.specs.Answers.{refusal_of};
ghost use Rattle.world.specs.scripts.Worlds.{world_on};
ghost use Rattle.world.specs.drains.Drains.{HasEnded, IsDraining};
ghost use Rattle.world.specs.drains.DrainTurns.{HasDrained, IsFullBefore};
ghost use Rattle.world.specs.drains.Turns.{HasFailed, WhereTold};
ghost use Rattle.node.specs.Workers.{NodeView};
ghost use Rattle.world.specs.WorldDrains.{AreNew, HasDrain};
ghost use Rattle.world.specs.scripts.WorldStates.{world_of};

use crate::drains::drain_turns::{Drain, begin_drain, drain_turn};
use crate::drains::draining::drain;
use crate::scripts::relays::forget_all;
use crate::scripts::world::{World, sixteen};
use book::NoNote;
use computations::Computation;
use node::{Node, NodeFault};
use row_keeper::Keeper;
use std::alloc::Global;

impl<'a, K: Keeper, C: Computation + Drop> World<'a, K, C> {
    /// Works off all that is left to do, once every worker has crashed, every message is lost and every
    /// relay has forgotten; the messages that are sent after it are numbered from 0 again. It returns over
    /// every keeper.
    pub fn drain(&mut self, alloc: Global) -> Result<(), NodeFault>
        ensures case { self.new.book.case ≡ self.old.book.case }
        ensures routes { self.new.routes ≡ self.old.routes }
        ensures limit { self.new.book.limit ≡ self.old.book.limit }
        ensures tells { is_some self.new.book.rows ≡ is_some self.old.book.rows }
        ensures grown { Begins self.old.book.history self.new.book.history }
        ensures faults { self.old.book.faults ≤ self.new.book.faults }

        // After Ok no worker has anything, nothing is in flight, and no relay holds an id.
        ensures begun { OnOk result (world_of self.new
            ≡ world_on self.new.routes self.new.book.history self.new.book.marks) }

        // Where a contract can see the keeper's rows the history goes on as a drain does, and after Ok
        // to its end, where no work is left.
        ensures draining { IfSome self.old.book.rows (λ _. IsDraining self.old.book.case
            (length self.old.book.history) self.new.book.history) }
        ensures ended { OnOk result (IfSome self.old.book.rows (λ _. HasEnded self.old.book.case
            (length self.old.book.history) self.new.book.history)) }
        ensures finished { OnOk result (IfSome self.old.book.rows
            (λ _. let shape = self.new.book.case.topology in
            IsFinished self.new.book.case (run_of shape self.new.book.history))) }

        ensures keeper_fault { result ≡ Err NodeFault.KeeperFault →
            Rose self.old.book.faults self.new.book.faults }
        ensures full { result ≡ Err NodeFault.HistoryFull →
            length self.new.book.history ≡ self.new.book.limit }

        // Where a contract can see the keeper's rows, it is full only before the drain has ended.
        ensures more { result ≡ Err NodeFault.HistoryFull → IfSome self.old.book.rows
            (λ _. HasEnded self.old.book.case (length self.old.book.history)
            self.new.book.history → ⊥) }
        ensures damaged { IfErr result (λ why.
            IsDamageOf (own_view self.new.book) (refusal_of why)) }
    {
        // New workers stand for those that have crashed.
        let nodes = sixteen(alloc)?;
        self.nodes = nodes;
        self.flight = Vec::new(alloc);
        self.left = Vec::new(alloc);
        forget_all(&mut self.relays);
        drain(alloc, &mut self.book, &self.work)
    }

    /// Begins a drain, of which each next entry is a turn: every worker crashes, every message is lost, and
    /// every relay forgets. It takes no memory.
    pub fn begin_drain(&mut self, alloc: Global) -> Drain
        ensures book { self.new.book ≡ self.old.book }
        ensures begun { world_of self.new
            ≡ world_on self.old.routes self.old.book.history self.old.book.marks }
        ensures from { result.from ≡ length self.old.book.history }
        ensures drain { HasDrain self.new result }
    {
        crash_all(&mut self.nodes);
        self.flight.clear();
        self.left.clear();
        forget_all(&mut self.relays);
        begin_drain(alloc, &self.book)
    }

    /// Appends the one entry that a drain has next, and tells whether there was one. It was begun, and
    /// no step came since. The whole drain is these, one after another.
    pub fn drain_turn(&mut self, alloc: Global, drain: &mut Drain) -> Result<bool, NodeFault>
        requires drain { HasDrain self.old drain.old }

        ensures drained { IfOk result (HasDrained drain.old.from self.old.book self.new.book) }
        ensures drain { OnOk result (HasDrain self.new drain.new) }
        ensures from { drain.new.from ≡ drain.old.from }

        // Where a contract can see the keeper's rows, no entry is left only at the drain's end.
        ensures ended { IfOk result (λ more. more ≡ false → WhereTold self.old.book
            (HasEnded self.old.book.case drain.old.from self.old.book.history)) }
        ensures nearer { IfOk result (λ more. more ≡ true →
            self.new.book.limit - length self.new.book.history
            < self.old.book.limit - length self.old.book.history) }

        // No worker has anything then, nothing is in flight, and no relay holds an id.
        ensures begun { world_of self.new
            ≡ world_on self.new.routes self.new.book.history self.new.book.marks }

        // A fault appends nothing, and where the history is full the drain has not ended.
        ensures failed { IfErr result (HasFailed self.old.book self.new.book) }
        ensures unended { IfErr result (IsFullBefore drain.old.from self.old.book) }
    {
        drain_turn(alloc, &mut self.book, &self.work, drain)
    }
}

// Has each of sixteen workers crash.
fn crash_all(nodes: &mut [Node<NoNote>])
    requires all { length nodes.old ≡ 16 }
    requires numbered { (number : ℕ) (node : NodeView) →
        slice_get nodes.old number ≡ Some node → node.number ≡ number }
    ensures new { AreNew 16 nodes.new }
{
    for number in 0..16 {
        nodes[number].crash();
    }
}
