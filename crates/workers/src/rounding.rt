//! One round of work.
ghost use Rattle.std.specs.Prelude.{◌≡◌, ◌<◌, ◌*◌, All, length, IsFalse, IsTrue};
ghost use Rattle.node.specs.Works.{IsWorkOf};
ghost use Rattle.shared_book.specs.SharedDesks.{table_numbers};
ghost use Rattle.workers.specs.Crews.{AllHavePasses, AreHealthy, AreWorkers, HasDone, HasPasses, HasWorkedOnce, HaveWorked, IsFaulty, IsWorker, KeepsOrders};

use crate::crew::Worker;
use crate::mailbox::Mailbox;
use crate::office::Office;
use computations::Computation;
use mw_ports::Gate;
use row_keeper::Keeper;
use run_history::Case;
use shared_book::{Note, Shared};
use std::alloc::Global;
use std::sync::Wait;
use std::thread;
use std::thread::Threads;

// How many threads run beside each other: two, so that one worker may wait for another. What most of a turn of work
// is done in, the turn to append, one thread has at a time, so more threads would only wait, and the book would go
// from processor to processor.
const BESIDE: usize = 2;

// Each worker does its turn of work.
fn each_works<R, K, C, G, J>(
    rt: &R,
    alloc: Global,
    shared: &Shared<'_, K>,
    case: &Case,
    work: &C,
    boxes: &[Mailbox<Note<K>, J>],
    gate: &G,
    crew: &mut [Worker<K, J>],
)
where
    R: Threads + Wait + Sync,
    K: Keeper + Send,
    C: Computation + Sync,
    G: Gate + Sync,
    J: Office + Send + Sync,
    requires case { shared.now.case.now ≡ case.now }
    requires some { 0 < length crew.old }
    requires workers { All (IsWorker shared.now.table.shared.table_id case.now) crew.old }
    requires work { IsWorkOf case.now.topology (C.does work.now) }
    requires shape { case.now.topology ≡ J.shape }
    requires book { table_numbers shared.now.table.shared.table_id ≡ J.book }
    requires passes { AllHavePasses case.now boxes.now crew.old }

    ensures worked { HaveWorked shared.now.table.shared.table_id case.now boxes.now
        crew.old crew.new }
{
    thread::for_each_mut(
        rt,
        crew,
        BESIDE,
        &|_, worker: &mut Worker<K, J>|
            requires case { shared.now.case.now ≡ case.now }
            requires worker { IsWorker shared.now.table.shared.table_id case.now worker.old }
            requires work { IsWorkOf case.now.topology (C.does work.now) }
            requires shape { case.now.topology ≡ J.shape }
            requires book { table_numbers shared.now.table.shared.table_id ≡ J.book }
            requires passes { HasPasses case.now boxes.now worker.old }
            ensures worked { HasWorkedOnce shared.entry.now.table.shared.table_id
                case.entry.now boxes.entry.now worker.old worker.new }
        { worker.work(rt, alloc, shared, case, work, boxes, gate) },
    );
}

// One round.
pub(crate) fn one_round<R, K, C, G, J>(
    rt: &R,
    alloc: Global,
    shared: &Shared<'_, K>,
    case: &Case,
    work: &C,
    boxes: &[Mailbox<Note<K>, J>],
    gate: &G,
    crew: &mut [Worker<K, J>],
)
where
    R: Threads + Wait + Sync,
    K: Keeper + Send,
    C: Computation + Sync,
    G: Gate + Sync,
    J: Office + Send + Sync,
    requires case { shared.now.case.now ≡ case.now }
    requires some { 0 < length crew.old }
    requires workers { AreWorkers shared.now.table.shared.table_id case.now crew.old }
    requires work { IsWorkOf case.now.topology (C.does work.now) }
    requires shape { case.now.topology ≡ J.shape }
    requires book { table_numbers shared.now.table.shared.table_id ≡ J.book }
    requires passes { AllHavePasses case.now boxes.now crew.old }

    ensures workers { AreWorkers shared.now.table.shared.table_id case.now crew.new }
    ensures done { HasDone (6000 * length crew.old) crew.old crew.new }
    ensures orders { KeepsOrders crew.old crew.new }
    ensures worked { HaveWorked shared.now.table.shared.table_id case.now boxes.now
        crew.old crew.new }
    ensures passes { AllHavePasses case.now boxes.now crew.new }
{
    each_works(rt, alloc, shared, case, work, boxes, gate, crew);
}

// Whether a worker has a fault.
pub(crate) fn has_fault<K: Keeper, J: Office>(crew: &[Worker<K, J>]) -> bool
    ensures faulty { IsTrue result → IsFaulty crew.now }
    ensures healthy { IsFalse result → AreHealthy crew.now }
{
    for worker in crew {
        if worker.fault.is_some() {
            return true;
        }
    }
    false
}
