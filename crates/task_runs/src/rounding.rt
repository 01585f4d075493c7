//! The run of a task whose workers are threads, over a keeper, and the writing of its text.
ghost use Rattle.std.specs.Prelude.{◌≡◌, ◌≤◌, ◌⊎◌, ℕ, [], List, Option, IfSome, None, Some, false, length, true};
ghost use Rattle.std.specs.Option.{is_some};
ghost use Rattle.mw_types.specs.Causes.{Rose};
ghost use Rattle.book.specs.Books.{core_of};
ghost use Rattle.book.specs.Lawful.{IsLawful};
ghost use Rattle.node.specs.Works.{IsWorkOf};
ghost use Rattle.task_runs.specs.Limits.{history_limit};
ghost use Rattle.task_runs.specs.Tasks.{AreThere, is_at_once, is_rounds};
ghost use Rattle.task_runs.specs.Answers.{Left, RunLeaves};
ghost use Rattle.task_runs.specs.Inside.{AreRoundsOf, IsDamageIn, LeavesBegun, of_drain};

use crate::done::{Done, unbegun};
use crate::runs::{HISTORY_MAX, status_of_drain, unstarted};
use crate::status::Status;
use crate::task::{Before, Task};
use crate::text::write;
use book::Book;
use computations::{Computation, Kinds};
use mw_ports::{Gate, Sink};
use mw_types::NoMemory;
use node::NodeFault;
use plain_answer::results_are_the_plain_count;
use row_keeper::Keeper;
use std::alloc::Global;
use std::sync::Wait;
use std::thread::Threads;
use workers::{Rounds, rounds};
use world::{
    drain, drains_begin_the_drained_history, drains_grow_by_their_next_entries,
    drains_leave_no_work,
};

/// Runs a task that has rounds over a keeper to its end, and writes its text. What the rounds leave is worked off by
/// the caller's own thread.
pub fn run_rounds<R, K, O, G>(
    rt: &R,
    alloc: Global,
    task: &Task,
    keeper: K,
    out: &mut O,
    gate: &G,
) -> Done<K>
where
    R: Threads + Wait + Sync,
    K: Keeper + Send,
    O: Sink,
    G: Gate + Sync,
    requires there { AreThere task.now.case.topology task.now.routes.weaks task.now.before }
    requires rounds { is_rounds task.now.before ≡ true }
    requires late { is_at_once task.now.wanted ≡ false }

    ensures keeper_later { K.faults keeper ≤ K.faults result.keeper }
    ensures out_later { O.faults out.old ≤ O.faults out.new }
    ensures keeper_fault { result.status ≡ Status.KeeperFault →
        Rose (K.faults keeper) (K.faults result.keeper) }
    ensures sink_fault { result.status ≡ Status.SinkFault →
        Rose (O.faults out.old) (O.faults out.new) }
    ensures left { let left : Left = record {
      rows = (K.rows keeper, K.rows result.keeper);
      text = (O.text out.old, O.text out.new);
      history = result.history;
    } in RunLeaves task.now left result.status }
    ensures untouched { result.history ≡ [] → K.rows result.keeper ≡ K.rows keeper }
    ensures tells { is_some (K.rows result.keeper) ≡ is_some (K.rows keeper) }
{
    match Kinds::of(alloc, &task.case.topology) {
        Ok(work) => run_shared(rt, alloc, task, &work, keeper, out, gate),
        Err(NoMemory) => unbegun(alloc, Status::NoMemory, keeper),
    }
}

// Runs a task that has rounds over a keeper to its end, with these computations, and writes its text.
fn run_shared<R, K, C, O, G>(
    rt: &R,
    alloc: Global,
    task: &Task,
    work: &C,
    keeper: K,
    out: &mut O,
    gate: &G,
) -> Done<K>
where
    R: Threads + Wait + Sync,
    K: Keeper + Send,
    C: Computation + Sync,
    O: Sink,
    G: Gate + Sync,
    requires work { IsWorkOf task.now.case.topology (C.does work.now) }
    requires there { AreThere task.now.case.topology task.now.routes.weaks task.now.before }
    requires rounds { is_rounds task.now.before ≡ true }
    requires late { is_at_once task.now.wanted ≡ false }

    ensures keeper_later { K.faults keeper ≤ K.faults result.keeper }
    ensures out_later { O.faults out.old ≤ O.faults out.new }
    ensures keeper_fault { result.status ≡ Status.KeeperFault →
        Rose (K.faults keeper) (K.faults result.keeper) }
    ensures sink_fault { result.status ≡ Status.SinkFault →
        Rose (O.faults out.old) (O.faults out.new) }
    ensures left { let left : Left = record {
      rows = (K.rows keeper, K.rows result.keeper);
      text = (O.text out.old, O.text out.new);
      history = result.history;
    } in RunLeaves task.now left result.status }
    ensures untouched { result.history ≡ [] → K.rows result.keeper ≡ K.rows keeper }
    ensures tells { is_some (K.rows result.keeper) ≡ is_some (K.rows keeper) }
{
    match Book::start(alloc, &task.case, keeper, HISTORY_MAX) {
        Ok(book) => run_new(rt, alloc, book, work, task, out, gate),
        Err(refusal) => unstarted(alloc, refusal),
    }
}

// Runs a new book to its end, and writes its text.
fn run_new<'a, R, K, C, O, G>(
    rt: &R,
    alloc: Global,
    book: Book<'a, K>,
    work: &C,
    task: &'a Task,
    out: &mut O,
    gate: &G,
) -> Done<K>
where
    R: Threads + Wait + Sync,
    K: Keeper + Send,
    C: Computation + Sync,
    O: Sink,
    G: Gate + Sync,
    requires work { IsWorkOf task.now.case.topology (C.does work.now) }
    requires case { book.case ≡ task.now.case }
    requires there { AreThere task.now.case.topology task.now.routes.weaks task.now.before }
    requires rounds { is_rounds task.now.before ≡ true }
    requires empty { book.history ≡ [] }
    requires limit { book.limit ≡ history_limit }
    requires late { is_at_once task.now.wanted ≡ false }

    ensures keeper_later { book.entry.faults ≤ K.faults result.keeper }
    ensures out_later { O.faults out.old ≤ O.faults out.new }
    ensures keeper_fault { result.status ≡ Status.KeeperFault →
        Rose book.entry.faults (K.faults result.keeper) }
    ensures sink_fault { result.status ≡ Status.SinkFault →
        Rose (O.faults out.old) (O.faults out.new) }
    ensures left { let left : Left = record {
      rows = (book.entry.rows, K.rows result.keeper);
      text = (O.text out.old, O.text out.new);
      history = result.history;
    } in RunLeaves task.now left result.status }
    ensures untouched { result.history ≡ [] → K.rows result.keeper ≡ book.entry.rows }
    ensures tells { is_some (K.rows result.keeper) ≡ is_some book.entry.rows }
{
    look(&book);
    let Rounds { book, fault } = share(rt, alloc, book, work, task, gate);
    end(alloc, book, fault, work, task, out)
}

// What holds of every book is known of this one.
fn look<'a, K: Keeper>(book: &Book<'a, K>)
    ensures lawful { IsLawful book.now.case (core_of book.now) }
{
    book.history();
}

// The rounds of a task over a new book.
fn share<'a, R, K, C, G>(
    rt: &R,
    alloc: Global,
    book: Book<'a, K>,
    work: &C,
    task: &'a Task,
    gate: &G,
) -> Rounds<'a, K>
where
    R: Threads + Wait + Sync,
    K: Keeper + Send,
    C: Computation + Sync,
    G: Gate + Sync,
    requires work { IsWorkOf task.now.case.topology (C.does work.now) }
    requires case { book.case ≡ task.now.case }
    requires there { AreThere task.now.case.topology task.now.routes.weaks task.now.before }
    requires rounds { is_rounds task.now.before ≡ true }
    requires empty { book.history ≡ [] }

    ensures case { result.book.case ≡ task.now.case }
    ensures limit { result.book.limit ≡ book.entry.limit }
    ensures tells { is_some result.book.rows ≡ is_some book.entry.rows }
    ensures later { book.entry.faults ≤ result.book.faults }
    ensures rounds { AreRoundsOf task.now.case task.now.before
        result.book.rows result.fault result.book.history }
    ensures keeper_fault { result.fault ≡ Some NodeFault.KeeperFault →
        Rose book.entry.faults result.book.faults }
    ensures full { result.fault ≡ Some NodeFault.HistoryFull →
        length result.book.history ≡ result.book.limit }
    ensures damaged { IfSome result.fault
        (IsDamageIn task.now.case result.book.rows result.book.history) }
{
    match &task.before {
        Before::Rounds {
            workers,
            rounds: many,
            actions,
        } => rounds(
            rt, alloc, book, &task.case, work, *workers, *many, actions, gate,
        ),
        Before::Steps { .. } => unreachable!(),
    }
}

// Works off what rounds left, where no fault ended them, and writes the text.
fn end<'a, K: Keeper, C: Computation, O: Sink>(
    alloc: Global,
    book: Book<'a, K>,
    fault: Option<NodeFault>,
    work: &C,
    task: &Task,
    out: &mut O,
) -> Done<K>
    requires work { IsWorkOf task.now.case.topology (C.does work.now) }
    requires case { book.case ≡ task.now.case }
    requires limit { book.limit ≡ history_limit }
    requires rounds { AreRoundsOf task.now.case task.now.before book.rows fault book.history }
    requires full { fault ≡ Some NodeFault.HistoryFull → length book.history ≡ book.limit }
    requires damaged { IfSome fault (IsDamageIn task.now.case book.rows book.history) }
    requires late { is_at_once task.now.wanted ≡ false }

    ensures keeper_later { book.entry.faults ≤ K.faults result.keeper }
    ensures out_later { O.faults out.old ≤ O.faults out.new }
    ensures keeper_fault { result.status ≡ Status.KeeperFault →
        (fault ≡ Some NodeFault.KeeperFault) ⊎ Rose book.entry.faults (K.faults result.keeper) }
    ensures sink_fault { result.status ≡ Status.SinkFault →
        Rose (O.faults out.old) (O.faults out.new) }
    ensures left { LeavesBegun task.now (K.rows result.keeper)
        (O.text out.old, O.text out.new) result.history result.status }
    ensures none { result.history ≡ [] → IfSome (K.rows result.keeper) (λ rows. rows ≡ []) }
    ensures tells { is_some (K.rows result.keeper) ≡ is_some book.entry.rows }
{
    let mut book = book;
    let status = finish(alloc, &mut book, fault, work, task, out);
    let (keeper, history) = book.into_parts();
    Done {
        status,
        keeper,
        history,
    }
}

// Works off what rounds left, where no fault ended them, and writes the text.
fn finish<'a, K: Keeper, C: Computation, O: Sink>(
    alloc: Global,
    book: &mut Book<'a, K>,
    fault: Option<NodeFault>,
    work: &C,
    task: &Task,
    out: &mut O,
) -> Status
    requires work { IsWorkOf task.now.case.topology (C.does work.now) }
    requires case { book.old.case ≡ task.now.case }
    requires limit { book.old.limit ≡ history_limit }
    requires rounds { AreRoundsOf task.now.case task.now.before
        book.old.rows fault book.old.history }
    requires full { fault ≡ Some NodeFault.HistoryFull →
        length book.old.history ≡ book.old.limit }
    requires damaged { IfSome fault (IsDamageIn task.now.case book.old.rows book.old.history) }
    requires late { is_at_once task.now.wanted ≡ false }

    ensures keeper_later { book.old.faults ≤ book.new.faults }
    ensures out_later { O.faults out.old ≤ O.faults out.new }
    ensures keeper_fault { result ≡ Status.KeeperFault →
        (fault ≡ Some NodeFault.KeeperFault) ⊎ Rose book.old.faults book.new.faults }
    ensures sink_fault { result ≡ Status.SinkFault → Rose (O.faults out.old) (O.faults out.new) }
    ensures left { LeavesBegun task.now book.new.rows
        (O.text out.old, O.text out.new) book.new.history result }
    ensures none { book.new.history ≡ [] → IfSome book.new.rows (λ rows. rows ≡ []) }
    ensures tells { is_some book.new.rows ≡ is_some book.old.rows }
{
    match fault {
        Some(fault) => stop(book, fault, task),
        None => work_off(alloc, book, work, task, out),
    }
}

// The status where a fault ended the rounds.
fn stop<'a, K: Keeper>(book: &Book<'a, K>, fault: NodeFault, task: &Task) -> Status
    requires case { book.now.case ≡ task.now.case }
    requires limit { book.now.limit ≡ history_limit }
    requires rounds { AreRoundsOf task.now.case task.now.before
        book.now.rows (Some fault) book.now.history }
    requires full { fault ≡ NodeFault.HistoryFull → length book.now.history ≡ book.now.limit }
    requires damaged { IsDamageIn task.now.case book.now.rows book.now.history fault }
    requires late { is_at_once task.now.wanted ≡ false }

    ensures status { result ≡ of_drain fault }
    ensures left { (text : Option (List ℕ)) →
        LeavesBegun task.now book.now.rows (text, text) book.now.history result }
    ensures none { book.now.history ≡ [] → IfSome book.now.rows (λ rows. rows ≡ []) }
{
    look(book);
    drains_grow_by_their_next_entries();
    drains_begin_the_drained_history();
    status_of_drain(fault)
}

// Works off what rounds left that no fault ended, and writes the text.
fn work_off<'a, K: Keeper, C: Computation, O: Sink>(
    alloc: Global,
    book: &mut Book<'a, K>,
    work: &C,
    task: &Task,
    out: &mut O,
) -> Status
    requires work { IsWorkOf task.now.case.topology (C.does work.now) }
    requires case { book.old.case ≡ task.now.case }
    requires limit { book.old.limit ≡ history_limit }
    requires rounds { AreRoundsOf task.now.case task.now.before
        book.old.rows None book.old.history }
    requires late { is_at_once task.now.wanted ≡ false }

    ensures keeper_later { book.old.faults ≤ book.new.faults }
    ensures out_later { O.faults out.old ≤ O.faults out.new }
    ensures keeper_fault { result ≡ Status.KeeperFault → Rose book.old.faults book.new.faults }
    ensures sink_fault { result ≡ Status.SinkFault → Rose (O.faults out.old) (O.faults out.new) }
    ensures left { LeavesBegun task.now book.new.rows
        (O.text out.old, O.text out.new) book.new.history result }
    ensures none { book.new.history ≡ [] → IfSome book.new.rows (λ rows. rows ≡ []) }
    ensures tells { is_some book.new.rows ≡ is_some book.old.rows }
{
    let drained = drain(alloc, book, work);
    look(book);
    drains_leave_no_work();
    drains_begin_the_drained_history();
    results_are_the_plain_count();
    match drained {
        Ok(()) => write(alloc, task, book.history(), out),
        Err(fault) => status_of_drain(fault),
    }
}
