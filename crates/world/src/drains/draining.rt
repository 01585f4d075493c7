//! The drain: one thread works off all that a book has left to do.
ghost use Rattle.std.specs.Prelude.{◌≡◌, ◌≤◌, Err, IfErr, IfSome, OnOk, length};
ghost use Rattle.std.specs.Option.{is_some};
ghost use Rattle.mw_types.specs.Causes.{Rose};
ghost use Rattle.run_history.specs.Fences.{Begins};
ghost use Rattle.run_history.specs.Finished.{IsFinished};
ghost use Rattle.run_history.specs.Runs.{run_of};
ghost use Rattle.node.specs.Works.{IsWorkOf};
ghost use Rattle.book.specs.DeskReasons.{IsDamageOf};
ghost use Rattle.book.specs.OwnDesks.{own_view};
ghost use Rattle.node.specs.Answers.{refusal_of};
ghost use Rattle.world.specs.drains.Drains.{HasEnded, IsDraining};
ghost use Rattle.world.specs.drains.DrainTurns.{IsUnderWay};
ghost use Rattle.world.specs.drains.Turns.{HasGone, WhereTold};

use crate::drains::drain_turns::{Drain, begin_drain, drain_turn};
use book::Book;
use computations::Computation;
use node::NodeFault;
use row_keeper::Keeper;
use std::alloc::Global;

/// Works off all that a book has left to do, as one thread does it: it claims each interval, and then
/// writes one entry after another until none is left to write. Each of these is a turn of `drain_turn`.
/// It returns over every keeper. A world drains its book by it, and so does whoever has a book and no
/// world.
pub fn drain<'a, K: Keeper, C: Computation>(
    alloc: Global,
    book: &mut Book<'a, K>,
    work: &C,
) -> Result<(), NodeFault>
    requires work { IsWorkOf book.old.case.topology (C.does work.now) }

    ensures case { book.new.case ≡ book.old.case }
    ensures limit { book.new.limit ≡ book.old.limit }
    ensures tells { is_some book.new.rows ≡ is_some book.old.rows }
    ensures grown { Begins book.old.history book.new.history }
    ensures faults { book.old.faults ≤ book.new.faults }

    // Where a contract can see the keeper's rows the history goes on as a drain does, and after Ok to
    // its end, where no work is left.
    ensures draining { IfSome book.old.rows
        (λ _. IsDraining book.old.case (length book.old.history) book.new.history) }
    ensures ended { OnOk result (IfSome book.old.rows
        (λ _. HasEnded book.old.case (length book.old.history) book.new.history)) }
    ensures finished { OnOk result (IfSome book.old.rows (λ _. let shape = book.new.case.topology in
        IsFinished book.new.case (run_of shape book.new.history))) }

    ensures keeper_fault { result ≡ Err NodeFault.KeeperFault →
        Rose book.old.faults book.new.faults }
    ensures full { result ≡ Err NodeFault.HistoryFull →
        length book.new.history ≡ book.new.limit }

    // Where a contract can see the keeper's rows, it is full only before the drain has ended.
    ensures more { result ≡ Err NodeFault.HistoryFull → IfSome book.old.rows
        (λ _. HasEnded book.old.case (length book.old.history) book.new.history → ⊥) }
    ensures damaged { IfErr result (λ why. IsDamageOf (own_view book.new) (refusal_of why)) }
{
    let mut drain = begin_drain(alloc, book);
    let drained = turn_all(alloc, book, work, &mut drain);
    drop(drain);
    // Its clauses say what always holds of a book.
    book.history();
    drained
}

// Turns until one has written nothing.
fn turn_all<'a, K: Keeper, C: Computation>(
    alloc: Global,
    book: &mut Book<'a, K>,
    work: &C,
    drain: &mut Drain,
) -> Result<(), NodeFault>
    requires work { IsWorkOf book.old.case.topology (C.does work.now) }
    requires under_way { IsUnderWay book.old drain.old }
    ensures gone { HasGone book.old book.new }
    ensures draining { WhereTold book.old (
        IsDraining book.old.case drain.old.from book.old.history →
        IsDraining book.old.case drain.old.from book.new.history) }
    ensures ended { OnOk result (WhereTold book.old
        (HasEnded book.old.case drain.old.from book.new.history)) }
    ensures keeper_fault { result ≡ Err NodeFault.KeeperFault →
        Rose book.old.faults book.new.faults }
    ensures full { result ≡ Err NodeFault.HistoryFull →
        length book.new.history ≡ book.new.limit }
    ensures more { result ≡ Err NodeFault.HistoryFull → WhereTold book.old
        (HasEnded book.old.case drain.old.from book.new.history → ⊥) }
    ensures damaged { IfErr result (λ why. IsDamageOf (own_view book.new) (refusal_of why)) }
{
    while drain_turn(alloc, book, work, drain)? {}
    Ok(())
}
