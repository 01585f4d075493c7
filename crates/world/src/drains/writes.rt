//! What a drain writes on rows that it holds, over a book of its own.
ghost use Rattle.std.specs.Prelude.{◌≡◌, ◌<◌, IfErr, IfSome, OnOk, Some};
ghost use Rattle.run_history.specs.Fences.{interval_of};
ghost use Rattle.topology.specs.Shapes.{parts_of};
ghost use Rattle.book.specs.OwnDesks.{own_view};
ghost use Rattle.book.specs.Writings.{MayPut};
ghost use Rattle.holdings.specs.Holding.{held_at, row_held};
ghost use Rattle.node.specs.Answers.{refusal_of};
ghost use Rattle.world.specs.drains.Turns.{HasFailed, HasPutOwn, IsAtWork, IsOwnRefusal, worker_of};

use book::{Book, DeskRefusal, OwnDesk, Writing};
use holdings::Holdings;
use mw_types::RowName;
use node::NodeFault;
use row_keeper::Keeper;
use std::alloc::Global;

// Writes into a row.
pub(crate) fn put<'a, K: Keeper>(
    alloc: Global,
    book: &mut Book<'a, K>,
    held: &mut Holdings,
    interval: u32,
    name: &RowName,
    writing: Writing<'_>,
) -> Result<(), NodeFault>
    requires at_work { IsAtWork book.old (worker_of held.old) }
    requires covers { interval_of book.old.case.topology name.now ≡ Some interval }
    requires part { name.now.part < parts_of book.old.case.topology }
    requires may { let shape = book.old.case.topology in IfSome (held_at held.old interval)
        (λ here. MayPut (own_view book.old) name.now (row_held shape here name.now) writing) }
    ensures put { OnOk result (IfSome (held_at held.old interval)
        (λ here. HasPutOwn book.old book.new here.lease.seq name.now writing.entry)) }
    ensures marks { OnOk result (book.new.marks ≡ book.old.marks) }
    ensures at_work { OnOk result (IsAtWork book.new (worker_of held.new)) }
    ensures failed { IfErr result (HasFailed book.old book.new) }
{
    let case = book.case();
    let mut desk = OwnDesk { book };
    match held.put(alloc, &mut desk, case, interval, name, writing) {
        Ok(_) => Ok(()),
        Err(why) => Err(fault_of(why)),
    }
}

// What a refusal is to a drain, over a book of its own.
pub(crate) fn fault_of(why: DeskRefusal) -> NodeFault
    requires own { IsOwnRefusal why }
    ensures { refusal_of result ≡ why }
{
    match why {
        DeskRefusal::HistoryFull => NodeFault::HistoryFull,
        DeskRefusal::KeeperFault => NodeFault::KeeperFault,
        DeskRefusal::RowDamaged { name, bytes } => NodeFault::RowDamaged { name, bytes },
        DeskRefusal::NoMemory => NodeFault::NoMemory,
        DeskRefusal::Busy { found: _ } => unreachable!(),
        DeskRefusal::Stale { newer: _ } => unreachable!(),
    }
}
