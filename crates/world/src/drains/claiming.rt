//! The claims with which a drain begins.
ghost use Rattle.std.specs.Prelude.{◌<◌, IfErr, OnOk};
ghost use Rattle.topology.specs.Rules.{interval_count};
ghost use Rattle.book.specs.OwnDesks.{own_view};
ghost use Rattle.holdings.specs.Holding.{AreAllHeld};
ghost use Rattle.world.specs.drains.Turns.{HasFailed, HasTaken, worker_of};

use crate::drains::writes::fault_of;
use book::{Book, OwnDesk};
use holdings::Holdings;
use node::NodeFault;
use row_keeper::Keeper;
use std::alloc::Global;

// Claims one interval.
pub(crate) fn claim<'a, K: Keeper>(
    alloc: Global,
    book: &mut Book<'a, K>,
    held: &mut Holdings,
    interval: u32,
) -> Result<(), NodeFault>
    requires fits { AreAllHeld book.old.case (own_view book.old) held.old }
    requires there { interval < interval_count book.old.case.topology }
    ensures taken { OnOk result
        (HasTaken book.old book.new interval (worker_of held.old) (worker_of held.new)) }
    ensures failed { IfErr result (HasFailed book.old book.new) }
{
    let case = book.case();
    let mut desk = OwnDesk { book };
    match held.claim(alloc, &mut desk, case, 0, interval) {
        Ok(_) => Ok(()),
        Err(why) => Err(fault_of(why)),
    }
}
