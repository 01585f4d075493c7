//! Workers that tell each other what they have seen.
ghost use Rattle.std.specs.Prelude.{◌≡◌, ◌<◌, length};
ghost use Rattle.workers.specs.Crews.{AreHealthy, AreWorkers, HasDone, HasTold, HasToldAll, KeepsNodes, KeepsOrders, KeepsOwn, KeepsPasses};

use crate::crew::Worker;
use crate::office::Office;
use row_keeper::Keeper;
use run_history::Case;
use shared_book::Shared;

// One worker comes to see what another has seen.
pub(crate) fn tell<K: Keeper, J: Office>(
    shared: &Shared<'_, K>,
    case: &Case,
    crew: &mut [Worker<K, J>],
    from: usize,
    to: usize,
)
    requires case { shared.now.case.now ≡ case.now }
    requires workers { AreWorkers shared.now.table.shared.table_id case.now crew.old }
    requires healthy { AreHealthy crew.old }
    requires from { from < length crew.old }
    requires to { to < length crew.old }

    ensures workers { AreWorkers shared.now.table.shared.table_id case.now crew.new }
    ensures healthy { AreHealthy crew.new }
    ensures done { HasDone 0 crew.old crew.new }
    ensures passes { KeepsPasses crew.old crew.new }
    ensures orders { KeepsOrders crew.old crew.new }
    ensures nodes { KeepsNodes crew.old crew.new }
    ensures own { KeepsOwn crew.old crew.new }
    ensures met { HasTold from to crew.old crew.new }
{
    let note = crew[from].note(shared, case);
    crew[to].meet(shared, case, note);
}

// Each worker comes to see what one of them has seen.
pub(crate) fn tell_all<K: Keeper, J: Office>(
    shared: &Shared<'_, K>,
    case: &Case,
    crew: &mut [Worker<K, J>],
    from: usize,
)
    requires case { shared.now.case.now ≡ case.now }
    requires workers { AreWorkers shared.now.table.shared.table_id case.now crew.old }
    requires healthy { AreHealthy crew.old }
    requires from { from < length crew.old }

    ensures workers { AreWorkers shared.now.table.shared.table_id case.now crew.new }
    ensures healthy { AreHealthy crew.new }
    ensures done { HasDone 0 crew.old crew.new }
    ensures passes { KeepsPasses crew.old crew.new }
    ensures orders { KeepsOrders crew.old crew.new }
    ensures nodes { KeepsNodes crew.old crew.new }
    ensures own { KeepsOwn crew.old crew.new }
    ensures met { HasToldAll from crew.old crew.new }
{
    for to in 0..crew.len() {
        tell(shared, case, crew, from, to);
    }
}
