//! What a worker comes to know before it works.
ghost use Rattle.std.specs.Prelude.{◌≡◌};
ghost use Rattle.run_history.specs.Cases.{CaseShape};
ghost use Rattle.book.specs.Desks.{HasLooked};
ghost use Rattle.node.specs.Fits.{Fits};
ghost use Rattle.node.specs.Workers.{NodeView};
ghost use Rattle.shared_book.specs.SharedDesks.{shared_home, shared_view};
ghost use Rattle.workers.specs.Serving.{HasServed};

use crate::counts::intervals_in;
use book::Desk;
use row_keeper::Keeper;
use run_history::Case;
use shared_book::SharedDesk;

// The mark of each interval is loaded.
fn load_marks<D: Desk>(desk: &mut D, case: &Case)
    requires case { (D.view desk.old).case ≡ case.now }

    ensures looked { HasLooked (D.view desk.old) (D.view desk.new) }
    ensures loan { D.loan desk.new ≡ D.loan desk.old }
    ensures home { D.home desk.new ≡ D.home desk.old }
{
    let intervals = intervals_in(case);
    for interval in 0..intervals {
        let _mark = desk.mark(interval);
    }
}

// The mark of each interval is loaded, so that from now on the leases of the desk allow marks as
// high.
pub(crate) fn learn<'s, 'a, K: Keeper>(desk: &mut SharedDesk<'s, 'a, K>, case: &Case)
    requires case { (shared_view desk.old.seat.now.place.me.0).case ≡ case.now }

    ensures served { (node : NodeView) →
        Fits case.now (shared_view desk.old.seat.now.place.me.0) node →
        HasServed case.now 0 (shared_view desk.old.seat.now.place.me.0)
        (shared_view desk.new.seat.now.place.me.0) node node }
    ensures loan { desk.new.seat.ghost_name ≡ desk.old.seat.ghost_name }
    ensures home { shared_home desk.new.seat.now.place ≡ shared_home desk.old.seat.now.place }
{
    desk.sound();
    load_marks(desk, case);
    let _tried = desk.catch_up();
    desk.sound();
}
