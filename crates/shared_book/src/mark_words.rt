//! The atomic steps of a seat on the words of marks and of the floor.
ghost use Rattle.std.specs.Prelude.{◌≡◌, ◌<◌, ◌≤◌, true};
ghost use Rattle.run_history.specs.Legal.{floor_of};
ghost use Rattle.run_history.specs.Runs.{run_of};
ghost use Rattle.watermark.specs.Marks.{mark_of};
ghost use Rattle.shared_book.specs.MarkSteps.{MayRaise};
ghost use Rattle.shared_book.specs.Places.{with_floor_loaded, with_mark_loaded};

use crate::rule::{LoadFloor, LoadMark, RaiseFloor, RaiseMark};
use crate::shared::Shared;
use crate::views::View;
use atomic_table::Seat as Place;
use book::{Core, Lease};
use row_keeper::Keeper;

// One load of a mark's word: it is not below what the seat had loaded.
pub(crate) fn load_mark<K: Keeper>(
    shared: &Shared<'_, K>,
    place: &mut Place<Option<Core<K>>, View>,
    interval: u32,
) -> u64
    requires table { place.old.table_id ≡ shared.now.table.shared.table_id }
    requires live { place.old.me.0.live ≡ true }
    requires there { interval < 61 }
    ensures table { place.new.table_id ≡ place.old.table_id }
    ensures view { let me = place.old.me in
        place.new.me ≡ (with_mark_loaded me.0 interval result, me.1) }
    ensures rises { mark_of place.old.me.0.marks interval ≤ result }
{
    shared
        .table
        .shared
        .load::<LoadMark>(place, interval as usize + 3)
}

// One raise of a mark's word, to what a lease may vouch for: the word is the greater of both then.
pub(crate) fn raise_mark<K: Keeper>(
    shared: &Shared<'_, K>,
    place: &mut Place<Option<Core<K>>, View>,
    lease: &Lease,
    mark: u64,
) -> u64
    requires table { place.old.table_id ≡ shared.now.table.shared.table_id }
    requires live { place.old.me.0.live ≡ true }
    requires there { lease.now.interval < 61 }
    requires may { MayRaise place.old.me.0 lease.now mark }
    ensures table { place.new.table_id ≡ place.old.table_id }
    ensures view { place.new.me
        ≡ (with_mark_loaded place.old.me.0 lease.now.interval result, place.old.me.1) }
    ensures rises { mark_of place.old.me.0.marks lease.now.interval ≤ result }
    ensures raised { mark ≤ result }
{
    let interval = lease.interval();
    let found = shared
        .table
        .shared
        .fetch_max::<RaiseMark>(place, interval as usize + 3, mark);
    found.max(mark)
}

// One load of the floor's word.
pub(crate) fn load_floor<K: Keeper>(
    shared: &Shared<'_, K>,
    place: &mut Place<Option<Core<K>>, View>,
) -> u64
    requires table { place.old.table_id ≡ shared.now.table.shared.table_id }
    requires live { place.old.me.0.live ≡ true }
    ensures table { place.new.table_id ≡ place.old.table_id }
    ensures view { place.new.me ≡ (with_floor_loaded place.old.me.0 result, place.old.me.1) }
    ensures rises { place.old.me.0.floor ≤ result }
{
    shared.table.shared.load::<LoadFloor>(place, 2)
}

// The seat with the turn raises the floor's word to the floor of the history, which is the word then.
pub(crate) fn raise_floor<K: Keeper>(
    shared: &Shared<'_, K>,
    place: &mut Place<Option<Core<K>>, View>,
    floor: u64,
)
    requires table { place.old.table_id ≡ shared.now.table.shared.table_id }
    requires live { place.old.me.0.live ≡ true }
    requires turn { place.old.me.0.turn ≡ true }
    requires floor { let v = place.old.me.0 in
        floor ≡ floor_of (run_of v.basis.case.topology v.front) }
    ensures table { place.new.table_id ≡ place.old.table_id }
    ensures view { place.new.me ≡ (with_floor_loaded place.old.me.0 floor, place.old.me.1) }
{
    shared.table.shared.fetch_max::<RaiseFloor>(place, 2, floor);
}
