//! The atomic steps of a seat at the table, and the place that holds the book.
ghost use Rattle.std.specs.Prelude.{◌≡◌, ◌≢◌, ◌∷◌, [], None, Some, false, true};
ghost use Rattle.mw_types.specs.Causes.{Rose};
ghost use Rattle.run_history.specs.Fences.{Begins};
ghost use Rattle.shared_book.specs.FenceLaw.{AreClaimed, IsCore};
ghost use Rattle.shared_book.specs.Steps.{HasSeenLawful, HasSeenSettled, HasSeenWritten, faulted, grown, idle, missing};
ghost use Rattle.shared_book.specs.Turns.{HasTaken, HasTurn, IsGrown, IsHere, IsIdle, IsOut};

use crate::rule::{Append, Fault, Give, Look, Take};
use crate::seats::Seat;
use crate::shared::Shared;
use crate::views::View;
use atomic_table::Seat as Place;
use book::Core;
use row_keeper::Keeper;

// One try for the turn. What the word was is answered: 0 where the seat has the turn now. The seat looks
// first: each of its claims is in what it has seen, so none comes to be the last by what others appended.
pub(crate) fn take<K: Keeper>(shared: &Shared<'_, K>, seat: &mut Seat<K>) -> u64
    requires here { IsHere shared.now.table.shared.table_id shared.now.case.now seat.old.place }
    requires idle { IsIdle seat.old.place.me }
    ensures here { IsHere shared.now.table.shared.table_id shared.now.case.now seat.new.place }
    ensures turn { result ≡ 0 → HasTurn seat.new.place.me }
    ensures taken { result ≡ 0 → HasTaken seat.old.place.me.0 seat.new.place.me.0 }
    ensures busy { (result ≢ 0) →
        seat.new.place.me ≡ (missing seat.old.place.me.0 result, seat.old.place.me.1) }
{
    look(shared, &mut seat.place);
    shared
        .table
        .shared
        .compare_exchange::<Take>(&mut seat.place, 1, 0, seat.number + 1)
}

// Takes the book out of the place.
pub(crate) fn out<K: Keeper>(
    shared: &Shared<'_, K>,
    place: &mut Place<Option<Core<K>>, View>,
) -> Core<K>
    requires table { place.old.table_id ≡ shared.now.table.shared.table_id }
    requires turn { HasTurn place.old.me }
    ensures table { place.new.table_id ≡ shared.now.table.shared.table_id }
    ensures view { place.new.me ≡ (place.old.me.0, (0, None) ∷ []) }
    ensures core { let v = place.old.me.0 in IsCore v.basis v.front v.count result }
{
    match shared.table.shared.exchange(place, 0, None) {
        Some(core) => core,
        None => unreachable!(),
    }
}

// Puts the book into the place.
pub(crate) fn home<K: Keeper>(
    shared: &Shared<'_, K>,
    place: &mut Place<Option<Core<K>>, View>,
    core: Core<K>,
)
    requires table { place.old.table_id ≡ shared.now.table.shared.table_id }
    requires out { IsOut place.old.me }
    ensures table { place.new.table_id ≡ shared.now.table.shared.table_id }
    ensures view { place.new.me ≡ (place.old.me.0, (0, Some core) ∷ []) }
{
    let was = shared.table.shared.exchange(place, 0, Some(core));
    let None = was else { unreachable!() };
}

// Puts the book into the place, which has one entry more, and appends the entry.
pub(crate) fn append<K: Keeper>(
    shared: &Shared<'_, K>,
    place: &mut Place<Option<Core<K>>, View>,
    core: Core<K>,
)
    requires table { place.old.table_id ≡ shared.now.table.shared.table_id }
    requires live { place.old.me.0.live ≡ true }
    requires out { IsOut place.old.me }
    requires grown { IsGrown place.old.me.0 core }
    ensures table { place.new.table_id ≡ shared.now.table.shared.table_id }
    ensures turn { HasTurn place.new.me }
    ensures view { place.new.me ≡ (grown place.old.me.0 core.history, (0, Some core) ∷ []) }
{
    home(shared, place, core);
    shared.table.shared.fetch_add::<Append>(place, 0, 1);
}

// Puts the book into the place, whose keeper failed, and notes that.
pub(crate) fn fault<K: Keeper>(
    shared: &Shared<'_, K>,
    place: &mut Place<Option<Core<K>>, View>,
    core: Core<K>,
)
    requires table { place.old.table_id ≡ shared.now.table.shared.table_id }
    requires live { place.old.me.0.live ≡ true }
    requires out { IsOut place.old.me }
    requires rose { Rose place.old.me.0.count core.faults }
    requires core { let v = place.old.me.0 in IsCore v.basis v.front v.count core }
    requires claimed { AreClaimed place.old.me.0.front place.old.me.0.leases }
    ensures table { place.new.table_id ≡ shared.now.table.shared.table_id }
    ensures turn { HasTurn place.new.me }
    ensures view { place.new.me ≡ (faulted place.old.me.0 core.faults, (0, Some core) ∷ []) }
{
    home(shared, place, core);
    shared.table.shared.load::<Fault>(place, 0);
}

// Gives the turn back, and the book with it.
pub(crate) fn give<K: Keeper>(shared: &Shared<'_, K>, place: &mut Place<Option<Core<K>>, View>)
    requires table { place.old.table_id ≡ shared.now.table.shared.table_id }
    requires live { place.old.me.0.live ≡ true }
    requires turn { HasTurn place.old.me }
    ensures table { place.new.table_id ≡ shared.now.table.shared.table_id }
    ensures view { place.new.me ≡ (idle place.old.me.0, []) }
{
    shared.table.shared.store::<Give>(place, 1, 0);
}

// Looks at what the seat has seen.
pub(crate) fn look<K: Keeper>(shared: &Shared<'_, K>, place: &mut Place<Option<Core<K>>, View>)
    requires table { place.old.table_id ≡ shared.now.table.shared.table_id }
    requires live { place.old.me.0.live ≡ true }
    ensures table { place.new.table_id ≡ shared.now.table.shared.table_id }
    ensures same { place.new.me ≡ place.old.me }
    ensures seen { HasSeenLawful place.old.me.0 }
    ensures met { Begins place.old.me.0.met place.old.me.0.front }
    ensures met_same { place.old.me.0.met_basis ≡ place.old.me.0.basis }
    ensures written { HasSeenWritten place.old.me.0 }
    ensures settled { place.old.me.0.turn ≡ false → HasSeenSettled place.old.me.0 }
{
    shared.table.shared.load::<Look>(place, 0);
}
