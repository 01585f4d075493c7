//! Seats.
ghost use Rattle.std.specs.Prelude.{◌≡◌, ◌<◌, ◌∷◌, [], true};
ghost use Rattle.shared_book.specs.Joins.{first_of, note_of};
ghost use Rattle.shared_book.specs.Places.{AreThere, HasAllPlaces, claims_of, inputs_of};
ghost use Rattle.shared_book.specs.Settling.{AreSettled};

use crate::views::View;
use atomic_table::Seat as Place;
use book::Core;
use row_keeper::Keeper;

/// What a thread shares a book with: what it has seen of the history, its leases, the first of its
/// numbers, the marks that it loaded, and what it settled of its leases.
#[derive(Drop)]
pub struct Seat<K: Keeper> {
    pub(crate) place: Place<Option<Core<K>>, View>,
    pub(crate) number: u64,
    // The mark of each interval, as it was last loaded.
    pub(crate) marks: [u64; 61],
    // Of each interval 1 more than the sequencer of the newest lease of it, and its input mark.
    pub(crate) claims: [u64; 61],
    pub(crate) inputs: [u64; 61],
    // Whether a release has nothing to settle: since the last one no mark that is loaded changed, and
    // nothing was claimed.
    pub(crate) settled: bool,
    ghost numbered: { first_of place.me.0.numbers ≡ number ∷ [] },
    ghost small: { number < 64 },
    ghost live: { place.me.0.live ≡ true },
    ghost loaded: { marks ≡ place.me.0.marks },
    ghost claimed: { claims ≡ claims_of place.me.0 },
    ghost fed: { inputs ≡ inputs_of place.me.0 },
    ghost long: { HasAllPlaces place.me.0 },
    ghost there: { AreThere place.me.0.basis.case.topology place.me.0.leases },
    ghost current: { settled ≡ true → AreSettled place.me.0.basis.case.topology place.me.0.front
        marks claims inputs },
}

/// What a seat had seen of the history when it was made. It has no number, no turn, no lease and no
/// entry.
#[derive(Drop)]
pub struct Note<K: Keeper> {
    pub(crate) place: Place<Option<Core<K>>, View>,
    ghost bare: { place.me.0 ≡ note_of place.me.0 },
    ghost empty: { place.me.1 ≡ [] },
    ghost live: { place.me.0.live ≡ true },
}
