//! What a seat knows. No value of these types is ever made: they are said in proofs alone.
use book::Lease;
use mw_types::Entry;
use run_history::Case;
use std::collections::LinkedList;

/// What no step changes, and what is the same for all seats of one book.
pub struct Basis {
    /// The book's case.
    pub case: Case,
    /// How many entries the history may have.
    pub limit: u64,
    /// The number of seats that callers may have.
    pub seats: u64,
    /// The length of the history when it was first shared.
    pub begin: u64,
    /// How often the keeper had failed then.
    pub count: u64,
    /// Whether a contract can see the keeper's rows.
    pub told: Option<()>,
}

/// Of an interval, what a seat settled when it last gave the turn back: of the newest lease of it that
/// the seat has.
pub struct Settled {
    /// 1 more than the lease's sequencer; 0 where the seat has no lease of the interval.
    pub claim: u64,
    /// How long the history was by which the lease's rows were known.
    pub base: u64,
    /// The least mark of what feeds the interval, as the seat had loaded it, in whole microseconds.
    pub input: u64,
}

/// What a seat knows.
pub struct View {
    /// Whether it is a seat of a book: not before the book is in the table, and not once it is
    /// joined.
    pub live: bool,
    /// What no step changes.
    pub basis: Basis,
    /// The numbers of callers' seats that it has.
    pub numbers: LinkedList<u64>,
    /// Whether it has the turn.
    pub turn: bool,
    /// Where it has the turn, how often the keeper had failed when that was last seen.
    pub count: u64,
    /// The beginning of the history that it has seen.
    pub front: LinkedList<Entry>,
    /// What the last seat or note had seen that it took in.
    pub met: LinkedList<Entry>,
    /// What no step changes, of the last seat or note that it took in.
    pub met_basis: Basis,
    /// The commit numbers of the entries that it appended.
    pub own: LinkedList<u64>,
    /// What it found where another had the turn.
    pub missed: LinkedList<u64>,
    /// How often the keeper failed in its turns.
    pub faults: u64,
    /// The leases that it may use.
    pub leases: LinkedList<Lease>,
    /// What is settled, by the intervals' numbers: 61 places, or none in a note.
    pub settled: LinkedList<Settled>,
    /// The mark of each interval as it was last loaded, in as many places.
    pub marks: LinkedList<u64>,
    /// How often each mark was loaded.
    pub loads: LinkedList<u64>,
    /// The floor as it was last loaded.
    pub floor: u64,
    /// How often the floor was loaded.
    pub floor_loads: u64,
}
