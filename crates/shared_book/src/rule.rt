//! The rule of the table, what each atomic step tells, and how views are cut and joined.
use crate::shared::Key;
use crate::views::View;
use atomic_table::{Join, Play, Split, TableRule};
use book::Core;
use row_keeper::Keeper;

/// The fence law and the law of marks, from the moment at which the book is in the table.
pub struct Law;

impl<'a, K: Keeper> TableRule<Option<Core<K>>, View, Key<'a>> for Law {
    ghost use Rattle.std.specs.Prelude.{false};
    ghost use Rattle.shared_book.specs.Opening.{SharedLaw, blank};

    ghost holds = { SharedLaw };

    ghost first = { λ key. blank key.case.now key.seats false };
}

/// The first seat takes the place, before the book is in it.
pub struct Fetch;

impl<K: Keeper> Play<Option<Core<K>>, View> for Fetch {
    ghost use Rattle.shared_book.specs.Opening.{Fetches};

    ghost then = { Fetches };
}

/// The first seat gives the place, with the book.
pub struct Open;

impl<K: Keeper> Play<Option<Core<K>>, View> for Open {
    ghost use Rattle.shared_book.specs.Opening.{Opens};

    ghost then = { Opens };
}

/// A seat takes the turn, or misses it.
pub struct Take;

impl<K: Keeper> Play<Option<Core<K>>, View> for Take {
    ghost use Rattle.shared_book.specs.Steps.{Takes};

    ghost then = { Takes };
}

/// The seat with the turn appends an entry.
pub struct Append;

impl<K: Keeper> Play<Option<Core<K>>, View> for Append {
    ghost use Rattle.shared_book.specs.Steps.{Appends};

    ghost then = { Appends };
}

/// The seat with the turn gives it back.
pub struct Give;

impl<K: Keeper> Play<Option<Core<K>>, View> for Give {
    ghost use Rattle.shared_book.specs.Steps.{GivesBack};

    ghost then = { GivesBack };
}

/// The seat with the turn notes that the keeper failed.
pub struct Fault;

impl<K: Keeper> Play<Option<Core<K>>, View> for Fault {
    ghost use Rattle.shared_book.specs.Steps.{Faults};

    ghost then = { Faults };
}

/// A seat learns what it has seen.
pub struct Look;

impl<K: Keeper> Play<Option<Core<K>>, View> for Look {
    ghost use Rattle.shared_book.specs.Steps.{Looks};

    ghost then = { Looks };
}

/// A seat loads a mark.
pub struct LoadMark;

impl<K: Keeper> Play<Option<Core<K>>, View> for LoadMark {
    ghost use Rattle.shared_book.specs.MarkSteps.{LoadsMark};

    ghost then = { LoadsMark };
}

/// A seat raises a mark.
pub struct RaiseMark;

impl<K: Keeper> Play<Option<Core<K>>, View> for RaiseMark {
    ghost use Rattle.shared_book.specs.MarkSteps.{RaisesMark};

    ghost then = { RaisesMark };
}

/// A seat loads the floor.
pub struct LoadFloor;

impl<K: Keeper> Play<Option<Core<K>>, View> for LoadFloor {
    ghost use Rattle.shared_book.specs.MarkSteps.{LoadsFloor};

    ghost then = { LoadsFloor };
}

/// The seat with the turn raises the floor.
pub struct RaiseFloor;

impl<K: Keeper> Play<Option<Core<K>>, View> for RaiseFloor {
    ghost use Rattle.shared_book.specs.MarkSteps.{RaisesFloor};

    ghost then = { RaisesFloor };
}

/// A note is split off.
pub struct Noted;

impl Split<View> for Noted {
    ghost use Rattle.shared_book.specs.Joins.{note_of};

    ghost left = { λ v. v };

    ghost right = { note_of };
}

/// The first number goes to a new seat.
pub struct Dealt;

impl Split<View> for Dealt {
    ghost use Rattle.shared_book.specs.Joins.{stays, leaves};

    ghost left = { stays };

    ghost right = { leaves };
}

/// A seat takes in another, or a note.
pub struct Joined;

impl Join<View> for Joined {
    ghost use Rattle.shared_book.specs.Joins.{joined, spent};

    ghost both = { joined };

    ghost spent = { spent };
}
