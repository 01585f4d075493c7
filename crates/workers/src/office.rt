//! Which book a mailbox serves.
use std::marker::Brand;

/// The book that a mailbox serves, as a type: by its numbers, and by its topology. No value says which book it
/// is, so a caller picks these two where it calls.
pub trait Office {
    ghost use Rattle.std.specs.Prelude.{ℕ, List};
    ghost use Rattle.topology.specs.Shapes.{Shape};

    /// The numbers that name the book.
    ghost book: { List ℕ };

    /// The book's topology.
    ghost shape: { Shape };
}

impl Office for Brand {
    ghost use Rattle.std.specs.Prelude.{[]};

    ghost book = { [] };

    ghost shape = { record { injectors = []; computations = [] } };
}
