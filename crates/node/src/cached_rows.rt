//! Rows that a worker has cached.
ghost use Rattle.std.specs.Prelude.{◌≡◌, ◌<◌, option_copied};
ghost use Rattle.std.specs.Option.{option_and_then};
ghost use Rattle.topology.specs.Shapes.{parts_of};
ghost use Rattle.run_history.specs.Runs.{cached, row_in};
ghost use Rattle.holdings.specs.Holding.{HeldView, held_on};

use crate::node::Node;
use book::Seen;
use mw_types::RowName;
use row_parts::Row;
use run_history::Case;

impl<N: Seen> Node<N> {
    /// The row of this name as it is cached: none where its interval is not held, or where no such
    /// row is cached.
    pub fn row(&self, case: &Case, name: &RowName) -> Option<&Row>
        requires part { name.now.part < parts_of case.now.topology }
        ensures row { let held = held_on case.now.topology self.now.held name.now in
            option_copied result
            ≡ option_and_then (λ (h : HeldView). row_in (cached h.rows) name.now) held }
    {
        let interval = case.interval_of(name);
        match self.held.get(interval) {
            Some(held) => held.row(name),
            None => None,
        }
    }
}
