//! The interval in which a row lies.
ghost use Rattle.std.specs.Prelude.{ℕ, Some, ◌≡◌};
ghost use Rattle.mw_types.specs.declared.identity.RowName.{RowName};
ghost use Rattle.key_intervals.specs.Intervals.{AreIntervals, HasRow};
ghost use Rattle.topology.specs.Shapes.{Shape};
ghost use Rattle.run_history.specs.Fences.{interval_of};
ghost use Rattle.run_history.specs.Cases.{intervals_of};

/// The interval in which a row lies is the one that has it.
pub fn rows_lie_in_the_interval_that_has_them()
    ensures has { (shape : Shape) (interval : ℕ) (name : RowName) →
        interval_of shape name ≡ Some interval → HasRow (intervals_of shape) interval name }
    ensures lies { (shape : Shape) (interval : ℕ) (name : RowName) →
        AreIntervals (intervals_of shape) →
        HasRow (intervals_of shape) interval name → interval_of shape name ≡ Some interval }
{}
