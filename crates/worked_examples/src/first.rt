//! Three records in two windows, on one thread.
ghost use Rattle.std.specs.Prelude.{◌≡◌};
ghost use Rattle.run_history.specs.Runs.{run_of};
ghost use Rattle.run_history.specs.Legal.{IsLegal, IsDone};
ghost use Rattle.worked_examples.specs.First.{first_case, first_history, first_handled_twice, first_low, first_emissions};

/// The history of the first example is legal and done, emits its two windows, and has the low watermarks
/// that its timers need.
pub fn first_example()
    ensures legal { IsLegal first_case first_history }
    ensures done { IsDone first_case (run_of first_case.topology first_history) }
    ensures emitted { (run_of first_case.topology first_history).emissions ≡ first_emissions }

    // Before the last line no timer is due; then the first window is, and then the second.
    ensures low_before_lines { first_low 4 ≡ 0 }
    ensures low_at_first { first_low 6 ≡ 60 }
    ensures low_at_second { first_low 7 ≡ 120 }

    // A history in which a record is handled twice is not legal.
    ensures handled_twice { IsLegal first_case first_handled_twice → ⊥ }
{}
