//! The same three records with claims, acknowledgements and a purge.
ghost use Rattle.std.specs.Prelude.{Some, ◌≡◌};
ghost use Rattle.mw_types.specs.declared.TheConstants.{END};
ghost use Rattle.run_history.specs.Runs.{run_of};
ghost use Rattle.run_history.specs.Legal.{IsLegal, IsDone, floor_of};
ghost use Rattle.run_history.specs.Fences.{IsFenced, interval_of};
ghost use Rattle.run_history.specs.Finished.{IsFinished, unfinished};
ghost use Rattle.run_history.specs.Marks.{work_above};
ghost use Rattle.run_history.specs.Stored.{stored_rows};
ghost use Rattle.worked_examples.specs.First.{first_case, row_a};
ghost use Rattle.worked_examples.specs.OwnWorks.{drained_after, own_works};
ghost use Rattle.worked_examples.specs.Drained.{drained_history, injector_row, drained_floor, drained_rows, drained_stored, drained_stale};

/// The history of the first example with all six kinds of entry is legal and fenced, and leaves its
/// rows and nothing to do.
pub fn drained_example()
    ensures legal { IsLegal first_case drained_history }
    ensures fenced { IsFenced first_case.topology drained_history }
    ensures done { IsDone first_case (run_of first_case.topology drained_history) }
    ensures finished { IsFinished first_case (run_of first_case.topology drained_history) }
    ensures rows { (run_of first_case.topology drained_history).rows ≡ drained_rows }
    ensures stored { stored_rows (run_of first_case.topology drained_history) ≡ drained_stored }

    // While a delivery is not acknowledged the floor is its commit number, and else the next one.
    ensures floor_while_pending { drained_floor 4 ≡ 2 }
    ensures floor_at_end { floor_of (run_of first_case.topology drained_history) ≡ 14 }

    // A handle under the number of another interval's claim is legal, and not fenced.
    ensures stale_is_legal { IsLegal first_case drained_stale }
    ensures stale_is_not_fenced { IsFenced first_case.topology drained_stale → ⊥ }
{}

/// The two rows of the example lie in the two intervals.
pub fn drained_example_has_its_intervals()
    ensures injector_lies { interval_of first_case.topology injector_row ≡ Some 0 }
    ensures row_lies { interval_of first_case.topology row_a ≡ Some 1 }
{}

/// In the example's history the two intervals have the own work that was worked out: a line that
/// was injected is work of the injector until it is acknowledged, and a timer is work of its row.
pub fn drained_example_has_its_own_work()
    ensures injected { own_works (drained_after 9) ≡ (60, 60) }
    ensures handled { own_works (drained_after 10) ≡ (60, 60) }
    ensures acknowledged { own_works (drained_after 11) ≡ (END, 60) }
    ensures fired { own_works (drained_after 12) ≡ (END, 120) }

    // After the first line was handled its delivery is not acknowledged, one timer is set, and
    // lines are left.
    ensures left { unfinished first_case (drained_after 4) ≡ 3 }

    // Above the count stands the work of the injector too.
    ensures above { work_above first_case (drained_after 6) 1 ≡ 0 }
    ensures above_at_end { work_above first_case (drained_after 12) 1 ≡ 120 }
{}
