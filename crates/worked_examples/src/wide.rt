//! Two injectors, a count that is cut, and a spike that reads it twice.
ghost use Rattle.std.specs.Prelude.{◌≡◌, ◌++◌, ◌∷◌, [], map, Some, None};
ghost use Rattle.mw_types.specs.declared.TheConstants.{END};
ghost use Rattle.mw_types.specs.declared.entry.Entry.TheVariants.{Claim, Ack, Purge};
ghost use Rattle.run_history.specs.Cases.{intervals_of};
ghost use Rattle.run_history.specs.Runs.{run_of};
ghost use Rattle.run_history.specs.Legal.{IsLegal, IsDone};
ghost use Rattle.run_history.specs.Fences.{IsFenced, interval_of, known};
ghost use Rattle.run_history.specs.Finished.{IsFinished};
ghost use Rattle.run_history.specs.Marks.{own_work};
ghost use Rattle.worked_examples.specs.First.{key_a};
ghost use Rattle.worked_examples.specs.Drained.{injector_row, id_of};
ghost use Rattle.worked_examples.specs.Wide.{wide_shape, wide_case, wide_history, wide_whole, wide_after, wide_numbers, wide_rows, wide_claimed_again, right_row, count_row, spike_row, key_h, key_h_x, right_handled, late_handled_in_time, late_injected_in_time, closed_early, MayNotFollow, IsStaleAfter};

/// The history of the wide example is legal and fenced, and leaves its rows and nothing to do. No
/// total of it is a spike, so nothing is emitted.
pub fn wide_example()
    ensures legal { IsLegal wide_case wide_whole }
    ensures fenced { IsFenced wide_shape wide_whole }
    ensures done { IsDone wide_case (run_of wide_shape wide_whole) }
    ensures finished { IsFinished wide_case (run_of wide_shape wide_whole) }
    ensures rows { (run_of wide_shape wide_whole).rows ≡ wide_rows }
    ensures emitted { (run_of wide_shape wide_whole).emissions ≡ [] }
{}

/// The low watermarks of the count and of the spike, the floor and the work that is left stand as
/// they were worked out, entry by entry.
pub fn wide_example_has_its_numbers()
    // As long as the right injector has its line, its file states no watermark.
    ensures claimed { wide_numbers 5 ≡ (0, 0, 5, 2) }
    ensures left_injected { wide_numbers 6 ≡ (0, 0, 5, 3) }

    // Then the oldest record that waits counts, then the watermark before the left file's next
    // line, and then the timers: the late record counts nowhere.
    ensures injected { wide_numbers 7 ≡ (10, 10, 5, 3) }
    ensures handled { wide_numbers 9 ≡ (30, 30, 5, 5) }
    ensures late_injected { wide_numbers 10 ≡ (60, 60, 5, 5) }
    ensures late_handled { wide_numbers 11 ≡ (60, 60, 5, 5) }

    // A window that is closed still waits for the spike.
    ensures window_closed { wide_numbers 12 ≡ (120, 60, 5, 6) }
    ensures one_handled { wide_numbers 13 ≡ (120, 60, 5, 7) }
    ensures both_handled { wide_numbers 14 ≡ (120, 61, 5, 7) }

    // Four of the first five deliveries are acknowledged, and at the end all are.
    ensures acknowledged { wide_numbers 18 ≡ (120, 61, 6, 3) }
    ensures total_known { wide_numbers 20 ≡ (120, 120, 6, 2) }
    ensures second_closed { wide_numbers 21 ≡ (END, 120, 6, 3) }
    ensures ended { wide_numbers 27 ≡ (END, END, 27, 0) }
{}

/// Which interval a row lies in, what is known under a claim, and the own work of each interval.
pub fn wide_example_has_its_intervals()
    ensures below_cut { interval_of wide_shape (count_row (103 ∷ 122 ∷ [])) ≡ Some 2 }
    ensures at_cut { interval_of wide_shape (count_row key_h) ≡ Some 3 }
    ensures of_spike { interval_of wide_shape (spike_row key_h_x) ≡ Some 4 }
    ensures of_no_part { interval_of wide_shape (record { part = 4; key = key_a }) ≡ None }

    // The window of a is closed and not acknowledged; the left line of a late record is no work.
    ensures own_works { map (own_work wide_case (wide_after 12)) (intervals_of wide_shape)
        ≡ 10 ∷ 70 ∷ 60 ∷ 120 ∷ END ∷ [] }

    // A second worker claims both intervals of the count.
    ensures known_below { known 2 2 wide_claimed_again ≡ wide_history }
    ensures known_above { known 3 3 wide_claimed_again ≡ wide_history ++ Claim 1 2 ∷ [] }
    ensures known_elsewhere { known 4 4 wide_claimed_again ≡ wide_claimed_again }
{}

/// Of thirteen wrong entries twelve may not follow where they would come, and one is not fenced
/// there.
pub fn wide_example_refuses()
    ensures acknowledged_before_handled { MayNotFollow 6 (Ack 0 injector_row (id_of 5)) }
    ensures acknowledged_twice { MayNotFollow 17 (Ack 0 injector_row (id_of 5)) }
    ensures acknowledged_elsewhere { MayNotFollow 9 (Ack 1 right_row (id_of 5)) }

    ensures purged_above_the_floor { MayNotFollow 18 (Purge 2 (count_row key_a) 7) }
    ensures purged_to_its_own_floor { MayNotFollow 19 (Purge 2 (count_row key_a) 6) }
    ensures purged_where_no_entry_is { MayNotFollow 18 (Purge 2 (count_row (98 ∷ [])) 6) }

    ensures claimed_where_no_interval_is { MayNotFollow 18 (Claim 0 5) }
    ensures claimed_by_no_worker { MayNotFollow 18 (Claim 16 4) }

    // The record of h/x goes to the row of h.
    ensures handled_elsewhere { MayNotFollow 7 (right_handled 2 key_h_x) }
    ensures late_handled_in_time { MayNotFollow 10 late_handled_in_time }
    ensures late_injected_in_time { MayNotFollow 9 late_injected_in_time }

    // After 9 entries the low watermark of the count is 30.
    ensures fired_above_the_low_watermark { MayNotFollow 9 closed_early }

    // The row of h lies above the cut, where the claim has the number 3.
    ensures handled_below_the_cut { IsStaleAfter 8 (right_handled 2 key_h) }
{}
