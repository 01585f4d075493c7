//! Examples that were worked out by hand: the prover evaluates the definition on them.
ghost use Rattle.std.specs.Prelude.{◌≡◌, ◌∷◌, [], pos, false, codes};
ghost use Rattle.run_history.specs.Texts.{ResultLine};
ghost use Rattle.worked_examples.specs.First.{first_case, key_a};
ghost use Rattle.worked_examples.specs.Wide.{wide_case, key_h};
ghost use Rattle.plain_answer.specs.Plain.{plain_streams, plain_lines, fired_of, handled_of, injected_count, late_count, places_in, spikes_in};
ghost use Rattle.plain_answer.specs.Rows.{late_case, spike_case};

/// Three records of one key in windows of 60: two in the first window, one in the second.
pub fn two_windows_are_counted()
    ensures streams { plain_streams first_case
        ≡ (record { key = key_a; stamp = 10; value = pos 1; late = false }
        ∷ record { key = key_a; stamp = 59; value = pos 1; late = false }
        ∷ record { key = key_a; stamp = 60; value = pos 1; late = false } ∷ [])
        ∷ (record { key = key_a; stamp = 60; value = pos 2; late = false }
        ∷ record { key = key_a; stamp = 120; value = pos 1; late = false } ∷ []) ∷ [] }
    ensures lines { plain_lines first_case
        ≡ record { stream = codes "windows"; stamp = 60; key = key_a; value = pos 2 }
        ∷ record { stream = codes "windows"; stamp = 120; key = key_a; value = pos 1 } ∷ [] }
    ensures fired { fired_of first_case ≡ 2 }
    ensures handled { handled_of first_case ≡ 3 }
    ensures injected { injected_count first_case ≡ 3 }
    ensures late { late_count first_case ≡ 0 }
{}

/// A late record is handled, and counts in no window.
pub fn a_late_record_counts_as_late()
    ensures lines { plain_lines late_case ≡ [] }
    ensures fired { fired_of late_case ≡ 0 }
    ensures handled { handled_of late_case ≡ 1 }
    ensures injected { injected_count late_case ≡ 1 }
    ensures late { late_count late_case ≡ 1 }
{}

/// Windows of 1, 1 and 7 records: twice 7 is above three times the sum of the two before. Of 1, 1
/// and 3 the last is not above it.
pub fn a_window_far_above_is_a_spike()
    ensures above { plain_lines (spike_case (121 ∷ 122 ∷ 123 ∷ 124 ∷ 125 ∷ 126 ∷ []))
        ≡ record { stream = codes "alerts"; stamp = 181; key = key_a; value = pos 7 } ∷ [] }
    ensures above_fired { fired_of (spike_case (121 ∷ 122 ∷ 123 ∷ 124 ∷ 125 ∷ 126 ∷ [])) ≡ 6 }
    ensures above_handled { handled_of (spike_case (121 ∷ 122 ∷ 123 ∷ 124 ∷ 125 ∷ 126 ∷ [])) ≡ 12 }
    ensures not_above { plain_lines (spike_case (121 ∷ 122 ∷ [])) ≡ [] }
    ensures not_above_fired { fired_of (spike_case (121 ∷ 122 ∷ [])) ≡ 6 }
    ensures not_above_handled { handled_of (spike_case (121 ∷ 122 ∷ [])) ≡ 8 }
{}

/// Two injectors, of which one has a late line, a count that reads one of them by the head of its
/// keys, and a spike that reads each window twice: each window comes to one place, and is no spike.
pub fn two_readings_are_two_members()
    ensures lines { plain_lines wide_case ≡ [] }
    ensures fired { fired_of wide_case ≡ 4 }
    ensures handled { handled_of wide_case ≡ 7 }
    ensures injected { injected_count wide_case ≡ 3 }
    ensures late { late_count wide_case ≡ 1 }
{}

/// Of two totals at one time the greater stands, whichever comes first, and times stand in order.
pub fn the_greatest_total_stands()
    ensures places { places_in (record { key = key_h; stamp = 20; value = pos 2; late = false }
        ∷ record { key = key_h; stamp = 10; value = pos 5; late = false }
        ∷ record { key = key_h; stamp = 20; value = pos 3; late = false }
        ∷ record { key = key_h; stamp = 20; value = pos 1; late = false } ∷ [])
        ≡ (10, pos 5) ∷ (20, pos 3) ∷ [] }
    ensures spikes { spikes_in 2 2 key_a [] ((10, pos 5) ∷ (20, pos 2) ∷ (30, pos 9) ∷ [])
        ≡ record { key = key_a; stamp = 31; value = pos 9; late = false } ∷ [] }
{}
