//! A spike, and the count that it reads, handler by handler.
ghost use Rattle.std.specs.Prelude.{◌≡◌, ◌∷◌, [], pos};
ghost use Rattle.mw_types.specs.declared.state.State.TheVariants.{Spike};
ghost use Rattle.computations.specs.Handlers.{fresh_state};
ghost use Rattle.worked_examples.specs.Spikes.{spikes_kind, nine_stamps, five_stamps, counted_at, open_from, closed_at, holding, knowing, held_at, late_at, due_at, sets, keeps, produces};

/// Nine records fill three windows, which the count produces; the spike holds the total of each,
/// and produces the third, since `7 * 2` is above `3 * (1 + 1)`.
pub fn spike_above_three_times()
    ensures counted { counted_at nine_stamps ≡ open_from 0 7 }

    // The count closes one window after another.
    ensures first_closed { closed_at (open_from 0 7) 60 ≡ produces (open_from 1 7) 60 1 }
    ensures second_closed { closed_at (open_from 1 7) 120 ≡ produces (open_from 2 7) 120 1 }
    ensures third_closed { closed_at (open_from 2 7) 180 ≡ produces (open_from 3 7) 180 7 }

    // The first two totals come while fewer than two are known.
    ensures first_held { held_at (fresh_state spikes_kind) 60 1 ≡ sets (holding 60 1 []) 61 }
    ensures first_known { due_at (holding 60 1 []) 61 ≡ keeps (knowing (pos 1 ∷ [])) }
    ensures second_held { let one = pos 1 ∷ [] in
        held_at (knowing one) 120 1 ≡ sets (holding 120 1 one) 121 }
    ensures second_known { let one = pos 1 ∷ [] in
        due_at (holding 120 1 one) 121 ≡ keeps (knowing (pos 1 ∷ pos 1 ∷ [])) }

    // The third is produced, and of those that are known the last two stay.
    ensures third_held { let two = pos 1 ∷ pos 1 ∷ [] in
        held_at (knowing two) 180 7 ≡ sets (holding 180 7 two) 181 }
    ensures third_told { let two = pos 1 ∷ pos 1 ∷ [] in
        due_at (holding 180 7 two) 181 ≡ produces (knowing (pos 1 ∷ pos 7 ∷ [])) 181 7 }
{}

/// Of five records the third window has three, and `3 * 2` is not above `3 * (1 + 1)`.
pub fn no_spike_at_three_times()
    ensures counted { counted_at five_stamps ≡ open_from 0 3 }
    ensures third_held { let two = pos 1 ∷ pos 1 ∷ [] in
        held_at (knowing two) 180 3 ≡ sets (holding 180 3 two) 181 }
    ensures third_known { let two = pos 1 ∷ pos 1 ∷ [] in
        due_at (holding 180 3 two) 181 ≡ keeps (knowing (pos 1 ∷ pos 3 ∷ [])) }
{}

/// Of two totals at one timestamp the greater is held, and a late record is only counted.
pub fn greater_total_is_held()
    ensures greater { held_at (holding 60 4 []) 60 9 ≡ sets (holding 60 9 []) 61 }
    ensures less { held_at (holding 60 4 []) 60 2 ≡ sets (holding 60 4 []) 61 }
    ensures late { late_at (knowing []) 60 9 ≡ keeps (Spike 1 [] []) }
{}
