//! A count, at the edges of its windows and of time.
ghost use Rattle.std.specs.Prelude.{◌≡◌, ℕ, ◌∷◌, [], false};
ghost use Rattle.mw_types.specs.declared.TheConstants.{MAX_STAMP};
ghost use Rattle.mw_types.specs.declared.timer.Timer.{Timer};
ghost use Rattle.mw_types.specs.declared.state.State.TheVariants.{Count};
ghost use Rattle.computations.specs.Handlers.{effects_of, OfTimer};
ghost use Rattle.worked_examples.specs.First.{key_a, window, counts};
ghost use Rattle.worked_examples.specs.Spikes.{counts_kind, counted_at, taken_in, late_in, closed_at, keeps};

/// A record at the end of a window counts in the next one; windows stand ascending, and the last
/// window ends at the greatest timestamp. A count stands still there too.
pub fn count_at_the_edges()
    ensures at_end { counted_at (119 ∷ 120 ∷ []) ≡ Count 0 (window 120 1 ∷ window 180 1 ∷ []) }
    ensures ascending { counted_at (70 ∷ 0 ∷ []) ≡ Count 0 (window 60 1 ∷ window 120 1 ∷ []) }

    // 4611686018427387904 is the greatest timestamp of an input.
    ensures greatest_input { let end : ℕ = 4611686018427387960 in
        taken_in (Count 0 []) 4611686018427387904 ≡ counts (window end 1 ∷ []) end }
    ensures greatest_stamp { let last = window MAX_STAMP 1 ∷ [] in
        taken_in (Count 0 []) MAX_STAMP ≡ counts last MAX_STAMP }
    ensures greatest_count { let full = window 60 MAX_STAMP ∷ [] in
        taken_in (Count 0 full) 59 ≡ counts full 60 }

    // A late record is only counted, and a timer of no window or with another tag changes nothing.
    ensures late { let all = window 60 3 ∷ [] in
        late_in (Count 0 all) 10 ≡ keeps (Count 1 all) }
    ensures no_window { let state = Count 0 (window 60 3 ∷ []) in closed_at state 61 ≡ keeps state }
    ensures other_tag { let state = Count 0 (window 60 3 ∷ []) in
        let timer : Timer = record { tag = 1; time = 60; late = false } in
        effects_of counts_kind key_a state (OfTimer timer) ≡ keeps state }
{}
