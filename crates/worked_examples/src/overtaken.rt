//! A claim that was overtaken.
ghost use Rattle.std.specs.Prelude.{take, ◌≡◌, ◌++◌, ◌∷◌, [], Some};
ghost use Rattle.run_history.specs.Fences.{IsFenced, known, last_claim};
ghost use Rattle.worked_examples.specs.First.{first_case};
ghost use Rattle.worked_examples.specs.Overtaken.{overtaken, handled_under};

/// Once another worker has claimed the interval, a write under the old claim is not fenced, and one
/// under the new is; what is known under the old claim ends where it was overtaken.
pub fn an_overtaken_claim_is_stale()
    ensures newer { last_claim 1 overtaken ≡ Some 3 }
    ensures under_new { IsFenced first_case.topology (overtaken ++ handled_under 3 ∷ []) }
    ensures under_old { ¬ IsFenced first_case.topology (overtaken ++ handled_under 1 ∷ []) }
    ensures known_old { known 1 1 (overtaken ++ handled_under 3 ∷ []) ≡ take 3 overtaken }
    ensures known_new { let all = overtaken ++ handled_under 3 ∷ [] in known 1 3 all ≡ all }
{}
