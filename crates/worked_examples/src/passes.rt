//! A pass.
ghost use Rattle.std.specs.Prelude.{◌≡◌, ◌∷◌, [], neg_ℤ, pos, codes, true};
ghost use Rattle.mw_types.specs.declared.kind.Kind.TheVariants as kinds;
ghost use Rattle.mw_types.specs.declared.state.State.TheVariants as states;
ghost use Rattle.mw_types.specs.declared.record.Record.{Record};
ghost use Rattle.computations.specs.Handlers.{effects_of, OfRecord};

/// A pass produces a late record again, under the record's own key, and counts it as late.
pub fn pass_example()
    ensures passed { let key = codes "h/x" in let value = neg_ℤ (pos 3) in
        let item : Record = record { key = key; stamp = 5; value = value; late = true } in
        effects_of kinds.Pass (codes "x") (states.Pass 0) (OfRecord item) ≡ record {
          state = states.Pass 1;
          timers = [];
          productions = record { key = key; stamp = 5; value = value } ∷ [];
        } }
{}
