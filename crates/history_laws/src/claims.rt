//! The last claim of an interval.
ghost use Rattle.std.specs.Prelude.{ℕ, List, Some, slice_get, ◌≡◌, ◌≤◌};
ghost use Rattle.mw_types.specs.declared.entry.Entry.{Entry};
ghost use Rattle.mw_types.specs.declared.entry.Entry.TheVariants.{Claim};
ghost use Rattle.run_history.specs.Fences.{last_claim};

/// The last claim of an interval is a claim of it, and no claim of the interval is later.
pub fn last_claims_are_latest()
    ensures claim { (history : List Entry) (interval seq : ℕ) →
        last_claim interval history ≡ Some seq →
        (worker : ℕ) × (slice_get history seq ≡ Some (Claim worker interval)) }
    ensures latest { (history : List Entry) (interval seq worker : ℕ) →
        slice_get history seq ≡ Some (Claim worker interval) →
        (last : ℕ) × (seq ≤ last) × (last_claim interval history ≡ Some last) }
{}
