//! One more entry of a history that is legal and fenced.
ghost use Rattle.std.specs.Prelude.{ℕ, List, ◌++◌, ◌∷◌, []};
ghost use Rattle.mw_types.specs.declared.entry.Entry.{Entry};
ghost use Rattle.mw_types.specs.declared.entry.Entry.TheVariants.{Claim};
ghost use Rattle.run_history.specs.Cases.{CaseShape};
ghost use Rattle.run_history.specs.Runs.{run_of};
ghost use Rattle.run_history.specs.Legal.{MayClaim, MayFollow};
ghost use Rattle.run_history.specs.Inputs.{IsRunnable};
ghost use Rattle.history_laws.specs.Writes.{IsSeenWrite, IsLegalAndFenced};

/// A write that was worked out on a beginning of the history may follow the whole of it, where the
/// beginning has seen the last claim of the write's interval, and all that was written under it.
pub fn seen_writes_are_lawful()
    ensures may { (case : CaseShape) (front rest : List Entry) (interval seq : ℕ)
        (entry : Entry) → IsRunnable case → IsSeenWrite case front rest interval seq entry →
        MayFollow case (run_of case.topology (front ++ rest)) entry }
    ensures lawful { (case : CaseShape) (front rest : List Entry) (interval seq : ℕ)
        (entry : Entry) → IsRunnable case → IsSeenWrite case front rest interval seq entry →
        IsLegalAndFenced case ((front ++ rest) ++ entry ∷ []) }
{}

/// A claim of an interval that is there, by a worker that is there, keeps a history legal and
/// fenced.
pub fn claims_are_lawful()
    ensures lawful { (case : CaseShape) (history : List Entry) (worker interval : ℕ) →
        IsLegalAndFenced case history → MayClaim case worker interval →
        IsLegalAndFenced case (history ++ Claim worker interval ∷ []) }
{}
