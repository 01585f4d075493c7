//! Exactly once.
ghost use Rattle.std.specs.Prelude.{ℕ, List, All, IsTrue, false, ◌≡◌, ◌++◌, ◌∷◌, []};
ghost use Rattle.mw_types.specs.declared.delivery.Delivery.{Delivery};
ghost use Rattle.mw_types.specs.declared.entry.Entry.{Entry};
ghost use Rattle.mw_types.specs.declared.entry.Entry.TheVariants.{Ack, Handle};
ghost use Rattle.mw_types.specs.declared.identity.RecordId.{RecordId};
ghost use Rattle.mw_types.specs.declared.identity.RowName.{RowName};
ghost use Rattle.mw_types.specs.Outcomes.{EffectsView};
ghost use Rattle.run_history.specs.Cases.{CaseShape};
ghost use Rattle.run_history.specs.Runs.{run_of};
ghost use Rattle.run_history.specs.Legal.{IsLegal};
ghost use Rattle.run_history.specs.Finished.{IsFinished, is_acknowledged, is_handled};

/// In a legal history each record is handled once at most, and acknowledged once at most.
pub fn records_are_handled_once()
    ensures handled { (case : CaseShape) (before after : List Entry) (seq : ℕ) (row : RowName)
        (id : RecordId) (effects : EffectsView) →
        IsLegal case (before ++ Handle seq row id effects ∷ after) →
        (is_handled id before ≡ false) × (is_handled id after ≡ false) }
    ensures acknowledged { (case : CaseShape) (before after : List Entry) (seq : ℕ)
        (row : RowName) (id : RecordId) → IsLegal case (before ++ Ack seq row id ∷ after) →
        (is_acknowledged id before ≡ false) × (is_acknowledged id after ≡ false) }
{}

/// After a legal history each record that was made is handled where nothing waits, and acknowledged
/// where no work is left.
pub fn finished_runs_handled_each_record()
    ensures handled { (case : CaseShape) (history : List Entry) → IsLegal case history →
        let run = run_of case.topology history in run.unhandled ≡ [] →
        All (λ (d : Delivery). IsTrue (is_handled d.id history)) run.made }
    ensures acknowledged { (case : CaseShape) (history : List Entry) → IsLegal case history →
        let run = run_of case.topology history in IsFinished case run →
        All (λ (d : Delivery). IsTrue (is_acknowledged d.id history)) run.made }
{}
