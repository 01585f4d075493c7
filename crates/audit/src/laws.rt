//! That what an audit answers is all there is to answer.
ghost use Rattle.std.specs.Prelude.{◌≡◌, ◌<◌, ◌^◌, ℕ, List, length};
ghost use Rattle.mw_types.specs.declared.entry.Entry.{Entry};
ghost use Rattle.run_history.specs.Cases.{CaseShape};
ghost use Rattle.run_history.specs.Inputs.{IsRunnable};
ghost use Rattle.history_laws.specs.Keys.{AreKeyed};
ghost use Rattle.trace_lines.specs.declared.refusal.AuditWhy.{AuditWhy as Why};
ghost use Rattle.trace_lines.specs.Readings.{IsRunText};
ghost use Rattle.trace_lines.specs.Refusals.{IsFirstWrong};
ghost use Rattle.trace_lines.specs.Values.{AreValued};

/// A text is that of one run at most.
pub fn runs_have_one_text()
    ensures one { (case : CaseShape) (bytes : List ℕ) (one : List Entry) (other : List Entry) →
        IsRunnable case → AreKeyed case → AreValued case → length bytes < 2 ^ 32 →
        IsRunText case one bytes → IsRunText case other bytes → one ≡ other }
{}

/// A text that has a first line that is wrong is that of no run. So an audit answers a history
/// exactly where there is one.
pub fn refused_texts_are_of_no_run()
    ensures none { (case : CaseShape) (bytes : List ℕ) (number : ℕ) (why : Why)
        (history : List Entry) →
        IsRunnable case → AreKeyed case → AreValued case → length bytes < 2 ^ 32 →
        IsFirstWrong case bytes number why → IsRunText case history bytes → ⊥ }
{}
