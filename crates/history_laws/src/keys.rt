//! The keys of a run.
ghost use Rattle.std.specs.Prelude.{List};
ghost use Rattle.mw_types.specs.declared.entry.Entry.{Entry};
ghost use Rattle.run_history.specs.Cases.{CaseShape};
ghost use Rattle.run_history.specs.Legal.{IsLegal};
ghost use Rattle.run_history.specs.Runs.{run_of};
ghost use Rattle.history_laws.specs.Keys.{AreKeyed, HasKeys};

/// Where each line that is injected has a key of at most 256 bytes of UTF-8, so has each record that
/// a legal history made, and each row to which one goes or that is there stands under such a key.
pub fn keys_are_keys()
    ensures keys { (case : CaseShape) (history : List Entry) →
        AreKeyed case → IsLegal case history → HasKeys (run_of case.topology history) }
{}
