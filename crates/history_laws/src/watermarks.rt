//! The low watermarks of a run.
ghost use Rattle.std.specs.Prelude.{ℕ, List, ◌++◌, ◌≤◌};
ghost use Rattle.mw_types.specs.declared.entry.Entry.{Entry};
ghost use Rattle.topology.specs.Shapes.{parts_of};
ghost use Rattle.run_history.specs.Cases.{CaseShape};
ghost use Rattle.run_history.specs.Runs.{run_of};
ghost use Rattle.run_history.specs.Watermarks.{low_watermark};
ghost use Rattle.run_history.specs.Legal.{IsLegal};
ghost use Rattle.run_history.specs.Inputs.{IsRunnable};

/// The low watermark of a part after a legal history is at least that after each beginning of it.
pub fn low_watermark_never_falls()
    ensures low { (case : CaseShape) (front rest : List Entry) (part : ℕ) →
        IsRunnable case → IsLegal case (front ++ rest) → part ≤ parts_of case.topology →
        low_watermark case (run_of case.topology front) part
        ≤ low_watermark case (run_of case.topology (front ++ rest)) part }
{}
