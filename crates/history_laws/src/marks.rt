//! Marks of intervals: what is still to do in them and above them.
ghost use Rattle.std.specs.Prelude.{ℕ, List, Some, All, max, slice_get, ◌≡◌, ◌<◌, ◌≤◌, ◌++◌};
ghost use Rattle.mw_types.specs.declared.entry.Entry.{Entry};
ghost use Rattle.key_intervals.specs.declared.bounds.Bounds.{Bounds};
ghost use Rattle.topology.specs.Shapes.{feeds_of, parts_of};
ghost use Rattle.topology.specs.Rules.{IsTopology};
ghost use Rattle.run_history.specs.Cases.{CaseShape, intervals_of};
ghost use Rattle.run_history.specs.Runs.{Run, run_of};
ghost use Rattle.run_history.specs.Watermarks.{low_watermark};
ghost use Rattle.run_history.specs.Legal.{IsLegal};
ghost use Rattle.run_history.specs.Inputs.{IsRunnable};
ghost use Rattle.run_history.specs.Fences.{HasSeenAll, IsFenced, known};
ghost use Rattle.run_history.specs.Marks.{own_work, work_above, IsSafe, IsUnderMarks};

/// A mark of an interval that is safe after a beginning of a legal history is safe after the whole.
pub fn safe_marks_stay_safe()
    ensures stays { (case : CaseShape) (front rest : List Entry) (interval : ℕ) (bounds : Bounds)
        (mark : ℕ) → IsRunnable case → IsLegal case (front ++ rest) →
        slice_get (intervals_of case.topology) interval ≡ Some bounds →
        IsSafe case (run_of case.topology front) bounds mark →
        IsSafe case (run_of case.topology (front ++ rest)) bounds mark }

    // The mark 0 is safe, and of two safe marks the greater.
    ensures zero { (case : CaseShape) (run : Run) (bounds : Bounds) → IsSafe case run bounds 0 }
    ensures greater { (case : CaseShape) (run : Run) (bounds : Bounds) (one other : ℕ) →
        IsSafe case run bounds one → IsSafe case run bounds other →
        IsSafe case run bounds (max one other) }
{}

/// The own work of an interval, as it is known under a claim of it, is the same by a beginning of a
/// fenced history as by the whole, where the beginning has the claim and all that was written under
/// it; later claims may have overtaken this one.
pub fn own_work_is_as_known()
    ensures as_known { (case : CaseShape) (front rest : List Entry) (interval seq : ℕ)
        (bounds : Bounds) → IsTopology case.topology →
        slice_get (intervals_of case.topology) interval ≡ Some bounds →
        IsFenced case.topology (front ++ rest) → HasSeenAll interval seq front rest →
        own_work case (run_of case.topology (known interval seq (front ++ rest))) bounds
        ≡ own_work case (run_of case.topology (known interval seq front)) bounds }
{}

/// A mark that is at most an interval's own work, and at most a safe mark of each interval that
/// feeds it, is safe.
pub fn reported_marks_are_safe()
    ensures safe { (case : CaseShape) (history : List Entry) (interval : ℕ) (bounds : Bounds)
        (mark : ℕ) → IsRunnable case →
        slice_get (intervals_of case.topology) interval ≡ Some bounds →
        let run = run_of case.topology history in mark ≤ own_work case run bounds →
        let feeding = feeds_of case.topology bounds.part in
        All (λ (part : ℕ). IsUnderMarks case run part mark) feeding →
        IsSafe case run bounds mark }
{}

/// A mark that is at most a safe mark of each interval of a part is at most the part's low
/// watermark.
pub fn safe_marks_are_under_low_watermarks()
    ensures low { (case : CaseShape) (history : List Entry) (part mark : ℕ) →
        IsRunnable case → IsLegal case history → part < parts_of case.topology →
        let run = run_of case.topology history in
        IsUnderMarks case run part mark → mark ≤ low_watermark case run part }
{}

/// The work of a part, and of all that feeds it, never gets older.
pub fn work_above_never_falls()
    ensures work { (case : CaseShape) (front rest : List Entry) (part : ℕ) →
        IsRunnable case → IsLegal case (front ++ rest) → part < parts_of case.topology →
        work_above case (run_of case.topology front) part
        ≤ work_above case (run_of case.topology (front ++ rest)) part }
{}
