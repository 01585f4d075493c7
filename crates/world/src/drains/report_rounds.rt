//! What the marks are after one round of reports.
ghost use Rattle.std.specs.Prelude.{ℕ, List, [], Some, length, slice_get, ◌≡◌, ◌<◌, ◌≤◌};
ghost use Rattle.mw_types.specs.declared.entry.Entry.{Entry};
ghost use Rattle.key_intervals.specs.declared.bounds.Bounds.{Bounds};
ghost use Rattle.topology.specs.Shapes.{injectors_of, parts_of};
ghost use Rattle.run_history.specs.Cases.{CaseShape, intervals_of};
ghost use Rattle.run_history.specs.Runs.{run_of};
ghost use Rattle.run_history.specs.Watermarks.{least, low_watermark};
ghost use Rattle.run_history.specs.Legal.{IsLegal};
ghost use Rattle.run_history.specs.Finished.{all_pending};
ghost use Rattle.run_history.specs.Inputs.{IsRunnable};
ghost use Rattle.run_history.specs.Marks.{IsSafe};
ghost use Rattle.watermark.specs.Marks.{mark_of, marks_of};
ghost use Rattle.book.specs.Marks.{AreSafe};
ghost use Rattle.world.specs.drains.ReportRounds.{marks_after_round};

/// After one round of reports over safe marks, each mark is the greatest that is safe for its
/// interval.
pub fn a_round_leaves_the_greatest_safe_marks()
    ensures safe { (case : CaseShape) (history : List Entry) (marks : List ℕ) →
        IsRunnable case → length marks ≡ length (intervals_of case.topology) →
        let run = run_of case.topology history in
        AreSafe case run marks → AreSafe case run (marks_after_round case run marks) }

    // This half holds of any marks.
    ensures greatest { (case : CaseShape) (history : List Entry) (marks : List ℕ)
        (interval : ℕ) (bounds : Bounds) (mark : ℕ) →
        IsRunnable case → length marks ≡ length (intervals_of case.topology) →
        slice_get (intervals_of case.topology) interval ≡ Some bounds →
        let run = run_of case.topology history in
        IsSafe case run bounds mark → mark ≤ mark_of (marks_after_round case run marks) interval }
{}

/// After one round of reports over safe marks, the least mark of a computation's intervals is
/// exactly its low watermark, where the history is legal and nothing is pending. Of an injector it
/// says nothing: nothing feeds that, so its low watermark is the end, whatever its file states.
pub fn a_round_finds_low_watermarks()
    ensures low { (case : CaseShape) (history : List Entry) (marks : List ℕ) (part : ℕ) →
        IsRunnable case → IsLegal case history → let run = run_of case.topology history in
        all_pending run ≡ [] → length marks ≡ length (intervals_of case.topology) →
        AreSafe case run marks → injectors_of case.topology ≤ part → part < parts_of case.topology →
        least (marks_of case.topology part (marks_after_round case run marks)) ≡ low_watermark case run part }
{}
