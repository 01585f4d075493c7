//! How much work is left.
ghost use Rattle.std.specs.Prelude.{List, Some, None, ◌≡◌, ◌+◌, ◌++◌, ◌∷◌, []};
ghost use Rattle.mw_types.specs.declared.entry.Entry.{Entry};
ghost use Rattle.mw_types.specs.declared.identity.RowName.{RowName};
ghost use Rattle.run_history.specs.Cases.{CaseShape};
ghost use Rattle.run_history.specs.Made.{row_written};
ghost use Rattle.run_history.specs.Runs.{run_of, row_of};
ghost use Rattle.run_history.specs.Legal.{IsDone, IsLegal};
ghost use Rattle.run_history.specs.Finished.{IsFinished, unfinished, work_in};

/// An entry changes how much work is left by what it changes in its row, and a claim leaves it,
/// whether or not the history is legal.
pub fn work_is_counted_row_by_row()
    ensures written { (case : CaseShape) (history : List Entry) (entry : Entry) (name : RowName) →
        row_written entry ≡ Some name → let shape = case.topology in
        let before = run_of shape history in let after = run_of shape (history ++ entry ∷ []) in
        unfinished case after + work_in case name (row_of shape before name)
        ≡ unfinished case before + work_in case name (row_of shape after name) }
    ensures claimed { (case : CaseShape) (history : List Entry) (entry : Entry) →
        row_written entry ≡ None → let shape = case.topology in
        unfinished case (run_of shape (history ++ entry ∷ []))
        ≡ unfinished case (run_of shape history) }
{}

/// After a legal history that leaves no work each line is injected, nothing waits and no timer is
/// set.
pub fn finished_runs_are_done()
    ensures done { (case : CaseShape) (history : List Entry) → IsLegal case history →
        let run = run_of case.topology history in IsFinished case run → IsDone case run }
{}
