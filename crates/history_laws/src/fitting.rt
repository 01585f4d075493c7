//! Rows and the names that they stand under.
ghost use Rattle.std.specs.Prelude.{List, length, true, ◌≡◌, ◌<◌};
ghost use Rattle.mw_types.specs.declared.entry.Entry.{Entry};
ghost use Rattle.mw_types.specs.declared.identity.RowName.{RowName};
ghost use Rattle.topology.specs.Shapes.{parts_of};
ghost use Rattle.run_history.specs.Cases.{CaseShape};
ghost use Rattle.run_history.specs.Runs.{run_of, row_of};
ghost use Rattle.run_history.specs.Fits.{fits};
ghost use Rattle.run_history.specs.Legal.{IsLegal};

/// Each row of a legal history fits its name, where its part is there: its state is of the kind of
/// its part, an injector sets no timer and injects no more lines than its file has, and what is
/// pending was made in the history and goes to computations.
pub fn rows_fit_their_names()
    ensures fits { (case : CaseShape) (history : List Entry) (name : RowName) →
        IsLegal case history → name.part < parts_of case.topology →
        let run = run_of case.topology history in
        fits case (length history) name (row_of case.topology run name) ≡ true }
{}
