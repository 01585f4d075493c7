//! The rows of a run, and who may change them.
ghost use Rattle.std.specs.Prelude.{ℕ, List, Some, slice_get, ◌≡◌, ◌≢◌, ◌++◌, ◌∷◌, []};
ghost use Rattle.mw_types.specs.declared.entry.Entry.{Entry};
ghost use Rattle.mw_types.specs.declared.identity.RowName.{RowName};
ghost use Rattle.key_intervals.specs.declared.bounds.Bounds.{Bounds};
ghost use Rattle.key_intervals.specs.Intervals.{rows_covered};
ghost use Rattle.topology.specs.Shapes.{Shape};
ghost use Rattle.topology.specs.Rules.{IsTopology};
ghost use Rattle.run_history.specs.Cases.{intervals_of};
ghost use Rattle.run_history.specs.Made.{row_written};
ghost use Rattle.run_history.specs.Runs.{run_of, row_in};
ghost use Rattle.run_history.specs.Fences.{HasSeen, HasSeenAll, IsFenced, interval_of, known, last_claim};

/// An entry changes no row but the one that it is on, whether or not the history is legal.
pub fn rows_change_by_their_entries()
    ensures others { (shape : Shape) (history : List Entry) (entry : Entry) (name : RowName) →
        row_written entry ≢ Some name →
        row_in (run_of shape (history ++ entry ∷ [])) name ≡ row_in (run_of shape history) name }
{}

/// A row that was read from a beginning of a fenced history, under the last claim of its interval,
/// is the row of the whole history, where the beginning has all that was written under the claim.
pub fn rows_are_as_seen()
    ensures as_seen { (shape : Shape) (front rest : List Entry) (interval seq : ℕ) →
        IsFenced shape (front ++ rest) → HasSeen interval seq front rest →
        (name : RowName) → interval_of shape name ≡ Some interval →
        row_in (run_of shape (front ++ rest)) name ≡ row_in (run_of shape front) name }

    // And so the rows of the interval as a list.
    ensures listed { (shape : Shape) (front rest : List Entry) (interval seq : ℕ) (b : Bounds) →
        IsTopology shape → slice_get (intervals_of shape) interval ≡ Some b →
        IsFenced shape (front ++ rest) → HasSeen interval seq front rest →
        rows_covered b (run_of shape (front ++ rest)).rows
        ≡ rows_covered b (run_of shape front).rows }
{}

/// A row, as it is known under a claim of its interval, is the same by a beginning of a fenced
/// history as by the whole, where the beginning has the claim and all that was written under it;
/// later claims may have overtaken this one.
pub fn rows_are_as_known()
    ensures as_known { (shape : Shape) (front rest : List Entry) (interval seq : ℕ) →
        IsFenced shape (front ++ rest) → HasSeenAll interval seq front rest →
        (name : RowName) → interval_of shape name ≡ Some interval →
        row_in (run_of shape (known interval seq (front ++ rest))) name
        ≡ row_in (run_of shape (known interval seq front)) name }

    // And so the rows of the interval as a list.
    ensures listed { (shape : Shape) (front rest : List Entry) (interval seq : ℕ) (b : Bounds) →
        IsTopology shape → slice_get (intervals_of shape) interval ≡ Some b →
        IsFenced shape (front ++ rest) → HasSeenAll interval seq front rest →
        rows_covered b (run_of shape (known interval seq (front ++ rest))).rows
        ≡ rows_covered b (run_of shape (known interval seq front)).rows }

    // Under the last claim the whole history is known.
    ensures whole { (history : List Entry) (interval seq : ℕ) →
        last_claim interval history ≡ Some seq → known interval seq history ≡ history }
{}
