//! The floor of a run.
ghost use Rattle.std.specs.Prelude.{List, ◌++◌, ◌≤◌};
ghost use Rattle.mw_types.specs.declared.entry.Entry.{Entry};
ghost use Rattle.topology.specs.Shapes.{Shape};
ghost use Rattle.run_history.specs.Runs.{run_of};
ghost use Rattle.run_history.specs.Cases.{CaseShape};
ghost use Rattle.run_history.specs.Legal.{IsLegal, floor_of};
ghost use Rattle.history_laws.specs.Ids.{IsFloor};

/// The floor after a history is at least the floor after each beginning of it, whether or not the
/// history is legal.
pub fn floor_never_falls()
    ensures floor { (shape : Shape) (front rest : List Entry) →
        floor_of (run_of shape front) ≤ floor_of (run_of shape (front ++ rest)) }
{}

/// After a legal history the floor is the least commit number of a record that was made and is not
/// acknowledged.
pub fn floor_is_least_unacknowledged()
    ensures floor { (case : CaseShape) (history : List Entry) → IsLegal case history →
        let run = run_of case.topology history in IsFloor history run (floor_of run) }
{}
