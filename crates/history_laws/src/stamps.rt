//! The timestamps of a run.
ghost use Rattle.std.specs.Prelude.{List, length, ◌<◌, ◌^◌};
ghost use Rattle.mw_types.specs.declared.identity.RowName.{RowName};
ghost use Rattle.mw_types.specs.Bounds.{IsWithin};
ghost use Rattle.mw_types.specs.declared.entry.Entry.{Entry};
ghost use Rattle.run_history.specs.Cases.{CaseShape};
ghost use Rattle.run_history.specs.Runs.{run_of, row_of};
ghost use Rattle.run_history.specs.Legal.{IsLegal};
ghost use Rattle.run_history.specs.Inputs.{IsRunnable};
ghost use Rattle.history_laws.specs.Stamps.{AreStampsWithin};

/// After a legal history no delivery and no timer is above the greatest timestamp.
pub fn stamps_are_in_time()
    ensures in_time { (case : CaseShape) (history : List Entry) →
        IsRunnable case → IsLegal case history →
        AreStampsWithin case.topology (run_of case.topology history) }
{}

/// After a legal history of fewer than 2^32 entries each row's state is within bounds.
pub fn states_are_within_bounds()
    ensures within { (case : CaseShape) (history : List Entry) (name : RowName) →
        IsRunnable case → IsLegal case history → length history < 2 ^ 32 →
        IsWithin (row_of case.topology (run_of case.topology history) name).state }
{}
