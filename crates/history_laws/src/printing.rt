//! Which histories can be printed.
ghost use Rattle.std.specs.Prelude.{List, IsSome, length, ◌<◌, ◌≤◌, ◌^◌};
ghost use Rattle.mw_types.specs.declared.entry.Entry.{Entry};
ghost use Rattle.mw_types.specs.declared.identity.RowName.{RowName};
ghost use Rattle.topology.specs.Shapes.{parts_of};
ghost use Rattle.run_history.specs.Cases.{CaseShape};
ghost use Rattle.run_history.specs.Runs.{run_of, row_in};
ghost use Rattle.run_history.specs.Legal.{IsLegal};
ghost use Rattle.run_history.specs.Printing.{IsPrintable};

/// A legal history of at most 2^32 entries can be printed, and each row that an entry is on is of a
/// part that is there.
pub fn legal_histories_can_be_printed()
    ensures printable { (case : CaseShape) (history : List Entry) → IsLegal case history →
        length history ≤ 2 ^ 32 → IsPrintable case.topology history }
    ensures parts { (case : CaseShape) (history : List Entry) (name : RowName) →
        IsLegal case history → IsSome (row_in (run_of case.topology history) name) →
        name.part < parts_of case.topology }
{}
