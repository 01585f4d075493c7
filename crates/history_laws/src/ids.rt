//! What ids tell.
ghost use Rattle.std.specs.Prelude.{ℕ, false, List, All, None, Some, ◌≡◌, ◌<◌, ◌≤◌, length};
ghost use Rattle.std.specs.List.Sorted.{IsStrictlySortedBy};
ghost use Rattle.mw_types.specs.declared.delivery.Delivery.{Delivery};
ghost use Rattle.mw_types.specs.declared.entry.Entry.{Entry};
ghost use Rattle.mw_types.specs.declared.identity.RecordId.{RecordId};
ghost use Rattle.mw_types.specs.declared.identity.RowName.{RowName};
ghost use Rattle.topology.specs.Shapes.{Shape};
ghost use Rattle.row_parts.specs.Contents.{delivery_cmp, is_finished, found_delivery};
ghost use Rattle.run_history.specs.Cases.{CaseShape};
ghost use Rattle.run_history.specs.Made.{deliveries_of};
ghost use Rattle.run_history.specs.Runs.{run_of, row_of};
ghost use Rattle.run_history.specs.Legal.{IsLegal, floor_of};
ghost use Rattle.run_history.specs.Finished.{is_handled};
ghost use Rattle.history_laws.specs.Ids.{TellsWhatWaits, IsSentBy};

/// Ids ascend in the order in which records were made, whether or not the history is legal.
pub fn ids_ascend()
    ensures next { (shape : Shape) (history : List Entry) →
        (run_of shape history).next ≡ length history }

    // What an entry makes has the entry's number, so what was made has a number below the next.
    ensures of_entry { (shape : Shape) (made : List Delivery) (commit : ℕ) (entry : Entry) →
        All (λ (d : Delivery). d.id.commit ≡ commit) (deliveries_of shape made commit entry) }
    ensures commits { (shape : Shape) (history : List Entry) →
        All (λ (d : Delivery). d.id.commit < length history) (run_of shape history).made }

    // No id stands twice, among all that was made or in a row.
    ensures made { (shape : Shape) (history : List Entry) →
        IsStrictlySortedBy delivery_cmp (run_of shape history).made }
    ensures pending { (shape : Shape) (history : List Entry) (name : RowName) →
        IsStrictlySortedBy delivery_cmp (row_of shape (run_of shape history) name).pending }
{}

/// After a legal history ids tell which records wait to be handled, and which row sent them.
pub fn ids_tell_what_waits()
    ensures waits { (case : CaseShape) (history : List Entry) → IsLegal case history →
        TellsWhatWaits history (run_of case.topology history) }

    // What waits is pending in the row that made it.
    ensures sent { (case : CaseShape) (history : List Entry) → IsLegal case history →
        let run = run_of case.topology history in All (IsSentBy case.topology run) run.unhandled }
{}

/// After a legal history a record that was made is finished, in the row to which it goes, exactly
/// where it is handled, and waits there where it is not.
pub fn ids_tell_what_is_finished()
    ensures finished { (case : CaseShape) (history : List Entry) (d : Delivery) →
        IsLegal case history → let run = run_of case.topology history in
        found_delivery d.id run.made ≡ Some d →
        is_finished d.id (row_of case.topology run d.to) ≡ is_handled d.id history }
    ensures waits { (case : CaseShape) (history : List Entry) (d : Delivery) →
        IsLegal case history → let run = run_of case.topology history in
        found_delivery d.id run.made ≡ Some d →
        is_finished d.id (row_of case.topology run d.to) ≡ false →
        found_delivery d.id run.unhandled ≡ Some d }

    // An id under which nothing was made is finished in no row, unless it is below the floor.
    ensures unmade { (case : CaseShape) (history : List Entry) (id : RecordId) (name : RowName) →
        IsLegal case history → let run = run_of case.topology history in
        found_delivery id run.made ≡ None → floor_of run ≤ id.commit →
        is_finished id (row_of case.topology run name) ≡ false }
{}
