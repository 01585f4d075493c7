//! What is pending, and in which row.
ghost use Rattle.std.specs.Prelude.{List, All, Some, false, filter, length, ◌≡◌};
ghost use Rattle.mw_types.specs.declared.delivery.Delivery.{Delivery};
ghost use Rattle.mw_types.specs.declared.entry.Entry.{Entry};
ghost use Rattle.mw_types.specs.declared.identity.RecordId.{RecordId};
ghost use Rattle.mw_types.specs.declared.identity.RowName.{RowName};
ghost use Rattle.topology.specs.Shapes.{Shape};
ghost use Rattle.row_parts.specs.Contents.{found_delivery};
ghost use Rattle.run_history.specs.Cases.{CaseShape};
ghost use Rattle.run_history.specs.Runs.{run_of, row_of};
ghost use Rattle.run_history.specs.Legal.{IsLegal};
ghost use Rattle.run_history.specs.Finished.{all_pending, is_acknowledged};
ghost use Rattle.history_laws.specs.Ids.{IsMadeOn, IsSentBy, is_unacknowledged};

/// What is pending in a row was made by an entry on the row, so that an id is pending in one row at
/// most, whether or not the history is legal.
pub fn senders_keep_what_they_made()
    ensures made { (shape : Shape) (history : List Entry) (name : RowName) (id : RecordId)
        (d : Delivery) → let run = run_of shape history in
        found_delivery id (row_of shape run name).pending ≡ Some d →
        found_delivery id run.made ≡ Some d }
    ensures on_row { (shape : Shape) (history : List Entry) (name : RowName) →
        All (IsMadeOn history name) (row_of shape (run_of shape history) name).pending }
    ensures one_sender { (shape : Shape) (history : List Entry) (one other : RowName)
        (id : RecordId) (d e : Delivery) → let run = run_of shape history in
        found_delivery id (row_of shape run one).pending ≡ Some d →
        found_delivery id (row_of shape run other).pending ≡ Some e → one ≡ other }
{}

/// After a legal history a record that was made is pending exactly where it is not acknowledged,
/// and there are as many of the one as of the other.
pub fn pending_is_unacknowledged()
    ensures pending { (case : CaseShape) (history : List Entry) → IsLegal case history →
        let run = run_of case.topology history in
        All (λ (d : Delivery). is_acknowledged d.id history ≡ false →
        IsSentBy case.topology run d) run.made }
    ensures unacknowledged { (case : CaseShape) (history : List Entry) (name : RowName) →
        IsLegal case history →
        let row = row_of case.topology (run_of case.topology history) name in
        All (λ (d : Delivery). is_acknowledged d.id history ≡ false) row.pending }
    ensures count { (case : CaseShape) (history : List Entry) → IsLegal case history →
        let run = run_of case.topology history in
        length (all_pending run) ≡ length (filter (is_unacknowledged history) run.made) }
{}
