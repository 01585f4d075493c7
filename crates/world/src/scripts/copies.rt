//! Copies of records, whenever they come.
ghost use Rattle.std.specs.Prelude.{List, Some, ℕ, ◌≡◌};
ghost use Rattle.mw_types.specs.declared.delivery.Delivery.{Delivery};
ghost use Rattle.mw_types.specs.declared.entry.Entry.{Entry};
ghost use Rattle.mw_types.specs.declared.identity.RowName.{RowName};
ghost use Rattle.row_parts.specs.Contents.{found_delivery};
ghost use Rattle.run_history.specs.Cases.{CaseShape};
ghost use Rattle.run_history.specs.Fences.{known};
ghost use Rattle.run_history.specs.Finished.{is_handled};
ghost use Rattle.run_history.specs.Legal.{IsLegal};
ghost use Rattle.run_history.specs.Runs.{run_of};
ghost use Rattle.book.specs.Books.{LeaseView};
ghost use Rattle.outbox.specs.declared.outgoing.Outgoing.TheVariants as outgoing;
ghost use Rattle.world.specs.scripts.Acts.{take_in};
ghost use Rattle.world.specs.scripts.Copies.{IsCopyKnown, answer_to_copy};
ghost use Rattle.world.specs.scripts.Worlds.{World};

/// A copy of a record is a duplicate exactly where the record was handled in what its owner knows.
///
/// It may come at any time, after the record's acknowledgement and a purge too. A record that was
/// not handled waits there, or was made after all that the owner knows, whose lease is overtaken
/// then.
pub fn copies_are_known()
    ensures known { (case : CaseShape) (history : List Entry) (interval seq : ℕ) (d : Delivery) →
        IsLegal case history → found_delivery d.id (run_of case.topology history).made ≡ Some d →
        IsCopyKnown case history interval seq d }

    // So a worker that takes it under a lease answers by what it knows of the history.
    ensures answered { (case : CaseShape) (world : World) (number : ℕ) (lease : LeaseView)
        (d : Delivery) (sender : RowName) → IsLegal case world.history →
        found_delivery d.id (run_of case.topology world.history).made ≡ Some d →
        (take_in case.topology number world lease (outgoing.Deliver d sender)).answer
        ≡ answer_to_copy (is_handled d.id (known lease.interval lease.seq world.history)) }
{}
