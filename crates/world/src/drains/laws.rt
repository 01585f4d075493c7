//! What comes next in a drain.
ghost use Rattle.std.specs.Prelude.{ℕ, List, length, ◌≡◌, ◌≢◌, ◌<◌, ◌≤◌, ◌⊎◌, ◌++◌, ◌∷◌, []};
ghost use Rattle.mw_types.specs.declared.entry.Entry.{Entry};
ghost use Rattle.mw_types.specs.declared.identity.RowName.{RowName};
ghost use Rattle.mw_types.specs.declared.timer.Timer.{Timer};
ghost use Rattle.topology.specs.Shapes.{injectors_of, parts_of};
ghost use Rattle.run_history.specs.Cases.{CaseShape};
ghost use Rattle.run_history.specs.Runs.{run_of, row_of};
ghost use Rattle.run_history.specs.Fences.{Begins};
ghost use Rattle.run_history.specs.Legal.{IsLegal};
ghost use Rattle.run_history.specs.Finished.{IsFinished};
ghost use Rattle.run_history.specs.Inputs.{IsRunnable};
ghost use Rattle.history_laws.specs.Writes.{IsLegalAndFenced};
ghost use Rattle.world.specs.drains.Drains.{
  HasEnded,
  HasInjected,
  IsDue,
  IsNextEntry,
  IsDraining,
  IsDrained,
};

/// Two entries that come next in a drain after one history are the same, where the history is legal
/// and fenced with each.
pub fn next_drain_entries_are_one()
    ensures same { (case : CaseShape) (from : ℕ) (history : List Entry) (one other : Entry) →
        IsNextEntry case from history one → IsLegalAndFenced case (history ++ one ∷ []) →
        IsNextEntry case from history other → IsLegalAndFenced case (history ++ other ∷ []) →
        one ≡ other }
{}

/// Nothing comes next once a drain has ended.
pub fn ended_drains_have_no_next_entry()
    ensures none { (case : CaseShape) (from : ℕ) (history : List Entry) (entry : Entry) →
        HasEnded case from history → IsNextEntry case from history entry → ⊥ }
{}

/// A drain that has not ended has a next entry. That this entry is a legal one is not said.
pub fn drains_go_on_until_they_end()
    ensures next { (case : CaseShape) (from : ℕ) (history : List Entry) → from ≤ length history →
        HasEnded case from history ⊎ ((entry : Entry) × IsNextEntry case from history entry) }
{}

/// A drain grows by its next entries, from a history to which nothing was added.
pub fn drains_grow_by_their_next_entries()
    ensures first { (case : CaseShape) (history : List Entry) →
        IsDraining case (length history) history }
    ensures grown { (case : CaseShape) (from : ℕ) (history : List Entry) (entry : Entry) →
        IsDraining case from history → IsNextEntry case from history entry →
        IsDraining case from (history ++ entry ∷ []) }
{}

/// What a drain looks for is of a part that is there, and a due timer is a computation's.
pub fn drains_look_at_parts_that_are_there()
    ensures timers { (case : CaseShape) (history : List Entry) (row : RowName) (timer : Timer) →
        IsLegal case history → IsDue case (run_of case.topology history) row timer →
        (injectors_of case.topology ≤ row.part) × (row.part < parts_of case.topology) }
    ensures seen { (case : CaseShape) (history : List Entry) (row : RowName) →
        IsLegal case history →
        (row_of case.topology (run_of case.topology history) row).seen ≢ [] →
        row.part < parts_of case.topology }
{}

/// Two histories that are drained from one beginning on are the same, where both are legal and
/// fenced.
pub fn drained_histories_are_one()
    ensures same { (case : CaseShape) (front one other : List Entry) →
        IsDrained case (length front) (front ++ one) → IsLegalAndFenced case (front ++ one) →
        IsDrained case (length front) (front ++ other) → IsLegalAndFenced case (front ++ other) →
        one ≡ other }
{}

/// A history that goes on as a drain does begins the one that goes on from the same beginning to the
/// drain's end, where both are legal and fenced.
pub fn drains_begin_the_drained_history()
    ensures begins { (case : CaseShape) (front one whole : List Entry) →
        IsDraining case (length front) (front ++ one) → IsLegalAndFenced case (front ++ one) →
        IsDrained case (length front) (front ++ whole) → IsLegalAndFenced case (front ++ whole) →
        Begins (front ++ one) (front ++ whole) }
{}

/// No work is left once a drain has acknowledged, fired and injected all that it can, and so none
/// is when it ends.
pub fn drains_leave_no_work()
    ensures finished { (case : CaseShape) (from : ℕ) (history : List Entry) →
        IsRunnable case → IsLegal case history → HasInjected case from history →
        IsFinished case (run_of case.topology history) }
{}
