//! What the line of an entry tells, and how a printed history is parted into lines.
ghost use Rattle.std.specs.Prelude.{◌≡◌, ◌<◌, ◌≤◌, ◌+◌, ◌^◌, ◌++◌, ℕ, true, [], length, slice_get, All, List, Some};
ghost use Rattle.mw_types.specs.declared.entry.Entry.{Entry};
ghost use Rattle.topology.specs.Shapes.{Shape};
ghost use Rattle.read_back.specs.Writable.{HasNoControl};
ghost use Rattle.run_history.specs.Cases.{CaseShape};
ghost use Rattle.run_history.specs.Fences.{IsUnderLastClaim};
ghost use Rattle.run_history.specs.Inputs.{IsRunnable};
ghost use Rattle.run_history.specs.Legal.{IsLegal, MayFollow};
ghost use Rattle.run_history.specs.Runs.{run_of};
ghost use Rattle.run_history.specs.Texts.{IsResultText};
ghost use Rattle.run_history.specs.HistoryLines.{entry_data, lines_of_history};
ghost use Rattle.history_laws.specs.Keys.{AreKeyed};
ghost use Rattle.history_laws.specs.Writes.{IsLegalAndFenced};
ghost use Rattle.trace_lines.specs.Lines.{lines_in, begins_entry, entry_lines_in, text_of_entry};
ghost use Rattle.trace_lines.specs.Entries.{IsEntry};
ghost use Rattle.trace_lines.specs.Readings.{texts_from, IsReading, IsRunText};
ghost use Rattle.trace_lines.specs.Choices.{choice_of, choice_in, choice_at};
ghost use Rattle.trace_lines.specs.Values.{AreValued};

/// The line of an entry tells its choice, and so does the object that it spells.
pub fn lines_tell_choices()
    ensures object { (n : ℕ) (entry : Entry) → IsEntry entry →
        choice_in (entry_data n entry) ≡ Some (choice_of entry) }
    ensures line { (n : ℕ) (entry : Entry) → n < 2 ^ 64 → IsEntry entry →
        choice_at (text_of_entry n entry) ≡ Some (choice_of entry) }

    // So two entries with one line have one choice.
    ensures one { (n : ℕ) (one : Entry) (other : Entry) → n < 2 ^ 64 → IsEntry one →
        IsEntry other → text_of_entry n one ≡ text_of_entry n other →
        choice_of one ≡ choice_of other }
{}

/// A printed history is parted into the lines of its entries, whatever stands behind it.
pub fn printed_histories_are_parted()
    ensures lines { (history : List Entry) (text : List ℕ) → All IsEntry history →
        length history ≤ 2 ^ 64 →
        lines_in (lines_of_history history ++ text) ≡ texts_from 0 history ++ lines_in text }

    // The line of an entry begins as such, and a line of a result does not.
    ensures begins { (n : ℕ) (entry : Entry) → begins_entry (text_of_entry n entry) ≡ true }
    ensures result { (shape : Shape) (history : List Entry) (text : List ℕ) →
        IsResultText shape history text → entry_lines_in text ≡ [] }
    ensures entries { (shape : Shape) (history : List Entry) (text : List ℕ) →
        All IsEntry history → length history ≤ 2 ^ 64 → IsResultText shape history text →
        entry_lines_in (lines_of_history history ++ text) ≡ texts_from 0 history }

    // No line of an entry has a control byte, so it has no line feed inside.
    ensures plain { (n : ℕ) (entry : Entry) → n < 2 ^ 64 → IsEntry entry →
        HasNoControl (text_of_entry n entry) }
{}

/// Each entry of a lawful history is within the bounds of its types, where the case's lines have
/// keys, and values of 64 bits, as those of a real case have.
pub fn lawful_entries_are_entries()
    ensures next { (case : CaseShape) (history : List Entry) (entry : Entry) →
        IsRunnable case → AreKeyed case → AreValued case → IsLegal case history →
        length history + 1 < 2 ^ 32 → MayFollow case (run_of case.topology history) entry →
        IsUnderLastClaim case.topology history entry → IsEntry entry }
    ensures all { (case : CaseShape) (history : List Entry) →
        IsRunnable case → AreKeyed case → AreValued case → IsLegalAndFenced case history →
        length history < 2 ^ 32 → All IsEntry history }

    // So the line of each tells its choice.
    ensures told { (case : CaseShape) (history : List Entry) (n : ℕ) (entry : Entry) →
        IsRunnable case → AreKeyed case → AreValued case → IsLegalAndFenced case history →
        length history < 2 ^ 32 → slice_get history n ≡ Some entry →
        choice_at (text_of_entry n entry) ≡ Some (choice_of entry) }
{}

/// A lawful entry is fixed by its choice, given what stands before it, and so a lawful history is
/// fixed by its lines.
pub fn lines_have_one_reading()
    ensures entry { (case : CaseShape) (history : List Entry) (one : Entry) (other : Entry) →
        MayFollow case (run_of case.topology history) one →
        IsUnderLastClaim case.topology history one →
        MayFollow case (run_of case.topology history) other →
        IsUnderLastClaim case.topology history other →
        choice_of one ≡ choice_of other → one ≡ other }
    ensures reading { (case : CaseShape) (lines : List (List ℕ))
        (one : List Entry) (other : List Entry) →
        IsRunnable case → AreKeyed case → AreValued case → length lines < 2 ^ 32 →
        IsReading case one lines → IsReading case other lines → one ≡ other }

    // The history of a run's text is the reading of the text's lines of entries.
    ensures text { (case : CaseShape) (history : List Entry) (bytes : List ℕ) →
        IsRunnable case → AreKeyed case → AreValued case → length history < 2 ^ 32 →
        IsRunText case history bytes → IsReading case history (entry_lines_in bytes) }
{}
