//! What a keeper of rows has to hold.
ghost use Rattle.std.specs.Prelude.{List, Some, None, ◌≡◌, ◌++◌, ◌∷◌, []};
ghost use Rattle.std.specs.Option.{option_map};
ghost use Rattle.std.specs.Map.{lookup};
ghost use Rattle.std.specs.BTreeMap.{is_at};
ghost use Rattle.mw_types.specs.declared.entry.Entry.{Entry};
ghost use Rattle.mw_types.specs.declared.identity.RowName.{RowName};
ghost use Rattle.mw_types.specs.Orders.{row_cmp};
ghost use Rattle.topology.specs.Shapes.{Shape};
ghost use Rattle.row_parts.specs.Spelling.{spelling_of};
ghost use Rattle.row_keeper.specs.Rows.{AreInOrder, with_row};
ghost use Rattle.run_history.specs.Made.{row_written};
ghost use Rattle.run_history.specs.Runs.{run_of, row_in, row_of};
ghost use Rattle.run_history.specs.Stored.{stored_rows};

/// An entry asks a keeper to hold its row anew, and to leave every other row as it is; a claim asks
/// for nothing.
pub fn one_row_is_stored_anew()
    ensures written { (shape : Shape) (history : List Entry) (entry : Entry) (name : RowName) →
        row_written entry ≡ Some name → let run = run_of shape (history ++ entry ∷ []) in
        let before = stored_rows (run_of shape history) in
        stored_rows run ≡ with_row name (spelling_of (row_of shape run name)) before }
    ensures claimed { (shape : Shape) (history : List Entry) (entry : Entry) →
        row_written entry ≡ None →
        stored_rows (run_of shape (history ++ entry ∷ [])) ≡ stored_rows (run_of shape history) }

    // What is held of each row is its spelling, and rows stand in the order of their names.
    ensures at_name { (shape : Shape) (history : List Entry) (name : RowName) →
        let run = run_of shape history in
        lookup (is_at (row_cmp name)) (stored_rows run) ≡ option_map spelling_of (row_in run name) }
    ensures in_order { (shape : Shape) (history : List Entry) →
        AreInOrder (stored_rows (run_of shape history)) }
{}
