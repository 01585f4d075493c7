//! What is known of what load runs.
ghost use Rattle.std.specs.Prelude.{◌≡◌, ◌≤◌, ℕ, IsOk};
ghost use Rattle.command_line.specs.declared.command.Call.TheVariants.{Load};
ghost use Rattle.mw_ports.specs.Shelves.{Files};
ghost use Rattle.row_keeper.specs.Rows.{Rows};
ghost use Rattle.millwheel_cli.specs.Limits.{lines_limit};
ghost use Rattle.millwheel_cli.specs.Reasons.{load_taken, answer_for, ran_over};

/// What `load` makes is taken, its topology and its lines, so a load is refused only for the rows that
/// its keeper has. It does nothing when it runs.
pub fn load_is_taken()
    ensures taken { (seed lines : ℕ) → lines ≤ lines_limit → IsOk (load_taken seed lines) }
    ensures answered { (held : Files) (rows : Rows) (seed lines : ℕ) → lines ≤ lines_limit →
        answer_for held rows (Load seed lines) ≡ ran_over rows }
{}
