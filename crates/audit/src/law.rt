//! What a choice fixes, and what one pass over the parts finds.
ghost use Rattle.std.specs.Prelude.{◌≡◌, ◌<◌, ℕ, List, get_or};
ghost use Rattle.mw_types.specs.declared.entry.Entry.{Entry};
ghost use Rattle.run_history.specs.Cases.{CaseShape};
ghost use Rattle.run_history.specs.Runs.{Run};
ghost use Rattle.run_history.specs.Watermarks.{low_watermark};
ghost use Rattle.topology.specs.Rules.{IsTopology};
ghost use Rattle.topology.specs.Shapes.{parts_of};
ghost use Rattle.mw_types.specs.declared.TheConstants.{END};
ghost use Rattle.trace_lines.specs.Choices.{choice_of};
ghost use Rattle.audit.specs.Choices.{MayCome};
ghost use Rattle.audit.specs.Lows.{lows_of};

/// Lawful entries of one choice are the same.
pub fn choices_have_one_entry()
    ensures one { (case : CaseShape) (history : List Entry) (a b : Entry) →
        MayCome case history a → MayCome case history b → choice_of a ≡ choice_of b → a ≡ b }
{}

/// The table of the low watermarks, made in one pass over the parts, has that of each part.
pub fn one_pass_finds_the_low_watermarks()
    ensures low { (case : CaseShape) (run : Run) (part : ℕ) →
        IsTopology case.topology → part < parts_of case.topology →
        get_or (lows_of case run (parts_of case.topology)) part END
        ≡ low_watermark case run part }
{}
