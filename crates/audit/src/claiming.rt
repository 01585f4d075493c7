//! Claims of intervals.
ghost use Rattle.std.specs.Prelude.{ℕ, List};
ghost use Rattle.mw_types.specs.declared.entry.Entry.{Entry};
ghost use Rattle.trace_lines.specs.declared.choice.Choice.TheVariants as choices;
ghost use Rattle.audit.specs.Choices.{IsChosen};

use mw_types::Entry;
use run_history::Case;

// How many workers may claim.
const WORKERS: u32 = 16;

// The claim of an interval by a worker, which may always come where both are there.
pub(crate) fn claim_of(case: &Case, worker: u32, interval: u32) -> Option<Entry>
    ensures { (history : List Entry) →
        IsChosen case.now history (choices.Claim worker interval) result }
{
    if worker < WORKERS && interval < case.interval_count() {
        Some(Entry::Claim { worker, interval })
    } else {
        None
    }
}
