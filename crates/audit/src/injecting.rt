//! Lines that injectors inject.
ghost use Rattle.std.specs.Prelude.{◌≡◌, ◌<◌, IfOk};
ghost use Rattle.trace_lines.specs.declared.choice.Choice.TheVariants as choices;
ghost use Rattle.audit.specs.Choices.{IsChosen};
ghost use Rattle.audit.specs.Keeping.{IsFollowed, IsKept};

use crate::finding::{cursor, sequencer};
use crate::kept::Kept;
use mw_types::{Entry, NoMemory};
use run_history::{Case, History};
use std::alloc::Global;

// The entry of an injector's next line, or none where it may inject none.
pub(crate) fn injection_of(
    alloc: Global,
    case: &Case,
    history: &History,
    kept: &Kept,
    part: u32,
) -> Result<Option<Entry>, NoMemory>
    requires followed { IsFollowed case.now history.now }
    requires kept { IsKept case.now history.now kept.now }
    ensures { IfOk result (IsChosen case.now history.now (choices.Inject part)) }
{
    if part >= case.topology.injectors() {
        return Ok(None);
    }
    let name = Case::injector_row(alloc, part);
    let line = cursor(case, &kept.rows, &name);
    if line >= case.lines(part) {
        return Ok(None);
    }
    match sequencer(case, &kept.claims, &name) {
        Some(seq) => {
            let item = case.line_record(alloc, part, line)?;
            Ok(Some(Entry::Inject {
                seq,
                part,
                line,
                item,
            }))
        }
        None => Ok(None),
    }
}
