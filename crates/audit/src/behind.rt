//! What stands behind the entries.
ghost use Rattle.std.specs.Prelude.{◌≡◌, ◌<◌, ◌+◌, ◌^◌, IfErr, IfOk, length};
ghost use Rattle.audit.specs.Steps.{IsEndRefusal, IsWholeRun};

use crate::standings::Standing;
use run_history::{Case, History, result_text};
use std::alloc::Global;
use trace_lines::{AuditRefusal, AuditWhy};

// The history, where it is finished and this is its result.
pub(crate) fn concluded(
    alloc: Global,
    case: &Case,
    standing: Standing,
    rest: &[u8],
) -> Result<History, AuditRefusal>
    requires case { standing.case ≡ case.now }
    requires few { length standing.history + 1 < 2 ^ 32 }
    ensures whole { IfOk result
        (λ history. IsWholeRun case.now standing.entry.history rest.now history) }
    ensures wrong { IfErr result (IsEndRefusal case.now standing.entry.history rest.now) }
{
    let line = standing.history().len() as u32 + 1;
    if !standing.is_finished() {
        let why = AuditWhy::NotFinished;
        return Err(AuditRefusal::Bad { line, why });
    }
    let history = standing.into_history();
    let text = result_text(alloc, case, &history)?;
    if text.as_slice() == rest {
        Ok(history)
    } else {
        let why = AuditWhy::BadText;
        Err(AuditRefusal::Bad { line, why })
    }
}
