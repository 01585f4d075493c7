//! The audit of a text.
ghost use Rattle.std.specs.Prelude.{◌≡◌, ◌<◌, ◌+◌, ◌^◌, IfErr, IfOk, length};
ghost use Rattle.trace_lines.specs.Readings.{IsRunText};
ghost use Rattle.trace_lines.specs.Refusals.{IsAuditRefusal};
ghost use Rattle.audit.specs.Steps.{IsLineRefusal, IsOneMore, IsReal};

use crate::behind::concluded;
use crate::chosen::entry_read;
use crate::forms::why_unread;
use crate::heads::first_entry_line;
use crate::standings::Standing;
use history_laws::case_is_runnable;
use run_history::{Case, History};
use std::alloc::Global;
use trace_lines::{AuditRefusal, case_is_keyed};

/// The history whose lines these bytes are, with its result behind them: of a run that is legal,
/// fenced and finished. Where there is none it answers the first line that is wrong, counted from 1,
/// and why.
pub fn audit(alloc: Global, case: &Case, bytes: &[u8]) -> Result<History, AuditRefusal>
    requires few { length bytes.now < 2 ^ 32 }

    ensures lawful { IfOk result (λ history. IsRunText case.now history bytes.now) }
    ensures wrong { IfErr result (IsAuditRefusal case.now bytes.now) }
{
    is_real(case);
    let mut standing = Standing::new(alloc, case)?;
    let mut rest = bytes;
    while let Some((line, after)) = first_entry_line(rest) {
        standing = followed(alloc, standing, line)?;
        rest = after;
    }
    concluded(alloc, case, standing, rest)
}

// A case is such as a real one is.
fn is_real(case: &Case)
    ensures { IsReal case.now }
{
    case_is_runnable(case);
    case_is_keyed(case);
}

// What stands once the entry of a line has come, or why there is no such entry.
fn followed<'a>(
    alloc: Global,
    standing: Standing<'a>,
    line: &[u8],
) -> Result<Standing<'a>, AuditRefusal>
    requires real { IsReal standing.case }
    requires few { length standing.history + 1 < 2 ^ 32 }
    ensures case { IfOk result (λ after. after.case ≡ standing.entry.case) }
    ensures read { IfOk result
        (λ after. IsOneMore standing.entry.history line.now after.history) }
    ensures wrong { IfErr result
        (IsLineRefusal standing.entry.case standing.entry.history line.now) }
{
    let n = standing.history().len() as u32;
    match entry_read(alloc, &standing, line)? {
        Some(entry) => Ok(standing.push(alloc, entry)?),
        None => {
            let why = why_unread(alloc, line, u64::from(n))?;
            Err(AuditRefusal::Bad { line: n + 1, why })
        }
    }
}
