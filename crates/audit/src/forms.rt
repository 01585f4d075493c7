//! Which lines are those of entries.
ghost use Rattle.std.specs.Prelude.{◌≡◌, ◌↔◌, ◌<◌, ◌^◌, IfOk, IsTrue};
ghost use Rattle.trace_lines.specs.Entries.{IsEntry, IsEntryLine};
ghost use Rattle.audit.specs.Guesses.{Gives, entry_guessed};
ghost use Rattle.audit.specs.Steps.{IsWhyUnread};

use crate::entries::entry_in;
use crate::printed::is_line_of;
use crate::unlike::Unlike;
use json_reading::json_of;
use mw_types::{Entry, NoMemory};
use std::alloc::Global;
use trace_lines::AuditWhy;

// Why a line under this number is refused, of which no entry is read that may come next.
pub(crate) fn why_unread(alloc: Global, line: &[u8], n: u64) -> Result<AuditWhy, NoMemory>
    ensures { IfOk result (IsWhyUnread n line.now) }
{
    if is_entry_line(alloc, line, n)? {
        Ok(AuditWhy::Unlawful)
    } else {
        Ok(AuditWhy::NotALine)
    }
}

// Whether a line is that of some entry under this number.
fn is_entry_line(alloc: Global, line: &[u8], n: u64) -> Result<bool, NoMemory>
    ensures { IfOk result (λ is. IsTrue is ↔ IsEntryLine n line.now) }
{
    match entry_guessed(alloc, line) {
        Ok(entry) => is_line_of(alloc, &entry, n, line),
        Err(Unlike::NoEntry) => Ok(false),
        Err(Unlike::NoMemory) => Err(NoMemory),
    }
}

// The entry of which a line may be.
fn entry_guessed(alloc: Global, line: &[u8]) -> Result<Entry, Unlike>
    ensures told { Gives result (entry_guessed line.now) }
    ensures is { IfOk result IsEntry }
{
    match json_of(alloc, line)? {
        Some(value) => entry_in(alloc, &value),
        None => Err(Unlike::NoEntry),
    }
}
