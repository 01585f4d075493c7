//! The entry that a line tells.
ghost use Rattle.std.specs.Prelude.{◌≡◌, IfOk, IfSome, Some};
ghost use Rattle.trace_lines.specs.Choices.{choice_at, choice_of};
ghost use Rattle.audit.specs.Choices.{MayCome};
ghost use Rattle.audit.specs.Steps.{HasRoom, IsNextRead, IsReal};
ghost use Rattle.std.specs.Prelude.{◌<◌, ◌+◌, ◌^◌, length};

use crate::printed::is_line_of;
use crate::quick::choice_guessed;
use crate::standings::Standing;
use mw_types::{Entry, NoMemory};
use std::alloc::Global;
use trace_lines::{Choice, choice_at};

// The entry that may come next and whose line this is, or none where there is no such entry.
pub(crate) fn entry_read(
    alloc: Global,
    standing: &Standing,
    line: &[u8],
) -> Result<Option<Entry>, NoMemory>
    requires real { IsReal standing.now.case }
    requires few { length standing.now.history + 1 < 2 ^ 32 }
    ensures { IfOk result (IsNextRead standing.now.case standing.now.history line.now) }
{
    match entry_guessed(alloc, standing, line)? {
        Some(entry) => Ok(Some(entry)),
        None => entry_told(alloc, standing, line),
    }
}

// The entry that may come next and whose line this is, where its choice is guessed.
fn entry_guessed(alloc: Global, standing: &Standing, line: &[u8]) -> Result<Option<Entry>, NoMemory>
    requires real { IsReal standing.now.case }
    requires few { length standing.now.history + 1 < 2 ^ 32 }
    ensures { IfOk result (λ entry. IfSome entry
        (λ e. IsNextRead standing.now.case standing.now.history line.now (Some e))) }
{
    match choice_guessed(alloc, line)? {
        Some(choice) => guess(alloc, standing, line, &choice),
        None => Ok(None),
    }
}

// The entry of a choice that may be a line's, where the line is its own.
fn guess(
    alloc: Global,
    standing: &Standing,
    line: &[u8],
    choice: &Choice,
) -> Result<Option<Entry>, NoMemory>
    requires real { IsReal standing.now.case }
    requires few { length standing.now.history + 1 < 2 ^ 32 }
    ensures { IfOk result (λ entry. IfSome entry
        (λ e. IsNextRead standing.now.case standing.now.history line.now (Some e))) }
{
    let n = standing.history().len() as u64;
    match standing.entry_of(alloc, choice)? {
        Some(entry) => compared(alloc, standing, line, n, entry),
        None => Ok(None),
    }
}

// An entry that may come next, where the line is its own.
fn compared(
    alloc: Global,
    standing: &Standing,
    line: &[u8],
    count: u64,
    entry: Entry,
) -> Result<Option<Entry>, NoMemory>
    requires room { HasRoom standing.now.case standing.now.history }
    requires number { count ≡ length standing.now.history }
    requires may { MayCome standing.now.case standing.now.history entry }
    ensures { IfOk result (λ found. IfSome found
        (λ e. IsNextRead standing.now.case standing.now.history line.now (Some e))) }
{
    if is_line_of(alloc, &entry, count, line)? {
        Ok(Some(entry))
    } else {
        Ok(None)
    }
}

// The same, by the choice that the line tells.
fn entry_told(alloc: Global, standing: &Standing, line: &[u8]) -> Result<Option<Entry>, NoMemory>
    requires real { IsReal standing.now.case }
    requires few { length standing.now.history + 1 < 2 ^ 32 }
    ensures { IfOk result (IsNextRead standing.now.case standing.now.history line.now) }
{
    let n = standing.history().len() as u64;
    match choice_at(alloc, line)? {
        Some(choice) => chosen(alloc, standing, line, n, &choice),
        None => Ok(None),
    }
}

// The entry of a choice that a line tells, where the line is its own.
fn chosen(
    alloc: Global,
    standing: &Standing,
    line: &[u8],
    n: u64,
    choice: &Choice,
) -> Result<Option<Entry>, NoMemory>
    requires room { HasRoom standing.now.case standing.now.history }
    requires number { n ≡ length standing.now.history }
    requires told { choice_at line.now ≡ Some choice.now }
    ensures { IfOk result (IsNextRead standing.now.case standing.now.history line.now) }
{
    match standing.entry_of(alloc, choice)? {
        Some(entry) => own(alloc, standing, line, n, entry),
        None => Ok(None),
    }
}

// An entry that may come next, where the line is its own; the line tells its choice.
fn own(
    alloc: Global,
    standing: &Standing,
    line: &[u8],
    n: u64,
    entry: Entry,
) -> Result<Option<Entry>, NoMemory>
    requires room { HasRoom standing.now.case standing.now.history }
    requires number { n ≡ length standing.now.history }
    requires told { choice_at line.now ≡ Some (choice_of entry) }
    requires may { MayCome standing.now.case standing.now.history entry }
    ensures { IfOk result (IsNextRead standing.now.case standing.now.history line.now) }
{
    if is_line_of(alloc, &entry, n, line)? {
        Ok(Some(entry))
    } else {
        Ok(None)
    }
}
