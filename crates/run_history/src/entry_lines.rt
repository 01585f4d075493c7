//! The lines of a history, one for each entry.
ghost use Rattle.std.specs.Prelude.{◌≡◌, ◌++◌, ◌<◌, ◌^◌, All, IfOk, OnOk, string_bytes};
ghost use Rattle.run_history.specs.HistoryLines.{line_of_entry, lines_of_history, HasLine};
ghost use Rattle.run_history.specs.Lent.{lent};

use crate::entry_ref::EntryRef;
use crate::entry_values::entry_value;
use crate::history::History;
use crate::text::{LINE_ROOM, value_line};
use mw_types::{Bytes, Entry, NoMemory};
use std::alloc::Global;

/// The line of an entry under its commit number, with its LF.
pub fn entry_line(alloc: Global, entry: &Entry, n: u64) -> Result<Bytes, NoMemory>
    requires printable { HasLine entry.now }

    ensures written { IfOk result (λ line. line ≡ line_of_entry n entry.now) }
{
    let mut line = Vec::new(alloc);
    write_entry(alloc, &mut line, &EntryRef::of(entry), n)?;
    Ok(Bytes::from_vec(line))
}

/// The lines of a history, in the order of its entries, which count from 0.
pub fn history_lines(alloc: Global, history: &History) -> Result<Bytes, NoMemory>
    requires printable { All HasLine history.now }

    ensures written { IfOk result (λ lines. lines ≡ lines_of_history history.now) }
{
    let mut lines = Vec::with_capacity(alloc, LINE_ROOM)?;
    for n in 0..history.len() {
        write_entry(alloc, &mut lines, &history.at(n), n as u64)?;
    }
    Ok(Bytes::from_vec(lines))
}

// Appends the line of an entry.
fn write_entry(
    alloc: Global,
    lines: &mut Vec<u8>,
    entry: &EntryRef<'_>,
    n: u64,
) -> Result<(), NoMemory>
    requires { HasLine (lent entry.now) }
    ensures { OnOk result (lines.new.items ≡ lines.old.items ++ line_of_entry n (lent entry.now)) }
{
    lines.extend_from_slice(entry_text(alloc, entry, n)?.as_bytes())?;
    Ok(())
}

// The line of an entry, as a text.
#[tactic(auto, using(crate::proofs::EntryTexts::entry_has_no_float))]
fn entry_text(alloc: Global, entry: &EntryRef<'_>, n: u64) -> Result<String, NoMemory>
    requires { HasLine (lent entry.now) }
    ensures { IfOk result (λ text. string_bytes text ≡ line_of_entry n (lent entry.now)) }
{
    let value = entry_value(alloc, entry, n)?;
    value_line(alloc, &value)
}
