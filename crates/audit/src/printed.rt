//! Entries, printed and compared.
ghost use Rattle.std.specs.Prelude.{◌≡◌, ◌↔◌, ◌++◌, ◌∷◌, ℕ, [], IfOk, IsTrue, List};
ghost use Rattle.run_history.specs.HistoryLines.{HasLine};
ghost use Rattle.trace_lines.specs.Lines.{text_of_entry};

use mw_types::{Entry, NoMemory};
use run_history::entry_line;
use std::alloc::Global;

// Whether a line, without its line feed, is the entry's under this number.
pub(crate) fn is_line_of(
    alloc: Global,
    entry: &Entry,
    n: u64,
    line: &[u8],
) -> Result<bool, NoMemory>
    requires printable { HasLine entry.now }
    ensures { IfOk result (λ same. IsTrue same ↔ (text_of_entry n entry.now ≡ line.now)) }
{
    let text = entry_line(alloc, entry, n)?;
    Ok(is_ended_line(text.as_slice(), line))
}

// Whether a text is this line and a line feed.
fn is_ended_line(text: &[u8], line: &[u8]) -> bool
    ensures { (front : List ℕ) → text.now ≡ front ++ 10 ∷ [] →
        IsTrue result ↔ (front ≡ line.now) }
{
    match text.strip_suffix(b"\n") {
        Some(front) => front == line,
        None => false,
    }
}
