//! What the lines of a text say together, each by itself.
ghost use Rattle.std.specs.Prelude.{◌≡◌, ◌≢◌, ◌<◌, ◌^◌, All, Err, IfErr, IfOk, IfSome, List, OnOk, Ok, Option, length, ℕ};
ghost use Rattle.text_lines.specs.Readings.{is_skipped, lines_read};
ghost use Rattle.text_lines.specs.Progress.{Refuses, TakesIn};

use crate::lines::first_line;
use mw_types::{PlanRefusal, Seq};
use std::alloc::Global;

/// A reader of one line.
pub trait LineReader {
    /// What a line says.
    type Said: Drop;

    /// What a line says to it, and none where the line is out of form.
    ghost reading: { Self → List ℕ → Option Self.Said };

    /// What holds of all that it reads.
    ghost lawful: { Self → Self.Said → Type 0 };

    /// Reads a line that is not skipped.
    fn read(&self, line: &[u8]) -> Option<Self::Said>
        ensures said { result ≡ reading self.now line.now }
        ensures lawful { IfSome result (lawful self.now) };
}

/// Whether a line says nothing: an empty one, or a comment.
pub fn is_skipped(line: &[u8]) -> bool
    ensures skipped { result ≡ is_skipped line.now }
{
    line.is_empty() || line[0] == b'#'
}

// Takes in the next line, which has this number.
fn take_line<R: LineReader>(
    reader: &R,
    said: &mut Seq<R::Said>,
    line: u32,
    text: &[u8],
) -> Result<(), PlanRefusal>
    ensures takes { OnOk result (TakesIn (R.reading reader.now) line text.now said.old said.new) }
    ensures lawful { All (R.lawful reader.now) said.old → All (R.lawful reader.now) said.new }
    ensures refuses { IfErr result (Refuses (R.reading reader.now) line text.now) }
{
    if is_skipped(text) {
        return Ok(());
    }
    let Some(one) = reader.read(text) else {
        return Err(PlanRefusal::Line { line });
    };
    said.push(one)?;
    Ok(())
}

/// Reads the lines of a text that are not skipped, each by itself.
pub fn read_all<R: LineReader>(
    alloc: Global,
    bytes: &[u8],
    reader: &R,
) -> Result<Seq<R::Said>, PlanRefusal>
    requires few { length bytes.now < 2 ^ 32 }

    ensures said { IfOk result (λ said. lines_read (R.reading reader.now) bytes.now ≡ Ok said) }
    ensures lawful { IfOk result (All (R.lawful reader.now)) }
    ensures refused { IfErr result (λ refusal. refusal ≢ PlanRefusal.NoMemory →
        lines_read (R.reading reader.now) bytes.now ≡ Err refusal) }
{
    let mut said = Seq::new(alloc);
    let mut rest = bytes;
    let mut line: u32 = 0;
    while !rest.is_empty() {
        let (text, after) = first_line(rest);
        line += 1;
        if let Err(why) = take_line(reader, &mut said, line, text) {
            return Err(why);
        }
        rest = after;
    }
    Ok(said)
}
