//! What the lines of an event file hold together.
ghost use Rattle.std.specs.Prelude.{◌≡◌, ◌^◌, ◌<◌, length, IfErr, IfOk, Ok};
ghost use Rattle.json_reading.specs.Refusals.{IsRefusalOf};
ghost use Rattle.injector.specs.EventFiles.{source_in};
ghost use Rattle.injector.specs.Answers.{refusal_at};

use crate::items::Items;
use crate::progress::Progress;
use crate::refusal::{LineRefusal, LinesRefusal};
use std::alloc::Global;
use text_lines::first_line;

// The refusal of a file for its line of this number.
fn refusal_at(line: u32, refusal: LineRefusal) -> LinesRefusal
    ensures { result ≡ refusal_at line refusal }
{
    match refusal {
        LineRefusal::Breaks(why) => LinesRefusal::Line { line, why },
        LineRefusal::NoMemory => LinesRefusal::NoMemory,
    }
}

/// Reads an event file, with room for so many record lines.
pub fn read_lines(alloc: Global, bytes: &[u8], room: u32) -> Result<Items, LinesRefusal>
    requires { length bytes.now < 2 ^ 32 }

    ensures source { IfOk result (λ items. source_in room bytes.now ≡ Ok items) }
    ensures refused { IfErr result (IsRefusalOf LinesRefusal.NoMemory (source_in room bytes.now)) }
{
    let mut progress = Progress::new(alloc, room);
    let mut rest = bytes;
    let mut line: u32 = 0;
    while !rest.is_empty() {
        let (text, after) = first_line(rest);
        line += 1;
        if let Err(refusal) = progress.read(alloc, text) {
            return Err(refusal_at(line, refusal));
        }
        rest = after;
    }
    Ok(progress.into_items())
}
