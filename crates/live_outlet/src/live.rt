//! The live line of an emission.
ghost use Rattle.std.specs.Prelude.{◌≡◌, ◌++◌, ◌<◌, IfOk, OnOk};
ghost use Rattle.topology.specs.Shapes.{parts_of};
ghost use Rattle.row_parts.specs.Contents.{IsId};
ghost use Rattle.run_history.specs.Texts.{as_line};
ghost use Rattle.live_outlet.specs.LiveLines.{live_data, live_of, live_line_of, IsLive};

use crate::line::{LiveLine, told};
use mw_types::{Bytes, Emission, NoMemory, Text};
use run_history::Case;
use std::alloc::Global;

/// The line that tells of an emission while the run goes on, with its LF.
pub fn live_line(alloc: Global, case: &Case, emission: &Emission) -> Result<Bytes, NoMemory>
    requires part { emission.now.part < parts_of case.now.topology }
    requires id { IsId emission.now.id }

    ensures written { IfOk result (λ line. line ≡ live_line_of case.now.topology emission.now) }
    ensures live { OnOk result (IsLive (live_of case.now.topology emission.now)) }
{
    let line = line(alloc, case, emission)?;
    ended(alloc, &line)
}

// The text of a line, with its LF.
fn ended(alloc: Global, line: &LiveLine) -> Result<Bytes, NoMemory>
    requires { IsId line.now.id }
    ensures { IfOk result (λ text. text ≡ as_line (live_data line.now)) }
{
    let mut text = line.text(alloc)?;
    text.push(b'\n')?;
    Ok(Bytes::from_vec(text))
}

// What the live line of an emission tells.
fn line(alloc: Global, case: &Case, emission: &Emission) -> Result<LiveLine, NoMemory>
    requires part { emission.now.part < parts_of case.now.topology }
    requires id { IsId emission.now.id }
    ensures line { IfOk result (λ line. line ≡ live_of case.now.topology emission.now) }
    ensures live { OnOk result (IsLive (live_of case.now.topology emission.now)) }
{
    // Every topology keeps the rules that names need.
    let _parts = case.topology.parts();
    let item = &emission.item;
    let key = Text::of(alloc, item.key.text())?;
    let stream = Text::of(alloc, case.topology.stream(emission.part))?;
    Ok(told(emission.id, key, stream, item.stamp, item.value))
}
