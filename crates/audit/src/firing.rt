//! Timers that fire.
ghost use Rattle.std.specs.Prelude.{◌≡◌, ◌<◌, ◌≤◌, IfOk, Some, get_or, length, map, ◌∷◌, slice_get};
ghost use Rattle.computations.specs.Parts.{part_doings};
ghost use Rattle.mw_types.specs.declared.TheConstants.{END};
ghost use Rattle.topology.specs.Shapes.{injectors_of, parts_of};
ghost use Rattle.run_history.specs.Runs.{row_in, run_of};
ghost use Rattle.run_history.specs.Watermarks.{cursor_of, least, low_watermark, oldest_work, source_mark};
ghost use Rattle.node.specs.Works.{IsWorkOf};
ghost use Rattle.trace_lines.specs.declared.choice.Choice.TheVariants as choices;
ghost use Rattle.audit.specs.Choices.{IsChosen};
ghost use Rattle.audit.specs.Keeping.{IsFollowed, IsKept};
ghost use Rattle.audit.specs.Lows.{fed_mark, low_after, lows_of};

use crate::finding::{cursor, sequencer};
use crate::kept::Kept;
use computations::Kinds;
use mw_types::{Duplicate, END, Entry, NoMemory, RowName, Timer};
use node::fired;
use row_parts::Row;
use run_history::{Case, History};
use std::alloc::Global;

// The entry by which a row fires its least timer under a mark, or none where it may not.
pub(crate) fn firing_of(
    alloc: Global,
    case: &Case,
    work: &Kinds,
    history: &History,
    kept: &Kept,
    name: &RowName,
    mark: u64,
) -> Result<Option<Entry>, NoMemory>
    requires work { IsWorkOf case.now.topology (part_doings work.now) }
    requires followed { IsFollowed case.now history.now }
    requires kept { IsKept case.now history.now kept.now }
    ensures { IfOk result (IsChosen case.now history.now (choices.Fire name.now mark)) }
{
    match kept.rows.get(name) {
        Some(row) => firing_in(alloc, case, work, history, kept, name, row, mark),
        None => Ok(None),
    }
}

// The same of a row that is there.
fn firing_in(
    alloc: Global,
    case: &Case,
    work: &Kinds,
    history: &History,
    kept: &Kept,
    name: &RowName,
    row: &Row,
    mark: u64,
) -> Result<Option<Entry>, NoMemory>
    requires work { IsWorkOf case.now.topology (part_doings work.now) }
    requires followed { IsFollowed case.now history.now }
    requires kept { IsKept case.now history.now kept.now }
    requires row { row_in (run_of case.now.topology history.now) name.now ≡ Some row.now }
    ensures { IfOk result (IsChosen case.now history.now (choices.Fire name.now mark)) }
{
    let Some(timer) = row.least_timer() else {
        return Ok(None);
    };
    if timer.time > mark || mark > low(alloc, case, history, kept, name.part)? {
        return Ok(None);
    }
    match sequencer(case, &kept.claims, name) {
        Some(seq) => {
            let effects = fired(alloc, work, case, name, row, &timer)?;
            let row = name.copy(alloc)?;
            Ok(Some(Entry::Fire {
                seq,
                row,
                timer,
                mark,
                effects,
            }))
        }
        None => Ok(None),
    }
}

// The low watermark of a part.
#[tactic(auto, using(crate::proofs::LowLaws::low_own))]
fn low(
    alloc: Global,
    case: &Case,
    history: &History,
    kept: &Kept,
    part: u32,
) -> Result<u64, NoMemory>
    requires followed { IsFollowed case.now history.now }
    requires kept { IsKept case.now history.now kept.now }
    requires part { part < parts_of case.now.topology }
    ensures { IfOk result (λ low.
        low ≡ low_watermark case.now (run_of case.now.topology history.now) part) }
{
    let lows = lows(alloc, case, history, kept)?;
    Ok(mark_in(&lows, part))
}

// The low watermarks of all parts, in one pass.
fn lows(alloc: Global, case: &Case, history: &History, kept: &Kept) -> Result<Vec<u64>, NoMemory>
    requires kept { IsKept case.now history.now kept.now }
    ensures { IfOk result (λ lows. lows.items
        ≡ lows_of case.now (run_of case.now.topology history.now) (parts_of case.now.topology)) }
{
    let mut lows = Vec::new(alloc);
    for part in 0..case.topology.parts() {
        let low = low_after(alloc, case, history, kept, &lows, part);
        lows.push(low)?;
    }
    Ok(lows)
}

// The low watermark of a part, by those of the parts before it.
fn low_after(
    alloc: Global,
    case: &Case,
    history: &History,
    kept: &Kept,
    lows: &[u64],
    part: u32,
) -> u64
    requires kept { IsKept case.now history.now kept.now }
    requires part { part < parts_of case.now.topology }
    ensures { result ≡ low_after case.now (run_of case.now.topology history.now) lows.now part }
{
    let oldest = oldest(case, history, kept, part);
    least_fed(
        alloc,
        case,
        history,
        kept,
        lows,
        oldest,
        case.topology.feeds(part),
    )
}

// The least of some oldest work and of what the feeding parts have.
fn least_fed(
    alloc: Global,
    case: &Case,
    history: &History,
    kept: &Kept,
    lows: &[u64],
    oldest: u64,
    feeds: &[u32],
) -> u64
    requires kept { IsKept case.now history.now kept.now }
    ensures { result ≡ least (oldest ∷ map
        (fed_mark case.now (run_of case.now.topology history.now) lows.now) feeds.now) }
{
    let mut low = oldest;
    for feed in feeds {
        low = low.min(fed_mark(alloc, case, history, kept, lows, *feed));
    }
    low
}

// The oldest work of a part that is not late.
fn oldest(case: &Case, history: &History, kept: &Kept, part: u32) -> u64
    requires kept { IsKept case.now history.now kept.now }
    requires part { part < parts_of case.now.topology }
    ensures { result ≡ oldest_work (run_of case.now.topology history.now) part }
{
    kept.works[part as usize].least()
}

// What a feeding part has.
fn fed_mark(
    alloc: Global,
    case: &Case,
    history: &History,
    kept: &Kept,
    lows: &[u64],
    feeding: u32,
) -> u64
    requires kept { IsKept case.now history.now kept.now }
    ensures { result
        ≡ fed_mark case.now (run_of case.now.topology history.now) lows.now feeding }
{
    if feeding < case.topology.injectors() {
        stated(alloc, case, history, kept, feeding)
    } else {
        mark_in(lows, feeding)
    }
}

// The watermark that an injector's file states before its next line.
fn stated(alloc: Global, case: &Case, history: &History, kept: &Kept, part: u32) -> u64
    requires kept { IsKept case.now history.now kept.now }
    requires injector { part < injectors_of case.now.topology }
    ensures { result ≡ source_mark case.now (run_of case.now.topology history.now) part }
{
    let name = Case::injector_row(alloc, part);
    let line = cursor(case, &kept.rows, &name);
    case.items.as_slice()[part as usize].stated(line)
}

// The mark of a part, or the end.
fn mark_in(lows: &[u64], part: u32) -> u64
    ensures { result ≡ get_or lows.now part END }
{
    match lows.get(part as usize) {
        Some(low) => *low,
        None => END,
    }
}
