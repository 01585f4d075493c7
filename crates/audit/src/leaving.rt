//! The row that an entry leaves.
ghost use Rattle.std.specs.Prelude.{◌≡◌, ◌<◌, ◌≤◌, ◌^◌, IfOk, IsSome, Some, length, true};
ghost use Rattle.mw_types.specs.declared.delivery.Delivery.{Delivery};
ghost use Rattle.row_parts.specs.Contents.{Contents, ids_from, without_delivery};
ghost use Rattle.run_history.specs.Fits.{fits};
ghost use Rattle.run_history.specs.Runs.{cached, row_in, row_of};
ghost use Rattle.book.specs.Proposals.{IsProposable};
ghost use Rattle.book.specs.declared.proposal.Proposal.TheVariants as proposals;
ghost use Rattle.audit.specs.Choices.{MayCome};
ghost use Rattle.audit.specs.Keeping.{IsFollowed, IsKept, IsLeftBy, IsLeftOf, IsRowOfStep, injector_name};
ghost use Rattle.audit.specs.Waits.{waiting_in};

use crate::kept::{Kept, Rows};
use book::{NamedRow, Proposal, Step, purged, settled, step_of};
use mw_types::{Delivery, Duplicate, Effects, Entry, NoMemory, RecordId, RowName, Timer};
use row_parts::Row;
use run_history::{Case, History, first_row};
use std::alloc::Global;

// The row that an entry leaves which may come next, or none where it is on no row.
pub(crate) fn left_of(
    alloc: Global,
    case: &Case,
    history: &History,
    kept: &Kept,
    entry: &Entry,
) -> Result<Option<NamedRow>, NoMemory>
    requires followed { IsFollowed case.now history.now }
    requires kept { IsKept case.now history.now kept.now }
    requires next { MayCome case.now history.now entry.now }
    requires few { length history.now < 2 ^ 32 }
    ensures { IfOk result (IsLeftOf case.now history.now entry.now) }
{
    let commit = history.len() as u64;
    match entry {
        Entry::Claim { .. } => Ok(None),
        Entry::Inject {
            seq,
            part,
            line,
            ..
        } => {
            let left = row_injected(alloc, case, &kept.rows, *seq, *part, *line, commit)?;
            Ok(Some(left))
        }
        Entry::Handle {
            seq,
            row,
            id,
            effects,
        } => {
            let left = row_handled(alloc, case, kept, *seq, row, *id, effects, commit)?;
            Ok(Some(left))
        }
        Entry::Fire {
            seq,
            row,
            timer,
            mark,
            effects,
        } => {
            let left = row_fired(alloc, case, kept, *seq, row, *timer, *mark, effects, commit)?;
            Ok(Some(left))
        }
        Entry::Ack { row, id, .. } => {
            let left = row_settled(alloc, &kept.rows, row, *id, commit)?;
            Ok(Some(left))
        }
        Entry::Purge { row, floor, .. } => {
            let left = row_purged(alloc, &kept.rows, row, *floor, commit)?;
            Ok(Some(left))
        }
    }
}

// The row that the entry of a proposal leaves.
fn row_after(
    alloc: Global,
    case: &Case,
    rows: &Rows,
    seq: u64,
    name: RowName,
    proposal: &Proposal,
    commit: u64,
) -> Result<NamedRow, NoMemory>
    requires proposal { IsProposable case.now name
        (row_of case.now.topology (cached rows.now.entries) name) proposal.now }
    requires fit { fits case.now commit name
        (row_of case.now.topology (cached rows.now.entries) name) ≡ true }
    requires commit { commit < 2 ^ 32 }
    ensures { IfOk result (IsLeftBy case.now seq name proposal.now commit
        (row_of case.now.topology (cached rows.now.entries) name)) }
{
    let step = match rows.get(&name) {
        Some(row) => step_of(alloc, case, seq, &name, row, proposal, commit),
        None => {
            let fresh = first_row(alloc, case, name.part);
            step_of(alloc, case, seq, &name, &fresh, proposal, commit)
        }
    };
    named(name, step)
}

// The row of a step, under its name.
fn named(name: RowName, step: Result<Step, NoMemory>) -> Result<NamedRow, NoMemory>
    ensures { IfOk result (λ left. IsRowOfStep name step left) }
{
    match step {
        Ok(Step { entry: _, left }) => Ok(NamedRow { name, row: left }),
        Err(want) => {
            drop(name);
            Err(want)
        }
    }
}

// The row of an injector that has injected a line.
fn row_injected(
    alloc: Global,
    case: &Case,
    rows: &Rows,
    seq: u64,
    part: u32,
    line: u32,
    commit: u64,
) -> Result<NamedRow, NoMemory>
    requires proposal { IsProposable case.now (injector_name part)
        (row_of case.now.topology (cached rows.now.entries) (injector_name part))
        (proposals.Inject line) }
    requires fit { fits case.now commit (injector_name part)
        (row_of case.now.topology (cached rows.now.entries) (injector_name part)) ≡ true }
    requires commit { commit < 2 ^ 32 }
    ensures { IfOk result (IsLeftBy case.now seq (injector_name part) (proposals.Inject line) commit
        (row_of case.now.topology (cached rows.now.entries) (injector_name part))) }
{
    let name = Case::injector_row(alloc, part);
    let proposal = Proposal::Inject { line };
    row_after(alloc, case, rows, seq, name, &proposal, commit)
}

// The row that has handled the record which waits under this id.
fn row_handled(
    alloc: Global,
    case: &Case,
    kept: &Kept,
    seq: u64,
    name: &RowName,
    id: RecordId,
    effects: &Effects,
    commit: u64,
) -> Result<NamedRow, NoMemory>
    requires waits { IsSome (waiting_in kept.now.waiting.entries id) }
    requires proposal { (delivery : Delivery) →
        waiting_in kept.now.waiting.entries id ≡ Some delivery →
        IsProposable case.now name.now
        (row_of case.now.topology (cached kept.now.rows.entries) name.now)
        (proposals.Handle delivery effects.now) }
    requires fit { fits case.now commit name.now
        (row_of case.now.topology (cached kept.now.rows.entries) name.now) ≡ true }
    requires commit { commit < 2 ^ 32 }
    ensures { IfOk result (λ left. (delivery : Delivery)
        × (waiting_in kept.now.waiting.entries id ≡ Some delivery)
        × IsLeftBy case.now seq name.now (proposals.Handle delivery effects.now) commit
        (row_of case.now.topology (cached kept.now.rows.entries) name.now) left) }
{
    let delivery = kept.waiting.get(&id).unwrap();
    let proposal = handle_proposal(alloc, delivery, effects)?;
    let name = name.copy(alloc)?;
    row_after(alloc, case, &kept.rows, seq, name, &proposal, commit)
}

// That a record was handled.
fn handle_proposal(
    alloc: Global,
    delivery: &Delivery,
    effects: &Effects,
) -> Result<Proposal, NoMemory>
    ensures { IfOk result (λ p. p ≡ proposals.Handle delivery.now effects.now) }
{
    let delivery = delivery.copy(alloc)?;
    let effects = effects.copy(alloc)?;
    Ok(Proposal::Handle { delivery, effects })
}

// The row of which this timer has fired.
fn row_fired(
    alloc: Global,
    case: &Case,
    kept: &Kept,
    seq: u64,
    name: &RowName,
    timer: Timer,
    mark: u64,
    effects: &Effects,
    commit: u64,
) -> Result<NamedRow, NoMemory>
    requires proposal { IsProposable case.now name.now
        (row_of case.now.topology (cached kept.now.rows.entries) name.now)
        (proposals.Fire timer mark effects.now) }
    requires fit { fits case.now commit name.now
        (row_of case.now.topology (cached kept.now.rows.entries) name.now) ≡ true }
    requires commit { commit < 2 ^ 32 }
    ensures { IfOk result (IsLeftBy case.now seq name.now (proposals.Fire timer mark effects.now)
        commit (row_of case.now.topology (cached kept.now.rows.entries) name.now)) }
{
    let proposal = Proposal::Fire {
        timer,
        mark,
        effects: effects.copy(alloc)?,
    };
    let name = name.copy(alloc)?;
    row_after(alloc, case, &kept.rows, seq, name, &proposal, commit)
}

// The row of which an id is settled.
fn row_settled(
    alloc: Global,
    rows: &Rows,
    name: &RowName,
    id: RecordId,
    commit: u64,
) -> Result<NamedRow, NoMemory>
    requires there { IsSome (row_in (cached rows.now.entries) name.now) }
    requires commit { commit < 2 ^ 32 }
    ensures { IfOk result (λ left. (row : Contents)
        × (row_in (cached rows.now.entries) name.now ≡ Some row)
        × (left ≡ record {
          name = name.now;
          row = record row {
            pending = without_delivery id row.pending;
            last = commit;
          };
        })) }
{
    let row = rows.get(name).unwrap();
    let left = settled(alloc, row, id, commit)?;
    under(alloc, name, left)
}

// The row that has forgotten the ids below a floor.
fn row_purged(
    alloc: Global,
    rows: &Rows,
    name: &RowName,
    floor: u64,
    commit: u64,
) -> Result<NamedRow, NoMemory>
    requires there { IsSome (row_in (cached rows.now.entries) name.now) }
    requires rises { (row : Contents) → row_in (cached rows.now.entries) name.now ≡ Some row →
        row.floor ≤ floor }
    requires few { floor ≤ 2 ^ 32 }
    requires commit { commit < 2 ^ 32 }
    ensures { IfOk result (λ left. (row : Contents)
        × (row_in (cached rows.now.entries) name.now ≡ Some row)
        × (left ≡ record {
          name = name.now;
          row = record row {
            floor = floor;
            seen = ids_from floor row.seen;
            last = commit;
          };
        })) }
{
    let row = rows.get(name).unwrap();
    let left = purged(alloc, row, floor, commit)?;
    under(alloc, name, left)
}

// A row under a copy of its name.
fn under(alloc: Global, name: &RowName, row: Row) -> Result<NamedRow, NoMemory>
    ensures { IfOk result (λ left. left ≡ record { name = name.now; row = row }) }
{
    match name.copy(alloc) {
        Ok(name) => Ok(NamedRow { name, row }),
        Err(want) => {
            drop(row);
            Err(want)
        }
    }
}
