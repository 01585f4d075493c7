//! What a proposal writes, as values: its entry, and the row that the entry leaves.
ghost use Rattle.std.specs.Prelude.{◌≡◌, ◌<◌, ◌^◌, IfOk, true};
ghost use Rattle.run_history.specs.Fits.{fits};
ghost use Rattle.run_history.specs.Lent.{lent};
ghost use Rattle.run_history.specs.Made.{produced};
ghost use Rattle.book.specs.Drafts.{MayDraft, drafted};
ghost use Rattle.book.specs.Proposals.{IsEntryOf, IsNextLine, IsProposable, left_by};

use crate::changes::{Injected, firing, handling, injecting};
use crate::drafts::Draft;
use crate::proposal::Proposal;
use mw_types::{Duplicate, Entry, NoMemory, Production, Record, RowName};
use row_parts::Row;
use run_history::{Case, EntryRef};
use std::alloc::Global;

/// An entry, and the row that it leaves.
#[derive(Drop)]
pub struct Step {
    /// The entry.
    pub entry: Entry,
    /// The row.
    pub left: Row,
}

/// What a proposal writes under a sequencer, by the row that its entry finds and the entry's commit
/// number. It reads nothing of a book, so who goes along a history may ask it too.
pub fn step_of(
    alloc: Global,
    case: &Case,
    seq: u64,
    name: &RowName,
    row: &Row,
    proposal: &Proposal,
    commit: u64,
) -> Result<Step, NoMemory>
    requires proposal { IsProposable case.now name.now row.now proposal.now }
    requires fit { fits case.now commit name.now row.now ≡ true }
    requires commit { commit < 2 ^ 32 }
    ensures entry { IfOk result (λ step. IsEntryOf case.now seq name.now proposal.now step.entry) }
    ensures left { IfOk result (λ step.
        step.left ≡ left_by case.now.topology name.now proposal.now commit step.entry row.now) }
{
    match proposal {
        Proposal::Inject { line } => injected(alloc, case, seq, name, row, *line, commit),
        Proposal::Handle { delivery, effects } => {
            let draft = handling(alloc, case, name, row, delivery, effects, commit)?;
            let entry = EntryRef::Handle {
                seq,
                row: name,
                id: delivery.id,
                effects,
            };
            stepped(alloc, row, draft, entry, commit)
        }
        Proposal::Fire {
            timer,
            mark,
            effects,
        } => {
            let draft = firing(alloc, case, name, row, *timer, effects, commit)?;
            let entry = EntryRef::Fire {
                seq,
                row: name,
                timer: *timer,
                mark: *mark,
                effects,
            };
            stepped(alloc, row, draft, entry, commit)
        }
    }
}

// What an injected line writes.
fn injected(
    alloc: Global,
    case: &Case,
    seq: u64,
    name: &RowName,
    row: &Row,
    line: u32,
    commit: u64,
) -> Result<Step, NoMemory>
    requires line { IsNextLine case.now name.now row.now line }
    requires fit { fits case.now commit name.now row.now ≡ true }
    requires commit { commit < 2 ^ 32 }
    ensures entry { IfOk result (λ step.
        IsEntryOf case.now seq name.now (Proposal.Inject line) step.entry) }
    ensures left { IfOk result (λ step. step.left
        ≡ left_by case.now.topology name.now (Proposal.Inject line) commit step.entry row.now) }
{
    let Injected { item, draft } = injecting(alloc, case, name, row, line, commit)?;
    match changed(alloc, row, draft, commit) {
        Ok(left) => Ok(Step {
            entry: Entry::Inject {
                seq,
                part: name.part,
                line,
                item,
            },
            left,
        }),
        Err(want) => {
            drop(item);
            Err(want)
        }
    }
}

// A lent entry as a value, and the row with a draft in it, which the entry put there.
fn stepped(
    alloc: Global,
    row: &Row,
    draft: Draft,
    entry: EntryRef<'_>,
    commit: u64,
) -> Result<Step, NoMemory>
    requires may { MayDraft row.now draft }
    requires commit { commit < 2 ^ 32 }
    ensures entry { IfOk result (λ step. step.entry ≡ lent entry.entry) }
    ensures left { IfOk result (λ step. step.left ≡ drafted draft commit row.now) }
{
    let left = changed(alloc, row, draft, commit)?;
    match entry.copied(alloc) {
        Ok(entry) => Ok(Step { entry, left }),
        Err(want) => {
            drop(left);
            Err(want)
        }
    }
}

// A copy of a row with a draft in it.
fn changed(alloc: Global, row: &Row, draft: Draft, commit: u64) -> Result<Row, NoMemory>
    requires may { MayDraft row.now draft }
    requires commit { commit < 2 ^ 32 }
    ensures { IfOk result (λ left. left ≡ drafted draft commit row.now) }
{
    let mut draft = draft;
    let mut left = match row.copy(alloc) {
        Ok(left) => left,
        Err(want) => {
            drop(draft);
            return Err(want);
        }
    };
    let done = draft.put_in(alloc, &mut left, commit);
    drop(draft);
    match done {
        Ok(()) => Ok(left),
        Err(want) => {
            drop(left);
            Err(want)
        }
    }
}

/// What an injector produces of a record, which is used up.
pub fn production_of(item: Record) -> Production
    ensures { result ≡ record { key = item.key; stamp = item.stamp; value = item.value } }
{
    let Record {
        key,
        stamp,
        value,
        late: _,
    } = item;
    Production { key, stamp, value }
}

// The record that was produced, which is late or not.
pub(crate) fn record_of(production: Production, late: bool) -> Record
    ensures { result ≡ produced late production }
{
    let Production { key, stamp, value } = production;
    Record {
        key,
        stamp,
        value,
        late,
    }
}
