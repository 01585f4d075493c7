//! The writes of a worker: each appends one entry on a row that is held, and then puts what the entry
//! made into the outbox.
ghost use Rattle.std.specs.Prelude.{◌≡◌, ◌<◌, ◌≤◌, ◌^◌, ◌++◌, ℕ, All, IfErr, IfOk, IfSome, IsSome, OnErr, OnOk, Some, length, map};
ghost use Rattle.topology.specs.Shapes.{parts_of};
ghost use Rattle.run_history.specs.Fences.{interval_of};
ghost use Rattle.book.specs.Desking.{IsKnownOf};
ghost use Rattle.book.specs.Desks.{HasLooked, KeepsMarks};
ghost use Rattle.book.specs.Proposals.{IsProposable};
ghost use Rattle.book.specs.Writings.{MayPut};
ghost use Rattle.book.specs.declared.proposal.Proposal.TheVariants as proposals;
ghost use Rattle.book.specs.declared.writing.Writing.TheVariants as writings;
ghost use Rattle.holdings.specs.Holding.{AreAllHeld, IsRefusedOf, KeepsHeld, held_at, row_held};
ghost use Rattle.outbox.specs.Messages.{IsAddressed};
ghost use Rattle.outbox.specs.Outboxes.{numbered};
ghost use Rattle.outbox.specs.WorkSteps.{HoldsPut, handler_sends, with_sends};

use crate::outbox::Outbox;
use crate::outgoing::Outgoing;
use crate::sends::made_by;
use book::{Desk, DeskRefusal, Proposal, Writing};
use holdings::Holdings;
use mw_types::{Delivery, Duplicate, Effects, RowName};
use run_history::Case;
use std::alloc::Global;

/// Writes that a record was handled on a row that is held of an interval, and then puts into the outbox
/// word for its sender, and behind it what the handler produced.
#[tactic(auto, using(book::proofs::Untried::untried_looked))]
pub fn write_work<D: Desk>(
    held: &mut Holdings,
    outbox: &mut Outbox,
    alloc: Global,
    desk: &mut D,
    case: &Case,
    interval: u32,
    sender: &RowName,
    proposal: &Proposal,
    parts: (&Delivery, &Effects),
) -> Result<u64, DeskRefusal>
    requires case { (D.view desk.old).case ≡ case.now }
    requires fits { AreAllHeld case.now (D.view desk.old) held.old }
    requires covers { interval_of case.now.topology parts.0.now.to ≡ Some interval }
    requires part { parts.0.now.to.part < parts_of case.now.topology }
    requires few { length parts.1.now.productions ≤ 8 }
    requires parts { proposal.now ≡ proposals.Handle parts.0.now parts.1.now }
    requires there { IsSome (held_at held.old interval) }
    requires proposal { IfSome (held_at held.old interval) (λ here. IsProposable case.now
        parts.0.now.to (row_held case.now.topology here parts.0.now.to) proposal.now) }
    requires known { IsKnownOf (D.view desk.old) parts.0.now.to proposal.now }

    ensures fits { AreAllHeld case.now (D.view desk.new) held.new }
    ensures put { IfOk result (λ commit. HoldsPut case.now.topology
        (D.view desk.old) (D.view desk.new) interval parts.entry.0.now.to
        (writings.Propose proposal.entry) commit held.old held.new) }
    ensures sent { IfOk result (λ commit. outbox.new.messages ≡ with_sends case.now.topology
        sender.now parts.entry.0.now parts.entry.1.now commit outbox.old.messages) }
    ensures unsent { OnErr result (outbox.new.messages ≡ outbox.old.messages) }
    ensures addressed { OnOk result ((commit : ℕ) → commit < 2 ^ 32 →
        All (IsAddressed case.now.topology) (handler_sends case.now.topology
        parts.entry.0.now.to parts.entry.1.now parts.entry.0.now.item.late commit)) }

    ensures kept { OnErr result (KeepsHeld case.now.topology held.old held.new) }
    ensures looked { OnErr result (HasLooked (D.view desk.old) (D.view desk.new)) }
    ensures reason { IfErr result
        (IsRefusedOf (D.view desk.old) (D.view desk.new) held.old interval) }
    ensures marks { KeepsMarks (D.view desk.old) (D.view desk.new) }
    ensures loan { D.loan desk.new ≡ D.loan desk.old }
    ensures home { D.home desk.new ≡ D.home desk.old }
{
    let (delivery, effects) = parts;
    let to = sender.copy(alloc)?;
    let made = made_by(alloc, case, &delivery.to, effects, delivery.item.late)?;
    outbox.make_room(made.len() + 1)?;
    let writing = Writing::Propose { proposal };
    let commit = held.put(alloc, desk, case, interval, &delivery.to, writing)?;
    outbox.put_ack(to, delivery.id);
    outbox.put_all(made, commit);
    Ok(commit)
}

/// Writes into a row that is held of an interval, and then puts what the entry made into the outbox.
#[tactic(auto, using(book::proofs::Untried::untried_looked))]
pub fn write_made<D: Desk>(
    held: &mut Holdings,
    outbox: &mut Outbox,
    alloc: Global,
    desk: &mut D,
    case: &Case,
    interval: u32,
    name: &RowName,
    writing: Writing<'_>,
    made: Vec<Outgoing>,
) -> Result<u64, DeskRefusal>
    requires case { (D.view desk.old).case ≡ case.now }
    requires fits { AreAllHeld case.now (D.view desk.old) held.old }
    requires covers { interval_of case.now.topology name.now ≡ Some interval }
    requires part { name.now.part < parts_of case.now.topology }
    requires there { IsSome (held_at held.old interval) }
    requires may { IfSome (held_at held.old interval) (λ here. MayPut (D.view desk.old)
        name.now (row_held case.now.topology here name.now) writing) }

    ensures fits { AreAllHeld case.now (D.view desk.new) held.new }
    ensures put { IfOk result (λ commit. HoldsPut case.now.topology
        (D.view desk.old) (D.view desk.new) interval name.now writing.entry
        commit held.old held.new) }
    ensures sent { IfOk result (λ commit. outbox.new.messages
        ≡ outbox.old.messages ++ map (numbered commit) made.items) }
    ensures unsent { OnErr result (outbox.new.messages ≡ outbox.old.messages) }

    ensures kept { OnErr result (KeepsHeld case.now.topology held.old held.new) }
    ensures looked { OnErr result (HasLooked (D.view desk.old) (D.view desk.new)) }
    ensures reason { IfErr result
        (IsRefusedOf (D.view desk.old) (D.view desk.new) held.old interval) }
    ensures marks { KeepsMarks (D.view desk.old) (D.view desk.new) }
    ensures loan { D.loan desk.new ≡ D.loan desk.old }
    ensures home { D.home desk.new ≡ D.home desk.old }
{
    outbox.make_room(made.len())?;
    let commit = held.put(alloc, desk, case, interval, name, writing)?;
    outbox.put_all(made, commit);
    Ok(commit)
}
