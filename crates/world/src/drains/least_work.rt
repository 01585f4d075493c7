//! What a drain does with the least id that is not acknowledged.
ghost use Rattle.std.specs.Prelude.{◌≡◌, ◌<◌, ◌≤◌, IfErr, IfOk, IfSome, OnOk, Some, IsTrue, true, option_copied};
ghost use Rattle.std.specs.Option.{option_and_then};
ghost use Rattle.topology.specs.Shapes.{Shape, parts_of};
ghost use Rattle.row_parts.specs.Contents.{same_id, found_delivery};
ghost use Rattle.run_history.specs.Fences.{interval_of};
ghost use Rattle.run_history.specs.Finished.{handles, is_handled};
ghost use Rattle.run_history.specs.Legal.{floor_of};
ghost use Rattle.run_history.specs.Lent.{lent};
ghost use Rattle.run_history.specs.Runs.{cached, row_in, run_of};
ghost use Rattle.book.specs.Desking.{IsKnownOf};
ghost use Rattle.book.specs.OwnDesks.{own_view};
ghost use Rattle.book.specs.Proposals.{IsHandling, IsProposable};
ghost use Rattle.book.specs.Senders.{IsLeastSent};
ghost use Rattle.book.specs.declared.proposal.Proposal.TheVariants as proposals;
ghost use Rattle.holdings.specs.Holding.{HeldView, held_at, row_held};
ghost use Rattle.node.specs.Asking.{MayAskForget, settle_asked};
ghost use Rattle.node.specs.Works.{IsWorkOf};
ghost use Rattle.world.specs.drains.Standings.{IsFound, StandsIn};
ghost use Rattle.world.specs.drains.Turns.{CanBeKept, HasAsked, HasAskedOne, HasFailed, HasHandled, HasProposed, HasTurned, IsAtWork, WhereTold, is_full_at, sent_at, worker_of};

use crate::drains::standing::{Standing, standing_of};
use crate::drains::writes::put;
use book::{Book, Proposal, Writing};
use computations::Computation;
use holdings::Holdings;
use mw_types::{Delivery, Duplicate, Effects, NoMemory, RecordId, RowName};
use node::NodeFault;
use row_keeper::Keeper;
use row_parts::Row;
use run_history::{EntryRef, History};
use std::alloc::Global;

// Works on the least id that is not acknowledged: it is acknowledged, where its record is handled;
// else its row forgets ids, where it has many; else its record is handled.
pub(crate) fn work_on<'a, K: Keeper, C: Computation>(
    alloc: Global,
    book: &mut Book<'a, K>,
    work: &C,
    held: &mut Holdings,
    id: RecordId,
    sender: &RowName,
) -> Result<bool, NodeFault>
    requires work { IsWorkOf book.old.case.topology (C.does work.now) }
    requires at_work { IsAtWork book.old (worker_of held.old) }
    requires least { let shape = book.old.case.topology in
        IsLeastSent shape (run_of shape book.old.history) id sender.now }
    requires part { sender.now.part < parts_of book.old.case.topology }
    ensures turned { IfOk result (HasTurned book.old book.new) }
    ensures at_work { OnOk result (IsAtWork book.new (worker_of held.new)) }
    ensures more { IfOk result (λ more. WhereTold book.old (more ≡ true)) }
    ensures failed { IfErr result (HasFailed book.old book.new) }
{
    // Its clauses say what always holds of a book.
    book.history();
    let interval = book.case().interval_of(sender);
    // Most records were handled right before, and so no row is looked up for them.
    if is_last_handled(book.history(), id) {
        return acknowledge(alloc, book, held, interval, sender, id);
    }
    work_on_pending(alloc, book, work, held, interval, sender, id)
}

// Works on what a row has pending under the least id that is not acknowledged.
fn work_on_pending<'a, K: Keeper, C: Computation>(
    alloc: Global,
    book: &mut Book<'a, K>,
    work: &C,
    held: &mut Holdings,
    interval: u32,
    sender: &RowName,
    id: RecordId,
) -> Result<bool, NodeFault>
    requires work { IsWorkOf book.old.case.topology (C.does work.now) }
    requires at_work { IsAtWork book.old (worker_of held.old) }
    requires least { let shape = book.old.case.topology in
        IsLeastSent shape (run_of shape book.old.history) id sender.now }
    requires part { sender.now.part < parts_of book.old.case.topology }
    requires covers { interval_of book.old.case.topology sender.now ≡ Some interval }
    ensures turned { IfOk result (HasTurned book.old book.new) }
    ensures at_work { OnOk result (IsAtWork book.new (worker_of held.new)) }
    ensures more { IfOk result (λ more. WhereTold book.old (more ≡ true)) }
    ensures failed { IfErr result (HasFailed book.old book.new) }
{
    match sent(alloc, held, interval, sender, id)? {
        Some(delivery) => work_on_sent(alloc, book, work, held, interval, sender, delivery),
        // Only over a keeper whose rows are wrong: what was read there is not what was written.
        None => Ok(false),
    }
}

// Works on what a row has pending.
fn work_on_sent<'a, K: Keeper, C: Computation>(
    alloc: Global,
    book: &mut Book<'a, K>,
    work: &C,
    held: &mut Holdings,
    interval: u32,
    sender: &RowName,
    delivery: Delivery,
) -> Result<bool, NodeFault>
    requires work { IsWorkOf book.old.case.topology (C.does work.now) }
    requires at_work { IsAtWork book.old (worker_of held.old) }
    requires least { let shape = book.old.case.topology in
        IsLeastSent shape (run_of shape book.old.history) delivery.id sender.now }
    requires part { sender.now.part < parts_of book.old.case.topology }
    requires covers { interval_of book.old.case.topology sender.now ≡ Some interval }
    requires sent { let shape = book.old.case.topology in
        sent_at shape (worker_of held.old) sender.now delivery.id ≡ Some delivery }
    requires kept { CanBeKept delivery }
    ensures turned { IfOk result (HasTurned book.old book.new) }
    ensures more { IfOk result (λ more. WhereTold book.old (more ≡ true)) }
    ensures at_work { OnOk result (IsAtWork book.new (worker_of held.new)) }
    ensures failed { IfErr result (HasFailed book.old book.new) }
{
    // Its clauses say what always holds of a book.
    book.history();
    let to = book.case().interval_of(&delivery.to);
    match standing_of(alloc, book, work, held, to, &delivery) {
        Ok(standing) => { work_by(alloc, book, held, interval, sender, to, delivery, standing) }
        Err(NoMemory) => {
            drop(delivery);
            Err(NodeFault::NoMemory)
        }
    }
}

// Works on what a row has pending, by how it stands in its row, which is of the interval `to`.
fn work_by<'a, K: Keeper>(
    alloc: Global,
    book: &mut Book<'a, K>,
    held: &mut Holdings,
    interval: u32,
    sender: &RowName,
    to: u32,
    delivery: Delivery,
    standing: Standing,
) -> Result<bool, NodeFault>
    requires found { IsFound book.old (worker_of held.old) sender.now delivery }
    requires covers { interval_of book.old.case.topology sender.now ≡ Some interval }
    requires to { interval_of book.old.case.topology delivery.to ≡ Some to }
    requires kept { CanBeKept delivery }
    requires stands { StandsIn book.old held.old to delivery standing }
    ensures turned { IfOk result (HasTurned book.old book.new) }
    ensures more { IfOk result (λ more. WhereTold book.old (more ≡ true)) }
    ensures at_work { OnOk result (IsAtWork book.new (worker_of held.new)) }
    ensures failed { IfErr result (HasFailed book.old book.new) }
{
    match standing {
        Standing::Finished => {
            let id = delivery.id;
            drop(delivery);
            acknowledge(alloc, book, held, interval, sender, id)
        }
        Standing::Full => {
            let forgotten = forget(alloc, book, held, to, &delivery.to);
            drop(delivery);
            forgotten
        }
        Standing::Handled { effects } => handle(alloc, book, held, to, delivery, effects),
    }
}

// What a row has pending under an id.
fn sent(
    alloc: Global,
    held: &Holdings,
    interval: u32,
    sender: &RowName,
    id: RecordId,
) -> Result<Option<Delivery>, NoMemory>
    ensures sent { IfOk result (λ found. (shape : Shape) →
        interval_of shape sender.now ≡ Some interval →
        found ≡ sent_at shape (worker_of held.now) sender.now id) }
    ensures kept { IfOk result (λ found. IfSome found CanBeKept) }
{
    let Some(row) = row_of(held, interval, sender) else {
        return Ok(None);
    };
    match found(row.pending.as_slice(), id) {
        Some(delivery) => Ok(Some(delivery.copy(alloc)?)),
        None => Ok(None),
    }
}

// A row of an interval, as it is held.
pub(crate) fn row_of<'a>(held: &'a Holdings, interval: u32, name: &RowName) -> Option<&'a Row>
    ensures { option_copied result ≡ option_and_then
        (λ (here : HeldView). row_in (cached here.rows) name.now) (held_at held.now interval) }
{
    match held.get(interval) {
        Some(here) => here.row(name),
        None => None,
    }
}

// The delivery of an id among these.
fn found(deliveries: &[Delivery], id: RecordId) -> Option<&Delivery>
    ensures { option_copied result ≡ found_delivery id deliveries.now }
{
    deliveries.iter().find(|d| is_same(d.id, id))
}

// Whether two ids are the same.
fn is_same(a: RecordId, b: RecordId) -> bool
    ensures { result ≡ same_id a b }
{
    a.commit == b.commit && a.index == b.index
}

// Whether the last entry says that the record of an id was handled.
fn is_last_handled(history: &History, id: RecordId) -> bool
    ensures { IsTrue result → is_handled id history.now ≡ true }
{
    let count = history.len();
    0 < count && is_handle_of(&history.at(count - 1), id)
}

// Whether an entry says that the record of an id was handled.
fn is_handle_of(entry: &EntryRef<'_>, id: RecordId) -> bool
    ensures { result ≡ handles id (lent entry.now) }
{
    match *entry {
        EntryRef::Handle { id: handled, .. } => is_same(id, handled),
        _ => false,
    }
}

// Tells a row that what it sent was handled, where it has that pending.
fn acknowledge<'a, K: Keeper>(
    alloc: Global,
    book: &mut Book<'a, K>,
    held: &mut Holdings,
    interval: u32,
    sender: &RowName,
    id: RecordId,
) -> Result<bool, NodeFault>
    requires at_work { IsAtWork book.old (worker_of held.old) }
    requires part { sender.now.part < parts_of book.old.case.topology }
    requires covers { interval_of book.old.case.topology sender.now ≡ Some interval }
    requires handled { WhereTold book.old (is_handled id book.old.history ≡ true) }
    ensures asked { let shape = book.old.case.topology in
        let asked = settle_asked shape (worker_of held.old) sender.now id in
        IfOk result (HasAsked book.old book.new asked) }
    ensures at_work { OnOk result (IsAtWork book.new (worker_of held.new)) }
    ensures failed { IfErr result (HasFailed book.old book.new) }
{
    let Some(here) = held.get(interval) else {
        return Ok(false);
    };
    if !here.is_pending(sender, id) {
        return Ok(false);
    }
    put(alloc, book, held, interval, sender, Writing::Settle { id })?;
    Ok(true)
}

// Has a row that has 64 ids or more forget those that no sender sends again.
fn forget<'a, K: Keeper>(
    alloc: Global,
    book: &mut Book<'a, K>,
    held: &mut Holdings,
    interval: u32,
    name: &RowName,
) -> Result<bool, NodeFault>
    requires at_work { IsAtWork book.old (worker_of held.old) }
    requires part { name.now.part < parts_of book.old.case.topology }
    requires covers { interval_of book.old.case.topology name.now ≡ Some interval }
    requires full { let shape = book.old.case.topology in
        is_full_at shape (run_of shape book.old.history) (worker_of held.old) name.now ≡ true }
    ensures asked { let shape = book.old.case.topology in
        let floor = floor_of (run_of shape book.old.history) in
        IfOk result (HasAskedOne book.old book.new
        (MayAskForget shape (worker_of held.old) 64 floor name.now)) }
    ensures more { IfOk result (λ more. more ≡ true) }
    ensures at_work { OnOk result (IsAtWork book.new (worker_of held.new)) }
    ensures failed { IfErr result (HasFailed book.old book.new) }
{
    let floor = book.floor();
    put(alloc, book, held, interval, name, Writing::Purge { floor })?;
    Ok(true)
}

// Writes that a record was handled, with what its computation left.
fn handle<'a, K: Keeper>(
    alloc: Global,
    book: &mut Book<'a, K>,
    held: &mut Holdings,
    interval: u32,
    delivery: Delivery,
    effects: Effects,
) -> Result<bool, NodeFault>
    requires at_work { IsAtWork book.old (worker_of held.old) }
    requires part { delivery.to.part < parts_of book.old.case.topology }
    requires covers { interval_of book.old.case.topology delivery.to ≡ Some interval }
    requires handling { let case = book.old.case in IfSome (held_at held.old interval) (λ here.
        let row = row_held case.topology here delivery.to in
        IsHandling case delivery.to row delivery effects) }
    requires sent { let desk = own_view book.old in
        IsKnownOf desk delivery.to (proposals.Handle delivery effects) }
    ensures handled { IfOk result (HasHandled book.old book.new delivery) }
    ensures at_work { OnOk result (IsAtWork book.new (worker_of held.new)) }
    ensures failed { IfErr result (HasFailed book.old book.new) }
{
    let proposal = Proposal::Handle { delivery, effects };
    let written = match &proposal {
        Proposal::Handle { delivery, .. } => {
            write(alloc, book, held, interval, &delivery.to, &proposal)
        }
        _ => unreachable!(),
    };
    drop(proposal);
    written?;
    Ok(true)
}

// Writes what is proposed of a row.
fn write<'a, K: Keeper>(
    alloc: Global,
    book: &mut Book<'a, K>,
    held: &mut Holdings,
    interval: u32,
    name: &RowName,
    proposal: &Proposal,
) -> Result<(), NodeFault>
    requires at_work { IsAtWork book.old (worker_of held.old) }
    requires covers { interval_of book.old.case.topology name.now ≡ Some interval }
    requires part { name.now.part < parts_of book.old.case.topology }
    requires proposal { let shape = book.old.case.topology in IfSome (held_at held.old interval)
        (λ here. IsProposable book.old.case name.now (row_held shape here name.now) proposal.now) }
    requires known { IsKnownOf (own_view book.old) name.now proposal.now }
    ensures written { OnOk result (IfSome (held_at held.old interval)
        (λ here. HasProposed book.old book.new here.lease.seq name.now proposal.now)) }
    ensures at_work { OnOk result (IsAtWork book.new (worker_of held.new)) }
    ensures failed { IfErr result (HasFailed book.old book.new) }
{
    put(
        alloc,
        book,
        held,
        interval,
        name,
        Writing::Propose { proposal },
    )
}
