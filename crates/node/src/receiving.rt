//! Messages that come to a worker.
ghost use Rattle.std.specs.Prelude.{◌≡◌, ◌++◌, ◌∷◌, [], IfErr, IfOk, OnErr, OnOk, Some};
ghost use Rattle.topology.specs.Shapes.{Shape};
ghost use Rattle.row_parts.specs.Contents.{is_finished};
ghost use Rattle.book.specs.Desks.{DeskView, HasLooked, IsSound, KeepsMarks};
ghost use Rattle.book.specs.declared.proposal.Proposal.TheVariants as proposals;
ghost use Rattle.holdings.specs.Holding.{row_held};
ghost use Rattle.node.specs.Answers.{HasKept, taken_from, taken_in};
ghost use Rattle.node.specs.Fits.{Fits};
ghost use Rattle.outbox.specs.Messages.{IsAddressed, IsDeliverable, IsOutgoing, IsVouchedFor};
ghost use Rattle.node.specs.Received.{IsDeliver, note_of, outgoing_of};
ghost use Rattle.node.specs.Workers.{worker_at};
ghost use Rattle.node.specs.Works.{HasStates, IsWorkOf};
ghost use Rattle.outbox.specs.declared.outgoing.Outgoing.TheVariants as outgoing;

use crate::handling::left_of_delivery;
use crate::message::{Message, Parcel};
use crate::node::Node;
use crate::outcome::{NodeFault, Outcome};
use crate::work::Work;
use book::{Desk, Proposal, Seen};
use computations::Computation;
use holdings::Held;
use mw_types::{Delivery, Effects, NoMemory, RecordId, RowName};
use run_history::Case;
use std::alloc::Global;

impl<N: Seen> Node<N> {
    /// Takes in a record, whose row it has, and handles it; a record that is finished there is
    /// acknowledged again. The message is used up whatever the answer is.
    ///
    /// It answers `Nothing` exactly where a work is prepared, else `NotMine` exactly where it has
    /// no lease of the row, and else `Duplicate` exactly where the record is finished in the row.
    /// Where the note of the message tells nothing, a desk that is alone has to have seen that what
    /// the message says is so, if a contract can see the keeper's rows.
    pub fn prepare<D: Desk<Note = N>, C: Computation>(
        &mut self,
        alloc: Global,
        desk: &mut D,
        case: &Case,
        work: &C,
        message: Message<N>,
    ) -> Result<Outcome, NodeFault>
        requires fits { Fits case.now (D.view desk.old) self.old }
        requires work { IsWorkOf case.now.topology (C.does work.now) }
        requires record { IsDeliver (outgoing_of message) }
        requires addressed { IsAddressed case.now.topology (outgoing_of message) }
        requires known { N.book (note_of message) ≡ (D.home desk.old).book }
        requires vouched { IsVouchedFor case.now (D.view desk.old)
            (N.sight (note_of message)) (outgoing_of message) }

        ensures fits { Fits case.now (D.view desk.new) self.new }
        ensures answers { IfOk result (λ outcome. (outcome, worker_at self.new)
            ≡ taken_from case.now.topology self.old (outgoing_of message)) }
        ensures number { self.new.number ≡ self.old.number }

        ensures kept { OnErr result (HasKept self.old self.new) }
        ensures fault { IfErr result (λ fault. fault ≡ NodeFault.NoMemory) }

        ensures looked { HasLooked (D.view desk.old) (D.view desk.new) }
        ensures marks { KeepsMarks (D.view desk.old) (D.view desk.new) }
        ensures loan { D.loan desk.new ≡ D.loan desk.old }
        ensures home { D.home desk.new ≡ D.home desk.old }
    {
        match message {
            Message::Deliver { parcel } => {
                let Parcel {
                    delivery,
                    sender,
                    note,
                } = parcel;
                desk.sound();
                desk.meet(note);
                desk.sound();
                self.take_in(alloc, case, work, delivery, sender)
            }
            Message::Ack { receipt: _ } => unreachable!(),
        }
    }

    // Takes in a record, as its sender may have sent it.
    fn take_in<C: Computation>(
        &mut self,
        alloc: Global,
        case: &Case,
        work: &C,
        delivery: Delivery,
        sender: RowName,
    ) -> Result<Outcome, NodeFault>
        requires work { IsWorkOf case.now.topology (C.does work.now) }
        requires deliverable { IsDeliverable case.now.topology delivery sender }
        requires states { HasStates case.now.topology self.old.held delivery.to }

        ensures fits { (desk : DeskView) → IsSound desk → Fits case.now desk self.old →
            IsOutgoing case.now desk (outgoing.Deliver delivery sender) →
            Fits case.now desk self.new }
        ensures answers { IfOk result (λ outcome. (outcome, worker_at self.new)
            ≡ taken_in case.now.topology self.old delivery sender) }
        ensures number { self.new.number ≡ self.old.number }
        ensures kept { OnErr result (HasKept self.old self.new) }
        ensures fault { IfErr result (λ fault. fault ≡ NodeFault.NoMemory) }
    {
        if self.prepared.is_some() {
            let_go(delivery, sender);
            return Ok(Outcome::Nothing);
        }
        let interval = case.interval_of(&delivery.to);
        let Some(held) = self.held.get(interval) else {
            let_go(delivery, sender);
            return Ok(Outcome::NotMine);
        };
        if is_finished(held, &delivery) {
            let id = delivery.id;
            drop(delivery);
            self.acknowledge(sender, id)?;
            return Ok(Outcome::Duplicate);
        }
        let row = held.row(&delivery.to);
        match left_of_delivery(alloc, work, case, row, &delivery) {
            Ok(effects) => {
                keep(&mut self.prepared, delivery, effects, sender);
                Ok(Outcome::Prepared)
            }
            Err(NoMemory) => {
                let_go(delivery, sender);
                Err(NodeFault::NoMemory)
            }
        }
    }

    // Sends word once more that a record was handled.
    fn acknowledge(&mut self, sender: RowName, id: RecordId) -> Result<(), NoMemory>
        ensures put { OnOk result (self.new ≡ record self.old {
          outbox = self.old.outbox ++ outgoing.Ack sender id ∷ [];
        }) }
        ensures unchanged { OnErr result (self.new ≡ self.old) }
    {
        self.outbox.make_room(1)?;
        self.outbox.put_ack(sender, id);
        Ok(())
    }
}

// Lets go of a record that is not prepared.
fn let_go(_delivery: Delivery, _sender: RowName) {}

// Keeps that a record was handled, until it is written.
fn keep(prepared: &mut Option<Work>, delivery: Delivery, effects: Effects, sender: RowName)
    ensures { prepared.new
        ≡ Some (record { sender = sender; proposal = proposals.Handle delivery effects }) }
{
    let proposal = Proposal::Handle { delivery, effects };
    drop(prepared.replace(Work { sender, proposal }));
}

// Whether a record is finished in its row as it is held.
fn is_finished(held: &Held, delivery: &Delivery) -> bool
    ensures { (shape : Shape) →
        result ≡ is_finished delivery.now.id (row_held shape held.now delivery.now.to) }
{
    match held.row(&delivery.to) {
        Some(row) => row.is_finished(delivery.id),
        None => false,
    }
}
