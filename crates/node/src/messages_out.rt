//! Messages that a worker sends.
ghost use Rattle.std.specs.Prelude.{◌≡◌, ◌<◌, ◌↔◌, ◌++◌, IfOk, IfSome, IsSome, length, option_copied, option_to_list};
ghost use Rattle.std.specs.Option.{option_and_then, option_map};
ghost use Rattle.book.specs.Desks.{HasLooked, IsNoteOf, KeepsMarks};
ghost use Rattle.node.specs.Fits.{Fits};
ghost use Rattle.outbox.specs.Messages.{IsAddressed, IsSoBy, IsVouchedFor};
ghost use Rattle.node.specs.Received.{first_record, note_of, outgoing_of, where_record};
ghost use Rattle.outbox.specs.declared.outgoing.Outgoing.{Outgoing};
ghost use Rattle.outbox.specs.declared.outgoing.Outgoing.TheVariants as outgoing;

use crate::message::{Message, Parcel, Receipt};
use crate::node::Node;
use book::{Desk, Seen};
use mw_types::{Delivery, Duplicate, NoMemory, RowName};
use outbox::Outgoing;
use std::alloc::Global;

impl<N: Seen> Node<N> {
    /// Takes the first of what it has to send, where there is any, with a note of what its desk has
    /// seen.
    pub fn next_message<D: Desk<Note = N>>(&mut self, desk: &mut D) -> Option<Message<N>>
        requires fits { Fits (D.view desk.old).case (D.view desk.old) self.old }

        ensures fits { Fits (D.view desk.old).case (D.view desk.new) self.new }
        ensures some { IsSome result ↔ (0 < length self.old.outbox) }
        ensures first { self.old.outbox
            ≡ option_to_list (option_map outgoing_of result) ++ self.new.outbox }
        ensures rest { self.new ≡ record self.old { outbox = self.new.outbox } }

        ensures addressed { IfSome result (λ message.
            IsAddressed (D.view desk.old).case.topology (outgoing_of message)) }
        ensures known { IfSome result (λ message.
            N.book (note_of message) ≡ (D.home desk.new).book) }
        ensures note { IfSome result (λ message.
            IsNoteOf (D.view desk.new) (N.sight (note_of message))) }
        ensures vouched { IfSome result (λ message. IsVouchedFor (D.view desk.old).case
            (D.view desk.new) (N.sight (note_of message)) (outgoing_of message)) }

        ensures looked { HasLooked (D.view desk.old) (D.view desk.new) }
        ensures marks { KeepsMarks (D.view desk.old) (D.view desk.new) }
        ensures loan { D.loan desk.new ≡ D.loan desk.old }
        ensures home { D.home desk.new ≡ D.home desk.old }
    {
        desk.sound();
        let Some(message) = self.outbox.take_first() else {
            return None;
        };
        let note = desk.note();
        desk.sound();
        Some(noted(message, note))
    }

    /// The first of what it has to send once more, where that is a record, with a note of its own: for one
    /// who sends it twice. The worker still has it to send. None comes where it has nothing to
    /// send, or first of all word that a record was handled.
    #[tactic(auto, using(crate::proofs::FitLaws::looked_not))]
    pub fn first_again<D: Desk<Note = N>>(
        &self,
        alloc: Global,
        desk: &mut D,
    ) -> Result<Option<Message<N>>, NoMemory>
        requires fits { Fits (D.view desk.old).case (D.view desk.old) self.now }

        ensures fits { Fits (D.view desk.old).case (D.view desk.new) self.now }
        ensures again { IfOk result
            (λ again. option_map outgoing_of again ≡ first_record self.now.outbox) }

        ensures addressed { IfOk result (λ again. IfSome again (λ message.
            IsAddressed (D.view desk.old).case.topology (outgoing_of message))) }
        ensures known { IfOk result (λ again. IfSome again (λ message.
            N.book (note_of message) ≡ (D.home desk.new).book)) }
        ensures note { IfOk result (λ again. IfSome again (λ message.
            IsNoteOf (D.view desk.new) (N.sight (note_of message)))) }
        ensures vouched { IfOk result (λ again. IfSome again (λ message.
            IsVouchedFor (D.view desk.old).case (D.view desk.new)
            (N.sight (note_of message)) (outgoing_of message))) }

        ensures looked { HasLooked (D.view desk.old) (D.view desk.new) }
        ensures marks { KeepsMarks (D.view desk.old) (D.view desk.new) }
        ensures loan { D.loan desk.new ≡ D.loan desk.old }
        ensures home { D.home desk.new ≡ D.home desk.old }
    {
        desk.sound();
        match record_again(alloc, self.outbox.first())? {
            Some(message) => {
                let note = desk.note();
                desk.sound();
                Ok(Some(noted(message, note)))
            }
            None => Ok(None),
        }
    }
}

// A message once more, where it is there and is a record.
fn record_again(alloc: Global, message: Option<&Outgoing>) -> Result<Option<Outgoing>, NoMemory>
    ensures { IfOk result
        (λ again. again ≡ option_and_then where_record (option_copied message.entry)) }
{
    match message {
        Some(Outgoing::Deliver { delivery, sender }) => {
            Ok(Some(delivered(alloc, delivery, sender)?))
        }
        _ => Ok(None),
    }
}

// A record once more, with the row that sent it.
fn delivered(alloc: Global, delivery: &Delivery, sender: &RowName) -> Result<Outgoing, NoMemory>
    ensures { IfOk result (λ copy. copy ≡ outgoing.Deliver delivery.now sender.now) }
{
    let delivery = delivery.copy(alloc)?;
    Ok(Outgoing::Deliver {
        delivery,
        sender: sender.copy(alloc)?,
    })
}

// A message with a note by which it is so.
fn noted<N: Seen>(message: Outgoing, note: N) -> Message<N>
    requires so { IsSoBy (N.sight note) message }
    ensures message { outgoing_of result ≡ message }
    ensures note { note_of result ≡ note }
{
    match message {
        Outgoing::Deliver { delivery, sender } => Message::Deliver {
            parcel: Parcel {
                delivery,
                sender,
                note,
            },
        },
        Outgoing::Ack { to, id } => Message::Ack {
            receipt: Receipt { to, id, note },
        },
    }
}
