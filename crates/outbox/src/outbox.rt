//! What a node has to send, with room that is made beforehand.
ghost use Rattle.std.specs.Prelude.{◌≡◌, ◌<◌, ◌≤◌, ◌↔◌, ◌+◌, ◌++◌, ◌∷◌, [], IsSome, length, map, OnOk, option_copied, option_to_list, slice_get};
ghost use Rattle.outbox.specs.Messages.{sent_again};
ghost use Rattle.outbox.specs.Outboxes.{numbered};
ghost use Rattle.outbox.specs.declared.outgoing.Outgoing.TheVariants as outgoing;

use crate::outgoing::Outgoing;
use holdings::Sent;
use mw_types::{NoMemory, RecordId, RowName};
use std::alloc::Global;
use std::collections::VecDeque;
use std::marker::Model;

/// What is to be sent, first come first.
#[derive(Drop)]
pub struct Outbox {
    messages: VecDeque<Outgoing>,
}

impl Model for Outbox {
    ghost use Rattle.std.specs.Prelude.{◌-◌};
    ghost use Rattle.std.specs.VecDeque.{deque_capacity, deque_len};
    ghost use Rattle.outbox.specs.Outboxes.{OutboxView};

    ghost Value = { OutboxView };

    ghost view = { λ o. record {
      messages = o.messages.items;
      room = deque_capacity o.messages - deque_len o.messages;
    } };
}

impl Outbox {
    /// Nothing is to be sent, which takes no memory.
    pub fn new(alloc: Global) -> Outbox
        ensures empty { result.messages ≡ [] }
    {
        Outbox {
            messages: VecDeque::new(alloc),
        }
    }

    /// How many are to be sent.
    pub fn len(&self) -> usize
        ensures { result ≡ length self.now.messages }
    {
        self.messages.len()
    }

    /// Makes room for so many more.
    pub fn make_room(&mut self, more: usize) -> Result<(), NoMemory>
        ensures room { OnOk result (more ≤ self.new.room) }
        ensures same { self.new.messages ≡ self.old.messages }
    {
        self.messages.reserve(more)?;
        Ok(())
    }

    /// Puts one behind the others, where there is room.
    pub fn put(&mut self, message: Outgoing)
        requires room { 0 < self.old.room }
        ensures put { self.new.messages ≡ self.old.messages ++ message ∷ [] }
        ensures room { self.old.room ≡ self.new.room + 1 }
    {
        self.messages.push_back_reserved(message);
    }

    /// Puts word that a record was handled behind the others, where there is room.
    pub fn put_ack(&mut self, to: RowName, id: RecordId)
        requires room { 0 < self.old.room }
        ensures put { self.new.messages ≡ self.old.messages ++ outgoing.Ack to id ∷ [] }
        ensures room { self.old.room ≡ self.new.room + 1 }
    {
        self.put(Outgoing::Ack { to, id });
    }

    /// Puts what an entry made behind the others, under the entry's number, where there is room.
    pub fn put_all(&mut self, made: Vec<Outgoing>, commit: u64)
        requires room { length made.items ≤ self.old.room }
        ensures put { self.new.messages ≡ self.old.messages ++ map (numbered commit) made.items }
    {
        for message in made {
            self.put(numbered(message, commit));
        }
    }

    /// Puts records that are sent again behind the others, where there is room.
    pub fn put_again(&mut self, again: Vec<Sent>)
        requires room { length again.items ≤ self.old.room }
        ensures put { self.new.messages ≡ self.old.messages ++ map sent_again again.items }
    {
        for sent in again {
            self.put(sent_again(sent));
        }
    }

    /// The first, which stays.
    pub fn first(&self) -> Option<&Outgoing>
        ensures { option_copied result ≡ slice_get self.now.messages 0 }
    {
        self.messages.front()
    }

    /// Takes the first away.
    pub fn take_first(&mut self) -> Option<Outgoing>
        ensures first { self.old.messages ≡ option_to_list result ++ self.new.messages }
        ensures some { IsSome result ↔ (0 < length self.old.messages) }
    {
        self.messages.pop_front()
    }

    /// Forgets all.
    pub fn clear(&mut self)
        ensures empty { self.new.messages ≡ [] }
    {
        self.messages.clear();
    }
}

// A record that is sent again, as a message.
fn sent_again(sent: Sent) -> Outgoing
    ensures { result ≡ sent_again sent }
{
    let Sent { sender, delivery } = sent;
    Outgoing::Deliver { delivery, sender }
}

// A message whose record is under another commit number.
fn numbered(message: Outgoing, commit: u64) -> Outgoing
    ensures { result ≡ numbered commit message }
{
    match message {
        Outgoing::Deliver { delivery, sender } => {
            let mut delivery = delivery;
            delivery.id.commit = commit;
            Outgoing::Deliver { delivery, sender }
        }
        Outgoing::Ack { to, id } => Outgoing::Ack { to, id },
    }
}
